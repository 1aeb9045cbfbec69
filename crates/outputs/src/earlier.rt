// What is remembered of earlier scans: before a scan, in its terms, and after it.
ghost use Rattle.std.specs.Prelude.{◌≡◌};
ghost use Rattle.outputs.specs.History.{history_before, recalled, remembered, history_after};

use crate::{History, Past};
use setpoints::Readings;

// The contract rules out a gap that forgets only a part, and a scan after none that forgets.
#[tactic(auto, unfolding(crate::specs::History::history_before))]
pub fn history_before(h: History, aftergap: bool) -> History
    ensures { result ≡ history_before h aftergap }
{
    if aftergap { History::Nothing } else { h }
}

pub fn recalled(h: History, r: Readings) -> Past
    ensures { result ≡ recalled h r }
{
    match h {
        History::Nothing => Past {
            pv: r.pv,
            sp: r.sp,
            before: r.pv,
        },
        History::One { pv, sp } => Past { pv, sp, before: pv },
        History::Two { pv, sp, before } => Past { pv, sp, before },
    }
}

fn remembered(h: History, r: Readings) -> History
    ensures { result ≡ remembered h r }
{
    match h {
        History::Nothing => History::One { pv: r.pv, sp: r.sp },
        History::One { pv, sp } => History::Two {
            pv: r.pv,
            sp: r.sp,
            before: pv,
        },
        History::Two { pv, sp, before } => History::Two {
            pv: r.pv,
            sp: r.sp,
            before: pv,
        },
    }
}

// The contract rules out an open scan that is remembered and one that forgets only a part.
#[tactic(auto, unfolding(crate::specs::History::history_after))]
pub fn history_after(h: History, isopen: bool, r: Readings) -> History
    ensures { result ≡ history_after h isopen r }
{
    if isopen {
        History::Nothing
    } else {
        remembered(h, r)
    }
}
