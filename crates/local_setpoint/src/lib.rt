// The local setpoint SL and the ratio setpoint RS in a scan. Step 4: moved by hand; SL that tracks PV. Step 5: SL that
// follows SP.
#![tactic(auto)]

ghost use Rattle.std.specs.Prelude.{◌≡◌, ◌≤◌};
ghost use Rattle.integers.specs.Limit.{limited};
ghost use Rattle.integers.specs.Machine.{Small};
ghost use Rattle.parameters.specs.Table.{value, HS, LS};
ghost use Rattle.local_setpoint.specs.LocalSetpoint.{moved, moved_by_hand, ratio_after, setpoint_moved, setpoint_after};
ghost use Rattle.local_setpoint.specs.LocalSetpoint.{following_setpoint};

use modes::Mode;
use parameters::{Parameters, Values};
use signals::{Adjustment, Input};

// What Raise or Lower moves RS and SL by while SP is held.
const RATIO_STEP: i64 = 12;

const SETPOINT_STEP: i64 = 1;

// A setpoint limited to LS..HS.
pub fn limited_setpoint(p: Values, v: i64) -> i64
    ensures { result ≡ limited (LS p) (HS p) v }
{
    let low = p.get(parameters::LS);
    let high = p.get(parameters::HS);
    integers::limit(low, high, v)
}

fn moved(adjustment: Adjustment, by: i64, low: i64, high: i64, v: i64) -> i64
    requires { Small by × Small v }
    ensures { result ≡ moved adjustment by low high v }
{
    match adjustment {
        Adjustment::Raise => integers::limit(low, high, v + by),
        Adjustment::Lower => integers::limit(low, high, v - by),
        Adjustment::Neither => v,
    }
}

// The parameter of this number, moved between the two of the numbers low and high.
#[tactic(auto, using(crate::specs::LocalSetpointLaws::moves), unfolding(crate::specs::LocalSetpoint::moved_by_hand))]
fn moved_by_hand(
    p: Parameters,
    input: Input,
    here: bool,
    by: i64,
    low: u64,
    high: u64,
    number: u64,
) -> i64
    requires { Small by × 1 ≤ number × number ≤ 23 }
    ensures { result ≡ moved_by_hand input here by (value p low) (value p high) (value p number) }
{
    let b = signals::buttons_of(input.buttons);
    let adjustment = signals::adjustment_of(b);
    let v = p.get(number);
    let least = p.get(low);
    let most = p.get(high);
    if b.sp & here {
        moved(adjustment, by, least, most, v)
    } else {
        v
    }
}

// RS after step 4. The contract rules out that hands move it in another mode than Ratio, or past its limits.
#[tactic(auto, using(integers::specs::Machine::read_back), unfolding(crate::specs::LocalSetpoint::ratio_after))]
pub fn ratio_after(p: Parameters, mode: Mode, input: Input) -> i64
    ensures { result ≡ ratio_after p mode input }
{
    moved_by_hand(
        p,
        input,
        mode == Mode::Ratio,
        RATIO_STEP,
        parameters::LR,
        parameters::HR,
        parameters::RS,
    )
}

#[tactic(auto, using(integers::specs::Machine::read_back), unfolding(crate::specs::LocalSetpoint::setpoint_moved))]
fn setpoint_moved(p: Parameters, mode: Mode, input: Input) -> i64
    ensures { result ≡ setpoint_moved p mode input }
{
    moved_by_hand(
        p,
        input,
        !matches!(mode, Mode::Ratio | Mode::Remote),
        SETPOINT_STEP,
        parameters::LS,
        parameters::HS,
        parameters::SL,
    )
}

// SL after step 4. The contract rules out a setpoint that tracks PV in an automatic mode or while channel 1 is open.
#[tactic(auto, using(integers::specs::Machine::read_back), unfolding(crate::specs::LocalSetpoint::setpoint_after))]
pub fn setpoint_after(p: Parameters, setpointtracks: bool, mode: Mode, input: Input, pv: i64) -> i64
    ensures { result ≡ setpoint_after p setpointtracks mode input pv }
{
    if setpointtracks & !modes::is_automatic(mode) {
        if signals::is_open(input) {
            p.get(parameters::SL)
        } else {
            limited_setpoint(p.values(), pv)
        }
    } else {
        setpoint_moved(p, mode, input)
    }
}

// SL after step 5, sl being SL after step 4. In Remote the trim is taken off SP, because a scan in Fall-back adds it
// again. The contract rules out that the trim stays in SL in Remote, that SL leaves its limits by it, that Ratio takes
// it off too, and that SL follows SP in any other mode.
#[tactic(auto, using(integers::specs::Machine::read_back), unfolding(crate::specs::LocalSetpoint::following_setpoint))]
pub fn following_setpoint(p: Values, mode: Mode, sl: i64, sp: i64, trim: i64) -> i64
    requires { Small sp × Small trim }
    ensures { result ≡ following_setpoint p mode sl sp trim }
{
    match mode {
        Mode::Remote => limited_setpoint(p, sp - trim),
        Mode::Ratio => sp,
        _ => sl,
    }
}
