// Step 6 of a scan: the output, and its limits. What a scan changes it to, and what is remembered of earlier scans, are
// in files of their own.
#![tactic(auto)]

ghost use Rattle.std.specs.Prelude.{◌≡◌, ◌≤◌, nat_abs};
ghost use Rattle.terms.specs.Fraction.{stored_units, limited_stored};
ghost use Rattle.parameters.specs.Table.{HO, LO};
ghost use Rattle.outputs.specs.Instruction.{stored_arithmetic, limited_to, executed};
ghost use Rattle.outputs.specs.OutputLaws.{ReadingsRange, HistoryRange, OutputRange};
ghost use Rattle.outputs.specs.Outputs.{minimum_of, limits_in, instruction_of, limits_written};

use modes::Mode;
use parameters::Parameters;
use scanned::Scanned;
use setpoints::Readings;
use signals::{Input, Switches};

mod amounts;
pub mod earlier;
pub mod restarted;
mod scanned;

// What is remembered of earlier scans: nothing; the PV and SP of the last one; these and the PV of the one before it.
#[derive(Clone, Copy)]
pub enum History {
    Nothing,
    One { pv: i64, sp: i64 },
    Two { pv: i64, sp: i64, before: i64 },
}

// The previous PV and SP and the PV before, as the terms take them.
#[derive(Clone, Copy)]
pub struct Past {
    pub pv: i64,
    pub sp: i64,
    pub before: i64,
}

// What a scan is computed by: the switches, its mode, whether it goes to minimum in Manual or Forced
// Manual, and its input.
#[derive(Clone, Copy)]
pub struct Context {
    pub switches: Switches,
    pub mode: Mode,
    pub tominimum: bool,
    pub input: Input,
}

// So many whole units, stored.
#[tactic(auto, using(crate::specs::Steps::steps), unfolding(terms::specs::Fraction::stored_units))]
fn units(u: i64) -> i64
    requires { nat_abs u ≤ 65535 }
    ensures { result ≡ stored_units u }
{
    u * amounts::UNIT
}

#[tactic(auto, using(crate::specs::Steps::steps), unfolding(crate::specs::Outputs::minimum_of))]
fn minimum_of(p: Parameters, s: Switches) -> i64
    ensures { (result ≡ minimum_of p s) × (nat_abs result ≤ 65535) }
{
    if s.displayinversion {
        p.get(parameters::HO)
    } else {
        p.get(parameters::LO)
    }
}

// Limited to LO..HO.
#[tactic(auto, using(crate::specs::Steps::steps), unfolding(terms::specs::Fraction::limited_stored))]
fn limited(p: Parameters, output: i64) -> i64
    ensures { result ≡ limited_stored (LO p) (HO p) output }
{
    let low = units(p.get(parameters::LO));
    let high = units(p.get(parameters::HO));
    integers::limit(low, high, output)
}

#[tactic(auto, using(crate::specs::Steps::steps), unfolding(crate::specs::Outputs::limits_in))]
fn limited_in(mode: Mode, p: Parameters, output: i64) -> i64
    ensures { result ≡ limited_to stored_arithmetic (limits_in mode p) output }
{
    if modes::is_limiting(mode) {
        limited(p, output)
    } else {
        output
    }
}

// The stored output after an accepted scan. The contract rules out an output limited in Hold, one that
// is not limited elsewhere, one that never moves, and one that repeats an earlier one.
#[tactic(auto, using(crate::specs::Steps::steps), unfolding(crate::specs::Instruction::executed, crate::specs::Outputs::instruction_of))]
pub fn output_after(p: Parameters, x: Context, r: Readings, h: History, output: i64) -> i64
    requires { ReadingsRange r × HistoryRange h × OutputRange output }
    ensures { result ≡ executed stored_arithmetic (instruction_of p x r h) output }
{
    let mode = x.mode;
    let scanned = Scanned {
        parameters: p,
        context: x,
        readings: r,
        history: h,
        output,
    };
    let to = scanned.changed();
    limited_in(mode, p, to)
}

// The stored output after an accepted write of the parameter with this number. The contract rules out an output
// that HO or LO limits in Hold or Track, one that they leave outside elsewhere, and one that another write moves.
#[tactic(auto, using(crate::specs::Steps::steps), unfolding(crate::specs::Outputs::limits_written))]
pub fn output_written(number: u64, mode: Mode, p: Parameters, output: i64) -> i64
    ensures { result ≡ limited_to stored_arithmetic (limits_written number mode p) output }
{
    match number {
        parameters::HO..=parameters::LO => limited_in(mode, p, output),
        _ => output,
    }
}
