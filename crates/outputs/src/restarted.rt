// The output after an accepted restart.
ghost use Rattle.std.specs.Prelude.{◌≡◌};
ghost use Rattle.parameters.specs.Table.{HO, LO};
ghost use Rattle.terms.specs.Fraction.{stored_units, limited_stored};
ghost use Rattle.outputs.specs.Outputs.{restarted_to};

use parameters::Parameters;
use signals::Switches;

// The contract rules out an OP that is left outside its limits, and a minimum that ignores S2.2.
#[tactic(auto, using(crate::specs::Steps::steps), unfolding(crate::specs::Outputs::restarted_to))]
pub fn output_restarted(p: Parameters, s: Switches, tominimum: bool, op: u16) -> i64
    ensures { result ≡ limited_stored (LO p) (HO p) (stored_units (restarted_to p s tominimum op)) }
{
    let to = if tominimum {
        crate::minimum_of(p, s)
    } else {
        i64::from(op)
    };
    crate::limited(p, crate::units(to))
}
