// The parameters that an image holds: whether they are legal, and what becomes of them under a wrong sumcheck.
ghost use Rattle.std.specs.Prelude.{◌≡◌};
ghost use Rattle.parameters.specs.Legal.{are_legal, keeps};
ghost use Rattle.parameters.specs.Table.{rule_of, value};
ghost use Rattle.parameters.specs.Repaired.{default, ranged_value, by_range, paired_value, by_pairs, repaired};

use crate::Controller;
use parameters::Values;

fn default(number: u64) -> i64
    ensures { result ≡ default number }
{
    Values::of(Controller::DEFAULTS).get(number)
}

// Whether the value with this number keeps its row of the table.
#[tactic(auto, using(integers::specs::Machine::read_back))]
fn keeps(p: Values, number: u64) -> bool
    ensures { result ≡ keeps (rule_of number) (value p) number }
{
    let v = p.get(number);
    let rule = Controller::rule(number);
    rule.in_range(p, v) & rule.pair_in_order(p, number, v)
}

// Whether each value does. The contract rules out a row that isn't looked at.
pub fn are_legal(p: Values) -> bool
    ensures { result ≡ are_legal p }
{
    (parameters::H1..parameters::MD).all(|number| keeps(p, number))
}

#[tactic(auto, using(integers::specs::Machine::read_back), unfolding(parameters::specs::Repaired::ranged_value))]
fn ranged_value(p: Values, number: u64) -> i64
    ensures { result ≡ ranged_value p number }
{
    let v = p.get(number);
    let free = (number == parameters::SL) | (number == parameters::RS);
    if free | Controller::rule(number).in_range(p, v) {
        v
    } else {
        default(number)
    }
}

// A value out of its range takes its default.
fn by_range(p: Values) -> Values
    ensures { result ≡ by_range p }
{
    Values::of(std::array::from_fn(|number| ranged_value(p, number as u64)))
}

#[tactic(auto, using(integers::specs::Machine::read_back), unfolding(parameters::specs::Repaired::paired_value))]
fn paired_value(p: Values, number: u64) -> i64
    ensures { result ≡ paired_value p number }
{
    let v = p.get(number);
    if Controller::rule(number).pair_in_order(p, number, v) {
        v
    } else {
        default(number)
    }
}

// Both of a pair out of order take their defaults.
fn by_pairs(p: Values) -> Values
    ensures { result ≡ by_pairs p }
{
    Values::of(std::array::from_fn(|number| paired_value(p, number as u64)))
}

// The contract rules out HO and LO as the image holds them, pairs that are looked at before the ranges,
// and SL or RS that take defaults.
pub fn repaired(p: Values) -> Values
    ensures { result ≡ repaired p }
{
    let widest = p
        .with(parameters::HO, Controller::OUTPUT_MOST)
        .with(parameters::LO, Controller::OUTPUT_LEAST);
    by_pairs(by_range(widest))
        .limited_anew(parameters::SL, parameters::LS, parameters::HS)
        .limited_anew(parameters::RS, parameters::LR, parameters::HR)
}
