// What the row of a parameter's number asks of a value: a range, and the order of a pair; or its refusal.
ghost use Rattle.std.specs.Prelude.{◌≡◌};
ghost use Rattle.signals.specs.Refusals.{number_in};
ghost use Rattle.parameters.specs.Table.{value};
ghost use Rattle.parameters.specs.Legal.{unknown_refusal, read_only_refusal, is_within, in_order, ordered, in_range, pair_in_order};

use crate::{Rule, Values};
use signals::Refusal;

#[tactic(auto, using(integers::specs::Machine::read_back))]
fn is_within(low: i64, high: i64, v: i64) -> bool
    ensures { result ≡ is_within low high v }
{
    (low <= v) & (v <= high)
}

#[tactic(auto, using(integers::specs::Machine::read_back))]
fn in_order(strict: bool, low: i64, high: i64) -> bool
    ensures { result ≡ in_order strict low high }
{
    if strict { low < high } else { low <= high }
}

// A value for the upper one of a pair is tested against the stored value of the lower one, and any other against that
// of the upper one. The contract rules out the wrong sense.
fn ordered(p: Values, high: u64, low: u64, strict: bool, number: u64, v: i64) -> bool
    ensures { result ≡ ordered (value p) high low strict number v }
{
    if number == high {
        in_order(strict, p.get(low), v)
    } else {
        in_order(strict, v, p.get(high))
    }
}

impl Rule {
    // The refusal of a number that has no parameter. The contract rules out one for any other row.
    pub fn unknown_verdict(self) -> Result<(), Refusal>
        ensures { number_in result ≡ unknown_refusal self }
    {
        match self {
            Rule::Unknown(refusal) => Err(refusal),
            _ => Ok(()),
        }
    }

    // The refusal of a parameter that can't be written: another case, and a case can't be an argument. The contract
    // rules out one for any other row.
    pub fn read_only_verdict(self) -> Result<(), Refusal>
        ensures { number_in result ≡ read_only_refusal self }
    {
        match self {
            Rule::ReadOnly(refusal) => Err(refusal),
            _ => Ok(()),
        }
    }

    // The contract rules out a range that is off by one at an end, and SL or RS held against fixed ends.
    pub fn in_range(self, p: Values, v: i64) -> bool
        ensures { result ≡ in_range self (value p) v }
    {
        // tried: one arm for these three binds numbers of several cases, which the kit's check doesn't take
        match self {
            Rule::Unknown(_) | Rule::ReadOnly(_) => true,
            Rule::Word(least, most) => is_within(least, most, v),
            Rule::Free(least, most) => is_within(least, most, v),
            Rule::Pair(least, most, _, _, _) => is_within(least, most, v),
            Rule::Between(low, high) => is_within(p.get(low), p.get(high), v),
        }
    }

    // Whether v and the stored value of the other one that the row names are in order. The contract rules
    // out the wrong sense, another one than that, and equal ends of a channel.
    pub fn pair_in_order(self, p: Values, number: u64, v: i64) -> bool
        ensures { result ≡ pair_in_order self (value p) number v }
    {
        match self {
            Rule::Pair(_, _, high, low, strict) => ordered(p, high, low, strict, number, v),
            _ => true,
        }
    }
}
