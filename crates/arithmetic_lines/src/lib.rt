// The lines of the arithmetic: a call's name and its arguments, and the number that answers them. Each argument is
// tested against its range before the function is called.
#![tactic(auto)]

ghost use Rattle.std.specs.Prelude.{◌≡◌, ◌≤◌, nat_abs, IfSome};
ghost use Rattle.arithmetic_lines.specs.Calculations.{signed_in, scale_calculation, root_calculation, limit_calculation};
ghost use Rattle.arithmetic_lines.specs.Calculations.{ratio_calculation, tuning_in, proportional_calculation};
ghost use Rattle.arithmetic_lines.specs.Calculations.{integral_calculation, derivative_calculation, calculation_of};

use terms::Tuning;
use text::arguments::natural_in;

// A number of at most that size, above or below zero. The contract rules out a value in range that isn't accepted, and
// another number in its place.
#[tactic(auto, unfolding(crate::specs::Calculations::signed_in))]
fn signed_in(value: i64, most: u64) -> Option<i64>
    ensures value { result ≡ signed_in value most }
    ensures range { IfSome result (λ v. nat_abs v ≤ most) }
{
    if most < value.unsigned_abs() {
        None
    } else {
        Some(value)
    }
}

// scale L H SAMPLE. This contract and those below rule out another function than the line names, an argument of another
// place, one that isn't tested, and a call in range that isn't answered.
#[tactic(auto, unfolding(crate::specs::Calculations::scale_calculation))]
fn scale(numbers: &[i64]) -> Option<i64>
    ensures { result ≡ scale_calculation numbers.now }
{
    let &[low, high, sample] = numbers else {
        return None;
    };
    let low = signed_in(low, 9999)?;
    let high = signed_in(high, 9999)?;
    let sample = natural_in(sample, 0, 10000)?;
    if low < high {
        return Some(scaling::scale(low, high, sample as u16));
    }
    None
}

// root SAMPLE
#[tactic(auto, unfolding(crate::specs::Calculations::root_calculation))]
fn root(numbers: &[i64]) -> Option<i64>
    ensures { result ≡ root_calculation numbers.now }
{
    let &[sample] = numbers else {
        return None;
    };
    let sample = natural_in(sample, 0, 10000)?;
    Some(scaling::root(sample as u16) as i64)
}

// limit LOW HIGH VALUE
#[tactic(auto, unfolding(crate::specs::Calculations::limit_calculation))]
fn limit(numbers: &[i64]) -> Option<i64>
    ensures { result ≡ limit_calculation numbers.now }
{
    let &[low, high, value] = numbers else {
        return None;
    };
    let low = signed_in(low, 999999999)?;
    let high = signed_in(high, 999999999)?;
    let value = signed_in(value, 999999999)?;
    if low <= high {
        return Some(integers::limit(low, high, value));
    }
    None
}

// ratio Q S, or inverse Q S
#[tactic(auto, unfolding(crate::specs::Calculations::ratio_calculation))]
fn ratio(numbers: &[i64], inverse: bool) -> Option<i64>
    ensures { result ≡ ratio_calculation numbers.now inverse }
{
    let &[q, s] = numbers else {
        return None;
    };
    let q = signed_in(q, 9999)?;
    let s = natural_in(s, 1, 9999)?;
    Some(if inverse {
        scaling::inverse_ratio(q, s)
    } else {
        scaling::ratio(q, s)
    })
}

// The tuning of XP and W, with which every term's arguments begin, and of the rest. The contract rules out that the two
// are exchanged, or tested against each other's range.
#[tactic(auto, unfolding(crate::specs::Calculations::tuning_in))]
fn tuning_in(xp: i64, span: i64, ti: u64, td: u64, minutes: bool, inverted: bool) -> Option<Tuning>
    requires { (ti ≤ 9999) × (td ≤ 9999) }
    ensures { result ≡ tuning_in xp span ti td minutes inverted }
{
    let xp = natural_in(xp, 1, 9999)?;
    let span = natural_in(span, 1, 19998)?;
    Some(Tuning {
        xp,
        span,
        ti,
        td,
        minutes,
        inverted,
    })
}

// proportional XP W CHANGE
#[tactic(auto, unfolding(crate::specs::Calculations::proportional_calculation))]
fn proportional(numbers: &[i64]) -> Option<i64>
    ensures { result ≡ proportional_calculation numbers.now }
{
    let &[xp, span, change] = numbers else {
        return None;
    };
    let tuning = tuning_in(xp, span, 0, 0, false, false)?;
    let change = signed_in(change, 39996)?;
    Some(terms::proportional(tuning, change))
}

// integral XP W TI MINUTES C
#[tactic(auto, unfolding(crate::specs::Calculations::integral_calculation))]
fn integral(numbers: &[i64]) -> Option<i64>
    ensures { result ≡ integral_calculation numbers.now }
{
    let &[xp, span, ti, minutes, c] = numbers else {
        return None;
    };
    let ti = natural_in(ti, 0, 9999)?;
    let minutes = natural_in(minutes, 0, 1)?;
    let tuning = tuning_in(xp, span, ti, 0, minutes == 1, false)?;
    let c = signed_in(c, 19998)?;
    Some(terms::integral(tuning, c))
}

// derivative XP W TD MINUTES INVERTED D
#[tactic(auto, unfolding(crate::specs::Calculations::derivative_calculation))]
fn derivative(numbers: &[i64]) -> Option<i64>
    ensures { result ≡ derivative_calculation numbers.now }
{
    let &[xp, span, td, minutes, inverted, d] = numbers else {
        return None;
    };
    let td = natural_in(td, 0, 9999)?;
    let minutes = natural_in(minutes, 0, 1)?;
    let inverted = natural_in(inverted, 0, 1)?;
    let tuning = tuning_in(xp, span, 0, td, minutes == 1, inverted == 1)?;
    let d = signed_in(d, 39996)?;
    Some(terms::derivative(tuning, d))
}

// What answers a line of the arithmetic, by its first word and its arguments, by tests one after another, as in
// `commands::numbers::of_numbers`; `None` where it is no call, or an argument lies outside its range.
#[tactic(auto, unfolding(crate::specs::Calculations::calculation_of), using(text::specs::Words::same_pointwise))]
pub fn of_call(word: &[u8], numbers: &[i64]) -> Option<i64>
    ensures { result ≡ calculation_of word.now numbers.now }
{
    if word == b"scale".as_slice() {
        return scale(numbers);
    }
    if word == b"root".as_slice() {
        return root(numbers);
    }
    if word == b"limit".as_slice() {
        return limit(numbers);
    }
    if word == b"ratio".as_slice() {
        return ratio(numbers, false);
    }
    if word == b"inverse".as_slice() {
        return ratio(numbers, true);
    }
    if word == b"proportional".as_slice() {
        return proportional(numbers);
    }
    if word == b"integral".as_slice() {
        return integral(numbers);
    }
    if word == b"derivative".as_slice() {
        return derivative(numbers);
    }
    None
}
