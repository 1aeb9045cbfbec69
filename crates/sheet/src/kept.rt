// A sheet from values that a host kept, over a power cut say: taken if answers can have given them, of any values that
// an answer's types hold.
ghost use Rattle.std.specs.Prelude.{◌≡◌, ◌≤◌, sum};
ghost use Rattle.sheet.specs.ExtremeLaws.{Bounded};
ghost use Rattle.sheet.specs.Valid.{scans_before, sum_bound, is_occurrence, in_order, is_possible};
ghost use Rattle.sheet.specs.Valid.{are_extremes, is_sum_op, is_valid, Valid, kept_sheet};

use crate::{Bound, Invalid, KeptResult, Occurrence, Sheet, SheetValues};

// The greatest OP that an answer's type holds.
const MOST_OP: i64 = u16::MAX as i64;

// The contract rules out a count that is left out, or wraps.
fn total(counts: [u32; 8]) -> u64
    ensures { result ≡ sum counts }
{
    counts.iter().map(|&n| n as u64).sum()
}

// How many scans stand before number `here`, the one at `other` left out.
#[tactic(auto, unfolding(crate::specs::Valid::scans_before))]
fn scans_before(here: u32, other: u32) -> u32
    requires { (1 ≤ here) × (1 ≤ other) }
    ensures { result ≡ scans_before here other }
{
    if other < here { here - 2 } else { here - 1 }
}

// The greatest or the least sum that scans can give, with these extremes: `here` is the one of that bound.
fn sum_bound(bound: Bound, scans: u32, here: Occurrence, other: Occurrence) -> i64
    requires bounded { Bounded bound scans here other }
    requires few { scans ≤ 4294967295 }
    ensures { result ≡ sum_bound bound scans here other }
{
    let sum = here.pv as i64 * (scans - 1) as i64 + other.pv as i64;
    let earlier = scans_before(here.number, other.number) as i64;
    match bound {
        Bound::Greatest => sum - earlier,
        Bound::Least => sum + earlier,
    }
}

#[tactic(auto, using(crate::specs::ValidLaws::occurrence_by))]
fn is_occurrence(scans: u32, first: Occurrence) -> bool
    ensures { result ≡ is_occurrence scans first }
{
    1 <= first.number && first.number <= scans
}

#[tactic(auto, unfolding(crate::specs::Valid::in_order))]
fn in_order(greatest: Occurrence, least: Occurrence) -> bool
    ensures { result ≡ in_order greatest least }
{
    let at = greatest.number;
    let other = least.number;
    if least.pv < greatest.pv {
        return at != other && (at == 1 || other == 1 || least.pv + 1 < greatest.pv);
    }
    least.pv <= greatest.pv && at == 1 && other == 1
}

#[tactic(auto, unfolding(crate::specs::Valid::is_possible))]
fn is_possible(scans: u32, greatest: Occurrence, least: Occurrence, sum: i64) -> bool
    ensures { result ≡ is_possible scans greatest least sum }
{
    is_occurrence(scans, greatest)
        && is_occurrence(scans, least)
        && in_order(greatest, least)
        && sum_bound(Bound::Least, scans, least, greatest) <= sum
        && sum <= sum_bound(Bound::Greatest, scans, greatest, least)
}

fn are_extremes(
    scans: u32,
    greatest: Option<Occurrence>,
    least: Option<Occurrence>,
    sum: i64,
) -> bool
    ensures { result ≡ are_extremes scans greatest least sum }
{
    match (greatest, least) {
        (None, None) => scans == 0 && 0 <= sum && sum <= 0,
        (Some(high), Some(low)) => is_possible(scans, high, low, sum),
        _ => false,
    }
}

fn is_sum_op(scans: u32, sum: i64) -> bool
    ensures { result ≡ is_sum_op scans sum }
{
    0 <= sum && sum <= MOST_OP * scans as i64
}

// The contract rules out values that no answers give, and the refusal of values that some do.
#[tactic(auto, unfolding(crate::specs::Valid::is_valid))]
fn is_valid(values: SheetValues) -> bool
    ensures { result ≡ is_valid values }
{
    total(values.modes) == values.scans as u64
        && values.alarms <= values.scans
        && are_extremes(values.scans, values.greatest, values.least, values.sumpv)
        && is_sum_op(values.scans, values.sumop)
}

impl Sheet {
    // The sheet with these values, if it is a valid one. The contract rules out that anything of an invalid one is
    // taken, and a sheet that the next call could not take.
    #[tactic(auto, unfolding(crate::specs::Valid::kept_sheet))]
    pub fn kept(values: SheetValues) -> KeptResult
        ensures { (result ≡ kept_sheet values) × Valid result.sheet }
    {
        if is_valid(values) {
            return KeptResult {
                sheet: Sheet { values },
                verdict: Ok(()),
            };
        }
        KeptResult {
            sheet: Sheet::empty(),
            verdict: Err(Invalid),
        }
    }
}
