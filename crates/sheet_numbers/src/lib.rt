// The sixteen numbers of a kept sheet, and the values that they stand for. Place 0 is how many scans there were, 1 to 8
// how many in each mode in the priority order, 9 the greatest PV and 10 the number of its scan, 11 the least PV and 12
// the number of its scan, 13 how many scans with an alarm, 14 the sum of PV and 15 that of OP. Where the number of a
// scan is 0 there is no extreme.
#![tactic(auto)]

ghost use Rattle.std.specs.Prelude.{◌≡◌, IfErr};
ghost use Rattle.std.specs.Result.{result_ok};
ghost use Rattle.sheet_numbers.specs.Numbers.{no_numbers, count_in, extreme_in, counts_in, values_in, with_number};
ghost use Rattle.sheet_numbers.specs.Numbers.{count_or_zero, extreme_or_none, values_or_zero};

use sheet::{Occurrence, SheetValues};

// All 0, before any is set. The contract rules out others.
pub fn no_numbers() -> [i64; 16]
    ensures { result ≡ no_numbers }
{
    [0; 16]
}

// A number of 32 bits that is never below zero. The contract rules out a number in range that isn't accepted, and
// another in its place.
#[tactic(auto, unfolding(crate::specs::Numbers::count_in))]
fn count_in(number: i64) -> Option<u32>
    ensures { result ≡ count_in number }
{
    u32::try_from(number).ok()
}

// A PV and the number of its scan; 0 there means none, whatever the PV is. The contract rules out a PV that is looked
// at beside 0, and one beside another number that isn't.
#[tactic(auto, unfolding(crate::specs::Numbers::extreme_in, crate::specs::Numbers::pv_in))]
fn extreme_in(pv: i64, number: i64) -> Option<Option<Occurrence>>
    ensures { result ≡ extreme_in pv number }
{
    let number = count_in(number)?;
    if number == 0 {
        return Some(None);
    }
    let pv = i32::try_from(pv).ok()?;
    Some(Some(Occurrence { pv, number }))
}

// The numbers at places 1 to 8. The contract rules out one that isn't tested, and a mode's count of another place.
#[tactic(auto, unfolding(crate::specs::Numbers::counts_in))]
fn counts_in(numbers: [i64; 16]) -> Option<[u32; 8]>
    ensures { result ≡ counts_in numbers }
{
    let [
        _,
        hold,
        track,
        forced,
        manual,
        auto,
        remote,
        ratio,
        fallback,
        ..
    ] = numbers;
    Some([
        count_in(hold)?,
        count_in(track)?,
        count_in(forced)?,
        count_in(manual)?,
        count_in(auto)?,
        count_in(remote)?,
        count_in(ratio)?,
        count_in(fallback)?,
    ])
}

// The values where all numbers are in range. The contract rules out a number that isn't tested, and a value of another
// place.
#[tactic(auto, unfolding(crate::specs::Numbers::values_in))]
fn whole(numbers: [i64; 16]) -> Option<SheetValues>
    ensures { result ≡ values_in numbers }
{
    Some(SheetValues {
        scans: count_in(numbers[0])?,
        modes: counts_in(numbers)?,
        greatest: extreme_in(numbers[9], numbers[10])?,
        least: extreme_in(numbers[11], numbers[12])?,
        alarms: count_in(numbers[13])?,
        sumpv: numbers[14],
        sumop: numbers[15],
    })
}

// The number, or 0 where it is out of range.
#[tactic(auto, unfolding(crate::specs::Numbers::count_or_zero))]
fn count_or_zero(number: i64) -> u32
    ensures { result ≡ count_or_zero number }
{
    count_in(number).unwrap_or(0)
}

// None where the number of the scan is 0 or out of range, and a PV of 0 where that is out of range.
#[tactic(auto, unfolding(crate::specs::Numbers::extreme_or_none, crate::specs::Numbers::pv_in))]
fn extreme_or_none(pv: i64, number: i64) -> Option<Occurrence>
    ensures { result ≡ extreme_or_none pv number }
{
    let number = count_or_zero(number);
    if number == 0 {
        return None;
    }
    let pv = i32::try_from(pv).unwrap_or(0);
    Some(Occurrence { pv, number })
}

// The values of the numbers that are in range, and 0 or none of the others.
#[tactic(auto, unfolding(crate::specs::Numbers::values_or_zero))]
fn values_or_zero(numbers: [i64; 16]) -> SheetValues
    ensures { result ≡ values_or_zero numbers }
{
    SheetValues {
        scans: count_or_zero(numbers[0]),
        modes: [
            count_or_zero(numbers[1]),
            count_or_zero(numbers[2]),
            count_or_zero(numbers[3]),
            count_or_zero(numbers[4]),
            count_or_zero(numbers[5]),
            count_or_zero(numbers[6]),
            count_or_zero(numbers[7]),
            count_or_zero(numbers[8]),
        ],
        greatest: extreme_or_none(numbers[9], numbers[10]),
        least: extreme_or_none(numbers[11], numbers[12]),
        alarms: count_or_zero(numbers[13]),
        sumpv: numbers[14],
        sumop: numbers[15],
    }
}

// The values that the numbers stand for; where one is out of its range, `Err` with the values of the others. The
// contract rules out a number that isn't tested, a value of another place, and a value that is lost on a refusal.
pub fn values_in(numbers: [i64; 16]) -> Result<SheetValues, SheetValues>
    ensures value { result_ok result ≡ values_in numbers }
    ensures refused { IfErr result (λ v. v ≡ values_or_zero numbers) }
{
    whole(numbers).ok_or_else(|| values_or_zero(numbers))
}

// One of the sixteen numbers set; a place beyond them sets none. The contract rules out that another number changes.
#[tactic(auto, unfolding(crate::specs::Numbers::with_number))]
pub fn with_number(mut numbers: [i64; 16], place: usize, value: i64) -> [i64; 16]
    ensures { result ≡ with_number numbers place value }
{
    if place < 16 {
        numbers[place] = value;
    }
    numbers
}
