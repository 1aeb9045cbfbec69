// The drying sheet of a lot, document 02, request 1: what the answers of accepted scans give, one entered after
// another.
#![tactic(auto)]

ghost use Rattle.std.specs.Prelude.{◌≡◌, true, ◌<◌};
ghost use Rattle.sheet.specs.Sheet.{place_of, is_beyond, extreme_after, has_alarm, alarms_after, empty_sheet};
ghost use Rattle.sheet.specs.Sheet.{taken, entered};
ghost use Rattle.sheet.specs.Valid.{is_valid, Valid};

use answers::ScanValues;
use modes::Mode;
use std::marker::Model;

mod kept;
mod values;

// A PV and the number of the scan that it came with.
#[derive(Clone, Copy)]
pub struct Occurrence {
    pub pv: i32,
    pub number: u32,
}

// Which of the two extremes.
#[derive(Clone, Copy)]
pub enum Bound {
    Greatest,
    Least,
}

// All that a sheet holds, for a host that keeps it: how many scans; how many in each mode, in the priority order; "the
// greatest and least PV with the number of the scan where each came first (none on an empty sheet)"; how many with
// either alarm or both; the sums of PV and of OP.
#[derive(Clone, Copy)]
pub struct SheetValues {
    pub scans: u32,
    pub modes: [u32; 8],
    pub greatest: Option<Occurrence>,
    pub least: Option<Occurrence>,
    pub alarms: u32,
    pub sumpv: i64,
    pub sumop: i64,
}

// The field is private, so that a sheet comes from an empty one by answers, or from values that were tested.
#[derive(Clone, Copy)]
pub struct Sheet {
    values: SheetValues,
}

// A contract sees the values alone. They are always those that some list of answers gives, so every sheet can take the
// next call.
impl Model for Sheet {
    ghost use Rattle.std.specs.Prelude.{◌≡◌, true};
    ghost use Rattle.sheet.specs.Contents.{Contents};

    ghost Value = { Contents };

    ghost use Rattle.sheet.specs.Valid.{is_valid};

    ghost view = { λ s. record { values = s.values } };

    ghost invariant = { λ s. is_valid s.values ≡ true };

    ghost inverse = { λ s. record { values = s.values } };
}

// "A sheet holds up to 4,294,967,295 scans; the next one leaves it as it was and says full."
#[derive(Clone, Copy)]
pub struct Full;

// What entering an answer returns: a full sheet comes back as it was, beside `Full` (`entered`).
#[derive(Clone, Copy)]
pub struct EnterResult {
    pub sheet: Sheet,
    pub entry: Result<(), Full>,
}

// Values that no answers give.
#[derive(Clone, Copy)]
pub struct Invalid;

// What a host gets for values that it kept: the sheet, or an empty one beside `Invalid` (`kept_sheet`).
#[derive(Clone, Copy)]
pub struct KeptResult {
    pub sheet: Sheet,
    pub verdict: Result<(), Invalid>,
}

// "Means are handed out as a sum and a count, never divided."
#[derive(Clone, Copy)]
pub struct Mean {
    pub sum: i64,
    pub count: u32,
}

// Where the count of a mode stands. The contract rules out two modes that are counted as one, and another order.
fn place(mode: Mode) -> usize
    ensures { result ≡ place_of mode }
{
    mode as usize
}

// Whether a PV lies beyond another. The contract rules out an equal one.
fn is_beyond(bound: Bound, pv: i32, other: i32) -> bool
    ensures { result ≡ is_beyond bound pv other }
{
    match bound {
        Bound::Greatest => other < pv,
        Bound::Least => pv < other,
    }
}

// An extreme after one more scan. The contract rules out that a later equal PV moves the number.
fn extreme_after(
    bound: Bound,
    extreme: Option<Occurrence>,
    pv: i32,
    number: u32,
) -> Option<Occurrence>
    ensures { result ≡ extreme_after bound extreme pv number }
{
    match extreme {
        Some(first) if !is_beyond(bound, pv, first.pv) => extreme,
        _ => Some(Occurrence { pv, number }),
    }
}

// "scans with either alarm or both". The contract rules out that only one of them counts, and battery or cause as one.
fn has_alarm(ds: u16) -> bool
    ensures { result ≡ has_alarm ds }
{
    !signals::bit(ds, 0) || !signals::bit(ds, 1)
}

#[tactic(auto, unfolding(crate::specs::Sheet::alarms_after))]
fn alarms_after(alarms: u32, ds: u16) -> u32
    requires { alarms < 4294967295 }
    ensures { result ≡ alarms_after alarms ds }
{
    if has_alarm(ds) { alarms + 1 } else { alarms }
}

impl SheetValues {
    // What the sheet holds with one more answer. The contract also says that this can be a sheet's values again.
    fn with(self, answer: ScanValues) -> SheetValues
        requires { (self.scans < 4294967295) × (is_valid self ≡ true) }
        ensures { (result ≡ taken self answer) × (is_valid result ≡ true) }
    {
        let number = self.scans + 1;
        let mut modes = self.modes;
        modes[place(answer.mode)] += 1;
        SheetValues {
            scans: number,
            modes,
            greatest: extreme_after(Bound::Greatest, self.greatest, answer.pv, number),
            least: extreme_after(Bound::Least, self.least, answer.pv, number),
            alarms: alarms_after(self.alarms, answer.ds),
            sumpv: self.sumpv + answer.pv as i64,
            sumop: self.sumop + answer.op as i64,
        }
    }
}

impl Sheet {
    // A sheet that no answer was entered in.
    #[tactic(auto, unfolding(crate::specs::Sheet::empty_sheet), using(crate::specs::EnteredLaws::empty_valid))]
    pub fn empty() -> Sheet
        ensures { (result ≡ empty_sheet) × Valid result }
    {
        Sheet {
            values: SheetValues {
                scans: 0,
                modes: [0; 8],
                greatest: None,
                least: None,
                alarms: 0,
                sumpv: 0,
                sumop: 0,
            },
        }
    }

    // Enters the answer of one accepted scan: the next sheet, and whether it was taken. The contract gives the whole
    // sheet, so it rules out a full sheet of which anything moves, and another value of the answer that is summed; and
    // a sheet that the next call could not take.
    #[tactic(auto, unfolding(crate::specs::Sheet::entered))]
    pub fn enter(self, answer: ScanValues) -> EnterResult
        ensures { (result ≡ entered self answer) × Valid result.sheet }
    {
        if self.values.scans < u32::MAX {
            return EnterResult {
                sheet: Sheet {
                    values: self.values.with(answer),
                },
                entry: Ok(()),
            };
        }
        EnterResult {
            sheet: self,
            entry: Err(Full),
        }
    }
}
