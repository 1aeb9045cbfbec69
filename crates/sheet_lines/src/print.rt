// The text of a sheet, appended to the output. Each contract also says how long the text is at the most, so that a
// caller knows that it fits: a fact of what is written, not of a value, so it is in no type.
ghost use Rattle.std.specs.Prelude.{◌+◌, length};
ghost use Rattle.sheet_lines.specs.Appended.{TextAppended};
ghost use Rattle.sheet_lines.specs.SheetText.{named, number_text, sum_text, occurrence_text, extreme_text, extremes_text};
ghost use Rattle.sheet_lines.specs.SheetText.{count_text, counts_text, sheet_text};

use formatting::Text;
use modes::Mode;
use sheet::{Occurrence, Sheet};

// A blank, a name and an equals sign.
fn append_name<const N: usize>(out: &mut Text<N>, name: &[u8])
    ensures { TextAppended out.old out.new (named name.now) (length name.now + 2) }
{
    out.push(b' ');
    out.push_all(name);
    out.push(b'=');
}

// A number with its name.
fn append_number<const N: usize>(out: &mut Text<N>, name: &[u8], number: u32)
    ensures { TextAppended out.old out.new (number_text name.now number) (length name.now + 12) }
{
    append_name(out, name);
    out.push_decimal(number as u64);
}

// A sum with its name. The contract rules out a sign that is lost.
fn append_sum<const N: usize>(out: &mut Text<N>, name: &[u8], sum: i64)
    ensures { TextAppended out.old out.new (sum_text name.now sum) (length name.now + 22) }
{
    append_name(out, name);
    out.push_signed(sum);
}

// A PV and the number of its scan. The contract rules out a sign that is lost, and the two exchanged.
fn append_occurrence<const N: usize>(out: &mut Text<N>, first: Occurrence)
    ensures { TextAppended out.old out.new (occurrence_text first) 22 }
{
    out.push_signed(i64::from(first.pv));
    out.push(b'@');
    out.push_decimal(first.number as u64);
}

// The greatest or the least PV, with its name.
fn append_extreme<const N: usize>(out: &mut Text<N>, name: &[u8], extreme: Option<Occurrence>)
    ensures { TextAppended out.old out.new (extreme_text name.now extreme) (length name.now + 24) }
{
    append_name(out, name);
    match extreme {
        None => out.push_all(b"none"),
        Some(first) => append_occurrence(out, first),
    }
}

// Both of them. The contract rules out the two exchanged.
fn append_extremes<const N: usize>(out: &mut Text<N>, sheet: Sheet)
    ensures { TextAppended out.old out.new (extremes_text sheet.values) 54 }
{
    append_extreme(out, b"max", sheet.greatest());
    append_extreme(out, b"min", sheet.least());
}

// How many scans there were in a mode, with its word as the name.
fn append_count<const N: usize>(out: &mut Text<N>, sheet: Sheet, mode: Mode)
    ensures { TextAppended out.old out.new (count_text sheet.values mode) 20 }
{
    append_name(out, crate::mode::word_of(mode));
    out.push_decimal(sheet.scans_in(mode) as u64);
}

// The counts of all modes. The contract rules out one that is left out, and another order.
fn append_counts<const N: usize>(out: &mut Text<N>, sheet: Sheet)
    ensures { TextAppended out.old out.new (counts_text sheet.values) 160 }
{
    for mode in crate::mode::MODES {
        append_count(out, sheet, mode);
    }
}

// The text of a sheet, without the line's end. The contract gives every byte, so it rules out a value that is
// another's.
pub fn append_sheet<const N: usize>(out: &mut Text<N>, sheet: Sheet)
    ensures { TextAppended out.old out.new (sheet_text sheet.values) 308 }
{
    out.push_all(b"sheet");
    append_number(out, b"scans", sheet.scans());
    append_counts(out, sheet);
    append_extremes(out, sheet);
    append_number(out, b"alarms", sheet.scans_with_alarm());
    append_sum(out, b"sumpv", sheet.sum_pv());
    append_sum(out, b"sumop", sheet.sum_op());
}
