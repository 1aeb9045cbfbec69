// An answer as a line has it, MODE PV DS OP, to be entered in a sheet.
ghost use Rattle.std.specs.Prelude.{◌≡◌, ◌≤◌, length};
ghost use Rattle.sheet_lines.specs.Answers.{answer_of_numbers, answer_from};

use answers::ScanValues;
use modes::Mode;
use text::arguments;

// The answer with this mode and the numbers PV DS OP, with a PV of 32 bits. The contract rules out a number of another
// place, one out of its range that is taken, one in range that isn't, and a number too few or too many.
#[tactic(auto, unfolding(crate::specs::Answers::answer_of_numbers))]
fn of_numbers(mode: Mode, numbers: &[i64]) -> Option<ScanValues>
    ensures { result ≡ answer_of_numbers mode numbers.now }
{
    let &[pv, ds, op] = numbers else {
        return None;
    };
    let pv = arguments::integer_in(pv)?;
    let ds = arguments::natural_in(ds, 0, 65535)?;
    let op = arguments::natural_in(op, 0, 65535)?;
    Some(ScanValues {
        md: 0,
        ds: ds as u16,
        op: op as u16,
        electrical: 0,
        mode,
        pv,
    })
}

// The answer that a line has from a position on. The contract rules out another answer than the line has, one without
// a mode, and one that is taken of a line with another form.
#[tactic(auto, unfolding(crate::specs::Answers::answer_from))]
pub fn parse(line: &[u8], start: usize) -> Option<ScanValues>
    requires { start ≤ length line.now }
    ensures { result ≡ answer_from line.now start }
{
    let word = text::word(line, start);
    let mode = crate::mode::parse(&line[word.from..word.to])?;
    let numbers = arguments::parse(line, word.to).ok()?;
    of_numbers(mode, numbers.as_slice())
}
