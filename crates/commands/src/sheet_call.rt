// The commands of the sheet, as lines have them, and a line of the arithmetic.
ghost use Rattle.std.specs.Prelude.{◌≡◌, ◌≤◌, length};
ghost use Rattle.commands.specs.Commands.{sheet_number_command, sheet_command, feed_command, calculation_command};

use crate::numbers::alone;
use crate::{Command, SheetCall};
use text::arguments::natural_in;

// sheet-number PLACE VALUE. The contract rules out a place that no number of a sheet has, the two exchanged, and a
// number too few or too many.
#[tactic(auto, unfolding(crate::specs::Commands::sheet_number_command))]
fn number(numbers: &[i64]) -> Option<Command>
    ensures { result ≡ sheet_number_command numbers.now }
{
    let &[place, value] = numbers else {
        return None;
    };
    let place = natural_in(place, 0, 15)?;
    Some(Command::Sheet(SheetCall::Number(place as usize, value)))
}

// A line of the arithmetic. The contract rules out another number than the arithmetic gives.
fn calculation(word: &[u8], numbers: &[i64]) -> Option<Command>
    ensures { result ≡ calculation_command word.now numbers.now }
{
    let number = arithmetic_lines::of_call(word, numbers)?;
    Some(Command::Calculated(number))
}

// A command of the sheet whose arguments are numbers, or a line of the arithmetic, by tests one after another, as in
// `numbers::of_numbers`. The contract rules out the command
// of another word, and one with a number too few or too many.
#[tactic(auto, unfolding(crate::specs::Commands::sheet_command), using(text::specs::Words::same_pointwise))]
pub fn of_word(word: &[u8], numbers: &[i64]) -> Option<Command>
    ensures { result ≡ sheet_command word.now numbers.now }
{
    if word == b"sheet-new".as_slice() {
        return alone(Command::Sheet(SheetCall::New), numbers);
    }
    if word == b"sheet-last".as_slice() {
        return alone(Command::Sheet(SheetCall::Last), numbers);
    }
    if word == b"sheet".as_slice() {
        return alone(Command::Sheet(SheetCall::Read), numbers);
    }
    if word == b"sheet-kept".as_slice() {
        return alone(Command::Sheet(SheetCall::Kept), numbers);
    }
    if word == b"sheet-number".as_slice() {
        return number(numbers);
    }
    calculation(word, numbers)
}

// sheet-feed MODE PV DS OP. The contract rules out another answer than the line has.
#[tactic(auto, unfolding(crate::specs::Commands::feed_command))]
pub fn feed(line: &[u8], start: usize) -> Option<Command>
    requires { start ≤ length line.now }
    ensures { result ≡ feed_command line.now start }
{
    let values = sheet_lines::answer::parse(line, start)?;
    Some(Command::Sheet(SheetCall::Feed(values)))
}
