// A line of the hand-held terminal, as a line of the console has it.
ghost use Rattle.std.specs.Prelude.{◌≡◌, ◌≤◌, length};
ghost use Rattle.text.specs.Hexadecimal.{bytes_in};
ghost use Rattle.commands.specs.Commands.{terminal_bytes, terminal_of, terminal_command};

use crate::{Call, Command};
use rights::Writer;
use text::arguments;

// With so many bytes of a line, and the numbers behind them. The contract rules out a line of more than 300 bytes, and
// another number for the LENGTH.
#[tactic(auto, unfolding(crate::specs::Commands::terminal_of))]
fn of_numbers(writer: Writer, count: usize, numbers: &[i64]) -> Option<Command>
    ensures { result ≡ terminal_of writer count numbers.now }
{
    let &[size] = numbers else {
        return None;
    };
    let size = arguments::natural_in(size, 0, 300)?;
    if 300 < count {
        return None;
    }
    Some(Command::Call(Call::Line(writer, count, size as usize)))
}

// line WRITER HEX LENGTH, or - for no bytes. The contract gives every byte of the buffer, so it rules out other bytes
// than the line has; it rules out another writer, and a line that nobody typed.
#[tactic(auto, unfolding(crate::specs::Commands::terminal_command, crate::specs::Commands::terminal_bytes))]
pub fn parse(line: &[u8], start: usize, bytes: &mut [u8]) -> Option<Command>
    requires { start ≤ length line.now }
    ensures command { result ≡ terminal_command line.now start (length bytes.old) }
    ensures bytes_after { bytes.new ≡ bytes_in (terminal_bytes line.now start) bytes.old }
{
    let behind = text::after_words(line, start, 1);
    let word = text::word(line, behind);
    let count = text::hexadecimal::parse(&line[word.from..word.to], bytes)?;
    let writer = crate::writer::parse(line, start)?;
    let numbers = arguments::parse(line, word.to).ok()?;
    of_numbers(writer, count, numbers.as_slice())
}
