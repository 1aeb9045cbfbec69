// What a line asks of a writer's right: a write by this writer, or whether one may be made.
ghost use Rattle.std.specs.Prelude.{◌≡◌, ◌≤◌, length};
ghost use Rattle.commands.specs.Commands.{write_of, write_command, access_of, access_command};

use crate::numbers::number_in;
use crate::{Call, Command};
use rights::Writer;
use text::arguments;

// With a NUMBER and a VALUE: a value that 32 bits don't hold is no call. The contract rules out a write with a number
// too few or too many.
#[tactic(auto, unfolding(crate::specs::Commands::write_of))]
fn write_of(writer: Writer, numbers: &[i64]) -> Option<Command>
    ensures { result ≡ write_of writer numbers.now }
{
    let &[number, value] = numbers else {
        return None;
    };
    let value = arguments::integer_in(value)?;
    Some(Command::Call(Call::Write(writer, number_in(number), value)))
}

// With a NUMBER. The contract rules out a question with no number or with two.
#[tactic(auto, unfolding(crate::specs::Commands::access_of))]
fn access_of(writer: Writer, numbers: &[i64]) -> Option<Command>
    ensures { result ≡ access_of writer numbers.now }
{
    let &[number] = numbers else {
        return None;
    };
    Some(Command::Call(Call::Access(writer, number_in(number))))
}

// write WRITER NUMBER VALUE. The contract rules out a write by nobody, by another writer than the line has, and other
// numbers.
#[tactic(auto, unfolding(crate::specs::Commands::write_command))]
pub fn write(line: &[u8], start: usize) -> Option<Command>
    requires { start ≤ length line.now }
    ensures { result ≡ write_command line.now start }
{
    let writer = crate::writer::parse(line, start)?;
    let numbers = arguments::parse(line, text::after_words(line, start, 1)).ok()?;
    write_of(writer, numbers.as_slice())
}

// access WRITER NUMBER. What it shares with `write` are its first two lines; they give two values. The contract rules
// out a question about nobody, about another writer than the line has, and another number.
#[tactic(auto, unfolding(crate::specs::Commands::access_command))]
pub fn access(line: &[u8], start: usize) -> Option<Command>
    requires { start ≤ length line.now }
    ensures { result ≡ access_command line.now start }
{
    let writer = crate::writer::parse(line, start)?;
    let numbers = arguments::parse(line, text::after_words(line, start, 1)).ok()?;
    access_of(writer, numbers.as_slice())
}
