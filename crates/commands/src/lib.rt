// The command that a line of the console is. A line of another form is no command.
#![tactic(auto)]

ghost use Rattle.std.specs.Prelude.{◌≡◌, ◌≤◌, length};
ghost use Rattle.text.specs.Hexadecimal.{count_in, bytes_in};
ghost use Rattle.commands.specs.Commands.{named_command, restart_image, restart_of, command_in, bytes_after};

use answers::ScanValues;
use formatting::Text;
use rights::Writer;
use signals::Input;

mod numbers;
mod scan_call;
mod sheet_call;
mod terminal_line;
mod write_call;
mod writer;

// A call of the controller.
#[derive(Clone, Copy)]
pub enum Call {
    Fresh(u16),
    Scan(Input),
    // a parameter's number and a value
    Write(Writer, u64, i32),
    // whether the writer may write the parameter with this number
    Access(Writer, u64),
    Read(u64),
    // with so many bytes at the front of the buffer, which is lent on: no heap
    Restart(usize),
    // into so many bytes
    Save(usize),
    // a line of the terminal, so many bytes at the front of the buffer, with so many bytes for the reply
    Line(Writer, usize, usize),
    Clock,
}

// A command of the drying sheet.
#[derive(Clone, Copy)]
pub enum SheetCall {
    New,
    // enters the answer of the last accepted scan
    Last,
    // enters an answer of the line
    Feed(ScanValues),
    Read,
    // one of the numbers of a kept sheet, by its place, becomes this value
    Number(usize, i64),
    // the sheet with these numbers
    Kept,
}

#[derive(Clone, Copy)]
pub enum Command {
    Call(Call),
    Sheet(SheetCall),
    // a line of the arithmetic, which is answered with this number
    Calculated(i64),
}

// A command that brings no bytes, by its name and what stands behind the name. The contract rules out the command of
// another name. Tests one after another, as in `numbers::of_numbers`.
#[tactic(auto, unfolding(crate::specs::Commands::named_command), using(text::specs::Words::same_pointwise))]
fn of_name(word: &[u8], call: &[u8], start: usize) -> Option<Command>
    requires { start ≤ length call.now }
    ensures { result ≡ named_command word.now call.now start }
{
    if word == b"scan".as_slice() {
        return crate::scan_call::scan(call, start);
    }
    if word == b"sheet-feed".as_slice() {
        return crate::sheet_call::feed(call, start);
    }
    if word == b"write".as_slice() {
        return crate::write_call::write(call, start);
    }
    if word == b"access".as_slice() {
        return crate::write_call::access(call, start);
    }
    let numbers = text::arguments::parse(call, start).ok()?;
    crate::numbers::of_numbers(word, numbers.as_slice())
}

// restart HEX, or - for no bytes: one argument, which is no number. The contract gives every byte of the buffer, so it
// rules out other bytes than the line has.
#[tactic(auto, unfolding(crate::specs::Commands::restart_image))]
fn restart(line: &[u8], start: usize, bytes: &mut [u8]) -> Option<Command>
    requires { start ≤ length line.now }
    ensures command { result ≡ restart_of (count_in (restart_image line.now start) (length bytes.old)) }
    ensures bytes_after { bytes.new ≡ bytes_in (restart_image line.now start) bytes.old }
{
    let word = text::only_word(line, start);
    let count = text::hexadecimal::parse(&line[word.from..word.to], bytes)?;
    Some(Command::Call(Call::Restart(count)))
}

// What a line asks, with a buffer for the bytes of a restart or of a terminal's line; `None` where it is no command. A
// line that fills its text is too long. The contract gives the command and every byte of the buffer, so it
// rules out a command that is taken for another or for none.
#[tactic(auto, unfolding(crate::specs::Commands::command_of), using(text::specs::Words::same_pointwise))]
pub fn parse<const N: usize>(line: &Text<N>, bytes: &mut [u8]) -> Option<Command>
    ensures command { result ≡ command_in line.now (length bytes.old) }
    ensures bytes_after { bytes.new ≡ bytes_after line.now bytes.old }
{
    if line.is_full() {
        return None;
    }
    let call = line.as_slice();
    let span = text::word(call, 0);
    let word = &call[span.from..span.to];
    if word == b"restart".as_slice() {
        return restart(call, span.to, bytes);
    }
    if word == b"line".as_slice() {
        return crate::terminal_line::parse(call, span.to, bytes);
    }
    of_name(word, call, span.to)
}
