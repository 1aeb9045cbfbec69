// A line of the hand-held terminal: a parameter read or written by its mnemonic, and the reply in a lent buffer.
#![tactic(auto)]

ghost use Rattle.std.specs.Prelude.{◌≡◌, ◌≤◌, Err, length};
ghost use Rattle.terminal.specs.Terminal.{replied, outcome_of, read_to, written_to, answered};

use command::Command;
use controller::Controller;
use mnemonic::Parameter;
use rights::Writer;
use signals::Refusal;

mod command;
mod mnemonic;
mod reply;

// Both in a struct, since a refused line returns the controller too (`outcome_of`). The next controller; and how many
// bytes the reply has, at the front of the buffer, or why the line isn't taken.
#[derive(Clone, Copy)]
pub struct LineResult {
    pub controller: Controller,
    pub answer: Result<usize, Refusal>,
}

// The fewest bytes that a reply buffer may have: those of the longest reply.
pub const REPLY_LENGTH: usize = 9;

fn refused(controller: Controller, refusal: Refusal) -> LineResult
    ensures { result ≡ record { controller = controller; answer = Err refusal } }
{
    LineResult {
        controller,
        answer: Err(refusal),
    }
}

// The reply with the present value; a read of one of these numbers is never refused. The contract rules out the value
// of another parameter, one of an earlier state, and a byte that changes behind the reply.
fn show(controller: Controller, parameter: Parameter, reply: &mut [u8]) -> LineResult
    requires { 9 ≤ length reply.old }
    ensures { outcome_of result reply.new ≡ replied controller parameter reply.old }
{
    controller.valid();
    let present = controller.read(parameter.number());
    match present {
        Ok(value) => LineResult {
            controller,
            answer: Ok(reply::write(parameter, value, reply)),
        },
        Err(refusal) => refused(controller, refusal),
    }
}

// A read needs no writer. The contract rules out that it needs a right.
fn read(controller: Controller, parameter: Parameter, reply: &mut [u8]) -> LineResult
    ensures { outcome_of result reply.new ≡ read_to controller parameter reply.old }
{
    if reply.len() < REPLY_LENGTH {
        return refused(controller, Refusal::ShortBuffer);
    }
    show(controller, parameter, reply)
}

// The contract rules out that 15 comes after a refusal of the write, a write by another writer, and a reply with the
// value sent where another is present.
fn write(
    controller: Controller,
    writer: Writer,
    parameter: Parameter,
    value: i32,
    reply: &mut [u8],
) -> LineResult
    ensures { outcome_of result reply.new ≡ written_to controller writer parameter value reply.old }
{
    if reply.len() < REPLY_LENGTH {
        return refused(controller, Refusal::ShortBuffer);
    }
    let result = controller.write(writer, parameter.number(), value);
    match result.verdict {
        Ok(()) => show(result.controller, parameter, reply),
        Err(refusal) => refused(controller, refusal),
    }
}

// One line of any bytes and any length, typed by a writer, with a buffer of any length for the reply: the next
// controller and the reply's length, or a refusal, 17, 18, 15 or one of a write's, 19, 20 or from 5 to 11, and the
// controller and the buffer as they were. The contract gives the next controller, the answer and every byte of the
// buffer, so it rules out a line that is taken for another, a refusal out of its order, a write by someone without the
// right, a read that needs one, a reply with another value than the present one, and a change behind the reply.
pub fn answer(controller: Controller, writer: Writer, line: &[u8], reply: &mut [u8]) -> LineResult
    ensures { outcome_of result reply.new ≡ answered controller writer line.now reply.old }
{
    // Two matches: of one nested pattern that binds a Parameter, a type with a model, Rattle can't make the proof.
    let asked = match command::parse(line) {
        Ok(asked) => asked,
        Err(refusal) => return refused(controller, refusal),
    };
    match asked {
        Command::Read(parameter) => read(controller, parameter, reply),
        Command::Write(parameter, value) => write(controller, writer, parameter, value, reply),
    }
}
