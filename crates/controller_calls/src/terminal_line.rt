// What comes of a line of the hand-held terminal.
ghost use Rattle.std.specs.Prelude.{◌≡◌, length};
ghost use Rattle.terminal.specs.Terminal.{reply_of_line};
ghost use Rattle.controller_calls.specs.Calls.{terminal_fits, checked_terminal, terminal_step, terminal_buffer};

use crate::Step;
use controller::Controller;
use formatting::Text;
use replies::Reply;
use rights::Writer;
use signals::Refusal;

// Whether a buffer has the line's bytes, at most 300, and those for the reply.
fn fits(count: usize, size: usize, buffer: &[u8]) -> bool
    ensures { result ≡ terminal_fits count size (length buffer.now) }
{
    (count <= 300) & (count <= buffer.len()) & (size <= buffer.len())
}

// The reply to the terminal's answer: where a byte changed that had to stay, `error`.
#[tactic(auto, unfolding(crate::specs::Calls::checked_terminal))]
fn reply_to_answer(answer: Result<usize, Refusal>, buffer: &[u8]) -> Reply
    ensures { result ≡ checked_terminal (reply_of_line answer) buffer.now }
{
    match answer {
        Ok(count) => crate::filled::checked(Reply::Line(count), buffer, count),
        Err(refusal) => crate::filled::checked(Reply::Refused(u8::from(refusal)), buffer, 0),
    }
}

// Answers the line of a writer that so many bytes of the buffer are, into so many bytes of it. All others of it must
// stay. The contract gives the reply by the terminal's answer alone, so it rules out that a byte changes which had to
// stay; and every byte of the buffer.
pub fn perform(
    controller: Controller,
    writer: Writer,
    count: usize,
    size: usize,
    buffer: &mut [u8],
) -> Step
    ensures { (result ≡ terminal_step controller writer count size buffer.old)
        × (buffer.new ≡ terminal_buffer controller writer count size buffer.old) }
{
    if fits(count, size, buffer) {
        let mut line = Text::<300>::new();
        line.push_all(&buffer[..count]);
        crate::filled::fill(buffer);
        let result = terminal::answer(controller, writer, line.as_slice(), &mut buffer[..size]);
        return Step {
            controller: result.controller,
            reply: reply_to_answer(result.answer, buffer),
        };
    }
    Step {
        controller,
        reply: Reply::Error,
    }
}
