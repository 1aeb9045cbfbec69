// What comes of a restart with an image, and of saving one.
ghost use Rattle.std.specs.Prelude.{◌≡◌, leb, length, take, if◌then◌else◌};
ghost use Rattle.controller.specs.Restart.{restart};
ghost use Rattle.controller_calls.specs.Calls.{step_of, unchanged_with, checked_reply, reply_to_save, saved_buffer};
ghost use Rattle.replies.specs.declared.Reply.TheVariants.{Error};

use crate::Step;
use controller::Controller;
use replies::Reply;
use signals::Refusal;

// A restart with so many bytes of the buffer. The contract rules out one with other bytes, and a controller that isn't
// the one which the restart returned.
pub fn restart(controller: Controller, count: usize, buffer: &[u8]) -> Step
    ensures { result ≡ (if leb count (length buffer.now) then
        step_of (restart controller (take count buffer.now)) else unchanged_with controller Error) }
{
    if count <= buffer.len() {
        let r = controller.restart(&buffer[0..count]);
        return Step {
            controller: r.controller,
            reply: crate::reply_to_verdict(r.verdict),
        };
    }
    Step {
        controller,
        reply: Reply::Error,
    }
}

// The reply to a save: where a byte changed that had to stay, `error`.
#[tactic(auto, unfolding(crate::specs::Calls::checked_reply))]
fn reply_to_save(verdict: Result<(), Refusal>, buffer: &[u8]) -> Reply
    ensures { result ≡ checked_reply verdict buffer.now }
{
    match verdict {
        Ok(()) => crate::filled::checked(Reply::Image, buffer, 137),
        Err(refusal) => crate::filled::checked(Reply::Refused(u8::from(refusal)), buffer, 0),
    }
}

// Saves into so many bytes of the buffer. All others of it must stay too. The contract gives the reply by the verdict
// alone, so it rules out that a byte changes which had to stay; and every byte of the buffer.
pub fn save(controller: Controller, count: usize, buffer: &mut [u8]) -> Reply
    ensures { (result ≡ reply_to_save count buffer.old)
        × (buffer.new ≡ saved_buffer controller count buffer.old) }
{
    controller.valid();
    crate::filled::fill(buffer);
    if count <= buffer.len() {
        let verdict = controller.save(&mut buffer[0..count]);
        return reply_to_save(verdict, buffer);
    }
    Reply::Error
}
