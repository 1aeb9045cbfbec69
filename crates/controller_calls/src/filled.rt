// A buffer that is filled before a call writes into it, so that a byte which changed can be told.
ghost use Rattle.std.specs.Prelude.{◌≡◌, drop, if◌then◌else◌};
ghost use Rattle.controller_calls.specs.Calls.{is_filled, filled};
ghost use Rattle.replies.specs.declared.Reply.TheVariants.{Error};

use replies::Reply;

// What each byte of the buffer is before a call: none but the call's own bytes may differ from it afterwards.
const FILL: u8 = 0xA5;

// The contract rules out a byte that isn't filled.
pub fn fill(buffer: &mut [u8])
    ensures { buffer.new ≡ filled buffer.old }
{
    buffer.fill(FILL);
}

// Whether the bytes of the buffer from a position on are as they were filled. By one index: over the iterator of the
// rest no compiler here takes more than a byte at a time.
pub fn is_unchanged(buffer: &[u8], from: usize) -> bool
    ensures { result ≡ is_filled (drop from buffer.now) }
{
    for i in from..buffer.len() {
        if buffer[i] != FILL {
            return false;
        }
    }
    true
}

// The reply of a call that may have changed so many bytes in front: where a byte changed that had to stay, `error`.
pub fn checked(reply: Reply, buffer: &[u8], count: usize) -> Reply
    ensures { result ≡ (if is_filled (drop count buffer.now) then reply else Error) }
{
    if is_unchanged(buffer, count) {
        reply
    } else {
        Reply::Error
    }
}
