// The line that answers a line of the terminal, appended to the output.
ghost use Rattle.std.specs.Prelude.{◌≡◌};
ghost use Rattle.formatting.specs.Buffer.{append_all};
ghost use Rattle.signals.specs.Refusals.{number_of};
ghost use Rattle.terminal.specs.Terminal.{reply_of_line};
ghost use Rattle.handheld.specs.Answers.{refusal_name, refusal_text, answer_text, answer_line};

use formatting::Text;
use signals::Refusal;

// Not by `Display`, which states no bytes. The contract rules out the name of another refusal, and one that is cut.
fn name(refusal: Refusal) -> &'static [u8]
    ensures { result.now ≡ refusal_name (number_of refusal) }
{
    match refusal {
        Refusal::Sample => b"sample",
        Refusal::ButtonBits => b"button bits",
        Refusal::SensorBits => b"sensor bits",
        Refusal::Number => b"number",
        Refusal::ReadOnly => b"read only",
        Refusal::Range => b"out of range",
        Refusal::Pair => b"pair out of order",
        Refusal::Setpoint => b"setpoint",
        Refusal::RequestBits => b"request bits",
        Refusal::RemotePin => b"Remote pin",
        Refusal::Cause => b"cause",
        Refusal::ImageLength => b"image length",
        Refusal::ImageField => b"image field",
        Refusal::ImageValue => b"image value",
        Refusal::ShortBuffer => b"short buffer",
        Refusal::Clock => b"clock",
        Refusal::Mnemonic => b"no mnemonic",
        Refusal::ValueForm => b"no value",
        Refusal::ComputerPin => b"Computer pin",
        Refusal::WriterRight => b"no right",
    }
}

// ? and the refusal's number and name. The contract rules out the number of another refusal.
#[tactic(auto, using(formatting::specs::Laws::seam), unfolding(formatting::specs::Buffer::append_all, crate::specs::Answers::refusal_text))]
fn append_refusal<const N: usize>(out: &mut Text<N>, refusal: Refusal)
    ensures { out.new ≡ append_all out.old (refusal_text (number_of refusal)) }
{
    out.push_all(b"? ");
    out.push_decimal(u8::from(refusal) as u64);
    out.push(b' ');
    out.push_all(name(refusal));
}

#[tactic(auto, using(formatting::specs::Laws::seam), unfolding(formatting::specs::Buffer::append_all, crate::specs::Answers::answer_text))]
fn append_text<const N: usize>(out: &mut Text<N>, answer: Result<usize, Refusal>, reply: &[u8])
    ensures { out.new ≡ append_all out.old (answer_text (reply_of_line answer) reply.now) }
{
    match answer {
        Ok(count) => out.push_all(formatting::front(reply, count)),
        Err(refusal) => append_refusal(out, refusal),
    }
}

// The line of an answer; `reply` is the buffer that the terminal wrote into. The contract rules out the line of another
// answer, and one with no end.
#[tactic(auto, using(formatting::specs::Laws::seam), unfolding(formatting::specs::Buffer::append_all, crate::specs::Answers::answer_line))]
pub fn append_answer<const N: usize>(
    out: &mut Text<N>,
    answer: Result<usize, Refusal>,
    reply: &[u8],
)
    ensures { out.new ≡ append_all out.old (answer_line (reply_of_line answer) reply.now) }
{
    append_text(out, answer, reply);
    out.push(b'\n');
}
