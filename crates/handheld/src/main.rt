// The hand-held terminal by itself: reads the lines that a mechanic types on standard input, and answers each with one
// line, the terminal's reply or `? N NAME`, a refusal's number and name, until the end of the input. The controller is
// fresh with SW 0 before the first line, and the operator is there. Two lines are the program's own: `who WRITER` says
// who types from then on (who.rt), and `pins N` makes one scan with these pins (plant.rt). A line longer than 300 bytes
// has no form that the terminal knows, and neither has its beginning, by which it is answered (`long_line`,
// specs/LongLines.antt): `? 17 no mnemonic` or `? 18 no value`.
#![tactic(auto)]

ghost use Rattle.std.specs.Prelude.{◌≡◌, replicate};
ghost use Rattle.formatting.specs.Buffer.{buffer, written};
ghost use Rattle.handheld.specs.Answers.{Answers};

use formatting::Text;
use lines::answering::LineSession;
use session::Session;
use std::io::Write;

mod ok;
mod plant;
mod print;
mod session;
mod who;

// A line of up to 300 bytes, and one byte more, with which a longer line has no form either.
const LINE_LENGTH: usize = 301;

impl<const L: usize, const N: usize> LineSession<L, N> for Session {
    ghost answers = { λ s next line before after. Answers s next (written line) before after };

    // Answers a line and appends what is written for it. The contract rules out a controller or a writer other than the
    // line leaves, any bytes but the reply or the refusal's number and name, and an answer that is cut in an output of
    // 65,536 bytes.
    fn answer<W: Write>(&mut self, writer: &mut W, line: &Text<L>, out: &mut Text<N>)
        ensures { Answers self.old self.new (written line.now) out.old out.new }
    {
        lines::room(writer, out);
        let mut reply = [0u8; terminal::REPLY_LENGTH];
        let result = session::answer(*self, line.as_slice(), &mut reply);
        *self = result.session;
        print::append_answer(out, result.answer, &reply);
    }
}

// Nothing of a line. The contract rules out lines that may be longer or shorter.
fn empty_line() -> Text<LINE_LENGTH>
    ensures { result ≡ buffer (replicate 301 0) 0 }
{
    Text::new()
}

// Each program's own: what it holds from line to line, and how long a line may be.
fn main(rt: HostRuntime) {
    let mut line = empty_line();
    let mut session = session::first();
    lines::answering::answer_lines(&mut rt.stdin(), &mut rt.stdout(), &mut session, &mut line);
}
