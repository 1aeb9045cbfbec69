// The lines of an input, answered one after another.
ghost use Rattle.std.specs.Prelude.{⊤};
ghost use Rattle.formatting.specs.Buffer.{Buffer};
ghost use Rattle.lines.specs.Answering.{place, AllAnswered, AnsweredInput};

use crate::Input;
use formatting::Text;
use std::io::{Read, Write};

// What is held from line to line.
pub trait LineSession<const L: usize, const N: usize> {
    // What a line comes to: the session before and after, the line, and the output before and after. A session that
    // leaves it out says nothing of its answers, and needn't prove anything of them.
    ghost answers: { Self → Self → Buffer → Buffer → Buffer → Type 0 } = { λ _ _ _ _ _. ⊤ };

    // Takes a line and appends what answers it to the output.
    fn answer<W: Write>(&mut self, writer: &mut W, line: &Text<L>, out: &mut Text<N>)
        ensures { answers self.old self.new line.now out.old out.new };
}

// How many bytes are read at a time, and how many the output has room for.
pub const BUFFER_LENGTH: usize = 65536;

// Answers one line after another, until `next_line` gives no more: where the input ends only a read can tell. The
// contract rules out a line that is skipped or answered twice, and a session other than the one that the last line
// left. A proved loop must end, so the lines are counted up to a number that no run reaches.
pub fn answer_lines<R: Read, W: Write, S: LineSession<L, BUFFER_LENGTH>, const L: usize>(
    reader: &mut R,
    writer: &mut W,
    session: &mut S,
    line: &mut Text<L>,
)
    ensures { AnsweredInput S.answers (R.remaining reader.old) (R.remaining reader.new)
        line.old line.new session.old session.new }
{
    let mut input = Input::<BUFFER_LENGTH>::new();
    let mut out = Text::<BUFFER_LENGTH>::new();
    answer_each(reader, writer, session, line, &mut input, &mut out);
}

// The same with buffers that are lent. Of these the contract can tell what they hold at the end, so it rules out an
// output that isn't flushed, too.
fn answer_each<R: Read, W: Write, S: LineSession<L, BUFFER_LENGTH>, const L: usize>(
    reader: &mut R,
    writer: &mut W,
    session: &mut S,
    line: &mut Text<L>,
    input: &mut Input<BUFFER_LENGTH>,
    out: &mut Text<BUFFER_LENGTH>,
)
    ensures { AllAnswered S.answers (place (R.remaining reader.old) input.old line.old session.old out.old)
        (place (R.remaining reader.new) input.new line.new session.new out.new) }
{
    for _ in 0..u64::MAX {
        if !crate::next_line(reader, writer, input, line, out) {
            break;
        }
        session.answer(writer, line, out);
    }
    crate::flush(writer, out);
}
