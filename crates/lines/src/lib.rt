// Lines of a reader, and a writer behind a buffer: in the programs, standard input and standard output. The contracts
// speak of the bytes received, and state what comes of them byte by byte. Where it is known which bytes a reader has
// left, as of one over memory, they are those, in their order; of standard input nothing is known but how many.
#![tactic(auto)]

ghost use Rattle.std.specs.Prelude.{◌≡◌, eqb, position};
ghost use Rattle.formatting.specs.Buffer.{emptied};
ghost use Rattle.lines.specs.Lines.{started, ended, Advanced, Refilled, Continued, NextLine, with_room};

use formatting::Text;
use std::io::{Read, Write};
use std::marker::Model;

pub mod answering;

// A line feed ends a line, and no other byte.
fn ends_line(byte: u8) -> bool
    ensures { result ≡ eqb byte 10 }
{
    byte == b'\n'
}

// Where the first line feed stands, if there is one.
fn feed(bytes: &[u8]) -> Option<usize>
    ensures { result ≡ position (λ b. eqb b 10) bytes.now }
{
    bytes.iter().position(|byte| ends_line(*byte))
}

// Where reading stands, in an array of its own, since the programs have no heap: bytes `at` to `end` of the last read
// are unread, and `more` says whether the input goes on.
#[derive(Drop)]
pub struct Input<const N: usize> {
    bytes: [u8; N],
    at: usize,
    end: usize,
    more: bool,
}

// Clauses see the unread bytes, and whether there are more.
impl<const N: usize> Model for Input<N> {
    ghost use Rattle.std.specs.Prelude.{◌≤◌, take, drop};
    ghost use Rattle.lines.specs.Reading.{Reading};

    ghost Value = { Reading };

    ghost view = { λ i. record { unread = drop i.at (take i.end i.bytes); more = i.more } };

    ghost invariant = { λ i. (i.at ≤ i.end) × (i.end ≤ N) };
}

impl<const N: usize> Input<N> {
    // Nothing read.
    pub fn new() -> Self
        ensures { result ≡ started }
    {
        Input {
            bytes: [0; N],
            at: 0,
            end: 0,
            more: true,
        }
    }

    // Appends what is unread to the line up to the first line feed, and says whether there is one: a line may have
    // begun in an earlier read and may go on in a later one.
    fn advance<const L: usize>(&mut self, line: &mut Text<L>) -> bool
        ensures { Advanced self.old line.old self.new line.new result }
    {
        let read = &self.bytes[..self.end];
        let unread = &read[self.at..];
        match feed(unread) {
            Some(count) => {
                line.push_all(&unread[..count]);
                self.at += count + 1;
                true
            }
            None => {
                line.push_all(unread);
                self.at = self.end;
                false
            }
        }
    }

    // Reads more; at the end of the input, or where it cannot be read, there is no more.
    fn refill<R: Read>(&mut self, reader: &mut R)
        ensures { Refilled (R.remaining reader.old) (R.remaining reader.new) self.new }
    {
        self.end = reader.read(&mut self.bytes).unwrap_or(0);
        self.at = 0;
        self.more = 0 < self.end;
    }

    // There is no more.
    fn finish(&mut self)
        ensures { self.new ≡ ended }
    {
        self.at = self.end;
        self.more = false;
    }
}

// Reads on until the line is complete or the input ends, and says whether there is a line: a last one may lack its line
// feed. A proved loop must end, so the reads are counted up to a number that no run reaches.
fn read_on<R: Read, const N: usize, const L: usize>(
    reader: &mut R,
    input: &mut Input<N>,
    line: &mut Text<L>,
) -> bool
    ensures { Continued (R.remaining reader.old) (R.remaining reader.new) line.old input.new line.new result }
{
    for _ in 0..u64::MAX {
        input.refill(reader);
        if input.advance(line) {
            return true;
        }
        if !input.more {
            break;
        }
    }
    input.finish();
    line.len() > 0
}

// The next line; where the answer is no, the input has ended. Of the bytes that were pending and those received the
// contract rules out a line that is cut or joined with the next, and a byte that is lost. Which bytes were received it
// says of a reader whose bytes are known; of standard input no contract can.
pub fn next_line<R: Read, W: Write, const N: usize, const L: usize, const M: usize>(
    reader: &mut R,
    writer: &mut W,
    input: &mut Input<N>,
    line: &mut Text<L>,
    out: &mut Text<M>,
) -> bool
    ensures { NextLine (R.remaining reader.old) (R.remaining reader.new)
        input.old input.new line.old line.new out.old out.new result }
{
    line.clear();
    if input.advance(line) {
        return true;
    }
    if input.more {
        flush(writer, out);
        return read_on(reader, input, line);
    }
    line.len() > 0
}

// ---- the output

// Writes what is used of the output; none of it is used afterwards. What was written no contract can tell, and a failed
// write is not told apart.
pub fn flush<W: Write, const N: usize>(writer: &mut W, out: &mut Text<N>)
    ensures { out.new ≡ emptied out.old }
{
    let _ = writer.write_all(out.as_slice());
    out.clear();
}

// Room for one more answer, which is far below 1,000 bytes: flushes where 64,000 are used. The contract rules out a
// count that goes on where the output was written.
pub fn room<W: Write, const N: usize>(writer: &mut W, out: &mut Text<N>)
    ensures { out.new ≡ with_room out.old }
{
    if out.len() > 64000 {
        flush(writer, out);
    }
}
