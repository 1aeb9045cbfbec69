// Reads commands on standard input, one to a line, and answers each with one line, until the end of the input. The
// calls of the controller:
//     fresh SW                               ok
//     scan PINS S1 S2 S3 BUTTONS SENSORS MS  scan MD DS OP ELECTRICAL MODE PV, or refused N
//     write WRITER NUMBER VALUE              ok, or refused N
//     access WRITER NUMBER                   ok, or refused N: what any value of this writer's would get
//     read NUMBER                            value V, or refused N
//     restart HEX, or - for no bytes         ok, or refused N
//     save LENGTH                            image HEX, or refused N
//     line WRITER HEX LENGTH, - for no bytes reply N HEX, or refused N: a line of the hand-held terminal
//     clock                                  clock MS, the last accepted reading, or clock none
// and those of the drying sheet:
//     sheet-new                              ok
//     sheet-last                             ok, or full: enters the answer of the last accepted scan
//     sheet-feed MODE PV DS OP               ok, or full: enters an answer with these values
//     sheet-number PLACE VALUE               ok: sets one of the sixteen numbers of a kept sheet, all 0 at first
//     sheet-kept                             ok, or refused: the sheet with these numbers, if it is a valid one
//     sheet                                  sheet scans=N hold=N track=N forced=N manual=N auto=N remote=N ratio=N
//                                                fallback=N max=V@N min=V@N alarms=N sumpv=V sumop=V, in one line
// and those of the arithmetic, each answered with a number:
//     scale L H SAMPLE, root SAMPLE, ratio Q S, inverse Q S, limit LOW HIGH VALUE, proportional XP W CHANGE,
//     integral XP W TI MINUTES C, derivative XP W TD MINUTES INVERTED D
// A line that is no such command gets `error` and changes nothing. A run begins with a controller that is fresh with
// SW 0, an empty sheet, and all numbers of a kept one 0.
#![tactic(auto)]

ghost use Rattle.std.specs.Prelude.{◌≡◌, replicate};
ghost use Rattle.formatting.specs.Buffer.{buffer};
ghost use Rattle.console.specs.Lines.{Performed};

use formatting::Text;
use lines::answering::LineSession;
use session::Session;
use std::io::Write;

mod session;

// A line of up to 700 bytes, and one byte more to tell that a line is longer.
const LINE_LENGTH: usize = 701;

impl<const L: usize, const N: usize> LineSession<L, N> for Session {
    ghost answers = { Performed };

    // Performs the command of a line and appends its reply. The contract rules out another command than the line has, a
    // session other than the one that it leaves, any bytes but the line of its reply, and a line that is cut in an
    // output of 65,536 bytes.
    fn answer<W: Write>(&mut self, writer: &mut W, line: &Text<L>, out: &mut Text<N>)
        ensures { Performed self.old self.new line.now out.old out.new }
    {
        lines::room(writer, out);
        let mut buffer = [0u8; controller_calls::BUFFER_LENGTH];
        let command = commands::parse(line, &mut buffer);
        let step = session::perform(*self, command, &mut buffer);
        *self = step.session;
        replies::append_reply(out, step.reply, &buffer, self.sheet.sheet);
    }
}

// Nothing of a line. The contract rules out lines that may be longer or shorter.
fn empty_line() -> Text<LINE_LENGTH>
    ensures { result ≡ buffer (replicate 701 0) 0 }
{
    Text::new()
}

// Each program's own: what it holds from line to line, and how long a line may be.
fn main(rt: HostRuntime) {
    let mut line = empty_line();
    let mut session = session::first();
    lines::answering::answer_lines(&mut rt.stdin(), &mut rt.stdout(), &mut session, &mut line);
}
