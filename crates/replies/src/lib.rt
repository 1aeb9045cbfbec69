// What answers a command, and its line, appended to the output.
#![tactic(auto)]

ghost use Rattle.std.specs.Prelude.{◌≡◌};
ghost use Rattle.formatting.specs.Buffer.{append_all};
ghost use Rattle.replies.specs.ReplyLaws.{WordsRange, AnswerRange, ReadingRange, InRange};
ghost use Rattle.replies.specs.Replies.{spaced, words_text, answer_text, refused_text, value_text, clock_text, image_text};
ghost use Rattle.replies.specs.Replies.{line_text, reply_text, reply_line};

use answers::ScanValues;
use formatting::Text;
use sheet::Sheet;

#[derive(Clone, Copy)]
pub enum Reply {
    Accepted,
    Value(i32),
    // of an accepted scan
    Answer(ScanValues),
    // the last accepted reading of the clock
    Clock(Option<u64>),
    // the image that was saved in the buffer beside
    Image,
    // the terminal's reply, so many bytes at the front of the buffer beside
    Line(usize),
    // the sheet beside
    WholeSheet,
    // an answer that a full sheet didn't take
    Full,
    // the numbers are no sheet's
    InvalidSheet,
    // what the arithmetic gives
    Number(i64),
    // by its number: what a line shows, and what `reply_to` gives (controller_calls/specs/Calls.antt)
    Refused(u8),
    // the line was no command
    Error,
}

// A blank and a number.
#[tactic(auto, using(formatting::specs::Laws::seam), unfolding(formatting::specs::Buffer::append_all, crate::specs::Replies::spaced))]
fn append_spaced<const N: usize>(out: &mut Text<N>, number: u64)
    ensures { out.new ≡ append_all out.old (spaced number) }
{
    out.push(b' ');
    out.push_decimal(number);
}

// The words of an answer. The contract rules out two that are exchanged.
#[tactic(auto, using(formatting::specs::Laws::seam), unfolding(formatting::specs::Buffer::append_all, crate::specs::Replies::words_text))]
fn append_words<const N: usize>(out: &mut Text<N>, values: ScanValues)
    ensures { (out.new ≡ append_all out.old (words_text values)) × WordsRange values }
{
    out.push_all(b"scan");
    append_spaced(out, values.md as u64);
    append_spaced(out, values.ds as u64);
    append_spaced(out, values.op as u64);
    append_spaced(out, values.electrical as u64);
}

// What an accepted scan answers. The contract rules out another mode's word, and a sign of PV that is lost.
#[tactic(auto, using(formatting::specs::Laws::seam), unfolding(formatting::specs::Buffer::append_all, crate::specs::Replies::answer_text))]
fn append_answer<const N: usize>(out: &mut Text<N>, values: ScanValues)
    ensures { (out.new ≡ append_all out.old (answer_text values)) × AnswerRange values }
{
    append_words(out, values);
    out.push(b' ');
    out.push_all(sheet_lines::mode::word_of(values.mode));
    out.push(b' ');
    out.push_signed(i64::from(values.pv));
}

// A refusal and its number.
#[tactic(auto, using(formatting::specs::Laws::seam), unfolding(formatting::specs::Buffer::append_all, crate::specs::Replies::refused_text))]
fn append_refused<const N: usize>(out: &mut Text<N>, number: u8)
    ensures { out.new ≡ append_all out.old (refused_text number) }
{
    out.push_all(b"refused");
    append_spaced(out, number as u64);
}

// A parameter's value. The contract rules out a sign that is lost.
#[tactic(auto, using(formatting::specs::Laws::seam), unfolding(formatting::specs::Buffer::append_all, crate::specs::Replies::value_text))]
fn append_value<const N: usize>(out: &mut Text<N>, v: i32)
    ensures { out.new ≡ append_all out.old (value_text v) }
{
    out.push_all(b"value ");
    out.push_signed(i64::from(v));
}

// A reading of the clock. The contract rules out a number where there is no reading.
#[tactic(auto, using(formatting::specs::Laws::seam), unfolding(formatting::specs::Buffer::append_all, crate::specs::Replies::clock_text))]
fn append_clock<const N: usize>(out: &mut Text<N>, reading: Option<u64>)
    ensures { (out.new ≡ append_all out.old (clock_text reading)) × ReadingRange reading }
{
    match reading {
        None => out.push_all(b"clock none"),
        Some(milliseconds) => {
            out.push_all(b"clock");
            append_spaced(out, milliseconds);
        }
    }
}

// The image that was saved: the first 137 bytes.
#[tactic(auto, using(formatting::specs::Laws::seam), unfolding(formatting::specs::Buffer::append_all, crate::specs::Replies::image_text))]
fn append_image<const N: usize>(out: &mut Text<N>, saved: &[u8])
    ensures { out.new ≡ append_all out.old (image_text saved.now) }
{
    out.push_all(b"image ");
    out.push_hexadecimal(formatting::front(saved, 137));
}

// The terminal's reply: its length and its bytes. The contract rules out a length that isn't that of the bytes.
#[tactic(auto, using(formatting::specs::Laws::seam), unfolding(formatting::specs::Buffer::append_all, crate::specs::Replies::line_text))]
fn append_line<const N: usize>(out: &mut Text<N>, count: usize, saved: &[u8])
    ensures { out.new ≡ append_all out.old (line_text count saved.now) }
{
    out.push_all(b"reply");
    append_spaced(out, count as u64);
    out.push(b' ');
    out.push_hexadecimal(formatting::front(saved, count));
}

// What a reply's line has before its end. The contract also says that the reply's numbers are such as its types hold,
// so that a caller knows how long the line is.
#[tactic(auto, using(formatting::specs::Laws::seam), unfolding(formatting::specs::Buffer::append_all, crate::specs::Replies::reply_text))]
fn append_text<const N: usize>(out: &mut Text<N>, reply: Reply, saved: &[u8], sheet: Sheet)
    ensures { (out.new ≡ append_all out.old (reply_text reply saved.now sheet)) × InRange reply sheet }
{
    match reply {
        Reply::Accepted => out.push_all(b"ok"),
        Reply::Value(v) => append_value(out, v),
        Reply::Answer(values) => append_answer(out, values),
        Reply::Clock(reading) => append_clock(out, reading),
        Reply::Image => append_image(out, saved),
        Reply::Line(count) => append_line(out, count, saved),
        Reply::WholeSheet => sheet_lines::print::append_sheet(out, sheet),
        Reply::Full => out.push_all(b"full"),
        Reply::InvalidSheet => out.push_all(b"refused"),
        Reply::Number(number) => out.push_signed(number),
        Reply::Refused(number) => append_refused(out, number),
        Reply::Error => out.push_all(b"error"),
    }
}

// The line of a reply; `saved` is the buffer that a save or the terminal wrote into. The contract rules out the line of
// another reply, and one with no end.
#[tactic(auto, using(formatting::specs::Laws::seam), unfolding(formatting::specs::Buffer::append_all, crate::specs::Replies::reply_line))]
pub fn append_reply<const N: usize>(out: &mut Text<N>, reply: Reply, saved: &[u8], sheet: Sheet)
    ensures { (out.new ≡ append_all out.old (reply_line reply saved.now sheet)) × InRange reply sheet }
{
    append_text(out, reply, saved, sheet);
    out.push(b'\n');
}
