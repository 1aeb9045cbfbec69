// The words of a line of bytes, and what they say. Every function is total: what a line has wrong is in the answer.
#![tactic(auto)]

ghost use Rattle.std.specs.Prelude.{◌≡◌, ◌+◌, ◌≤◌, max, length, drop};
ghost use Rattle.text.specs.Words.{fits_blank, leading, word_at, only_word, after_words};

pub mod arguments;
pub mod hexadecimal;

// The bytes of a line from `from` up to `to`. No `Option`: an empty one stands where there is no word (`word_at`), and
// a caller goes on behind it either way.
#[derive(Clone, Copy)]
pub struct Span {
    pub from: usize,
    pub to: usize,
}

#[tactic(auto, unfolding(crate::specs::Words::fits_blank))]
fn fits_blank(blank: bool, b: u8) -> bool
    ensures { result ≡ fits_blank blank b }
{
    (b == b' ') == blank
}

// The end of the blanks that stand at a place, or of the bytes that aren't blanks. One index, from that place on: a
// length of its own for each run would be added up over the words of a line.
fn run_end(line: &[u8], at: usize, blank: bool) -> usize
    ensures { result ≡ at + leading blank (drop at line.now) }
{
    for end in at..line.len() {
        if !fits_blank(blank, line[end]) {
            return end;
        }
    }
    at.max(line.len())
}

// The first word at or behind a place; an empty one where there is none. The contract rules out a word cut short or one
// with a blank in it.
#[tactic(auto, unfolding(crate::specs::Words::word_at))]
pub fn word(line: &[u8], at: usize) -> Span
    ensures value { result ≡ word_at line.now at }
    ensures at_le_from { (at ≤ result.from) × (result.from ≤ result.to) × (result.to ≤ max at (length line.now)) }
{
    let from = run_end(line, at, true);
    let to = run_end(line, from, false);
    Span { from, to }
}

// The only word at or behind a place; an empty one where there is none, or a second one. The contract rules out the
// first of two words.
#[tactic(auto, unfolding(crate::specs::Words::only_word))]
pub fn only_word(line: &[u8], at: usize) -> Span
    ensures value { result ≡ only_word line.now at }
    ensures at_le_from { (at ≤ result.from) × (result.from ≤ result.to) × (result.to ≤ max at (length line.now)) }
{
    let w = word(line, at);
    let behind = word(line, w.to);
    if behind.from < behind.to {
        return Span { from: at, to: at };
    }
    w
}

// The place behind so many words, or behind all where there are fewer. The contract rules out a word too many.
pub fn after_words(line: &[u8], start: usize, count: usize) -> usize
    ensures { (result ≡ after_words count line.now start)
        × (start ≤ result) × (result ≤ max start (length line.now)) }
{
    let mut at = start;
    for _ in 0..count {
        at = word(line, at).to;
    }
    at
}
