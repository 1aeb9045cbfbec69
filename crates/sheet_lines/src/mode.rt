// The word of a mode, written and read.
ghost use Rattle.std.specs.Prelude.{◌≡◌};
ghost use Rattle.sheet_lines.specs.ModeWords.{mode_word, mode_of};

use modes::Mode;

// In the order of the modes' counts in a line.
pub const MODES: [Mode; 8] = [
    Mode::Hold,
    Mode::Track,
    Mode::Forced,
    Mode::Manual,
    Mode::Auto,
    Mode::Remote,
    Mode::Ratio,
    Mode::Fallback,
];

// Not by `Display`, which states no bytes. The contract rules out the word of another mode.
#[tactic(auto, unfolding(crate::specs::ModeWords::mode_word))]
pub fn word_of(mode: Mode) -> &'static [u8]
    ensures { result.now ≡ mode_word mode }
{
    match mode {
        Mode::Hold => b"hold",
        Mode::Track => b"track",
        Mode::Forced => b"forced",
        Mode::Manual => b"manual",
        Mode::Auto => b"auto",
        Mode::Remote => b"remote",
        Mode::Ratio => b"ratio",
        Mode::Fallback => b"fallback",
    }
}

// The mode whose word it is. The contract rules out a word that is taken for another mode's, or that none has.
pub fn parse(word: &[u8]) -> Option<Mode>
    ensures { result ≡ mode_of word.now }
{
    MODES.iter().find(|mode| word == word_of(**mode)).copied()
}
