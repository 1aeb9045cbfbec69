// The word of a writer in a line, in small letters.
#![tactic(auto)]

ghost use Rattle.std.specs.Prelude.{◌≡◌};
ghost use Rattle.writer_lines.specs.Writers.{writer_of};

use rights::Writer;

// The writer whose word it is. A `match` on the word was tried: its arms give no facts of the bytes. So was a
// table searched by `find`: it needs answers, and these tests need none. The contract rules out a word that is taken
// for another writer's, or that none has.
#[tactic(auto, unfolding(crate::specs::Writers::writer_of), using(text::specs::Words::same_pointwise))]
pub fn of_word(word: &[u8]) -> Option<Writer>
    ensures { result ≡ writer_of word.now }
{
    if word == b"operator".as_slice() {
        return Some(Writer::Operator);
    }
    if word == b"engineer".as_slice() {
        return Some(Writer::Engineer);
    }
    if word == b"computer".as_slice() {
        return Some(Writer::Computer);
    }
    None
}
