// Who types: a line of the program's own says it.
ghost use Rattle.std.specs.Prelude.{◌≡◌};
ghost use Rattle.handheld.specs.Sessions.{who_in};

use rights::Writer;

// `who`, one blank and a writer's word; any other line is the plant's or the terminal's. The contract rules out one of
// these that is taken, and another writer than the line has.
#[tactic(auto, unfolding(crate::specs::Sessions::who_in), using(text::specs::Words::same_pointwise))]
pub fn parse(line: &[u8]) -> Option<Writer>
    ensures { result ≡ who_in line.now }
{
    let word = line.strip_prefix(b"who ".as_slice())?;
    writer_lines::of_word(word)
}
