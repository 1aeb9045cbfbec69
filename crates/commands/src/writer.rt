// Who writes, as a line of the console names them.
ghost use Rattle.std.specs.Prelude.{◌≡◌, ◌≤◌, length};
ghost use Rattle.commands.specs.Writers.{writer_at};

use rights::Writer;

// The writer whose word is the first at or behind a place. The contract rules out a writer of another word.
#[tactic(auto, unfolding(crate::specs::Writers::writer_at))]
pub fn parse(line: &[u8], start: usize) -> Option<Writer>
    requires { start ≤ length line.now }
    ensures { result ≡ writer_at line.now start }
{
    let word = text::word(line, start);
    writer_lines::of_word(&line[word.from..word.to])
}
