// What a line asks: a read or a write of the parameter that it names. A line of another form asks nothing.
ghost use Rattle.std.specs.Prelude.{◌≡◌};
ghost use Rattle.terminal.specs.Commands.{is_word, value_of, value_in, command_in, asked};

use crate::mnemonic::Parameter;
use signals::Refusal;

#[derive(Clone, Copy)]
pub enum Command {
    // a parameter
    Read(Parameter),
    // a parameter and a value
    Write(Parameter, i32),
}

// MD, DS, SW and II. The contract rules out that OP, the next one, is taken for a word.
#[tactic(auto, unfolding(crate::specs::Commands::is_word))]
pub fn is_word(number: u64) -> bool
    ensures { result ≡ is_word number }
{
    parameters::MD <= number && number <= parameters::II
}

// A value of the parameter's form. The contract rules out a value of another form, and another one in its place.
fn value(number: u64, bytes: &[u8]) -> Option<i32>
    ensures { result ≡ value_in (value_of number bytes.now) }
{
    if is_word(number) {
        let word = numerals::word(bytes)?;
        return Some(word as i32);
    }
    let decimal = numerals::number(bytes, 5)?;
    Some(decimal as i32)
}

// Any bytes, any length: refused where the first two bytes are no mnemonic, and where what follows isn't nothing, or >
// with a value of the parameter's form. The contract rules out a command that the line doesn't have, a line with one
// that is taken for none, and another refusal.
pub fn parse(line: &[u8]) -> Result<Command, Refusal>
    ensures { result ≡ asked (command_in line.now) }
{
    let Some(parameter) = crate::mnemonic::named(line) else {
        return Err(Refusal::Mnemonic);
    };
    match line {
        [_, _] => Ok(Command::Read(parameter)),
        [_, _, b'>', bytes @ ..] => match value(parameter.number(), bytes) {
            Some(value) => Ok(Command::Write(parameter, value)),
            None => Err(Refusal::ValueForm),
        },
        _ => Err(Refusal::ValueForm),
    }
}
