// Commands whose arguments are numbers.
ghost use Rattle.std.specs.Prelude.{◌≡◌};
ghost use Rattle.commands.specs.Commands.{parameter_number, alone, read_command, fresh_command, save_command, numbers_command};

use crate::{Call, Command};
use text::arguments::natural_in;

// A command without arguments. The contract rules out one that is taken with a number behind it.
#[tactic(auto, unfolding(crate::specs::Commands::alone))]
pub fn alone(command: Command, numbers: &[i64]) -> Option<Command>
    ensures { result ≡ alone command numbers.now }
{
    if numbers.is_empty() {
        Some(command)
    } else {
        None
    }
}

// The number of a parameter, as a line has it: one below zero is no parameter's, and 0 stands for it
// (`parameter_number`), which the controller refuses with 4.
pub fn number_in(value: i64) -> u64
    ensures { result ≡ parameter_number value }
{
    u64::try_from(value).unwrap_or(0)
}

// read NUMBER. This contract and those below rule out another command than the line has, an argument of another place,
// one in range that is refused, and a number too few or too many.
#[tactic(auto, unfolding(crate::specs::Commands::read_command))]
fn read(numbers: &[i64]) -> Option<Command>
    ensures { result ≡ read_command numbers.now }
{
    let &[number] = numbers else {
        return None;
    };
    Some(Command::Call(Call::Read(number_in(number))))
}

// fresh SW
#[tactic(auto, unfolding(crate::specs::Commands::fresh_command))]
fn fresh(numbers: &[i64]) -> Option<Command>
    ensures { result ≡ fresh_command numbers.now }
{
    let &[sw] = numbers else {
        return None;
    };
    let sw = natural_in(sw, 0, 65535)?;
    Some(Command::Call(Call::Fresh(sw as u16)))
}

// save LENGTH. A function for this and `fresh` would take the range and a closure for the command, and be no shorter.
#[tactic(auto, unfolding(crate::specs::Commands::save_command))]
fn save(numbers: &[i64]) -> Option<Command>
    ensures { result ≡ save_command numbers.now }
{
    let &[size] = numbers else {
        return None;
    };
    let size = natural_in(size, 0, 300)?;
    Some(Command::Call(Call::Save(size as usize)))
}

// A command whose arguments are numbers. The contract rules out the command of another name. Not a `match` on the word:
// it was tried, and its arms give no facts of the bytes; a table of function pointers isn't taken by the gate.
#[tactic(auto, unfolding(crate::specs::Commands::numbers_command), using(text::specs::Words::same_pointwise))]
pub fn of_numbers(word: &[u8], numbers: &[i64]) -> Option<Command>
    ensures { result ≡ numbers_command word.now numbers.now }
{
    if word == b"read".as_slice() {
        return read(numbers);
    }
    if word == b"fresh".as_slice() {
        return fresh(numbers);
    }
    if word == b"save".as_slice() {
        return save(numbers);
    }
    if word == b"clock".as_slice() {
        return alone(Command::Call(Call::Clock), numbers);
    }
    crate::sheet_call::of_word(word, numbers)
}
