// The mnemonics of the parameters, by number.
ghost use Rattle.std.specs.Prelude.{◌≡◌, get_or, ◌≤◌};
ghost use Rattle.terminal.specs.Mnemonics.{mnemonic, is_of, named, number_in};

use std::marker::Model;

// A parameter that a mnemonic names, by its number.
#[derive(Clone, Copy)]
pub struct Parameter {
    number: u64,
}

// A contract sees the number, which is always one from 1 to 32.
impl Model for Parameter {
    ghost use Rattle.std.specs.Prelude.{ℕ, ◌≤◌};

    ghost Value = { ℕ };

    ghost view = { λ p. p.number };

    ghost invariant = { λ p. (1 ≤ p.number) × (p.number ≤ 32) };

    ghost inverse = { λ n. record { number = n } };
}

impl Parameter {
    // The contract says the range too, for a caller's proof.
    pub fn number(self) -> u64
        ensures value { result ≡ self }
        ensures range { (1 ≤ self) × (self ≤ 32) }
    {
        self.number
    }
}

// One of the two letters of a parameter. The contract rules out a neighbour's.
pub fn letter(parameter: Parameter, place: usize) -> u8
    requires { place ≤ 1 }
    ensures { result ≡ get_or (mnemonic parameter) place 0 }
{
    let table = b"1H1L2H2L3H3LHRLRHSLSHALAHDLDHOLOXPTITDSLRSRBICMDDSSWIIOPSPPVERMP";
    table[2 * (parameter.number as usize - 1) + place]
}

#[tactic(auto, unfolding(crate::specs::Mnemonics::is_of))]
fn is_of(parameter: Parameter, first: u8, second: u8) -> bool
    ensures { result ≡ is_of (mnemonic parameter) first second }
{
    letter(parameter, 0) == first && letter(parameter, 1) == second
}

// The number that a line's first two bytes name. The contract rules out a small letter and a number of another row.
pub fn named(line: &[u8]) -> Option<Parameter>
    ensures { result ≡ number_in (named line.now) }
{
    let &[first, second, ..] = line else {
        return None;
    };
    for number in 1..=parameters::MP {
        let parameter = Parameter { number };
        if is_of(parameter, first, second) {
            return Some(parameter);
        }
    }
    None
}
