// Parameters 1 to 23, and the numbers of all 32.
#![tactic(auto)]

ghost use Rattle.std.specs.Prelude.{◌≡◌};
ghost use Rattle.parameters.specs.Legal.{Legal};
ghost use Rattle.parameters.specs.Table.{parameters_of, value, with_value};

use signals::Refusal;
use std::marker::Model;

mod rows;
mod written;

// The values by their numbers, IC the last, legal or not; entry 0 is not used.
#[derive(Clone, Copy)]
pub struct Values {
    values: [i64; VALUE_COUNT],
}

// Legal values: the parameters of every controller.
#[derive(Clone, Copy)]
pub struct Parameters {
    values: Values,
}

// A contract sees the values. Each of them always keeps its row of the table.
impl Model for Parameters {
    ghost use Rattle.parameters.specs.declared.Values.{Values};

    ghost Value = { Values };

    ghost use Rattle.parameters.specs.Legal.{Legal};

    ghost view = { λ p. p.values };

    ghost invariant = { λ p. Legal p.values };

    ghost inverse = { λ v. record { values = v } };
}

pub const VALUE_COUNT: usize = IC as usize + 1;

// "a parameter number from 1 to 32 chooses the range and the rule": what the row of a number says of a value that is
// written, or the refusal.
#[derive(Clone, Copy)]
pub enum Rule {
    // "number outside 1..32 (reads too)", and its refusal
    Unknown(Refusal),
    // "read only", and its refusal
    ReadOnly(Refusal),
    // MD and DS: a range, from least to most, and rules of their own
    Word(i64, i64),
    // a range alone, from least to most
    Free(i64, i64),
    // a range, from least to most, and an order: the numbers of the upper one of the pair and of the lower one;
    // strictly in order where true
    Pair(i64, i64, u64, u64, bool),
    // between two other parameters, the lower and the upper one, named by their numbers
    Between(u64, u64),
}

// The numbers, as `Controller::write` and `Controller::read` take them.
pub const H1: u64 = 1;

pub const L1: u64 = 2;

pub const H2: u64 = 3;

pub const L2: u64 = 4;

pub const H3: u64 = 5;

pub const L3: u64 = 6;

pub const HR: u64 = 7;

pub const LR: u64 = 8;

pub const HS: u64 = 9;

pub const LS: u64 = 10;

pub const HA: u64 = 11;

pub const LA: u64 = 12;

pub const HD: u64 = 13;

pub const LD: u64 = 14;

pub const HO: u64 = 15;

pub const LO: u64 = 16;

pub const XP: u64 = 17;

pub const TI: u64 = 18;

pub const TD: u64 = 19;

pub const SL: u64 = 20;

pub const RS: u64 = 21;

pub const RB: u64 = 22;

pub const IC: u64 = 23;

pub const MD: u64 = 24;

pub const DS: u64 = 25;

pub const SW: u64 = 26;

pub const II: u64 = 27;

pub const OP: u64 = 28;

pub const SP: u64 = 29;

pub const PV: u64 = 30;

pub const ER: u64 = 31;

pub const MP: u64 = 32;

// The greatest output, in units: as HO and LO hold it, and as OP, electrical output and a sample do.
pub const OUTPUT_MOST: i64 = 9999;

pub const OP_MOST: u16 = OUTPUT_MOST as u16;

// IC: channel 1's sample is rooted.
pub const ROOT: i64 = 1;

impl Values {
    // These values by their numbers. The contract rules out that a value is changed.
    pub fn of(values: [i64; VALUE_COUNT]) -> Values
        ensures { result ≡ parameters_of values }
    {
        Values { values }
    }

    // The value of a parameter, 0 for a number above 23. The contract rules out a neighbour's value.
    #[tactic(auto, unfolding(crate::specs::Table::value))]
    pub fn get(self, number: u64) -> i64
        ensures { result ≡ value self number }
    {
        let place = number as usize;
        if number <= IC { self.values[place] } else { 0 }
    }

    // The same but for one value. The contract rules out that another one changes.
    #[tactic(auto, unfolding(crate::specs::Table::with_value))]
    pub fn with(mut self, number: u64, to: i64) -> Values
        ensures { result ≡ with_value self number to }
    {
        if number <= IC {
            self.values[number as usize] = to;
        }
        self
    }
}

impl Parameters {
    // Parameters with these values, which are legal. The contract rules out that a value is changed.
    pub fn legal(values: Values) -> Parameters
        requires { Legal values }
        ensures { result ≡ values }
    {
        Parameters { values }
    }

    // All values. The contract rules out that one of them is illegal.
    pub fn values(self) -> Values
        ensures { (result ≡ self) × Legal self }
    {
        self.values
    }

    // The value of a parameter, 0 for a number above 23. The contract rules out a neighbour's value and an illegal one.
    pub fn get(self, number: u64) -> i64
        ensures { (result ≡ value self number) × Legal self }
    {
        self.values.get(number)
    }
}
