// What an accepted write of one of the parameters 1 to 23 leaves of them.
ghost use Rattle.std.specs.Prelude.{◌≡◌, ◌≤◌, true};
ghost use Rattle.parameters.specs.Legal.{in_range, pair_in_order};
ghost use Rattle.parameters.specs.Table.{rule_of, value};
ghost use Rattle.parameters.specs.Written.{limited_anew, written};

use crate::{Parameters, Values};

impl Values {
    // Limits one value anew to the values of two others. The contract rules out limits that are exchanged.
    #[tactic(auto, using(integers::specs::Machine::read_back), unfolding(crate::specs::Written::limited_anew))]
    pub fn limited_anew(self, number: u64, low: u64, high: u64) -> Values
        ensures { result ≡ limited_anew self number low high }
    {
        let least = self.get(low);
        let most = self.get(high);
        let v = self.get(number);
        self.with(number, integers::limit(least, most, v))
    }

    // The contract rules out a limit that leaves SL or RS outside, and a write that moves any other parameter.
    #[tactic(auto, using(integers::specs::Machine::read_back), unfolding(crate::specs::Written::written))]
    pub fn written(self, number: u64, v: i64) -> Values
        ensures { result ≡ written self number v }
    {
        let next = self.with(number, v);
        match number {
            crate::HS..=crate::LS => next.limited_anew(crate::SL, crate::LS, crate::HS),
            crate::HR..=crate::LR => next.limited_anew(crate::RS, crate::LR, crate::HR),
            _ => next,
        }
    }
}

impl Parameters {
    // The same of a write that has passed the tests of its row: it leaves legal parameters.
    #[tactic(auto, using(integers::specs::Machine::read_back, crate::specs::WrittenLaws::written_legal))]
    pub fn after_write(self, number: u64, v: i64) -> Parameters
        requires { 1 ≤ number × number ≤ 23 × (in_range (rule_of number) (value self) v ≡ true)
            × (pair_in_order (rule_of number) (value self) number v ≡ true) }
        ensures { result ≡ written self number v }
    {
        Parameters {
            values: self.values.written(number, v),
        }
    }
}
