// Reads: the value of any of the 32 parameters.
ghost use Rattle.std.specs.Prelude.{◌≡◌, ◌≤◌};
ghost use Rattle.parameters.specs.Table.{value};
ghost use Rattle.controller.specs.Answers.{op_of, reply_of_read};
ghost use Rattle.controller.specs.Read.{value_in, read};

use crate::{Controller, Core};
use signals::Refusal;

impl Core {
    fn parameter(&self, number: u64) -> i32
        requires { 1 ≤ number × number ≤ 23 }
        ensures { result ≡ value self.now.parameters number }
    {
        let p = self.parameters;
        p.get(number) as i32
    }
}

impl Controller {
    // II, the instrument identity of the 6360.
    pub const IDENTITY: i32 = 0x3608;

    // "a read answers the value": by number, MD and DS as they stand now; MP, the last of the table, for any other.
    #[tactic(auto, unfolding(crate::specs::Read::value_in))]
    fn value(self, number: u64) -> i32
        ensures { result ≡ value_in self.core (op_of self.output) number }
    {
        let core = self.core;
        let r = core.readings;
        match number {
            parameters::H1..=parameters::IC => core.parameter(number),
            parameters::MD => core.md() as i32,
            parameters::DS => core.ds() as i32,
            parameters::SW => core.sw as i32,
            parameters::II => Self::IDENTITY,
            parameters::OP => crate::op_of(self.output) as i32,
            parameters::SP => r.sp as i32,
            parameters::PV => r.pv as i32,
            parameters::ER => r.er as i32,
            _ => r.mp as i32,
        }
    }

    // The value of a parameter in its own units, or the refusal that the table names for a number outside
    // it, the only one of a read. The contract rules out a neighbour's value, a word of an earlier state, and
    // any other refusal; nothing changes, since no controller is returned.
    pub fn read(self, number: u64) -> Result<i32, Refusal>
        ensures { reply_of_read result ≡ read self number }
    {
        Controller::rule(number).unknown_verdict()?;
        Ok(self.value(number))
    }
}
