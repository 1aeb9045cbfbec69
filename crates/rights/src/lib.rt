// Document 02, request 6: who may write which parameter.
#![tactic(auto)]

ghost use Rattle.std.specs.Prelude.{◌≡◌};
ghost use Rattle.signals.specs.Refusals.{number_in, refused_by};
ghost use Rattle.rights.specs.Rights.{may_write, needs_pin, pin_tests, right_tests, access_tests};

use parameters::{DS, MD, RB, RS, Rule, SL};
use signals::Refusal;

// Who writes: each write and each line of the terminal names one.
#[derive(Clone, Copy)]
pub enum Writer {
    Operator,
    Engineer,
    Computer,
}

impl Writer {
    // The table of rights, by writer and number, which a host can ask what a writer has at all; whether there is such a
    // parameter, whether it can be written, and the Computer pin are `Controller::write_access`'s. The contract rules
    // out a parameter that is another writer's, and one left out.
    pub fn may_write(self, number: u64) -> bool
        ensures { result ≡ may_write self number }
    {
        match self {
            Writer::Operator => match number {
                SL..=RS | MD..=DS => true,
                _ => false,
            },
            Writer::Engineer => true,
            Writer::Computer => match number {
                SL..=RB | MD..=DS => true,
                _ => false,
            },
        }
    }

    // Whether the right is there only while the Computer pin is at 1. The contract rules out a computer that needs no
    // pin, and any other writer who does.
    fn needs_pin(self) -> bool
        ensures { result ≡ needs_pin self }
    {
        match self {
            Writer::Operator => false,
            Writer::Engineer => false,
            Writer::Computer => true,
        }
    }

    // Refusal 19, by the stored pin byte.
    fn pin_verdict(self, pins: u8) -> Result<(), Refusal>
        ensures { number_in result ≡ refused_by (pin_tests self pins) }
    {
        let needed = self.needs_pin();
        let present = signals::computer_pin(pins);
        if needed & !present {
            return Err(Refusal::ComputerPin);
        }
        Ok(())
    }

    // Refusal 20.
    fn right_verdict(self, number: u64) -> Result<(), Refusal>
        ensures { number_in result ≡ refused_by (right_tests self number) }
    {
        if self.may_write(number) {
            return Ok(());
        }
        Err(Refusal::WriterRight)
    }
}

// Whether any value may be written to a number, of this row of the parameter table, by this writer with this stored pin
// byte: refusals 4, 19, 20 and 5, in this order. The contract rules out a refusal for another cause, one that is
// forgotten, and a later one where an earlier one applies.
pub fn access_verdict(rule: Rule, writer: Writer, pins: u8, number: u64) -> Result<(), Refusal>
    ensures { number_in result ≡ refused_by (access_tests rule writer pins number) }
{
    rule.unknown_verdict()
        .and(writer.pin_verdict(pins))
        .and(writer.right_verdict(number))
        .and(rule.read_only_verdict())
}
