// Writes: who may make one, whether it is accepted, and what it leaves.
ghost use Rattle.std.specs.Prelude.{◌≡◌, ◌≤◌};
ghost use Rattle.std.proofs.Math.Option.{none};
ghost use Rattle.signals.specs.Refusals.{number_in, refused_by};
ghost use Rattle.controller.specs.Answers.{response_of_verdict};
ghost use Rattle.controller.specs.Valid.{Valid};
ghost use Rattle.controller.specs.Write.{setpoint_tests, word_of, state_tests, value_tests, access_now, write_tests, common_tests};
ghost use Rattle.controller.specs.Write.{md_written, ds_written, parameter_written, core_written, controller_written, write};

use crate::{CallResult, Controller, Core};
use rights::Writer;
use signals::Refusal;

// How many words of 16 bits there are.
const WORD_COUNT: u64 = Controller::WORD_MOST as u64 + 1;

fn word_of(v: i64) -> u16
    ensures { result ≡ word_of v }
{
    (v.unsigned_abs() % WORD_COUNT) as u16
}

impl Core {
    // Refusal 8.
    fn setpoint_verdict(&self) -> Result<(), Refusal>
        ensures { number_in result ≡ refused_by (setpoint_tests self.now) }
    {
        let switches = signals::switches_of(self.sw);
        if modes::sets_setpoint(self.mode(), switches.setpointtracks) {
            return Err(Refusal::Setpoint);
        }
        Ok(())
    }

    // Refusals 8 to 11, of a value that the table accepts.
    fn state_verdict(&self, number: u64, v: i64) -> Result<(), Refusal>
        ensures { number_in result ≡ refused_by (state_tests self.now number v) }
    {
        match number {
            parameters::SL => self.setpoint_verdict(),
            parameters::MD => words::written::md_verdict(self.conditions, word_of(v)),
            _ => Ok(()),
        }
    }

    // Refusals 6 to 11. The contract rules out a refusal for another cause, one that is forgotten, and a higher number
    // where a lower one applies.
    fn value_verdict(&self, number: u64, v: i64) -> Result<(), Refusal>
        ensures { number_in result ≡ refused_by (value_tests self.now number v) }
    {
        let values = self.parameters.values();
        let rule = Controller::rule(number);
        if !rule.in_range(values, v) {
            return Err(Refusal::Range);
        }
        if !rule.pair_in_order(values, number, v) {
            return Err(Refusal::Pair);
        }
        self.state_verdict(number, v)
    }

    // Refusals 4, 19, 20 and 5, by the stored pin byte. The contract rules out another byte.
    fn access(&self, writer: Writer, number: u64) -> Result<(), Refusal>
        ensures { number_in result ≡ refused_by (access_now self.now writer number) }
    {
        let rule = Controller::rule(number);
        rights::access_verdict(rule, writer, self.conditions.pins, number)
    }

    // Whether a write is accepted. The contract rules out a refusal of the value where the writer may not write.
    fn write_verdict(&self, writer: Writer, number: u64, v: i64) -> Result<(), Refusal>
        ensures { number_in result ≡ refused_by (write_tests self.now writer number v) }
    {
        self.access(writer, number)?;
        self.value_verdict(number, v)
    }

    // Of the state, a write of MD, DS or a parameter from 1 to 23 changes the fields that it names: no write touches
    // anything else.
    fn md_written(&self, word: u16) -> Core
        ensures { result ≡ md_written self.now word }
    {
        Core {
            conditions: words::written::conditions_written(self.conditions, word),
            userbits: words::written::power_written(self.userbits, word),
            ..*self
        }
    }

    fn ds_written(&self, word: u16) -> Core
        ensures { result ≡ ds_written self.now word }
    {
        Core {
            userbits: words::written::user_bits_written(self.userbits, word),
            ..*self
        }
    }

    fn parameter_written(&self, number: u64, v: i64) -> Core
        requires { 1 ≤ number × number ≤ 23 × refused_by (common_tests self.now number v) ≡ none }
        ensures { result ≡ parameter_written self.now number v }
    {
        Core {
            parameters: self.parameters.after_write(number, v),
            ..*self
        }
    }

    // What an accepted write leaves, but for the output.
    fn written(&self, number: u64, v: i64) -> Core
        requires { refused_by (common_tests self.now number v) ≡ none }
        ensures { result ≡ core_written self.now number v }
    {
        let word = word_of(v);
        match number {
            parameters::MD => self.md_written(word),
            parameters::DS => self.ds_written(word),
            _ => self.parameter_written(number, v),
        }
    }
}

impl Controller {
    // The controller after an accepted write, by whomever.
    fn written(self, number: u64, v: i64) -> Controller
        requires { refused_by (common_tests self.core number v) ≡ none }
        ensures { result ≡ controller_written self number v }
    {
        let mode = self.core.mode();
        let core = self.core.written(number, v);
        let output = outputs::output_written(number, mode, core.parameters, self.output);
        Controller { core, output }
    }

    // Whether this writer may write the parameter with this number now: accepted, or the refusal that any value would
    // get, 4, 19, 20 or 5. A host asks it before it offers a field for editing. The contract rules out an answer that
    // another writer or another parameter would get; nothing changes, since no controller is returned.
    pub fn write_access(self, writer: Writer, number: u64) -> Result<(), Refusal>
        ensures { number_in result ≡ refused_by (access_now self.core writer number) }
    {
        self.core.access(writer, number)
    }

    // One write of a value by a writer, in the parameter's own units (`parameters` has the numbers by name): the next
    // controller and that it was accepted, or a refusal, 4, 19, 20 or from 5 to 11, and the controller as it was. The
    // contract gives the whole of both, so it rules out a write that changes anything else, one that
    // forgets what it should do besides, one by a writer without the right, a refusal for no listed cause, and a
    // controller that the next call could not take.
    pub fn write(self, writer: Writer, number: u64, value: i32) -> CallResult
        ensures { (response_of_verdict result ≡ write self writer number value) × Valid result.controller }
    {
        let v = i64::from(value);
        match self.core.write_verdict(writer, number, v) {
            Ok(()) => CallResult {
                controller: self.written(number, v),
                verdict: Ok(()),
            },
            Err(refusal) => CallResult {
                controller: self,
                verdict: Err(refusal),
            },
        }
    }
}
