// One scan: document 01's steps, each a function, and what it answers. What a gap forgets is forgotten before them all.
// Steps 2 and 3 come first, as the mode decides the others; step 6 comes last, as it needs what step 5 gives.
ghost use Rattle.std.specs.Prelude.{◌≡◌, Ok};
ghost use Rattle.setpoints.specs.Computation.{computed};
ghost use Rattle.controller.specs.Answers.{reply_of, response_of};
ghost use Rattle.controller.specs.Scan.{context_of, indications_after, core_after};
ghost use Rattle.controller.specs.Scan.{status_of, with_output, stepped, scan};
ghost use Rattle.controller.specs.Valid.{Valid};

use crate::{Controller, Core, ScanResult};
use answers::ScanValues;
use modes::{Conditions, Mode};
use outputs::{Context, History};
use setpoints::{AcceptedInput, Computed, Readings};
use signals::{Input, Switches};
use words::Indications;

impl Core {
    // Step 3, and of step 6 whether the scan goes to minimum.
    fn context(&self, after: Conditions, input: Input) -> Context
        ensures { result ≡ context_of self.now after input }
    {
        let switches = signals::switches_of(self.sw);
        Context {
            switches,
            mode: after.mode(switches.ratio),
            tominimum: self
                .conditions
                .goes_to_minimum(input, switches.ratio, switches.powerfail),
            input,
        }
    }

    // Steps 1, 4 and 5.
    fn compute(&self, s: Switches, mode: Mode, accepted: AcceptedInput) -> Computed
        ensures { result ≡ computed self.now.parameters s self.now.userbits.measuredpower mode accepted }
    {
        setpoints::compute(
            self.parameters,
            s,
            self.userbits.measuredpower,
            mode,
            accepted,
        )
    }

    fn indications_after(&self, x: Context, r: Readings) -> Indications
        ensures { result ≡ indications_after self.now x r }
    {
        Indications {
            buttons: x.input.buttons,
            batterylow: signals::battery_low(x.input),
            lowalarm: setpoints::low_alarm(self.parameters, r),
            highalarm: setpoints::high_alarm(self.parameters.values(), r),
        }
    }

    // The state that the scan leaves, but for the output. The contract rules out that the reading of before is kept.
    fn after(&self, earlier: History, conditions: Conditions, x: Context, r: Computed) -> Core
        ensures { result ≡ core_after self.now earlier conditions x r }
    {
        let isopen = signals::is_open(x.input);
        Core {
            sw: self.sw,
            parameters: r.parameters,
            conditions,
            userbits: self.userbits,
            readings: r.readings,
            indications: self.indications_after(x, r.readings),
            history: outputs::earlier::history_after(earlier, isopen, r.readings),
            clock: Some(x.input.milliseconds),
        }
    }
}

impl Controller {
    // The controller after an accepted scan.
    fn stepped(self, accepted: AcceptedInput) -> Controller
        ensures { result ≡ stepped self accepted }
    {
        let input = accepted.input();
        let core = self.core;
        let aftergap = signals::clock::is_after_gap(core.clock, input.milliseconds);
        let history = outputs::earlier::history_before(core.history, aftergap);
        let conditions = core.conditions.after(input);
        let x = core.context(conditions, input);
        let r = core.compute(x.switches, x.mode, accepted);
        let readings = r.readings;
        let next = core.after(history, conditions, x, r);
        let output = outputs::output_after(core.parameters, x, readings, history, self.output);
        Controller { core: next, output }
    }

    // MD, DS, OP, electrical output, mode and PV of the present state. The contract rules out a value that is
    // another's, and the mode or PV of before the scan.
    fn answer(self) -> ScanValues
        ensures { reply_of (Ok result) ≡ with_output (status_of self.core) self.core.sw self.output }
    {
        let core = self.core;
        ScanValues {
            md: core.md(),
            ds: core.ds(),
            op: crate::op_of(self.output),
            electrical: crate::electrical_of(core.sw, self.output),
            mode: core.mode(),
            pv: core.readings.pv as i32,
        }
    }

    // One scan: the next controller and the answer, or the refusal and the controller as it was. The
    // contract gives the whole of both, so it rules out a scan that changes anything else, a refusal
    // for no listed cause, an output or a word other than the rules', and a controller that the next call
    // could not take.
    pub fn scan(self, input: Input) -> ScanResult
        ensures { (response_of result ≡ scan self input) × Valid result.controller }
    {
        match signals::scan_verdict(self.core.clock, input) {
            Ok(()) => {
                let controller = self.stepped(AcceptedInput::in_range(input));
                ScanResult {
                    controller,
                    answer: Ok(controller.answer()),
                }
            }
            Err(refusal) => ScanResult {
                controller: self,
                answer: Err(refusal),
            },
        }
    }
}
