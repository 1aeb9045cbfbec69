// The controller: its state, and start fresh. The other calls and the table of parameters are in files of their own.
#![tactic(auto)]

ghost use Rattle.std.specs.Prelude.{◌≡◌, ◌≤◌};
ghost use Rattle.outputs.specs.OutputLaws.{OutputRange};
ghost use Rattle.controller.specs.Answers.{op_of, electrical_of};
ghost use Rattle.controller.specs.Scan.{mode_now, md_now, ds_now};
ghost use Rattle.controller.specs.State.{start_conditions, start_readings, start_core, fresh_controller};
ghost use Rattle.controller.specs.Valid.{Valid};

use answers::ScanValues;
use modes::{Conditions, Mode, Request};
use outputs::History;
use parameters::{Parameters, Values};
use setpoints::Readings;
use signals::Refusal;
use std::marker::Model;
use words::{Indications, UserBits};

mod read;
mod repaired;
mod restart;
mod save;
mod scan;
mod table;
mod write;

// All that lasts between calls but the output: SW; parameters 1 to 23; request, memory fault, open count
// and pins; user bits and MD bit 4; PV, SP, ER and MP; buttons, battery and alarms; the earlier PVs and SP; the last
// accepted reading of the host's clock.
#[derive(Clone, Copy)]
pub struct Core {
    sw: u16,
    parameters: Parameters,
    conditions: Conditions,
    userbits: UserBits,
    readings: Readings,
    indications: Indications,
    history: History,
    clock: Option<u64>,
}

// The output is a whole number of 1/65,536 units. "Each call takes the controller and hands back the next one": the
// fields are private, so that only a start fresh and the calls give a controller.
#[derive(Clone, Copy)]
pub struct Controller {
    core: Core,
    output: i64,
}

// A contract sees the state and the output. They are always those that some list of calls leads to, so every controller
// can take the next call.
impl Model for Controller {
    ghost use Rattle.controller.specs.Contents.{Contents};

    ghost Value = { Contents };

    ghost use Rattle.controller.specs.Valid.{Valid};

    ghost view = { λ c. record { core = c.core; output = c.output } };

    ghost invariant = { λ c. Valid (record { core = c.core; output = c.output }) };

    ghost inverse = { λ c. record { core = c.core; output = c.output } };
}

// What a scan returns: "Each call takes the controller and hands back the next one", after a refusal too.
#[derive(Clone, Copy)]
pub struct ScanResult {
    pub controller: Controller,
    pub answer: Result<ScanValues, Refusal>,
}

// What a write or a restart returns, after a refusal too.
#[derive(Clone, Copy)]
pub struct CallResult {
    pub controller: Controller,
    pub verdict: Result<(), Refusal>,
}

// The pin byte before the first scan: the Hold pin high, the others low.
const START_PINS: u8 = 0x80;

fn start_conditions(request: Request, fault: bool) -> Conditions
    ensures { result ≡ start_conditions request fault }
{
    Conditions {
        request,
        fault,
        opencount: 0,
        pins: START_PINS,
    }
}

fn start_readings(p: Parameters) -> Readings
    ensures { result ≡ start_readings p }
{
    let pv = p.get(parameters::L1);
    let sp = p.get(parameters::SL);
    let er = pv - sp;
    Readings { pv, sp, er, mp: 0 }
}

// The state that a start leaves but for the output, with these settings. The contract rules out that
// anything of an earlier state is kept.
fn start_core(
    sw: u16,
    parameters: Parameters,
    request: Request,
    fault: bool,
    userbits: UserBits,
) -> Core
    ensures { result ≡ start_core sw parameters request fault userbits }
{
    let conditions = start_conditions(request, fault);
    let readings = start_readings(parameters);
    Core {
        sw,
        parameters,
        conditions,
        userbits,
        readings,
        indications: Indications {
            buttons: 0,
            batterylow: false,
            lowalarm: false,
            highalarm: false,
        },
        history: History::Nothing,
        clock: None,
    }
}

fn op_of(output: i64) -> u16
    requires { OutputRange output }
    ensures { (result ≡ op_of output) × (result ≤ 9999) }
{
    (output.unsigned_abs() / terms::UNIT) as u16
}

fn electrical_of(sw: u16, output: i64) -> u16
    requires { OutputRange output }
    ensures { result ≡ electrical_of sw output }
{
    let s = signals::switches_of(sw);
    let op = op_of(output);
    if s.displayinversion {
        parameters::OP_MOST - op
    } else {
        op
    }
}

impl Core {
    fn mode(&self) -> Mode
        ensures { result ≡ mode_now self.now }
    {
        self.conditions.mode(signals::switches_of(self.sw).ratio)
    }

    fn md(&self) -> u16
        ensures { result ≡ md_now self.now }
    {
        words::md(
            self.mode(),
            self.conditions,
            self.userbits,
            self.indications,
        )
    }

    // `md` but for the function of `words`: one function of both would take that as a closure, and be no shorter.
    fn ds(&self) -> u16
        ensures { result ≡ ds_now self.now }
    {
        words::ds(
            self.mode(),
            self.conditions,
            self.userbits,
            self.indications,
        )
    }
}

impl Controller {
    // Starts fresh with any switch word. The contract rules out any other state than document 01's, and a controller
    // that the next call could not take.
    pub fn fresh(sw: u16) -> Controller
        ensures { (result ≡ fresh_controller sw) × Valid result }
    {
        let values = Values::of(Self::DEFAULTS);
        let parameters = Parameters::legal(values);
        let userbits = UserBits {
            user1: false,
            user2: false,
            measuredpower: false,
        };
        let core = start_core(sw, parameters, Request::Manual, false, userbits);
        Controller { core, output: 0 }
    }

    // Does nothing: its contract says what the type holds of every controller, for the proof of a caller who needs it.
    pub fn valid(self)
        ensures { Valid self }
    {
        let _ = &self.core;
    }

    // The reading of the last accepted scan, or none since a fresh start or a restart: a scan is refused before 30 ms
    // have gone by since, and forgets earlier scans after more than 42. The contract rules out a reading that was
    // refused.
    pub fn last_reading(self) -> Option<u64>
        ensures { result ≡ self.core.clock }
    {
        self.core.clock
    }
}
