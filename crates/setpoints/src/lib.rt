// Steps 1, 4 and 5 of a scan: PV, trim, SP, ER and MP; SL and RS by `local_setpoint`; and the alarms.
#![tactic(auto)]

ghost use Rattle.std.specs.Prelude.{◌≡◌, ◌≤◌};
ghost use Rattle.integers.specs.Machine.{Small};
ghost use Rattle.scaling.specs.Ratio.{RatioRange};
ghost use Rattle.scaling.specs.Scale.{scaled, ChannelRange};
ghost use Rattle.parameters.specs.Table.{value};
ghost use Rattle.setpoints.specs.Computation.{computed, low_alarm, high_alarm};
ghost use Rattle.setpoints.specs.ComputationLaws.{SampleRange};
ghost use Rattle.setpoints.specs.Setpoints.{first_sample, process_variable, third_channel, trim_of, local_setpoint};
ghost use Rattle.setpoints.specs.Setpoints.{remote_setpoint, quotient_of, ratio_setpoint, setpoint_in, measured_power};

use modes::Mode;
use parameters::{Parameters, Values};
use signals::{Input, Switches};
use std::marker::Model;

// The input of an accepted scan.
#[derive(Clone, Copy)]
pub struct AcceptedInput {
    input: Input,
}

// A contract sees the input. Its samples of channels 1 to 3 are always 10000 at most.
impl Model for AcceptedInput {
    ghost use Rattle.signals.specs.declared.Input.{Input};

    ghost Value = { Input };

    ghost use Rattle.setpoints.specs.ComputationLaws.{SampleRange};

    ghost view = { λ a. a.input };

    ghost invariant = { λ a. SampleRange a.input };

    ghost inverse = { λ i. record { input = i } };
}

// PV, SP, ER and MP of a scan.
#[derive(Clone, Copy)]
pub struct Readings {
    pub pv: i64,
    pub sp: i64,
    pub er: i64,
    pub mp: i64,
}

// What steps 1, 4 and 5 leave: the parameters with SL and RS moved, and the readings.
#[derive(Clone, Copy)]
pub struct Computed {
    pub parameters: Parameters,
    pub readings: Readings,
}

impl AcceptedInput {
    // An input whose samples are in range. The contract rules out that it is changed.
    pub fn in_range(input: Input) -> AcceptedInput
        requires { SampleRange input }
        ensures { result ≡ input }
    {
        AcceptedInput { input }
    }

    // The contract rules out another input, and one with a sample above 10000.
    pub fn input(self) -> Input
        ensures { (result ≡ self) × SampleRange self }
    {
        self.input
    }
}

// The magnitude of IC where channel 1's sample is rooted.
const ROOT: u64 = parameters::ROOT as u64;

// A sample scaled by the two values of these numbers.
fn channel(values: Values, low: u64, high: u64, sample: u16) -> i64
    requires { ChannelRange (value values low) (value values high) sample }
    ensures { result ≡ scaled (value values low) (value values high) sample }
{
    let l = values.get(low);
    let h = values.get(high);
    scaling::scale(l, h, sample)
}

#[tactic(auto, using(crate::specs::ComputationLaws::readings), unfolding(crate::specs::Setpoints::first_sample))]
fn first_sample(p: Parameters, sample: u16) -> u16
    requires { sample ≤ 10000 }
    ensures { (result ≡ first_sample p sample) × (result ≤ 10000) }
{
    if p.get(parameters::IC).unsigned_abs() == ROOT {
        scaling::root(sample)
    } else {
        sample
    }
}

#[tactic(auto, using(crate::specs::ComputationLaws::readings), unfolding(crate::specs::Setpoints::process_variable))]
fn process_variable(p: Parameters, accepted: AcceptedInput) -> i64
    ensures { result ≡ process_variable p accepted }
{
    if signals::is_open(accepted.input) {
        p.get(parameters::L1)
    } else {
        let sample = first_sample(p, accepted.input.sample1);
        channel(p.values(), parameters::L1, parameters::H1, sample)
    }
}

#[tactic(auto, using(crate::specs::ComputationLaws::readings), unfolding(crate::specs::Setpoints::third_channel))]
fn third_channel(p: Parameters, accepted: AcceptedInput) -> i64
    ensures { result ≡ third_channel p accepted }
{
    channel(
        p.values(),
        parameters::L3,
        parameters::H3,
        accepted.input.sample3,
    )
}

#[tactic(auto, using(crate::specs::ComputationLaws::readings), unfolding(crate::specs::Setpoints::trim_of))]
fn trim_of(p: Parameters, measuredpower: bool, mode: Mode, accepted: AcceptedInput) -> i64
    ensures { result ≡ trim_of p measuredpower mode accepted }
{
    if (mode == Mode::Track) | measuredpower {
        0
    } else {
        third_channel(p, accepted)
    }
}

// `Small` here and below is a fact of an i64. A type for such numbers was tried: each function opened it again.
#[tactic(auto, using(crate::specs::ComputationLaws::readings), unfolding(crate::specs::Setpoints::local_setpoint))]
fn local_setpoint(sl: i64, ratioswitch: bool, trim: i64) -> i64
    requires { Small sl × Small trim }
    ensures { result ≡ local_setpoint sl ratioswitch trim }
{
    if ratioswitch { sl } else { sl + trim }
}

fn remote_setpoint(p: Parameters, trim: i64, accepted: AcceptedInput) -> i64
    requires { Small trim }
    ensures { result ≡ remote_setpoint p trim accepted }
{
    channel(
        p.values(),
        parameters::L1,
        parameters::H1,
        accepted.input.sample2,
    ) + trim
}

fn ratio_quotient(inverse: bool, q: i64, s: u64) -> i64
    requires { RatioRange q s }
    ensures { result ≡ quotient_of inverse q s }
{
    if inverse {
        scaling::inverse_ratio(q, s)
    } else {
        scaling::ratio(q, s)
    }
}

#[tactic(auto, using(crate::specs::ComputationLaws::readings), unfolding(crate::specs::Setpoints::ratio_setpoint))]
fn ratio_setpoint(p: Parameters, inverse: bool, rs: i64, trim: i64, accepted: AcceptedInput) -> i64
    requires { Small rs × Small trim }
    ensures { result ≡ ratio_setpoint p inverse rs trim accepted }
{
    let q = channel(
        p.values(),
        parameters::L2,
        parameters::H2,
        accepted.input.sample2,
    );
    let low = p.get(parameters::LR);
    let high = p.get(parameters::HR);
    let s = integers::limit(low, high, rs + trim).unsigned_abs();
    ratio_quotient(inverse, q, s) + p.get(parameters::RB)
}

#[tactic(auto, using(crate::specs::ComputationLaws::readings), unfolding(crate::specs::Setpoints::setpoint_in))]
fn setpoint_in(
    p: Parameters,
    s: Switches,
    mode: Mode,
    sl: i64,
    rs: i64,
    trim: i64,
    accepted: AcceptedInput,
) -> i64
    requires { Small sl × Small rs × Small trim }
    ensures { result ≡ setpoint_in p s mode sl rs trim accepted }
{
    match mode {
        Mode::Remote => remote_setpoint(p, trim, accepted),
        Mode::Ratio => ratio_setpoint(p, s.inverseratio, rs, trim, accepted),
        _ => local_setpoint(sl, s.ratio, trim),
    }
}

#[tactic(auto, using(crate::specs::ComputationLaws::readings), unfolding(crate::specs::Setpoints::measured_power))]
fn measured_power(p: Parameters, measuredpower: bool, accepted: AcceptedInput) -> i64
    ensures { result ≡ measured_power p measuredpower accepted }
{
    if measuredpower {
        third_channel(p, accepted)
    } else {
        0
    }
}

// Steps 1, 4 and 5 of an accepted scan in this mode. The contract rules out a rule of another mode, a
// limit left out, a trim added twice, an SL that follows SP before it is limited, and any other parameter changed.
pub fn compute(
    p: Parameters,
    s: Switches,
    measuredpower: bool,
    mode: Mode,
    accepted: AcceptedInput,
) -> Computed
    ensures { result ≡ computed p s measuredpower mode accepted }
{
    let values = p.values();
    let input = accepted.input();
    let pv = process_variable(p, accepted);
    let sl = local_setpoint::setpoint_after(p, s.setpointtracks, mode, input, pv);
    let rs = local_setpoint::ratio_after(p, mode, input);
    let trim = trim_of(p, measuredpower, mode, accepted);
    let unlimited = setpoint_in(p, s, mode, sl, rs, trim, accepted);
    let sp = local_setpoint::limited_setpoint(values, unlimited);
    let er = pv - sp;
    let mp = measured_power(p, measuredpower, accepted);
    let to = local_setpoint::following_setpoint(values, mode, sl, sp, trim);
    let moved = values.with(parameters::SL, to);
    let both = moved.with(parameters::RS, rs);
    Computed {
        parameters: Parameters::legal(both),
        readings: Readings { pv, sp, er, mp },
    }
}

// The contract rules out ≤ for <, and one test of the two.
pub fn low_alarm(p: Parameters, r: Readings) -> bool
    ensures { result ≡ low_alarm p r }
{
    (r.pv < p.get(parameters::LA)) | (r.er < -p.get(parameters::LD))
}

// The same for the high alarm.
#[tactic(auto, using(crate::specs::ComputationLaws::readings), unfolding(crate::specs::Computation::high_alarm))]
pub fn high_alarm(p: Values, r: Readings) -> bool
    ensures { result ≡ high_alarm p r }
{
    (p.get(parameters::HA) < r.pv) | (p.get(parameters::HD) < r.er)
}
