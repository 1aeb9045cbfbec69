// What a scan changes the output to, in each mode: the steps of Raise and Lower, and the three terms and what they are
// made of.
ghost use Rattle.std.specs.Prelude.{◌≡◌, ◌≤◌, min, nat_abs, pos};
ghost use Rattle.integers.specs.Machine.{Small};
ghost use Rattle.terms.specs.Fraction.{stored_units};
ghost use Rattle.outputs.specs.ControlDifference.{control_difference, earlier_setpoint, change_of_difference, second_difference, tuning_of};
ghost use Rattle.outputs.specs.History.{recalled};
ghost use Rattle.outputs.specs.Instruction.{stored_arithmetic, changed};
ghost use Rattle.outputs.specs.OutputLaws.{ReadingsRange, HistoryRange, HistoryRange-prop, PastRange, OutputRange};
ghost use Rattle.outputs.specs.Outputs.{adjusted, by_hand, terms_of, by_terms, change_in};

use crate::{Context, History, Past, amounts, earlier};
use modes::Mode;
use parameters::Parameters;
use setpoints::Readings;
use signals::{Adjustment, Switches};
use terms::Tuning;

// c, the control difference, or c1 of earlier values.
#[tactic(auto, using(crate::specs::Steps::steps), unfolding(crate::specs::ControlDifference::control_difference))]
fn control_difference(inverse: bool, sp: i64, pv: i64) -> i64
    requires { Small sp × Small pv }
    ensures { result ≡ control_difference inverse sp pv }
{
    if inverse { pv - sp } else { sp - pv }
}

#[tactic(auto, using(crate::specs::Steps::steps), unfolding(crate::specs::ControlDifference::earlier_setpoint))]
fn earlier_setpoint(s: Switches, mode: Mode, r: Readings, past: Past) -> i64
    ensures { result ≡ earlier_setpoint s mode r past }
{
    if modes::is_auto_or_fallback(mode) & !s.balanceoff {
        r.sp
    } else {
        past.sp
    }
}

fn tuning_of(p: Parameters, s: Switches) -> Tuning
    ensures { result ≡ tuning_of p s }
{
    Tuning {
        xp: p.get(parameters::XP).unsigned_abs(),
        span: (p.get(parameters::H1) - p.get(parameters::L1)).unsigned_abs(),
        ti: p.get(parameters::TI).unsigned_abs(),
        td: p.get(parameters::TD).unsigned_abs(),
        minutes: s.minutes,
        inverted: s.inverseoutput,
    }
}

// Track's output, stored: the lesser of sample 3 and 9999 units.
#[tactic(auto, using(crate::specs::Steps::steps), unfolding(terms::specs::Fraction::stored_units))]
fn tracked(sample: u16) -> i64
    ensures { result ≡ stored_units (pos (min sample 9999)) }
{
    i64::from(sample.min(parameters::OP_MOST)) * amounts::UNIT
}

// What a scan computes the output from: the parameters before it, its context and readings, what is remembered of
// earlier scans, and the stored output before it. Readings, what is remembered and output always lie in their ranges.
#[derive(Clone, Copy)]
pub struct Scanned {
    pub parameters: Parameters,
    pub context: Context,
    pub readings: Readings,
    pub history: History,
    pub output: i64,
    ghost read: { ReadingsRange readings },
    ghost kept: { HistoryRange history } by { HistoryRange-prop history },
    ghost stored: { OutputRange output },
}

impl Scanned {
    fn past(&self) -> Past
        ensures { (result ≡ recalled self.now.history self.now.readings) × PastRange result }
    {
        earlier::recalled(self.history, self.readings)
    }

    #[tactic(auto, using(crate::specs::Steps::steps), unfolding(crate::specs::ControlDifference::change_of_difference))]
    fn change_of_difference(&self) -> i64
        ensures value { result ≡ change_of_difference self.now.context.switches self.now.context.mode self.now.readings
            (recalled self.now.history self.now.readings) }
        ensures size { nat_abs result ≤ 39996 }
    {
        let x = self.context;
        let s = x.switches;
        let r = self.readings;
        let past = self.past();
        let now = control_difference(s.inverseoutput, r.sp, r.pv);
        let sp = earlier_setpoint(s, x.mode, r, past);
        let earlier = control_difference(s.inverseoutput, sp, past.pv);
        now - earlier
    }

    #[tactic(auto, using(crate::specs::Steps::steps), unfolding(crate::specs::ControlDifference::second_difference))]
    fn second_difference(&self) -> i64
        ensures value { result ≡ second_difference self.now.readings (recalled self.now.history self.now.readings) }
        ensures size { nat_abs result ≤ 39996 }
    {
        let r = self.readings;
        let past = self.past();
        r.pv - 2 * past.pv + past.before
    }

    // The output with the three terms added, each limited and rounded by itself. The contract rules out an
    // output that never moves.
    #[tactic(auto, using(crate::specs::Steps::steps))]
    fn with_terms(&self) -> i64
        ensures { result ≡ changed stored_arithmetic
            (terms_of self.now.parameters self.now.context self.now.readings self.now.history) self.now.output }
    {
        let s = self.context.switches;
        let r = self.readings;
        let t = tuning_of(self.parameters, s);
        let change = self.change_of_difference();
        let c = control_difference(s.inverseoutput, r.sp, r.pv);
        let d = self.second_difference();
        self.output
            + terms::proportional(t, change)
            + terms::integral(t, c)
            + terms::derivative(t, d)
    }

    #[tactic(auto, using(crate::specs::Steps::steps))]
    fn adjusted(&self, adjustment: Adjustment) -> i64
        ensures { result ≡ changed stored_arithmetic (adjusted adjustment) self.now.output }
    {
        match adjustment {
            Adjustment::Raise => self.output + crate::units(amounts::RAISE_STEP),
            Adjustment::Lower => self.output + crate::units(amounts::LOWER_STEP),
            Adjustment::Neither => self.output,
        }
    }

    // Manual and Forced Manual. The contract rules out a move while SP is held, and Raise or Lower beside the minimum.
    #[tactic(auto, using(crate::specs::Steps::steps), unfolding(crate::specs::Outputs::by_hand))]
    fn by_hand(&self) -> i64
        ensures { result ≡ changed stored_arithmetic (by_hand self.now.parameters self.now.context) self.now.output }
    {
        let b = signals::buttons_of(self.context.input.buttons);
        if self.context.tominimum {
            crate::units(crate::minimum_of(self.parameters, self.context.switches))
        } else if b.sp {
            self.output
        } else {
            self.adjusted(signals::adjustment_of(b))
        }
    }

    // The automatic modes.
    #[tactic(auto, using(crate::specs::Steps::steps), unfolding(crate::specs::Outputs::by_terms))]
    fn by_terms(&self) -> i64
        ensures { result ≡ changed stored_arithmetic
            (by_terms self.now.parameters self.now.context self.now.readings self.now.history) self.now.output }
    {
        if signals::is_open(self.context.input) {
            self.output
        } else {
            self.with_terms()
        }
    }

    // The output in the mode of the scan, not yet limited.
    #[tactic(auto, using(crate::specs::Steps::steps))]
    pub fn changed(&self) -> i64
        ensures { result ≡ changed stored_arithmetic
            (change_in self.now.context.mode self.now.parameters self.now.context self.now.readings self.now.history) self.now.output }
    {
        match self.context.mode {
            Mode::Hold => self.output,
            Mode::Track => tracked(self.context.input.sample3),
            Mode::Forced | Mode::Manual => self.by_hand(),
            Mode::Auto | Mode::Remote | Mode::Ratio | Mode::Fallback => self.by_terms(),
        }
    }
}
