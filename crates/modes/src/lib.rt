// What decides the mode, and the mode: causes, the request, the priority order.
#![tactic(auto)]

ghost use Rattle.std.specs.Prelude.{◌≡◌};
ghost use Rattle.signals.specs.declared.Input.{Input};
ghost use Rattle.modes.specs.Modes.{is_open_cause, is_cause, counted, open_count_after, request_by, request_after};
ghost use Rattle.modes.specs.Modes.{conditions_after, mode_by, in_priority, mode_of, goes_to_minimum};
ghost use Rattle.modes.specs.Modes.{is_automatic, is_auto_or_fallback, sets_setpoint, is_limiting};

use signals::{Buttons, Input};

// What was requested last, by a button or by a write of MD.
#[derive(Clone, Copy, PartialEq, Eq)]
pub enum Request {
    Manual,
    Auto,
    Remote,
}

// The modes in their priority order.
#[derive(Clone, Copy, PartialEq, Eq)]
pub enum Mode {
    Hold,
    Track,
    Forced,
    Manual,
    Auto,
    Remote,
    Ratio,
    Fallback,
}

// The consecutive open scan with which a cause begins: 84 × 36 ms is the first step past 3 s, so it is the 85th.
const OPEN_CAUSE_SCANS: u8 = 85;

// The open count just before that scan.
const SCANS_BEFORE_CAUSE: u8 = OPEN_CAUSE_SCANS - 1;

// The part of the state that, with S2.1, decides the mode: the request, the memory fault, the count of consecutive open
// scans (up to 85), and the last scan's pin byte.
#[derive(Clone, Copy)]
pub struct Conditions {
    pub request: Request,
    pub fault: bool,
    pub opencount: u8,
    pub pins: u8,
}

// The contract rules out a cause at the 84th open scan, and none at the 85th.
pub fn is_open_cause(opencount: u8) -> bool
    ensures { result ≡ is_open_cause opencount }
{
    OPEN_CAUSE_SCANS <= opencount
}

// The contract rules out one cause that hides the other.
pub fn is_cause(fault: bool, opencount: u8) -> bool
    ensures { result ≡ is_cause fault opencount }
{
    fault | is_open_cause(opencount)
}

// One more open scan; the count stops at 85, so it never runs out of its type.
#[tactic(auto, unfolding(crate::specs::Modes::counted))]
fn counted(opencount: u8) -> u8
    ensures { result ≡ counted opencount }
{
    opencount.saturating_add(1).min(OPEN_CAUSE_SCANS)
}

// The contract rules out a count that a scan that isn't open leaves standing.
#[tactic(auto, unfolding(crate::specs::Modes::open_count_after))]
fn open_count_after(isopen: bool, opencount: u8) -> u8
    ensures { result ≡ open_count_after counted isopen opencount }
{
    if isopen { counted(opencount) } else { 0 }
}

// The first pressed of M, A, R. The contract rules out another order.
fn request_by(b: Buttons, q: Request) -> Request
    ensures { result ≡ request_by b q }
{
    if b.m {
        Request::Manual
    } else if b.a {
        Request::Auto
    } else if b.r {
        Request::Remote
    } else {
        q
    }
}

// The contract rules out a button that leaves Forced Manual.
fn request_after(cause: bool, b: Buttons, q: Request) -> Request
    ensures { result ≡ request_after cause b q }
{
    let asked = request_by(b, q);
    if cause { Request::Manual } else { asked }
}

// The mode by the request alone. The contract rules out Remote for Ratio, and either with the Remote pin 0.
fn mode_by(q: Request, remotepin: bool, ratioswitch: bool) -> Mode
    ensures { result ≡ mode_by q remotepin ratioswitch }
{
    match q {
        Request::Manual => Mode::Manual,
        Request::Auto => Mode::Auto,
        Request::Remote if !remotepin => Mode::Fallback,
        Request::Remote if ratioswitch => Mode::Ratio,
        Request::Remote => Mode::Remote,
    }
}

// Hold, Track and Forced Manual before what is requested. The contract rules out another order.
fn in_priority(holdpin: bool, trackpin: bool, cause: bool, requested: Mode) -> Mode
    ensures { result ≡ in_priority holdpin trackpin cause requested }
{
    if !holdpin {
        Mode::Hold
    } else if trackpin {
        Mode::Track
    } else if cause {
        Mode::Forced
    } else {
        requested
    }
}

// The contract rules out a mode that is not in the list of the automatic ones, and one of them left out.
pub fn is_automatic(mode: Mode) -> bool
    ensures { result ≡ is_automatic mode }
{
    matches!(
        mode,
        Mode::Auto | Mode::Remote | Mode::Ratio | Mode::Fallback
    )
}

// The contract rules out Remote and Ratio, which keep the previous SP within c1.
pub fn is_auto_or_fallback(mode: Mode) -> bool
    ensures { result ≡ is_auto_or_fallback mode }
{
    matches!(mode, Mode::Auto | Mode::Fallback)
}

// Whether SL is left to the scans of this mode. The contract rules out Auto and Fall-back, and, with S2.6 OFF, every
// mode but Remote and Ratio.
pub fn sets_setpoint(mode: Mode, setpointtracks: bool) -> bool
    ensures { result ≡ sets_setpoint mode setpointtracks }
{
    matches!(mode, Mode::Remote | Mode::Ratio) | (setpointtracks & !is_automatic(mode))
}

// Whether the output is limited in this mode. The contract rules out Hold and Track, and that another is left out.
pub fn is_limiting(mode: Mode) -> bool
    ensures { result ≡ is_limiting mode }
{
    !matches!(mode, Mode::Hold | Mode::Track)
}

impl Conditions {
    // What an accepted scan leaves. The contract rules out a count that goes on through a scan that isn't open, and a
    // request kept under a cause.
    #[tactic(auto, unfolding(crate::specs::Modes::conditions_after))]
    pub fn after(self, input: Input) -> Conditions
        ensures { result ≡ conditions_after counted self input }
    {
        let opencount = open_count_after(signals::is_open(input), self.opencount);
        let cause = is_cause(self.fault, opencount);
        let request = request_after(cause, signals::buttons_of(input.buttons), self.request);
        Conditions {
            request,
            fault: self.fault,
            opencount,
            pins: input.pins,
        }
    }

    // The mode. The contract rules out another order, and one mode for ever.
    #[tactic(auto, unfolding(crate::specs::Modes::mode_of))]
    pub fn mode(self, ratioswitch: bool) -> Mode
        ensures { result ≡ mode_of self ratioswitch }
    {
        let p = signals::pins_of(self.pins);
        let cause = is_cause(self.fault, self.opencount);
        let requested = mode_by(self.request, p.remote, ratioswitch);
        in_priority(p.hold, p.track, cause, requested)
    }

    // Whether a scan of this input, made now, sets the output to minimum if its mode is Manual or Forced Manual. The
    // contract rules out any but the 85th open scan, and the mode of this scan taken for the one before.
    #[tactic(auto, unfolding(crate::specs::Modes::goes_to_minimum))]
    pub fn goes_to_minimum(self, input: Input, ratioswitch: bool, powerfail: bool) -> bool
        ensures { result ≡ goes_to_minimum self input ratioswitch powerfail }
    {
        signals::is_open(input)
            & (self.opencount == SCANS_BEFORE_CAUSE)
            & is_automatic(self.mode(ratioswitch))
            & powerfail
    }
}
