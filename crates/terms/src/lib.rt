// Document 01's three terms: each an exact fraction, limited to ±10,000 units, and then the nearest
// whole number of 1/65,536 units.
#![tactic(auto)]

ghost use Rattle.std.specs.Prelude.{◌≡◌, ◌≤◌, ◌*◌, nat_abs};
ghost use Rattle.integers.specs.Sign.{from_sign};
ghost use Rattle.terms.specs.Terms.{stored_term, proportional_term, integral_term, derivative_term};
ghost use Rattle.terms.specs.Terms.{scan_numerator, scan_denominator};
ghost use Rattle.terms.specs.TermLaws.{over, turned, Storable};

use std::marker::Model;

// What the terms are computed with: XP; W = 1H - 1L, which is above zero; TI; TD; S2.8 ON, minutes;
// S2.4 ON, inverse output.
#[derive(Clone, Copy)]
pub struct Tuning {
    pub xp: u64,
    pub span: u64,
    pub ti: u64,
    pub td: u64,
    pub minutes: bool,
    pub inverted: bool,
}

// A contract sees the fields. XP, W, TI and TD always lie in their ranges.
impl Model for Tuning {
    ghost use Rattle.terms.specs.Contents.{Contents, contents};

    ghost Value = { Contents };

    ghost use Rattle.terms.specs.Terms.{TuningRange};

    ghost view = { λ t. record { xp = t.xp; span = t.span; ti = t.ti; td = t.td; minutes = t.minutes; inverted = t.inverted } };

    ghost invariant = { λ t. TuningRange (contents t.xp t.span t.ti t.td t.minutes t.inverted) };

    ghost inverse = { λ t. record { xp = t.xp; span = t.span; ti = t.ti; td = t.td; minutes = t.minutes; inverted = t.inverted } };
}

// One unit of output, 0.01 percent, stored: a whole number of 1/65,536 units.
pub const UNIT: u64 = 65536;

// What a term is limited to: 100 percent, in units and stored.
const TERM_MOST: u64 = 10000;

const STORED_MOST: u64 = TERM_MOST * UNIT;

// The gain of the terms times XP and W: 100 percent in units of output times 100 percent in XP's tenths of a percent.
const GAIN: u64 = 10000000;

// One scan, 36 ms, in TI's and TD's tenths of a second, and, with S2.8 ON, in their tenths of a minute: 9/25 and 3/500.
const SECONDS_NUMERATOR: u64 = 9;

const SECONDS_DENOMINATOR: u64 = 25;

const MINUTES_NUMERATOR: u64 = 3;

const MINUTES_DENOMINATOR: u64 = 500;

// The stored term of the fraction numerator / denominator, or of its negative. The fraction is limited
// by its whole part first, since 65,536 times an unlimited numerator need not fit 64 bits. Stored, it is at most 10,000
// units, so that three of them may be added to an output in 64 bits.
fn stored_term(minus: bool, numerator: u64, denominator: u64) -> i64
    requires { Storable numerator denominator }
    ensures { (result ≡ stored_term (over (from_sign minus numerator) denominator)) × (nat_abs result ≤ 655360000) }
{
    if TERM_MOST <= numerator / denominator {
        return integers::signed(minus, STORED_MOST);
    }
    let size = integers::nearest_even(numerator * UNIT, denominator);
    integers::signed(minus, size)
}

// XP × W
fn band(t: Tuning) -> u64
    ensures { result ≡ t.xp * t.span }
{
    t.xp * t.span
}

// One scan in the unit of TI and TD, a numerator and a denominator: 9 and 25, or 3 and 500 with S2.8 ON.
fn scan_fraction(t: Tuning) -> (u64, u64)
    ensures { result ≡ (scan_numerator t, scan_denominator t) }
{
    if t.minutes {
        (MINUTES_NUMERATOR, MINUTES_DENOMINATOR)
    } else {
        (SECONDS_NUMERATOR, SECONDS_DENOMINATOR)
    }
}

// The sign of a term, kept or turned.
fn turn(keep: bool, minus: bool) -> bool
    ensures { result ≡ turned keep minus }
{
    if keep { minus } else { !minus }
}

// The proportional term of a change c - c1. PV and SP lie in -9999..9999, so c in -19998..19998 and the change in
// -39996..39996. The contract rules out a term of the wrong sign, one that is cut, and one whose limit is off.
pub fn proportional(t: Tuning, change: i64) -> i64
    requires { nat_abs change ≤ 39996 }
    ensures { (result ≡ stored_term (proportional_term t change)) × (nat_abs result ≤ 655360000) }
{
    let numerator = GAIN * change.unsigned_abs();
    stored_term(change < 0, numerator, band(t))
}

// The integral term of c, which is SP - PV, or PV - SP with S2.4 ON. With S2.4 OFF that is the other way round than ER.
// The contract rules out seconds for minutes, a division by TI 0, and what that of `proportional` does.
pub fn integral(t: Tuning, c: i64) -> i64
    requires { nat_abs c ≤ 19998 }
    ensures { (result ≡ stored_term (integral_term t c)) × (nat_abs result ≤ 655360000) }
{
    if t.ti == 0 {
        return 0;
    }
    let (part, whole) = scan_fraction(t);
    let numerator = GAIN * c.unsigned_abs() * part;
    let denominator = band(t) * whole * t.ti;
    stored_term(c < 0, numerator, denominator)
}

// The derivative term of D, which is PV - 2 × previous PV + the one before and so lies in
// -39996..39996. Its sign is turned unless S2.4 is ON. The contract rules out that sign kept, seconds
// for minutes, and what that of `proportional` does.
pub fn derivative(t: Tuning, d: i64) -> i64
    requires { nat_abs d ≤ 39996 }
    ensures { (result ≡ stored_term (derivative_term t d)) × (nat_abs result ≤ 655360000) }
{
    let (part, whole) = scan_fraction(t);
    let numerator = GAIN * d.unsigned_abs() * whole * t.td;
    let denominator = part * band(t);
    let minus = turn(t.inverted, d < 0);
    stored_term(minus, numerator, denominator)
}
