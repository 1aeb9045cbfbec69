// Document 01's scaling of samples: a channel's range, the root of channel 1, and the quotients of a ratio setpoint.
#![tactic(auto)]

ghost use Rattle.std.specs.Prelude.{◌≡◌, ◌≤◌, pos, ◌*ℤ◌};
ghost use Rattle.integers.specs.Rounding.{nearest_even};
ghost use Rattle.scaling.specs.Scale.{scaled, ChannelRange};
ghost use Rattle.scaling.specs.Root.{root_of};
ghost use Rattle.scaling.specs.Ratio.{ratio_quotient, inverse_quotient, RatioRange, QuotientRange};

mod roots;

// The sample scaled to low..high. The contract rules out a half that goes down and a quotient that is cut.
pub fn scale(low: i64, high: i64, sample: u16) -> i64
    requires { ChannelRange low high sample }
    ensures { result ≡ scaled low high sample }
{
    let span = (high - low).unsigned_abs();
    let part = (2 * (sample as u64 * span) + 10000) / 20000;
    low + part as i64
}

// The greatest whole r with r × r ≤ 10000 × sample, read from the table. The contract rules out one less and one more.
pub fn root(sample: u16) -> u16
    requires { sample ≤ 10000 }
    ensures { result ≡ root_of sample }
{
    roots::entry(sample)
}

// q × m / d, nearest, halves to even, of numbers as a ratio has them. The contract rules out a half that goes away from
// zero, or toward it, whatever its neighbours are.
fn quotient(q: i64, m: u64, d: u64) -> i64
    requires { QuotientRange q m d }
    ensures { result ≡ nearest_even (q *ℤ pos m) d }
{
    let size = integers::nearest_even(q.unsigned_abs() * m, d);
    integers::signed(q < 0, size)
}

// 100 × q / s, nearest, halves to even. The contract rules out what that of `quotient` does, and the factor and the
// divisor exchanged.
pub fn ratio(q: i64, s: u64) -> i64
    requires { RatioRange q s }
    ensures { result ≡ ratio_quotient q s }
{
    quotient(q, 100, s)
}

// q × s / 100, nearest, halves to even: the quotient with S2.3 ON. The contract rules out what that of `ratio` does.
pub fn inverse_ratio(q: i64, s: u64) -> i64
    requires { RatioRange q s }
    ensures { result ≡ inverse_quotient q s }
{
    quotient(q, s, 100)
}
