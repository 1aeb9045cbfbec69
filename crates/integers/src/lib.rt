// Numbers made of sign and magnitude, limited, and quotients taken to the nearest whole number. The laws that let
// `omega` read integers, for the proofs of every crate above, are in specs/.
#![tactic(auto)]

ghost use Rattle.std.specs.Prelude.{◌≡◌, ◌<◌};
ghost use Rattle.integers.specs.Sign.{from_sign};
ghost use Rattle.integers.specs.Limit.{limited};
ghost use Rattle.integers.specs.Rounding.{half_even};

use std::cmp::Ordering;

// -m where minus is true, else m. The contract rules out a sign that is lost.
pub fn signed(minus: bool, m: u64) -> i64
    requires { m < 9223372036854775808 }
    ensures { result ≡ from_sign minus m }
{
    if minus { -(m as i64) } else { m as i64 }
}

// The value, but low where it is below low, and high where it is above high. The contract rules out a
// limit that is off by one. `clamp` would ask that low isn't above high.
pub fn limit(low: i64, high: i64, value: i64) -> i64
    ensures { result ≡ limited low high value }
{
    low.max(value).min(high)
}

// n / d to the nearest whole number, an exact half going to the even neighbour. Twice the remainder might not fit, so
// it is compared with what it lacks of d. The contract rules out a quotient that is cut and a half that goes up or down
// whatever its neighbours are.
pub fn nearest_even(n: u64, d: u64) -> u64
    requires { 0 < d }
    ensures { result ≡ half_even n d }
{
    let rest = n % d;
    let quotient = n / d;
    match rest.cmp(&(d - rest)) {
        Ordering::Less => quotient,
        Ordering::Equal => quotient + quotient % 2,
        Ordering::Greater => quotient + 1,
    }
}
