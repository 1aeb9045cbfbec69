// Numbers in ASCII digits, read: `None` where the bytes are no such number. `writing` writes them.
#![tactic(auto)]

ghost use Rattle.std.specs.Prelude.{◌≡◌, ◌≤◌, ◌<◌, MatchOption};
ghost use Rattle.numerals.specs.Numerals.{digit_value, read_on, digits_of, with_sign};
ghost use Rattle.numerals.specs.Parsed.{within64, natural_of, parsed_number, number_of, parsed_word};

pub mod writing;

// The value of a digit, capitals for `A` to `F`. The contract rules out a small letter.
#[tactic(auto, unfolding(crate::specs::Numerals::digit_value))]
pub fn digit_value(b: u8) -> Option<u64>
    ensures { MatchOption result (digit_value b ≡ 16) (λ d. (d ≡ digit_value b) × (d < 16)) }
{
    match b {
        b'0'..=b'9' => Some((b - b'0') as u64),
        b'A'..=b'F' => Some((b - b'A' + 10) as u64),
        _ => None,
    }
}

// The value of digits, unless another byte is among them, or 64 bits don't hold it. 16 for such a byte, which is no
// digit of any base here: one test tells both, where two would cost each digit of a line more.
fn value_of(s: &[u8], base: u64) -> Option<u64>
    requires { (1 < base) × (base ≤ 16) }
    ensures { result ≡ within64 (read_on base 0 s.now) }
{
    let mut value: u64 = 0;
    for b in s {
        let d = digit_value(*b).unwrap_or(16);
        if base <= d {
            return None;
        }
        value = value.checked_mul(base)?.checked_add(d)?;
    }
    Some(value)
}

// The value of one decimal digit or more, at most so many.
#[tactic(auto, unfolding(crate::specs::Parsed::within64, crate::specs::Numerals::digits_of))]
fn digits(s: &[u8], most: usize) -> Option<u64>
    ensures { result ≡ within64 (digits_of 10 most s.now) }
{
    if s.is_empty() || most < s.len() {
        return None;
    }
    value_of(s, 10)
}

// A natural number of 64 bits: one to twenty digits, and no sign. The contract rules out a wrong value, a number that
// 64 bits don't hold, and one of up to twenty digits that they hold and isn't taken.
#[tactic(auto, unfolding(crate::specs::Parsed::natural_of))]
pub fn natural(s: &[u8]) -> Option<u64>
    ensures { result ≡ natural_of s.now }
{
    digits(s, 20)
}

fn signed(minus: bool, s: &[u8], most: usize) -> Option<i64>
    requires { most ≤ 18 }
    ensures { result ≡ parsed_number (with_sign minus (digits_of 10 most s.now)) }
{
    let value = digits(s, most)?;
    Some(integers::signed(minus, value))
}

// An integer: an optional minus and one digit or more, at most so many, with leading zeros or none; 64 bits hold any
// of eighteen. The contract rules out a wrong value, a digit too many and taking what is no number.
pub fn number(s: &[u8], most: usize) -> Option<i64>
    requires { most ≤ 18 }
    ensures { result ≡ number_of most s.now }
{
    match s {
        [b'-', digits @ ..] => signed(true, digits, most),
        digits => signed(false, digits, most),
    }
}

// A word of 16 bits: exactly four hexadecimal digits, capitals. The contract rules out a wrong value, a digit too few
// or too many, and a small letter.
pub fn word(s: &[u8]) -> Option<u16>
    ensures { result ≡ parsed_word s.now }
{
    if s.len() != 4 {
        return None;
    }
    let value = value_of(s, 16)?;
    Some(value as u16)
}
