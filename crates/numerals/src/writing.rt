// Numbers in ASCII digits, written to the front of a buffer.
ghost use Rattle.std.specs.Prelude.{◌≡◌, ◌++◌, ◌≤◌, ◌<◌, length, drop};
ghost use Rattle.numerals.specs.Numerals.{digit_byte, last_digits, places};

#[tactic(auto, unfolding(crate::specs::Numerals::digit_byte))]
fn digit_byte(d: u64) -> u8
    requires { d < 16 }
    ensures { result ≡ digit_byte d }
{
    let small = d as u8;
    if small < 10 {
        b'0' + small
    } else {
        b'A' + (small - 10)
    }
}

// How many decimal digits a number has. The contract rules out a leading zero, and a digit too few.
pub fn places(n: u64) -> usize
    ensures { (result ≡ places 10 n) × (result ≤ 20) }
{
    match n.checked_ilog10() {
        Some(power) => power as usize + 1,
        None => 1,
    }
}

// The last digits of a number, so many. The contract gives every byte of the buffer, so it rules out a digit out of its
// order and a change behind the digits.
pub fn write_digits(out: &mut [u8], base: u64, count: usize, n: u64)
    requires { (1 < base) × (base ≤ 16) × (count ≤ length out.old) }
    ensures { out.new ≡ last_digits base count n ++ drop count out.old }
{
    let mut rest = n;
    for i in (0..count).rev() {
        out[i] = digit_byte(rest % base);
        rest /= base;
    }
}
