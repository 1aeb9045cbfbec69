// Bytes in hexadecimal digits, read.
ghost use Rattle.std.specs.Prelude.{◌≡◌, true, ◌++◌, ◌*◌, ◌≤◌, ◌<◌, length, drop, ltb, MatchOption};
ghost use Rattle.text.specs.Hexadecimal.{capital, hexadecimal_value, all_digits, is_dash, pair, pairs, bytes_of, count_in, bytes_in};

// The capital of a small letter that is a digit; another byte as it is. Not `to_ascii_uppercase`: the definition
// `capital` turns these six letters alone.
#[tactic(auto, unfolding(crate::specs::Hexadecimal::capital))]
fn capital(b: u8) -> u8
    ensures { result ≡ capital b }
{
    match b {
        b'a'..=b'f' => b - b'a' + b'A',
        _ => b,
    }
}

// The value of a digit of either case. The ranges stand here: the value that `numerals::digit_value` gives would be
// tested once more for each digit.
#[tactic(auto, unfolding(crate::specs::Hexadecimal::hexadecimal_value, numerals::specs::Numerals::digit_value))]
fn digit_value(b: u8) -> Option<u8>
    ensures { MatchOption result (hexadecimal_value b ≡ 16) (λ d. (d ≡ hexadecimal_value b) × (d < 16)) }
{
    let digit = capital(b);
    match digit {
        b'0'..=b'9' => Some(digit - b'0'),
        b'A'..=b'F' => Some(digit - b'A' + 10),
        _ => None,
    }
}

fn is_digit(b: u8) -> bool
    ensures { result ≡ ltb (hexadecimal_value b) 16 }
{
    digit_value(b).is_some()
}

#[tactic(auto, using(crate::specs::HexadecimalLaws::all_digits_are))]
fn all_digits(word: &[u8]) -> bool
    ensures { result ≡ all_digits word.now }
{
    word.iter().all(|b| is_digit(*b))
}

#[tactic(auto, unfolding(crate::specs::Hexadecimal::is_dash))]
fn is_dash(word: &[u8]) -> bool
    ensures { result ≡ is_dash word.now }
{
    word == b"-".as_slice()
}

// Both are digits, so 0 never stands for one. Not `unwrap`: its test would keep the bytes from being worked out side by
// side.
fn pair_value(high: u8, low: u8) -> u8
    requires { (hexadecimal_value high < 16) × (hexadecimal_value low < 16) }
    ensures { result ≡ pair high low }
{
    digit_value(high).unwrap_or(0) * 16 + digit_value(low).unwrap_or(0)
}

// Writes the bytes of pairs of digits to the front of a buffer.
fn write_pairs(word: &[u8], count: usize, bytes: &mut [u8])
    requires { (all_digits word.now ≡ true) × (2 * count ≤ length word.now) × (count ≤ length bytes.old) }
    ensures { bytes.new ≡ pairs word.now count ++ drop count bytes.old }
{
    for n in 0..count {
        bytes[n] = pair_value(word[2 * n], word[2 * n + 1]);
    }
}

// The bytes of a word with two digits to a byte, or none for the word `-`, at the front of a buffer; the result is how
// many. A word with an odd number of digits, no digit, another character, or more bytes than the buffer has is
// malformed. The contract rules out a wrong byte, a malformed word that is taken, and any change of the buffer but the
// bytes of a word that is taken.
pub fn parse(word: &[u8], bytes: &mut [u8]) -> Option<usize>
    ensures value { result ≡ count_in (bytes_of word.now) (length bytes.old) }
    ensures bytes_after { bytes.new ≡ bytes_in (bytes_of word.now) bytes.old }
{
    if is_dash(word) {
        return Some(0);
    }
    if word.is_empty() || word.len() % 2 == 1 || !all_digits(word) {
        return None;
    }
    let count = word.len() / 2;
    if bytes.len() < count {
        return None;
    }
    write_pairs(word, count, bytes);
    Some(count)
}
