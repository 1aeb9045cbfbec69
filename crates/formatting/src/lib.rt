// Text of at most so many bytes, in which bytes and numbers are written one behind the other. What doesn't fit is left
// out, so no call has a condition, and the contracts state every byte.
#![tactic(auto)]

ghost use Rattle.std.specs.Prelude.{◌≡◌, [], ◌∷◌, ◌≤◌, ◌<◌, leb, take, replicate};
ghost use Rattle.numerals.specs.Numerals.{last_digits, digits, decimal, hexadecimal, hexadecimal_word};
ghost use Rattle.formatting.specs.Buffer.{buffer, append_all, filled, capacity, written, emptied};

use std::marker::Model;

// Bytes, and how many of them are used: an array, since the library has no heap.
#[derive(Drop)]
pub struct Text<const N: usize> {
    bytes: [u8; N],
    used: usize,
}

// Clauses see the buffer.
impl<const N: usize> Model for Text<N> {
    ghost use Rattle.std.specs.Prelude.{◌≤◌};
    ghost use Rattle.formatting.specs.Buffer.{Buffer, buffer};

    ghost Value = { Buffer };

    ghost view = { λ t. buffer t.bytes t.used };

    ghost invariant = { λ t. t.used ≤ N };
}

impl<const N: usize> Text<N> {
    // With nothing in it.
    pub fn new() -> Self
        ensures { result ≡ buffer (replicate N 0) 0 }
    {
        Text {
            bytes: [0; N],
            used: 0,
        }
    }

    // What was written. The contract rules out a byte more or less.
    pub fn as_slice(&self) -> &[u8]
        ensures { result.now ≡ written self.now }
    {
        &self.bytes[..self.used]
    }

    // How many bytes were written.
    pub fn len(&self) -> usize
        ensures { result ≡ filled self.now }
    {
        self.used
    }

    // Whether there is no room for another byte.
    pub fn is_full(&self) -> bool
        ensures { result ≡ leb (capacity self.now) (filled self.now) }
    {
        self.used == N
    }

    // From the front again. The contract rules out that a byte changes.
    pub fn clear(&mut self)
        ensures { self.new ≡ emptied self.old }
    {
        self.used = 0;
    }

    // One byte. The contract rules out a byte written past those used, and a count that is off by one.
    #[tactic(auto, unfolding(crate::specs::Buffer::append, crate::specs::Buffer::append_all))]
    pub fn push(&mut self, byte: u8)
        ensures { self.new ≡ append_all self.old (byte ∷ []) }
    {
        if self.used < N {
            self.bytes[self.used] = byte;
            self.used += 1;
        }
    }

    // The bytes of a slice, copied as a whole: byte by byte, each would store the length. The contract rules out a byte
    // that is lost, or out of its order.
    pub fn push_all(&mut self, bytes: &[u8])
        ensures { self.new ≡ append_all self.old bytes.now }
    {
        let fitting = front(bytes, N - self.used);
        let used = self.used;
        let end = used + fitting.len();
        let whole = &mut self.bytes[..];
        whole[used..end].copy_from_slice(fitting);
        self.used = end;
    }

    // The same, byte by byte, for two or four digits: there the call of a copy costs more than it saves. The contract
    // rules out a byte that is lost, or out of its order.
    fn push_each(&mut self, bytes: &[u8])
        ensures { self.new ≡ append_all self.old bytes.now }
    {
        for byte in bytes {
            self.push(*byte);
        }
    }

    // The last digits of a number, so many: at most twenty, as many as 64 bits have in decimal.
    fn push_digits(&mut self, base: u64, count: usize, number: u64)
        requires { (1 < base) × (base ≤ 16) × (count ≤ 20) }
        ensures { self.new ≡ append_all self.old (last_digits base count number) }
    {
        let mut digits = [0u8; 20];
        numerals::writing::write_digits(&mut digits, base, count, number);
        self.push_each(&digits[..count]);
    }

    // A natural number in decimal. The contract rules out a leading zero and a digit that is wrong.
    #[tactic(auto, unfolding(numerals::specs::Numerals::digits))]
    pub fn push_decimal(&mut self, number: u64)
        ensures { self.new ≡ append_all self.old (digits number) }
    {
        let mut digits = [0u8; 20];
        let count = numerals::writing::places(number);
        numerals::writing::write_digits(&mut digits, 10, count, number);
        self.push_all(&digits[..count]);
    }

    // An integer in decimal. The contract rules out a sign that is lost.
    pub fn push_signed(&mut self, number: i64)
        ensures { self.new ≡ append_all self.old (decimal number) }
    {
        if number < 0 {
            self.push(b'-');
        }
        self.push_decimal(number.unsigned_abs());
    }

    // A word in four hexadecimal digits, its low 16 bits. The contract rules out small letters and a digit too few or
    // too many.
    #[tactic(auto, unfolding(numerals::specs::Numerals::hexadecimal_word))]
    pub fn push_word(&mut self, word: u64)
        ensures { self.new ≡ append_all self.old (hexadecimal_word word) }
    {
        self.push_digits(16, 4, word);
    }

    // The bytes of a slice in hexadecimal, two digits to a byte. The contract rules out halves that are exchanged and
    // small letters.
    pub fn push_hexadecimal(&mut self, bytes: &[u8])
        ensures { self.new ≡ append_all self.old (hexadecimal bytes.now) }
    {
        for byte in bytes {
            self.push_digits(16, 2, *byte as u64);
        }
    }
}

// The first bytes of a slice, so many, or all where there are fewer: those of a reply in a buffer that a host lent. The
// contract rules out one byte more.
pub fn front(bytes: &[u8], count: usize) -> &[u8]
    ensures { result.now ≡ take count bytes.now }
{
    bytes.get(..count).unwrap_or(bytes)
}
