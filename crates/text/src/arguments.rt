// The arguments of a call: the decimal numbers of a line from a position on, each of up to eighteen digits.
ghost use Rattle.std.specs.Prelude.{◌≡◌, ◌≤◌, IfSome, length, take};
ghost use Rattle.std.specs.Prelude.{option_map};
ghost use Rattle.std.specs.Result.{result_ok};
ghost use Rattle.text.specs.Arguments.{arguments_from, numbers_from, padded, held, natural_in, integer_in};

// At most six numbers, in an array: no heap.
#[derive(Clone, Copy)]
pub struct Arguments {
    pub values: [i64; 6],
    pub count: usize,
    pub ghost few: { count ≤ 6 },
}

impl Arguments {
    pub fn as_slice(&self) -> &[i64]
        ensures { result.now ≡ take self.now.count self.now.values }
    {
        &self.values[..self.count]
    }
}

// The numbers that a line's words are from a position on, and none behind the line's end; where a word is no number, or
// there are more than six, `Err` with the numbers in front of it. The contract rules out a number that is lost, a word
// that is taken for a number, a seventh number that goes unnoticed, and another value than 0 behind the numbers.
pub fn parse(line: &[u8], start: usize) -> Result<Arguments, Arguments>
    ensures value { option_map (λ a. take a.count a.values) (result_ok result) ≡ arguments_from line.now start }
    ensures numbers { ((held result).count ≡ length (numbers_from line.now start))
        × ((held result).values ≡ padded (numbers_from line.now start)) }
{
    let mut values = [0i64; 6];
    let mut at = start;
    for count in 0..6 {
        let w = crate::word(line, at);
        if w.from == w.to {
            return Ok(Arguments { values, count });
        }
        let Some(number) = numerals::number(&line[w.from..w.to], 18) else {
            return Err(Arguments { values, count });
        };
        values[count] = number;
        at = w.to;
    }
    let six = Arguments { values, count: 6 };
    let behind = crate::word(line, at);
    if behind.from < behind.to {
        return Err(six);
    }
    Ok(six)
}

// The number, from least to most. The contract rules out a value beyond the range, whatever was given, and one within
// it that is refused.
#[tactic(auto, unfolding(crate::specs::Arguments::natural_in))]
pub fn natural_in(value: i64, least: u64, most: u64) -> Option<u64>
    ensures value { result ≡ natural_in value least most }
    ensures range { IfSome result (λ n. (least ≤ n) × (n ≤ most)) }
{
    let number = u64::try_from(value).ok()?;
    if number < least || most < number {
        return None;
    }
    Some(number)
}

// The number, where 32 bits hold it. The contract rules out a value of 32 bits that is refused, and another number in
// its place.
#[tactic(auto, unfolding(crate::specs::Arguments::integer_in))]
pub fn integer_in(value: i64) -> Option<i32>
    ensures { result ≡ integer_in value }
{
    i32::try_from(value).ok()
}
