// The image as bytes: 28 fields of a tag, a length and a value, encoded in the caller's buffer and
// decoded again; and the sumcheck over the values.
#![tactic(auto)]

ghost use Rattle.std.specs.Prelude.{◌≡◌, ◌+◌, ◌<◌, ◌≤◌, ◌++◌, length, take, drop};
ghost use Rattle.signals.specs.Refusals.{number_in, refused_by};
ghost use Rattle.fields.specs.Fields.{tag_of, length_of, field_bytes, fields_from, sum_of, with_sumcheck, save_tests, saved_in};

use signals::Refusal;

pub mod decoding;

// The fields by their places: parameters 1 to 23 come first, the sumcheck last.
pub const OP: usize = 23;

pub const REQUEST: usize = 24;

pub const FAULT: usize = 25;

pub const USER_BITS: usize = 26;

pub const SUMCHECK: usize = 27;

pub const FIELD_COUNT: usize = SUMCHECK + 1;

// The values of all fields, by their places.
pub type FieldValues = [u16; FIELD_COUNT];

// The bytes of all fields.
pub const IMAGE_LENGTH: usize = 137;

// A field's tag and length, before its value.
const HEADER_LENGTH: usize = 3;

// The lengths of values.
const WORD_LENGTH: u8 = 2;

const BYTE_LENGTH: u8 = 1;

// The first tag after the parameters', whose tags are their numbers; and the last.
const OP_TAG: usize = 0x41;

const SUMCHECK_TAG: u8 = 0x7F;

// By cases: in a table the rows of 23 parameters would be alike.
#[tactic(auto, unfolding(crate::specs::Fields::tag_of))]
fn tag_of(place: usize) -> u8
    requires { place < 28 }
    ensures { result ≡ tag_of place }
{
    if place < OP {
        (place + 1) as u8
    } else if place < SUMCHECK {
        (place - OP + OP_TAG) as u8
    } else {
        SUMCHECK_TAG
    }
}

#[tactic(auto, unfolding(crate::specs::Fields::length_of))]
fn length_of(place: usize) -> u8
    requires { place < 28 }
    ensures { result ≡ length_of place }
{
    match place {
        REQUEST..=USER_BITS => BYTE_LENGTH,
        _ => WORD_LENGTH,
    }
}

// Encodes one field at the front of the part that is passed. The contract rules out a byte behind the
// field that changes.
fn encode_field(part: &mut [u8], tag: u8, size: u8, value: u16)
    requires { (3 + size ≤ length part.old) × (1 ≤ size) × (size ≤ 2) }
    ensures { part.new ≡ field_bytes tag size value ++ drop (3 + size) part.old }
{
    part[0] = tag;
    part[1] = 0;
    part[2] = size;
    let [high, low] = value.to_be_bytes();
    if size == WORD_LENGTH {
        part[3] = high;
        part[4] = low;
    } else {
        part[3] = low;
    }
}

// Encodes all fields, each in the part of the buffer behind the fields before it.
fn encode(values: FieldValues, buffer: &mut [u8])
    requires { 137 ≤ length buffer.old }
    ensures { buffer.new ≡ fields_from 0 values ++ drop 137 buffer.old }
{
    let mut start = 0;
    for (place, value) in values.iter().enumerate() {
        let size = length_of(place);
        encode_field(&mut buffer[start..], tag_of(place), size, *value);
        start += HEADER_LENGTH + size as usize;
    }
}

// Saves the values of all 28 fields. The contract gives the verdict and every byte of the buffer, so it
// rules out a refusal of 137 bytes, an image that is encoded elsewhere, a byte behind it that changes,
// and a short buffer that doesn't stay.
pub fn save(values: FieldValues, buffer: &mut [u8]) -> Result<(), Refusal>
    ensures { (number_in result ≡ refused_by (save_tests buffer.old))
        × (buffer.new ≡ saved_in (fields_from 0 values) buffer.old) }
{
    if buffer.len() < IMAGE_LENGTH {
        return Err(Refusal::ShortBuffer);
    }
    encode(values, buffer);
    Ok(())
}

// The sum of all values before the sumcheck. Wrapping 16-bit addition is the sum modulo 65,536: the
// contract says so, and rules out a value that is left out.
pub fn sumcheck(values: FieldValues) -> u16
    ensures { result ≡ sum_of (take 27 values) }
{
    values[..SUMCHECK]
        .iter()
        .fold(0, |sum: u16, value| sum.wrapping_add(*value))
}

// The values with their sumcheck behind them. The contract rules out a value that changes.
pub fn with_sumcheck(mut values: FieldValues) -> FieldValues
    ensures { result ≡ with_sumcheck (take 27 values) }
{
    values[SUMCHECK] = sumcheck(values);
    values
}
