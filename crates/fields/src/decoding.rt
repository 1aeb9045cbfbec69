// An image decoded: whether each field has its tag and length, and the values.
ghost use Rattle.std.specs.Prelude.{◌≡◌, ◌+◌, ◌≤◌, length};
ghost use Rattle.fields.specs.Decoding.{has_header, value_in, well_formed_from, values_from};

// Whether the part begins with a field of this tag and length.
#[tactic(auto, unfolding(crate::specs::Decoding::has_header))]
fn has_header(part: &[u8], tag: u8, size: u8) -> bool
    requires { 3 ≤ length part.now }
    ensures { result ≡ has_header tag size part.now }
{
    part[0] == tag && part[1] == 0 && part[2] == size
}

// The value of the field that the part begins with.
#[tactic(auto, unfolding(crate::specs::Decoding::value_in))]
fn value_in(part: &[u8], size: u8) -> u16
    requires { (3 + size ≤ length part.now) × (1 ≤ size) × (size ≤ 2) }
    ensures { result ≡ value_in size part.now }
{
    if size == crate::WORD_LENGTH {
        u16::from_be_bytes([part[3], part[4]])
    } else {
        u16::from(part[3])
    }
}

// Whether every tag and length is right. The contract rules out a field that isn't looked at.
pub fn is_well_formed(image: &[u8]) -> bool
    requires { length image.now ≡ 137 }
    ensures { result ≡ well_formed_from 0 28 image.now }
{
    let mut start = 0;
    for place in 0..crate::FIELD_COUNT {
        let size = crate::length_of(place);
        if !has_header(&image[start..], crate::tag_of(place), size) {
            return false;
        }
        start += crate::HEADER_LENGTH + size as usize;
    }
    true
}

// The values of all fields. The contract rules out a value with its bytes exchanged, and one that is
// taken from a neighbour.
pub fn values_of(image: &[u8]) -> crate::FieldValues
    requires { length image.now ≡ 137 }
    ensures { result ≡ values_from 0 28 image.now }
{
    let mut values = [0; crate::FIELD_COUNT];
    let mut start = 0;
    for (place, value) in values.iter_mut().enumerate() {
        let size = crate::length_of(place);
        *value = value_in(&image[start..], size);
        start += crate::HEADER_LENGTH + size as usize;
    }
    values
}
