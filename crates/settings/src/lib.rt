// The settings that an image holds, as the values of its fields, and back.
#![tactic(auto)]

ghost use Rattle.std.specs.Prelude.{◌≡◌};
ghost use Rattle.signals.specs.Refusals.{number_in, refused_by};
ghost use Rattle.fields.specs.Fields.{with_sumcheck, save_tests, saved_in};
ghost use Rattle.parameters.specs.Legal.{Legal};
ghost use Rattle.settings.specs.Settings.{request_number, fault_number, user_bits_number, value_at, values_of, image_of};

use fields::FieldValues;
use modes::Request;
use parameters::Values;
use signals::Refusal;
use words::UserBits;

pub mod decoding;

// The numbers of the requests and of the memory fault in their fields.
const MANUAL: u16 = 0;

const AUTO: u16 = 1;

const REMOTE: u16 = 2;

const FAULT_CLEAR: u16 = 0;

const FAULT_SET: u16 = 1;

// The bits of field 44h, and its value with all of them set.
const USER1: u16 = 0;

const USER2: u16 = 1;

const MEASURED_POWER: u16 = 2;

const USER_BITS_MOST: u16 = 7;

// The place of the last parameter's field.
const LAST_PARAMETER: usize = fields::OP - 1;

// Parameters 1 to 23, legal or not, OP, request, memory fault, and user bits with MD bit 4: in the order of their
// fields.
#[derive(Clone, Copy)]
pub struct Settings {
    pub parameters: Values,
    pub op: u16,
    pub request: Request,
    pub fault: bool,
    pub userbits: UserBits,
}

// A `match` and not `as`, here and of the fault: the image has these numbers, whatever the order of the cases.
fn request_number(request: Request) -> u16
    ensures { result ≡ request_number request }
{
    match request {
        Request::Manual => MANUAL,
        Request::Auto => AUTO,
        Request::Remote => REMOTE,
    }
}

fn fault_number(fault: bool) -> u16
    ensures { result ≡ fault_number fault }
{
    if fault { FAULT_SET } else { FAULT_CLEAR }
}

#[tactic(auto, unfolding(crate::specs::Settings::user_bits_number))]
fn user_bits_number(userbits: UserBits) -> u16
    ensures { result ≡ user_bits_number userbits }
{
    words::weight(userbits.user1, 1 << USER1)
        + words::weight(userbits.user2, 1 << USER2)
        + words::weight(userbits.measuredpower, 1 << MEASURED_POWER)
}

impl Settings {
    // The value of the field with this place, the sumcheck's not among them.
    #[tactic(auto, using(crate::specs::SettingsLaws::words), unfolding(crate::specs::Settings::value_at))]
    fn value_at(self, place: usize) -> u16
        requires { Legal self.parameters }
        ensures { result ≡ value_at self place }
    {
        match place {
            0..=LAST_PARAMETER => {
                let value = self.parameters.get((place + 1) as u64);
                (value as i16).cast_unsigned()
            }
            fields::OP => self.op,
            fields::REQUEST => request_number(self.request),
            fields::FAULT => fault_number(self.fault),
            _ => user_bits_number(self.userbits),
        }
    }

    // The values of all fields. What `value_at` gives at the sumcheck's place gives way to the sumcheck.
    fn values(self) -> FieldValues
        requires { Legal self.parameters }
        ensures { result ≡ with_sumcheck (values_of self) }
    {
        fields::with_sumcheck(std::array::from_fn(|place| self.value_at(place)))
    }

    // Encodes the image in the caller's buffer. The contract gives the verdict and every byte of the buffer.
    pub fn save(self, buffer: &mut [u8]) -> Result<(), Refusal>
        requires { Legal self.parameters }
        ensures { (number_in result ≡ refused_by (save_tests buffer.old))
            × (buffer.new ≡ saved_in (image_of self) buffer.old) }
    {
        fields::save(self.values(), buffer)
    }
}
