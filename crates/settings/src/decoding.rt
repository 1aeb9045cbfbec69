// The settings that the values of an image hold, and whether these are legal but for the parameters.
ghost use Rattle.std.specs.Prelude.{◌≡◌, ◌≤◌};
ghost use Rattle.settings.specs.Settings.{request_in, user_bits_in, parameter_in, parameters_in};
ghost use Rattle.settings.specs.Settings.{settings_in, is_sum_right, are_others_legal, legal_user_bits};

use crate::Settings;
use fields::FieldValues;
use modes::Request;
use parameters::Values;
use words::UserBits;

fn request_in(value: u16) -> Request
    ensures { result ≡ request_in value }
{
    match value {
        crate::MANUAL => Request::Manual,
        crate::AUTO => Request::Auto,
        _ => Request::Remote,
    }
}

#[tactic(auto, unfolding(crate::specs::Settings::user_bits_in))]
fn user_bits_in(value: u16) -> UserBits
    ensures { result ≡ user_bits_in value }
{
    UserBits {
        user1: signals::bit(value, crate::USER1),
        user2: signals::bit(value, crate::USER2),
        measuredpower: signals::bit(value, crate::MEASURED_POWER),
    }
}

// User bits and MD bit 4 under a wrong sumcheck: an illegal 44h is 0. The contract rules out that some
// of its bits are kept.
#[tactic(auto, unfolding(crate::specs::Settings::legal_user_bits))]
pub fn legal_user_bits(values: FieldValues) -> UserBits
    ensures { result ≡ legal_user_bits values }
{
    let value = values[fields::USER_BITS];
    let legal = value <= crate::USER_BITS_MOST;
    user_bits_in(if legal { value } else { 0 })
}

// The value of the parameter with this number; 0 for the entry that is not used.
#[tactic(auto, using(crate::specs::SettingsLaws::words), unfolding(crate::specs::Settings::parameter_in))]
fn parameter_in(values: FieldValues, number: usize) -> i64
    requires { number ≤ 23 }
    ensures { result ≡ parameter_in values number }
{
    if number == 0 {
        0
    } else {
        i64::from(values[number - 1].cast_signed())
    }
}

// The contract rules out a parameter that is taken from another one's field.
pub fn parameters_in(values: FieldValues) -> Values
    ensures { result ≡ parameters_in values }
{
    Values::of(std::array::from_fn(|number| parameter_in(values, number)))
}

// The contract rules out a setting that is taken from another one's field.
#[tactic(auto, unfolding(crate::specs::Settings::settings_in))]
pub fn settings_in(values: FieldValues) -> Settings
    ensures { result ≡ settings_in values }
{
    Settings {
        parameters: parameters_in(values),
        op: values[fields::OP],
        request: request_in(values[fields::REQUEST]),
        fault: values[fields::FAULT] == crate::FAULT_SET,
        userbits: user_bits_in(values[fields::USER_BITS]),
    }
}

// The contract rules out a sum over fewer values than all earlier ones.
#[tactic(auto, unfolding(crate::specs::Settings::is_sum_right))]
pub fn is_sum_right(values: FieldValues) -> bool
    ensures { result ≡ is_sum_right values }
{
    values[fields::SUMCHECK] == fields::sumcheck(values)
}

// Whether OP, request, fault and 44h are legal. The contract rules out a fault with another request
// than Manual, and ends that are off by one.
#[tactic(auto, unfolding(crate::specs::Settings::are_others_legal))]
pub fn are_others_legal(values: FieldValues) -> bool
    ensures { result ≡ are_others_legal values }
{
    let op = values[fields::OP] <= parameters::OP_MOST;
    let request = values[fields::REQUEST] <= crate::REMOTE;
    let manual = values[fields::REQUEST] == crate::MANUAL;
    let clear = values[fields::FAULT] == crate::FAULT_CLEAR;
    let fault = (values[fields::FAULT] <= crate::FAULT_SET) & (clear | manual);
    let userbits = values[fields::USER_BITS] <= crate::USER_BITS_MOST;
    op & request & fault & userbits
}
