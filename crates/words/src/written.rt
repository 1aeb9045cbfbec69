// Writing MD and DS: what is taken of the word, and which words MD refuses.
ghost use Rattle.std.specs.Prelude.{◌≡◌};
ghost use Rattle.signals.specs.Refusals.{number_in, refused_by};
ghost use Rattle.words.specs.Written.{request_of, clears_fault, fault_written, request_written, conditions_written};
ghost use Rattle.words.specs.Written.{power_written, user_bits_written, exactly_one, cause_remains, md_tests};

use crate::{UserBits, bits};
use modes::{Conditions, Request};
use signals::Refusal;

// The request that a word with exactly one of its three bits set asks for.
fn request_of(word: u16) -> Request
    ensures { result ≡ request_of word }
{
    if signals::bit(word, bits::MANUAL) {
        Request::Manual
    } else if signals::bit(word, bits::AUTO) {
        Request::Auto
    } else {
        Request::Remote
    }
}

// The contract rules out a fault that a one in bit 8 clears.
fn clears_fault(fault: bool, word: u16) -> bool
    ensures { result ≡ clears_fault fault word }
{
    fault & !signals::bit(word, bits::FAULT)
}

// The memory fault that a write of MD leaves.
fn fault_written(fault: bool, word: u16) -> bool
    ensures { result ≡ fault_written fault word }
{
    fault & !clears_fault(fault, word)
}

// The request that it leaves. The contract rules out another than Manual where the write clears a fault.
fn request_written(fault: bool, word: u16) -> Request
    ensures { result ≡ request_written fault word }
{
    if clears_fault(fault, word) {
        Request::Manual
    } else {
        request_of(word)
    }
}

// What an accepted write of MD leaves of the conditions. The contract rules out a request taken from another bit, a
// fault that a write clears or leaves wrongly, and a write that moves the pins or the open count.
#[tactic(auto, unfolding(crate::specs::Written::conditions_written))]
pub fn conditions_written(c: Conditions, word: u16) -> Conditions
    ensures { result ≡ conditions_written c word }
{
    Conditions {
        request: request_written(c.fault, word),
        fault: fault_written(c.fault, word),
        ..c
    }
}

// MD bit 4. The contract rules out another bit, and a write of MD that moves the user bits.
#[tactic(auto, unfolding(crate::specs::Written::power_written))]
pub fn power_written(userbits: UserBits, word: u16) -> UserBits
    ensures { result ≡ power_written userbits word }
{
    UserBits {
        measuredpower: signals::bit(word, bits::MEASURED_POWER),
        ..userbits
    }
}

// DS bits 7 and 6. The contract rules out user bits that are exchanged.
#[tactic(auto, unfolding(crate::specs::Written::user_bits_written))]
pub fn user_bits_written(userbits: UserBits, word: u16) -> UserBits
    ensures { result ≡ user_bits_written userbits word }
{
    let user1 = signals::bit(word, bits::USER1);
    let user2 = signals::bit(word, bits::USER2);
    UserBits {
        user1,
        user2,
        ..userbits
    }
}

// The contract rules out none, two and three.
fn exactly_one(a: bool, b: bool, c: bool) -> bool
    ensures { result ≡ exactly_one a b c }
{
    (a & !b & !c) | (!a & b & !c) | (!a & !b & c)
}

// Whether a cause would stand after a write of this word. The contract rules out the fault as it was before.
fn cause_remains(c: Conditions, word: u16) -> bool
    ensures { result ≡ cause_remains c word }
{
    modes::is_cause(fault_written(c.fault, word), c.opencount)
}

// Whether MD takes this word. The contract rules out a refusal for another cause, one that is forgotten, and a higher
// number where a lower one applies.
pub fn md_verdict(c: Conditions, word: u16) -> Result<(), Refusal>
    ensures { number_in result ≡ refused_by (md_tests c word) }
{
    let auto = signals::bit(word, bits::AUTO);
    let remote = signals::bit(word, bits::REMOTE);
    let one = exactly_one(signals::bit(word, bits::MANUAL), auto, remote);
    let pins = signals::pins_of(c.pins);
    let remains = cause_remains(c, word);
    if !one {
        return Err(Refusal::RequestBits);
    }
    if remote & !pins.remote {
        return Err(Refusal::RemotePin);
    }
    if (auto | remote) & remains {
        return Err(Refusal::Cause);
    }
    Ok(())
}
