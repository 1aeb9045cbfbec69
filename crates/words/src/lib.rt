// The status words MD and DS.
#![tactic(auto)]

ghost use Rattle.std.specs.Prelude.{◌≡◌, ◌≤◌};
ghost use Rattle.words.specs.Words.{weight, nibble_of, byte_of, mode_bit, ds_bit5, ds_bit4, md_high, md_low, MD, ds_low, DS};

use modes::{Conditions, Mode};

mod bits;
pub mod written;

// User bits 1 and 2, and MD bit 4: whether channel 3 is measured power.
#[derive(Clone, Copy)]
pub struct UserBits {
    pub user1: bool,
    pub user2: bool,
    pub measuredpower: bool,
}

// What the last scan leaves to be indicated beside PV, SP, ER and MP: the button byte, the battery and the alarms.
#[derive(Clone, Copy)]
pub struct Indications {
    pub buttons: u8,
    pub batterylow: bool,
    pub lowalarm: bool,
    pub highalarm: bool,
}

// What a bit of this weight adds. The contract rules out a weight of a bit that isn't set.
pub fn weight(b: bool, w: u16) -> u16
    ensures { (result ≡ weight b w) × (result ≤ w) }
{
    if b { w } else { 0 }
}

// Four bits, the highest first.
#[tactic(auto, unfolding(crate::specs::Words::nibble_of))]
fn nibble(b3: bool, b2: bool, b1: bool, b0: bool) -> u16
    ensures { (result ≡ nibble_of b3 b2 b1 b0) × (result ≤ 15) }
{
    weight(b3, 8) + weight(b2, 4) + weight(b1, 2) + weight(b0, 1)
}

// A byte by its bits 7 to 0. The contract rules out bits that are exchanged.
#[tactic(auto, using(crate::specs::WordLaws::byte_nibbles))]
fn byte(b7: bool, b6: bool, b5: bool, b4: bool, b3: bool, b2: bool, b1: bool, b0: bool) -> u16
    ensures { (result ≡ byte_of b7 b6 b5 b4 b3 b2 b1 b0) × (result ≤ 255) }
{
    16 * nibble(b7, b6, b5, b4) + nibble(b3, b2, b1, b0)
}

// The bit of MD that is set in this mode.
fn mode_bit(mode: Mode) -> u16
    ensures { result ≡ mode_bit mode }
{
    match mode {
        Mode::Hold => bits::HOLD,
        Mode::Track => bits::TRACK,
        Mode::Forced | Mode::Manual => bits::MANUAL,
        Mode::Auto | Mode::Fallback => bits::AUTO,
        Mode::Remote | Mode::Ratio => bits::REMOTE,
    }
}

// The contract rules out a mode that is not in the list of those with a 0, and one of them left out.
fn ds_bit_5(mode: Mode) -> bool
    ensures { result ≡ ds_bit5 mode }
{
    !matches!(mode, Mode::Hold | Mode::Manual | Mode::Forced)
}

// The same of bit 4.
fn ds_bit_4(mode: Mode) -> bool
    ensures { result ≡ ds_bit4 mode }
{
    !matches!(mode, Mode::Remote | Mode::Ratio)
}

// MD bits 15 to 8.
#[tactic(auto, unfolding(crate::specs::Words::md_high))]
fn md_high(mode: Mode, c: Conditions) -> u16
    ensures { (result ≡ md_high mode c) × (result ≤ 255) }
{
    let n = mode_bit(mode);
    byte(
        n == bits::HOLD,
        n == bits::TRACK,
        n == bits::MANUAL,
        n == bits::AUTO,
        n == bits::REMOTE,
        signals::pins_of(c.pins).remote,
        modes::is_open_cause(c.opencount),
        c.fault,
    )
}

// MD bits 7 to 0.
#[tactic(auto, unfolding(crate::specs::Words::md_low))]
fn md_low(userbits: UserBits, indications: Indications) -> u16
    ensures { (result ≡ md_low userbits indications) × (result ≤ 255) }
{
    let b = signals::buttons_of(indications.buttons);
    byte(
        b.lower,
        b.raise,
        false,
        userbits.measuredpower,
        b.sp,
        b.r,
        b.a,
        b.m,
    )
}

// MD. The contract rules out a mode's bit that is wrong or missing, one fault indicated for the other, and a button
// that is not indicated.
#[tactic(auto, unfolding(crate::specs::Words::MD))]
pub fn md(mode: Mode, c: Conditions, userbits: UserBits, indications: Indications) -> u16
    ensures { result ≡ MD mode c userbits indications }
{
    256 * md_high(mode, c) + md_low(userbits, indications)
}

// DS bits 7 to 0.
#[tactic(auto, unfolding(crate::specs::Words::ds_low))]
fn ds_low(mode: Mode, c: Conditions, userbits: UserBits, indications: Indications) -> u16
    ensures { (result ≡ ds_low mode c userbits indications) × (result ≤ 255) }
{
    let cause = modes::is_cause(c.fault, c.opencount);
    byte(
        userbits.user2,
        userbits.user1,
        ds_bit_5(mode),
        ds_bit_4(mode),
        !indications.batterylow,
        !cause,
        !indications.lowalarm,
        !indications.highalarm,
    )
}

// DS. The contract rules out an alarm that is indicated for one cause only, a bit that is 1 where it should be 0, and
// the pin byte of another scan.
#[tactic(auto, unfolding(crate::specs::Words::DS))]
pub fn ds(mode: Mode, c: Conditions, userbits: UserBits, indications: Indications) -> u16
    ensures { result ≡ DS mode c userbits indications }
{
    256 * u16::from(c.pins) + ds_low(mode, c, userbits, indications)
}
