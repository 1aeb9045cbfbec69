// What a scan is given, and what the bits of its bytes and of the switch word say; the refusals, and those of a scan.
#![tactic(auto)]

ghost use Rattle.std.specs.Prelude.{◌≡◌, ◌<◌};
ghost use Rattle.signals.specs.Bits.{bit};
ghost use Rattle.signals.specs.Refusals.{number_of, number_in, refused_by, scan_tests};
ghost use Rattle.signals.specs.Signals.{switches_of, pins_of, computer_pin, buttons_of, adjustment_of, is_open, battery_low};

mod bits;
pub mod clock;

// The upper end of a channel's range.
const GREATEST_SAMPLE: u16 = 10000;

// A sensor byte with both its bits set.
const GREATEST_SENSORS: u8 = 3;

// The pin byte, the samples of channels 1 to 3, the button byte, the sensor byte and the host's milliseconds of one
// scan.
#[derive(Clone, Copy)]
pub struct Input {
    pub pins: u8,
    pub sample1: u16,
    pub sample2: u16,
    pub sample3: u16,
    pub buttons: u8,
    pub sensors: u8,
    pub milliseconds: u64,
}

// The used switches, true for ON: S2.1, S2.2, S2.3, S2.4, S2.5, S2.6, S2.8, S1.1.
#[derive(Clone, Copy)]
pub struct Switches {
    pub ratio: bool,
    pub displayinversion: bool,
    pub inverseratio: bool,
    pub inverseoutput: bool,
    pub powerfail: bool,
    pub setpointtracks: bool,
    pub minutes: bool,
    pub balanceoff: bool,
}

// The pins that decide the mode, true for 15 V.
#[derive(Clone, Copy)]
pub struct Pins {
    pub hold: bool,
    pub track: bool,
    pub remote: bool,
}

// The buttons, true while pressed.
#[derive(Clone, Copy)]
pub struct Buttons {
    pub lower: bool,
    pub raise: bool,
    pub sp: bool,
    pub r: bool,
    pub a: bool,
    pub m: bool,
}

// What Raise and Lower ask for together.
#[derive(Clone, Copy)]
pub enum Adjustment {
    Raise,
    Lower,
    Neither,
}

// Why a call is refused: 1 to 3 the plant's, 4 to 11 the writer's, of which 4 is a reader's too, 12 to 14 a restart's,
// 15 a save's and a terminal's, 16 the plant's again, 17 and 18 a terminal's, 19 and 20 the writer's again.
#[derive(Clone, Copy)]
pub enum Refusal {
    // 1: a sample above 10000
    Sample,
    // 2: button bits 5 or 4 set
    ButtonBits,
    // 3: sensor bits above 1 set
    SensorBits,
    // 4: a parameter number outside 1..32
    Number,
    // 5: a parameter that is read only
    ReadOnly,
    // 6: a value out of range
    Range,
    // 7: a pair out of order
    Pair,
    // 8: SL in Remote, Ratio, or with S2.6 ON in a non-automatic mode
    Setpoint,
    // 9: not exactly one of MD bits 13, 12, 11
    RequestBits,
    // 10: MD bit 11 with the Remote pin 0
    RemotePin,
    // 11: MD bit 12 or 11 when a cause would remain
    Cause,
    // 12: an image's length isn't 137
    ImageLength,
    // 13: a wrong tag or length in an image
    ImageField,
    // 14: an illegal value in an image whose sumcheck is right
    ImageValue,
    // 15: fewer than 137 bytes to save into, or than nine for a terminal's reply
    ShortBuffer,
    // 16: a reading less than 30 ms after the last accepted one, or before it
    Clock,
    // 17: a line's first two bytes are no mnemonic
    Mnemonic,
    // 18: what follows them isn't nothing, or > with a value of the parameter's form
    ValueForm,
    // 19: the computer writes while its pin is 0
    ComputerPin,
    // 20: the writer hasn't that parameter
    WriterRight,
}

// Bit `number` of a word. The contract rules out a neighbouring bit.
pub fn bit(word: u16, number: u16) -> bool
    requires { number < 16 }
    ensures { result ≡ bit word number }
{
    (word >> number) % 2 == 1
}

// The contract rules out switches that are exchanged or taken from another bit.
pub fn switches_of(sw: u16) -> Switches
    ensures { result ≡ switches_of sw }
{
    Switches {
        ratio: bit(sw, bits::S2_1),
        displayinversion: bit(sw, bits::S2_2),
        inverseratio: bit(sw, bits::S2_3),
        inverseoutput: bit(sw, bits::S2_4),
        powerfail: bit(sw, bits::S2_5),
        setpointtracks: bit(sw, bits::S2_6),
        minutes: bit(sw, bits::S2_8),
        balanceoff: bit(sw, bits::S1_1),
    }
}

// The contract rules out pins that are exchanged or turned.
pub fn pins_of(byte: u8) -> Pins
    ensures { result ≡ pins_of byte }
{
    let word = byte as u16;
    Pins {
        hold: bit(word, bits::HOLD_PIN),
        track: bit(word, bits::TRACK_PIN),
        remote: bit(word, bits::REMOTE_PIN),
    }
}

// Whether the Computer pin is at 1. The contract rules out the bit of another pin.
pub fn computer_pin(byte: u8) -> bool
    ensures { result ≡ computer_pin byte }
{
    bit(byte as u16, bits::COMPUTER_PIN)
}

// The contract rules out buttons that are exchanged.
pub fn buttons_of(byte: u8) -> Buttons
    ensures { result ≡ buttons_of byte }
{
    let word = byte as u16;
    Buttons {
        lower: bit(word, bits::LOWER),
        raise: bit(word, bits::RAISE),
        sp: bit(word, bits::SP),
        r: bit(word, bits::R),
        a: bit(word, bits::A),
        m: bit(word, bits::M),
    }
}

// The contract rules out a push while both are pressed.
#[tactic(auto, unfolding(crate::specs::Signals::adjustment_of))]
pub fn adjustment_of(b: Buttons) -> Adjustment
    ensures { result ≡ adjustment_of b }
{
    match (b.raise, b.lower) {
        (true, false) => Adjustment::Raise,
        (false, true) => Adjustment::Lower,
        _ => Adjustment::Neither,
    }
}

// Whether channel 1 is open. The contract rules out the battery's bit.
pub fn is_open(input: Input) -> bool
    ensures { result ≡ is_open input }
{
    bit(input.sensors as u16, bits::CHANNEL_1_OPEN)
}

// The contract rules out channel 1's bit.
pub fn battery_low(input: Input) -> bool
    ensures { result ≡ battery_low input }
{
    bit(input.sensors as u16, bits::BATTERY_LOW)
}

impl From<Refusal> for u8 {
    ghost from_gives = { λ refusal n. n ≡ number_of refusal };

    // The paper's number. The contract rules out another.
    fn from(refusal: Refusal) -> u8 {
        match refusal {
            Refusal::Sample => 1,
            Refusal::ButtonBits => 2,
            Refusal::SensorBits => 3,
            Refusal::Number => 4,
            Refusal::ReadOnly => 5,
            Refusal::Range => 6,
            Refusal::Pair => 7,
            Refusal::Setpoint => 8,
            Refusal::RequestBits => 9,
            Refusal::RemotePin => 10,
            Refusal::Cause => 11,
            Refusal::ImageLength => 12,
            Refusal::ImageField => 13,
            Refusal::ImageValue => 14,
            Refusal::ShortBuffer => 15,
            Refusal::Clock => 16,
            Refusal::Mnemonic => 17,
            Refusal::ValueForm => 18,
            Refusal::ComputerPin => 19,
            Refusal::WriterRight => 20,
        }
    }
}

// Whether a scan's input is acceptable after the last accepted reading, or the first refusal that applies: 16 comes
// after 3. The contract rules out a refusal for a cause that is not listed, one that is forgotten, and a later one
// where an earlier one applies.
#[tactic(auto, unfolding(crate::specs::Refusals::refused_by, crate::specs::Refusals::scan_tests))]
pub fn scan_verdict(last: Option<u64>, input: Input) -> Result<(), Refusal>
    ensures { number_in result ≡ refused_by (scan_tests last input) }
{
    let sample = (GREATEST_SAMPLE < input.sample1)
        | (GREATEST_SAMPLE < input.sample2)
        | (GREATEST_SAMPLE < input.sample3);
    let buttons = bit(input.buttons as u16, bits::RESERVED)
        | bit(input.buttons as u16, bits::MEASURED_POWER);
    let sensors = GREATEST_SENSORS < input.sensors;
    let early = clock::is_too_early(last, input.milliseconds);
    if sample {
        return Err(Refusal::Sample);
    }
    if buttons {
        return Err(Refusal::ButtonBits);
    }
    if sensors {
        return Err(Refusal::SensorBits);
    }
    if early {
        return Err(Refusal::Clock);
    }
    Ok(())
}
