// The numbers of the bits in the switch word and in the bytes of a scan's input; bit 0 is the lowest.

// The switch word: S2.1 to S2.6, S2.8, S1.1.
pub const S2_1: u16 = 15;

pub const S2_2: u16 = 14;

pub const S2_3: u16 = 13;

pub const S2_4: u16 = 12;

pub const S2_5: u16 = 11;

pub const S2_6: u16 = 10;

pub const S2_8: u16 = 8;

pub const S1_1: u16 = 7;

// The pin byte.
pub const HOLD_PIN: u16 = 7;

pub const TRACK_PIN: u16 = 6;

pub const REMOTE_PIN: u16 = 5;

pub const COMPUTER_PIN: u16 = 4;

// The button byte, in the order of MD bits 7 to 0; the two that are no button are zero.
pub const LOWER: u16 = 7;

pub const RAISE: u16 = 6;

pub const RESERVED: u16 = 5;

pub const MEASURED_POWER: u16 = 4;

pub const SP: u16 = 3;

pub const R: u16 = 2;

pub const A: u16 = 1;

pub const M: u16 = 0;

// The sensor byte.
pub const CHANNEL_1_OPEN: u16 = 0;

pub const BATTERY_LOW: u16 = 1;
