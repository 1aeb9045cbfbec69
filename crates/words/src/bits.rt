// The numbers of the bits of MD and DS that are read or written one by one; bit 0 is the lowest.

// MD: the mode, or, when it is written, the request; the memory fault; measured power.
pub const HOLD: u16 = 15;

pub const TRACK: u16 = 14;

pub const MANUAL: u16 = 13;

pub const AUTO: u16 = 12;

pub const REMOTE: u16 = 11;

pub const FAULT: u16 = 8;

pub const MEASURED_POWER: u16 = 4;

// DS: user bits 2 and 1.
pub const USER2: u16 = 7;

pub const USER1: u16 = 6;
