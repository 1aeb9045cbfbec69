// Amounts of output: the step of Raise and Lower, and one unit, stored.

// What Raise or Lower moves the output by, in units.
pub const RAISE_STEP: i64 = 12;

pub const LOWER_STEP: i64 = -RAISE_STEP;

// One unit, stored.
pub const UNIT: i64 = terms::UNIT as i64;
