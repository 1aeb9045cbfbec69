// The table of parameters: ranges and defaults as constants of the controller, and the row that a number chooses.
ghost use Rattle.std.specs.Prelude.{◌≡◌};
ghost use Rattle.parameters.specs.Table.{rule_of};

use crate::Controller;
use parameters::{H1, H2, H3, HA, HO, HR, HS, L1, L2, L3, LA, LO, LR, LS, Rule};
use signals::Refusal;

impl Controller {
    // The ends of the table's ranges.
    pub const READING_LEAST: i64 = -9999;

    pub const READING_MOST: i64 = 9999;

    pub const RATIO_LEAST: i64 = 1;

    pub const RATIO_MOST: i64 = 9999;

    pub const DEVIATION_LEAST: i64 = 0;

    pub const DEVIATION_MOST: i64 = 9999;

    pub const OUTPUT_LEAST: i64 = 0;

    pub const OUTPUT_MOST: i64 = parameters::OUTPUT_MOST;

    pub const BAND_LEAST: i64 = 1;

    pub const BAND_MOST: i64 = 9999;

    pub const TIME_LEAST: i64 = 0;

    pub const TIME_MOST: i64 = 9999;

    pub const WORD_LEAST: i64 = 0;

    pub const WORD_MOST: i64 = 65535;

    // IC: linear, or root.
    pub const LINEAR: i64 = 0;

    pub const ROOT: i64 = parameters::ROOT;

    // By number; entry 0 is not used.
    pub const DEFAULTS: [i64; parameters::VALUE_COUNT] = [
        0, // not used
        1000, // 1H
        0, // 1L
        1000, // 2H
        0, // 2L
        1, // 3H
        0, // 3L
        9999, // HR
        1, // LR
        1000, // HS
        0, // LS
        9999, // HA
        -9999, // LA
        9999, // HD
        9999, // LD
        9999, // HO
        0, // LO
        1000, // XP
        0, // TI
        0, // TD
        0, // SL
        100, // RS
        0, // RB
        0, // IC
    ];

    // "a parameter number from 1 to 32 chooses the range and the rule": limits, pair rule with the numbers of
    // the pair, or the refusal. The contract rules out a range, an order or a refusal other than the
    // table's, and a number that is taken for one of another row.
    pub fn rule(number: u64) -> Rule
        ensures { result ≡ rule_of number }
    {
        match number {
            1..=2 => Rule::Pair(Self::READING_LEAST, Self::READING_MOST, H1, L1, true),
            3..=4 => Rule::Pair(Self::READING_LEAST, Self::READING_MOST, H2, L2, true),
            5..=6 => Rule::Pair(Self::READING_LEAST, Self::READING_MOST, H3, L3, true),
            7..=8 => Rule::Pair(Self::RATIO_LEAST, Self::RATIO_MOST, HR, LR, false),
            9..=10 => Rule::Pair(Self::READING_LEAST, Self::READING_MOST, HS, LS, false),
            11..=12 => Rule::Pair(Self::READING_LEAST, Self::READING_MOST, HA, LA, false),
            13..=14 => Rule::Free(Self::DEVIATION_LEAST, Self::DEVIATION_MOST),
            15..=16 => Rule::Pair(Self::OUTPUT_LEAST, Self::OUTPUT_MOST, HO, LO, false),
            17 => Rule::Free(Self::BAND_LEAST, Self::BAND_MOST),
            18..=19 => Rule::Free(Self::TIME_LEAST, Self::TIME_MOST),
            20 => Rule::Between(LS, HS),
            21 => Rule::Between(LR, HR),
            22 => Rule::Free(Self::READING_LEAST, Self::READING_MOST),
            23 => Rule::Free(Self::LINEAR, Self::ROOT),
            24..=25 => Rule::Word(Self::WORD_LEAST, Self::WORD_MOST),
            26..=32 => Rule::ReadOnly(Refusal::ReadOnly),
            _ => Rule::Unknown(Refusal::Number),
        }
    }
}
