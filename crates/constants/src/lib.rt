// The public constants of the library, each by its name, with its value stated: a program that names one gets the
// number of the papers. No other contract says this, since a constant is a number wherever it is used. Nothing of the
// product depends on this crate.
#![tactic(auto)]

ghost use Rattle.std.specs.Prelude.{[], ◌∷◌, ◌≡◌, pos, neg_ℤ};

use controller::Controller;

// Document 01's table: "1 1H" to "32 MP", the names in its order. The contract rules out one with another number.
pub fn parameter_numbers() -> [u64; 32]
    ensures { result ≡ 1 ∷ 2 ∷ 3 ∷ 4 ∷ 5 ∷ 6 ∷ 7 ∷ 8 ∷ 9 ∷ 10 ∷ 11 ∷ 12 ∷ 13 ∷ 14 ∷ 15 ∷ 16 ∷ 17 ∷ 18 ∷ 19 ∷ 20 ∷ 21 ∷ 22
        ∷ 23 ∷ 24 ∷ 25 ∷ 26 ∷ 27 ∷ 28 ∷ 29 ∷ 30 ∷ 31 ∷ 32 ∷ [] }
{
    [
        parameters::H1,
        parameters::L1,
        parameters::H2,
        parameters::L2,
        parameters::H3,
        parameters::L3,
        parameters::HR,
        parameters::LR,
        parameters::HS,
        parameters::LS,
        parameters::HA,
        parameters::LA,
        parameters::HD,
        parameters::LD,
        parameters::HO,
        parameters::LO,
        parameters::XP,
        parameters::TI,
        parameters::TD,
        parameters::SL,
        parameters::RS,
        parameters::RB,
        parameters::IC,
        parameters::MD,
        parameters::DS,
        parameters::SW,
        parameters::II,
        parameters::OP,
        parameters::SP,
        parameters::PV,
        parameters::ER,
        parameters::MP,
    ]
}

// The places of an image's fields behind the parameters', how many fields there are, and how many bytes; the bytes of a
// terminal's reply buffer; how many entries hold parameters, by number.
pub fn counts() -> [usize; 9]
    ensures { result ≡ 23 ∷ 24 ∷ 25 ∷ 26 ∷ 27 ∷ 28 ∷ 137 ∷ 9 ∷ 24 ∷ [] }
{
    [
        fields::OP,
        fields::REQUEST,
        fields::FAULT,
        fields::USER_BITS,
        fields::SUMCHECK,
        fields::FIELD_COUNT,
        fields::IMAGE_LENGTH,
        terminal::REPLY_LENGTH,
        parameters::VALUE_COUNT,
    ]
}

// The column "Defaults", by number; entry 0 is not used.
pub fn defaults() -> [i64; 24]
    ensures { result ≡ pos 0 ∷ pos 1000 ∷ pos 0 ∷ pos 1000 ∷ pos 0 ∷ pos 1 ∷ pos 0 ∷ pos 9999 ∷ pos 1 ∷ pos 1000 ∷ pos 0
        ∷ pos 9999 ∷ neg_ℤ (pos 9999) ∷ pos 9999 ∷ pos 9999 ∷ pos 9999 ∷ pos 0 ∷ pos 1000 ∷ pos 0 ∷ pos 0 ∷ pos 0 ∷ pos 100 ∷ pos 0
        ∷ pos 0 ∷ [] }
{
    Controller::DEFAULTS
}

// A unit of the output, as it is stored; the greatest OP; II.
pub fn amounts() -> [u64; 3]
    ensures { result ≡ 65536 ∷ 9999 ∷ 0x3608 ∷ [] }
{
    [
        terms::UNIT,
        parameters::OP_MOST as u64,
        Controller::IDENTITY as u64,
    ]
}

// The ends of the table's ranges: of a reading, a ratio, a deviation, the output, the band, a time, a word and IC; the
// greatest output, and IC for a root, as `parameters` names them.
pub fn ranges() -> [i64; 18]
    ensures { result ≡ neg_ℤ (pos 9999) ∷ pos 9999 ∷ pos 1 ∷ pos 9999 ∷ pos 0 ∷ pos 9999 ∷ pos 0 ∷ pos 9999
        ∷ pos 1 ∷ pos 9999 ∷ pos 0 ∷ pos 9999 ∷ pos 0 ∷ pos 65535 ∷ pos 0 ∷ pos 1 ∷ pos 9999 ∷ pos 1 ∷ [] }
{
    [
        Controller::READING_LEAST,
        Controller::READING_MOST,
        Controller::RATIO_LEAST,
        Controller::RATIO_MOST,
        Controller::DEVIATION_LEAST,
        Controller::DEVIATION_MOST,
        Controller::OUTPUT_LEAST,
        Controller::OUTPUT_MOST,
        Controller::BAND_LEAST,
        Controller::BAND_MOST,
        Controller::TIME_LEAST,
        Controller::TIME_MOST,
        Controller::WORD_LEAST,
        Controller::WORD_MOST,
        Controller::LINEAR,
        Controller::ROOT,
        parameters::OUTPUT_MOST,
        parameters::ROOT,
    ]
}
