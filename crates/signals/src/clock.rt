// Document 02, request 2: the clock that comes with the scan. Its readings are the host's milliseconds: the one of the
// last accepted scan, or none since a fresh start or a restart.
ghost use Rattle.std.specs.Prelude.{◌≡◌};
ghost use Rattle.signals.specs.Clock.{is_too_early, is_after_gap};

// A scan is refused less than so many milliseconds after the last accepted one.
const ORDINARY_LEAST: u64 = 30;

// More than so many milliseconds after it, a scan comes after a gap.
const ORDINARY_MOST: u64 = 42;

// Whether a reading is refused. One before the last is told first, so that no difference lies below zero; a sum could
// pass 64 bits and is not formed. The contract rules out that a reading 29 ms after the last is taken, that one 30 ms
// after it is refused, and that any is refused where there is none before.
pub fn is_too_early(last: Option<u64>, now: u64) -> bool
    ensures { result ≡ is_too_early last now }
{
    match last {
        Some(earlier) => now < earlier || now - earlier < ORDINARY_LEAST,
        None => false,
    }
}

// Whether a reading comes after a gap. The contract rules out that 42 ms are a gap, that 43 ms are none, and a gap
// where there is no reading before.
pub fn is_after_gap(last: Option<u64>, now: u64) -> bool
    ensures { result ≡ is_after_gap last now }
{
    match last {
        Some(earlier) => earlier <= now && ORDINARY_MOST < now - earlier,
        None => false,
    }
}
