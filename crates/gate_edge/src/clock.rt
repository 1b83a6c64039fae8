//! What the system's clock says.

use std::rt::Clock;
use std::time::Instant;

/// For how long after the system said something it is lively, in microseconds.
const LIVELY: u128 = 100;

/// The milliseconds since a start, where the clock tells them.
pub(crate) fn elapsed(clock: &impl Clock, start: Option<Instant>) -> Option<u64> {
    let elapsed = start?.elapsed(clock).ok()?;
    Some(u64::try_from(elapsed.as_millis()).unwrap_or(u64::MAX))
}

/// Whether the system said something just now.
pub(crate) fn is_lively(clock: &impl Clock, said_at: Option<Instant>) -> bool {
    let elapsed = said_at.and_then(|at| at.elapsed(clock).ok());
    elapsed.is_some_and(|time| time.as_micros() < LIVELY)
}
