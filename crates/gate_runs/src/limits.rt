//! The numbers that limit a run.

/// The numbers that limit a run.
#[derive(Clone, Copy, Debug, PartialEq, Eq)]
pub struct Limits {
    /// The service ends once so many pairs were accepted and have closed, at least 1. `None` stands
    /// for 4,294,967,295.
    pub pairs: Option<u32>,
    /// The service ends after so many turns, 1 to 2^47.
    pub turns: u64,
}
