//! How a run ends.

/// What of the outside failed.
#[derive(Clone, Copy, Debug, PartialEq, Eq)]
pub enum Outside {
    Accept,
    /// The report was not taken.
    Out,
    /// The record of a call was not taken.
    Capture,
}

/// How a run ended.
#[derive(Clone, Copy, Debug, PartialEq, Eq)]
pub enum Served {
    /// `idle` answered `Stop`.
    Stopped,
    /// The pairs asked for were accepted and have closed.
    PairsDone,
    /// The turns asked for were made.
    TurnLimit,
    /// The outside failed.
    Fault(Outside),
    /// There was no memory for the loop itself.
    Memory,
}
