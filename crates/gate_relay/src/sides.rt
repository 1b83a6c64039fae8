//! How far each end of a pair is.

ghost use Rattle.std.specs.Prelude.{◌≡◌, Bool, true, false};
ghost use Rattle.gate_relay.specs.Sides.{side_of, with_side, side_lost, side_linked, is_readable};
ghost use Rattle.gate_relay.specs.Sides.{is_writable, is_open_side, is_absent, has_end};

use crate::loss::Loss;
use gate_outside::{End, Linked};

/// How far an end is.
#[derive(Clone, Copy, Debug, PartialEq, Eq)]
pub enum Side {
    /// It was not asked for yet.
    Absent,
    Open,
    /// A read answered that it ended.
    Ended,
    /// A read or a write failed.
    Failed,
    /// It was shut, or its connection failed.
    Gone,
}

impl Side {
    /// It may be read.
    pub fn is_readable(self) -> bool
        ensures { result ≡ is_readable self }
    {
        matches!(self, Side::Open)
    }

    /// It may be written to.
    pub fn is_writable(self) -> bool
        ensures { result ≡ is_writable self }
    {
        matches!(self, Side::Open | Side::Ended)
    }

    /// It is open for the ports.
    pub fn is_open(self) -> bool
        ensures { result ≡ is_open_side self }
    {
        matches!(self, Side::Open | Side::Ended | Side::Failed)
    }

    /// It was not asked for.
    pub fn is_absent(self) -> bool
        ensures { result ≡ is_absent self }
    {
        matches!(self, Side::Absent)
    }
}

/// Both ends of a pair.
#[derive(Clone, Copy, Debug, PartialEq, Eq)]
pub struct Sides {
    pub client: Side,
    pub up: Side,
}

impl Sides {
    /// Those of a pair that was accepted.
    pub fn new() -> Sides
        ensures { result ≡ record { client = Side.Open; up = Side.Absent } }
    {
        Sides {
            client: Side::Open,
            up: Side::Absent,
        }
    }

    pub fn of(self, end: End) -> Side
        ensures { result ≡ side_of end self }
    {
        match end {
            End::Client => self.client,
            End::Up => self.up,
        }
    }

    /// An end is open.
    pub fn has_end(self) -> bool
        ensures { result ≡ has_end self }
    {
        self.client.is_open() || self.up.is_open()
    }

    /// An end was lost.
    pub fn lose(&mut self, end: End, how: Loss)
        ensures { self.new ≡ with_side end (side_lost how) self.old }
    {
        let side = match how {
            Loss::Ended => Side::Ended,
            Loss::Failed => Side::Failed,
            Loss::Shut => Side::Gone,
        };
        match end {
            End::Client => self.client = side,
            End::Up => self.up = side,
        }
    }

    /// The connection upstream was asked for.
    pub fn link(&mut self, answer: Linked)
        ensures { self.new ≡ with_side End.Up (side_linked answer) self.old }
    {
        self.up = match answer {
            Linked::Ok => Side::Open,
            Linked::Failed => Side::Gone,
        };
    }
}
