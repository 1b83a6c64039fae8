//! The one pair of a rehearsal, and its open ends.

ghost use Rattle.std.specs.Prelude.{◌≡◌, ◌<◌, [], false};
ghost use Rattle.gate_outside.specs.declared.ports.End.{End};
ghost use Rattle.gate_outside.specs.declared.ports.Linked.{Linked};
ghost use Rattle.gate_outside.specs.Ends.{is_open, closed, IsNumbered, pairs_after, ends_accepted};
ghost use Rattle.gate_outside.specs.Ends.{ends_linked};
ghost use Rattle.gate_rehearsal.specs.Playing.{GivesOne};
ghost use Rattle.gate_rehearsal.specs.Standing.{opened_ends, opened_pairs};

use gate_outside::{Accepted, End};

/// The pair once it was accepted, and which of its ends are open.
#[derive(Clone, Copy, Debug)]
pub enum Opened {
    NoPair,
    Pair { client: bool, up: bool },
}

impl Opened {
    /// The pair, once; its client's end is then open.
    pub fn accept(&mut self) -> Accepted
        ensures one { GivesOne result }
        ensures number { IsNumbered result (opened_pairs self.old) }
        ensures pairs { opened_pairs self.new ≡ pairs_after result (opened_pairs self.old) }
        ensures ends { opened_ends self.new ≡ ends_accepted result (opened_ends self.old) }
    {
        match *self {
            Opened::NoPair => {
                *self = Opened::Pair {
                    client: true,
                    up: false,
                };
                Accepted::Pair(0)
            }
            Opened::Pair { .. } => Accepted::NotYet,
        }
    }

    /// Opens the upstream end.
    pub fn link(&mut self, pair: u32)
        requires known { pair < opened_pairs self.old }
        requires free { is_open pair End.Up (opened_ends self.old) ≡ false }
        ensures pairs { opened_pairs self.new ≡ opened_pairs self.old }
        ensures ends { opened_ends self.new ≡ ends_linked Linked.Ok pair (opened_ends self.old) }
    {
        if let Opened::Pair { client, .. } = *self {
            *self = Opened::Pair { client, up: true };
        }
    }

    /// Closes an end.
    pub fn close(&mut self, pair: u32, end: End)
        ensures pairs { opened_pairs self.new ≡ opened_pairs self.old }
        ensures ends { opened_ends self.new ≡ closed pair end (opened_ends self.old) }
    {
        if pair != 0 {
            return;
        }
        if let Opened::Pair { client, up } = *self {
            *self = match end {
                End::Client => Opened::Pair { client: false, up },
                End::Up => Opened::Pair { client, up: false },
            };
        }
    }
}
