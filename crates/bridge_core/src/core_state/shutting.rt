//! When an end is to be shut.

ghost use Rattle.std.specs.Prelude.{◌≡◌};
ghost use Rattle.gate_outside.specs.declared.ports.End.TheVariants.{Client, Up};
ghost use Rattle.gate_model.specs.Due.{is_bad, is_shut_due, is_unheard};

use super::Core;
use crate::moments::is_overdue;
use gate_outside::End;
use gate_relay::Side;
use machine_091::{Conn91, Stream91};

/// Bytes of the client came with which no unit begins.
fn is_bad(conn: &Conn91) -> bool
    ensures { result ≡ is_bad conn.now.stream }
{
    matches!(conn.stream(), Stream91::Bad)
}

/// The client's protocol header didn't come.
fn is_unheard(conn: &Conn91) -> bool
    ensures { result ≡ is_unheard conn.now.stream }
{
    matches!(conn.stream(), Stream91::Header | Stream91::Foreign)
}

impl Core {
    /// The client's end is to be shut.
    fn is_client_shut_due(&self) -> bool
        ensures { result ≡ is_shut_due self.now Client }
    {
        self.failed
            || is_overdue(self.closed_at, self.moment)
            || self.late
            || self.conn.is_over()
            || self.sent_last.protocol
            || self.sent_last.close_ok
            || (self.sent_last.close && (is_bad(&self.conn) || self.out_of_memory))
            || (self.out_of_memory && is_unheard(&self.conn))
    }

    /// The upstream end is to be shut.
    fn is_up_shut_due(&self) -> bool
        ensures { result ≡ is_shut_due self.now Up }
    {
        let sent = self.up.sent();
        matches!(self.up.side(), Side::Failed)
            || matches!(self.up.side(), Side::Ended)
            || is_overdue(self.closed_at, self.moment)
            || (sent.whole_close
                && (self.up.has_closed() || self.up.has_gone_bad() || self.out_of_memory))
            || (self.conn.is_closing() && !sent.open)
    }

    /// An end is to be shut.
    pub fn is_shut_due(&self, end: End) -> bool
        ensures { result ≡ is_shut_due self.now end }
    {
        match end {
            End::Client => self.is_client_shut_due(),
            End::Up => self.is_up_shut_due(),
        }
    }
}
