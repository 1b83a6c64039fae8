//! The units whose first byte is sent.

ghost use Rattle.std.specs.Prelude.{◌≡◌, ◌+◌, ◌%◌, ◌^◌, if◌then◌else◌};
ghost use Rattle.gate_model.specs.Lives.{life_at};
ghost use Rattle.gate_model.specs.Paths.{path_at, with_path};
ghost use Rattle.gate_model.specs.State.{attached_by, conn_given, gave, is_attach, path_given};
ghost use Rattle.gate_model.specs.State.{is_later, paths_given, paths_given_up, session_by};
ghost use Rattle.gate_model.specs.State.{sessions_by};
ghost use Rattle.gate_model.specs.State.{without_begin, without_life};
ghost use Rattle.gate_model.specs.declared.outgoing.UpUnit.TheVariants as up;
ghost use Rattle.bridge_core.specs.PathChanges.{HasWindow, MayGive, MayGo, MayGoUp, MayReply};

use super::Core;
use crate::replies::without;
use crate::sessions::flow_sent;
use gate_model::{Outgoing, Reply, SessionState, SessionUnit, UpUnit};

/// What a unit of a session's links makes of the windows of the session.
fn session_given(session: SessionState, unit: SessionUnit) -> SessionState
    requires { HasWindow unit session }
    ensures { result ≡ session_by unit session }
{
    let mut windows = session.windows;
    match unit {
        SessionUnit::Flow(_) => {
            windows.flow_sent();
            SessionState { windows, ..session }
        }
        SessionUnit::Transfer(_) => {
            windows.sent_frame();
            SessionState { windows, ..session }
        }
        SessionUnit::Attach(_)
        | SessionUnit::Dispose(_)
        | SessionUnit::Settle(_)
        | SessionUnit::Detach(_, _, _) => session,
    }
}

/// The number in the name of the next attach, once a unit was sent.
fn attached_with(attached: u64, unit: SessionUnit) -> u64
    ensures { result ≡ (if is_attach unit then (attached + 1) % 2 ^ 64 else attached) }
{
    match unit {
        SessionUnit::Attach(_) => attached.wrapping_add(1),
        _ => attached,
    }
}

impl Core {
    /// What is due on a channel once the first byte of this unit was sent, and what that makes of
    /// the connection.
    fn give_channel(&mut self, unit: Reply)
        requires { MayReply self.old unit }
        ensures { self.new
            ≡ record self.old {
              conn = conn_given unit self.old.conn;
              lives = without_life unit self.old.lives;
              paths = paths_given unit self.old.paths;
            } }
    {
        match unit {
            Reply::ChannelOpenOk(channel) => self.lives.open_ok_sent(channel),
            Reply::OnChannel(channel, unit) => self.paths.tell(channel, unit),
            Reply::ChannelCloseOk(channel) => {
                self.lives.close_ok_sent(channel);
                self.conn.closed(channel);
            }
            Reply::CrossedOk(channel) => self.lives.crossed_ok_sent(channel),
            Reply::ChannelClose(channel, _) => {
                self.lives.close_sent(channel);
                self.conn.told(channel);
            }
            _ => {}
        }
    }

    /// What is due to the container on a channel once the first byte of this unit was sent.
    fn give_session(&mut self, unit: UpUnit)
        requires { MayGoUp self.old unit }
        ensures { self.new
            ≡ record self.old {
              lives = without_begin unit self.old.lives;
              paths = paths_given_up (is_later self.old.conn unit) unit self.old.paths;
              attached = attached_by unit self.old.attached;
            } }
    {
        match unit {
            UpUnit::Begin(channel) => self.lives.begin_sent(channel),
            UpUnit::Flow(channel, _, _) => {
                let session = flow_sent(self.lives.at(channel).session);
                self.lives.set_session(channel, session);
            }
            UpUnit::End(channel, _) => {
                self.lives.end_sent(channel);
                self.paths.lines_told();
                if !self.conn.is_open(channel) {
                    self.paths.end(channel);
                }
            }
            UpUnit::OnSession(channel, unit) => self.give_link(channel, unit),
            _ => {}
        }
    }

    /// A unit of a session's links was sent: in the windows of the session, and of its links.
    fn give_link(&mut self, channel: u16, unit: SessionUnit)
        requires window { HasWindow unit (life_at self.old.lives channel).session }
        requires due { MayGive unit (path_at self.old.paths channel) }
        ensures { self.new
            ≡ record self.old {
              lives = sessions_by channel unit self.old.lives;
              paths = with_path channel (path_given unit) self.old.paths;
              attached = attached_by (up.OnSession channel unit) self.old.attached;
            } }
    {
        let session = session_given(self.lives.at(channel).session, unit);
        self.lives.set_session(channel, session);
        self.paths.give(channel, unit);
        self.attached = attached_with(self.attached, unit);
    }

    /// The first byte of a unit was sent.
    pub fn begin(&mut self, unit: Outgoing)
        requires { MayGo self.old unit }
        ensures { self.new ≡ gave self.old unit }
    {
        match unit {
            Outgoing::ToClient(unit) => {
                self.give_channel(unit);
                self.pending = without(self.pending, unit);
                self.in_progress = Some(unit);
            }
            Outgoing::ToUp(unit) => {
                self.give_session(unit);
                self.up.begin(unit);
            }
        }
    }
}
