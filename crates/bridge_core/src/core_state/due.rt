//! What goes next to each end: the first unit of the first row that has one.

ghost use Rattle.std.specs.Prelude.{◌≡◌, ◌<◌, ◌≤◌, ◌&&◌, [], IfOk, drop, false, length};
ghost use Rattle.bridge_core.specs.PathChanges.{is_deliver_reply};
ghost use Rattle.bridge_core.specs.Rows.{is_up_closing, may_send, may_send_up, units_in, units_of};
ghost use Rattle.bridge_core.specs.Rows.{units_on, up_units_in, up_units_of, up_units_on};
ghost use Rattle.bridge_core.specs.declared.lives.TheConstants.{CHANNELS};
ghost use Rattle.bridge_core.specs.declared.rows.Row.{Row};
ghost use Rattle.bridge_core.specs.declared.rows.UpRow.{UpRow};
ghost use Rattle.gate_model.specs.Due.{carries_back, carries_of, client_rows, close_behind};
ghost use Rattle.gate_model.specs.Due.{close_oks, close_oks_on, deliver_method, is_beat_due};
ghost use Rattle.gate_model.specs.Due.{is_end_due, is_lingered, last_closes, may_answer};
ghost use Rattle.gate_model.specs.Due.{may_confirm_all, may_confirm_some, may_end, may_go, may_idle};
ghost use Rattle.gate_model.specs.Due.{may_return, may_tell, none_left, openings, refused_on, up_rows};
ghost use Rattle.gate_model.specs.Lives.{each, life_at};
ghost use Rattle.gate_model.specs.Paths.{path_at};
ghost use Rattle.gate_model.specs.State.{is_channel_settled, is_settled};
ghost use Rattle.gate_model.specs.Upstream.{first, when_up};
ghost use Rattle.gate_model.specs.declared.outgoing.UpUnit.TheVariants as up;
ghost use Rattle.methods_091.specs.Writing.{CanPut};
ghost use Rattle.publish_path.specs.Payloads.{joined};

use super::Core;
use crate::channel_rows::{
    any_left, attach_on, begin_on, consume_ok_on, content_on, deliver_on, detach_on, disposal_on,
    flow_on, get_on, is_begun, is_ended, is_long_ago, is_settled_on, link_flow_on, may_go_on,
    ok_on, outcome_on, settling_on, top_of, transfer_on, when, when_up, writing_on,
};
use crate::rows::{Row, UpRow, to_client, to_up};
use gate_model::{BEAT_PER_SECOND, Life, Reason, Reply, SessionUnit, UpUnit};
use machine_091::Phase91;
use methods_091::Method91;
use publish_path::Pieces;
use session_path::DeliverDue;
use std::alloc::Global;
use wire_base::Memory;

/// Which rows the connections let go.
impl Core {
    /// Answers on channels may go.
    fn may_answer(&self) -> bool
        ensures { result ≡ may_answer self.now }
    {
        !(self.out_of_memory || self.conn.is_closing())
    }

    /// What is owed for publishes may go on each channel whose life goes on.
    fn may_confirm_all(&self) -> bool
        ensures { result ≡ may_confirm_all self.now }
    {
        self.may_answer() || self.by_peer
    }

    /// It may go on some channel.
    fn may_confirm_some(&self) -> bool
        ensures { result ≡ may_confirm_some self.now }
    {
        self.may_confirm_all() || self.may_end()
    }

    /// Frames of returns may go.
    fn may_return(&self) -> bool
        ensures { result ≡ may_return self.now }
    {
        !self.out_of_memory && self.may_confirm_some()
    }

    /// What ends channels may go.
    fn may_end(&self) -> bool
        ensures { result ≡ may_end self.now }
    {
        !(self.out_of_memory || self.sent_last.close || self.sent_last.close_ok)
    }

    /// The gateway's channel.close may go: the client didn't close the connection either.
    fn may_tell(&self) -> bool
        ensures { result ≡ may_tell self.now }
    {
        self.may_end() && !matches!(self.conn.phase(), Phase91::Closed)
    }

    /// A row to the client may go.
    fn may_send(&self, row: Row) -> bool
        ensures { result ≡ may_send self.now row }
    {
        match row {
            Row::Content => self.may_return(),
            Row::Writing
            | Row::ChannelOpenOk
            | Row::Ok
            | Row::ConsumeOk
            | Row::Get
            | Row::Deliver => self.may_answer(),
            Row::Confirm => self.may_confirm_some(),
            Row::ChannelCloseOk => self.may_end(),
            Row::ChannelClose => self.may_tell(),
            Row::Opening | Row::CloseOk | Row::Close | Row::Heartbeat => true,
        }
    }

    /// The container's connection is to be closed.
    fn is_up_closing(&self) -> bool
        ensures { result ≡ is_up_closing self.now }
    {
        self.out_of_memory || self.conn.is_closing()
    }

    /// A row to the container may go.
    fn may_send_up(&self, row: UpRow) -> bool
        ensures { result ≡ may_send_up self.now row }
    {
        match row {
            UpRow::Opening | UpRow::Begin => !self.is_up_closing(),
            UpRow::Attach | UpRow::LinkFlow | UpRow::SessionFlow | UpRow::Transfer => {
                !self.out_of_memory
            }
            UpRow::Dispose | UpRow::Settle | UpRow::Detach | UpRow::End | UpRow::Empty => true,
            UpRow::Close => self.is_up_closing(),
        }
    }
}

/// The rows of the connections.
impl Core {
    /// The first unit that opens the connection.
    fn opening(&self) -> Option<Reply>
        ensures { result ≡ first (openings (may_go (is_settled self.now) self.now.pending)) }
    {
        if self.pending.protocol {
            Some(Reply::Protocol)
        } else if self.pending.start {
            Some(Reply::Start)
        } else if self.pending.tune {
            Some(Reply::Tune)
        } else if self.pending.open_ok {
            Some(Reply::OpenOk)
        } else {
            None
        }
    }

    /// The client's close-ok, if nothing of the upstream end is waited for.
    fn close_ok(&self) -> Option<Reply>
        ensures { result ≡ first (close_oks (may_go (is_settled self.now) self.now.pending)) }
    {
        if self.pending.close_ok && self.is_settled() {
            Some(Reply::CloseOk)
        } else {
            None
        }
    }

    /// The gateway's close, if nothing of the upstream end is waited for, or the last unit.
    fn close(&self) -> Option<Reply>
        ensures { result ≡ first (last_closes (may_go (is_settled self.now) self.now.pending)) }
    {
        match self.pending.close {
            Some(refusal) if self.is_settled() => Some(Reply::Close(refusal)),
            _ => when(self.pending.no_memory, Reply::NoMemory),
        }
    }

    /// A heartbeat is due.
    fn is_beat_due(&self) -> bool
        ensures { result ≡ is_beat_due self.now }
    {
        let interval = u64::from(self.conn.heartbeat());
        !self.sent_last.close_ok
            && interval != 0
            && BEAT_PER_SECOND * interval <= self.moment.saturating_sub(self.last_sent_at)
    }

    /// No session is left that began and that the gateway didn't end.
    fn is_none_left(&self) -> bool
        ensures { result ≡ none_left self.now }
    {
        !any_left(self.lives.all(), self.up.container())
    }

    /// The close behind all ends, where the open was sent.
    fn close_up(&self) -> Option<UpUnit>
        ensures { result ≡ first (close_behind self.now) }
    {
        if self.is_none_left() && self.up.sent().open {
            Some(UpUnit::Close(self.up.condition()))
        } else {
            None
        }
    }

    /// An empty frame that is due.
    fn empty(&self) -> Option<UpUnit>
        ensures { result ≡ first (when_up (may_idle self.now) up.Empty) }
    {
        if !self.out_of_memory && self.up.is_idle_due(self.moment) {
            Some(UpUnit::Empty)
        } else {
            None
        }
    }
}

/// The rows of channels.
impl Core {
    /// Nothing of the container is waited for on a channel.
    fn is_channel_settled(&self, channel: u16) -> bool
        ensures { result ≡ is_channel_settled self.now channel }
    {
        is_settled_on(self.is_settled(), self.up.container(), channel)
    }

    /// The channel.close-ok that goes on a channel: one to a channel.close that crossed the
    /// gateway's, or else one that is due.
    fn close_ok_on(&self, channel: u16, life: &Life) -> Option<Reply>
        ensures { result ≡ first (close_oks_on channel
            (life.now.close_ok && is_channel_settled self.now channel) life.now) }
    {
        if life.crossed_ok {
            Some(Reply::CrossedOk(channel))
        } else if life.close_ok && self.is_channel_settled(channel) {
            Some(Reply::ChannelCloseOk(channel))
        } else {
            None
        }
    }

    /// The channel.close that goes on a channel, if there is a reason for one.
    fn close_on(&self, channel: u16, why: Option<Reason>) -> Option<Reply>
        ensures { result ≡ first (refused_on (is_channel_settled self.now channel) channel why) }
    {
        let reason = why?;
        when(
            self.is_channel_settled(channel),
            Reply::ChannelClose(channel, reason),
        )
    }

    /// The unit of a row to the client that goes on a channel.
    fn unit_on(&self, row: Row, channel: u16) -> Option<Reply>
        requires { channel < CHANNELS }
        ensures { result ≡ first (units_on self.now row channel (life_at self.now.lives channel)) }
    {
        let life = self.lives.get(channel);
        let paths = &self.paths;
        match row {
            Row::Content => content_on(may_go_on(self.may_confirm_all(), life), paths, channel),
            Row::Writing => writing_on(life, paths, channel),
            Row::ChannelOpenOk => when(life.open_ok, Reply::ChannelOpenOk(channel)),
            Row::Ok => ok_on(life, paths, channel),
            Row::ConsumeOk => consume_ok_on(life, paths, channel),
            Row::Get => get_on(life, paths, channel),
            Row::Deliver => deliver_on(life, paths, channel),
            Row::Confirm => {
                let all = self.may_confirm_all();
                outcome_on(life, paths, channel, !self.out_of_memory, all)
            }
            Row::ChannelCloseOk => self.close_ok_on(channel, life),
            Row::ChannelClose => self.close_on(channel, life.close),
            Row::Opening | Row::CloseOk | Row::Close | Row::Heartbeat => None,
        }
    }

    /// Nothing of a channel's publishes is waited for any more.
    fn is_lingered(&self, channel: u16) -> bool
        ensures { result ≡ is_lingered self.now channel }
    {
        self.out_of_memory
            || self.paths.is_done(channel)
            || is_long_ago(self.lives.at(channel).closed_at, self.moment)
            || is_long_ago(self.closed_at, self.moment)
    }

    /// The end of a channel's session is due.
    fn is_end_due(&self, channel: u16) -> bool
        ensures { result ≡ is_end_due (is_up_closing self.now) self.now channel }
    {
        let container = self.up.container();
        is_ended(container, channel)
            || (is_begun(container, channel)
                && (self.is_up_closing() || !self.conn.is_open(channel))
                && self.is_lingered(channel))
    }

    /// The unit of a row to the container that goes on a channel.
    fn up_unit_on(&self, row: UpRow, channel: u16) -> Option<UpUnit>
        requires { channel < CHANNELS }
        ensures { result
            ≡ first (up_units_on self.now row channel (life_at self.now.lives channel)) }
    {
        let life = self.lives.get(channel);
        let container = self.up.container();
        let paths = &self.paths;
        match row {
            UpRow::Begin => begin_on(life, container, channel),
            UpRow::Attach => attach_on(container, paths, self.attached, channel),
            UpRow::LinkFlow => link_flow_on(life, container, paths, channel),
            UpRow::SessionFlow => flow_on(life, container, channel),
            UpRow::Transfer => transfer_on(life, container, paths, channel),
            UpRow::Dispose => disposal_on(container, paths, channel),
            UpRow::Settle => settling_on(container, paths, channel),
            UpRow::Detach => detach_on(container, paths, channel),
            UpRow::End => when_up(self.is_end_due(channel), UpUnit::End(channel, life.why)),
            UpRow::Opening | UpRow::Close | UpRow::Empty => None,
        }
    }

    /// Nothing is due on a channel from this number on.
    fn top(&self) -> u16
        ensures within { result ≤ CHANNELS }
        ensures all { length self.now.lives ≡ CHANNELS }
        ensures client { (row : Row)
            → each (units_on self.now row) result (drop result self.now.lives) ≡ [] }
        ensures up { (row : UpRow)
            → each (up_units_on self.now row) result (drop result self.now.lives) ≡ [] }
    {
        let top = self.lives.top().max(self.paths.top());
        top.max(top_of(self.up.container()))
    }

    /// The first unit of a row to the client, by rising numbers of channels.
    fn first_on_channels(&self, row: Row) -> Option<Reply>
        ensures { result ≡ first (each (units_on self.now row) 0 self.now.lives) }
    {
        for channel in 0..self.top() {
            if let Some(unit) = self.unit_on(row, channel) {
                return Some(unit);
            }
        }
        None
    }

    /// The same of a row to the container.
    fn first_up_on_channels(&self, row: UpRow) -> Option<UpUnit>
        ensures { result ≡ first (each (up_units_on self.now row) 0 self.now.lives) }
    {
        for channel in 0..self.top() {
            if let Some(unit) = self.up_unit_on(row, channel) {
                return Some(unit);
            }
        }
        None
    }
}

/// What goes next.
impl Core {
    /// The first unit of a row to the client.
    fn first_in(&self, row: Row) -> Option<Reply>
        ensures { result ≡ first (units_in self.now row) }
    {
        match row {
            Row::Opening => self.opening(),
            Row::CloseOk => self.close_ok(),
            Row::Close => self.close(),
            Row::Heartbeat => when(self.is_beat_due(), Reply::Heartbeat),
            _ => self.first_on_channels(row),
        }
    }

    /// The first that may go.
    fn first_of(&self, row: Row) -> Option<Reply>
        ensures { result ≡ first (units_of self.now row) }
    {
        if self.may_send(row) {
            self.first_in(row)
        } else {
            None
        }
    }

    /// The unit to the client that goes next.
    pub fn next_client(&self) -> Option<Reply>
        ensures { result ≡ first (client_rows self.now) }
    {
        for row in to_client() {
            if let Some(unit) = self.first_of(row) {
                return Some(unit);
            }
        }
        None
    }

    /// The first unit of a row to the container.
    fn first_in_up(&self, row: UpRow) -> Option<UpUnit>
        ensures { result ≡ first (up_units_in self.now row) }
    {
        match row {
            UpRow::Opening => self.up.next_opening(),
            UpRow::Close => self.close_up(),
            UpRow::Empty => self.empty(),
            _ => self.first_up_on_channels(row),
        }
    }

    /// The first that may go.
    fn first_of_up(&self, row: UpRow) -> Option<UpUnit>
        ensures { result ≡ first (up_units_of self.now row) }
    {
        if self.may_send_up(row) {
            self.first_in_up(row)
        } else {
            None
        }
    }

    /// The unit to the container that goes next.
    pub fn next_up(&self) -> Option<UpUnit>
        ensures { result ≡ first (up_rows self.now) }
    {
        if !self.up.is_live() || self.up.sent().close {
            return None;
        }
        for row in to_up() {
            if let Some(unit) = self.first_of_up(row) {
                return Some(unit);
            }
        }
        None
    }
}

/// What a unit that goes carries.
impl Core {
    /// The method of a deliver on a channel.
    pub fn deliver(&self, alloc: Global, channel: u16, due: DeliverDue) -> Result<Method91, Memory>
        ensures method { IfOk result (λ m. m
            ≡ deliver_method (path_at self.now.paths channel) due) }
        ensures short { IfOk result CanPut }
    {
        self.paths.deliver(alloc, channel, due)
    }

    /// What a unit to the client carries that is no deliver: a consumer tag, or a frame.
    pub fn carried_back(&self, unit: Reply) -> &[u8]
        requires { is_deliver_reply unit ≡ false }
        ensures { result.now ≡ carries_back self.now unit }
    {
        match unit {
            Reply::OnChannel(channel, unit) => self.paths.carried_back(channel, unit),
            _ => &[],
        }
    }

    /// What a unit of the container's session carries of the client's: the address of an attach,
    /// the part of a payload of a transfer.
    pub fn carried(&self, channel: u16, unit: SessionUnit) -> Pieces<'_>
        ensures { joined result ≡ carries_of (path_at self.now.paths channel) unit }
    {
        self.paths.carried(channel, unit)
    }
}
