//! The state of a pair at its upstream end: the container's connection, and what is due to it.

ghost use Rattle.std.specs.Prelude.{◌≡◌, ◌||◌, true, false, IfOk, OnOk, OnErr, Some};
ghost use Rattle.std.specs.Str.{bytes_eq};
ghost use Rattle.gate_relay.specs.Sides.{is_readable, is_absent};
ghost use Rattle.machine_091.specs.RefusalsOpening.{is_login};
ghost use Rattle.machine_10.specs.Transitions.{meaning_of};
ghost use Rattle.bridge_core.specs.Logins.{IsLoginOf};
ghost use Rattle.gate_model.specs.Upstream.{awaited_of, begun, channel_max_of, closing_with};
ghost use Rattle.gate_model.specs.Upstream.{container_given, finished, first, has_closed};
ghost use Rattle.gate_model.specs.Upstream.{has_gone_bad, heard_up, idle_in, opening_rows};
ghost use Rattle.gate_model.specs.Upstream.{is_idle_due, is_open_phase, is_up_silent, linked};
ghost use Rattle.gate_model.specs.Upstream.{lost_by};
ghost use Rattle.gate_model.specs.Upstream.{meaning_by, no_end, shut_by, with_begun};
ghost use Rattle.gate_model.specs.Upstream.{with_init, with_login, with_amqp_header, with_whole};
ghost use Rattle.gate_model.specs.Upstream.{without_up};

use gate_model::{UP_SILENCE, UpPending, UpSent, UpUnit};
use gate_relay::Side;
use machine_10::{Awaited10, Conn10, Phase10, Stream10, Unit10, Want10, connection_laws};
use performatives_10::Condition;
use std::alloc::Global;
use std::marker::Model;
use wire_base::{ByteText, Memory};

/// The upstream end of a pair.
#[derive(Drop)]
pub struct UpCore {
    side: Side,
    pending: UpPending,
    sent: UpSent,
    silent: bool,
    fed_at: u64,
    last_sent_at: u64,
    condition: Option<Condition>,
    container: Option<Conn10>,
    in_progress: Option<UpUnit>,
}

impl Model for UpCore {
    ghost use Rattle.gate_model.specs.Upstream.{UpState};
    ghost use Rattle.bridge_core.specs.Logins.{IsLoginOf};

    ghost Value = { UpState };

    ghost view = { λ a. record {
      side = a.side;
      container = a.container;
      pending = a.pending;
      in_progress = a.in_progress;
      sent = a.sent;
      condition = a.condition;
      last_sent_at = a.last_sent_at;
      fed_at = a.fed_at;
      silent = a.silent;
    } };

    ghost invariant = { λ a. IsLoginOf a.container };
}

fn is_named(text: &ByteText, name: &[u8]) -> bool
    ensures { result ≡ bytes_eq text.now name.now }
{
    text.as_slice() == name
}

/// The container's open is awaited.
fn is_open_phase(phase: Phase10) -> bool
    ensures { result ≡ is_open_phase phase }
{
    matches!(phase, Phase10::Open)
}

/// The units of the opening that are due once the first byte of this one was sent.
fn without(pending: UpPending, unit: UpUnit) -> UpPending
    ensures { result ≡ without_up unit pending }
{
    match unit {
        UpUnit::SaslHeader => UpPending {
            sasl_header: false,
            ..pending
        },
        UpUnit::SaslInit => UpPending {
            init: false,
            ..pending
        },
        UpUnit::AmqpHeader => UpPending {
            amqp_header: false,
            ..pending
        },
        UpUnit::Open => UpPending {
            open: false,
            ..pending
        },
        UpUnit::Close(_)
        | UpUnit::Empty
        | UpUnit::Begin(_)
        | UpUnit::Flow(_, _, _)
        | UpUnit::OnSession(_, _)
        | UpUnit::End(_, _) => pending,
    }
}

/// The units that were sent once the first byte of this one was.
fn with_begun(sent: UpSent, unit: UpUnit) -> UpSent
    ensures { result ≡ with_begun unit sent }
{
    match unit {
        UpUnit::Open => UpSent { open: true, ..sent },
        UpUnit::Close(_) => UpSent {
            close: true,
            ..sent
        },
        UpUnit::SaslHeader
        | UpUnit::SaslInit
        | UpUnit::AmqpHeader
        | UpUnit::Empty
        | UpUnit::Begin(_)
        | UpUnit::Flow(_, _, _)
        | UpUnit::OnSession(_, _)
        | UpUnit::End(_, _) => sent,
    }
}

/// The units that were sent whole once this one was.
fn with_whole(sent: UpSent, unit: Option<UpUnit>) -> UpSent
    ensures { result ≡ with_whole unit sent }
{
    match unit {
        Some(UpUnit::Close(_)) => UpSent {
            whole_close: true,
            ..sent
        },
        _ => sent,
    }
}

/// The container's sessions once the first byte of a unit was sent.
fn give(container: &mut Option<Conn10>, unit: UpUnit)
    ensures { container.new ≡ container_given unit container.old }
{
    if let Some(container) = container {
        match unit {
            UpUnit::Begin(channel) => container.begin_sent(channel),
            UpUnit::End(channel, _) => container.end_sent(channel),
            _ => {}
        }
    }
}

impl UpCore {
    /// No end was asked for.
    pub fn new() -> UpCore
        ensures { result ≡ no_end }
    {
        UpCore {
            side: Side::Absent,
            container: None,
            pending: UpPending {
                sasl_header: false,
                init: false,
                amqp_header: false,
                open: false,
            },
            in_progress: None,
            sent: UpSent {
                open: false,
                close: false,
                whole_close: false,
            },
            condition: None,
            last_sent_at: 0,
            fed_at: 0,
            silent: false,
        }
    }

    /// The client told this login.
    pub fn log_in(&mut self, alloc: Global, mechanism: ByteText, response: ByteText)
        requires { is_login mechanism response ≡ true }
        ensures { self.new ≡ with_login mechanism response self.old }
    {
        let mut response = response;
        if is_named(&mechanism, b"ANONYMOUS") {
            response.truncate(0);
        }
        if let Ok(container) = Conn10::new(alloc, mechanism, response) {
            self.container = Some(container);
        }
    }

    /// The connection is there.
    pub fn link(&mut self, moment: u64)
        ensures { self.new ≡ linked moment self.old }
    {
        self.side = Side::Open;
        self.pending = UpPending {
            sasl_header: true,
            init: false,
            amqp_header: false,
            open: false,
        };
        self.last_sent_at = moment;
        self.fed_at = moment;
    }

    /// Bytes of it came.
    pub fn feed(&mut self, moment: u64)
        ensures { self.new ≡ record self.old { fed_at = moment } }
    {
        self.fed_at = moment;
    }

    /// No byte of it came for too long.
    pub fn is_silent(&self, moment: u64) -> bool
        ensures { result ≡ is_up_silent self.now moment }
    {
        self.is_live() && !self.silent && UP_SILENCE <= moment.saturating_sub(self.fed_at)
    }

    /// It is given up.
    pub fn give_up(&mut self)
        ensures { self.new ≡ record self.old { silent = true } }
    {
        self.silent = true;
    }

    /// It was given up.
    pub fn is_given_up(&self) -> bool
        ensures { result ≡ self.now.silent }
    {
        self.silent
    }

    /// The end was shut, or couldn't be reached.
    pub fn shut(&mut self)
        ensures { self.new ≡ shut_by self.old }
    {
        self.side = Side::Gone;
    }

    /// The end ended or failed.
    pub fn lose(&mut self, side: Side)
        ensures { self.new ≡ lost_by side self.old }
    {
        self.side = side;
        if let Some(container) = &mut self.container {
            container.ended();
        }
    }

    /// The error of the gateway's close, unless another closing event came before.
    pub fn set_condition(&mut self, closing: bool, condition: Option<Condition>)
        ensures { self.new ≡ closing_with closing condition self.old }
    {
        if !closing {
            self.condition = condition;
        }
    }

    /// A unit of the container came. If there is no memory for it all is as it was.
    #[tactic(auto, using(crate::proofs::Logins::login_stays), unfolding(machine_10::specs::Transitions::meaning_of))]
    pub fn hear(&mut self, alloc: Global, unit: &Unit10) -> Result<Want10, Memory>
        ensures ok { OnOk result (self.new ≡ heard_up unit.now self.old) }
        ensures want { IfOk result (λ want. meaning_of want
            ≡ meaning_by self.old.container unit.now) }
        ensures err { OnErr result (self.new ≡ self.old) }
    {
        connection_laws();
        match &mut self.container {
            None => Ok(Want10::Nothing),
            Some(container) => {
                let awaited = is_open_phase(container.phase());
                match container.take(alloc, unit) {
                    Ok(want) => {
                        let opens = is_open_phase(container.phase()) && !awaited;
                        self.pending.open = self.pending.open || opens;
                        Ok(want)
                    }
                    Err(error) => Err(error),
                }
            }
        }
    }

    /// sasl-init is due.
    pub fn ask_init(&mut self)
        ensures { self.new ≡ with_init self.old }
    {
        self.pending.init = true;
    }

    /// The gateway's AMQP header is due.
    pub fn ask_amqp_header(&mut self)
        ensures { self.new ≡ with_amqp_header self.old }
    {
        self.pending.amqp_header = true;
    }

    /// The first byte of a unit was sent.
    pub fn begin(&mut self, unit: UpUnit)
        ensures { self.new ≡ begun unit self.old }
    {
        give(&mut self.container, unit);
        self.pending = without(self.pending, unit);
        self.in_progress = Some(unit);
        self.sent = with_begun(self.sent, unit);
    }

    /// Its last byte was.
    pub fn whole(&mut self, moment: u64)
        ensures { self.new ≡ finished moment self.old }
    {
        self.sent = with_whole(self.sent, self.in_progress);
        self.in_progress = None;
        self.last_sent_at = moment;
    }

    // ---- questions

    /// The end is open, and neither ended nor failed.
    pub fn is_live(&self) -> bool
        ensures { result ≡ is_readable self.now.side }
    {
        self.side.is_readable()
    }

    /// No end was asked for.
    pub fn is_absent(&self) -> bool
        ensures { result ≡ is_absent self.now.side }
    {
        self.side.is_absent()
    }

    /// How far the end is.
    pub fn side(&self) -> Side
        ensures { result ≡ self.now.side }
    {
        self.side
    }

    /// Which units were sent.
    pub fn sent(&self) -> UpSent
        ensures { result ≡ self.now.sent }
    {
        self.sent
    }

    /// The unit of which the first byte was sent, and not the last.
    pub fn in_progress(&self) -> Option<UpUnit>
        ensures { result ≡ self.now.in_progress }
    {
        self.in_progress
    }

    /// The container's connection.
    pub fn container(&self) -> &Option<Conn10>
        ensures value { result.now ≡ self.now.container }
        ensures login { IsLoginOf self.now.container }
    {
        &self.container
    }

    /// What is awaited of the container's bytes.
    pub fn awaits(&self) -> Awaited10
        ensures { result ≡ awaited_of self.now.container }
    {
        match &self.container {
            None => Awaited10::Nothing,
            Some(container) => container.awaits(),
        }
    }

    /// The container's close came.
    pub fn has_closed(&self) -> bool
        ensures { result ≡ has_closed self.now }
    {
        match &self.container {
            None => false,
            Some(container) => matches!(container.stream(), Stream10::Closed | Stream10::Spent),
        }
    }

    /// The container's bytes are no units any more.
    pub fn has_gone_bad(&self) -> bool
        ensures { result ≡ has_gone_bad self.now }
    {
        match &self.container {
            None => false,
            Some(container) => matches!(container.stream(), Stream10::Bad),
        }
    }

    /// After how many milliseconds without a frame the container gives up; 0 where it doesn't.
    fn idle(&self) -> u32
        ensures { result ≡ idle_in self.now.container }
    {
        match &self.container {
            None => 0,
            Some(container) => container.idle().unwrap_or(0),
        }
    }

    /// The greatest number of a channel that the container takes.
    pub fn channel_max(&self) -> u16
        ensures { result ≡ channel_max_of self.now }
    {
        match &self.container {
            None => 0,
            Some(container) => container.channel_max(),
        }
    }

    /// The error of the gateway's close.
    pub fn condition(&self) -> Option<Condition>
        ensures { result ≡ self.now.condition }
    {
        self.condition
    }

    /// An empty frame is due.
    pub fn is_idle_due(&self, moment: u64) -> bool
        ensures { result ≡ is_idle_due self.now moment }
    {
        let idle = u64::from(self.idle());
        self.sent.open && idle != 0 && (idle + 1) / 2 <= moment.saturating_sub(self.last_sent_at)
    }

    /// The next unit of the opening.
    pub fn next_opening(&self) -> Option<UpUnit>
        ensures { result ≡ first (opening_rows self.now.pending) }
    {
        if self.pending.sasl_header {
            Some(UpUnit::SaslHeader)
        } else if self.pending.init {
            Some(UpUnit::SaslInit)
        } else if self.pending.amqp_header {
            Some(UpUnit::AmqpHeader)
        } else if self.pending.open {
            Some(UpUnit::Open)
        } else {
            None
        }
    }
}
