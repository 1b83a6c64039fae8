//! The transitions of a connection: for each phase and unit the state after it and what the unit
//! wants, and what the other calls change. No other file sets a phase, a stream or a session.

ghost use Rattle.std.specs.Prelude.{◌≡◌, ◌≤◌, IfOk, OnOk, OnErr};
ghost use Rattle.types_10.specs.View.{value_tree};
ghost use Rattle.machine_10.specs.Calls.{may_begin, after_begin_sent, after_end_sent, after_ended};
ghost use Rattle.machine_10.specs.Parts.{parts_of};
ghost use Rattle.machine_10.specs.Reading.{body_of, act_of, closes, field};
ghost use Rattle.machine_10.specs.Transitions.{Nothing, meaning_of, spoiled, stream_after};
ghost use Rattle.machine_10.specs.Transitions.{violated, awaits_header};
ghost use Rattle.machine_10.specs.Transitions.{phase_after, header_step, offer_effect};
ghost use Rattle.machine_10.specs.Transitions.{outcome_effect};
ghost use Rattle.machine_10.specs.Transitions.{login_effect, mechanisms_effect, open_effect};
ghost use Rattle.machine_10.specs.Transitions.{begin_effect};
ghost use Rattle.machine_10.specs.Transitions.{end_effect, running_effect, perf_effect};
ghost use Rattle.machine_10.specs.Transitions.{body_effect, body_step, ordered_step, refused_step};
ghost use Rattle.machine_10.specs.Transitions.{close_effect};
ghost use Rattle.machine_10.specs.Transitions.{late_body_step, closed_step, closing_step};
ghost use Rattle.machine_10.specs.Transitions.{unit_step};
ghost use Rattle.machine_10.specs.State.{session_of};
ghost use Rattle.machine_10.specs.declared.state.TheConstants.{CHANNELS};
ghost use Rattle.machine_10.specs.declared.unit.Act10.TheVariants as act;

use crate::reading::{act_of, closes, offers, read_body};
use crate::refusals::check_body;
use crate::state::{Phase10, Session, Stream10, Upstream};
use crate::unit::{Act10, Body10, Ruling10, Unit10, Want10};
use crate::whole::Whole10;
use frames_10::Kind10;
use performatives_10::{Condition, Perf};
use std::alloc::Global;
use types_10::Value10;
use wire_base::Memory;

/// The stream once bytes came with which no unit begins, or a header that isn't awaited.
fn spoiled(stream: Stream10) -> Stream10
    ensures { result ≡ spoiled stream }
{
    match stream {
        Stream10::Header(_) | Stream10::Frames | Stream10::Bad => Stream10::Bad,
        Stream10::Closed | Stream10::Spent => Stream10::Spent,
        Stream10::Ended => stream,
    }
}

/// What the container's bytes are after a unit that is passed over.
fn stream_after(unit: &Unit10, stream: Stream10) -> Stream10
    ensures { result ≡ stream_after unit.now stream }
{
    match unit {
        Unit10::Header(_) | Unit10::Bad(_) => spoiled(stream),
        Unit10::Frame(_) => stream,
    }
}

/// Whether this protocol header is awaited.
fn awaits_header(kind: Kind10, phase: Phase10) -> bool
    ensures { result ≡ awaits_header kind phase }
{
    match kind {
        Kind10::Sasl => phase == Phase10::SaslHeader,
        Kind10::Amqp => phase == Phase10::AmqpHeader,
    }
}

/// What is awaited after this protocol header.
fn phase_after(kind: Kind10) -> Phase10
    ensures { result ≡ phase_after kind }
{
    match kind {
        Kind10::Sasl => Phase10::Mechanisms,
        Kind10::Amqp => Phase10::Open,
    }
}

/// No want.
#[tactic(auto, unfolding(crate::specs::Transitions::meaning_of))]
fn nothing() -> Want10
    ensures { meaning_of result ≡ Nothing }
{
    Want10::Nothing
}

/// No want of a performative that is passed over.
fn let_go(whole: Whole10) -> Want10
    ensures { meaning_of result ≡ Nothing }
{
    drop(whole);
    nothing()
}

impl Upstream {
    // ---- the calls

    /// Takes a unit.
    pub(crate) fn take(&mut self, alloc: Global, unit: &Unit10) -> Result<Want10, Memory>
        ensures state { OnOk result (self.new ≡ (unit_step self.old unit.now).0) }
        ensures want { IfOk result (λ want. meaning_of want ≡ (unit_step self.old unit.now).1) }
        ensures err { OnErr result (self.new ≡ self.old) }
    {
        match self.phase {
            Phase10::SaslHeader
            | Phase10::Mechanisms
            | Phase10::Outcome
            | Phase10::AmqpHeader
            | Phase10::Open
            | Phase10::Running => self.take_ordered(alloc, unit),
            Phase10::Closing => self.take_closing(alloc, unit),
            Phase10::Closed => Ok(self.pass_over(unit)),
        }
    }

    /// The gateway's begin on this channel was sent.
    pub(crate) fn begin_sent(&mut self, channel: u16)
        ensures step { self.new ≡ after_begin_sent channel self.old }
        ensures beyond { CHANNELS ≤ channel → self.new ≡ self.old }
    {
        if self.may_begin(channel) && self.session(channel) == Session::Free {
            self.set_session(channel, Session::Asked);
        }
    }

    /// Whether a session may begin on this channel.
    fn may_begin(&self, channel: u16) -> bool
        ensures { result ≡ may_begin self.now channel }
    {
        self.is_running() && channel <= self.stated.channel_max
    }

    /// The gateway's end on this channel was sent.
    pub(crate) fn end_sent(&mut self, channel: u16)
        ensures { self.new ≡ after_end_sent channel self.old }
    {
        match self.session(channel) {
            Session::Asked => self.set_session(channel, Session::Left),
            Session::Open(number) => self.set_session(channel, Session::Leaving(number)),
            Session::Ended(_) => self.set_session(channel, Session::Free),
            Session::Free | Session::Left | Session::Leaving(_) => {}
        }
    }

    /// The container's end ended.
    pub(crate) fn end(&mut self)
        ensures { self.new ≡ after_ended self.old }
    {
        self.phase = Phase10::Closed;
        self.stream = Stream10::Ended;
    }

    // ---- before a violation

    /// A unit by the order of refusals.
    fn take_ordered(&mut self, alloc: Global, unit: &Unit10) -> Result<Want10, Memory>
        ensures state { OnOk result (self.new ≡ (ordered_step self.old unit.now).0) }
        ensures want { IfOk result (λ want. meaning_of want ≡ (ordered_step self.old unit.now).1) }
        ensures err { OnErr result (self.new ≡ self.old) }
    {
        let frame = match unit {
            Unit10::Header(kind) => return Ok(self.take_header(*kind)),
            Unit10::Bad(condition) => {
                return Ok(self.violate(*condition, spoiled(self.stream)));
            }
            Unit10::Frame(frame) => frame,
        };
        match read_body(alloc, frame) {
            Ok(body) => Ok(self.take_body(frame.kind, frame.channel, body)),
            Err(memory) => Err(memory),
        }
    }

    /// The unit closes the connection with this condition.
    #[tactic(auto, unfolding(crate::specs::Transitions::meaning_of))]
    fn violate(&mut self, condition: Condition, stream: Stream10) -> Want10
        ensures state { self.new ≡ (violated self.old condition stream).0 }
        ensures want { meaning_of result ≡ (violated self.old condition stream).1 }
    {
        self.phase = Phase10::Closing;
        self.stream = stream;
        Want10::Violation(condition)
    }

    /// A protocol header.
    fn take_header(&mut self, kind: Kind10) -> Want10
        ensures state { self.new ≡ (header_step self.old kind).0 }
        ensures want { meaning_of result ≡ (header_step self.old kind).1 }
    {
        if awaits_header(kind, self.phase) {
            self.phase = phase_after(kind);
            self.stream = Stream10::Frames;
            nothing()
        } else {
            self.violate(Condition::FramingError, spoiled(self.stream))
        }
    }

    /// The body of a frame.
    fn take_body(&mut self, kind: Kind10, channel: u16, body: Body10) -> Want10
        ensures state { self.new ≡ (body_step self.old kind channel (body_of body)).0 }
        ensures want { meaning_of result ≡ (body_step self.old kind channel (body_of body)).1 }
    {
        match check_body(self, self.phase, kind, channel, &body) {
            Some(Ruling10::Violated(condition)) => {
                let closes = closes(kind, &body);
                drop(body);
                self.refuse(condition, closes)
            }
            Some(Ruling10::PassedOver) => {
                drop(body);
                nothing()
            }
            None => self.apply_body(self.phase, channel, body),
        }
    }

    /// A frame that is refused. A close counts all the same.
    #[tactic(auto, unfolding(crate::specs::Transitions::meaning_of))]
    fn refuse(&mut self, condition: Condition, closes: bool) -> Want10
        ensures state { self.new ≡ (refused_step self.old condition closes).0 }
        ensures want { meaning_of result ≡ (refused_step self.old condition closes).1 }
    {
        if closes {
            self.phase = Phase10::Closed;
            self.stream = Stream10::Closed;
            Want10::Violation(condition)
        } else {
            self.violate(condition, self.stream)
        }
    }

    /// A body that counts, in a phase.
    #[tactic(auto, unfolding(crate::specs::Reading::body_of))]
    fn apply_body(&mut self, phase: Phase10, channel: u16, body: Body10) -> Want10
        ensures state { self.new ≡ (body_effect phase self.old channel (body_of body)).0 }
        ensures want { meaning_of result ≡ (body_effect phase self.old channel (body_of body)).1 }
    {
        // An arm each: what one place alone drops would be proved there again, down to its last
        // part.
        match body {
            Body10::Empty => nothing(),
            Body10::Faulty(_) => nothing(),
            Body10::Whole(whole) => self.apply(phase, channel, whole),
        }
    }

    /// A performative that counts, in a phase.
    fn apply(&mut self, phase: Phase10, channel: u16, whole: Whole10) -> Want10
        ensures state { self.new ≡ (perf_effect phase self.old channel whole.0 whole.1).0 }
        ensures want { meaning_of result ≡ (perf_effect phase self.old channel whole.0 whole.1).1 }
    {
        match phase {
            Phase10::Mechanisms => self.apply_offer(whole),
            Phase10::Outcome => self.apply_login(whole.into_act()),
            Phase10::Open => self.apply_open(whole.into_act()),
            Phase10::Running => self.apply_running(channel, whole),
            Phase10::SaslHeader | Phase10::AmqpHeader | Phase10::Closing | Phase10::Closed => {
                let_go(whole)
            }
        }
    }

    // ---- the login

    /// A performative where sasl-mechanisms is awaited.
    fn apply_offer(&mut self, whole: Whole10) -> Want10
        ensures state { self.new ≡ (mechanisms_effect self.old (field whole.0.1 0)
            (act_of whole.0)).0 }
        ensures want { meaning_of result ≡ (mechanisms_effect self.old (field whole.0.1 0)
            (act_of whole.0)).1 }
    {
        let want = self.apply_mechanisms(whole.perf());
        drop(whole);
        want
    }

    /// The same by the performative alone.
    #[tactic(auto, unfolding(crate::specs::Reading::act_of, crate::specs::Parts::parts_of))]
    fn apply_mechanisms(&mut self, perf: &Perf) -> Want10
        ensures state { self.new ≡ (mechanisms_effect self.old (field (parts_of perf.now).1 0)
            (act_of (parts_of perf.now))).0 }
        ensures want { meaning_of result ≡ (mechanisms_effect self.old (field
            (parts_of perf.now).1 0) (act_of (parts_of perf.now))).1 }
    {
        match perf {
            Perf::SaslMechanisms(offer) => self.choose(&offer.mechanisms),
            _ => self.apply_login(act_of(perf)),
        }
    }

    /// The wanted mechanism is offered, or the login is refused.
    #[tactic(auto, unfolding(crate::specs::Transitions::meaning_of))]
    fn choose(&mut self, mechanisms: &Value10) -> Want10
        ensures state { self.new ≡ (offer_effect self.old (value_tree mechanisms.now)).0 }
        ensures want { meaning_of result ≡ (offer_effect self.old (value_tree mechanisms.now)).1 }
    {
        if offers(self.mechanism.as_slice(), mechanisms) {
            self.phase = Phase10::Outcome;
            Want10::Init
        } else {
            self.phase = Phase10::Closed;
            Want10::Refused
        }
    }

    /// A performative where sasl-outcome is awaited.
    fn apply_login(&mut self, act: Act10) -> Want10
        ensures state { self.new ≡ (login_effect self.old act).0 }
        ensures want { meaning_of result ≡ (login_effect self.old act).1 }
    {
        match act {
            Act10::Outcome(code) => self.come_out(code),
            _ => nothing(),
        }
    }

    /// How the login came out.
    #[tactic(auto, unfolding(crate::specs::Transitions::meaning_of))]
    fn come_out(&mut self, code: u8) -> Want10
        ensures state { self.new ≡ (outcome_effect self.old code).0 }
        ensures want { meaning_of result ≡ (outcome_effect self.old code).1 }
    {
        if code == 0 {
            self.phase = Phase10::AmqpHeader;
            self.stream = Stream10::Header(Kind10::Amqp);
            Want10::AmqpHeader
        } else {
            self.phase = Phase10::Closed;
            Want10::Refused
        }
    }

    // ---- the open

    /// A performative where the open is awaited.
    #[tactic(auto, unfolding(crate::specs::Transitions::meaning_of))]
    fn apply_open(&mut self, act: Act10) -> Want10
        ensures state { self.new ≡ (open_effect self.old act).0 }
        ensures want { meaning_of result ≡ (open_effect self.old act).1 }
    {
        match act {
            Act10::Open(stated) => {
                self.phase = Phase10::Running;
                self.stated = stated;
                Want10::Opened
            }
            _ => nothing(),
        }
    }

    // ---- sessions

    /// A performative once the connection runs.
    fn apply_running(&mut self, channel: u16, whole: Whole10) -> Want10
        ensures state { self.new ≡ (running_effect self.old channel
            (act_of whole.0) whole.0 whole.1).0 }
        ensures want { meaning_of result ≡ (running_effect self.old channel
            (act_of whole.0) whole.0 whole.1).1 }
    {
        match whole.act() {
            Act10::Begin(remote) => self.apply_begin(channel, remote, whole),
            Act10::Settle(_, _) | Act10::Within => match self.session_of(channel) {
                Some(own) => whole.for_session(own),
                None => let_go(whole),
            },
            Act10::End => self.apply_end(channel, whole),
            Act10::Close => self.apply_close(whole),
            _ => let_go(whole),
        }
    }

    /// A begin on the container's channel, for one of the gateway's.
    fn apply_begin(&mut self, channel: u16, remote: Option<u16>, whole: Whole10) -> Want10
        ensures state { self.new ≡ (begin_effect self.old channel remote whole.0 whole.1).0 }
        ensures want { meaning_of result ≡
            (begin_effect self.old channel remote whole.0 whole.1).1 }
    {
        let Some(own) = remote else {
            return let_go(whole);
        };
        match self.session(own) {
            Session::Asked => {
                self.set_session(own, Session::Open(channel));
                whole.for_session(own)
            }
            Session::Left => {
                self.set_session(own, Session::Leaving(channel));
                let_go(whole)
            }
            Session::Free | Session::Open(_) | Session::Leaving(_) | Session::Ended(_) => {
                let_go(whole)
            }
        }
    }

    /// An end.
    fn apply_end(&mut self, channel: u16, whole: Whole10) -> Want10
        ensures state { self.new ≡ (end_effect self.old
            (session_of self.old channel) whole.0 whole.1).0 }
        ensures want { meaning_of result ≡ (end_effect self.old
            (session_of self.old channel) whole.0 whole.1).1 }
    {
        let Some(own) = self.session_of(channel) else {
            return let_go(whole);
        };
        match self.session(own) {
            Session::Open(number) => self.set_session(own, Session::Ended(number)),
            Session::Leaving(_) => self.set_session(own, Session::Free),
            Session::Free | Session::Asked | Session::Left | Session::Ended(_) => {
                return let_go(whole);
            }
        }
        whole.for_session(own)
    }

    /// The container's close.
    #[tactic(auto, unfolding(crate::specs::Transitions::meaning_of))]
    fn apply_close(&mut self, whole: Whole10) -> Want10
        requires { act_of whole.0 ≡ act.Close }
        ensures state { self.new ≡ (close_effect self.old (field whole.0.1 0)).0 }
        ensures want { meaning_of result ≡ (close_effect self.old (field whole.0.1 0)).1 }
    {
        self.phase = Phase10::Closed;
        self.stream = Stream10::Closed;
        Want10::Closed(whole.into_error())
    }

    // ---- after a violation

    /// A unit after one that was refused: what counts on a connection that runs still does.
    fn take_closing(&mut self, alloc: Global, unit: &Unit10) -> Result<Want10, Memory>
        ensures state { OnOk result (self.new ≡ (closing_step self.old unit.now).0) }
        ensures want { IfOk result (λ want. meaning_of want ≡ (closing_step self.old unit.now).1) }
        ensures err { OnErr result (self.new ≡ self.old) }
    {
        let frame = match unit {
            Unit10::Header(_) | Unit10::Bad(_) => return Ok(self.pass_over(unit)),
            Unit10::Frame(frame) => frame,
        };
        match read_body(alloc, frame) {
            Ok(body) => Ok(self.take_late_body(frame.kind, frame.channel, body)),
            Err(memory) => Err(memory),
        }
    }

    /// The body of a frame after a violation.
    fn take_late_body(&mut self, kind: Kind10, channel: u16, body: Body10) -> Want10
        ensures state { self.new ≡ (late_body_step self.old kind channel (body_of body)).0 }
        ensures want { meaning_of result ≡ (late_body_step self.old kind channel (body_of body)).1 }
    {
        match check_body(self, Phase10::Running, kind, channel, &body) {
            Some(_) => {
                drop(body);
                nothing()
            }
            None => self.apply_body(Phase10::Running, channel, body),
        }
    }

    /// A unit that is passed over.
    fn pass_over(&mut self, unit: &Unit10) -> Want10
        ensures state { self.new ≡ (closed_step self.old unit.now).0 }
        ensures want { meaning_of result ≡ (closed_step self.old unit.now).1 }
    {
        self.stream = stream_after(unit, self.stream);
        nothing()
    }
}
