//! The transitions of a connection: for each phase and unit the state after it and what the unit
//! wants, and what the other calls change. No other file sets a phase, a stream or a channel.

ghost use Rattle.std.specs.Prelude.{◌≡◌, true, [], None, Some, Ok, IfOk, OnOk, OnErr};
ghost use Rattle.frames_091.specs.declared.frame.Kind91.TheVariants as kind;
ghost use Rattle.methods_091.specs.View.{kind_of, args_of, parts_of};
ghost use Rattle.machine_091.specs.Calls.{after_opened, after_closing, after_told, after_closed};
ghost use Rattle.machine_091.specs.Calls.{after_ended};
ghost use Rattle.machine_091.specs.Checked.{IsCounted};
ghost use Rattle.machine_091.specs.Contents.{IsOfContent};
ghost use Rattle.machine_091.specs.Ids.{is_of_kind};
ghost use Rattle.machine_091.specs.Laws.{frame_of};
ghost use Rattle.machine_091.specs.Limits.{agreed_limits};
ghost use Rattle.machine_091.specs.Methods.{text_at, number_at};
ghost use Rattle.machine_091.specs.RefusalsOpening.{is_expected};
ghost use Rattle.machine_091.specs.RefusalsRunning.{running_state, running_refusal};
ghost use Rattle.machine_091.specs.State.{is_running, channel_at, with_channel};
ghost use Rattle.machine_091.specs.declared.state.Channel91.TheVariants.{Free};
ghost use Rattle.machine_091.specs.Transitions.{header_step, stream_after, refused, ruled_step};
ghost use Rattle.machine_091.specs.Transitions.{is_unit_of, opening_effect, running_effect};
ghost use Rattle.machine_091.specs.Transitions.{method_effect, ordered_step, closed_by};
ghost use Rattle.machine_091.specs.Transitions.{closed_step, closing_step, unit_step};
ghost use Rattle.machine_091.specs.declared.unit.Unit91.TheVariants.{Frame};
ghost use Rattle.machine_091.specs.declared.unit.Want91.TheVariants as want;

use crate::contents::Fed;
use crate::ids::{
    CONNECTION_CLOSE, CONNECTION_CLOSE_OK, CONNECTION_START_OK, CONNECTION_TUNE_OK, is_method,
};
use crate::limits::{Limits, agreed_limits, own_limits};
use crate::refusals::{channel_of, channel_refusal, check_method, publish_refusal, refusal_of};
use crate::refusals_contents::{fault_ruling, immediate_order};
use crate::refusals_frames::{content_place, heartbeat_order};
use crate::state::{Channel91, Connection, Phase91, Stream91};
use crate::unit::{Ruling, Unit91, Want91};
use close_translate::{FRAME_ERROR, NOT_ALLOWED, Scope};
use frames_091::{Frame91, Kind91};
use methods_091::{Method91, read_method};
use std::alloc::Global;
use wire_base::{ByteText, Memory};

/// What the client's bytes are after a unit.
fn stream_after(unit: &Unit91, stream: Stream91) -> Stream91
    ensures { result ≡ stream_after unit.now stream }
{
    match unit {
        Unit91::Protocol => match stream {
            Stream91::Header => Stream91::Frames,
            _ => stream,
        },
        Unit91::Frame(_) => stream,
        Unit91::Bad(_) => Stream91::Bad,
    }
}

/// The login of a start-ok.
fn login_in(method: Method91) -> Want91
    requires { is_of_kind CONNECTION_START_OK (kind_of method) ≡ true }
    ensures { result ≡ want.Login (text_at 1 (args_of method)) (text_at 2 (args_of method)) }
{
    match method {
        Method91::ConnectionStartOk {
            mechanism,
            response,
            ..
        } => Want91::Login(mechanism, response),
        _ => Want91::Nothing,
    }
}

/// The limits of a tune-ok.
fn limits_in(method: &Method91) -> Limits
    requires { is_of_kind CONNECTION_TUNE_OK (kind_of method.now) ≡ true }
    ensures { result ≡ agreed_limits (number_at 0 (args_of method.now)) (number_at 1
        (args_of method.now)) (number_at 2 (args_of method.now)) }
{
    match method {
        Method91::ConnectionTuneOk {
            channel_max,
            frame_max,
            heartbeat,
        } => agreed_limits(*channel_max, *frame_max, *heartbeat),
        _ => own_limits(),
    }
}

/// A channel that its client closes.
fn closed_by(state: Channel91) -> Channel91
    ensures { result ≡ closed_by state }
{
    match state {
        Channel91::Free | Channel91::Open | Channel91::Closing => Channel91::Closing,
        Channel91::Told => Channel91::Told,
    }
}

impl Connection {
    // ---- the calls

    /// Takes a unit.
    pub(crate) fn take(&mut self, alloc: Global, unit: Unit91) -> Result<Want91, Memory>
        ensures state { OnOk result (self.new ≡ (unit_step self.old unit).0) }
        ensures want { IfOk result (λ want. want ≡ (unit_step self.old unit).1) }
        ensures err { OnErr result (self.new ≡ self.old) }
    {
        match self.phase {
            Phase91::Header => Ok(self.take_header(&unit)),
            Phase91::Start | Phase91::Tune | Phase91::Open | Phase91::Running => {
                self.take_ordered(alloc, unit)
            }
            Phase91::Closing => self.take_closing(alloc, &unit),
            Phase91::Closed => self.take_closed(alloc, &unit),
        }
    }

    /// The container upstream opened, and takes channels up to this number.
    pub(crate) fn open(&mut self, channel_max: u16)
        ensures { self.new ≡ after_opened channel_max self.old }
    {
        self.carried_max = channel_max;
        if self.is_opening() {
            self.phase = Phase91::Running;
        }
    }

    /// A closing event came that no unit told.
    pub(crate) fn begin_close(&mut self, scope: Scope, channel: u16)
        ensures { self.new ≡ after_closing scope channel self.old }
    {
        match scope {
            Scope::Channel => {
                if self.channel(channel) == Channel91::Open {
                    self.set_channel(channel, Channel91::Closing);
                    self.drop_content(channel);
                }
            }
            Scope::Connection => {
                if self.phase != Phase91::Closing && self.phase != Phase91::Closed {
                    self.phase = Phase91::Closing;
                    self.drop_contents();
                }
            }
        }
    }

    /// The gateway's channel.close of a closing channel was sent.
    pub(crate) fn tell_channel(&mut self, channel: u16)
        ensures { self.new ≡ after_told channel self.old }
    {
        if self.channel(channel) == Channel91::Closing {
            self.set_channel(channel, Channel91::Told);
        }
    }

    /// The gateway's channel.close-ok of a channel was sent.
    pub(crate) fn free_channel(&mut self, channel: u16)
        ensures { self.new ≡ after_closed channel self.old }
    {
        if self.channel(channel) == Channel91::Closing {
            self.set_channel(channel, Channel91::Free);
        }
    }

    /// The client's end ended.
    pub(crate) fn end(&mut self)
        ensures { self.new ≡ after_ended self.old }
    {
        self.phase = Phase91::Closed;
        self.stream = Stream91::Ended;
        self.drop_contents();
    }

    // ---- the first unit

    /// The protocol header, or bytes that are none.
    fn take_header(&mut self, unit: &Unit91) -> Want91
        ensures state { self.new ≡ (header_step self.old unit.now).0 }
        ensures want { result ≡ (header_step self.old unit.now).1 }
    {
        match unit {
            Unit91::Protocol => {
                self.phase = Phase91::Start;
                self.stream = Stream91::Frames;
                Want91::Start
            }
            Unit91::Frame(_) | Unit91::Bad(_) => {
                self.phase = Phase91::Closed;
                self.stream = Stream91::Foreign;
                Want91::Nothing
            }
        }
    }

    // ---- before the connection runs, and once it does

    /// A unit by the order of refusals.
    fn take_ordered(&mut self, alloc: Global, unit: Unit91) -> Result<Want91, Memory>
        ensures state { OnOk result (self.new ≡ (ordered_step self.old unit).0) }
        ensures want { IfOk result (λ want. want ≡ (ordered_step self.old unit).1) }
        ensures err { OnErr result (self.new ≡ self.old) }
    {
        match unit {
            Unit91::Protocol => Ok(self.rule(Ruling::Refused(FRAME_ERROR), &Unit91::Protocol)),
            Unit91::Bad(code) => Ok(self.rule(Ruling::Refused(code), &Unit91::Bad(code))),
            Unit91::Frame(frame) => match frame.kind {
                Kind91::Heartbeat => Ok(self.take_heartbeat(frame)),
                Kind91::Header | Kind91::Body => self.take_content(alloc, frame),
                Kind91::Method => self.take_method(alloc, frame),
            },
        }
    }

    /// A heartbeat.
    fn take_heartbeat(&mut self, frame: Frame91) -> Want91
        requires { frame.kind ≡ kind.Heartbeat }
        ensures state { self.new ≡ (ordered_step self.old (Frame frame)).0 }
        ensures want { result ≡ (ordered_step self.old (Frame frame)).1 }
    {
        match heartbeat_order(&frame) {
            Some(ruling) => self.rule(ruling, &Unit91::Frame(frame)),
            None => Want91::Nothing,
        }
    }

    /// A method.
    fn take_method(&mut self, alloc: Global, frame: Frame91) -> Result<Want91, Memory>
        requires { frame.kind ≡ kind.Method }
        ensures state { OnOk result (self.new ≡ (ordered_step self.old (Frame frame)).0) }
        ensures want { IfOk result (λ want. want ≡ (ordered_step self.old (Frame frame)).1) }
        ensures err { OnErr result (self.new ≡ self.old) }
    {
        match check_method(alloc, self, &frame)? {
            Err(ruling) => Ok(self.rule(ruling, &Unit91::Frame(frame))),
            Ok(method) => self.apply(alloc, frame.channel, method),
        }
    }

    /// A content header or a body frame, whose payload may become the body of the content.
    fn take_content(&mut self, alloc: Global, frame: Frame91) -> Result<Want91, Memory>
        requires { IsOfContent frame.kind }
        ensures state { OnOk result (self.new ≡ (ordered_step self.old (Frame frame)).0) }
        ensures want { IfOk result (λ want. want ≡ (ordered_step self.old (Frame frame)).1) }
        ensures err { OnErr result (self.new ≡ self.old) }
    {
        let Frame91 { kind, channel, .. } = frame;
        if let Some(ruling) = content_place(self, channel) {
            return Ok(self.rule_content(alloc, ruling, kind, channel));
        }
        match self.feed(alloc, frame)? {
            Err(fault) => Ok(self.rule_content(alloc, fault_ruling(fault), kind, channel)),
            Ok(Fed::More) => Ok(Want91::Nothing),
            Ok(Fed::Whole(method, content)) => match immediate_order(&method) {
                Some(ruling) => Ok(self.rule_content(alloc, ruling, kind, channel)),
                None => Ok(Want91::Publish(channel, method, content)),
            },
        }
    }

    /// What the order of refusals says of a content header or a body frame, whatever its payload
    /// was.
    fn rule_content(&mut self, alloc: Global, ruling: Ruling, kind: Kind91, channel: u16) -> Want91
        ensures state { self.new
            ≡ (ruled_step self.old (Frame (frame_of kind channel [])) (Some ruling)).0 }
        ensures want { result
            ≡ (ruled_step self.old (Frame (frame_of kind channel [])) (Some ruling)).1 }
    {
        let payload = ByteText::empty(alloc);
        let unit = Unit91::Frame(Frame91 {
            kind,
            channel,
            payload,
        });
        self.rule(ruling, &unit)
    }

    /// What the order of refusals says of a unit.
    fn rule(&mut self, ruling: Ruling, unit: &Unit91) -> Want91
        ensures state { self.new ≡ (ruled_step self.old unit.now (Some ruling)).0 }
        ensures want { result ≡ (ruled_step self.old unit.now (Some ruling)).1 }
    {
        match ruling {
            Ruling::PassedOver => Want91::Nothing,
            Ruling::Refused(code) => {
                self.refuse(code, unit);
                Want91::Refuse(refusal_of(code, unit))
            }
            Ruling::MethodRefused(code) => {
                self.refuse(code, unit);
                Want91::Refuse(publish_refusal(code))
            }
            Ruling::ChannelRefused(code) => {
                let channel = channel_of(unit);
                self.begin_close(Scope::Channel, channel);
                Want91::Refuse(channel_refusal(code, channel))
            }
        }
    }

    /// The connection closes by a refusal with this reply code.
    fn refuse(&mut self, code: u16, unit: &Unit91)
        ensures { self.new ≡ refused self.old unit.now code }
    {
        self.asked |= self.phase == Phase91::Open && code == NOT_ALLOWED;
        self.phase = Phase91::Closing;
        self.stream = stream_after(unit, self.stream);
        self.drop_contents();
    }

    /// A method that counts.
    fn apply(&mut self, alloc: Global, channel: u16, method: Method91) -> Result<Want91, Memory>
        requires { IsCounted (is_running self.old.phase) self.old channel method }
        ensures state { OnOk result (self.new ≡ (method_effect self.old channel (Ok
            (parts_of method))).0) }
        ensures want { IfOk result (λ want. want ≡ (method_effect self.old channel (Ok
            (parts_of method))).1) }
        ensures err { OnErr result (self.new ≡ self.old) }
    {
        if self.is_running() {
            self.apply_running(alloc, channel, method)
        } else {
            Ok(self.apply_opening(method))
        }
    }

    /// The expected method.
    fn apply_opening(&mut self, method: Method91) -> Want91
        requires { is_expected self.old (kind_of method) ≡ true }
        ensures state { self.new ≡ (opening_effect self.old (args_of method) self.old.phase).0 }
        ensures want { result ≡ (opening_effect self.old (args_of method) self.old.phase).1 }
    {
        match self.phase {
            Phase91::Start => {
                self.phase = Phase91::Tune;
                login_in(method)
            }
            Phase91::Tune => {
                self.phase = Phase91::Open;
                self.limits = limits_in(&method);
                Want91::Tuned
            }
            Phase91::Open => {
                self.asked = true;
                Want91::OpenUp
            }
            Phase91::Header | Phase91::Running | Phase91::Closing | Phase91::Closed => {
                Want91::Nothing
            }
        }
    }

    /// The client closes a channel.
    fn close_channel(&mut self, channel: u16)
        ensures { self.new ≡ with_channel self.old channel (closed_by
            (channel_at self.old channel)) }
    {
        let state = closed_by(self.channel(channel));
        self.set_channel(channel, state);
    }

    /// The client answers the gateway's channel.close.
    fn end_channel(&mut self, channel: u16) -> Want91
        ensures state { self.new ≡ with_channel self.old channel Free }
        ensures want { result ≡ want.ChannelCloseOk channel }
    {
        self.set_channel(channel, Channel91::Free);
        Want91::ChannelCloseOk(channel)
    }

    /// A method once the connection runs: on channel 0 it is connection.close.
    fn apply_running(
        &mut self,
        alloc: Global,
        channel: u16,
        method: Method91,
    ) -> Result<Want91, Memory>
        requires state { running_state (channel_at self.old channel) channel (kind_of method)
            ≡ None }
        requires own { running_refusal self.old.carried_max channel (kind_of method)
            (args_of method) ≡ None }
        ensures state { OnOk result (self.new ≡ (running_effect self.old channel (kind_of method)
            (args_of method)).0) }
        ensures want { IfOk result (λ want. want ≡ (running_effect self.old channel
            (kind_of method) (args_of method)).1) }
        ensures err { OnErr result (self.new ≡ self.old) }
    {
        if channel == 0 {
            self.phase = Phase91::Closed;
            self.drop_contents();
            return Ok(Want91::Close);
        }
        match method {
            Method91::ChannelOpen => self.set_channel(channel, Channel91::Open),
            Method91::ChannelClose { .. } => self.close_channel(channel),
            Method91::ChannelCloseOk => return Ok(self.end_channel(channel)),
            Method91::BasicPublish { .. } => {
                self.begin_content(alloc, channel, method)?;
                return Ok(Want91::Nothing);
            }
            _ => {}
        }
        Ok(Want91::Method(channel, method))
    }

    // ---- after a closing event

    /// A unit after a closing event.
    fn take_closing(&mut self, alloc: Global, unit: &Unit91) -> Result<Want91, Memory>
        ensures state { OnOk result (self.new ≡ (closing_step self.old unit.now).0) }
        ensures want { IfOk result (λ want. want ≡ (closing_step self.old unit.now).1) }
        ensures err { OnErr result (self.new ≡ self.old) }
    {
        let ending = ending_in(alloc, unit)?;
        if ending.closes {
            self.phase = Phase91::Closed;
            return Ok(Want91::Close);
        }
        Ok(self.end_by(ending, unit))
    }

    /// A unit after the client's close.
    fn take_closed(&mut self, alloc: Global, unit: &Unit91) -> Result<Want91, Memory>
        ensures state { OnOk result (self.new ≡ (closed_step self.old unit.now).0) }
        ensures want { IfOk result (λ want. want ≡ (closed_step self.old unit.now).1) }
        ensures err { OnErr result (self.new ≡ self.old) }
    {
        let ending = ending_in(alloc, unit)?;
        Ok(self.end_by(ending, unit))
    }

    /// The client's answer to the gateway's close, or a unit that is passed over.
    fn end_by(&mut self, ending: Ending, unit: &Unit91) -> Want91
        requires { ending.answers ≡ is_unit_of CONNECTION_CLOSE_OK unit.now }
        ensures state { self.new ≡ (closed_step self.old unit.now).0 }
        ensures want { result ≡ (closed_step self.old unit.now).1 }
    {
        if ending.answers {
            self.phase = Phase91::Closed;
            self.stream = Stream91::Answered;
            Want91::CloseOk
        } else {
            self.stream = stream_after(unit, self.stream);
            Want91::Nothing
        }
    }
}

/// What a unit is to a connection that closes.
#[derive(Clone, Copy)]
struct Ending {
    /// It is connection.close.
    closes: bool,
    /// It is connection.close-ok.
    answers: bool,
}

/// What a unit is to a connection that closes: a method frame on channel 0 may be its close or its
/// close-ok.
fn ending_in(alloc: Global, unit: &Unit91) -> Result<Ending, Memory>
    ensures closes { IfOk result (λ ending. ending.closes ≡ is_unit_of CONNECTION_CLOSE unit.now) }
    ensures answers { IfOk result (λ ending. ending.answers
        ≡ is_unit_of CONNECTION_CLOSE_OK unit.now) }
{
    let other = Ending {
        closes: false,
        answers: false,
    };
    let Unit91::Frame(frame) = unit else {
        return Ok(other);
    };
    let Kind91::Method = frame.kind else {
        return Ok(other);
    };
    if frame.channel != 0 {
        return Ok(other);
    }
    match read_method(alloc, frame.payload.as_slice())? {
        Err(_) => Ok(other),
        Ok(method) => Ok(Ending {
            closes: is_method(&method, CONNECTION_CLOSE),
            answers: is_method(&method, CONNECTION_CLOSE_OK),
        }),
    }
}
