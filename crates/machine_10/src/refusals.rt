//! The order of refusals: which frames count, and the condition of one that doesn't.

ghost use Rattle.std.specs.Prelude.{◌≡◌};
ghost use Rattle.machine_10.specs.Reading.{body_of};
ghost use Rattle.machine_10.specs.Refusals.{is_needed, kind_order, layer_of, fault_condition};
ghost use Rattle.machine_10.specs.Refusals.{login_order};
ghost use Rattle.machine_10.specs.Refusals.{open_order, answer_order, begin_order, within_order};
ghost use Rattle.machine_10.specs.Refusals.{running_order};
ghost use Rattle.machine_10.specs.Refusals.{order_in, refused, within_passed, end_passed};
ghost use Rattle.machine_10.specs.Refusals.{passed_in};
ghost use Rattle.machine_10.specs.Refusals.{first, range_place, perf_places, body_ruling};
ghost use Rattle.performatives_10.specs.declared.condition.Condition.TheVariants as condition;

use crate::reading::is_out_of_range;
use crate::state::{Phase10, Session, Upstream};
use crate::unit::{Act10, Body10, Ruling10};
use frames_10::Kind10;
use performatives_10::{Condition, PerfFault};

/// Whether a phase needs frames of this kind.
fn is_needed(phase: Phase10, kind: Kind10) -> bool
    ensures { result ≡ is_needed phase kind }
{
    match kind {
        Kind10::Sasl => matches!(phase, Phase10::Mechanisms | Phase10::Outcome),
        Kind10::Amqp => matches!(phase, Phase10::Open | Phase10::Running),
    }
}

/// A frame of the other kind than the phase needs.
fn kind_order(phase: Phase10, kind: Kind10) -> Option<Ruling10>
    ensures { result ≡ kind_order phase kind }
{
    if is_needed(phase, kind) {
        None
    } else {
        Some(Ruling10::Violated(Condition::FramingError))
    }
}

/// The layer that a performative is of.
fn layer_of(act: Act10) -> Kind10
    ensures { result ≡ layer_of act }
{
    match act {
        Act10::Open(_)
        | Act10::Begin(_)
        | Act10::Settle(_, _)
        | Act10::Within
        | Act10::End
        | Act10::Close => Kind10::Amqp,
        Act10::Offer | Act10::Outcome(_) | Act10::Challenge | Act10::ClientLogin => Kind10::Sasl,
    }
}

fn fault_condition(fault: PerfFault) -> Condition
    ensures { result ≡ fault_condition fault }
{
    match fault {
        PerfFault::Value(_) | PerfFault::UnknownDescriptor => Condition::DecodeError,
        PerfFault::Missing(_) | PerfFault::WrongType(_) => Condition::InvalidField,
    }
}

fn not_allowed() -> Option<Ruling10>
    ensures { result ≡ refused condition.NotAllowed }
{
    Some(Ruling10::Violated(Condition::NotAllowed))
}

/// A challenge, which no mechanism of the gateway answers.
fn login_order(act: Act10) -> Option<Ruling10>
    ensures { result ≡ login_order act }
{
    match act {
        Act10::Challenge => not_allowed(),
        _ => None,
    }
}

/// A performative before the open.
fn open_order(act: Act10) -> Option<Ruling10>
    ensures { result ≡ open_order act }
{
    match act {
        Act10::Open(_) => None,
        _ => not_allowed(),
    }
}

/// A begin that answers none of the gateway's.
fn answer_order(session: Session) -> Option<Ruling10>
    ensures { result ≡ answer_order session }
{
    match session {
        Session::Asked | Session::Left => None,
        Session::Free | Session::Open(_) | Session::Leaving(_) | Session::Ended(_) => not_allowed(),
    }
}

/// A begin on a channel with a session, or one that answers none of the gateway's.
fn begin_order(conn: &Upstream, carried: Option<u16>, remote: Option<u16>) -> Option<Ruling10>
    ensures { result ≡ begin_order conn.now carried remote }
{
    match (carried, remote) {
        (None, Some(own)) => answer_order(conn.session(own)),
        (None, None) | (Some(_), _) => not_allowed(),
    }
}

/// A performative of a session on a channel without one.
fn within_order(carried: Option<u16>) -> Option<Ruling10>
    ensures { result ≡ within_order carried }
{
    match carried {
        None => not_allowed(),
        Some(_) => None,
    }
}

/// A performative out of its order once the connection runs.
fn running_order(conn: &Upstream, channel: u16, act: Act10) -> Option<Ruling10>
    ensures { result ≡ running_order conn.now channel act }
{
    match act {
        Act10::Open(_) => not_allowed(),
        Act10::Begin(remote) => begin_order(conn, conn.session_of(channel), remote),
        Act10::Settle(_, _) | Act10::Within | Act10::End => within_order(conn.session_of(channel)),
        Act10::Close | Act10::Offer | Act10::Outcome(_) | Act10::Challenge | Act10::ClientLogin =>
            None,
    }
}

/// A performative out of its order, in a phase.
fn order_in(phase: Phase10, conn: &Upstream, channel: u16, act: Act10) -> Option<Ruling10>
    ensures { result ≡ order_in phase conn.now channel act }
{
    match phase {
        Phase10::Mechanisms | Phase10::Outcome => login_order(act),
        Phase10::Open => open_order(act),
        Phase10::Running => running_order(conn, channel, act),
        Phase10::SaslHeader | Phase10::AmqpHeader | Phase10::Closing | Phase10::Closed => None,
    }
}

/// What belongs to a session after an end of either side.
fn within_passed(session: Session) -> Option<Ruling10>
    ensures { result ≡ within_passed session }
{
    match session {
        Session::Leaving(_) | Session::Ended(_) => Some(Ruling10::PassedOver),
        Session::Free | Session::Asked | Session::Left | Session::Open(_) => None,
    }
}

/// An end after the container's end.
fn end_passed(session: Session) -> Option<Ruling10>
    ensures { result ≡ end_passed session }
{
    match session {
        Session::Ended(_) => Some(Ruling10::PassedOver),
        _ => None,
    }
}

/// What belongs to a session that has ended.
fn passed_in(conn: &Upstream, carried: Option<u16>, act: Act10) -> Option<Ruling10>
    ensures { result ≡ passed_in conn.now carried act }
{
    let own = carried?;
    match act {
        Act10::Settle(_, _) | Act10::Within => within_passed(conn.session(own)),
        Act10::End => end_passed(conn.session(own)),
        _ => None,
    }
}

/// A number out of its range.
fn range_place(act: Act10) -> Option<Ruling10>
    ensures { result ≡ range_place act }
{
    if is_out_of_range(act) {
        Some(Ruling10::Violated(Condition::InvalidField))
    } else {
        None
    }
}

/// Checks a performative that stands in a frame of the needed kind, by the rules of a phase.
fn check_perf(phase: Phase10, conn: &Upstream, channel: u16, act: Act10) -> Option<Ruling10>
    ensures { result ≡ first (perf_places phase conn.now channel act) }
{
    if let Some(ruling) = kind_order(phase, layer_of(act)) {
        return Some(ruling);
    }
    if let Some(ruling) = range_place(act) {
        return Some(ruling);
    }
    if let Some(ruling) = order_in(phase, conn, channel, act) {
        return Some(ruling);
    }
    passed_in(conn, conn.session_of(channel), act)
}

/// Checks a frame against the order of refusals, by the rules of a phase: `None` where it counts.
#[tactic(auto, unfolding(crate::specs::Reading::body_of))]
pub(crate) fn check_body(
    conn: &Upstream,
    phase: Phase10,
    kind: Kind10,
    channel: u16,
    body: &Body10,
) -> Option<Ruling10>
    ensures { result ≡ body_ruling phase conn.now kind channel (body_of body.now) }
{
    if let Some(ruling) = kind_order(phase, kind) {
        return Some(ruling);
    }
    match body {
        Body10::Empty => None,
        Body10::Faulty(fault) => Some(Ruling10::Violated(fault_condition(*fault))),
        Body10::Whole(whole) => check_perf(phase, conn, channel, whole.act()),
    }
}
