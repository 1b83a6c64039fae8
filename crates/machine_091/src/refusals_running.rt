//! The places of the order of refusals that ask of a method once the connection runs: its class on
//! channel 0, its state, and whether this gateway does it.

ghost use Rattle.std.specs.Prelude.{◌≡◌};
ghost use Rattle.methods_091.specs.View.{kind_of, args_of};
ghost use Rattle.machine_091.specs.RefusalsRunning.{carried_order, class_order, is_servers};
ghost use Rattle.machine_091.specs.RefusalsRunning.{answer_order, running_state, is_done};
ghost use Rattle.machine_091.specs.RefusalsRunning.{running_refusal};

use crate::ids::{
    BASIC_DELIVER, BASIC_GET_EMPTY, BASIC_RETURN, CHANNEL_CLOSE_OK, CHANNEL_OPEN, CONNECTION,
    CONNECTION_CLOSE, ids_in, is_method,
};
use crate::state::Channel91;
use crate::unit::Ruling;
use close_translate::{COMMAND_INVALID, NOT_IMPLEMENTED, RESOURCE_ERROR};
use methods_091::{Method91, ids};

/// On channel 0 a method of another class than connection.
pub(crate) fn class_order(channel: u16, payload: &[u8]) -> Option<Ruling>
    ensures { result ≡ class_order channel payload.now }
{
    let (class, _) = ids_in(payload);
    if channel != 0 || payload.len() < 4 || class == CONNECTION {
        None
    } else {
        Some(Ruling::Refused(COMMAND_INVALID))
    }
}

/// The methods that a server sends and no client does.
fn is_servers(method: &Method91) -> bool
    ensures { result ≡ is_servers (kind_of method.now) }
{
    let (_, id) = ids(method);
    id % 10 == 1
        || is_method(method, BASIC_RETURN)
        || is_method(method, BASIC_DELIVER)
        || is_method(method, BASIC_GET_EMPTY)
}

/// A channel.close-ok where no channel.close is to be answered.
fn answer_order(state: Channel91) -> Option<Ruling>
    ensures { result ≡ answer_order state }
{
    match state {
        Channel91::Free | Channel91::Open => Some(Ruling::Refused(COMMAND_INVALID)),
        Channel91::Closing | Channel91::Told => None,
    }
}

/// A method out of its state.
pub(crate) fn running_state(state: Channel91, channel: u16, method: &Method91) -> Option<Ruling>
    ensures { result ≡ running_state state channel (kind_of method.now) }
{
    let (class, _) = ids(method);
    let in_place = if channel == 0 {
        is_method(method, CONNECTION_CLOSE)
    } else if class == CONNECTION {
        false
    } else if is_method(method, CHANNEL_CLOSE_OK) {
        return answer_order(state);
    } else {
        !is_servers(method)
    };
    if in_place {
        None
    } else {
        Some(Ruling::Refused(COMMAND_INVALID))
    }
}

/// A channel that the container upstream can't carry.
fn carried_order(carried_max: u16, channel: u16) -> Option<Ruling>
    ensures { result ≡ carried_order carried_max channel }
{
    if carried_max < channel {
        Some(Ruling::Refused(RESOURCE_ERROR))
    } else {
        None
    }
}

/// Whether a method is done on a channel that the container carries. channel.flow isn't where it
/// stops the flow, queue.declare where the server is to name the queue, basic.qos where it limits
/// the prefetch in octets, and basic.recover and basic.recover-async where the messages aren't to
/// be requeued.
fn is_done(method: &Method91) -> bool
    ensures { result ≡ is_done (kind_of method.now) (args_of method.now) }
{
    match method {
        Method91::ChannelFlow { active } => *active,
        Method91::QueueDeclare { queue, .. } => !queue.as_slice().is_empty(),
        Method91::BasicQos { prefetch_size, .. } => *prefetch_size == 0,
        Method91::BasicRecover { requeue } | Method91::BasicRecoverAsync { requeue } => *requeue,
        Method91::ChannelClose { .. }
        | Method91::ChannelCloseOk
        | Method91::ExchangeDeclare { .. }
        | Method91::BasicConsume { .. }
        | Method91::BasicGet { .. }
        | Method91::BasicCancel { .. }
        | Method91::BasicPublish { .. }
        | Method91::BasicAck { .. }
        | Method91::BasicReject { .. }
        | Method91::BasicNack { .. }
        | Method91::ConfirmSelect { .. } => true,
        _ => false,
    }
}

/// A channel that the container upstream can't carry, and a method that this gateway doesn't do.
pub(crate) fn running_refusal(carried_max: u16, channel: u16, method: &Method91) -> Option<Ruling>
    ensures { result ≡ running_refusal carried_max channel (kind_of method.now)
        (args_of method.now) }
{
    if channel == 0 {
        None
    } else if is_method(method, CHANNEL_OPEN) {
        carried_order(carried_max, channel)
    } else if is_done(method) {
        None
    } else {
        Some(Ruling::Refused(NOT_IMPLEMENTED))
    }
}
