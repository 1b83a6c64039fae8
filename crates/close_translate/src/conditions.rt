//! The reply code for an error condition of AMQP 1.0, and the condition for a reply code.

ghost use Rattle.std.specs.Prelude.{◌≡◌};
ghost use Rattle.std.specs.Option.{option_map};
ghost use Rattle.std.specs.Str.{bytes_eq};
ghost use Rattle.close_translate.specs.Conditions.{code_by, codes_of, condition_of};

use crate::codes::{
    ACCESS_REFUSED, CHANNEL_ERROR, COMMAND_INVALID, CONNECTION_FORCED, CONTENT_TOO_LARGE,
    FRAME_ERROR, INTERNAL_ERROR, NOT_ALLOWED, NOT_FOUND, NOT_IMPLEMENTED, PRECONDITION_FAILED,
    RESOURCE_ERROR, RESOURCE_LOCKED, SYNTAX_ERROR, UNEXPECTED_FRAME,
};
use performatives_10::Condition;

/// What closes.
#[derive(Clone, Copy, Debug, PartialEq, Eq)]
pub enum Scope {
    Channel,
    Connection,
}

/// The reply codes of a channel and of a connection for one condition.
#[derive(Clone, Copy, Debug)]
struct Replies {
    channel: u16,
    connection: u16,
}

fn pair_of(channel: u16, connection: u16) -> Replies
    ensures { result ≡ record { channel = channel; connection = connection } }
{
    Replies {
        channel,
        connection,
    }
}

fn is_named(condition: &[u8], name: &[u8]) -> bool
    ensures { result ≡ bytes_eq condition.now name.now }
{
    condition == name
}

/// The codes for a condition by its name.
fn codes_of(condition: &[u8]) -> Replies
    ensures { result ≡ codes_of condition.now }
{
    if is_named(condition, b"amqp:unauthorized-access") {
        pair_of(ACCESS_REFUSED, NOT_ALLOWED)
    } else if is_named(condition, b"amqp:not-allowed") {
        pair_of(ACCESS_REFUSED, NOT_ALLOWED)
    } else if is_named(condition, b"amqp:not-found") {
        pair_of(NOT_FOUND, INTERNAL_ERROR)
    } else if is_named(condition, b"amqp:resource-deleted") {
        pair_of(NOT_FOUND, INTERNAL_ERROR)
    } else if is_named(condition, b"amqp:resource-locked") {
        pair_of(RESOURCE_LOCKED, INTERNAL_ERROR)
    } else if is_named(condition, b"amqp:connection:forced") {
        pair_of(PRECONDITION_FAILED, CONNECTION_FORCED)
    } else if is_named(condition, b"amqp:connection:redirect") {
        pair_of(PRECONDITION_FAILED, CONNECTION_FORCED)
    } else if is_named(condition, b"amqp:connection:framing-error") {
        pair_of(PRECONDITION_FAILED, FRAME_ERROR)
    } else if is_named(condition, b"amqp:frame-size-too-small") {
        pair_of(PRECONDITION_FAILED, FRAME_ERROR)
    } else if is_named(condition, b"amqp:decode-error") {
        pair_of(PRECONDITION_FAILED, SYNTAX_ERROR)
    } else if is_named(condition, b"amqp:invalid-field") {
        pair_of(PRECONDITION_FAILED, SYNTAX_ERROR)
    } else if is_named(condition, b"amqp:resource-limit-exceeded") {
        pair_of(PRECONDITION_FAILED, RESOURCE_ERROR)
    } else if is_named(condition, b"amqp:not-implemented") {
        pair_of(PRECONDITION_FAILED, NOT_IMPLEMENTED)
    } else {
        pair_of(PRECONDITION_FAILED, INTERNAL_ERROR)
    }
}

/// The reply code with which a channel or a connection of AMQP 0-9-1 closes where its session or
/// connection of AMQP 1.0 ended with this error condition (AMQP 1.0 2.8.15 to 2.8.18), or without
/// one.
pub fn code_of(condition: Option<&[u8]>, scope: Scope) -> u16
    ensures { result ≡ code_by (option_map (λ name. name.now) condition.entry) scope }
{
    let codes = match condition {
        None => pair_of(PRECONDITION_FAILED, CONNECTION_FORCED),
        Some(name) => codes_of(name),
    };
    match scope {
        Scope::Channel => codes.channel,
        Scope::Connection => codes.connection,
    }
}

/// The error condition with which the gateway ends a session or closes a connection of AMQP 1.0
/// where it refused the client with this reply code (AMQP 1.0 2.8.15 to 2.8.18).
pub fn condition_of(code: u16) -> Condition
    ensures { result ≡ condition_of code }
{
    match code {
        CONTENT_TOO_LARGE => Condition::MessageSizeExceeded,
        CONNECTION_FORCED => Condition::ConnectionForced,
        ACCESS_REFUSED => Condition::NotAllowed,
        NOT_ALLOWED => Condition::NotAllowed,
        NOT_FOUND => Condition::NotFound,
        RESOURCE_LOCKED => Condition::ResourceLocked,
        PRECONDITION_FAILED => Condition::PreconditionFailed,
        FRAME_ERROR => Condition::IllegalState,
        CHANNEL_ERROR => Condition::IllegalState,
        UNEXPECTED_FRAME => Condition::IllegalState,
        SYNTAX_ERROR => Condition::DecodeError,
        COMMAND_INVALID => Condition::NotAllowed,
        RESOURCE_ERROR => Condition::ResourceLimitExceeded,
        NOT_IMPLEMENTED => Condition::NotImplemented,
        _ => Condition::InternalError,
    }
}
