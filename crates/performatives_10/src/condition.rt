//! The error conditions of AMQP 1.0 (2.8.15 to 2.8.18) that a gateway tells.

ghost use Rattle.std.specs.Prelude.{◌≡◌, ◌≤◌, length};
ghost use Rattle.performatives_10.specs.Conditions.{name_of};

/// An error condition (AMQP 1.0 2.8.15 to 2.8.18).
#[derive(Clone, Copy, Debug, PartialEq, Eq)]
pub enum Condition {
    InternalError,
    NotFound,
    UnauthorizedAccess,
    DecodeError,
    ResourceLimitExceeded,
    NotAllowed,
    InvalidField,
    NotImplemented,
    ResourceLocked,
    PreconditionFailed,
    ResourceDeleted,
    IllegalState,
    FrameSizeTooSmall,
    ConnectionForced,
    FramingError,
    ConnectionRedirect,
    WindowViolation,
    UnattachedHandle,
    HandleInUse,
    TransferLimitExceeded,
    MessageSizeExceeded,
}

/// The symbol of a condition: at most 33 bytes.
pub fn condition_name(condition: Condition) -> &'static [u8]
    ensures name { result.now ≡ name_of condition }
    ensures short { length result.now ≤ 33 }
{
    match condition {
        Condition::InternalError => b"amqp:internal-error",
        Condition::NotFound => b"amqp:not-found",
        Condition::UnauthorizedAccess => b"amqp:unauthorized-access",
        Condition::DecodeError => b"amqp:decode-error",
        Condition::ResourceLimitExceeded => b"amqp:resource-limit-exceeded",
        Condition::NotAllowed => b"amqp:not-allowed",
        Condition::InvalidField => b"amqp:invalid-field",
        Condition::NotImplemented => b"amqp:not-implemented",
        Condition::ResourceLocked => b"amqp:resource-locked",
        Condition::PreconditionFailed => b"amqp:precondition-failed",
        Condition::ResourceDeleted => b"amqp:resource-deleted",
        Condition::IllegalState => b"amqp:illegal-state",
        Condition::FrameSizeTooSmall => b"amqp:frame-size-too-small",
        Condition::ConnectionForced => b"amqp:connection:forced",
        Condition::FramingError => b"amqp:connection:framing-error",
        Condition::ConnectionRedirect => b"amqp:connection:redirect",
        Condition::WindowViolation => b"amqp:session:window-violation",
        Condition::UnattachedHandle => b"amqp:session:unattached-handle",
        Condition::HandleInUse => b"amqp:session:handle-in-use",
        Condition::TransferLimitExceeded => b"amqp:link:transfer-limit-exceeded",
        Condition::MessageSizeExceeded => b"amqp:link:message-size-exceeded",
    }
}
