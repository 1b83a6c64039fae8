//! The codes of AMQP 0-9-1 with which a channel or a connection closes: their names, the code for
//! an error condition of AMQP 1.0, and the condition for a code.
#![tactic(auto)]

mod codes;
mod conditions;

pub use codes::{
    ACCESS_REFUSED, CHANNEL_ERROR, COMMAND_INVALID, CONNECTION_FORCED, CONTENT_TOO_LARGE,
    FRAME_ERROR, INTERNAL_ERROR, INVALID_PATH, NO_ROUTE, NOT_ALLOWED, NOT_FOUND, NOT_IMPLEMENTED,
    PRECONDITION_FAILED, RESOURCE_ERROR, RESOURCE_LOCKED, SYNTAX_ERROR, UNEXPECTED_FRAME,
    code_name,
};
pub use conditions::{Scope, code_of, condition_of};
