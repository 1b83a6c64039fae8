//! The reply codes and their names.

ghost use Rattle.std.specs.Prelude.{◌≡◌};
ghost use Rattle.close_translate.specs.Codes.{name_of};

/// A content is above the greatest size.
pub const CONTENT_TOO_LARGE: u16 = 311;

/// A publish has no route (RabbitMQ's addition).
pub const NO_ROUTE: u16 = 312;

/// The connection upstream was closed, or is lost.
pub const CONNECTION_FORCED: u16 = 320;

/// A virtual host that isn't there.
pub const INVALID_PATH: u16 = 402;

/// Access isn't allowed.
pub const ACCESS_REFUSED: u16 = 403;

/// A queue or an exchange isn't there.
pub const NOT_FOUND: u16 = 404;

/// A queue or an exchange is held by another.
pub const RESOURCE_LOCKED: u16 = 405;

/// A precondition of a method doesn't hold.
pub const PRECONDITION_FAILED: u16 = 406;

/// Bytes with which no frame begins, or a frame that can't be decoded.
pub const FRAME_ERROR: u16 = 501;

/// The arguments of a method can't be read.
pub const SYNTAX_ERROR: u16 = 502;

/// A method out of its order.
pub const COMMAND_INVALID: u16 = 503;

/// A channel that isn't open, or is opened again.
pub const CHANNEL_ERROR: u16 = 504;

/// A frame that isn't awaited.
pub const UNEXPECTED_FRAME: u16 = 505;

/// Out of memory, or of another resource.
pub const RESOURCE_ERROR: u16 = 506;

/// A login or limits that aren't allowed.
pub const NOT_ALLOWED: u16 = 530;

/// A method that this gateway doesn't do.
pub const NOT_IMPLEMENTED: u16 = 540;

/// Any other error.
pub const INTERNAL_ERROR: u16 = 541;

/// The name of a reply code (AMQP 0-9-1 reference 1.1), as it stands in the reply text. A code that
/// isn't among those that the gateway uses is named as an internal error.
pub fn code_name(code: u16) -> &'static [u8]
    ensures { result.now ≡ name_of code }
{
    match code {
        CONTENT_TOO_LARGE => b"CONTENT_TOO_LARGE",
        NO_ROUTE => b"NO_ROUTE",
        CONNECTION_FORCED => b"CONNECTION_FORCED",
        INVALID_PATH => b"INVALID_PATH",
        ACCESS_REFUSED => b"ACCESS_REFUSED",
        NOT_FOUND => b"NOT_FOUND",
        RESOURCE_LOCKED => b"RESOURCE_LOCKED",
        PRECONDITION_FAILED => b"PRECONDITION_FAILED",
        FRAME_ERROR => b"FRAME_ERROR",
        SYNTAX_ERROR => b"SYNTAX_ERROR",
        COMMAND_INVALID => b"COMMAND_INVALID",
        CHANNEL_ERROR => b"CHANNEL_ERROR",
        UNEXPECTED_FRAME => b"UNEXPECTED_FRAME",
        RESOURCE_ERROR => b"RESOURCE_ERROR",
        NOT_ALLOWED => b"NOT_ALLOWED",
        NOT_IMPLEMENTED => b"NOT_IMPLEMENTED",
        _ => b"INTERNAL_ERROR",
    }
}
