//! The places of the order of refusals that ask of the content in progress on a channel.

ghost use Rattle.std.specs.Prelude.{◌≡◌, [], ◌∷◌, Some, Err};
ghost use Rattle.machine_091.specs.RefusalsContents.{within_order, awaited_order, header_code};
ghost use Rattle.machine_091.specs.RefusalsContents.{fault_order, immediate_order};
ghost use Rattle.machine_091.specs.RefusalsFrames.{first};
ghost use Rattle.machine_091.specs.State.{content_at};

use crate::contents::is_immediate;
use crate::state::Connection;
use crate::unit::Ruling;
use close_translate::{
    CONTENT_TOO_LARGE, FRAME_ERROR, NOT_IMPLEMENTED, SYNTAX_ERROR, UNEXPECTED_FRAME,
};
use content_091::{ContentFault, HeaderFault};
use methods_091::Method91;

/// A method while a content is in progress.
pub(crate) fn within_order(conn: &Connection, channel: u16) -> Option<Ruling>
    ensures { result ≡ within_order (content_at conn.now channel) }
{
    if conn.has_content(channel) {
        Some(Ruling::Refused(UNEXPECTED_FRAME))
    } else {
        None
    }
}

/// The reply code of a content header that can't be read.
fn header_code(fault: HeaderFault) -> u16
    ensures { result ≡ header_code fault }
{
    match fault {
        HeaderFault::Class => FRAME_ERROR,
        HeaderFault::Flags | HeaderFault::Syntax => SYNTAX_ERROR,
    }
}

/// A content header or a body frame that isn't awaited, or is at fault.
pub(crate) fn fault_ruling(fault: ContentFault) -> Ruling
    ensures { Some result ≡ first (awaited_order (Err fault) ∷ fault_order (Err fault) ∷ []) }
{
    match fault {
        ContentFault::Unexpected => Ruling::Refused(UNEXPECTED_FRAME),
        ContentFault::Header(found) => Ruling::Refused(header_code(found.fault)),
        ContentFault::TooLarge => Ruling::ChannelRefused(CONTENT_TOO_LARGE),
        ContentFault::Overrun => Ruling::Refused(FRAME_ERROR),
    }
}

/// A basic.publish that asks for what this gateway doesn't do.
pub(crate) fn immediate_order(method: &Method91) -> Option<Ruling>
    ensures { result ≡ immediate_order method.now }
{
    if is_immediate(method) {
        Some(Ruling::MethodRefused(NOT_IMPLEMENTED))
    } else {
        None
    }
}
