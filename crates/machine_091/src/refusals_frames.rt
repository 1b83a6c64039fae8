//! The places of the order of refusals that ask the same of each frame, in every phase.

ghost use Rattle.std.specs.Prelude.{◌≡◌, false, [], ◌∷◌};
ghost use Rattle.machine_091.specs.Checked.{IsFirstOf};
ghost use Rattle.machine_091.specs.RefusalsFrames.{heartbeat_order, content_order, is_opening};
ghost use Rattle.machine_091.specs.RefusalsFrames.{is_closing, is_answering, state_order};
ghost use Rattle.machine_091.specs.RefusalsFrames.{channel_order, passed_over, closing_order};
ghost use Rattle.machine_091.specs.RefusalsFrames.{fault_code};
ghost use Rattle.machine_091.specs.State.{is_running};

use crate::ids::{CHANNEL_CLOSE, CHANNEL_CLOSE_OK, CHANNEL_OPEN, is_in};
use crate::state::{Channel91, Connection};
use crate::unit::Ruling;
use close_translate::{
    CHANNEL_ERROR, FRAME_ERROR, NOT_IMPLEMENTED, SYNTAX_ERROR, UNEXPECTED_FRAME,
};
use frames_091::Frame91;
use methods_091::MethodFault;

/// A heartbeat with a channel or a payload.
pub(crate) fn heartbeat_order(frame: &Frame91) -> Option<Ruling>
    ensures { result ≡ heartbeat_order frame.now }
{
    if frame.channel == 0 && frame.payload.as_slice().is_empty() {
        None
    } else {
        Some(Ruling::Refused(FRAME_ERROR))
    }
}

/// A content where none may be.
fn content_order(running: bool, channel: u16) -> Option<Ruling>
    ensures { result ≡ content_order running channel }
{
    if channel == 0 {
        Some(Ruling::Refused(CHANNEL_ERROR))
    } else if running {
        None
    } else {
        Some(Ruling::Refused(UNEXPECTED_FRAME))
    }
}

/// A payload that begins with the ids of channel.open.
pub(crate) fn is_opening(payload: &[u8]) -> bool
    ensures { result ≡ is_opening payload.now }
{
    is_in(CHANNEL_OPEN, payload)
}

/// A payload that begins with the ids of channel.close.
pub(crate) fn is_closing(payload: &[u8]) -> bool
    ensures { result ≡ is_closing payload.now }
{
    is_in(CHANNEL_CLOSE, payload)
}

/// A payload that begins with the ids of channel.close-ok.
pub(crate) fn is_answering(payload: &[u8]) -> bool
    ensures { result ≡ is_answering payload.now }
{
    is_in(CHANNEL_CLOSE_OK, payload)
}

/// A channel that isn't open, or that is opened again.
fn state_order(state: Channel91, opening: bool) -> Option<Ruling>
    ensures { result ≡ state_order state opening }
{
    match state {
        Channel91::Free if opening => None,
        Channel91::Free => Some(Ruling::Refused(CHANNEL_ERROR)),
        Channel91::Open if opening => Some(Ruling::Refused(CHANNEL_ERROR)),
        Channel91::Open | Channel91::Closing | Channel91::Told => None,
    }
}

/// A channel that isn't to be used so.
pub(crate) fn channel_order(conn: &Connection, channel: u16, opening: bool) -> Option<Ruling>
    ensures { result ≡ channel_order conn.now channel opening }
{
    if channel == 0 {
        None
    } else if channel > conn.limits.channel_max {
        Some(Ruling::Refused(CHANNEL_ERROR))
    } else {
        state_order(conn.channel(channel), opening)
    }
}

/// What a closing channel passes over unread.
pub(crate) fn closing_order(
    conn: &Connection,
    channel: u16,
    closes: bool,
    answers: bool,
) -> Option<Ruling>
    ensures { result ≡ closing_order conn.now channel closes answers }
{
    if channel == 0 {
        return None;
    }
    match conn.channel(channel) {
        Channel91::Free | Channel91::Open => None,
        Channel91::Closing if closes => None,
        Channel91::Told if closes || answers => None,
        Channel91::Closing | Channel91::Told => Some(Ruling::PassedOver),
    }
}

/// The reply code of a method that can't be read.
pub(crate) fn fault_code(fault: MethodFault) -> u16
    ensures { result ≡ fault_code fault }
{
    match fault {
        MethodFault::UnknownMethod => NOT_IMPLEMENTED,
        MethodFault::Syntax => SYNTAX_ERROR,
    }
}

/// What the order says of a content header or body before it asks for the content in progress.
pub(crate) fn content_place(conn: &Connection, channel: u16) -> Option<Ruling>
    ensures { IsFirstOf (content_order
        (is_running conn.now.phase) channel ∷ channel_order conn.now channel false
        ∷ closing_order conn.now channel false false ∷ []) result }
{
    if let Some(ruling) = content_order(conn.is_running(), channel) {
        return Some(ruling);
    }
    if let Some(ruling) = channel_order(conn, channel, false) {
        return Some(ruling);
    }
    closing_order(conn, channel, false, false)
}
