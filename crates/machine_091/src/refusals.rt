//! The order of refusals: which methods count, and the refusal of what doesn't.

ghost use Rattle.std.specs.Prelude.{◌≡◌, true, false, [], ◌∷◌, Ok, IfOk, IfNone};
ghost use Rattle.methods_091.specs.Reading.{method_in};
ghost use Rattle.methods_091.specs.View.{kind_of, args_of, parts_of};
ghost use Rattle.frames_091.specs.declared.frame.Kind91.TheVariants.{Method};
ghost use Rattle.machine_091.specs.Checked.{IsCounted, IsFirstOf, IsMethodChecked};
ghost use Rattle.machine_091.specs.RefusalsContents.{within_order};
ghost use Rattle.machine_091.specs.RefusalsFrames.{first, channel_order, closing_order, is_opening};
ghost use Rattle.machine_091.specs.RefusalsFrames.{is_closing, is_answering};
ghost use Rattle.machine_091.specs.RefusalsOpening.{is_expected};
ghost use Rattle.machine_091.specs.Refusals.{places, refusal_with, refusal_of, publish_refusal};
ghost use Rattle.machine_091.specs.Refusals.{channel_refusal, channel_of};
ghost use Rattle.machine_091.specs.RefusalsRunning.{running_state, running_refusal};
ghost use Rattle.machine_091.specs.State.{channel_at, content_at, is_running};

use crate::ids::{BASIC_PUBLISH, ids_in};
use crate::refusals_contents::within_order;
use crate::refusals_frames::{
    channel_order, closing_order, fault_code, is_answering, is_closing, is_opening,
};
use crate::refusals_opening::{expected_order, opening_refusal};
use crate::refusals_running::{class_order, running_refusal, running_state};
use crate::state::Connection;
use crate::unit::{Refusal, Ruling, Unit91};
use close_translate::Scope;
use frames_091::{Frame91, Kind91};
use methods_091::{Method91, read_method};
use std::alloc::Global;
use wire_base::Memory;

/// What the order says of a method frame for its channel and the content in progress there.
fn method_place(conn: &Connection, frame: &Frame91) -> Option<Ruling>
    ensures { IsFirstOf (
        channel_order conn.now frame.now.channel (is_opening frame.now.payload)
        ∷ closing_order conn.now frame.now.channel (is_closing frame.now.payload)
        (is_answering frame.now.payload)
        ∷ within_order (content_at conn.now frame.now.channel) ∷ []) result }
{
    let payload = frame.payload.as_slice();
    let channel = frame.channel;
    if let Some(ruling) = channel_order(conn, channel, is_opening(payload)) {
        return Some(ruling);
    }
    if let Some(ruling) = closing_order(conn, channel, is_closing(payload), is_answering(payload)) {
        return Some(ruling);
    }
    within_order(conn, channel)
}

/// What the order says of a method that was read before the connection runs.
fn opening_ruling(conn: &Connection, frame: &Frame91, method: &Method91) -> Option<Ruling>
    requires opening { is_running conn.now.phase ≡ false }
    requires read { method_in frame.now.payload ≡ Ok (parts_of method.now) }
    ensures ruling { result ≡ first (places conn.now frame.now
        (method_in frame.now.payload) Method) }
    ensures expected { IfNone result (is_expected conn.now (kind_of method.now) ≡ true) }
{
    if let Some(ruling) = expected_order(conn, method) {
        return Some(ruling);
    }
    if let Some(ruling) = method_place(conn, frame) {
        return Some(ruling);
    }
    opening_refusal(conn, method)
}

/// Checks a method frame before the connection runs.
fn check_opening(
    alloc: Global,
    conn: &Connection,
    frame: &Frame91,
) -> Result<Result<Method91, Ruling>, Memory>
    requires { is_running conn.now.phase ≡ false }
    ensures { IfOk result (IsMethodChecked conn.now frame.now) }
{
    match read_method(alloc, frame.payload.as_slice())? {
        Ok(method) => match opening_ruling(conn, frame, &method) {
            Some(ruling) => Ok(Err(ruling)),
            None => Ok(Ok(method)),
        },
        Err(fault) => match method_place(conn, frame) {
            Some(ruling) => Ok(Err(ruling)),
            None => Ok(Err(Ruling::Refused(fault_code(fault.fault)))),
        },
    }
}

/// What the order says of a method that was read once the connection runs, behind the places of
/// its frame.
fn running_ruling(conn: &Connection, channel: u16, method: &Method91) -> Option<Ruling>
    ensures ruling { result ≡ first (
        running_state (channel_at conn.now channel) channel (kind_of method.now)
        ∷ running_refusal conn.now.carried_max channel (kind_of method.now)
        (args_of method.now) ∷ []) }
    ensures counted { IfNone result (IsCounted true conn.now channel method.now) }
{
    match running_state(conn.channel(channel), channel, method) {
        Some(ruling) => Some(ruling),
        None => running_refusal(conn.carried_max, channel, method),
    }
}

/// Checks a method frame once the connection runs.
fn check_running(
    alloc: Global,
    conn: &Connection,
    frame: &Frame91,
) -> Result<Result<Method91, Ruling>, Memory>
    requires { is_running conn.now.phase ≡ true }
    ensures { IfOk result (IsMethodChecked conn.now frame.now) }
{
    let payload = frame.payload.as_slice();
    if let Some(ruling) = class_order(frame.channel, payload) {
        return Ok(Err(ruling));
    }
    if let Some(ruling) = method_place(conn, frame) {
        return Ok(Err(ruling));
    }
    match read_method(alloc, payload)? {
        Err(fault) => Ok(Err(Ruling::Refused(fault_code(fault.fault)))),
        Ok(method) => match running_ruling(conn, frame.channel, &method) {
            Some(ruling) => Ok(Err(ruling)),
            None => Ok(Ok(method)),
        },
    }
}

/// Checks a method frame against the order of refusals: its method, if the frame counts; else what
/// the order says of it.
pub(crate) fn check_method(
    alloc: Global,
    conn: &Connection,
    frame: &Frame91,
) -> Result<Result<Method91, Ruling>, Memory>
    ensures { IfOk result (IsMethodChecked conn.now frame.now) }
{
    if conn.is_running() {
        check_running(alloc, conn, frame)
    } else {
        check_opening(alloc, conn, frame)
    }
}

/// The refusal of the connection, with these ids.
fn refusal_with(code: u16, class: u16, method: u16) -> Refusal
    ensures { result ≡ refusal_with code class method }
{
    Refusal {
        code,
        scope: Scope::Connection,
        channel: 0,
        class,
        method,
    }
}

/// The refusal of a unit, with the ids of its method.
pub(crate) fn refusal_of(code: u16, unit: &Unit91) -> Refusal
    ensures { result ≡ refusal_of code unit.now }
{
    let frame = match unit {
        Unit91::Protocol | Unit91::Bad(_) => return refusal_with(code, 0, 0),
        Unit91::Frame(frame) => frame,
    };
    match frame.kind {
        Kind91::Method => {
            let (class, method) = ids_in(frame.payload.as_slice());
            refusal_with(code, class, method)
        }
        Kind91::Header | Kind91::Body | Kind91::Heartbeat => refusal_with(code, 0, 0),
    }
}

/// The refusal of a basic.publish whose content is whole.
pub(crate) fn publish_refusal(code: u16) -> Refusal
    ensures { result ≡ publish_refusal code }
{
    let (class, method) = BASIC_PUBLISH;
    refusal_with(code, class, method)
}

/// The refusal of a channel: no method is at fault.
pub(crate) fn channel_refusal(code: u16, channel: u16) -> Refusal
    ensures { result ≡ channel_refusal code channel }
{
    Refusal {
        code,
        scope: Scope::Channel,
        channel,
        class: 0,
        method: 0,
    }
}

/// The channel of a unit.
pub(crate) fn channel_of(unit: &Unit91) -> u16
    ensures { result ≡ channel_of unit.now }
{
    match unit {
        Unit91::Protocol | Unit91::Bad(_) => 0,
        Unit91::Frame(frame) => frame.channel,
    }
}
