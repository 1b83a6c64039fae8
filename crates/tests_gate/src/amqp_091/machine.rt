//! Calls of a client's connection.

use super::closes::scope_of;
use super::frames::frame_of;
use super::single::single_call;
use crate::call::{Answer, Call, short_of, told};
use crate::verbs::{BAD, CLOSED, CLOSING, ENDED, IS_OPEN, OPENED, PROTOCOL, STATE, TAKE, TOLD};
use machine_091::{Conn91, Unit91};
use std::alloc::Global;

/// What a unit wants.
fn take_call(alloc: Global, conn: &mut Conn91, call: Call) -> Answer {
    let unit = match call.verb {
        PROTOCOL => Unit91::Protocol,
        BAD => Unit91::Bad(short_of(call.numbers[0])),
        _ => Unit91::Frame(frame_of(alloc, call)?),
    };
    told(alloc, conn.take(alloc, unit))
}

/// What can be asked of a connection, but for its channels.
fn state_call(alloc: Global, conn: &Conn91) -> Answer {
    let limits = (conn.frame_max(), conn.channel_max(), conn.heartbeat());
    let holds = (
        conn.is_asked(),
        conn.is_opening(),
        conn.is_closing(),
        conn.is_over(),
    );
    told(
        alloc,
        (conn.phase(), conn.stream(), conn.awaits(), limits, holds),
    )
}

/// A unit or another event that comes, or what can be asked of a connection.
pub fn connection_call(alloc: Global, conn: &mut Conn91, call: Call) -> Answer {
    match call.verb {
        PROTOCOL | BAD | TAKE => return take_call(alloc, conn, call),
        STATE => return state_call(alloc, conn),
        IS_OPEN => return told(alloc, conn.is_open(short_of(call.numbers[0]))),
        OPENED => conn.opened(short_of(call.numbers[0])),
        ENDED => conn.ended(),
        CLOSING => conn.closing(scope_of(call.numbers[0]), short_of(call.numbers[1])),
        TOLD => conn.told(short_of(call.numbers[0])),
        CLOSED => conn.closed(short_of(call.numbers[0])),
        _ => return single_call(alloc, call),
    }
    told(alloc, true)
}
