//! What the body of a frame is, what its performative says, and what that does to a connection.

ghost use Rattle.std.specs.Prelude.{◌≡◌, IfOk, drop};
ghost use Rattle.types_10.specs.Tree.{trees_of};
ghost use Rattle.types_10.specs.View.{value_tree};
ghost use Rattle.types_10.specs.Fields.{maybe, tree_at};
ghost use Rattle.performatives_10.specs.View.{open_fields};
ghost use Rattle.machine_10.specs.Parts.{parts_of};
ghost use Rattle.machine_10.specs.Reading.{Empty, Faulty, Whole, read_of, read_at, body_by};
ghost use Rattle.machine_10.specs.Reading.{body_in, body_of};
ghost use Rattle.machine_10.specs.Reading.{is_named, any_named, offers, act_of, stated_in};
ghost use Rattle.machine_10.specs.Reading.{last_from, is_out_of_range, is_close, closes};

use crate::limits::{FRAME_MIN_SIZE, Stated10};
use crate::unit::{Act10, Body10};
use crate::whole::Whole10;
use frames_10::{Frame10, Kind10};
use performatives_10::{Open, Perf, PerfFault, read_perf};
use std::alloc::Global;
use types_10::{Value10, ValueList};
use wire_base::{ByteText, Memory};

/// From so many deliveries on between the first and the last of a disposition the last one lies
/// before the first.
const HALF: u32 = 0x8000_0000;

/// The bytes from a place on; none past the end.
fn behind(alloc: Global, bytes: ByteText, at: usize) -> ByteText
    ensures { result ≡ drop at bytes }
{
    let mut rest = bytes;
    if at <= rest.as_slice().len() {
        rest.discard(at);
        rest
    } else {
        ByteText::empty(alloc)
    }
}

/// A performative that was read, or the first fault.
type Read10 = Result<(Perf, usize), PerfFault>;

/// The performative with which these bytes begin.
fn perf_in(alloc: Global, bytes: &[u8]) -> Result<Read10, Memory>
    ensures { IfOk result (λ read. read_of read ≡ read_at bytes.now) }
{
    read_perf(alloc, bytes)
}

/// A body that begins with no performative.
#[tactic(auto, unfolding(crate::specs::Reading::body_of))]
fn faulty(fault: PerfFault) -> Body10
    ensures { body_of result ≡ Faulty fault }
{
    Body10::Faulty(fault)
}

/// A performative, and the payload behind it.
#[tactic(auto, unfolding(crate::specs::Reading::body_of))]
fn whole(whole: Whole10) -> Body10
    ensures { body_of result ≡ Whole whole.0 whole.1 }
{
    Body10::Whole(whole)
}

/// The body that was read of these bytes.
#[tactic(auto, unfolding(crate::specs::Reading::read_of))]
fn body_from(alloc: Global, read: Read10, bytes: ByteText) -> Body10
    ensures { body_of result ≡ body_by bytes (read_of read) }
{
    match read {
        Err(fault) => faulty(fault),
        Ok((perf, end)) => whole(Whole10::new(perf, behind(alloc, bytes, end))),
    }
}

/// What these bytes are, which aren't read as an empty frame. They are copied first: nothing fails
/// once the performative is there, so nothing has to let it go.
fn read_bytes(alloc: Global, bytes: &[u8]) -> Result<Body10, Memory>
    ensures { IfOk result (λ body. body_of body ≡ body_by bytes.now (read_at bytes.now)) }
{
    let copied = ByteText::copy_of(alloc, bytes)?;
    match perf_in(alloc, bytes) {
        Ok(read) => Ok(body_from(alloc, read, copied)),
        Err(memory) => Err(memory),
    }
}

/// No body.
#[tactic(auto, unfolding(crate::specs::Reading::body_of))]
fn no_body() -> Body10
    ensures { body_of result ≡ Empty }
{
    Body10::Empty
}

/// What the body of a frame is.
pub(crate) fn read_body(alloc: Global, frame: &Frame10) -> Result<Body10, Memory>
    ensures { IfOk result (λ body. body_of body ≡ body_in frame.now.kind frame.now.body) }
{
    let bytes = frame.body.as_slice();
    match frame.kind {
        Kind10::Amqp => {
            if bytes.len() == 0 {
                return Ok(no_body());
            }
            read_bytes(alloc, bytes)
        }
        Kind10::Sasl => read_bytes(alloc, bytes),
    }
}

/// Whether a mechanism has this name.
fn is_named(name: &[u8], value: &Value10) -> bool
    ensures { result ≡ is_named name.now (value_tree value.now) }
{
    match value {
        Value10::Symbol(text) => text.as_slice() == name,
        _ => false,
    }
}

/// The value at a place.
fn element_at(list: &ValueList, place: usize) -> Option<&Value10>
    ensures { maybe (λ v. value_tree v.now) result ≡ tree_at (trees_of list.now) place }
{
    list.get(place)
}

/// Whether the mechanism at this place has this name.
fn is_named_at(name: &[u8], list: &ValueList, place: usize) -> bool
    ensures { result ≡ is_named name.now (tree_at (trees_of list.now) place) }
{
    match element_at(list, place) {
        Some(value) => is_named(name, value),
        None => false,
    }
}

/// Whether one of these mechanisms has this name.
fn any_named(name: &[u8], list: &ValueList) -> bool
    ensures { result ≡ any_named name.now (trees_of list.now) }
{
    let mut place = 0;
    while place < list.len() {
        if is_named_at(name, list, place) {
            return true;
        }
        place += 1;
    }
    false
}

/// Whether a mechanism is offered: it is the one, or among those that are.
pub(crate) fn offers(name: &[u8], mechanisms: &Value10) -> bool
    ensures { result ≡ offers name.now (value_tree mechanisms.now) }
{
    match mechanisms {
        Value10::Array(list) => any_named(name, list),
        Value10::Symbol(text) => text.as_slice() == name,
        _ => false,
    }
}

/// What an open states.
fn stated_in(stated: &Open) -> Stated10
    ensures { result ≡ stated_in (open_fields stated.now) }
{
    Stated10 {
        max_frame: stated.max_frame_size,
        channel_max: stated.channel_max,
        idle: stated.idle_time_out,
    }
}

/// What a performative does to a connection.
#[tactic(auto, unfolding(crate::specs::Reading::act_of, crate::specs::Parts::parts_of))]
pub(crate) fn act_of(perf: &Perf) -> Act10
    ensures { result ≡ act_of (parts_of perf.now) }
{
    match perf {
        Perf::Open(open) => Act10::Open(stated_in(open)),
        Perf::Begin(begin) => Act10::Begin(begin.remote_channel),
        Perf::Disposition(settled) => Act10::Settle(settled.first, settled.last),
        Perf::Attach(_) | Perf::Flow(_) | Perf::Transfer(_) | Perf::Detach(_) => Act10::Within,
        Perf::End(_) => Act10::End,
        Perf::Close(_) => Act10::Close,
        Perf::SaslMechanisms(_) => Act10::Offer,
        Perf::SaslOutcome(outcome) => Act10::Outcome(outcome.code),
        Perf::SaslChallenge(_) => Act10::Challenge,
        Perf::SaslInit(_) | Perf::SaslResponse(_) => Act10::ClientLogin,
    }
}

/// How many deliveries a disposition covers, less one; an absent last one is the first.
fn last_from(first: u32, last: Option<u32>) -> u32
    ensures { result ≡ last_from first last }
{
    last.unwrap_or(first).wrapping_sub(first)
}

/// Whether a performative states frames that are too short, or a last delivery before the first.
pub(crate) fn is_out_of_range(act: Act10) -> bool
    ensures { result ≡ is_out_of_range act }
{
    match act {
        Act10::Open(stated) => stated.max_frame < FRAME_MIN_SIZE,
        Act10::Settle(first, last) => HALF <= last_from(first, last),
        _ => false,
    }
}

fn is_close(act: Act10) -> bool
    ensures { result ≡ is_close act }
{
    matches!(act, Act10::Close)
}

/// Whether a frame is the close of a connection.
#[tactic(auto, unfolding(crate::specs::Reading::body_of))]
pub(crate) fn closes(kind: Kind10, body: &Body10) -> bool
    ensures { result ≡ closes kind (body_of body.now) }
{
    match kind {
        Kind10::Sasl => false,
        Kind10::Amqp => match body {
            Body10::Empty | Body10::Faulty(_) => false,
            Body10::Whole(whole) => is_close(whole.act()),
        },
    }
}
