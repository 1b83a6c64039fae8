//! Reading messages.

ghost use Rattle.std.specs.Prelude.{◌≡◌, ◌<◌, ◌≤◌, length, Some, None, option_map};
ghost use Rattle.std.specs.Prelude.{IfOk, IfErr, IsOkAnd};
ghost use Rattle.wire_base.specs.Reading.{Gives};
ghost use Rattle.types_10.specs.View.{value_tree};
ghost use Rattle.sections_10.specs.Rows.{properties_section};
ghost use Rattle.sections_10.specs.View.{Kept, kept_of, props_tree};
ghost use Rattle.sections_10.specs.Faults.{IsFault};
ghost use Rattle.sections_10.specs.Grammar.{IsMessage};
ghost use Rattle.sections_10.specs.Reading.{code_at, section_in, kind_of, body_in, sections_in};
ghost use Rattle.sections_10.specs.Reading.{found_sections, rank, last_rank, fault_of, kept_in};
ghost use Rattle.sections_10.specs.Reading.{whole_of, message_in, seen};
ghost use Rattle.sections_10.specs.declared.reading.SectionFault.TheVariants.{NoBody};

use crate::bodies::next_body;
use crate::message::{Body10, Message10, MsgHeader, MsgProps};
use crate::sections::{
    APPLICATION_PROPERTIES, DELIVERY_ANNOTATIONS, FOOTER, Keys, MESSAGE_ANNOTATIONS, code_of,
    header_in, map_in, properties_in,
};
use std::alloc::Global;
use types_10::Value10;
use wire_base::{At, Memory, Stop};

/// Why bytes are no message.
#[derive(Clone, Copy, Debug, PartialEq, Eq)]
pub enum SectionFault {
    /// A section before which a later one stood.
    Order,
    /// A section twice, or one of a body of another kind.
    Repeated,
    /// No section of a body.
    NoBody,
    /// No section stands there, or its value can't be read or has another type.
    Value,
}

/// The sections that were found in their order, and the offset behind the last.
#[derive(Drop)]
struct Found {
    header: Option<MsgHeader>,
    delivery: Option<Value10>,
    annotations: Option<Value10>,
    properties: Option<MsgProps>,
    application: Option<Value10>,
    body: Option<Body10>,
    footer: Option<Value10>,
    after: usize,
}

// ---- one section more
//
// What was found before a section goes through these functions as one value, so that it is dropped
// as a whole where the section can't be read.

/// What was found, and a map that may be there.
fn and_map<T: Drop>(
    found: T,
    alloc: Global,
    keys: Keys,
    code: u8,
    bytes: &[u8],
    at: usize,
) -> Result<((T, Option<Value10>), usize), Stop<usize>>
    ensures read { Gives (λ x. (option_map value_tree x.0.1, x.1)) result (section_in
        (code, kind_of keys) bytes.now at) }
    ensures kept { IfOk result (λ x. x.0.0 ≡ found) }
{
    let (map, after) = map_in(alloc, keys, code, bytes, at)?;
    Ok(((found, map), after))
}

/// What was found, and properties that may be there.
fn and_properties<T: Drop>(
    found: T,
    alloc: Global,
    bytes: &[u8],
    at: usize,
) -> Result<((T, Option<MsgProps>), usize), Stop<usize>>
    ensures read { Gives (λ x. (option_map props_tree x.0.1, x.1)) result
        (section_in properties_section bytes.now at) }
    ensures kept { IfOk result (λ x. x.0.0 ≡ found) }
{
    let (properties, after) = properties_in(alloc, bytes, at)?;
    Ok(((found, properties), after))
}

/// What was found, and a body that may be there.
fn and_body<T: Drop>(
    found: T,
    alloc: Global,
    bytes: &[u8],
    at: usize,
) -> Result<((T, Option<Body10>), usize), Stop<usize>>
    ensures read { Gives (λ x. (x.0.1, x.1)) result (body_in bytes.now at) }
    ensures kept { IfOk result (λ x. x.0.0 ≡ found) }
{
    let (body, after) = next_body(alloc, bytes, at)?;
    Ok(((found, body), after))
}

// ---- all sections

/// The sections that stand in order from the front on.
#[tactic(auto, unfolding(crate::specs::Reading::sections_in))]
fn found_in(alloc: Global, bytes: &[u8]) -> Result<Found, Stop<usize>>
    ensures { Gives found_sections result (sections_in bytes.now) }
{
    let (header, at) = header_in(alloc, bytes, 0)?;
    let keys = Keys::Annotations;
    let (found, at) = and_map(header, alloc, keys, DELIVERY_ANNOTATIONS, bytes, at)?;
    let (found, at) = and_map(found, alloc, keys, MESSAGE_ANNOTATIONS, bytes, at)?;
    let (found, at) = and_properties(found, alloc, bytes, at)?;
    let (found, at) = and_map(
        found,
        alloc,
        Keys::Strings,
        APPLICATION_PROPERTIES,
        bytes,
        at,
    )?;
    let (found, at) = and_body(found, alloc, bytes, at)?;
    let (found, after) = and_map(found, alloc, Keys::Any, FOOTER, bytes, at)?;
    let ((((((header, delivery), annotations), properties), application), body), footer) = found;
    Ok(Found {
        header,
        delivery,
        annotations,
        properties,
        application,
        body,
        footer,
        after,
    })
}

/// The place of the last section in the order of kinds; 0 where there is none.
fn last_of(found: &Found) -> u64
    ensures { result ≡ last_rank (found_sections found.now) }
{
    if found.footer.is_some() {
        0x78
    } else if found.body.is_some() {
        0x75
    } else if found.application.is_some() {
        0x74
    } else if found.properties.is_some() {
        0x73
    } else if found.annotations.is_some() {
        0x72
    } else if found.delivery.is_some() {
        0x71
    } else if found.header.is_some() {
        0x70
    } else {
        0
    }
}

/// The place of a section in the order of kinds: those of a body have one.
fn rank_of(code: u64) -> u64
    ensures { result ≡ rank code }
{
    match code {
        0x76 | 0x77 => 0x75,
        _ => code,
    }
}

/// Why no section goes on behind the last one.
fn fault_behind(last: u64, code: Option<(u64, usize)>) -> SectionFault
    ensures { result ≡ fault_of last code }
{
    match code {
        Some((code, _)) if (0x70..=0x78).contains(&code) => {
            if rank_of(code) < last {
                SectionFault::Order
            } else {
                SectionFault::Repeated
            }
        }
        _ => SectionFault::Value,
    }
}

/// What was found, where nothing is left behind it; else the fault.
fn at_end<T: Drop>(
    found: T,
    alloc: Global,
    bytes: &[u8],
    last: u64,
    at: usize,
) -> Result<Result<T, At<SectionFault>>, Memory>
    ensures end { IfOk result (λ x. IfOk x (λ y. (y ≡ found) × (length bytes.now ≤ at))) }
    ensures more { IfOk result (λ x. IfErr x (λ e. (at < length bytes.now)
        × (e.fault ≡ fault_of last (code_at bytes.now at)) × (e.at ≡ at))) }
{
    if at >= bytes.len() {
        return Ok(Ok(found));
    }
    let fault = fault_behind(last, code_of(alloc, bytes, at)?);
    Ok(Err(At { fault, at }))
}

/// What was found, and its body; where there is none, the fault.
fn with_body<T: Drop>(
    found: T,
    body: Option<Body10>,
    at: usize,
) -> Result<(T, Body10), At<SectionFault>>
    ensures body { IfOk result (λ x. (x.0 ≡ found) × (body ≡ Some x.1)) }
    ensures none { IfErr result (λ e. (body ≡ None) × (e.fault ≡ NoBody) × (e.at ≡ at)) }
{
    match body {
        Some(body) => Ok((found, body)),
        None => Err(At {
            fault: SectionFault::NoBody,
            at,
        }),
    }
}

/// The message of these sections, where there is a body.
fn message_from(found: Found) -> Result<Message10, At<SectionFault>>
    ensures { seen result ≡ kept_in (found_sections found) found.body }
{
    let Found {
        header,
        annotations,
        properties,
        application,
        body,
        after,
        ..
    } = found;
    let kept = (header, annotations, properties, application);
    let (kept, body) = with_body(kept, body, after)?;
    let (header, annotations, properties, application) = kept;
    Ok(Message10 {
        header,
        annotations,
        properties,
        application,
        body,
    })
}

/// The message of these sections: nothing is left behind them, and there is a body.
fn message_of(
    alloc: Global,
    bytes: &[u8],
    found: Found,
) -> Result<Result<Message10, At<SectionFault>>, Memory>
    ensures { IfOk result (λ read. seen read ≡ whole_of bytes.now (found_sections found)) }
{
    let (last, at) = (last_of(&found), found.after);
    match at_end(found, alloc, bytes, last, at)? {
        Ok(found) => Ok(message_from(found)),
        Err(fault) => Ok(Err(fault)),
    }
}

/// The message that fills these bytes, or the first fault.
fn whole_in(alloc: Global, bytes: &[u8]) -> Result<Result<Message10, At<SectionFault>>, Memory>
    ensures { IfOk result (λ read. seen read ≡ message_in bytes.now) }
{
    match found_in(alloc, bytes) {
        Ok(found) => message_of(alloc, bytes, found),
        Err(Stop::Memory) => Err(Memory),
        Err(Stop::Fault(at)) => Ok(Err(At {
            fault: SectionFault::Value,
            at,
        })),
    }
}

/// The message that fills these bytes. Annotations of the delivery and the footer are read and
/// dropped.
///
/// # Errors
///
/// That of the first section at fault, at its first byte. `Order`: a later section stood before it.
/// `Repeated`: its kind stood before it, or it is one of a body of another kind than the first.
/// `Value`: no section stands there, or its value can't be read or has another type. Where no
/// section is at fault, `NoBody` at the length of the input.
///
/// `Memory` where the allocator has no room.
pub fn read_message(
    alloc: Global,
    bytes: &[u8],
) -> Result<Result<Message10, At<SectionFault>>, Memory>
    // What is read fills the bytes.
    ensures found { IfOk result (λ read. IfOk read (λ m. IsMessage (kept_of m) bytes.now)) }
    // What fills the bytes is read.
    ensures only { (k : Kept) → IsMessage k bytes.now
        → IfOk result (λ read. IsOkAnd read (λ m. kept_of m ≡ k)) }
    // Which section is at fault, and how.
    ensures fault { IfOk result (λ read. IfErr read (IsFault bytes.now)) }
    // What is kept of the message that is read, or which fault is told.
    ensures exact { IfOk result (λ read. seen read ≡ message_in bytes.now) }
{
    let read = whole_in(alloc, bytes)?;
    Ok(read)
}
