//! Reading content headers.

ghost use Rattle.std.specs.Prelude.{◌≡◌, ◌<◌, Ok, Err, IfOk, IfErr};
ghost use Rattle.wire_base.specs.Reading.{Gives};
ghost use Rattle.content_091.specs.Rows.{later_rows, rows};
ghost use Rattle.content_091.specs.View.{later_list, props_of, parts_of};
ghost use Rattle.content_091.specs.Grammar.{IsHeader};
ghost use Rattle.content_091.specs.Faults.{IsFault};
ghost use Rattle.content_091.specs.Writing.{CanPut};
ghost use Rattle.content_091.specs.Reading.{props_in, head_in, head_fault, payload_in, header_in};
ghost use Rattle.content_091.specs.Reading.{seen};
ghost use Rattle.content_091.specs.declared.header.Header91.{Header91};

use crate::header::{BASIC, Header91, Props};
use crate::properties::{longlong_in, octet_in, table_in, text_in};
use std::alloc::Global;
use wire_base::{At, ByteText, Memory, Stop, place, u16_in, u64_in};

/// Why bytes are no content header.
#[derive(Clone, Copy, Debug, PartialEq, Eq)]
pub enum HeaderFault {
    /// The class isn't basic, or the weight isn't 0.
    Class,
    /// A bit is set that is the bit of no property.
    Flags,
    /// The head is cut off, a property can't be read, or bytes are left behind the last one.
    Syntax,
}

/// How many bytes class, weight, size and flags have.
const HEAD_LEN: usize = 14;

/// Where the weight stands, and where the flags.
const WEIGHT_AT: usize = 2;

const FLAGS_AT: usize = 12;

/// What stands before the properties.
#[derive(Clone, Copy)]
struct Head {
    class: u16,
    weight: u16,
    size: u64,
    flags: u16,
}

/// The second half of the properties.
#[derive(Drop)]
struct Later {
    expiration: Option<ByteText>,
    message_id: Option<ByteText>,
    timestamp: Option<u64>,
    kind: Option<ByteText>,
    user_id: Option<ByteText>,
    app_id: Option<ByteText>,
    cluster_id: Option<ByteText>,
}

/// The properties from expiration on.
fn later_in(
    alloc: Global,
    flags: u16,
    end: usize,
    bytes: &[u8],
) -> Result<(Later, &[u8]), Stop<usize>>
    ensures { Gives
        (λ x. (
          later_list x.0.expiration x.0.message_id x.0.timestamp x.0.kind x.0.user_id
              x.0.app_id x.0.cluster_id,
          x.1.now,
        ))
        result (props_in flags later_rows end bytes.now) }
{
    let (expiration, rest) = text_in(alloc, flags, 8, end, bytes)?;
    let (message_id, rest) = text_in(alloc, flags, 7, end, rest)?;
    let (timestamp, rest) = longlong_in(flags, 6, end, rest)?;
    let (kind, rest) = text_in(alloc, flags, 5, end, rest)?;
    let (user_id, rest) = text_in(alloc, flags, 4, end, rest)?;
    let (app_id, rest) = text_in(alloc, flags, 3, end, rest)?;
    let (cluster_id, rest) = text_in(alloc, flags, 2, end, rest)?;
    let later = Later {
        expiration,
        message_id,
        timestamp,
        kind,
        user_id,
        app_id,
        cluster_id,
    };
    Ok((later, rest))
}

/// The properties whose bits are set.
fn all_in(
    alloc: Global,
    flags: u16,
    end: usize,
    bytes: &[u8],
) -> Result<(Props, &[u8]), Stop<usize>>
    ensures { Gives (λ x. (props_of x.0, x.1.now)) result (props_in flags rows end bytes.now) }
{
    let (content_type, rest) = text_in(alloc, flags, 15, end, bytes)?;
    let (content_encoding, rest) = text_in(alloc, flags, 14, end, rest)?;
    let (headers, rest) = table_in(alloc, flags, 13, end, rest)?;
    let (delivery_mode, rest) = octet_in(flags, 12, end, rest)?;
    let (priority, rest) = octet_in(flags, 11, end, rest)?;
    let (correlation_id, rest) = text_in(alloc, flags, 10, end, rest)?;
    let (reply_to, rest) = text_in(alloc, flags, 9, end, rest)?;
    let (later, rest) = later_in(alloc, flags, end, rest)?;
    let props = Props {
        content_type,
        content_encoding,
        headers,
        delivery_mode,
        priority,
        correlation_id,
        reply_to,
        expiration: later.expiration,
        message_id: later.message_id,
        timestamp: later.timestamp,
        kind: later.kind,
        user_id: later.user_id,
        app_id: later.app_id,
        cluster_id: later.cluster_id,
    };
    Ok((props, rest))
}

/// Class, weight, size and flags.
fn head_of(payload: &[u8]) -> Result<(Head, &[u8]), Stop<usize>>
    ensures { Gives (λ x. ((((x.0.class, x.0.weight), x.0.size), x.0.flags), x.1.now)) result
        (head_in payload.now) }
{
    let end = payload.len();
    if end < HEAD_LEN {
        return Err(Stop::Fault(end));
    }
    let (class, rest) = u16_in(end, payload)?;
    let (weight, rest) = u16_in(end, rest)?;
    let (size, rest) = u64_in(end, rest)?;
    let (flags, rest) = u16_in(end, rest)?;
    let head = Head {
        class,
        weight,
        size,
        flags,
    };
    Ok((head, rest))
}

/// What is wrong with a head.
fn fault_of(head: &Head) -> Option<At<HeaderFault>>
    ensures { result
        ≡ head_fault (((head.now.class, head.now.weight), head.now.size), head.now.flags) }
{
    let (fault, at) = if head.class != BASIC {
        (HeaderFault::Class, 0)
    } else if head.weight != 0 {
        (HeaderFault::Class, WEIGHT_AT)
    } else if head.flags % 4 != 0 {
        (HeaderFault::Flags, FLAGS_AT)
    } else {
        return None;
    };
    Some(At { fault, at })
}

/// The header that fills these bytes; `Err` in `Ok` where its head has a fault.
fn payload_of(
    alloc: Global,
    payload: &[u8],
) -> Result<Result<Header91, At<HeaderFault>>, Stop<usize>>
    ensures { Gives seen result (payload_in payload.now) }
{
    let end = payload.len();
    let (head, rest) = head_of(payload)?;
    if let Some(fault) = fault_of(&head) {
        return Ok(Err(fault));
    }
    let (props, rest) = all_in(alloc, head.flags, end, rest)?;
    if !rest.is_empty() {
        return Err(Stop::Fault(place(end, rest)));
    }
    let size = head.size;
    Ok(Ok(Header91 { size, props }))
}

/// The header that fills these bytes, or the first fault.
fn header_of(alloc: Global, payload: &[u8]) -> Result<Result<Header91, At<HeaderFault>>, Memory>
    ensures { IfOk result (λ read. seen read ≡ header_in payload.now) }
{
    match payload_of(alloc, payload) {
        Ok(read) => Ok(read),
        Err(Stop::Memory) => Err(Memory),
        Err(Stop::Fault(at)) => Ok(Err(At {
            fault: HeaderFault::Syntax,
            at,
        })),
    }
}

/// The header that fills these bytes, which are the payload of a content header frame.
///
/// # Errors
///
/// The first that applies of these.
///
/// `Syntax` where fewer than fourteen bytes are there, at their end.
///
/// `Class` where the class isn't 60, at 0, and where the weight isn't 0, at 2.
///
/// `Flags` where bit 1 or bit 0 of the flags is set, at 12.
///
/// `Syntax` where a property can't be read, at its first byte that is missing or wrong, as the
/// readers of `wire_base` and `read_table` tell it; and where bytes are left behind the last
/// property, at the first of them.
///
/// `Memory` where the allocator has no room.
pub fn read_header(
    alloc: Global,
    payload: &[u8],
) -> Result<Result<Header91, At<HeaderFault>>, Memory>
    // What is read is spelled so.
    ensures found { IfOk result (λ read. IfOk read (λ h. IsHeader h payload.now)) }
    // What is spelled so is read.
    ensures only { (h : Header91) → IsHeader h payload.now → IfOk result (λ read. read ≡ Ok h) }
    // What is read can be written.
    ensures writable { IfOk result (λ read. IfOk read CanPut) }
    // Which fault is told, and where.
    ensures fault { IfOk result (λ read. IfErr read (IsFault payload.now)) }
    // Which size and properties are read, or which fault is told.
    ensures exact { IfOk result (λ read. seen read ≡ header_in payload.now) }
{
    let read = header_of(alloc, payload)?;
    Ok(read)
}
