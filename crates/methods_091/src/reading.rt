//! Reading methods.

ghost use Rattle.std.specs.Prelude.{◌≡◌, Ok, Err, IfOk, IfErr, option_map};
ghost use Rattle.wire_base.specs.Reading.{Gives};
ghost use Rattle.methods_091.specs.declared.method.Method91.{Method91};
ghost use Rattle.methods_091.specs.View.{parts_of};
ghost use Rattle.methods_091.specs.Grammar.{IsMethod};
ghost use Rattle.methods_091.specs.Faults.{IsFault, IsUnknown};
ghost use Rattle.methods_091.specs.Writing.{CanPut};
ghost use Rattle.methods_091.specs.Reading.{row_in, payload_in, method_in, seen};

use crate::kind::{MethodKind, kind_at};
use crate::method::Method91;
use crate::{basic, channel, confirm, connection, exchange, queue, tx};
use std::alloc::Global;
use wire_base::{At, Memory, Stop, place, u16_in};

/// Why bytes are no method.
#[derive(Clone, Copy, Debug, PartialEq, Eq)]
pub enum MethodFault {
    /// The first four bytes are the ids of no method; at 0.
    UnknownMethod,
    /// The ids or an argument can't be read, or bytes are left behind the last argument.
    Syntax,
}

/// The arguments of a method of this kind.
fn arguments_in(
    alloc: Global,
    kind: MethodKind,
    end: usize,
    bytes: &[u8],
) -> Result<(Method91, &[u8]), Stop<usize>>
    ensures { Gives (λ x. (parts_of x.0, x.1.now)) result (row_in kind end bytes.now) }
{
    match kind {
        MethodKind::Connection(kind) => connection::method_in(alloc, kind, end, bytes),
        MethodKind::Channel(kind) => channel::method_in(alloc, kind, end, bytes),
        MethodKind::Exchange(kind) => exchange::method_in(alloc, kind, end, bytes),
        MethodKind::Queue(kind) => queue::method_in(alloc, kind, end, bytes),
        MethodKind::Basic(kind) => basic::method_in(alloc, kind, end, bytes),
        MethodKind::Confirm(kind) => confirm::method_in(kind, end, bytes),
        MethodKind::Tx(kind) => Ok((tx::method_of(kind), bytes)),
    }
}

/// How many bytes the class id and the method id have.
const IDS_LEN: usize = 4;

/// The method that fills these bytes; `None` where the ids are those of no method.
fn payload_of(alloc: Global, payload: &[u8]) -> Result<Option<Method91>, Stop<usize>>
    ensures { Gives (option_map parts_of) result (payload_in payload.now) }
{
    let end = payload.len();
    if end < IDS_LEN {
        return Err(Stop::Fault(end));
    }
    let (class, rest) = u16_in(end, payload)?;
    let (id, rest) = u16_in(end, rest)?;
    let Some(kind) = kind_at(class, id) else {
        return Ok(None);
    };
    let (method, rest) = arguments_in(alloc, kind, end, rest)?;
    if !rest.is_empty() {
        return Err(Stop::Fault(place(end, rest)));
    }
    Ok(Some(method))
}

/// The method that fills these bytes, or the first fault.
fn method_of(alloc: Global, payload: &[u8]) -> Result<Result<Method91, At<MethodFault>>, Memory>
    ensures { IfOk result (λ read. seen read ≡ method_in payload.now) }
{
    match payload_of(alloc, payload) {
        Ok(Some(method)) => Ok(Ok(method)),
        Ok(None) => Ok(Err(At {
            fault: MethodFault::UnknownMethod,
            at: 0,
        })),
        Err(Stop::Memory) => Err(Memory),
        Err(Stop::Fault(at)) => Ok(Err(At {
            fault: MethodFault::Syntax,
            at,
        })),
    }
}

/// The method that fills these bytes, which are the payload of a method frame.
///
/// What stands in reserved arguments is dropped, and so are the bits of an octet that no flag uses.
///
/// # Errors
///
/// `UnknownMethod` at 0 exactly where the first four bytes are there and are the ids of no method.
///
/// `Syntax` where fewer than four bytes are there, at their end; where an argument can't be read,
/// at its first byte that is missing or wrong, as the readers of `wire_base` and `read_table` tell
/// it; and where bytes are left behind the last argument, at the first of them.
///
/// `Memory` where the allocator has no room.
#[tactic(auto, using(crate::proofs::FaultLaws::fault_by, crate::proofs::FaultLaws::unknown_by))]
pub fn read_method(
    alloc: Global,
    payload: &[u8],
) -> Result<Result<Method91, At<MethodFault>>, Memory>
    // What is read is spelled so.
    ensures found { IfOk result (λ read. IfOk read (λ m. IsMethod m payload.now)) }
    // What is spelled so is read.
    ensures only { (m : Method91) → IsMethod m payload.now → IfOk result (λ read. read ≡ Ok m) }
    // What is read can be written.
    ensures writable { IfOk result (λ read. IfOk read CanPut) }
    // Which kind and arguments are read, or which fault is told, and where; an unknown method is
    // told exactly where it is one.
    ensures exact { IfOk result (λ read. seen read ≡ method_in payload.now) }
    ensures fault { IfOk result (λ read. IfErr read (IsFault payload.now)) }
    ensures unknown { IsUnknown payload.now
        → IfOk result (λ read. read ≡ Err (record { fault = MethodFault.UnknownMethod; at = 0 })) }
{
    let read = method_of(alloc, payload)?;
    Ok(read)
}
