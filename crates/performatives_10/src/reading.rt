//! Reading performatives.

ghost use Rattle.std.specs.Prelude.{◌≡◌, ℕ, Option, Some, None, Ok, Err, IfOk, IfErr, IsOkAnd};
ghost use Rattle.wire_base.specs.Reading.{Gives};
ghost use Rattle.types_10.specs.Tree.{trees_of};
ghost use Rattle.performatives_10.specs.View.{parts_of};
ghost use Rattle.performatives_10.specs.Reading.{perf_in, perf_of, perf_at, seen};
ghost use Rattle.performatives_10.specs.Grammar.{IsPerfAt, IsPerfFault};
ghost use Rattle.performatives_10.specs.declared.performative.Perf.{Perf};

use crate::composites::described_list;
use crate::fault::PerfFault;
use crate::kind::{PerfKind, kind_at};
use crate::performative::Perf;
use crate::{connection, link, sasl, session};
use std::alloc::Global;
use types_10::{Spelled, SpelledList};
use wire_base::{Memory, Stop};

/// The performative of this kind with these fields.
fn perf_in(alloc: Global, kind: PerfKind, fields: &SpelledList<'_>) -> Result<Perf, Stop<PerfFault>>
    ensures { Gives parts_of result (perf_in kind (trees_of fields.now)) }
{
    match kind {
        PerfKind::Open => connection::open_of(alloc, fields),
        PerfKind::Begin => session::begin_of(alloc, fields),
        PerfKind::Attach => link::attach_of(alloc, fields),
        PerfKind::Flow => link::flow_of(alloc, fields),
        PerfKind::Transfer => link::transfer_of(alloc, fields),
        PerfKind::Disposition => link::disposition_of(alloc, fields),
        PerfKind::Detach => link::detach_of(alloc, fields),
        PerfKind::End => session::end_of(alloc, fields),
        PerfKind::Close => connection::close_of(alloc, fields),
        PerfKind::SaslMechanisms => sasl::sasl_mechanisms_of(alloc, fields),
        PerfKind::SaslInit => sasl::sasl_init_of(alloc, fields),
        PerfKind::SaslChallenge => sasl::sasl_challenge_of(alloc, fields),
        PerfKind::SaslResponse => sasl::sasl_response_of(alloc, fields),
        PerfKind::SaslOutcome => sasl::sasl_outcome_of(alloc, fields),
    }
}

/// The performative that a value is.
#[tactic(auto, unfolding(crate::specs::Reading::perf_of))]
fn perf_of(alloc: Global, value: &Spelled<'_>) -> Result<Perf, Stop<PerfFault>>
    ensures { Gives parts_of result (perf_of value.now) }
{
    let Some((code, fields)) = described_list(alloc, value)? else {
        return Err(Stop::Fault(PerfFault::UnknownDescriptor));
    };
    let Some(kind) = kind_at(code) else {
        return Err(Stop::Fault(PerfFault::UnknownDescriptor));
    };
    perf_in(alloc, kind, &fields)
}

/// What was read, or the fault.
fn perf_from(alloc: Global, body: &[u8]) -> Result<Result<(Perf, usize), PerfFault>, Memory>
    ensures { IfOk result (λ read. seen read ≡ perf_at body.now) }
{
    let (value, after) = match Spelled::at(body, 0) {
        Ok(read) => read,
        Err(fault) => return Ok(Err(PerfFault::Value(fault))),
    };
    match perf_of(alloc, &value) {
        Ok(perf) => Ok(Ok((perf, after))),
        Err(Stop::Fault(fault)) => Ok(Err(fault)),
        Err(Stop::Memory) => Err(Memory),
    }
}

/// The performative with which a frame's body begins (AMQP 1.0 2.7, 5.3.3), and the offset in bytes
/// behind it, where the payload begins. An absent field has its default, where it has one. Fields
/// past the last are ignored.
///
/// What nobody asks for is read past, and kept as the bytes that spell it: the fields of the type
/// `Spelling10`. So no values are built for a body but those of its first level.
///
/// Of errors, states and termini a part is dropped: the information of an error; all of a state but
/// the error of a rejection; and an address that is no string is read as absent.
///
/// # Errors
///
/// `Value` where no value stands at the front of the body, with the fault and its place, as
/// `Spelled::at` tells it.
///
/// `UnknownDescriptor` where the value is no described list with the code of a performative as a
/// ulong.
///
/// `Missing` where a mandatory field is absent, and `WrongType` where a field has another type than
/// its row says or is a composite that has any fault inside. The number is the place of the field,
/// from 0; the first in order counts.
///
/// `Memory` where the allocator has no room.
pub fn read_perf(alloc: Global, body: &[u8]) -> Result<Result<(Perf, usize), PerfFault>, Memory>
    // What is read is spelled so.
    ensures found { IfOk result (λ read. IfOk read (λ x. IsPerfAt x.0 body.now x.1)) }
    // What is spelled so is read, whatever follows.
    ensures only { (p : Perf) (after : ℕ) → IsPerfAt p body.now after
        → IfOk result (λ read. IsOkAnd read (λ x. (parts_of x.0 ≡ parts_of p) × (x.1 ≡ after))) }
    // Which the first fault is.
    ensures fault { IfOk result (λ read. IfErr read (IsPerfFault body.now)) }
    // Which kind, fields and offset are read, or which fault is told.
    ensures exact { IfOk result (λ read. seen read ≡ perf_at body.now) }
{
    let read = perf_from(alloc, body)?;
    Ok(read)
}
