//! Writing performatives.

ghost use Rattle.std.specs.Prelude.{◌≡◌, ◌↔◌, ◌++◌, true, IfOk, OnOk, OnErr};
ghost use Rattle.types_10.specs.View.{value_tree};
ghost use Rattle.types_10.specs.Writing.{HasSpelling};
ghost use Rattle.performatives_10.specs.View.{kind_of, fields_of};
ghost use Rattle.performatives_10.specs.Reading.{rows};
ghost use Rattle.performatives_10.specs.Writing.{written, perf_tree, perf_text};

use crate::composing::composite_value;
use crate::kind::{PerfKind, code_of};
use crate::performative::Perf;
use crate::{connection, link, sasl, session};
use std::alloc::Global;
use types_10::{Fields, Value10, has_spelling, put_value};
use wire_base::{ByteText, Memory};

/// The kind of a performative.
fn kind_of(perf: &Perf) -> PerfKind
    ensures { result ≡ kind_of perf.now }
{
    match perf {
        Perf::Open(_) => PerfKind::Open,
        Perf::Begin(_) => PerfKind::Begin,
        Perf::Attach(_) => PerfKind::Attach,
        Perf::Flow(_) => PerfKind::Flow,
        Perf::Transfer(_) => PerfKind::Transfer,
        Perf::Disposition(_) => PerfKind::Disposition,
        Perf::Detach(_) => PerfKind::Detach,
        Perf::End(_) => PerfKind::End,
        Perf::Close(_) => PerfKind::Close,
        Perf::SaslMechanisms(_) => PerfKind::SaslMechanisms,
        Perf::SaslInit(_) => PerfKind::SaslInit,
        Perf::SaslChallenge(_) => PerfKind::SaslChallenge,
        Perf::SaslResponse(_) => PerfKind::SaslResponse,
        Perf::SaslOutcome(_) => PerfKind::SaslOutcome,
    }
}

/// What is written of the fields.
fn perf_written(alloc: Global, perf: &Perf) -> Result<Fields, Memory>
    ensures { IfOk result (λ f. f ≡ written (rows (kind_of perf.now))
        (fields_of perf.now)) }
{
    match perf {
        Perf::Open(perf) => connection::open_written(alloc, perf),
        Perf::Begin(perf) => session::begin_written(alloc, perf),
        Perf::Attach(perf) => link::attach_written(alloc, perf),
        Perf::Flow(perf) => link::flow_written(alloc, perf),
        Perf::Transfer(perf) => link::transfer_written(alloc, perf),
        Perf::Disposition(perf) => link::disposition_written(alloc, perf),
        Perf::Detach(perf) => link::detach_written(alloc, perf),
        Perf::End(perf) => session::end_written(alloc, perf),
        Perf::Close(perf) => connection::close_written(alloc, perf),
        Perf::SaslMechanisms(perf) => sasl::sasl_mechanisms_written(alloc, perf),
        Perf::SaslInit(perf) => sasl::sasl_init_written(alloc, perf),
        Perf::SaslChallenge(perf) => sasl::sasl_challenge_written(alloc, perf),
        Perf::SaslResponse(perf) => sasl::sasl_response_written(alloc, perf),
        Perf::SaslOutcome(perf) => sasl::sasl_outcome_written(alloc, perf),
    }
}

/// The described list that is written of a performative.
fn perf_value(alloc: Global, perf: &Perf) -> Result<Value10, Memory>
    ensures { IfOk result (λ v. value_tree v ≡ perf_tree perf.now) }
{
    let fields = perf_written(alloc, perf)?;
    composite_value(alloc, code_of(kind_of(perf)), fields)
}

/// Whether a performative has a spelling, so that `put_perf` takes it.
///
/// # Errors
///
/// `Memory` where the allocator has no room for a copy of the fields.
pub fn has_text(alloc: Global, perf: &Perf) -> Result<bool, Memory>
    ensures { IfOk result (λ b. b ≡ true ↔ HasSpelling (perf_tree perf.now)) }
{
    let value = perf_value(alloc, perf)?;
    Ok(has_spelling(&value))
}

/// Adds the described list of a performative (AMQP 1.0 1.4), or leaves `out` as it was.
///
/// An absent field is null, and so is a boolean that equals its default; any other field with a
/// default is written. Nulls at the end are left out, and each value has its shortest encoding.
///
/// The list must have a spelling, as `has_text` tells: strings are UTF-8, symbols ASCII, its depth
/// is at most 16, and it has fewer than 2^32 bytes. That fields of the types `Spelling10` and
/// `Value10` have the types of their rows, and that no state is `Received`, is for the caller to
/// see to: without it other bytes are written than a performative has.
///
/// # Errors
///
/// `Memory` where the allocator has no room for the bytes, or for a copy of the fields.
pub fn put_perf(alloc: Global, out: &mut ByteText, perf: &Perf) -> Result<(), Memory>
    requires { HasSpelling (perf_tree perf.now) }
    ensures ok { OnOk result (out.new ≡ out.old ++ perf_text perf.now) }
    ensures err { OnErr result (out.new ≡ out.old) }
{
    let value = perf_value(alloc, perf)?;
    put_value(out, &value)
}
