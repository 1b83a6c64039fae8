//! This file is written by tools/generate_performatives.py from the definition of AMQP 1.0.
//!
//! The frames of the SASL layer (AMQP 1.0 5.3.3).

ghost use Rattle.std.specs.Prelude.{◌≡◌, IfOk};
ghost use Rattle.wire_base.specs.Reading.{Gives};
ghost use Rattle.types_10.specs.Tree.{trees_of};
ghost use Rattle.performatives_10.specs.Rows.{sasl_mechanisms_rows, sasl_init_rows};
ghost use Rattle.performatives_10.specs.Rows.{sasl_challenge_rows, sasl_response_rows};
ghost use Rattle.performatives_10.specs.Rows.{sasl_outcome_rows};
ghost use Rattle.performatives_10.specs.View.{parts_of, sasl_mechanisms_fields, sasl_init_fields};
ghost use Rattle.performatives_10.specs.View.{sasl_challenge_fields, sasl_response_fields};
ghost use Rattle.performatives_10.specs.View.{sasl_outcome_fields};
ghost use Rattle.performatives_10.specs.Reading.{perf_in};
ghost use Rattle.performatives_10.specs.Writing.{written};

use crate::fault::PerfFault;
use crate::getting::{
    binary_at, both, needed_binary, needed_symbol, needed_symbols, needed_ubyte, string_at,
};
use crate::kind::PerfKind;
use crate::performative::{
    Perf, SaslChallenge, SaslInit, SaslMechanisms, SaslOutcome, SaslResponse,
};
use std::alloc::Global;
use types_10::{Fields, SpelledList, Value10};
use wire_base::{Memory, Stop};

/// The fields of sasl-mechanisms.
pub(crate) fn sasl_mechanisms_of(
    alloc: Global,
    fields: &SpelledList<'_>,
) -> Result<Perf, Stop<PerfFault>>
    ensures { Gives parts_of result (perf_in PerfKind.SaslMechanisms (trees_of fields.now)) }
{
    let mechanisms = needed_symbols(alloc, fields, 0)?;
    Ok(Perf::SaslMechanisms(SaslMechanisms { mechanisms }))
}

/// What is written of the fields of sasl-mechanisms.
pub(crate) fn sasl_mechanisms_written(
    alloc: Global,
    perf: &SaslMechanisms,
) -> Result<Fields, Memory>
    ensures { IfOk result (λ f. f ≡ written sasl_mechanisms_rows (sasl_mechanisms_fields perf.now)) }
{
    let mut fields = Fields::empty(alloc);
    fields.push_value(alloc, &perf.mechanisms)?;
    Ok(fields)
}

/// The fields of sasl-init.
pub(crate) fn sasl_init_of(alloc: Global, fields: &SpelledList<'_>) -> Result<Perf, Stop<PerfFault>>
    ensures { Gives parts_of result (perf_in PerfKind.SaslInit (trees_of fields.now)) }
{
    let mechanism = needed_symbol(alloc, fields, 0)?;
    let read = both(mechanism, binary_at(alloc, fields, 1))?;
    let read = both(read, string_at(alloc, fields, 2))?;
    let ((mechanism, initial_response), hostname) = read;
    Ok(Perf::SaslInit(SaslInit {
        mechanism,
        initial_response,
        hostname,
    }))
}

/// What is written of the fields of sasl-init.
pub(crate) fn sasl_init_written(alloc: Global, perf: &SaslInit) -> Result<Fields, Memory>
    ensures { IfOk result (λ f. f ≡ written sasl_init_rows (sasl_init_fields perf.now)) }
{
    let mut fields = Fields::empty(alloc);
    fields.push_symbol(alloc, &perf.mechanism)?;
    fields.push_maybe_binary(alloc, &perf.initial_response)?;
    fields.push_maybe_string(alloc, &perf.hostname)?;
    Ok(fields)
}

/// The fields of sasl-challenge.
pub(crate) fn sasl_challenge_of(
    alloc: Global,
    fields: &SpelledList<'_>,
) -> Result<Perf, Stop<PerfFault>>
    ensures { Gives parts_of result (perf_in PerfKind.SaslChallenge (trees_of fields.now)) }
{
    let challenge = needed_binary(alloc, fields, 0)?;
    Ok(Perf::SaslChallenge(SaslChallenge { challenge }))
}

/// What is written of the fields of sasl-challenge.
pub(crate) fn sasl_challenge_written(alloc: Global, perf: &SaslChallenge) -> Result<Fields, Memory>
    ensures { IfOk result (λ f. f ≡ written sasl_challenge_rows (sasl_challenge_fields perf.now)) }
{
    let mut fields = Fields::empty(alloc);
    fields.push_binary(alloc, &perf.challenge)?;
    Ok(fields)
}

/// The fields of sasl-response.
pub(crate) fn sasl_response_of(
    alloc: Global,
    fields: &SpelledList<'_>,
) -> Result<Perf, Stop<PerfFault>>
    ensures { Gives parts_of result (perf_in PerfKind.SaslResponse (trees_of fields.now)) }
{
    let response = needed_binary(alloc, fields, 0)?;
    Ok(Perf::SaslResponse(SaslResponse { response }))
}

/// What is written of the fields of sasl-response.
pub(crate) fn sasl_response_written(alloc: Global, perf: &SaslResponse) -> Result<Fields, Memory>
    ensures { IfOk result (λ f. f ≡ written sasl_response_rows (sasl_response_fields perf.now)) }
{
    let mut fields = Fields::empty(alloc);
    fields.push_binary(alloc, &perf.response)?;
    Ok(fields)
}

/// The fields of sasl-outcome.
pub(crate) fn sasl_outcome_of(
    alloc: Global,
    fields: &SpelledList<'_>,
) -> Result<Perf, Stop<PerfFault>>
    ensures { Gives parts_of result (perf_in PerfKind.SaslOutcome (trees_of fields.now)) }
{
    let code = needed_ubyte(alloc, fields, 0)?;
    let additional_data = binary_at(alloc, fields, 1)?;
    Ok(Perf::SaslOutcome(SaslOutcome {
        code,
        additional_data,
    }))
}

/// What is written of the fields of sasl-outcome.
pub(crate) fn sasl_outcome_written(alloc: Global, perf: &SaslOutcome) -> Result<Fields, Memory>
    ensures { IfOk result (λ f. f ≡ written sasl_outcome_rows (sasl_outcome_fields perf.now)) }
{
    let mut fields = Fields::empty(alloc);
    fields.push(Value10::Ubyte(perf.code))?;
    fields.push_maybe_binary(alloc, &perf.additional_data)?;
    Ok(fields)
}
