//! Composite values that are to be written (AMQP 1.0 1.4): errors, states and termini, and a whole
//! performative.

ghost use Rattle.std.specs.Prelude.{◌≡◌, [], ◌∷◌, IfOk};
ghost use Rattle.types_10.specs.Fields.{maybe};
ghost use Rattle.types_10.specs.View.{value_tree};
ghost use Rattle.performatives_10.specs.Composites.{composite};
ghost use Rattle.performatives_10.specs.Rows.{rejected_code};
ghost use Rattle.performatives_10.specs.View.{error_tree, state_tree, source_tree, target_tree};

use crate::collecting::push_maybe_error;
use crate::composites::{ACCEPTED, ERROR, MODIFIED, RECEIVED, REJECTED, RELEASED, SOURCE, TARGET};
use crate::performative::{Error10, Source10, State, Target10};
use std::alloc::Global;
use types_10::{Fields, Inner, Value10};
use wire_base::Memory;

/// The list of these fields behind this descriptor, without the nulls at its end.
pub(crate) fn composite_value(alloc: Global, code: u64, fields: Fields) -> Result<Value10, Memory>
    ensures { IfOk result (λ v. value_tree v ≡ composite code fields) }
{
    let descriptor = Inner::new(alloc, Value10::Ulong(code))?;
    let list = Inner::new(alloc, Value10::List(fields.into_list()))?;
    Ok(Value10::Described(descriptor, list))
}

/// The composite value without fields.
fn bare_value(alloc: Global, code: u64) -> Result<Value10, Memory>
    ensures { IfOk result (λ v. value_tree v ≡ composite code []) }
{
    composite_value(alloc, code, Fields::empty(alloc))
}

pub(crate) fn error_value(alloc: Global, error: &Error10) -> Result<Value10, Memory>
    ensures { IfOk result (λ v. value_tree v ≡ error_tree error.now) }
{
    let mut fields = Fields::empty(alloc);
    fields.push_symbol(alloc, &error.condition)?;
    fields.push_maybe_string(alloc, &error.description)?;
    composite_value(alloc, ERROR, fields)
}

fn rejected_value(alloc: Global, error: &Option<Error10>) -> Result<Value10, Memory>
    ensures { IfOk result (λ v. value_tree v ≡ composite rejected_code
        (maybe error_tree error.now ∷ [])) }
{
    let mut fields = Fields::empty(alloc);
    push_maybe_error(alloc, &mut fields, error)?;
    composite_value(alloc, REJECTED, fields)
}

pub(crate) fn state_value(alloc: Global, state: &State) -> Result<Value10, Memory>
    ensures { IfOk result (λ v. value_tree v ≡ state_tree state.now) }
{
    match state {
        State::Received => bare_value(alloc, RECEIVED),
        State::Accepted => bare_value(alloc, ACCEPTED),
        State::Rejected(error) => rejected_value(alloc, error),
        State::Released => bare_value(alloc, RELEASED),
        State::Modified => bare_value(alloc, MODIFIED),
    }
}

pub(crate) fn source_value(alloc: Global, source: &Source10) -> Result<Value10, Memory>
    ensures { IfOk result (λ v. value_tree v ≡ source_tree source.now) }
{
    let mut fields = Fields::empty(alloc);
    fields.push_maybe_string(alloc, &source.address)?;
    fields.push_maybe_uint(source.durable)?;
    fields.push_maybe_symbol(alloc, &source.expiry_policy)?;
    fields.push_maybe_uint(source.timeout)?;
    fields.push_maybe_boolean(source.dynamic)?;
    fields.push_maybe_kept(alloc, &source.dynamic_node_properties)?;
    fields.push_maybe_symbol(alloc, &source.distribution_mode)?;
    fields.push_maybe_kept(alloc, &source.filter)?;
    fields.push_maybe_kept(alloc, &source.default_outcome)?;
    fields.push_maybe_kept(alloc, &source.outcomes)?;
    fields.push_maybe_kept(alloc, &source.capabilities)?;
    composite_value(alloc, SOURCE, fields)
}

pub(crate) fn target_value(alloc: Global, target: &Target10) -> Result<Value10, Memory>
    ensures { IfOk result (λ v. value_tree v ≡ target_tree target.now) }
{
    let mut fields = Fields::empty(alloc);
    fields.push_maybe_string(alloc, &target.address)?;
    fields.push_maybe_uint(target.durable)?;
    fields.push_maybe_symbol(alloc, &target.expiry_policy)?;
    fields.push_maybe_uint(target.timeout)?;
    fields.push_maybe_boolean(target.dynamic)?;
    fields.push_maybe_kept(alloc, &target.dynamic_node_properties)?;
    fields.push_maybe_kept(alloc, &target.capabilities)?;
    composite_value(alloc, TARGET, fields)
}
