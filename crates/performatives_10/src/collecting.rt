//! Fields that performatives have besides those of primitive types, added to a list (AMQP 1.0 1.4):
//! composite values, and booleans with a default.
//!
//! Each call adds one value at the end. It answers `Memory` where the allocator has no room.

ghost use Rattle.std.specs.Prelude.{◌≡◌, ◌++◌, [], ◌∷◌, OnOk};
ghost use Rattle.types_10.specs.Tree.{boolean};
ghost use Rattle.types_10.specs.Fields.{maybe, a_boolean};
ghost use Rattle.performatives_10.specs.Fields.{defaults};
ghost use Rattle.performatives_10.specs.View.{error_tree, state_tree, source_tree, target_tree};
ghost use Rattle.performatives_10.specs.Writing.{written_field};

use crate::composing::{error_value, source_value, state_value, target_value};
use crate::performative::{Error10, Source10, State, Target10};
use std::alloc::Global;
use types_10::{Fields, Value10};
use wire_base::Memory;

/// Adds a boolean, which is absent where it equals its default.
pub(crate) fn push_unless_default(fields: &mut Fields, b: bool, default: bool) -> Result<(), Memory>
    ensures { OnOk result (fields.new ≡ fields.old
        ++ written_field (defaults (boolean default)) (a_boolean b) ∷ []) }
{
    if b == default {
        fields.push(Value10::Null)
    } else {
        fields.push(Value10::Boolean(b))
    }
}

/// Adds an error, or null.
pub(crate) fn push_maybe_error(
    alloc: Global,
    fields: &mut Fields,
    error: &Option<Error10>,
) -> Result<(), Memory>
    ensures { OnOk result (fields.new ≡ fields.old ++ maybe error_tree error.now ∷ []) }
{
    match error {
        Some(error) => fields.push(error_value(alloc, error)?),
        None => fields.push(Value10::Null),
    }
}

/// Adds a state of a delivery, or null.
pub(crate) fn push_maybe_state(
    alloc: Global,
    fields: &mut Fields,
    state: &Option<State>,
) -> Result<(), Memory>
    ensures { OnOk result (fields.new ≡ fields.old ++ maybe state_tree state.now ∷ []) }
{
    match state {
        Some(state) => fields.push(state_value(alloc, state)?),
        None => fields.push(Value10::Null),
    }
}

/// Adds a source, or null.
pub(crate) fn push_maybe_source(
    alloc: Global,
    fields: &mut Fields,
    source: &Option<Source10>,
) -> Result<(), Memory>
    ensures { OnOk result (fields.new ≡ fields.old ++ maybe source_tree source.now ∷ []) }
{
    match source {
        Some(source) => fields.push(source_value(alloc, source)?),
        None => fields.push(Value10::Null),
    }
}

/// Adds a target, or null.
pub(crate) fn push_maybe_target(
    alloc: Global,
    fields: &mut Fields,
    target: &Option<Target10>,
) -> Result<(), Memory>
    ensures { OnOk result (fields.new ≡ fields.old ++ maybe target_tree target.now ∷ []) }
{
    match target {
        Some(target) => fields.push(target_value(alloc, target)?),
        None => fields.push(Value10::Null),
    }
}
