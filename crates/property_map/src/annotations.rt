//! The names of annotations that stand for what has no other place in AMQP 1.0, and annotations by
//! their names.

ghost use Rattle.std.specs.Prelude.{◌≡◌, option_map};
ghost use Rattle.types_10.specs.Tree.{pairs_of};
ghost use Rattle.types_10.specs.View.{value_tree};
ghost use Rattle.property_map.specs.Rows091.{is_symbol, value_under, map_in, annotation_in};

use types_10::{PairList, Value10};

pub(crate) const EXCHANGE: &[u8] = b"x-opt-091-exchange";

pub(crate) const KIND: &[u8] = b"x-opt-091-type";

pub(crate) const APP_ID: &[u8] = b"x-opt-091-app-id";

pub(crate) const CLUSTER_ID: &[u8] = b"x-opt-091-cluster-id";

pub(crate) const HEADERS: &[u8] = b"x-opt-091-headers";

fn is_symbol(key: &Value10, name: &[u8]) -> bool
    ensures { result ≡ is_symbol name.now (value_tree key.now) }
{
    match key {
        Value10::Symbol(text) => text.as_slice() == name,
        _ => false,
    }
}

/// The first value under a symbol.
fn value_under<'a>(pairs: &'a PairList, name: &[u8]) -> Option<&'a Value10>
    ensures { option_map (λ v. value_tree v.now) result
        ≡ value_under name.now (pairs_of pairs.now) }
{
    let mut k = 0;
    while k < pairs.len() {
        let Some((key, value)) = pairs.get(k) else {
            break;
        };
        if is_symbol(key, name) {
            return Some(value);
        }
        k += 1;
    }
    None
}

/// The pairs of a map.
pub(crate) fn map_pairs(value: &Option<Value10>) -> Option<&PairList>
    ensures { option_map (λ ps. pairs_of ps.now) result ≡ map_in (option_map value_tree value.now) }
{
    match value {
        Some(Value10::Map(pairs)) => Some(pairs),
        _ => None,
    }
}

/// An annotation of a message.
pub(crate) fn annotation<'a>(annotations: &'a Option<Value10>, name: &[u8]) -> Option<&'a Value10>
    ensures { option_map (λ v. value_tree v.now) result
        ≡ annotation_in name.now (option_map value_tree annotations.now) }
{
    let pairs = map_pairs(annotations)?;
    value_under(pairs, name)
}
