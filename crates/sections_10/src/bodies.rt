//! Bodies (AMQP 1.0 3.2.6 to 3.2.8): data sections, sequences, or one value.

ghost use Rattle.std.specs.Prelude.{◌≡◌, ◌++◌, IfOk};
ghost use Rattle.wire_base.specs.Reading.{Gives};
ghost use Rattle.types_10.specs.View.{value_tree};
ghost use Rattle.sections_10.specs.Reading.{front_of, data_in, sequences_in, value_body, body_in};

use crate::message::Body10;
use crate::sections::{data_section_in, sequence_in, value_section_in};
use std::alloc::Global;
use types_10::Value10;
use wire_base::{ByteText, Memory, Stop};

/// Bytes that may be there, and others behind them. Those of the first data section aren't copied.
fn joined(body: Option<ByteText>, more: ByteText) -> Result<ByteText, Memory>
    ensures { IfOk result (λ text. text ≡ front_of body ++ more) }
{
    let Some(mut body) = body else {
        return Ok(more);
    };
    body.append(more.as_slice())?;
    Ok(body)
}

/// The data sections at an offset, joined.
#[tactic(auto, unfolding(crate::specs::Reading::data_in))]
fn joined_data_in(
    alloc: Global,
    bytes: &[u8],
    at: usize,
) -> Result<(Option<ByteText>, usize), Stop<usize>>
    ensures { Gives (λ x. x) result (data_in bytes.now at) }
{
    let mut body: Option<ByteText> = None;
    let mut place = at;
    let mut left = bytes.len();
    while left > 0 {
        let (data, after) = data_section_in(alloc, bytes, place)?;
        match data {
            Some(data) => body = Some(joined(body, data)?),
            None => break,
        }
        place = after;
        left -= 1;
    }
    Ok((body, place))
}

/// Whether there are sequences at an offset, and the offset behind them.
#[tactic(auto, unfolding(crate::specs::Reading::sequences_in))]
fn all_sequences_in(alloc: Global, bytes: &[u8], at: usize) -> Result<(bool, usize), Stop<usize>>
    ensures { Gives (λ x. x) result (sequences_in bytes.now at) }
{
    let mut found = false;
    let mut place = at;
    let mut left = bytes.len();
    while left > 0 {
        let (stands, after) = sequence_in(alloc, bytes, place)?;
        if !stands {
            break;
        }
        found = true;
        place = after;
        left -= 1;
    }
    Ok((found, place))
}

/// The body of one value.
#[tactic(auto, unfolding(crate::specs::Reading::value_body))]
fn body_of(value: Value10) -> Body10
    ensures { result ≡ value_body (value_tree value) }
{
    match value {
        Value10::String(text) => Body10::Text(text),
        Value10::Binary(bytes) => Body10::Binary(bytes),
        _ => Body10::Other,
    }
}

/// A body, where one begins at an offset, and the offset behind it.
#[tactic(auto, unfolding(crate::specs::Reading::body_in))]
pub(crate) fn next_body(
    alloc: Global,
    bytes: &[u8],
    at: usize,
) -> Result<(Option<Body10>, usize), Stop<usize>>
    ensures { Gives (λ x. x) result (body_in bytes.now at) }
{
    let (data, after) = joined_data_in(alloc, bytes, at)?;
    if let Some(data) = data {
        return Ok((Some(Body10::Data(data)), after));
    }
    let (sequences, after) = all_sequences_in(alloc, bytes, after)?;
    if sequences {
        return Ok((Some(Body10::Other), after));
    }
    let (value, after) = value_section_in(alloc, bytes, after)?;
    match value {
        Some(value) => Ok((Some(body_of(value)), after)),
        None => Ok((None, after)),
    }
}
