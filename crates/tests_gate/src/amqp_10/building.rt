//! Values that are built, a line each.
//!
//! | Line | The value that is pushed |
//! |---|---|
//! | `push`, bytes | the one that the bytes begin with |
//! | `string`, `symbol`, bytes | a text, in whatever coding |
//! | `char BITS` | a character, whatever its number |
//! | `list N` | a list of the last N values, which are taken |
//! | `array` | an array of the values of the last one, which is a list |
//! | `map N` | a map of the last N pairs |
//! | `described` | the last value, described by the one before it |
//!
//! A value that is wanting is null.

use super::values::put;
use crate::call::{Answer, Call, told, word_of};
use crate::verbs::{ARRAY, CHAR, DESCRIBED, LIST, MAP, STRING, SYMBOL};
use std::alloc::Global;
use types_10::{Inner, PairList, Value10, ValueList, read_value};
use wire_base::{ByteText, Memory};

/// A list of the last values, so many of them, in their order; fewer where fewer are there.
fn list_of_last(alloc: Global, stack: &mut Vec<Value10>, count: usize) -> Result<Value10, Memory> {
    let mut list = ValueList::empty(alloc);
    let from = stack.len().saturating_sub(count);
    for value in stack.split_off(from)? {
        list.push(value)?;
    }
    Ok(Value10::List(list))
}

/// A map of the last values in pairs, so many of these, in their order.
fn map_of_last(alloc: Global, stack: &mut Vec<Value10>, count: usize) -> Result<Value10, Memory> {
    let mut list = PairList::empty(alloc);
    let from = stack.len().saturating_sub(count.saturating_mul(2));
    let mut values = stack.split_off(from)?.into_iter();
    for _ in 0..count {
        let key = values.next().unwrap_or(Value10::Null);
        let value = values.next().unwrap_or(Value10::Null);
        list.push((key, value))?;
    }
    Ok(Value10::Map(list))
}

/// The last value, described by the one before it.
fn described(alloc: Global, stack: &mut Vec<Value10>) -> Result<Value10, Memory> {
    let value = Inner::new(alloc, stack.pop().unwrap_or(Value10::Null))?;
    let descriptor = Inner::new(alloc, stack.pop().unwrap_or(Value10::Null))?;
    Ok(Value10::Described(descriptor, value))
}

/// An array of the values of a list; another value as it is.
fn as_array(value: Value10) -> Value10 {
    match value {
        Value10::List(list) => Value10::Array(list),
        other => other,
    }
}

/// The value with which bytes begin; null where there is none.
fn first_value(alloc: Global, bytes: &[u8]) -> Result<Value10, Memory> {
    match read_value(alloc, bytes, 0)? {
        Ok((value, _)) => Ok(value),
        Err(_) => Ok(Value10::Null),
    }
}

/// A text in whatever coding.
fn text_of(alloc: Global, call: Call) -> Result<Value10, Memory> {
    let text = ByteText::copy_of(alloc, call.bytes)?;
    match call.verb {
        STRING => Ok(Value10::String(text)),
        _ => Ok(Value10::Symbol(text)),
    }
}

/// The value that a line tells.
fn value_of(alloc: Global, stack: &mut Vec<Value10>, call: Call) -> Result<Value10, Memory> {
    let number = call.numbers[0];
    match call.verb {
        STRING | SYMBOL => text_of(alloc, call),
        CHAR => Ok(Value10::Char(word_of(number))),
        LIST => list_of_last(alloc, stack, number as usize),
        ARRAY => Ok(as_array(stack.pop().unwrap_or(Value10::Null))),
        MAP => map_of_last(alloc, stack, number as usize),
        DESCRIBED => described(alloc, stack),
        _ => first_value(alloc, call.bytes),
    }
}

/// Pushes the value that a line tells, and answers how many there are.
pub fn build(alloc: Global, stack: &mut Vec<Value10>, call: Call) -> Answer {
    let value = value_of(alloc, stack, call)?;
    stack.push(value)?;
    told(alloc, stack.len())
}

/// The last value, and what is written of it.
pub fn tell_last(alloc: Global, stack: &Vec<Value10>) -> Answer {
    let mut text = ByteText::empty(alloc);
    let written = match stack.last() {
        Some(value) => put(&mut text, value),
        None => Ok(false),
    };
    told(alloc, (stack.last(), written, text))
}
