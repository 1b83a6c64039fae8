//! Writing messages.
//!
//! Where a function of this module but `put_before_body` and `put_message` answers `Memory`, what
//! stood in `out` before still stands at its front.

ghost use Rattle.std.specs.Prelude.{◌≡◌, ◌↔◌, ◌++◌, true, List, [], ◌∷◌, length, take, option_map};
ghost use Rattle.std.specs.Prelude.{IfOk, OnOk, OnErr};
ghost use Rattle.types_10.specs.Tree.{Tree};
ghost use Rattle.types_10.specs.View.{value_tree};
ghost use Rattle.types_10.specs.Writing.{value_text, HasSpelling};
ghost use Rattle.types_10.specs.Fields.{maybe, a_boolean, a_uint};
ghost use Rattle.sections_10.specs.Writing.{fields_list, unless_false, unless_zero};
ghost use Rattle.sections_10.specs.Writing.{header_value, props_value, section_text, maybe_text};
ghost use Rattle.sections_10.specs.Writing.{binary_head, body_text, body_bytes, message_text};
ghost use Rattle.sections_10.specs.Writing.{IfThere, IsData, CanBeWritten};

use crate::message::{Body10, Message10, MsgHeader, MsgProps};
use crate::sections::{APPLICATION_PROPERTIES, DATA, HEADER, MESSAGE_ANNOTATIONS, PROPERTIES};
use std::alloc::Global;
use types_10::{Fields, Value10, has_spelling, put_value};
use wire_base::{ByteText, Memory, put_u8, put_u32};

/// The codes of an ulong of one byte, and of a binary with a length of one byte or of four (AMQP
/// 1.0 1.6).
const SMALL_ULONG: u8 = 0x53;

const SHORT_BINARY: u8 = 0xA0;

const LONG_BINARY: u8 = 0xB0;

/// The least length that doesn't fit one byte.
const LEAST_LONG: usize = 256;

/// The least length of data whose section's value has no spelling: with code and length it would
/// have 2^32 bytes.
const LEAST_TOO_LONG: usize = 0xFFFF_FFFB;

// ---- lists of fields

/// The list of these fields, without the nulls at its end.
fn list_value(fields: Fields) -> Value10
    ensures { value_tree result ≡ fields_list fields }
{
    Value10::List(fields.into_list())
}

/// A boolean, absent where it is false.
fn unless_false(b: bool) -> Option<bool>
    ensures { maybe a_boolean result ≡ unless_false b }
{
    if b { Some(true) } else { None }
}

/// A number, absent where it is 0.
fn unless_zero(n: u32) -> Option<u32>
    ensures { maybe a_uint result ≡ unless_zero n }
{
    if n == 0 { None } else { Some(n) }
}

/// The value of a header.
fn header_value(alloc: Global, header: &MsgHeader) -> Result<Value10, Memory>
    ensures { IfOk result (λ v. value_tree v ≡ header_value header.now) }
{
    let mut fields = Fields::empty(alloc);
    fields.push_maybe_boolean(header.durable)?;
    fields.push_maybe_ubyte(header.priority)?;
    fields.push_maybe_uint(header.ttl)?;
    fields.push_maybe_boolean(unless_false(header.first_acquirer))?;
    fields.push_maybe_uint(unless_zero(header.delivery_count))?;
    Ok(list_value(fields))
}

/// The value of properties.
fn props_value(alloc: Global, props: &MsgProps) -> Result<Value10, Memory>
    ensures { IfOk result (λ v. value_tree v ≡ props_value props.now) }
{
    let mut fields = Fields::empty(alloc);
    fields.push_maybe_value(alloc, &props.message_id)?;
    fields.push_maybe_binary(alloc, &props.user_id)?;
    fields.push_maybe_string(alloc, &props.to)?;
    fields.push_maybe_string(alloc, &props.subject)?;
    fields.push_maybe_string(alloc, &props.reply_to)?;
    fields.push_maybe_value(alloc, &props.correlation_id)?;
    fields.push_maybe_symbol(alloc, &props.content_type)?;
    fields.push_maybe_symbol(alloc, &props.content_encoding)?;
    fields.push_maybe_timestamp(props.absolute_expiry_time)?;
    fields.push_maybe_timestamp(props.creation_time)?;
    fields.push_maybe_string(alloc, &props.group_id)?;
    fields.push_maybe_uint(props.group_sequence)?;
    fields.push_maybe_string(alloc, &props.reply_to_group_id)?;
    Ok(list_value(fields))
}

// ---- sections

/// The descriptor of a section.
fn put_descriptor(out: &mut ByteText, code: u8) -> Result<(), Memory>
    ensures ok { OnOk result (out.new ≡ out.old ++ 0 ∷ 83 ∷ code ∷ []) }
    ensures err { OnErr result (take (length out.old) out.new ≡ out.old) }
{
    put_u8(out, 0)?;
    put_u8(out, SMALL_ULONG)?;
    put_u8(out, code)
}

/// A section.
fn put_section(out: &mut ByteText, code: u8, value: &Value10) -> Result<(), Memory>
    requires { HasSpelling (value_tree value.now) }
    ensures ok { OnOk result (out.new ≡ out.old ++ section_text code (value_tree value.now)) }
    ensures err { OnErr result (take (length out.old) out.new ≡ out.old) }
{
    put_descriptor(out, code)?;
    put_value(out, value)
}

/// A section that may be there.
fn put_maybe(out: &mut ByteText, code: u8, value: &Option<Value10>) -> Result<(), Memory>
    requires { IfThere HasSpelling (option_map value_tree value.now) }
    ensures ok { OnOk result (out.new ≡ out.old ++ maybe_text code
        (option_map value_tree value.now)) }
    ensures err { OnErr result (take (length out.old) out.new ≡ out.old) }
{
    match value {
        Some(value) => put_section(out, code, value),
        None => Ok(()),
    }
}

/// A header that may be there.
fn put_header(alloc: Global, out: &mut ByteText, header: &Option<MsgHeader>) -> Result<(), Memory>
    requires { IfThere HasSpelling (option_map header_value header.now) }
    ensures ok { OnOk result (out.new ≡ out.old ++ maybe_text 112
        (option_map header_value header.now)) }
    ensures err { OnErr result (take (length out.old) out.new ≡ out.old) }
{
    match header {
        Some(header) => put_section(out, HEADER, &header_value(alloc, header)?),
        None => Ok(()),
    }
}

/// Properties that may be there.
fn put_props(alloc: Global, out: &mut ByteText, props: &Option<MsgProps>) -> Result<(), Memory>
    requires { IfThere HasSpelling (option_map props_value props.now) }
    ensures ok { OnOk result (out.new ≡ out.old ++ maybe_text 115
        (option_map props_value props.now)) }
    ensures err { OnErr result (take (length out.old) out.new ≡ out.old) }
{
    match props {
        Some(props) => put_section(out, PROPERTIES, &props_value(alloc, props)?),
        None => Ok(()),
    }
}

/// The code and the length of a binary.
fn put_binary_head(out: &mut ByteText, size: usize) -> Result<(), Memory>
    ensures ok { OnOk result (out.new ≡ out.old ++ binary_head size) }
    ensures err { OnErr result (take (length out.old) out.new ≡ out.old) }
{
    if size < LEAST_LONG {
        put_u8(out, SHORT_BINARY)?;
        put_u8(out, (size % 0x100) as u8)
    } else {
        put_u8(out, LONG_BINARY)?;
        put_u32(out, (size % 0x1_0000_0000) as u32)
    }
}

/// A data section up to its bytes, of which there are `size`.
fn put_data_head(out: &mut ByteText, size: usize) -> Result<(), Memory>
    ensures ok { OnOk result (out.new ≡ out.old ++ 0 ∷ 83 ∷ 117 ∷ binary_head size) }
    ensures err { OnErr result (take (length out.old) out.new ≡ out.old) }
{
    put_descriptor(out, DATA)?;
    put_binary_head(out, size)
}

/// A body of data up to its bytes; of another one nothing.
#[tactic(auto, using(crate::proofs::Written::binary_is))]
fn put_body_head(out: &mut ByteText, body: &Body10) -> Result<(), Memory>
    ensures ok { OnOk result (out.new ++ body_bytes body.now ≡ out.old ++ body_text body.now) }
    ensures err { OnErr result (take (length out.old) out.new ≡ out.old) }
{
    match body {
        Body10::Data(data) => put_data_head(out, data.as_slice().len()),
        Body10::Text(_) | Body10::Binary(_) | Body10::Other => Ok(()),
    }
}

/// The bytes of a body of data; of another one nothing.
fn put_body_bytes(out: &mut ByteText, body: &Body10) -> Result<(), Memory>
    ensures ok { OnOk result (out.new ≡ out.old ++ body_bytes body.now) }
    ensures err { OnErr result (out.new ≡ out.old) }
{
    match body {
        Body10::Data(data) => out.append(data.as_slice()),
        Body10::Text(_) | Body10::Binary(_) | Body10::Other => Ok(()),
    }
}

/// All sections, in their order, up to the bytes of the body.
fn put_sections(alloc: Global, out: &mut ByteText, message: &Message10) -> Result<(), Memory>
    requires { CanBeWritten message.now }
    ensures ok { OnOk result
        (out.new ++ body_bytes message.now.body ≡ out.old ++ message_text message.now) }
    ensures err { OnErr result (take (length out.old) out.new ≡ out.old) }
{
    put_header(alloc, out, &message.header)?;
    put_maybe(out, MESSAGE_ANNOTATIONS, &message.annotations)?;
    put_props(alloc, out, &message.properties)?;
    put_maybe(out, APPLICATION_PROPERTIES, &message.application)?;
    put_body_head(out, &message.body)
}

/// What was written; where memory ran out, `out` has its first `start` bytes again.
fn all_or_nothing(
    out: &mut ByteText,
    start: usize,
    written: Result<(), Memory>,
) -> Result<(), Memory>
    ensures same { result ≡ written }
    ensures ok { OnOk written (out.new ≡ out.old) }
    ensures err { OnErr written (out.new ≡ take start out.old) }
{
    if written.is_err() {
        out.truncate(start);
    }
    written
}

// ---- which messages can be written

/// Whether a value that may be there has a spelling.
fn value_spells(value: &Option<Value10>) -> bool
    ensures { result ≡ true ↔ IfThere HasSpelling (option_map value_tree value.now) }
{
    match value {
        Some(value) => has_spelling(value),
        None => true,
    }
}

/// Whether a header that may be there has a spelling.
fn header_spells(alloc: Global, header: &Option<MsgHeader>) -> Result<bool, Memory>
    ensures { IfOk result (λ b. b ≡ true ↔ IfThere HasSpelling
        (option_map header_value header.now)) }
{
    match header {
        Some(header) => Ok(has_spelling(&header_value(alloc, header)?)),
        None => Ok(true),
    }
}

/// Whether properties that may be there have a spelling.
fn props_spell(alloc: Global, props: &Option<MsgProps>) -> Result<bool, Memory>
    ensures { IfOk result (λ b. b ≡ true ↔ IfThere HasSpelling (option_map props_value props.now)) }
{
    match props {
        Some(props) => Ok(has_spelling(&props_value(alloc, props)?)),
        None => Ok(true),
    }
}

/// Whether a body is data that has a spelling.
#[tactic(auto, using(crate::proofs::Written::data_spells))]
fn body_spells(body: &Body10) -> bool
    ensures { result ≡ true ↔ IsData HasSpelling body.now }
{
    match body {
        Body10::Data(data) => data.as_slice().len() < LEAST_TOO_LONG,
        Body10::Text(_) | Body10::Binary(_) | Body10::Other => false,
    }
}

/// Whether a message can be written, so that `put_message` takes it: its body is data, and the
/// value of each section has a spelling.
///
/// # Errors
///
/// `Memory` where the allocator has no room for a copy of the properties.
pub fn can_be_written(alloc: Global, message: &Message10) -> Result<bool, Memory>
    ensures { IfOk result (λ b. b ≡ true ↔ CanBeWritten message.now) }
{
    let header = header_spells(alloc, &message.header)?;
    let props = props_spell(alloc, &message.properties)?;
    Ok(
        header
            && value_spells(&message.annotations)
            && props
            && value_spells(&message.application)
            && body_spells(&message.body),
    )
}

/// Adds the sections of a message whose body is data (AMQP 1.0 3.2.6), up to the bytes of the body,
/// or leaves `out` as it was. The bytes of the message are these and then its body, which needn't
/// be copied.
///
/// As with `put_message` are what is written of each section, which messages can be written, and
/// what is for the caller to see to.
///
/// # Errors
///
/// `Memory` where the allocator has no room for the bytes, or for a copy of the fields.
pub fn put_before_body(alloc: Global, out: &mut ByteText, message: &Message10) -> Result<(), Memory>
    requires { CanBeWritten message.now }
    ensures ok { OnOk result
        (out.new ++ body_bytes message.now.body ≡ out.old ++ message_text message.now) }
    ensures err { OnErr result (out.new ≡ out.old) }
{
    let start = out.as_slice().len();
    let written = put_sections(alloc, out, message);
    all_or_nothing(out, start, written)
}

/// Adds the sections of a message (AMQP 1.0 3.2) in their order, or leaves `out` as it was. The
/// body is one data section.
///
/// Of a header and of properties an absent field is null, and so is first-acquirer where it is
/// false, and delivery-count where it is 0. Nulls at the end are left out, and each value has its
/// shortest encoding.
///
/// The body must be data, and each section must have a spelling, as `can_be_written` tells: strings
/// are UTF-8, symbols ASCII, its depth is at most 16, and it has fewer than 2^32 bytes. That ids,
/// annotations and properties of the application have the types of their rows is for the caller to
/// see to: without it other bytes are written than a message has.
///
/// # Errors
///
/// `Memory` where the allocator has no room for the bytes, or for a copy of the fields.
#[tactic(auto, using(crate::proofs::Written::front_stands))]
pub fn put_message(alloc: Global, out: &mut ByteText, message: &Message10) -> Result<(), Memory>
    requires { CanBeWritten message.now }
    ensures ok { OnOk result (out.new ≡ out.old ++ message_text message.now) }
    ensures err { OnErr result (out.new ≡ out.old) }
{
    let start = out.as_slice().len();
    put_before_body(alloc, out, message)?;
    let written = put_body_bytes(out, &message.body);
    all_or_nothing(out, start, written)
}
