//! Writing content headers.
//!
//! Where a private function of this crate that writes answers `Memory`, what stood in `out` before
//! still stands at its front.

ghost use Rattle.std.specs.Prelude.{◌≡◌, ℕ, ◌<◌, ◌++◌, length, take, OnOk, OnErr};
ghost use Rattle.content_091.specs.Rows.{later_rows, rows};
ghost use Rattle.content_091.specs.View.{later_of, props_of};
ghost use Rattle.content_091.specs.Grammar.{IsHeader};
ghost use Rattle.content_091.specs.Writing.{flags_of, head_text, earlier_text, later_text};
ghost use Rattle.content_091.specs.Writing.{header_text, CanPutAll, CanPut};

use crate::header::{BASIC, Header91, Props};
use crate::properties::{
    longlong_flag, octet_flag, put_fields, put_longlong, put_octet, put_text, table_flag, text_flag,
};
use wire_base::{ByteText, Memory, put_u16, put_u64};

/// The bits of the properties from expiration on.
fn later_flags(props: &Props) -> u16
    ensures value { result ≡ flags_of later_rows (later_of props.now) }
    ensures range { result < 512 }
{
    text_flag(8, &props.expiration)
        + text_flag(7, &props.message_id)
        + longlong_flag(6, &props.timestamp)
        + text_flag(5, &props.kind)
        + text_flag(4, &props.user_id)
        + text_flag(3, &props.app_id)
        + text_flag(2, &props.cluster_id)
}

/// The flags: the bits of the properties that are there.
fn flags(props: &Props) -> u16
    ensures { result ≡ flags_of rows (props_of props.now) }
{
    text_flag(15, &props.content_type)
        + text_flag(14, &props.content_encoding)
        + table_flag(13, &props.headers)
        + octet_flag(12, &props.delivery_mode)
        + octet_flag(11, &props.priority)
        + text_flag(10, &props.correlation_id)
        + text_flag(9, &props.reply_to)
        + later_flags(props)
}

/// The properties up to reply-to.
#[tactic(auto, unfolding(crate::specs::Writing::earlier_text))]
fn put_earlier(out: &mut ByteText, props: &Props) -> Result<(), Memory>
    requires { CanPutAll (props_of props.now) }
    ensures ok { OnOk result (out.new ≡ out.old ++ earlier_text props.now) }
    ensures err { OnErr result (take (length out.old) out.new ≡ out.old) }
{
    put_text(out, &props.content_type)?;
    put_text(out, &props.content_encoding)?;
    put_fields(out, &props.headers)?;
    put_octet(out, &props.delivery_mode)?;
    put_octet(out, &props.priority)?;
    put_text(out, &props.correlation_id)?;
    put_text(out, &props.reply_to)?;
    Ok(())
}

/// The properties from expiration on.
#[tactic(auto, unfolding(crate::specs::Writing::later_text))]
fn put_later(out: &mut ByteText, props: &Props) -> Result<(), Memory>
    requires { CanPutAll (props_of props.now) }
    ensures ok { OnOk result (out.new ≡ out.old ++ later_text props.now) }
    ensures err { OnErr result (take (length out.old) out.new ≡ out.old) }
{
    put_text(out, &props.expiration)?;
    put_text(out, &props.message_id)?;
    put_longlong(out, &props.timestamp)?;
    put_text(out, &props.kind)?;
    put_text(out, &props.user_id)?;
    put_text(out, &props.app_id)?;
    put_text(out, &props.cluster_id)?;
    Ok(())
}

/// Class, weight, size and flags.
#[tactic(auto, unfolding(crate::specs::Writing::head_text))]
fn put_head(
    out: &mut ByteText,
    class: u16,
    weight: u16,
    size: u64,
    flags: u16,
) -> Result<(), Memory>
    ensures ok { OnOk result (out.new ≡ out.old ++ head_text class weight size flags) }
    ensures err { OnErr result (take (length out.old) out.new ≡ out.old) }
{
    put_u16(out, class)?;
    put_u16(out, weight)?;
    put_u64(out, size)?;
    put_u16(out, flags)?;
    Ok(())
}

/// Class, weight, size, flags and properties.
fn append_header(out: &mut ByteText, header: &Header91) -> Result<(), Memory>
    requires { CanPut header.now }
    ensures ok { OnOk result (out.new ≡ out.old ++ header_text header.now) }
    ensures err { OnErr result (take (length out.old) out.new ≡ out.old) }
{
    put_head(out, BASIC, 0, header.size, flags(&header.props))?;
    put_earlier(out, &header.props)?;
    put_later(out, &header.props)
}

/// Adds the spelling of a header, which is the payload of a content header frame, or leaves `out`
/// as it was.
///
/// Short strings have at most 255 bytes, and headers are as `put_table` needs.
///
/// # Errors
///
/// `Memory` where the allocator has no room.
pub fn put_header(out: &mut ByteText, header: &Header91) -> Result<(), Memory>
    requires { CanPut header.now }
    ensures ok { OnOk result (out.new ≡ out.old ++ header_text header.now) }
    ensures err { OnErr result (out.new ≡ out.old) }
    // What is written is in the grammar.
    ensures spelled { IsHeader header.now (header_text header.now) }
{
    header.tell_ranges();
    let start = out.as_slice().len();
    let written = append_header(out, header);
    if written.is_err() {
        out.truncate(start);
    }
    written
}
