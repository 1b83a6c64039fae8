//! This file is written by tools/make_methods.py from the published definition of AMQP 0-9-1.
//!
//! The class channel (AMQP 0-9-1 1.5).

ghost use Rattle.std.specs.Prelude.{◌≡◌, ◌≢◌, ◌++◌, length, take, None, OnOk, OnErr};
ghost use Rattle.wire_base.specs.Reading.{Gives};
ghost use Rattle.methods_091.specs.Rows.{as_channel};
ghost use Rattle.methods_091.specs.View.{kind_of, args_of, parts_of};
ghost use Rattle.methods_091.specs.Reading.{row_in};
ghost use Rattle.methods_091.specs.Writing.{args_text, CanPut, HasRanges};

use crate::arguments::{bit, octet_of_1, put_shortstr, shortstr_in};
use crate::kind::{ChannelKind, MethodKind};
use crate::method::Method91;
use std::alloc::Global;
use wire_base::{
    ByteText, Memory, Stop, long_in, put_u8, put_u16, put_u32, short_in, u8_in, u16_in,
};

/// The kind of a method of the class; `None` where it is of another.
pub(crate) fn kind(method: &Method91) -> Option<ChannelKind>
    ensures { result ≡ as_channel (kind_of method.now) }
{
    match method {
        Method91::ChannelOpen => Some(ChannelKind::Open),
        Method91::ChannelOpenOk => Some(ChannelKind::OpenOk),
        Method91::ChannelFlow { .. } => Some(ChannelKind::Flow),
        Method91::ChannelFlowOk { .. } => Some(ChannelKind::FlowOk),
        Method91::ChannelClose { .. } => Some(ChannelKind::Close),
        Method91::ChannelCloseOk => Some(ChannelKind::CloseOk),
        _ => None,
    }
}

/// The arguments of channel.open.
fn open_in(end: usize, bytes: &[u8]) -> Result<(Method91, &[u8]), Stop<usize>>
    ensures { Gives (λ x. (parts_of x.0, x.1.now)) result
        (row_in (MethodKind.Channel ChannelKind.Open) end bytes.now) }
{
    let (_, rest) = short_in(end, bytes)?;
    Ok((Method91::ChannelOpen, rest))
}

/// The arguments of channel.open-ok.
fn open_ok_in(end: usize, bytes: &[u8]) -> Result<(Method91, &[u8]), Stop<usize>>
    ensures { Gives (λ x. (parts_of x.0, x.1.now)) result
        (row_in (MethodKind.Channel ChannelKind.OpenOk) end bytes.now) }
{
    let (_, rest) = long_in(end, bytes)?;
    Ok((Method91::ChannelOpenOk, rest))
}

/// The arguments of channel.flow.
fn flow_in(end: usize, bytes: &[u8]) -> Result<(Method91, &[u8]), Stop<usize>>
    ensures { Gives (λ x. (parts_of x.0, x.1.now)) result
        (row_in (MethodKind.Channel ChannelKind.Flow) end bytes.now) }
{
    let (flags, rest) = u8_in(end, bytes)?;
    let method = Method91::ChannelFlow {
        active: bit(flags, 0),
    };
    Ok((method, rest))
}

/// The arguments of channel.flow-ok.
fn flow_ok_in(end: usize, bytes: &[u8]) -> Result<(Method91, &[u8]), Stop<usize>>
    ensures { Gives (λ x. (parts_of x.0, x.1.now)) result
        (row_in (MethodKind.Channel ChannelKind.FlowOk) end bytes.now) }
{
    let (flags, rest) = u8_in(end, bytes)?;
    let method = Method91::ChannelFlowOk {
        active: bit(flags, 0),
    };
    Ok((method, rest))
}

/// The arguments of channel.close.
fn close_in(alloc: Global, end: usize, bytes: &[u8]) -> Result<(Method91, &[u8]), Stop<usize>>
    ensures { Gives (λ x. (parts_of x.0, x.1.now)) result
        (row_in (MethodKind.Channel ChannelKind.Close) end bytes.now) }
{
    let (reply_code, rest) = u16_in(end, bytes)?;
    let (reply_text, rest) = shortstr_in(alloc, end, rest)?;
    let (class_id, rest) = u16_in(end, rest)?;
    let (method_id, rest) = u16_in(end, rest)?;
    let method = Method91::ChannelClose {
        reply_code,
        reply_text,
        class_id,
        method_id,
    };
    Ok((method, rest))
}

/// The arguments of a method of the class.
pub(crate) fn method_in(
    alloc: Global,
    kind: ChannelKind,
    end: usize,
    bytes: &[u8],
) -> Result<(Method91, &[u8]), Stop<usize>>
    ensures { Gives (λ x. (parts_of x.0, x.1.now)) result
        (row_in (MethodKind.Channel kind) end bytes.now) }
{
    match kind {
        ChannelKind::Open => open_in(end, bytes),
        ChannelKind::OpenOk => open_ok_in(end, bytes),
        ChannelKind::Flow => flow_in(end, bytes),
        ChannelKind::FlowOk => flow_ok_in(end, bytes),
        ChannelKind::Close => close_in(alloc, end, bytes),
        ChannelKind::CloseOk => Ok((Method91::ChannelCloseOk, bytes)),
    }
}

/// Writes the arguments of channel.close.
fn put_close(out: &mut ByteText, method: &Method91) -> Result<(), Memory>
    requires kind { kind_of method.now ≡ MethodKind.Channel ChannelKind.Close }
    requires can { CanPut method.now }
    ensures ok { OnOk result (out.new ≡ out.old ++ args_text (args_of method.now)) }
    ensures err { OnErr result (take (length out.old) out.new ≡ out.old) }
{
    let Method91::ChannelClose {
        reply_code,
        reply_text,
        class_id,
        method_id,
    } = method
    else {
        unreachable!()
    };
    put_u16(out, *reply_code)?;
    put_shortstr(out, reply_text)?;
    put_u16(out, *class_id)?;
    put_u16(out, *method_id)
}

/// Writes the arguments of a method of the class.
pub(crate) fn put_arguments(out: &mut ByteText, method: &Method91) -> Result<(), Memory>
    requires class { as_channel (kind_of method.now) ≢ None }
    requires can { CanPut method.now }
    ensures ok { OnOk result (out.new ≡ out.old ++ args_text (args_of method.now)) }
    ensures err { OnErr result (take (length out.old) out.new ≡ out.old) }
{
    match method {
        Method91::ChannelOpen => put_u8(out, 0),
        Method91::ChannelOpenOk => put_u32(out, 0),
        Method91::ChannelFlow { active } => put_u8(out, octet_of_1(*active)),
        Method91::ChannelFlowOk { active } => put_u8(out, octet_of_1(*active)),
        Method91::ChannelClose { .. } => put_close(out, method),
        Method91::ChannelCloseOk => Ok(()),
        _ => unreachable!(),
    }
}

/// Tells proofs that the numbers of a method of the class are of their types. The call does
/// nothing.
pub(crate) fn tell_ranges(method: &Method91)
    ensures { (kind : ChannelKind) → kind_of method.now ≡ MethodKind.Channel kind
        → HasRanges method.now }
{
    match method {
        Method91::ChannelClose {
            reply_code,
            class_id,
            method_id,
            ..
        } => {
            let _known = (*reply_code, *class_id, *method_id);
        }
        _ => {}
    }
}
