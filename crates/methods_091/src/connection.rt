//! This file is written by tools/make_methods.py from the published definition of AMQP 0-9-1.
//!
//! The class connection (AMQP 0-9-1 1.4).

ghost use Rattle.std.specs.Prelude.{◌≡◌, ◌≢◌, ◌++◌, length, take, None, OnOk, OnErr};
ghost use Rattle.wire_base.specs.Reading.{Gives};
ghost use Rattle.methods_091.specs.Rows.{as_connection};
ghost use Rattle.methods_091.specs.View.{kind_of, args_of, parts_of};
ghost use Rattle.methods_091.specs.Reading.{row_in};
ghost use Rattle.methods_091.specs.Writing.{args_text, CanPut, HasRanges};

use crate::arguments::{
    longstr_in, put_longstr, put_longstrs, put_shortstr, put_version, shortstr_in,
};
use crate::kind::{ConnectionKind, MethodKind};
use crate::method::Method91;
use std::alloc::Global;
use tables_091::{next_table, put_table};
use wire_base::{
    ByteText, Memory, Stop, put_u8, put_u16, put_u32, short_in, u8_in, u16_in, u32_in,
};

/// The kind of a method of the class; `None` where it is of another.
pub(crate) fn kind(method: &Method91) -> Option<ConnectionKind>
    ensures { result ≡ as_connection (kind_of method.now) }
{
    match method {
        Method91::ConnectionStart { .. } => Some(ConnectionKind::Start),
        Method91::ConnectionStartOk { .. } => Some(ConnectionKind::StartOk),
        Method91::ConnectionSecure { .. } => Some(ConnectionKind::Secure),
        Method91::ConnectionSecureOk { .. } => Some(ConnectionKind::SecureOk),
        Method91::ConnectionTune { .. } => Some(ConnectionKind::Tune),
        Method91::ConnectionTuneOk { .. } => Some(ConnectionKind::TuneOk),
        Method91::ConnectionOpen { .. } => Some(ConnectionKind::Open),
        Method91::ConnectionOpenOk => Some(ConnectionKind::OpenOk),
        Method91::ConnectionClose { .. } => Some(ConnectionKind::Close),
        Method91::ConnectionCloseOk => Some(ConnectionKind::CloseOk),
        _ => None,
    }
}

/// The arguments of connection.start.
fn start_in(alloc: Global, end: usize, bytes: &[u8]) -> Result<(Method91, &[u8]), Stop<usize>>
    ensures { Gives (λ x. (parts_of x.0, x.1.now)) result
        (row_in (MethodKind.Connection ConnectionKind.Start) end bytes.now) }
{
    let (version_major, rest) = u8_in(end, bytes)?;
    let (version_minor, rest) = u8_in(end, rest)?;
    let (server_properties, rest) = next_table(alloc, end, rest)?;
    let (mechanisms, rest) = longstr_in(alloc, end, rest)?;
    let (locales, rest) = longstr_in(alloc, end, rest)?;
    let method = Method91::ConnectionStart {
        version_major,
        version_minor,
        server_properties,
        mechanisms,
        locales,
    };
    Ok((method, rest))
}

/// The arguments of connection.start-ok.
fn start_ok_in(alloc: Global, end: usize, bytes: &[u8]) -> Result<(Method91, &[u8]), Stop<usize>>
    ensures { Gives (λ x. (parts_of x.0, x.1.now)) result
        (row_in (MethodKind.Connection ConnectionKind.StartOk) end bytes.now) }
{
    let (client_properties, rest) = next_table(alloc, end, bytes)?;
    let (mechanism, rest) = shortstr_in(alloc, end, rest)?;
    let (response, rest) = longstr_in(alloc, end, rest)?;
    let (locale, rest) = shortstr_in(alloc, end, rest)?;
    let method = Method91::ConnectionStartOk {
        client_properties,
        mechanism,
        response,
        locale,
    };
    Ok((method, rest))
}

/// The arguments of connection.secure.
fn secure_in(alloc: Global, end: usize, bytes: &[u8]) -> Result<(Method91, &[u8]), Stop<usize>>
    ensures { Gives (λ x. (parts_of x.0, x.1.now)) result
        (row_in (MethodKind.Connection ConnectionKind.Secure) end bytes.now) }
{
    let (challenge, rest) = longstr_in(alloc, end, bytes)?;
    let method = Method91::ConnectionSecure { challenge };
    Ok((method, rest))
}

/// The arguments of connection.secure-ok.
fn secure_ok_in(alloc: Global, end: usize, bytes: &[u8]) -> Result<(Method91, &[u8]), Stop<usize>>
    ensures { Gives (λ x. (parts_of x.0, x.1.now)) result
        (row_in (MethodKind.Connection ConnectionKind.SecureOk) end bytes.now) }
{
    let (response, rest) = longstr_in(alloc, end, bytes)?;
    let method = Method91::ConnectionSecureOk { response };
    Ok((method, rest))
}

/// The arguments of connection.tune.
fn tune_in(end: usize, bytes: &[u8]) -> Result<(Method91, &[u8]), Stop<usize>>
    ensures { Gives (λ x. (parts_of x.0, x.1.now)) result
        (row_in (MethodKind.Connection ConnectionKind.Tune) end bytes.now) }
{
    let (channel_max, rest) = u16_in(end, bytes)?;
    let (frame_max, rest) = u32_in(end, rest)?;
    let (heartbeat, rest) = u16_in(end, rest)?;
    let method = Method91::ConnectionTune {
        channel_max,
        frame_max,
        heartbeat,
    };
    Ok((method, rest))
}

/// The arguments of connection.tune-ok.
fn tune_ok_in(end: usize, bytes: &[u8]) -> Result<(Method91, &[u8]), Stop<usize>>
    ensures { Gives (λ x. (parts_of x.0, x.1.now)) result
        (row_in (MethodKind.Connection ConnectionKind.TuneOk) end bytes.now) }
{
    let (channel_max, rest) = u16_in(end, bytes)?;
    let (frame_max, rest) = u32_in(end, rest)?;
    let (heartbeat, rest) = u16_in(end, rest)?;
    let method = Method91::ConnectionTuneOk {
        channel_max,
        frame_max,
        heartbeat,
    };
    Ok((method, rest))
}

/// The arguments of connection.open.
fn open_in(alloc: Global, end: usize, bytes: &[u8]) -> Result<(Method91, &[u8]), Stop<usize>>
    ensures { Gives (λ x. (parts_of x.0, x.1.now)) result
        (row_in (MethodKind.Connection ConnectionKind.Open) end bytes.now) }
{
    let (virtual_host, rest) = shortstr_in(alloc, end, bytes)?;
    let (_, rest) = short_in(end, rest)?;
    let (_, rest) = u8_in(end, rest)?;
    let method = Method91::ConnectionOpen { virtual_host };
    Ok((method, rest))
}

/// The arguments of connection.open-ok.
fn open_ok_in(end: usize, bytes: &[u8]) -> Result<(Method91, &[u8]), Stop<usize>>
    ensures { Gives (λ x. (parts_of x.0, x.1.now)) result
        (row_in (MethodKind.Connection ConnectionKind.OpenOk) end bytes.now) }
{
    let (_, rest) = short_in(end, bytes)?;
    Ok((Method91::ConnectionOpenOk, rest))
}

/// The arguments of connection.close.
fn close_in(alloc: Global, end: usize, bytes: &[u8]) -> Result<(Method91, &[u8]), Stop<usize>>
    ensures { Gives (λ x. (parts_of x.0, x.1.now)) result
        (row_in (MethodKind.Connection ConnectionKind.Close) end bytes.now) }
{
    let (reply_code, rest) = u16_in(end, bytes)?;
    let (reply_text, rest) = shortstr_in(alloc, end, rest)?;
    let (class_id, rest) = u16_in(end, rest)?;
    let (method_id, rest) = u16_in(end, rest)?;
    let method = Method91::ConnectionClose {
        reply_code,
        reply_text,
        class_id,
        method_id,
    };
    Ok((method, rest))
}

/// The arguments of a method of the class.
pub(crate) fn method_in(
    alloc: Global,
    kind: ConnectionKind,
    end: usize,
    bytes: &[u8],
) -> Result<(Method91, &[u8]), Stop<usize>>
    ensures { Gives (λ x. (parts_of x.0, x.1.now)) result
        (row_in (MethodKind.Connection kind) end bytes.now) }
{
    match kind {
        ConnectionKind::Start => start_in(alloc, end, bytes),
        ConnectionKind::StartOk => start_ok_in(alloc, end, bytes),
        ConnectionKind::Secure => secure_in(alloc, end, bytes),
        ConnectionKind::SecureOk => secure_ok_in(alloc, end, bytes),
        ConnectionKind::Tune => tune_in(end, bytes),
        ConnectionKind::TuneOk => tune_ok_in(end, bytes),
        ConnectionKind::Open => open_in(alloc, end, bytes),
        ConnectionKind::OpenOk => open_ok_in(end, bytes),
        ConnectionKind::Close => close_in(alloc, end, bytes),
        ConnectionKind::CloseOk => Ok((Method91::ConnectionCloseOk, bytes)),
    }
}

/// Writes the arguments of connection.start.
fn put_start(out: &mut ByteText, method: &Method91) -> Result<(), Memory>
    requires kind { kind_of method.now ≡ MethodKind.Connection ConnectionKind.Start }
    requires can { CanPut method.now }
    ensures ok { OnOk result (out.new ≡ out.old ++ args_text (args_of method.now)) }
    ensures err { OnErr result (take (length out.old) out.new ≡ out.old) }
{
    let Method91::ConnectionStart {
        version_major,
        version_minor,
        server_properties,
        mechanisms,
        locales,
    } = method
    else {
        unreachable!()
    };
    put_version(out, *version_major, *version_minor)?;
    put_table(out, server_properties)?;
    put_longstrs(out, mechanisms, locales)
}

/// Writes the arguments of connection.start-ok.
fn put_start_ok(out: &mut ByteText, method: &Method91) -> Result<(), Memory>
    requires kind { kind_of method.now ≡ MethodKind.Connection ConnectionKind.StartOk }
    requires can { CanPut method.now }
    ensures ok { OnOk result (out.new ≡ out.old ++ args_text (args_of method.now)) }
    ensures err { OnErr result (take (length out.old) out.new ≡ out.old) }
{
    let Method91::ConnectionStartOk {
        client_properties,
        mechanism,
        response,
        locale,
    } = method
    else {
        unreachable!()
    };
    put_table(out, client_properties)?;
    put_shortstr(out, mechanism)?;
    put_longstr(out, response)?;
    put_shortstr(out, locale)
}

/// Writes the arguments of connection.tune.
fn put_tune(out: &mut ByteText, method: &Method91) -> Result<(), Memory>
    requires kind { kind_of method.now ≡ MethodKind.Connection ConnectionKind.Tune }
    ensures ok { OnOk result (out.new ≡ out.old ++ args_text (args_of method.now)) }
    ensures err { OnErr result (take (length out.old) out.new ≡ out.old) }
{
    let Method91::ConnectionTune {
        channel_max,
        frame_max,
        heartbeat,
    } = method
    else {
        unreachable!()
    };
    put_u16(out, *channel_max)?;
    put_u32(out, *frame_max)?;
    put_u16(out, *heartbeat)
}

/// Writes the arguments of connection.tune-ok.
fn put_tune_ok(out: &mut ByteText, method: &Method91) -> Result<(), Memory>
    requires kind { kind_of method.now ≡ MethodKind.Connection ConnectionKind.TuneOk }
    ensures ok { OnOk result (out.new ≡ out.old ++ args_text (args_of method.now)) }
    ensures err { OnErr result (take (length out.old) out.new ≡ out.old) }
{
    let Method91::ConnectionTuneOk {
        channel_max,
        frame_max,
        heartbeat,
    } = method
    else {
        unreachable!()
    };
    put_u16(out, *channel_max)?;
    put_u32(out, *frame_max)?;
    put_u16(out, *heartbeat)
}

/// Writes the arguments of connection.open.
fn put_open(out: &mut ByteText, method: &Method91) -> Result<(), Memory>
    requires kind { kind_of method.now ≡ MethodKind.Connection ConnectionKind.Open }
    requires can { CanPut method.now }
    ensures ok { OnOk result (out.new ≡ out.old ++ args_text (args_of method.now)) }
    ensures err { OnErr result (take (length out.old) out.new ≡ out.old) }
{
    let Method91::ConnectionOpen { virtual_host } = method else {
        unreachable!()
    };
    put_shortstr(out, virtual_host)?;
    put_u8(out, 0)?;
    put_u8(out, 0)
}

/// Writes the arguments of connection.close.
fn put_close(out: &mut ByteText, method: &Method91) -> Result<(), Memory>
    requires kind { kind_of method.now ≡ MethodKind.Connection ConnectionKind.Close }
    requires can { CanPut method.now }
    ensures ok { OnOk result (out.new ≡ out.old ++ args_text (args_of method.now)) }
    ensures err { OnErr result (take (length out.old) out.new ≡ out.old) }
{
    let Method91::ConnectionClose {
        reply_code,
        reply_text,
        class_id,
        method_id,
    } = method
    else {
        unreachable!()
    };
    put_u16(out, *reply_code)?;
    put_shortstr(out, reply_text)?;
    put_u16(out, *class_id)?;
    put_u16(out, *method_id)
}

/// Writes the arguments of a method of the class.
pub(crate) fn put_arguments(out: &mut ByteText, method: &Method91) -> Result<(), Memory>
    requires class { as_connection (kind_of method.now) ≢ None }
    requires can { CanPut method.now }
    ensures ok { OnOk result (out.new ≡ out.old ++ args_text (args_of method.now)) }
    ensures err { OnErr result (take (length out.old) out.new ≡ out.old) }
{
    match method {
        Method91::ConnectionStart { .. } => put_start(out, method),
        Method91::ConnectionStartOk { .. } => put_start_ok(out, method),
        Method91::ConnectionSecure { challenge } => put_longstr(out, challenge),
        Method91::ConnectionSecureOk { response } => put_longstr(out, response),
        Method91::ConnectionTune { .. } => put_tune(out, method),
        Method91::ConnectionTuneOk { .. } => put_tune_ok(out, method),
        Method91::ConnectionOpen { .. } => put_open(out, method),
        Method91::ConnectionOpenOk => put_u8(out, 0),
        Method91::ConnectionClose { .. } => put_close(out, method),
        Method91::ConnectionCloseOk => Ok(()),
        _ => unreachable!(),
    }
}

/// Tells proofs that the numbers of a method of the class are of their types. The call does
/// nothing.
pub(crate) fn tell_ranges(method: &Method91)
    ensures { (kind : ConnectionKind) → kind_of method.now ≡ MethodKind.Connection kind
        → HasRanges method.now }
{
    match method {
        Method91::ConnectionStart {
            version_major,
            version_minor,
            server_properties,
            ..
        } => {
            let _known = (*version_major, *version_minor);
            server_properties.tell_ranges();
        }
        Method91::ConnectionStartOk {
            client_properties,
            ..
        } => client_properties.tell_ranges(),
        Method91::ConnectionTune {
            channel_max,
            frame_max,
            heartbeat,
        }
        | Method91::ConnectionTuneOk {
            channel_max,
            frame_max,
            heartbeat,
        } => {
            let _known = (*channel_max, *frame_max, *heartbeat);
        }
        Method91::ConnectionClose {
            reply_code,
            class_id,
            method_id,
            ..
        } => {
            let _known = (*reply_code, *class_id, *method_id);
        }
        _ => {}
    }
}
