//! This file is written by tools/make_methods.py from the published definition of AMQP 0-9-1.
//!
//! The class queue (AMQP 0-9-1 1.7).

ghost use Rattle.std.specs.Prelude.{◌≡◌, ◌≢◌, ◌++◌, length, take, None, OnOk, OnErr};
ghost use Rattle.wire_base.specs.Reading.{Gives};
ghost use Rattle.methods_091.specs.Rows.{as_queue};
ghost use Rattle.methods_091.specs.View.{kind_of, args_of, parts_of};
ghost use Rattle.methods_091.specs.Reading.{row_in};
ghost use Rattle.methods_091.specs.Writing.{args_text, CanPut, HasRanges};

use crate::arguments::{bit, octet_of_1, octet_of_3, octet_of_5, put_shortstr, shortstr_in};
use crate::kind::{MethodKind, QueueKind};
use crate::method::Method91;
use std::alloc::Global;
use tables_091::{next_table, put_table};
use wire_base::{ByteText, Memory, Stop, put_u8, put_u16, put_u32, u8_in, u16_in, u32_in};

/// The kind of a method of the class; `None` where it is of another.
pub(crate) fn kind(method: &Method91) -> Option<QueueKind>
    ensures { result ≡ as_queue (kind_of method.now) }
{
    match method {
        Method91::QueueDeclare { .. } => Some(QueueKind::Declare),
        Method91::QueueDeclareOk { .. } => Some(QueueKind::DeclareOk),
        Method91::QueueBind { .. } => Some(QueueKind::Bind),
        Method91::QueueBindOk => Some(QueueKind::BindOk),
        Method91::QueuePurge { .. } => Some(QueueKind::Purge),
        Method91::QueuePurgeOk { .. } => Some(QueueKind::PurgeOk),
        Method91::QueueDelete { .. } => Some(QueueKind::Delete),
        Method91::QueueDeleteOk { .. } => Some(QueueKind::DeleteOk),
        Method91::QueueUnbind { .. } => Some(QueueKind::Unbind),
        Method91::QueueUnbindOk => Some(QueueKind::UnbindOk),
        _ => None,
    }
}

/// The arguments of queue.declare.
fn declare_in(alloc: Global, end: usize, bytes: &[u8]) -> Result<(Method91, &[u8]), Stop<usize>>
    ensures { Gives (λ x. (parts_of x.0, x.1.now)) result
        (row_in (MethodKind.Queue QueueKind.Declare) end bytes.now) }
{
    let (_, rest) = u16_in(end, bytes)?;
    let (queue, rest) = shortstr_in(alloc, end, rest)?;
    let (flags, rest) = u8_in(end, rest)?;
    let (arguments, rest) = next_table(alloc, end, rest)?;
    let method = Method91::QueueDeclare {
        queue,
        passive: bit(flags, 0),
        durable: bit(flags, 1),
        exclusive: bit(flags, 2),
        auto_delete: bit(flags, 3),
        no_wait: bit(flags, 4),
        arguments,
    };
    Ok((method, rest))
}

/// The arguments of queue.declare-ok.
fn declare_ok_in(alloc: Global, end: usize, bytes: &[u8]) -> Result<(Method91, &[u8]), Stop<usize>>
    ensures { Gives (λ x. (parts_of x.0, x.1.now)) result
        (row_in (MethodKind.Queue QueueKind.DeclareOk) end bytes.now) }
{
    let (queue, rest) = shortstr_in(alloc, end, bytes)?;
    let (message_count, rest) = u32_in(end, rest)?;
    let (consumer_count, rest) = u32_in(end, rest)?;
    let method = Method91::QueueDeclareOk {
        queue,
        message_count,
        consumer_count,
    };
    Ok((method, rest))
}

/// The arguments of queue.bind.
fn bind_in(alloc: Global, end: usize, bytes: &[u8]) -> Result<(Method91, &[u8]), Stop<usize>>
    ensures { Gives (λ x. (parts_of x.0, x.1.now)) result
        (row_in (MethodKind.Queue QueueKind.Bind) end bytes.now) }
{
    let (_, rest) = u16_in(end, bytes)?;
    let (queue, rest) = shortstr_in(alloc, end, rest)?;
    let (exchange, rest) = shortstr_in(alloc, end, rest)?;
    let (routing_key, rest) = shortstr_in(alloc, end, rest)?;
    let (flags, rest) = u8_in(end, rest)?;
    let (arguments, rest) = next_table(alloc, end, rest)?;
    let method = Method91::QueueBind {
        queue,
        exchange,
        routing_key,
        no_wait: bit(flags, 0),
        arguments,
    };
    Ok((method, rest))
}

/// The arguments of queue.purge.
fn purge_in(alloc: Global, end: usize, bytes: &[u8]) -> Result<(Method91, &[u8]), Stop<usize>>
    ensures { Gives (λ x. (parts_of x.0, x.1.now)) result
        (row_in (MethodKind.Queue QueueKind.Purge) end bytes.now) }
{
    let (_, rest) = u16_in(end, bytes)?;
    let (queue, rest) = shortstr_in(alloc, end, rest)?;
    let (flags, rest) = u8_in(end, rest)?;
    let method = Method91::QueuePurge {
        queue,
        no_wait: bit(flags, 0),
    };
    Ok((method, rest))
}

/// The arguments of queue.purge-ok.
fn purge_ok_in(end: usize, bytes: &[u8]) -> Result<(Method91, &[u8]), Stop<usize>>
    ensures { Gives (λ x. (parts_of x.0, x.1.now)) result
        (row_in (MethodKind.Queue QueueKind.PurgeOk) end bytes.now) }
{
    let (message_count, rest) = u32_in(end, bytes)?;
    let method = Method91::QueuePurgeOk { message_count };
    Ok((method, rest))
}

/// The arguments of queue.delete.
fn delete_in(alloc: Global, end: usize, bytes: &[u8]) -> Result<(Method91, &[u8]), Stop<usize>>
    ensures { Gives (λ x. (parts_of x.0, x.1.now)) result
        (row_in (MethodKind.Queue QueueKind.Delete) end bytes.now) }
{
    let (_, rest) = u16_in(end, bytes)?;
    let (queue, rest) = shortstr_in(alloc, end, rest)?;
    let (flags, rest) = u8_in(end, rest)?;
    let method = Method91::QueueDelete {
        queue,
        if_unused: bit(flags, 0),
        if_empty: bit(flags, 1),
        no_wait: bit(flags, 2),
    };
    Ok((method, rest))
}

/// The arguments of queue.delete-ok.
fn delete_ok_in(end: usize, bytes: &[u8]) -> Result<(Method91, &[u8]), Stop<usize>>
    ensures { Gives (λ x. (parts_of x.0, x.1.now)) result
        (row_in (MethodKind.Queue QueueKind.DeleteOk) end bytes.now) }
{
    let (message_count, rest) = u32_in(end, bytes)?;
    let method = Method91::QueueDeleteOk { message_count };
    Ok((method, rest))
}

/// The arguments of queue.unbind.
fn unbind_in(alloc: Global, end: usize, bytes: &[u8]) -> Result<(Method91, &[u8]), Stop<usize>>
    ensures { Gives (λ x. (parts_of x.0, x.1.now)) result
        (row_in (MethodKind.Queue QueueKind.Unbind) end bytes.now) }
{
    let (_, rest) = u16_in(end, bytes)?;
    let (queue, rest) = shortstr_in(alloc, end, rest)?;
    let (exchange, rest) = shortstr_in(alloc, end, rest)?;
    let (routing_key, rest) = shortstr_in(alloc, end, rest)?;
    let (arguments, rest) = next_table(alloc, end, rest)?;
    let method = Method91::QueueUnbind {
        queue,
        exchange,
        routing_key,
        arguments,
    };
    Ok((method, rest))
}

/// The arguments of a method of the class.
pub(crate) fn method_in(
    alloc: Global,
    kind: QueueKind,
    end: usize,
    bytes: &[u8],
) -> Result<(Method91, &[u8]), Stop<usize>>
    ensures { Gives (λ x. (parts_of x.0, x.1.now)) result
        (row_in (MethodKind.Queue kind) end bytes.now) }
{
    match kind {
        QueueKind::Declare => declare_in(alloc, end, bytes),
        QueueKind::DeclareOk => declare_ok_in(alloc, end, bytes),
        QueueKind::Bind => bind_in(alloc, end, bytes),
        QueueKind::BindOk => Ok((Method91::QueueBindOk, bytes)),
        QueueKind::Purge => purge_in(alloc, end, bytes),
        QueueKind::PurgeOk => purge_ok_in(end, bytes),
        QueueKind::Delete => delete_in(alloc, end, bytes),
        QueueKind::DeleteOk => delete_ok_in(end, bytes),
        QueueKind::Unbind => unbind_in(alloc, end, bytes),
        QueueKind::UnbindOk => Ok((Method91::QueueUnbindOk, bytes)),
    }
}

/// Writes the arguments of queue.declare.
fn put_declare(out: &mut ByteText, method: &Method91) -> Result<(), Memory>
    requires kind { kind_of method.now ≡ MethodKind.Queue QueueKind.Declare }
    requires can { CanPut method.now }
    ensures ok { OnOk result (out.new ≡ out.old ++ args_text (args_of method.now)) }
    ensures err { OnErr result (take (length out.old) out.new ≡ out.old) }
{
    let Method91::QueueDeclare {
        queue,
        passive,
        durable,
        exclusive,
        auto_delete,
        no_wait,
        arguments,
    } = method
    else {
        unreachable!()
    };
    put_u16(out, 0)?;
    put_shortstr(out, queue)?;
    put_u8(
        out,
        octet_of_5(*passive, *durable, *exclusive, *auto_delete, *no_wait),
    )?;
    put_table(out, arguments)
}

/// Writes the arguments of queue.declare-ok.
fn put_declare_ok(out: &mut ByteText, method: &Method91) -> Result<(), Memory>
    requires kind { kind_of method.now ≡ MethodKind.Queue QueueKind.DeclareOk }
    requires can { CanPut method.now }
    ensures ok { OnOk result (out.new ≡ out.old ++ args_text (args_of method.now)) }
    ensures err { OnErr result (take (length out.old) out.new ≡ out.old) }
{
    let Method91::QueueDeclareOk {
        queue,
        message_count,
        consumer_count,
    } = method
    else {
        unreachable!()
    };
    put_shortstr(out, queue)?;
    put_u32(out, *message_count)?;
    put_u32(out, *consumer_count)
}

/// Writes the arguments of queue.bind.
fn put_bind(out: &mut ByteText, method: &Method91) -> Result<(), Memory>
    requires kind { kind_of method.now ≡ MethodKind.Queue QueueKind.Bind }
    requires can { CanPut method.now }
    ensures ok { OnOk result (out.new ≡ out.old ++ args_text (args_of method.now)) }
    ensures err { OnErr result (take (length out.old) out.new ≡ out.old) }
{
    let Method91::QueueBind {
        queue,
        exchange,
        routing_key,
        no_wait,
        arguments,
    } = method
    else {
        unreachable!()
    };
    put_u16(out, 0)?;
    put_shortstr(out, queue)?;
    put_shortstr(out, exchange)?;
    put_shortstr(out, routing_key)?;
    put_u8(out, octet_of_1(*no_wait))?;
    put_table(out, arguments)
}

/// Writes the arguments of queue.purge.
fn put_purge(out: &mut ByteText, method: &Method91) -> Result<(), Memory>
    requires kind { kind_of method.now ≡ MethodKind.Queue QueueKind.Purge }
    requires can { CanPut method.now }
    ensures ok { OnOk result (out.new ≡ out.old ++ args_text (args_of method.now)) }
    ensures err { OnErr result (take (length out.old) out.new ≡ out.old) }
{
    let Method91::QueuePurge { queue, no_wait } = method else {
        unreachable!()
    };
    put_u16(out, 0)?;
    put_shortstr(out, queue)?;
    put_u8(out, octet_of_1(*no_wait))
}

/// Writes the arguments of queue.delete.
fn put_delete(out: &mut ByteText, method: &Method91) -> Result<(), Memory>
    requires kind { kind_of method.now ≡ MethodKind.Queue QueueKind.Delete }
    requires can { CanPut method.now }
    ensures ok { OnOk result (out.new ≡ out.old ++ args_text (args_of method.now)) }
    ensures err { OnErr result (take (length out.old) out.new ≡ out.old) }
{
    let Method91::QueueDelete {
        queue,
        if_unused,
        if_empty,
        no_wait,
    } = method
    else {
        unreachable!()
    };
    put_u16(out, 0)?;
    put_shortstr(out, queue)?;
    put_u8(out, octet_of_3(*if_unused, *if_empty, *no_wait))
}

/// Writes the arguments of queue.unbind.
fn put_unbind(out: &mut ByteText, method: &Method91) -> Result<(), Memory>
    requires kind { kind_of method.now ≡ MethodKind.Queue QueueKind.Unbind }
    requires can { CanPut method.now }
    ensures ok { OnOk result (out.new ≡ out.old ++ args_text (args_of method.now)) }
    ensures err { OnErr result (take (length out.old) out.new ≡ out.old) }
{
    let Method91::QueueUnbind {
        queue,
        exchange,
        routing_key,
        arguments,
    } = method
    else {
        unreachable!()
    };
    put_u16(out, 0)?;
    put_shortstr(out, queue)?;
    put_shortstr(out, exchange)?;
    put_shortstr(out, routing_key)?;
    put_table(out, arguments)
}

/// Writes the arguments of a method of the class.
pub(crate) fn put_arguments(out: &mut ByteText, method: &Method91) -> Result<(), Memory>
    requires class { as_queue (kind_of method.now) ≢ None }
    requires can { CanPut method.now }
    ensures ok { OnOk result (out.new ≡ out.old ++ args_text (args_of method.now)) }
    ensures err { OnErr result (take (length out.old) out.new ≡ out.old) }
{
    match method {
        Method91::QueueDeclare { .. } => put_declare(out, method),
        Method91::QueueDeclareOk { .. } => put_declare_ok(out, method),
        Method91::QueueBind { .. } => put_bind(out, method),
        Method91::QueuePurge { .. } => put_purge(out, method),
        Method91::QueuePurgeOk { message_count } => put_u32(out, *message_count),
        Method91::QueueDelete { .. } => put_delete(out, method),
        Method91::QueueDeleteOk { message_count } => put_u32(out, *message_count),
        Method91::QueueUnbind { .. } => put_unbind(out, method),
        Method91::QueueBindOk | Method91::QueueUnbindOk => Ok(()),
        _ => unreachable!(),
    }
}

/// Tells proofs that the numbers of a method of the class are of their types. The call does
/// nothing.
pub(crate) fn tell_ranges(method: &Method91)
    ensures { (kind : QueueKind) → kind_of method.now ≡ MethodKind.Queue kind
        → HasRanges method.now }
{
    match method {
        Method91::QueueDeclare { arguments, .. }
        | Method91::QueueBind { arguments, .. }
        | Method91::QueueUnbind { arguments, .. } => arguments.tell_ranges(),
        Method91::QueueDeclareOk {
            message_count,
            consumer_count,
            ..
        } => {
            let _known = (*message_count, *consumer_count);
        }
        Method91::QueuePurgeOk { message_count } | Method91::QueueDeleteOk { message_count } => {
            let _known = *message_count;
        }
        _ => {}
    }
}
