//! This file is written by tools/make_methods.py from the published definition of AMQP 0-9-1.
//!
//! The class basic (AMQP 0-9-1 1.8, with basic.nack of RabbitMQ).

ghost use Rattle.std.specs.Prelude.{◌≡◌, ◌≢◌, ◌++◌, length, take, None, OnOk, OnErr};
ghost use Rattle.wire_base.specs.Reading.{Gives};
ghost use Rattle.methods_091.specs.Rows.{as_basic};
ghost use Rattle.methods_091.specs.View.{kind_of, args_of, parts_of};
ghost use Rattle.methods_091.specs.Reading.{row_in};
ghost use Rattle.methods_091.specs.Writing.{args_text, CanPut, HasRanges};

use crate::arguments::{
    bit, octet_of_1, octet_of_2, octet_of_4, put_shortstr, put_tag, shortstr_in,
};
use crate::kind::{BasicKind, MethodKind};
use crate::method::Method91;
use std::alloc::Global;
use tables_091::{next_table, put_table};
use wire_base::{
    ByteText, Memory, Stop, put_u8, put_u16, put_u32, put_u64, short_in, u8_in, u16_in, u32_in,
    u64_in,
};

/// The kind of a method of the class; `None` where it is of another.
pub(crate) fn kind(method: &Method91) -> Option<BasicKind>
    ensures { result ≡ as_basic (kind_of method.now) }
{
    match method {
        Method91::BasicQos { .. } => Some(BasicKind::Qos),
        Method91::BasicQosOk => Some(BasicKind::QosOk),
        Method91::BasicConsume { .. } => Some(BasicKind::Consume),
        Method91::BasicConsumeOk { .. } => Some(BasicKind::ConsumeOk),
        Method91::BasicCancel { .. } => Some(BasicKind::Cancel),
        Method91::BasicCancelOk { .. } => Some(BasicKind::CancelOk),
        Method91::BasicPublish { .. } => Some(BasicKind::Publish),
        Method91::BasicReturn { .. } => Some(BasicKind::Return),
        Method91::BasicDeliver { .. } => Some(BasicKind::Deliver),
        Method91::BasicGet { .. } => Some(BasicKind::Get),
        Method91::BasicGetOk { .. } => Some(BasicKind::GetOk),
        Method91::BasicGetEmpty => Some(BasicKind::GetEmpty),
        Method91::BasicAck { .. } => Some(BasicKind::Ack),
        Method91::BasicReject { .. } => Some(BasicKind::Reject),
        Method91::BasicRecoverAsync { .. } => Some(BasicKind::RecoverAsync),
        Method91::BasicRecover { .. } => Some(BasicKind::Recover),
        Method91::BasicRecoverOk => Some(BasicKind::RecoverOk),
        Method91::BasicNack { .. } => Some(BasicKind::Nack),
        _ => None,
    }
}

/// The arguments of basic.qos.
fn qos_in(end: usize, bytes: &[u8]) -> Result<(Method91, &[u8]), Stop<usize>>
    ensures { Gives (λ x. (parts_of x.0, x.1.now)) result
        (row_in (MethodKind.Basic BasicKind.Qos) end bytes.now) }
{
    let (prefetch_size, rest) = u32_in(end, bytes)?;
    let (prefetch_count, rest) = u16_in(end, rest)?;
    let (flags, rest) = u8_in(end, rest)?;
    let method = Method91::BasicQos {
        prefetch_size,
        prefetch_count,
        global: bit(flags, 0),
    };
    Ok((method, rest))
}

/// The arguments of basic.consume.
fn consume_in(alloc: Global, end: usize, bytes: &[u8]) -> Result<(Method91, &[u8]), Stop<usize>>
    ensures { Gives (λ x. (parts_of x.0, x.1.now)) result
        (row_in (MethodKind.Basic BasicKind.Consume) end bytes.now) }
{
    let (_, rest) = u16_in(end, bytes)?;
    let (queue, rest) = shortstr_in(alloc, end, rest)?;
    let (consumer_tag, rest) = shortstr_in(alloc, end, rest)?;
    let (flags, rest) = u8_in(end, rest)?;
    let (arguments, rest) = next_table(alloc, end, rest)?;
    let method = Method91::BasicConsume {
        queue,
        consumer_tag,
        no_local: bit(flags, 0),
        no_ack: bit(flags, 1),
        exclusive: bit(flags, 2),
        no_wait: bit(flags, 3),
        arguments,
    };
    Ok((method, rest))
}

/// The arguments of basic.consume-ok.
fn consume_ok_in(alloc: Global, end: usize, bytes: &[u8]) -> Result<(Method91, &[u8]), Stop<usize>>
    ensures { Gives (λ x. (parts_of x.0, x.1.now)) result
        (row_in (MethodKind.Basic BasicKind.ConsumeOk) end bytes.now) }
{
    let (consumer_tag, rest) = shortstr_in(alloc, end, bytes)?;
    let method = Method91::BasicConsumeOk { consumer_tag };
    Ok((method, rest))
}

/// The arguments of basic.cancel.
fn cancel_in(alloc: Global, end: usize, bytes: &[u8]) -> Result<(Method91, &[u8]), Stop<usize>>
    ensures { Gives (λ x. (parts_of x.0, x.1.now)) result
        (row_in (MethodKind.Basic BasicKind.Cancel) end bytes.now) }
{
    let (consumer_tag, rest) = shortstr_in(alloc, end, bytes)?;
    let (flags, rest) = u8_in(end, rest)?;
    let method = Method91::BasicCancel {
        consumer_tag,
        no_wait: bit(flags, 0),
    };
    Ok((method, rest))
}

/// The arguments of basic.cancel-ok.
fn cancel_ok_in(alloc: Global, end: usize, bytes: &[u8]) -> Result<(Method91, &[u8]), Stop<usize>>
    ensures { Gives (λ x. (parts_of x.0, x.1.now)) result
        (row_in (MethodKind.Basic BasicKind.CancelOk) end bytes.now) }
{
    let (consumer_tag, rest) = shortstr_in(alloc, end, bytes)?;
    let method = Method91::BasicCancelOk { consumer_tag };
    Ok((method, rest))
}

/// The arguments of basic.publish.
fn publish_in(alloc: Global, end: usize, bytes: &[u8]) -> Result<(Method91, &[u8]), Stop<usize>>
    ensures { Gives (λ x. (parts_of x.0, x.1.now)) result
        (row_in (MethodKind.Basic BasicKind.Publish) end bytes.now) }
{
    let (_, rest) = u16_in(end, bytes)?;
    let (exchange, rest) = shortstr_in(alloc, end, rest)?;
    let (routing_key, rest) = shortstr_in(alloc, end, rest)?;
    let (flags, rest) = u8_in(end, rest)?;
    let method = Method91::BasicPublish {
        exchange,
        routing_key,
        mandatory: bit(flags, 0),
        immediate: bit(flags, 1),
    };
    Ok((method, rest))
}

/// The arguments of basic.return.
fn return_in(alloc: Global, end: usize, bytes: &[u8]) -> Result<(Method91, &[u8]), Stop<usize>>
    ensures { Gives (λ x. (parts_of x.0, x.1.now)) result
        (row_in (MethodKind.Basic BasicKind.Return) end bytes.now) }
{
    let (reply_code, rest) = u16_in(end, bytes)?;
    let (reply_text, rest) = shortstr_in(alloc, end, rest)?;
    let (exchange, rest) = shortstr_in(alloc, end, rest)?;
    let (routing_key, rest) = shortstr_in(alloc, end, rest)?;
    let method = Method91::BasicReturn {
        reply_code,
        reply_text,
        exchange,
        routing_key,
    };
    Ok((method, rest))
}

/// The arguments of basic.deliver.
fn deliver_in(alloc: Global, end: usize, bytes: &[u8]) -> Result<(Method91, &[u8]), Stop<usize>>
    ensures { Gives (λ x. (parts_of x.0, x.1.now)) result
        (row_in (MethodKind.Basic BasicKind.Deliver) end bytes.now) }
{
    let (consumer_tag, rest) = shortstr_in(alloc, end, bytes)?;
    let (delivery_tag, rest) = u64_in(end, rest)?;
    let (flags, rest) = u8_in(end, rest)?;
    let (exchange, rest) = shortstr_in(alloc, end, rest)?;
    let (routing_key, rest) = shortstr_in(alloc, end, rest)?;
    let method = Method91::BasicDeliver {
        consumer_tag,
        delivery_tag,
        redelivered: bit(flags, 0),
        exchange,
        routing_key,
    };
    Ok((method, rest))
}

/// The arguments of basic.get.
fn get_in(alloc: Global, end: usize, bytes: &[u8]) -> Result<(Method91, &[u8]), Stop<usize>>
    ensures { Gives (λ x. (parts_of x.0, x.1.now)) result
        (row_in (MethodKind.Basic BasicKind.Get) end bytes.now) }
{
    let (_, rest) = u16_in(end, bytes)?;
    let (queue, rest) = shortstr_in(alloc, end, rest)?;
    let (flags, rest) = u8_in(end, rest)?;
    let method = Method91::BasicGet {
        queue,
        no_ack: bit(flags, 0),
    };
    Ok((method, rest))
}

/// The arguments of basic.get-ok.
fn get_ok_in(alloc: Global, end: usize, bytes: &[u8]) -> Result<(Method91, &[u8]), Stop<usize>>
    ensures { Gives (λ x. (parts_of x.0, x.1.now)) result
        (row_in (MethodKind.Basic BasicKind.GetOk) end bytes.now) }
{
    let (delivery_tag, rest) = u64_in(end, bytes)?;
    let (flags, rest) = u8_in(end, rest)?;
    let (exchange, rest) = shortstr_in(alloc, end, rest)?;
    let (routing_key, rest) = shortstr_in(alloc, end, rest)?;
    let (message_count, rest) = u32_in(end, rest)?;
    let method = Method91::BasicGetOk {
        delivery_tag,
        redelivered: bit(flags, 0),
        exchange,
        routing_key,
        message_count,
    };
    Ok((method, rest))
}

/// The arguments of basic.get-empty.
fn get_empty_in(end: usize, bytes: &[u8]) -> Result<(Method91, &[u8]), Stop<usize>>
    ensures { Gives (λ x. (parts_of x.0, x.1.now)) result
        (row_in (MethodKind.Basic BasicKind.GetEmpty) end bytes.now) }
{
    let (_, rest) = short_in(end, bytes)?;
    Ok((Method91::BasicGetEmpty, rest))
}

/// The arguments of basic.ack.
fn ack_in(end: usize, bytes: &[u8]) -> Result<(Method91, &[u8]), Stop<usize>>
    ensures { Gives (λ x. (parts_of x.0, x.1.now)) result
        (row_in (MethodKind.Basic BasicKind.Ack) end bytes.now) }
{
    let (delivery_tag, rest) = u64_in(end, bytes)?;
    let (flags, rest) = u8_in(end, rest)?;
    let method = Method91::BasicAck {
        delivery_tag,
        multiple: bit(flags, 0),
    };
    Ok((method, rest))
}

/// The arguments of basic.reject.
fn reject_in(end: usize, bytes: &[u8]) -> Result<(Method91, &[u8]), Stop<usize>>
    ensures { Gives (λ x. (parts_of x.0, x.1.now)) result
        (row_in (MethodKind.Basic BasicKind.Reject) end bytes.now) }
{
    let (delivery_tag, rest) = u64_in(end, bytes)?;
    let (flags, rest) = u8_in(end, rest)?;
    let method = Method91::BasicReject {
        delivery_tag,
        requeue: bit(flags, 0),
    };
    Ok((method, rest))
}

/// The arguments of basic.recover-async.
fn recover_async_in(end: usize, bytes: &[u8]) -> Result<(Method91, &[u8]), Stop<usize>>
    ensures { Gives (λ x. (parts_of x.0, x.1.now)) result
        (row_in (MethodKind.Basic BasicKind.RecoverAsync) end bytes.now) }
{
    let (flags, rest) = u8_in(end, bytes)?;
    let method = Method91::BasicRecoverAsync {
        requeue: bit(flags, 0),
    };
    Ok((method, rest))
}

/// The arguments of basic.recover.
fn recover_in(end: usize, bytes: &[u8]) -> Result<(Method91, &[u8]), Stop<usize>>
    ensures { Gives (λ x. (parts_of x.0, x.1.now)) result
        (row_in (MethodKind.Basic BasicKind.Recover) end bytes.now) }
{
    let (flags, rest) = u8_in(end, bytes)?;
    let method = Method91::BasicRecover {
        requeue: bit(flags, 0),
    };
    Ok((method, rest))
}

/// The arguments of basic.nack.
fn nack_in(end: usize, bytes: &[u8]) -> Result<(Method91, &[u8]), Stop<usize>>
    ensures { Gives (λ x. (parts_of x.0, x.1.now)) result
        (row_in (MethodKind.Basic BasicKind.Nack) end bytes.now) }
{
    let (delivery_tag, rest) = u64_in(end, bytes)?;
    let (flags, rest) = u8_in(end, rest)?;
    let method = Method91::BasicNack {
        delivery_tag,
        multiple: bit(flags, 0),
        requeue: bit(flags, 1),
    };
    Ok((method, rest))
}

/// The arguments of a method of the class.
pub(crate) fn method_in(
    alloc: Global,
    kind: BasicKind,
    end: usize,
    bytes: &[u8],
) -> Result<(Method91, &[u8]), Stop<usize>>
    ensures { Gives (λ x. (parts_of x.0, x.1.now)) result
        (row_in (MethodKind.Basic kind) end bytes.now) }
{
    match kind {
        BasicKind::Qos => qos_in(end, bytes),
        BasicKind::QosOk => Ok((Method91::BasicQosOk, bytes)),
        BasicKind::Consume => consume_in(alloc, end, bytes),
        BasicKind::ConsumeOk => consume_ok_in(alloc, end, bytes),
        BasicKind::Cancel => cancel_in(alloc, end, bytes),
        BasicKind::CancelOk => cancel_ok_in(alloc, end, bytes),
        BasicKind::Publish => publish_in(alloc, end, bytes),
        BasicKind::Return => return_in(alloc, end, bytes),
        BasicKind::Deliver => deliver_in(alloc, end, bytes),
        BasicKind::Get => get_in(alloc, end, bytes),
        BasicKind::GetOk => get_ok_in(alloc, end, bytes),
        BasicKind::GetEmpty => get_empty_in(end, bytes),
        BasicKind::Ack => ack_in(end, bytes),
        BasicKind::Reject => reject_in(end, bytes),
        BasicKind::RecoverAsync => recover_async_in(end, bytes),
        BasicKind::Recover => recover_in(end, bytes),
        BasicKind::RecoverOk => Ok((Method91::BasicRecoverOk, bytes)),
        BasicKind::Nack => nack_in(end, bytes),
    }
}

/// Writes the arguments of basic.qos.
fn put_qos(out: &mut ByteText, method: &Method91) -> Result<(), Memory>
    requires kind { kind_of method.now ≡ MethodKind.Basic BasicKind.Qos }
    ensures ok { OnOk result (out.new ≡ out.old ++ args_text (args_of method.now)) }
    ensures err { OnErr result (take (length out.old) out.new ≡ out.old) }
{
    let Method91::BasicQos {
        prefetch_size,
        prefetch_count,
        global,
    } = method
    else {
        unreachable!()
    };
    put_u32(out, *prefetch_size)?;
    put_u16(out, *prefetch_count)?;
    put_u8(out, octet_of_1(*global))
}

/// Writes the arguments of basic.consume.
fn put_consume(out: &mut ByteText, method: &Method91) -> Result<(), Memory>
    requires kind { kind_of method.now ≡ MethodKind.Basic BasicKind.Consume }
    requires can { CanPut method.now }
    ensures ok { OnOk result (out.new ≡ out.old ++ args_text (args_of method.now)) }
    ensures err { OnErr result (take (length out.old) out.new ≡ out.old) }
{
    let Method91::BasicConsume {
        queue,
        consumer_tag,
        no_local,
        no_ack,
        exclusive,
        no_wait,
        arguments,
    } = method
    else {
        unreachable!()
    };
    put_u16(out, 0)?;
    put_shortstr(out, queue)?;
    put_shortstr(out, consumer_tag)?;
    put_u8(out, octet_of_4(*no_local, *no_ack, *exclusive, *no_wait))?;
    put_table(out, arguments)
}

/// Writes the arguments of basic.cancel.
fn put_cancel(out: &mut ByteText, method: &Method91) -> Result<(), Memory>
    requires kind { kind_of method.now ≡ MethodKind.Basic BasicKind.Cancel }
    requires can { CanPut method.now }
    ensures ok { OnOk result (out.new ≡ out.old ++ args_text (args_of method.now)) }
    ensures err { OnErr result (take (length out.old) out.new ≡ out.old) }
{
    let Method91::BasicCancel {
        consumer_tag,
        no_wait,
    } = method
    else {
        unreachable!()
    };
    put_shortstr(out, consumer_tag)?;
    put_u8(out, octet_of_1(*no_wait))
}

/// Writes the arguments of basic.publish.
fn put_publish(out: &mut ByteText, method: &Method91) -> Result<(), Memory>
    requires kind { kind_of method.now ≡ MethodKind.Basic BasicKind.Publish }
    requires can { CanPut method.now }
    ensures ok { OnOk result (out.new ≡ out.old ++ args_text (args_of method.now)) }
    ensures err { OnErr result (take (length out.old) out.new ≡ out.old) }
{
    let Method91::BasicPublish {
        exchange,
        routing_key,
        mandatory,
        immediate,
    } = method
    else {
        unreachable!()
    };
    put_u16(out, 0)?;
    put_shortstr(out, exchange)?;
    put_shortstr(out, routing_key)?;
    put_u8(out, octet_of_2(*mandatory, *immediate))
}

/// Writes the arguments of basic.return.
fn put_return(out: &mut ByteText, method: &Method91) -> Result<(), Memory>
    requires kind { kind_of method.now ≡ MethodKind.Basic BasicKind.Return }
    requires can { CanPut method.now }
    ensures ok { OnOk result (out.new ≡ out.old ++ args_text (args_of method.now)) }
    ensures err { OnErr result (take (length out.old) out.new ≡ out.old) }
{
    let Method91::BasicReturn {
        reply_code,
        reply_text,
        exchange,
        routing_key,
    } = method
    else {
        unreachable!()
    };
    put_u16(out, *reply_code)?;
    put_shortstr(out, reply_text)?;
    put_shortstr(out, exchange)?;
    put_shortstr(out, routing_key)
}

/// Writes the arguments of basic.deliver.
fn put_deliver(out: &mut ByteText, method: &Method91) -> Result<(), Memory>
    requires kind { kind_of method.now ≡ MethodKind.Basic BasicKind.Deliver }
    requires can { CanPut method.now }
    ensures ok { OnOk result (out.new ≡ out.old ++ args_text (args_of method.now)) }
    ensures err { OnErr result (take (length out.old) out.new ≡ out.old) }
{
    let Method91::BasicDeliver {
        consumer_tag,
        delivery_tag,
        redelivered,
        exchange,
        routing_key,
    } = method
    else {
        unreachable!()
    };
    put_shortstr(out, consumer_tag)?;
    put_tag(out, *delivery_tag, octet_of_1(*redelivered))?;
    put_shortstr(out, exchange)?;
    put_shortstr(out, routing_key)
}

/// Writes the arguments of basic.get.
fn put_get(out: &mut ByteText, method: &Method91) -> Result<(), Memory>
    requires kind { kind_of method.now ≡ MethodKind.Basic BasicKind.Get }
    requires can { CanPut method.now }
    ensures ok { OnOk result (out.new ≡ out.old ++ args_text (args_of method.now)) }
    ensures err { OnErr result (take (length out.old) out.new ≡ out.old) }
{
    let Method91::BasicGet { queue, no_ack } = method else {
        unreachable!()
    };
    put_u16(out, 0)?;
    put_shortstr(out, queue)?;
    put_u8(out, octet_of_1(*no_ack))
}

/// Writes the arguments of basic.get-ok.
fn put_get_ok(out: &mut ByteText, method: &Method91) -> Result<(), Memory>
    requires kind { kind_of method.now ≡ MethodKind.Basic BasicKind.GetOk }
    requires can { CanPut method.now }
    ensures ok { OnOk result (out.new ≡ out.old ++ args_text (args_of method.now)) }
    ensures err { OnErr result (take (length out.old) out.new ≡ out.old) }
{
    let Method91::BasicGetOk {
        delivery_tag,
        redelivered,
        exchange,
        routing_key,
        message_count,
    } = method
    else {
        unreachable!()
    };
    put_tag(out, *delivery_tag, octet_of_1(*redelivered))?;
    put_shortstr(out, exchange)?;
    put_shortstr(out, routing_key)?;
    put_u32(out, *message_count)
}

/// Writes the arguments of basic.ack.
fn put_ack(out: &mut ByteText, method: &Method91) -> Result<(), Memory>
    requires kind { kind_of method.now ≡ MethodKind.Basic BasicKind.Ack }
    ensures ok { OnOk result (out.new ≡ out.old ++ args_text (args_of method.now)) }
    ensures err { OnErr result (take (length out.old) out.new ≡ out.old) }
{
    let Method91::BasicAck {
        delivery_tag,
        multiple,
    } = method
    else {
        unreachable!()
    };
    put_u64(out, *delivery_tag)?;
    put_u8(out, octet_of_1(*multiple))
}

/// Writes the arguments of basic.reject.
fn put_reject(out: &mut ByteText, method: &Method91) -> Result<(), Memory>
    requires kind { kind_of method.now ≡ MethodKind.Basic BasicKind.Reject }
    ensures ok { OnOk result (out.new ≡ out.old ++ args_text (args_of method.now)) }
    ensures err { OnErr result (take (length out.old) out.new ≡ out.old) }
{
    let Method91::BasicReject {
        delivery_tag,
        requeue,
    } = method
    else {
        unreachable!()
    };
    put_u64(out, *delivery_tag)?;
    put_u8(out, octet_of_1(*requeue))
}

/// Writes the arguments of basic.nack.
fn put_nack(out: &mut ByteText, method: &Method91) -> Result<(), Memory>
    requires kind { kind_of method.now ≡ MethodKind.Basic BasicKind.Nack }
    ensures ok { OnOk result (out.new ≡ out.old ++ args_text (args_of method.now)) }
    ensures err { OnErr result (take (length out.old) out.new ≡ out.old) }
{
    let Method91::BasicNack {
        delivery_tag,
        multiple,
        requeue,
    } = method
    else {
        unreachable!()
    };
    put_u64(out, *delivery_tag)?;
    put_u8(out, octet_of_2(*multiple, *requeue))
}

/// Writes the arguments of a method of the class.
pub(crate) fn put_arguments(out: &mut ByteText, method: &Method91) -> Result<(), Memory>
    requires class { as_basic (kind_of method.now) ≢ None }
    requires can { CanPut method.now }
    ensures ok { OnOk result (out.new ≡ out.old ++ args_text (args_of method.now)) }
    ensures err { OnErr result (take (length out.old) out.new ≡ out.old) }
{
    match method {
        Method91::BasicQos { .. } => put_qos(out, method),
        Method91::BasicConsume { .. } => put_consume(out, method),
        Method91::BasicConsumeOk { consumer_tag } => put_shortstr(out, consumer_tag),
        Method91::BasicCancel { .. } => put_cancel(out, method),
        Method91::BasicCancelOk { consumer_tag } => put_shortstr(out, consumer_tag),
        Method91::BasicPublish { .. } => put_publish(out, method),
        Method91::BasicReturn { .. } => put_return(out, method),
        Method91::BasicDeliver { .. } => put_deliver(out, method),
        Method91::BasicGet { .. } => put_get(out, method),
        Method91::BasicGetOk { .. } => put_get_ok(out, method),
        Method91::BasicGetEmpty => put_u8(out, 0),
        Method91::BasicAck { .. } => put_ack(out, method),
        Method91::BasicReject { .. } => put_reject(out, method),
        Method91::BasicRecoverAsync { requeue } => put_u8(out, octet_of_1(*requeue)),
        Method91::BasicRecover { requeue } => put_u8(out, octet_of_1(*requeue)),
        Method91::BasicNack { .. } => put_nack(out, method),
        Method91::BasicQosOk | Method91::BasicRecoverOk => Ok(()),
        _ => unreachable!(),
    }
}

/// Tells proofs that the numbers of a method of the class are of their types. The call does
/// nothing.
pub(crate) fn tell_ranges(method: &Method91)
    ensures { (kind : BasicKind) → kind_of method.now ≡ MethodKind.Basic kind
        → HasRanges method.now }
{
    match method {
        Method91::BasicQos {
            prefetch_size,
            prefetch_count,
            ..
        } => {
            let _known = (*prefetch_size, *prefetch_count);
        }
        Method91::BasicConsume { arguments, .. } => arguments.tell_ranges(),
        Method91::BasicReturn { reply_code, .. } => {
            let _known = *reply_code;
        }
        Method91::BasicDeliver { delivery_tag, .. }
        | Method91::BasicAck { delivery_tag, .. }
        | Method91::BasicReject { delivery_tag, .. }
        | Method91::BasicNack { delivery_tag, .. } => {
            let _known = *delivery_tag;
        }
        Method91::BasicGetOk {
            delivery_tag,
            message_count,
            ..
        } => {
            let _known = (*delivery_tag, *message_count);
        }
        _ => {}
    }
}
