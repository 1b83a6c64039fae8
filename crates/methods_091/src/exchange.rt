//! This file is written by tools/make_methods.py from the published definition of AMQP 0-9-1.
//!
//! The class exchange (AMQP 0-9-1 1.6).

ghost use Rattle.std.specs.Prelude.{◌≡◌, ◌≢◌, ◌++◌, length, take, None, OnOk, OnErr};
ghost use Rattle.wire_base.specs.Reading.{Gives};
ghost use Rattle.methods_091.specs.Rows.{as_exchange};
ghost use Rattle.methods_091.specs.View.{kind_of, args_of, parts_of};
ghost use Rattle.methods_091.specs.Reading.{row_in};
ghost use Rattle.methods_091.specs.Writing.{args_text, CanPut, HasRanges};

use crate::arguments::{bit, octet_of_2, octet_of_5, put_shortstr, shortstr_in};
use crate::kind::{ExchangeKind, MethodKind};
use crate::method::Method91;
use std::alloc::Global;
use tables_091::{next_table, put_table};
use wire_base::{ByteText, Memory, Stop, put_u8, put_u16, u8_in, u16_in};

/// The kind of a method of the class; `None` where it is of another.
pub(crate) fn kind(method: &Method91) -> Option<ExchangeKind>
    ensures { result ≡ as_exchange (kind_of method.now) }
{
    match method {
        Method91::ExchangeDeclare { .. } => Some(ExchangeKind::Declare),
        Method91::ExchangeDeclareOk => Some(ExchangeKind::DeclareOk),
        Method91::ExchangeDelete { .. } => Some(ExchangeKind::Delete),
        Method91::ExchangeDeleteOk => Some(ExchangeKind::DeleteOk),
        _ => None,
    }
}

/// The arguments of exchange.declare.
fn declare_in(alloc: Global, end: usize, bytes: &[u8]) -> Result<(Method91, &[u8]), Stop<usize>>
    ensures { Gives (λ x. (parts_of x.0, x.1.now)) result
        (row_in (MethodKind.Exchange ExchangeKind.Declare) end bytes.now) }
{
    let (_, rest) = u16_in(end, bytes)?;
    let (exchange, rest) = shortstr_in(alloc, end, rest)?;
    let (kind, rest) = shortstr_in(alloc, end, rest)?;
    let (flags, rest) = u8_in(end, rest)?;
    let (arguments, rest) = next_table(alloc, end, rest)?;
    let method = Method91::ExchangeDeclare {
        exchange,
        kind,
        passive: bit(flags, 0),
        durable: bit(flags, 1),
        auto_delete: bit(flags, 2),
        internal: bit(flags, 3),
        no_wait: bit(flags, 4),
        arguments,
    };
    Ok((method, rest))
}

/// The arguments of exchange.delete.
fn delete_in(alloc: Global, end: usize, bytes: &[u8]) -> Result<(Method91, &[u8]), Stop<usize>>
    ensures { Gives (λ x. (parts_of x.0, x.1.now)) result
        (row_in (MethodKind.Exchange ExchangeKind.Delete) end bytes.now) }
{
    let (_, rest) = u16_in(end, bytes)?;
    let (exchange, rest) = shortstr_in(alloc, end, rest)?;
    let (flags, rest) = u8_in(end, rest)?;
    let method = Method91::ExchangeDelete {
        exchange,
        if_unused: bit(flags, 0),
        no_wait: bit(flags, 1),
    };
    Ok((method, rest))
}

/// The arguments of a method of the class.
pub(crate) fn method_in(
    alloc: Global,
    kind: ExchangeKind,
    end: usize,
    bytes: &[u8],
) -> Result<(Method91, &[u8]), Stop<usize>>
    ensures { Gives (λ x. (parts_of x.0, x.1.now)) result
        (row_in (MethodKind.Exchange kind) end bytes.now) }
{
    match kind {
        ExchangeKind::Declare => declare_in(alloc, end, bytes),
        ExchangeKind::DeclareOk => Ok((Method91::ExchangeDeclareOk, bytes)),
        ExchangeKind::Delete => delete_in(alloc, end, bytes),
        ExchangeKind::DeleteOk => Ok((Method91::ExchangeDeleteOk, bytes)),
    }
}

/// Writes the arguments of exchange.declare.
fn put_declare(out: &mut ByteText, method: &Method91) -> Result<(), Memory>
    requires kind { kind_of method.now ≡ MethodKind.Exchange ExchangeKind.Declare }
    requires can { CanPut method.now }
    ensures ok { OnOk result (out.new ≡ out.old ++ args_text (args_of method.now)) }
    ensures err { OnErr result (take (length out.old) out.new ≡ out.old) }
{
    let Method91::ExchangeDeclare {
        exchange,
        kind,
        passive,
        durable,
        auto_delete,
        internal,
        no_wait,
        arguments,
    } = method
    else {
        unreachable!()
    };
    put_u16(out, 0)?;
    put_shortstr(out, exchange)?;
    put_shortstr(out, kind)?;
    put_u8(
        out,
        octet_of_5(*passive, *durable, *auto_delete, *internal, *no_wait),
    )?;
    put_table(out, arguments)
}

/// Writes the arguments of exchange.delete.
fn put_delete(out: &mut ByteText, method: &Method91) -> Result<(), Memory>
    requires kind { kind_of method.now ≡ MethodKind.Exchange ExchangeKind.Delete }
    requires can { CanPut method.now }
    ensures ok { OnOk result (out.new ≡ out.old ++ args_text (args_of method.now)) }
    ensures err { OnErr result (take (length out.old) out.new ≡ out.old) }
{
    let Method91::ExchangeDelete {
        exchange,
        if_unused,
        no_wait,
    } = method
    else {
        unreachable!()
    };
    put_u16(out, 0)?;
    put_shortstr(out, exchange)?;
    put_u8(out, octet_of_2(*if_unused, *no_wait))
}

/// Writes the arguments of a method of the class.
pub(crate) fn put_arguments(out: &mut ByteText, method: &Method91) -> Result<(), Memory>
    requires class { as_exchange (kind_of method.now) ≢ None }
    requires can { CanPut method.now }
    ensures ok { OnOk result (out.new ≡ out.old ++ args_text (args_of method.now)) }
    ensures err { OnErr result (take (length out.old) out.new ≡ out.old) }
{
    match method {
        Method91::ExchangeDeclare { .. } => put_declare(out, method),
        Method91::ExchangeDelete { .. } => put_delete(out, method),
        Method91::ExchangeDeclareOk | Method91::ExchangeDeleteOk => Ok(()),
        _ => unreachable!(),
    }
}

/// Tells proofs that the numbers of a method of the class are of their types. The call does
/// nothing.
pub(crate) fn tell_ranges(method: &Method91)
    ensures { (kind : ExchangeKind) → kind_of method.now ≡ MethodKind.Exchange kind
        → HasRanges method.now }
{
    match method {
        Method91::ExchangeDeclare { arguments, .. } => arguments.tell_ranges(),
        _ => {}
    }
}
