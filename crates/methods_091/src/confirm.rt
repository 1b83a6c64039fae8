//! This file is written by tools/make_methods.py from the published definition of AMQP 0-9-1.
//!
//! The class confirm, an addition of RabbitMQ.

ghost use Rattle.std.specs.Prelude.{◌≡◌, ◌≢◌, ◌++◌, length, take, None, OnOk, OnErr};
ghost use Rattle.wire_base.specs.Reading.{Gives};
ghost use Rattle.methods_091.specs.Rows.{as_confirm};
ghost use Rattle.methods_091.specs.View.{kind_of, args_of, parts_of};
ghost use Rattle.methods_091.specs.Reading.{row_in};
ghost use Rattle.methods_091.specs.Writing.{args_text};

use crate::arguments::{bit, octet_of_1};
use crate::kind::{ConfirmKind, MethodKind};
use crate::method::Method91;
use wire_base::{ByteText, Memory, Stop, put_u8, u8_in};

/// The kind of a method of the class; `None` where it is of another.
pub(crate) fn kind(method: &Method91) -> Option<ConfirmKind>
    ensures { result ≡ as_confirm (kind_of method.now) }
{
    match method {
        Method91::ConfirmSelect { .. } => Some(ConfirmKind::Select),
        Method91::ConfirmSelectOk => Some(ConfirmKind::SelectOk),
        _ => None,
    }
}

/// The arguments of confirm.select.
fn select_in(end: usize, bytes: &[u8]) -> Result<(Method91, &[u8]), Stop<usize>>
    ensures { Gives (λ x. (parts_of x.0, x.1.now)) result
        (row_in (MethodKind.Confirm ConfirmKind.Select) end bytes.now) }
{
    let (flags, rest) = u8_in(end, bytes)?;
    let method = Method91::ConfirmSelect {
        no_wait: bit(flags, 0),
    };
    Ok((method, rest))
}

/// The arguments of a method of the class.
pub(crate) fn method_in(
    kind: ConfirmKind,
    end: usize,
    bytes: &[u8],
) -> Result<(Method91, &[u8]), Stop<usize>>
    ensures { Gives (λ x. (parts_of x.0, x.1.now)) result
        (row_in (MethodKind.Confirm kind) end bytes.now) }
{
    match kind {
        ConfirmKind::Select => select_in(end, bytes),
        ConfirmKind::SelectOk => Ok((Method91::ConfirmSelectOk, bytes)),
    }
}

/// Writes the arguments of a method of the class.
pub(crate) fn put_arguments(out: &mut ByteText, method: &Method91) -> Result<(), Memory>
    requires class { as_confirm (kind_of method.now) ≢ None }
    ensures ok { OnOk result (out.new ≡ out.old ++ args_text (args_of method.now)) }
    ensures err { OnErr result (take (length out.old) out.new ≡ out.old) }
{
    match method {
        Method91::ConfirmSelect { no_wait } => put_u8(out, octet_of_1(*no_wait)),
        Method91::ConfirmSelectOk => Ok(()),
        _ => unreachable!(),
    }
}
