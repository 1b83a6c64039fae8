//! Writing methods.
//!
//! Where a private function of this crate that writes answers `Memory`, what stood in `out` before
//! still stands at its front.

ghost use Rattle.std.specs.Prelude.{◌≡◌, ℕ, ◌++◌, List, length, take, OnOk, OnErr};
ghost use Rattle.methods_091.specs.View.{args_of};
ghost use Rattle.methods_091.specs.Grammar.{IsMethod};
ghost use Rattle.methods_091.specs.Writing.{args_text, method_text, CanPut};

use crate::kind::MethodKind;
use crate::method::{Method91, ids};
use crate::{basic, channel, confirm, connection, exchange, queue};
use wire_base::{ByteText, Memory, put_u16};

/// The arguments of a method.
#[tactic(auto, using(crate::proofs::Written::tx_text))]
fn put_arguments(out: &mut ByteText, method: &Method91) -> Result<(), Memory>
    requires { CanPut method.now }
    ensures ok { OnOk result (out.new ≡ out.old ++ args_text (args_of method.now)) }
    ensures err { OnErr result (take (length out.old) out.new ≡ out.old) }
{
    match method.kind() {
        MethodKind::Connection(_) => connection::put_arguments(out, method),
        MethodKind::Channel(_) => channel::put_arguments(out, method),
        MethodKind::Exchange(_) => exchange::put_arguments(out, method),
        MethodKind::Queue(_) => queue::put_arguments(out, method),
        MethodKind::Basic(_) => basic::put_arguments(out, method),
        MethodKind::Confirm(_) => confirm::put_arguments(out, method),
        MethodKind::Tx(_) => Ok(()),
    }
}

/// Both ids, and the arguments.
fn append_method(out: &mut ByteText, method: &Method91) -> Result<(), Memory>
    requires { CanPut method.now }
    ensures ok { OnOk result (out.new ≡ out.old ++ method_text method.now) }
    ensures err { OnErr result (take (length out.old) out.new ≡ out.old) }
{
    let (class, id) = ids(method);
    put_u16(out, class)?;
    put_u16(out, id)?;
    put_arguments(out, method)
}

/// Adds the spelling of a method: its ids and its arguments, the reserved ones zero or empty, or
/// leaves `out` as it was.
///
/// Short strings have at most 255 bytes, long strings fewer than 2^32, and tables are as
/// `put_table` needs.
///
/// # Errors
///
/// `Memory` where the allocator has no room.
#[tactic(auto, using(crate::proofs::Written::written_is_spelled))]
pub fn put_method(out: &mut ByteText, method: &Method91) -> Result<(), Memory>
    requires { CanPut method.now }
    ensures ok { OnOk result (out.new ≡ out.old ++ method_text method.now) }
    ensures err { OnErr result (out.new ≡ out.old) }
    // What is written is in the grammar.
    ensures spelled { IsMethod method.now (method_text method.now) }
{
    method.tell_ranges();
    let start = out.as_slice().len();
    let written = append_method(out, method);
    if written.is_err() {
        out.truncate(start);
    }
    written
}
