//! This file is written by tools/make_methods.py from the published definition of AMQP 0-9-1.
//!
//! The class tx (AMQP 0-9-1 1.9).

ghost use Rattle.std.specs.Prelude.{◌≡◌, [], None};
ghost use Rattle.methods_091.specs.Rows.{as_tx};
ghost use Rattle.methods_091.specs.View.{kind_of, parts_of};

use crate::kind::{MethodKind, TxKind};
use crate::method::Method91;

/// The kind of a method of the class; `None` where it is of another.
pub(crate) fn kind(method: &Method91) -> Option<TxKind>
    ensures { result ≡ as_tx (kind_of method.now) }
{
    match method {
        Method91::TxSelect => Some(TxKind::Select),
        Method91::TxSelectOk => Some(TxKind::SelectOk),
        Method91::TxCommit => Some(TxKind::Commit),
        Method91::TxCommitOk => Some(TxKind::CommitOk),
        Method91::TxRollback => Some(TxKind::Rollback),
        Method91::TxRollbackOk => Some(TxKind::RollbackOk),
        _ => None,
    }
}

/// A method of the class, none of which has arguments.
pub(crate) fn method_of(kind: TxKind) -> Method91
    ensures { parts_of result ≡ (MethodKind.Tx kind, []) }
{
    match kind {
        TxKind::Select => Method91::TxSelect,
        TxKind::SelectOk => Method91::TxSelectOk,
        TxKind::Commit => Method91::TxCommit,
        TxKind::CommitOk => Method91::TxCommitOk,
        TxKind::Rollback => Method91::TxRollback,
        TxKind::RollbackOk => Method91::TxRollbackOk,
    }
}
