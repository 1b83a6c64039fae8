//! Why a body is no performative.

use types_10::TypeFault;
use wire_base::At;

/// Why a body begins with no performative.
#[derive(Clone, Copy, Debug, PartialEq, Eq)]
pub enum PerfFault {
    Value(At<TypeFault>),
    UnknownDescriptor,
    Missing(u8),
    WrongType(u8),
}
