//! Why bytes are no value.

/// Why no value stands at a place.
#[derive(Clone, Copy, Debug, PartialEq, Eq)]
pub enum TypeFault {
    /// A format code that no type has, or a boolean byte above 1.
    UnknownCode,
    /// The value passes the input.
    Cut,
    /// A string that isn't UTF-8, or a char that is no Unicode scalar value.
    NotUtf8,
    /// A symbol with a byte above 7F.
    NotAscii,
    /// The depth passes 16.
    Depth,
    /// Count and size disagree, the count of a map is odd, or the elements of an array take more
    /// besides their bytes than those before them leave of 65,536.
    Count,
}
