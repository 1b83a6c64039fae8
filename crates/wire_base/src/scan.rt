//! What a scan of the first bytes of a stream finds.

/// A fault, and the offset of the first byte that it concerns.
#[derive(Clone, Copy, Debug, PartialEq, Eq)]
pub struct At<F> {
    pub fault: F,
    pub at: usize,
}

/// The unit with which a stream begins.
#[derive(Clone, Copy, Debug, PartialEq, Eq)]
pub enum Scan<T, F> {
    /// A whole unit, and the count of its bytes.
    Whole(T, usize),
    /// The bytes are a proper prefix of some unit within the limit.
    More,
    /// No continuation of the bytes begins with a unit.
    Bad(F),
}
