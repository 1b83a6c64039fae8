//! Values of AMQP 1.0 (1.6): reading and writing them. Lengths and offsets are in bytes, and counts
//! in values.
//!
//! A list, a map, an array or a described value is one deeper than the deepest value inside, and
//! has depth 1 if it is empty; other values have depth 0. Values of depth 16 at most are read and
//! written.
//!
//! What the elements of arrays take besides their bytes counts over the whole value: a copy of each
//! descriptor, or one for an element without bytes and descriptors. Values that take at most 65,536
//! are read and written.
//!
//! Any encoding of 1.6 is read, and the shortest is written. So an array can be read that can't be
//! written: one of more than 65,536 elements that the shortest encoding leaves without bytes, as
//! 65,537 zeros behind the code 70, which have none behind 43. Nor can a value be written whose
//! spelling has 2^32 bytes or more.
#![tactic(auto)]

mod copying;
mod depth;
mod fault;
mod fields;
mod kind;
mod laws;
mod load;
mod measure;
mod reading;
mod skipping;
mod spelled;
mod spelling;
mod value;
mod weight;
mod writing;

pub use fault::TypeFault;
pub use fields::Fields;
pub use laws::value_laws;
pub use reading::read_value;
pub use skipping::skip_value;
pub use spelled::{Spelled, SpelledList, Spelling10};
pub use spelling::has_spelling;
pub use value::{Inner, PairList, Value10, ValueList, tell_ranges};
pub use writing::put_value;
