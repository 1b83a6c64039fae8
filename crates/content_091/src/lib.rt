//! The contents of AMQP 0-9-1: content headers with their fourteen properties, both ways, and
//! bodies put together.
#![tactic(auto)]

mod assembly;
mod header;
mod laws;
mod properties;
mod reading;
mod writing;

pub use assembly::{Assembly, BODY_MAX, Content, ContentFault, Step};
pub use header::{Header91, Props};
pub use laws::content_laws;
pub use reading::{HeaderFault, read_header};
pub use writing::put_header;
