//! Messages of AMQP 1.0 (3.2): reading them, as far as they are kept, and writing them.
#![tactic(auto)]

mod bodies;
mod fields;
mod laws;
mod message;
mod properties;
mod reading;
mod sections;
mod writing;

pub use laws::message_laws;
pub use message::{Body10, Message10, MsgHeader, MsgProps};
pub use reading::{SectionFault, read_message};
pub use writing::{can_be_written, put_before_body, put_message};
