//! Messages of AMQP 0-9-1 as messages of AMQP 1.0, and back.
#![tactic(auto)]

mod annotations;
mod fault;
mod fields;
mod headers;
mod headers_091;
mod image;
mod image_091;
mod laws;
mod message;
mod names;
mod received;
mod room;
mod rows;
mod rows_091;
mod spelling;
mod spelling_laws;
mod texts;
mod told;
mod values;

pub use fault::{MapFault, PropName};
pub use image::to_10;
pub use image_091::{redelivered, to_091};
pub use laws::{map_laws, received_lawfully};
pub use message::Message091;
pub use received::{Received, read_image};
pub use rows::decimal_of;
pub use spelling::{ImageText, put_image};
pub use spelling_laws::images_are_spelled;
pub use told::{FaultName, Told, fault_name, part_name};
