//! The methods of AMQP 0-9-1 (1.3 to 1.8, with the additions of RabbitMQ), both ways.
#![tactic(auto)]

mod arguments;
mod basic;
mod channel;
mod closing;
mod confirm;
mod connection;
mod exchange;
mod kind;
mod laws;
mod method;
mod queue;
mod reading;
mod tx;
mod writing;

pub use closing::{
    put_ack, put_channel_close, put_channel_close_ok, put_channel_open_ok, put_close, put_close_ok,
    put_declare_ok, put_flow_ok, put_nack, put_select_ok,
};
pub use laws::method_laws;
pub use method::{Method91, ids};
pub use reading::{MethodFault, read_method};
pub use writing::put_method;
