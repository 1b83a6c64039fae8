//! The connection of an AMQP 0-9-1 client and its channels: what each unit of the client means, or
//! why it is refused. The contents of basic.publish are put together. Of the other methods of a
//! channel those that open, close and stop it, exchange.declare, queue.declare, confirm.select,
//! basic.consume, basic.cancel, basic.qos, basic.ack, basic.reject, basic.nack, basic.recover and
//! basic.recover-async are passed on, and all others are refused.
#![tactic(auto)]

mod connection;
mod contents;
mod ids;
mod laws;
mod limits;
mod refusals;
mod refusals_contents;
mod refusals_frames;
mod refusals_opening;
mod refusals_running;
mod state;
mod transitions;
mod unit;

pub use connection::Conn91;
pub use contents::Incoming;
pub use laws::connection_laws;
pub use limits::{CHANNEL_MAX, FRAME_MAX, FRAME_MIN_SIZE, HEARTBEAT, Limits, RESPONSE_MAX};
pub use state::{Awaited91, Channel91, Connection, Phase91, Stream91};
pub use unit::{Refusal, Ruling, Unit91, Want91};
