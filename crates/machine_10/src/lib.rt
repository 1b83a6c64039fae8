//! A container's end of a connection of AMQP 1.0, as a machine.
#![tactic(auto)]

mod connection;
mod laws;
mod limits;
mod reading;
mod refusals;
mod session;
mod state;
mod transitions;
mod unit;
mod whole;

pub use connection::Conn10;
pub use laws::{connection_laws, session_laws};
pub use limits::{FRAME_MAX, FRAME_MIN_SIZE, Stated10, WINDOW};
pub use session::{REFILL_AT, Session10, Windows};
pub use state::{Awaited10, Phase10, Session, Stream10, Upstream};
pub use unit::{Ruling10, Unit10, Want10};
