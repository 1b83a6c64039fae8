//! The credit of the links of AMQP 1.0, as folds of what was sent and came on each.
#![tactic(auto)]

mod laws;
mod recv;
mod send;

pub use laws::{link_laws, recv_link_laws};
pub use recv::{Granting, RecvLink};
pub use send::SendLink;
