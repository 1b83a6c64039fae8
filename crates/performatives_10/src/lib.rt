//! The performatives of AMQP 1.0 (2.7) and the frame bodies of its SASL layer (5.3.3), as structs
//! of their fields.
//!
//! - Reading: `read_perf`.
//! - Writing: `put_perf`, with the question `has_text`; without memory `put_settle`, `put_settled`
//!   and `put_end`.
//! - The names of error conditions: `condition_name`.
//! - Laws: `perf_laws`.
//!
//! Cases stand in `tools/cases`.
#![tactic(auto)]

mod closing;
mod collecting;
mod composing;
mod composites;
mod condition;
mod connection;
mod fault;
mod getting;
mod kind;
mod laws;
mod link;
mod performative;
mod reading;
mod sasl;
mod session;
mod writing;

pub use closing::{Ending, Settle, put_end, put_settle, put_settled};
pub use condition::{Condition, condition_name};
pub use fault::PerfFault;
pub use laws::perf_laws;
pub use performative::{
    Attach, Begin, Close, Detach, Disposition, End, Error10, Flow, Open, Perf, SaslChallenge,
    SaslInit, SaslMechanisms, SaslOutcome, SaslResponse, Source10, State, Target10, Transfer,
};
pub use reading::read_perf;
pub use writing::{has_text, put_perf};
