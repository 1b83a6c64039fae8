//! The turns of the gateway over the pairs of any protocols: `serve`. A turn reads the clock,
//! accepts a client, and gives each live pair its part: its reads, what is taken up, its
//! connection, its writes and its shuts, with the report and the record of calls.
#![tactic(auto)]

mod accounts;
mod closing;
mod live;
mod part;
mod report;
mod round;
mod running;
mod service;
mod tally;
mod welcome;

pub use report::tell_number;
pub use running::serve;
