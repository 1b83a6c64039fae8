//! The command line as `clap` knows it: help, the version, and why words are no command line.
//!
//! - The texts: `said_of`.
//!
//! No clause speaks of a text. Whether words are a command line, and what they ask for, gate_command
//! decides by its grammar.
#![tactic(auto)]

mod command;
mod texts;

pub use texts::{Said, said_of};
