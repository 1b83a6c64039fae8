//! The two byte streams of a pair over its bridge, as the loop sees them: `Pair`, which is a
//! `Relay`. Specs say what a pair's entries mean (Cutting, Meaning) and what holds of all that a
//! loop may make (the laws of `laws`).
#![tactic(auto)]

mod cutting;
mod laws;
mod pair;

pub use laws::{
    clients_are_answered, entries_are_lawful, entries_give_picks, frames_fit_clients,
    silent_ends_are_given_up, times_are_kept,
};
pub use pair::Pair;
