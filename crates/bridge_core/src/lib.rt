//! The code that follows a pair's steps: `Bridge`, each of whose calls is one step of gate_model's
//! state, and which offers exactly what that state says goes next.
#![tactic(auto)]

mod above;
mod bridge;
mod channel_rows;
mod contents;
mod core_state;
mod frames;
mod link_frames;
mod lives;
mod moments;
mod path_changes;
mod paths;
mod queue;
mod replies;
mod report;
mod requests;
mod returns;
mod rows;
mod sessions;
mod slot;
mod transfers;
mod up_core;
mod up_frames;
mod up_slot;

pub use bridge::Bridge;
