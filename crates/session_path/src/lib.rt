//! One session with what it carries: its links, its publishes and its deliveries, and what is due
//! of each, to the container and to the client.
#![tactic(auto)]

mod laws;
mod links;
mod path;
mod path_links;
mod session_path;

pub use laws::{
    answers_lawfully, attaches_lawfully, calls_lawfully, deliveries_lawfully, flows_lawfully,
    links_lawfully, names_lawfully, publishes_lawfully, settles_lawfully,
};
pub use path::{
    AttachDue, AttachFault, AttachHeard, ContentDue, DeliverDue, FlowDue, PathLink, PathOk,
    Settling, Stage,
};
pub use path_links::LinkFlow;
pub use session_path::SessionPath;
