//! What a pair should do, over whole units, and the laws of it. Definitions stand in specs/: the
//! steps of a pair and the state that they amount to (State, and Upstream for its upstream end),
//! what that owes and awaits (Due), the folds that the laws speak of (Folds), and the laws (Picks,
//! Answers, Waiting, Frames, Times, Asked, Publishing). The laws are the functions of `laws`.
#![tactic(auto)]

mod channel;
mod laws;
mod life;
mod limits;
mod outgoing;
mod reply;
mod setup;
mod timers;

pub use channel::{AttachOut, ChannelUnit, LinkFlow, SessionUnit, TransferOut};
pub use laws::{
    attaches_go_once, channels_are_answered_once, clients_are_answered, clients_get_what_is_due,
    closed_channels_get_no_answers, closes_say_why, confirms_are_lawful,
    confirms_count_from_select, consumers_are_told_first, containers_are_asked,
    containers_are_left, containers_name_their_links, contents_are_written,
    contents_stand_together, counts_are_kept, credit_is_kept, credits_are_lawful,
    declarations_find_queues, deliveries_are_images, deliveries_are_taken_as_asked,
    delivers_are_lawful, delivers_go_behind_answers, detaches_state_faults, ends_linger,
    ends_state_errors, flows_are_answered, frames_fit_clients, frames_fit_containers,
    gets_come_from_their_queues, grants_are_lawful, handles_are_links, idle_links_are_given_up,
    laden_pairs_wait, lines_are_lawful, links_are_supplied, lives_close_once,
    lost_containers_end_publishes, opens_go_behind_begins, outcomes_are_answered, owed_units_go,
    paths_are_known, payloads_are_whole, publishes_reach_their_address, quotas_are_kept,
    recovers_release_all, releases_are_lawful, replies_wait, requests_are_answered,
    requests_hold_what_follows, returns_are_lawful, sessions_end_once, sessions_get_what_is_due,
    settles_are_lawful, silent_ends_are_given_up, states_are_known, times_are_kept,
    transfers_are_lawful, units_are_recorded, units_are_short, units_keep_their_order,
    wishes_are_met,
};
pub use life::{Life, SessionState};
pub use limits::{HANDLE_MAX, HELD_BYTES, HELD_PUBLISHES, QUEUE_BYTES, QUEUE_UNITS};
pub use outgoing::{Outgoing, UpPending, UpSent, UpUnit};
pub use reply::{Pending, Reason, Reply, SentLast};
pub use setup::{Route, Routes, Setup, Site};
pub use timers::{
    BEAT_PER_SECOND, CLOSING_LIMIT, HANDSHAKE_LIMIT, IDLE_STATED, LINGER_LIMIT, SILENCE_PER_SECOND,
    UP_SILENCE,
};
