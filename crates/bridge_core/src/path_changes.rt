//! What a performative of the container changes of the path of its channel.

ghost use Rattle.std.specs.Prelude.{◌≡◌, IfSome, true};
ghost use Rattle.std.specs.Prelude.{ℕ, List, ◌==◌, ◌%◌, ◌^◌, false};
ghost use Rattle.std.specs.Option.{option_map};
ghost use Rattle.gate_model.specs.Paths.{credit_of, heard_as, is_not_found, name_in, outcome_by};
ghost use Rattle.gate_model.specs.Paths.{part_in};
ghost use Rattle.gate_model.specs.Upstream.{condition_in};
ghost use Rattle.types_10.specs.Fields.{maybe};
ghost use Rattle.performatives_10.specs.View.{error_tree};
ghost use Rattle.gate_model.specs.State.{path_heard};
ghost use Rattle.machine_10.specs.Parts.{parts_of};
ghost use Rattle.performatives_10.specs.declared.performative.Perf.TheVariants as perf;
ghost use Rattle.session_path.specs.Path.{PathState};
ghost use Rattle.bridge_core.specs.LinkFaults.{takes_memory_of};
ghost use Rattle.bridge_core.specs.PathChanges.{takes_memory_to, with_change};

use crate::paths::PathChange;
use consume_path::Part;
use performatives_10::{Attach, Condition, Disposition, Error10, Flow, Perf, State, Transfer};
use property_map::decimal_of;
use publish_path::Outcome;
use session_path::{AttachHeard, LinkFlow, Settling};

/// What is wrong with a performative that names a link.
#[derive(Clone, Copy, Debug)]
pub enum LinkFault {
    /// The connection closes with this error.
    Closes(Condition),
    /// The session ends with it.
    Ends(Condition),
}

/// The number in the name of a link: `l-` and a decimal number without leading zeros.
pub fn link_number(name: &[u8]) -> Option<u64>
    ensures { result ≡ name_in name.now }
{
    match name {
        [b'l', b'-', digits @ ..] => decimal_of(digits),
        _ => None,
    }
}

/// A disposition of the receiver that has an outcome: a terminal state, or a settlement without a
/// state (AMQP 1.0 3.4).
#[tactic(auto, unfolding(machine_10::specs::Parts::parts_of))]
fn outcome_of(disposition: &Disposition) -> Option<PathChange>
    ensures path { (s : PathState) → with_change result s ≡ outcome_by (parts_of
        (perf.Disposition disposition.now)).1 s }
    ensures takes { IfSome result (λ c. takes_memory_to c ≡ true) }
{
    if !disposition.role {
        return None;
    }
    let outcome = match &disposition.state {
        None => {
            if !disposition.settled {
                return None;
            }
            Outcome::Refused
        }
        Some(State::Received) => return None,
        Some(State::Accepted) => Outcome::Accepted,
        Some(State::Released) => Outcome::Released,
        Some(_) => Outcome::Refused,
    };
    let ids = Settling {
        first: disposition.first,
        last: disposition.last,
    };
    Some(PathChange::Outcome(ids, outcome, disposition.settled))
}

/// An error says that there is no such node (AMQP 1.0 2.8.15).
#[tactic(auto, using(crate::proofs::Errors::condition_is))]
fn is_not_found(error: &Option<Error10>) -> bool
    ensures { result ≡ is_not_found (condition_in (maybe error_tree error.now)) }
{
    match error {
        None => false,
        Some(error) => error.condition.as_slice() == b"amqp:not-found".as_slice(),
    }
}

/// The flow of a link.
fn link_flow(flow: &Flow) -> LinkFlow
    ensures count { result.count ≡ flow.now.delivery_count }
    ensures credit { result.credit ≡ credit_of flow.now.link_credit }
    ensures drain { result.drain ≡ flow.now.drain }
    ensures echo { result.echo ≡ flow.now.echo }
{
    LinkFlow {
        count: flow.delivery_count,
        credit: flow.link_credit.unwrap_or(0),
        drain: flow.drain,
        echo: flow.echo,
    }
}

/// What an attach says, under the name with this number.
fn attach_heard(attach: &Attach, name: u64) -> AttachHeard
    ensures { result ≡ heard_as (parts_of (perf.Attach attach.now)).1 name }
{
    let there = if attach.role {
        attach.target.is_some()
    } else {
        attach.source.is_some()
    };
    AttachHeard {
        name,
        peer: attach.handle,
        role: attach.role,
        there,
        count: attach.initial_delivery_count.unwrap_or(0),
    }
}

/// A number of 32 bits, as it is.
fn in_32_bits(number: u32) -> u32
    ensures { result ≡ number % 2 ^ 32 }
{
    number
}

/// The delivery-id of a transfer, which has 32 bits (AMQP 1.0 2.8.8, 2.8.10).
fn id_of(transfer: &Transfer) -> Option<u32>
    ensures { result ≡ option_map (λ id. id % 2 ^ 32) transfer.now.delivery_id }
{
    match transfer.delivery_id {
        None => None,
        Some(id) => Some(in_32_bits(id)),
    }
}

/// What a transfer says of its delivery (AMQP 1.0 2.7.5).
pub fn part_of(transfer: &Transfer) -> Part
    ensures { result ≡ part_in (parts_of (perf.Transfer transfer.now)).1 }
{
    let tag_length = match &transfer.delivery_tag {
        None => None,
        Some(tag) => Some(tag.as_slice().len()),
    };
    Part {
        id: id_of(transfer),
        tag_length,
        settled: transfer.settled.unwrap_or(false),
        more: transfer.more,
        aborted: transfer.aborted,
        resume: transfer.resume,
    }
}

/// What a performative that is no transfer changes of the path of its channel.
#[tactic(auto, unfolding(machine_10::specs::Parts::parts_of))]
pub fn path_change(perf: &Perf) -> Option<PathChange>
    requires { ((parts_of perf.now).0 == 20) ≡ false }
    ensures path { (limit n : ℕ) (payload : List ℕ) (s : PathState) → with_change result s
        ≡ path_heard limit n (parts_of perf.now) payload s }
    ensures takes { IfSome result (λ c. takes_memory_to c ≡ takes_memory_of (parts_of perf.now)) }
{
    match perf {
        Perf::Begin(begin) => Some(PathChange::Began(begin.handle_max)),
        Perf::Attach(attach) => {
            let name = link_number(attach.name.as_slice())?;
            Some(PathChange::Attached(attach_heard(attach, name)))
        }
        Perf::Flow(flow) => {
            let handle = flow.handle?;
            Some(PathChange::Flowed(handle, link_flow(flow)))
        }
        Perf::Disposition(disposition) => outcome_of(disposition),
        Perf::Detach(detach) => Some(PathChange::Detached(
            detach.handle,
            is_not_found(&detach.error),
        )),
        Perf::End(_) => Some(PathChange::Lost),
        _ => None,
    }
}
