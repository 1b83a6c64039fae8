//! Searches and counts over the publishes of a life.

ghost use Rattle.std.specs.Prelude.{◌≡◌, ◌+◌, ◌<◌, ◌≤◌, find, filter, count_by, length, is_some};
ghost use Rattle.std.specs.Prelude.{◌&&◌, true, IfSome, option_copied};
ghost use Rattle.std.specs.Option.{option_map};
ghost use Rattle.std.specs.List.{list_any, position};
ghost use Rattle.open_items.specs.Places.{AllFrom, place_at, place_from};
ghost use Rattle.publish_path.specs.Publishes.{is_begun, takes, is_told, takes_return};
ghost use Rattle.publish_path.specs.Offers.{can_begin, owed_ack, is_owed, is_unanswered, waits_on};
ghost use Rattle.publish_path.specs.Offers.{is_pending, number_or, alone, goes_on_returning};
ghost use Rattle.publish_path.specs.Offers.{waits_return, is_ready};
ghost use Rattle.publish_path.specs.Kept.{is_unsent, is_unsettled, passed_by};
ghost use Rattle.publish_path.specs.Searches.{found_confirm};

use crate::changes::{is_link, is_publish_sending, is_publish_told, is_return_owed};
use crate::publish::{Answer, Confirm, Place, Publish};
use crate::send_links::SendLinks;

fn is_publish_begun(p: &Publish) -> bool
    ensures { result ≡ is_begun p.now.place }
{
    p.place == Place::Begun
}

fn may_begin(links: &SendLinks, p: &Publish) -> bool
    ensures { result ≡ can_begin links.now p.now }
{
    p.place == Place::Waiting && links.can_send(p.link)
}

fn takes_frames(p: &Publish, number: u64) -> bool
    ensures { result ≡ takes number p.now }
{
    p.number == number && is_publish_sending(p)
}

fn waits_for(p: &Publish, link: u32) -> bool
    ensures { result ≡ waits_on link p.now }
{
    p.place == Place::Waiting && p.link == link
}

fn is_publish_pending(p: &Publish, link: Option<u32>) -> bool
    ensures { result ≡ is_pending link p.now }
{
    (is_publish_sending(p) || p.answer == Answer::Open) && is_link(link, p.link)
}

fn takes_returns(p: &Publish, number: u64) -> bool
    ensures { result ≡ takes_return number p.now }
{
    p.number == number && is_return_owed(p)
}

fn is_publish_returning(p: &Publish) -> bool
    ensures { result ≡ goes_on_returning p.now }
{
    is_return_owed(p) && p.returning
}

fn may_return(p: &Publish) -> bool
    ensures { result ≡ waits_return p.now }
{
    is_return_owed(p) && !p.returning
}

fn find_begun(items: &[Publish]) -> Option<&Publish>
    ensures { option_copied result ≡ find (λ p. is_begun p.place) items.now }
{
    items.iter().find(|p| is_publish_begun(p))
}

fn find_to_begin<'a>(links: &SendLinks, items: &'a [Publish]) -> Option<&'a Publish>
    ensures first { option_copied result ≡ find (can_begin links.now) items.now }
    ensures passes { IfSome result (λ p. can_begin links.now p.now ≡ true) }
{
    items.iter().find(|p| may_begin(links, p))
}

fn find_taking(items: &[Publish], number: u64) -> Option<&Publish>
    ensures { option_copied result ≡ find (takes number) items.now }
{
    items.iter().find(|p| takes_frames(p, number))
}

fn has_waiting(items: &[Publish], link: u32) -> bool
    ensures { result ≡ list_any (waits_on link) items.now }
{
    items.iter().any(|p| waits_for(p, link))
}

/// The publish that is begun; none stands before `from`.
pub fn first_begun(items: &[Publish], from: usize) -> Option<&Publish>
    requires { AllFrom is_unsent from items.now }
    ensures { option_copied result ≡ find (λ p. is_begun p.place) items.now }
{
    find_begun(&items[from..])
}

/// The lowest number that may begin; none stands before `from`.
pub fn first_to_begin<'a>(
    links: &SendLinks,
    items: &'a [Publish],
    from: usize,
) -> Option<&'a Publish>
    requires { AllFrom is_unsent from items.now }
    ensures first { option_copied result ≡ find (can_begin links.now) items.now }
    ensures passes { IfSome result (λ p. can_begin links.now p.now ≡ true) }
{
    find_to_begin(links, &items[from..])
}

/// The publish with this number, if frames of it are still to be sent; none stands before `from`.
pub fn first_taking(items: &[Publish], from: usize, number: u64) -> Option<&Publish>
    requires { AllFrom is_unsent from items.now }
    ensures { option_copied result ≡ find (takes number) items.now }
{
    find_taking(&items[from..], number)
}

/// Some publish waits on this link; none stands before `from`.
pub fn any_waiting(items: &[Publish], from: usize, link: u32) -> bool
    requires { AllFrom is_unsent from items.now }
    ensures { result ≡ list_any (waits_on link) items.now }
{
    has_waiting(&items[from..], link)
}

/// How many are pending on this link, or on each.
pub fn count_pending(items: &[Publish], link: Option<u32>) -> usize
    ensures { result ≡ count_by (is_pending link) items.now }
{
    items.iter().filter(|p| is_publish_pending(p, link)).count()
}

/// The publish of which some frames were returned, and more are to come.
pub fn first_returning(items: &[Publish]) -> Option<&Publish>
    ensures { option_copied result ≡ find goes_on_returning items.now }
{
    items.iter().find(|p| is_publish_returning(p))
}

/// The lowest number that is to be returned, and isn't yet.
pub fn first_to_return(items: &[Publish]) -> Option<&Publish>
    ensures { option_copied result ≡ find waits_return items.now }
{
    items.iter().find(|p| may_return(p))
}

/// The publish with this number, if it is to be returned.
pub fn first_taking_return(items: &[Publish], number: u64) -> Option<&Publish>
    ensures { option_copied result ≡ find (takes_return number) items.now }
{
    items.iter().find(|p| takes_returns(p, number))
}

fn is_publish_unsettled(p: &Publish) -> bool
    ensures { result ≡ is_unsettled p.now }
{
    p.answer != Answer::Settled
}

/// The confirm covers neither this number nor any above it.
fn is_past(p: &Publish, confirm: Confirm) -> bool
    ensures { result ≡ passed_by confirm p.now }
{
    match p.confirm {
        Some(number) => confirm.number < number,
        None => false,
    }
}

/// The place of what was found so far behind `from`, or else the end.
fn place_at(from: usize, found: Option<usize>, end: usize) -> usize
    requires { IfSome found (λ ahead. from + ahead < end) }
    ensures { result ≡ place_at from end found }
{
    match found {
        Some(ahead) => from + ahead,
        None => end,
    }
}

fn first_unsent(items: &[Publish]) -> Option<usize>
    ensures { result ≡ position is_unsent items.now }
{
    items.iter().position(is_publish_sending)
}

fn first_unsettled(items: &[Publish]) -> Option<usize>
    ensures { result ≡ position is_unsettled items.now }
{
    items.iter().position(is_publish_unsettled)
}

fn first_told(items: &[Publish], first: u32, last: u32) -> Option<usize>
    ensures { result ≡ position (is_told first last) items.now }
{
    items.iter().position(|p| is_publish_told(p, first, last))
}

fn first_past(items: &[Publish], confirm: Confirm) -> Option<usize>
    ensures { result ≡ position (passed_by confirm) items.now }
{
    items.iter().position(|p| is_past(p, confirm))
}

fn first_place_taking(items: &[Publish], number: u64) -> Option<usize>
    ensures { result ≡ position (takes number) items.now }
{
    items.iter().position(|p| takes_frames(p, number))
}

fn first_place_returning(items: &[Publish], number: u64) -> Option<usize>
    ensures { result ≡ position (takes_return number) items.now }
{
    items.iter().position(|p| takes_returns(p, number))
}

/// The first place from `from` on whose publish has frames that are still to be sent, or the end.
#[tactic(auto, using(open_items::proofs::Places::found_within))]
pub fn unsent_from(items: &[Publish], from: usize) -> usize
    requires { from ≤ length items.now }
    ensures { result ≡ place_from is_unsent from items.now }
{
    place_at(from, first_unsent(&items[from..]), items.len())
}

/// The first place from `from` on whose publish isn't settled, or the end.
#[tactic(auto, using(open_items::proofs::Places::found_within))]
pub fn unsettled_from(items: &[Publish], from: usize) -> usize
    requires { from ≤ length items.now }
    ensures { result ≡ place_from is_unsettled from items.now }
{
    place_at(from, first_unsettled(&items[from..]), items.len())
}

/// The first place from `from` on whose transfer is in the range and has no outcome, or the end.
#[tactic(auto, using(open_items::proofs::Places::found_within))]
pub fn told_from(items: &[Publish], from: usize, first: u32, last: u32) -> usize
    requires { from ≤ length items.now }
    ensures { result ≡ place_from (is_told first last) from items.now }
{
    place_at(from, first_told(&items[from..], first, last), items.len())
}

/// The first place from `from` on whose number is above all that the confirm covers, or the end.
#[tactic(auto, using(open_items::proofs::Places::found_within))]
pub fn past_from(items: &[Publish], from: usize, confirm: Confirm) -> usize
    requires { from ≤ length items.now }
    ensures { result ≡ place_from (passed_by confirm) from items.now }
{
    place_at(from, first_past(&items[from..], confirm), items.len())
}

/// The place of the publish with this number, if frames of it are still to be sent; else the end.
#[tactic(auto, using(open_items::proofs::Places::found_within))]
pub fn taking_from(items: &[Publish], from: usize, number: u64) -> usize
    requires { from ≤ length items.now }
    ensures { result ≡ place_from (takes number) from items.now }
{
    place_at(
        from,
        first_place_taking(&items[from..], number),
        items.len(),
    )
}

/// The place of the publish with this number, if it is to be returned; else the end.
#[tactic(auto, using(open_items::proofs::Places::found_within))]
pub fn returning_from(items: &[Publish], from: usize, number: u64) -> usize
    requires { from ≤ length items.now }
    ensures { result ≡ place_from (takes_return number) from items.now }
{
    place_at(
        from,
        first_place_returning(&items[from..], number),
        items.len(),
    )
}

fn is_publish_unanswered(p: &Publish) -> bool
    ensures { result ≡ is_unanswered p.now }
{
    p.confirm.is_some() && p.answer != Answer::Settled
}

fn ack_of(answer: Answer) -> Option<bool>
    ensures { result ≡ owed_ack answer }
{
    match answer {
        Answer::Owed(ack) => Some(ack),
        _ => None,
    }
}

fn is_due(p: &Publish) -> bool
    ensures { result ≡ (is_unanswered p.now && is_ready p.now) }
{
    is_publish_unanswered(p) && ack_of(p.answer).is_some() && p.back.is_empty()
}

fn first_due(items: &[Publish]) -> Option<&Publish>
    ensures { option_copied result ≡ find (λ p. is_unanswered p && is_ready p) items.now }
{
    items.iter().find(|p| is_due(p))
}

fn number_of(p: &Publish) -> u64
    ensures { result ≡ number_or 0 p.now.confirm }
{
    p.confirm.unwrap_or(0)
}

fn first_alone(items: &[Publish]) -> Option<Confirm>
    ensures { result ≡ option_map alone (find (λ p. is_unanswered p && is_ready p) items.now) }
{
    match first_due(items) {
        None => None,
        Some(p) => Some(Confirm {
            number: number_of(p),
            multiple: false,
            ack: ack_of(p.answer).unwrap_or(false),
        }),
    }
}

/// The confirm that is due: the longest run of equal outcomes from the first unanswered number on,
/// or the first outcome alone. What is to be returned waits, and so does what is behind it.
#[tactic(auto, using(crate::proofs::Steps::find_due))]
fn first_confirm(items: &[Publish]) -> Option<Confirm>
    ensures { result ≡ found_confirm (filter is_unanswered items.now) }
{
    let mut run: Option<Confirm> = None;
    for p in items {
        if is_publish_unanswered(p) {
            match (run, ack_of(p.answer)) {
                (None, None) => return first_alone(items),
                (None, Some(ack)) if p.back.is_empty() => {
                    run = Some(Confirm {
                        number: number_of(p),
                        multiple: false,
                        ack,
                    });
                }
                (Some(so_far), Some(ack)) if ack == so_far.ack && p.back.is_empty() => {
                    run = Some(Confirm {
                        number: number_of(p),
                        multiple: true,
                        ack,
                    });
                }
                _ => return run,
            }
        }
    }
    run
}

/// The confirm that is due; each publish before `from` is settled.
pub fn confirm_from(items: &[Publish], from: usize) -> Option<Confirm>
    requires { AllFrom is_unsettled from items.now }
    ensures { result ≡ found_confirm (filter is_unanswered items.now) }
{
    first_confirm(&items[from..])
}
