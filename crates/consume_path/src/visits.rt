//! Changes of some of the deliveries, and of what is counted of them.

ghost use Rattle.std.specs.Prelude.{◌≡◌, ◌≤◌, map, take, drop, length};
ghost use Rattle.std.specs.List.{AllByRecursion};
ghost use Rattle.consume_path.specs.declared.delivery.Delivery.{Delivery};
ghost use Rattle.consume_path.specs.declared.receiving.ReceivingLink.{ReceivingLink};
ghost use Rattle.consume_path.specs.declared.tallies.Counts.{Counts};
ghost use Rattle.consume_path.specs.Items.{changed};
ghost use Rattle.consume_path.specs.Links.{recount};
ghost use Rattle.consume_path.specs.Kept.{tally_of, counts_of, counts_after, tallied, IsCounted};

use crate::changes::{Change, change_one, stays};
use crate::delivery::Delivery;
use crate::receiving::ReceivingLink;
use crate::tallies::{Counts, Tally, tally_links};

fn change_counted(
    links: &mut Vec<ReceivingLink>,
    d: &mut Delivery,
    counts: Counts,
    change: Change,
) -> Counts
    ensures new { d.new ≡ changed change d.old }
    ensures links { links.new.items
        ≡ map (tallied (tally_of d.old) (tally_of d.new)) links.old.items }
    ensures counts { result ≡ counts_after (tally_of d.old) (tally_of d.new) counts }
{
    let before = Tally::of(d);
    change_one(d, change);
    let after = Tally::of(d);
    tally_links(links, before, after);
    counts.exchange(before, after)
}

/// Changes the deliveries from one place to before another; the change leaves the others as they
/// are. The answer is what is counted then.
pub fn change_between(
    links: &mut Vec<ReceivingLink>,
    items: &mut Vec<Delivery>,
    counts: Counts,
    from: usize,
    to: usize,
    change: Change,
) -> Counts
    requires order { from ≤ to }
    requires within { to ≤ length items.old.items }
    requires counted { AllByRecursion (IsCounted items.old.items) links.old.items }
    requires counts { counts ≡ counts_of items.old.items }
    requires before { map (changed change) (take from items.old.items)
        ≡ take from items.old.items }
    requires behind { map (changed change) (drop to items.old.items) ≡ drop to items.old.items }
    ensures items { items.new.items ≡ map (changed change) items.old.items }
    ensures links { links.new.items ≡ map (recount items.new.items) links.old.items }
    ensures counts { result ≡ counts_of items.new.items }
{
    let mut counts = counts;
    for place in from..to {
        if !stays(&items[place], change) {
            counts = change_counted(links, &mut items[place], counts, change);
        }
    }
    counts
}
