//! Changes of some of the publishes, and of what is counted of them.

ghost use Rattle.std.specs.Prelude.{◌≡◌, ◌≤◌, map, take, drop, length};
ghost use Rattle.publish_path.specs.declared.publish.Publish.{Publish};
ghost use Rattle.publish_path.specs.declared.counts.Counts.{Counts};
ghost use Rattle.publish_path.specs.Publishes.{changed};
ghost use Rattle.publish_path.specs.Kept.{count_of, counts_of, exchanged, CanExchange};

use crate::changes::{Change, change_one};
use crate::counts::Counts;
use crate::publish::Publish;
use std::alloc::Global;

fn change_counted(alloc: Global, p: &mut Publish, counts: Counts, change: Change) -> Counts
    requires { CanExchange counts (count_of p.old) (count_of (changed change p.old)) }
    ensures new { p.new ≡ changed change p.old }
    ensures counts { result ≡ exchanged counts (count_of p.old) (count_of p.new) }
{
    let before = Counts::of(p);
    change_one(alloc, p, change);
    counts.exchange(before, Counts::of(p))
}

/// Changes the publishes from one place to before another; the change leaves the others as they
/// are. The answer is what is counted then.
pub fn change_between(
    items: &mut Vec<Publish>,
    counts: Counts,
    from: usize,
    to: usize,
    change: Change,
) -> Counts
    requires order { from ≤ to }
    requires within { to ≤ length items.old.items }
    requires counted { counts ≡ counts_of items.old.items }
    requires before { map (changed change) (take from items.old.items)
        ≡ take from items.old.items }
    requires behind { map (changed change) (drop to items.old.items) ≡ drop to items.old.items }
    ensures items { items.new.items ≡ map (changed change) items.old.items }
    ensures counts { result ≡ counts_of items.new.items }
{
    let alloc = *items.allocator();
    let mut counts = counts;
    for place in from..to {
        counts = change_counted(alloc, &mut items[place], counts, change);
    }
    counts
}
