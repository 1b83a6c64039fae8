//! What is counted of the deliveries of a life, so that a call visits few of them.

ghost use Rattle.std.specs.Prelude.{◌≡◌, map, []};
ghost use Rattle.consume_path.specs.declared.tallies.Tally.{Tally};
ghost use Rattle.consume_path.specs.declared.tallies.Counts.{Counts};
ghost use Rattle.consume_path.specs.Kept.{tally_of, no_tally, tally_on, exchanged, counts_of};
ghost use Rattle.consume_path.specs.Kept.{counts_after, tallied};

use crate::changes::{is_on_link, is_place_owed, is_unsettled_one, is_waiting};
use crate::delivery::Delivery;
use crate::link_changes::is_delivery_counted;
use crate::receiving::ReceivingLink;

/// What one delivery adds to the counts.
#[derive(Clone, Copy, Debug)]
pub struct Tally {
    /// Its link.
    pub link: Option<u32>,
    /// It counts in the quota of its link.
    pub counts: bool,
    /// The report is owed a line of it.
    pub line: bool,
    /// Its content is being written.
    pub writing: bool,
    /// It is owed a disposition.
    pub owed: bool,
    /// A consumer has it, and hasn't settled it.
    pub unsettled: bool,
    /// It waits for its get-ok.
    pub waiting: bool,
}

/// Counts over all deliveries.
#[derive(Clone, Copy, Debug)]
pub struct Counts {
    /// Of so many the report is owed a line.
    pub lines: u64,
    /// Of so many the content is being written.
    pub writing: u64,
    /// So many are owed a disposition.
    pub owed: u64,
    /// Consumers have so many, and haven't settled them.
    pub unsettled: u64,
    /// So many wait for their get-oks.
    pub waiting: u64,
}

/// How many there are, once one of them changed.
pub fn exchange(before: bool, after: bool, n: u64) -> u64
    ensures { result ≡ exchanged before after n }
{
    let left = n.saturating_sub(before as u64);
    if after { left.saturating_add(1) } else { left }
}

impl Tally {
    /// That of no delivery.
    pub fn none() -> Tally
        ensures { result ≡ no_tally }
    {
        Tally {
            link: None,
            counts: false,
            line: false,
            writing: false,
            owed: false,
            unsettled: false,
            waiting: false,
        }
    }

    /// That of one delivery.
    pub fn of(d: &Delivery) -> Tally
        ensures { result ≡ tally_of d.now }
    {
        Tally {
            link: d.link,
            counts: is_delivery_counted(d),
            line: d.line.is_some(),
            writing: d.writing,
            owed: is_place_owed(d.place),
            unsettled: is_unsettled_one(d),
            waiting: is_waiting(d),
        }
    }

    fn is_on(self, link: u32) -> bool
        ensures { result ≡ tally_on link self }
    {
        is_on_link(self.link, link) && self.counts
    }
}

impl Counts {
    pub fn none() -> Counts
        ensures { result ≡ counts_of [] }
    {
        Counts {
            lines: 0,
            writing: 0,
            owed: 0,
            unsettled: 0,
            waiting: 0,
        }
    }

    /// The counts once one of the deliveries changed.
    pub fn exchange(self, before: Tally, after: Tally) -> Counts
        ensures { result ≡ counts_after before after self }
    {
        Counts {
            lines: exchange(before.line, after.line, self.lines),
            writing: exchange(before.writing, after.writing, self.writing),
            owed: exchange(before.owed, after.owed, self.owed),
            unsettled: exchange(before.unsettled, after.unsettled, self.unsettled),
            waiting: exchange(before.waiting, after.waiting, self.waiting),
        }
    }
}

fn tally_one(l: &mut ReceivingLink, before: Tally, after: Tally)
    ensures { l.new ≡ tallied before after l.old }
{
    let counted = l.state.counted();
    l.state.recounted(exchange(before.is_on(l.link), after.is_on(l.link), counted));
}

/// Counts anew what counts on each link, once one of the deliveries changed.
pub fn tally_links(links: &mut Vec<ReceivingLink>, before: Tally, after: Tally)
    ensures { links.new.items ≡ map (tallied before after) links.old.items }
{
    for l in links.iter_mut() {
        tally_one(l, before, after);
    }
}
