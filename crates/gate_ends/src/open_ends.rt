//! The open ends, each with its link.

ghost use Rattle.std.specs.Prelude.{◌≡◌, ◌+◌, ◌<◌, ◌≤◌, ◌↔◌, [], ◌∷◌, ◌++◌, Some, false};
ghost use Rattle.std.specs.Prelude.{IsTrue, IfOk, IfSome, IfNone, slice_get, vec_len, vec_capacity};
ghost use Rattle.std.specs.List.{position};
ghost use Rattle.gate_outside.specs.Ends.{is_end, is_open, closed};
ghost use Rattle.gate_outside.specs.OpenEnds.{AreBelow, AreDistinct};
ghost use Rattle.gate_ends.specs.OpenEnds.{clients_of, pairs_of, stands_for_pair, HasRoom};
ghost use Rattle.gate_ends.specs.OpenEnds.{AreBelow-prop, AreDistinct-prop};
ghost use Rattle.gate_ends.specs.declared.open_ends.TheConstants.{PAIRS, ENDS};

use crate::link::Link;
use crate::unsent::Unsent;
use gate_outside::End;
use std::alloc::Global;
use std::io::{Read, Write};
use wire_base::Memory;

/// The clients that may be open at once.
pub const PAIRS: usize = 256;

/// The ends of that many pairs.
pub const ENDS: usize = 512;

/// The most bytes that wait to be sent at one end.
const BUFFER: usize = 65_536;

/// The places of the table by which an end is found.
const PLACES: usize = 2_048;

/// The pairs accepted so far, and the open ends in the order of their opening, each with its link.
/// All memory is taken when this is made.
///
/// There is a buffer for each descriptor that ends may have. An end that is open has one, and so
/// has an end whose bytes still go out after it was shut. A client's end that is accepted keeps one
/// more for the upstream end of its pair, so an accepted client is never refused for want of
/// either.
#[derive(Drop)]
pub struct OpenEnds<S: Read + Write> {
    pub pairs: u32,
    pub ends: Vec<(u32, End)>,
    pub links: Vec<Link<S>>,
    pub spare: Vec<Unsent>,
    clients: usize,
    // Where an end stands in the list, by its pair. A place may be that of another end, so it is
    // looked at before use.
    places: Vec<usize>,
    ghost paired: { vec_len links ≡ vec_len ends },
    ghost reserved_ends: { ENDS ≤ vec_capacity ends },
    ghost reserved_links: { ENDS ≤ vec_capacity links },
    ghost counted: { clients ≡ clients_of ends.items },
    ghost few: { clients_of ends.items ≤ PAIRS },
    ghost below: { AreBelow pairs ends.items } by { AreBelow-prop pairs ends.items },
    ghost distinct: { AreDistinct ends.items } by { AreDistinct-prop ends.items },
}

/// Whether this is an end of a pair.
fn is_end(this: &(u32, End), pair: u32, end: End) -> bool
    ensures { result ≡ is_end pair end this.now }
{
    this.0 == pair && this.1 == end
}

/// The first place of an end in a list.
fn scan(ends: &[(u32, End)], pair: u32, end: End) -> Option<usize>
    ensures { result ≡ position (is_end pair end) ends.now }
{
    ends.iter().position(|this| is_end(this, pair, end))
}

/// The place in the table for an end.
fn place_of(pair: u32, end: End) -> usize {
    let side = if end == End::Client { 0 } else { 1 };
    (pair as usize * 2 + side) % PLACES
}

/// Whether an end is open.
fn is_open(ends: &[(u32, End)], pair: u32, end: End) -> bool
    ensures { result ≡ is_open pair end ends.now }
{
    scan(ends, pair, end).is_some()
}

/// Whether an end stands for its pair: a client's, or one upstream without it.
fn stands_for_pair(ends: &[(u32, End)], this: &(u32, End)) -> bool
    ensures { result ≡ stands_for_pair ends.now this.now }
{
    this.1 == End::Client || !is_open(ends, this.0, End::Client)
}

/// How many pairs have an open end.
fn pairs_in(ends: &[(u32, End)]) -> usize
    ensures { result ≡ pairs_of ends.now }
{
    ends.iter()
        .filter(|this| stands_for_pair(ends, this))
        .count()
}

/// How many of the ends are clients'.
fn clients_in(ends: &[(u32, End)]) -> usize
    ensures { result ≡ clients_of ends.now }
{
    ends.iter().filter(|this| this.1 == End::Client).count()
}

impl<S: Read + Write + Drop> OpenEnds<S> {
    /// No pair was accepted yet, and no end is open. There are so many buffers.
    pub fn new(alloc: Global, buffers: usize) -> Result<OpenEnds<S>, Memory>
        ensures spare { IfOk result (λ all. vec_len all.spare ≡ buffers) }
        ensures pairs { IfOk result (λ all. all.pairs ≡ 0) }
        ensures ends { IfOk result (λ all. all.ends.items ≡ []) }
    {
        Ok(OpenEnds {
            pairs: 0,
            ends: Vec::with_capacity(alloc, ENDS)?,
            links: Vec::with_capacity(alloc, ENDS)?,
            spare: spare_buffers(alloc, buffers)?,
            clients: 0,
            places: vec![in alloc; 0; PLACES]?,
        })
    }

    /// Whether one more end fits into the list.
    pub fn has_space(&self) -> bool
        ensures { IsTrue result ↔ vec_len self.now.ends < ENDS }
    {
        self.ends.len() < ENDS
    }

    /// Whether there is room for one more client's end, and for the upstream end of its pair.
    pub fn has_room(&self) -> bool
        ensures { IsTrue result ↔ HasRoom (vec_len self.now.spare) self.now.ends.items }
    {
        self.clients < PAIRS && self.has_space() && self.spare.len() >= 2
    }

    /// How many clients' ends are open.
    pub fn clients(&self) -> usize
        ensures { result ≡ clients_of self.now.ends.items }
    {
        self.clients
    }

    /// How many pairs have an open end. It goes over all ends.
    pub fn pairs_open(&self) -> usize
        ensures { result ≡ pairs_of self.now.ends.items }
    {
        pairs_in(&self.ends)
    }

    /// Where an end stands among the open ones.
    pub fn find(&self, pair: u32, end: End) -> Option<usize>
        ensures some { IfSome result (λ at. slice_get self.now.ends.items at ≡ Some (pair, end)) }
        ensures none { IfNone result (is_open pair end self.now.ends.items ≡ false) }
    {
        let place = self.places.get(place_of(pair, end)).copied().unwrap_or(0);
        if let Some(this) = self.ends.get(place)
            && is_end(this, pair, end)
        {
            return Some(place);
        }
        scan(&self.ends, pair, end)
    }

    /// Opens the next pair's client's end, and keeps a buffer for its upstream end.
    pub fn accept(&mut self, stream: S)
        requires number { self.old.pairs < 4294967295 }
        requires room { HasRoom (vec_len self.old.spare) self.old.ends.items }
        ensures pairs { self.new.pairs ≡ self.old.pairs + 1 }
        ensures ends { self.new.ends.items
            ≡ self.old.ends.items ++ (self.old.pairs, End.Client) ∷ [] }
        ensures spare { vec_len self.new.spare + 2 ≡ vec_len self.old.spare }
    {
        let pair = self.pairs;
        let (Some(unsent), Some(kept)) = (self.spare.pop(), self.spare.pop()) else {
            unreachable!()
        };
        let mut link = Link::new(stream, unsent);
        link.kept = Some(kept);
        remember(&mut self.places, self.ends.len(), pair, End::Client);
        self.pairs += 1;
        self.clients += 1;
        self.ends.push_reserved((pair, End::Client));
        self.links.push_reserved(link);
    }

    /// A buffer for a pair's upstream end: that which its client's end keeps, or else a spare one.
    pub fn buffer_for(&mut self, pair: u32) -> Option<Unsent>
        ensures pairs { self.new.pairs ≡ self.old.pairs }
        ensures ends { self.new.ends.items ≡ self.old.ends.items }
        ensures none { IfNone result (vec_len self.old.spare ≡ 0) }
    {
        if let Some(at) = self.find(pair, End::Client)
            && let Some(unsent) = self.links[at].kept.take()
        {
            return Some(unsent);
        }
        self.spare.pop()
    }

    /// Opens a pair's upstream end.
    pub fn connect(&mut self, pair: u32, stream: S, unsent: Unsent)
        requires known { pair < self.old.pairs }
        requires free { is_open pair End.Up self.old.ends.items ≡ false }
        requires ends { vec_len self.old.ends < ENDS }
        ensures pairs { self.new.pairs ≡ self.old.pairs }
        ensures ends { self.new.ends.items ≡ self.old.ends.items ++ (pair, End.Up) ∷ [] }
    {
        remember(&mut self.places, self.ends.len(), pair, End::Up);
        self.ends.push_reserved((pair, End::Up));
        self.links.push_reserved(Link::new(stream, unsent));
    }

    /// Closes an end, and gives its link, if it was open.
    pub fn close(&mut self, pair: u32, end: End) -> Option<Link<S>>
        ensures pairs { self.new.pairs ≡ self.old.pairs }
        ensures ends { self.new.ends.items ≡ closed pair end self.old.ends.items }
        ensures none { IfNone result (is_open pair end self.old.ends.items ≡ false) }
    {
        let at = self.find(pair, end)?;
        self.ends.remove(at);
        let mut link = self.links.remove(at);
        self.clients = clients_in(&self.ends);
        remember_all(&mut self.places, &self.ends);
        self.give_back_kept(link.kept.take());
        Some(link)
    }

    /// Takes back the buffer that an end kept, if it did.
    fn give_back_kept(&mut self, kept: Option<Unsent>)
        ensures pairs { self.new.pairs ≡ self.old.pairs }
        ensures ends { self.new.ends.items ≡ self.old.ends.items }
    {
        if let Some(unsent) = kept {
            self.give_back(unsent);
        }
    }

    /// Takes back the buffer of an end that was closed.
    pub fn give_back(&mut self, unsent: Unsent)
        ensures pairs { self.new.pairs ≡ self.old.pairs }
        ensures ends { self.new.ends.items ≡ self.old.ends.items }
    {
        let _ = self.spare.push(unsent);
    }

    /// The system said that an end may be read, or written.
    pub fn note(&mut self, pair: u32, end: End, readable: bool, writable: bool)
        ensures pairs { self.new.pairs ≡ self.old.pairs }
        ensures ends { self.new.ends.items ≡ self.old.ends.items }
    {
        if let Some(at) = self.find(pair, end) {
            self.links[at].note(readable, writable);
        }
    }

    /// Each end may be ready.
    pub fn note_all(&mut self)
        ensures pairs { self.new.pairs ≡ self.old.pairs }
        ensures ends { self.new.ends.items ≡ self.old.ends.items }
    {
        for link in self.links.iter_mut() {
            link.note(true, true);
        }
    }

    /// Sends what waits at each end.
    pub fn flush(&mut self)
        ensures pairs { self.new.pairs ≡ self.old.pairs }
        ensures ends { self.new.ends.items ≡ self.old.ends.items }
    {
        for link in self.links.iter_mut() {
            link.out.flush();
        }
    }
}

/// Notes in the table where an end stands.
fn remember(places: &mut [usize], at: usize, pair: u32, end: End) {
    if let Some(place) = places.get_mut(place_of(pair, end)) {
        *place = at;
    }
}

/// Notes in the table where each end stands.
fn remember_all(places: &mut [usize], ends: &[(u32, End)]) {
    for (at, (pair, end)) in ends.iter().enumerate() {
        remember(places, at, *pair, *end);
    }
}

/// So many buffers.
fn spare_buffers(alloc: Global, count: usize) -> Result<Vec<Unsent>, Memory>
    ensures { IfOk result (λ spare. vec_len spare ≡ count) }
{
    let mut spare = Vec::with_capacity(alloc, count)?;
    for _k in 0..count {
        spare.push(Unsent::new(alloc, BUFFER)?)?;
    }
    Ok(spare)
}
