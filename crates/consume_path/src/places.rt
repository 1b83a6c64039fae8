//! Places of single deliveries, and the places that a change visits.

ghost use Rattle.std.specs.Prelude.{◌≡◌, ◌==◌, ◌&&◌, not, nat_lt};
ghost use Rattle.std.specs.List.{slice_get};
ghost use Rattle.consume_path.specs.declared.places.Visit.{Visit};
ghost use Rattle.consume_path.specs.Kept.{is_numbered, is_tagged, is_writing, is_owing, is_there};
ghost use Rattle.consume_path.specs.Kept.{visit_at};

use crate::changes::is_place_owed;
use crate::delivery::Delivery;

/// The places from one to before another.
#[derive(Clone, Copy, Debug)]
pub struct Visit {
    pub from: usize,
    pub to: usize,
}

/// Where the delivery with this number is, if there is one, since the numbers rise: its caller
/// looks.
pub fn place_by_number(items: &[Delivery], number: u64) -> usize {
    let mut from = 0;
    let mut to = items.len();
    for _ in 0..64 {
        if from >= to {
            return from;
        }
        let middle = from + (to - from) / 2;
        if items[middle].number < number {
            from = middle + 1;
        } else {
            to = middle;
        }
    }
    from
}

/// The delivery with this number is there.
pub fn is_number_at(items: &[Delivery], place: usize, number: u64) -> bool
    ensures { result ≡ is_there (is_numbered number) (slice_get items.now place) }
{
    match items.get(place) {
        Some(d) => d.number == number,
        None => false,
    }
}

fn is_written_at(items: &[Delivery], place: usize) -> bool
    ensures { result ≡ is_there is_writing (slice_get items.now place) }
{
    match items.get(place) {
        Some(d) => d.writing,
        None => false,
    }
}

fn is_owed_at(items: &[Delivery], place: usize) -> bool
    ensures { result ≡ is_there is_owing (slice_get items.now place) }
{
    match items.get(place) {
        Some(d) => is_place_owed(d.place),
        None => false,
    }
}

/// The one of these places whose delivery is owed a disposition.
pub fn place_owing(items: &[Delivery], first: usize, second: usize) -> usize {
    if is_owed_at(items, first) {
        first
    } else {
        second
    }
}

/// One content is being written: that of the delivery that is there.
pub fn is_one_written(writing: u64, items: &[Delivery], place: usize) -> bool
    ensures { result ≡ (writing == 1 && is_there is_writing (slice_get items.now place)) }
{
    writing == 1 && is_written_at(items, place)
}

/// One delivery is owed a disposition: the one that is there.
pub fn is_one_owed(owed: u64, items: &[Delivery], place: usize) -> bool
    ensures { result ≡ (owed == 1 && is_there is_owing (slice_get items.now place)) }
{
    owed == 1 && is_owed_at(items, place)
}

fn is_tag_at(items: &[Delivery], place: usize, tag: u64) -> bool
    ensures { result ≡ is_there (is_tagged tag) (slice_get items.now place) }
{
    match items.get(place) {
        Some(d) => d.tag == tag,
        None => false,
    }
}

/// One delivery is answered by its tag: the one that is there.
pub fn is_one_tagged(multiple: bool, tag: u64, items: &[Delivery], place: usize) -> bool
    ensures { result ≡ (not multiple
        && (nat_lt 0 tag && is_there (is_tagged tag) (slice_get items.now place))) }
{
    !multiple && (0 < tag && is_tag_at(items, place, tag))
}

fn place_from(items: &[Delivery], from: usize, tag: u64) -> Option<usize> {
    for place in from..items.len() {
        if items[place].tag == tag {
            return Some(place);
        }
    }
    None
}

/// Where a delivery with this tag is, if the tags rise as those of one consumer do; what has no tag
/// yet stands behind them then.
fn place_in_order(items: &[Delivery], tag: u64) -> usize {
    let mut from = 0;
    let mut to = items.len();
    for _ in 0..64 {
        if from >= to {
            return from;
        }
        let middle = from + (to - from) / 2;
        let own = items[middle].tag;
        if 0 < own && own < tag {
            from = middle + 1;
        } else {
            to = middle;
        }
    }
    from
}

/// Where a delivery with this tag is, if there is one. Tags mostly rise, or are answered in order:
/// it is looked for there first.
pub fn place_by_tag(items: &[Delivery], last: usize, tag: u64) -> usize {
    let place = place_in_order(items, tag);
    if is_tag_at(items, place, tag) {
        return place;
    }
    match place_from(items, last, tag) {
        Some(place) => place,
        None => place_from(items, 0, tag).unwrap_or(0),
    }
}

/// The place of one delivery where it is there, or else each.
pub fn visit_at(here: bool, place: usize, end: usize) -> Visit
    ensures { result ≡ visit_at here place end }
{
    if here && place < end {
        Visit {
            from: place,
            to: place + 1,
        }
    } else {
        Visit { from: 0, to: end }
    }
}
