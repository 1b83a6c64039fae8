//! Sources and sinks over streams, ends over them, and which are open. The streams are of the
//! tests' own (`late.rt`): they are interrupted N times, and then answer as KIND and COUNT say: 0
//! moves COUNT bytes at most, 1 would wait, 2 fails.
//!
//! | Line | Answer |
//! |---|---|
//! | `reader N KIND COUNT` | a source is read into four bytes, each a 1 before |
//! | `writer N KIND COUNT`, bytes | what a sink takes of the bytes |
//! | `report LINES KIND COUNT`, bytes | how many lines the report takes, the last answer, and whether all goes |
//! | `pace MS MS MS MS` | whether a line is told at each of four moments, and at 1,999 |
//! | `tries COUNT FAILS TOOK MS` | what is known of a server with so many addresses that was reached, once so many tries failed |
//! | `end N KIND COUNT ROOM` | pair 3's client's end is opened with room for so many bytes; it counts as shut at 5 |
//! | `end-stream 0 KIND COUNT` | its stream answers so from now on |
//! | `end-read` | what a read of up to four bytes is answered |
//! | `end-write`, bytes | what a write is answered |
//! | `end-flush` | nothing: some of what waits is sent |
//! | `end-left` | what waits, and whether a write failed |
//! | `end-ready` | the system says that it may be read |
//! | `end-note PAIR` | the system says that a client's end may be written |
//! | `end-over MOMENT` | whether it is over at a moment |
//! | `pairs BUFFERS` | so many buffers, and no end is open |
//! | `pairs-accept MOST` | how many pairs there are; one more comes where there is room and they are fewer |
//! | `pairs-find PAIR` | how many there are, where a client's end stands, and whether there is room |
//! | `pairs-link PAIR` | whether the upstream end could be connected |
//! | `pairs-close PAIR` | whether a client's end was open, which is closed |
//! | `pairs-back` | whether there was an end whose buffer is given back |

ghost use Rattle.std.specs.Prelude.{◌<◌, length};

use super::late::{Late, then_of};
use crate::call::{Answer, Call, no_call, told, word_of};
use crate::verbs::{
    END, END_FLUSH, END_LEFT, END_NOTE, END_OVER, END_READ, END_READY, END_STREAM, END_WRITE, PACE,
    PAIRS, PAIRS_ACCEPT, PAIRS_BACK, PAIRS_CLOSE, PAIRS_FIND, PAIRS_LINK, READER, REPORT, TRIES,
    WRITER,
};
use gate_edge::{Outbox, OutboxSink, ReaderSource, WriterSink};
use gate_ends::{Link, OpenEnds, Pace, Parting, Tries, Unsent};
use gate_outside::{End, Got, Sink, Source, Sunk};
use std::alloc::Global;
use std::rt::Clock;
use std::time::Duration;
use std::{io, mem};

/// The ends that lines opened.
#[derive(Drop)]
pub struct Edge {
    end: Option<Parting<Late>>,
    all: Option<OpenEnds<Late>>,
    /// The last end that was closed, whose buffer isn't given back yet.
    closed: Option<Link<Late>>,
}

/// A clock that stands still, so that nothing sleeps.
struct Still;

impl Clock for Still {
    fn monotonic(&self) -> io::Result<Duration> {
        Ok(Duration::ZERO)
    }

    fn since_1970(&self) -> io::Result<Duration> {
        Ok(Duration::ZERO)
    }
}

/// The stream that numbers tell.
fn late_of(numbers: [u64; 4]) -> Late {
    Late {
        interruptions: word_of(numbers[0]),
        then: then_of(numbers[1], numbers[2]),
    }
}

/// A stream that would wait.
const WAITS: [u64; 4] = [0, 1, 0, 0];

/// What a source over a stream draws into four bytes, and what these then are.
fn draw(alloc: Global, late: Late) -> Answer {
    let mut source = ReaderSource::new(alloc, late)?;
    let mut buf = [1; 4];
    let drawn = source.read(&mut buf);
    told(alloc, (drawn, buf))
}

/// What a sink over a stream takes of bytes.
fn sink(alloc: Global, late: Late, bytes: &[u8]) -> Answer
    requires { 0 < length bytes.now }
{
    told(alloc, WriterSink::new(late).write(bytes))
}

/// How many lines are taken whole, up to so many, and what the last is answered.
fn report_lines<K: Sink>(sink: &mut K, lines: u64, line: &[u8]) -> (u32, Option<Sunk>)
    requires { 0 < length line.now }
{
    let mut taken = 0u32;
    let mut last = None;
    for _ in 0..lines {
        let sunk = sink.write(line);
        taken = taken.saturating_add(u32::from(sunk == Sunk::Took(line.len())));
        last = Some(sunk);
    }
    (taken, last)
}

/// The same of the report's way to a writer, and whether all goes in the end.
fn report(alloc: Global, numbers: [u64; 4], line: &[u8]) -> Answer
    requires { 0 < length line.now }
{
    let late = late_of([0, numbers[1], numbers[2], 0]);
    let outbox = Outbox::new(alloc, late)?;
    let (taken, last) = report_lines(&mut OutboxSink::new(&outbox), numbers[0], line);
    told(alloc, (taken, last, outbox.finish(&Still)))
}

/// Whether a line is told at each moment.
fn paces(moments: [u64; 4]) -> [bool; 5] {
    let mut pace = Pace::new();
    [
        pace.is_due(moments[0]),
        pace.is_due(moments[1]),
        pace.is_due(moments[2]),
        pace.is_due(moments[3]),
        pace.is_due(1_999),
    ]
}

/// What is known of a server that was reached, once so many tries failed at a moment, in rounds
/// over all addresses whose look-ups took so long.
fn tries(count: usize, fails: u64, took: u64, moment: u64) -> Tries
    requires { 0 < count }
{
    let mut tries = Tries::new(count);
    tries.succeed();
    tries.doubt();
    for _ in 0..fails {
        if tries.left == 0 {
            tries.begin(count);
        }
        tries.fail(moment, took);
    }
    tries
}

/// What a read of up to four bytes is answered.
fn read(link: &mut Link<Late>) -> Got {
    let mut piece = [0; 4];
    let mut buf = [1; 4];
    link.read(&mut piece, &mut buf)
}

/// Sets what the stream of an end answers from now on.
fn set_stream(end: &mut Parting<Late>, numbers: [u64; 4]) {
    end.link.out.writer.then = then_of(numbers[1], numbers[2]);
}

/// A call on an end.
fn end_call(alloc: Global, end: &mut Parting<Late>, call: Call) -> Answer {
    let numbers = call.numbers;
    match call.verb {
        END_STREAM => told(alloc, set_stream(end, numbers)),
        END_READ => told(alloc, read(&mut end.link)),
        END_WRITE if !call.bytes.is_empty() => told(alloc, end.link.out.write(call.bytes)),
        END_FLUSH => told(alloc, end.link.out.flush()),
        END_LEFT => told(alloc, (&end.link.out.unsent.bytes, end.link.out.failed)),
        END_READY => told(alloc, end.link.note(true, false)),
        END_NOTE => told(alloc, end.note(word_of(numbers[0]), End::Client, true)),
        END_OVER => told(alloc, end.is_over(numbers[0])),
        _ => no_call(alloc),
    }
}

/// Opens one more client's end, where there is room and the pairs are fewer.
fn accept(all: &mut OpenEnds<Late>, most: u32) -> u32 {
    if all.has_room() && all.pairs < most {
        all.accept(late_of(WAITS));
    }
    all.pairs
}

/// Connects the upstream end of a pair, if a buffer is left.
fn link(all: &mut OpenEnds<Late>, pair: u32) -> bool {
    if pair < all.pairs
        && all.has_space()
        && all.find(pair, End::Up).is_none()
        && let Some(unsent) = all.buffer_for(pair)
    {
        all.connect(pair, late_of(WAITS), unsent);
        return true;
    }
    false
}

/// Takes the buffer of a link back; whether there is one.
fn give_back(all: &mut OpenEnds<Late>, link: Option<Link<Late>>) -> bool {
    match link {
        Some(link) => {
            all.give_back(link.out.unsent);
            true
        }
        None => false,
    }
}

/// Closes a client's end, and keeps it; whether it was open.
fn close(all: &mut OpenEnds<Late>, closed: &mut Option<Link<Late>>, pair: u32) -> bool {
    drop(mem::replace(closed, all.close(pair, End::Client)));
    closed.is_some()
}

/// How many pairs there are, where a client's end stands, and whether there is room.
fn found(all: &OpenEnds<Late>, pair: u32) -> (u32, Option<usize>, bool) {
    (all.pairs, all.find(pair, End::Client), all.has_room())
}

/// A call on the list of ends.
fn pairs_call(
    alloc: Global,
    all: &mut OpenEnds<Late>,
    closed: &mut Option<Link<Late>>,
    call: Call,
) -> Answer {
    let pair = word_of(call.numbers[0]);
    match call.verb {
        PAIRS_ACCEPT => told(alloc, accept(all, pair)),
        PAIRS_FIND => told(alloc, found(all, pair)),
        PAIRS_LINK => told(alloc, link(all, pair)),
        PAIRS_CLOSE => told(alloc, close(all, closed, pair)),
        PAIRS_BACK => told(alloc, give_back(all, closed.take())),
        _ => no_call(alloc),
    }
}

/// A call is one on the end.
fn is_of_one(verb: u64) -> bool {
    matches!(
        verb,
        END_FLUSH | END_LEFT | END_NOTE | END_OVER | END_READ | END_READY | END_STREAM | END_WRITE
    )
}

impl Edge {
    /// None is open.
    pub fn new() -> Edge {
        Edge {
            end: None,
            all: None,
            closed: None,
        }
    }

    /// Opens an end.
    fn open(&mut self, alloc: Global, numbers: [u64; 4]) -> Answer {
        let unsent = Unsent::new(alloc, numbers[3] as usize)?;
        let link = Link::new(late_of(numbers), unsent);
        let end = Parting::new(3, End::Client, link, 5);
        drop(mem::replace(&mut self.end, Some(end)));
        told(alloc, ())
    }

    /// Opens the list of ends.
    fn open_all(&mut self, alloc: Global, buffers: u64) -> Answer {
        let all = OpenEnds::new(alloc, buffers as usize)?;
        drop(mem::replace(&mut self.all, Some(all)));
        told(alloc, ())
    }

    /// A call on the end, or on the list of ends.
    fn ends_call(&mut self, alloc: Global, call: Call) -> Answer {
        match (&mut self.end, &mut self.all) {
            (Some(end), _) if is_of_one(call.verb) => end_call(alloc, end, call),
            (_, Some(all)) => pairs_call(alloc, all, &mut self.closed, call),
            _ => no_call(alloc),
        }
    }

    /// A call of the edge.
    pub fn call(&mut self, alloc: Global, call: Call) -> Answer {
        match call.verb {
            READER => draw(alloc, late_of(call.numbers)),
            WRITER if !call.bytes.is_empty() => sink(alloc, late_of(call.numbers), call.bytes),
            REPORT if !call.bytes.is_empty() => report(alloc, call.numbers, call.bytes),
            PACE => told(alloc, paces(call.numbers)),
            TRIES if call.numbers[0] > 0 => {
                let [count, fails, took, moment] = call.numbers;
                told(alloc, tries(count as usize, fails, took, moment))
            }
            END => self.open(alloc, call.numbers),
            PAIRS => self.open_all(alloc, call.numbers[0]),
            _ => self.ends_call(alloc, call),
        }
    }
}
