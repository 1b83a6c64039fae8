//! The parts of a turn of the live pairs, in rising number.

ghost use Rattle.std.specs.Prelude.{◌≡◌, ◌+◌, ◌<◌, ◌^◌, if◌then◌else◌, Err};
ghost use Rattle.std.specs.Vec.{vec_len};
ghost use Rattle.gate_runs.specs.Marks.{Extends};
ghost use Rattle.gate_turns.specs.Counting.{CountWithin};
ghost use Rattle.gate_turns.specs.Rounds.{Holds, PairsEffect, RoundEffect, place_after, run_state};
ghost use Rattle.gate_turns.specs.Parts.{KeepsPorts, CountsFaults, IsReadRoom};

use crate::part::visit;
use crate::service::Service;
use crate::tally::{SinkFault, Tally};
use gate_capture::Recorder;
use gate_outside::{Ports, Sink};
use gate_relay::Relay;
use std::alloc::Global;

/// A pair's part of a turn was over.
#[derive(Clone, Copy, Debug)]
struct Visited {
    /// It has an open end yet.
    lives: bool,
    result: Result<(), SinkFault>,
}

/// The part of the turn of the live pair at a place in the list. Where its ends were shut, the next
/// pair takes its place.
fn turn_at<P: Ports, R: Relay, K: Sink, T: Recorder>(
    alloc: Global,
    setup: &R::Setup,
    ports: &mut P,
    report: &mut K,
    recorder: &mut T,
    tally: &mut Tally,
    service: &mut Service<R>,
    at: usize,
    room: &mut [u8],
) -> Visited
    requires at { at < vec_len service.old.live }
    requires holds { Holds service.old (P.pairs ports.old) (P.ends ports.old) }
    requires room { IsReadRoom room.old }
    ensures holds { Holds service.new (P.pairs ports.new) (P.ends ports.new) }
    ensures live { vec_len service.new.live + (if result.lives then 0 else 1)
        ≡ vec_len service.old.live }
    ensures ports { KeepsPorts ⟦<P as Ports>⟧ ports.old ports.new }
    ensures out { CountsFaults K.faults (result.result ≡ Err SinkFault.Out) report.old report.new }
    ensures tape { CountsFaults T.faults (result.result ≡ Err SinkFault.Capture)
        recorder.old recorder.new }
    ensures count { CountWithin R.out_of_memory service.old tally.old
        → CountWithin R.out_of_memory service.new tally.new }
    ensures log { Extends (P.log ports.old) (P.log ports.new)
        (PairsEffect (R.words setup.now) (R.represents setup.now) at
        (place_after result.lives at) result.result
        (run_state service.old tally.old (P.last ports.old) (K.held report.old)
        (T.held recorder.old))
        (run_state service.new tally.new (P.last ports.new) (K.held report.new)
        (T.held recorder.new))) }
{
    let live = &mut service.live[at];
    let result = visit(alloc, setup, ports, report, recorder, tally, live, room);
    let lives = live.sides.has_end();
    if lives {
        return Visited { lives, result };
    }
    service.retire(at);
    Visited { lives, result }
}

/// The place in the list of the next pair, after the part of the turn of the pair at one.
fn place_after(lives: bool, at: usize) -> usize
    requires { at < 2 ^ 63 }
    ensures { result ≡ place_after lives at }
{
    if lives { at + 1 } else { at }
}

/// The parts of the turn of the live pairs.
pub fn turn_all<P: Ports, R: Relay, K: Sink, T: Recorder>(
    alloc: Global,
    setup: &R::Setup,
    ports: &mut P,
    report: &mut K,
    recorder: &mut T,
    tally: &mut Tally,
    service: &mut Service<R>,
    room: &mut [u8],
) -> Result<(), SinkFault>
    requires holds { Holds service.old (P.pairs ports.old) (P.ends ports.old) }
    requires room { IsReadRoom room.old }
    ensures holds { Holds service.new (P.pairs ports.new) (P.ends ports.new) }
    ensures ports { KeepsPorts ⟦<P as Ports>⟧ ports.old ports.new }
    ensures out { CountsFaults K.faults (result ≡ Err SinkFault.Out) report.old report.new }
    ensures tape { CountsFaults T.faults (result ≡ Err SinkFault.Capture)
        recorder.old recorder.new }
    ensures count { CountWithin R.out_of_memory service.old tally.old
        → CountWithin R.out_of_memory service.new tally.new }
    ensures log { Extends (P.log ports.old) (P.log ports.new)
        (RoundEffect (R.words setup.now) (R.represents setup.now) result
        (run_state service.old tally.old (P.last ports.old) (K.held report.old)
        (T.held recorder.old))
        (run_state service.new tally.new (P.last ports.new) (K.held report.new)
        (T.held recorder.new))) }
{
    let mut at = 0;
    while at < service.live.len() {
        let visited = turn_at(
            alloc, setup, ports, report, recorder, tally, service, at, room,
        );
        if let Err(fault) = visited.result {
            return Err(fault);
        }
        at = place_after(visited.lives, at);
    }
    Ok(())
}
