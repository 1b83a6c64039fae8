//! One pair's part of a turn: it is read, what came is taken up, it is connected, written to and
//! shut, each where that is due.

ghost use Rattle.std.specs.Prelude.{◌≡◌, ◌≢◌, ℕ, ◌<◌, true, false, List, length, is_some, Option};
ghost use Rattle.std.specs.Prelude.{Some, Err};
ghost use Rattle.gate_outside.specs.Ends.{got_bytes};
ghost use Rattle.gate_outside.specs.declared.log.LogEntry.{LogEntry};
ghost use Rattle.gate_outside.specs.declared.ports.End.TheVariants.{Up};
ghost use Rattle.gate_relay.specs.Entries.{Entry};
ghost use Rattle.gate_relay.specs.Guards.{reads};
ghost use Rattle.gate_relay.specs.Sides.{side_of, is_readable, is_writable, has_end};
ghost use Rattle.gate_runs.specs.Marks.{Extends};
ghost use Rattle.gate_runs.specs.Stages.{Reading, Taking, Linking, Writing, Shutting, Past, later};
ghost use Rattle.gate_runs.specs.Stages.{lap_after};
ghost use Rattle.gate_turns.specs.Counting.{CountsOnce};
ghost use Rattle.gate_turns.specs.Parts.{EndsAre, LookEffect, OfferEffect, PartEffect, ReadsWithin};
ghost use Rattle.gate_turns.specs.Parts.{ShutEffect, WriteEffect, got_moved, put_more, put_moved};
ghost use Rattle.gate_turns.specs.Parts.{state, KeepsEnds, KeepsPorts, CountsFaults, IsReadRoom};
ghost use Rattle.gate_turns.specs.Represents.{Represents, found_by};
ghost use Rattle.wire_base.specs.Bytes.{IsBytes};

use crate::accounts::{both, tell, tell_shut};
use crate::live::{Live, Look};
use crate::tally::{SinkFault, Tally};
use gate_capture::Recorder;
use gate_outside::{Call, End, Got, Ports, Put, Sink};
use gate_relay::{Loss, Relay};
use gate_runs::Lap;
use std::alloc::Global;

/// The bytes that a read gave, at the front of its room.
fn bytes_of(got: Got, room: &[u8]) -> &[u8]
    requires { ReadsWithin got (length room.now) }
    ensures bytes { result.now ≡ got_bytes got room.now }
    ensures fit { IsBytes result.now }
{
    match got {
        Got::Bytes(count) => {
            let (bytes, _) = room.split_at(count);
            bytes
        }
        Got::NotYet | Got::Ended | Got::Failed => &[],
    }
}

/// A read that was answered so moved something.
fn has_moved(got: Got) -> bool
    ensures { result ≡ got_moved got }
{
    !matches!(got, Got::NotYet)
}

/// Reads an end once, and gives the pair what came.
fn read_end<P: Ports, R: Relay, K: Sink, T: Recorder>(
    alloc: Global,
    setup: &R::Setup,
    ports: &mut P,
    report: &mut K,
    recorder: &mut T,
    tally: &mut Tally,
    live: &mut Live<R>,
    end: End,
    room: &mut [u8],
) -> Result<(), SinkFault>
    requires readable { is_readable (side_of end live.old.sides) ≡ true }
    requires memory { R.out_of_memory live.old.relay.value ≡ false }
    requires open { EndsAre live.old.number live.old.sides (P.ends ports.old) }
    requires due { (h : List Entry) → Represents (R.represents setup.now) live.old h
        → reads (R.words setup.now) end h ≡ true }
    requires room { IsReadRoom room.old }
    ensures ends { KeepsEnds live.old live.new (P.ends ports.old) (P.ends ports.new) }
    ensures has { has_end live.old.sides ≡ true → has_end live.new.sides ≡ true }
    ensures ports { KeepsPorts ⟦<P as Ports>⟧ ports.old ports.new }
    ensures out { CountsFaults K.faults (result ≡ Err SinkFault.Out) report.old report.new }
    ensures tape { CountsFaults T.faults (result ≡ Err SinkFault.Capture)
        recorder.old recorder.new }
    ensures count { CountsOnce R.out_of_memory live.old live.new tally.old tally.new }
    ensures log { Extends (P.log ports.old) (P.log ports.new)
        (PartEffect (R.words setup.now) (R.represents setup.now) (Reading end) (later
        (Reading end)) result
        (state live.old tally.old (K.held report.old) (T.held recorder.old))
        (state live.new tally.new (K.held report.new) (T.held recorder.new))) }
{
    let size = room.len() as u32;
    let got = ports.read(live.number, end, room);
    let bytes = bytes_of(got, room);
    let call = Call::Read {
        pair: live.number,
        end,
        room: size,
        answer: got,
    };
    let kept = recorder.record(call, bytes);
    let ran_out = live.heard(alloc, setup, end, got, bytes);
    tally.note(has_moved(got), ran_out);
    both(tell(report, live, ran_out), kept)
}

/// Reads an end once, if it is to be read.
fn listen<P: Ports, R: Relay, K: Sink, T: Recorder>(
    alloc: Global,
    setup: &R::Setup,
    ports: &mut P,
    report: &mut K,
    recorder: &mut T,
    tally: &mut Tally,
    live: &mut Live<R>,
    end: End,
    room: &mut [u8],
) -> Result<(), SinkFault>
    requires open { EndsAre live.old.number live.old.sides (P.ends ports.old) }
    requires room { IsReadRoom room.old }
    ensures ends { KeepsEnds live.old live.new (P.ends ports.old) (P.ends ports.new) }
    ensures has { has_end live.old.sides ≡ true → has_end live.new.sides ≡ true }
    ensures ports { KeepsPorts ⟦<P as Ports>⟧ ports.old ports.new }
    ensures out { CountsFaults K.faults (result ≡ Err SinkFault.Out) report.old report.new }
    ensures tape { CountsFaults T.faults (result ≡ Err SinkFault.Capture)
        recorder.old recorder.new }
    ensures count { CountsOnce R.out_of_memory live.old live.new tally.old tally.new }
    ensures log { Extends (P.log ports.old) (P.log ports.new)
        (PartEffect (R.words setup.now) (R.represents setup.now) (Reading end) (later
        (Reading end)) result
        (state live.old tally.old (K.held report.old) (T.held recorder.old))
        (state live.new tally.new (K.held report.new) (T.held recorder.new))) }
{
    if !live.is_read(end) {
        return Ok(());
    }
    read_end(
        alloc, setup, ports, report, recorder, tally, live, end, room,
    )
}

/// Reads both ends, upstream first.
fn listen_both<P: Ports, R: Relay, K: Sink, T: Recorder>(
    alloc: Global,
    setup: &R::Setup,
    ports: &mut P,
    report: &mut K,
    recorder: &mut T,
    tally: &mut Tally,
    live: &mut Live<R>,
    room: &mut [u8],
) -> Result<(), SinkFault>
    requires open { EndsAre live.old.number live.old.sides (P.ends ports.old) }
    requires room { IsReadRoom room.old }
    ensures ends { KeepsEnds live.old live.new (P.ends ports.old) (P.ends ports.new) }
    ensures has { has_end live.old.sides ≡ true → has_end live.new.sides ≡ true }
    ensures ports { KeepsPorts ⟦<P as Ports>⟧ ports.old ports.new }
    ensures out { CountsFaults K.faults (result ≡ Err SinkFault.Out) report.old report.new }
    ensures tape { CountsFaults T.faults (result ≡ Err SinkFault.Capture)
        recorder.old recorder.new }
    ensures count { CountsOnce R.out_of_memory live.old live.new tally.old tally.new }
    ensures log { Extends (P.log ports.old) (P.log ports.new)
        (PartEffect (R.words setup.now) (R.represents setup.now) (Reading Up) Taking result
        (state live.old tally.old (K.held report.old) (T.held recorder.old))
        (state live.new tally.new (K.held report.new) (T.held recorder.new))) }
{
    match listen(
        alloc,
        setup,
        ports,
        report,
        recorder,
        tally,
        live,
        End::Up,
        room,
    ) {
        Ok(()) => listen(
            alloc,
            setup,
            ports,
            report,
            recorder,
            tally,
            live,
            End::Client,
            room,
        ),
        Err(fault) => Err(fault),
    }
}

/// Takes up what came, as far as it can be, if something can be.
fn settle<R: Relay, K: Sink>(
    alloc: Global,
    setup: &R::Setup,
    report: &mut K,
    tally: &mut Tally,
    live: &mut Live<R>,
) -> Result<(), SinkFault>
    ensures number { live.new.number ≡ live.old.number }
    ensures sides { live.new.sides ≡ live.old.sides }
    ensures out { CountsFaults K.faults (result ≡ Err SinkFault.Out) report.old report.new }
    ensures never { result ≢ Err SinkFault.Capture }
    ensures count { CountsOnce R.out_of_memory live.old live.new tally.old tally.new }
    ensures log { (log : Option (List LogEntry)) (kept : Option (List ℕ)) → Extends log log
        (PartEffect (R.words setup.now) (R.represents setup.now) Taking Linking result
        (state live.old tally.old (K.held report.old) kept)
        (state live.new tally.new (K.held report.new) kept)) }
{
    if !live.takes_up() {
        return Ok(());
    }
    let ran_out = live.settle(alloc, setup);
    tally.note(false, ran_out);
    tell(report, live, ran_out)
}

/// Asks for the connection upstream, if that is due.
fn connect<P: Ports, R: Relay, K: Sink, T: Recorder>(
    setup: &R::Setup,
    ports: &mut P,
    report: &mut K,
    recorder: &mut T,
    tally: &mut Tally,
    live: &mut Live<R>,
) -> Result<(), SinkFault>
    requires known { live.old.number < P.pairs ports.old }
    requires open { EndsAre live.old.number live.old.sides (P.ends ports.old) }
    ensures ends { KeepsEnds live.old live.new (P.ends ports.old) (P.ends ports.new) }
    ensures has { has_end live.old.sides ≡ true → has_end live.new.sides ≡ true }
    ensures ports { KeepsPorts ⟦<P as Ports>⟧ ports.old ports.new }
    ensures out { CountsFaults K.faults (result ≡ Err SinkFault.Out) report.old report.new }
    ensures tape { CountsFaults T.faults (result ≡ Err SinkFault.Capture)
        recorder.old recorder.new }
    ensures count { CountsOnce R.out_of_memory live.old live.new tally.old tally.new }
    ensures log { Extends (P.log ports.old) (P.log ports.new)
        (PartEffect (R.words setup.now) (R.represents setup.now) Linking (Writing Lap.ToUp 0) result
        (state live.old tally.old (K.held report.old) (T.held recorder.old))
        (state live.new tally.new (K.held report.new) (T.held recorder.new))) }
{
    if !live.is_linked() {
        return Ok(());
    }
    let answer = ports.connect(live.number);
    let call = Call::Connect {
        pair: live.number,
        answer,
    };
    let kept = recorder.record(call, &[]);
    live.link(answer);
    both(tell(report, live, false), kept)
}

/// What a write to an end did.
#[derive(Clone, Copy, Debug)]
pub struct Wrote {
    /// Bytes were taken, so more may be.
    more: bool,
    /// The pair ran out of memory.
    ran_out: bool,
    result: Result<(), SinkFault>,
}

/// More may be written after a write that was answered so.
fn may_go_on(put: Put) -> bool
    ensures { result ≡ put_more put }
{
    matches!(put, Put::Took(_))
}

/// A write that was answered so moved something.
fn has_gone(put: Put) -> bool
    ensures { result ≡ put_moved put }
{
    !matches!(put, Put::NotYet)
}

/// Writes what was found for an end; whether more may be written.
fn write_ready<P: Ports, R: Relay, K: Sink, T: Recorder>(
    ports: &mut P,
    report: &mut K,
    recorder: &mut T,
    tally: &mut Tally,
    live: &mut Live<R>,
    end: End,
) -> (bool, Result<(), SinkFault>)
    requires ready { is_some (R.ready live.old.relay.value end) ≡ true }
    requires writable { is_writable (side_of end live.old.sides) ≡ true }
    requires open { EndsAre live.old.number live.old.sides (P.ends ports.old) }
    ensures ends { KeepsEnds live.old live.new (P.ends ports.old) (P.ends ports.new) }
    ensures has { has_end live.old.sides ≡ true → has_end live.new.sides ≡ true }
    ensures ports { KeepsPorts ⟦<P as Ports>⟧ ports.old ports.new }
    ensures out { CountsFaults K.faults (result.1 ≡ Err SinkFault.Out) report.old report.new }
    ensures tape { CountsFaults T.faults (result.1 ≡ Err SinkFault.Capture)
        recorder.old recorder.new }
    ensures count { CountsOnce R.out_of_memory live.old live.new tally.old tally.new }
    ensures log { (s : R.Setup) (bytes : List ℕ) → R.ready live.old.relay.value end
        ≡ Some bytes → Extends (P.log ports.old) (P.log ports.new)
        (OfferEffect (R.words s) (R.represents s) end bytes result.0 result.1
        (state live.old tally.old (K.held report.old) (T.held recorder.old))
        (state live.new tally.new (K.held report.new) (T.held recorder.new))) }
{
    let bytes = live.relay.bytes(end);
    let put = ports.write(live.number, end, bytes);
    let call = Call::Write {
        pair: live.number,
        end,
        answer: put,
    };
    let kept = recorder.record(call, bytes);
    live.wrote(end, put);
    tally.note(has_gone(put), false);
    (may_go_on(put), both(tell(report, live, false), kept))
}

/// Looks for what is offered to an end, and tells it if the pair ran out of memory in that; whether
/// something is offered.
fn look_for<R: Relay, K: Sink>(
    alloc: Global,
    setup: &R::Setup,
    report: &mut K,
    tally: &mut Tally,
    live: &mut Live<R>,
    end: End,
) -> (Look, Result<(), SinkFault>)
    ensures number { live.new.number ≡ live.old.number }
    ensures sides { live.new.sides ≡ live.old.sides }
    ensures side { result.0.ready ≡ true → is_writable (side_of end live.old.sides) ≡ true }
    ensures ready { result.0.ready ≡ true → is_some (R.ready live.new.relay.value end) ≡ true }
    ensures out { CountsFaults K.faults (result.1 ≡ Err SinkFault.Out) report.old report.new }
    ensures never { result.1 ≢ Err SinkFault.Capture }
    ensures count { CountsOnce R.out_of_memory live.old live.new tally.old tally.new }
    ensures log { (log : Option (List LogEntry)) (kept : Option (List ℕ)) → Extends log log
        (LookEffect (R.words setup.now) (R.represents setup.now) end result.0.ran_out
        (found_by result.0.ready (R.ready live.new.relay.value end)) result.1
        (state live.old tally.old (K.held report.old) kept)
        (state live.new tally.new (K.held report.new) kept)) }
{
    let look = live.look(alloc, setup, end);
    if !look.ran_out {
        return (look, Ok(()));
    }
    tally.note(false, true);
    (look, tell(report, live, true))
}

/// Writes to an end once, if something is offered to it.
fn write_once<P: Ports, R: Relay, K: Sink, T: Recorder>(
    alloc: Global,
    setup: &R::Setup,
    ports: &mut P,
    report: &mut K,
    recorder: &mut T,
    tally: &mut Tally,
    live: &mut Live<R>,
    end: End,
) -> Wrote
    requires open { EndsAre live.old.number live.old.sides (P.ends ports.old) }
    ensures ends { KeepsEnds live.old live.new (P.ends ports.old) (P.ends ports.new) }
    ensures has { has_end live.old.sides ≡ true → has_end live.new.sides ≡ true }
    ensures ports { KeepsPorts ⟦<P as Ports>⟧ ports.old ports.new }
    ensures out { CountsFaults K.faults (result.result ≡ Err SinkFault.Out) report.old report.new }
    ensures tape { CountsFaults T.faults (result.result ≡ Err SinkFault.Capture)
        recorder.old recorder.new }
    ensures count { CountsOnce R.out_of_memory live.old live.new tally.old tally.new }
    ensures log { Extends (P.log ports.old) (P.log ports.new)
        (WriteEffect (R.words setup.now)
        (R.represents setup.now) end result.more result.ran_out result.result
        (state live.old tally.old (K.held report.old) (T.held recorder.old))
        (state live.new tally.new (K.held report.new) (T.held recorder.new))) }
{
    let (look, told) = look_for(alloc, setup, report, tally, live, end);
    match told {
        Ok(()) if look.ready => {
            let (more, result) = write_ready(ports, report, recorder, tally, live, end);
            Wrote {
                more,
                ran_out: look.ran_out,
                result,
            }
        }
        Ok(()) => Wrote {
            more: false,
            ran_out: look.ran_out,
            result: Ok(()),
        },
        Err(fault) => Wrote {
            more: false,
            ran_out: look.ran_out,
            result: Err(fault),
        },
    }
}

/// What a lap of writes did.
#[derive(Clone, Copy, Debug)]
pub struct Lapped {
    /// The pair ran out of memory.
    ran_out: bool,
    result: Result<(), SinkFault>,
}

/// Writes to an end until nothing is offered, a write takes nothing, or 4,096 writes were made.
fn write_lap<P: Ports, R: Relay, K: Sink, T: Recorder>(
    alloc: Global,
    setup: &R::Setup,
    ports: &mut P,
    report: &mut K,
    recorder: &mut T,
    tally: &mut Tally,
    live: &mut Live<R>,
    lap: Lap,
) -> Lapped
    requires open { EndsAre live.old.number live.old.sides (P.ends ports.old) }
    ensures ends { KeepsEnds live.old live.new (P.ends ports.old) (P.ends ports.new) }
    ensures has { has_end live.old.sides ≡ true → has_end live.new.sides ≡ true }
    ensures ports { KeepsPorts ⟦<P as Ports>⟧ ports.old ports.new }
    ensures out { CountsFaults K.faults (result.result ≡ Err SinkFault.Out) report.old report.new }
    ensures tape { CountsFaults T.faults (result.result ≡ Err SinkFault.Capture)
        recorder.old recorder.new }
    ensures count { CountsOnce R.out_of_memory live.old live.new tally.old tally.new }
    ensures log { Extends (P.log ports.old) (P.log ports.new)
        (PartEffect (R.words setup.now) (R.represents setup.now) (Writing lap 0) (later (Writing
        (lap_after result.ran_out lap) 0)) result.result
        (state live.old tally.old (K.held report.old) (T.held recorder.old))
        (state live.new tally.new (K.held report.new) (T.held recorder.new))) }
{
    let mut ran_out = false;
    for _ in 0..4096u32 {
        let wrote = write_once(
            alloc,
            setup,
            ports,
            report,
            recorder,
            tally,
            live,
            lap.end(),
        );
        ran_out |= wrote.ran_out;
        if let Err(fault) = wrote.result {
            return Lapped {
                ran_out,
                result: Err(fault),
            };
        }
        if !wrote.more {
            return Lapped {
                ran_out,
                result: wrote.result,
            };
        }
    }
    Lapped {
        ran_out,
        result: Ok(()),
    }
}

/// Writes to the client; upstream once more, if the pair ran out of memory in that.
fn write_back<P: Ports, R: Relay, K: Sink, T: Recorder>(
    alloc: Global,
    setup: &R::Setup,
    ports: &mut P,
    report: &mut K,
    recorder: &mut T,
    tally: &mut Tally,
    live: &mut Live<R>,
) -> Result<(), SinkFault>
    requires open { EndsAre live.old.number live.old.sides (P.ends ports.old) }
    ensures ends { KeepsEnds live.old live.new (P.ends ports.old) (P.ends ports.new) }
    ensures has { has_end live.old.sides ≡ true → has_end live.new.sides ≡ true }
    ensures ports { KeepsPorts ⟦<P as Ports>⟧ ports.old ports.new }
    ensures out { CountsFaults K.faults (result ≡ Err SinkFault.Out) report.old report.new }
    ensures tape { CountsFaults T.faults (result ≡ Err SinkFault.Capture)
        recorder.old recorder.new }
    ensures count { CountsOnce R.out_of_memory live.old live.new tally.old tally.new }
    ensures log { Extends (P.log ports.old) (P.log ports.new)
        (PartEffect (R.words setup.now) (R.represents setup.now) (Writing Lap.ToClient 0)
        (Shutting Up) result
        (state live.old tally.old (K.held report.old) (T.held recorder.old))
        (state live.new tally.new (K.held report.new) (T.held recorder.new))) }
{
    let back = write_lap(
        alloc,
        setup,
        ports,
        report,
        recorder,
        tally,
        live,
        Lap::ToClient,
    );
    match back.result {
        Ok(()) if back.ran_out => {
            let again = write_lap(
                alloc,
                setup,
                ports,
                report,
                recorder,
                tally,
                live,
                Lap::ToUpAgain,
            );
            again.result
        }
        Ok(()) => Ok(()),
        Err(fault) => Err(fault),
    }
}

/// Writes upstream and then to the client.
fn write_both<P: Ports, R: Relay, K: Sink, T: Recorder>(
    alloc: Global,
    setup: &R::Setup,
    ports: &mut P,
    report: &mut K,
    recorder: &mut T,
    tally: &mut Tally,
    live: &mut Live<R>,
) -> Result<(), SinkFault>
    requires open { EndsAre live.old.number live.old.sides (P.ends ports.old) }
    ensures ends { KeepsEnds live.old live.new (P.ends ports.old) (P.ends ports.new) }
    ensures has { has_end live.old.sides ≡ true → has_end live.new.sides ≡ true }
    ensures ports { KeepsPorts ⟦<P as Ports>⟧ ports.old ports.new }
    ensures out { CountsFaults K.faults (result ≡ Err SinkFault.Out) report.old report.new }
    ensures tape { CountsFaults T.faults (result ≡ Err SinkFault.Capture)
        recorder.old recorder.new }
    ensures count { CountsOnce R.out_of_memory live.old live.new tally.old tally.new }
    ensures log { Extends (P.log ports.old) (P.log ports.new)
        (PartEffect (R.words setup.now) (R.represents setup.now) (Writing Lap.ToUp 0)
        (Shutting Up) result
        (state live.old tally.old (K.held report.old) (T.held recorder.old))
        (state live.new tally.new (K.held report.new) (T.held recorder.new))) }
{
    let out = write_lap(
        alloc,
        setup,
        ports,
        report,
        recorder,
        tally,
        live,
        Lap::ToUp,
    );
    match out.result {
        Ok(()) => write_back(alloc, setup, ports, report, recorder, tally, live),
        Err(fault) => Err(fault),
    }
}

/// Takes up what came, and asks for the connection upstream.
fn settle_and_connect<P: Ports, R: Relay, K: Sink, T: Recorder>(
    alloc: Global,
    setup: &R::Setup,
    ports: &mut P,
    report: &mut K,
    recorder: &mut T,
    tally: &mut Tally,
    live: &mut Live<R>,
) -> Result<(), SinkFault>
    requires known { live.old.number < P.pairs ports.old }
    requires open { EndsAre live.old.number live.old.sides (P.ends ports.old) }
    ensures ends { KeepsEnds live.old live.new (P.ends ports.old) (P.ends ports.new) }
    ensures has { has_end live.old.sides ≡ true → has_end live.new.sides ≡ true }
    ensures ports { KeepsPorts ⟦<P as Ports>⟧ ports.old ports.new }
    ensures out { CountsFaults K.faults (result ≡ Err SinkFault.Out) report.old report.new }
    ensures tape { CountsFaults T.faults (result ≡ Err SinkFault.Capture)
        recorder.old recorder.new }
    ensures count { CountsOnce R.out_of_memory live.old live.new tally.old tally.new }
    ensures log { Extends (P.log ports.old) (P.log ports.new)
        (PartEffect (R.words setup.now) (R.represents setup.now) Taking (Writing Lap.ToUp 0) result
        (state live.old tally.old (K.held report.old) (T.held recorder.old))
        (state live.new tally.new (K.held report.new) (T.held recorder.new))) }
{
    match settle(alloc, setup, report, tally, live) {
        Ok(()) => connect(setup, ports, report, recorder, tally, live),
        Err(fault) => Err(fault),
    }
}

/// Reads both ends, takes up what came, and asks for the connection upstream.
fn take_in<P: Ports, R: Relay, K: Sink, T: Recorder>(
    alloc: Global,
    setup: &R::Setup,
    ports: &mut P,
    report: &mut K,
    recorder: &mut T,
    tally: &mut Tally,
    live: &mut Live<R>,
    room: &mut [u8],
) -> Result<(), SinkFault>
    requires known { live.old.number < P.pairs ports.old }
    requires open { EndsAre live.old.number live.old.sides (P.ends ports.old) }
    requires room { IsReadRoom room.old }
    ensures ends { KeepsEnds live.old live.new (P.ends ports.old) (P.ends ports.new) }
    ensures has { has_end live.old.sides ≡ true → has_end live.new.sides ≡ true }
    ensures ports { KeepsPorts ⟦<P as Ports>⟧ ports.old ports.new }
    ensures out { CountsFaults K.faults (result ≡ Err SinkFault.Out) report.old report.new }
    ensures tape { CountsFaults T.faults (result ≡ Err SinkFault.Capture)
        recorder.old recorder.new }
    ensures count { CountsOnce R.out_of_memory live.old live.new tally.old tally.new }
    ensures log { Extends (P.log ports.old) (P.log ports.new)
        (PartEffect (R.words setup.now) (R.represents setup.now) (Reading Up)
        (Writing Lap.ToUp 0) result
        (state live.old tally.old (K.held report.old) (T.held recorder.old))
        (state live.new tally.new (K.held report.new) (T.held recorder.new))) }
{
    match listen_both(alloc, setup, ports, report, recorder, tally, live, room) {
        Ok(()) => settle_and_connect(alloc, setup, ports, report, recorder, tally, live),
        Err(fault) => Err(fault),
    }
}

/// A pair's part of a turn before its ends are shut.
fn exchange<P: Ports, R: Relay, K: Sink, T: Recorder>(
    alloc: Global,
    setup: &R::Setup,
    ports: &mut P,
    report: &mut K,
    recorder: &mut T,
    tally: &mut Tally,
    live: &mut Live<R>,
    room: &mut [u8],
) -> Result<(), SinkFault>
    requires known { live.old.number < P.pairs ports.old }
    requires open { EndsAre live.old.number live.old.sides (P.ends ports.old) }
    requires room { IsReadRoom room.old }
    ensures ends { KeepsEnds live.old live.new (P.ends ports.old) (P.ends ports.new) }
    ensures has { has_end live.old.sides ≡ true → has_end live.new.sides ≡ true }
    ensures ports { KeepsPorts ⟦<P as Ports>⟧ ports.old ports.new }
    ensures out { CountsFaults K.faults (result ≡ Err SinkFault.Out) report.old report.new }
    ensures tape { CountsFaults T.faults (result ≡ Err SinkFault.Capture)
        recorder.old recorder.new }
    ensures count { CountsOnce R.out_of_memory live.old live.new tally.old tally.new }
    ensures log { Extends (P.log ports.old) (P.log ports.new)
        (PartEffect (R.words setup.now) (R.represents setup.now) (Reading Up) (Shutting Up) result
        (state live.old tally.old (K.held report.old) (T.held recorder.old))
        (state live.new tally.new (K.held report.new) (T.held recorder.new))) }
{
    match take_in(alloc, setup, ports, report, recorder, tally, live, room) {
        Ok(()) => write_both(alloc, setup, ports, report, recorder, tally, live),
        Err(fault) => Err(fault),
    }
}

/// Shuts an end, if that is due.
fn shut_end<P: Ports, R: Relay, K: Sink, T: Recorder>(
    ports: &mut P,
    report: &mut K,
    recorder: &mut T,
    tally: &mut Tally,
    live: &mut Live<R>,
    end: End,
) -> Result<(), SinkFault>
    requires open { EndsAre live.old.number live.old.sides (P.ends ports.old) }
    ensures ends { KeepsEnds live.old live.new (P.ends ports.old) (P.ends ports.new) }
    ensures ports { KeepsPorts ⟦<P as Ports>⟧ ports.old ports.new }
    ensures out { CountsFaults K.faults (result ≡ Err SinkFault.Out) report.old report.new }
    ensures tape { CountsFaults T.faults (result ≡ Err SinkFault.Capture)
        recorder.old recorder.new }
    ensures count { CountsOnce R.out_of_memory live.old live.new tally.old tally.new }
    ensures log { (s : R.Setup) → Extends (P.log ports.old) (P.log ports.new)
        (ShutEffect (R.words s) (R.represents s) (Shutting end) (later (Shutting end)) result
        (state live.old tally.old (K.held report.old) (T.held recorder.old))
        (state live.new tally.new (K.held report.new) (T.held recorder.new))) }
{
    if !live.is_shut(end) {
        return Ok(());
    }
    ports.shut(live.number, end);
    let call = Call::Shut {
        pair: live.number,
        end,
    };
    let kept = recorder.record(call, &[]);
    live.lose(end, Loss::Shut);
    tally.note(true, false);
    both(tell_shut(report, live), kept)
}

/// Shuts the ends where that is due, upstream first.
fn shut_both<P: Ports, R: Relay, K: Sink, T: Recorder>(
    ports: &mut P,
    report: &mut K,
    recorder: &mut T,
    tally: &mut Tally,
    live: &mut Live<R>,
) -> Result<(), SinkFault>
    requires open { EndsAre live.old.number live.old.sides (P.ends ports.old) }
    ensures ends { KeepsEnds live.old live.new (P.ends ports.old) (P.ends ports.new) }
    ensures ports { KeepsPorts ⟦<P as Ports>⟧ ports.old ports.new }
    ensures out { CountsFaults K.faults (result ≡ Err SinkFault.Out) report.old report.new }
    ensures tape { CountsFaults T.faults (result ≡ Err SinkFault.Capture)
        recorder.old recorder.new }
    ensures count { CountsOnce R.out_of_memory live.old live.new tally.old tally.new }
    ensures log { (s : R.Setup) → Extends (P.log ports.old) (P.log ports.new)
        (ShutEffect (R.words s) (R.represents s) (Shutting Up) Past result
        (state live.old tally.old (K.held report.old) (T.held recorder.old))
        (state live.new tally.new (K.held report.new) (T.held recorder.new))) }
{
    match shut_end(ports, report, recorder, tally, live, End::Up) {
        Ok(()) if live.sides.has_end() => {
            shut_end(ports, report, recorder, tally, live, End::Client)
        }
        Ok(()) => Ok(()),
        Err(fault) => Err(fault),
    }
}

/// A pair's part of a turn.
pub fn visit<P: Ports, R: Relay, K: Sink, T: Recorder>(
    alloc: Global,
    setup: &R::Setup,
    ports: &mut P,
    report: &mut K,
    recorder: &mut T,
    tally: &mut Tally,
    live: &mut Live<R>,
    room: &mut [u8],
) -> Result<(), SinkFault>
    requires known { live.old.number < P.pairs ports.old }
    requires open { EndsAre live.old.number live.old.sides (P.ends ports.old) }
    requires room { IsReadRoom room.old }
    ensures ends { KeepsEnds live.old live.new (P.ends ports.old) (P.ends ports.new) }
    ensures ports { KeepsPorts ⟦<P as Ports>⟧ ports.old ports.new }
    ensures out { CountsFaults K.faults (result ≡ Err SinkFault.Out) report.old report.new }
    ensures tape { CountsFaults T.faults (result ≡ Err SinkFault.Capture)
        recorder.old recorder.new }
    ensures count { CountsOnce R.out_of_memory live.old live.new tally.old tally.new }
    ensures log { Extends (P.log ports.old) (P.log ports.new)
        (ShutEffect (R.words setup.now) (R.represents setup.now) (Reading Up) Past result
        (state live.old tally.old (K.held report.old) (T.held recorder.old))
        (state live.new tally.new (K.held report.new) (T.held recorder.new))) }
{
    match exchange(alloc, setup, ports, report, recorder, tally, live, room) {
        Ok(()) => shut_both(ports, report, recorder, tally, live),
        Err(fault) => Err(fault),
    }
}
