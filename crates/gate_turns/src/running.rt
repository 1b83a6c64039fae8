//! The service: turns, and how they end.

ghost use Rattle.std.specs.Prelude.{◌≡◌, ◌≢◌, ℕ, ◌<◌, ◌≤◌, ◌^◌, ◌&&◌, ◌==◌, [], List, Err, Option};
ghost use Rattle.std.specs.Prelude.{Some, IfOk};
ghost use Rattle.std.specs.Vec.{vec_len};
ghost use Rattle.gate_outside.specs.Counts.{Rose};
ghost use Rattle.gate_outside.specs.declared.log.LogEntry.{LogEntry};
ghost use Rattle.gate_relay.specs.Entries.{is_empty};
ghost use Rattle.gate_relay.specs.Relayed.{read_room};
ghost use Rattle.gate_runs.specs.Form.{IsInForm};
ghost use Rattle.gate_runs.specs.Marks.{Extends, HasHistory};
ghost use Rattle.gate_runs.specs.Next.{pair_limit};
ghost use Rattle.gate_runs.specs.Serving.{IsServed};
ghost use Rattle.gate_turns.specs.Counting.{CountWithin};
ghost use Rattle.gate_turns.specs.Endings.{CloseEffect, RunEffect, TurnEffect, end_of};
ghost use Rattle.gate_turns.specs.Rounds.{Holds, run_state};
ghost use Rattle.gate_turns.specs.Parts.{KeepsPorts, CountsFaults, IsReadRoom};

use crate::closing::{conclude, end_without_memory};
use crate::round::turn_all;
use crate::service::Service;
use crate::tally::Tally;
use crate::welcome::open_turn;
use gate_capture::Recorder;
use gate_outside::{Call, Next, Ports, Sink};
use gate_relay::Relay;
use gate_runs::{Limits, Outside, Served};
use std::alloc::Global;
use wire_base::Memory;

/// The bytes that a read may give at once.
const READ_ROOM: usize = 65_536;

/// Room for one read.
#[tactic(auto, unfolding(gate_relay::specs::Relayed::read_room))]
fn read_buffer(alloc: Global) -> Result<Vec<u8>, Memory>
    ensures room { IfOk result (λ v. vec_len v ≡ read_room) }
    ensures some { IfOk result (λ v. 0 < vec_len v) }
    ensures small { IfOk result (λ v. vec_len v < 2 ^ 32) }
{
    let room = vec![in alloc; 0u8; READ_ROOM]?;
    Ok(room)
}

/// The pairs asked for were accepted and have closed.
fn is_all_done<R: Relay>(limits: &Limits, service: &Service<R>) -> bool
    ensures { result ≡ (service.now.accepted == pair_limit limits.now)
        && is_empty service.now.live.items }
{
    let limit = limits.pairs.unwrap_or(u32::MAX);
    service.accepted == limit && service.live.is_empty()
}

/// What follows a turn: the next, or the end where the pairs asked for were accepted and have
/// closed.
fn end_or_go_on<R: Relay>(limits: &Limits, service: &Service<R>) -> Result<(), Served>
    ensures { result ≡ end_of ((service.now.accepted == pair_limit limits.now)
        && is_empty service.now.live.items) }
{
    if is_all_done(limits, service) {
        return Err(Served::PairsDone);
    }
    Ok(())
}

/// The end of a turn: idle, where nothing moved. `Err` tells how the service ends.
fn close_turn<P: Ports, R: Relay, T: Recorder>(
    ports: &mut P,
    recorder: &mut T,
    limits: &Limits,
    tally: &Tally,
    service: &Service<R>,
) -> Result<(), Served>
    ensures ends { P.ends ports.new ≡ P.ends ports.old }
    ensures ports { KeepsPorts ⟦<P as Ports>⟧ ports.old ports.new }
    ensures tape { CountsFaults T.faults (result ≡ Err (Served.Fault Outside.Capture))
        recorder.old recorder.new }
    ensures never { (result ≢ Err (Served.Fault Outside.Accept))
        × (result ≢ Err (Served.Fault Outside.Out)) × (result ≢ Err Served.Memory) }
    ensures all { result ≡ Err Served.PairsDone → service.now.accepted ≡ pair_limit limits.now }
    ensures log { (s : R.Setup) (held : Option (List ℕ)) → Extends (P.log ports.old)
        (P.log ports.new)
        (CloseEffect (R.words s) (R.represents s) limits.now result
        (run_state service.now tally.now (P.last ports.old) held (T.held recorder.old))
        (run_state service.now tally.now (P.last ports.new) held (T.held recorder.new))) }
{
    if tally.moved {
        return end_or_go_on(limits, service);
    }
    let answer = ports.idle();
    if !recorder.record(Call::Idle { answer }, &[]) {
        return Err(Served::Fault(Outside::Capture));
    }
    match answer {
        Next::Go => end_or_go_on(limits, service),
        Next::Stop => Err(Served::Stopped),
    }
}

/// One turn. `Err` tells how the service ends.
fn one_turn<P: Ports, R: Relay, K: Sink, T: Recorder>(
    alloc: Global,
    setup: &R::Setup,
    ports: &mut P,
    report: &mut K,
    recorder: &mut T,
    limits: &Limits,
    tally: &mut Tally,
    service: &mut Service<R>,
    room: &mut [u8],
) -> Result<(), Served>
    requires holds { Holds service.old (P.pairs ports.old) (P.ends ports.old) }
    requires room { IsReadRoom room.old }
    ensures holds { Holds service.new (P.pairs ports.new) (P.ends ports.new) }
    ensures limit { service.old.accepted ≤ pair_limit limits.now
        → service.new.accepted ≤ pair_limit limits.now }
    ensures onward { P.last ports.old ≤ P.last ports.new }
    ensures accept { CountsFaults P.faults (result ≡ Err (Served.Fault Outside.Accept))
        ports.old ports.new }
    ensures out { CountsFaults K.faults (result ≡ Err (Served.Fault Outside.Out))
        report.old report.new }
    ensures tape { CountsFaults T.faults (result ≡ Err (Served.Fault Outside.Capture))
        recorder.old recorder.new }
    ensures never { result ≢ Err Served.Memory }
    ensures all { result ≡ Err Served.PairsDone → service.new.accepted ≡ pair_limit limits.now }
    ensures count { CountWithin R.out_of_memory service.old tally.old
        → CountWithin R.out_of_memory service.new tally.new }
    ensures log { Extends (P.log ports.old) (P.log ports.new)
        (TurnEffect (R.words setup.now) (R.represents setup.now) limits.now result
        (run_state service.old tally.old (P.last ports.old) (K.held report.old)
        (T.held recorder.old))
        (run_state service.new tally.new (P.last ports.new) (K.held report.new)
        (T.held recorder.new))) }
{
    if let Err(outside) = open_turn(
        alloc, setup, ports, report, recorder, tally, service, limits,
    ) {
        return Err(Served::Fault(outside));
    }
    if let Err(fault) = turn_all(alloc, setup, ports, report, recorder, tally, service, room) {
        return Err(Served::Fault(fault.outside()));
    }
    close_turn(ports, recorder, limits, tally, service)
}

/// Turns, until the service ends.
fn run<P: Ports, R: Relay, K: Sink, T: Recorder>(
    alloc: Global,
    setup: &R::Setup,
    ports: &mut P,
    report: &mut K,
    recorder: &mut T,
    limits: &Limits,
    tally: &mut Tally,
    service: &mut Service<R>,
    room: &mut [u8],
) -> Served
    requires holds { Holds service.old (P.pairs ports.old) (P.ends ports.old) }
    requires room { IsReadRoom room.old }
    ensures holds { Holds service.new (P.pairs ports.new) (P.ends ports.new) }
    ensures limit { service.old.accepted ≤ pair_limit limits.now
        → service.new.accepted ≤ pair_limit limits.now }
    ensures onward { P.last ports.old ≤ P.last ports.new }
    ensures accept { CountsFaults P.faults (result ≡ Served.Fault Outside.Accept)
        ports.old ports.new }
    ensures out { CountsFaults K.faults (result ≡ Served.Fault Outside.Out) report.old report.new }
    ensures tape { CountsFaults T.faults (result ≡ Served.Fault Outside.Capture)
        recorder.old recorder.new }
    ensures never { result ≢ Served.Memory }
    ensures all { result ≡ Served.PairsDone → service.new.accepted ≡ pair_limit limits.now }
    ensures count { CountWithin R.out_of_memory service.old tally.old
        → CountWithin R.out_of_memory service.new tally.new }
    ensures log { Extends (P.log ports.old) (P.log ports.new)
        (RunEffect (R.words setup.now) (R.represents setup.now) limits.now result
        (run_state service.old tally.old (P.last ports.old) (K.held report.old)
        (T.held recorder.old))
        (run_state service.new tally.new (P.last ports.new) (K.held report.new)
        (T.held recorder.new))) }
{
    for _ in 0..limits.turns {
        if let Err(how) = one_turn(
            alloc, setup, ports, report, recorder, limits, tally, service, room,
        ) {
            return how;
        }
    }
    Served::TurnLimit
}

/// Serves the pairs that come, until `idle` answers `Stop`, the pairs or the turns of the limits
/// were made, or the outside fails. It writes the report, and records each call. Answers how it
/// ended, and the count of the pairs that ran out of memory.
pub fn serve<P: Ports, R: Relay, K: Sink, T: Recorder>(
    alloc: Global,
    setup: &R::Setup,
    ports: &mut P,
    limits: &Limits,
    report: &mut K,
    recorder: &mut T,
) -> (Served, u32)
    requires pairs { P.pairs ports.old ≡ 0 }
    requires ends { P.ends ports.old ≡ [] }
    requires form { IsInForm limits.now }

    // All ends are shut.
    ensures ends { P.ends ports.new ≡ [] }

    // At most as many pairs are accepted as may be, and all of them where the service ends for
    // that.
    ensures limit { P.pairs ports.new ≤ pair_limit limits.now }
    ensures all { result.0 ≡ Served.PairsDone → P.pairs ports.new ≡ pair_limit limits.now }

    // Each pair that was accepted is counted at most once.
    ensures count { result.1 ≤ P.pairs ports.new }

    // Where there is no memory for the loop itself, no call is made.
    ensures memory { result.0 ≡ Served.Memory → ports.new ≡ ports.old }

    // What failed had its count of faults rise, and neither counts nor moments fall.
    ensures onward { P.last ports.old ≤ P.last ports.new }
    ensures later { P.faults ports.old ≤ P.faults ports.new }
    ensures out { K.faults report.old ≤ K.faults report.new }
    ensures tape { T.faults recorder.old ≤ T.faults recorder.new }
    ensures accept { result.0 ≡ Served.Fault Outside.Accept → Rose (P.faults ports.old)
        (P.faults ports.new) }
    ensures report { result.0 ≡ Served.Fault Outside.Out → Rose (K.faults report.old)
        (K.faults report.new) }
    ensures capture { result.0 ≡ Served.Fault Outside.Capture
        → Rose (T.faults recorder.old) (T.faults recorder.new) }

    // Where the calls are told, each is the next one after those before it, out holds the report of
    // them, and the recorder their spellings.
    ensures served { (base : List LogEntry) → P.log ports.old ≡ Some base
        → HasHistory base (P.log ports.new) (IsServed
        (R.words setup.now) limits.now result.0 result.1
        (K.held report.old) (K.held report.new) (T.held recorder.old) (T.held recorder.new)) }
{
    let Ok(mut room) = read_buffer(alloc) else {
        return (end_without_memory(report), 0);
    };
    let mut service = Service::<R>::new(alloc);
    let mut tally = Tally::new();
    let why = run(
        alloc,
        setup,
        ports,
        report,
        recorder,
        limits,
        &mut tally,
        &mut service,
        &mut room,
    );
    let answer = conclude(ports, report, recorder, service, why);
    (answer, tally.out_of_memory)
}
