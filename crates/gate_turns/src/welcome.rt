//! The beginning of a turn: the clock, and the next client.

ghost use Rattle.std.specs.Prelude.{◌≡◌, ◌≢◌, ◌+◌, ◌<◌, ◌≤◌, ◌&&◌, ◌++◌, nat_lt, not, true, length};
ghost use Rattle.std.specs.Prelude.{Err, IfOk, OnOk, OnErr, is_ok};
ghost use Rattle.std.specs.List.{AllByRecursion};
ghost use Rattle.gate_outside.specs.Counts.{Rose};
ghost use Rattle.gate_outside.specs.declared.log.LogEntry.{LogEntry};
ghost use Rattle.gate_outside.specs.Ends.{closed};
ghost use Rattle.gate_outside.specs.History.{Tells};
ghost use Rattle.gate_relay.specs.Entries.{Moment};
ghost use Rattle.gate_runs.specs.Marks.{Extends, History};
ghost use Rattle.gate_runs.specs.Next.{most_live, pair_limit};
ghost use Rattle.gate_runs.specs.Report.{closed_line, lines_of, memory_line};
ghost use Rattle.gate_turns.specs.Counting.{CountWithin, how_many_can};
ghost use Rattle.gate_turns.specs.Openings.{Admitted, ClockEffect, HaveEntry, KeptAlso, OpenEffect};
ghost use Rattle.gate_turns.specs.Openings.{WelcomeEffect, numbered_sides, outcome};
ghost use Rattle.gate_turns.specs.Parts.{TellsBy, noted, KeepsPorts, CountsFaults};
ghost use Rattle.gate_turns.specs.Rounds.{Holds, IsIn, numbers, run_state};

use crate::accounts::both;
use crate::live::Live;
use crate::report::tell_refused;
use crate::service::Service;
use crate::tally::{SinkFault, Tally};
use gate_capture::Recorder;
use gate_outside::{Accepted, Call, End, Ports, Sink};
use gate_relay::{Relay, Sides};
use gate_runs::{Limits, Outside};
use std::alloc::Global;
use wire_base::Memory;

/// The pairs that may live at once.
const MOST_LIVE: usize = 256;

/// Tells each pair of a list a moment.
fn tell_each<R: Relay>(live: &mut [Live<R>], moment: u64)
    ensures ends { numbered_sides live.new ≡ numbered_sides live.old }
    ensures count { how_many_can R.out_of_memory live.new ≡ how_many_can R.out_of_memory live.old }
    ensures entry { (s : R.Setup) → HaveEntry (R.represents s) (Moment moment) live.old live.new }
{
    for pair in live.iter_mut() {
        pair.tell(moment);
    }
}

/// Tells each live pair a moment.
fn tell_pairs<R: Relay>(service: &mut Service<R>, moment: u64)
    ensures accepted { service.new.accepted ≡ service.old.accepted }
    ensures ends { numbered_sides service.new.live.items ≡ numbered_sides service.old.live.items }
    ensures count { how_many_can R.out_of_memory service.new.live.items
        ≡ how_many_can R.out_of_memory service.old.live.items }
    ensures entry { (s : R.Setup) → HaveEntry (R.represents s)
        (Moment moment) service.old.live.items service.new.live.items }
{
    tell_each(service.live.as_mut_slice(), moment);
}

/// Tells the report the newest lines of each pair of a list.
fn tell_all_lines<R: Relay, K: Sink>(report: &mut K, live: &[Live<R>]) -> Result<(), SinkFault>
    ensures out { CountsFaults K.faults (result ≡ Err SinkFault.Out) report.old report.new }
    ensures never { result ≢ Err SinkFault.Capture }
    ensures told { (s : R.Setup) (n : History) → AllByRecursion (IsIn (R.represents s) n) live.now
        → TellsBy result (K.held report.old) (K.held report.new) (lines_of (R.words s)
        (numbers live.now) n) }
{
    for pair in live.iter() {
        if !pair.relay.tell_lines(report) {
            return Err(SinkFault::Out);
        }
    }
    Ok(())
}

/// Reads the clock, tells the live pairs the moment, and the report their lines of that.
fn read_clock<P: Ports, R: Relay, K: Sink, T: Recorder>(
    ports: &mut P,
    report: &mut K,
    recorder: &mut T,
    tally: &mut Tally,
    service: &mut Service<R>,
) -> Result<u64, SinkFault>
    requires holds { Holds service.old (P.pairs ports.old) (P.ends ports.old) }
    ensures holds { Holds service.new (P.pairs ports.new) (P.ends ports.new) }
    ensures moment { IfOk result (λ moment. moment ≡ P.last ports.new) }
    ensures onward { P.last ports.old ≤ P.last ports.new }
    ensures accepted { service.new.accepted ≡ service.old.accepted }
    ensures later { P.faults ports.old ≤ P.faults ports.new }
    ensures out { CountsFaults K.faults (result ≡ Err SinkFault.Out) report.old report.new }
    ensures tape { CountsFaults T.faults (result ≡ Err SinkFault.Capture)
        recorder.old recorder.new }
    ensures count { CountWithin R.out_of_memory service.old tally.old
        → CountWithin R.out_of_memory service.new tally.new }
    ensures log { (s : R.Setup) → Extends (P.log ports.old) (P.log ports.new)
        (ClockEffect (R.words s) (R.represents s) result
        (run_state service.old tally.old (P.last ports.old) (K.held report.old)
        (T.held recorder.old))
        (run_state service.new tally.new (P.last ports.new) (K.held report.new)
        (T.held recorder.new))) }
{
    let ms = ports.now();
    let kept = recorder.record(Call::Now { ms }, &[]);
    tell_pairs(service, ms);
    tally.begin();
    match both(tell_all_lines(report, service.live.as_slice()), kept) {
        Ok(()) => Ok(ms),
        Err(fault) => Err(fault),
    }
}

/// Another pair may be accepted.
fn has_room<R: Relay>(limits: &Limits, service: &Service<R>) -> bool
    ensures room { result ≡ nat_lt (length service.now.live.items) most_live
        && nat_lt service.now.accepted (pair_limit limits.now) }
    ensures limit { result ≡ true → service.now.accepted < 4294967295 }
    ensures within { result ≡ true → service.now.accepted < pair_limit limits.now }
{
    let limit = limits.pairs.unwrap_or(u32::MAX);
    service.live.len() < MOST_LIVE && service.accepted < limit
}

/// Takes in a pair that was accepted at this moment, if there is memory for it.
fn admit<R: Relay>(
    alloc: Global,
    setup: &R::Setup,
    service: &mut Service<R>,
    number: u32,
    moment: u64,
) -> Result<(), Memory>
    ensures accepted { service.new.accepted ≡ service.old.accepted }
    ensures ok { OnOk result (Admitted
        (R.represents setup.now) number moment service.old service.new) }
    ensures err { OnErr result (service.new.live.items ≡ service.old.live.items) }
{
    let relay = R::new(alloc, setup, number, moment)?;
    match Box::new(alloc, relay) {
        Ok(relay) => service.admit(Live {
            number,
            sides: Sides::new(),
            relay,
        }),
        Err(_) => Err(Memory),
    }
}

/// Takes in a pair that was accepted at this moment, if there is memory for it, and counts it.
fn take_in<R: Relay>(
    alloc: Global,
    setup: &R::Setup,
    tally: &mut Tally,
    service: &mut Service<R>,
    number: u32,
    moment: u64,
) -> Result<(), Memory>
    requires { service.old.accepted < 4294967295 }
    ensures accepted { service.new.accepted ≡ service.old.accepted + 1 }
    ensures tally { tally.new ≡ noted true (not (is_ok result)) tally.old }
    ensures ok { OnOk result (Admitted
        (R.represents setup.now) number moment service.old service.new) }
    ensures err { OnErr result (service.new.live.items ≡ service.old.live.items) }
{
    service.count();
    let taken = admit(alloc, setup, service, number, moment);
    tally.note(true, taken.is_err());
    taken
}

/// Shuts a pair that there was no memory for at its accept, and tells the lines of that. The call
/// is kept unless that of the accept was lost.
fn turn_away<P: Ports, K: Sink, T: Recorder>(
    ports: &mut P,
    report: &mut K,
    recorder: &mut T,
    number: u32,
    kept: bool,
) -> Result<(), SinkFault>
    ensures ends { P.ends ports.new ≡ closed number End.Client (P.ends ports.old) }
    ensures ports { KeepsPorts ⟦<P as Ports>⟧ ports.old ports.new }
    ensures out { CountsFaults K.faults (result ≡ Err SinkFault.Out) report.old report.new }
    ensures tape { T.faults recorder.old ≤ T.faults recorder.new }
    ensures lost { result ≡ Err SinkFault.Capture → kept ≡ true
        → Rose (T.faults recorder.old) (T.faults recorder.new) }
    ensures told { TellsBy result (K.held report.old) (K.held report.new) (memory_line number
        ++ closed_line number) }
    ensures kept { KeptAlso kept result (T.held recorder.old) (T.held recorder.new)
        (LogEntry.Shut number End.Client) }
    ensures log { Tells (P.log ports.old) (P.log ports.new) (LogEntry.Shut number End.Client) }
{
    ports.shut(number, End::Client);
    let call = Call::Shut {
        pair: number,
        end: End::Client,
    };
    let kept = kept && recorder.record(call, &[]);
    if !tell_refused(report, number) {
        return Err(SinkFault::Out);
    }
    both(Ok(()), kept)
}

/// What of the outside failed, if a sink did.
fn outcome(told: Result<(), SinkFault>) -> Result<(), Outside>
    ensures { result ≡ outcome told }
{
    match told {
        Ok(()) => Ok(()),
        Err(fault) => Err(fault.outside()),
    }
}

/// Accepts the next client, if one waits, and takes it in.
fn welcome<P: Ports, R: Relay, K: Sink, T: Recorder>(
    alloc: Global,
    setup: &R::Setup,
    ports: &mut P,
    report: &mut K,
    recorder: &mut T,
    tally: &mut Tally,
    service: &mut Service<R>,
    moment: u64,
) -> Result<(), Outside>
    requires holds { Holds service.old (P.pairs ports.old) (P.ends ports.old) }
    requires limit { service.old.accepted < 4294967295 }
    requires time { moment ≡ P.last ports.old }
    ensures holds { Holds service.new (P.pairs ports.new) (P.ends ports.new) }
    ensures most { service.new.accepted ≤ service.old.accepted + 1 }
    ensures last { P.last ports.new ≡ P.last ports.old }
    ensures accept { CountsFaults P.faults (result ≡ Err Outside.Accept) ports.old ports.new }
    ensures out { CountsFaults K.faults (result ≡ Err Outside.Out) report.old report.new }
    ensures tape { CountsFaults T.faults (result ≡ Err Outside.Capture) recorder.old recorder.new }
    ensures count { CountWithin R.out_of_memory service.old tally.old
        → CountWithin R.out_of_memory service.new tally.new }
    ensures log { Extends (P.log ports.old) (P.log ports.new)
        (WelcomeEffect (R.words setup.now) (R.represents setup.now) result
        (run_state service.old tally.old (P.last ports.old) (K.held report.old)
        (T.held recorder.old))
        (run_state service.new tally.new (P.last ports.new) (K.held report.new)
        (T.held recorder.new))) }
{
    let answer = ports.accept();
    let kept = recorder.record(Call::Accept { answer }, &[]);
    match answer {
        Accepted::Pair(number) => match take_in(alloc, setup, tally, service, number, moment) {
            Ok(()) => outcome(both(Ok(()), kept)),
            Err(Memory) => outcome(turn_away(ports, report, recorder, number, kept)),
        },
        Accepted::NotYet => outcome(both(Ok(()), kept)),
        Accepted::Failed if kept => Err(Outside::Accept),
        Accepted::Failed => Err(Outside::Capture),
    }
}

/// Begins a turn: reads the clock, and accepts where another pair may be.
pub fn open_turn<P: Ports, R: Relay, K: Sink, T: Recorder>(
    alloc: Global,
    setup: &R::Setup,
    ports: &mut P,
    report: &mut K,
    recorder: &mut T,
    tally: &mut Tally,
    service: &mut Service<R>,
    limits: &Limits,
) -> Result<(), Outside>
    requires holds { Holds service.old (P.pairs ports.old) (P.ends ports.old) }
    ensures holds { Holds service.new (P.pairs ports.new) (P.ends ports.new) }
    ensures limit { service.old.accepted ≤ pair_limit limits.now
        → service.new.accepted ≤ pair_limit limits.now }
    ensures onward { P.last ports.old ≤ P.last ports.new }
    ensures accept { CountsFaults P.faults (result ≡ Err Outside.Accept) ports.old ports.new }
    ensures out { CountsFaults K.faults (result ≡ Err Outside.Out) report.old report.new }
    ensures tape { CountsFaults T.faults (result ≡ Err Outside.Capture) recorder.old recorder.new }
    ensures count { CountWithin R.out_of_memory service.old tally.old
        → CountWithin R.out_of_memory service.new tally.new }
    ensures log { Extends (P.log ports.old) (P.log ports.new)
        (OpenEffect (R.words setup.now) (R.represents setup.now) limits.now result
        (run_state service.old tally.old (P.last ports.old) (K.held report.old)
        (T.held recorder.old))
        (run_state service.new tally.new (P.last ports.new) (K.held report.new)
        (T.held recorder.new))) }
{
    let moment = match read_clock(ports, report, recorder, tally, service) {
        Ok(moment) => moment,
        Err(fault) => return Err(fault.outside()),
    };
    if !has_room(limits, service) {
        return Ok(());
    }
    welcome(
        alloc, setup, ports, report, recorder, tally, service, moment,
    )
}
