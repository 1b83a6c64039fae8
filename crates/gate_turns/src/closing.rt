//! The end of the service: the live pairs are shut, and the last line is told.

ghost use Rattle.std.specs.Prelude.{◌≡◌, ◌≢◌, ◌⊎◌, ℕ, ◌≤◌, ◌∷◌, ◌++◌, [], List, true, false};
ghost use Rattle.std.specs.Prelude.{Option, Err};
ghost use Rattle.gate_outside.specs.Counts.{Rose};
ghost use Rattle.gate_outside.specs.declared.log.LogEntry.{LogEntry};
ghost use Rattle.gate_outside.specs.Ends.{is_open};
ghost use Rattle.gate_relay.specs.Entries.{Entry, Over};
ghost use Rattle.gate_relay.specs.RelayWords.{RelayWords};
ghost use Rattle.gate_relay.specs.Sides.{has_end, is_open_side};
ghost use Rattle.gate_runs.specs.Marks.{Extends, Finish};
ghost use Rattle.gate_runs.specs.Report.{closed_lines};
ghost use Rattle.gate_runs.specs.Serving.{IsServed, is_sink_fault};
ghost use Rattle.gate_runs.specs.declared.limits.Limits.{Limits};
ghost use Rattle.gate_runs.specs.declared.served.Served.{Served};
ghost use Rattle.gate_turns.specs.declared.tally.Tally.{Tally};
ghost use Rattle.gate_turns.specs.Endings.{ClosingEffect, ConcludeEffect, KeptWhile, TellsWhile};
ghost use Rattle.gate_turns.specs.Endings.{closing_state, is_recorded, is_told, sides_shut};
ghost use Rattle.gate_turns.specs.Endings.{with_fault, with_pair};
ghost use Rattle.gate_turns.specs.Openings.{HaveEntry, numbered_sides};
ghost use Rattle.gate_turns.specs.Parts.{EndsAre, KeepsOthers, both, KeepsPorts, CountsFaults};
ghost use Rattle.gate_turns.specs.Represents.{Represents};
ghost use Rattle.gate_turns.specs.Rounds.{Holds, OwnsEnds, run_state};

use crate::accounts::{both, tell_shut};
use crate::live::Live;
use crate::report::tell_last;
use crate::service::Service;
use crate::tally::SinkFault;
use gate_capture::Recorder;
use gate_outside::{Call, End, Ports, Sink};
use gate_relay::{Loss, Relay};
use gate_runs::{Outside, Served};

/// The report is still told its lines.
fn is_told(answer: Served) -> bool
    ensures { result ≡ is_told answer }
{
    !matches!(answer, Served::Fault(Outside::Out))
}

/// The calls are still recorded.
fn is_recorded(answer: Served) -> bool
    ensures { result ≡ is_recorded answer }
{
    !matches!(answer, Served::Fault(Outside::Out | Outside::Capture))
}

/// How the service ended, after a call of which the report was told, and which was recorded.
fn answer_after(answer: Served, told: Result<(), SinkFault>, kept: bool) -> Served
    ensures { result ≡ with_fault answer (both told kept) }
{
    match both(told, kept) {
        Ok(()) => answer,
        Err(fault) => Served::Fault(fault.outside()),
    }
}

/// Records that an end was shut, unless a sink failed before. `false` tells that the record was
/// lost.
fn record_shut<T: Recorder>(recorder: &mut T, answer: Served, pair: u32, end: End) -> bool
    ensures tape { CountsFaults T.faults (result ≡ false) recorder.old recorder.new }
    ensures kept { KeptWhile (is_recorded answer) result (T.held recorder.old) (T.held recorder.new)
        (LogEntry.Shut pair end) }
{
    if !is_recorded(answer) {
        return true;
    }
    recorder.record(Call::Shut { pair, end }, &[])
}

/// Tells the lines of an end that was shut, unless the report failed before.
fn tell_more<R: Relay, K: Sink>(
    report: &mut K,
    answer: Served,
    live: &Live<R>,
) -> Result<(), SinkFault>
    ensures out { CountsFaults K.faults (result ≡ Err SinkFault.Out) report.old report.new }
    ensures never { result ≢ Err SinkFault.Capture }
    ensures told { (s : R.Setup) (h : List Entry) → Represents (R.represents s) live.now h
        → TellsWhile (is_told answer) result (K.held report.old) (K.held report.new)
        ((R.words s).lines h ++ closed_lines live.now.number (has_end live.now.sides)) }
{
    if !is_told(answer) {
        return Ok(());
    }
    tell_shut(report, live)
}

/// Shuts an end of a pair, if it is open; that of the client only once the one upstream isn't open.
fn shut_open<P: Ports, R: Relay, K: Sink, T: Recorder>(
    ports: &mut P,
    report: &mut K,
    recorder: &mut T,
    answer: Served,
    live: &mut Live<R>,
    end: End,
) -> Served
    requires open { EndsAre live.old.number live.old.sides (P.ends ports.old) }
    requires order { end ≡ End.Client → is_open_side live.old.sides.up ≡ false }
    ensures number { live.new.number ≡ live.old.number }
    ensures sides { live.new.sides ≡ sides_shut end live.old.sides }
    ensures open { EndsAre live.new.number live.new.sides (P.ends ports.new) }
    ensures others { KeepsOthers live.old.number (P.ends ports.old) (P.ends ports.new) }
    ensures ports { KeepsPorts ⟦<P as Ports>⟧ ports.old ports.new }
    ensures out { K.faults report.old ≤ K.faults report.new }
    ensures tape { T.faults recorder.old ≤ T.faults recorder.new }
    ensures answer { (result ≡ answer) ⊎ (is_sink_fault result ≡ true) }
    ensures mute { result ≡ Served.Fault Outside.Out
        → (answer ≡ Served.Fault Outside.Out) ⊎ Rose (K.faults report.old) (K.faults report.new) }
    ensures lost { result ≡ Served.Fault Outside.Capture
        → (answer ≡ Served.Fault Outside.Capture) ⊎ Rose (T.faults recorder.old)
        (T.faults recorder.new) }
    ensures log { (s : R.Setup) (back : List (Live R)) → Extends (P.log ports.old) (P.log ports.new)
        (ClosingEffect (R.words s) (R.represents s)
        (closing_state (with_pair live.old back) answer (K.held report.old) (T.held recorder.old))
        (closing_state (with_pair live.new back) result (K.held report.new)
        (T.held recorder.new))) }
{
    if !live.sides.of(end).is_open() {
        return answer;
    }
    ports.shut(live.number, end);
    let kept = record_shut(recorder, answer, live.number, end);
    live.lose(end, Loss::Shut);
    let told = tell_more(report, answer, live);
    answer_after(answer, told, kept)
}

/// Shuts the open ends of a pair, upstream first.
fn shut_pair<P: Ports, R: Relay, K: Sink, T: Recorder>(
    ports: &mut P,
    report: &mut K,
    recorder: &mut T,
    answer: Served,
    mut live: Live<R>,
) -> Served
    requires open { EndsAre live.number live.sides (P.ends ports.old) }
    requires has { has_end live.sides ≡ true }
    ensures none { (end : End) → is_open live.number end (P.ends ports.new) ≡ false }
    ensures others { KeepsOthers live.number (P.ends ports.old) (P.ends ports.new) }
    ensures ports { KeepsPorts ⟦<P as Ports>⟧ ports.old ports.new }
    ensures out { K.faults report.old ≤ K.faults report.new }
    ensures tape { T.faults recorder.old ≤ T.faults recorder.new }
    ensures answer { (result ≡ answer) ⊎ (is_sink_fault result ≡ true) }
    ensures mute { result ≡ Served.Fault Outside.Out
        → (answer ≡ Served.Fault Outside.Out) ⊎ Rose (K.faults report.old) (K.faults report.new) }
    ensures lost { result ≡ Served.Fault Outside.Capture
        → (answer ≡ Served.Fault Outside.Capture) ⊎ Rose (T.faults recorder.old)
        (T.faults recorder.new) }
    ensures log { (s : R.Setup) (back : List (Live R)) → Extends (P.log ports.old) (P.log ports.new)
        (ClosingEffect (R.words s) (R.represents s)
        (closing_state (live ∷ back) answer (K.held report.old) (T.held recorder.old))
        (closing_state back result (K.held report.new) (T.held recorder.new))) }
{
    let mid = shut_open(ports, report, recorder, answer, &mut live, End::Up);
    shut_open(ports, report, recorder, mid, &mut live, End::Client)
}

/// Shuts the open ends of the live pairs, in the order of their accepts.
fn shut_all<P: Ports, R: Relay, K: Sink, T: Recorder>(
    ports: &mut P,
    report: &mut K,
    recorder: &mut T,
    answer: Served,
    service: Service<R>,
) -> Served
    requires { OwnsEnds service.live.items (P.pairs ports.old) (P.ends ports.old) }
    ensures ends { P.ends ports.new ≡ [] }
    ensures ports { KeepsPorts ⟦<P as Ports>⟧ ports.old ports.new }
    ensures out { K.faults report.old ≤ K.faults report.new }
    ensures tape { T.faults recorder.old ≤ T.faults recorder.new }
    ensures answer { (result ≡ answer) ⊎ (is_sink_fault result ≡ true) }
    ensures mute { result ≡ Served.Fault Outside.Out
        → (answer ≡ Served.Fault Outside.Out) ⊎ Rose (K.faults report.old) (K.faults report.new) }
    ensures lost { result ≡ Served.Fault Outside.Capture
        → (answer ≡ Served.Fault Outside.Capture) ⊎ Rose (T.faults recorder.old)
        (T.faults recorder.new) }
    ensures log { (s : R.Setup) → Extends (P.log ports.old) (P.log ports.new)
        (ClosingEffect (R.words s) (R.represents s)
        (closing_state service.live.items answer (K.held report.old) (T.held recorder.old))
        (closing_state [] result (K.held report.new) (T.held recorder.new))) }
{
    let mut answer = answer;
    for live in service.live {
        answer = shut_pair(ports, report, recorder, answer, live);
    }
    answer
}

/// Tells each pair of a list that the service ended.
fn finish_each<R: Relay>(live: &mut [Live<R>])
    ensures ends { numbered_sides live.new ≡ numbered_sides live.old }
    ensures entry { (s : R.Setup) → HaveEntry (R.represents s) Over live.old live.new }
{
    for pair in live.iter_mut() {
        pair.finish();
    }
}

/// Tells each live pair that the service ended.
fn finish_live<R: Relay>(service: &mut Service<R>)
    ensures ends { numbered_sides service.new.live.items ≡ numbered_sides service.old.live.items }
    ensures entry { (s : R.Setup)
        → HaveEntry (R.represents s) Over service.old.live.items service.new.live.items }
{
    finish_each(service.live.as_mut_slice());
}

/// Ends the service: tells the live pairs so, shuts them, and tells the last line. A sink that
/// failed is not tried again. The answer is how the service ended, or that a sink failed at that.
pub fn conclude<P: Ports, R: Relay, K: Sink, T: Recorder>(
    ports: &mut P,
    report: &mut K,
    recorder: &mut T,
    mut service: Service<R>,
    why: Served,
) -> Served
    requires { Holds service (P.pairs ports.old) (P.ends ports.old) }
    ensures ends { P.ends ports.new ≡ [] }
    ensures ports { KeepsPorts ⟦<P as Ports>⟧ ports.old ports.new }
    ensures out { K.faults report.old ≤ K.faults report.new }
    ensures tape { T.faults recorder.old ≤ T.faults recorder.new }
    ensures answer { (result ≡ why) ⊎ (is_sink_fault result ≡ true) }
    ensures mute { result ≡ Served.Fault Outside.Out
        → (why ≡ Served.Fault Outside.Out) ⊎ Rose (K.faults report.old) (K.faults report.new) }
    ensures lost { result ≡ Served.Fault Outside.Capture
        → (why ≡ Served.Fault Outside.Capture) ⊎ Rose (T.faults recorder.old)
        (T.faults recorder.new) }
    ensures log { (s : R.Setup) (tally : Tally) → Extends (P.log ports.old) (P.log ports.new)
        (ConcludeEffect (R.words s) (R.represents s) why result
        (run_state service tally (P.last ports.old) (K.held report.old) (T.held recorder.old))
        (K.held report.new) (T.held recorder.new)) }
{
    let accepted = service.accepted;
    finish_live(&mut service);
    let answer = shut_all(ports, report, recorder, why, service);
    if !is_told(answer) {
        return answer;
    }
    if !tell_last(report, answer, accepted) {
        return Served::Fault(Outside::Out);
    }
    answer
}

/// Ends a service for which there was no memory, before any call.
pub fn end_without_memory<K: Sink>(report: &mut K) -> Served
    ensures answer { (result ≡ Served.Memory) ⊎ (result ≡ Served.Fault Outside.Out) }
    ensures out { CountsFaults K.faults (result ≡ Served.Fault Outside.Out) report.old report.new }
    ensures served { (w : RelayWords) (c : Limits) (kept : Option (List ℕ))
        → IsServed w c result 0 (K.held report.old) (K.held report.new) kept kept
        (Finish Served.Memory ∷ []) }
{
    if tell_last(report, Served::Memory, 0) {
        Served::Memory
    } else {
        Served::Fault(Outside::Out)
    }
}
