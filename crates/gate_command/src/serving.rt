//! Runs of the service, with and without a capture of its calls.

ghost use Rattle.std.specs.Prelude.{◌≡◌, ◌≢◌, ◌≤◌, ◌<◌, ◌^◌, ◌⊎◌, List, [], length, Some};
ghost use Rattle.gate_outside.specs.Counts.{Rose};
ghost use Rattle.gate_outside.specs.declared.log.LogEntry.{LogEntry};
ghost use Rattle.gate_runs.specs.declared.served.Outside.TheVariants as Outside;
ghost use Rattle.gate_model.specs.Setup.{IsInForm as IsSetup};
ghost use Rattle.gate_runs.specs.Form.{IsInForm};
ghost use Rattle.gate_runs.specs.Marks.{HasHistory};
ghost use Rattle.gate_runs.specs.Next.{pair_limit};
ghost use Rattle.gate_command.specs.Outcome.{status_of, lost_line, around, unrecorded, Ran, Tells};
ghost use Rattle.gate_command.specs.Outcome.{BeginsAndRuns, FailsToBegin};
ghost use Rattle.gate_command.specs.Runs.{IsRunOf};

use crate::top_call::Status;
use gate_capture::{NoCapture, Recorder, write_entry, write_start};
use gate_laws::runs_are_lawful;
use gate_model::Setup;
use gate_outside::{Call, Ports, Sink, write_all};
use gate_pair::Pair;
use gate_runs::{Limits, Served};
use gate_turns::serve;
use std::alloc::Global;

/// A sink for a capture, which each call of a run is written to.
#[derive(Debug, Drop)]
pub struct CaptureSink<C: Sink> {
    pub sink: C,
}

impl<C: Sink> Recorder for CaptureSink<C> {
    ghost faults = { λ capture. C.faults capture.sink };

    ghost held = { λ capture. C.held capture.sink };

    fn record(&mut self, call: Call, bytes: &[u8]) -> bool {
        write_entry(&mut self.sink, call, bytes)
    }
}

/// The status of a run of the service.
fn status_of(served: Served) -> Status
    ensures { result ≡ status_of served }
{
    match served {
        Served::Stopped | Served::PairsDone => Status::Ok,
        Served::TurnLimit => Status::TurnLimit,
        Served::Fault(_) => Status::Outside,
        Served::Memory => Status::Memory,
    }
}

/// What all pairs share is in form, by its type.
fn know_form(setup: &Setup)
    ensures { IsSetup setup.now }
{
    let _name = setup.name();
}

/// Serves, and records the calls. All laws of a run hold at each point of the calls that were made.
pub fn serve_lawfully<P: Ports, K: Sink, T: Recorder>(
    alloc: Global,
    setup: &Setup,
    limits: &Limits,
    ports: &mut P,
    out: &mut K,
    recorder: &mut T,
) -> (Served, u32)
    requires pairs { P.pairs ports.old ≡ 0 }
    requires ends { P.ends ports.old ≡ [] }
    requires form { IsInForm limits.now }
    ensures ends { P.ends ports.new ≡ [] }
    ensures limit { P.pairs ports.new ≤ pair_limit limits.now }
    ensures all { result.0 ≡ Served.PairsDone → P.pairs ports.new ≡ pair_limit limits.now }
    ensures count { result.1 ≤ P.pairs ports.new }
    ensures memory { result.0 ≡ Served.Memory → ports.new ≡ ports.old }
    ensures onward { P.last ports.old ≤ P.last ports.new }
    ensures later { P.faults ports.old ≤ P.faults ports.new }
    ensures out { K.faults out.old ≤ K.faults out.new }
    ensures tape { T.faults recorder.old ≤ T.faults recorder.new }
    ensures accept { result.0 ≡ Served.Fault Outside.Accept → Rose (P.faults ports.old)
        (P.faults ports.new) }
    ensures report { result.0 ≡ Served.Fault Outside.Out → Rose (K.faults out.old)
        (K.faults out.new) }
    ensures capture { result.0 ≡ Served.Fault Outside.Capture
        → Rose (T.faults recorder.old) (T.faults recorder.new) }
    ensures served { (base : List LogEntry) → P.log ports.old ≡ Some base
        → HasHistory base (P.log ports.new) (IsRunOf setup.now limits.now result.0 result.1
        (K.held out.old) (K.held out.new)
        (T.held recorder.old) (T.held recorder.new)) }
{
    runs_are_lawful();
    know_form(setup);
    serve::<P, Pair, K, T>(alloc, setup, ports, limits, out, recorder)
}

/// A run of the service of which no record is kept; its status.
pub fn run_unrecorded<P: Ports, K: Sink>(
    alloc: Global,
    setup: &Setup,
    limits: &Limits,
    ports: &mut P,
    out: &mut K,
) -> Status
    requires pairs { P.pairs ports.old ≡ 0 }
    requires ends { P.ends ports.old ≡ [] }
    requires form { IsInForm limits.now }
    ensures ends { P.ends ports.new ≡ [] }
    ensures never { result ≢ Status.Usage }
    ensures outside { result ≡ Status.Outside
        → Rose (P.faults ports.old) (P.faults ports.new) ⊎ Rose (K.faults out.old)
        (K.faults out.new) }
    ensures memory { result ≡ Status.Memory → ports.new ≡ ports.old }
    ensures onward { P.last ports.old ≤ P.last ports.new }
    ensures later { P.faults ports.old ≤ P.faults ports.new }
    ensures out { K.faults out.old ≤ K.faults out.new }
    ensures limit { P.pairs ports.new ≤ pair_limit limits.now }
    ensures ran { Ran setup.now limits.now result
        (unrecorded ⟦<P as Ports>⟧ ⟦<K as Sink>⟧ ports.old out.old)
        (unrecorded ⟦<P as Ports>⟧ ⟦<K as Sink>⟧ ports.new out.new) }
{
    let mut recorder = NoCapture;
    let (served, _count) = serve_lawfully(alloc, setup, limits, ports, out, &mut recorder);
    status_of(served)
}

/// A run of the service whose calls are written to the capture; its status.
fn run_recorded<P: Ports, K: Sink, C: Sink>(
    alloc: Global,
    setup: &Setup,
    limits: &Limits,
    ports: &mut P,
    out: &mut K,
    capture: &mut CaptureSink<C>,
) -> Status
    requires pairs { P.pairs ports.old ≡ 0 }
    requires ends { P.ends ports.old ≡ [] }
    requires form { IsInForm limits.now }
    ensures ends { P.ends ports.new ≡ [] }
    ensures never { result ≢ Status.Usage }
    ensures outside { result ≡ Status.Outside → Rose (P.faults ports.old) (P.faults ports.new)
        ⊎ Rose (K.faults out.old) (K.faults out.new) ⊎ Rose (C.faults capture.old.sink)
        (C.faults capture.new.sink) }
    ensures memory { result ≡ Status.Memory → ports.new ≡ ports.old }
    ensures onward { P.last ports.old ≤ P.last ports.new }
    ensures later { P.faults ports.old ≤ P.faults ports.new }
    ensures out { K.faults out.old ≤ K.faults out.new }
    ensures tape { C.faults capture.old.sink ≤ C.faults capture.new.sink }
    ensures limit { P.pairs ports.new ≤ pair_limit limits.now }
    ensures ran { Ran setup.now limits.now result
        (around ⟦<P as Ports>⟧ ⟦<K as Sink>⟧ ⟦<C as Sink>⟧ ports.old out.old capture.old.sink)
        (around ⟦<P as Ports>⟧ ⟦<K as Sink>⟧ ⟦<C as Sink>⟧ ports.new out.new capture.new.sink) }
{
    let (served, _count) = serve_lawfully(alloc, setup, limits, ports, out, capture);
    status_of(served)
}

/// Writes the line for a capture whose start was not taken.
fn tell_lost_start<K: Sink>(out: &mut K)
    ensures later { K.faults out.old ≤ K.faults out.new }
    ensures told { Tells (K.faults out.old) (K.faults out.new) (K.held out.old)
        (K.held out.new) lost_line }
{
    // The run is over for the capture, whether or not out takes the line.
    let _told = write_all(out, b"fault: capture\n");
}

/// Writes the start of the capture, with this text of the words, and then serves and writes each
/// call. Where the start isn't taken, nothing is asked of the ports.
pub fn begin_and_run<P: Ports, K: Sink, C: Sink>(
    alloc: Global,
    text: &[u8],
    setup: &Setup,
    limits: &Limits,
    ports: &mut P,
    out: &mut K,
    capture: &mut CaptureSink<C>,
) -> Status
    requires small { length text.now < 2 ^ 32 }
    requires pairs { P.pairs ports.old ≡ 0 }
    requires ends { P.ends ports.old ≡ [] }
    requires form { IsInForm limits.now }
    ensures ends { P.ends ports.new ≡ [] }
    ensures never { result ≢ Status.Usage }
    ensures outside { result ≡ Status.Outside → Rose (P.faults ports.old) (P.faults ports.new)
        ⊎ Rose (K.faults out.old) (K.faults out.new) ⊎ Rose (C.faults capture.old.sink)
        (C.faults capture.new.sink) }
    ensures memory { result ≡ Status.Memory → ports.new ≡ ports.old }
    ensures onward { P.last ports.old ≤ P.last ports.new }
    ensures later { P.faults ports.old ≤ P.faults ports.new }
    ensures out { K.faults out.old ≤ K.faults out.new }
    ensures tape { C.faults capture.old.sink ≤ C.faults capture.new.sink }
    ensures limit { P.pairs ports.new ≤ pair_limit limits.now }
    ensures outcome { BeginsAndRuns text.now setup.now limits.now result
        (around ⟦<P as Ports>⟧ ⟦<K as Sink>⟧ ⟦<C as Sink>⟧ ports.old out.old capture.old.sink)
        (around ⟦<P as Ports>⟧ ⟦<K as Sink>⟧ ⟦<C as Sink>⟧ ports.new out.new capture.new.sink)
        ⊎ FailsToBegin text.now result
        (around ⟦<P as Ports>⟧ ⟦<K as Sink>⟧ ⟦<C as Sink>⟧ ports.old out.old capture.old.sink)
        (around ⟦<P as Ports>⟧ ⟦<K as Sink>⟧ ⟦<C as Sink>⟧ ports.new out.new capture.new.sink) }
{
    if !write_start(&mut capture.sink, text) {
        tell_lost_start(out);
        return Status::Outside;
    }
    run_recorded(alloc, setup, limits, ports, out, capture)
}
