//! What is told of a pair's newest entry, and whether a sink failed at that.

ghost use Rattle.std.specs.Prelude.{◌≡◌, ◌≢◌, ◌++◌, List, Err};
ghost use Rattle.gate_relay.specs.Entries.{Entry};
ghost use Rattle.gate_relay.specs.Sides.{has_end};
ghost use Rattle.gate_runs.specs.Report.{closed_lines};
ghost use Rattle.gate_turns.specs.Parts.{own_lines, TellsBy, both, CountsFaults};
ghost use Rattle.gate_turns.specs.Represents.{Represents};

use crate::live::Live;
use crate::report::{tell_closed_if, tell_memory_if};
use crate::tally::SinkFault;
use gate_outside::Sink;
use gate_relay::Relay;

/// Tells that a pair ran out of memory, if it did, and the lines of its newest entry.
pub fn tell<R: Relay, K: Sink>(
    report: &mut K,
    live: &Live<R>,
    ran_out: bool,
) -> Result<(), SinkFault>
    ensures out { CountsFaults K.faults (result ≡ Err SinkFault.Out) report.old report.new }
    ensures never { result ≢ Err SinkFault.Capture }
    ensures told { (s : R.Setup) (h : List Entry) → Represents (R.represents s) live.now h
        → TellsBy result (K.held report.old) (K.held report.new)
        (own_lines ran_out live.now.number ((R.words s).lines h)) }
{
    if !tell_memory_if(report, live.number, ran_out) {
        return Err(SinkFault::Out);
    }
    if live.relay.tell_lines(report) {
        Ok(())
    } else {
        Err(SinkFault::Out)
    }
}

/// Tells the lines of an end that was shut: those of the pair, and that it is closed where no end
/// is left.
pub fn tell_shut<R: Relay, K: Sink>(report: &mut K, live: &Live<R>) -> Result<(), SinkFault>
    ensures out { CountsFaults K.faults (result ≡ Err SinkFault.Out) report.old report.new }
    ensures never { result ≢ Err SinkFault.Capture }
    ensures told { (s : R.Setup) (h : List Entry) → Represents (R.represents s) live.now h
        → TellsBy result (K.held report.old) (K.held report.new)
        ((R.words s).lines h ++ closed_lines live.now.number (has_end live.now.sides)) }
{
    if !live.relay.tell_lines(report) {
        return Err(SinkFault::Out);
    }
    if tell_closed_if(report, live.number, !live.sides.has_end()) {
        Ok(())
    } else {
        Err(SinkFault::Out)
    }
}

/// Which sink failed, if one did: out at the lines of a call, or the recorder at the call.
pub fn both(told: Result<(), SinkFault>, kept: bool) -> Result<(), SinkFault>
    ensures { result ≡ both told kept }
{
    match told {
        Ok(()) if kept => Ok(()),
        Ok(()) => Err(SinkFault::Capture),
        Err(fault) => Err(fault),
    }
}
