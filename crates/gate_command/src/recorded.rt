//! The commands whose input is a capture.

ghost use Rattle.std.specs.Prelude.{◌≡◌, ◌≢◌, ◌⊎◌, ◌≤◌, List, ℕ, IfOk, IfSome, IfNone, OnErr, Ok};
ghost use Rattle.std.specs.List.{AllByRecursion};
ghost use Rattle.gate_outside.specs.Counts.{Rose};
ghost use Rattle.gate_capture.specs.Spelling.{HasSpelling};
ghost use Rattle.gate_model.specs.Setup.{SetupText};
ghost use Rattle.gate_runs.specs.Form.{IsInForm};
ghost use Rattle.gate_runs.specs.declared.limits.Limits.{Limits};
ghost use Rattle.gate_show.specs.declared.show.Shown.{Shown};
ghost use Rattle.gate_command.specs.declared.input.Input.{Input};
ghost use Rattle.gate_command.specs.declared.top_call.Status.{Status};
ghost use Rattle.gate_command.specs.Input.{IsInput};
ghost use Rattle.gate_command.specs.Recorded.{AsksFor, HasLines, IsListing, IsOf, IsReplay};
ghost use Rattle.gate_command.specs.Recorded.{IsReplayed, IsService, IsShown, IsShownOf, Says};
ghost use Rattle.gate_command.specs.Recorded.{ServesBy, bad_line, fault_text, line_of, long_line};
ghost use Rattle.gate_command.specs.Recorded.{meant_of};

use crate::input::{Input, TOO_MANY, read_input};
use crate::replay::{Replayed, replay};
use crate::saying::say_counted;
use crate::told_words::words_of;
use crate::top_call::Status;
use crate::words::{Asked, Misplaced, read_words};
use gate_capture::{Capture, CaptureFault, read_capture};
use gate_model::Setup;
use gate_outside::{Sink, Source};
use gate_runs::Limits;
use gate_show::{Shown, show_capture};
use std::alloc::Global;
use wire_base::{At, Memory};

/// The place of the words' length in a capture, at which words are told that ask for no run.
const WORDS_AT: u64 = 8;

/// How the line for an input at fault ends.
fn fault_text(fault: CaptureFault) -> &'static [u8]
    ensures { result.now ≡ fault_text fault }
{
    match fault {
        CaptureFault::Magic => b": Magic\n",
        CaptureFault::Cut => b": Cut\n",
        CaptureFault::Kind => b": Kind\n",
    }
}

/// Writes the line for an input at fault.
fn say_bad<K: Sink>(
    alloc: Global,
    out: &mut K,
    at: u64,
    fault: CaptureFault,
) -> Result<Status, Memory>
    ensures later { K.faults out.old ≤ K.faults out.new }
    ensures cause { result ≡ Ok Status.Outside → Rose (K.faults out.old) (K.faults out.new) }
    ensures said { IfOk result (λ answer. Says Status.BadInput (bad_line at
        (fault_text fault)) answer (K.held out.old) (K.held out.new)) }
    ensures none { OnErr result (out.new ≡ out.old) }
    ensures never { result ≢ Ok Status.Usage }
{
    say_counted(
        alloc,
        out,
        b"bad input at ",
        at,
        fault_text(fault),
        Status::BadInput,
    )
}

/// Writes the line for an input that is too long.
pub fn say_too_long<K: Sink>(alloc: Global, out: &mut K) -> Result<Status, Memory>
    ensures later { K.faults out.old ≤ K.faults out.new }
    ensures cause { result ≡ Ok Status.Outside → Rose (K.faults out.old) (K.faults out.new) }
    ensures said { IfOk result (λ answer. Says Status.BadInput long_line answer (K.held out.old)
        (K.held out.new)) }
    ensures none { OnErr result (out.new ≡ out.old) }
    ensures never { result ≢ Ok Status.Usage }
{
    say_counted(
        alloc,
        out,
        b"bad input at ",
        TOO_MANY as u64,
        b": TooLong\n",
        Status::BadInput,
    )
}

/// The run that words ask for, if they do: its limits, and what its pairs share.
fn service_of(read: Result<Asked, Misplaced>) -> Option<(Limits, Setup)>
    ensures some { IfSome result (λ run. IsService read run.0 run.1) }
    ensures none { IfNone result ((c : Limits) (s : SetupText) → ¬ IsService read c s) }
{
    match read {
        Ok(Asked::Serve { limits, setup, .. }) => Some((limits, setup)),
        Ok(Asked::Replay | Asked::Show091 | Asked::Show10 | Asked::ShowCapture) | Err(_) => None,
    }
}

/// The run that the words ask for which a text tells after `serve`.
fn service_in(alloc: Global, text: &str) -> Result<Option<(Limits, Setup)>, Memory>
    ensures some { IfOk result (λ o. IfSome o (λ run. ServesBy text.now run.0 run.1
        × IsInForm run.0)) }
    ensures none { IfOk result (λ o. IfNone o ((c : Limits) (s : SetupText)
        → ¬ ServesBy text.now c s)) }
{
    let words = words_of(alloc, text)?;
    let read = read_words(alloc, &words)?;
    Ok(service_of(read))
}

/// The same of bytes; `None` also where they are no text.
fn service_told(alloc: Global, text: &[u8]) -> Result<Option<(Limits, Setup)>, Memory>
    ensures some { IfOk result (λ o. IfSome o (λ run. AsksFor text.now run.0 run.1
        × IsInForm run.0)) }
    ensures none { IfOk result (λ o. IfNone o ((c : Limits) (s : SetupText)
        → ¬ AsksFor text.now c s)) }
{
    match std::str::from_utf8(text) {
        Ok(text) => service_in(alloc, text),
        Err(_) => Ok(None),
    }
}

/// Writes how a replay ended.
fn say_replayed<K: Sink>(alloc: Global, out: &mut K, replayed: Replayed) -> Result<Status, Memory>
    ensures later { K.faults out.old ≤ K.faults out.new }
    ensures cause { result ≡ Ok Status.Outside → Rose (K.faults out.old) (K.faults out.new) }
    ensures said { IfOk result (λ answer. Says (meant_of replayed) (line_of replayed) answer
        (K.held out.old) (K.held out.new)) }
    ensures none { OnErr result (out.new ≡ out.old) }
    ensures never { result ≢ Ok Status.Usage }
{
    match replayed {
        Replayed::Same(calls) => {
            say_counted(alloc, out, b"same: ", calls, b" calls\n", Status::Ok)
        }
        Replayed::Differs(call) => say_counted(
            alloc,
            out,
            b"differs at call ",
            call,
            b"\n",
            Status::Differs,
        ),
    }
}

/// Makes the run of a capture again, and says whether it was the same.
fn judge_run<K: Sink>(alloc: Global, capture: Capture, out: &mut K) -> Result<Status, Memory>
    requires { AllByRecursion HasSpelling capture.entries }
    ensures later { K.faults out.old ≤ K.faults out.new }
    ensures cause { result ≡ Ok Status.Outside → Rose (K.faults out.old) (K.faults out.new) }
    ensures said { IfOk result (λ answer. (meant : Status) × (line : List ℕ)
        × IsOf capture.words capture.entries meant line
        × Says meant line answer (K.held out.old) (K.held out.new)) }
    ensures none { OnErr result (out.new ≡ out.old) }
    ensures never { result ≢ Ok Status.Usage }
{
    let Capture { words, entries } = capture;
    match service_told(alloc, words.as_slice())? {
        Some((limits, setup)) => {
            let replayed = replay(alloc, &setup, &limits, entries)?;
            say_replayed(alloc, out, replayed)
        }
        None => say_bad(alloc, out, WORDS_AT, CaptureFault::Kind),
    }
}

/// Judges the bytes of a whole input.
fn judge<K: Sink>(alloc: Global, bytes: &[u8], out: &mut K) -> Result<Status, Memory>
    ensures later { K.faults out.old ≤ K.faults out.new }
    ensures cause { result ≡ Ok Status.Outside → Rose (K.faults out.old) (K.faults out.new) }
    ensures said { IfOk result (λ answer. IsReplayed (Input.Whole bytes.now) answer
        (K.held out.old) (K.held out.new)) }
    ensures none { OnErr result (out.new ≡ out.old) }
    ensures never { result ≢ Ok Status.Usage }
{
    match read_capture(alloc, bytes)? {
        Ok(capture) => judge_run(alloc, capture, out),
        Err(At { fault, at }) => say_bad(alloc, out, at as u64, fault),
    }
}

/// Reads the input to its end, and makes the run of the capture again. Where memory runs out,
/// nothing is written.
fn replay_input<R: Source, K: Sink>(
    alloc: Global,
    input: &mut R,
    out: &mut K,
) -> Result<Status, Memory>
    ensures drawn { R.faults input.old ≤ R.faults input.new }
    ensures later { K.faults out.old ≤ K.faults out.new }
    ensures cause { result ≡ Ok Status.Outside
        → Rose (R.faults input.old) (R.faults input.new) ⊎ Rose (K.faults out.old)
        (K.faults out.new) }
    ensures said { IfOk result (λ answer. (read : Input) × IsInput (R.left input.old)
        (R.left input.new) read
        × IsReplayed read answer (K.held out.old) (K.held out.new)) }
    ensures none { OnErr result (K.held out.new ≡ K.held out.old) }
    ensures never { result ≢ Ok Status.Usage }
{
    match read_input(alloc, input)? {
        Input::Whole(bytes) => judge(alloc, bytes.as_slice(), out),
        Input::TooLong => say_too_long(alloc, out),
        Input::Failed => Ok(Status::Outside),
    }
}

/// Lists the bytes of a whole input.
fn list<K: Sink>(alloc: Global, bytes: &[u8], out: &mut K) -> Result<Status, Memory>
    ensures later { K.faults out.old ≤ K.faults out.new }
    ensures cause { result ≡ Ok Status.Outside → Rose (K.faults out.old) (K.faults out.new) }
    ensures shown { IfOk result (λ answer. (how : Shown) × IsShown bytes.now how answer
        (K.held out.old) (K.held out.new)) }
    ensures some { OnErr result (HasLines (K.held out.old) (K.held out.new)) }
    ensures never { result ≢ Ok Status.Usage }
{
    match show_capture(alloc, bytes, out)? {
        Shown::Whole => Ok(Status::Ok),
        Shown::Bad(At { fault, at }) => say_bad(alloc, out, at as u64, fault),
        Shown::OutFailed => Ok(Status::Outside),
    }
}

/// Reads the input to its end, and lists the capture. Where memory runs out, the lines of some
/// entries were written.
fn show_input<R: Source, K: Sink>(
    alloc: Global,
    input: &mut R,
    out: &mut K,
) -> Result<Status, Memory>
    ensures drawn { R.faults input.old ≤ R.faults input.new }
    ensures later { K.faults out.old ≤ K.faults out.new }
    ensures cause { result ≡ Ok Status.Outside
        → Rose (R.faults input.old) (R.faults input.new) ⊎ Rose (K.faults out.old)
        (K.faults out.new) }
    ensures shown { IfOk result (λ answer. (read : Input) × IsInput (R.left input.old)
        (R.left input.new) read
        × IsShownOf read answer (K.held out.old) (K.held out.new)) }
    ensures some { OnErr result (HasLines (K.held out.old) (K.held out.new)) }
    ensures never { result ≢ Ok Status.Usage }
{
    match read_input(alloc, input)? {
        Input::Whole(bytes) => list(alloc, bytes.as_slice(), out),
        Input::TooLong => say_too_long(alloc, out),
        Input::Failed => Ok(Status::Outside),
    }
}

/// Replays the capture that is the input; its status.
pub fn run_replay<R: Source, K: Sink>(alloc: Global, input: &mut R, out: &mut K) -> Status
    ensures drawn { R.faults input.old ≤ R.faults input.new }
    ensures later { K.faults out.old ≤ K.faults out.new }
    ensures cause { result ≡ Status.Outside
        → Rose (R.faults input.old) (R.faults input.new) ⊎ Rose (K.faults out.old)
        (K.faults out.new) }
    ensures replay { IsReplay result (R.left input.old) (R.left input.new) (K.held out.old)
        (K.held out.new) }
    ensures never { result ≢ Status.Usage }
{
    match replay_input(alloc, input, out) {
        Ok(status) => status,
        Err(Memory) => Status::Memory,
    }
}

/// Lists the capture that is the input; its status.
pub fn run_show<R: Source, K: Sink>(alloc: Global, input: &mut R, out: &mut K) -> Status
    ensures drawn { R.faults input.old ≤ R.faults input.new }
    ensures later { K.faults out.old ≤ K.faults out.new }
    ensures cause { result ≡ Status.Outside
        → Rose (R.faults input.old) (R.faults input.new) ⊎ Rose (K.faults out.old)
        (K.faults out.new) }
    ensures listing { IsListing result (R.left input.old) (R.left input.new) (K.held out.old)
        (K.held out.new) }
    ensures never { result ≢ Status.Usage }
{
    match show_input(alloc, input, out) {
        Ok(status) => status,
        Err(Memory) => Status::Memory,
    }
}
