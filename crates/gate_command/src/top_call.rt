//! The top call: a command line, ports, an input, out, and a sink for a capture.

ghost use Rattle.std.specs.Prelude.{◌≡◌, ◌≢◌, ◌≤◌, ◌⊎◌, [], map, true, false, IfOk};
ghost use Rattle.std.specs.String.{string_bytes};
ghost use Rattle.gate_outside.specs.Counts.{Rose};
ghost use Rattle.gate_outside.specs.Streams.{Appends, AppendsFront};
ghost use Rattle.gate_runs.specs.Form.{IsInForm};
ghost use Rattle.gate_runs.specs.Next.{pair_limit};
ghost use Rattle.gate_command.specs.Command.{AreInForm, Asks, text_of};
ghost use Rattle.gate_command.specs.Outcome.{number_of, usage_line, around, AsksToServe, Outcome};
ghost use Rattle.gate_command.specs.Outcome.{MayAccept, WithoutInput};

use crate::listing::run_listing;
use crate::recorded::{run_replay, run_show};
use crate::serving::{CaptureSink, begin_and_run, run_unrecorded};
use crate::words::{Asked, Misplaced, read_words};
use gate_listing::Dialect;
use gate_model::Setup;
use gate_outside::{Ports, Sink, Source, write_all};
use gate_runs::Limits;
use gate_turns::tell_number;
use std::alloc::Global;
use wire_base::{ByteText, Memory};

/// The status with which the program ends.
#[derive(Clone, Copy, Debug, PartialEq, Eq)]
pub enum Status {
    /// 0: `idle` answered `Stop`, or the pairs asked for were accepted and have closed. Or the
    /// input is a capture whose run was the same again, or it was listed.
    Ok,
    /// 1: the calls of a replay aren't the recorded ones.
    Differs,
    /// 2: the words aren't a command line.
    Usage,
    /// 3: the input is no capture of a run or isn't whole units, or has 268,435,456 bytes or more.
    BadInput,
    /// 4: accept, the input, out or the capture failed.
    Outside,
    /// 5: there was no memory outside of any pair.
    Memory,
    /// 6: the turns asked for were made.
    TurnLimit,
}

impl Status {
    /// The number of the status.
    pub fn number(self) -> u8
        ensures { result ≡ number_of self }
    {
        match self {
            Status::Ok => 0,
            Status::Differs => 1,
            Status::Usage => 2,
            Status::BadInput => 3,
            Status::Outside => 4,
            Status::Memory => 5,
            Status::TurnLimit => 6,
        }
    }
}

/// Writes the place at which the words cease to be a command line.
fn tell_usage<K: Sink>(out: &mut K, misplaced: Misplaced) -> bool
    ensures later { K.faults out.old ≤ K.faults out.new }
    ensures cause { result ≡ false → Rose (K.faults out.old) (K.faults out.new) }
    ensures whole { result ≡ true → Appends (K.held out.old) (K.held out.new)
        (usage_line misplaced) }
    ensures part { AppendsFront (K.held out.old) (K.held out.new) (usage_line misplaced) }
{
    match misplaced {
        Misplaced::Word(place) => tell_number(out, b"usage at word ", place, b"\n"),
        Misplaced::End => write_all(out, b"usage at end\n"),
    }
}

/// The words after the first, with a line feed between each two.
fn text_after_first(alloc: Global, words: &Vec<String>) -> Result<String, Memory>
    ensures { IfOk result (λ text. string_bytes text ≡ text_of (map string_bytes words.now.items)) }
{
    match words.as_slice() {
        [] => Ok(String::new(alloc)),
        [_, options @ ..] => Ok(options.join(alloc, "\n")?),
    }
}

/// Serves with these limits and this set-up, and writes a capture where one is wanted.
fn serve_as_asked<P: Ports, K: Sink, C: Sink>(
    alloc: Global,
    words: &Vec<String>,
    setup: &Setup,
    limits: &Limits,
    path: &Option<ByteText>,
    ports: &mut P,
    out: &mut K,
    capture: &mut CaptureSink<C>,
) -> Status
    requires pairs { P.pairs ports.old ≡ 0 }
    requires ends { P.ends ports.old ≡ [] }
    requires asks { AsksToServe (map string_bytes words.now.items) limits.now setup.now path.now }
    requires form { IsInForm limits.now }
    ensures ends { P.ends ports.new ≡ [] }
    ensures outside { result ≡ Status.Outside → Rose (P.faults ports.old) (P.faults ports.new)
        ⊎ Rose (K.faults out.old) (K.faults out.new) ⊎ Rose (C.faults capture.old.sink)
        (C.faults capture.new.sink) }
    ensures never { result ≢ Status.Usage }
    ensures memory { result ≡ Status.Memory → ports.new ≡ ports.old }
    ensures onward { P.last ports.old ≤ P.last ports.new }
    ensures later { P.faults ports.old ≤ P.faults ports.new }
    ensures out { K.faults out.old ≤ K.faults out.new }
    ensures tape { C.faults capture.old.sink ≤ C.faults capture.new.sink }
    ensures limit { P.pairs ports.new ≤ pair_limit limits.now }
    ensures outcome { WithoutInput (map string_bytes words.now.items) result
        (around ⟦<P as Ports>⟧ ⟦<K as Sink>⟧ ⟦<C as Sink>⟧ ports.old out.old capture.old.sink)
        (around ⟦<P as Ports>⟧ ⟦<K as Sink>⟧ ⟦<C as Sink>⟧ ports.new out.new capture.new.sink) }
{
    if path.is_none() {
        return run_unrecorded(alloc, setup, limits, ports, out);
    }
    match text_after_first(alloc, words) {
        Ok(text) => begin_and_run(alloc, text.as_bytes(), setup, limits, ports, out, capture),
        Err(Memory) => Status::Memory,
    }
}

/// Does what is asked for.
#[tactic(auto, using(crate::proofs::RunLaws::none_accepted), unfolding(crate::specs::Outcome::Outcome))]
fn run_as_asked<P: Ports, S: Source, K: Sink, C: Sink>(
    alloc: Global,
    words: &Vec<String>,
    asked: &Asked,
    ports: &mut P,
    input: &mut S,
    out: &mut K,
    capture: &mut CaptureSink<C>,
) -> Status
    requires pairs { P.pairs ports.old ≡ 0 }
    requires ends { P.ends ports.old ≡ [] }
    requires asks { Asks (map string_bytes words.now.items) asked.now }
    requires form { AreInForm asked.now }
    ensures ends { P.ends ports.new ≡ [] }
    ensures outside { result ≡ Status.Outside
        → Rose (P.faults ports.old) (P.faults ports.new) ⊎ Rose (S.faults input.old)
        (S.faults input.new)
        ⊎ Rose (K.faults out.old) (K.faults out.new) ⊎ Rose (C.faults capture.old.sink)
        (C.faults capture.new.sink) }
    ensures never { result ≢ Status.Usage }
    ensures memory { result ≡ Status.Memory → ports.new ≡ ports.old }
    ensures onward { P.last ports.old ≤ P.last ports.new }
    ensures later { P.faults ports.old ≤ P.faults ports.new }
    ensures out { K.faults out.old ≤ K.faults out.new }
    ensures drawn { S.faults input.old ≤ S.faults input.new }
    ensures tape { C.faults capture.old.sink ≤ C.faults capture.new.sink }
    ensures limit { MayAccept (map string_bytes words.now.items) (P.pairs ports.new) }
    ensures outcome { Outcome (map string_bytes words.now.items) result
        (around ⟦<P as Ports>⟧ ⟦<K as Sink>⟧ ⟦<C as Sink>⟧ ports.old out.old capture.old.sink)
        (around ⟦<P as Ports>⟧ ⟦<K as Sink>⟧ ⟦<C as Sink>⟧ ports.new out.new capture.new.sink)
        (S.left input.old) (S.left input.new) }
{
    match asked {
        Asked::Serve {
            limits,
            setup,
            listen: _,
            upstream: _,
            capture: path,
        } => serve_as_asked(alloc, words, setup, limits, path, ports, out, capture),
        Asked::Replay => run_replay(alloc, input, out),
        Asked::Show091 => run_listing(alloc, Dialect::Amqp091, input, out),
        Asked::Show10 => run_listing(alloc, Dialect::Amqp10, input, out),
        Asked::ShowCapture => run_show(alloc, input, out),
    }
}

/// Does what the words ask for: serves over the ports, and writes the report to out. Where a
/// capture is asked for, it writes its start and each call to the capture. Or reads a capture from
/// the input, makes its run again or lists it, or lists the units of a byte stream, and writes to
/// out what it found. Where the words aren't a command line, it writes the place instead.
#[tactic(auto, unfolding(crate::specs::Outcome::Outcome))]
pub fn gateway<P: Ports, S: Source, K: Sink, C: Sink>(
    alloc: Global,
    words: &Vec<String>,
    ports: &mut P,
    input: &mut S,
    out: &mut K,
    capture: &mut CaptureSink<C>,
) -> Status
    requires pairs { P.pairs ports.old ≡ 0 }
    requires ends { P.ends ports.old ≡ [] }

    // All ends are shut.
    ensures ends { P.ends ports.new ≡ [] }

    // At most as many pairs are accepted as the words ask for.
    ensures limit { MayAccept (map string_bytes words.now.items) (P.pairs ports.new) }

    // Where there is no memory outside of any pair, no port is called.
    ensures memory { result ≡ Status.Memory → ports.new ≡ ports.old }

    // Neither moments nor counts of faults fall.
    ensures onward { P.last ports.old ≤ P.last ports.new }
    ensures later { P.faults ports.old ≤ P.faults ports.new }
    ensures drawn { S.faults input.old ≤ S.faults input.new }
    ensures out { K.faults out.old ≤ K.faults out.new }
    ensures tape { C.faults capture.old.sink ≤ C.faults capture.new.sink }

    // Accept, the input, out or the capture failed, and its count of faults rose.
    ensures outside { result ≡ Status.Outside
        → Rose (P.faults ports.old) (P.faults ports.new) ⊎ Rose (S.faults input.old)
        (S.faults input.new)
        ⊎ Rose (K.faults out.old) (K.faults out.new) ⊎ Rose (C.faults capture.old.sink)
        (C.faults capture.new.sink) }

    // Words that aren't a command line call no port, the input isn't read, and nothing is written
    // to the capture.
    ensures usage { result ≡ Status.Usage
        → (ports.new ≡ ports.old) × (input.new ≡ input.old) × (capture.new ≡ capture.old) }

    // What the words ask for was done, or out holds the place at which they cease to be a command
    // line.
    ensures outcome { Outcome (map string_bytes words.now.items) result
        (around ⟦<P as Ports>⟧ ⟦<K as Sink>⟧ ⟦<C as Sink>⟧ ports.old out.old capture.old.sink)
        (around ⟦<P as Ports>⟧ ⟦<K as Sink>⟧ ⟦<C as Sink>⟧ ports.new out.new capture.new.sink)
        (S.left input.old) (S.left input.new) }
{
    match read_words(alloc, words) {
        Ok(Ok(asked)) => run_as_asked(alloc, words, &asked, ports, input, out, capture),
        Ok(Err(misplaced)) => {
            if tell_usage(out, misplaced) {
                Status::Usage
            } else {
                Status::Outside
            }
        }
        Err(Memory) => Status::Memory,
    }
}
