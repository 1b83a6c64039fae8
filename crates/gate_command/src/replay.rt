//! Replays: the service over the answers of a log.

ghost use Rattle.std.specs.Prelude.{IfOk};
ghost use Rattle.std.specs.List.{AllByRecursion};
ghost use Rattle.gate_capture.specs.Spelling.{HasSpelling};
ghost use Rattle.gate_runs.specs.Form.{IsInForm};
ghost use Rattle.gate_command.specs.Replaying.{Answers, Replays};

use crate::rerun::Rerun;
use crate::serving::serve_lawfully;
use gate_capture::NoCapture;
use gate_model::Setup;
use gate_outside::{Entries, Sink, Sunk};
use gate_runs::{Limits, Served};
use std::alloc::Global;
use wire_base::Memory;

/// A sink that takes all and keeps nothing.
#[derive(Drop)]
struct Nowhere;

impl Sink for Nowhere {
    ghost use Rattle.std.specs.Prelude.{None};

    ghost faults = { λ _. 0 };

    ghost held = { λ _. None };

    fn write(&mut self, bytes: &[u8]) -> Sunk {
        Sunk::Took(bytes.len())
    }
}

/// How a replay ended.
#[derive(Clone, Copy, Debug, PartialEq, Eq)]
pub enum Replayed {
    /// The calls are the recorded ones, as many.
    Same(u64),
    /// The call with this number is another than the recorded one, or one of both is wanting.
    Differs(u64),
}

/// What a run over the ports showed, which ended so and in which so many pairs ran out of memory.
fn answer_of(rerun: &Rerun, served: Served, out_of_memory: u32) -> Result<Replayed, Memory>
    ensures { IfOk result (Answers rerun.now out_of_memory) }
{
    if served == Served::Memory {
        return Err(Memory);
    }
    match rerun.differs() {
        None => Ok(Replayed::Same(rerun.len() as u64)),
        Some(call) if out_of_memory == 0 && rerun.is_told() => Ok(Replayed::Differs(call)),
        Some(_) => Err(Memory),
    }
}

/// Serves over the answers of a log.
///
/// # Errors
///
/// `Memory` where there is none for the ports or the loop, or where the calls differ and a pair ran
/// out of it, or those since then were too many to note.
pub fn replay(
    alloc: Global,
    setup: &Setup,
    limits: &Limits,
    entries: Entries,
) -> Result<Replayed, Memory>
    requires form { IsInForm limits.now }
    requires spelled { AllByRecursion HasSpelling entries }
    ensures { IfOk result (Replays setup.now limits.now entries) }
{
    let mut rerun = Rerun::new(alloc, entries)?;
    let mut report = Nowhere;
    let mut recorder = NoCapture;
    let (served, out_of_memory) = serve_lawfully(
        alloc,
        setup,
        limits,
        &mut rerun,
        &mut report,
        &mut recorder,
    );
    answer_of(&rerun, served, out_of_memory)
}
