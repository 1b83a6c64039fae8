//! The service over pairs that carry bytes over (`ferry.rt`).
//!
//! `play PAIRS TURNS REFUSED` serves at most so many pairs (0 for no limit) and turns. There is no
//! memory for pair REFUSED at its accept, and for none where that passes 32 bits.

ghost use Rattle.std.specs.Prelude.{◌≡◌, []};
ghost use Rattle.gate_runs.specs.Form.{IsInForm};

use super::ferry::{Ferry, Setup};
use crate::call::word_of;
use gate_capture::CaptureTo;
use gate_outside::{Ports, Sink};
use gate_runs::{Limits, Served};
use gate_turns::serve;
use std::alloc::Global;

/// The most turns of a play.
const MOST_TURNS: u64 = 20_000;

/// What limits the run: at least one turn.
fn limits_of(numbers: [u64; 4]) -> Limits
    ensures { IsInForm result }
{
    let turns = numbers[1].clamp(1, MOST_TURNS);
    let pairs = word_of(numbers[0]);
    if pairs == 0 {
        return Limits { pairs: None, turns };
    }
    Limits {
        pairs: Some(pairs),
        turns,
    }
}

/// A run of the service over fresh ports, with a recorder into a sink.
pub fn serve_ferries<P: Ports, K: Sink, T: Sink>(
    alloc: Global,
    numbers: [u64; 4],
    ports: &mut P,
    report: &mut K,
    tape: &mut T,
) -> (Served, u32)
    requires pairs { P.pairs ports.old ≡ 0 }
    requires ends { P.ends ports.old ≡ [] }
{
    let setup = Setup {
        refused: u32::try_from(numbers[2]).ok(),
    };
    let limits = limits_of(numbers);
    let mut recorder = CaptureTo { sink: tape };
    serve::<P, Ferry, K, CaptureTo<T>>(alloc, &setup, ports, &limits, report, &mut recorder)
}
