//! The moments that count, in milliseconds.

ghost use Rattle.std.specs.Prelude.{◌≡◌};
ghost use Rattle.gate_model.specs.Due.{is_overdue};
ghost use Rattle.gate_model.specs.State.{closes_at, fed_by};

use gate_model::CLOSING_LIMIT;

/// The moment of the first closing event.
pub fn closes_at(closed_at: Option<u64>, closing: bool, moment: u64) -> Option<u64>
    ensures { result ≡ closes_at closed_at closing moment }
{
    match closed_at {
        Some(at) => Some(at),
        None => { if closing { Some(moment) } else { None } }
    }
}

/// The moment from which a client's silence counts, once it is held at a moment or not.
pub fn fed_by(held: bool, moment: u64, fed_at: u64) -> u64
    ensures { result ≡ fed_by held moment fed_at }
{
    if held { moment } else { fed_at }
}

/// The closing event is so old that the end is shut in any case.
pub fn is_overdue(closed_at: Option<u64>, moment: u64) -> bool
    ensures { result ≡ is_overdue closed_at moment }
{
    match closed_at {
        None => false,
        Some(at) => CLOSING_LIMIT <= moment.saturating_sub(at),
    }
}
