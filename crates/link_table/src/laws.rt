//! What holds of a session's handles above each single event.

ghost use Rattle.std.specs.Prelude.{List, ℕ};
ghost use Rattle.link_table.specs.Laws.{HandleEvent, after_events, AreEvents, NamesLinks};

/// The laws of handles, for proofs to cite; the call does nothing.
pub fn handle_laws()
    // After any events a handle of the container names exactly the link that is attached under it.
    ensures { (most : ℕ) (h : List HandleEvent) → AreEvents most h
        → NamesLinks (after_events most h) }
{}
