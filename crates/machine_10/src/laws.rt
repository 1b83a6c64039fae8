//! What holds of a session's windows and ids above each single event, and of a connection above the
//! table of its transitions.

ghost use Rattle.std.specs.Prelude.{◌≡◌, ℕ, true, List};
ghost use Rattle.performatives_10.specs.declared.condition.Condition.{Condition};
ghost use Rattle.machine_10.specs.Laws.{Call10, after_calls, AreInRange, Closes, GoesOn, RunsBy};
ghost use Rattle.machine_10.specs.Laws.{StaysClosing, StaysClosed, is_within};
ghost use Rattle.machine_10.specs.SessionFolds.{Event10, after_events, AreEvents, IsFold};
ghost use Rattle.machine_10.specs.State.{is_closing};
ghost use Rattle.machine_10.specs.Transitions.{unit_step};
ghost use Rattle.machine_10.specs.Transitions as meaning;
ghost use Rattle.machine_10.specs.declared.state.Phase10.TheVariants as phase;
ghost use Rattle.machine_10.specs.declared.state.Upstream.{Upstream};
ghost use Rattle.machine_10.specs.declared.unit.Unit10.{Unit10};

/// The laws of a session, for proofs to cite; the call does nothing.
pub fn session_laws()
    // After any events the windows and ids are the folds of the standard (AMQP 1.0 2.5.6).
    ensures folds { (h : List Event10) → AreEvents h → IsFold h (after_events h) }
{}

/// The laws of a connection, for proofs to cite; the call does nothing.
pub fn connection_laws()
    // After any calls the container takes frames of 512 bytes at least, sessions are on channels
    // that it takes, and no two are on one of its channels.
    ensures ranges { (mechanism response : List ℕ) (h : List Call10)
        → AreInRange (after_calls mechanism response h) }
    // A violation closes the connection, and leaves what the container stated, and the sessions.
    ensures violations { (c : Upstream) (u : Unit10) (why : Condition)
        → (unit_step c u).1 ≡ meaning.Violation why → Closes c (unit_step c u).0 }
    // No unit makes a connection run but the open that was awaited.
    ensures running { (c : Upstream) (u : Unit10) → (unit_step c u).0.phase
        ≡ phase.Running → RunsBy c (unit_step c u) }
    // No unit changes the login, and none takes a connection back to an earlier phase.
    ensures forward { (c : Upstream) (u : Unit10) → GoesOn c (unit_step c u).0 }
    // A connection that is closing stays so, and no unit is refused any more.
    ensures closing { (c : Upstream) (u : Unit10) → is_closing c.phase
        ≡ true → StaysClosing c (unit_step c u) }
    // What a session is told that neither begins nor ends it leaves the connection as it is.
    ensures within { (c : Upstream) (u : Unit10) → is_within (unit_step c u).1
        ≡ true → (unit_step c u).0 ≡ c }
    // A closed connection stays so, and nothing is answered.
    ensures closed { (c : Upstream) (u : Unit10) → c.phase ≡ phase.Closed
        → StaysClosed c (unit_step c u) }
{}
