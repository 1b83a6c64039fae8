//! What holds of the transitions of a connection, above their table.

ghost use Rattle.std.specs.Prelude.{◌≡◌, ℕ, List, ◌∷◌, Some, true};
ghost use Rattle.methods_091.specs.declared.method.Method91.{Method91};
ghost use Rattle.content_091.specs.declared.assembly.Content.{Content};
ghost use Rattle.machine_091.specs.Laws.{Call91, Take, after_call, after_calls, AreInRange, Closes};
ghost use Rattle.machine_091.specs.Laws.{StaysClosed, HasNone, AreOnOpen, frames_on, IsPublished};
ghost use Rattle.machine_091.specs.Limits.{AreWithin};
ghost use Rattle.machine_091.specs.Refusals.{refusal_by_order, unit_ruling};
ghost use Rattle.machine_091.specs.RefusalsOpening.{is_login};
ghost use Rattle.machine_091.specs.Transitions.{unit_step};
ghost use Rattle.machine_091.specs.declared.state.Connection.{Connection};
ghost use Rattle.machine_091.specs.declared.state.Phase91.TheVariants as phase;
ghost use Rattle.machine_091.specs.declared.unit.Refusal.{Refusal};
ghost use Rattle.machine_091.specs.declared.unit.Unit91.{Unit91};
ghost use Rattle.machine_091.specs.declared.unit.Want91.TheVariants as want;

/// The laws of a connection, for proofs to cite; the call does nothing.
pub fn connection_laws()
    // After any calls frames of 4,096 to 131,072 bytes are agreed, and channels from 1 to at most
    // 255.
    ensures limits { (vhost : List ℕ) (h : List Call91) → AreWithin (after_calls vhost h).limits }
    // No unit takes the limits of any connection out of that range.
    ensures limits_stay { (c : Connection) (u : Unit91) → AreWithin c.limits
        → AreWithin (unit_step c u).0.limits }
    // After any calls the channels that are open or closing have numbers from 1 to the agreed
    // greatest, and are no more than that.
    ensures channels { (vhost : List ℕ) (h : List Call91) → AreInRange (after_calls vhost h) }
    // A refusal is that of the first place of the order that applies.
    ensures order { (c : Connection) (u : Unit91) (r : Refusal)
        → (unit_step c u).1 ≡ want.Refuse r → refusal_by_order (unit_ruling c u) u ≡ Some r }
    // A refusal closes what it says, and leaves the rest.
    ensures refusals { (c : Connection) (u : Unit91) (r : Refusal)
        → (unit_step c u).1 ≡ want.Refuse r → Closes r.scope c r (unit_step c u).0 }
    // A login that is taken is by PLAIN or ANONYMOUS, and its response has at most 300 bytes.
    ensures logins { (c : Connection) (u : Unit91) (mechanism response : List ℕ)
        → (unit_step c u).1 ≡ want.Login mechanism response → is_login mechanism response ≡ true }
    // No unit makes a connection run.
    ensures running { (c : Connection) (u : Unit91)
        → (unit_step c u).0.phase ≡ phase.Running → c.phase ≡ phase.Running }
    // A closed connection stays so, and nothing is answered but the client's close-ok.
    ensures closed { (c : Connection) (u : Unit91) → c.phase ≡ phase.Closed
        → StaysClosed c (unit_step c u) }
    // A content that is published is that of its frames, which are the last on its channel.
    ensures contents { (vhost : List ℕ) (h : List Call91) (u : Unit91) (n : ℕ) (m : Method91)
        (d : Content)
        → (unit_step (after_calls vhost h) u).1 ≡ want.Publish n m d
        → IsPublished (frames_on n (Take u ∷ h)) n m d }
    // After any calls contents are in progress on open channels alone.
    ensures on_open { (vhost : List ℕ) (h : List Call91) → AreOnOpen (after_calls vhost h) }
    // No call leaves one in progress where the connection doesn't run.
    ensures none { (c : Connection) (x : Call91) → HasNone c → HasNone (after_call x c) }
{}
