//! What holds of a link's credit above each single event.

ghost use Rattle.std.specs.Prelude.{ℕ, List};
ghost use Rattle.links_10.specs.SendFolds.{SendEvent, after_events, AreEvents, IsFold};
ghost use Rattle.links_10.specs.RecvFolds.{RecvEvent, after_events as recv_after};
ghost use Rattle.links_10.specs.RecvFolds.{AreEvents as AreRecvEvents, IsRecvFold};

/// The laws of a sending link, for proofs to cite; the call does nothing.
pub fn link_laws()
    // After any events the count and the credit are the folds of the standard (AMQP 1.0 2.6.7).
    ensures { (h : List SendEvent) → AreEvents h → IsFold h (after_events h) }
{}

/// The laws of a receiving link, for proofs to cite; the call does nothing.
pub fn recv_link_laws()
    // After any events the count, the credit and what is left of the greatest delivery-limit are
    // the folds of the standard (AMQP 1.0 2.6.7).
    ensures { (quota : ℕ) (h : List RecvEvent) → AreRecvEvents h
        → IsRecvFold h (recv_after quota h) }
{}
