//! What holds of a session's path above each single event. The calls do nothing: proofs cite them.

ghost use Rattle.std.specs.Prelude.{◌≡◌, ◌≤◌, ◌+◌, ◌++◌, ℕ, List};
ghost use Rattle.publish_path.specs.Publishes.{after_events as publishes_after};
ghost use Rattle.consume_path.specs.Deliveries.{after_events as deliveries_after};
ghost use Rattle.session_path.specs.Events.{PathEvent, after_events, deliveries_of, publishes_of};
ghost use Rattle.session_path.specs.Links.{AreTied};
ghost use Rattle.session_path.specs.Attaches.{times_asked, times_attached};
ghost use Rattle.session_path.specs.Flows.{causes_on, flows_on, owed_on};
ghost use Rattle.consume_path.specs.Laws.{AreCalls};
ghost use Rattle.session_path.specs.Laws.{AreAnswers, AreSettles, oks_owed, oks_sent, settles_owed};
ghost use Rattle.session_path.specs.Laws.{settles_sent, IsBackOf, names_owed, queue_in, AreHeard};

/// The answers to a client's requests.
pub fn answers_lawfully()
    // Where each that went was the next, those that went and those due are those that became due,
    // in the order of the requests.
    ensures { (life : ℕ) (h : List PathEvent) → AreAnswers life h → oks_sent h
        ++ (after_events life h).oks ≡ oks_owed life h }
{}

/// The names that answers give back.
pub fn names_lawfully()
    // Those that are still to go back are the last of those that requests named, in their order. An
    // empty name of a queue stands for the one that was declared last.
    ensures names { (life : ℕ) (h : List PathEvent)
        → IsBackOf (after_events life h).names (names_owed life h) }
    ensures queue { (life : ℕ) (h : List PathEvent) → (after_events life h).queue ≡ queue_in h }
{}

/// The dispositions of role sender.
pub fn settles_lawfully()
    // Where each that went was the next, those that went and those due answer the container's, in
    // order.
    ensures { (life : ℕ) (h : List PathEvent) → AreSettles life h
        → settles_sent h ++ (after_events life h).settles ≡ settles_owed life h }
{}

/// The publishes of a life.
pub fn publishes_lawfully()
    // Its publishes are those after the publish events among its events, of which publish_path's
    // laws speak.
    ensures { (life : ℕ) (h : List PathEvent) → (after_events life h).publishes
        ≡ publishes_after life (publishes_of life h) }
{}

/// The deliveries of a life.
pub fn deliveries_lawfully()
    // Its deliveries are those after the delivery events among its events, of which consume_path's
    // laws speak.
    ensures { (life : ℕ) (h : List PathEvent) → (after_events life h).deliveries
        ≡ deliveries_after life (deliveries_of life h) }
{}

/// The calls of a life's deliveries.
pub fn calls_lawfully()
    // Where links are asked for before the closing event alone and each transfer is at no fault,
    // the delivery events are those of calls whose conditions hold.
    ensures { (life : ℕ) (h : List PathEvent) → AreHeard life h
        → AreCalls life (deliveries_of life h) }
{}

/// The links of a session.
pub fn links_lawfully()
    // After any events no two links that aren't detached at both ends have one handle of the
    // gateway; each handle's state in the session's table is what its link is; each link whose
    // credit is kept is a sending one that neither end detached; and the numbers of the links rise.
    ensures { (life : ℕ) (h : List PathEvent) → AreTied (after_events life h).links.sending
        (after_events life h).links.links (after_events life h).links.handles }
{}

/// The flows on a link, but for those that the deliveries of a receiving link ask for.
pub fn flows_lawfully()
    // After any events, the flows that went on a sending link and those that it is owed are as many
    // as the echoes and the drains of the container's flows on it; a receiving link is owed none.
    ensures { (life n : ℕ) (h : List PathEvent) → flows_on life n h + owed_on n
        (after_events life h).links.links ≡ causes_on life n h }
{}

/// The attaches of links.
pub fn attaches_lawfully()
    // The container attaches a link under a name no more often than the gateway asked under it:
    // once at most, where each attach of the gateway has a name of its own.
    ensures { (life name : ℕ) (h : List PathEvent)
        → times_attached life name h ≤ times_asked name h }
{}
