//! What holds of the deliveries of a life above each single event. The calls do nothing: proofs
//! cite them.

ghost use Rattle.std.specs.Prelude.{◌≡◌, ◌+◌, ◌≤◌, ℕ, List, IfSome, Option, Some, None, is_some};
ghost use Rattle.std.specs.Prelude.{true, false, Bool};
ghost use Rattle.std.specs.List.{AllByRecursion, list_any};
ghost use Rattle.std.specs.Option.{option_map};
ghost use Rattle.consume_path.specs.Deliveries.{DeliveryEvent, after_events, open_after};
ghost use Rattle.consume_path.specs.Offers.{next_settle_of, is_all_covered, next_deliver_of};
ghost use Rattle.consume_path.specs.Offers.{lines_of, is_known, content_of, has_open_id};
ghost use Rattle.consume_path.specs.Offers.{next_grant_of};
ghost use Rattle.consume_path.specs.Journal.{fate_of, is_closed, tags_of, IsTaken, is_uncovered};
ghost use Rattle.consume_path.specs.Journal.{global_of, numbers_of};
ghost use Rattle.consume_path.specs.Laws.{AreFresh, IsOwed, IsLawfulSettle, first_owed};
ghost use Rattle.consume_path.specs.Laws.{are_covered, is_tag_known, deliver_by, IsLawfulDeliver};
ghost use Rattle.consume_path.specs.Laws.{needs_content, IsCounted, lines_by, is_lost, times_told};
ghost use Rattle.consume_path.specs.Laws.{owes_line, is_id_open, AreCalls, IsLawfulGrant};
ghost use Rattle.consume_path.specs.Laws.{joined_of, pieces_of};
ghost use Rattle.consume_path.specs.Links.{one_if, link_of};

/// The dispositions of a life.
pub fn settles_lawfully()
    // After any events, where no two open deliveries came under one delivery-id, the disposition
    // that is due covers deliveries that are owed its state, and no other that lacks one.
    ensures lawful { (life : ℕ) (h : List DeliveryEvent) → AreFresh h
        → IfSome (next_settle_of (open_after life h)) (IsLawfulSettle h) }
    // It begins with the least number that is owed one, wherever there is such.
    ensures first { (life : ℕ) (h : List DeliveryEvent)
        → option_map (λ s. s.first) (next_settle_of (open_after life h)) ≡ first_owed h }
    // Once the life closed and none is due, each delivery that didn't come settled had its own, or
    // the container's end was lost before.
    ensures released { (life : ℕ) (h : List DeliveryEvent) → is_closed h ≡ true
        → next_settle_of (open_after life h) ≡ None → (n : ℕ) → IsTaken h n
        → is_uncovered (fate_of n h) ≡ false }
    // A link is covered exactly where each of its deliveries was.
    ensures covered { (life link : ℕ) (h : List DeliveryEvent)
        → is_all_covered link (open_after life h) ≡ are_covered link h }
{}

/// The lines of a life in the report.
pub fn delivery_lines_lawfully()
    // After any events the lines that are due are those of the deliveries that were lost or left,
    // and of which no line was reported, in order of arrival.
    ensures lines { (life : ℕ) (h : List DeliveryEvent) → lines_of life (open_after life h)
        ≡ lines_by life h }
    // Each delivery that was lost or left has one line, which was reported or is due; no other has
    // any.
    ensures once { (n : ℕ) (h : List DeliveryEvent) → times_told n h + one_if (owes_line n h)
        ≡ one_if (is_lost n h) }
{}

/// The delivers and get-oks of a life.
pub fn delivers_lawfully()
    // After any events the deliver or get-ok that is due is that of the first get that has its
    // delivery; else of the first delivery of the consumer on the link with the least number, where
    // both limits have room.
    ensures due { (life global : ℕ) (h : List DeliveryEvent)
        → next_deliver_of global (open_after life h) ≡ deliver_by global h }
    // It is of a delivery with an image, of which none went, within both limits and in order.
    ensures lawful { (life global : ℕ) (h : List DeliveryEvent)
        → IfSome (next_deliver_of global (open_after life h)) (IsLawfulDeliver global h) }
    // Delivery tags count from 1, over deliver and get-ok.
    ensures tagged { (h : List DeliveryEvent) (n tag : ℕ) → (fate_of n h).tag ≡ Some tag
        → (1 ≤ tag) × (tag ≤ tags_of h) }
    // No two deliveries have one tag.
    ensures one { (h : List DeliveryEvent) (m n tag : ℕ) → (fate_of m h).tag ≡ Some tag
        → (fate_of n h).tag ≡ Some tag → m ≡ n }
    // An answer of the client may name the tags of the deliveries that it hasn't settled.
    ensures known { (life tag : ℕ) (multiple : Bool) (h : List DeliveryEvent)
        → is_known tag multiple (open_after life h) ≡ is_tag_known tag multiple h }
{}

/// What a life counts.
pub fn numbers_lawfully()
    // After any events these are the whole deliveries and the delivery tags so far, whether the
    // life closed, and the last prefetch of all consumers.
    ensures arrived { (life : ℕ) (h : List DeliveryEvent)
        → (after_events life h).arrived ≡ numbers_of h }
    ensures tags { (life : ℕ) (h : List DeliveryEvent) → (after_events life h).tags ≡ tags_of h }
    ensures closed { (life : ℕ) (h : List DeliveryEvent)
        → (after_events life h).closed ≡ is_closed h }
    ensures global { (life : ℕ) (h : List DeliveryEvent)
        → (after_events life h).global ≡ global_of h }
{}

/// The delivery-ids of a life.
pub fn ids_lawfully()
    // Where each event is that of a call whose conditions hold, no two open deliveries came under
    // one id.
    ensures fresh { (life : ℕ) (h : List DeliveryEvent) → AreCalls life h → AreFresh h }
    // After any events an id is open where a delivery that is held, unsettled or being written has
    // it.
    ensures open_ids { (life id : ℕ) (h : List DeliveryEvent)
        → list_any (has_open_id id) (open_after life h) ≡ is_id_open id h }
    // Where no two open deliveries came under one id, the content that is found by it is that of
    // the delivery.
    ensures content { (life n : ℕ) (h : List DeliveryEvent) → AreFresh h → IsTaken h n
        → needs_content (fate_of n h) ≡ true
        → content_of (fate_of n h).id (open_after life h) ≡ (fate_of n h).content }
{}

/// What counts in the quotas of the links of a life.
pub fn counts_lawfully()
    // After any events a link counts the delivery that is begun, and those that came on it: on a
    // limited link those that nothing settles, on another those that are held.
    ensures { (life : ℕ) (h : List DeliveryEvent)
        → AllByRecursion (IsCounted h) (after_events life h).links }
{}

/// The flows and the transfers of the links of a life.
pub fn links_lawfully()
    // Where each event is that of a call whose conditions hold, the flow that is due states a
    // credit that is, with what counts on its link, within a consumer's quota; none on a cancelled
    // consumer's; at most 1 on a get's; none on a probe's.
    ensures credit { (life : ℕ) (h : List DeliveryEvent) → AreCalls life h
        → let s = after_events life h in IfSome (next_grant_of s.closed s.links) (IsLawfulGrant s) }
    // Then the delivery of a link is the one that its transfers make: with the first one's id, and
    // the payloads of all, joined in order.
    ensures joined { (life k : ℕ) (h : List DeliveryEvent) → AreCalls life h
        → IfSome (link_of (after_events life h).links k) (λ l. l.partial
        ≡ joined_of (pieces_of k h)) }
{}
