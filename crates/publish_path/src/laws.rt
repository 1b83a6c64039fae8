//! What holds of the publishes of a life above each single event. The calls do nothing: proofs cite
//! them.

ghost use Rattle.std.specs.Prelude.{◌≡◌, ◌+◌, ◌≤◌, ℕ, List, IfSome, is_some, true};
ghost use Rattle.std.specs.Prelude.{length};
ghost use Rattle.std.specs.Option.{option_map};
ghost use Rattle.publish_path.specs.declared.send_links.SendingLink.{SendingLink};
ghost use Rattle.publish_path.specs.Publishes.{PublishEvent, open_after};
ghost use Rattle.publish_path.specs.Offers.{lines_of, next_confirm_of, next_frame_of, rest_of};
ghost use Rattle.publish_path.specs.Offers.{next_return_of, return_frame_of};
ghost use Rattle.publish_path.specs.Journal.{fate_of, IsTaken, rest_by};
ghost use Rattle.publish_path.specs.Laws.{IsOwedConfirm, IsLawfulConfirm, frame_by, AreParts};
ghost use Rattle.publish_path.specs.Laws.{is_lost, lines_by, one_if, owes_line, times_told};
ghost use Rattle.publish_path.specs.Laws.{IsWhole, BeginsInOrder, AreReturned, return_by};
ghost use Rattle.publish_path.specs.Laws.{return_frame_by};

/// The confirms of a life.
pub fn confirms_lawfully()
    // After any events the confirm that is due covers unanswered publishes alone, each with the
    // outcome that it tells, and none that is still to be returned.
    ensures lawful { (life : ℕ) (h : List PublishEvent) → IfSome (next_confirm_of
        (open_after life h)) (IsLawfulConfirm h) }
    // A confirm is due wherever an unanswered publish has an outcome, unless it or one below it is
    // still to be returned.
    ensures offered { (life n : ℕ) (h : List PublishEvent) → IsOwedConfirm h n → AreReturned h n
        → is_some (next_confirm_of (open_after life h)) ≡ true }
{}

/// The returns of a life.
pub fn returns_lawfully()
    // After any events the return that has begun goes on; else the least number begins that was
    // released, or lost because its address wasn't found, and whose return didn't go.
    ensures due { (life : ℕ) (h : List PublishEvent) → next_return_of (open_after life h)
        ≡ return_by h }
    // The frame that goes next is the first of its return that didn't go.
    ensures frame { (life n : ℕ) (h : List PublishEvent) → IsTaken h n
        → return_frame_of n (open_after life h) ≡ return_frame_by (fate_of n h) }
    // No more frames of a return go than it has.
    ensures most { (n : ℕ) (h : List PublishEvent) → (fate_of n h).returned
        ≤ length (fate_of n h).back }
{}

/// The lines of a life in the report.
pub fn lines_lawfully()
    // After any events the lines that are due are those of the publishes that were lost before they
    // had an outcome and of which no line was reported, as what each was lost, by rising number.
    ensures lines { (life : ℕ) (h : List PublishEvent) → lines_of life (open_after life h)
        ≡ lines_by life h }
    // Each publish that was lost so has one line, which was reported or is due; no other has any.
    ensures once { (n : ℕ) (h : List PublishEvent) → times_told n h + one_if (owes_line n h)
        ≡ one_if (is_lost n h) }
{}

/// The transfers of a life.
pub fn payloads_lawfully()
    // After any events the frame that is due is that of the begun publish; else of the least number
    // that waits on an attached link with credit.
    ensures frame { (life : ℕ) (links : List SendingLink) (h : List PublishEvent)
        → next_frame_of links (open_after life h) ≡ frame_by links h }
    // Transfers of one link begin by rising number.
    ensures order { (life : ℕ) (links : List SendingLink) (h : List PublishEvent)
        → IfSome (next_frame_of links (open_after life h)) (BeginsInOrder h) }
    // What is left of a payload is the payload less what went.
    ensures rest { (life n : ℕ) (h : List PublishEvent) → IsTaken h n
        → rest_of n (open_after life h) ≡ rest_by (fate_of n h) }
    // Where each frame carried a front of what was left, the frames carry each byte once, in order.
    ensures whole { (h : List PublishEvent) → AreParts h → (n : ℕ) → IsWhole (fate_of n h) }
{}
