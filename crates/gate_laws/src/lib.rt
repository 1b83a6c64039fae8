//! The laws of the gateway's runs: what holds of any history of pairs of `gate_pair`, which all
//! share a set-up, in which each mark is the one that comes next. The laws of turns and those of a
//! pair's entries meet here, and nowhere else. Each law is a function without parameters, whose
//! clauses state it; a caller has the law by calling it.
#![tactic(auto)]

ghost use Rattle.std.specs.Prelude.{◌≡◌, ℕ, false, Option, Some, List};
ghost use Rattle.gate_model.specs.Addresses.{ReachesAddress};
ghost use Rattle.gate_model.specs.Asked.{AreCalledFor, GoesWhenDue};
ghost use Rattle.gate_model.specs.Frames.{FitsClients, FitsContainers};
ghost use Rattle.gate_model.specs.Oks.{AnswersInOrder};
ghost use Rattle.gate_model.specs.Once.{AnswersOnce};
ghost use Rattle.gate_model.specs.Order.{TakesInOrder};
ghost use Rattle.gate_model.specs.Picks.{ArePicks};
ghost use Rattle.gate_model.specs.Contents.{AreImages, StandTogether, Writes};
ghost use Rattle.gate_model.specs.Begins.{OpensBehindBegins};
ghost use Rattle.gate_model.specs.Behind.{DeliversBehind};
ghost use Rattle.gate_model.specs.Closes.{ClosesALifeOnce};
ghost use Rattle.gate_model.specs.Counts.{CountsAreKept};
ghost use Rattle.gate_model.specs.Credits.{KeepsQuotas, StatesCredit};
ghost use Rattle.gate_model.specs.Declares.{DeclaresFound};
ghost use Rattle.gate_model.specs.Delivers.{Delivers};
ghost use Rattle.gate_model.specs.Dues.{EndsContainers};
ghost use Rattle.gate_model.specs.Errors.{StatesErrors};
ghost use Rattle.gate_model.specs.Faults.{StatesFaults};
ghost use Rattle.gate_model.specs.Giving.{GivesUpIdle};
ghost use Rattle.gate_model.specs.Handles.{NamesItsHandles};
ghost use Rattle.gate_model.specs.Hears.{HearsLinks};
ghost use Rattle.gate_model.specs.Holding.{HoldsFew, TakesWithRoom};
ghost use Rattle.gate_model.specs.Linger.{Lingers};
ghost use Rattle.gate_model.specs.LinkCredits.{CreditIsKept};
ghost use Rattle.gate_model.specs.Losses.{LosesPublishes};
ghost use Rattle.gate_model.specs.Owes.{EndsClients};
ghost use Rattle.gate_model.specs.Parting.{StopsWhenClosed};
ghost use Rattle.gate_model.specs.Passed.{StatesPassed};
ghost use Rattle.gate_model.specs.Publishing.{ArePieces, Confirms, EndWhole, Returns, Transfers};
ghost use Rattle.gate_model.specs.Reasons.{ClosesOnce, SaysWhy};
ghost use Rattle.gate_model.specs.Records.{Records};
ghost use Rattle.gate_model.specs.Recovers.{GoBack, GoBeforeLeaving, LeavesOthers};
ghost use Rattle.gate_model.specs.Releases.{Releases};
ghost use Rattle.gate_model.specs.Repeats.{AttachesOnce, EndsOnce, FlowsOnce, SettlesInOrder};
ghost use Rattle.gate_model.specs.Reports.{lines_owed};
ghost use Rattle.gate_model.specs.Rests.{ServesClients, SuppliesContainers};
ghost use Rattle.gate_model.specs.Selects.{CountsFromSelect};
ghost use Rattle.gate_model.specs.Settles.{Grants, Settles};
ghost use Rattle.gate_model.specs.Setup.{IsInForm, SetupText};
ghost use Rattle.gate_model.specs.Sources.{GetsFromItsQueue};
ghost use Rattle.gate_model.specs.Starts.{StartsBehind};
ghost use Rattle.gate_model.specs.State.{owed_lines};
ghost use Rattle.gate_model.specs.Supplies.{AttachesLinks, DetachesDone, FillsQuotas, LeavesCredit};
ghost use Rattle.gate_model.specs.Takers.{TakesAsAsked};
ghost use Rattle.gate_model.specs.Takes.{TakesInTurn};
ghost use Rattle.gate_model.specs.Waiting.{ChannelsEndWhenSettled, EndsWhenSettled};
ghost use Rattle.gate_model.specs.Waiting.{OpensWhenOpened};
ghost use Rattle.gate_model.specs.Wishes.{MeetsWishes};
ghost use Rattle.gate_pair.specs.Answers.{IsAnswered};
ghost use Rattle.gate_pair.specs.Lawful.{AreLawful};
ghost use Rattle.gate_pair.specs.Meaning.{pair_words, state_of, steps_of};
ghost use Rattle.gate_pair.specs.Silence.{GivesUp};
ghost use Rattle.gate_pair.specs.Times.{KeepsTimes};
ghost use Rattle.gate_runs.specs.declared.limits.Limits.{Limits};
ghost use Rattle.gate_runs.specs.Journal.{journal};
ghost use Rattle.gate_runs.specs.Marks.{History};
ghost use Rattle.gate_runs.specs.Serving.{Follows};
ghost use Rattle.gate_turn_laws.specs.Quiet.{IdlesAtRest, IdlesInSilence};
ghost use Rattle.gate_laws.specs.Laws.{IsLawfulThroughout};

/// The entries of each pair are lawful: an end is read where it is open and a unit of it is
/// awaited, or where it is a client's that was given up. What is offered to it is the unit in
/// progress or the one that goes next, whole; it is shut where that is due. The connection upstream
/// is asked for once, where a connection.open waits for it. What goes out is what is due first, and
/// units come as they are awaited.
pub fn entries_are_lawful()
    ensures lawful { (s : SetupText) (c : Limits) (m : History) → Follows (pair_words s) c m
        → (p : ℕ)
        → AreLawful s (journal p m) }
    ensures picks { (s : SetupText) (c : Limits) (m : History) → Follows (pair_words s) c m
        → (p : ℕ)
        → ArePicks (steps_of s (journal p m)) }
{
    gate_turn_laws::entries_are_asked();
    gate_pair::entries_are_lawful();
    gate_pair::entries_give_picks();
}

/// The units of each end are those with which its bytes begin, however these were cut. What an end
/// took are the bytes of the units that were sent to it, with what each carries, but for what is
/// left of the one in progress. Without heartbeats, those to the client and the ones that are due
/// are the replies to its units and to what happened upstream; after the pair ran out of memory
/// those since then are the last units. While an end takes bytes and none are offered, all that may
/// go went, and no heartbeat and no empty frame is due.
pub fn clients_are_answered()
    ensures { (s : SetupText) (c : Limits) (m : History) → Follows (pair_words s) c m → (p : ℕ)
        → IsAnswered s (journal p m) }
{
    gate_turn_laws::entries_are_asked();
    gate_pair::clients_are_answered();
}

/// The units of each channel of a client are taken up in the order in which they came, each once;
/// those that were not wait in that order. All that wait when the client is given up are passed
/// over there.
pub fn units_keep_their_order()
    ensures { (s : SetupText) (c : Limits) (m : History) → Follows (pair_words s) c m → (p : ℕ)
        → TakesInOrder (steps_of s (journal p m)) }
{
    entries_are_lawful();
    gate_model::units_keep_their_order();
}

/// Where a unit of a client is taken up, or its end, fewer than 256 publishes of the pair are held,
/// and fewer than 67,108,864 bytes of their payloads. So at most 256 are held at any time.
pub fn laden_pairs_wait()
    ensures room { (s : SetupText) (c : Limits) (m : History) → Follows (pair_words s) c m
        → (p : ℕ) → TakesWithRoom (steps_of s (journal p m)) }
    ensures most { (s : SetupText) (c : Limits) (m : History) → Follows (pair_words s) c m
        → (p : ℕ) → HoldsFew (steps_of s (journal p m)) }
{
    entries_are_lawful();
    gate_model::laden_pairs_wait();
}

/// The answers to a channel's requests go in the order of the requests, each once: those that went
/// in the life in progress and those that are due are those that became due. While the life goes on
/// those that went met the first of what the requests wish for: a basic.consume-ok has the tag of
/// its own basic.consume, a basic.cancel-ok and a queue.declare-ok the name in their own requests,
/// and a basic.get has one answer.
pub fn requests_are_answered()
    ensures order { (s : SetupText) (c : Limits) (m : History) → Follows (pair_words s) c m
        → (p : ℕ) → AnswersInOrder (steps_of s (journal p m)) }
    ensures met { (s : SetupText) (c : Limits) (m : History) → Follows (pair_words s) c m
        → (p : ℕ) → MeetsWishes (steps_of s (journal p m)) }
{
    entries_are_lawful();
    gate_model::requests_are_answered();
    gate_model::wishes_are_met();
}

/// Nothing of a channel is taken up while its request waits for the container, nor anything while
/// connection.open does. What is of channel 0, and a heartbeat, is taken up as the first of what
/// waits, once no request does.
pub fn requests_hold_what_follows()
    ensures { (s : SetupText) (c : Limits) (m : History) → Follows (pair_words s) c m → (p : ℕ)
        → TakesInTurn (steps_of s (journal p m)) }
{
    entries_are_lawful();
    gate_model::requests_hold_what_follows();
}

/// Where nothing goes to a client, each channel that is open has nothing owed: no publish that
/// waits for its confirm has an outcome, none is to go back, no content is begun, no delivery to a
/// consumer may go, and each request whose answer is due was answered, but for one that waits for
/// its get-ok. While the pair has memory, one that its container closed is owed no confirm and no
/// return until its channel.close went, or a connection.close or its close-ok. Where nothing goes
/// to a container before the gateway's close, each session that is begun has nothing owed: no
/// disposition is due, no link is to be detached, and while the pair has memory no publish may be
/// transferred, no credit is to be stated, and no link to be attached. Nor is a begin, a flow of a
/// session, an end or the close. So while the pair has memory more than half of the quota of each
/// consumer's live link is used, by what is left of the credit and by the deliveries that count.
/// On one whose consumer was cancelled none is left.
/// Each flow of the container that asks for the state of a receiving link has one behind it, and so
/// has each basic.get that waits. While a handle is left that no link of the life had, each publish
/// of which a frame is to go has a link to its address. So has each basic.consume, queue.declare
/// and basic.get its own. With memory or without, no link is left that the container attached for
/// a declaration or a cancelled consumer, once each of its deliveries that didn't come settled had
/// its disposition.
/// Where nothing goes to a client, no channel.open-ok is owed on a channel that is open, and none of
/// what ends channels, once nothing of the container is waited for there: neither a close-ok to the
/// client's channel.close nor the gateway's own. No return that is begun has a frame left, while the
/// pair has memory and the connection isn't closing or its container closed it. Nor has one on a
/// channel that its container closed, until the gateway's channel.close went, or a connection.close
/// or its close-ok. Of the connection the replies to what came went, but for its close and its
/// close-ok while the upstream end is waited for.
pub fn owed_units_go()
    ensures clients { (s : SetupText) (c : Limits) (m : History) → Follows (pair_words s) c m
        → (p : ℕ) → ServesClients (steps_of s (journal p m)) }
    ensures containers { (s : SetupText) (c : Limits) (m : History) → Follows (pair_words s) c m
        → (p : ℕ) → SuppliesContainers (steps_of s (journal p m)) }
    ensures sessions { (s : SetupText) (c : Limits) (m : History) → Follows (pair_words s) c m
        → (p : ℕ) → EndsContainers (steps_of s (journal p m)) }
    ensures filled { (s : SetupText) (c : Limits) (m : History) → Follows (pair_words s) c m
        → (p : ℕ) → FillsQuotas (steps_of s (journal p m)) }
    ensures attached { (s : SetupText) (c : Limits) (m : History) → Follows (pair_words s) c m
        → (p : ℕ) → AttachesLinks (steps_of s (journal p m)) }
    ensures detached { (s : SetupText) (c : Limits) (m : History) → Follows (pair_words s) c m
        → (p : ℕ) → DetachesDone (steps_of s (journal p m)) }
    ensures replies { (s : SetupText) (c : Limits) (m : History) → Follows (pair_words s) c m
        → (p : ℕ) → EndsClients (steps_of s (journal p m)) }
{
    entries_are_lawful();
    gate_model::owed_units_go();
    gate_model::sessions_get_what_is_due();
    gate_model::links_are_supplied();
    gate_model::clients_get_what_is_due();
}

/// On each channel no more channel.open-oks went than channel.opens were taken up, and the same of
/// channel.flow and its flow-ok, and of channel.close and its close-ok.
pub fn channels_are_answered_once()
    ensures { (s : SetupText) (c : Limits) (m : History) → Follows (pair_words s) c m → (p : ℕ)
        → AnswersOnce (steps_of s (journal p m)) }
{
    entries_are_lawful();
    gate_model::channels_are_answered_once();
}

/// Each confirm that goes to a client covers publishes of the channel's life that wait for one
/// alone, with the outcome that it tells: an ack those that the container accepted. Each frame of a
/// return that goes to a client is the next one of those of a mandatory publish that the container
/// released, or whose address it didn't know; its confirm goes after the last. Each frame of a
/// transfer that goes to a container is that of the publish that is begun, else of the least number
/// that waits on an attached link with credit, while the window of the session has room; the first
/// one goes only where what went and came on its link leaves that a credit of one, which each flow
/// of the link states or gives back; it carries the first bytes that are left of the payload. So
/// the frames of a publish carry the text of the image of its message, each byte once and in order,
/// and all of it once one says that no more follows.
pub fn publishes_are_lawful()
    ensures confirms { (s : SetupText) (c : Limits) (m : History) → Follows (pair_words s) c m
        → (p : ℕ) → Confirms (steps_of s (journal p m)) }
    ensures returns { (s : SetupText) (c : Limits) (m : History) → Follows (pair_words s) c m
        → (p : ℕ) → Returns (steps_of s (journal p m)) }
    ensures transfers { (s : SetupText) (c : Limits) (m : History) → Follows (pair_words s) c m
        → (p : ℕ) → Transfers (steps_of s (journal p m)) }
    ensures credit { (s : SetupText) (c : Limits) (m : History) → Follows (pair_words s) c m
        → (p : ℕ) → CreditIsKept (steps_of s (journal p m)) }
    ensures counts { (s : SetupText) (c : Limits) (m : History) → Follows (pair_words s) c m
        → (p : ℕ) → CountsAreKept (steps_of s (journal p m)) }
    ensures pieces { (s : SetupText) (c : Limits) (m : History) → Follows (pair_words s) c m
        → (p : ℕ) → ArePieces (steps_of s (journal p m)) }
    ensures end { (s : SetupText) (c : Limits) (m : History) → Follows (pair_words s) c m
        → (p : ℕ) → EndWhole (steps_of s (journal p m)) }
{
    entries_are_lawful();
    gate_model::confirms_are_lawful();
    gate_model::returns_are_lawful();
    gate_model::transfers_are_lawful();
    gate_model::credit_is_kept();
    gate_model::counts_are_kept();
    gate_model::payloads_are_whole();
}

/// Each frame of a transfer that goes to a container goes under a handle that the gateway's last
/// attach under it, since the channel was opened, tied to the address that its publish asked for.
/// No detach of the gateway gave the handle back since. The publishes of a channel's life that wait
/// for a confirm are those behind its first confirm.select, numbered from 1.
pub fn publishes_reach_their_address()
    ensures reaches { (s : SetupText) (c : Limits) (m : History) → Follows (pair_words s) c m
        → (p : ℕ) → ReachesAddress (steps_of s (journal p m)) }
    ensures numbers { (s : SetupText) (c : Limits) (m : History) → Follows (pair_words s) c m
        → (p : ℕ) → CountsFromSelect (steps_of s (journal p m)) }
{
    entries_are_lawful();
    gate_model::publishes_reach_their_address();
    gate_model::confirms_count_from_select();
}

/// Each deliver that goes to a client is of a message of which none went and which nothing settled,
/// in the order of its link. Where its consumer acknowledges, the unsettled deliveries are with it
/// within the consumer's prefetch and within that of all consumers. Its method names the consumer,
/// and where the message was published.
pub fn delivers_are_lawful()
    ensures { (s : SetupText) (c : Limits) (m : History) → Follows (pair_words s) c m → (p : ℕ)
        → Delivers (steps_of s (journal p m)) }
{
    entries_are_lawful();
    gate_model::delivers_are_lawful();
}

/// Each whole delivery of a life that goes on carries the image of its message: of the payloads of
/// its transfers, joined in order. Each frame of a content that goes to a client is the next one of
/// those of the delivery whose deliver or get-ok went last on its channel. While a content is begun
/// nothing but its frames goes to the client: those of a delivery while its life goes on, and those
/// of a return while the connection isn't closing and the pair has memory.
pub fn contents_are_lawful()
    ensures images { (s : SetupText) (c : Limits) (m : History) → Follows (pair_words s) c m
        → (p : ℕ) → AreImages (steps_of s (journal p m)) }
    ensures written { (s : SetupText) (c : Limits) (m : History) → Follows (pair_words s) c m
        → (p : ℕ) → Writes (steps_of s (journal p m)) }
    ensures together { (s : SetupText) (c : Limits) (m : History) → Follows (pair_words s) c m
        → (p : ℕ) → StandTogether (steps_of s (journal p m)) }
{
    entries_are_lawful();
    gate_model::deliveries_are_images();
    gate_model::contents_are_written();
    gate_model::contents_stand_together();
}

/// Each disposition of role receiver that goes to a container covers deliveries that are owed its
/// state, and no other that lacks one. Each flow of a receiving link states a credit that is, with
/// what counts on the link, within a consumer's quota. Before an end of the gateway goes each whole
/// delivery of the channel's life that didn't come settled had its disposition; before its detach
/// of a receiving link, each one of that link. Whether a delivery waits for an acknowledgement, and
/// which prefetch limits it, is what the basic.consume or basic.get of its link said.
pub fn deliveries_are_settled()
    ensures settles { (s : SetupText) (c : Limits) (m : History) → Follows (pair_words s) c m
        → (p : ℕ)
        → Settles (steps_of s (journal p m)) }
    ensures grants { (s : SetupText) (c : Limits) (m : History) → Follows (pair_words s) c m
        → (p : ℕ)
        → Grants (steps_of s (journal p m)) }
    ensures releases { (s : SetupText) (c : Limits) (m : History) → Follows (pair_words s) c m
        → (p : ℕ)
        → Releases (steps_of s (journal p m)) }
    ensures taken { (s : SetupText) (c : Limits) (m : History) → Follows (pair_words s) c m
        → (p : ℕ) → TakesAsAsked (steps_of s (journal p m)) }
{
    entries_are_lawful();
    gate_model::settles_are_lawful();
    gate_model::grants_are_lawful();
    gate_model::releases_are_lawful();
    gate_model::deliveries_are_taken_as_asked();
}

/// Each flow of a receiving link states a credit by the kind of its link: 1 at most with drain
/// where it is for gets, and none but while its get waits; with what is in use within the quota
/// where it is a consumer's, which its last basic.qos before it says; none where it is a
/// declaration's. And what is left of a consumer's credit is so within the quota at all times,
/// while its life goes on. What is left is what the container's attach and flows, the gateway's
/// flows and the deliveries that began leave of it.
pub fn quotas_are_kept()
    ensures stated { (s : SetupText) (c : Limits) (m : History) → Follows (pair_words s) c m
        → (p : ℕ) → StatesCredit (steps_of s (journal p m)) }
    ensures kept { (s : SetupText) (c : Limits) (m : History) → Follows (pair_words s) c m
        → (p : ℕ) → KeepsQuotas (steps_of s (journal p m)) }
    ensures left { (s : SetupText) (c : Limits) (m : History) → Follows (pair_words s) c m
        → (p : ℕ) → LeavesCredit (steps_of s (journal p m)) }
{
    entries_are_lawful();
    gate_model::credits_are_lawful();
    gate_model::quotas_are_kept();
    gate_model::links_are_supplied();
}

/// A link for publishes that the gateway detaches and the container didn't is one on which each
/// publish went whole and has its outcome.
pub fn idle_links_are_given_up()
    ensures { (s : SetupText) (c : Limits) (m : History) → Follows (pair_words s) c m → (p : ℕ)
        → GivesUpIdle (steps_of s (journal p m)) }
{
    entries_are_lawful();
    gate_model::idle_links_are_given_up();
}

/// A basic.recover releases each delivery of its channel that its client has and hasn't settled,
/// and changes nothing of any other. Its disposition goes before the gateway's end of the session,
/// and before its detach of the link.
pub fn recovers_release_all()
    ensures released { (s : SetupText) (c : Limits) (m : History) → Follows (pair_words s) c m
        → (p : ℕ) → GoBack (steps_of s (journal p m)) }
    ensures others { (s : SetupText) (c : Limits) (m : History) → Follows (pair_words s) c m
        → (p : ℕ) → LeavesOthers (steps_of s (journal p m)) }
    ensures gone { (s : SetupText) (c : Limits) (m : History) → Follows (pair_words s) c m
        → (p : ℕ) → GoBeforeLeaving (steps_of s (journal p m)) }
{
    entries_are_lawful();
    gate_model::recovers_release_all();
}

/// A queue.declare-ok goes only where the container attached the link that its queue.declare asked
/// for, with a source.
pub fn declarations_find_queues()
    ensures { (s : SetupText) (c : Limits) (m : History) → Follows (pair_words s) c m → (p : ℕ)
        → DeclaresFound (steps_of s (journal p m)) }
{
    entries_are_lawful();
    gate_model::declarations_find_queues();
}

/// The gateway's end of a session that the container didn't end goes only once each publish of the
/// channel's life was sent or lost its link, and has an outcome; once 5,000 ms passed since the
/// closing event of the channel or of the connection; or once the pair ran out of memory. No more
/// ends of the session of a number go than begins. Each states the error of what closed its
/// channel. Once the container is lost each publish was sent or lost its link, and has an outcome.
pub fn sessions_end_in_time()
    ensures lingers { (s : SetupText) (c : Limits) (m : History) → Follows (pair_words s) c m
        → (p : ℕ) → Lingers (steps_of s (journal p m)) }
    ensures once { (s : SetupText) (c : Limits) (m : History) → Follows (pair_words s) c m
        → (p : ℕ) → EndsOnce (steps_of s (journal p m)) }
    ensures errors { (s : SetupText) (c : Limits) (m : History) → Follows (pair_words s) c m
        → (p : ℕ) → StatesErrors (steps_of s (journal p m)) }
    ensures lost { (s : SetupText) (c : Limits) (m : History) → Follows (pair_words s) c m
        → (p : ℕ) → LosesPublishes (steps_of s (journal p m)) }
{
    entries_are_lawful();
    gate_model::ends_linger();
    gate_model::sessions_end_once();
    gate_model::ends_state_errors();
    gate_model::lost_containers_end_publishes();
}

/// Each disposition of role sender that goes to a container answers one of its own that was the
/// first outcome of some publish, in order, each once. A flow of a link is asked for by a flow of
/// the container that none answered yet, or states the credit of a receiving link. Of the first
/// 2^64 attaches no two have one name. A detach states an error only where a transfer passed that
/// limit of its link, and states it wherever the container didn't detach the link since. An attach
/// of a receiving link names the queue that it is for, and a basic.get-ok's delivery came on one to
/// the queue of its basic.get.
pub fn links_are_answered_once()
    ensures outcomes { (s : SetupText) (c : Limits) (m : History) → Follows (pair_words s) c m
        → (p : ℕ) → SettlesInOrder (steps_of s (journal p m)) }
    ensures flows { (s : SetupText) (c : Limits) (m : History) → Follows (pair_words s) c m
        → (p : ℕ) → FlowsOnce (steps_of s (journal p m)) }
    ensures attaches { (s : SetupText) (c : Limits) (m : History) → Follows (pair_words s) c m
        → (p : ℕ) → AttachesOnce (steps_of s (journal p m)) }
    ensures sources { (s : SetupText) (c : Limits) (m : History) → Follows (pair_words s) c m
        → (p : ℕ) → GetsFromItsQueue (steps_of s (journal p m)) }
    ensures faults { (s : SetupText) (c : Limits) (m : History) → Follows (pair_words s) c m
        → (p : ℕ) → StatesFaults (steps_of s (journal p m)) }
    ensures passed { (s : SetupText) (c : Limits) (m : History) → Follows (pair_words s) c m
        → (p : ℕ) → StatesPassed (steps_of s (journal p m)) }
{
    entries_are_lawful();
    gate_model::outcomes_are_answered();
    gate_model::flows_are_answered();
    gate_model::attaches_go_once();
    gate_model::gets_come_from_their_queues();
    gate_model::detaches_state_faults();
}

/// A flow, a transfer and a detach of a link go under the handle of the gateway's last attach of
/// it, and no attach under a handle that a link of its session has. What the container sends under
/// a handle of its own counts on the link that its last attach with that answered. What is recorded
/// of the deliveries of a life where a disposition, a flow or a detach goes is what went.
pub fn units_name_their_links()
    ensures handles { (s : SetupText) (c : Limits) (m : History) → Follows (pair_words s) c m
        → (p : ℕ) → NamesItsHandles (steps_of s (journal p m)) }
    ensures heard { (s : SetupText) (c : Limits) (m : History) → Follows (pair_words s) c m
        → (p : ℕ) → HearsLinks (steps_of s (journal p m)) }
    ensures recorded { (s : SetupText) (c : Limits) (m : History) → Follows (pair_words s) c m
        → (p : ℕ) → Records (steps_of s (journal p m)) }
{
    entries_are_lawful();
    gate_model::handles_are_links();
    gate_model::containers_name_their_links();
    gate_model::units_are_recorded();
}

/// No answer, no deliver and no frame of its content goes on a channel that isn't open. A confirm,
/// and a return that begins, go on one that is, or whose closing event was its container's doing. A
/// channel.close has the reason for which its channel was closed, and each reason has one at most,
/// and so has each life. A deliver goes behind the answers that are due on its channel, but for a
/// basic.get-ok; and behind the basic.consume-ok that gave its consumer's tag back.
pub fn channels_close_lawfully()
    ensures stops { (s : SetupText) (c : Limits) (m : History) → Follows (pair_words s) c m
        → (p : ℕ) → StopsWhenClosed (steps_of s (journal p m)) }
    ensures why { (s : SetupText) (c : Limits) (m : History) → Follows (pair_words s) c m
        → (p : ℕ) → SaysWhy (steps_of s (journal p m)) }
    ensures once { (s : SetupText) (c : Limits) (m : History) → Follows (pair_words s) c m
        → (p : ℕ) → ClosesOnce (steps_of s (journal p m)) }
    ensures life { (s : SetupText) (c : Limits) (m : History) → Follows (pair_words s) c m
        → (p : ℕ) → ClosesALifeOnce (steps_of s (journal p m)) }
    ensures behind { (s : SetupText) (c : Limits) (m : History) → Follows (pair_words s) c m
        → (p : ℕ) → DeliversBehind (steps_of s (journal p m)) }
    ensures started { (s : SetupText) (c : Limits) (m : History) → Follows (pair_words s) c m
        → (p : ℕ) → StartsBehind (steps_of s (journal p m)) }
{
    entries_are_lawful();
    gate_model::closed_channels_get_no_answers();
    gate_model::closes_say_why();
    gate_model::lives_close_once();
    gate_model::delivers_go_behind_answers();
    gate_model::consumers_are_told_first();
}

/// What the report is owed of a pair: of each life in progress, by rising number, the publishes
/// that were lost before they had an outcome, and then the deliveries that were lost or left. Of
/// both those of which no line was reported, by rising number, and what became of each.
pub fn lines_are_lawful()
    ensures { (s : SetupText) (c : Limits) (m : History) → Follows (pair_words s) c m → (p : ℕ)
        → owed_lines (state_of s (journal p m)) ≡ lines_owed (steps_of s (journal p m)) }
{
    entries_are_lawful();
    gate_model::lines_are_lawful();
}

/// A connection.close of the gateway or a close-ok goes only where nothing of the upstream end is
/// waited for: the pair ran out of memory, the end isn't open, the container's close came, or it
/// was given up. connection.open-ok goes only after the container's open. A channel.close of the
/// gateway or its close-ok goes only where nothing is waited for on its channel: no session began
/// there, or the container's end came. A channel.open-ok goes only behind the container's begin.
pub fn replies_wait()
    ensures ends { (s : SetupText) (c : Limits) (m : History) → Follows (pair_words s) c m → (p : ℕ)
        → EndsWhenSettled (steps_of s (journal p m)) }
    ensures channels { (s : SetupText) (c : Limits) (m : History) → Follows (pair_words s) c m
        → (p : ℕ) → ChannelsEndWhenSettled (steps_of s (journal p m)) }
    ensures opens { (s : SetupText) (c : Limits) (m : History) → Follows (pair_words s) c m
        → (p : ℕ)
        → OpensWhenOpened (steps_of s (journal p m)) }
    ensures begun { (s : SetupText) (c : Limits) (m : History) → Follows (pair_words s) c m
        → (p : ℕ) → OpensBehindBegins (steps_of s (journal p m)) }
{
    entries_are_lawful();
    gate_model::replies_wait();
    gate_model::opens_go_behind_begins();
}

/// The units of the opening that were sent to a container, and those that are due, are those that
/// were called for: by the connection upstream, the wanted mechanism, a login that succeeded and
/// the container's header; in their order, and each at most once. A close goes at most once, after
/// the open, to a connection that is closing, with the condition that the first closing event says,
/// and nothing goes after it.
pub fn containers_are_asked()
    ensures called { (s : SetupText) (c : Limits) (m : History) → Follows (pair_words s) c m
        → (p : ℕ)
        → AreCalledFor (steps_of s (journal p m)) }
    ensures goes { (s : SetupText) (c : Limits) (m : History) → Follows (pair_words s) c m → (p : ℕ)
        → GoesWhenDue (steps_of s (journal p m)) }
{
    entries_are_lawful();
    gate_model::containers_are_asked();
}

/// No frame that goes to a client passes the client's limit when its first byte is sent: 4,096
/// bytes until a connection.tune-ok that is neither refused nor passed over, and from then on the
/// frame-max that this agreed to.
pub fn frames_fit_clients()
    ensures { (s : SetupText) (c : Limits) (m : History) → Follows (pair_words s) c m → (p : ℕ)
        → FitsClients (steps_of s (journal p m)) }
{
    gate_turn_laws::entries_are_asked();
    gate_pair::frames_fit_clients();
}

/// No frame that goes to a container passes its limit when its first byte is sent: 512 bytes until
/// an open of it that is neither refused nor passed over, and from then on the lesser of 65,536 and
/// the max-frame-size that this stated. The set-up is in form.
pub fn frames_fit_containers()
    ensures { (s : SetupText) (c : Limits) (m : History) → Follows (pair_words s) c m → (p : ℕ)
        → IsInForm s → FitsContainers s (steps_of s (journal p m)) }
{
    entries_are_lawful();
    gate_model::frames_fit_containers();
}

/// A heartbeat goes next to the client exactly where one may, and an empty frame to the container.
/// Each end is to be shut exactly for one of its causes, those of `ShutAt` and of `ShutUpAt`. Among
/// them is that no connection.open came within 10,000 ms of the accept, and that the closing event
/// is 10,000 ms old.
pub fn times_are_kept()
    ensures { (s : SetupText) (c : Limits) (m : History) → Follows (pair_words s) c m → (p : ℕ)
        → KeepsTimes s (journal p m) }
{
    gate_turn_laws::entries_are_asked();
    gate_pair::times_are_kept();
}

/// A client that is read is given up exactly at the first moment at which, for twice the interval
/// that was agreed to, no byte of it came, counted from its last byte, or from the end of the last
/// time that it was held; a container at the first at which none came for 120,000 ms, counted from
/// its last byte, or from the connect. Each is given up once at most, while its end is open.
pub fn silent_ends_are_given_up()
    ensures { (s : SetupText) (c : Limits) (m : History) → Follows (pair_words s) c m → (p : ℕ)
        → GivesUp s (journal p m) }
{
    gate_turn_laws::entries_are_asked();
    gate_pair::silent_ends_are_given_up();
}

/// At each idle all is at rest: each end of a live pair of which a unit is awaited was read dry in
/// this turn, what is offered was stuck, nothing can be taken up, and no end is to be shut. No
/// further client can come, and nothing moved. An end that was opened in this turn is an exception,
/// and so is the client's where something of it was taken up; in a turn in which the connect
/// failed, so is what of it waited.
pub fn idle_is_at_rest()
    ensures rests { (s : SetupText) (c : Limits) (m : History) → Follows (pair_words s) c m
        → IdlesAtRest (pair_words s) c m }
    ensures silent { (s : SetupText) (c : Limits) (m : History) → Follows (pair_words s) c m
        → IdlesInSilence (pair_words s) m }
{
    gate_turn_laws::idle_is_at_rest();
    gate_pair::entries_give_picks();
}

/// All the laws together: those of each pair, and those of the turns. They hold at each point of
/// a run, not at its end alone, where no end is open any more.
pub fn runs_are_lawful()
    ensures { (s : SetupText) (c : Limits) (m : History) → Follows (pair_words s) c m
        → IsLawfulThroughout s c m }
{
    entries_are_lawful();
    clients_are_answered();
    units_keep_their_order();
    laden_pairs_wait();
    channels_are_answered_once();
    requests_are_answered();
    requests_hold_what_follows();
    publishes_are_lawful();
    publishes_reach_their_address();
    delivers_are_lawful();
    contents_are_lawful();
    deliveries_are_settled();
    quotas_are_kept();
    idle_links_are_given_up();
    recovers_release_all();
    declarations_find_queues();
    sessions_end_in_time();
    links_are_answered_once();
    units_name_their_links();
    channels_close_lawfully();
    lines_are_lawful();
    owed_units_go();
    replies_wait();
    containers_are_asked();
    frames_fit_clients();
    frames_fit_containers();
    times_are_kept();
    silent_ends_are_given_up();
    idle_is_at_rest();
    gate_turn_laws::runs_keep_turns();
    gate_turn_laws::report_follows_marks();
    gate_turn_laws::calls_determine_all();
}
