//! The laws of a pair's steps: what holds of every list of them whose outgoing ones are picks. Each
//! law is a function without parameters, whose clauses state it; a caller has the law by calling
//! it.

ghost use Rattle.std.specs.Prelude.{◌≡◌, ℕ, ◌<◌, ◌≤◌, false, List, length};
ghost use Rattle.std.specs.Option.{option_map};
ghost use Rattle.machine_091.specs.declared.limits.TheConstants.{CHANNEL_MAX};
ghost use Rattle.session_path.specs.Events.{after_events};
ghost use Rattle.gate_model.specs.declared.reply.Reply.{Reply};
ghost use Rattle.gate_model.specs.Addresses.{ReachesAddress};
ghost use Rattle.gate_model.specs.Answers.{AreAnswered};
ghost use Rattle.gate_model.specs.Begins.{OpensBehindBegins};
ghost use Rattle.gate_model.specs.Behind.{DeliversBehind};
ghost use Rattle.gate_model.specs.Closes.{ClosesALifeOnce};
ghost use Rattle.gate_model.specs.Contents.{AreImages, StandTogether, Writes};
ghost use Rattle.gate_model.specs.Counts.{CountsAreKept};
ghost use Rattle.gate_model.specs.Credits.{KeepsQuotas, StatesCredit};
ghost use Rattle.gate_model.specs.Delivers.{Delivers};
ghost use Rattle.gate_model.specs.Asked.{AreCalledFor, GoesWhenDue, ShutsUpAtOnce};
ghost use Rattle.gate_model.specs.Declares.{DeclaresFound};
ghost use Rattle.gate_model.specs.Errors.{StatesErrors};
ghost use Rattle.gate_model.specs.Faults.{StatesFaults};
ghost use Rattle.gate_model.specs.Linger.{Lingers};
ghost use Rattle.gate_model.specs.LinkCredits.{CreditIsKept};
ghost use Rattle.gate_model.specs.Frames.{AreGiven, FitsClients, FitsContainers};
ghost use Rattle.gate_model.specs.Folds.{connection, container, moment_in, number_in, ran_out_in};
ghost use Rattle.gate_model.specs.Folds.{side_in};
ghost use Rattle.gate_model.specs.Giving.{GivesUpIdle};
ghost use Rattle.gate_model.specs.Handles.{NamesItsHandles};
ghost use Rattle.gate_model.specs.Hears.{HearsLinks};
ghost use Rattle.gate_model.specs.Holding.{HoldsFew, TakesWithRoom};
ghost use Rattle.gate_model.specs.Losses.{LosesPublishes};
ghost use Rattle.gate_model.specs.Oks.{AnswersInOrder};
ghost use Rattle.gate_model.specs.Once.{AnswersOnce};
ghost use Rattle.gate_model.specs.Order.{TakesInOrder};
ghost use Rattle.gate_model.specs.Owes.{EndsClients};
ghost use Rattle.gate_model.specs.Parting.{StopsWhenClosed};
ghost use Rattle.gate_model.specs.Passed.{StatesPassed};
ghost use Rattle.gate_model.specs.Paths.{slot_at};
ghost use Rattle.gate_model.specs.Picks.{ArePicks};
ghost use Rattle.gate_model.specs.Due.{takes_memory_back};
ghost use Rattle.gate_model.specs.Dues.{EndsContainers};
ghost use Rattle.gate_model.specs.Publishing.{ArePieces, Confirms, EndWhole, Returns, Transfers};
ghost use Rattle.gate_model.specs.Publishing.{path_events, path_life};
ghost use Rattle.gate_model.specs.Setup.{IsInForm, SetupText};
ghost use Rattle.gate_model.specs.Silence.{SilentAtOnce, SilentWhenDue};
ghost use Rattle.gate_model.specs.Spelling.{spell_reply};
ghost use Rattle.gate_model.specs.Records.{Records};
ghost use Rattle.gate_model.specs.Recovers.{GoBack, GoBeforeLeaving, LeavesOthers};
ghost use Rattle.gate_model.specs.Releases.{Releases};
ghost use Rattle.gate_model.specs.Reasons.{ClosesOnce, SaysWhy};
ghost use Rattle.gate_model.specs.Repeats.{AttachesOnce, EndsOnce, FlowsOnce, SettlesInOrder};
ghost use Rattle.gate_model.specs.Reports.{lines_owed};
ghost use Rattle.gate_model.specs.Rests.{ServesClients, SuppliesContainers};
ghost use Rattle.gate_model.specs.Selects.{CountsFromSelect};
ghost use Rattle.gate_model.specs.Settles.{Grants, Settles};
ghost use Rattle.gate_model.specs.Sources.{GetsFromItsQueue};
ghost use Rattle.gate_model.specs.Starts.{StartsBehind};
ghost use Rattle.gate_model.specs.State.{Step, before, owed_lines};
ghost use Rattle.gate_model.specs.Supplies.{AttachesLinks, DetachesDone, FillsQuotas, LeavesCredit};
ghost use Rattle.gate_model.specs.Takers.{TakesAsAsked};
ghost use Rattle.gate_model.specs.Takes.{TakesInTurn};
ghost use Rattle.gate_model.specs.Times.{BeatsAtOnce, BeatsWhenDue, LateCloses, ShutsAtOnce};
ghost use Rattle.gate_model.specs.Waiting.{ChannelsEndWhenSettled, EndsWhenSettled};
ghost use Rattle.gate_model.specs.Waiting.{OpensWhenOpened};
ghost use Rattle.gate_model.specs.Wishes.{MeetsWishes};

use consume_path::{
    counts_lawfully, delivers_lawfully, delivery_lines_lawfully, ids_lawfully,
    links_lawfully as receivers_lawfully, numbers_lawfully, settles_lawfully,
};
use machine_091::connection_laws;
use property_map::received_lawfully;
use publish_path::{confirms_lawfully, lines_lawfully, payloads_lawfully, returns_lawfully};
use session_path::{
    answers_lawfully, attaches_lawfully, calls_lawfully, deliveries_lawfully, flows_lawfully,
    links_lawfully, names_lawfully, publishes_lawfully, settles_lawfully as settles_answered,
};

/// The state knows both connections, how far the upstream end is, the last moment, whether the pair
/// ran out of memory and its number, as the folds tell them.
#[tactic(auto, using(crate::proofs::Known::known))]
pub fn states_are_known()
    ensures connection { (h : List Step) → ArePicks h → (before h).conn ≡ connection h }
    ensures container { (h : List Step) → ArePicks h → (before h).up.container ≡ container h }
    ensures side { (h : List Step) → ArePicks h → (before h).up.side ≡ side_in h }
    ensures moment { (h : List Step) → ArePicks h → (before h).moment ≡ moment_in h }
    ensures memory { (h : List Step) → ArePicks h → (before h).out_of_memory ≡ ran_out_in h }
    ensures number { (h : List Step) → ArePicks h → (before h).number ≡ number_in h }
{}

/// The links, publishes and answers of a channel are what the events of its life in progress make
/// of them; a channel without a life has none.
#[tactic(auto, using(crate::proofs::Publishing::path_is))]
pub fn paths_are_known()
    ensures { (h : List Step) (n : ℕ) → ArePicks h → n ≤ CHANNEL_MAX
        → slot_at (before h).paths n
        ≡ option_map (λ (life : ℕ). after_events life (path_events h n)) (path_life h n) }
{}

/// Each confirm that goes to a client covers publishes of the channel's life that wait for one
/// alone, with the outcome that it tells: an ack those that the container accepted.
pub fn confirms_are_lawful()
    ensures { (h : List Step) → ArePicks h → Confirms h }
{
    publishes_lawfully();
    confirms_lawfully();
}

/// Of the publishes of a channel's life those wait for a confirm that were taken up behind its
/// first confirm.select. The first of them has the confirm number 1, and each further one the next.
#[tactic(auto, using(crate::proofs::Selects::counts_from_select))]
pub fn confirms_count_from_select()
    ensures { (h : List Step) → CountsFromSelect h }
{}

/// Each frame of a return that goes to a client is one of a publish of the channel's life that is
/// to go back: that the container released, or whose address it didn't know. It is that of the
/// return that is begun, else of the least number, and the next one of those of its message. By
/// `publish_path::confirms_lawfully` no confirm of the publish went before its last.
pub fn returns_are_lawful()
    ensures { (h : List Step) → ArePicks h → Returns h }
{
    publishes_lawfully();
    returns_lawfully();
}

/// Each deliver that goes to a client is of a message of which none went and which nothing settled,
/// in the order of its link. Where its consumer acknowledges, the unsettled deliveries are with it
/// within the consumer's prefetch and within that of all consumers. Its method names the consumer,
/// and where the message was published.
pub fn delivers_are_lawful()
    ensures { (h : List Step) → ArePicks h → Delivers h }
{
    deliveries_lawfully();
    delivers_lawfully();
    numbers_lawfully();
    calls_lawfully();
    ids_lawfully();
}

/// Each frame of a content that goes to a client is the next one of those of the delivery whose
/// deliver or get-ok went last on its channel, while the channel's life goes on.
pub fn contents_are_written()
    ensures { (h : List Step) → ArePicks h → Writes h }
{
    deliveries_lawfully();
    delivers_lawfully();
    numbers_lawfully();
    calls_lawfully();
    ids_lawfully();
}

/// Each whole delivery of a life that goes on carries the image of its message: of the payloads of
/// its transfers, joined in order, for the queue of its link, in frames that its client takes.
pub fn deliveries_are_images()
    ensures { (h : List Step) → ArePicks h → AreImages h }
{
    connection_laws();
    received_lawfully();
    deliveries_lawfully();
    numbers_lawfully();
    calls_lawfully();
    receivers_lawfully();
}

/// While a content is begun nothing but its frames goes to the client: those of a delivery while
/// its life goes on, and those of a return while the connection isn't closing and the pair has
/// memory.
pub fn contents_stand_together()
    ensures { (h : List Step) → ArePicks h → StandTogether h }
{
    publishes_lawfully();
    returns_lawfully();
    deliveries_lawfully();
    delivers_lawfully();
    numbers_lawfully();
    calls_lawfully();
    ids_lawfully();
}

/// Each disposition of role receiver that goes to a container covers deliveries of the channel's
/// life that are owed its state, and no other that lacks one. `accepted` are those that the client
/// acknowledged, and those that need no acknowledgement and were written whole. By its fate a
/// delivery is covered once, and none that came settled.
pub fn settles_are_lawful()
    ensures { (h : List Step) → ArePicks h → Settles h }
{
    deliveries_lawfully();
    calls_lawfully();
    ids_lawfully();
    numbers_lawfully();
    settles_lawfully();
}

/// Each flow of a receiving link that goes to a container states a credit that is, with what counts
/// on the link, within a consumer's quota; none on a cancelled consumer's link and on a
/// declaration's; 1 at most on one for gets.
pub fn grants_are_lawful()
    ensures { (h : List Step) → ArePicks h → Grants h }
{
    links_lawfully();
    deliveries_lawfully();
    calls_lawfully();
    receivers_lawfully();
    counts_lawfully();
    numbers_lawfully();
}

/// Each flow of a receiving link that goes to a container states a credit by the kind of its link.
/// On one for gets it is 1 at most, with drain, and none but while its get waits: since the
/// basic.get was taken up no transfer came on the link, and no get-empty is due. A consumer's is,
/// with what is in use, within its quota: the prefetch-count of the last basic.qos for each
/// consumer before its basic.consume, and 64 where none was, where that was 0, and where it doesn't
/// acknowledge. On a declaration's link it is none.
pub fn credits_are_lawful()
    ensures { (h : List Step) → ArePicks h → StatesCredit h }
{
    links_lawfully();
    deliveries_lawfully();
    calls_lawfully();
    receivers_lawfully();
    counts_lawfully();
    numbers_lawfully();
}

/// On each link of a consumer that the container attached what is left of the credit that was
/// stated last is, with what is in use, within the quota, after each step: until the consumer is
/// cancelled or the channel's life closes.
pub fn quotas_are_kept()
    ensures { (h : List Step) → ArePicks h → KeepsQuotas h }
{
    connection_laws();
    links_lawfully();
    deliveries_lawfully();
    calls_lawfully();
    receivers_lawfully();
    counts_lawfully();
    numbers_lawfully();
}

/// Where an end of the gateway goes the channel isn't open, nor open again, and each whole delivery
/// of its life that didn't come settled had its disposition; and before its detach of a receiving
/// link each one of that link had, also where the container detached it or a transfer on it was at
/// fault.
pub fn releases_are_lawful()
    ensures { (h : List Step) → ArePicks h → Releases h }
{
    deliveries_lawfully();
    settles_lawfully();
    links_lawfully();
}

/// A basic.recover, or recover-async, that is taken up makes each delivery go back that its client
/// has and didn't settle: it is owed `released` from then on, or its disposition said so. No other
/// delivery is changed by it. That goes before the gateway's end of the session, and before its
/// detach of the link. By `settles_are_lawful` no disposition of those deliveries says anything
/// else.
pub fn recovers_release_all()
    ensures released { (h : List Step) → GoBack h }
    ensures others { (h : List Step) → LeavesOthers h }
    ensures gone { (h : List Step) → ArePicks h → GoBeforeLeaving h }
{
    deliveries_lawfully();
    settles_lawfully();
    links_lawfully();
}

/// Each frame of a transfer that goes to a container is that of the publish that is begun, else of
/// the least number that waits on an attached link with credit; the window of the session has room
/// for it. It has the delivery-id of the next transfer and the handle of its link, carries the
/// first bytes of what is left of the payload, and says whether more are.
pub fn transfers_are_lawful()
    ensures { (h : List Step) → ArePicks h → Transfers h }
{
    publishes_lawfully();
    payloads_lawfully();
}

/// The first frame of a transfer goes to a container only where the steps before it leave the link
/// a credit of one: its attaches, the container's flows on it, and the gateway's transfers and
/// flows. The credit is what the container's last flow stated, less the deliveries since its count.
/// It holds of the first 2^64 attaches, which have names of their own.
pub fn credit_is_kept()
    ensures { (h : List Step) → ArePicks h → CreditIsKept h }
{
    deliveries_lawfully();
    calls_lawfully();
    numbers_lawfully();
}

/// A flow of a link that the gateway attached as a sender states the delivery-count and the credit
/// that the steps before it leave, or it gives that credit back: then its count is past it, and it
/// states no credit. It holds of the first 2^64 attaches, which have names of their own.
pub fn counts_are_kept()
    ensures { (h : List Step) → ArePicks h → CountsAreKept h }
{
    deliveries_lawfully();
    calls_lawfully();
    numbers_lawfully();
}

/// Each frame of a transfer that goes to a container goes under a handle that the gateway's last
/// attach under it, since the channel was opened, tied to the address that its publish asked for.
/// That is the queue that its key names, or the address that its exchange stands for. No detach of
/// the gateway gave the handle back since.
pub fn publishes_reach_their_address()
    ensures { (h : List Step) → ArePicks h → ReachesAddress h }
{
    connection_laws();
    publishes_lawfully();
    payloads_lawfully();
    links_lawfully();
}

/// The frames of the transfer of a publish carry the text of the image of its message, each byte
/// once and in order, and all of it once one says that no more follows.
pub fn payloads_are_whole()
    ensures pieces { (h : List Step) → ArePicks h → ArePieces h }
    ensures end { (h : List Step) → ArePicks h → EndWhole h }
{
    publishes_lawfully();
    payloads_lawfully();
}

/// Nothing of a client is taken up, and its end neither, while its pair holds 256 publishes or
/// 67,108,864 bytes of their payloads, on all channels together. So it never holds more publishes.
/// A publish is held until the last frame of its transfer went or its link was lost; a mandatory
/// one until it has an outcome too.
pub fn laden_pairs_wait()
    ensures room { (h : List Step) → ArePicks h → TakesWithRoom h }
    ensures most { (h : List Step) → ArePicks h → HoldsFew h }
{
    publishes_lawfully();
}

/// Where the gateway detaches a sending link that the container attached and didn't detach, as it
/// does for its handle alone, each publish that was taken up for it went whole, or its link was
/// lost, and each has its outcome: none is lost by that detach.
pub fn idle_links_are_given_up()
    ensures { (h : List Step) → ArePicks h → GivesUpIdle h }
{
    publishes_lawfully();
    links_lawfully();
}

/// What the report is owed: of each life in progress, by rising number, the publishes that were
/// lost before they had an outcome, and then the deliveries that were lost or left. Of both those
/// of which no line was reported, by rising number, and what became of each. By
/// `publish_path::lines_lawfully` and `consume_path::delivery_lines_lawfully` each has one line.
pub fn lines_are_lawful()
    ensures { (h : List Step) → ArePicks h → owed_lines (before h) ≡ lines_owed h }
{
    publishes_lawfully();
    lines_lawfully();
    deliveries_lawfully();
    delivery_lines_lawfully();
}

/// Where nothing goes to the client, each channel that is open has nothing owed: no publish that
/// waits for its confirm has an outcome, none is to go back, no content is begun, no delivery to a
/// consumer may go, and each request whose answer is due was answered, but for one that waits for
/// its get-ok. While the pair has memory, one that its container closed is owed no confirm and no
/// return until its channel.close went, or a connection.close or its close-ok. Where nothing goes
/// to the container before the gateway's close, each session that is begun has nothing owed: no
/// disposition is due, no link is to be detached, and while the pair has memory no publish may be
/// transferred, no credit is to be stated, and no link to be attached.
pub fn owed_units_go()
    ensures clients { (h : List Step) → ArePicks h → ServesClients h }
    ensures containers { (h : List Step) → ArePicks h → SuppliesContainers h }
{
    connection_laws();
    publishes_lawfully();
    confirms_lawfully();
    returns_lawfully();
    payloads_lawfully();
    deliveries_lawfully();
    delivers_lawfully();
    numbers_lawfully();
    calls_lawfully();
    ids_lawfully();
    settles_lawfully();
}

/// What is left of a receiving link's credit is what the container's attach and flows, the
/// gateway's flows and the deliveries that began leave of it. The rest is said of where nothing
/// goes to the container before the gateway's close. While the pair has memory, more than half of
/// the quota of each consumer's live link is used, by that credit and by the deliveries that count.
/// On the link of a consumer that was cancelled no credit is left. Each flow of the container that
/// asks for the state of a receiving link has one behind it, and so has each basic.get that waits.
/// Then too, while a handle is left that no link of the life had, each publish of which a frame is
/// to go has a link to its address. So has each basic.consume, queue.declare and basic.get its own.
/// With memory or without, no link is left that the container attached for a declaration or
/// a cancelled consumer, once each of its deliveries that didn't come settled had its disposition.
pub fn links_are_supplied()
    ensures left { (h : List Step) → ArePicks h → LeavesCredit h }
    ensures filled { (h : List Step) → ArePicks h → FillsQuotas h }
    ensures attached { (h : List Step) → ArePicks h → AttachesLinks h }
    ensures detached { (h : List Step) → ArePicks h → DetachesDone h }
{
    connection_laws();
    publishes_lawfully();
    payloads_lawfully();
    links_lawfully();
    deliveries_lawfully();
    calls_lawfully();
    receivers_lawfully();
    counts_lawfully();
    numbers_lawfully();
    names_lawfully();
    settles_lawfully();
    owed_units_go();
}

/// Where nothing goes to the client, each channel that is open had its channel.open-ok, where the
/// container began its session. While what ends channels may go, each channel.close of the client
/// had its close-ok, once nothing of the container is waited for on its channel; and one that
/// crossed the gateway's in any case. Each step with a reason to close a channel was followed by the
/// gateway's channel.close or the client's, where nothing is waited for and the client didn't close
/// the connection. Of the connection the replies to what came went; but for its close and its
/// close-ok while the upstream end is waited for. After the pair ran out of memory the last units
/// went. While the pair has memory, and the connection isn't closing or its container closed it, no
/// return that is begun has a frame left, on any channel. Nor has one on a channel that its
/// container closed, until the gateway's channel.close went, or a connection.close or its close-ok.
pub fn clients_get_what_is_due()
    ensures { (h : List Step) → ArePicks h → EndsClients h }
{
    publishes_lawfully();
    returns_lawfully();
    deliveries_lawfully();
    delivers_lawfully();
    numbers_lawfully();
    calls_lawfully();
    ids_lawfully();
}

/// What was sent to a client, without heartbeats, and what is due to it are the replies to its
/// units and to what happened upstream, in their order: to the protocol header connection.start, to
/// bytes that begin no header the gateway's own, to connection.start-ok connection.tune, to the
/// container's open connection.open-ok, to the client's connection.close a close-ok, and to a
/// refused unit or a failure upstream connection.close, unless the client closed or its end was
/// taken up before the first byte of that went. After the pair ran out of memory what was sent
/// since and what is due are the last units, by the connection before.
#[tactic(auto, using(crate::proofs::Said::answered))]
pub fn clients_are_answered()
    ensures { (h : List Step) → ArePicks h → AreAnswered h }
{}

/// A connection.close of the gateway or a close-ok goes only where nothing of the upstream end is
/// waited for: the pair ran out of memory, the end isn't open, the container's close came, or it
/// was given up. connection.open-ok goes only after the container's open. A channel.close of the
/// gateway or its close-ok goes only where nothing is waited for on its channel: no session began
/// there, or the container's end came.
pub fn replies_wait()
    ensures ends { (h : List Step) → ArePicks h → EndsWhenSettled h }
    ensures channels { (h : List Step) → ArePicks h → ChannelsEndWhenSettled h }
    ensures opens { (h : List Step) → ArePicks h → OpensWhenOpened h }
{}

/// The units of each channel are taken up in the order in which they came, each once; those that
/// were not are in the queue, in that order.
#[tactic(auto, using(crate::proofs::Orders::takes_in_order))]
pub fn units_keep_their_order()
    ensures { (h : List Step) → ArePicks h → TakesInOrder h }
{}

/// The answers to a channel's requests go in the order of the requests, each once: those that went
/// in the life in progress and those that are due are those that became due.
pub fn requests_are_answered()
    ensures { (h : List Step) → ArePicks h → AnswersInOrder h }
{
    connection_laws();
    answers_lawfully();
}

/// While a channel's life goes on the answers that went met the first of what its requests wish for,
/// in the order in which these were taken up, each once. A basic.consume-ok gives back the tag that
/// its own basic.consume asked for, or that was made for it; a basic.cancel-ok and a
/// queue.declare-ok the name in their own requests; and a basic.get has one basic.get-ok or
/// get-empty. A request with no-wait has none.
pub fn wishes_are_met()
    ensures { (h : List Step) → ArePicks h → MeetsWishes h }
{
    connection_laws();
    links_lawfully();
    deliveries_lawfully();
    calls_lawfully();
    numbers_lawfully();
    names_lawfully();
}

/// A queue.declare-ok goes only where the container attached the link of its queue.declare, with a
/// source: more such attaches came in the channel's life than queue.declare-oks went.
pub fn declarations_find_queues()
    ensures { (h : List Step) → ArePicks h → DeclaresFound h }
{
    connection_laws();
    answers_lawfully();
}

/// On each channel no more channel.open-oks went than channel.opens were taken up, and the same of
/// channel.flow and its flow-ok, and of channel.close and its close-ok.
#[tactic(auto, using(crate::proofs::Once::answers_once))]
pub fn channels_are_answered_once()
    ensures { (h : List Step) → ArePicks h → AnswersOnce h }
{}

/// A heartbeat goes exactly where an interval was agreed to, for half of it no byte was sent, no
/// close-ok was sent, no other unit may go and none is in progress. A client's end is to be shut
/// exactly for one of the causes of `ShutFor`. Once the handshake limit was reached the connection
/// is closing.
#[tactic(auto, using(crate::proofs::Times::beats_when_due, crate::proofs::Times::late_closes))]
pub fn times_are_kept()
    ensures beats { (h : List Step) → ArePicks h → BeatsWhenDue h }
    ensures beats_at_once { (h : List Step) → ArePicks h → BeatsAtOnce h }
    ensures shuts_at_once { (h : List Step) → ArePicks h → ShutsAtOnce h }
    ensures late { (h : List Step) → ArePicks h → LateCloses h }
{}

/// A client that is read is given up exactly where an interval was agreed to and for twice of it no
/// byte of it came, counted from its last byte, or from the end of the last time that it was held;
/// a container where none came for 120,000 ms, counted from its last byte, or from the connect.
#[tactic(auto, using(crate::proofs::Silences::silent_at_once, crate::proofs::Silences::silent_when_due))]
pub fn silent_ends_are_given_up()
    ensures due { (h : List Step) → ArePicks h → SilentWhenDue h }
    ensures at_once { (h : List Step) → ArePicks h → SilentAtOnce h }
{}

/// The units of the opening that were sent to a container, and those that are due, are those that
/// were called for: by the connection upstream, the wanted mechanism, a login that succeeded and
/// the container's header; in their order, and each at most once. A close goes at most once, after
/// the open, to a connection that is closing, with the condition that the first closing event says,
/// and nothing goes after it. An empty frame goes only after half of the time-out that the
/// container stated.
pub fn containers_are_asked()
    ensures called { (h : List Step) → ArePicks h → AreCalledFor h }
    ensures goes { (h : List Step) → ArePicks h → GoesWhenDue h }
{}

/// The upstream end is to be shut exactly for one of the causes of `ShutUpFor`.
pub fn containers_are_left()
    ensures { (h : List Step) → ArePicks h → ShutsUpAtOnce h }
{}

/// No frame that goes to a client passes the client's limit when its first byte is sent: 4,096
/// bytes until a connection.tune-ok that is neither refused nor passed over, and from then on the
/// frame-max of that one, or the one that was stated where it named none.
pub fn frames_fit_clients()
    ensures { (h : List Step) → ArePicks h → FitsClients h }
{
    connection_laws();
    publishes_lawfully();
    returns_lawfully();
    deliveries_lawfully();
    names_lawfully();
    received_lawfully();
}

/// No frame that goes to a container passes the container's limit when its first byte is sent: 512
/// bytes until an open of it that is neither refused nor passed over, and from then on the lesser
/// of 65,536 and the max-frame-size that this stated. The set-up is in form, and what the client
/// sent is bytes.
pub fn frames_fit_containers()
    ensures { (s : SetupText) (h : List Step) → IsInForm s → ArePicks h → AreGiven h
        → FitsContainers s h }
{}

/// No unit to a client has over 512 bytes, an eighth of the least frame-max, and each has some; but
/// for basic.deliver and get-ok, the answers of the classes basic and queue, and the frames of
/// returns and contents.
#[tactic(auto, using(crate::proofs::Spelled::spelled_small, crate::proofs::Spelled::spelled_some))]
pub fn units_are_short()
    ensures small { (unit : Reply) (text : List ℕ) → takes_memory_back unit ≡ false
        → length (spell_reply unit text) ≤ 512 }
    ensures some { (unit : Reply) (text : List ℕ) → takes_memory_back unit ≡ false
        → 0 < length (spell_reply unit text) }
{}

/// The gateway's end of a session that the container didn't end goes only once each publish of the
/// channel's life was sent or lost its link, and has an outcome; once 5,000 ms passed since the
/// closing event of the channel or of the connection; or once the pair ran out of memory.
pub fn ends_linger()
    ensures { (h : List Step) → ArePicks h → Lingers h }
{
    connection_laws();
    publishes_lawfully();
}

/// Each disposition of role sender that goes to a container answers one of its dispositions that
/// was the first outcome of some publish, in their order, each once.
pub fn outcomes_are_answered()
    ensures { (h : List Step) → ArePicks h → SettlesInOrder h }
{
    connection_laws();
    settles_answered();
}

/// Each flow of a link that goes to a container is asked for by one of its flows that none answered
/// yet, an echo or a drain; or it states the credit of a receiving link.
pub fn flows_are_answered()
    ensures { (h : List Step) → ArePicks h → FlowsOnce h }
{
    links_lawfully();
    deliveries_lawfully();
    flows_lawfully();
}

/// Of the first 2^64 attaches to a container no two have one name, and it attaches a link under
/// each once at most.
pub fn attaches_go_once()
    ensures { (h : List Step) → ArePicks h → AttachesOnce h }
{
    attaches_lawfully();
}

/// No more ends of the session of a number go to a container than begins.
pub fn sessions_end_once()
    ensures { (h : List Step) → ArePicks h → EndsOnce h }
{}

/// No answer, no deliver and no frame of its content goes on a channel that isn't open. A confirm,
/// and a return that begins, go on one that is, or whose closing event was its container's doing.
pub fn closed_channels_get_no_answers()
    ensures { (h : List Step) → ArePicks h → StopsWhenClosed h }
{}

/// A channel.close that goes has the reason for which its channel was closed last: the refusal of a
/// unit of its client, with what is told of a message that has no image; or the code of the
/// container's error, with no ids. No more go on a channel than steps had a reason.
pub fn closes_say_why()
    ensures why { (h : List Step) → ArePicks h → SaysWhy h }
    ensures once { (h : List Step) → ArePicks h → ClosesOnce h }
{}

/// A basic.deliver goes only where no answer is due on its channel, or the next is a basic.get-ok.
pub fn delivers_go_behind_answers()
    ensures { (h : List Step) → ArePicks h → DeliversBehind h }
{
    connection_laws();
}

/// Each basic.deliver names the consumer tag that its basic.consume asked for, or that was made for
/// it. It goes only where a basic.consume-ok gave that tag back since, unless the basic.consume
/// wanted none. Each basic.consume-ok carries the name that it gives back.
pub fn consumers_are_told_first()
    ensures { (h : List Step) → ArePicks h → StartsBehind h }
{
    connection_laws();
    deliveries_lawfully();
    calls_lawfully();
    counts_lawfully();
    numbers_lawfully();
    delivers_lawfully();
    answers_lawfully();
}

/// In each life of a channel at most one channel.close of the gateway goes.
pub fn lives_close_once()
    ensures { (h : List Step) → ArePicks h → ClosesALifeOnce h }
{
    connection_laws();
}

/// A channel.open-ok goes only where the container's begin of its session came since its
/// channel.open, and no end behind it.
pub fn opens_go_behind_begins()
    ensures { (h : List Step) → ArePicks h → OpensBehindBegins h }
{}

/// An end of the gateway states the error of what closed its channel last since the end before it:
/// of a refusal the condition of its code, of a performative at fault that of its fault. One that
/// none of these closed has none, as where its client or its container closed it.
pub fn ends_state_errors()
    ensures { (h : List Step) → ArePicks h → StatesErrors h }
{}

/// Nothing of a channel is taken up while its request waits: its channel.open for the container's
/// begin, a queue.declare or a basic.consume for its attach, a basic.get for its message, and its
/// channel.close for the container's end; nor anything while connection.open waits. What is of
/// channel 0, and a heartbeat, is taken up as the first of what waits, once no request does.
pub fn requests_hold_what_follows()
    ensures { (h : List Step) → ArePicks h → TakesInTurn h }
{
    connection_laws();
}

/// Where nothing goes to the container before the gateway's close, each channel that is open had
/// its begin, but while the session of that number before it isn't over; no flow of a session is
/// owed; each end of the container is answered; a session whose channel or connection closes isn't
/// to be ended yet, and the closing event of neither is 5,000 ms old; and once the connection
/// closes the close waits for a session, or the open didn't go.
pub fn sessions_get_what_is_due()
    ensures { (h : List Step) → ArePicks h → EndsContainers h }
{
    connection_laws();
    publishes_lawfully();
}

/// A detach of the gateway states an error only where a transfer of the container passed a limit of
/// its link in the life in progress, and then that of the limit. Where one did, and the container
/// didn't detach the link since, it states that error.
pub fn detaches_state_faults()
    ensures only { (h : List Step) → ArePicks h → StatesFaults h }
    ensures passed { (h : List Step) → ArePicks h → StatesPassed h }
{
    connection_laws();
    links_lawfully();
}

/// Once the container closed, was at fault, couldn't be reached, was given up or its end was lost,
/// no publish of a life in progress waits: each went whole or lost its link, and has an outcome or
/// the confirm that told it.
pub fn lost_containers_end_publishes()
    ensures { (h : List Step) → ArePicks h → LosesPublishes h }
{}

/// Each attach of a receiving link names the queue for which the link was wanted: by a
/// basic.consume, a queue.declare, or a basic.get for which there was none. The delivery of a
/// basic.get-ok came on a link to the queue that its basic.get asked for.
pub fn gets_come_from_their_queues()
    ensures { (h : List Step) → ArePicks h → GetsFromItsQueue h }
{
    connection_laws();
    links_lawfully();
    deliveries_lawfully();
    delivers_lawfully();
    numbers_lawfully();
    calls_lawfully();
    names_lawfully();
}

/// While its life goes on, each delivery that a client is to have is taken as the last request on
/// its link said when its last transfer came. A consumer has it where that was the basic.consume
/// for which the link was wanted, and a get where it was a basic.get. It waits for an
/// acknowledgement unless that request said no-ack. Where a consumer acknowledges, the
/// prefetch-count of the last basic.qos for each consumer before its basic.consume limits it, if
/// that isn't 0; and no other is limited. A delivery is for nobody only where that was no
/// basic.consume, or where a basic.cancel of its consumer came since.
pub fn deliveries_are_taken_as_asked()
    ensures { (h : List Step) → ArePicks h → TakesAsAsked h }
{
    connection_laws();
    deliveries_lawfully();
    numbers_lawfully();
    calls_lawfully();
    names_lawfully();
}

/// What is recorded of the deliveries of a channel's life where a unit of its links goes is what
/// went: of a disposition of role receiver its state and its delivery-ids, of a flow of a receiving
/// link the credit that it states there, and of a detach of one its link. By that their fates are
/// those of what was sent.
pub fn units_are_recorded()
    ensures { (h : List Step) → ArePicks h → Records h }
{
    links_lawfully();
    deliveries_lawfully();
    calls_lawfully();
    numbers_lawfully();
}

/// A flow, a transfer and a detach of a link go under the handle of the gateway's last attach of
/// that link in the channel's life. No attach goes under a handle that a link of the session has:
/// it has its handle from its attach to the gateway's detach.
pub fn handles_are_links()
    ensures { (h : List Step) → ArePicks h → NamesItsHandles h }
{
    publishes_lawfully();
    payloads_lawfully();
    links_lawfully();
    deliveries_lawfully();
    calls_lawfully();
    numbers_lawfully();
}

/// What the container sends under a handle of its own counts on the link that its last attach with
/// that handle answered: the link of the gateway's last attach under the name that it stated. It is
/// so of the first 2^64 attaches, which have names of their own.
pub fn containers_name_their_links()
    ensures { (h : List Step) → ArePicks h → HearsLinks h }
{
    connection_laws();
    deliveries_lawfully();
    calls_lawfully();
    numbers_lawfully();
}
