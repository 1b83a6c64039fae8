//! The laws of a pair: what holds of every list of entries that are asked for, whichever loop makes
//! them. Each law is a function without parameters, whose clauses state it; a caller has the law by
//! calling it.

ghost use Rattle.std.specs.Prelude.{List};
ghost use Rattle.gate_relay.specs.Entries.{Entry};
ghost use Rattle.gate_relay.specs.Relayed.{IsRelayed};
ghost use Rattle.gate_model.specs.Frames.{FitsClients};
ghost use Rattle.gate_model.specs.Picks.{ArePicks};
ghost use Rattle.gate_model.specs.Setup.{SetupText};
ghost use Rattle.gate_pair.specs.Answers.{IsAnswered};
ghost use Rattle.gate_pair.specs.Lawful.{AreLawful};
ghost use Rattle.gate_pair.specs.Meaning.{pair_words, steps_of};
ghost use Rattle.gate_pair.specs.Silence.{GivesUp};
ghost use Rattle.gate_pair.specs.Times.{KeepsTimes};

use frames_10::frame_laws10;
use frames_091::frame_laws;
use machine_10::connection_laws;

/// Entries that are asked for are steps whose outgoing ones are picks, whose moments don't fall,
/// and in which units come as they are awaited.
#[tactic(auto, using(crate::proofs::Picks::picks))]
pub fn entries_give_picks()
    ensures { (s : SetupText) (h : List Entry) → IsRelayed (pair_words s) h
        → ArePicks (steps_of s h) }
{}

/// The units of each end are those with which its bytes begin, however these were cut, and no
/// further one is whole, but for units of the client behind a request of it that waited. What an
/// end took are the bytes of the units that were sent to it, with what each carries, but for what
/// is left of the one in progress. The units that were sent to the client, without heartbeats, and
/// the ones that are due are the replies to its units and to what happened upstream; after the pair
/// ran out of memory those since then are the last units. While an end takes bytes and none are
/// offered, all that may go went, and no heartbeat and no empty frame is due.
pub fn clients_are_answered()
    ensures { (s : SetupText) (h : List Entry) → IsRelayed (pair_words s) h → IsAnswered s h }
{
    frame_laws();
    frame_laws10();
    connection_laws();
    gate_model::containers_are_asked();
    gate_model::clients_are_answered();
}

/// No frame that goes to a client passes the client's limit when its first byte is sent: 4,096
/// bytes until a connection.tune-ok that is neither refused nor passed over, and from then on the
/// frame-max that this agreed to.
pub fn frames_fit_clients()
    ensures { (s : SetupText) (h : List Entry) → IsRelayed (pair_words s) h
        → FitsClients (steps_of s h) }
{
    entries_give_picks();
    gate_model::frames_fit_clients();
}

/// A heartbeat goes next to the client exactly where an interval was agreed to, the client took no
/// byte for half of it, no close-ok was sent, no other unit may go and none is in progress. An
/// empty frame goes next to the container exactly where its open stated an idle time-out, the
/// gateway's open was sent, and the container took no byte for half of that. Its end is open then,
/// the gateway's close wasn't sent, the pair didn't run out of memory, no other unit is due and
/// none is in progress. The client's end is to be shut exactly for one of the causes of `ShutAt`,
/// among them that no connection.open came within 10,000 ms of the accept. The upstream end is to
/// be shut exactly for one of those of `ShutUpAt`. Among both is that the closing event is 10,000
/// ms old. Once the handshake limit was reached the connection is closing, whatever comes.
pub fn times_are_kept()
    ensures { (s : SetupText) (h : List Entry) → IsRelayed (pair_words s) h → KeepsTimes s h }
{
    gate_model::times_are_kept();
    gate_model::containers_are_asked();
    gate_model::containers_are_left();
}

/// A client that is read is given up exactly at the first moment at which, for twice the interval
/// that was agreed to, no byte of it came, counted from its last byte, or from the end of the last
/// time that it was held; a container at the first at which none came for 120,000 ms, counted from
/// its last byte, or from the connect. Each is given up once at most, while its end is open.
pub fn silent_ends_are_given_up()
    ensures { (s : SetupText) (h : List Entry) → IsRelayed (pair_words s) h → GivesUp s h }
{
    gate_model::silent_ends_are_given_up();
}

/// Each entry stands where what came before it allows it: an end is read where it is open for that
/// and a unit of it is awaited, or it is a client's that was given up. What is offered to it is the
/// unit in progress or the one that goes next, whole. It is shut where that is due, or at the end
/// of the service. Units of the client that waited, and the loss of its end, are taken up once no
/// request of it waits. The connection upstream is asked for once, where a connection.open waits
/// for it. After its accept the pair runs out of memory in a read, in a take-up, or where a unit
/// that tells the container a name or a frame of a return goes next, and nowhere else.
pub fn entries_are_lawful()
    ensures { (s : SetupText) (h : List Entry) → IsRelayed (pair_words s) h → AreLawful s h }
{
    gate_model::times_are_kept();
    gate_model::containers_are_asked();
    gate_model::containers_are_left();
}
