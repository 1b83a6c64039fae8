//! The units that are due to a client, and those that were sent whole.

ghost use Rattle.std.specs.Prelude.{◌≡◌};
ghost use Rattle.gate_model.specs.Lives.{reason_of, refusal_on};
ghost use Rattle.gate_model.specs.State.{last_pending, none_pending, with_last, without};
ghost use Rattle.machine_091.specs.Refusals.{refusal_with};

use close_translate::Scope;
use gate_model::{Pending, Reason, Reply, SentLast};
use machine_091::{Phase91, Refusal};
use property_map::Told;

/// Nothing is due.
pub fn none_pending() -> Pending
    ensures { result ≡ none_pending }
{
    Pending {
        protocol: false,
        start: false,
        tune: false,
        open_ok: false,
        close_ok: false,
        close: None,
        no_memory: false,
    }
}

/// A refusal of the connection, with these ids.
pub fn refusal_with(code: u16, class: u16, method: u16) -> Refusal
    ensures { result ≡ refusal_with code class method }
{
    Refusal {
        code,
        scope: Scope::Connection,
        channel: 0,
        class,
        method,
    }
}

/// The gateway's channel.close on this channel, for a fault of its session.
pub fn refusal_on(channel: u16, code: u16) -> Refusal
    ensures { result ≡ refusal_on channel code }
{
    Refusal {
        code,
        scope: Scope::Channel,
        channel,
        class: 0,
        method: 0,
    }
}

/// Why a channel closes: for a refusal, of which nothing more is told, or this.
pub fn reason_of(refusal: Refusal, told: Option<Told>) -> Reason
    ensures { result ≡ reason_of told refusal }
{
    Reason { refusal, told }
}

/// The units that are due once the pair ran out of memory.
pub fn last_pending(phase: Phase91, pending: Pending) -> Pending
    ensures { result ≡ last_pending phase pending }
{
    let none = none_pending();
    match phase {
        Phase91::Header => none,
        Phase91::Start | Phase91::Tune | Phase91::Open | Phase91::Running => Pending {
            no_memory: true,
            ..none
        },
        Phase91::Closing => Pending {
            close: pending.close,
            ..none
        },
        Phase91::Closed => Pending {
            close_ok: pending.close_ok,
            ..none
        },
    }
}

/// The units that are due once the first byte of this one was sent.
pub fn without(pending: Pending, unit: Reply) -> Pending
    ensures { result ≡ without unit pending }
{
    match unit {
        Reply::Protocol => Pending {
            protocol: false,
            ..pending
        },
        Reply::Start => Pending {
            start: false,
            ..pending
        },
        Reply::Tune => Pending {
            tune: false,
            ..pending
        },
        Reply::OpenOk => Pending {
            open_ok: false,
            ..pending
        },
        Reply::CloseOk => Pending {
            close_ok: false,
            ..pending
        },
        Reply::Close(_) => Pending {
            close: None,
            ..pending
        },
        Reply::NoMemory => Pending {
            no_memory: false,
            ..pending
        },
        Reply::Heartbeat
        | Reply::ChannelOpenOk(_)
        | Reply::OnChannel(_, _)
        | Reply::ChannelCloseOk(_)
        | Reply::CrossedOk(_)
        | Reply::ChannelClose(_, _) => pending,
    }
}

/// The units that were sent whole once this one was.
pub fn with_last(sent: SentLast, unit: Option<Reply>) -> SentLast
    ensures { result ≡ with_last unit sent }
{
    match unit {
        Some(Reply::Protocol) => SentLast {
            protocol: true,
            ..sent
        },
        Some(Reply::CloseOk) => SentLast {
            close_ok: true,
            ..sent
        },
        Some(Reply::Close(_)) | Some(Reply::NoMemory) => SentLast {
            close: true,
            ..sent
        },
        None
        | Some(Reply::Start)
        | Some(Reply::Tune)
        | Some(Reply::OpenOk)
        | Some(Reply::Heartbeat)
        | Some(Reply::ChannelOpenOk(_))
        | Some(Reply::OnChannel(_, _))
        | Some(Reply::ChannelCloseOk(_))
        | Some(Reply::CrossedOk(_))
        | Some(Reply::ChannelClose(_, _)) => sent,
    }
}
