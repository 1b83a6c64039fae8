//! The session that carries a channel: its windows, and how often its state is asked for (AMQP 1.0
//! 2.5.6, 2.7.4).

ghost use Rattle.std.specs.Prelude.{◌≡◌, ◌<◌, ◌^◌, ◌-◌};
ghost use Rattle.gate_model.specs.Session.{begun_with, carried_by, flow_came, flow_sent, has_room};
ghost use Rattle.gate_model.specs.Session.{is_flow_owed, is_low, no_session, transfer_came};
ghost use Rattle.machine_10.specs.Parts.{parts_of};
ghost use Rattle.performatives_10.specs.declared.performative.Perf.TheVariants as perf;

use gate_model::SessionState;
use machine_10::Session10;
use performatives_10::{Begin, Flow, Perf};

/// The container's begin didn't come.
pub fn no_session() -> SessionState
    ensures { result ≡ no_session }
{
    SessionState {
        windows: Session10::new(),
        echoes: 0,
        refills: false,
    }
}

/// The container's begin came.
#[tactic(auto, unfolding(machine_10::specs::Parts::parts_of))]
fn begun_with(begin: &Begin) -> SessionState
    ensures { result ≡ begun_with (parts_of (perf.Begin begin.now)).1 }
{
    let mut windows = Session10::new();
    windows.began(
        begin.next_outgoing_id,
        begin.incoming_window,
        begin.handle_max,
    );
    SessionState {
        windows,
        ..no_session()
    }
}

/// Little is left of the window that the gateway stated.
fn is_low(session: SessionState) -> bool
    ensures { result ≡ is_low session }
{
    session.windows.refill_due()
}

/// A flow of the container came.
#[tactic(auto, unfolding(machine_10::specs::Parts::parts_of))]
fn flow_came(session: SessionState, flow: &Flow) -> SessionState
    requires { session.echoes < 2 ^ 32 - 1 }
    ensures { result ≡ flow_came (parts_of (perf.Flow flow.now)).1 session }
{
    let mut windows = session.windows;
    windows.flowed(flow.next_incoming_id, flow.incoming_window);
    let asks = flow.handle.is_none() && flow.echo;
    let refills = if asks && session.echoes == 0 {
        windows.refill_due()
    } else {
        session.refills
    };
    let echoes = if asks {
        session.echoes + 1
    } else {
        session.echoes
    };
    SessionState {
        windows,
        echoes,
        refills,
    }
}

/// A transfer frame of the container came.
fn transfer_came(session: SessionState) -> SessionState
    ensures { result ≡ transfer_came session }
{
    let mut windows = session.windows;
    let _ = windows.got_frame();
    SessionState { windows, ..session }
}

/// What a performative of the container makes of a session.
#[tactic(auto, unfolding(machine_10::specs::Parts::parts_of))]
pub fn carried_by(session: SessionState, perf: &Perf) -> SessionState
    requires { session.echoes < 2 ^ 32 - 1 }
    ensures { result ≡ carried_by (parts_of perf.now) session }
{
    match perf {
        Perf::Begin(begin) => begun_with(begin),
        Perf::Flow(flow) => flow_came(session, flow),
        Perf::Transfer(_) => transfer_came(session),
        _ => session,
    }
}

/// The window that the gateway stated has room for a transfer frame.
pub fn has_room(session: SessionState) -> bool
    ensures { result ≡ has_room session }
{
    let mut windows = session.windows;
    windows.got_frame()
}

/// A flow of the gateway is owed.
pub fn is_flow_owed(session: SessionState) -> bool
    ensures { result ≡ is_flow_owed session }
{
    0 < session.echoes || is_low(session)
}

/// One was sent.
pub fn flow_sent(session: SessionState) -> SessionState
    ensures { result ≡ flow_sent session }
{
    let mut windows = session.windows;
    windows.flow_sent();
    let echoes = if session.refills {
        session.echoes
    } else {
        session.echoes.saturating_sub(1)
    };
    SessionState {
        windows,
        echoes,
        refills: false,
    }
}
