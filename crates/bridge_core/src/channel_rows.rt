//! The unit of each row that goes on a channel, and which requests wait there.

ghost use Rattle.std.specs.Prelude.{◌≡◌, ◌≤◌, ◌&&◌};
ghost use Rattle.gate_model.specs.Due.{attach_row, confirm_on, confirms_on, content_on};
ghost use Rattle.gate_model.specs.Due.{consume_oks_on, delivers_on, detach_row, dispose_row};
ghost use Rattle.gate_model.specs.Due.{empty_on, flows_on, get_ok_on, gets_on, is_consume_ok};
ghost use Rattle.gate_model.specs.Due.{frame_max_in, is_empty_ok, is_long_ago, is_plain_ok};
ghost use Rattle.gate_model.specs.Due.{link_flow_row};
ghost use Rattle.gate_model.specs.Due.{may_confirm, may_go_on, oks_on, return_on, settle_row};
ghost use Rattle.gate_model.specs.Due.{transfer_row, when, writings_on};
ghost use Rattle.gate_model.specs.Lives.{any_life, is_begun, is_carried, is_ended};
ghost use Rattle.gate_model.specs.Lives.{is_free, no_life, session_in};
ghost use Rattle.gate_model.specs.Paths.{flow_out, path_at};
ghost use Rattle.gate_model.specs.Upstream.{first, when_up};
ghost use Rattle.gate_model.specs.declared.outgoing.UpUnit.TheVariants as up;
ghost use Rattle.bridge_core.specs.ChannelRows.{AreFreeFrom, is_left_on, is_settled_on};
ghost use Rattle.bridge_core.specs.ChannelRows.{is_waiting_on};
ghost use Rattle.bridge_core.specs.declared.lives.TheConstants.{CHANNELS};
ghost use Rattle.session_path.specs.Due.{next_confirm, next_deliver, next_ok, next_return};

use crate::lives::{CHANNELS, Lives};
use crate::paths::Paths;
use crate::sessions::is_flow_owed;
use gate_model::{
    AttachOut, ChannelUnit, LINGER_LIMIT, Life, LinkFlow, Reply, SessionState, SessionUnit, UpUnit,
};
use machine_10::{Conn10, FRAME_MAX, Session};
use session_path::{FlowDue, PathOk};

/// The session of a channel; there is none without a container.
fn session_of(container: &Option<Conn10>, channel: u16) -> Session
    ensures { result ≡ session_in container.now channel }
{
    match container {
        None => Session::Free,
        Some(container) => container.session(channel),
    }
}

/// No session is on a channel from this number on.
pub fn top_of(container: &Option<Conn10>) -> u16
    ensures within { result ≤ CHANNELS }
    ensures free { AreFreeFrom result container.now }
{
    match container {
        None => 0,
        Some(container) => container.top(),
    }
}

/// No session is on a channel.
fn is_free(container: &Option<Conn10>, channel: u16) -> bool
    ensures { result ≡ is_free (session_in container.now channel) }
{
    matches!(session_of(container, channel), Session::Free)
}

/// Nothing of the container is waited for on a channel, while something of the upstream end is or
/// not.
pub fn is_settled_on(settled: bool, container: &Option<Conn10>, channel: u16) -> bool
    ensures { result ≡ is_settled_on settled container.now channel }
{
    settled
        || matches!(
            session_of(container, channel),
            Session::Free | Session::Ended(_)
        )
}

/// A request of a channel waits for the container.
pub fn is_waiting_on(
    closing: bool,
    settled: bool,
    container: &Option<Conn10>,
    paths: &Paths,
    channel: u16,
    life: Life,
) -> bool
    ensures { result ≡ is_waiting_on closing settled container.now paths.now channel life }
{
    !closing
        && (life.waits
            || paths.waits(channel)
            || (life.awaits_end && !is_settled_on(settled, container, channel)))
}

/// A request of some channel waits for the container.
pub fn any_waits(
    lives: &Lives,
    paths: &Paths,
    closing: bool,
    settled: bool,
    container: &Option<Conn10>,
) -> bool
    ensures { result ≡ any_life (is_waiting_on closing settled container.now paths.now) 0
        lives.now }
{
    let all = lives.all();
    let top = lives.top().max(paths.top());
    for i in 0..top {
        if is_waiting_on(closing, settled, container, paths, i, all[i as usize]) {
            return true;
        }
    }
    false
}

/// A unit to the client, if it is due.
pub fn when(due: bool, unit: Reply) -> Option<Reply>
    ensures { result ≡ first (when due unit) }
{
    if due { Some(unit) } else { None }
}

/// A unit to the container, if it is due.
pub fn when_up(due: bool, unit: UpUnit) -> Option<UpUnit>
    ensures { result ≡ first (when_up due unit) }
{
    if due { Some(unit) } else { None }
}

/// The answer to a basic.consume or a queue.declare.
fn is_consume_ok(ok: PathOk) -> bool
    ensures { result ≡ is_consume_ok ok }
{
    matches!(ok, PathOk::Consume(_) | PathOk::Queue)
}

/// A basic.get-empty.
fn is_empty_ok(ok: PathOk) -> bool
    ensures { result ≡ is_empty_ok ok }
{
    matches!(ok, PathOk::Empty(_))
}

/// The answer to a request that needs nothing of the container.
fn is_plain_ok(ok: PathOk) -> bool
    ensures { result ≡ is_plain_ok ok }
{
    match ok {
        PathOk::Flow
        | PathOk::Declare
        | PathOk::Select
        | PathOk::Qos { .. }
        | PathOk::Cancel
        | PathOk::Recover => true,
        PathOk::Consume(_) | PathOk::Queue | PathOk::Get | PathOk::Empty(_) => false,
    }
}

/// The answer that goes on a channel, while it is open, to a request that needs nothing of the
/// container.
pub fn ok_on(life: &Life, paths: &Paths, channel: u16) -> Option<Reply>
    ensures { result ≡ first (oks_on paths.now channel life.now) }
{
    if life.over {
        return None;
    }
    let ok = paths.next_ok(channel)?;
    when(
        is_plain_ok(ok),
        Reply::OnChannel(channel, ChannelUnit::Ok(ok)),
    )
}

/// The basic.consume-ok that goes on a channel, while it is open.
pub fn consume_ok_on(life: &Life, paths: &Paths, channel: u16) -> Option<Reply>
    ensures { result ≡ first (consume_oks_on paths.now channel life.now) }
{
    if life.over {
        return None;
    }
    let ok = paths.next_ok(channel)?;
    when(
        is_consume_ok(ok),
        Reply::OnChannel(channel, ChannelUnit::Ok(ok)),
    )
}

/// A basic.get-empty that goes on a channel.
fn empty_on(paths: &Paths, channel: u16) -> Option<Reply>
    ensures { result ≡ first (empty_on channel (next_ok (path_at paths.now channel))) }
{
    let ok = paths.next_ok(channel)?;
    when(
        is_empty_ok(ok),
        Reply::OnChannel(channel, ChannelUnit::Ok(ok)),
    )
}

/// A basic.get-ok that does.
fn get_ok_on(paths: &Paths, channel: u16) -> Option<Reply>
    ensures { result ≡ first (get_ok_on channel (next_deliver (path_at paths.now channel))) }
{
    let due = paths.next_deliver(channel)?;
    when(
        due.get,
        Reply::OnChannel(channel, ChannelUnit::Deliver(due)),
    )
}

/// The answer to a basic.get that goes on a channel, while it is open.
#[tactic(auto, using(crate::proofs::Firsts::first_some, crate::proofs::Firsts::first_none))]
pub fn get_on(life: &Life, paths: &Paths, channel: u16) -> Option<Reply>
    ensures { result ≡ first (gets_on paths.now channel life.now) }
{
    if life.over {
        return None;
    }
    match empty_on(paths, channel) {
        Some(unit) => Some(unit),
        None => get_ok_on(paths, channel),
    }
}

/// The deliver that goes on a channel, while it is open.
pub fn deliver_on(life: &Life, paths: &Paths, channel: u16) -> Option<Reply>
    ensures { result ≡ first (delivers_on paths.now channel life.now) }
{
    if life.over {
        return None;
    }
    let due = paths.next_deliver(channel)?;
    when(
        !due.get,
        Reply::OnChannel(channel, ChannelUnit::Deliver(due)),
    )
}

/// The frame of a content that goes on a channel, while it is open.
pub fn writing_on(life: &Life, paths: &Paths, channel: u16) -> Option<Reply>
    ensures { result ≡ first (writings_on paths.now channel life.now) }
{
    if life.over {
        return None;
    }
    let due = paths.next_content(channel)?;
    Some(Reply::OnChannel(channel, ChannelUnit::Content(due)))
}

/// Confirms may go on a channel; `all` says that they may where its life goes on.
fn may_confirm(all: bool, life: &Life) -> bool
    ensures { result ≡ may_confirm all life.now }
{
    if life.over { life.by_peer } else { all }
}

/// Frames may that go on with a return.
pub fn may_go_on(all: bool, life: &Life) -> bool
    ensures { result ≡ may_go_on all life.now }
{
    all || (life.over && life.by_peer)
}

/// The confirm that goes on a channel, if one may.
fn confirm_on(may: bool, paths: &Paths, channel: u16) -> Option<Reply>
    ensures { result ≡ first (confirm_on may channel (next_confirm (path_at paths.now channel))) }
{
    if !may {
        return None;
    }
    let confirm = paths.next_confirm(channel)?;
    Some(Reply::OnChannel(channel, ChannelUnit::Confirm(confirm)))
}

/// The frame that goes on with a return of a channel, if one may.
pub fn content_on(may: bool, paths: &Paths, channel: u16) -> Option<Reply>
    ensures { result ≡ first (content_on may channel (next_return (path_at paths.now channel))) }
{
    if !may {
        return None;
    }
    let due = paths.next_return(channel)?;
    when(
        !due.first,
        Reply::OnChannel(channel, ChannelUnit::Return(due)),
    )
}

/// The return that begins on a channel, if one may.
fn return_on(may: bool, paths: &Paths, channel: u16) -> Option<Reply>
    ensures { result ≡ first (return_on may channel (next_return (path_at paths.now channel))) }
{
    if !may {
        return None;
    }
    let due = paths.next_return(channel)?;
    when(
        due.first,
        Reply::OnChannel(channel, ChannelUnit::Return(due)),
    )
}

/// The return that begins on a channel, or else the confirm that goes there.
#[tactic(auto, using(crate::proofs::Firsts::first_some, crate::proofs::Firsts::first_none))]
pub fn outcome_on(life: &Life, paths: &Paths, channel: u16, calm: bool, all: bool) -> Option<Reply>
    ensures { result ≡ first (confirms_on calm all paths.now channel life.now) }
{
    let may = may_confirm(all, life);
    match return_on(calm && may, paths, channel) {
        Some(unit) => Some(unit),
        None => confirm_on(may, paths, channel),
    }
}

/// The begin of a session that goes on a channel.
pub fn begin_on(life: &Life, container: &Option<Conn10>, channel: u16) -> Option<UpUnit>
    ensures { result ≡ first (when_up
        (life.now.begin && is_free (session_in container.now channel)) (up.Begin channel)) }
{
    if life.begin && is_free(container, channel) {
        Some(UpUnit::Begin(channel))
    } else {
        None
    }
}

/// Both begins of a session went, and the gateway's end didn't.
fn is_carried(container: &Option<Conn10>, channel: u16) -> bool
    ensures { result ≡ is_carried (session_in container.now channel) }
{
    matches!(
        session_of(container, channel),
        Session::Open(_) | Session::Ended(_)
    )
}

/// The flow of a session that goes on a channel.
pub fn flow_on(life: &Life, container: &Option<Conn10>, channel: u16) -> Option<UpUnit>
    ensures { result ≡ first (flows_on container.now channel life.now) }
{
    if is_carried(container, channel) && is_flow_owed(life.session) {
        let (incoming, outgoing) = life.session.windows.ids();
        Some(UpUnit::Flow(channel, incoming, outgoing))
    } else {
        None
    }
}

/// The attach of a link that goes on a channel, with the number that its name has.
pub fn attach_on(
    container: &Option<Conn10>,
    paths: &Paths,
    name: u64,
    channel: u16,
) -> Option<UpUnit>
    ensures { result ≡ first (attach_row container.now paths.now name channel no_life) }
{
    if !is_carried(container, channel) {
        return None;
    }
    let due = paths.next_attach(channel)?;
    let attach = AttachOut {
        link: due.link,
        handle: due.handle,
        name,
        receives: due.receives,
    };
    Some(UpUnit::OnSession(channel, SessionUnit::Attach(attach)))
}

/// The flow of a link: one that gives the credit back states none, and a count past it.
fn flow_out(session: SessionState, due: FlowDue) -> LinkFlow
    ensures { result ≡ flow_out session due }
{
    let (incoming, outgoing) = session.windows.ids();
    let (count, credit) = if due.drains {
        (due.count.wrapping_add(due.credit), 0)
    } else {
        (due.count, due.credit)
    };
    LinkFlow {
        link: due.link,
        handle: due.handle,
        incoming,
        outgoing,
        count,
        credit,
        drain: due.draining,
    }
}

/// The flow of a link that goes on a channel.
pub fn link_flow_on(
    life: &Life,
    container: &Option<Conn10>,
    paths: &Paths,
    channel: u16,
) -> Option<UpUnit>
    ensures { result ≡ first (link_flow_row container.now paths.now channel life.now) }
{
    if !is_carried(container, channel) {
        return None;
    }
    let flow = flow_out(life.session, paths.next_flow(channel)?);
    Some(UpUnit::OnSession(channel, SessionUnit::Flow(flow)))
}

/// The greatest frame that a container takes and the gateway sends, in bytes.
fn frame_max(container: &Option<Conn10>) -> u32
    ensures { result ≡ frame_max_in container.now }
{
    match container {
        None => 0,
        Some(container) => container.max_frame().min(FRAME_MAX),
    }
}

/// The frame of a transfer that goes on a channel.
pub fn transfer_on(
    life: &Life,
    container: &Option<Conn10>,
    paths: &Paths,
    channel: u16,
) -> Option<UpUnit>
    ensures { result ≡ first (transfer_row container.now paths.now channel life.now) }
{
    if !is_carried(container, channel) {
        return None;
    }
    let window = life.session.windows.window();
    let transfer = paths.next_transfer(channel, window, frame_max(container))?;
    Some(UpUnit::OnSession(channel, SessionUnit::Transfer(transfer)))
}

/// The disposition of deliveries that goes on a channel.
pub fn disposal_on(container: &Option<Conn10>, paths: &Paths, channel: u16) -> Option<UpUnit>
    ensures { result ≡ first (dispose_row container.now paths.now channel no_life) }
{
    if !is_carried(container, channel) {
        return None;
    }
    let next = paths.next_dispose(channel)?;
    Some(UpUnit::OnSession(channel, SessionUnit::Dispose(next)))
}

/// The disposition that answers one of the container's on a channel.
pub fn settling_on(container: &Option<Conn10>, paths: &Paths, channel: u16) -> Option<UpUnit>
    ensures { result ≡ first (settle_row container.now paths.now channel no_life) }
{
    if !is_carried(container, channel) {
        return None;
    }
    let settling = paths.next_settle(channel)?;
    Some(UpUnit::OnSession(channel, SessionUnit::Settle(settling)))
}

/// The detach that goes on a channel.
pub fn detach_on(container: &Option<Conn10>, paths: &Paths, channel: u16) -> Option<UpUnit>
    ensures { result ≡ first (detach_row container.now paths.now channel no_life) }
{
    if !is_carried(container, channel) {
        return None;
    }
    let unit = paths.next_detach(channel)?;
    Some(UpUnit::OnSession(channel, unit))
}

/// A closing event is so long ago that publishes aren't waited for any more.
pub fn is_long_ago(closed_at: Option<u64>, moment: u64) -> bool
    ensures { result ≡ is_long_ago closed_at moment }
{
    match closed_at {
        None => false,
        Some(at) => LINGER_LIMIT <= moment.saturating_sub(at),
    }
}

/// The gateway's begin of a session went, and no end of either side.
pub fn is_begun(container: &Option<Conn10>, channel: u16) -> bool
    ensures { result ≡ is_begun (session_in container.now channel) }
{
    matches!(
        session_of(container, channel),
        Session::Asked | Session::Open(_)
    )
}

/// The container's end came, and the gateway's didn't go.
pub fn is_ended(container: &Option<Conn10>, channel: u16) -> bool
    ensures { result ≡ is_ended (session_in container.now channel) }
{
    matches!(session_of(container, channel), Session::Ended(_))
}

/// A session is left that began and that the gateway didn't end.
#[tactic(auto, using(crate::proofs::ChannelRows::left_more, crate::proofs::ChannelRows::left_end))]
pub fn any_left(lives: &[Life; CHANNELS], container: &Option<Conn10>) -> bool
    ensures { result ≡ any_life (is_left_on container.now) 0 lives.now }
{
    for i in 0..top_of(container) {
        if is_ended(container, i) || is_begun(container, i) {
            return true;
        }
    }
    false
}
