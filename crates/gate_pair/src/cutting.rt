//! The bytes of each end, cut into units.

ghost use Rattle.std.specs.Prelude.{◌≡◌, ◌≤◌, ◌++◌, false, true, drop, length, OnOk, OnErr};
ghost use Rattle.std.specs.Prelude.{IfOk};
ghost use Rattle.gate_outside.specs.declared.ports.End.TheVariants.{Client, Up};
ghost use Rattle.frames_091.specs.Unread.{left_by};
ghost use Rattle.frames_10.specs.FrameScan.{is_whole};
ghost use Rattle.bridge_core.specs.Offers.{Keeps};
ghost use Rattle.gate_model.specs.State.{Queued, step};
ghost use Rattle.gate_pair.specs.Cutting.{IsLongEnough, IsWithin, cut_all, unit_scan, up_scan};
ghost use Rattle.gate_pair.specs.PairStates.{IsRead, QueuesInPart, Reads, ReadsInPart};
ghost use Rattle.gate_pair.specs.PairStates.{ReadsUpInPart};
ghost use Rattle.gate_pair.specs.PairStates.{Settles, SettlesInPart, StaysSound};

use bridge_core::Bridge;
use close_translate::FRAME_ERROR;
use frames_10::{Kind10, scan_frame10, scan_header10};
use frames_091::Unread91;
use machine_10::{Awaited10, FRAME_MAX, Unit10};
use machine_091::{Awaited91, FRAME_MIN_SIZE, Unit91};
use performatives_10::Condition;
use std::alloc::Global;
use wire_base::{Memory, Scan};

/// The protocol header, with which a client's bytes begin.
fn scan_greeting(
    alloc: Global,
    unread: &mut Unread91,
    bytes: &[u8],
) -> Result<Scan<Unit91, u16>, Memory>
    ensures exact { IfOk result (λ scan.
        scan ≡ unit_scan Awaited91.Header (unread.old ++ bytes.now)) }
    ensures left { IfOk result (λ scan. unread.new ≡ left_by scan unread.old) }
{
    match unread.scan_header(alloc, bytes)? {
        Scan::Whole(_, n) => Ok(Scan::Whole(Unit91::Protocol, n)),
        Scan::More => Ok(Scan::More),
        Scan::Bad(_) => Ok(Scan::Bad(0)),
    }
}

/// The frame with which a client's bytes begin.
fn scan_next(
    alloc: Global,
    unread: &mut Unread91,
    bytes: &[u8],
    size: u32,
) -> Result<Scan<Unit91, u16>, Memory>
    requires { FRAME_MIN_SIZE ≤ size }
    ensures exact { IfOk result (λ scan.
        scan ≡ unit_scan (Awaited91.Frame size) (unread.old ++ bytes.now)) }
    ensures left { IfOk result (λ scan. unread.new ≡ left_by scan unread.old) }
{
    match unread.scan_frame(alloc, bytes, size)? {
        Scan::Whole(frame, n) => Ok(Scan::Whole(Unit91::Frame(frame), n)),
        Scan::More => Ok(Scan::More),
        Scan::Bad(_) => Ok(Scan::Bad(FRAME_ERROR)),
    }
}

/// The unit with which a client's bytes begin, those that are no unit yet and those that came, as
/// one is awaited. What is found is dropped of the first.
fn scan_unit(
    alloc: Global,
    awaited: Awaited91,
    unread: &mut Unread91,
    bytes: &[u8],
) -> Result<Scan<Unit91, u16>, Memory>
    requires { IsLongEnough awaited }
    ensures exact { IfOk result (λ scan. scan ≡ unit_scan awaited (unread.old ++ bytes.now)) }
    ensures within { IfOk result (IsWithin (unread.old ++ bytes.now)) }
    ensures left { IfOk result (λ scan. unread.new ≡ left_by scan unread.old) }
{
    match awaited {
        Awaited91::Header => scan_greeting(alloc, unread, bytes),
        Awaited91::Frame(size) => scan_next(alloc, unread, bytes, size),
        Awaited91::Nothing => Ok(Scan::More),
    }
}

/// The protocol header of this kind, with which a container's bytes begin.
fn scan_greeting_up(bytes: &[u8], kind: Kind10) -> Scan<Unit10, Condition>
    ensures { result ≡ up_scan (Awaited10.Header kind) bytes.now }
{
    match scan_header10(bytes, kind) {
        Scan::Whole(_, n) => Scan::Whole(Unit10::Header(kind), n),
        Scan::More => Scan::More,
        Scan::Bad(_) => Scan::Bad(Condition::FramingError),
    }
}

/// The frame with which a container's bytes begin.
fn scan_next_up(alloc: Global, bytes: &[u8]) -> Result<Scan<Unit10, Condition>, Memory>
    ensures exact { IfOk result (λ scan. scan ≡ up_scan Awaited10.Frame bytes.now) }
    ensures memory { OnErr result (is_whole (up_scan Awaited10.Frame bytes.now) ≡ true) }
{
    match scan_frame10(alloc, bytes, FRAME_MAX)? {
        Scan::Whole(frame, n) => Ok(Scan::Whole(Unit10::Frame(frame), n)),
        Scan::More => Ok(Scan::More),
        Scan::Bad(_) => Ok(Scan::Bad(Condition::FramingError)),
    }
}

/// The unit with which a container's bytes begin, as one is awaited.
#[tactic(auto, using(crate::proofs::Within::up_within))]
fn scan_up(
    alloc: Global,
    awaited: Awaited10,
    bytes: &[u8],
) -> Result<Scan<Unit10, Condition>, Memory>
    ensures exact { IfOk result (λ scan. scan ≡ up_scan awaited bytes.now) }
    ensures within { IfOk result (IsWithin bytes.now) }
    ensures memory { OnErr result (is_whole (up_scan awaited bytes.now) ≡ true) }
{
    match awaited {
        Awaited10::Header(kind) => Ok(scan_greeting_up(bytes, kind)),
        Awaited10::Frame => scan_next_up(alloc, bytes),
        Awaited10::Nothing => Ok(Scan::More),
    }
}

/// Takes up the client's units as long as one can be.
pub fn settle_all(bridge: &mut Bridge, alloc: Global) -> Result<(), Memory>
    requires { bridge.old.state.out_of_memory ≡ false }
    ensures ok { OnOk result (Settles bridge.old.state bridge.new.state) }
    ensures err { OnErr result (SettlesInPart bridge.old.state bridge.new.state) }
    ensures calm { OnOk result (bridge.new.state.out_of_memory ≡ false) }
    ensures met { OnErr result (bridge.new.state.out_of_memory ≡ true) }
    ensures kept { Keeps bridge.old bridge.new }
    ensures sound { StaysSound bridge.old bridge.new }
{
    let count = bridge.queued();
    for i in 0..count {
        match bridge.take_next(alloc) {
            Ok(more) => {
                if !more {
                    return Ok(());
                }
            }
            Err(error) => return Err(error),
        }
    }
    Ok(())
}

/// A unit of the client waits, and what can be taken up is.
fn queue_unit(bridge: &mut Bridge, alloc: Global, unit: Unit91) -> Result<(), Memory>
    requires { bridge.old.state.out_of_memory ≡ false }
    ensures ok { OnOk result (Settles (step bridge.old.state (Queued unit)) bridge.new.state) }
    ensures err { OnErr result (QueuesInPart (Queued unit) bridge.old.state bridge.new.state) }
    ensures calm { OnOk result (bridge.new.state.out_of_memory ≡ false) }
    ensures met { OnErr result (bridge.new.state.out_of_memory ≡ true) }
    ensures kept { Keeps bridge.old bridge.new }
    ensures sound { StaysSound bridge.old bridge.new }
{
    match bridge.client_unit(unit) {
        Ok(()) => match settle_all(bridge, alloc) {
            Ok(()) => Ok(()),
            Err(error) => Err(error),
        },
        Err(error) => Err(error),
    }
}

/// Cuts the client's bytes, with those before them that are no unit yet, into units, and takes up
/// what can be before each and at last. The result is how many bytes were cut off.
#[tactic(auto, using(crate::proofs::Within::long_enough))]
fn cut_units(
    bridge: &mut Bridge,
    alloc: Global,
    unread: &mut Unread91,
    bytes: &[u8],
) -> Result<usize, Memory>
    requires { bridge.old.state.out_of_memory ≡ false }
    ensures ok { IfOk result (λ at. IsRead bridge.old.state
        (cut_all Client bridge.old.state (unread.old ++ bytes.now))
        bridge.new.state (unread.new ++ drop at bytes.now)) }
    ensures within { IfOk result (λ at. at ≤ length bytes.now) }
    ensures err { OnErr result (ReadsInPart Client (unread.old ++ bytes.now)
        bridge.old.state bridge.new.state) }
    ensures calm { OnOk result (bridge.new.state.out_of_memory ≡ false) }
    ensures met { OnErr result (bridge.new.state.out_of_memory ≡ true) }
    ensures kept { Keeps bridge.old bridge.new }
    ensures sound { StaysSound bridge.old bridge.new }
{
    match settle_all(bridge, alloc) {
        Ok(()) => {}
        Err(error) => return Err(error),
    }
    let mut at = 0;
    // There are no more units than bytes. As far as types tell, their number may pass 64 bits.
    let most = unread.len() as u128 + bytes.len() as u128;
    for i in 0..most {
        let kept = unread.len();
        let (_, rest) = bytes.split_at(at);
        match scan_unit(alloc, bridge.awaits(), unread, rest) {
            Ok(Scan::More) => return Ok(at),
            Ok(Scan::Bad(code)) => {
                unread.forget();
                return match queue_unit(bridge, alloc, Unit91::Bad(code)) {
                    Ok(()) => Ok(bytes.len()),
                    Err(error) => Err(error),
                };
            }
            Ok(Scan::Whole(unit, n)) => match queue_unit(bridge, alloc, unit) {
                Ok(()) => at += n.saturating_sub(kept),
                Err(error) => return Err(error),
            },
            Err(error) => {
                bridge.run_out();
                return Err(error);
            }
        }
    }
    Ok(at)
}

/// Cuts the client's bytes, with those before them that are no unit yet, into units, and takes up
/// what can be before each and at last. What is no unit yet stays. If the pair runs out of memory,
/// what was done before that place counts.
pub fn cut_client(
    bridge: &mut Bridge,
    alloc: Global,
    unread: &mut Unread91,
    bytes: &[u8],
) -> Result<(), Memory>
    requires { bridge.old.state.out_of_memory ≡ false }
    ensures ok { OnOk result (IsRead bridge.old.state
        (cut_all Client bridge.old.state (unread.old ++ bytes.now))
        bridge.new.state unread.new) }
    ensures err { OnErr result (ReadsInPart Client (unread.old ++ bytes.now)
        bridge.old.state bridge.new.state) }
    ensures calm { OnOk result (bridge.new.state.out_of_memory ≡ false) }
    ensures met { OnErr result (bridge.new.state.out_of_memory ≡ true) }
    ensures kept { Keeps bridge.old bridge.new }
    ensures sound { StaysSound bridge.old bridge.new }
{
    match cut_units(bridge, alloc, unread, bytes) {
        Ok(at) => {
            let (_, rest) = bytes.split_at(at);
            match unread.append(rest) {
                Ok(()) => Ok(()),
                Err(error) => {
                    bridge.run_out();
                    Err(error)
                }
            }
        }
        Err(error) => Err(error),
    }
}

/// The same of the container's bytes. If the pair runs out of memory, then at a unit, which doesn't
/// count.
pub fn cut_up(bridge: &mut Bridge, alloc: Global, bytes: &[u8]) -> Result<usize, Memory>
    requires { bridge.old.state.out_of_memory ≡ false }
    ensures ok { IfOk result (λ at. Reads Up bytes.now at bridge.old.state bridge.new.state) }
    ensures within { IfOk result (λ at. at ≤ length bytes.now) }
    ensures err { OnErr result (ReadsUpInPart bytes.now bridge.old.state bridge.new.state) }
    ensures calm { OnOk result (bridge.new.state.out_of_memory ≡ false) }
    ensures met { OnErr result (bridge.new.state.out_of_memory ≡ true) }
    ensures kept { Keeps bridge.old bridge.new }
    ensures sound { StaysSound bridge.old bridge.new }
{
    let mut at = 0;
    let count = bytes.len();
    for i in 0..count {
        let (_, rest) = bytes.split_at(at);
        match scan_up(alloc, bridge.awaits_up(), rest) {
            Ok(Scan::More) => return Ok(at),
            Ok(Scan::Bad(why)) => {
                let answer = bridge.up_unit(alloc, &Unit10::Bad(why));
                return match answer {
                    Ok(()) => Ok(count),
                    Err(error) => Err(error),
                };
            }
            Ok(Scan::Whole(unit, n)) => match bridge.up_unit(alloc, &unit) {
                Ok(()) => at += n,
                Err(error) => return Err(error),
            },
            Err(error) => {
                bridge.run_out();
                return Err(error);
            }
        }
    }
    Ok(at)
}
