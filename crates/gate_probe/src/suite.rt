//! The suite: frames of both protocols, read whole and in part, and written again.

ghost use Rattle.std.specs.Prelude.{◌≡◌, ℕ, ◌<◌, ◌≤◌, ◌++◌, true, length, take, IfOk, IfSome};
ghost use Rattle.std.specs.List.{AllByRecursion};
ghost use Rattle.frames_091.specs.Frames.{frame_text};
ghost use Rattle.frames_10.specs.Frames as texts_10;
ghost use Rattle.performatives_10.specs.Writing.{perf_text};
ghost use Rattle.gate_probe.specs.Passing.{IsMethodAgain, IsBodyAgain, IsReadBack};
ghost use Rattle.gate_probe.specs.Passing.{IsCutOff, IsPassing};

use crate::frames;
use crate::frames::bytes_of;
use frames_10::{Frame10, put_frame10, scan_frame10};
use frames_091::{Frame91, put_frame, scan_frame};
use methods_091::{put_method, read_method};
use performatives_10::{Perf, has_text, put_perf, read_perf};
use std::alloc::Global;
use wire_base::{ByteText, Memory, Scan};

/// The largest frame that a client is granted, in bytes.
pub const FRAME_MAX: u32 = 131_072;

/// The largest frame that is taken from a container, in bytes.
pub const MAX_FRAME_SIZE: u32 = 65_536;

/// The bytes of a frame that is written are fewer.
const WRITABLE: usize = 4_294_967_288;

/// The protocol that a frame is of.
#[derive(Clone, Copy)]
pub enum Protocol {
    Amqp091,
    Amqp10,
}

/// A frame of the suite.
#[derive(Drop)]
pub struct Sample {
    pub protocol: Protocol,
    pub bytes: ByteText,
}

/// Those of AMQP 0-9-1.
const SAMPLES_091: [&str; 11] = [
    frames::START,
    frames::TUNE,
    frames::OPEN_OK,
    frames::CHANNEL_OPEN,
    frames::CHANNEL_OPEN_OK,
    frames::CHANNEL_ERROR,
    frames::NACK,
    frames::DELIVER,
    frames::PRECONDITION_FAILED,
    frames::GET_EMPTY,
    frames::CONNECTION_FORCED,
];

/// Those of AMQP 1.0.
const SAMPLES_10: [&str; 12] = [
    frames::SASL_INIT,
    frames::OPEN,
    frames::BEGIN,
    frames::ATTACH,
    frames::TRANSFER,
    frames::CREDIT,
    frames::NO_CREDIT,
    frames::ACCEPTED,
    frames::BOTH_ACCEPTED,
    frames::GET_ONE,
    frames::END,
    frames::CLOSE,
];

/// Adds the frames of a protocol.
fn add_samples(
    alloc: Global,
    samples: &mut Vec<Sample>,
    protocol: Protocol,
    texts: &[&str],
) -> Result<(), Memory> {
    for digits in texts {
        let bytes = bytes_of(alloc, digits)?;
        samples.push(Sample { protocol, bytes })?;
    }
    Ok(())
}

/// The frames of the suite.
pub fn samples(alloc: Global) -> Result<Vec<Sample>, Memory> {
    let mut samples = Vec::new(alloc);
    add_samples(alloc, &mut samples, Protocol::Amqp091, &SAMPLES_091)?;
    add_samples(alloc, &mut samples, Protocol::Amqp10, &SAMPLES_10)?;
    Ok(samples)
}

/// Whether more bytes are waited for.
fn is_cut_off(alloc: Global, protocol: Protocol, bytes: &[u8]) -> Result<bool, Memory>
    ensures { IfOk result (λ is. is ≡ true → IsCutOff protocol bytes.now) }
{
    match protocol {
        Protocol::Amqp091 => {
            let scan = scan_frame(alloc, bytes, FRAME_MAX)?;
            Ok(matches!(scan, Scan::More))
        }
        Protocol::Amqp10 => {
            let scan = scan_frame10(alloc, bytes, MAX_FRAME_SIZE)?;
            Ok(matches!(scan, Scan::More))
        }
    }
}

/// Whether they are at each shorter length.
fn are_shorter_cut_off(alloc: Global, protocol: Protocol, bytes: &[u8]) -> Result<bool, Memory>
    ensures { IfOk result (λ are. are ≡ true
        → (n : ℕ) → n < length bytes.now → IsCutOff protocol (take n bytes.now)) }
{
    for size in 0..bytes.len() {
        if !is_cut_off(alloc, protocol, &bytes[..size])? {
            return Ok(false);
        }
    }
    Ok(true)
}

/// What is written of the method that a payload spells, if it spells one.
#[tactic(auto, using(crate::proofs::Passing::is_method_again))]
fn method_again(alloc: Global, payload: &[u8]) -> Result<Option<ByteText>, Memory>
    ensures { IfOk result (λ again. IfSome again (IsMethodAgain payload.now)) }
{
    let Ok(method) = read_method(alloc, payload)? else {
        return Ok(None);
    };
    let mut text = ByteText::empty(alloc);
    let put = put_method(&mut text, &method);
    drop(method);
    put?;
    Ok(Some(text))
}

/// What is written of a performative, if it has a spelling, and then these bytes.
fn perf_and(alloc: Global, perf: &Perf, payload: &[u8]) -> Result<Option<ByteText>, Memory>
    ensures { IfOk result (λ text. IfSome text (λ text. text ≡ perf_text perf.now ++ payload.now)) }
{
    if !has_text(alloc, perf)? {
        return Ok(None);
    }
    let mut text = ByteText::empty(alloc);
    put_perf(alloc, &mut text, perf)?;
    text.append(payload)?;
    Ok(Some(text))
}

/// What is written of the performative with which a body begins, if it does, and of what follows.
#[tactic(auto, using(crate::proofs::Passing::is_body_again))]
fn body_again(alloc: Global, body: &[u8]) -> Result<Option<ByteText>, Memory>
    ensures { IfOk result (λ again. IfSome again (IsBodyAgain body.now)) }
{
    let Ok((perf, after)) = read_perf(alloc, body)? else {
        return Ok(None);
    };
    let text = match body.get(after..) {
        Some(payload) => perf_and(alloc, &perf, payload),
        None => Ok(None),
    };
    drop(perf);
    text
}

/// Whether a frame with this payload is spelled so.
fn is_spelled(alloc: Global, frame: &Frame91, bytes: &[u8]) -> Result<bool, Memory>
    ensures { IfOk result (λ is. is ≡ true → bytes.now ≡ frame_text frame.now) }
{
    if frame.payload.as_slice().len() >= WRITABLE {
        return Ok(false);
    }
    let mut text = ByteText::empty(alloc);
    put_frame(&mut text, frame)?;
    Ok(text.as_slice() == bytes)
}

/// The same of AMQP 1.0.
fn is_spelled10(alloc: Global, frame: &Frame10, bytes: &[u8]) -> Result<bool, Memory>
    ensures { IfOk result (λ is. is ≡ true → bytes.now ≡ texts_10.frame_text frame.now) }
{
    if frame.body.as_slice().len() >= WRITABLE {
        return Ok(false);
    }
    let mut text = ByteText::empty(alloc);
    put_frame10(&mut text, frame)?;
    Ok(text.as_slice() == bytes)
}

/// Whether bytes are those of one frame of AMQP 0-9-1 and are written of it again.
#[tactic(auto, using(crate::proofs::Passing::is_read_back091))]
fn is_read_back091(alloc: Global, bytes: &[u8]) -> Result<bool, Memory>
    ensures { IfOk result (λ is. is ≡ true → IsReadBack Protocol.Amqp091 bytes.now) }
{
    let Scan::Whole(mut frame, size) = scan_frame(alloc, bytes, FRAME_MAX)? else {
        return Ok(false);
    };
    if size != bytes.len() {
        return Ok(false);
    }
    let Some(payload) = method_again(alloc, frame.payload.as_slice())? else {
        return Ok(false);
    };
    frame.payload = payload;
    let is_written = is_spelled(alloc, &frame, bytes)?;
    Ok(is_written)
}

/// The same of AMQP 1.0.
#[tactic(auto, using(crate::proofs::Passing::is_read_back10))]
fn is_read_back10(alloc: Global, bytes: &[u8]) -> Result<bool, Memory>
    ensures { IfOk result (λ is. is ≡ true → IsReadBack Protocol.Amqp10 bytes.now) }
{
    let Scan::Whole(mut frame, size) = scan_frame10(alloc, bytes, MAX_FRAME_SIZE)? else {
        return Ok(false);
    };
    if size != bytes.len() {
        return Ok(false);
    }
    let Some(body) = body_again(alloc, frame.body.as_slice())? else {
        return Ok(false);
    };
    frame.body = body;
    let is_written = is_spelled10(alloc, &frame, bytes)?;
    Ok(is_written)
}

/// Whether a frame is read whole and written again equal, and each shorter length is cut off.
fn passes(alloc: Global, sample: &Sample) -> Result<bool, Memory>
    ensures { IfOk result (λ passes. passes ≡ true → IsPassing sample.now) }
{
    let bytes = sample.bytes.as_slice();
    let is_read_back = match sample.protocol {
        Protocol::Amqp091 => is_read_back091(alloc, bytes)?,
        Protocol::Amqp10 => is_read_back10(alloc, bytes)?,
    };
    Ok(is_read_back && are_shorter_cut_off(alloc, sample.protocol, bytes)?)
}

/// How many frames are read whole and written again equal, and are cut off at each shorter length.
///
/// # Errors
///
/// `Memory` where the allocator has no room.
pub fn count_passing(alloc: Global, samples: &[Sample]) -> Result<usize, Memory>
    ensures most { IfOk result (λ count. count ≤ length samples.now) }
    ensures all { IfOk result (λ count. count ≡ length samples.now
        → AllByRecursion IsPassing samples.now) }
{
    let mut count = 0;
    for sample in samples {
        if passes(alloc, sample)? {
            count += 1;
        }
    }
    Ok(count)
}
