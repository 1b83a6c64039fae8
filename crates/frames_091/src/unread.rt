//! The bytes of a stream that are no frame yet.

ghost use Rattle.std.specs.Prelude.{◌≡◌, ℕ, ◌+◌, ◌≤◌, List, [], ◌++◌, length, take, drop, IfOk};
ghost use Rattle.std.specs.Prelude.{OnOk, OnErr, slice_index};
ghost use Rattle.frames_091.specs.FrameScan.{frame_in, scan_of, stated_size};
ghost use Rattle.frames_091.specs.Headers.{header_scan};
ghost use Rattle.frames_091.specs.Unread.{left_by};

use crate::frame::{Frame91, FrameFault, Kind91};
use crate::header::{NotHeader, scan_header};
use crate::scanning::{FRAME_END, bad, byte_or_zero, kind_at};
use std::alloc::Global;
use std::marker::Model;
use std::mem;
use wire_base::{At, ByteText, Memory, Scan};

/// How many bytes of a frame stand before its payload: its kind, its channel and its size (AMQP
/// 0-9-1 4.2.3).
const HEAD: usize = 7;

/// How many bytes the protocol header has (AMQP 0-9-1 4.2.2).
const HEADER_SIZE: usize = 8;

/// The bytes of a stream that are no frame yet. Contracts see the list of them. The payload of a
/// frame that comes in parts grows where it stays, and is moved into its frame.
#[derive(Debug, Drop)]
pub struct Unread91 {
    /// Those before a payload, or as many of them as there are.
    head: ByteText,
    /// Those behind them.
    behind: ByteText,
}

impl Model for Unread91 {
    ghost use Rattle.std.specs.Prelude.{ℕ, ◌++◌, List};
    ghost use Rattle.frames_091.specs.Unread.{AreSplit};

    ghost Value = { List ℕ };

    ghost view = { λ a. a.head ++ a.behind };

    ghost invariant = { λ a. AreSplit a.head a.behind };
}

impl Unread91 {
    /// No bytes.
    pub fn empty(alloc: Global) -> Unread91
        ensures { result ≡ [] }
    {
        Unread91 {
            head: ByteText::empty(alloc),
            behind: ByteText::empty(alloc),
        }
    }

    /// How many bytes there are.
    pub fn len(&self) -> usize
        ensures { result ≡ length self.now }
    {
        self.head.as_slice().len() + self.behind.as_slice().len()
    }

    /// Drops them.
    pub fn forget(&mut self)
        ensures { self.new ≡ [] }
    {
        self.behind.truncate(0);
        self.head.truncate(0);
    }

    /// Adds bytes behind them, or leaves them as they were.
    pub fn append(&mut self, bytes: &[u8]) -> Result<(), Memory>
        ensures ok { OnOk result (self.new ≡ self.old ++ bytes.now) }
        ensures err { OnErr result (self.new ≡ self.old) }
    {
        let had = self.head.as_slice().len();
        let (front, back) = bytes.split_at(bytes.len().min(HEAD - had));
        self.head.append(front)?;
        let added = self.behind.append(back);
        if added.is_err() {
            self.head.truncate(had);
        }
        added
    }

    /// Drops the first `count` of them, or all where there are fewer.
    fn discard(&mut self, alloc: Global, count: usize) -> Result<(), Memory>
        ensures ok { OnOk result (self.new ≡ drop count self.old) }
        ensures err { OnErr result (self.new ≡ self.old) }
    {
        if count >= self.len() {
            self.forget();
            return Ok(());
        }
        let mut text = self.head.copy(alloc)?;
        text.append(self.behind.as_slice())?;
        text.discard(count);
        let mut left = Unread91::empty(alloc);
        left.append(text.as_slice())?;
        *self = left;
        Ok(())
    }

    /// The byte at this place of them and the bytes behind them, or 0 where there is none.
    fn byte_at(&self, bytes: &[u8], at: usize) -> u8
        ensures { result ≡ slice_index (self.now ++ bytes.now) at }
    {
        let head = self.head.as_slice();
        if at < head.len() {
            return byte_or_zero(head, at);
        }
        let behind = self.behind.as_slice();
        let at = at - head.len();
        if at < behind.len() {
            return byte_or_zero(behind, at);
        }
        byte_or_zero(bytes, at - behind.len())
    }

    /// The size that the frame states with which they and the bytes behind them begin.
    #[tactic(auto, unfolding(crate::specs::FrameScan::stated_size))]
    fn stated_size(&self, bytes: &[u8]) -> u32
        ensures { result ≡ stated_size (self.now ++ bytes.now) }
    {
        u32::from_be_bytes([
            self.byte_at(bytes, 3),
            self.byte_at(bytes, 4),
            self.byte_at(bytes, 5),
            self.byte_at(bytes, 6),
        ])
    }

    /// Takes out the payload of the whole frame with which they and the bytes behind them begin.
    #[tactic(auto, using(crate::proofs::PayloadParts::payload_behind, crate::proofs::PayloadParts::payload_kept, crate::proofs::PayloadParts::payload_grown))]
    fn take_payload(&mut self, alloc: Global, bytes: &[u8], size: usize) -> Result<ByteText, Memory>
        requires { size + 8 ≤ length (self.old ++ bytes.now) }
        ensures payload { IfOk result (λ payload.
            payload ≡ take size (drop 7 (self.old ++ bytes.now))) }
        ensures left { OnOk result (self.new ≡ drop (size + 8) self.old) }
        ensures err { OnErr result (self.new ≡ self.old) }
    {
        let head = self.head.as_slice().len();
        let behind = self.behind.as_slice();
        if head < HEAD {
            let start = HEAD - head;
            let payload = ByteText::copy_of(alloc, &bytes[start..start + size])?;
            self.forget();
            return Ok(payload);
        }
        if behind.len() > size {
            let payload = ByteText::copy_of(alloc, &behind[..size])?;
            self.discard(alloc, size + 8)?;
            return Ok(payload);
        }
        let missing = size - behind.len();
        self.behind.append(&bytes[..missing])?;
        let payload = mem::replace(&mut self.behind, ByteText::empty(alloc));
        self.forget();
        Ok(payload)
    }

    /// Takes out the whole frame of this kind with which they and the bytes behind them begin.
    #[tactic(auto, unfolding(crate::specs::FrameScan::frame_in))]
    fn take_frame(
        &mut self,
        alloc: Global,
        bytes: &[u8],
        kind: Kind91,
        size: usize,
    ) -> Result<Frame91, Memory>
        requires stated { size ≡ stated_size (self.old ++ bytes.now) }
        requires whole { size + 8 ≤ length (self.old ++ bytes.now) }
        ensures frame { IfOk result (λ frame. frame ≡ frame_in kind (self.old ++ bytes.now)) }
        ensures left { OnOk result (self.new ≡ drop (size + 8) self.old) }
        ensures err { OnErr result (self.new ≡ self.old) }
    {
        let channel = u16::from_be_bytes([self.byte_at(bytes, 1), self.byte_at(bytes, 2)]);
        let payload = self.take_payload(alloc, bytes, size)?;
        Ok(Frame91 {
            kind,
            channel,
            payload,
        })
    }

    /// Scans the first frame of them and the bytes behind them (AMQP 0-9-1 4.2.3), as `scan_frame`
    /// does where all are in one piece. What is found is dropped of them. `Memory` says that there
    /// was no room for a payload, or for what stays of them.
    #[tactic(auto, unfolding(crate::specs::FrameScan::scan_of))]
    pub fn scan_frame(
        &mut self,
        alloc: Global,
        bytes: &[u8],
        frame_max: u32,
    ) -> Result<Scan<Frame91, At<FrameFault>>, Memory>
        requires { 4096 ≤ frame_max }
        ensures exact { IfOk result (λ scan. scan ≡ scan_of frame_max (self.old ++ bytes.now)) }
        ensures left { IfOk result (λ scan. self.new ≡ left_by scan self.old) }
        ensures err { OnErr result (self.new ≡ self.old) }
    {
        let kept = self.len();
        if kept == 0 && bytes.is_empty() {
            return Ok(Scan::More);
        }
        let Some(kind) = kind_at(self.byte_at(bytes, 0)) else {
            return Ok(bad(FrameFault::Kind, 0));
        };
        let size = self.stated_size(bytes) as usize;
        let whole = size + 8;
        if whole > frame_max as usize {
            return Ok(bad(FrameFault::Size, 3));
        }
        if bytes.len() < whole.saturating_sub(kept) {
            return Ok(Scan::More);
        }
        if self.byte_at(bytes, 7 + size) != FRAME_END {
            return Ok(bad(FrameFault::End, 7 + size));
        }
        let frame = self.take_frame(alloc, bytes, kind, size)?;
        Ok(Scan::Whole(frame, whole))
    }

    /// Scans the protocol header with which they and the bytes behind them begin (AMQP 0-9-1
    /// 4.2.2), as `scan_header` does all in one piece. What is found is dropped of them. `Memory`
    /// says that there was no room to put its bytes together, or for what stays of them.
    #[tactic(auto, using(crate::proofs::HeaderLaws::first_tell))]
    pub fn scan_header(
        &mut self,
        alloc: Global,
        bytes: &[u8],
    ) -> Result<Scan<(), At<NotHeader>>, Memory>
        ensures exact { IfOk result (λ scan. scan ≡ header_scan (self.old ++ bytes.now)) }
        ensures left { IfOk result (λ scan. self.new ≡ left_by scan self.old) }
        ensures err { OnErr result (self.new ≡ self.old) }
    {
        if self.len() == 0 {
            return Ok(scan_header(bytes));
        }
        let mut text = self.head.copy(alloc)?;
        text.append(self.behind.as_slice())?;
        text.append(&bytes[..bytes.len().min(HEADER_SIZE)])?;
        let scan = scan_header(text.as_slice());
        if let Scan::Whole((), count) = scan {
            self.discard(alloc, count)?;
        }
        Ok(scan)
    }
}
