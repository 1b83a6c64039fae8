//! A source and a sink in memory, which fail at the calls that a list names.

ghost use Rattle.std.specs.Prelude.{◌≡◌, ◌+◌, ◌<◌, ◌≤◌, [], length, IfOk};
ghost use Rattle.gate_outside.specs.Counts.{Rose};
ghost use Rattle.gate_outside.specs.Streams.{Appends, SinksSome, sunk_bytes, DrawsInto, Draws};
ghost use Rattle.gate_outside.specs.MemoryStreams.{draw_answer, after_draw, sink_answer};
ghost use Rattle.gate_outside.specs.MemoryStreams.{after_sink};

use crate::calls::{CallList, Calls};
use crate::copying::copy_front;
use crate::reserved::append_reserved;
use crate::streams::{Drawn, Sink, Source, Sunk};
use std::alloc::Global;
use std::marker::Model;
use wire_base::{ByteText, Memory};

/// A source that gives bytes from memory.
#[derive(Debug, Drop)]
pub struct MemorySource {
    bytes: ByteText,
    at: usize,
    calls: Calls,
}

impl Model for MemorySource {
    ghost use Rattle.std.specs.Prelude.{◌≤◌, length, drop};
    ghost use Rattle.gate_outside.specs.MemoryStreams.{SourceState};

    ghost Value = { SourceState };

    ghost view = { λ a. record { left = drop a.at a.bytes; calls = a.calls } };

    ghost invariant = { λ a. a.at ≤ length a.bytes };
}

impl MemorySource {
    /// A source that gives these bytes. It fails at the calls with these numbers, which count from
    /// 0.
    pub fn new(bytes: ByteText, fails: CallList) -> MemorySource
        ensures { result
            ≡ record { left = bytes; calls = record { fails = fails; call = 0; faults = 0 } } }
    {
        MemorySource {
            bytes,
            at: 0,
            calls: Calls::new(fails),
        }
    }
}

impl Source for MemorySource {
    ghost use Rattle.std.specs.Prelude.{Some};

    ghost faults = { λ source. source.calls.faults };

    ghost left = { λ source. Some source.left };

    fn read(&mut self, buf: &mut [u8]) -> Drawn
        requires { 0 < length buf.old }
        ensures later { self.old.calls.faults ≤ self.new.calls.faults }
        ensures cause { result ≡ Drawn.Failed → Rose self.old.calls.faults self.new.calls.faults }
        ensures bytes { DrawsInto result buf.old buf.new }
        ensures left { Draws result buf.new (Some self.old.left) (Some self.new.left) }
        ensures answer { result ≡ draw_answer (length buf.old) self.old }
        ensures goes { self.new ≡ after_draw result self.old }
    {
        if self.calls.fails() {
            return Drawn::Failed;
        }
        let (_, rest) = self.bytes.as_slice().split_at(self.at);
        if rest.is_empty() {
            return Drawn::Ended;
        }
        let count = copy_front(buf, rest);
        self.at += count;
        Drawn::Bytes(count)
    }
}

/// A sink that holds bytes in memory that was reserved when it was made.
#[derive(Debug, Drop)]
pub struct MemorySink {
    bytes: Vec<u8>,
    room: usize,
    calls: Calls,
}

impl Model for MemorySink {
    ghost use Rattle.std.specs.Prelude.{◌+◌, ◌≤◌, vec_len, vec_capacity};
    ghost use Rattle.gate_outside.specs.MemoryStreams.{SinkState};

    ghost Value = { SinkState };

    ghost view = { λ a. record { held = a.bytes.items; room = a.room; calls = a.calls } };

    ghost invariant = { λ a. vec_len a.bytes + a.room ≤ vec_capacity a.bytes };
}

impl MemorySink {
    /// A sink with room for so many bytes. It fails at the calls with these numbers, which count
    /// from 0.
    pub fn new(alloc: Global, room: usize, fails: CallList) -> Result<MemorySink, Memory>
        ensures { IfOk result (λ sink. sink ≡ record {
          held = [];
          room = room;
          calls = record { fails = fails; call = 0; faults = 0 };
        }) }
    {
        let bytes = Vec::with_capacity(alloc, room)?;
        Ok(MemorySink {
            bytes,
            room,
            calls: Calls::new(fails),
        })
    }

    /// The bytes that it took.
    pub fn held(&self) -> &[u8]
        ensures { result.now ≡ self.now.held }
    {
        self.bytes.as_slice()
    }
}

impl Sink for MemorySink {
    ghost use Rattle.std.specs.Prelude.{Some};

    ghost faults = { λ sink. sink.calls.faults };

    ghost held = { λ sink. Some sink.held };

    fn write(&mut self, bytes: &[u8]) -> Sunk
        requires { 0 < length bytes.now }
        ensures later { self.old.calls.faults ≤ self.new.calls.faults }
        ensures cause { result ≡ Sunk.Failed → Rose self.old.calls.faults self.new.calls.faults }
        ensures taken { SinksSome result (length bytes.now) }
        ensures held { Appends (Some self.old.held) (Some self.new.held)
            (sunk_bytes result bytes.now) }
        ensures answer { result ≡ sink_answer (length bytes.now) self.old }
        ensures goes { self.new ≡ after_sink result bytes.now self.old }
    {
        if self.calls.fails() {
            return Sunk::Failed;
        }
        if self.room == 0 {
            self.calls.fault();
            return Sunk::Failed;
        }
        let count = bytes.len().min(self.room);
        let (part, _) = bytes.split_at(count);
        append_reserved(&mut self.bytes, part);
        self.room -= count;
        Sunk::Took(count)
    }
}
