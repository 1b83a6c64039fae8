//! Sources and sinks over files and standard streams. They tell nothing of what is left or held.

ghost use Rattle.std.specs.Prelude.{◌≡◌, ◌<◌, ◌≤◌, length, drop, vec_len};
ghost use Rattle.std.specs.Prelude.{IfOk, IfSome, IfNone, None};
ghost use Rattle.gate_edge.specs.Streams.{SomeRead, SomeWrite};
ghost use Rattle.gate_ends.specs.declared.pieces.TheConstants.{PIECE};

use crate::faults::raise;
use gate_ends::{PIECE, read_into};
use gate_outside::{Drawn, Sink, Source, Sunk};
use std::alloc::Global;
use std::io::{ErrorKind, Read, Write};
use wire_base::Memory;

/// A first call, and 1,000 more where each was interrupted.
const CALLS: u32 = 1_001;

/// A source over a reader.
#[derive(Drop)]
pub struct ReaderSource<R: Read> {
    reader: R,
    piece: Vec<u8>,
    faults: u64,
    // A read into no room would look like the end of the input.
    ghost has_piece: { vec_len piece ≡ PIECE },
}

impl<R: Read + Drop> ReaderSource<R> {
    /// A source that has not failed. Without memory the reader is dropped.
    pub fn new(alloc: Global, reader: R) -> Result<ReaderSource<R>, Memory>
        ensures faults { IfOk result (λ source. ⟦<ReaderSource<R> as Source>⟧.faults source ≡ 0) }
        ensures left { IfOk result (λ source. ⟦<ReaderSource<R> as Source>⟧.left source ≡ None) }
    {
        Ok(ReaderSource {
            reader,
            piece: vec![in alloc; 0; PIECE]?,
            faults: 0,
        })
    }
}

impl<R: Read> Source for ReaderSource<R> {
    ghost faults = { λ source. source.faults };

    ghost left = { λ _. None };

    fn read(&mut self, buf: &mut [u8]) -> Drawn {
        match read_some(&mut self.reader, &mut self.piece, buf) {
            Some(0) => Drawn::Ended,
            Some(n) => Drawn::Bytes(n),
            None => {
                raise(&mut self.faults);
                Drawn::Failed
            }
        }
    }
}

/// One read, which is made again while it is interrupted. The bytes in the buffer are those that
/// the reader gave.
fn read_some<R: Read>(reader: &mut R, piece: &mut [u8], buf: &mut [u8]) -> Option<usize>
    requires piece { 0 < length piece.old }
    ensures bytes { SomeRead result buf.new (R.remaining reader.old) (R.remaining reader.new) }
    ensures room { IfSome result (λ n. n ≤ length buf.old) }
    ensures rest { IfSome result (λ n. drop n buf.new ≡ drop n buf.old) }
    ensures none { IfNone result (buf.new ≡ buf.old) }
{
    for _ in 0..CALLS {
        match read_into(reader, piece, buf) {
            Ok(n) => return Some(n),
            Err(error) if error.kind() == ErrorKind::Interrupted => {}
            Err(_) => return None,
        }
    }
    None
}

/// A sink over a writer.
#[derive(Drop)]
pub struct WriterSink<W: Write> {
    writer: W,
    faults: u64,
}

impl<W: Write> WriterSink<W> {
    /// A sink that has not failed.
    pub fn new(writer: W) -> WriterSink<W>
        ensures faults { ⟦<WriterSink<W> as Sink>⟧.faults result ≡ 0 }
        ensures held { ⟦<WriterSink<W> as Sink>⟧.held result ≡ None }
    {
        WriterSink { writer, faults: 0 }
    }
}

impl<W: Write> Sink for WriterSink<W> {
    ghost faults = { λ sink. sink.faults };

    ghost held = { λ _. None };

    fn write(&mut self, bytes: &[u8]) -> Sunk {
        match write_some(&mut self.writer, bytes) {
            Some(n) if n > 0 => Sunk::Took(n),
            Some(_) | None => {
                raise(&mut self.faults);
                Sunk::Failed
            }
        }
    }
}

/// The count of the bytes that one write took.
fn write_some<W: Write>(writer: &mut W, bytes: &[u8]) -> Option<usize>
    ensures count { IfSome result (λ n. n ≤ length bytes.now) }
    ensures bytes { SomeWrite result bytes.now (W.contents writer.old) (W.contents writer.new) }
{
    for _ in 0..CALLS {
        match writer.write(bytes) {
            Ok(n) => return Some(n),
            Err(error) if error.kind() == ErrorKind::Interrupted => {}
            Err(_) => return None,
        }
    }
    None
}
