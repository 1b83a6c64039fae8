//! The pieces of a script: what reads give.

ghost use Rattle.std.specs.Prelude.{◌≡◌, ◌<◌, length, IfOk, position};
ghost use Rattle.gate_outside.specs.Ends.{ReadsInto, got_bytes};
ghost use Rattle.gate_outside.specs.Script.{is_left, current_piece, piece_answer, piece_after};
ghost use Rattle.gate_outside.specs.Script.{pieces_answer, pieces_after, bytes_of};

use crate::copying::copy_front;
use crate::ports::{End, Got};
use std::alloc::Global;
use std::marker::Model;
use wire_base::{ByteText, ItemList, Memory};

/// Bytes that reads at an end give, once `after` bytes were taken at that end and its earlier
/// pieces are used up. Where
/// `ends` is set, the read after the last of the bytes answers `Ended`.
#[derive(Debug, Drop)]
pub struct Piece {
    pub pair: u32,
    pub end: End,
    pub after: u64,
    pub bytes: ByteText,
    pub ends: bool,
}

/// A list of pieces.
pub type Pieces = ItemList<Piece>;

/// What is left of a piece: a piece with the bytes that have not come yet.
#[derive(Debug, Drop)]
struct PieceLeft {
    pair: u32,
    end: End,
    after: u64,
    bytes: ByteText,
    used: usize,
    ends: bool,
}

impl Model for PieceLeft {
    ghost use Rattle.std.specs.Prelude.{◌≤◌, length, drop};
    ghost use Rattle.gate_outside.specs.declared.pieces.Piece.{Piece};

    ghost Value = { Piece };

    ghost view = { λ a. record {
      pair = a.pair;
      end = a.end;
      after = a.after;
      bytes = drop a.used a.bytes;
      ends = a.ends;
    } };

    ghost invariant = { λ a. a.used ≤ length a.bytes };
}

impl PieceLeft {
    fn copy_of(alloc: Global, piece: &Piece) -> Result<PieceLeft, Memory>
        ensures { IfOk result (λ left. left ≡ piece.now) }
    {
        let bytes = piece.bytes.copy(alloc)?;
        Ok(PieceLeft {
            pair: piece.pair,
            end: piece.end,
            after: piece.after,
            bytes,
            used: 0,
            ends: piece.ends,
        })
    }

    fn is_left(&self, pair: u32, end: End) -> bool
        ensures { result ≡ is_left pair end self.now }
    {
        let (_, rest) = self.bytes.as_slice().split_at(self.used);
        self.pair == pair && self.end == end && (!rest.is_empty() || self.ends)
    }

    /// Answers a read, where so many bytes were taken at the end.
    fn read(&mut self, taken: u64, buf: &mut [u8]) -> Got
        requires { 0 < length buf.old }
        ensures answer { result ≡ piece_answer (length buf.old) taken self.old }
        ensures goes { self.new ≡ piece_after result self.old }
        ensures bytes { ReadsInto result buf.old buf.new }
        ensures came { got_bytes result buf.new ≡ got_bytes result self.old.bytes }
    {
        if taken < self.after {
            return Got::NotYet;
        }
        let (_, rest) = self.bytes.as_slice().split_at(self.used);
        if rest.is_empty() {
            self.ends = false;
            return Got::Ended;
        }
        let count = copy_front(buf, rest);
        self.used += count;
        Got::Bytes(count)
    }
}

/// What is left of the pieces of a script.
#[derive(Debug, Drop)]
pub struct PiecesLeft {
    pieces: Vec<PieceLeft>,
}

impl Model for PiecesLeft {
    ghost use Rattle.std.specs.Prelude.{List};
    ghost use Rattle.gate_outside.specs.declared.pieces.Piece.{Piece};

    ghost Value = { List Piece };

    ghost view = { λ a. a.pieces.items };
}

impl PiecesLeft {
    /// All of the pieces.
    pub fn new(alloc: Global, pieces: &Pieces) -> Result<PiecesLeft, Memory>
        ensures { IfOk result (λ left. left ≡ pieces.now) }
    {
        let mut copies = Vec::new(alloc);
        for k in 0..pieces.len() {
            if let Some(piece) = pieces.get(k) {
                copies.push(PieceLeft::copy_of(alloc, piece)?)?;
            }
        }
        Ok(PiecesLeft { pieces: copies })
    }

    /// Answers a read at an end, where so many bytes were taken there.
    pub fn read(&mut self, pair: u32, end: End, taken: u64, buf: &mut [u8]) -> Got
        requires { 0 < length buf.old }
        ensures answer { result ≡ pieces_answer (length buf.old) taken
            (current_piece pair end self.old) }
        ensures goes { self.new ≡ pieces_after pair end result self.old }
        ensures bytes { ReadsInto result buf.old buf.new }
        ensures came { got_bytes result buf.new ≡ got_bytes result (bytes_of
            (current_piece pair end self.old)) }
    {
        match self.current(pair, end) {
            Some(at) => {
                let piece = &mut self.pieces[at];
                piece.read(taken, buf)
            }
            None => Got::NotYet,
        }
    }

    fn current(&self, pair: u32, end: End) -> Option<usize>
        ensures { result ≡ position (is_left pair end) self.now }
    {
        self.pieces
            .iter()
            .position(|piece| piece.is_left(pair, end))
    }
}
