//! The bytes of a capture that tell what follows: the kinds of entries, and the answers.

ghost use Rattle.std.specs.Prelude.{◌≡◌};
ghost use Rattle.gate_capture.specs.Kinds.{answer_byte, answer_of, end_byte, end_of, kind_byte};
ghost use Rattle.gate_capture.specs.Kinds.{kind_of, next_byte, next_of};

use gate_outside::{End, Next};

/// The kind of an entry: which call it is of.
#[derive(Clone, Copy)]
pub(crate) enum EntryKind {
    Accept,
    Connect,
    Read,
    Write,
    Shut,
    Idle,
    Now,
}

/// The byte of an answer of `accept`, `connect`, `read` or `write`. `Done` is that it did what it
/// was asked, at least in part: `Pair`, `Ok`, `Bytes` and `Took`.
#[derive(Clone, Copy)]
pub(crate) enum Answer {
    NotYet,
    Done,
    Failed,
    Ended,
}

impl EntryKind {
    pub(crate) fn byte(self) -> u8
        ensures { result ≡ kind_byte self }
    {
        match self {
            EntryKind::Accept => 1,
            EntryKind::Connect => 2,
            EntryKind::Read => 3,
            EntryKind::Write => 4,
            EntryKind::Shut => 5,
            EntryKind::Idle => 6,
            EntryKind::Now => 7,
        }
    }

    pub(crate) fn of(byte: u8) -> Option<EntryKind>
        ensures { result ≡ kind_of byte }
    {
        let kind = match byte {
            1 => EntryKind::Accept,
            2 => EntryKind::Connect,
            3 => EntryKind::Read,
            4 => EntryKind::Write,
            5 => EntryKind::Shut,
            6 => EntryKind::Idle,
            7 => EntryKind::Now,
            _ => return None,
        };
        Some(kind)
    }
}

impl Answer {
    pub(crate) fn byte(self) -> u8
        ensures { result ≡ answer_byte self }
    {
        match self {
            Answer::NotYet => 0,
            Answer::Done => 1,
            Answer::Failed => 2,
            Answer::Ended => 3,
        }
    }

    pub(crate) fn of(byte: u8) -> Option<Answer>
        ensures { result ≡ answer_of byte }
    {
        match byte {
            0 => Some(Answer::NotYet),
            1 => Some(Answer::Done),
            2 => Some(Answer::Failed),
            3 => Some(Answer::Ended),
            _ => None,
        }
    }
}

pub(crate) fn end_byte_of(end: End) -> u8
    ensures { result ≡ end_byte end }
{
    match end {
        End::Client => 0,
        End::Up => 1,
    }
}

pub(crate) fn end_at(byte: u8) -> Option<End>
    ensures { result ≡ end_of byte }
{
    match byte {
        0 => Some(End::Client),
        1 => Some(End::Up),
        _ => None,
    }
}

pub(crate) fn next_byte_of(answer: Next) -> u8
    ensures { result ≡ next_byte answer }
{
    match answer {
        Next::Go => 0,
        Next::Stop => 1,
    }
}

pub(crate) fn next_at(byte: u8) -> Option<Next>
    ensures { result ≡ next_of byte }
{
    match byte {
        0 => Some(Next::Go),
        1 => Some(Next::Stop),
        _ => None,
    }
}
