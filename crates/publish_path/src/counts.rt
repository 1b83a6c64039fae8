//! What is counted of the publishes of a life, so that a call visits few of them.

ghost use Rattle.std.specs.Prelude.{◌≡◌, []};
ghost use Rattle.publish_path.specs.declared.counts.Counts.{Counts};
ghost use Rattle.publish_path.specs.Offers.{is_held, held_size};
ghost use Rattle.publish_path.specs.Kept.{owes, has_line, count_of, counts_of, exchanged};
ghost use Rattle.publish_path.specs.Kept.{CanExchange};

use crate::changes::{is_publish_sending, is_return_owed};
use crate::publish::{Answer, Publish};

/// Counts over some publishes, or of one.
#[derive(Clone, Copy, Debug)]
pub struct Counts {
    /// So many are held.
    pub held: u32,
    /// So many bytes their whole payloads have.
    pub bytes: u64,
    /// So many are owed a confirm.
    pub owed: usize,
    /// So many are to be returned.
    pub returns: usize,
    /// Of so many the report is owed a line.
    pub lines: usize,
}

fn is_publish_held(p: &Publish) -> bool
    ensures { result ≡ is_held p.now }
{
    is_publish_sending(p) || p.answer == Answer::Open && !p.back.is_empty()
}

fn is_confirm_owed(p: &Publish) -> bool
    ensures { result ≡ owes p.now }
{
    matches!(p.answer, Answer::Owed(_))
}

fn is_line_owed(p: &Publish) -> bool
    ensures { result ≡ has_line p.now }
{
    p.line.is_some()
}

fn size_held(p: &Publish) -> u64
    ensures { result ≡ held_size p.now }
{
    if is_publish_held(p) { p.size as u64 } else { 0 }
}

impl Counts {
    pub fn none() -> Counts
        ensures { result ≡ counts_of [] }
    {
        Counts {
            held: 0,
            bytes: 0,
            owed: 0,
            returns: 0,
            lines: 0,
        }
    }

    /// Those of one publish.
    pub fn of(p: &Publish) -> Counts
        ensures { result ≡ count_of p.now }
    {
        Counts {
            held: is_publish_held(p) as u32,
            bytes: size_held(p),
            owed: is_confirm_owed(p) as usize,
            returns: is_return_owed(p) as usize,
            lines: is_line_owed(p) as usize,
        }
    }

    /// The counts once one of the publishes changed.
    pub fn exchange(self, before: Counts, after: Counts) -> Counts
        requires { CanExchange self before after }
        ensures { result ≡ exchanged self before after }
    {
        Counts {
            held: self.held - before.held + after.held,
            bytes: self.bytes - before.bytes + after.bytes,
            owed: self.owed - before.owed + after.owed,
            returns: self.returns - before.returns + after.returns,
            lines: self.lines - before.lines + after.lines,
        }
    }
}
