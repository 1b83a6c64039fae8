//! The protocol header.

ghost use Rattle.std.specs.Prelude.{◌≡◌};
ghost use Rattle.wire_base.specs.Scans.{IfBad, Scans};
ghost use Rattle.frames_091.specs.Headers.{IsHeader, IsHeaderFault, header_scan};

use wire_base::{At, Scan, agreed_len};

/// A byte that isn't that of the protocol header.
#[derive(Clone, Copy, Debug, PartialEq, Eq)]
pub struct NotHeader;

/// The letters AMQP, and the version 0-0-9-1 (AMQP 0-9-1 4.2.2).
const HEADER: [u8; 8] = [b'A', b'M', b'Q', b'P', 0, 0, 9, 1];

/// The scan, as a function of the bytes.
#[tactic(auto, unfolding(crate::specs::Headers::header_scan, wire_base::specs::Headers::first_header))]
fn first_header(bytes: &[u8]) -> Scan<(), At<NotHeader>>
    ensures { result ≡ header_scan bytes.now }
{
    let agreed = agreed_len(bytes, &HEADER);
    if agreed == HEADER.len() {
        return Scan::Whole((), HEADER.len());
    }
    if agreed == bytes.len() {
        return Scan::More;
    }
    Scan::Bad(At {
        fault: NotHeader,
        at: agreed,
    })
}

/// Scans the protocol header (AMQP 0-9-1 4.2.2), which has eight bytes. A fault is at the first
/// byte that differs.
#[tactic(auto, using(crate::proofs::HeaderLaws::scans_by, crate::proofs::HeaderLaws::faults_by))]
pub fn scan_header(bytes: &[u8]) -> Scan<(), At<NotHeader>>
    ensures exact { result ≡ header_scan bytes.now }
    ensures scans { Scans IsHeader bytes.now result }
    ensures fault { IfBad result (IsHeaderFault bytes.now) }
{
    first_header(bytes)
}
