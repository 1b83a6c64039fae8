//! The protocol headers.

ghost use Rattle.std.specs.Prelude.{◌≡◌};
ghost use Rattle.wire_base.specs.Scans.{IfBad, Scans};
ghost use Rattle.frames_10.specs.Headers.{IsHeader, IsHeaderFault, header_bytes, header_scan};

use crate::frame::Kind10;
use wire_base::{At, Scan, agreed_len};

/// A byte that isn't that of the protocol header.
#[derive(Clone, Copy, Debug, PartialEq, Eq)]
pub struct NotHeader;

/// The letters AMQP, the protocol's id, and the version 1.0.0 (AMQP 1.0 2.2, 5.3.2).
fn header_of(kind: Kind10) -> [u8; 8]
    ensures { result ≡ header_bytes kind }
{
    match kind {
        Kind10::Amqp => [b'A', b'M', b'Q', b'P', 0, 1, 0, 0],
        Kind10::Sasl => [b'A', b'M', b'Q', b'P', 3, 1, 0, 0],
    }
}

/// The scan, as a function of the bytes.
#[tactic(auto, unfolding(wire_base::specs::Headers::first_header))]
fn first_header(bytes: &[u8], kind: Kind10) -> Scan<(), At<NotHeader>>
    ensures { result ≡ header_scan kind bytes.now }
{
    let header = header_of(kind);
    let agreed = agreed_len(bytes, &header);
    if agreed == header.len() {
        return Scan::Whole((), agreed);
    }
    if agreed == bytes.len() {
        return Scan::More;
    }
    Scan::Bad(At {
        fault: NotHeader,
        at: agreed,
    })
}

/// Scans the protocol header of this kind (AMQP 1.0 2.2, 5.3.2), which has eight bytes. A fault is
/// at the first byte that differs.
#[tactic(auto, using(crate::proofs::HeaderLaws::scans_by, crate::proofs::HeaderLaws::faults_by))]
pub fn scan_header10(bytes: &[u8], kind: Kind10) -> Scan<(), At<NotHeader>>
    ensures exact { result ≡ header_scan kind bytes.now }
    ensures scans { Scans (IsHeader kind) bytes.now result }
    ensures fault { IfBad result (IsHeaderFault kind bytes.now) }
{
    first_header(bytes, kind)
}
