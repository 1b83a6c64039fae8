//! The laws of the grammars of frames and of the protocol headers.

ghost use Rattle.std.specs.Prelude.{◌≡◌, ◌≢◌, ◌↔◌, ℕ, ◌≤◌, List, ◌++◌, length};
ghost use Rattle.wire_base.specs.Bytes.{IsBytes};
ghost use Rattle.wire_base.specs.Scans.{AreApart, Scans};
ghost use Rattle.wire_base.specs.declared.scan.At.{At};
ghost use Rattle.wire_base.specs.declared.scan.Scan.TheVariants.{Whole, More, Bad};
ghost use Rattle.frames_10.specs.declared.frame.Kind10.{Kind10};
ghost use Rattle.frames_10.specs.declared.frame.Frame10.{Frame10};
ghost use Rattle.frames_10.specs.declared.frame.FrameFault10.{FrameFault10};
ghost use Rattle.frames_10.specs.declared.header.NotHeader.{NotHeader};
ghost use Rattle.frames_10.specs.Frames.{IsFrame};
ghost use Rattle.frames_10.specs.FrameFaults.{IsFrameFault};
ghost use Rattle.frames_10.specs.FrameScan.{scan_of};
ghost use Rattle.frames_10.specs.Headers.{IsHeader, IsHeaderFault, header_bytes, header_scan};

/// What holds of the frames (AMQP 1.0 2.3) and of the protocol headers (2.2, 5.3.2), of any bytes:
/// the scans answer as the grammars say; a fault is told exactly where it is; no spelling is a
/// proper prefix of another's; what is spelled is read back, whatever follows; and an answer other
/// than More stays whatever bytes come. A caller has the laws by calling it.
pub fn frame_laws10()
    ensures scans { (limit : ℕ) (bytes : List ℕ) → 8 ≤ limit → IsBytes bytes
        → Scans (IsFrame limit) bytes (scan_of limit bytes) }
    ensures fault { (limit : ℕ) (bytes : List ℕ) (at : At FrameFault10)
        → (scan_of limit bytes ≡ Bad at) ↔ IsFrameFault limit bytes at }
    ensures apart { (limit : ℕ) → AreApart (IsFrame limit) }
    ensures whole { (limit : ℕ) (frame : Frame10) (text rest : List ℕ) → IsFrame limit frame text
        → scan_of limit (text ++ rest) ≡ Whole frame (length text) }
    ensures settled { (limit : ℕ) (bytes more : List ℕ) → scan_of limit bytes ≢ More
        → scan_of limit (bytes ++ more) ≡ scan_of limit bytes }

    // The same of the protocol headers.
    ensures header_scans { (kind : Kind10) (bytes : List ℕ) → Scans (IsHeader kind) bytes
        (header_scan kind bytes) }
    ensures header_fault { (kind : Kind10) (bytes : List ℕ) (at : At NotHeader)
        → (header_scan kind bytes ≡ Bad at) ↔ IsHeaderFault kind bytes at }
    ensures header_apart { (kind : Kind10) → AreApart (IsHeader kind) }
    ensures header_whole { (kind : Kind10) (rest : List ℕ)
        → header_scan kind (header_bytes kind ++ rest) ≡ Whole tt (length (header_bytes kind)) }
    ensures header_settled { (kind : Kind10) (bytes more : List ℕ) → header_scan kind bytes ≢ More
        → header_scan kind (bytes ++ more) ≡ header_scan kind bytes }
{}
