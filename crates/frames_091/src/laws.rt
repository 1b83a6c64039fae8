//! The laws of the grammars of frames and of the protocol header.

ghost use Rattle.std.specs.Prelude.{◌≡◌, ◌≢◌, ◌↔◌, ℕ, ◌≤◌, List, ◌++◌, length};
ghost use Rattle.wire_base.specs.Bytes.{IsBytes};
ghost use Rattle.wire_base.specs.Scans.{AreApart, Scans};
ghost use Rattle.wire_base.specs.declared.scan.At.{At};
ghost use Rattle.wire_base.specs.declared.scan.Scan.TheVariants.{Whole, More, Bad};
ghost use Rattle.frames_091.specs.declared.frame.Frame91.{Frame91};
ghost use Rattle.frames_091.specs.declared.frame.FrameFault.{FrameFault};
ghost use Rattle.frames_091.specs.declared.header.NotHeader.{NotHeader};
ghost use Rattle.frames_091.specs.Frames.{IsFrame, frame_text};
ghost use Rattle.frames_091.specs.FrameFaults.{IsFrameFault};
ghost use Rattle.frames_091.specs.FrameScan.{scan_of};
ghost use Rattle.frames_091.specs.Headers.{IsHeader, IsHeaderFault, header_bytes, header_scan};

/// What holds of the frames (AMQP 0-9-1 4.2.3) and of the protocol header (4.2.2), of any bytes:
/// the scans answer as the grammars say; a fault is told exactly where it is; no spelling is a
/// proper prefix of another's; what is spelled is read back, whatever follows; and an answer other
/// than More stays whatever bytes come. A caller has the laws by calling it.
pub fn frame_laws()
    ensures scans { (limit : ℕ) (bytes : List ℕ) → 8 ≤ limit → IsBytes bytes
        → Scans (IsFrame limit) bytes (scan_of limit bytes) }
    ensures fault { (limit : ℕ) (bytes : List ℕ) (at : At FrameFault)
        → (scan_of limit bytes ≡ Bad at) ↔ IsFrameFault limit bytes at }
    ensures apart { (limit : ℕ) → AreApart (IsFrame limit) }
    ensures whole { (limit : ℕ) (frame : Frame91) (rest : List ℕ)
        → IsFrame limit frame (frame_text frame)
        → scan_of limit (frame_text frame ++ rest) ≡ Whole frame (length (frame_text frame)) }
    ensures settled { (limit : ℕ) (bytes more : List ℕ) → scan_of limit bytes ≢ More
        → scan_of limit (bytes ++ more) ≡ scan_of limit bytes }

    // The same of the protocol header.
    ensures header_scans { (bytes : List ℕ) → Scans IsHeader bytes (header_scan bytes) }
    ensures header_fault { (bytes : List ℕ) (at : At NotHeader)
        → (header_scan bytes ≡ Bad at) ↔ IsHeaderFault bytes at }
    ensures header_apart { AreApart IsHeader }
    ensures header_whole { (rest : List ℕ) → header_scan (header_bytes ++ rest) ≡ Whole tt 8 }
    ensures header_settled { (bytes more : List ℕ) → header_scan bytes ≢ More
        → header_scan (bytes ++ more) ≡ header_scan bytes }
{}
