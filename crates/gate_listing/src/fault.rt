//! Why bytes begin with no unit.

ghost use Rattle.std.specs.Prelude.{◌≡◌, ℕ, ◌+◌, ◌-◌, ◌^◌, min};
ghost use Rattle.gate_listing.specs.Names.{content_fault_text, fault_text, frame_fault_text};
ghost use Rattle.gate_listing.specs.Names.{frame10_fault_text, method_fault_text, perf_fault_text};
ghost use Rattle.gate_listing.specs.Names.{type_fault_text};
ghost use Rattle.gate_listing.specs.Scanning.{further};

use content_091::HeaderFault;
use frames_10::FrameFault10;
use frames_091::FrameFault;
use methods_091::MethodFault;
use performatives_10::PerfFault;
use types_10::TypeFault;

/// Why bytes begin with no unit: the faults of the codecs, and that the bytes end inside a unit.
#[derive(Clone, Copy, Debug, PartialEq, Eq)]
pub enum UnitFault {
    /// The bytes end inside a unit; at their end.
    Cut,
    /// No protocol header, though the first byte is that of one; at the first byte that differs.
    NotHeader,
    Frame91(FrameFault),
    Method(MethodFault),
    Content(HeaderFault),
    Frame10(FrameFault10),
    Performative(PerfFault),
}

/// The offset so many bytes behind another. It stands still at its type's end.
pub(crate) fn further(at: usize, count: usize) -> usize
    ensures { result ≡ further at count }
{
    at.saturating_add(count)
}

fn frame_fault_text(fault: FrameFault) -> &'static [u8]
    ensures { result.now ≡ frame_fault_text fault }
{
    match fault {
        FrameFault::Kind => b": Kind\n",
        FrameFault::Size => b": Size\n",
        FrameFault::End => b": End\n",
    }
}

fn method_fault_text(fault: MethodFault) -> &'static [u8]
    ensures { result.now ≡ method_fault_text fault }
{
    match fault {
        MethodFault::UnknownMethod => b": UnknownMethod\n",
        MethodFault::Syntax => b": Syntax\n",
    }
}

fn content_fault_text(fault: HeaderFault) -> &'static [u8]
    ensures { result.now ≡ content_fault_text fault }
{
    match fault {
        HeaderFault::Class => b": Class\n",
        HeaderFault::Flags => b": Flags\n",
        HeaderFault::Syntax => b": Syntax\n",
    }
}

fn frame10_fault_text(fault: FrameFault10) -> &'static [u8]
    ensures { result.now ≡ frame10_fault_text fault }
{
    match fault {
        FrameFault10::FrameSize => b": FrameSize\n",
        FrameFault10::DataOffset => b": DataOffset\n",
        FrameFault10::FrameType => b": FrameType\n",
    }
}

fn type_fault_text(fault: TypeFault) -> &'static [u8]
    ensures { result.now ≡ type_fault_text fault }
{
    match fault {
        TypeFault::UnknownCode => b": UnknownCode\n",
        TypeFault::Cut => b": Cut\n",
        TypeFault::NotUtf8 => b": NotUtf8\n",
        TypeFault::NotAscii => b": NotAscii\n",
        TypeFault::Depth => b": Depth\n",
        TypeFault::Count => b": Count\n",
    }
}

fn perf_fault_text(fault: PerfFault) -> &'static [u8]
    ensures { result.now ≡ perf_fault_text fault }
{
    match fault {
        PerfFault::Value(at) => type_fault_text(at.fault),
        PerfFault::UnknownDescriptor => b": UnknownDescriptor\n",
        PerfFault::Missing(_) => b": Missing\n",
        PerfFault::WrongType(_) => b": WrongType\n",
    }
}

/// How the line for an input at fault ends: with the fault's name.
pub fn fault_text(fault: UnitFault) -> &'static [u8]
    ensures { result.now ≡ fault_text fault }
{
    match fault {
        UnitFault::Cut => b": Cut\n",
        UnitFault::NotHeader => b": NotHeader\n",
        UnitFault::Frame91(fault) => frame_fault_text(fault),
        UnitFault::Method(fault) => method_fault_text(fault),
        UnitFault::Content(fault) => content_fault_text(fault),
        UnitFault::Frame10(fault) => frame10_fault_text(fault),
        UnitFault::Performative(fault) => perf_fault_text(fault),
    }
}
