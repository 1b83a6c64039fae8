//! Frames in hexadecimal digits, a blank between their fields, and the bytes that digits tell.

use std::alloc::Global;
use wire_base::{ByteText, Memory};

/// connection.start with the gateway's properties (AMQP 0-9-1 1.4.2.1).
pub const START: &str = "01 0000 00000091 000A 000A 00 09 \
    0000006B 07 70726F64756374 53 00000009 616D71702D67617465 \
    07 76657273696F6E 53 00000001 31 \
    0C 6361706162696C6974696573 46 00000035 \
    12 7075626C69736865725F636F6E6669726D73 74 01 \
    0A 62617369632E6E61636B 74 01 \
    10 7065725F636F6E73756D65725F716F73 74 01 \
    0000000F 504C41494E20414E4F4E594D4F5553 00000005 656E5F5553 CE";

/// connection.tune: 255 channels, frames of 131,072 bytes, heartbeats after 60 seconds.
pub const TUNE: &str = "01 0000 0000000C 000A 001E 00FF 00020000 003C CE";

pub const OPEN_OK: &str = "01 0000 00000005 000A 0029 00 CE";

pub const CHANNEL_OPEN: &str = "01 0001 00000005 0014 000A 00 CE";

pub const CHANNEL_OPEN_OK: &str = "01 0001 00000008 0014 000B 00000000 CE";

/// connection.close by 504, CHANNEL_ERROR, for channel.open.
pub const CHANNEL_ERROR: &str =
    "01 0000 00000018 000A 0032 01F8 0D 4348414E4E454C5F4552524F52 0014 000A CE";

/// basic.nack of publish 1.
pub const NACK: &str = "01 0001 0000000D 003C 0078 0000000000000001 00 CE";

/// basic.deliver of tag 2 to consumer `c`, with routing key `q`.
pub const DELIVER: &str = "01 0001 00000012 003C 003C 01 63 0000000000000002 00 00 01 71 CE";

/// channel.close by 406, PRECONDITION_FAILED, for basic.ack.
pub const PRECONDITION_FAILED: &str =
    "01 0001 0000001E 0014 0028 0196 13 505245434F4E444954494F4E5F4641494C4544 003C 0050 CE";

pub const GET_EMPTY: &str = "01 0001 00000005 003C 0048 00 CE";

/// connection.close by 320, CONNECTION_FORCED, for no method.
pub const CONNECTION_FORCED: &str =
    "01 0000 0000001C 000A 0032 0140 11 434F4E4E454354494F4E5F464F52434544 0000 0000 CE";

/// sasl-init by PLAIN, of user guest with password guest.
pub const SASL_INIT: &str =
    "00000023 02 01 0000 005341 C01602 A305504C41494E A00C 00 6775657374 00 6775657374";

/// open of pair 0, whose container id is `amqp-gate-0`.
pub const OPEN: &str =
    "00000029 02 00 0000 005310 C01C05 A10B616D71702D676174652D30 40 7000010000 6000FF 700000EA60";

/// begin on channel 1.
pub const BEGIN: &str = "0000001C 02 00 0001 005311 C00F05 40 43 7000000800 7000000800 52FF";

/// attach of link `l-0` as sender to address `q`.
pub const ATTACH: &str = "00000029 02 00 0001 005312 C01C0A A1036C2D30 43 42 5000 5000 \
    00532845 005329C00401A10171 40 40 43";

/// transfer of message 1, with subject `q` and body `hi`.
pub const TRANSFER: &str = "0000002F 02 00 0001 005314 C00F05 43 43 A0080000000000000001 43 42 \
    005373 C00704 40 40 40 A10171 005375 A0026869";

/// flow that grants link 0 a credit of 5.
pub const CREDIT: &str = "00000018 02 00 0001 005313 C00B07 43 5264 43 5264 43 43 5205";

/// flow that takes link 0 all its credit.
pub const NO_CREDIT: &str = "00000017 02 00 0001 005313 C00A07 43 5264 43 5264 43 43 43";

/// disposition of the receiver: delivery 0 is accepted.
pub const ACCEPTED: &str = "00000016 02 00 0001 005315 C00905 41 43 40 41 00532445";

/// The same of deliveries 0 and 1.
pub const BOTH_ACCEPTED: &str = "00000017 02 00 0001 005315 C00A05 41 43 5201 41 00532445";

/// flow that asks for one message at once, with drain.
pub const GET_ONE: &str =
    "00000020 02 00 0001 005313 C01309 43 7000000800 43 7000000800 43 43 5201 40 41";

/// end on channel 1.
pub const END: &str = "0000000C 02 00 0001 00531745";

pub const CLOSE: &str = "0000000C 02 00 0000 00531845";

/// The number that a hexadecimal digit stands for.
fn digit_of(byte: u8) -> u8 {
    // (a letter has its place in the alphabet in its lower half)
    if byte < b'A' {
        byte & 0x0F
    } else {
        (byte & 0x0F) + 9
    }
}

/// The bytes that hexadecimal digits tell, two each; blanks are passed over.
pub fn bytes_of(alloc: Global, digits: &str) -> Result<ByteText, Memory> {
    let mut out = ByteText::empty(alloc);
    let mut high = None;
    for byte in digits.bytes().filter(|byte| *byte != b' ') {
        let digit = digit_of(byte);
        match high.take() {
            None => high = Some(digit),
            Some(high) => out.append(&[(high << 4) | digit])?,
        }
    }
    Ok(out)
}
