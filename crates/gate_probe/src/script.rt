//! What a client and a container say to each other through the gateway: a login, channel 1, a
//! publish with its confirm, and the close.

use crate::frames;

/// What a peer does next. Bytes are told in hexadecimal digits.
pub enum Step {
    /// The client sends these bytes.
    ClientSends(&'static str),
    /// It waits for this frame.
    ClientMeets(&'static str),
    /// The container sends these bytes.
    ContainerSends(&'static str),
    /// It waits for this protocol header.
    ContainerIsGreeted(&'static str),
    /// It waits for this frame.
    ContainerMeets(&'static str),
}

use Step::{ClientMeets, ClientSends, ContainerIsGreeted, ContainerMeets, ContainerSends};

pub const HEADER: &str = "414D5150 00 00 09 01";

const START_OK: &str = "01 0000 00000024 000A 000B 00000000 05 504C41494E \
    0000000C 00 6775657374 00 6775657374 05 656E5F5553 CE";

const TUNE_OK: &str = "01 0000 0000000C 000A 001F 00FF 00020000 0000 CE";

const CONNECTION_OPEN: &str = "01 0000 00000008 000A 0028 01 2F 00 00 CE";

const SELECT: &str = "01 0001 00000005 0055 000A 00 CE";

const SELECT_OK: &str = "01 0001 00000004 0055 000B CE";

/// basic.publish of `hi` to the default exchange, with key `q`.
const PUBLISH: &str = "01 0001 0000000A 003C 0028 0000 00 01 71 00 CE \
    02 0001 0000000E 003C 0000 0000000000000002 0000 CE 03 0001 00000002 6869 CE";

const ACK: &str = "01 0001 0000000D 003C 0050 0000000000000001 00 CE";

const CONNECTION_CLOSE: &str = "01 0000 0000000B 000A 0032 00C8 00 0000 0000 CE";

const CLOSE_OK: &str = "01 0000 00000004 000A 0033 CE";

const SASL_HEADER: &str = "414D5150 03 01 00 00";

/// The header and sasl-mechanisms with PLAIN.
const SASL_MECHANISMS: &str =
    "414D5150 03 01 00 00 00000015 02 01 0000 005340 C00801 A305504C41494E";

/// sasl-outcome by code 0, ok.
const SASL_OUTCOME: &str = "00000010 02 01 0000 005344 C00301 5000";

const AMQP_HEADER: &str = "414D5150 00 01 00 00";

/// open of container `peer`, with frames of 65,536 bytes.
const PEER_OPEN: &str = "0000001A 02 00 0000 005310 C00D03 A10470656572 40 7000010000";

/// begin that answers channel 1, with windows of 100 and 256 handles.
const PEER_BEGIN: &str = "00000018 02 00 0001 005311 C00B05 600001 43 5264 5264 52FF";

/// attach of link `l-0` as receiver at address `q`.
const PEER_ATTACH: &str = "00000024 02 00 0001 005312 C01707 A1036C2D30 43 41 40 40 \
    00532845 005329C00401A10171";

/// Both open their connections.
pub const LOGIN: [Step; 15] = [
    ClientSends(HEADER),
    ClientMeets(frames::START),
    ClientSends(START_OK),
    ClientMeets(frames::TUNE),
    ClientSends(TUNE_OK),
    ClientSends(CONNECTION_OPEN),
    ContainerIsGreeted(SASL_HEADER),
    ContainerSends(SASL_MECHANISMS),
    ContainerMeets(frames::SASL_INIT),
    ContainerSends(SASL_OUTCOME),
    ContainerIsGreeted(AMQP_HEADER),
    ContainerSends(AMQP_HEADER),
    ContainerMeets(frames::OPEN),
    ContainerSends(PEER_OPEN),
    ClientMeets(frames::OPEN_OK),
];

/// All that comes behind it.
pub const PLAY: [Step; 19] = [
    ClientSends(frames::CHANNEL_OPEN),
    ContainerMeets(frames::BEGIN),
    ContainerSends(PEER_BEGIN),
    ClientMeets(frames::CHANNEL_OPEN_OK),
    ClientSends(SELECT),
    ClientMeets(SELECT_OK),
    ClientSends(PUBLISH),
    ContainerMeets(frames::ATTACH),
    ContainerSends(PEER_ATTACH),
    ContainerSends(frames::CREDIT),
    ContainerMeets(frames::TRANSFER),
    ContainerSends(frames::ACCEPTED),
    ClientMeets(ACK),
    ClientSends(CONNECTION_CLOSE),
    ContainerMeets(frames::END),
    ContainerMeets(frames::CLOSE),
    ContainerSends(frames::END),
    ContainerSends(frames::CLOSE),
    ClientMeets(CLOSE_OK),
];
