//! What a client is told of a message that has no image: the name of the fault, and of the part of
//! the message that it is in.

ghost use Rattle.std.specs.Prelude.{◌≡◌, ◌≤◌, length};
ghost use Rattle.property_map.specs.Told.{fault_text, part_text, told_of};

use crate::fault::{MapFault, PropName};

/// What a fault is called.
#[derive(Clone, Copy, Debug, PartialEq, Eq)]
pub enum FaultName {
    NotUtf8,
    NotAscii,
    Expiration,
    DeliveryMode,
    Time,
    Reserved,
    Repeated,
    Depth,
    TooLong,
    BodyKind,
    ValueKind,
}

/// A fault by its name, and the part of the message that it is in.
#[derive(Clone, Copy, Debug, PartialEq, Eq)]
pub struct Told {
    pub fault: FaultName,
    pub part: PropName,
}

impl MapFault {
    /// What a client is told of it; nothing where memory ran out.
    pub fn told(&self) -> Option<Told>
        ensures { result ≡ told_of self.now }
    {
        let (fault, part) = match self {
            MapFault::NotUtf8(part) => (FaultName::NotUtf8, *part),
            MapFault::NotAscii(part) => (FaultName::NotAscii, *part),
            MapFault::Expiration => (FaultName::Expiration, PropName::Expiration),
            MapFault::DeliveryMode => (FaultName::DeliveryMode, PropName::DeliveryMode),
            MapFault::Time(part) => (FaultName::Time, *part),
            MapFault::Reserved(_) => (FaultName::Reserved, PropName::Headers),
            MapFault::Repeated(_) => (FaultName::Repeated, PropName::Headers),
            MapFault::Depth => (FaultName::Depth, PropName::Headers),
            MapFault::TooLong(part) => (FaultName::TooLong, *part),
            MapFault::BodyKind => (FaultName::BodyKind, PropName::Body),
            MapFault::ValueKind(part) => (FaultName::ValueKind, *part),
            MapFault::Memory => return None,
        };
        Some(Told { fault, part })
    }
}

/// The name of a fault.
pub fn fault_name(fault: FaultName) -> &'static str
    ensures name { result.now ≡ fault_text fault }
    ensures short { length result.now ≤ 16 }
{
    match fault {
        FaultName::NotUtf8 => "NotUtf8",
        FaultName::NotAscii => "NotAscii",
        FaultName::Expiration => "Expiration",
        FaultName::DeliveryMode => "DeliveryMode",
        FaultName::Time => "Time",
        FaultName::Reserved => "Reserved",
        FaultName::Repeated => "Repeated",
        FaultName::Depth => "Depth",
        FaultName::TooLong => "TooLong",
        FaultName::BodyKind => "BodyKind",
        FaultName::ValueKind => "ValueKind",
    }
}

/// The name of a part of a message, as AMQP 0-9-1 has it.
pub fn part_name(part: PropName) -> &'static str
    ensures name { result.now ≡ part_text part }
    ensures short { length result.now ≤ 16 }
{
    match part {
        PropName::Exchange => "exchange",
        PropName::RoutingKey => "routing-key",
        PropName::ContentType => "content-type",
        PropName::ContentEncoding => "content-encoding",
        PropName::Headers => "headers",
        PropName::DeliveryMode => "delivery-mode",
        PropName::Priority => "priority",
        PropName::CorrelationId => "correlation-id",
        PropName::ReplyTo => "reply-to",
        PropName::Expiration => "expiration",
        PropName::MessageId => "message-id",
        PropName::Timestamp => "timestamp",
        PropName::Kind => "type",
        PropName::UserId => "user-id",
        PropName::AppId => "app-id",
        PropName::ClusterId => "cluster-id",
        PropName::Header => "header",
        PropName::Body => "body",
    }
}
