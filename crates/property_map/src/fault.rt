//! Why a message of one protocol is none of the other.

ghost use Rattle.std.specs.Prelude.{◌≡◌};

use wire_base::ByteText;

/// What a message of AMQP 0-9-1 has, in the order in which faults are looked for.
#[derive(Clone, Copy, Debug, PartialEq, Eq)]
pub enum PropName {
    Exchange,
    RoutingKey,
    ContentType,
    ContentEncoding,
    Headers,
    DeliveryMode,
    Priority,
    CorrelationId,
    ReplyTo,
    Expiration,
    MessageId,
    Timestamp,
    /// The property that the standard calls type
    Kind,
    UserId,
    AppId,
    ClusterId,
    /// The content header as a whole
    Header,
    Body,
}

/// Why a message of one protocol has no image in the other. A fault inside the headers is one of
/// `Headers`.
#[derive(Debug, Drop)]
pub enum MapFault {
    /// A text that is to be a string isn't UTF-8.
    NotUtf8(PropName),
    /// A text that is to be a symbol isn't ASCII.
    NotAscii(PropName),
    /// The expiration is no decimal number below 2^32.
    Expiration,
    /// The delivery mode is neither 1 nor 2.
    DeliveryMode,
    /// A time that the other protocol can't say.
    Time(PropName),
    /// A header has a name that stands for something else in the other protocol.
    Reserved(ByteText),
    /// Two headers, or two fields of a table inside, have this name.
    Repeated(ByteText),
    /// The headers are too deep.
    Depth,
    /// A text is longer than the other protocol can say.
    TooLong(PropName),
    /// The body is of another kind than bytes or one text.
    BodyKind,
    /// A value has a type that the other protocol doesn't have.
    ValueKind(PropName),
    /// The allocator has no room.
    Memory,
}
