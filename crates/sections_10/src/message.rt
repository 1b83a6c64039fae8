//! Messages (AMQP 1.0 3.2), as far as they are kept.

use types_10::Value10;
use wire_base::ByteText;

/// The header of a message (AMQP 1.0 3.2.1). The first three fields keep whether they were absent.
#[derive(Debug, Drop)]
pub struct MsgHeader {
    pub durable: Option<bool>,
    pub priority: Option<u8>,
    pub ttl: Option<u32>,
    pub first_acquirer: bool,
    pub delivery_count: u32,
}

/// The properties of a message (AMQP 1.0 3.2.4). An address that is no string is absent.
#[derive(Debug, Drop)]
pub struct MsgProps {
    /// An ulong, a uuid, a binary or a string
    pub message_id: Option<Value10>,
    pub user_id: Option<ByteText>,
    pub to: Option<ByteText>,
    pub subject: Option<ByteText>,
    pub reply_to: Option<ByteText>,
    /// An ulong, a uuid, a binary or a string
    pub correlation_id: Option<Value10>,
    pub content_type: Option<ByteText>,
    pub content_encoding: Option<ByteText>,
    /// Milliseconds since 1970-01-01 00:00 UTC
    pub absolute_expiry_time: Option<i64>,
    /// Milliseconds since 1970-01-01 00:00 UTC
    pub creation_time: Option<i64>,
    pub group_id: Option<ByteText>,
    pub group_sequence: Option<u32>,
    pub reply_to_group_id: Option<ByteText>,
}

/// The body of a message (AMQP 1.0 3.2.6 to 3.2.8).
#[derive(Debug, Drop)]
pub enum Body10 {
    /// The bytes of all data sections, one after another
    Data(ByteText),
    /// A value that is a string
    Text(ByteText),
    /// A value that is a binary
    Binary(ByteText),
    /// Sequences, or another value
    Other,
}

/// A message. Annotations of the delivery and the footer are dropped.
#[derive(Debug, Drop)]
pub struct Message10 {
    pub header: Option<MsgHeader>,
    /// Annotations of the message: a map with symbols or ulongs as keys
    pub annotations: Option<Value10>,
    pub properties: Option<MsgProps>,
    /// Properties of the application: a map with strings as keys
    pub application: Option<Value10>,
    pub body: Body10,
}
