//! This file is written by tools/generate_performatives.py from the definition of AMQP 1.0.
//!
//! The performatives as structs of their fields. An absent field is `None`, or its default where it
//! has one. Values that nobody asks for are kept as they are spelled.

use types_10::{Spelling10, Value10};
use wire_base::ByteText;

/// An error (AMQP 1.0 2.8.14). Its information is dropped.
#[derive(Debug, Drop)]
pub struct Error10 {
    pub condition: ByteText,
    pub description: Option<ByteText>,
}

/// The state of a delivery (AMQP 1.0 3.4). Only the error of a rejection is kept. `Received` is
/// read, and can't be written as it stands, since its mandatory fields aren't kept.
#[derive(Debug, Drop)]
pub enum State {
    Received,
    Accepted,
    Rejected(Option<Error10>),
    Released,
    Modified,
}

/// A source (AMQP 1.0 3.5.3).
#[derive(Debug, Drop)]
pub struct Source10 {
    /// `None` also where it is no string
    pub address: Option<ByteText>,
    /// 0 none, 1 configuration, 2 unsettled state (3.5.5)
    pub durable: Option<u32>,
    pub expiry_policy: Option<ByteText>,
    /// In seconds
    pub timeout: Option<u32>,
    pub dynamic: Option<bool>,
    /// A map
    pub dynamic_node_properties: Option<Spelling10>,
    pub distribution_mode: Option<ByteText>,
    /// A map
    pub filter: Option<Spelling10>,
    pub default_outcome: Option<Spelling10>,
    pub outcomes: Option<Spelling10>,
    pub capabilities: Option<Spelling10>,
}

/// A target (AMQP 1.0 3.5.4).
#[derive(Debug, Drop)]
pub struct Target10 {
    /// `None` also where it is no string
    pub address: Option<ByteText>,
    /// 0 none, 1 configuration, 2 unsettled state (3.5.5)
    pub durable: Option<u32>,
    pub expiry_policy: Option<ByteText>,
    /// In seconds
    pub timeout: Option<u32>,
    pub dynamic: Option<bool>,
    /// A map
    pub dynamic_node_properties: Option<Spelling10>,
    pub capabilities: Option<Spelling10>,
}

/// An open (AMQP 1.0 2.7.1).
#[derive(Debug, Drop)]
pub struct Open {
    pub container_id: ByteText,
    pub hostname: Option<ByteText>,
    /// In bytes
    pub max_frame_size: u32,
    pub channel_max: u16,
    /// In milliseconds
    pub idle_time_out: Option<u32>,
    /// One symbol, or an array of symbols
    pub outgoing_locales: Option<Spelling10>,
    /// One symbol, or an array of symbols
    pub incoming_locales: Option<Spelling10>,
    /// One symbol, or an array of symbols
    pub offered_capabilities: Option<Spelling10>,
    /// One symbol, or an array of symbols
    pub desired_capabilities: Option<Spelling10>,
    /// A map
    pub properties: Option<Spelling10>,
}

/// A begin (AMQP 1.0 2.7.2).
#[derive(Debug, Drop)]
pub struct Begin {
    pub remote_channel: Option<u16>,
    pub next_outgoing_id: u32,
    pub incoming_window: u32,
    pub outgoing_window: u32,
    pub handle_max: u32,
    /// One symbol, or an array of symbols
    pub offered_capabilities: Option<Spelling10>,
    /// One symbol, or an array of symbols
    pub desired_capabilities: Option<Spelling10>,
    /// A map
    pub properties: Option<Spelling10>,
}

/// An attach (AMQP 1.0 2.7.3).
#[derive(Debug, Drop)]
pub struct Attach {
    pub name: ByteText,
    pub handle: u32,
    /// True is the receiver
    pub role: bool,
    /// 0 unsettled, 1 settled, 2 mixed (2.8.2)
    pub snd_settle_mode: u8,
    /// 0 first, 1 second (2.8.3)
    pub rcv_settle_mode: u8,
    pub source: Option<Source10>,
    pub target: Option<Target10>,
    /// A map
    pub unsettled: Option<Spelling10>,
    pub incomplete_unsettled: bool,
    pub initial_delivery_count: Option<u32>,
    /// In bytes
    pub max_message_size: Option<u64>,
    /// One symbol, or an array of symbols
    pub offered_capabilities: Option<Spelling10>,
    /// One symbol, or an array of symbols
    pub desired_capabilities: Option<Spelling10>,
    /// A map
    pub properties: Option<Spelling10>,
}

/// A flow (AMQP 1.0 2.7.4).
#[derive(Debug, Drop)]
pub struct Flow {
    pub next_incoming_id: Option<u32>,
    pub incoming_window: u32,
    pub next_outgoing_id: u32,
    pub outgoing_window: u32,
    pub handle: Option<u32>,
    pub delivery_count: Option<u32>,
    pub link_credit: Option<u32>,
    pub available: Option<u32>,
    pub drain: bool,
    pub echo: bool,
    /// A map
    pub properties: Option<Spelling10>,
}

/// A transfer (AMQP 1.0 2.7.5).
#[derive(Debug, Drop)]
pub struct Transfer {
    pub handle: u32,
    pub delivery_id: Option<u32>,
    pub delivery_tag: Option<ByteText>,
    pub message_format: Option<u32>,
    pub settled: Option<bool>,
    pub more: bool,
    /// 0 first, 1 second (2.8.3)
    pub rcv_settle_mode: Option<u8>,
    pub state: Option<State>,
    pub resume: bool,
    pub aborted: bool,
    pub batchable: bool,
}

/// A disposition (AMQP 1.0 2.7.6).
#[derive(Debug, Drop)]
pub struct Disposition {
    /// True is the receiver
    pub role: bool,
    pub first: u32,
    pub last: Option<u32>,
    pub settled: bool,
    pub state: Option<State>,
    pub batchable: bool,
}

/// A detach (AMQP 1.0 2.7.7).
#[derive(Debug, Drop)]
pub struct Detach {
    pub handle: u32,
    pub closed: bool,
    pub error: Option<Error10>,
}

/// An end (AMQP 1.0 2.7.8).
#[derive(Debug, Drop)]
pub struct End {
    pub error: Option<Error10>,
}

/// A close (AMQP 1.0 2.7.9).
#[derive(Debug, Drop)]
pub struct Close {
    pub error: Option<Error10>,
}

/// A sasl-mechanisms (AMQP 1.0 5.3.3.1).
#[derive(Debug, Drop)]
pub struct SaslMechanisms {
    /// One symbol, or an array of symbols
    pub mechanisms: Value10,
}

/// A sasl-init (AMQP 1.0 5.3.3.2).
#[derive(Debug, Drop)]
pub struct SaslInit {
    pub mechanism: ByteText,
    pub initial_response: Option<ByteText>,
    pub hostname: Option<ByteText>,
}

/// A sasl-challenge (AMQP 1.0 5.3.3.3).
#[derive(Debug, Drop)]
pub struct SaslChallenge {
    pub challenge: ByteText,
}

/// A sasl-response (AMQP 1.0 5.3.3.4).
#[derive(Debug, Drop)]
pub struct SaslResponse {
    pub response: ByteText,
}

/// A sasl-outcome (AMQP 1.0 5.3.3.5).
#[derive(Debug, Drop)]
pub struct SaslOutcome {
    /// 0 is success (5.3.3.6)
    pub code: u8,
    pub additional_data: Option<ByteText>,
}

/// A performative (AMQP 1.0 2.7) or a frame body of the SASL layer (5.3.3).
#[derive(Debug, Drop)]
pub enum Perf {
    Open(Open),
    Begin(Begin),
    Attach(Attach),
    Flow(Flow),
    Transfer(Transfer),
    Disposition(Disposition),
    Detach(Detach),
    End(End),
    Close(Close),
    SaslMechanisms(SaslMechanisms),
    SaslInit(SaslInit),
    SaslChallenge(SaslChallenge),
    SaslResponse(SaslResponse),
    SaslOutcome(SaslOutcome),
}
