//! The client of a rehearsal (AMQP 0-9-1 1.4 to 1.8, 4.2).

ghost use Rattle.std.specs.Prelude.{◌≤◌, IfSome, length};

use crate::messages::{MOST_MESSAGES, body_byte, body_len};
use gate_ends::Unsent;
use std::alloc::Global;
use wire_base::{Memory, take_u16, take_u32, take_u64};

/// The protocol header (AMQP 0-9-1 4.2.2).
const HEADER: &[u8] = b"AMQP\x00\x00\x09\x01";

/// The first byte of a frame, by its kind, and the last one (AMQP 0-9-1 4.2.3).
const METHOD: u8 = 1;

const CONTENT_HEADER: u8 = 2;

const BODY: u8 = 3;

const FRAME_END: u8 = 0xCE;

/// How many bytes of a frame stand before its payload, and how many besides it.
const FRAME_HEAD: usize = 7;

const FRAME_EXTRA: usize = 8;

/// Where what follows the ids of a method stands.
const ARGUMENTS: usize = FRAME_HEAD + 4;

/// The channel of the connection itself, and the one that the client opens.
const CONNECTION: u16 = 0;

const CHANNEL: u16 = 1;

/// The largest frame that the client takes, which it agrees to (AMQP 0-9-1 1.4.2.6).
const FRAME_MAX: usize = 131_072;

/// The bytes that the client may have waiting: a message, and answers to as many deliveries as its
/// prefetch lets come.
const ROOM: usize = 16_384;

/// While fewer bytes wait the client adds its next message.
const ENOUGH: usize = 1_021;

/// A client that logs in, declares a queue, selects confirms, consumes, publishes its messages,
/// acknowledges each delivery, and closes once all are confirmed and acknowledged.
#[derive(Drop)]
pub struct Client {
    heard: Unsent,
    talk: Talk,
}

/// What the client did so far, and what it has to say.
#[derive(Drop)]
struct Talk {
    messages: u16,
    published: u16,
    confirmed: u64,
    acked: u16,
    is_publishing: bool,
    is_closing: bool,
    /// Of the delivery whose content is being read: its tag, and how many bytes are still to come.
    tag: u64,
    left: u64,
    says: Unsent,
}

/// How many bytes the frame has with which these begin, where it is there whole.
fn first_frame(bytes: &[u8]) -> Option<usize>
    ensures { IfSome result (λ len. (8 ≤ len) × (len ≤ length bytes.now)) }
{
    let len = take_u32(bytes, 3)? as usize + FRAME_EXTRA;
    if bytes.len() < len { None } else { Some(len) }
}

/// The byte at a place, 0 where there is none.
fn byte_at(bytes: &[u8], at: usize) -> u8 {
    bytes.get(at).copied().unwrap_or(0)
}

/// The number of eight bytes at a place, likewise.
fn number_at(bytes: &[u8], at: usize) -> u64 {
    take_u64(bytes, at).unwrap_or(0)
}

/// Adds bytes to what is to be said.
fn put(says: &mut Unsent, bytes: &[u8]) {
    let _count = says.take_in(bytes);
}

/// Adds what stands before a payload of so many bytes.
fn put_head(says: &mut Unsent, kind: u8, channel: u16, size: usize) {
    put(says, &[kind]);
    put(says, &channel.to_be_bytes());
    put(says, &u32::try_from(size).unwrap_or(u32::MAX).to_be_bytes());
}

/// Adds a method frame.
fn put_method(says: &mut Unsent, channel: u16, payload: &[u8]) {
    put_head(says, METHOD, channel, payload.len());
    put(says, payload);
    put(says, &[FRAME_END]);
}

/// Adds a basic.publish to the queue, with a message.
fn put_message(says: &mut Unsent, message: u16) {
    let message = message as usize;
    let len = body_len(message);
    put_method(says, CHANNEL, b"\x00\x3C\x00\x28\x00\x00\x00\x01q\x00");
    put_head(says, CONTENT_HEADER, CHANNEL, 14);
    put(says, b"\x00\x3C\x00\x00");
    put(says, &(len as u64).to_be_bytes());
    put(says, &[0, 0, FRAME_END]);
    if len > 0 {
        put_head(says, BODY, CHANNEL, len);
        for k in 0..len {
            put(says, &[body_byte(message, k)]);
        }
        put(says, &[FRAME_END]);
    }
}

impl Client {
    /// A client that will publish so many messages.
    pub fn new(alloc: Global, messages: u16) -> Result<Client, Memory> {
        let heard = Unsent::new(alloc, FRAME_MAX)?;
        let mut says = Unsent::new(alloc, ROOM)?;
        put(&mut says, HEADER);
        let talk = Talk {
            messages,
            published: 0,
            confirmed: 0,
            acked: 0,
            is_publishing: false,
            is_closing: false,
            tag: 0,
            left: 0,
            says,
        };
        Ok(Client { heard, talk })
    }

    /// What the client has to say.
    pub fn says(&self) -> &[u8] {
        self.talk.says.bytes.as_slice()
    }

    /// So many bytes of it were read.
    pub fn said(&mut self, count: usize) {
        let count = count.min(self.talk.says.bytes.len());
        self.talk.says.drop_front(count);
    }

    /// The client reads these bytes, and does what the frames ask for.
    pub fn hear(&mut self, bytes: &[u8]) {
        let _count = self.heard.take_in(bytes);
        while let Some(len) = first_frame(self.heard.bytes.as_slice()) {
            let heard = &self.heard;
            let talk = &mut self.talk;
            talk.take_up(heard.bytes.as_slice(), len);
            self.heard.drop_front(len);
        }
    }

    /// Publishes messages until enough bytes wait. It is called before what the client has to say is
    /// read.
    pub fn publish(&mut self) {
        self.talk.publish();
    }
}

impl Talk {
    /// Does what the first frame asks for, which has so many bytes.
    fn take_up(&mut self, frame: &[u8], len: usize) {
        match byte_at(frame, 0) {
            METHOD => self.answer(frame),
            CONTENT_HEADER => {
                self.left = number_at(frame, ARGUMENTS);
                self.acknowledge();
            }
            BODY => {
                self.left = self
                    .left
                    .saturating_sub(len.saturating_sub(FRAME_EXTRA) as u64);
                self.acknowledge();
            }
            _ => {}
        }
    }

    /// Adds a method frame to what is to be said.
    fn say(&mut self, channel: u16, payload: &[u8]) {
        put_method(&mut self.says, channel, payload);
    }

    /// Answers a method, by the ids of its class and its own.
    fn answer(&mut self, frame: &[u8]) {
        let class = take_u16(frame, FRAME_HEAD).unwrap_or(0);
        let id = take_u16(frame, FRAME_HEAD + 2).unwrap_or(0);
        match class {
            10 => self.answer_connection(id),
            60 => self.answer_basic(id, frame),
            // channel.open-ok, 20.11: queue.declare
            20 => self.say(
                CHANNEL,
                b"\x00\x32\x00\x0A\x00\x00\x01q\x00\x00\x00\x00\x00",
            ),
            // queue.declare-ok, 50.11: confirm.select
            50 => self.say(CHANNEL, b"\x00\x55\x00\x0A\x00"),
            // confirm.select-ok, 85.11: basic.qos with a prefetch of 10
            85 => self.say(CHANNEL, b"\x00\x3C\x00\x0A\x00\x00\x00\x00\x00\x0A\x00"),
            _ => {}
        }
    }

    /// Answers a method of the class connection.
    fn answer_connection(&mut self, id: u16) {
        match id {
            // start: start-ok, with PLAIN
            10 => self.say(
                CONNECTION,
                b"\x00\x0A\x00\x0B\x00\x00\x00\x00\x05PLAIN\x00\x00\x00\x0C\x00guest\x00guest\x05en_US",
            ),
            // tune: tune-ok without heartbeats, and open
            30 => {
                self.say(
                    CONNECTION,
                    b"\x00\x0A\x00\x1F\x00\xFF\x00\x02\x00\x00\x00\x00",
                );
                self.say(CONNECTION, b"\x00\x0A\x00\x28\x01/\x00\x00");
            }
            // open-ok: channel.open
            41 => self.say(CHANNEL, b"\x00\x14\x00\x0A\x00"),
            _ => {}
        }
    }

    /// Answers a method of the class basic.
    fn answer_basic(&mut self, id: u16, frame: &[u8]) {
        match id {
            // qos-ok: consume
            11 => self.say(
                CHANNEL,
                b"\x00\x3C\x00\x14\x00\x00\x01q\x01c\x00\x00\x00\x00\x00",
            ),
            // consume-ok: the messages
            21 => self.is_publishing = true,
            // deliver: its tag stands behind the consumer's
            60 => {
                let name = byte_at(frame, ARGUMENTS) as usize;
                self.tag = number_at(frame, ARGUMENTS + 1 + name);
            }
            // ack
            80 => self.confirm(
                number_at(frame, ARGUMENTS),
                byte_at(frame, ARGUMENTS + 8) == 1,
            ),
            _ => {}
        }
    }

    /// A confirm: that of one message, or of all up to it.
    fn confirm(&mut self, tag: u64, is_multiple: bool) {
        self.confirmed = if is_multiple {
            self.confirmed.max(tag)
        } else {
            self.confirmed.saturating_add(1)
        };
        self.close_if_done();
    }

    /// Acknowledges the delivery once its content is whole.
    fn acknowledge(&mut self) {
        if self.left > 0 {
            return;
        }
        put_head(&mut self.says, METHOD, CHANNEL, 13);
        put(&mut self.says, b"\x00\x3C\x00\x50");
        put(&mut self.says, &self.tag.to_be_bytes());
        put(&mut self.says, &[0, FRAME_END]);
        self.acked = self.acked.saturating_add(1);
        self.close_if_done();
    }

    /// connection.close, once all is done.
    fn close_if_done(&mut self) {
        let is_done = self.confirmed >= self.messages as u64 && self.acked >= self.messages;
        if is_done && !self.is_closing {
            self.is_closing = true;
            self.say(
                CONNECTION,
                b"\x00\x0A\x00\x32\x00\xC8\x03bye\x00\x00\x00\x00",
            );
        }
    }

    /// Adds messages until enough bytes wait.
    fn publish(&mut self) {
        if !self.is_publishing {
            return;
        }
        for _ in 0..MOST_MESSAGES {
            if self.published >= self.messages || self.says.bytes.len() >= ENOUGH {
                break;
            }
            put_message(&mut self.says, self.published);
            self.published = self.published.saturating_add(1);
        }
    }
}
