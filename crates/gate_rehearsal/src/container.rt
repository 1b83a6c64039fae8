//! The container of a rehearsal (AMQP 1.0 2.3 to 2.7, 5.3). It has one queue, `q`, and one session.

ghost use Rattle.std.specs.Prelude.{◌≤◌, IfSome, length};

use crate::messages::MOST_BODY;
use gate_ends::Unsent;
use std::alloc::Global;
use wire_base::{Memory, take_u32};

/// The first byte of both protocol headers, with which no frame begins, and how many bytes they
/// have.
const HEADER_FIRST: u8 = b'A';

const HEADER_LEN: usize = 8;

/// Which protocol a header asks for, at this place of it.
const PROTOCOL_AT: usize = 4;

const SASL: u8 = 3;

/// Where the code of a performative stands in its frame, and where its list begins.
const CODE_AT: usize = 10;

const LIST_AT: usize = 11;

/// The largest frame that the container takes, which it states.
const FRAME_MAX: usize = 65_536;

/// How much longer a message is than its body: the sections before it, and its length here.
const MESSAGE_EXTRA: usize = 64;

/// The bytes that the container may have waiting to be read: as many deliveries as there is credit
/// for, and for each message an answer.
const ROOM: usize = 262_144;

const ANSWER_ROOM: usize = 64;

/// The credit that the container states for what it receives.
const CREDIT: u32 = 100;

/// The bytes of a list of fields are at most so many.
const LIST_ROOM: usize = 200;

/// A message as it waits in the queue: its length in four bytes, and it.
const LEN: usize = 4;

/// A container that takes each message, accepts it in its order, and sends it on to the link that
/// receives from its queue, as far as that has credit.
#[derive(Drop)]
pub struct Container {
    heard: Unsent,
    desk: Desk,
}

/// What the container did so far, what waits in its queue, and what it has to say.
#[derive(Drop)]
struct Desk {
    // Messages received, and how many of them since credit was last stated.
    received: u32,
    used: u32,
    // The gateway's handle of the link that it sends on.
    receives_on: u32,
    // That of the link that receives from the queue, messages sent, and how many may be.
    sends_on: u32,
    sent: u32,
    credit: u32,
    queue: Unsent,
    says: Unsent,
    // The list of fields that is being put together.
    list: Unsent,
}

/// The fields of the list of a frame's performative, one after another, in AMQP 1.0's spelling
/// (1.6).
#[derive(Clone, Copy, Debug)]
struct Fields<'a> {
    frame: &'a [u8],
    at: usize,
    /// Where the list ends, and the payload begins.
    end: usize,
}

/// Where a field stands.
#[derive(Clone, Copy, Debug)]
struct Place {
    from: usize,
    to: usize,
}

impl<'a> Fields<'a> {
    /// Those of a frame.
    fn of(frame: &'a [u8]) -> Option<Fields<'a>> {
        let size = LIST_AT + 1;
        match frame.get(LIST_AT)? {
            0xC0 => {
                let len = *frame.get(size)? as usize;
                Some(Fields {
                    frame,
                    at: size + 2,
                    end: size + 1 + len,
                })
            }
            0xD0 => {
                let len = take_u32(frame, size)? as usize;
                Some(Fields {
                    frame,
                    at: size + 8,
                    end: size + 4 + len,
                })
            }
            _ => None,
        }
    }

    /// The byte at this place, 0 behind the last.
    fn byte(&self, at: usize) -> u8 {
        self.frame.get(at).copied().unwrap_or(0)
    }

    fn skip(&mut self, count: usize) {
        self.at = self.at.saturating_add(count);
    }

    /// The next field, a number; 0 where it is null or none.
    fn number(&mut self) -> u32 {
        let value = self.at.saturating_add(1);
        match self.byte(self.at) {
            0x52 => {
                self.skip(2);
                self.byte(value) as u32
            }
            0x70 => {
                self.skip(5);
                take_u32(self.frame, value).unwrap_or(0)
            }
            _ => {
                self.skip(1);
                0
            }
        }
    }

    /// The next field, a short text.
    fn text(&mut self) -> Place {
        let from = self.at;
        let len = self.byte(from.saturating_add(1)) as usize;
        self.skip(len + 2);
        Place { from, to: self.at }
    }

    /// Whether the next field is true.
    fn flag(&mut self) -> bool {
        let flag = self.byte(self.at);
        self.skip(1);
        flag == 0x41
    }
}

/// How long the first unit is, a header or a frame, where it is there whole.
fn first_unit(bytes: &[u8]) -> Option<usize>
    ensures { IfSome result (λ len. (8 ≤ len) × (len ≤ length bytes.now)) }
{
    let size = if bytes.first() == Some(&HEADER_FIRST) {
        HEADER_LEN
    } else {
        take_u32(bytes, 0)? as usize
    };
    if size < HEADER_LEN || bytes.len() < size {
        return None;
    }
    Some(size)
}

/// A number as the shortest uint (AMQP 1.0 1.6.5).
#[derive(Clone, Copy, Debug)]
struct Uint {
    bytes: [u8; 5],
    len: usize,
}

fn shortest(n: u32) -> Uint {
    let [a, b, c, d] = n.to_be_bytes();
    if n == 0 {
        Uint {
            bytes: [0x43, 0, 0, 0, 0],
            len: 1,
        }
    } else if n < 256 {
        Uint {
            bytes: [0x52, d, 0, 0, 0],
            len: 2,
        }
    } else {
        Uint {
            bytes: [0x70, a, b, c, d],
            len: 5,
        }
    }
}

impl Uint {
    fn as_slice(&self) -> &[u8] {
        self.bytes.as_slice().get(..self.len).unwrap_or(&[])
    }
}

impl Container {
    /// A container to which so many messages will come.
    pub fn new(alloc: Global, messages: u16) -> Result<Container, Memory> {
        let messages = messages as usize;
        let heard = Unsent::new(alloc, FRAME_MAX)?;
        let desk = Desk {
            received: 0,
            used: 0,
            receives_on: 0,
            sends_on: 0,
            sent: 0,
            credit: 0,
            queue: Unsent::new(alloc, messages * (MOST_BODY + MESSAGE_EXTRA))?,
            says: Unsent::new(alloc, ROOM + messages * ANSWER_ROOM)?,
            list: Unsent::new(alloc, LIST_ROOM)?,
        };
        Ok(Container { heard, desk })
    }

    /// What the container has to say.
    pub fn says(&self) -> &[u8] {
        self.desk.says.bytes.as_slice()
    }

    /// So many bytes of it were read.
    pub fn said(&mut self, count: usize) {
        let count = count.min(self.desk.says.bytes.len());
        self.desk.says.drop_front(count);
    }

    /// The container reads these bytes, and does what the units ask for.
    pub fn hear(&mut self, bytes: &[u8]) {
        let _count = self.heard.take_in(bytes);
        while let Some(len) = first_unit(self.heard.bytes.as_slice()) {
            let heard = &self.heard;
            let desk = &mut self.desk;
            desk.take_up(heard.bytes.as_slice(), len);
            self.heard.drop_front(len);
        }
    }
}

impl Desk {
    /// Adds to what the container has to say.
    fn say(&mut self, bytes: &[u8]) {
        let _count = self.says.take_in(bytes);
    }

    /// Does what the first unit asks for, which has so many bytes.
    fn take_up(&mut self, unit: &[u8], len: usize) {
        if unit.first() == Some(&HEADER_FIRST) {
            self.answer_header(unit);
            return;
        }
        match unit.get(CODE_AT).copied().unwrap_or(0) {
            // sasl-init: the outcome ok
            0x41 => self.say(b"\x00\x00\x00\x10\x02\x01\x00\x00\x00\x53\x44\xC0\x03\x01\x50\x00"),
            // open: one with the limits of this container
            0x10 => self.say(
                b"\x00\x00\x00\x22\x02\x00\x00\x00\x00\x53\x10\xC0\x15\x04\xA1\x09rehearsal\x40\x70\x00\x01\x00\x00\x60\xFF\xFF",
            ),
            // begin: one with wide windows
            0x11 => self.say(
                b"\x00\x00\x00\x1E\x02\x00\x00\x01\x00\x53\x11\xC0\x11\x05\x60\x00\x01\x43\x70\x40\x00\x00\x00\x70\x40\x00\x00\x00\x52\xFF",
            ),
            0x12 => self.attach(unit),
            0x13 => self.flow(unit),
            0x14 => self.receive(unit, len),
            0x16 => self.detach(unit),
            0x17 => self.say(b"\x00\x00\x00\x0C\x02\x00\x00\x01\x00\x53\x17\x45"),
            0x18 => self.say(b"\x00\x00\x00\x0C\x02\x00\x00\x00\x00\x53\x18\x45"),
            _ => {}
        }
    }

    /// The header of the protocol that is asked for, and of SASL its mechanisms.
    fn answer_header(&mut self, header: &[u8]) {
        if header.get(PROTOCOL_AT) == Some(&SASL) {
            self.say(b"AMQP\x03\x01\x00\x00");
            self.say(
                b"\x00\x00\x00\x22\x02\x01\x00\x00\x00\x53\x40\xC0\x15\x01\xE0\x12\x02\xA3\x05PLAIN\x09ANONYMOUS",
            );
        } else {
            self.say(b"AMQP\x00\x01\x00\x00");
        }
    }

    /// A frame of the session: the performative of this code with the list that was put together,
    /// of so many fields, before a payload of so many bytes, which is to follow.
    fn say_listed(&mut self, code: u8, count: u8, payload: usize) {
        let len = self.list.bytes.len();
        let whole = payload.saturating_add(len).saturating_add(LIST_AT + 3);
        let size = u8::try_from(len).unwrap_or(u8::MAX).saturating_add(1);
        self.say(&u32::try_from(whole).unwrap_or(u32::MAX).to_be_bytes());
        self.say(&[2, 0, 0, 1, 0, 0x53, code, 0xC0, size, count]);
        self.say_list();
    }

    /// Adds a field, or several as they are spelled.
    fn add(&mut self, spelled: &[u8]) {
        let _count = self.list.take_in(spelled);
    }

    /// Puts a message into the queue.
    fn keep(&mut self, message: &[u8]) {
        let len = u32::try_from(message.len()).unwrap_or(0);
        let _len = self.queue.take_in(&len.to_be_bytes());
        let _count = self.queue.take_in(message);
    }

    /// Says the first message of the queue, which has so many bytes, and takes it away.
    fn say_message(&mut self, len: usize) {
        let queue = &mut self.queue;
        let says = &mut self.says;
        let end = LEN.saturating_add(len);
        if let Some(message) = queue.bytes.as_slice().get(LEN..end) {
            let _count = says.take_in(message);
            queue.drop_front(end);
        }
    }

    /// Says the list of fields that was put together.
    fn say_list(&mut self) {
        let list = &mut self.list;
        let says = &mut self.says;
        let _count = says.take_in(list.bytes.as_slice());
        list.clear();
    }

    /// attach: the other end of the link. Where the gateway receives, it is the queue's; where it
    /// sends, it gets credit.
    fn attach(&mut self, frame: &[u8]) {
        let Some(mut fields) = Fields::of(frame) else {
            return;
        };
        let name = fields.text();
        let handle = fields.number();
        let receives = fields.flag();
        self.add(frame.get(name.from..name.to).unwrap_or(&[]));
        self.add(shortest(handle).as_slice());
        if receives {
            self.sends_on = handle;
            self.credit = 0;
            // a sender, which settles as asked, from the queue
            self.add(b"\x42\x50\x00\x50\x00");
            self.add(b"\x00\x53\x28\xC0\x04\x01\xA1\x01q\x00\x53\x29\x45\x40\x40\x43");
            self.say_listed(0x12, 10, 0);
        } else {
            self.receives_on = handle;
            // a receiver, to the queue
            self.add(b"\x41\x50\x00\x50\x00");
            self.add(b"\x00\x53\x28\x45\x00\x53\x29\xC0\x04\x01\xA1\x01q");
            self.say_listed(0x12, 7, 0);
            self.state_credit();
        }
    }

    /// flow: the credit of the link that the gateway sends on.
    fn state_credit(&mut self) {
        self.used = 0;
        self.add(shortest(self.received).as_slice());
        self.add(b"\x70\x40\x00\x00\x00");
        self.add(shortest(self.sent).as_slice());
        self.add(b"\x70\x40\x00\x00\x00");
        self.add(shortest(self.receives_on).as_slice());
        self.add(shortest(self.received).as_slice());
        self.add(shortest(CREDIT).as_slice());
        self.say_listed(0x13, 7, 0);
    }

    /// A flow of the link that the gateway receives on: how much may be sent.
    fn flow(&mut self, frame: &[u8]) {
        let Some(mut fields) = Fields::of(frame) else {
            return;
        };
        let _session = [
            fields.number(),
            fields.number(),
            fields.number(),
            fields.number(),
        ];
        let handle = fields.number();
        let count = fields.number();
        let credit = fields.number();
        if handle == self.sends_on {
            self.credit = count.wrapping_add(credit).wrapping_sub(self.sent);
            self.send_on();
        }
    }

    /// A transfer, with a whole message: it is accepted, and goes to the queue.
    fn receive(&mut self, frame: &[u8], len: usize) {
        let Some(mut fields) = Fields::of(frame) else {
            return;
        };
        let _handle = fields.number();
        let id = fields.number();
        self.keep(frame.get(fields.end..len).unwrap_or(&[]));
        self.received = self.received.wrapping_add(1);
        self.used = self.used.wrapping_add(1);
        self.add(b"\x41");
        self.add(shortest(id).as_slice());
        self.add(b"\x40\x41\x00\x53\x24\x45");
        self.say_listed(0x15, 5, 0);
        if self.used >= CREDIT / 2 {
            self.state_credit();
        }
        self.send_on();
    }

    /// Sends what the queue holds, as far as there is credit.
    fn send_on(&mut self) {
        for _ in 0..self.credit {
            if !self.send_next() {
                break;
            }
            self.credit = self.credit.saturating_sub(1);
        }
    }

    /// transfer: the next message of the queue. Answers whether there was one.
    fn send_next(&mut self) -> bool {
        let Some(len) = take_u32(self.queue.bytes.as_slice(), 0) else {
            return false;
        };
        let len = len as usize;
        if self.queue.bytes.len() < LEN + len {
            return false;
        }
        self.add(shortest(self.sends_on).as_slice());
        self.add(shortest(self.sent).as_slice());
        self.add(b"\xA0\x08");
        self.add(&(self.sent as u64).to_be_bytes());
        self.add(b"\x43\x42");
        self.say_listed(0x14, 5, len);
        self.say_message(len);
        self.sent = self.sent.wrapping_add(1);
        true
    }

    /// detach: the other end is closed too.
    fn detach(&mut self, frame: &[u8]) {
        let Some(mut fields) = Fields::of(frame) else {
            return;
        };
        let handle = fields.number();
        self.add(shortest(handle).as_slice());
        self.add(b"\x41");
        self.say_listed(0x16, 2, 0);
    }
}
