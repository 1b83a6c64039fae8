//! Ports that play a client and a container in memory.

ghost use Rattle.std.specs.Prelude.{◌≡◌, ◌≤◌, ◌<◌, ◌↔◌, [], length, None, Some, reverse, IfOk};
ghost use Rattle.std.specs.Prelude.{IfSome, IfNone, min};
ghost use Rattle.std.specs.List.{AllByRecursion};
ghost use Rattle.gate_outside.specs.Ends.{ReadsInto, got_bytes};
ghost use Rattle.gate_outside.specs.ScriptState.{HasCome};
ghost use Rattle.gate_outside.specs.declared.ports.Got.{Got};
ghost use Rattle.gate_outside.specs.declared.ports.End.{End};
ghost use Rattle.gate_rehearsal.specs.Playing.{GivesFew, IsPlayed};
ghost use Rattle.gate_rehearsal.specs.Standing.{opened_ends, opened_pairs, told_log};

use crate::client::Client;
use crate::container::Container;
use crate::opened::Opened;
use crate::story::Story;
use gate_outside::{Accepted, Call, End, Got, Linked, Log, Next, Ports, Put};
use std::alloc::Global;
use wire_base::Memory;

/// A read gives at most so many bytes, and a write takes at most so many.
const READ_MOST: usize = 1_021;

const WRITE_MOST: usize = 509;

/// Room in the log for so many calls, and for so many more with each message.
const CALLS: usize = 1_024;

const CALLS_EACH: usize = 64;

/// Room for the bytes of calls, and for so many more with each message: its reads, and its writes,
/// of which each has all bytes that were still offered.
const BYTES: usize = 1_048_576;

const BYTES_EACH: usize = 24_576;

/// One pair, whose client publishes messages to a queue of the container and consumes from it. All
/// memory that calls need is reserved when the ports are made.
#[derive(Drop)]
pub struct RehearsePorts {
    client: Client,
    container: Container,
    opened: Opened,
    story: Story,
}

/// Copies the first bytes over those of a buffer, and leaves the rest of the buffer as it was.
fn copy_front(bytes: &[u8], buf: &mut [u8]) -> Got
    requires some { 0 < length bytes.now }
    requires room { 0 < length buf.old }
    ensures few { GivesFew result }
    ensures bytes { ReadsInto result buf.old buf.new }
    ensures some { result ≡ Got.NotYet → ⊥ }
{
    let count = bytes.len().min(buf.len()).min(READ_MOST);
    buf[..count].copy_from_slice(&bytes[..count]);
    Got::Bytes(count)
}

impl RehearsePorts {
    /// Ports that were not asked yet, over so many messages.
    pub fn new(alloc: Global, count: u16) -> Result<RehearsePorts, Memory>
        ensures pairs { IfOk result (λ ports. opened_pairs ports.opened ≡ 0) }
        ensures ends { IfOk result (λ ports. opened_ends ports.opened ≡ []) }
        ensures log { IfOk result (λ ports. told_log ports.story ≡ Some []) }
    {
        let messages = count as usize;
        Ok(RehearsePorts {
            client: Client::new(alloc, count)?,
            container: Container::new(alloc, count)?,
            opened: Opened::NoPair,
            story: Story::new(
                alloc,
                CALLS + messages * CALLS_EACH,
                BYTES + messages * BYTES_EACH,
            )?,
        })
    }

    /// The calls so far; `None` exactly where the entry of one found no room.
    pub fn log(&self) -> Option<&Log>
        ensures some { IfSome result (λ log. told_log self.now.story
            ≡ Some (reverse log.now.entries)) }
        ensures played { IfSome result (λ log. AllByRecursion IsPlayed log.now.entries) }
        ensures none { IfNone result (told_log self.now.story ≡ None) }
    {
        self.story.log()
    }

    /// What the peer at this end has to say.
    fn says(&self, end: End) -> &[u8] {
        match end {
            End::Client => self.client.says(),
            End::Up => self.container.says(),
        }
    }

    /// The peer at this end reads these bytes.
    fn hear(&mut self, end: End, bytes: &[u8])
        ensures opened { self.new.opened ≡ self.old.opened }
        ensures story { self.new.story ≡ self.old.story }
    {
        match end {
            End::Client => self.client.hear(bytes),
            End::Up => self.container.hear(bytes),
        }
    }

    /// Has the client publish, if it is the client that is read.
    fn publish(&mut self, end: End)
        ensures opened { self.new.opened ≡ self.old.opened }
        ensures story { self.new.story ≡ self.old.story }
    {
        if end == End::Client {
            self.client.publish();
        }
    }

    /// So many bytes of what the peer had to say were read.
    fn said(&mut self, end: End, count: usize)
        ensures opened { self.new.opened ≡ self.old.opened }
        ensures story { self.new.story ≡ self.old.story }
    {
        match end {
            End::Client => self.client.said(count),
            End::Up => self.container.said(count),
        }
    }

    /// Gives what the peer has to say, as far as it fits.
    fn give(&mut self, end: End, buf: &mut [u8]) -> Got
        requires { 0 < length buf.old }
        ensures few { GivesFew result }
        ensures bytes { ReadsInto result buf.old buf.new }
        ensures opened { self.new.opened ≡ self.old.opened }
        ensures story { self.new.story ≡ self.old.story }
    {
        self.publish(end);
        let says = self.says(end);
        if says.is_empty() {
            return Got::NotYet;
        }
        let answer = copy_front(says, buf);
        if let Got::Bytes(count) = answer {
            self.said(end, count);
        }
        answer
    }
}

/// The bytes that came into a buffer.
fn bytes_that_came(answer: Got, buf: &[u8]) -> &[u8]
    requires { HasCome answer buf.now }
    ensures { result.now ≡ got_bytes answer buf.now }
{
    match answer {
        Got::Bytes(count) => buf.split_at(count).0,
        Got::NotYet | Got::Ended | Got::Failed => &[],
    }
}

impl Ports for RehearsePorts {
    ghost use Rattle.gate_rehearsal.specs.Standing.{opened_ends, opened_pairs, told_log};

    ghost faults = { λ _. 0 };

    ghost pairs = { λ ports. opened_pairs ports.opened };

    ghost ends = { λ ports. opened_ends ports.opened };

    ghost last = { λ _. 0 };

    ghost log = { λ ports. told_log ports.story };

    fn accept(&mut self) -> Accepted {
        let answer = self.opened.accept();
        self.story.tell(Call::Accept { answer }, &[]);
        answer
    }

    fn connect(&mut self, pair: u32) -> Linked {
        self.opened.link(pair);
        let answer = Linked::Ok;
        self.story.tell(Call::Connect { pair, answer }, &[]);
        answer
    }

    fn read(&mut self, pair: u32, end: End, buf: &mut [u8]) -> Got {
        let answer = self.give(end, buf);
        let read = Call::Read {
            pair,
            end,
            room: buf.len() as u32,
            answer,
        };
        self.story.tell(read, bytes_that_came(answer, buf));
        answer
    }

    fn write(&mut self, pair: u32, end: End, bytes: &[u8]) -> Put {
        let count = bytes.len().min(WRITE_MOST);
        self.hear(end, &bytes[..count]);
        let answer = Put::Took(count);
        self.story.tell(Call::Write { pair, end, answer }, bytes);
        answer
    }

    fn shut(&mut self, pair: u32, end: End) {
        self.opened.close(pair, end);
        self.story.tell(Call::Shut { pair, end }, &[]);
    }

    fn idle(&mut self) -> Next {
        let answer = Next::Stop;
        self.story.tell(Call::Idle { answer }, &[]);
        answer
    }

    fn now(&mut self) -> u64 {
        let ms = 0;
        self.story.tell(Call::Now { ms }, &[]);
        ms
    }
}
