//! Ports that answer from a log, and tell it beside their calls.

ghost use Rattle.std.specs.Prelude.{◌≡◌, ◌==◌, [], length, true, IfOk, None};
ghost use Rattle.std.specs.List.{AllByRecursion};
ghost use Rattle.gate_outside.specs.Ends.{got_bytes};
ghost use Rattle.gate_outside.specs.ScriptState.{HasCome};
ghost use Rattle.gate_capture.specs.Spelling.{HasSpelling};
ghost use Rattle.gate_capture.specs.Replay.{whole, difference};
ghost use Rattle.gate_command.specs.Replaying.{anew, IsNoted};

use gate_capture::{ReplayPorts, replay_laws};
use gate_outside::{Accepted, Call, End, Entries, Got, Linked, Log, Next, Ports, Put};
use std::alloc::Global;
use std::marker::Model;
use wire_base::Memory;

/// The most calls that are noted, and the most bytes of theirs. After the first call that isn't its
/// entry reads and writes come to nothing, so that the run ends within two turns.
const MOST_CALLS: usize = 16_384;

const MOST_BYTES: usize = 16_777_216;

/// How many entries were used.
fn used_of(ports: &ReplayPorts) -> usize
    ensures { result ≡ length ports.now.log.used }
{
    replay_laws();
    match ports.differs() {
        Some(call) => call as usize,
        None => ports.entries().len(),
    }
}

/// Notes a call for which the log used no entry. Answers whether all such calls were noted.
fn note(rest: &mut Log, tells: bool, before: usize, after: usize, call: Call, bytes: &[u8]) -> bool
    ensures { IsNoted (after == before) call bytes.now tells result rest.old rest.new }
{
    if after != before {
        return tells;
    }
    tells && rest.add(call, bytes)
}

/// The bytes that came.
fn came(answer: Got, buf: &[u8]) -> &[u8]
    requires { HasCome answer buf.now }
    ensures { result.now ≡ got_bytes answer buf.now }
{
    match answer {
        Got::Bytes(count) => buf.split_at(count).0,
        Got::NotYet | Got::Ended | Got::Failed => &[],
    }
}

/// Ports that answer from a log while each call is its entry, and tell after a run which log it
/// was, and which calls were made.
#[derive(Drop)]
pub struct Rerun {
    ports: ReplayPorts,
    rest: Log,
    tells: bool,
}

impl Model for Rerun {
    ghost use Rattle.gate_command.specs.Replaying.{RerunState, Agrees};

    ghost Value = { RerunState };

    ghost view = { λ a. record { ports = a.ports; rest = a.rest.entries; tells = a.tells } };

    ghost invariant = { λ a. Agrees a.ports.differs a.tells a.rest.entries a.ports.log.left };
}

impl Rerun {
    /// Ports that answer from this log, from its first entry on.
    pub fn new(alloc: Global, entries: Entries) -> Result<Rerun, Memory>
        requires { AllByRecursion HasSpelling entries }
        ensures { IfOk result (λ rerun. rerun ≡ anew entries) }
    {
        Ok(Rerun {
            ports: ReplayPorts::new(alloc, entries)?,
            rest: Log::new(alloc, MOST_CALLS, MOST_BYTES)?,
            tells: true,
        })
    }

    /// The number of the first call that wasn't its entry, or of the first entry that is left.
    pub fn differs(&self) -> Option<u64>
        ensures { result ≡ difference self.now.ports }
    {
        self.ports.differs()
    }

    /// How many entries the log has.
    pub fn len(&self) -> usize
        ensures { result ≡ length (whole self.now.ports.log) }
    {
        self.ports.entries().len()
    }

    /// Whether all calls are told.
    pub fn is_told(&self) -> bool
        ensures { result ≡ self.now.tells }
    {
        self.tells
    }
}

impl Ports for Rerun {
    ghost use Rattle.gate_command.specs.Replaying.{told_over};

    ghost faults = { λ rerun. rerun.ports.faults };

    ghost pairs = { λ rerun. rerun.ports.pairs };

    ghost ends = { λ rerun. rerun.ports.ends };

    ghost last = { λ rerun. rerun.ports.last };

    ghost log = { told_over };

    fn accept(&mut self) -> Accepted {
        replay_laws();
        let before = used_of(&self.ports);
        let answer = self.ports.accept();
        let after = used_of(&self.ports);
        self.tells = note(
            &mut self.rest,
            self.tells,
            before,
            after,
            Call::Accept { answer },
            &[],
        );
        answer
    }

    fn connect(&mut self, pair: u32) -> Linked {
        replay_laws();
        let before = used_of(&self.ports);
        let answer = self.ports.connect(pair);
        let after = used_of(&self.ports);
        let call = Call::Connect { pair, answer };
        self.tells = note(&mut self.rest, self.tells, before, after, call, &[]);
        answer
    }

    fn read(&mut self, pair: u32, end: End, buf: &mut [u8]) -> Got {
        replay_laws();
        let before = used_of(&self.ports);
        let answer = self.ports.read(pair, end, buf);
        let after = used_of(&self.ports);
        let call = Call::Read {
            pair,
            end,
            room: buf.len() as u32,
            answer,
        };
        self.tells = note(
            &mut self.rest,
            self.tells,
            before,
            after,
            call,
            came(answer, buf),
        );
        answer
    }

    fn write(&mut self, pair: u32, end: End, bytes: &[u8]) -> Put {
        replay_laws();
        let before = used_of(&self.ports);
        let answer = self.ports.write(pair, end, bytes);
        let after = used_of(&self.ports);
        let call = Call::Write { pair, end, answer };
        self.tells = note(&mut self.rest, self.tells, before, after, call, bytes);
        answer
    }

    fn shut(&mut self, pair: u32, end: End) {
        replay_laws();
        let before = used_of(&self.ports);
        self.ports.shut(pair, end);
        let after = used_of(&self.ports);
        let call = Call::Shut { pair, end };
        self.tells = note(&mut self.rest, self.tells, before, after, call, &[]);
    }

    fn idle(&mut self) -> Next {
        replay_laws();
        let before = used_of(&self.ports);
        let answer = self.ports.idle();
        let after = used_of(&self.ports);
        let call = Call::Idle { answer };
        self.tells = note(&mut self.rest, self.tells, before, after, call, &[]);
        answer
    }

    fn now(&mut self) -> u64 {
        replay_laws();
        let before = used_of(&self.ports);
        let ms = self.ports.now();
        let after = used_of(&self.ports);
        let call = Call::Now { ms };
        self.tells = note(&mut self.rest, self.tells, before, after, call, &[]);
        ms
    }
}
