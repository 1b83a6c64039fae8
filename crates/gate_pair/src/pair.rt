//! A pair: its bridge, and for each end the bytes that are no unit yet, and how much of the unit in
//! progress was sent.

ghost use Rattle.std.specs.Prelude.{◌≡◌, ℕ, ◌<◌, ◌≤◌, true, false, List, [], ◌∷◌, length, OnOk};
ghost use Rattle.std.specs.Prelude.{OnErr, IfOk, IfSome, Some, is_some};
ghost use Rattle.gate_outside.specs.declared.ports.End.TheVariants.{Client, Up};
ghost use Rattle.bridge_core.specs.Offers.{Keeps};
ghost use Rattle.gate_pair.specs.Cutting.{after};
ghost use Rattle.gate_model.specs.Due.{is_busy, is_end_next};
ghost use Rattle.gate_model.specs.State.{Fed, Moment, before};
ghost use Rattle.gate_pair.specs.Meaning.{Told, given_up, leaves, made, needs_memory, offered};
ghost use Rattle.gate_pair.specs.Meaning.{ran_out, read_in, settled, steps, took};
ghost use Rattle.gate_pair.specs.PairStates.{Advances, FailedIn, IsOffered, Says};
ghost use Rattle.gate_pair.specs.PairStates.{StaysSound, forgotten, half_of, is_ready, said};
ghost use Rattle.gate_pair.specs.PairStates.{said_stream, tells_at};

use crate::cutting::{cut_client, cut_up, settle_all};
use bridge_core::Bridge;
use frames_091::Unread91;
use gate_model::Setup;
use gate_outside::{End, Linked, Sink};
use gate_relay::{Loss, Relay};
use std::alloc::Global;
use std::marker::Model;
use wire_base::{ByteText, Memory};

/// A pair of connections.
#[derive(Drop)]
pub struct Pair {
    /// What happened last may make lines of the report due.
    telling: bool,
    bridge: Bridge,
    /// The client's bytes that are no unit yet, or that wait.
    client: Unread91,
    /// How many bytes of the unit in progress to the client were sent.
    client_sent: usize,
    /// The container's bytes that are no unit yet.
    up: ByteText,
    /// How many bytes of the unit in progress to the container were sent.
    up_sent: usize,
}

impl Model for Pair {
    ghost use Rattle.gate_pair.specs.PairStates.{PairState, IsSound};

    ghost Value = { PairState };

    ghost use Rattle.tables_091.specs.TreeCode.{tree_code};
    ghost use Rattle.std.specs.Coded.{codes};

    ghost coded = { Prim.hlevel (codes, tree_code) };

    ghost view = { λ a. record {
      bridge = a.bridge;
      client = record { unread = a.client; at = a.client_sent };
      up = record { unread = a.up; at = a.up_sent };
      telling = a.telling;
    } };

    ghost invariant = { λ a. IsSound a.bridge a.client_sent a.up_sent };
}

/// So many bytes of what is offered to an end were taken. The result is how many of that unit were
/// sent.
fn advance(bridge: &mut Bridge, end: End, at: usize, count: usize) -> usize
    requires some { 1 ≤ count }
    requires offered { IsOffered end count at bridge.old }
    ensures advances { Advances end count at result bridge.old bridge.new }
    ensures memory { bridge.new.state.out_of_memory ≡ bridge.old.state.out_of_memory }
{
    let size = bridge.bytes(end).len();
    if bridge.is_busy(end) {
        let now = at + count;
        if now == size {
            bridge.wrote_all(end);
        }
        now
    } else {
        bridge.commit(end);
        if count == size {
            bridge.wrote_all(end);
        }
        count
    }
}

/// An end of a session goes next to the container.
fn ends_session(bridge: &Bridge) -> bool
    requires { is_busy bridge.now.state Up ≡ false → bridge.now.up.ready ≡ true }
    ensures { result ≡ is_end_next bridge.now.state }
{
    if bridge.is_busy(End::Up) {
        false
    } else {
        bridge.ends_session()
    }
}

/// That the client's end ended or failed is taken up, where it can be.
fn leave(bridge: &mut Bridge)
    requires { bridge.old.state.out_of_memory ≡ false }
    ensures step { bridge.new.state ≡ after (leaves bridge.old.state) bridge.old.state }
    ensures calm { bridge.new.state.out_of_memory ≡ false }
    ensures kept { Keeps bridge.old bridge.new }
    ensures sound { StaysSound bridge.old bridge.new }
{
    if bridge.can_leave() {
        bridge.take_up();
    }
}

impl Pair {
    /// Drops the bytes that are no unit yet.
    fn forget(&mut self)
        ensures { self.new ≡ forgotten self.old }
    {
        self.client.forget();
        self.up.truncate(0);
    }

    /// A moment was given.
    fn clock(&mut self, moment: u64)
        ensures step { (t : Told) → Says self.old t → Says self.new (made (Moment moment ∷ []) t) }
        ensures memory { self.new.bridge.state.out_of_memory ≡ self.old.bridge.state.out_of_memory }
    {
        self.bridge.tell(moment);
    }

    /// Bytes of an end came.
    fn feed(&mut self, end: End)
        ensures step { (t : Told) → Says self.old t → Says self.new (made (Fed end ∷ []) t) }
        ensures memory { self.new.bridge.state.out_of_memory ≡ self.old.bridge.state.out_of_memory }
    {
        self.bridge.feed(end);
    }

    /// An end is given up, if no byte of it came for too long.
    fn watch(&mut self, end: End)
        ensures step { (t : Told) → Says self.old t
            → Says self.new (made (given_up end (before (steps t))) t) }
        ensures memory { self.new.bridge.state.out_of_memory ≡ self.old.bridge.state.out_of_memory }
    {
        if self.bridge.is_silent(end) {
            self.bridge.silence(end);
        }
    }

    /// Bytes came from the client. They are cut into units, and what is no unit yet stays.
    fn came_client(&mut self, alloc: Global, bytes: &[u8]) -> Result<(), Memory>
        requires { self.old.bridge.state.out_of_memory ≡ false }
        ensures ok { OnOk result ((t : Told) → Says self.old t
            → Says self.new (read_in Client bytes.now t)) }
        ensures err { OnErr result (FailedIn (read_in Client bytes.now) self.old self.new) }
        ensures telling { self.new.telling ≡ true }
        ensures calm { OnOk result (self.new.bridge.state.out_of_memory ≡ false) }
        ensures met { OnErr result (self.new.bridge.state.out_of_memory ≡ true) }
    {
        self.telling = true;
        match cut_client(&mut self.bridge, alloc, &mut self.client, bytes) {
            Ok(()) => Ok(()),
            Err(error) => {
                self.forget();
                Err(error)
            }
        }
    }

    /// Bytes came from the container. They are cut into units, and what is no unit yet stays.
    /// Where there is no memory for the bytes no unit of them counts.
    fn came_up(&mut self, alloc: Global, bytes: &[u8]) -> Result<(), Memory>
        requires { self.old.bridge.state.out_of_memory ≡ false }
        ensures ok { OnOk result ((t : Told) → Says self.old t
            → Says self.new (read_in Up bytes.now t)) }
        ensures err { OnErr result (FailedIn (read_in Up bytes.now) self.old self.new) }
        ensures telling { self.new.telling ≡ true }
        ensures calm { OnOk result (self.new.bridge.state.out_of_memory ≡ false) }
        ensures met { OnErr result (self.new.bridge.state.out_of_memory ≡ true) }
    {
        self.telling = true;
        match self.up.append(bytes) {
            Ok(()) => match cut_up(&mut self.bridge, alloc, self.up.as_slice()) {
                Ok(at) => {
                    self.up.discard(at);
                    Ok(())
                }
                Err(error) => {
                    self.forget();
                    Err(error)
                }
            },
            Err(error) => {
                self.bridge.run_out();
                self.forget();
                Err(error)
            }
        }
    }

    /// What the client sent is taken up, as far as it can be: its units that waited, and then that
    /// its end ended or failed.
    fn take_up(&mut self, alloc: Global) -> Result<(), Memory>
        requires { self.old.bridge.state.out_of_memory ≡ false }
        ensures ok { OnOk result ((t : Told) → Says self.old t → Says self.new (settled t)) }
        ensures err { OnErr result (FailedIn settled self.old self.new) }
        ensures telling { self.new.telling ≡ true }
        ensures calm { OnOk result (self.new.bridge.state.out_of_memory ≡ false) }
        ensures met { OnErr result (self.new.bridge.state.out_of_memory ≡ true) }
    {
        self.telling = true;
        self.bridge.lines_told();
        match settle_all(&mut self.bridge, alloc) {
            Ok(()) => {
                leave(&mut self.bridge);
                Ok(())
            }
            Err(error) => {
                self.forget();
                Err(error)
            }
        }
    }

    /// Whether bytes are offered to an end. Without memory for them the pair ran out of memory.
    fn look(&mut self, alloc: Global, setup: &Setup, end: End) -> Result<bool, Memory>
        ensures some { IfOk result (λ yes. yes ≡ is_some (is_ready self.new end)) }
        ensures ready { OnOk result (is_ready self.new end
            ≡ offered setup.now end self.old.bridge.state (said_stream end (said self.old)).rest) }
        ensures kept { OnOk result (said self.new ≡ said self.old) }
        ensures err { OnErr result ((t : Told) → Says self.old t → Says self.new (ran_out 0 t)) }
        ensures telling { OnErr result (self.new.telling ≡ true) }
        ensures takes { OnErr result (needs_memory self.old.bridge.state end ≡ true) }
        ensures calm { OnErr result (self.old.bridge.state.out_of_memory ≡ false) }
        ensures met { OnErr result (self.new.bridge.state.out_of_memory ≡ true) }
        ensures memory { OnOk result
            (self.new.bridge.state.out_of_memory ≡ self.old.bridge.state.out_of_memory) }
    {
        if self.bridge.is_busy(end) {
            return Ok(true);
        }
        match self.bridge.peek(alloc, setup, end) {
            Ok(yes) => Ok(yes),
            Err(error) => {
                self.telling = true;
                self.forget();
                Err(error)
            }
        }
    }

    /// How many bytes of the unit in progress to an end were sent.
    fn sent(&self, end: End) -> usize
        ensures { result ≡ (half_of end self.now).at }
    {
        match end {
            End::Client => self.client_sent,
            End::Up => self.up_sent,
        }
    }

    /// The bytes that are offered.
    fn left(&self, end: End) -> &[u8]
        requires { is_some (is_ready self.now end) ≡ true }
        ensures ready { is_ready self.now end ≡ Some result.now }
        ensures some { 0 < length result.now }
        ensures small { length result.now ≤ 131072 }
    {
        let bytes = self.bridge.bytes(end);
        if self.bridge.is_busy(end) {
            let (_, rest) = bytes.split_at(self.sent(end));
            rest
        } else {
            bytes
        }
    }

    /// So many of the bytes that are offered to an end were taken.
    fn take_away(&mut self, end: End, count: usize)
        requires some { 1 ≤ count }
        requires within { IfSome (is_ready self.old end) (λ bytes. count ≤ length bytes) }
        requires ready { is_some (is_ready self.old end) ≡ true }
        ensures step { (t : Told) (bytes : List ℕ) → is_ready self.old end ≡ Some bytes
            → Says self.old t → Says self.new (took end count bytes t) }
        ensures telling { self.new.telling ≡ tells_at end self.old.bridge.state }
        ensures memory { self.new.bridge.state.out_of_memory ≡ self.old.bridge.state.out_of_memory }
    {
        match end {
            End::Client => {
                self.client_sent = advance(&mut self.bridge, End::Client, self.client_sent, count);
                self.telling = false;
            }
            End::Up => {
                let ends = ends_session(&self.bridge);
                self.up_sent = advance(&mut self.bridge, End::Up, self.up_sent, count);
                self.telling = ends;
            }
        }
    }
}

impl Relay for Pair {
    ghost use Rattle.gate_pair.specs.Meaning.{pair_words};
    ghost use Rattle.gate_pair.specs.PairStates.{Represents, is_ready};

    type Setup = Setup;

    ghost words = { pair_words };

    ghost represents = { Represents };

    ghost ready = { is_ready };

    ghost out_of_memory = { λ p. p.bridge.state.out_of_memory };

    fn new(alloc: Global, setup: &Setup, number: u32, moment: u64) -> Result<Pair, Memory> {
        let site = setup.site(alloc)?;
        Ok(Pair {
            bridge: Bridge::new(alloc, site, number, moment),
            client: Unread91::empty(alloc),
            client_sent: 0,
            up: ByteText::empty(alloc),
            up_sent: 0,
            telling: false,
        })
    }

    #[tactic(auto, using(crate::proofs::Memories::memory_is))]
    fn is_out_of_memory(&self) -> bool {
        self.bridge.is_out_of_memory()
    }

    fn tell(&mut self, moment: u64) {
        self.clock(moment);
        self.watch(End::Client);
        self.watch(End::Up);
        self.telling = true;
    }

    #[tactic(auto, unfolding(crate::specs::Meaning::pair_words))]
    fn awaits(&self, end: End) -> bool {
        self.bridge.is_awaiting(end)
    }

    fn came_in(
        &mut self,
        alloc: Global,
        _setup: &Setup,
        end: End,
        bytes: &[u8],
    ) -> Result<(), Memory> {
        self.feed(end);
        match end {
            End::Client => self.came_client(alloc, bytes),
            End::Up => self.came_up(alloc, bytes),
        }
    }

    fn dry(&mut self, _end: End) {
        self.telling = false;
    }

    fn lose(&mut self, end: End, how: Loss) {
        self.bridge.lose(end, how);
        self.telling = matches!(end, End::Up);
    }

    #[tactic(auto, unfolding(crate::specs::Meaning::pair_words))]
    fn takes_up(&self) -> bool {
        self.bridge.can_take_up()
    }

    fn settle(&mut self, alloc: Global, _setup: &Setup) -> Result<(), Memory> {
        self.take_up(alloc)
    }

    #[tactic(auto, unfolding(crate::specs::Meaning::pair_words))]
    fn connects(&self) -> bool {
        self.bridge.is_connect_due()
    }

    fn link(&mut self, answer: Linked) {
        self.bridge.link(answer);
        self.telling = true;
    }

    #[tactic(auto, unfolding(crate::specs::Meaning::pair_words))]
    fn peek(&mut self, alloc: Global, setup: &Setup, end: End) -> Result<bool, Memory> {
        self.look(alloc, setup, end)
    }

    fn bytes(&self, end: End) -> &[u8] {
        self.left(end)
    }

    fn took(&mut self, end: End, count: usize) {
        self.take_away(end, count);
    }

    fn stuck(&mut self, _end: End) {
        self.telling = false;
    }

    #[tactic(auto, unfolding(crate::specs::Meaning::pair_words))]
    fn shut_due(&self, end: End) -> bool {
        self.bridge.is_shut_due(end)
    }

    fn finish(&mut self) {
        self.telling = false;
    }

    #[tactic(auto, unfolding(crate::specs::Meaning::pair_words))]
    fn tell_lines<K: Sink>(&self, report: &mut K) -> bool {
        if self.telling {
            self.bridge.tell_lines(report)
        } else {
            true
        }
    }
}
