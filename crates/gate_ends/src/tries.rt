//! The tries to reach a server that has some addresses: at which of them, and when.

ghost use Rattle.std.specs.Prelude.{◌≡◌, ◌≢◌, ◌+◌, ◌-◌, ◌*◌, ◌<◌, ◌≤◌, ◌^◌, ◌↔◌};
ghost use Rattle.std.specs.Prelude.{IsTrue, max, min};
ghost use Rattle.gate_ends.specs.declared.tries.TheConstants.{REST, LOOK_UPS};

/// How long after a round without success the next one begins at the soonest, in milliseconds.
const REST: u64 = 1_000;

/// A rest lasts at least so many times as long as the look-up of the addresses took, since nothing
/// else goes on meanwhile.
const LOOK_UPS: u64 = 10;

/// What is known of a server.
#[derive(Clone, Copy, Debug, PartialEq, Eq)]
pub enum Reach {
    /// The last try reached it, and nothing failed there since.
    Reached,
    /// Something failed there, and the address in use is tried once more.
    Doubted,
    /// That failed too, or nothing is known yet: each address is tried.
    Sought,
    /// No address could be reached. All are tried again, round after round.
    Lost,
}

/// The tries to reach a server. One may be under way, at the address of that place.
#[derive(Debug, Drop)]
pub struct Tries {
    pub reach: Reach,
    /// How many addresses it has.
    pub count: usize,
    /// The place among them of the one that is in use, or tried next.
    pub place: usize,
    /// How many tries the round has left. With none left a round is to begin.
    pub left: usize,
    /// The moment from which the next try may be made.
    pub from: u64,
    ghost placed: { place < count },
}

impl Tries {
    /// Nothing is known of a server with so many addresses. The first round has begun.
    pub fn new(count: usize) -> Tries
        requires { 0 < count }
        ensures reach { result.reach ≡ Reach.Sought }
        ensures count { result.count ≡ count }
        ensures place { result.place ≡ 0 }
        ensures left { result.left ≡ count }
        ensures from { result.from ≡ 0 }
    {
        Tries {
            reach: Reach::Sought,
            count,
            place: 0,
            left: count,
            from: 0,
        }
    }

    pub fn is_reached(&self) -> bool
        ensures { IsTrue result ↔ self.now.reach ≡ Reach.Reached }
    {
        matches!(self.reach, Reach::Reached)
    }

    pub fn is_lost(&self) -> bool
        ensures { IsTrue result ↔ self.now.reach ≡ Reach.Lost }
    {
        matches!(self.reach, Reach::Lost)
    }

    /// Something failed at a server that was reached.
    pub fn doubt(&mut self)
        ensures doubted { self.old.reach ≡ Reach.Reached → self.new
            ≡ record self.old { reach = Reach.Doubted; left = 1; from = 0 } }
        ensures kept { self.old.reach ≢ Reach.Reached → self.new ≡ self.old }
    {
        if self.is_reached() {
            self.reach = Reach::Doubted;
            self.left = 1;
            self.from = 0;
        }
    }

    /// Whether a try may be made at this moment: where a round has one left, of an address, else of
    /// a look-up.
    pub fn is_due(&self, moment: u64) -> bool
        ensures { IsTrue result ↔ (self.now.reach ≢ Reach.Reached) × (self.now.from ≤ moment) }
    {
        !self.is_reached() && self.from <= moment
    }

    /// A round begins, over so many addresses.
    pub fn begin(&mut self, count: usize)
        requires { 0 < count }
        ensures round { self.new.count ≡ count }
        ensures left { self.new.left ≡ count }
        ensures place { self.old.place < count → self.new.place ≡ self.old.place }
        ensures reach { self.new.reach ≡ self.old.reach }
        ensures from { self.new.from ≡ self.old.from }
    {
        if count <= self.place {
            self.place = 0;
        }
        self.count = count;
        self.left = count;
    }

    /// The try reached the server. Whether that was lost before.
    pub fn succeed(&mut self) -> bool
        ensures lost { IsTrue result ↔ self.old.reach ≡ Reach.Lost }
        ensures reached { self.new ≡ record self.old { reach = Reach.Reached } }
    {
        let was_lost = self.is_lost();
        self.reach = Reach::Reached;
        was_lost
    }

    /// The try failed at this moment, in a round whose look-up took so many milliseconds. Whether
    /// the server is lost by that.
    pub fn fail(&mut self, moment: u64, took: u64) -> bool
        ensures lost { IsTrue result ↔ (self.old.reach ≢ Reach.Lost) × (self.new.reach
            ≡ Reach.Lost) }
        ensures doubted { self.old.reach ≡ Reach.Doubted → (self.new.reach ≡ Reach.Sought)
            × (self.new.left ≡ 0) × (self.new.from ≡ 0) }
        ensures more { self.old.reach ≢ Reach.Doubted → 1 < self.old.left
            → (self.new.reach ≡ self.old.reach) × (self.new.left ≡ self.old.left - 1)
            × (self.new.from ≡ self.old.from) }
        ensures last { self.old.reach ≢ Reach.Doubted → self.old.left ≤ 1
            → (self.new.reach ≡ Reach.Lost) × (self.new.left ≡ 0)
            × (self.new.from ≡ min (moment + max REST (took * LOOK_UPS)) (2 ^ 64 - 1)) }
        ensures next { self.old.place + 1 < self.old.count
            → self.new.place ≡ self.old.place + 1 }
        ensures first { self.old.place + 1 ≡ self.old.count → self.new.place ≡ 0 }
        ensures count { self.new.count ≡ self.old.count }
    {
        let was_lost = self.is_lost();
        self.place = if self.place + 1 < self.count {
            self.place + 1
        } else {
            0
        };
        if matches!(self.reach, Reach::Doubted) {
            self.reach = Reach::Sought;
            self.left = 0;
            self.from = 0;
            return false;
        }
        if self.left > 1 {
            self.left -= 1;
            return false;
        }
        self.left = 0;
        self.from = moment.saturating_add(REST.max(took.saturating_mul(LOOK_UPS)));
        self.reach = Reach::Lost;
        !was_lost
    }
}
