//! The numbers of calls, by which a script or a stream in memory fails.

ghost use Rattle.std.specs.Prelude.{◌≡◌, ◌<◌, ◌≤◌, ◌==◌, true, length, slice_index};
ghost use Rattle.std.specs.List.{list_any};
ghost use Rattle.gate_outside.specs.CallCounts.{is_to_fail, counted, tried, one_more};
ghost use Rattle.gate_outside.specs.Counts.{Rose};

use wire_base::ItemList;

/// The numbers of the calls that are to fail.
pub type CallList = ItemList<u64>;

/// The calls so far. Both counts stand still at the largest `u64`.
#[derive(Debug, Drop)]
pub struct Calls {
    fails: CallList,
    call: u64,
    faults: u64,
}

impl Calls {
    /// No call yet, and no fault.
    pub fn new(fails: CallList) -> Calls
        ensures { result ≡ record { fails = fails; call = 0; faults = 0 } }
    {
        Calls {
            fails,
            call: 0,
            faults: 0,
        }
    }

    /// Counts a call of a kind that cannot fail.
    pub fn count(&mut self)
        ensures { self.new ≡ counted self.old }
    {
        self.call = self.call.saturating_add(1);
    }

    /// Raises the count of faults.
    pub fn fault(&mut self)
        ensures goes { self.new ≡ record self.old { faults = one_more self.old.faults } }
        ensures later { self.old.faults ≤ self.new.faults }
        ensures rose { Rose self.old.faults self.new.faults }
    {
        self.faults = self.faults.saturating_add(1);
    }

    /// Counts a call, and tells whether it is to fail, which is then a fault.
    pub fn fails(&mut self) -> bool
        ensures answer { result ≡ is_to_fail self.old }
        ensures goes { self.new ≡ tried self.old }
        ensures later { self.old.faults ≤ self.new.faults }
        ensures cause { result ≡ true → Rose self.old.faults self.new.faults }
    {
        let failing = contains(&self.fails, self.call);
        self.count();
        if failing {
            self.fault();
        }
        failing
    }
}

#[tactic(auto, using(std::proofs::lemmas::List::Folds::list_any_at, std::proofs::lemmas::List::Folds::list_any_more, std::proofs::lemmas::List::take_all))]
fn contains(numbers: &CallList, number: u64) -> bool
    ensures { result ≡ list_any (λ n. n == number) numbers.now }
{
    for k in 0..numbers.len() {
        if stands_at(numbers, k, number) {
            return true;
        }
    }
    false
}

fn stands_at(numbers: &CallList, k: usize, number: u64) -> bool
    requires { k < length numbers.now }
    ensures { result ≡ (slice_index numbers.now k == number) }
{
    match numbers.get(k) {
        Some(found) => *found == number,
        None => false,
    }
}
