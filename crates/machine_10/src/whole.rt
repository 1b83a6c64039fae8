//! A performative and the payload behind it.

ghost use Rattle.std.specs.Prelude.{◌≡◌};
ghost use Rattle.types_10.specs.Fields.{maybe};
ghost use Rattle.performatives_10.specs.View.{error_tree};
ghost use Rattle.machine_10.specs.Parts.{parts_of};
ghost use Rattle.machine_10.specs.Reading.{act_of, field};
ghost use Rattle.machine_10.specs.Transitions.{OfSession, meaning_of};
ghost use Rattle.machine_10.specs.declared.unit.Act10.TheVariants as act;

use crate::reading::act_of;
use crate::unit::{Act10, Want10};
use performatives_10::{Error10, Perf};
use std::marker::Model;
use wire_base::ByteText;

/// A performative, and the payload behind it. Contracts see the performative as its kind and its
/// fields, so that no proof about a connection has to look at each kind.
#[derive(Debug, Drop)]
pub(crate) struct Whole10 {
    perf: Perf,
    payload: ByteText,
}

impl Model for Whole10 {
    ghost use Rattle.std.specs.Prelude.{ℕ, List};
    ghost use Rattle.std.specs.Coded.{coded_ℕ, coded_list, coded×};
    ghost use Rattle.types_10.specs.TreeCode.{trees_code};
    ghost use Rattle.machine_10.specs.Parts.{Parts, parts_of};

    ghost Value = { Parts × List ℕ };

    ghost coded = { coded× (coded× coded_ℕ trees_code) (coded_list coded_ℕ) };

    ghost view = { λ w. (parts_of w.perf, w.payload) };
}

impl Whole10 {
    pub(crate) fn new(perf: Perf, payload: ByteText) -> Whole10
        ensures { result ≡ (parts_of perf, payload) }
    {
        Whole10 { perf, payload }
    }

    /// The performative.
    pub(crate) fn perf(&self) -> &Perf
        ensures { parts_of result.now ≡ self.now.0 }
    {
        &self.perf
    }

    /// What the performative does to a connection.
    pub(crate) fn act(&self) -> Act10
        ensures { result ≡ act_of self.now.0 }
    {
        act_of(&self.perf)
    }

    /// The same, and the performative is let go.
    pub(crate) fn into_act(self) -> Act10
        ensures { result ≡ act_of self.0 }
    {
        let act = self.act();
        drop(self);
        act
    }

    /// What a performative of a session wants, which is on this channel of the gateway.
    #[tactic(auto, unfolding(crate::specs::Transitions::meaning_of))]
    pub(crate) fn for_session(self, own: u16) -> Want10
        ensures { meaning_of result ≡ OfSession own self.0 self.1 }
    {
        Want10::Session(own, self.perf, self.payload)
    }

    /// Takes a close's error out, and lets the rest go.
    pub(crate) fn into_error(self) -> Option<Error10>
        requires { act_of self.0 ≡ act.Close }
        ensures { maybe error_tree result ≡ field self.0.1 0 }
    {
        let mut whole = self;
        let error = error_in(&mut whole.perf);
        drop(whole);
        error
    }
}

/// Takes a close's error out.
#[tactic(auto, unfolding(crate::specs::Reading::act_of, crate::specs::Parts::parts_of))]
fn error_in(perf: &mut Perf) -> Option<Error10>
    requires { act_of (parts_of perf.old) ≡ act.Close }
    ensures { maybe error_tree result ≡ field (parts_of perf.old).1 0 }
{
    match perf {
        Perf::Close(close) => close.error.take(),
        _ => None,
    }
}
