//! The names of performatives (AMQP 1.0 2.7) and of the frame bodies of the SASL layer (5.3.3).

ghost use Rattle.std.specs.Prelude.{◌≡◌};
ghost use Rattle.performatives_10.specs.Reading.{code_of};
ghost use Rattle.performatives_10.specs.View.{kind_of};
ghost use Rattle.gate_listing.specs.Names.{performative_name};
ghost use Rattle.gate_listing.specs.Units.{is_sasl};

use performatives_10::Perf;

pub(crate) fn performative_name(perf: &Perf) -> &'static [u8]
    ensures { result.now ≡ performative_name (code_of (kind_of perf.now)) }
{
    match perf {
        Perf::Open(_) => b"open",
        Perf::Begin(_) => b"begin",
        Perf::Attach(_) => b"attach",
        Perf::Flow(_) => b"flow",
        Perf::Transfer(_) => b"transfer",
        Perf::Disposition(_) => b"disposition",
        Perf::Detach(_) => b"detach",
        Perf::End(_) => b"end",
        Perf::Close(_) => b"close",
        Perf::SaslMechanisms(_) => b"sasl-mechanisms",
        Perf::SaslInit(_) => b"sasl-init",
        Perf::SaslChallenge(_) => b"sasl-challenge",
        Perf::SaslResponse(_) => b"sasl-response",
        Perf::SaslOutcome(_) => b"sasl-outcome",
    }
}

/// Whether a performative is a frame body of the SASL layer.
pub(crate) fn is_sasl(perf: &Perf) -> bool
    ensures { result ≡ is_sasl (code_of (kind_of perf.now)) }
{
    match perf {
        Perf::SaslMechanisms(_)
        | Perf::SaslInit(_)
        | Perf::SaslChallenge(_)
        | Perf::SaslResponse(_)
        | Perf::SaslOutcome(_) => true,
        Perf::Open(_)
        | Perf::Begin(_)
        | Perf::Attach(_)
        | Perf::Flow(_)
        | Perf::Transfer(_)
        | Perf::Disposition(_)
        | Perf::Detach(_)
        | Perf::End(_)
        | Perf::Close(_) => false,
    }
}
