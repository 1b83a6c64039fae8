//! The kinds of performatives, by the codes of their descriptors (AMQP 1.0 2.7, 5.3.3).

ghost use Rattle.std.specs.Prelude.{◌≡◌};
ghost use Rattle.performatives_10.specs.Reading.{code_of, kind_with};

/// The kind of a performative or of a frame body of the SASL layer.
#[derive(Clone, Copy)]
pub(crate) enum PerfKind {
    Open,
    Begin,
    Attach,
    Flow,
    Transfer,
    Disposition,
    Detach,
    End,
    Close,
    SaslMechanisms,
    SaslInit,
    SaslChallenge,
    SaslResponse,
    SaslOutcome,
}

/// The code of a kind's descriptor.
pub(crate) fn code_of(kind: PerfKind) -> u64
    ensures { result ≡ code_of kind }
{
    match kind {
        PerfKind::Open => 0x10,
        PerfKind::Begin => 0x11,
        PerfKind::Attach => 0x12,
        PerfKind::Flow => 0x13,
        PerfKind::Transfer => 0x14,
        PerfKind::Disposition => 0x15,
        PerfKind::Detach => 0x16,
        PerfKind::End => 0x17,
        PerfKind::Close => 0x18,
        PerfKind::SaslMechanisms => 0x40,
        PerfKind::SaslInit => 0x41,
        PerfKind::SaslChallenge => 0x42,
        PerfKind::SaslResponse => 0x43,
        PerfKind::SaslOutcome => 0x44,
    }
}

/// The kind with this code; `None` where no performative has it.
#[tactic(auto, unfolding(crate::specs::Reading::kind_with))]
pub(crate) fn kind_at(code: u64) -> Option<PerfKind>
    ensures { result ≡ kind_with code }
{
    match code {
        0x10 => Some(PerfKind::Open),
        0x11 => Some(PerfKind::Begin),
        0x12 => Some(PerfKind::Attach),
        0x13 => Some(PerfKind::Flow),
        0x14 => Some(PerfKind::Transfer),
        0x15 => Some(PerfKind::Disposition),
        0x16 => Some(PerfKind::Detach),
        0x17 => Some(PerfKind::End),
        0x18 => Some(PerfKind::Close),
        0x40 => Some(PerfKind::SaslMechanisms),
        0x41 => Some(PerfKind::SaslInit),
        0x42 => Some(PerfKind::SaslChallenge),
        0x43 => Some(PerfKind::SaslResponse),
        0x44 => Some(PerfKind::SaslOutcome),
        _ => None,
    }
}
