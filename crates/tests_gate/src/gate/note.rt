//! What a ferry tells of its newest entry.

ghost use Rattle.std.specs.Prelude.{◌≡◌};
ghost use Rattle.tests_gate.specs.FerryWords.{text_of};

/// What is told of the newest entry.
#[derive(Clone, Copy)]
pub enum Note {
    Nothing,
    /// A moment of a second or more was given.
    Late,
    FromClient,
    FromUpstream,
    TakenUp,
    Joined,
    Refused,
    Ended,
    Failed,
    Shut,
    /// The pair ran out of memory.
    Parting,
}

impl Note {
    /// Its line; none for `Nothing`.
    pub fn text(self) -> &'static [u8]
        ensures { result.now ≡ text_of self }
    {
        match self {
            Note::Nothing => b"",
            Note::Late => b"late\n",
            Note::FromClient => b"from client\n",
            Note::FromUpstream => b"from upstream\n",
            Note::TakenUp => b"taken up\n",
            Note::Joined => b"joined\n",
            Note::Refused => b"refused\n",
            Note::Ended => b"ended\n",
            Note::Failed => b"failed\n",
            Note::Shut => b"shut\n",
            Note::Parting => b"parting\n",
        }
    }
}
