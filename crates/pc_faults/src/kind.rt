//! The kinds of cards, of decks of every sort.
ghost use Rattle.std.specs.Prelude.{◌≡◌, ◌≤◌, length};
ghost use Rattle.pc_faults.specs.Kinds.{word_of};

/// The kind of a card, which its first field names.
#[derive(Clone, Copy, Debug, PartialEq, Eq)]
pub enum Kind {
    Project,
    AsOf,
    Wbs,
    Event,
    Act,
    Acct,
    Charge,
    ToGo,
    Status,
    End,
    Piece,
    Terms,
    Task,
    After,
    Res,
    Load,
}

impl Kind {
    /// Returns the word that names the kind.
    pub fn word(self) -> &'static [u8]
        ensures word { result.now ≡ word_of self }
        ensures short { length result.now ≤ 7 }
    {
        match self {
            Kind::Project => b"PROJECT",
            Kind::AsOf => b"ASOF",
            Kind::Terms => b"TERMS",
            Kind::Wbs => b"WBS",
            Kind::Event => b"EVENT",
            Kind::Act => b"ACT",
            Kind::Task => b"TASK",
            Kind::After => b"AFTER",
            Kind::Piece => b"PIECE",
            Kind::Acct => b"ACCT",
            Kind::Charge => b"CHARGE",
            Kind::ToGo => b"TOGO",
            Kind::Status => b"STATUS",
            Kind::Res => b"RES",
            Kind::Load => b"LOAD",
            Kind::End => b"END",
        }
    }
}
