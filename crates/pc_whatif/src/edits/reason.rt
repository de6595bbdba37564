//! Why a line of a session is refused.
ghost use Rattle.std.specs.Prelude.{◌≡◌, ◌≤◌};
ghost use Rattle.pc_whatif.specs.edits.Reasons.{reason_number};

/// Why a line is refused. If several reasons hold, the first in this order is reported.
#[derive(Clone, Copy)]
pub(crate) enum Reason {
    /// The line has none of the forms, or is longer than `MAX_LINE` bytes.
    Form,
    /// No activity has the code.
    UnknownActivity,
    /// A number other than the length of a trial is over the limit of its field on a card.
    OverLimit,
    /// The crash duration would be above the normal one.
    CrashAboveNormal,
    /// The estimates would be out of order.
    EstimatesOutOfOrder,
    /// A piece of the activity would have a slope that does not rise, or would leave no units to the pieces before it.
    PieceFault,
    /// No edit is kept.
    NothingToUndo,
    /// The length of a trial is outside the range of the project.
    OutsideRange,
}

impl Reason {
    /// Returns the number that reports the reason, 1 to 8.
    pub(crate) fn number(self) -> u64
        ensures number { result ≡ reason_number self }
        ensures within { result ≤ 8 }
    {
        match self {
            Reason::Form => 1,
            Reason::UnknownActivity => 2,
            Reason::OverLimit => 3,
            Reason::CrashAboveNormal => 4,
            Reason::EstimatesOutOfOrder => 5,
            Reason::PieceFault => 6,
            Reason::NothingToUndo => 7,
            Reason::OutsideRange => 8,
        }
    }
}
