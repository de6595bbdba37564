//! The conditions of a certificate, and the numbers that report them.
ghost use Rattle.std.specs.Prelude.{◌≡◌};
ghost use Rattle.pc_check.specs.inside.Reasons.{number_of_condition};

/// A condition of a certificate. Its number is the reason that a failure reports.
#[derive(Clone, Copy)]
pub(crate) enum Condition {
    /// The head is that of the deck.
    Head = 1,
    /// The normal walk is a through walk, as long as the first upper end.
    NormalWalk = 2,
    /// The crash walk is a through walk, as long as the last lower end.
    CrashWalk = 3,
    /// The codes are those of the deck, in card order.
    Codes = 4,
    /// The start and the end have the times of the segment.
    Ends = 5,
    /// The gaps are at least crash.
    Gaps = 6,
    /// The duration is what the gap allows, and at most normal.
    Duration = 7,
    /// The flow at each knee is at most its capacity, the rise.
    Capacity = 8,
    /// What enters an event leaves it.
    Conservation = 9,
    /// The slope leaves the start.
    Outflow = 10,
    /// The flows fit the gaps.
    Slackness = 11,
    /// The cost is that of the durations.
    Cost = 12,
    /// The cut gain is the slope.
    CutGain = 13,
    /// Some activity stops at the lower end.
    Stop = 14,
    /// The segments cover the range once.
    Cover = 15,
}

impl Condition {
    /// Returns the number that reports the condition, from 1 to 15.
    pub(crate) fn number(self) -> u8
        ensures { result ≡ number_of_condition self }
    {
        self as u8
    }
}
