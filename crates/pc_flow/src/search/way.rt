//! Which way labels may cross an activity.
ghost use Rattle.std.specs.Prelude.{◌≡◌};
ghost use Rattle.pc_flow.specs.inside.search.Ways.{by_way, goes_against};

/// The direction of a step: along its activity, or against it.
#[derive(Clone, Copy, Debug, PartialEq, Eq)]
pub enum Way {
    Along,
    Against,
}

impl Way {
    /// Returns, of the events where an activity begins and ends, the one from which a step goes, and the one to which
    /// it leads.
    #[inline(always)]
    pub fn ends(self, from: u32, to: u32) -> (u32, u32)
        ensures near { result.0 ≡ by_way self from to }
        ensures far { result.1 ≡ by_way self to from }
    {
        match self {
            Way::Along => (from, to),
            Way::Against => (to, from),
        }
    }

    /// Returns whether the step goes against its activity.
    #[inline(always)]
    pub fn is_against(self) -> bool
        ensures { result ≡ goes_against self }
    {
        match self {
            Way::Along => false,
            Way::Against => true,
        }
    }
}
