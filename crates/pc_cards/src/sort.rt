//! The sorts of decks, and what differs by the sort and the version of a deck.
ghost use Rattle.std.specs.Prelude.{◌≡◌, ◌==◌, if◌then◌else◌};
ghost use Rattle.pc_cards.specs.Entry.{by_sort};

/// What a deck is a deck of.
#[derive(Clone, Copy)]
pub enum Sort {
    /// A plan: events, and activities from one to another.
    Plan,
    /// Tasks, and which of them come after which.
    Tasks,
}

/// Returns one number in a plan, and another in a deck of tasks.
pub fn by_sort(sort: Sort, plan: u32, tasks: u32) -> u32
    ensures { result ≡ by_sort plan tasks sort }
{
    match sort {
        Sort::Plan => plan,
        Sort::Tasks => tasks,
    }
}

/// Returns a limit that is greater in decks of version 2.
pub fn by_version(version: u64, small: u32, large: u32) -> u32
    ensures { result ≡ (if version == 2 then large else small) }
{
    if version == 2 { large } else { small }
}
