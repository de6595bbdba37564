//! Why rows are no tree.

use pc_model::Indices;
use std::alloc::{AllocError, AllocFailed};

/// Why rows are no tree. The causes are tried in this order.
#[derive(Debug, Drop)]
pub enum TreeError {
    /// Every row has a parent.
    NoTop,
    /// The second row without a parent.
    SecondTop { item: u32 },
    /// The first row that is its own ancestor, and the loop that begins there: each row is followed by its parent.
    Loop(Indices),
    /// The first row below the 16th level, and its level.
    TooDeep { item: u32, level: u32 },
    OutOfMemory,
}

impl From<AllocError> for TreeError {
    ghost use Rattle.std.specs.Prelude.{◌≡◌};
    ghost use Rattle.pc_wbs.specs.declared.error.TreeError.TheVariants.{OutOfMemory};

    ghost from_gives = { λ _ e. e ≡ OutOfMemory };

    fn from(_error: AllocError) -> TreeError {
        TreeError::OutOfMemory
    }
}

impl<T: Drop> From<AllocFailed<T>> for TreeError {
    ghost use Rattle.std.specs.Prelude.{◌≡◌};
    ghost use Rattle.pc_wbs.specs.declared.error.TreeError.TheVariants.{OutOfMemory};

    ghost from_gives = { λ _ e. e ≡ OutOfMemory };

    fn from(_error: AllocFailed<T>) -> TreeError {
        TreeError::OutOfMemory
    }
}
