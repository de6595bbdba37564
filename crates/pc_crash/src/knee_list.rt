//! The knees of one activity's cost.
ghost use Rattle.std.specs.Prelude.{◌≡◌, ◌+◌, ◌<◌, ◌≤◌, length};
ghost use Rattle.pc_model.specs.inside.Pieces.{knee_at};

use pc_model::{Knee, MAX_PIECES_EACH};
use std::marker::Model;

/// The knees of one activity's cost, in units: its normal duration, and then where each of its pieces begins.
///
/// Each unit that the activity is shorter than knee k costs the sum of the rises of knees 0 to k, down to the next
/// knee.
#[derive(Drop)]
pub struct KneeList<'n> {
    list: &'n [Knee],
}

/// A `KneeList` under the name that the calls about one activity have for it.
pub type Knees<'n> = KneeList<'n>;

impl<'n> Model for KneeList<'n> {
    ghost use Rattle.std.specs.Prelude.{List, length, ◌+◌, ◌≤◌};
    ghost use Rattle.pc_model.specs.declared.Knee.{Knee};
    ghost use Rattle.pc_model.specs.declared.limits.TheConstants.{MAX_PIECES_EACH};

    ghost Value = { List Knee };

    ghost view = { λ knees. knees.list.now };

    ghost invariant = { λ knees. length knees.list.now ≤ MAX_PIECES_EACH + 1 };
}

impl<'n> KneeList<'n> {
    pub(crate) fn new(list: &'n [Knee]) -> KneeList<'n>
        requires { length list.now ≤ MAX_PIECES_EACH + 1 }
        ensures { result ≡ list.now }
    {
        KneeList { list }
    }

    /// Returns the number of knees: one more than the activity has pieces.
    pub fn len(&self) -> u32
        ensures { result ≡ length self.now }
    {
        self.list.len() as u32
    }

    /// Returns the duration at a knee.
    pub fn knee(&self, k: u32) -> u64
        requires { k < length self.now }
        ensures { result ≡ (knee_at self.now k).at }
    {
        self.list[k as usize].at
    }

    /// Returns how much more a unit costs below a knee than above it.
    pub fn rise(&self, k: u32) -> u64
        requires { k < length self.now }
        ensures { result ≡ (knee_at self.now k).rise }
    {
        self.list[k as usize].rise
    }

    /// Returns the knees, from the normal duration downwards.
    pub fn as_slice(&self) -> &'n [Knee]
        ensures { result.now ≡ self.now }
    {
        self.list
    }
}
