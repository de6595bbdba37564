//! The trait of what the report of event times is written from.
ghost use Rattle.std.specs.Prelude.{◌≡◌, ◌↔◌, ◌<◌, ◌≤◌, IfSome, IsNone, length, pos, slice_index, slice_index_or};
ghost use Rattle.pc_reports.specs.inside.View.{Shown};

use pc_project::Project;
use pc_times::Longest;

/// The event times of a project, its expected times and variances and its critical path, wherever they are kept.
///
/// Events and activities are numbered in card order from 0. Times are in sixths of a day from the project's start.
pub trait TimesView {
    // The figures that it shows.
    ghost shown: { Self → Shown };

    /// Returns the expected time of an activity, in sixths of a day.
    fn expected(&self, a: u32) -> u64
        requires { a < length (shown self.now).expected }
        ensures { result ≡ slice_index (shown self.now).expected a };

    /// Returns the variance of an activity's time, in thirty-sixths of a square day.
    fn variance(&self, a: u32) -> u64
        requires { a < length (shown self.now).variances }
        ensures { result ≡ slice_index (shown self.now).variances a };

    /// Returns the earliest time of an event.
    fn early(&self, e: u32) -> u64
        requires { e < length (shown self.now).times.early }
        ensures { result ≡ slice_index (shown self.now).times.early e };

    /// Returns the latest time of an event.
    fn late(&self, e: u32) -> i64
        requires { e < length (shown self.now).times.late }
        ensures { result ≡ slice_index_or (shown self.now).times.late e (pos 0) };

    /// Returns the `k`-th activity of the critical path, counted from 0 at the start event, or `None` past the last.
    fn on_path(&self, k: u32) -> Option<u32>
        ensures known { IfSome result (λ a. k < length (shown self.now).times.path) }
        ensures activity { IfSome result (λ a. a ≡ slice_index (shown self.now).times.path k) }
        ensures past { IsNone result ↔ (length (shown self.now).times.path ≤ k) };
}

/// The longest paths and the latest times of a project.
#[derive(Clone, Copy)]
pub(crate) struct Reported<'a> {
    pub(crate) project: &'a Project,
    pub(crate) longest: &'a Longest,
    pub(crate) late: &'a [i64],
}

impl<'a> TimesView for Reported<'a> {
    ghost shown = { λ r. record {
      expected = r.project.now.expected;
      variances = r.project.now.variances;
      times = record { early = r.longest.now.times; late = r.late.now; path = r.longest.now.path };
    } };

    fn expected(&self, a: u32) -> u64 {
        self.project.expected()[a as usize]
    }

    fn variance(&self, a: u32) -> u64 {
        self.project.variances()[a as usize]
    }

    fn early(&self, e: u32) -> u64 {
        self.longest.times()[e as usize]
    }

    fn late(&self, e: u32) -> i64 {
        self.late[e as usize]
    }

    fn on_path(&self, k: u32) -> Option<u32> {
        self.longest.path().get(k as usize).copied()
    }
}
