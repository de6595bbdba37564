//! What a project spends and takes of its resources in each period.
ghost use Rattle.std.specs.Prelude.{◌≡◌, ◌*◌, ◌<◌, ◌≤◌, slice_index, IfOk, IfErr};
ghost use Rattle.pc_load.specs.inside.Entries.{AreEarliestTimes};
ghost use Rattle.pc_load.specs.Items.{LevelsAddUp};
ghost use Rattle.pc_load.specs.Loading.{AreItemParts, IsLoading, ItemsAddUp};
ghost use Rattle.pc_load.specs.inside.Loading.{HasNoLoad, IsReadyToLoad};
ghost use Rattle.pc_load.specs.inside.PrintedLoad.{loading_of};

use crate::entries::{costs, loads};
use crate::table::{MAX_PERIODS, Table, item_table};
use pc_project::Project;
use pc_times::early;
use std::alloc::{AllocError, Global};
use std::marker::Model;

/// The most days that a period can have.
pub const MAX_DAYS: u64 = 3_660;

/// The reason why there is no report of loads.
#[derive(Drop)]
pub enum NoLoad {
    /// The project takes this many periods, more than `MAX_PERIODS`.
    TooMany(u64),
    /// There is no memory for the tables.
    OutOfMemory,
}

impl From<AllocError> for NoLoad {
    ghost use Rattle.std.specs.Prelude.{◌≡◌};
    ghost use Rattle.pc_load.specs.declared.loading.NoLoad.TheVariants.{OutOfMemory};

    ghost from_gives = { λ _ e. e ≡ OutOfMemory };

    fn from(_: AllocError) -> NoLoad {
        NoLoad::OutOfMemory
    }
}

/// What a report of loads prints: how many days a period has, the items in preorder, and what the project spends by
/// item and takes by resource in each period.
#[derive(Clone, Copy)]
pub(crate) struct PrintedLoad<'a> {
    pub(crate) days: u64,
    pub(crate) order: &'a [u32],
    pub(crate) items: &'a Table,
    pub(crate) resources: &'a Table,
}

/// What a project spends by item and uses by resource in periods of a number of days.
///
/// It has the order of the items in the report: preorder.
pub struct Loading {
    days: u64,
    order: Vec<u32>,
    items: Table,
    resources: Table,
}

impl Drop for Loading {
    // Written by hand so that the proof of dropping it is done once, here.
    fn drop(self) {
        let Loading {
            days: _days,
            order: _order,
            items: _items,
            resources: _resources,
        } = self;
    }
}

impl Model for Loading {
    ghost use Rattle.pc_load.specs.Loading.{Loading};

    ghost Value = { Loading };

    ghost use Rattle.pc_load.specs.inside.LoadingInside.{loading_from};

    ghost view = { loading_from };
}

impl Loading {
    /// Returns the loading of the project in periods of `days` days.
    ///
    /// Costs and quantities are spread evenly over the expected time of their activity, from its earliest time on. The
    /// time that it takes is linear in the cells of the tables and in the periods that each activity and each load
    /// spans.
    ///
    /// # Errors
    ///
    /// - `TooMany` if the project takes more than `MAX_PERIODS` periods.
    /// - `OutOfMemory` if there is no memory for the tables.
    pub fn build(alloc: Global, project: &Project, days: u64) -> Result<Loading, NoLoad>
        requires least { 1 ≤ days }
        requires most { days ≤ MAX_DAYS }
        ensures loading { IfOk result (IsLoading project.now days) }
        ensures ready { IfOk result (IsReadyToLoad project.now) }
        ensures none { IfErr result (HasNoLoad project.now days) }
    {
        let times = early(alloc, project.net(), project.expected())?;
        // The last period is the one in which the project ends.
        let width = 6 * days;
        let have = times[project.net().end() as usize] / width + 1;
        if have > u64::from(MAX_PERIODS) {
            return Err(NoLoad::TooMany(have));
        }
        let periods = have as u32;
        let taken = loads(alloc, project, &times)?;
        Ok(Loading {
            days,
            order: Vec::from_slice(alloc, project.tree().preorder())?,
            items: items_of(alloc, project, &times, width, periods)?,
            resources: Table::build(alloc, project.resource_count(), &taken, width, periods)?,
        })
    }

    /// Returns what a report prints of it.
    pub(crate) fn printed(&self) -> PrintedLoad<'_>
        ensures { loading_of result ≡ self.now }
    {
        PrintedLoad {
            days: self.days,
            order: &self.order,
            items: &self.items,
            resources: &self.resources,
        }
    }
}

/// What is spent in each period by item.
fn items_of(
    alloc: Global,
    project: &Project,
    times: &[u64],
    width: u64,
    periods: u32,
) -> Result<Table, AllocError>
    requires times { AreEarliestTimes project.now times.now }
    requires least_width { 6 ≤ width }
    requires most_width { width ≤ 21_960 }
    requires some_periods { 1 ≤ periods }
    requires few_periods { periods ≤ MAX_PERIODS }
    requires whole { slice_index times.now project.now.network.end < width * periods }
    ensures parts { IfOk result (AreItemParts project.now times.now width periods) }
    ensures add_up { IfOk result (ItemsAddUp project.now) }
    ensures levels { IfOk result (LevelsAddUp project.now.tree) }
{
    let tree = project.tree();
    let entries = costs(alloc, project, times)?;
    let leaves = Table::build(alloc, tree.len(), &entries, width, periods)?;
    item_table(alloc, tree, &leaves)
}
