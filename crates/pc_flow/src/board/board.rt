//! A board, and the numbers in its columns.
ghost use Rattle.std.specs.Prelude.{◌≡◌, ◌+◌, ◌*◌, ◌<◌, ◌≤◌, ◌^◌, IsTrue, slice_index};
ghost use Rattle.pc_cells.specs.inside.Spans.{free_of};
ghost use Rattle.pc_flow.specs.inside.board.Sheets.{clear_sheet};
ghost use Rattle.pc_flow.specs.inside.board.Taken.{AreColumnsTaken};
ghost use Rattle.pc_flow.specs.inside.board.Places.{column_of, size_of, is_small, IsSetAt};

use pc_cells::{Mark, Region, Span};
use std::marker::Model;

/// What is known of each event, and from `Flow` on of each activity: a column has a number for each of them.
#[derive(Clone, Copy, Debug, PartialEq, Eq)]
pub(in crate::board) enum Column {
    Time,
    Rank,
    Queue,
    Step,
    Against,
    Near,
    Room,
    Lost,
    Flow,
    Waiting,
    Slot,
    Due,
    Up,
    Down,
}

/// The span of each column.
#[derive(Clone, Copy, Debug)]
pub(in crate::board) struct Columns {
    pub(in crate::board) time: Span,
    pub(in crate::board) rank: Span,
    pub(in crate::board) queue: Span,
    pub(in crate::board) step: Span,
    pub(in crate::board) against: Span,
    pub(in crate::board) near: Span,
    pub(in crate::board) room: Span,
    pub(in crate::board) lost: Span,
    pub(in crate::board) flow: Span,
    pub(in crate::board) waiting: Span,
    pub(in crate::board) slot: Span,
    pub(in crate::board) due: Span,
    pub(in crate::board) up: Span,
    pub(in crate::board) down: Span,
}

impl Columns {
    ghost use Rattle.std.specs.Prelude.{◌≡◌};
    ghost use Rattle.pc_flow.specs.inside.board.Places.{span_of};

    /// The span of one of them.
    pub(in crate::board) fn span(&self, column: Column) -> Span
        ensures { result ≡ span_of self.now column }
    {
        match column {
            Column::Time => self.time,
            Column::Rank => self.rank,
            Column::Queue => self.queue,
            Column::Step => self.step,
            Column::Against => self.against,
            Column::Near => self.near,
            Column::Room => self.room,
            Column::Lost => self.lost,
            Column::Flow => self.flow,
            Column::Waiting => self.waiting,
            Column::Slot => self.slot,
            Column::Due => self.due,
            Column::Up => self.up,
            Column::Down => self.down,
        }
    }
}

/// The labels, times and flows of a search over a network's events and activities, by number.
///
/// Each event has a time. An event with a label has a rank, its place in the queue counted from 1, and the step that
/// gave it the label: an activity, whether the step goes against it, the event from which the step comes, and how much
/// more may flow there at least. The time of an event without a label is stored with the sum of all steps of the times
/// added, so that such a step changes no stored time. Each activity has its flow and the lengths of the arcs on which
/// its next unit and its last one run. It may be on the list of those that wait for a step of the times, with a sum of
/// these steps before which it does not stop.
#[derive(Drop)]
pub struct Board {
    region: Region,
    mark: Mark,
    columns: Columns,
    pub(in crate::board) fallen: u64,
    pub(in crate::board) count: u32,
    pub(in crate::board) head: u32,
    pub(in crate::board) len: u32,
}

impl Model for Board {
    ghost use Rattle.pc_flow.specs.board.Sheets.{Sheet};

    ghost Value = { Sheet };

    ghost use Rattle.pc_flow.specs.inside.board.Layout.{sheet_of, IsBoard};

    ghost view = { sheet_of };

    ghost invariant = { IsBoard };
}

impl Board {
    /// Creates a board for this many events and activities in the free cells of a region, with 0 in each place.
    pub fn new(region: Region, events: u32, activities: u32) -> Board
        requires events { 0 < events }
        requires activities { 0 < activities }
        requires room { 8 * events + 6 * activities ≤ free_of region }
        ensures { result ≡ clear_sheet region events activities }
    {
        let mut region = region;
        let mark = region.mark();
        let columns = columns_of(&mut region, events as usize, activities as usize);
        Board {
            region,
            mark,
            columns,
            fallen: 0,
            count: 0,
            head: 0,
            len: 0,
        }
    }

    /// Returns the region as it was before.
    pub fn close(self) -> Region
        ensures { result ≡ self.home }
    {
        let mut region = self.region;
        region.release_to(self.mark);
        region
    }

    // What a column has of an event or an activity.
    pub(in crate::board) fn get(&self, column: Column, i: u32) -> u64
        requires { i < size_of self.now.events self.now.activities column }
        ensures value { result ≡ slice_index (column_of self.now column) i }
        ensures small { IsTrue (is_small column) → result < 2 ^ 32 }
    {
        self.region.get(self.columns.span(column), i as usize)
    }

    // What a column of small numbers has.
    pub(in crate::board) fn number(&self, column: Column, i: u32) -> u32
        requires within { i < size_of self.now.events self.now.activities column }
        requires small { IsTrue (is_small column) }
        ensures { result ≡ slice_index (column_of self.now column) i }
    {
        self.get(column, i) as u32
    }

    // Sets what a column has.
    pub(in crate::board) fn set(&mut self, column: Column, i: u32, v: u64)
        requires within { i < size_of self.old.events self.old.activities column }
        requires small { IsTrue (is_small column) → v < 2 ^ 32 }
        ensures { IsSetAt self.old self.new column i v }
    {
        self.region.set(self.columns.span(column), i as usize, v);
    }
}

// The columns, taken one after another.
fn columns_of(region: &mut Region, events: usize, activities: usize) -> Columns
    requires events { 0 < events }
    requires activities { 0 < activities }
    requires room { 8 * events + 6 * activities ≤ free_of region.old }
    ensures { AreColumnsTaken region.old region.new events activities result }
{
    Columns {
        time: region.take_free(events),
        rank: region.take_free(events),
        queue: region.take_free(events),
        step: region.take_free(events),
        against: region.take_free(events),
        near: region.take_free(events),
        room: region.take_free(events),
        lost: region.take_free(events),
        flow: region.take_free(activities),
        waiting: region.take_free(activities),
        slot: region.take_free(activities),
        due: region.take_free(activities),
        up: region.take_free(activities),
        down: region.take_free(activities),
    }
}
