//! The lines of the segment that was put last. Most of them are lines of the next one too.
ghost use Rattle.std.specs.Prelude.{◌≡◌, ◌+◌, ◌<◌, ◌≤◌, ◌++◌, length, IfOk};
ghost use Rattle.pc_cert.specs.Lines.{numbers};
ghost use Rattle.pc_certify.specs.inside.fast.Spelled.{
  SpellsEvent,
  SpellsAct,
  AreEventsSpelled,
  AreActsSpelled,
  filled_along,
};

use crate::fast::gathered::Gathered;
use crate::fast::spelling::{NUMBER_ROOM, ROOM, Spelling};
use pc_cert::{EVENT_NAMED, MAX_FLOWS};
use pc_crash::CrashNet;
use pc_text::Code;
use std::alloc::{AllocError, Global};

/// The most bytes of the flows of an activity, each after a space.
const FLOWS_ROOM: usize = MAX_FLOWS * NUMBER_ROOM;

/// The line of an event: what it says, and its text.
#[derive(Drop)]
pub struct EventRow {
    pub(crate) time: u64,
    pub(crate) moves: bool,
    pub(crate) spelling: Spelling,
}

/// The line of an activity: its duration, the sum of its flows, and its text.
#[derive(Drop)]
pub struct ActRow {
    pub(crate) duration: u64,
    pub(crate) whole: u64,
    pub(crate) spelling: Spelling,
}

/// The lines of events and activities as they were put last, in card order.
///
/// What a line says in the next segment is compared with what it says now, so that the text of a line that occurs again
/// is put as it is. There is also a buffer in which lines are collected for the page.
pub struct LastLines {
    pub(crate) events: Vec<EventRow>,
    pub(crate) acts: Vec<ActRow>,
    pub(crate) gathered: Gathered,
}

impl Drop for LastLines {
    // Written by hand so that the proof of dropping it is done once, here.
    fn drop(self) {
        let LastLines {
            events: _events,
            acts: _acts,
            gathered: _gathered,
        } = self;
    }
}

impl LastLines {
    /// Returns lines that say 0 of everything. It takes all its memory here.
    ///
    /// # Errors
    ///
    /// `AllocError` if there is no memory for the lines.
    pub fn build(alloc: Global, net: &CrashNet<'_>) -> Result<LastLines, AllocError>
        ensures events { IfOk result (λ lines. AreEventsSpelled net.now lines.events.items) }
        ensures acts { IfOk result (λ lines. AreActsSpelled net.now lines.acts.items) }
    {
        Ok(LastLines {
            events: event_rows(alloc, net)?,
            acts: act_rows(alloc, net)?,
            gathered: Gathered::build(alloc)?,
        })
    }
}

fn event_rows(alloc: Global, net: &CrashNet<'_>) -> Result<Vec<EventRow>, AllocError>
    ensures { IfOk result (λ rows. AreEventsSpelled net.now rows.items) }
{
    let events = net.net().events();
    let mut rows = Vec::with_capacity(alloc, events as usize)?;
    for e in 0..events {
        rows.push(EventRow::of(&net.event_code(e)))?;
    }
    Ok(rows)
}

fn act_rows(alloc: Global, net: &CrashNet<'_>) -> Result<Vec<ActRow>, AllocError>
    ensures { IfOk result (λ rows. AreActsSpelled net.now rows.items) }
{
    let activities = net.net().activities();
    let mut rows = Vec::with_capacity(alloc, activities as usize)?;
    for a in 0..activities {
        rows.push(ActRow::of(net, a))?;
    }
    Ok(rows)
}

impl EventRow {
    /// Returns the line of an event that rests at 0.
    fn of(code: &Code) -> EventRow
        ensures { SpellsEvent code.now result }
    {
        let mut spelling = Spelling::new();
        spelling.add(b"EVENT");
        spelling.add_code(code);
        spelling.add_number(0);
        spelling.add_last_bit(false);
        EventRow {
            time: 0,
            moves: false,
            spelling,
        }
    }

    /// Makes the line say this of the event. If it said something else, its text is changed from the time on.
    pub(crate) fn say(&mut self, code: &Code, time: u64, moves: bool)
        requires { SpellsEvent code.now self.old }
        ensures spells { SpellsEvent code.now self.new }
        ensures time { self.new.time ≡ time }
        ensures moves { self.new.moves ≡ moves }
    {
        if time != self.time || moves != self.moves {
            self.respell(code, time, moves);
        }
    }

    fn respell(&mut self, code: &Code, time: u64, moves: bool)
        requires { SpellsEvent code.now self.old }
        ensures spells { SpellsEvent code.now self.new }
        ensures time { self.new.time ≡ time }
        ensures moves { self.new.moves ≡ moves }
    {
        self.time = time;
        self.moves = moves;
        self.spelling.cut(code.bytes().len() + EVENT_NAMED);
        self.spelling.add_number(time);
        self.spelling.add_last_bit(moves);
    }
}

impl ActRow {
    /// Returns the line of an activity that takes no time and along which nothing flows.
    fn of(net: &CrashNet<'_>, a: u32) -> ActRow
        requires { a < length net.now.network.arcs }
        ensures { SpellsAct net.now a result }
    {
        let mut row = ActRow {
            duration: 0,
            whole: 0,
            spelling: Spelling::new(),
        };
        row.spell(net, a, 0, 0);
        row
    }

    /// Makes the line say this of the activity.
    pub(crate) fn spell(&mut self, net: &CrashNet<'_>, a: u32, duration: u64, whole: u64)
        requires { a < length net.now.network.arcs }
        ensures spells { SpellsAct net.now a self.new }
        ensures duration { self.new.duration ≡ duration }
        ensures whole { self.new.whole ≡ whole }
    {
        self.duration = duration;
        self.whole = whole;
        self.spelling.clear();
        self.spelling.add(b"ACT");
        self.spelling.add_code(&net.activity_code(a));
        self.spelling.add_number(duration);
        add_flows(&mut self.spelling, net, a, whole);
        self.spelling.add(b"\n");
    }
}

/// Adds the flows of an activity whose sum is `whole`, each after a space: it fills the knees in their order, and the
/// last flow is what is left. One pass over the knees.
fn add_flows(spelling: &mut Spelling, net: &CrashNet<'_>, a: u32, whole: u64)
    requires activity { a < length net.now.network.arcs }
    requires room { length spelling.old + FLOWS_ROOM ≤ ROOM }
    ensures text { spelling.new ≡ spelling.old ++ numbers (filled_along net.now a whole) }
    ensures short { length spelling.new ≤ length spelling.old + FLOWS_ROOM }
{
    let mut rest = whole;
    for knee in net.knees(a).as_slice() {
        spelling.add_number(rest.min(knee.rise));
        rest = rest.saturating_sub(knee.rise);
    }
    spelling.add_number(rest);
}
