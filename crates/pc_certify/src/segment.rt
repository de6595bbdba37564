//! The lines of a segment, most of which were lines of the segment before.
ghost use Rattle.std.specs.Prelude.{◌≡◌, ℕ, ◌<◌, [], ◌∷◌, length};
ghost use Rattle.pc_edges.specs.inside.page.Puts.{Puts, desk};
ghost use Rattle.pc_text.specs.Fields.{IsCode};
ghost use Rattle.pc_laws.specs.Stair.{stair_of, knee_flow, crash_flow};
ghost use Rattle.pc_crash.specs.Priced.{knees_in};
ghost use Rattle.pc_cert.specs.Text.{text_of, AreWritable};
ghost use Rattle.pc_model.specs.Codes.{text_at};
ghost use Rattle.pc_cert.specs.Listed.{listed};
ghost use Rattle.pc_cert.specs.Document.{event_line, act_line, flows_along, segment_lines};
ghost use Rattle.pc_cert.specs.Document.{HasSmallNumbers};
ghost use Rattle.pc_certify.specs.inside.fast.Gathers.{Gathers};
ghost use Rattle.pc_certify.specs.inside.fast.Spelled.{AreEventsSpelled, AreActsSpelled, SpellsAct, filled_along};

use crate::fast::{ActRow, EventRow, Gathered, LastLines};
use pc_cert::put_ends;
use pc_crash::{CrashNet, SegmentView};
use pc_edges::Sink;
use pc_edges::page::Page;
use pc_flow::Solver;

/// A segment in which the flow along each activity fills its knees in order.
///
/// A writer that stored the sum of an activity's flows sees by one comparison that they are the same again.
pub trait FilledView: SegmentView {
    /// Returns the sum of the flows along an activity. In order, each knee takes as much of it as it can, and what is
    /// left flows beyond them.
    fn whole(&self, a: u32) -> u64
        requires present { Self.IsPresent self.now }
        requires activity { a < length (Self.net self.now).network.arcs }
        ensures at_knees { (k : ℕ) → k < (knees_in (Self.net self.now)).count a
            → (Self.segment self.now).flow a k ≡ knee_flow
            (stair_of (Self.net self.now).terms (knees_in (Self.net self.now)) a) result k }
        ensures beside { (Self.segment self.now).beside a
            ≡ crash_flow (stair_of (Self.net self.now).terms (knees_in (Self.net self.now)) a) result };
}

impl<'n> FilledView for Solver<'n> {
    fn whole(&self, a: u32) -> u64 {
        self.whole_flow(a)
    }
}

/// Puts the lines of a segment on a page, as [`pc_cert::put_segment`] does, but by the lines of the segment that was
/// put last: a line that says the same again is not formatted again. Linear in events, activities and pieces.
pub fn put_segment_by<O: Sink, V: FilledView>(
    page: &mut Page,
    sink: &mut O,
    net: &CrashNet<'_>,
    view: &V,
    lines: &mut LastLines,
)
    requires present { V.IsPresent view.now }
    requires net { V.net view.now ≡ net.now }
    requires events { AreEventsSpelled net.now lines.old.events.items }
    requires acts { AreActsSpelled net.now lines.old.acts.items }
    ensures text { Puts O.taken O.faults page.old sink.old page.new sink.new
        (text_of (segment_lines net.now (V.segment view.now))) }
    ensures fit { HasSmallNumbers net.now (V.segment view.now)
        → AreWritable (segment_lines net.now (V.segment view.now)) }
    ensures events { AreEventsSpelled net.now lines.new.events.items }
    ensures acts { AreActsSpelled net.now lines.new.acts.items }
{
    // For the fact that an activity has at most as many pieces as its line has places for flows.
    net.facts();
    put_ends(page, sink, view);
    lines.gathered.clear();
    put_events(
        page,
        sink,
        net,
        view,
        &mut lines.events,
        &mut lines.gathered,
    );
    put_acts(page, sink, net, view, &mut lines.acts, &mut lines.gathered);
    lines.gathered.put_all(page, sink);
    page.put(sink, b"CLOSE\n");
}

fn put_events<O: Sink, V: FilledView>(
    page: &mut Page,
    sink: &mut O,
    net: &CrashNet<'_>,
    view: &V,
    rows: &mut Vec<EventRow>,
    gathered: &mut Gathered,
)
    requires present { V.IsPresent view.now }
    requires net { V.net view.now ≡ net.now }
    requires rows { AreEventsSpelled net.now rows.old.items }
    ensures text { Gathers (desk O.taken O.faults page.old sink.old) gathered.old
        (desk O.taken O.faults page.new sink.new) gathered.new
        (text_of (listed net.now.network.events (event_line net.now (V.segment view.now)))) }
    ensures codes { (e : ℕ) → e < net.now.network.events → IsCode (text_at net.now.events e) }
    ensures rows { AreEventsSpelled net.now rows.new.items }
{
    for e in 0..net.net().events() {
        put_event(page, sink, net, view, e, rows, gathered);
    }
}

fn put_event<O: Sink, V: FilledView>(
    page: &mut Page,
    sink: &mut O,
    net: &CrashNet<'_>,
    view: &V,
    e: u32,
    rows: &mut Vec<EventRow>,
    gathered: &mut Gathered,
)
    requires present { V.IsPresent view.now }
    requires net { V.net view.now ≡ net.now }
    requires rows { AreEventsSpelled net.now rows.old.items }
    requires event { e < net.now.network.events }
    ensures text { Gathers (desk O.taken O.faults page.old sink.old) gathered.old
        (desk O.taken O.faults page.new sink.new) gathered.new
        (text_of (event_line net.now (V.segment view.now) e ∷ [])) }
    ensures code { IsCode (text_at net.now.events e) }
    ensures rows { AreEventsSpelled net.now rows.new.items }
{
    let row = &mut rows[e as usize];
    row.say(&net.event_code(e), view.time(e), view.moves(e));
    gathered.put(page, sink, &row.spelling);
}

fn put_acts<O: Sink, V: FilledView>(
    page: &mut Page,
    sink: &mut O,
    net: &CrashNet<'_>,
    view: &V,
    rows: &mut Vec<ActRow>,
    gathered: &mut Gathered,
)
    requires present { V.IsPresent view.now }
    requires net { V.net view.now ≡ net.now }
    requires rows { AreActsSpelled net.now rows.old.items }
    ensures text { Gathers (desk O.taken O.faults page.old sink.old) gathered.old
        (desk O.taken O.faults page.new sink.new) gathered.new
        (text_of (listed (length net.now.network.arcs) (act_line net.now (V.segment view.now)))) }
    ensures codes { (a : ℕ) → a < length net.now.network.arcs → IsCode (text_at net.now.activities a) }
    ensures rows { AreActsSpelled net.now rows.new.items }
{
    for a in 0..net.net().activities() {
        put_act(page, sink, net, view, a, rows, gathered);
    }
}

fn put_act<O: Sink, V: FilledView>(
    page: &mut Page,
    sink: &mut O,
    net: &CrashNet<'_>,
    view: &V,
    a: u32,
    rows: &mut Vec<ActRow>,
    gathered: &mut Gathered,
)
    requires present { V.IsPresent view.now }
    requires net { V.net view.now ≡ net.now }
    requires rows { AreActsSpelled net.now rows.old.items }
    requires activity { a < length net.now.network.arcs }
    ensures text { Gathers (desk O.taken O.faults page.old sink.old) gathered.old
        (desk O.taken O.faults page.new sink.new) gathered.new
        (text_of (act_line net.now (V.segment view.now) a ∷ [])) }
    ensures code { IsCode (text_at net.now.activities a) }
    ensures rows { AreActsSpelled net.now rows.new.items }
{
    let row = &mut rows[a as usize];
    say_act(net, view, a, row);
    gathered.put(page, sink, &row.spelling);
}

/// Makes the line of an activity say what the segment says of it. Its text is changed only if its duration or the sum
/// of its flows is another.
fn say_act<V: FilledView>(net: &CrashNet<'_>, view: &V, a: u32, row: &mut ActRow)
    requires present { V.IsPresent view.now }
    requires net { V.net view.now ≡ net.now }
    requires activity { a < length net.now.network.arcs }
    requires spelled { SpellsAct net.now a row.old }
    ensures spells { SpellsAct net.now a row.new }
    ensures duration { row.new.duration ≡ (V.segment view.now).duration a }
    ensures flows { filled_along net.now a row.new.whole ≡ flows_along net.now (V.segment view.now) a }
{
    let duration = view.duration(a);
    let whole = whole_along(net, view, a);
    if duration != row.duration || whole != row.whole {
        row.spell(net, a, duration, whole);
    }
}

/// Returns the sum of the flows along an activity, which determines each of them.
fn whole_along<V: FilledView>(net: &CrashNet<'_>, view: &V, a: u32) -> u64
    requires present { V.IsPresent view.now }
    requires net { V.net view.now ≡ net.now }
    requires activity { a < length net.now.network.arcs }
    ensures { filled_along net.now a result ≡ flows_along net.now (V.segment view.now) a }
{
    view.whole(a)
}
