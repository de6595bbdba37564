//! The lines of a segment.
ghost use Rattle.std.specs.Prelude.{◌≡◌, ℕ, ◌<◌, [], ◌∷◌, length};
ghost use Rattle.pc_edges.specs.inside.page.Puts.{Puts};
ghost use Rattle.pc_text.specs.Fields.{IsCode};
ghost use Rattle.pc_model.specs.Codes.{text_at};
ghost use Rattle.pc_cert.specs.Lines.{numbers};
ghost use Rattle.pc_cert.specs.Text.{text_of, AreWritable};
ghost use Rattle.pc_cert.specs.Listed.{listed};
ghost use Rattle.pc_cert.specs.Document.{ends_line, event_line, act_line, flows_along, segment_lines};
ghost use Rattle.pc_cert.specs.Document.{HasSmallNumbers};

use crate::words::{put_bit, put_code, put_number};
use pc_crash::{CrashNet, SegmentView};
use pc_edges::Sink;
use pc_edges::page::Page;

/// Puts the lines of a segment on a page: its ends, its cost and its slope, a line for each event and one for each
/// activity, in card order, and its last line. Linear in events, activities and pieces.
pub fn put_segment<O: Sink, V: SegmentView>(
    page: &mut Page,
    sink: &mut O,
    net: &CrashNet<'_>,
    view: &V,
)
    requires present { V.IsPresent view.now }
    requires net { V.net view.now ≡ net.now }
    ensures text { Puts O.taken O.faults page.old sink.old page.new sink.new
        (text_of (segment_lines net.now (V.segment view.now))) }
    ensures fit { HasSmallNumbers net.now (V.segment view.now)
        → AreWritable (segment_lines net.now (V.segment view.now)) }
{
    // For the fact that an activity has at most as many pieces as its line has places for flows.
    net.facts();
    put_ends(page, sink, view);
    put_events(page, sink, net, view);
    put_acts(page, sink, net, view);
    page.put(sink, b"CLOSE\n");
}

/// Puts the first line of a segment on a page: its ends, its cost at the upper end, and its slope.
pub fn put_ends<O: Sink, V: SegmentView>(page: &mut Page, sink: &mut O, view: &V)
    requires { V.IsPresent view.now }
    ensures { Puts O.taken O.faults page.old sink.old page.new sink.new
        (text_of (ends_line (V.segment view.now) ∷ [])) }
{
    page.put(sink, b"SEGMENT");
    put_number(page, sink, view.upper());
    put_number(page, sink, view.lower());
    put_number(page, sink, view.cost());
    put_number(page, sink, view.slope());
    page.put(sink, b"\n");
}

fn put_events<O: Sink, V: SegmentView>(page: &mut Page, sink: &mut O, net: &CrashNet<'_>, view: &V)
    requires present { V.IsPresent view.now }
    requires net { V.net view.now ≡ net.now }
    ensures text { Puts O.taken O.faults page.old sink.old page.new sink.new
        (text_of (listed net.now.network.events (event_line net.now (V.segment view.now)))) }
    ensures codes { (e : ℕ) → e < net.now.network.events → IsCode (text_at net.now.events e) }
{
    for e in 0..net.net().events() {
        put_event(page, sink, net, view, e);
    }
}

fn put_event<O: Sink, V: SegmentView>(
    page: &mut Page,
    sink: &mut O,
    net: &CrashNet<'_>,
    view: &V,
    e: u32,
)
    requires present { V.IsPresent view.now }
    requires net { V.net view.now ≡ net.now }
    requires event { e < net.now.network.events }
    ensures text { Puts O.taken O.faults page.old sink.old page.new sink.new
        (text_of (event_line net.now (V.segment view.now) e ∷ [])) }
    ensures code { IsCode (text_at net.now.events e) }
{
    page.put(sink, b"EVENT");
    put_code(page, sink, &net.event_code(e));
    put_number(page, sink, view.time(e));
    put_bit(page, sink, view.moves(e));
    page.put(sink, b"\n");
}

fn put_acts<O: Sink, V: SegmentView>(page: &mut Page, sink: &mut O, net: &CrashNet<'_>, view: &V)
    requires present { V.IsPresent view.now }
    requires net { V.net view.now ≡ net.now }
    ensures text { Puts O.taken O.faults page.old sink.old page.new sink.new
        (text_of (listed (length net.now.network.arcs) (act_line net.now (V.segment view.now)))) }
    ensures codes { (a : ℕ) → a < length net.now.network.arcs → IsCode (text_at net.now.activities a) }
{
    for a in 0..net.net().activities() {
        put_act(page, sink, net, view, a);
    }
}

fn put_act<O: Sink, V: SegmentView>(
    page: &mut Page,
    sink: &mut O,
    net: &CrashNet<'_>,
    view: &V,
    a: u32,
)
    requires present { V.IsPresent view.now }
    requires net { V.net view.now ≡ net.now }
    requires activity { a < length net.now.network.arcs }
    ensures text { Puts O.taken O.faults page.old sink.old page.new sink.new
        (text_of (act_line net.now (V.segment view.now) a ∷ [])) }
    ensures code { IsCode (text_at net.now.activities a) }
{
    page.put(sink, b"ACT");
    put_code(page, sink, &net.activity_code(a));
    put_number(page, sink, view.duration(a));
    put_flows(page, sink, net, view, a);
    page.put(sink, b"\n");
}

/// Puts the flow along an activity at each of its knees, and the one on its crash duration.
fn put_flows<O: Sink, V: SegmentView>(
    page: &mut Page,
    sink: &mut O,
    net: &CrashNet<'_>,
    view: &V,
    a: u32,
)
    requires present { V.IsPresent view.now }
    requires net { V.net view.now ≡ net.now }
    requires activity { a < length net.now.network.arcs }
    ensures { Puts O.taken O.faults page.old sink.old page.new sink.new
        (numbers (flows_along net.now (V.segment view.now) a)) }
{
    let knees = net.knees(a).len();
    for k in 0..knees {
        put_number(page, sink, view.flow(a, k));
    }
    put_number(page, sink, view.flow(a, knees));
}
