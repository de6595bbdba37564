//! The parts of a certificate, written to a sink, and its last line on a page.
ghost use Rattle.std.specs.Prelude.{◌≡◌, ◌<◌, All, length};
ghost use Rattle.pc_edges.specs.inside.Writes.{Writes};
ghost use Rattle.pc_edges.specs.inside.page.Puts.{Puts};
ghost use Rattle.pc_cert.specs.Text.{text_of, AreWritable};
ghost use Rattle.pc_cert.specs.Document.{head_lines, segment_lines, end_lines};
ghost use Rattle.pc_cert.specs.Document.{HasSmallNumbers};

use crate::head::put_head;
use crate::segment::put_segment;
use pc_crash::{CrashNet, SegmentView};
use pc_edges::page::Page;
use pc_edges::{Failed, Sink};

/// Writes the head of a certificate: its first line, the steps of the normal walk, and those of the crash walk. A walk
/// is a list of activities, numbered in card order from 0.
///
/// Each piece of the text is pushed as it comes. So it takes no memory, and it does not flush the sink. With a page at
/// hand, [`put_head`] pushes less often.
///
/// # Errors
///
/// `Failed` if a push failed. The sink has taken the first bytes of the text then, or none.
pub fn write_head<O: Sink>(
    sink: &mut O,
    net: &CrashNet<'_>,
    normal: &[u32],
    crash: &[u32],
) -> Result<(), Failed>
    requires normal { All (λ a. a < length net.now.network.arcs) normal.now }
    requires crash { All (λ a. a < length net.now.network.arcs) crash.now }
    ensures text { Writes result (O.taken sink.old) (O.taken sink.new) (O.faults sink.old) (O.faults sink.new)
        (text_of (head_lines net.now normal.now crash.now)) }
    ensures fit { AreWritable (head_lines net.now normal.now crash.now) }
{
    let mut page = Page::without_buffer();
    put_head(&mut page, sink, net, normal, crash);
    page.push_out(sink)
}

/// Writes a segment of a certificate: its ends, its cost and its slope, a line for each event and one for each
/// activity, in card order, and its last line.
///
/// Each piece of the text is pushed as it comes. So it takes no memory, and it does not flush the sink. With a page at
/// hand, [`put_segment`] pushes less often.
///
/// # Errors
///
/// `Failed` if a push failed. The sink has taken the first bytes of the text then, or none.
pub fn write_segment<O: Sink, V: SegmentView>(
    sink: &mut O,
    net: &CrashNet<'_>,
    segment: &V,
) -> Result<(), Failed>
    requires present { V.IsPresent segment.now }
    requires net { V.net segment.now ≡ net.now }
    ensures text { Writes result (O.taken sink.old) (O.taken sink.new) (O.faults sink.old) (O.faults sink.new)
        (text_of (segment_lines net.now (V.segment segment.now))) }
    ensures fit { HasSmallNumbers net.now (V.segment segment.now)
        → AreWritable (segment_lines net.now (V.segment segment.now)) }
{
    let mut page = Page::without_buffer();
    put_segment(&mut page, sink, net, segment);
    page.push_out(sink)
}

/// Writes the last line of a certificate. It takes no memory and does not flush the sink.
///
/// # Errors
///
/// `Failed` if a push failed. The sink has taken the first bytes of the line then, or none.
pub fn write_end<O: Sink>(sink: &mut O) -> Result<(), Failed>
    ensures { Writes result (O.taken sink.old) (O.taken sink.new) (O.faults sink.old) (O.faults sink.new)
        (text_of end_lines) }
{
    let mut page = Page::without_buffer();
    put_end(&mut page, sink);
    page.push_out(sink)
}

/// Puts the last line of a certificate on a page. The page is not finished.
pub fn put_end<O: Sink>(page: &mut Page, sink: &mut O)
    ensures { Puts O.taken O.faults page.old sink.old page.new sink.new (text_of end_lines) }
{
    page.put(sink, b"END\n");
}
