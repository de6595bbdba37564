//! The head of a certificate.
ghost use Rattle.std.specs.Prelude.{◌≡◌, ◌<◌, [], ◌∷◌, All, length};
ghost use Rattle.pc_edges.specs.inside.page.Puts.{Puts};
ghost use Rattle.pc_cert.specs.Text.{text_of, AreWritable};
ghost use Rattle.pc_cert.specs.declared.line.CertLine.TheVariants.{Step};
ghost use Rattle.pc_cert.specs.Document.{first_line, head_lines, steps, version_of};

use crate::words::{put_code, put_number};
use pc_crash::CrashNet;
use pc_edges::Sink;
use pc_edges::page::Page;
use pc_text::Code;

/// Puts the head of a certificate on a page: its first line, the steps of the normal walk, and those of the crash walk.
/// A walk is a list of activities, numbered in card order from 0. Linear.
pub fn put_head<O: Sink>(
    page: &mut Page,
    sink: &mut O,
    net: &CrashNet<'_>,
    normal: &[u32],
    crash: &[u32],
)
    requires normal { All (λ a. a < length net.now.network.arcs) normal.now }
    requires crash { All (λ a. a < length net.now.network.arcs) crash.now }
    ensures text { Puts O.taken O.faults page.old sink.old page.new sink.new
        (text_of (head_lines net.now normal.now crash.now)) }
    ensures fit { AreWritable (head_lines net.now normal.now crash.now) }
{
    put_first_line(page, sink, net);
    page.put(sink, b"NORMAL\n");
    put_steps(page, sink, net, normal);
    page.put(sink, b"CRASH\n");
    put_steps(page, sink, net, crash);
}

fn put_first_line<O: Sink>(page: &mut Page, sink: &mut O, net: &CrashNet<'_>)
    ensures text { Puts O.taken O.faults page.old sink.old page.new sink.new (text_of (first_line net.now ∷ [])) }
    ensures fit { AreWritable (first_line net.now ∷ []) }
{
    page.put(sink, b"CERT");
    put_number(page, sink, version(net));
    put_code(page, sink, &net.project());
    put_number(page, sink, u64::from(net.net().events()));
    put_number(page, sink, u64::from(net.net().activities()));
    page.put(sink, b"\n");
}

/// Returns the version of a network's certificate: 2 if the cost of some activity has further pieces, and 1 otherwise.
pub fn version(net: &CrashNet<'_>) -> u64
    ensures { result ≡ version_of net.now }
{
    if net.has_pieces() { 2 } else { 1 }
}

fn put_steps<O: Sink>(page: &mut Page, sink: &mut O, net: &CrashNet<'_>, walk: &[u32])
    requires { All (λ a. a < length net.now.network.arcs) walk.now }
    ensures text { Puts O.taken O.faults page.old sink.old page.new sink.new (text_of (steps net.now walk.now)) }
    ensures fit { AreWritable (steps net.now walk.now) }
{
    for &a in walk {
        put_step(page, sink, &net.activity_code(a));
    }
}

fn put_step<O: Sink>(page: &mut Page, sink: &mut O, code: &Code)
    ensures text { Puts O.taken O.faults page.old sink.old page.new sink.new (text_of (Step code.now ∷ [])) }
    ensures fit { AreWritable (Step code.now ∷ []) }
{
    page.put(sink, b"STEP");
    put_code(page, sink, code);
    page.put(sink, b"\n");
}
