//! The words of a line: a code, a number or a bit, each put on a page after a space.
ghost use Rattle.std.specs.Prelude.{◌≡◌, [], decimal, true};
ghost use Rattle.pc_text.specs.Code.{is_code};
ghost use Rattle.pc_edges.specs.inside.page.Puts.{Puts};
ghost use Rattle.pc_text.specs.Fields.{spaced};
ghost use Rattle.pc_cert.specs.inside.Fields.{bit_text};

use pc_edges::Sink;
use pc_edges::page::Page;
use pc_text::Code;

#[inline]
pub(crate) fn put_code<O: Sink>(page: &mut Page, sink: &mut O, code: &Code)
    ensures text { Puts O.taken O.faults page.old sink.old page.new sink.new (spaced code.now []) }
    ensures code { is_code code.now ≡ true }
{
    page.put(sink, b" ");
    page.put(sink, code.bytes());
}

#[inline]
pub(crate) fn put_number<O: Sink>(page: &mut Page, sink: &mut O, number: u64)
    ensures { Puts O.taken O.faults page.old sink.old page.new sink.new (spaced (decimal number) []) }
{
    page.put(sink, b" ");
    page.put_number(sink, number);
}

#[inline]
pub(crate) fn put_bit<O: Sink>(page: &mut Page, sink: &mut O, bit: bool)
    ensures { Puts O.taken O.faults page.old sink.old page.new sink.new (spaced (bit_text bit) []) }
{
    if bit {
        page.put(sink, b" 1");
    } else {
        page.put(sink, b" 0");
    }
}
