//! Lines of reports: a word, what follows it, and the end of the line. The space after the word is part of the word.
ghost use Rattle.pc_edges.specs.inside.page.Puts.{Puts};
ghost use Rattle.pc_edges.specs.page.Lines.{word_line, pair_line, number_line, named_line};

use crate::Sink;
use crate::page::Page;
use pc_text::{Code, digits};

/// Puts the word, the text, and the end of the line.
pub fn put_line<O: Sink>(page: &mut Page, sink: &mut O, word: &[u8], text: &[u8])
    ensures { Puts O.taken O.faults page.old sink.old page.new sink.new (word_line word.now text.now) }
{
    page.put(sink, word);
    page.put(sink, text);
    page.put(sink, b"\n");
}

/// Puts the word, two texts with a space between them, and the end of the line.
pub fn put_pair<O: Sink>(page: &mut Page, sink: &mut O, word: &[u8], first: &[u8], second: &[u8])
    ensures { Puts O.taken O.faults page.old sink.old page.new sink.new (pair_line word.now first.now second.now) }
{
    page.put(sink, word);
    page.put(sink, first);
    page.put(sink, b" ");
    page.put(sink, second);
    page.put(sink, b"\n");
}

/// Puts the word, the code, and the end of the line.
pub fn put_code<O: Sink>(page: &mut Page, sink: &mut O, word: &[u8], code: &Code)
    ensures { Puts O.taken O.faults page.old sink.old page.new sink.new (word_line word.now code.now) }
{
    put_line(page, sink, word, code.bytes());
}

/// Puts the word, the number, and the end of the line.
pub fn put_number<O: Sink>(page: &mut Page, sink: &mut O, word: &[u8], number: u64)
    ensures { Puts O.taken O.faults page.old sink.old page.new sink.new (number_line word.now number) }
{
    put_line(page, sink, word, digits(number).bytes());
}

/// Puts the word, the code, a space, the number, and the end of the line.
pub fn put_named<O: Sink>(page: &mut Page, sink: &mut O, word: &[u8], name: &Code, number: u64)
    ensures { Puts O.taken O.faults page.old sink.old page.new sink.new (named_line word.now name.now number) }
{
    put_pair(page, sink, word, name.bytes(), digits(number).bytes());
}
