//! What is printed of an optimum.
ghost use Rattle.std.specs.Fmt.{signed_decimal};
ghost use Rattle.pc_edges.specs.inside.page.Puts.{Puts};
ghost use Rattle.pc_edges.specs.page.Lines.{word_line};
ghost use Rattle.pc_total.specs.BestText.{best_text, difference};

use crate::optimum::Best;
use pc_edges::Sink;
use pc_edges::page::{Page, put_code, put_line, put_number};
use pc_text::{Code, signed};

/// Writes the lines of the optimum of the project with this code to a page, to which more may be added.
///
/// The lines are its length, the least cost of a schedule for it, what its time costs, the sum, and how much higher the
/// total is one unit shorter and one unit longer, with a dash if the range ends there.
pub fn put_best<O: Sink>(page: &mut Page, sink: &mut O, code: &Code, best: &Best)
    ensures { Puts O.taken O.faults page.old sink.old page.new sink.new (best_text code.now best.now) }
{
    put_code(page, sink, b"OPTIMUM ", code);
    put_number(page, sink, b"LENGTH ", best.length);
    put_number(page, sink, b"DIRECT ", best.direct);
    put_amount(page, sink, b"TIME ", best.time);
    put_amount(page, sink, b"TOTAL ", best.total);
    put_difference(page, sink, b"BELOW ", best.below);
    put_difference(page, sink, b"ABOVE ", best.above);
}

/// Puts the line of an amount, with `-` before a negative one.
fn put_amount<O: Sink>(page: &mut Page, sink: &mut O, word: &[u8], amount: i64)
    ensures { Puts O.taken O.faults page.old sink.old page.new sink.new (word_line word.now (signed_decimal amount)) }
{
    put_line(page, sink, word, signed(amount).bytes());
}

/// Puts the line of a difference, or of a dash.
fn put_difference<O: Sink>(page: &mut Page, sink: &mut O, word: &[u8], more: Option<i64>)
    ensures { Puts O.taken O.faults page.old sink.old page.new sink.new (word_line word.now (difference more)) }
{
    match more {
        Some(more) => put_amount(page, sink, word, more),
        None => put_line(page, sink, word, b"-"),
    }
}
