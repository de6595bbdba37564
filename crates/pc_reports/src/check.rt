//! The text of an accepted deck.
ghost use Rattle.std.specs.Prelude.{◌≡◌};
ghost use Rattle.pc_edges.specs.inside.page.Puts.{Puts};
ghost use Rattle.pc_reports.specs.Check.{check_text, counts_text};

use crate::report::Report;
use pc_edges::Sink;
use pc_edges::page::{Page, put_code, put_number};
use pc_project::{Counts, Project};

// The project's code, and how many cards of each kind its deck has.
impl Report for Counts {
    ghost IsFor = { λ counts project. counts ≡ project.counts };

    ghost IsText = { λ counts project text. text ≡ check_text project };

    fn put_on<O: Sink>(self, page: &mut Page, sink: &mut O, project: &Project) {
        put_code(page, sink, b"accepted ", &project.code());
        put_counts(page, sink, self);
    }
}

/// Puts a line for each kind of card.
fn put_counts<O: Sink>(page: &mut Page, sink: &mut O, counts: Counts)
    ensures { Puts O.taken O.faults page.old sink.old page.new sink.new (counts_text counts) }
{
    put_number(page, sink, b"events ", counts.events);
    put_number(page, sink, b"activities ", counts.activities);
    put_number(page, sink, b"items ", counts.items);
    put_number(page, sink, b"accounts ", counts.accounts);
    put_number(page, sink, b"charges ", counts.charges);
    put_number(page, sink, b"togos ", counts.togos);
    put_number(page, sink, b"statuses ", counts.statuses);
}
