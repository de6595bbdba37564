//! The rows of a text.
ghost use Rattle.std.specs.Prelude.{◌≡◌, ℕ, ◌<◌, List};
ghost use Rattle.pc_edges.specs.Texts.{texts_to};
ghost use Rattle.pc_edges.specs.inside.page.Puts.{Puts};

use crate::Sink;
use crate::page::Page;

/// The rows of a text, each of which can be put on a page.
pub trait Rows {
    // How many rows there are.
    ghost row_count: { Self → ℕ };

    // The text of a row, with the end of its line.
    ghost row_text: { Self → ℕ → List ℕ };

    // What has to hold for the rows to be put.
    ghost IsReady: { Self → Type 0 };

    /// Returns how many rows there are.
    fn count(&self) -> usize
        requires { IsReady self.now }
        ensures { result ≡ row_count self.now };

    /// Puts row `i`, counted from 0.
    fn put<O: Sink>(&self, i: usize, page: &mut Page, sink: &mut O)
        requires ready { IsReady self.now }
        requires known { i < row_count self.now }
        ensures { Puts O.taken O.faults page.old sink.old page.new sink.new (row_text self.now i) };
}

/// Puts all rows, from the first to the last.
pub fn put_rows<O: Sink, R: Rows>(page: &mut Page, sink: &mut O, rows: &R)
    requires { R.IsReady rows.now }
    ensures { Puts O.taken O.faults page.old sink.old page.new sink.new
        (texts_to (R.row_count rows.now) (R.row_text rows.now)) }
{
    for i in 0..rows.count() {
        rows.put(i, page, sink);
    }
}
