//! What is printed of a project.
ghost use Rattle.std.specs.Prelude.{ℕ, List};
ghost use Rattle.pc_edges.specs.inside.page.Puts.{Puts};
ghost use Rattle.pc_project.specs.Project.{Project as TheProject};

use pc_edges::Sink;
use pc_edges::page::Page;
use pc_project::Project;

/// A report of a project. It has all the memory that it takes before the first byte is printed.
pub trait Report {
    // Whether it was built for the project.
    ghost IsFor: { Self → TheProject → Type 0 };

    // The texts that it may print for the project: just one, unless it solves while it prints.
    ghost IsText: { Self → TheProject → List ℕ → Type 0 };

    /// Puts such a text on a page. Takes no memory, and uses the report up: one that solves while it prints works in
    /// the memory that it has.
    fn put_on<O: Sink>(self, page: &mut Page, sink: &mut O, project: &Project)
        requires { IsFor self project.now }
        ensures { (text : List ℕ) × IsText self project.now text
            × Puts O.taken O.faults page.old sink.old page.new sink.new text };
}
