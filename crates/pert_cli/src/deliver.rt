//! The one way from a form to its answer: a report is built with all its memory, and then delivered.
ghost use Rattle.pc_project.specs.shell.Sides.{side};
ghost use Rattle.pert_cli.specs.inside.Handing.{Delivers};

use pc_edges::page::{PAGE_ROOM, Page};
use pc_edges::{Failed, Sink};
use pc_faults::Fault;
use pc_project::Project;
use pc_reports::Report;
use std::alloc::{AllocError, Global};

/// Why a form has no answer, or not the complete one.
#[derive(Drop)]
pub(crate) enum NoAnswer {
    /// The form refuses the project.
    Refused(Fault),
    /// Nothing is written then.
    OutOfMemory,
    WriteFault,
}

impl From<AllocError> for NoAnswer {
    ghost use Rattle.std.specs.Prelude.{◌≡◌};
    ghost use Rattle.pert_cli.specs.declared.deliver.NoAnswer.TheVariants.{OutOfMemory};

    ghost from_gives = { λ _ e. e ≡ OutOfMemory };

    fn from(_: AllocError) -> NoAnswer {
        NoAnswer::OutOfMemory
    }
}

/// Writes a report on `out`, through a page, and flushes `out`.
///
/// # Errors
///
/// - `OutOfMemory` if there is no memory for the page.
/// - `WriteFault` if a push or the flush failed.
pub(crate) fn deliver<R: Report + Drop, O: Sink>(
    alloc: Global,
    report: R,
    project: &Project,
    out: &mut O,
) -> Result<(), NoAnswer>
    requires { R.IsFor report project.now }
    ensures { Delivers (R.IsText report project.now) (λ fault. ⊥) (side O.taken O.faults out.old out.new) result }
{
    let mut page = Page::with_capacity(alloc, PAGE_ROOM)?;
    report.put_on(&mut page, out, project);
    match page.finish(out) {
        Ok(()) => Ok(()),
        Err(Failed) => Err(NoAnswer::WriteFault),
    }
}
