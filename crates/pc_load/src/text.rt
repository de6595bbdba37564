//! The text of the report of loads.
ghost use Rattle.std.specs.Prelude.{◌≡◌, ℕ, ◌≤◌, List, length};
ghost use Rattle.pc_edges.specs.inside.Writes.{Writes};
ghost use Rattle.pc_edges.specs.inside.page.Puts.{Puts};
ghost use Rattle.pc_load.specs.inside.Loading.{IsReadyToLoad};
ghost use Rattle.pc_load.specs.inside.PrintedLoad.{loading_of};
ghost use Rattle.pc_load.specs.LoadText.{load_text};
ghost use Rattle.pc_wbs.specs.Preorder.{IsPreorder};

use crate::loading::{Loading, MAX_DAYS, PrintedLoad};
use crate::rows::{ItemLoadRows, PeriodRows, ResourceRows};
use crate::table::Table;
use pc_edges::page::{Page, put_named, put_rows};
use pc_edges::{Failed, Sink};
use pc_project::Project;

/// Writes a report of loads: a row for each period, and then, for each item in preorder and for each resource in card
/// order, a row for each period in which it has a part. A period has `days` days.
///
/// The tables can be any that have the project's items and resources as rows, and as many periods as each other.
///
/// Each piece of the text is pushed at once, so that no memory is needed; the sink is not flushed. If you have a page,
/// [`put_loading`] pushes less often.
///
/// # Errors
///
/// `Failed` if a push failed. The sink has taken the first bytes of the text then, or none.
pub fn write_load<O: Sink>(
    sink: &mut O,
    project: &Project,
    days: u64,
    items: &Table,
    resources: &Table,
) -> Result<(), Failed>
    requires days { days ≤ MAX_DAYS }
    requires items { items.now.rows ≡ length project.now.tree }
    requires resources { resources.now.rows ≡ length project.now.resources }
    requires periods { resources.now.periods ≡ items.now.periods }
    ensures { (order : List ℕ) × IsPreorder project.now.tree order
        × Writes result (O.taken sink.old) (O.taken sink.new) (O.faults sink.old) (O.faults sink.new)
        (load_text project.now (record { days = days; order = order; items = items.now; resources = resources.now })) }
{
    items.facts();
    let printed = PrintedLoad {
        days,
        order: project.tree().preorder(),
        items,
        resources,
    };
    let mut page = Page::without_buffer();
    put_load(&mut page, sink, project, &printed);
    page.push_out(sink)
}

/// Puts the report of a project's loads on a page: a row for each period, and then, for each item in preorder and for
/// each resource in card order, a row for each period in which it has a part.
pub fn put_loading<O: Sink>(page: &mut Page, sink: &mut O, project: &Project, loading: &Loading)
    requires { IsReadyToLoad project.now loading.now }
    ensures { Puts O.taken O.faults page.old sink.old page.new sink.new (load_text project.now loading.now) }
{
    put_load(page, sink, project, &loading.printed());
}

/// Puts the report on a page.
fn put_load<O: Sink>(page: &mut Page, sink: &mut O, project: &Project, printed: &PrintedLoad<'_>)
    requires { IsReadyToLoad project.now (loading_of printed.now) }
    ensures { Puts O.taken O.faults page.old sink.old page.new sink.new
        (load_text project.now (loading_of printed.now)) }
{
    put_named(page, sink, b"LOAD ", &project.code(), printed.days);
    put_rows(page, sink, &PeriodRows { project, printed });
    page.put(sink, b"ITEMS\n");
    put_rows(page, sink, &ItemLoadRows { project, printed });
    page.put(sink, b"RESOURCES\n");
    put_rows(page, sink, &ResourceRows { project, printed });
}
