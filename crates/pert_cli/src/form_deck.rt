//! From the deck of a form to its project, or to why there is none.
ghost use Rattle.std.specs.Prelude.{◌≤◌, length, IfOk, IfErr};
ghost use Rattle.pc_curve.specs.bench.Deck.{bench_deck_text};
ghost use Rattle.pc_deck.specs.Limits.{longest_deck};
ghost use Rattle.pc_edges.specs.Pulls.{IsReadWithin};
ghost use Rattle.pc_edges.specs.declared.loading.TheConstants.{STREAM_ROOM};
ghost use Rattle.pc_project.specs.shell.Reading.{HasProjectBy};
ghost use Rattle.pc_project.specs.inside.shell.Reading.{HasNoProjectBy, IsNoProjectBy, IsNoProjectOf};
ghost use Rattle.pc_project.specs.shell.Sides.{side};
ghost use Rattle.pc_project.specs.shell.Verdict.{IsProjectOf};
ghost use Rattle.pert_cli.specs.Tasks.{IsDrawnOf, IsTasksFault};
ghost use Rattle.pert_cli.specs.Verdicts.{IsFaultAs, IsMadeAs};
ghost use Rattle.pert_cli.specs.FormDeck.{HasProjectFor};
ghost use Rattle.pert_cli.specs.inside.FormDeck.{HasNoProjectFor};
ghost use Rattle.pert_cli.specs.Forms.{IsNumbered};

use crate::forms::Form;
use pc_cards::sort::Sort;
use pc_curve::bench::{MOST_ACTIVITIES, bench_deck};
use pc_deck::read_tasks_by;
use pc_edges::{FIXED_KEY, Source};
use pc_project::Project;
use pc_project::shell::{NoProject, load_deck, project_in};
use pc_tasks::drawn_project;
use std::alloc::Global;

/// Returns the project of a form's deck: the form's own, for which nothing is read, or the source's.
///
/// The bytes of the source's deck are left in `deck`, because the answer may use their memory.
pub(crate) fn project_for<S: Source>(
    alloc: Global,
    form: Form,
    source: &mut S,
    deck: &mut Vec<u8>,
) -> Result<Project, NoProject>
    requires { IsNumbered form }
    ensures project { IfOk result (HasProjectFor form (side S.left S.faults source.old source.new)) }
    ensures none { IfErr result (HasNoProjectFor form (side S.left S.faults source.old source.new)) }
    ensures stops { IsReadWithin longest_deck STREAM_ROOM S.left S.faults S.pulls source.old source.new }
{
    match form.bench() {
        Some(n) => bench_project(alloc, n),
        None => read_as(alloc, form.sort(), source, deck),
    }
}

/// Reads the source's deck as one of a sort and returns its project. Its bytes are left in `deck`.
fn read_as<S: Source>(
    alloc: Global,
    sort: Sort,
    source: &mut S,
    deck: &mut Vec<u8>,
) -> Result<Project, NoProject>
    ensures project { IfOk result (HasProjectBy (IsMadeAs sort) (side S.left S.faults source.old source.new)) }
    ensures none { IfErr result (HasNoProjectBy (IsFaultAs sort) (side S.left S.faults source.old source.new)) }
    ensures stops { IsReadWithin longest_deck STREAM_ROOM S.left S.faults S.pulls source.old source.new }
{
    let key = source.key();
    let bytes = load_deck(alloc, source)?;
    let project = project_as(alloc, key, sort, &bytes);
    *deck = bytes;
    project
}

/// Returns the project of a deck of a sort that is not too long. Cards are looked up by this key.
fn project_as(alloc: Global, key: u128, sort: Sort, bytes: &[u8]) -> Result<Project, NoProject>
    requires { length bytes.now ≤ longest_deck }
    ensures project { IfOk result (IsMadeAs sort bytes.now) }
    ensures none { IfErr result (IsNoProjectBy (IsFaultAs sort) bytes.now) }
{
    match sort {
        Sort::Plan => project_in(alloc, key, bytes),
        Sort::Tasks => drawn_in(alloc, key, bytes),
    }
}

/// Returns the project of the plan that is generated from a deck of tasks that is not too long.
fn drawn_in(alloc: Global, key: u128, bytes: &[u8]) -> Result<Project, NoProject>
    requires { length bytes.now ≤ longest_deck }
    ensures project { IfOk result (IsDrawnOf bytes.now) }
    ensures none { IfErr result (IsNoProjectBy IsTasksFault bytes.now) }
{
    let tasks = read_tasks_by(alloc, key, bytes)?;
    let project = drawn_project(alloc, &tasks)?;
    Ok(project)
}

/// Returns the project of the benchmark's deck, which is read like any deck.
fn bench_project(alloc: Global, n: u64) -> Result<Project, NoProject>
    requires least { 1 ≤ n }
    requires most { n ≤ MOST_ACTIVITIES }
    ensures project { IfOk result (IsProjectOf (bench_deck_text n)) }
    ensures none { IfErr result (IsNoProjectOf (bench_deck_text n)) }
{
    let deck = bench_deck(alloc, n)?;
    project_in(alloc, FIXED_KEY, &deck)
}
