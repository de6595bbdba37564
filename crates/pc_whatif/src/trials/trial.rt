//! A trial: a solver in the free cells of a region that it borrows.
ghost use Rattle.std.specs.Prelude.{◌≡◌, ◌+◌, ◌-◌, ◌≤◌, ◌↔◌, ℕ, List, false, Some, IfSome, IsSome};
ghost use Rattle.pc_curve.specs.CurveText.{IsCurveText};
ghost use Rattle.pc_curve.specs.Points.{curve_in};
ghost use Rattle.pc_edges.specs.inside.Writes.{Writes};
ghost use Rattle.pc_flow.specs.Courses.{IsSameCurve};
ghost use Rattle.pc_edges.specs.inside.page.Page.{fresh};
ghost use Rattle.pc_curve.specs.Range.{IsRange, IsLengthInRange};
ghost use Rattle.pc_whatif.specs.inside.trials.Trials.{HasCells, looks_over};

use pc_cells::Region;
use pc_crash::{CrashNet, Steps};
use pc_curve::{cost_at, write_curve};
use pc_edges::page::Page;
use pc_edges::{Failed, Sink};
use pc_flow::Solver;
use std::sync::ledger::Ledger;

/// Returns the least cost of a length of the network, or `None` if the network has no such length. The region is as
/// before when the trial ends.
pub(in crate::trials) fn trial_cost<L: Ledger>(
    home: &mut Option<Region>,
    net: &CrashNet<'_>,
    limit: u64,
    steps: &mut Steps<L>,
) -> Option<u64>
    requires there { IsSome home.old }
    requires room { IfSome home.old (HasCells net.now) }
    ensures home { home.new ≡ home.old }
    ensures least { IfSome result (curve_in net.now limit) }
    ensures within { IsSome result ↔ IsLengthInRange net.now limit }
    ensures counted { (shortest longest : ℕ) → IsRange net.now shortest longest →
        steps.new ≤ steps.old + looks_over net.now (longest - shortest) }
{
    let mut solver = Solver::begin(home.take().unwrap(), net);
    let cost = cost_within(&mut solver, limit, steps);
    put_back(home, solver);
    cost
}

/// Puts the region of a trial back.
fn put_back(home: &mut Option<Region>, solver: Solver<'_>)
    ensures { home.new ≡ Some solver.entry.board.home }
{
    *home = Some(solver.close());
}

/// Returns the least cost of a length, if the solver's network has it.
fn cost_within<L: Ledger>(solver: &mut Solver<'_>, limit: u64, steps: &mut Steps<L>) -> Option<u64>
    requires { solver.old.given ≡ false }
    ensures least { IfSome result (curve_in solver.old.net limit) }
    ensures within { IsSome result ↔ IsLengthInRange solver.old.net limit }
    ensures same { IsSameCurve solver.old solver.new }
    ensures counted { steps.new ≤ steps.old + looks_over solver.old.net (solver.old.longest - solver.old.shortest) }
{
    solver.facts();
    let shortest = solver.shortest();
    let longest = solver.longest();
    if limit < shortest || longest < limit {
        return None;
    }
    let cost = cost_at(solver, limit, steps);
    solver.facts();
    Some(cost)
}

/// Writes the curve of the network. The region is as before when the trial ends.
pub(in crate::trials) fn trial_curve<O: Sink, L: Ledger>(
    home: &mut Option<Region>,
    page: &mut Page,
    sink: &mut O,
    net: &CrashNet<'_>,
    steps: &mut Steps<L>,
) -> Result<(), Failed>
    requires there { IsSome home.old }
    requires room { IfSome home.old (HasCells net.now) }
    requires fresh { page.old ≡ fresh }
    ensures home { home.new ≡ home.old }
    ensures text { (text : List ℕ) × IsCurveText net.now text
        × Writes result (O.taken sink.old) (O.taken sink.new) (O.faults sink.old) (O.faults sink.new) text }
    ensures fresh { page.new ≡ fresh }
    ensures counted { (shortest longest : ℕ) → IsRange net.now shortest longest →
        steps.new ≤ steps.old + looks_over net.now (longest - shortest) }
{
    let mut solver = Solver::begin(home.take().unwrap(), net);
    solver.facts();
    let written = write_curve(page, sink, &mut solver, steps);
    solver.facts();
    put_back(home, solver);
    written
}
