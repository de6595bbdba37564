//! A certificate, from the solver to a page, segment by segment.
ghost use Rattle.std.specs.Prelude.{◌+◌, ◌*◌, ◌≤◌, ℕ, List, length, IfOk};
ghost use Rattle.pc_cells.specs.inside.Spans.{free_of};
ghost use Rattle.pc_edges.specs.inside.page.Puts.{Puts, desk};
ghost use Rattle.pc_crash.specs.inside.Steps.{IsBlankOf};
ghost use Rattle.pc_certify.specs.Certificate.{IsCertificate};
ghost use Rattle.pc_certify.specs.inside.Certificate.{IsReadyToCertify};
ghost use Rattle.pc_certify.specs.inside.Descent.{IsAtTop, IsPutDown};
ghost use Rattle.pc_certify.specs.inside.fast.Spelled.{AreEventsSpelled, AreActsSpelled};
ghost use Rattle.pc_certify.specs.inside.Walks.{ArePicked};

use crate::fast::LastLines;
use crate::laws::written_is_certified;
use crate::segment::put_segment_by;
use crate::walks::Walks;
use pc_cells::Region;
use pc_cert::{put_end, put_head};
use pc_crash::{CrashNet, Steps};
use pc_edges::Sink;
use pc_edges::page::Page;
use pc_flow::Solver;
use std::alloc::{AllocError, Global};
use std::marker::Brand;
use std::sync::ledger::{Blank, Ledger};

/// The certificate of a network before it is written: its two walks, and all memory that the rest of it takes. How much
/// that is does not depend on the number of segments.
#[derive(Drop)]
pub struct Certificate {
    pub(crate) region: Region,
    pub(crate) walks: Walks,
    pub(crate) lines: LastLines,
}

impl Certificate {
    /// Takes the memory for the certificate of a network. The solver will work in the free cells of `region`;
    /// `pc_flow::cells_needed` returns how many it needs. Linear in events and activities.
    ///
    /// # Errors
    ///
    /// `AllocError` if there is no memory for it.
    pub fn build(
        alloc: Global,
        net: &CrashNet<'_>,
        region: Region,
    ) -> Result<Certificate, AllocError>
        requires { 8 * net.now.network.events + 6 * length net.now.network.arcs + 2 * length net.now.pieces + 16
            ≤ free_of region }
        ensures { IfOk result (IsReadyToCertify net.now) }
    {
        Ok(Certificate {
            walks: Walks::build(alloc, net)?,
            lines: LastLines::build(alloc, net)?,
            region,
        })
    }

    /// Puts the certificate on a page: each segment when the solver has it. Takes no memory.
    pub fn put_on<O: Sink>(self, page: &mut Page, sink: &mut O, net: &CrashNet<'_>)
        requires { IsReadyToCertify net.now self }
        ensures { (text : List ℕ) × IsCertificate net.now text
            × Puts O.taken O.faults page.old sink.old page.new sink.new text }
    {
        let Certificate {
            region,
            walks,
            mut lines,
        } = self;
        let mut solver = Solver::begin(region, net);
        put_counted::<O, Brand>(
            page,
            sink,
            net,
            &walks,
            &mut lines,
            &mut solver,
            Blank::new(1),
        );
    }
}

/// Puts the certificate. The steps of the solver are counted in a ledger of their own.
fn put_counted<O: Sink, L: Ledger>(
    page: &mut Page,
    sink: &mut O,
    net: &CrashNet<'_>,
    walks: &Walks,
    lines: &mut LastLines,
    solver: &mut Solver<'_>,
    blank: Blank,
)
    requires events { AreEventsSpelled net.now lines.old.events.items }
    requires acts { AreActsSpelled net.now lines.old.acts.items }
    requires walks { ArePicked net.now walks.now.normal walks.now.crash }
    requires solver { IsAtTop net.now solver.old }
    requires blank { IsBlankOf L.name L.parts blank.name blank.parts }
    ensures { (text : List ℕ) × IsCertificate net.now text
        × Puts O.taken O.faults page.old sink.old page.new sink.new text }
{
    written_is_certified(net);
    let mut steps = Steps::<L>::new(blank);
    put_segments(page, sink, net, walks, lines, solver, &mut steps);
    put_end(page, sink);
}

/// Puts the head, and then each segment when the solver has it.
fn put_segments<O: Sink, L: Ledger>(
    page: &mut Page,
    sink: &mut O,
    net: &CrashNet<'_>,
    walks: &Walks,
    lines: &mut LastLines,
    solver: &mut Solver<'_>,
    steps: &mut Steps<L>,
)
    requires events { AreEventsSpelled net.now lines.old.events.items }
    requires acts { AreActsSpelled net.now lines.old.acts.items }
    requires walks { ArePicked net.now walks.now.normal walks.now.crash }
    requires solver { IsAtTop net.now solver.old }
    ensures { IsPutDown net.now walks.now.normal.path walks.now.crash.path
        (desk O.taken O.faults page.old sink.old) (desk O.taken O.faults page.new sink.new) }
{
    put_head(page, sink, net, walks.normal.path(), walks.crash.path());
    while solver.next_segment(steps) {
        put_segment_by(page, sink, net, solver, lines);
    }
}
