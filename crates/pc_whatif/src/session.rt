//! A session, the answers to its lines, its implementation of `Answers`, and the laws of its answers to any lines.
ghost use Rattle.std.specs.Prelude.{◌≡◌, length, IfOk, ℕ, List, None, Some};
ghost use Rattle.pc_whatif.specs.edits.Editing.{begun};
ghost use Rattle.pc_whatif.specs.inside.trials.Trials.{trial_cells};
ghost use Rattle.pc_whatif.specs.inside.Planning.{
  HasCurrentTimes,
  IsChangedAt,
  IsEditionOf,
  IsAnswered,
  LooksOver,
  LooksToAnswer,
  LooksToTry,
  AnswersLine,
};
ghost use Rattle.pc_edges.specs.inside.Writes.{Writes};
ghost use Rattle.pc_edges.specs.inside.page.Page.{fresh};
ghost use Rattle.pc_whatif.specs.edits.Reading.{ask_of};
ghost use Rattle.pc_crash.specs.inside.Steps.{IsBlankOf};
ghost use Rattle.pc_whatif.specs.Texts.{ok_text, refused_text};
ghost use Rattle.pc_whatif.specs.edits.Standing.{IsEditedBy, empty};
ghost use Rattle.pc_project.specs.Planned.{IsPlanned};
ghost use Rattle.pc_project.specs.Project.{Project};
ghost use Rattle.pc_whatif.specs.Planning.{AnswersLines};
ghost use Rattle.pc_whatif.specs.Standing.{AnswersByJournal, editing_of, journal_of};
ghost use Rattle.pc_whatif.specs.declared.edits.ask.Ask.TheVariants as asks;

use crate::edits::{Ask, Edit, Edits, Reason, Trial};
use crate::trials::SessionRegion;
use pc_crash::Steps;
use pc_edges::lines::Answers;
use pc_edges::page::{PAGE_ROOM, Page, put_number};
use pc_edges::{Failed, Sink};
use pc_project::Project;
use pc_project::shell::send;
use std::alloc::{AllocError, Global};
use std::marker::{Brand, Model};
use std::sync::ledger::{Blank, Ledger};

/// A session on a project: its edited numbers, the times that follow from them, and the memory that a trial works in.
///
/// It takes all its memory when it begins.
pub struct Session<'p> {
    pub(crate) project: &'p Project,
    pub(crate) edits: Edits<'p>,
    pub(crate) region: SessionRegion,
    pub(crate) page: Page,
}

impl<'p> Drop for Session<'p> {
    // Written by hand, so that the proof of dropping a session is done once, here.
    fn drop(self) {
        let Session {
            project: _project,
            edits: _edits,
            region: _region,
            page: _page,
        } = self;
    }
}

impl<'p> Model for Session<'p> {
    ghost use Rattle.pc_whatif.specs.inside.Planning.{Planning};

    ghost Value = { Planning };

    ghost use Rattle.pc_whatif.specs.inside.Inside.{planning_of, IsSoundPlanning};

    ghost view = { planning_of };

    ghost invariant = { IsSoundPlanning };
}

impl<'p> Session<'p> {
    /// Begins a session on a project as its deck states it.
    ///
    /// Linear in events, activities and pieces.
    ///
    /// # Errors
    ///
    /// `AllocError` if memory runs out.
    ///
    /// # Examples
    ///
    /// `project` has three activities: A can be cut from 4 units to 2 at 3 per unit, B, after it, from 5 to 3 at 5 per
    /// unit, and C, alongside both, from 7 to 5 at 2 per unit. `blank` is a `Blank` of the ledger `L`, in which the
    /// steps are counted.
    ///
    /// ```
    /// let mut session = Session::begin(alloc, project).ok()?;
    /// let mut out = MemSink::new(alloc, 1000, 1000, &[]).ok()?;
    /// let mut steps = Steps::<L>::new(blank);
    /// // The first is an edit: each unit less of activity A costs 9.
    /// session.answer(b"SLOPE A 9", &mut out, &mut steps).ok()?;
    /// session.answer(b"CURVE", &mut out, &mut steps).ok()?;
    /// Some(out.bytes() == b"OK\n9 45 5\n7 55 11\n5 77 -\n".as_slice())
    /// ```
    ///
    /// These are the lines of `pert_tests::examples::answer_lines`. A test sees that it returns `Some(true)`.
    pub fn begin(alloc: Global, project: &'p Project) -> Result<Session<'p>, AllocError>
        ensures project { IfOk result (λ session. session.project ≡ project.now) }
        ensures editing { IfOk result (λ session. session.editing ≡ begun project.now) }
        ensures standing { IfOk result (λ session. HasCurrentTimes session.project session.editing session.region) }
        ensures cells { IfOk result (λ session. session.region.free ≡
            trial_cells project.now.network.events (length project.now.network.arcs) (length project.now.pieces)) }
    {
        project.facts();
        Ok(Session {
            project,
            page: Page::with_capacity(alloc, PAGE_ROOM)?,
            region: SessionRegion::build(alloc, project)?,
            edits: Edits::build(alloc, project)?,
        })
    }

    /// Returns the number of free cells of the session's region. No line changes it.
    pub fn cells(&self) -> usize
        ensures { result ≡ self.now.region.free }
    {
        self.region.cells()
    }
}

/// Updates the standing times after a change of one activity's estimates.
///
/// Takes a few passes over the network.
pub(crate) fn renew(region: &mut SessionRegion, edits: &Edits<'_>, a: u32, project: &Project)
    requires edition { IsEditionOf project.now edits.now.editing }
    requires changed { IsChangedAt project.now edits.now.editing a region.old }
    ensures renewed { HasCurrentTimes project.now edits.now.editing region.new }
    ensures free { region.new.free ≡ region.old.free }
{
    region.set_estimates(a, &edits.estimates(a), project.unit_days());
    region.renew(project.net());
}

impl Session<'_> {
    /// Answers a line and flushes the sink. `line` has no LF.
    ///
    /// Takes no memory. The session changes even if the sink fails. A trial or a curve looks at most four times at each
    /// activity for each unit that the slope rises or the length decreases; any other line takes a few passes.
    ///
    /// # Errors
    ///
    /// `Failed` if the sink fails; it then has a prefix of the answer.
    pub fn answer<O: Sink, L: Ledger>(
        &mut self,
        line: &[u8],
        out: &mut O,
        steps: &mut Steps<L>,
    ) -> Result<(), Failed>
        ensures answered { (text : List ℕ) × IsAnswered self.old (ask_of line.now) text self.new
            × Writes result (O.taken out.old) (O.taken out.new) (O.faults out.old) (O.faults out.new) text }
        ensures counted { LooksToAnswer self.old.editing (ask_of line.now) steps.old steps.new }
    {
        match Ask::read(line) {
            None => self.no_form(out),
            Some(Ask::Edit(edit)) => self.edit(&edit, out),
            Some(Ask::Undo) => self.undo(out),
            Some(Ask::Times) => self.times(out),
            Some(Ask::Curve) => self.curve(out, steps),
            Some(Ask::Try(trial)) => self.try_out(&trial, out, steps),
        }
    }

    /// Answers a line that has none of the forms.
    fn no_form<O: Sink>(&mut self, out: &mut O) -> Result<(), Failed>
        ensures { (text : List ℕ) × IsAnswered self.old None text self.new
            × Writes result (O.taken out.old) (O.taken out.new) (O.faults out.old) (O.faults out.new) text }
    {
        // Read for what a session always is: its times are the project's, and its page is empty.
        let _ = &self.page;
        refuse(Reason::Form, &mut self.page, out)
    }

    /// Applies an edit.
    fn edit<O: Sink>(&mut self, edit: &Edit, out: &mut O) -> Result<(), Failed>
        ensures { (text : List ℕ) × IsAnswered self.old (Some (asks.Edit edit.now)) text self.new
            × Writes result (O.taken out.old) (O.taken out.new) (O.faults out.old) (O.faults out.new) text }
    {
        // Read for what a session always is: its times are the project's, and its page is empty.
        let _ = &self.page;
        match self.edits.apply(edit) {
            Ok(a) => {
                renew(&mut self.region, &self.edits, a, self.project);
                accept(out)
            }
            Err(reason) => refuse(reason, &mut self.page, out),
        }
    }

    /// Takes back the latest edit.
    fn undo<O: Sink>(&mut self, out: &mut O) -> Result<(), Failed>
        ensures { (text : List ℕ) × IsAnswered self.old (Some asks.Undo) text self.new
            × Writes result (O.taken out.old) (O.taken out.new) (O.faults out.old) (O.faults out.new) text }
    {
        // Read for what a session always is: its times are the project's, and its page is empty.
        let _ = &self.page;
        match self.edits.undo() {
            Ok(a) => {
                renew(&mut self.region, &self.edits, a, self.project);
                accept(out)
            }
            Err(reason) => refuse(reason, &mut self.page, out),
        }
    }

    /// Writes the report of event times.
    fn times<O: Sink>(&mut self, out: &mut O) -> Result<(), Failed>
        ensures { (text : List ℕ) × IsAnswered self.old (Some asks.Times) text self.new
            × Writes result (O.taken out.old) (O.taken out.new) (O.faults out.old) (O.faults out.new) text }
    {
        self.region.write_times(&mut self.page, out, self.project)
    }

    /// Writes the breakpoints of the curve.
    fn curve<O: Sink, L: Ledger>(&mut self, out: &mut O, steps: &mut Steps<L>) -> Result<(), Failed>
        ensures answered { (text : List ℕ) × IsAnswered self.old (Some asks.Curve) text self.new
            × Writes result (O.taken out.old) (O.taken out.new) (O.faults out.old) (O.faults out.new) text }
        ensures counted { LooksOver self.old.editing.net steps.old steps.new }
    {
        self.region
            .write_curve(&mut self.page, out, self.edits.net(), steps)
    }

    /// Tries a term: it replaces the activity's own until the cost is known.
    fn try_out<O: Sink, L: Ledger>(
        &mut self,
        trial: &Trial,
        out: &mut O,
        steps: &mut Steps<L>,
    ) -> Result<(), Failed>
        ensures answered { (text : List ℕ) × IsAnswered self.old (Some (asks.Try trial.now)) text self.new
            × Writes result (O.taken out.old) (O.taken out.new) (O.faults out.old) (O.faults out.new) text }
        ensures counted { LooksToTry self.old.editing trial.now steps.old steps.new }
    {
        let tried = match self.edits.tried(trial) {
            Ok(tried) => tried,
            Err(reason) => return refuse(reason, &mut self.page, out),
        };
        self.edits.begin_trial(&tried);
        let cost = self
            .region
            .least_cost(self.edits.net(), trial.length, steps);
        self.edits.end_trial();
        let Some(cost) = cost else {
            return refuse(Reason::OutsideRange, &mut self.page, out);
        };
        put_number(&mut self.page, out, b"COST ", cost);
        self.page.finish(out)
    }
}

impl Answers for Session<'_> {
    ghost Says = { AnswersLine };

    fn reply<O: Sink>(&mut self, line: &[u8], out: &mut O) -> Result<(), Failed> {
        counted::<O, Brand>(self, line, out, Blank::new(1))
    }
}

/// Answers a line. The steps of the solver are counted in a ledger of their own.
fn counted<O: Sink, L: Ledger>(
    session: &mut Session<'_>,
    line: &[u8],
    out: &mut O,
    blank: Blank,
) -> Result<(), Failed>
    requires { IsBlankOf L.name L.parts blank.name blank.parts }
    ensures { (text : List ℕ) × IsAnswered session.old (ask_of line.now) text session.new
        × Writes result (O.taken out.old) (O.taken out.new) (O.faults out.old) (O.faults out.new) text }
{
    let mut steps = Steps::<L>::new(blank);
    session.answer(line, out, &mut steps)
}

/// Writes that the line was accepted.
fn accept<O: Sink>(out: &mut O) -> Result<(), Failed>
    ensures { Writes result (O.taken out.old) (O.taken out.new) (O.faults out.old) (O.faults out.new) ok_text }
{
    send(out, b"OK\n")
}

/// Writes the number of the reason for which the line was refused.
fn refuse<O: Sink>(reason: Reason, page: &mut Page, out: &mut O) -> Result<(), Failed>
    requires { page.old ≡ fresh }
    ensures text { Writes result (O.taken out.old) (O.taken out.new) (O.faults out.old) (O.faults out.new)
        (refused_text reason) }
    ensures fresh { page.new ≡ fresh }
{
    put_number(page, out, b"NO ", reason.number());
    page.finish(out)
}

/// Shows that after any lines the project is the deck's with the standing edits applied in order.
///
/// An edit is in effect if it was accepted and not reverted. Each line is answered on the project with the edits that
/// are in effect at that line.
pub fn edits_stand_in_order()
    ensures stands { (project : Project) (lines : List (List ℕ)) →
        IsEditedBy project (journal_of project empty lines) (editing_of (begun project) lines) }
    ensures answers { (project : Project) (lines : List (List ℕ)) (text : List ℕ) →
        AnswersLines project lines text → AnswersByJournal project empty lines text }
{}

/// Shows that the project of a deck and the lines fix the text of the answers.
pub fn answers_are_one_text()
    ensures { (project : Project) → IsPlanned project → (lines : List (List ℕ)) (text other : List ℕ)
        → AnswersLines project lines text → AnswersLines project lines other → text ≡ other }
{}
