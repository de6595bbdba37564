//! A project whose numbers are edited: before any edit, edits that are accepted or refused, a term on trial, and edits
//! taken back.
//!
//! What a line of a what-if session asks for, and which edits are refused and why, are in the modules below.

ghost use Rattle.std.specs.Prelude.{◌≡◌, ◌<◌, length, IfOk, OnOk, slice_set, None, Some, IfErr, OnErr};
ghost use Rattle.pc_whatif.specs.inside.edits.Editing.{net_in, at_rest, ChangesOnly, MayTry};
ghost use Rattle.pc_whatif.specs.edits.Plans.{
  nth_estimates,
  estimates_in,
  estimates_with,
  plan_with,
  term_with,
  term_tried,
};
ghost use Rattle.pc_whatif.specs.edits.Editing.{begun, edited, edited_plan, undone, activity_named};
ghost use Rattle.pc_whatif.specs.edits.Standing.{IsEditedBy, empty, Journal, noted, taken_back};
ghost use Rattle.pc_model.specs.Schedule.{term_at};
ghost use Rattle.pc_whatif.specs.inside.edits.Inside.{replaced};
ghost use Rattle.pc_whatif.specs.inside.edits.Plans.{AreEstimates, IsFitPlan};
ghost use Rattle.pc_project.specs.Project.{Project};
ghost use Rattle.pc_whatif.specs.edits.Refusal.{edit_refusal, trial_refusal, undo_refusal};

mod ask;
mod judging;
mod reason;

use crate::edits::ask::Change;
pub(crate) use crate::edits::ask::{Ask, Edit, Trial};
use crate::edits::judging::{judge_edit, judge_trial};
pub(crate) use crate::edits::reason::Reason;
use circular_buffer::HeapCircularBuffer;
use pc_crash::CrashNet;
use pc_model::Term;
use pc_project::{Estimates, Project};
use std::alloc::{AllocError, Global};
use std::marker::Model;

/// How many edits UNDO can take back.
pub(crate) const MAX_KEPT: usize = 1_000;

/// A project whose numbers are edited: its current priced network and estimates, and the replaced numbers of the latest
/// edits.
///
/// It takes all its memory when it begins. One activity may have a term on trial: the network then has that term, and
/// all else is as without it.
pub(crate) struct Edits<'p> {
    net: CrashNet<'p>,
    estimates: Vec<Estimates>,
    unit_days: u64,
    kept: HeapCircularBuffer<KeptEdit>,
    /// The term that a trial replaces.
    aside: Option<ActTerm>,
}

impl<'p> Drop for Edits<'p> {
    // Written by hand, so that the proof of dropping edits is done once, here.
    fn drop(self) {
        let Edits {
            net: _net,
            estimates: _estimates,
            unit_days: _unit_days,
            kept: _kept,
            aside: _aside,
        } = self;
    }
}

impl<'p> Model for Edits<'p> {
    ghost use Rattle.pc_whatif.specs.inside.edits.Editing.{Edits};

    ghost Value = { Edits };

    ghost use Rattle.pc_whatif.specs.inside.edits.Inside.{edits_from, IsSoundEdits};

    ghost view = { edits_from };

    ghost invariant = { IsSoundEdits };
}

impl<'p> Edits<'p> {
    /// Returns the current priced network, with the term on trial if there is one.
    pub(crate) fn net(&self) -> &CrashNet<'p>
        ensures { result.now ≡ net_in self.now }
    {
        &self.net
    }

    /// Returns the current estimates of an activity, in units.
    pub(crate) fn estimates(&self, a: u32) -> Estimates
        requires { a < length self.now.editing.net.network.arcs }
        ensures value { result ≡ nth_estimates self.now.editing.estimates a }
        ensures fit { AreEstimates result }
    {
        self.estimates[a as usize]
    }

    /// Returns a project without edits. Takes all memory that edits ever take.
    ///
    /// Linear in events, activities and pieces.
    pub(crate) fn build(alloc: Global, project: &'p Project) -> Result<Edits<'p>, AllocError>
        ensures begun { IfOk result (λ edits. edits ≡ at_rest (begun project.now)) }
        ensures standing { IfOk result (λ edits. IsEditedBy project.now empty edits.editing) }
    {
        project.facts();
        Ok(Edits {
            estimates: estimates_of(alloc, project)?,
            unit_days: project.unit_days(),
            kept: HeapCircularBuffer::with_capacity(alloc, MAX_KEPT)?,
            net: project.priced(alloc)?,
            aside: None,
        })
    }
}

/// A kept edit: the activity and the numbers that it had before.
#[derive(Clone, Copy)]
struct KeptEdit {
    activity: u32,
    was: Change,
}

/// Returns the estimates of the project's activities, in card order.
fn estimates_of(alloc: Global, project: &Project) -> Result<Vec<Estimates>, AllocError>
    ensures { IfOk result (λ list. list.items ≡ estimates_in project.now.deck) }
{
    project
        .cards()
        .acts()
        .iter()
        .map(|act| Estimates {
            optimistic: act.opt,
            likely: act.likely,
            pessimistic: act.pess,
        })
        .collect(alloc)
}

/// Returns a term with a change applied.
fn term_with(change: &Change, term: Term) -> Term
    ensures { result ≡ term_with change.now term }
{
    match *change {
        Change::Normal(normal) => Term { normal, ..term },
        Change::Crash(crash) => Term { crash, ..term },
        Change::Slope(slope) => Term { slope, ..term },
        Change::Estimate(_) => term,
    }
}

/// Returns estimates with a change applied.
fn estimates_with(change: &Change, estimates: Estimates) -> Estimates
    ensures { result ≡ estimates_with change.now estimates }
{
    match *change {
        Change::Estimate(new) => new,
        _ => estimates,
    }
}

/// Returns the numbers that a change replaces.
fn replaced(change: &Change, term: &Term, estimates: &Estimates) -> Change
    ensures { result ≡ replaced change.now term.now estimates.now }
{
    match change {
        Change::Normal(_) => Change::Normal(term.normal),
        Change::Crash(_) => Change::Crash(term.crash),
        Change::Slope(_) => Change::Slope(term.slope),
        Change::Estimate(_) => Change::Estimate(*estimates),
    }
}

/// Applies a change to an activity.
fn put(net: &mut CrashNet<'_>, estimates: &mut [Estimates], a: u32, change: &Change)
    requires activity { a < length net.old.network.arcs }
    requires fits { IsFitPlan net.old.network net.old.pieces
        (plan_with change.now a (record { terms = net.old.terms; estimates = estimates.old })) }
    ensures net { net.new ≡ record net.old
        { terms = slice_set net.old.terms a (term_with change.now (term_at net.old.terms a)) } }
    ensures estimates { estimates.new
        ≡ slice_set estimates.old a (estimates_with change.now (nth_estimates estimates.old a)) }
{
    net.set_term(a, term_with(change, net.term(a)));
    estimates[a as usize] = estimates_with(change, estimates[a as usize]);
}

impl Edits<'_> {
    /// Applies an edit, keeps the replaced numbers for UNDO, and returns the activity.
    ///
    /// If `MAX_KEPT` edits are kept, the oldest is no longer kept; it remains in effect. Linear in the activity's
    /// pieces.
    ///
    /// # Errors
    ///
    /// The first reason against the edit; nothing changes then.
    pub(crate) fn apply(&mut self, edit: &Edit) -> Result<u32, Reason>
        requires { self.old.trial ≡ None }
        ensures accepted { OnOk result (edit_refusal self.old.editing.net self.old.editing.estimates edit.now ≡ None) }
        ensures refused { IfErr result (λ reason. edit_refusal self.old.editing.net self.old.editing.estimates
            edit.now ≡ Some reason) }
        ensures changed { OnOk result (self.new ≡ at_rest (edited self.old.editing edit.now)) }
        ensures unchanged { OnErr result (self.new ≡ self.old) }
        ensures undone { OnOk result (edited_plan (undone self.new.editing) ≡ edited_plan self.old.editing) }
        ensures touched { IfOk result (ChangesOnly self.old.editing self.new.editing) }
        ensures standing { OnOk result ((project : Project) (journal : Journal) →
            IsEditedBy project journal self.old.editing
            → IsEditedBy project (noted journal edit.now) self.new.editing) }
    {
        let a = judge_edit(&self.net, &self.estimates, edit)?;
        let was = replaced(&edit.change, &self.net.term(a), &self.estimates[a as usize]);
        put(&mut self.net, &mut self.estimates, a, &edit.change);
        self.kept.push_back(KeptEdit { activity: a, was });
        Ok(a)
    }

    /// Returns the term that a trial gives its activity, or the first reason against it. Does not look at the length.
    pub(crate) fn tried(&self, trial: &Trial) -> Result<ActTerm, Reason>
        requires { self.now.trial ≡ None }
        ensures activity { IfOk result (λ tried. activity_named self.now.editing.net trial.now.act
            ≡ Some tried.activity) }
        ensures term { IfOk result (λ tried. tried.term
            ≡ term_tried trial.now (term_at self.now.editing.net.terms tried.activity)) }
        ensures fits { IfOk result (MayTry self.now.editing.net) }
        ensures accepted { OnOk result (trial_refusal self.now.editing.net self.now.editing.estimates trial.now
            ≡ None) }
        ensures refused { IfErr result (λ reason. trial_refusal self.now.editing.net self.now.editing.estimates
            trial.now ≡ Some reason) }
    {
        judge_trial(&self.net, &self.estimates, trial)
    }

    /// Puts a term on trial: the network has it until the trial ends. Linear in the activity's pieces.
    pub(crate) fn begin_trial(&mut self, tried: &ActTerm)
        requires rest { self.old.trial ≡ None }
        requires fits { MayTry self.old.editing.net tried.now }
        ensures { self.new ≡ record self.old { trial = Some tried.now } }
    {
        self.aside = Some(ActTerm {
            activity: tried.activity,
            term: self.net.term(tried.activity),
        });
        self.net.set_term(tried.activity, tried.term);
    }

    /// Ends the trial, if there is one: the network has the activity's own term again.
    pub(crate) fn end_trial(&mut self)
        ensures { self.new ≡ record self.old { trial = None } }
    {
        if let Some(aside) = self.aside.take() {
            self.net.set_term(aside.activity, aside.term);
        }
    }

    /// Reverts the latest kept edit and returns its activity.
    ///
    /// # Errors
    ///
    /// `NothingToUndo` if no edit is kept.
    pub(crate) fn undo(&mut self) -> Result<u32, Reason>
        requires { self.old.trial ≡ None }
        ensures accepted { OnOk result (undo_refusal self.old.editing ≡ None) }
        ensures refused { IfErr result (λ reason. undo_refusal self.old.editing ≡ Some reason) }
        ensures changed { OnOk result (self.new ≡ at_rest (undone self.old.editing)) }
        ensures unchanged { OnErr result (self.new ≡ self.old) }
        ensures touched { IfOk result (ChangesOnly self.old.editing self.new.editing) }
        ensures standing { OnOk result ((project : Project) (journal : Journal) →
            IsEditedBy project journal self.old.editing
            → IsEditedBy project (taken_back journal) self.new.editing) }
    {
        let Some(kept) = self.kept.pop_back() else {
            return Err(Reason::NothingToUndo);
        };
        put(&mut self.net, &mut self.estimates, kept.activity, &kept.was);
        Ok(kept.activity)
    }
}

/// An activity and a term for it.
#[derive(Clone, Copy)]
pub(crate) struct ActTerm {
    pub(crate) activity: u32,
    pub(crate) term: Term,
}
