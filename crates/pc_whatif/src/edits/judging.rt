//! Why new numbers of an activity are refused.
ghost use Rattle.std.specs.Prelude.{◌≡◌, ◌<◌, IfOk, IfErr, IfSome, OnOk, None, Some, length, ◌≤◌};
ghost use Rattle.pc_model.specs.Schedule.{term_at};
ghost use Rattle.pc_whatif.specs.edits.Editing.{activity_named};
ghost use Rattle.pc_whatif.specs.inside.edits.Editing.{MayTry};
ghost use Rattle.pc_whatif.specs.edits.Plans.{plan_with, term_tried};
ghost use Rattle.pc_whatif.specs.inside.edits.Plans.{IsFitPlan};
ghost use Rattle.pc_whatif.specs.edits.Refusal.{
  are_disordered,
  edit_refusal,
  has_flaw,
  is_over,
  is_trial_over,
  refusal_of,
  trial_refusal,
};
ghost use Rattle.pc_model.specs.Pieces.{pieces_of};

use crate::edits::ask::{Change, Edit, Trial};
use crate::edits::reason::Reason;
use crate::edits::{ActTerm, estimates_with, term_with};
use pc_crash::CrashNet;
use pc_model::{MAX_DURATION, MAX_SLOPE, Term};
use pc_project::Estimates;
use pc_text::Code;

/// Returns the activity of an edit, or the first reason against the edit.
pub(in crate::edits) fn judge_edit(
    net: &CrashNet<'_>,
    estimates: &[Estimates],
    edit: &Edit,
) -> Result<u32, Reason>
    requires { IsFitPlan net.now.network net.now.pieces (record { terms = net.now.terms; estimates = estimates.now }) }
    ensures known { IfOk result (λ a. a < length net.now.network.arcs) }
    ensures named { IfOk result (λ a. activity_named net.now edit.now.act ≡ Some a) }
    ensures fits { IfOk result (λ a. IsFitPlan net.now.network net.now.pieces
        (plan_with edit.now.change a (record { terms = net.now.terms; estimates = estimates.now }))) }
    ensures accepted { OnOk result (edit_refusal net.now estimates.now edit.now ≡ None) }
    ensures refused { IfErr result (λ reason. edit_refusal net.now estimates.now edit.now ≡ Some reason) }
{
    let Some(a) = named(net, &edit.act) else {
        return Err(Reason::UnknownActivity);
    };
    let term = term_with(&edit.change, net.term(a));
    let own = estimates_with(&edit.change, estimates[a as usize]);
    match first_reason(net, a, is_over(&edit.change), &term, &own) {
        None => Ok(a),
        Some(reason) => Err(reason),
    }
}

/// Returns the term that a trial gives its activity, or the first reason against the trial.
pub(in crate::edits) fn judge_trial(
    net: &CrashNet<'_>,
    estimates: &[Estimates],
    trial: &Trial,
) -> Result<ActTerm, Reason>
    requires { IsFitPlan net.now.network net.now.pieces (record { terms = net.now.terms; estimates = estimates.now }) }
    ensures named { IfOk result (λ tried. activity_named net.now trial.now.act ≡ Some tried.activity) }
    ensures term { IfOk result (λ tried. tried.term ≡ term_tried trial.now (term_at net.now.terms tried.activity)) }
    ensures fits { IfOk result (MayTry net.now) }
    ensures accepted { OnOk result (trial_refusal net.now estimates.now trial.now ≡ None) }
    ensures refused { IfErr result (λ reason. trial_refusal net.now estimates.now trial.now ≡ Some reason) }
{
    let Some(a) = named(net, &trial.act) else {
        return Err(Reason::UnknownActivity);
    };
    let term = term_tried(trial, net.term(a));
    match first_reason(net, a, is_trial_over(trial), &term, &estimates[a as usize]) {
        None => Ok(ActTerm { activity: a, term }),
        Some(reason) => Err(reason),
    }
}

/// Returns the activity with a code.
fn named(net: &CrashNet<'_>, code: &Code) -> Option<u32>
    ensures value { result ≡ activity_named net.now code.now }
    ensures known { IfSome result (λ a. a < length net.now.network.arcs) }
{
    net.facts();
    net.activity_named(code)
}

/// Returns the first reason against numbers of an activity, if there is one.
fn first_reason(
    net: &CrashNet<'_>,
    a: u32,
    over: bool,
    term: &Term,
    estimates: &Estimates,
) -> Option<Reason>
    requires { a < length net.now.network.arcs }
    ensures { result ≡ refusal_of over term.now estimates.now (pieces_of net.now.pieces a) }
{
    if over {
        Some(Reason::OverLimit)
    } else if term.normal < term.crash {
        Some(Reason::CrashAboveNormal)
    } else if are_disordered(estimates) {
        Some(Reason::EstimatesOutOfOrder)
    } else if is_flawed(net, a, term) {
        Some(Reason::PieceFault)
    } else {
        None
    }
}

/// Returns whether estimates are out of order.
fn are_disordered(estimates: &Estimates) -> bool
    ensures { result ≡ are_disordered estimates.now }
{
    estimates.likely < estimates.optimistic || estimates.pessimistic < estimates.likely
}

/// Returns whether a number of a change is over its limit.
fn is_over(change: &Change) -> bool
    ensures { result ≡ is_over change.now }
{
    match *change {
        Change::Estimate(new) => {
            MAX_DURATION < new.optimistic
                || MAX_DURATION < new.likely
                || MAX_DURATION < new.pessimistic
        }
        Change::Normal(n) | Change::Crash(n) => MAX_DURATION < n,
        Change::Slope(n) => MAX_SLOPE < n,
    }
}

/// Returns whether a number of a trial other than its length is over its limit.
fn is_trial_over(trial: &Trial) -> bool
    ensures { result ≡ is_trial_over trial.now }
{
    MAX_DURATION < trial.normal || MAX_DURATION < trial.crash || MAX_SLOPE < trial.slope
}

/// Returns a term with the three numbers of a trial.
fn term_tried(trial: &Trial, term: Term) -> Term
    ensures { result ≡ term_tried trial.now term }
{
    Term {
        normal: trial.normal,
        crash: trial.crash,
        slope: trial.slope,
        cost: term.cost,
    }
}

/// Returns whether a further piece of an activity would have a fault with this term. Looks at its knees once.
///
/// The slopes of the pieces rise, so the term's slope must only be below that of the first of them, and the term must
/// have more units from normal to crash than they have together.
fn is_flawed(net: &CrashNet<'_>, a: u32, term: &Term) -> bool
    requires activity { a < length net.now.network.arcs }
    requires ordered { term.now.crash ≤ term.now.normal }
    ensures { result ≡ has_flaw term.now term.now.slope 0 (pieces_of net.now.pieces a) }
{
    net.facts();
    let knees = net.knees(a);
    if knees.len() < 2 {
        return false;
    }
    let own = net.term(a);
    let slope = own.slope + knees.rise(1);
    let units = knees.knee(1) - own.crash;
    slope <= term.slope || term.normal - term.crash <= units
}
