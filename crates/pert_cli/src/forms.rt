//! The table of the forms: what the words can ask for, and where the answer is built.
//!
//! A form has a variant of `Form`, its name in `usage`, a line with its word in `of_one_word` or `of_two_words`, and
//! one in `report`, where its report is built and delivered.
ghost use Rattle.std.specs.Prelude.{◌≡◌, [], ◌∷◌, IfNone, IfSome};
ghost use Rattle.pert_cli.specs.FormDeck.{ReadsSource, sort_of};
ghost use Rattle.pert_cli.specs.Forms.{IsAskedBy, IsDenial, IsNumbered};
ghost use Rattle.pert_cli.specs.Handing.{IsReply};
ghost use Rattle.pert_cli.specs.inside.Handing.{Delivers, Replies};
ghost use Rattle.pc_project.specs.shell.Sides.{side};
ghost use Rattle.pert_cli.specs.declared.forms.Form.TheVariants.{Bench};
ghost use Rattle.pert_cli.specs.Words.{AskFor, AskForNone, usage_text};

use crate::certify::CertificateReport;
use crate::cheapest::cheapest_schedule;
use crate::curve::{CurveLines, CurveReport};
use crate::deliver::{NoAnswer, deliver};
use crate::load::LoadReport;
use crate::migrate::DeckText;
use crate::normal::normal_schedule;
use crate::optimum::optimum_of;
use crate::outlook::outlook_for;
use crate::solving::priced_net;
use pc_cards::sort::Sort;
use pc_curve::bench::MOST_ACTIVITIES;
use pc_edges::Sink;
use pc_load::MAX_DAYS;
use pc_project::Project;
use pc_project::shell::{Status, refuse};
use pc_reports::{SummaryReport, TimesReport, ValueReport};
use pc_text::read_number;
use std::alloc::Global;

/// Returns the usage line, which names the forms.
pub(crate) fn usage() -> &'static [u8]
    ensures { result.now ≡ usage_text }
{
    b"usage: pert check | normal | times | summary | value | curve | certify | point L | outlook L \
      | bench N | migrate | optimum | arrows | load P\n"
}

/// What the words can ask for, in the order of the usage line.
///
/// A variant is named after its word. `tools/command-files.py` takes the first line of its comment into completion, and
/// the rest into the manual page.
#[derive(Clone, Copy)]
pub(crate) enum Form {
    /// Whether the deck is accepted, and its counts.
    ///
    /// Says that the deck is accepted, and counts its events, activities, items, accounts, charges, amounts to go and
    /// statuses. PIECE, TERMS, RES and LOAD cards are checked but not counted; `migrate` writes them out.
    Check,
    /// The schedule with every normal duration.
    ///
    /// Writes the length and the cost of the project with every activity at its normal duration, the earliest time of
    /// each event, and the duration of each activity, in units of the deck. No schedule of this length costs less.
    Normal,
    /// Expected times, slack and the critical path.
    ///
    /// Writes for each event its expected time TE, its latest allowable time TL, its slack and its date; for each
    /// activity its expected time, variance and slack; then the critical path, and the sum of its variances. Times are
    /// in sixths of a day from the start date, variances in thirty-sixths of a square day.
    Times,
    /// Budgets, spending and estimates by item.
    ///
    /// Writes for each item of the work breakdown structure its budget, what was spent up to the as-of date, what is
    /// still to be spent, the latest estimate, and the overrun: that estimate less the budget. The last rows have the
    /// same sums for each level.
    Summary,
    /// Forecast and value of the work done.
    ///
    /// Writes for each event when it is expected, given the status at the as-of date, by how much it can still slip,
    /// and its date. Writes for each item its budget, what was spent, the value of the work done, the overrun (here
    /// what was spent less that value), and the least slack of its activities.
    Value,
    /// The least cost of each length.
    ///
    /// Writes the breakpoints of the time-cost curve, from the all-normal length down to the all-crash length: a
    /// length, the least cost of a schedule for it, and the extra cost of finishing one unit sooner, with a dash at the
    /// last.
    Curve,
    /// The curve with its proof, for pert_check.
    ///
    /// Writes a certificate of the time-cost curve: for each segment a cost and a slope, and for every length a
    /// cheapest schedule with what proves it. `pert_check`(1) checks it against the deck.
    Certify,
    /// A cheapest schedule of a length.
    ///
    /// Writes a schedule of this length, in units, in the format of `normal`. No schedule of this length costs less.
    Point(u64),
    /// What each item costs at a length.
    ///
    /// Writes the same schedule as `point`, and for each item its budget, what it costs with this schedule, and the
    /// change: that cost less the budget.
    Outlook(u64),
    /// Figures of a generated deck of a size.
    ///
    /// Reads no deck. It generates one with this number of activities, 1 to 4000, the same on every machine, and writes
    /// its all-normal and its all-crash length with their least costs, the number of breakpoints, and the sum of the
    /// least costs of all lengths between them.
    Bench(u64),
    /// The deck in canonical form.
    ///
    /// Writes the deck in canonical form: version 2, with an ASOF card, grouped by kind, each kind in card order,
    /// quoted only where necessary. The result describes the same project, and migrating it again changes nothing.
    Migrate,
    /// The length with the least total cost.
    ///
    /// Writes the length with the least total cost, the smallest if there are several; the least cost of a schedule for
    /// it; the cost of the time by the TERMS card; the total; by how much the total is higher one unit shorter and one
    /// unit longer, with a dash where there is no such length; and such a schedule. Without a TERMS card time costs
    /// nothing, and the result is the shortest length with the least cost.
    Optimum,
    /// The network of a deck of tasks.
    ///
    /// Reads a deck of tasks, which has TASK cards, and AFTER cards that say which task begins only after which other
    /// has ended. Writes a deck in the form of `migrate` with an activity for each task, between two events of its own,
    /// and links between them that take no time and cost nothing. The deck has a schedule of a length if and only if
    /// the tasks have one, and the least costs are equal.
    Arrows,
    /// Spending and resources by periods of days.
    ///
    /// Writes for each period of this many days, 1 to 3660, from the start date on, what each item spends and how much
    /// of each resource is used. The normal cost and the loads of an activity are spread evenly over its expected time,
    /// from its earliest time on. At most 400 periods are allowed.
    Load(u64),
}

impl Form {
    /// Returns the form that the words ask for.
    pub(crate) fn asked(words: &[String]) -> Option<Form>
        ensures form { IfSome result (λ form. AskFor form words.now) }
        ensures none { IfNone result (AskForNone words.now) }
    {
        match words {
            [word] => Form::of_one_word(word.as_str()),
            [word, number] => Form::of_two_words(word.as_str(), number.as_bytes()),
            _ => None,
        }
    }

    /// Returns the form of a single word.
    fn of_one_word(word: &str) -> Option<Form>
        ensures form { IfSome result (λ form. IsAskedBy form (word.now ∷ [])) }
        ensures none { IfNone result ((form : Form) → IsAskedBy form (word.now ∷ []) → ⊥) }
    {
        match word {
            "check" => Some(Form::Check),
            "normal" => Some(Form::Normal),
            "times" => Some(Form::Times),
            "summary" => Some(Form::Summary),
            "value" => Some(Form::Value),
            "curve" => Some(Form::Curve),
            "certify" => Some(Form::Certify),
            "migrate" => Some(Form::Migrate),
            "optimum" => Some(Form::Optimum),
            "arrows" => Some(Form::Arrows),
            _ => None,
        }
    }

    /// Returns the form of a word and a number.
    fn of_two_words(word: &str, number: &[u8]) -> Option<Form>
        ensures form { IfSome result (λ form. IsAskedBy form (word.now ∷ number.now ∷ [])) }
        ensures none { IfNone result ((form : Form) → IsAskedBy form (word.now ∷ number.now ∷ []) → ⊥) }
    {
        match word {
            "point" => read_number(number).map(Form::Point),
            "outlook" => read_number(number).map(Form::Outlook),
            "bench" => read_number(number)
                .filter(|n| (1..=MOST_ACTIVITIES).contains(n))
                .map(Form::Bench),
            "load" => read_number(number)
                .filter(|days| (1..=MAX_DAYS).contains(days))
                .map(Form::Load),
            _ => None,
        }
    }

    /// Returns the number of activities of the form's own deck, or `None` if the form reads the source.
    pub(crate) fn bench(self) -> Option<u64>
        ensures own { IfSome result (λ n. self ≡ Bench n) }
        ensures none { IfNone result (ReadsSource self) }
    {
        match self {
            Form::Bench(n) => Some(n),
            _ => None,
        }
    }

    /// Returns the sort of the form's deck.
    pub(crate) fn sort(self) -> Sort
        ensures { result ≡ sort_of self }
    {
        match self {
            Form::Arrows => Sort::Tasks,
            _ => Sort::Plan,
        }
    }

    /// Returns the memory of the deck that was read if the answer is a deck too, and none for any other answer.
    fn room_of(self, alloc: Global, deck: Vec<u8>) -> Vec<u8> {
        match self {
            Form::Migrate | Form::Arrows => deck,
            _ => Vec::new(alloc),
        }
    }

    /// Writes the form's answer for a project on `out`, or on `err` the fault with which the form refuses the project.
    ///
    /// Takes all memory before it writes the first byte. Drops the bytes of the deck that was read.
    pub(crate) fn answer<O: Sink, E: Sink>(
        self,
        alloc: Global,
        project: &Project,
        deck: Vec<u8>,
        out: &mut O,
        err: &mut E,
    ) -> Status
        requires { IsNumbered self }
        ensures { Replies self project.now (side O.taken O.faults out.old out.new)
            (side E.taken E.faults err.old err.new) result }
    {
        match self.report(alloc, project, deck, out) {
            Ok(()) => Status::Done,
            Err(NoAnswer::Refused(fault)) => refuse(alloc, &fault, err),
            Err(NoAnswer::OutOfMemory) => Status::OutOfMemory,
            Err(NoAnswer::WriteFault) => Status::WriteFault,
        }
    }

    /// Builds the form's report of a project and delivers it to `out`.
    fn report<O: Sink>(
        self,
        alloc: Global,
        project: &Project,
        deck: Vec<u8>,
        out: &mut O,
    ) -> Result<(), NoAnswer>
        requires { IsNumbered self }
        ensures { Delivers (IsReply self project.now) (IsDenial self project.now)
            (side O.taken O.faults out.old out.new) result }
    {
        let room = self.room_of(alloc, deck);
        match self {
            Form::Check => deliver(alloc, project.counts(), project, out),
            Form::Normal => deliver(alloc, normal_schedule(alloc, project)?, project, out),
            Form::Times => deliver(alloc, TimesReport::build(alloc, project)?, project, out),
            Form::Summary => deliver(alloc, SummaryReport::build(alloc, project)?, project, out),
            Form::Value => deliver(alloc, ValueReport::build(alloc, project)?, project, out),
            Form::Curve => {
                let report = CurveReport::build(alloc, project, CurveLines::Breakpoints)?;
                deliver(alloc, report, project, out)
            }
            Form::Certify => {
                let report = CertificateReport::build(alloc, project)?;
                deliver(alloc, report, project, out)
            }
            Form::Point(limit) => {
                let net = priced_net(alloc, project)?;
                let schedule = cheapest_schedule(alloc, project, &net, limit)?;
                deliver(alloc, schedule, project, out)
            }
            Form::Outlook(limit) => {
                let report = outlook_for(alloc, project, limit)?;
                deliver(alloc, report, project, out)
            }
            Form::Bench(n) => {
                let report = CurveReport::build(alloc, project, CurveLines::Figures(n))?;
                deliver(alloc, report, project, out)
            }
            Form::Migrate => deliver(alloc, DeckText::build(project, room)?, project, out),
            Form::Optimum => deliver(alloc, optimum_of(alloc, project)?, project, out),
            Form::Arrows => deliver(alloc, DeckText::build(project, room)?, project, out),
            Form::Load(days) => {
                let report = LoadReport::build(alloc, project, days)?;
                deliver(alloc, report, project, out)
            }
        }
    }
}
