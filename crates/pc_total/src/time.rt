//! What a project's time costs.
ghost use Rattle.std.specs.Prelude.{◌≡◌, ◌≤◌};
ghost use Rattle.pc_model.specs.TimeCost.{AreTimeTerms, time_cost_of};
ghost use Rattle.pc_flow.specs.declared.early.TheConstants.{MAX_LENGTH};
ghost use Rattle.pc_total.specs.inside.TermsOfTime.{AreTermsOfTime};
ghost use Rattle.pc_total.specs.inside.Stops.{unit_cost};

use pc_flow::MAX_LENGTH;
use pc_model::TimeTerms;

/// Returns what the time of a project of this length, in units, costs: the overhead of each unit, plus the penalty of
/// each unit above the target, or minus the bonus of each unit below it. It is negative if the bonus outweighs the
/// overhead.
///
/// The length is at most 1,000,000,000 units, and so is each of the terms. The bonus may be above the penalty.
pub fn time_cost(terms: &TimeTerms, length: u64) -> i64
    requires terms { AreTermsOfTime terms.now }
    requires length { length ≤ MAX_LENGTH }
    ensures { result ≡ time_cost_of terms.now length }
{
    let dear = terms.overhead * length + terms.penalty * length.saturating_sub(terms.target);
    let earned = terms.bonus * terms.target.saturating_sub(length);
    dear as i64 - earned as i64
}

/// What the last unit of a length costs: the overhead, and the penalty if it is past the target, or else the bonus that
/// it loses.
pub(crate) fn unit_cost(terms: &TimeTerms, length: u64) -> u64
    requires { AreTimeTerms terms.now }
    ensures { result ≡ unit_cost terms.now length }
{
    let late = terms.target < length;
    terms.overhead + if late { terms.penalty } else { terms.bonus }
}
