//! Why two neighbours show an optimum. Each function here does nothing: its contract is the law, and a caller that
//! calls it has the law as a fact.
ghost use Rattle.std.specs.Prelude.{◌+◌, ◌-◌, ◌≤◌, ℕ, ℤ, Option};
ghost use Rattle.pc_model.specs.declared.TimeTerms.{TimeTerms};
ghost use Rattle.pc_model.specs.Cost.{IsPriced};
ghost use Rattle.pc_crash.specs.Priced.{PricedNetwork, knees_in};
ghost use Rattle.pc_curve.specs.Points.{curve_in};
ghost use Rattle.pc_total.specs.Totals.{IsOptimum, IsTotal};
ghost use Rattle.pc_total.specs.Bests.{HaveSigns, IsRiseAbove, IsRiseBelow};

/// States that what one more unit saves does not grow with the length: of two lengths the longer one gains no more.
pub fn gains_fall()
    ensures { (net : PricedNetwork) (short long a b c d : ℕ) → IsPriced net.network net.terms (knees_in net) →
        short ≤ long →
        curve_in net short a → curve_in net (short + 1) b → curve_in net long c → curve_in net (long + 1) d →
        c - d ≤ a - b }
{}

/// States that, if the bonus is at most the penalty, two signs show the optimum: one unit less costs more in total, and
/// one unit more costs no less. Then no length of the range has a lower total, and no shorter one an equal total.
pub fn two_signs_show_the_optimum()
    ensures { (net : PricedNetwork) (terms : TimeTerms) (shortest longest limit : ℕ) (total : ℤ)
        (below above : Option ℤ) →
        IsPriced net.network net.terms (knees_in net) → terms.bonus ≤ terms.penalty → shortest ≤ limit →
        limit ≤ longest →
        IsTotal (curve_in net) terms limit total → IsRiseBelow (curve_in net) terms shortest limit total below →
        IsRiseAbove (curve_in net) terms longest limit total above → HaveSigns below above →
        IsOptimum (curve_in net) terms shortest longest limit total }
{}
