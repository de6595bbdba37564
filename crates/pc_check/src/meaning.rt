//! What a certificate means, and laws of its texts. Each function is its contract and does nothing.
ghost use Rattle.std.specs.Prelude.{◌≡◌, ℕ, List, length, None, Some};
ghost use Rattle.pc_model.specs.Cost.{IsPriced};
ghost use Rattle.pc_crash.specs.Priced.{PricedNetwork, knees_in};
ghost use Rattle.pc_check.specs.Headline.{PrintsWholeCurve};
ghost use Rattle.pc_check.specs.Texts.{IsCertified, IsFailing};
ghost use Rattle.pc_cert.specs.declared.line.CertLine.{CertLine};
ghost use Rattle.pc_cert.specs.declared.place.Place.{Place};
ghost use Rattle.pc_cert.specs.declared.place.Place.TheVariants.{Start};
ghost use Rattle.pc_cert.specs.Text.{ran};
ghost use Rattle.pc_check.specs.declared.checker.Fail.{Fail};
ghost use Rattle.pc_check.specs.Failures.{failure_of};
ghost use Rattle.pc_check.specs.OwnLines.{AreFew};

/// States that a certified text of a sound network prints a cheapest schedule for every length from the all-crash to
/// the all-normal length.
///
/// The text also has the proof: the flow, whose bound is the printed cost, and the cut, whose gain is the slope.
pub fn certificates_print_the_curve()
    ensures { (net : PricedNetwork) (text : List ℕ) (segments : ℕ) → IsPriced net.network net.terms (knees_in net)
        → length net.activities ≡ length net.network.arcs → IsCertified net text segments → PrintsWholeCurve net text }
{}

/// States that a text has one verdict.
///
/// It is not both certified and failing. A certified text has one number of segments, and a failing text one first
/// point of failure.
pub fn one_verdict()
    ensures not_both { (net : PricedNetwork) (text : List ℕ) (segments : ℕ) (fail : Fail) →
        IsCertified net text segments → IsFailing net text fail → ⊥ }
    ensures one_number { (net : PricedNetwork) (text : List ℕ) (segments others : ℕ) →
        IsCertified net text segments → IsCertified net text others → segments ≡ others }
    ensures one_failure { (net : PricedNetwork) (text : List ℕ) (fail other : Fail) → IsFailing net text fail →
        IsFailing net text other → fail ≡ other }
{}

/// States how many lines there are at most if none of them fails.
///
/// There are the header and the walks, at most as many segments as the upper end of the first segment is long (one if
/// it is 0), and `END`.
pub fn lines_are_few()
    ensures { (net : PricedNetwork) (place : Place) (lines : List CertLine) → ran Start lines ≡ Some place →
        failure_of net lines ≡ None
        → AreFew net.network.events (length net.network.arcs) lines }
{}
