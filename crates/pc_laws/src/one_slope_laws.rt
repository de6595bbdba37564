//! What the definitions say for costs with one slope, in both directions: a flow at one knee, f1, and one on the crash
//! duration, f2. If you think of an activity as a normal and a crash duration with one slope between them, the familiar
//! facts are here.

ghost use Rattle.std.specs.Prelude.{◌≡◌, ◌↔◌, ℕ, List, []};
ghost use Rattle.pc_model.specs.declared.Term.{Term};
ghost use Rattle.pc_model.specs.Network.{Network};
ghost use Rattle.pc_model.specs.Schedule.{AreTerms};
ghost use Rattle.pc_model.specs.Cost.{Knees, one_knee, cost_of, IsLeastCost};
ghost use Rattle.pc_model.specs.Pieces.{knees_of};
ghost use Rattle.pc_laws.specs.Flow.{IsFlow, promise};
ghost use Rattle.pc_laws.specs.Segment.{Segment, IsSegment};
ghost use Rattle.pc_laws.specs.Cover.{IsCovering};
ghost use Rattle.pc_laws.specs.OneSlope.{
  HasOneSlope,
  plain_cost_of,
  IsPlainLeastCost,
  IsPlainFlow,
  plain_promise,
  IsPlainSegment,
  IsPlainCovering,
};

/// States that without pieces each activity has one slope.
pub fn no_pieces_give_one_slope()
    ensures pieces { (net : Network) (terms : List Term) → HasOneSlope net terms (knees_of terms []) }
    ensures knee { (net : Network) (terms : List Term) → HasOneSlope net terms (one_knee terms) }
{}

/// States that durations cost the slope for each unit saved, and that the least cost is the least of these costs.
pub fn costs_with_one_slope()
    ensures costs { (net : Network) (terms : List Term) (knees : Knees) (durations : ℕ → ℕ) →
        AreTerms net terms → HasOneSlope net terms knees →
        cost_of terms knees durations ≡ plain_cost_of terms durations }
    ensures least { (net : Network) (terms : List Term) (knees : Knees) (limit cost : ℕ) → AreTerms net terms →
        HasOneSlope net terms knees →
        (IsLeastCost net terms knees limit cost) ↔ (IsPlainLeastCost net terms limit cost) }
{}

/// States that a flow is two numbers per activity, the first at most the slope, and that it promises the costs, normal
/// times f1 and crash times f2.
pub fn flows_with_one_slope()
    ensures flows { (net : Network) (terms : List Term) (knees : Knees) (flow : ℕ → ℕ → ℕ) (beside : ℕ → ℕ)
        (value : ℕ) → HasOneSlope net terms knees →
        (IsFlow net knees flow beside value) ↔ (IsPlainFlow net terms (λ a. flow a 0) beside value) }
    ensures promises { (net : Network) (terms : List Term) (knees : Knees) (flow : ℕ → ℕ → ℕ) (beside : ℕ → ℕ) →
        AreTerms net terms → HasOneSlope net terms knees →
        promise terms knees flow beside ≡ plain_promise terms (λ a. flow a 0) beside }
{}

/// States that a segment is complete if and only if it meets the conditions as they read for one slope, and that
/// segments cover a range if and only if they do so by these conditions.
pub fn segments_with_one_slope()
    ensures segment { (net : Network) (terms : List Term) (knees : Knees) (segment : Segment) → AreTerms net terms →
        HasOneSlope net terms knees →
        (IsSegment net terms knees segment) ↔ (IsPlainSegment net terms segment) }
    ensures covering { (net : Network) (terms : List Term) (knees : Knees) (segments : List Segment)
        (high low : ℕ) → AreTerms net terms → HasOneSlope net terms knees →
        (IsCovering net terms knees segments high low) ↔ (IsPlainCovering net terms segments high low) }
{}
