//! Laws of schedules: for which lengths there are any, what shortening an activity costs, and the least cost of a
//! schedule for a length.
//!
//! Each function here does nothing: its contract is the law, proved once, and a caller that calls it has the law
//! as a fact.
ghost use Rattle.std.specs.Prelude.{◌≤◌, ℕ, List, ◌≡◌, ◌<◌, ◌+◌, ◌-◌, ◌*◌, [], length, ◌∷◌};
ghost use Rattle.pc_model.specs.declared.Term.{Term};
ghost use Rattle.pc_model.specs.Network.{Network, IsInRange, IsSound, IsOrder, IsEarly};
ghost use Rattle.pc_model.specs.Schedule.{
  AreTerms,
  HasSchedule,
  IsAllCrashLength,
  term_at,
  normal_of,
  normals,
  base_cost_of,
  slope_of,
  IsAllNormalLength,
};
ghost use Rattle.pc_model.specs.declared.PieceRow.{PieceRow};
ghost use Rattle.pc_model.specs.Sums.{sum_to};
ghost use Rattle.pc_model.specs.Cost.{
  Knees,
  AreKnees,
  one_knee,
  activity_cost,
  cost_of,
  last_slope,
  IsLeastCost,
  IsPriced,
};
ghost use Rattle.pc_model.specs.Pieces.{pieces_of, slope_in, knees_of, ArePieces};
ghost use Rattle.pc_model.specs.Worked.{small_net, small_terms, small_pieces};

/// States that a length has a schedule if and only if it is at least the all-crash length.
pub fn schedules_begin_at_all_crash()
    ensures exists { (net : Network) (terms : List Term) (order : List ℕ) (shortest limit : ℕ) →
        IsInRange net → IsSound net → AreTerms net terms → IsOrder net order → IsAllCrashLength net terms shortest →
        shortest ≤ limit → HasSchedule net terms limit }
    ensures none_below { (net : Network) (terms : List Term) (shortest limit : ℕ) →
        AreTerms net terms → IsAllCrashLength net terms shortest → HasSchedule net terms limit → shortest ≤ limit }
{}

/// States that pieces make knees that fit the terms, and so does the one knee of a cost with a single slope. The last
/// slope is the slope of the last piece.
pub fn pieces_make_knees()
    ensures fit { (net : Network) (terms : List Term) (pieces : List PieceRow) →
        AreTerms net terms → ArePieces terms pieces → AreKnees net terms (knees_of terms pieces) }
    ensures one { (net : Network) (terms : List Term) → AreTerms net terms → AreKnees net terms (one_knee terms) }
    ensures last { (terms : List Term) (pieces : List PieceRow) (a : ℕ) → ArePieces terms pieces → a < length terms →
        last_slope (knees_of terms pieces) a
        ≡ slope_in (term_at terms a) (pieces_of pieces a) (length (pieces_of pieces a)) }
{}

/// States what shortening a duration by one unit costs: the slope of the piece that contains that unit.
///
/// Piece `k` goes from knee `k` down to the next knee or to the crash duration. At their normal durations the
/// activities cost what their terms say. Without pieces, or with one knee, each unit below normal costs the slope.
pub fn a_unit_costs_its_slope()
    ensures piece { (net : Network) (terms : List Term) (pieces : List PieceRow) (a d k : ℕ) → AreTerms net terms →
        ArePieces terms pieces →
        a < length net.arcs → k ≤ length (pieces_of pieces a) → d < (knees_of terms pieces).knee a k →
        (k < length (pieces_of pieces a) → (knees_of terms pieces).knee a (k + 1) ≤ d) →
        activity_cost terms (knees_of terms pieces) a d
        ≡ activity_cost terms (knees_of terms pieces) a (d + 1) + slope_in (term_at terms a) (pieces_of pieces a) k }
    ensures normal { (net : Network) (terms : List Term) (knees : Knees) → AreTerms net terms →
        AreKnees net terms knees →
        cost_of terms knees (normal_of terms) ≡ sum_to (length terms) (base_cost_of terms) }
    ensures plain { (terms : List Term) (a d : ℕ) →
        activity_cost terms (knees_of terms []) a d
        ≡ base_cost_of terms a + slope_of terms a * (normal_of terms a - d) }
    ensures one { (terms : List Term) (a d : ℕ) →
        activity_cost terms (one_knee terms) a d ≡ base_cost_of terms a + slope_of terms a * (normal_of terms a - d) }
{}

/// States that the least cost is convex: a length has one least cost, a longer one costs no more, and of three
/// consecutive lengths the middle one costs at most the mean of the outer two.
///
/// # Source
///
/// Kelley 1961; Fulkerson 1961.
pub fn least_cost_is_convex()
    ensures unique { (net : Network) (terms : List Term) (knees : Knees) (limit a b : ℕ) →
        IsLeastCost net terms knees limit a → IsLeastCost net terms knees limit b → a ≡ b }
    ensures falls { (net : Network) (terms : List Term) (knees : Knees) (short long a b : ℕ) → short ≤ long →
        IsLeastCost net terms knees short a → IsLeastCost net terms knees long b → b ≤ a }
    ensures convex { (net : Network) (terms : List Term) (knees : Knees) (limit a b c : ℕ) → AreTerms net terms →
        AreKnees net terms knees →
        IsLeastCost net terms knees limit a → IsLeastCost net terms knees (limit + 1) b →
        IsLeastCost net terms knees (limit + 2) c → 2 * b ≤ a + c }
{}

/// States that at the all-normal length no schedule costs less than the normal durations.
pub fn normal_durations_are_cheapest()
    ensures { (net : Network) (terms : List Term) (knees : Knees) (times : ℕ → ℕ) (limit : ℕ) →
        IsInRange net → IsSound net → AreTerms net terms →
        ((e : ℕ) → e < net.events → IsEarly net (normals terms) e (times e)) →
        IsAllNormalLength net terms limit → IsLeastCost net terms knees limit (cost_of terms knees (normal_of terms)) }
{}

/// States that the small deck is a priced network, with figures worked by hand.
///
/// It takes 9 units at the normal durations and 5 at the crash durations. The least cost is 45 at 9 units and 48 at 8,
/// since A is the cheaper of the two activities on the only critical path.
pub fn small_deck_is_worked()
    ensures pieces { ArePieces small_terms small_pieces }
    ensures priced { IsPriced small_net small_terms (knees_of small_terms small_pieces) }
    ensures order { IsOrder small_net (0 ∷ 1 ∷ 2 ∷ []) }
    ensures longest { IsAllNormalLength small_net small_terms 9 }
    ensures shortest { IsAllCrashLength small_net small_terms 5 }
    ensures nine { IsLeastCost small_net small_terms (knees_of small_terms small_pieces) 9 45 }
    ensures eight { IsLeastCost small_net small_terms (knees_of small_terms small_pieces) 8 48 }
{}
