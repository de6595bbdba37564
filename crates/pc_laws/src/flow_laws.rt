//! Why a flow proves that a schedule is cheapest, and how large its value can be.

ghost use Rattle.std.specs.Prelude.{◌≡◌, ℕ, pos, ◌≤ℤ◌, ◌+◌, ◌*◌, ◌^◌, ◌<◌, ◌≤◌, List, length, All};
ghost use Rattle.pc_model.specs.declared.Term.{Term};
ghost use Rattle.pc_model.specs.declared.PieceRow.{PieceRow};
ghost use Rattle.pc_model.specs.declared.limits.TheConstants.{MAX_ACTIVITIES, MAX_SLOPE};
ghost use Rattle.pc_model.specs.Sums.{sum_to};
ghost use Rattle.pc_model.specs.Network.{Network, IsOrder};
ghost use Rattle.pc_model.specs.Schedule.{
  slope_of,
  AreTerms,
  IsSchedule,
  IsAllCrashLength,
  lesser_of,
};
ghost use Rattle.pc_model.specs.Cost.{
  Knees,
  cost_of,
  IsLeastCost,
  IsPriced,
  last_slope,
};
ghost use Rattle.pc_model.specs.Pieces.{knees_of, ArePieces};
ghost use Rattle.pc_laws.specs.Flow.{whole_flow, IsFlow, promise, bound_of};
ghost use Rattle.pc_laws.specs.Tight.{AreTight};
ghost use Rattle.pc_laws.specs.State.{State, IsOptimal};

/// States weak duality: no schedule for a length costs less than the bound of any flow at that length.
///
/// # Source
///
/// Kelley 1961; Fulkerson 1961.
pub fn weak_duality()
    ensures promised { (net : Network) (terms : List Term) (knees : Knees) (flow : ℕ → ℕ → ℕ)
        (beside durations times : ℕ → ℕ) (value limit : ℕ) →
        IsPriced net terms knees → IsFlow net knees flow beside value → IsSchedule net terms limit durations times →
        promise terms knees flow beside ≤ cost_of terms knees durations + limit * value }
    ensures bounded { (net : Network) (terms : List Term) (knees : Knees) (flow : ℕ → ℕ → ℕ)
        (beside durations times : ℕ → ℕ) (value limit : ℕ) →
        IsPriced net terms knees → IsFlow net knees flow beside value → IsSchedule net terms limit durations times →
        bound_of terms knees flow beside value limit ≤ℤ pos (cost_of terms knees durations) }
{}

/// States complementary slackness: if every activity is tight between given times, the lesser of normal duration and
/// gap for each activity is a cheapest schedule that ends as early, and its cost is the bound of the flow.
///
/// # Source
///
/// Kelley 1961; Fulkerson 1961.
pub fn complementary_slackness()
    ensures schedule { (net : Network) (terms : List Term) (knees : Knees) (flow : ℕ → ℕ → ℕ) (beside times : ℕ → ℕ)
        (value : ℕ) →
        IsPriced net terms knees → IsFlow net knees flow beside value → AreTight net terms knees flow beside times →
        IsSchedule net terms (times net.end) (lesser_of net terms times) times }
    ensures balanced { (net : Network) (terms : List Term) (knees : Knees) (flow : ℕ → ℕ → ℕ) (beside times : ℕ → ℕ)
        (value : ℕ) →
        IsPriced net terms knees → IsFlow net knees flow beside value → AreTight net terms knees flow beside times →
        promise terms knees flow beside ≡ cost_of terms knees (lesser_of net terms times) + times net.end * value }
    ensures least { (net : Network) (terms : List Term) (knees : Knees) (flow : ℕ → ℕ → ℕ) (beside times : ℕ → ℕ)
        (value : ℕ) →
        IsPriced net terms knees → IsFlow net knees flow beside value → AreTight net terms knees flow beside times →
        IsLeastCost net terms knees (times net.end) (cost_of terms knees (lesser_of net terms times)) }
{}

/// States that the flow of a state is bounded.
///
/// If some schedule is shorter than the present length, or this length is above the all-crash length, the value of the
/// flow is at most the sum of the last slopes. No activity has more flow than the value.
pub fn flow_is_bounded()
    ensures by_slopes { (net : Network) (terms : List Term) (knees : Knees) (st : State) (limit : ℕ)
        (durations times : ℕ → ℕ) →
        IsPriced net terms knees → IsOptimal net terms knees st → IsSchedule net terms limit durations times →
        limit < st.limit →
        st.value ≤ sum_to (length net.arcs) (last_slope knees) }
    ensures above_all_crash { (net : Network) (terms : List Term) (knees : Knees) (order : List ℕ) (st : State)
        (shortest : ℕ) →
        IsPriced net terms knees → IsOrder net order → IsOptimal net terms knees st →
        IsAllCrashLength net terms shortest → shortest < st.limit →
        st.value ≤ sum_to (length net.arcs) (last_slope knees) }
    ensures by_value { (net : Network) (terms : List Term) (knees : Knees) (order : List ℕ) (flow : ℕ → ℕ → ℕ)
        (beside : ℕ → ℕ) (value a : ℕ) →
        IsPriced net terms knees → IsOrder net order → IsFlow net knees flow beside value →
        a < length net.arcs → whole_flow knees flow beside a ≤ value }
{}

/// States that within the limits of a project the sum of the last slopes is below 10^13.
pub fn last_slopes_are_small()
    ensures each { (terms : List Term) (pieces : List PieceRow) (a : ℕ) → ArePieces terms pieces →
        ((b : ℕ) → b < length terms → slope_of terms b ≤ MAX_SLOPE) → All (λ piece. piece.slope ≤ MAX_SLOPE) pieces →
        a < length terms → last_slope (knees_of terms pieces) a ≤ MAX_SLOPE }
    ensures sum { (net : Network) (terms : List Term) (pieces : List PieceRow) → AreTerms net terms →
        ArePieces terms pieces →
        ((b : ℕ) → b < length terms → slope_of terms b ≤ MAX_SLOPE) → All (λ piece. piece.slope ≤ MAX_SLOPE) pieces →
        length net.arcs ≤ MAX_ACTIVITIES → sum_to (length net.arcs) (last_slope (knees_of terms pieces)) < 10 ^ 13 }
{}
