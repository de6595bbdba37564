//! What holds between two labellings, with one total flow per activity. A solver that keeps only this flow, on the
//! staircases, has all that the laws of states at knees give.
//!
//! Each function here does nothing: its contract is the law, proved once, and a caller that calls it has the law
//! as a fact.

ghost use Rattle.std.specs.Prelude.{
  [],
  ◌∷◌,
  slice_index,
  ◌≡◌,
  ◌≢◌,
  ◌⊎◌,
  ◌≤◌,
  ◌<◌,
  ◌+◌,
  ◌-◌,
  ◌*◌,
  ℕ,
  Bool,
  false,
  List,
  length,
};
ghost use Rattle.pc_model.specs.declared.Term.{Term};
ghost use Rattle.pc_model.specs.Sums.{sum_to};
ghost use Rattle.pc_model.specs.Walk.{from_of, to_of};
ghost use Rattle.pc_model.specs.Network.{Network, IsOrder};
ghost use Rattle.pc_model.specs.Schedule.{
  normal_of,
  gap_of,
  lesser_of,
  IsSchedule,
  IsAllCrashLength,
};
ghost use Rattle.pc_model.specs.Cost.{Knees, cost_of, last_slope, IsLeastCost, IsPriced};
ghost use Rattle.pc_laws.specs.Flow.{whole_flow};
ghost use Rattle.pc_laws.specs.Segment.{fall_of, IsSegment};
ghost use Rattle.pc_laws.specs.State.{State, IsOptimal, IsStuck, IsFall, segment_of};
ghost use Rattle.pc_model.specs.Pieces.{knees_of};
ghost use Rattle.pc_laws.specs.Worked.{small_2};
ghost use Rattle.pc_model.specs.Worked.{small_net, small_terms, small_pieces};
ghost use Rattle.pc_laws.specs.Stair.{stair_of, unit_length, IsOnStair, knee_flow};
ghost use Rattle.pc_laws.specs.Steps.{
  IsStairOptimal,
  filled_state,
  IsStairRaising,
  IsStairStuck,
  HasStop,
  HasNoStopBefore,
  IsStairFall,
};

/// States that a state with total flows is a state at knees with the flows distributed over them, and the other way
/// round.
///
/// If the labels cannot grow in the one, they cannot in the other, and the step of the times is the same.
pub fn whole_flows_are_states()
    ensures at_knees { (net : Network) (terms : List Term) (knees : Knees) → IsPriced net terms knees →
        (limit : ℕ) (time along : ℕ → ℕ) (value : ℕ) → IsStairOptimal net terms knees limit time along value →
        IsOptimal net terms knees (filled_state terms knees limit time along value) }
    ensures stuck { (net : Network) (terms : List Term) (knees : Knees) → IsPriced net terms knees →
        (limit : ℕ) (time along : ℕ → ℕ) (value : ℕ) (moves : ℕ → Bool) →
        IsStairOptimal net terms knees limit time along value →
        IsStairStuck net terms knees time along moves →
        IsStuck net terms knees (filled_state terms knees limit time along value) moves }
    ensures fall { (net : Network) (terms : List Term) (knees : Knees) → IsPriced net terms knees →
        (limit : ℕ) (time along : ℕ → ℕ) (value : ℕ) (moves : ℕ → Bool) →
        IsStairOptimal net terms knees limit time along value →
        (fall : ℕ) → IsStairFall net terms knees time along moves fall →
        IsFall net terms knees (filled_state terms knees limit time along value) moves fall }
    ensures whole { (net : Network) (terms : List Term) (knees : Knees) → IsPriced net terms knees →
        (st : State) → IsOptimal net terms knees st →
        IsStairOptimal net terms knees st.limit st.time (whole_flow knees st.flow st.beside) st.value }
{}

/// States that at the normal durations, with times that end with the length, nothing flows. If nothing flows and no
/// event moves, the segment of only the present length is complete.
pub fn nothing_flows_at_first()
    ensures state { (net : Network) (terms : List Term) (knees : Knees) → IsPriced net terms knees →
        (limit : ℕ) (times : ℕ → ℕ) → IsSchedule net terms limit (normal_of terms) times → times net.end ≡ limit →
        IsStairOptimal net terms knees limit times (λ a. 0) 0 }
    ensures level { (net : Network) (terms : List Term) (knees : Knees) → IsPriced net terms knees →
        (limit : ℕ) (time along : ℕ → ℕ) (value : ℕ) → IsStairOptimal net terms knees limit time along value →
        (moves : ℕ → Bool) → ((e : ℕ) → e < net.events → moves e ≡ false) →
        ((a : ℕ) → a < length net.arcs → along a ≡ 0) → value ≡ 0 →
        IsSegment net terms knees (segment_of net terms knees
        (filled_state terms knees limit time along value) moves 0) }
{}

/// States that in each state the durations that its times allow are a cheapest schedule for the present length, which
/// is at least the all-crash length, and that no event is later than that length.
pub fn whole_flows_are_cheapest()
    ensures schedule { (net : Network) (terms : List Term) (knees : Knees) → IsPriced net terms knees →
        (limit : ℕ) (time along : ℕ → ℕ) (value : ℕ) → IsStairOptimal net terms knees limit time along value →
        IsSchedule net terms limit (lesser_of net terms time) time }
    ensures least { (net : Network) (terms : List Term) (knees : Knees) → IsPriced net terms knees →
        (limit : ℕ) (time along : ℕ → ℕ) (value : ℕ) → IsStairOptimal net terms knees limit time along value →
        IsLeastCost net terms knees limit (cost_of terms knees (lesser_of net terms time)) }
    ensures within { (net : Network) (terms : List Term) (knees : Knees) → IsPriced net terms knees →
        (limit : ℕ) (time along : ℕ → ℕ) (value : ℕ) → IsStairOptimal net terms knees limit time along value →
        (shortest : ℕ) → IsAllCrashLength net terms shortest → shortest ≤ limit }
    ensures times { (net : Network) (terms : List Term) (knees : Knees) → IsPriced net terms knees →
        (limit : ℕ) (time along : ℕ → ℕ) (value : ℕ) → IsStairOptimal net terms knees limit time along value →
        (e : ℕ) → e < net.events → time e ≤ limit }
{}

/// States that the flow is bounded: if some schedule is shorter than the present length, the value is at most the sum
/// of the last slopes; and no activity has more flow than the value.
pub fn whole_flows_are_bounded()
    ensures by_slopes { (net : Network) (terms : List Term) (knees : Knees) → IsPriced net terms knees →
        (limit : ℕ) (time along : ℕ → ℕ) (value : ℕ) → IsStairOptimal net terms knees limit time along value →
        (shorter : ℕ) (durations times : ℕ → ℕ) → IsSchedule net terms shorter durations times → shorter < limit →
        value ≤ sum_to (length net.arcs) (last_slope knees) }
    ensures above_all_crash { (net : Network) (terms : List Term) (knees : Knees) → IsPriced net terms knees →
        (limit : ℕ) (time along : ℕ → ℕ) (value : ℕ) → IsStairOptimal net terms knees limit time along value →
        (order : List ℕ) (shortest : ℕ) → IsOrder net order → IsAllCrashLength net terms shortest → shortest < limit →
        value ≤ sum_to (length net.arcs) (last_slope knees) }
    ensures by_value { (net : Network) (terms : List Term) (knees : Knees) → IsPriced net terms knees →
        (limit : ℕ) (time along : ℕ → ℕ) (value : ℕ) → IsStairOptimal net terms knees limit time along value →
        (order : List ℕ) → IsOrder net order → (a : ℕ) → a < length net.arcs → along a ≤ value }
{}

/// States that an augmentation is walked back from the end.
///
/// It begins there with the flows as they are. A step back along an activity that ends at the event reached, or against
/// one that begins there, continues it if the new flow fits the gap. At the start it gives the next state, with a
/// higher value.
///
/// # Source
///
/// Fulkerson 1961.
pub fn whole_flow_is_raised()
    ensures begins { (net : Network) (terms : List Term) (knees : Knees) (time along : ℕ → ℕ) (room limit value : ℕ) →
        IsStairOptimal net terms knees limit time along value →
        IsStairRaising net terms knees time along along net.end room }
    ensures along { (net : Network) (terms : List Term) (knees : Knees) (time along : ℕ → ℕ) (room : ℕ)
        (now next : ℕ → ℕ) (a x : ℕ) → a < length net.arcs →
        ((b : ℕ) → b < length net.arcs → b ≢ a → now b ≡ next b) →
        IsOnStair (stair_of terms knees a) (gap_of net.arcs time a) (next a) →
        IsStairRaising net terms knees time along now x room → to_of net.arcs a ≡ x → next a ≡ now a + room →
        IsStairRaising net terms knees time along next (from_of net.arcs a) room }
    ensures against { (net : Network) (terms : List Term) (knees : Knees) (time along : ℕ → ℕ) (room : ℕ)
        (now next : ℕ → ℕ) (a x : ℕ) → a < length net.arcs →
        ((b : ℕ) → b < length net.arcs → b ≢ a → now b ≡ next b) →
        IsOnStair (stair_of terms knees a) (gap_of net.arcs time a) (next a) →
        IsStairRaising net terms knees time along now x room → from_of net.arcs a ≡ x → next a + room ≡ now a →
        IsStairRaising net terms knees time along next (to_of net.arcs a) room }
    ensures raised { (net : Network) (terms : List Term) (knees : Knees) (time along : ℕ → ℕ) (room limit value : ℕ)
        (now : ℕ → ℕ) → IsPriced net terms knees → IsStairOptimal net terms knees limit time along value →
        IsStairRaising net terms knees time along now net.start room →
        IsStairOptimal net terms knees limit time now (value + room) }
{}

/// States that if the labels cannot grow, the least of all stops is the step by which the times can be shortened.
///
/// It is enough that it is the least of the stops and of a number above the present length, since some forward activity
/// stops within that. The step is at least 1 and passes neither the present length nor the all-crash length.
pub fn least_stop_is_the_fall()
    ensures chosen { (net : Network) (terms : List Term) (knees : Knees) → IsPriced net terms knees →
        (limit : ℕ) (time along : ℕ → ℕ) (value : ℕ) → IsStairOptimal net terms knees limit time along value →
        (moves : ℕ → Bool) (never fall : ℕ) → IsStairStuck net terms knees time along moves →
        HasNoStopBefore net terms knees time along moves fall →
        (fall ≡ never) ⊎ HasStop net terms knees time along moves fall → limit < never →
        IsStairFall net terms knees time along moves fall }
    ensures positive { (net : Network) (terms : List Term) (knees : Knees) → IsPriced net terms knees →
        (limit : ℕ) (time along : ℕ → ℕ) (value : ℕ) → IsStairOptimal net terms knees limit time along value →
        (moves : ℕ → Bool) (fall : ℕ) → IsStairFall net terms knees time along moves fall → 0 < fall }
    ensures within { (net : Network) (terms : List Term) (knees : Knees) → IsPriced net terms knees →
        (limit : ℕ) (time along : ℕ → ℕ) (value : ℕ) → IsStairOptimal net terms knees limit time along value →
        (moves : ℕ → Bool) (fall : ℕ) → IsStairFall net terms knees time along moves fall → fall ≤ limit }
    ensures in_range { (net : Network) (terms : List Term) (knees : Knees) → IsPriced net terms knees →
        (limit : ℕ) (time along : ℕ → ℕ) (value : ℕ) → IsStairOptimal net terms knees limit time along value →
        (moves : ℕ → Bool) (fall : ℕ) → IsStairFall net terms knees time along moves fall →
        (shortest : ℕ) → IsAllCrashLength net terms shortest → shortest + fall ≤ limit }
{}

/// States that the lengths through which the end moves are a complete segment. After the step the same facts hold as
/// before, with the same flow, at a cost that is higher by the value per unit.
pub fn whole_flows_give_a_segment()
    ensures segment { (net : Network) (terms : List Term) (knees : Knees) → IsPriced net terms knees →
        (limit : ℕ) (time along : ℕ → ℕ) (value : ℕ) → IsStairOptimal net terms knees limit time along value →
        (moves : ℕ → Bool) (fall : ℕ) → IsStairFall net terms knees time along moves fall →
        IsSegment net terms knees (segment_of net terms knees
        (filled_state terms knees limit time along value) moves fall) }
    ensures fallen { (net : Network) (terms : List Term) (knees : Knees) → IsPriced net terms knees →
        (limit : ℕ) (time along : ℕ → ℕ) (value : ℕ) → IsStairOptimal net terms knees limit time along value →
        (moves : ℕ → Bool) (fall : ℕ) → IsStairFall net terms knees time along moves fall →
        IsStairOptimal net terms knees (limit - fall) (λ e. time e - fall_of moves fall e) along value }
    ensures cost { (net : Network) (terms : List Term) (knees : Knees) → IsPriced net terms knees →
        (limit : ℕ) (time along : ℕ → ℕ) (value : ℕ) → IsStairOptimal net terms knees limit time along value →
        (moves : ℕ → Bool) (fall : ℕ) → IsStairFall net terms knees time along moves fall →
        cost_of terms knees (lesser_of net terms (λ e. time e - fall_of moves fall e))
        ≡ cost_of terms knees (lesser_of net terms time) + value * fall }
{}

/// States a state worked by hand: the small deck at 8 units, with A shortened to its middle knee.
///
/// Of the 5 units that flow along A three run on the first knee and two on the second, which could take one more. Only
/// T moves, by 1, until C is as long as it normally takes.
pub fn middle_knee_is_worked()
    ensures state { IsStairOptimal small_net small_terms (knees_of small_terms small_pieces) 8 small_2.time
        (slice_index (5 ∷ 5 ∷ 0 ∷ [])) 5 }
    ensures units { (unit_length (stair_of small_terms (knees_of small_terms small_pieces) 0) 2 ≡ 4)
        × (unit_length (stair_of small_terms (knees_of small_terms small_pieces) 0) 5 ≡ 3)
        × (unit_length (stair_of small_terms (knees_of small_terms small_pieces) 0) 6 ≡ 2) }
    ensures knees { (knee_flow (stair_of small_terms (knees_of small_terms small_pieces) 0) 5 0 ≡ 3)
        × (knee_flow (stair_of small_terms (knees_of small_terms small_pieces) 0) 5 1 ≡ 2) }
    ensures fall { IsStairFall small_net small_terms (knees_of small_terms small_pieces) small_2.time
        (slice_index (5 ∷ 5 ∷ 0 ∷ [])) small_2.moves 1 }
{}
