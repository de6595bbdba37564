//! What holds between two labellings of the events, and how the steps preserve it (Fulkerson 1961).
//!
//! A state has the present length, a time for each event and a flow. From the start, events are labelled along steps
//! with residual capacity. If the labels reach the end, the flow is augmented; if not, the events without a label
//! become earlier.

ghost use Rattle.std.specs.Prelude.{◌≡◌, ◌≤◌, ◌<◌, ◌+◌, ◌*◌, ℕ, Bool, List, length};
ghost use Rattle.pc_model.specs.declared.Term.{Term};
ghost use Rattle.pc_model.specs.Walk.{from_of, to_of};
ghost use Rattle.pc_model.specs.Network.{Network};
ghost use Rattle.pc_model.specs.Schedule.{
  normal_of,
  lesser_of,
  IsSchedule,
  IsAllCrashLength,
};
ghost use Rattle.pc_model.specs.Cost.{Knees, cost_of, IsLeastCost, IsPriced};
ghost use Rattle.pc_laws.specs.Flow.{whole_flow};
ghost use Rattle.pc_laws.specs.Segment.{IsSegment};
ghost use Rattle.pc_laws.specs.State.{
  State,
  IsOptimal,
  opening,
  rests,
  IsRaising,
  IsStep,
  augmented,
  IsStuck,
  IsFall,
  segment_of,
  fallen,
};

/// States that at the normal durations, with times that end with the length, nothing needs to flow.
///
/// A segment of this one length is complete, and it is the curve if no schedule is shorter. Its durations are the
/// normal ones, as are those of each segment that begins at these times.
pub fn opening_is_optimal()
    ensures optimal { (net : Network) (terms : List Term) (knees : Knees) (limit : ℕ) (times : ℕ → ℕ) →
        IsPriced net terms knees →
        IsSchedule net terms limit (normal_of terms) times → times net.end ≡ limit →
        IsOptimal net terms knees (opening limit times) }
    ensures level { (net : Network) (terms : List Term) (knees : Knees) (limit : ℕ) (times : ℕ → ℕ) →
        IsPriced net terms knees →
        IsSchedule net terms limit (normal_of terms) times → times net.end ≡ limit →
        IsSegment net terms knees (segment_of net terms knees (opening limit times) rests 0) }
    ensures normal { (net : Network) (terms : List Term) (limit : ℕ) (times : ℕ → ℕ) (a : ℕ) →
        IsSchedule net terms limit (normal_of terms) times → a < length net.arcs →
        lesser_of net terms times a ≡ normal_of terms a }
{}

/// States that in each state the durations that its times allow are a cheapest schedule for the present length, which
/// is at least the all-crash length, and that no event is later than that length.
pub fn optimal_state_is_cheapest()
    ensures schedule { (net : Network) (terms : List Term) (knees : Knees) (st : State) → IsPriced net terms knees →
        IsOptimal net terms knees st → IsSchedule net terms st.limit (lesser_of net terms st.time) st.time }
    ensures least { (net : Network) (terms : List Term) (knees : Knees) (st : State) → IsPriced net terms knees →
        IsOptimal net terms knees st → IsLeastCost net terms knees st.limit
        (cost_of terms knees (lesser_of net terms st.time)) }
    ensures within { (net : Network) (terms : List Term) (knees : Knees) (st : State) (shortest : ℕ) →
        IsPriced net terms knees →
        IsOptimal net terms knees st → IsAllCrashLength net terms shortest → shortest ≤ st.limit }
    ensures times { (net : Network) (terms : List Term) (knees : Knees) (st : State) (e : ℕ) →
        IsPriced net terms knees →
        IsOptimal net terms knees st → e < net.events → st.time e ≤ st.limit }
{}

/// States that an augmentation is walked back from the end: it begins there with the state's own flows, and a step back
/// along an activity that ends at the event reached, or against one that begins there, continues it.
///
/// # Source
///
/// Fulkerson 1961.
pub fn raising_walks_back()
    ensures begins { (net : Network) (terms : List Term) (knees : Knees) (st : State) (room : ℕ) →
        IsOptimal net terms knees st → IsRaising net terms knees st st.flow st.beside net.end room }
    ensures along { (net : Network) (terms : List Term) (knees : Knees) (st : State) (room : ℕ)
        (flow next_flow : ℕ → ℕ → ℕ) (beside next_beside : ℕ → ℕ) (a : ℕ) → a < length net.arcs →
        IsRaising net terms knees st flow beside (to_of net.arcs a) room →
        IsStep net terms knees st flow next_flow beside next_beside a →
        whole_flow knees next_flow next_beside a ≡ whole_flow knees flow beside a + room →
        IsRaising net terms knees st next_flow next_beside (from_of net.arcs a) room }
    ensures against { (net : Network) (terms : List Term) (knees : Knees) (st : State) (room : ℕ)
        (flow next_flow : ℕ → ℕ → ℕ) (beside next_beside : ℕ → ℕ) (a : ℕ) → a < length net.arcs →
        IsRaising net terms knees st flow beside (from_of net.arcs a) room →
        IsStep net terms knees st flow next_flow beside next_beside a →
        whole_flow knees next_flow next_beside a + room ≡ whole_flow knees flow beside a →
        IsRaising net terms knees st next_flow next_beside (to_of net.arcs a) room }
{}

/// States that an augmentation that has reached the start gives the next state, with a higher value.
pub fn raising_keeps_optimal()
    ensures optimal { (net : Network) (terms : List Term) (knees : Knees) (st : State) (flow : ℕ → ℕ → ℕ)
        (beside : ℕ → ℕ) (room : ℕ) →
        IsPriced net terms knees → IsOptimal net terms knees st →
        IsRaising net terms knees st flow beside net.start room →
        IsOptimal net terms knees (augmented st flow beside room) }
{}

/// States that the times can be shortened if the labels do not reach the end. The step is at least 1, and passes
/// neither the present length nor the all-crash length.
pub fn fall_exists()
    ensures exists { (net : Network) (terms : List Term) (knees : Knees) (st : State) (moves : ℕ → Bool) →
        IsPriced net terms knees →
        IsOptimal net terms knees st → IsStuck net terms knees st moves →
        (fall : ℕ) × IsFall net terms knees st moves fall }
    ensures positive { (net : Network) (terms : List Term) (knees : Knees) (st : State) (moves : ℕ → Bool) (fall : ℕ) →
        IsOptimal net terms knees st → IsFall net terms knees st moves fall → 0 < fall }
    ensures within { (net : Network) (terms : List Term) (knees : Knees) (st : State) (moves : ℕ → Bool)
        (fall : ℕ) → IsPriced net terms knees →
        IsOptimal net terms knees st → IsFall net terms knees st moves fall → fall ≤ st.limit }
    ensures in_range { (net : Network) (terms : List Term) (knees : Knees) (st : State) (moves : ℕ → Bool)
        (fall shortest : ℕ) → IsPriced net terms knees →
        IsOptimal net terms knees st → IsFall net terms knees st moves fall →
        IsAllCrashLength net terms shortest → shortest + fall ≤ st.limit }
{}

/// States that the lengths through which the end moves are a complete segment.
///
/// Its slope, which is the value of the flow, is the gain of the cut between the events with a label and those without,
/// and it ends where an activity stops. After the step the same facts hold as before, at a cost that is higher by the
/// value per unit.
pub fn fall_gives_a_segment()
    ensures segment { (net : Network) (terms : List Term) (knees : Knees) (st : State) (moves : ℕ → Bool)
        (fall : ℕ) → IsPriced net terms knees →
        IsOptimal net terms knees st → IsFall net terms knees st moves fall →
        IsSegment net terms knees (segment_of net terms knees st moves fall) }
    ensures optimal { (net : Network) (terms : List Term) (knees : Knees) (st : State) (moves : ℕ → Bool)
        (fall : ℕ) → IsPriced net terms knees →
        IsOptimal net terms knees st → IsFall net terms knees st moves fall →
        IsOptimal net terms knees (fallen st moves fall) }
    ensures cost { (net : Network) (terms : List Term) (knees : Knees) (st : State) (moves : ℕ → Bool) (fall : ℕ) →
        IsPriced net terms knees →
        IsOptimal net terms knees st → IsFall net terms knees st moves fall →
        cost_of terms knees (lesser_of net terms (fallen st moves fall).time)
        ≡ cost_of terms knees (lesser_of net terms st.time) + st.value * fall }
{}
