//! The staircase of an activity: what each unit of its flow runs on, which flows fit a gap, and how much the gap or the
//! flow may change until they fit no longer.
//!
//! Each function here does nothing: its contract is the law, proved once, and a caller that calls it has the law
//! as a fact.

ghost use Rattle.std.specs.Prelude.{◌≡◌, ◌⊎◌, ◌+◌, ◌-◌, ◌*◌, ◌<◌, ◌≤◌, ℕ, List, length, suc};
ghost use Rattle.pc_model.specs.declared.Term.{Term};
ghost use Rattle.pc_model.specs.Sums.{sum_to};
ghost use Rattle.pc_model.specs.Network.{Network};
ghost use Rattle.pc_model.specs.Schedule.{normal_of};
ghost use Rattle.pc_model.specs.Cost.{Knees, AreKnees, last_slope};
ghost use Rattle.pc_laws.specs.Tight.{IsTight};
ghost use Rattle.pc_laws.specs.Stair.{
  Stair,
  IsFalling,
  IsSameStair,
  stair_of,
  reach,
  full_reach,
  unit_length,
  IsOnStair,
  IsPiece,
  knee_flow,
  crash_flow,
  rises_over,
};

/// States that the knees of each activity make a falling staircase.
///
/// As many units run on knees as the last slope says. Nothing needs to flow if the gap is at least the normal duration.
pub fn knees_make_a_staircase()
    ensures falling { (net : Network) (terms : List Term) (knees : Knees) → AreKnees net terms knees →
        (a : ℕ) → a < length net.arcs → IsFalling (stair_of terms knees a) }
    ensures reaches { (terms : List Term) (knees : Knees) (a : ℕ) →
        full_reach (stair_of terms knees a) ≡ last_slope knees a }
    ensures opens { (net : Network) (terms : List Term) (knees : Knees) → AreKnees net terms knees →
        (a gap : ℕ) → a < length net.arcs → normal_of terms a ≤ gap → IsOnStair (stair_of terms knees a) gap 0 }
{}

/// States that two staircases with the same knees are alike in all that is stated here, so a list of an activity's
/// knees may represent the activity.
pub fn same_knees_make_the_same_staircase()
    ensures reach { (s t : Stair) → IsSameStair s t → full_reach s ≡ full_reach t }
    ensures units { (s t : Stair) → IsSameStair s t → (x : ℕ) → unit_length s x ≡ unit_length t x }
    ensures falling { (s t : Stair) → IsSameStair s t → IsFalling t → IsFalling s }
    ensures on { (s t : Stair) → IsSameStair s t → (gap flow : ℕ) → IsOnStair t gap flow → IsOnStair s gap flow }
    ensures back { (s t : Stair) → IsSameStair s t → (gap flow : ℕ) → IsOnStair s gap flow → IsOnStair t gap flow }
    ensures at_knees { (s t : Stair) → IsSameStair s t → (flow k : ℕ) → k < s.count →
        knee_flow s flow k ≡ knee_flow t flow k }
    ensures at_crash { (s t : Stair) → IsSameStair s t → (flow : ℕ) → crash_flow s flow ≡ crash_flow t flow }
{}

/// States that each unit of flow runs on one of the knees or, after all of them, on the crash duration, and that a
/// later unit never runs on a longer arc.
pub fn units_fall()
    ensures runs { (s : Stair) (x : ℕ) →
        ((full_reach s ≤ x) × (unit_length s x ≡ s.crash))
        ⊎ ((k : ℕ) × (k < s.count) × (reach s k ≤ x) × (x < reach s (suc k)) × (unit_length s x ≡ s.knee k)) }
    ensures falls { (s : Stair) → IsFalling s → (x y : ℕ) → x ≤ y → unit_length s y ≤ unit_length s x }
    ensures lowest { (s : Stair) → IsFalling s → (x : ℕ) → s.crash ≤ unit_length s x }
    ensures highest { (s : Stair) → IsFalling s → 0 < s.count → (x : ℕ) → unit_length s x ≤ s.knee 0 }

    // A unit's arc is not longer than a gap if and only if the unit is after the rises of all knees above the gap.
    ensures behind { (s : Stair) → IsFalling s → (gap x : ℕ) → unit_length s x ≤ gap → rises_over s gap ≤ x }
    ensures short { (s : Stair) → IsFalling s → (gap x : ℕ) → s.crash ≤ gap → rises_over s gap ≤ x →
        unit_length s x ≤ gap }
{}

/// States how far the flow may change while the gap stays the same.
///
/// It may rise to the end of the next unit's piece if the arc of that unit is as long as the gap, fall to the beginning
/// of the last unit's piece if the arc of that unit is, and take any value between two flows that fit.
pub fn flow_may_change()
    ensures between { (s : Stair) → IsFalling s → (gap x y z : ℕ) → IsOnStair s gap x → IsOnStair s gap z →
        x ≤ y → y ≤ z → IsOnStair s gap y }
    ensures along { (s : Stair) → IsFalling s → (gap flow z length below above : ℕ) →
        IsPiece s flow length below above → IsOnStair s gap flow → unit_length s flow ≡ gap →
        flow ≤ z → z ≤ above → IsOnStair s gap z }
    ensures against { (s : Stair) → IsFalling s → (gap flow z length below above : ℕ) →
        IsPiece s (flow - 1) length below above → IsOnStair s gap flow → 0 < flow → unit_length s (flow - 1) ≡ gap →
        below ≤ z → z ≤ flow → IsOnStair s gap z }
{}

/// States how far the gap may change while the flow stays the same.
///
/// It may shrink to the arc of the next unit and grow to the arc of the last one, or without bound if nothing flows.
/// Nothing needs to flow if the gap is at least the first knee.
pub fn gap_may_change()
    ensures shrinks { (s : Stair) (gap flow fall : ℕ) → IsOnStair s gap flow → unit_length s flow + fall ≤ gap →
        IsOnStair s (gap - fall) flow }
    ensures grows { (s : Stair) (gap flow fall : ℕ) → IsOnStair s gap flow →
        (0 < flow → gap + fall ≤ unit_length s (flow - 1)) → IsOnStair s (gap + fall) flow }
    ensures opens { (s : Stair) → IsFalling s → (gap : ℕ) → 0 < s.count → s.knee 0 ≤ gap → IsOnStair s gap 0 }
    ensures room { (s : Stair) → IsFalling s → (gap flow : ℕ) → IsOnStair s gap flow → s.crash ≤ gap }
{}

/// States that a total flow is distributed completely over the knees in their order and the crash duration, with at
/// most its rise at each knee.
pub fn filling_is_the_flow()
    ensures whole { (s : Stair) (flow : ℕ) → sum_to s.count (knee_flow s flow) + crash_flow s flow ≡ flow }
    ensures within { (s : Stair) (flow k : ℕ) → knee_flow s flow k ≤ s.rise k }
{}

/// States that a total flow fits a gap if and only if the flows at the knees do.
///
/// For such a flow, the sum of flow times duration over the knees and the crash duration is the gap times the total
/// flow, plus each rise times the excess of its knee over the gap.
pub fn on_the_staircase_is_tight()
    ensures tight { (terms : List Term) (knees : Knees) (a : ℕ) → IsFalling (stair_of terms knees a) →
        (tail head gap : ℕ) → head ≡ tail + gap → (along : ℕ) → IsOnStair (stair_of terms knees a) gap along →
        IsTight terms knees a tail head (knee_flow (stair_of terms knees a) along)
        (crash_flow (stair_of terms knees a) along) }
    ensures on { (terms : List Term) (knees : Knees) (a : ℕ) → IsFalling (stair_of terms knees a) →
        (tail head gap : ℕ) → head ≡ tail + gap → (flow : ℕ → ℕ) (beside : ℕ) →
        ((k : ℕ) → k < knees.count a → flow k ≤ knees.rise a k) → IsTight terms knees a tail head flow beside →
        IsOnStair (stair_of terms knees a) gap (sum_to (knees.count a) flow + beside) }
    ensures price { (s : Stair) → IsFalling s → (gap along : ℕ) → IsOnStair s gap along →
        sum_to s.count (λ k. s.knee k * knee_flow s along k) + s.crash * crash_flow s along
        ≡ gap * along + sum_to s.count (λ k. s.rise k * (s.knee k - gap)) }
{}
