//! Why a segment of the time-cost curve is right at every length between its ends, and why segments that join are the
//! complete curve.

ghost use Rattle.std.specs.Prelude.{◌≡◌, ℕ, pos, ◌+◌, ◌<◌, ◌≤◌, List, [], ◌∷◌, ◌++◌, length};
ghost use Rattle.pc_model.specs.declared.Term.{Term};
ghost use Rattle.pc_model.specs.Walk.{IsSumOfWalk};
ghost use Rattle.pc_model.specs.Network.{Network};
ghost use Rattle.pc_model.specs.Schedule.{
  normal_of,
  normals,
  IsAllNormalLength,
  IsAllCrashLength,
};
ghost use Rattle.pc_model.specs.Cost.{Knees, IsPriced};
ghost use Rattle.pc_laws.specs.Segment.{
  Segment,
  Holds,
  IsRightSegment,
  IsSegment,
  IsRight,
  cut_gain,
  forward_rises,
  backward_rises,
};
ghost use Rattle.pc_laws.specs.Cover.{
  IsLong,
  IsFront,
  IsCovering,
  IsReadRight,
  MeetsConditions,
  first_upper,
  last_lower,
};

/// States that what is read from a right segment, for a length between its ends, is a schedule for that length at the
/// stated cost, and that no schedule for that length costs less: the flow of the segment proves it.
pub fn readings_are_right()
    ensures { (net : Network) (terms : List Term) (knees : Knees) (segment : Segment) (limit : ℕ) →
        IsPriced net terms knees → IsRightSegment net terms knees segment → Holds segment limit →
        IsRight net terms knees segment limit }
{}

/// States that the slope of a right segment is its cut gain, so the cut alone is enough to check the slope: condition
/// 13 follows from the others.
///
/// # Source
///
/// Fulkerson 1961.
pub fn slope_is_cut_gain()
    ensures crossed { (net : Network) (terms : List Term) (knees : Knees) (segment : Segment) →
        IsPriced net terms knees → IsRightSegment net terms knees segment →
        forward_rises net knees segment ≡ backward_rises net knees segment + segment.slope }
    ensures gained { (net : Network) (terms : List Term) (knees : Knees) (segment : Segment) →
        IsPriced net terms knees → IsRightSegment net terms knees segment →
        cut_gain net knees segment ≡ pos segment.slope }
{}

/// States that complete segments which join from the sum of normal durations of a through walk downwards begin with the
/// all-normal length, and that every reading of them is right.
/// If they reach down to the sum of crash durations of a through walk, this is the all-crash length, and they are the
/// complete curve.
/// complete curve.
pub fn segments_cover_the_range()
    ensures longest { (net : Network) (terms : List Term) (knees : Knees) (segments : List Segment) (high low : ℕ) →
        IsPriced net terms knees → IsFront net terms knees segments high low → IsAllNormalLength net terms high }
    ensures shortest { (net : Network) (terms : List Term) (knees : Knees) (segments : List Segment) (high low : ℕ) →
        IsPriced net terms knees → IsCovering net terms knees segments high low → IsAllCrashLength net terms low }
    ensures read { (net : Network) (terms : List Term) (knees : Knees) (segments : List Segment) (high low limit : ℕ) →
        IsPriced net terms knees → IsFront net terms knees segments high low → low ≤ limit → limit ≤ high →
        IsReadRight net terms knees segments limit }
{}

/// States that a certificate whose walks and segments meet the conditions is right.
///
/// Its first upper end is the all-normal length and its last lower end the all-crash length. For each length between
/// them, the reading of its segments is a cheapest schedule, which the printed flow proves.
pub fn conditions_make_it_right()
    ensures covering { (net : Network) (terms : List Term) (knees : Knees) (normal_walk crash_walk : List ℕ)
        (segments : List Segment) →
        MeetsConditions net terms knees normal_walk crash_walk segments →
        IsCovering net terms knees segments (first_upper segments) (last_lower segments) }
    ensures longest { (net : Network) (terms : List Term) (knees : Knees) (normal_walk crash_walk : List ℕ)
        (segments : List Segment) →
        IsPriced net terms knees → MeetsConditions net terms knees normal_walk crash_walk segments →
        IsAllNormalLength net terms (first_upper segments) }
    ensures shortest { (net : Network) (terms : List Term) (knees : Knees) (normal_walk crash_walk : List ℕ)
        (segments : List Segment) →
        IsPriced net terms knees → MeetsConditions net terms knees normal_walk crash_walk segments →
        IsAllCrashLength net terms (last_lower segments) }
    ensures read { (net : Network) (terms : List Term) (knees : Knees) (normal_walk crash_walk : List ℕ)
        (segments : List Segment) (limit : ℕ) →
        IsPriced net terms knees → MeetsConditions net terms knees normal_walk crash_walk segments →
        last_lower segments ≤ limit → limit ≤ first_upper segments → IsReadRight net terms knees segments limit }
{}

/// States how a front of segments grows: the first segment begins it, each further complete segment at its lower end
/// extends it downwards, and at the all-crash length it covers the range.
pub fn a_front_grows()
    ensures begins { (net : Network) (terms : List Term) (knees : Knees) (segment : Segment) →
        IsSegment net terms knees segment → ((a : ℕ) → a < length net.arcs → segment.duration a ≡ normal_of terms a) →
        IsSumOfWalk net.arcs (normals terms) net.start net.end segment.upper →
        IsFront net terms knees (segment ∷ []) segment.upper segment.lower }
    ensures grows { (net : Network) (terms : List Term) (knees : Knees) (segments : List Segment)
        (segment : Segment) (high low : ℕ) →
        IsFront net terms knees segments high low → low < high → IsSegment net terms knees segment →
        segment.upper ≡ low → IsLong segment →
        IsFront net terms knees (segments ++ segment ∷ []) high segment.lower }
    ensures covers { (net : Network) (terms : List Term) (knees : Knees) (segments : List Segment) (high low : ℕ) →
        IsFront net terms knees segments high low → IsAllCrashLength net terms low →
        IsCovering net terms knees segments high low }
{}
