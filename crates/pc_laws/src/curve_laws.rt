//! Laws of the time-cost curve: where the least cost, as a function of the length, turns, and the list of these places.
//! That it is one number for a length, falls and is convex, `pc_model::schedule_laws` says.
//!
//! Two curves are worked through by hand, to see that the definitions mean what they should and can be met.

ghost use Rattle.std.specs.Prelude.{◌≡◌, ◌≢◌, ◌≤◌, ◌<◌, ◌+◌, ◌-◌, ◌↔◌, ℕ, List, [], ◌∷◌};
ghost use Rattle.pc_model.specs.declared.Term.{Term};
ghost use Rattle.pc_model.specs.Network.{Network};
ghost use Rattle.pc_model.specs.Schedule.{IsAllCrashLength};
ghost use Rattle.pc_model.specs.Cost.{Knees, IsLeastCost, IsPriced, one_knee};
ghost use Rattle.pc_laws.specs.Segment.{Segment, IsRightSegment, durations_for};
ghost use Rattle.pc_laws.specs.Cover.{IsLong, IsFront, IsCovering};
ghost use Rattle.pc_laws.specs.Curve.{
  IsTurn,
  Meet,
  Breakpoint,
  AreBreakpoints,
  AreBreakpointsAbove,
  corners_of,
  breakpoints_of,
};
ghost use Rattle.pc_model.specs.Pieces.{knees_of};
ghost use Rattle.pc_model.specs.Worked.{small_net, small_terms, small_pieces};
ghost use Rattle.pc_laws.specs.Worked.{
  point,
  last_point,
  small_2,
  small_segments,
  bridge_net,
  bridge_terms,
  bridge_1,
  bridge_2,
  bridge_segments,
};

/// States that the curve does not turn inside a segment, and turns where two segments meet if and only if their slopes
/// differ.
pub fn curve_turns_where_slopes_differ()
    ensures inside { (net : Network) (terms : List Term) (knees : Knees) (segment : Segment) (limit : ℕ) →
        IsPriced net terms knees → IsRightSegment net terms knees segment → segment.lower < limit →
        limit < segment.upper →
        IsTurn (IsLeastCost net terms knees) limit → ⊥ }
    ensures between { (net : Network) (terms : List Term) (knees : Knees) (earlier later : Segment) →
        IsPriced net terms knees → IsRightSegment net terms knees earlier → IsRightSegment net terms knees later →
        Meet earlier later →
        IsTurn (IsLeastCost net terms knees) later.upper ↔ (earlier.slope ≢ later.slope) }
{}

/// States that the slope of a segment is the extra cost of one unit less than its upper end, and that it never falls
/// from a segment to the next.
pub fn slopes_never_fall()
    ensures upper { (net : Network) (terms : List Term) (knees : Knees) (segment : Segment) →
        IsPriced net terms knees → IsRightSegment net terms knees segment → IsLong segment →
        IsLeastCost net terms knees segment.upper segment.cost
        × IsLeastCost net terms knees (segment.upper - 1) (segment.cost + segment.slope) }
    ensures never { (net : Network) (terms : List Term) (knees : Knees) (earlier later : Segment) →
        IsPriced net terms knees → IsRightSegment net terms knees earlier → IsRightSegment net terms knees later →
        Meet earlier later →
        earlier.slope ≤ later.slope }
{}

/// States that a curve has one list of breakpoints, which segments that cover the range give: their upper ends where
/// the slope differs from that of the segment before, and the last lower end.
///
/// If the segments only reach down to some length, these upper ends are the breakpoints above it.
pub fn segments_give_the_breakpoints()
    ensures above { (net : Network) (terms : List Term) (knees : Knees) (segments : List Segment)
        (high low shortest : ℕ) →
        IsPriced net terms knees → IsFront net terms knees segments high low → low < high →
        IsAllCrashLength net terms shortest →
        AreBreakpointsAbove (IsLeastCost net terms knees) shortest high low (corners_of segments) }
    ensures points { (net : Network) (terms : List Term) (knees : Knees) (segments : List Segment) (high low : ℕ) →
        IsPriced net terms knees → IsCovering net terms knees segments high low →
        AreBreakpoints (IsLeastCost net terms knees) low high (breakpoints_of segments) }
    ensures unique { (net : Network) (terms : List Term) (knees : Knees) (shortest longest : ℕ)
        (points others : List Breakpoint) →
        AreBreakpoints (IsLeastCost net terms knees) shortest longest points →
        AreBreakpoints (IsLeastCost net terms knees) shortest longest others →
        points ≡ others }
{}

/// States the curve of an activity with pieces, worked by hand: the small deck, if the second unit saved of A costs 6.
///
/// Its four segments cover the range from 9 to 5 units; from 8 to 7 A stays at its knee at 3. The state at 8 units is
/// `whole_flow_laws::middle_knee_is_worked`.
pub fn pieces_are_worked()
    ensures covering { IsCovering small_net small_terms (knees_of small_terms small_pieces) small_segments 9 5 }
    ensures points { AreBreakpoints (IsLeastCost small_net small_terms (knees_of small_terms small_pieces)) 5 9
        (point 9 45 3 ∷ point 8 48 5 ∷ point 7 53 7 ∷ point 6 60 8 ∷ last_point 5 68 ∷ []) }
    ensures shortened { durations_for small_net small_terms small_2 7 0 ≡ 3 }
{}

/// States a curve, worked by hand, that gives an activity its time back: of the five activities of the bridge, D is
/// shortened to 2 units for a length of 10, and takes its normal 3 units again at 9.
pub fn time_given_back_is_worked()
    ensures priced { IsPriced bridge_net bridge_terms (one_knee bridge_terms) }
    ensures covering { IsCovering bridge_net bridge_terms (one_knee bridge_terms) bridge_segments 11 6 }
    ensures points { AreBreakpoints (IsLeastCost bridge_net bridge_terms (one_knee bridge_terms)) 6 11
        (point 11 50 2 ∷ point 10 52 4 ∷ point 9 56 6 ∷ point 7 68 18 ∷ last_point 6 86 ∷ []) }
    ensures taken { durations_for bridge_net bridge_terms bridge_1 10 2 ≡ 2 }
    ensures given_back { durations_for bridge_net bridge_terms bridge_2 9 2 ≡ 3 }
{}
