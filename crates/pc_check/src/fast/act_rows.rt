//! Taking the rows of activities that occur again, several after one another.
ghost use Rattle.std.specs.Prelude.{◌≡◌, ◌≢◌, ◌+◌, ◌<◌, ◌≤◌, IfSome, length};
ghost use Rattle.pc_check.specs.inside.fast.Rows.{AddsLine, across_at};
ghost use Rattle.pc_check.specs.inside.fast.Along.{HasAdvanced, MayAdvance};
ghost use Rattle.pc_check.specs.inside.Kept.{known_by, stretch_of};
ghost use Rattle.pc_check.specs.inside.fast.Passed.{ArePassed, PassesAcross};
ghost use Rattle.pc_check.specs.inside.Safe.{IsCutOf, IsSafe};

use crate::cut::{Cut, cut_of};
use crate::fast::passed::{Passed, has_gap, passes_again};
use crate::gaps::crossing_of;
use crate::kept::Kept;
use pc_cert::{CertReader, EventFront, Place, WIDTH};
use pc_crash::CrashNet;

/// Takes lines at the front of the piece, after all events, as long as each is the line of the next activity that
/// passed last and passes again. Returns how many bytes they have, with their line ends. If there is none, nothing
/// changes, and it returns 0.
///
/// The inner loop takes lines of activities that do not cross the cut. It writes nothing and has a variable of its own
/// to count the activities, so that it needs only registers. At the first line that it does not take, the outer loop
/// adds to the cut what the activity adds, if its line passes across the cut.
#[inline(never)]
pub(crate) fn advance_acts(
    net: &CrashNet<'_>,
    kept: &mut Kept,
    fronts: &[EventFront],
    reader: &mut CertReader,
    piece: &[u8],
) -> usize
    requires { MayAdvance net.now fronts.now reader.old kept.old }
    ensures { HasAdvanced net.now piece.now result reader.old reader.new kept.old kept.new }
{
    // The limits on events and activities, so that no count of lines overflows.
    net.facts();
    let activities = net.net().activities();
    let mut place = reader.place();
    if !reader.is_between()
        || !matches!(place, Place::InSegment { events: 0, .. })
        || kept.tally.times.len() < fronts.len()
        || kept.segments == 0
        || kept.tally.upper == kept.tally.lower
    {
        return 0;
    }
    let mut count = 0;
    let mut a = kept.tally.acts;
    let mut cut = kept.tally.cut;
    let mut rest = piece;
    loop {
        loop {
            let same = pass_same(net, kept, a, activities, &mut place, rest);
            if same == 0 {
                break;
            }
            rest = &rest[same..];
            count += 1;
            a += 1;
        }
        let used = pass_across(net, kept, a, activities, &mut place, &mut cut, rest);
        if used == 0 {
            break;
        }
        rest = &rest[used..];
        count += 1;
        a += 1;
    }
    reader.go_on(place, count);
    kept.place = place;
    kept.lines += count;
    kept.tally.acts = a;
    kept.tally.cut = cut;
    piece.len() - rest.len()
}

/// Moves past the line at the front of the piece, if it is the line of this activity that passed last and passes again.
/// Returns how many bytes it has, with its line end. Otherwise nothing changes, and it returns 0.
#[inline(always)]
fn pass_same(
    net: &CrashNet<'_>,
    kept: &Kept,
    a: u32,
    activities: u32,
    place: &mut Place,
    piece: &[u8],
) -> usize
    requires count { activities ≡ length net.now.network.arcs }
    requires rows { ArePassed net.now kept.now.tally.rows.items }
    requires times { net.now.network.events ≤ length kept.now.tally.times.items }
    requires moves { net.now.network.events ≤ length kept.now.tally.moves.items }
    requires later { kept.now.segments ≢ 0 }
    requires long { kept.now.tally.lower ≢ kept.now.tally.upper }
    ensures known { 0 < result → a < length net.now.network.arcs }
    ensures same_place { result ≡ 0 → place.new ≡ place.old }
    ensures adds { (cut : Cut) → 0 < result → AddsLine net.now piece.now result place.old place.new
        (across_at kept.now a cut) (across_at kept.now (a + 1) cut) }
{
    if activities <= a {
        return 0;
    }
    // So no comparison in the loop tests the capacity: the last bytes of a piece are read one line at a time.
    if piece.len() < WIDTH {
        return 0;
    }
    let last = &kept.tally.rows[a as usize];
    if !passes_again(net, kept, a, last) {
        return 0;
    }
    place.pass_act(piece, &last.text, &last.flows)
}

/// Moves past the line at the front of the piece, if it is the line of this activity that passed last and passes again
/// across the cut. Returns how many bytes it has, with its line end. Otherwise nothing changes, and it returns 0.
#[inline(always)]
fn pass_across(
    net: &CrashNet<'_>,
    kept: &Kept,
    a: u32,
    activities: u32,
    place: &mut Place,
    cut: &mut Cut,
    piece: &[u8],
) -> usize
    requires count { activities ≡ length net.now.network.arcs }
    requires safe { IsSafe net.now (across_at kept.now a cut.old).tally }
    requires later { kept.now.segments ≢ 0 }
    requires long { kept.now.tally.lower ≢ kept.now.tally.upper }
    ensures known { 0 < result → a < length net.now.network.arcs }
    ensures same_place { result ≡ 0 → place.new ≡ place.old }
    ensures same_cut { result ≡ 0 → cut.new ≡ cut.old }
    ensures adds { 0 < result → AddsLine net.now piece.now result place.old place.new
        (across_at kept.now a cut.old) (across_at kept.now (a + 1) cut.new) }
    ensures safe { 0 < result → IsSafe net.now (across_at kept.now (a + 1) cut.new).tally }
{
    // As in `pass_same`, the last bytes of a piece are read one line at a time.
    if activities <= a || piece.len() < WIDTH {
        return 0;
    }
    let last = &kept.tally.rows[a as usize];
    // The bytes before the gaps: of most lines that do not pass here they differ.
    if last.text.again(piece) == 0 {
        return 0;
    }
    let Some(more) = crossed(net, kept, a, last) else {
        return 0;
    };
    let used = place.pass_act(piece, &last.text, &last.flows);
    if used == 0 {
        return 0;
    }
    cut.add(&more);
    used
}

/// Returns what an activity adds to the cut if what passed last of it passes again in a later segment with two ends:
/// the flows and the duration fit its gap at the upper end, and the flows fit its gap at the lower end.
#[inline(never)]
fn crossed(net: &CrashNet<'_>, kept: &Kept, a: u32, passed: &Passed) -> Option<Cut>
    requires known { a < length net.now.network.arcs }
    requires later { kept.now.segments ≢ 0 }
    requires long { kept.now.tally.lower ≢ kept.now.tally.upper }
    ensures passes { IfSome result (λ more. (cut : Cut) → PassesAcross net.now
        (known_by (across_at kept.now a cut)) passed.now) }
    ensures adds { IfSome result (λ more. IsCutOf net.now (stretch_of kept.now.tally) a more) }
{
    let crossing = crossing_of(net, &kept.tally, a);
    let passes = has_gap(crossing.upper, passed.low, passed.high)
        && has_gap(crossing.lower, passed.least, passed.most);
    if !passes {
        return None;
    }
    Some(cut_of(net, &kept.tally, a, &crossing))
}
