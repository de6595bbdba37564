//! Taking the rows of events, several after one another: each is read by its beginning.
ghost use Rattle.std.specs.Prelude.{◌≡◌, ◌≢◌, ◌<◌, length};
ghost use Rattle.pc_check.specs.inside.fast.Rows.{AddsLine, AreNetworkEnds};
ghost use Rattle.pc_check.specs.inside.fast.Along.{HasAdvanced, MayAdvance};
ghost use Rattle.pc_check.specs.inside.fast.Fronts.{AreFronts};
ghost use Rattle.pc_check.specs.inside.Safe.{IsSafe};

use crate::advancing::add_event;
use crate::kept::Kept;
use pc_cert::{CertReader, EventFront, Place};
use pc_crash::CrashNet;

/// What is asked of the network at each event: its start and its end.
#[derive(Clone, Copy)]
pub(crate) struct EndEvents {
    pub(crate) start: usize,
    pub(crate) end: usize,
}

/// What is asked of the network at each event.
pub(crate) fn ends_of(net: &CrashNet<'_>) -> EndEvents
    ensures { AreNetworkEnds net.now result }
{
    EndEvents {
        start: net.net().start() as usize,
        end: net.net().end() as usize,
    }
}

/// Takes lines at the front of the piece, as long as each is a line of the next event and cannot fail. Returns how many
/// bytes they have, with their line ends. If there is none, nothing changes, and it returns 0.
///
/// The loop counts the place and the lines in variables of its own, and stores them once at its end.
#[inline(never)]
pub(crate) fn advance_events(
    net: &CrashNet<'_>,
    kept: &mut Kept,
    fronts: &[EventFront],
    reader: &mut CertReader,
    piece: &[u8],
) -> usize
    requires { MayAdvance net.now fronts.now reader.old kept.old }
    ensures { HasAdvanced net.now piece.now result reader.old reader.new kept.old kept.new }
{
    // The limits on events and activities, so that no count of lines overflows.
    net.facts();
    let ends = ends_of(net);
    let mut place = reader.place();
    if !reader.is_between()
        || !matches!(place, Place::InSegment { .. })
        || kept.tally.upper == kept.tally.lower
    {
        return 0;
    }
    let mut count = 0;
    let mut rest = piece;
    loop {
        let used = add_row(net, kept, fronts, &mut place, rest, ends);
        if used == 0 {
            break;
        }
        rest = &rest[used..];
        count += 1;
    }
    reader.go_on(place, count);
    kept.place = place;
    kept.lines += count;
    piece.len() - rest.len()
}

/// Reads the line at the front of the piece and adds it to the state, if it is a line of the next event and only its
/// code can be wrong: the event is neither the start nor the end, and the segment has two ends.
#[inline(always)]
fn add_row(
    net: &CrashNet<'_>,
    kept: &mut Kept,
    fronts: &[EventFront],
    place: &mut Place,
    piece: &[u8],
    ends: EndEvents,
) -> usize
    requires ends { AreNetworkEnds net.now ends }
    requires safe { IsSafe net.now kept.old.tally }
    requires fronts { AreFronts net.now fronts.now }
    requires moves { length kept.old.tally.moves.items ≡ length kept.old.tally.times.items }
    requires long { kept.old.tally.upper ≢ kept.old.tally.lower }
    ensures same_kept { result ≡ 0 → kept.new ≡ kept.old }
    ensures same_place { result ≡ 0 → place.new ≡ place.old }
    ensures adds { 0 < result → AddsLine net.now piece.now result place.old place.new kept.old kept.new }
    ensures safe { IsSafe net.now kept.new.tally }
{
    let e = kept.tally.times.len();
    if fronts.len() <= e || e == ends.start || e == ends.end {
        return 0;
    }
    match place.pass_event(piece, &fronts[e]) {
        None => 0,
        Some(said) => {
            add_event(net, &mut kept.tally, said.time, said.moves);
            said.used
        }
    }
}
