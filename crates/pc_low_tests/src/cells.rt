//! A region whose spans are taken and given back.
ghost use Rattle.std.specs.Prelude.{◌≡◌, [], IsTrue};
ghost use Rattle.pc_cells.specs.inside.Spans.{IsLive};

use pc_cells::{Region, RegionFull, Span};
use std::alloc::{AllocError, Global};
use std::rt::HostRuntime;

// Whether a region of 10 cells returns what it must while spans of 4 and 5 are taken, 2 more are refused, and 1 is
// taken and returned.
fn are_spans_kept(region: &mut Region) -> bool
    requires { region.old ≡ record { capacity = 10; spans = [] } }
{
    let Ok(first) = region.take(4) else {
        return false;
    };
    region.fill(first, 7);
    let Ok(second) = region.take(5) else {
        return false;
    };
    region.set(second, 4, 9);
    let cells = [
        region.get(first, 3),
        region.get(second, 3),
        region.get(second, 4),
    ];
    region.write(second, &[1, 2, 3, 4, 5]);
    let is_listed = are_listed(region, first, second);
    if region.take(2) != Err(RegionFull { need: 2, free: 1 }) {
        return false;
    }
    if !is_last_cell_given_back(region) || region.free() != 1 {
        return false;
    }
    let is_listed_again = are_listed(region, first, second);
    let last = region.take_free(1);
    let is_new = region.list(last) == [0].as_slice();
    (cells == [7, 0, 9]) & is_listed & is_listed_again & is_new
}

// Whether the two spans have the numbers that were written to them.
fn are_listed(region: &Region, first: Span, second: Span) -> bool
    requires first { IsLive region.now.spans first }
    requires second { IsLive region.now.spans second }
{
    (region.list(first) == [7; 4].as_slice()) & (region.list(second) == [1, 2, 3, 4, 5].as_slice())
}

fn keeps_spans(alloc: Global) -> Result<bool, AllocError> {
    let mut region = Region::with_cells(alloc, 10)?;
    Ok(are_spans_kept(&mut region))
}

#[test]
fn spans_are_taken_and_given_back(rt: HostRuntime) {
    assert!(rt; matches!(keeps_spans(rt.alloc()), Ok(true)));
}

// Takes the last free cell and gives it back; whether both could be done.
fn is_last_cell_given_back(region: &mut Region) -> bool
    ensures { IsTrue result → region.new ≡ region.old }
{
    let mark = region.mark();
    if region.take(1).is_err() || region.free() > 0 || !region.is_mark(mark) {
        return false;
    }
    region.release_to(mark);
    true
}
