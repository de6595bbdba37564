//! Statuses in each kind of disorder.
ghost use Rattle.std.specs.Prelude.{◌≡◌, ◌<◌};

use pc_accounts::status::{Log, StatusRow};
use pc_days::{Day, read_day};
use pc_faults::StatusFault;
use std::alloc::Global;

/// What is said of an activity on a day.
const fn on(activity: u32, finished: bool, day: Day) -> StatusRow
    ensures { result.activity ≡ activity }
{
    StatusRow {
        activity,
        finished,
        day,
    }
}

/// Why one of eight statuses is in disorder, if it is.
fn disorder(alloc: Global, k: u32) -> Option<Option<StatusFault>>
    requires { k < 8 }
{
    let (start, as_of) = (read_day(b"2024-01-01").ok()?, read_day(b"2024-01-08").ok()?);
    let (second, sixth) = (read_day(b"2024-01-02").ok()?, read_day(b"2024-01-06").ok()?);
    let (early, late) = (read_day(b"2023-12-31").ok()?, read_day(b"2024-01-09").ok()?);
    let statuses = [
        on(0, true, sixth),
        on(0, false, second),
        on(1, false, sixth),
        on(1, true, second),
        on(1, true, late),
        on(2, false, early),
        on(3, false, late),
        on(4, true, second),
    ];
    let rows = Vec::from_slice(alloc, &statuses).ok()?;
    let log = Log::build(alloc, 5, rows).ok()?;
    Some(log.disorder(start, as_of, k))
}

#[test]
fn tells_disorder(rt: HostRuntime) {
    let found = [
        disorder(rt.alloc(), 0),
        disorder(rt.alloc(), 1),
        disorder(rt.alloc(), 3),
        disorder(rt.alloc(), 4),
        disorder(rt.alloc(), 5),
        disorder(rt.alloc(), 6),
        disorder(rt.alloc(), 7),
    ];
    let wanted = [
        Some(None),
        Some(None),
        Some(Some(StatusFault::FinishFirst)),
        Some(Some(StatusFault::Second)),
        Some(Some(StatusFault::Early)),
        Some(Some(StatusFault::Late)),
        Some(Some(StatusFault::NoStart)),
    ];
    assert!(rt; found == wanted);
}
