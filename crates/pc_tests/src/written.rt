//! The reports of a project, written to a bare sink: each piece of a text as it comes.

use crate::cases::expect_none;
use pc_deck::read_cards;
use pc_edges::MemSink;
use pc_project::{Project, project_of};
use pc_reports::{OutlookReport, SummaryReport, TimesReport, ValueReport};
use std::alloc::Global;

/// A deck with status.
const DECK: &[u8] = b"PROJECT,E1,S,T,2024-01-01,1,,Example one\n\
WBS,1,,Whole\n\
WBS,1.1,1,\"Frame, north\"\n\
WBS,1.2,1,Roof\n\
EVENT,S,Start\n\
EVENT,M,Middle\n\
EVENT,T,End\n\
ACT,A,S,M,1.1,3,4,5,4,2,10,3,Dig\n\
ACT,B,M,T,1.2,4,5,12,5,3,20,5,Cover\n\
ACT,C,S,T,1.1,7,7,7,7,5,15,2,Frame\n\
ACCT,X1,1.1,25,Frame account\n\
ACCT,X2,1.2,20,Roof account\n\
ASOF,2024-01-08\n\
CHARGE,X1,2024-01-03,10\n\
TOGO,X1,2024-01-08,30\n\
END\n";

const TIMES: &[u8] = b"TIMES E1\n\
EVENT                      TE           TL        SLACK DATE\n\
S                           0            0            0 2024-01-01\n\
M                          24           24            0 2024-01-05\n\
T                          60           60            0 2024-01-11\n\
ACTIVITY             EXPECTED         VARIANCE        SLACK\n\
A                          24                4            0\n\
B                          36               64            0\n\
C                          42                0           18\n\
CRITICAL A\n\
CRITICAL B\n\
VARIANCE 68\n";

const SUMMARY: &[u8] = b"SUMMARY E1 2024-01-08\n\
ITEM             LV         BUDGET         ACTUAL          TO-GO         LATEST        OVERRUN TITLE\n\
1                 1             45             10             50             60             15 Whole\n\
1.1               2             25             10             30             40             15 Frame, north\n\
1.2               2             20              0             20             20              0 Roof\n\
LEVEL             1             45             10             50             60             15\n\
LEVEL             2             45             10             50             60             15\n";

const VALUE: &[u8] = b"VALUE E1 2024-01-08\n\
EVENT                FORECAST       FSLACK DATE\n\
S                           0            0 2024-01-01\n\
M                          66          -42 2024-01-12\n\
T                         102          -42 2024-01-18\n\
ITEM             LV         BUDGET         ACTUAL          VALUE        OVERRUN       FSLACK TITLE\n\
1                 1             45             10              6              4          -42 Whole\n\
1.1               2             25             10              6              4          -42 Frame, north\n\
1.2               2             20              0              0              0          -42 Roof\n";

/// The outlook with durations of 2, 4 and 6 units.
const OUTLOOK: &[u8] = b"ITEM             LV         BUDGET        OUTLOOK         CHANGE TITLE\n\
1                 1             45             58             13 Whole\n\
1.1               2             25             33              8 Frame, north\n\
1.2               2             20             25              5 Roof\n";

fn writes_times(alloc: Global, project: &Project) -> Option<bool> {
    let Ok(mut report) = TimesReport::build(alloc, project) else {
        return None;
    };
    let mut sink = MemSink::new(alloc, 2000, 2000, &[]).ok()?;
    Some(report.write(project, &mut sink).is_ok() & (sink.bytes() == TIMES))
}

fn writes_summary(alloc: Global, project: &Project) -> Option<bool> {
    let Ok(mut report) = SummaryReport::build(alloc, project) else {
        return None;
    };
    let mut sink = MemSink::new(alloc, 2000, 2000, &[]).ok()?;
    Some(report.write(project, &mut sink).is_ok() & (sink.bytes() == SUMMARY))
}

fn writes_value(alloc: Global, project: &Project) -> Option<bool> {
    let Ok(mut report) = ValueReport::build(alloc, project) else {
        return None;
    };
    let mut sink = MemSink::new(alloc, 2000, 2000, &[]).ok()?;
    Some(report.write(project, &mut sink).is_ok() & (sink.bytes() == VALUE))
}

fn writes_outlook(alloc: Global, project: &Project) -> Option<bool> {
    if project.activity_codes().len() != 3 {
        return None;
    }
    let Ok(mut report) = OutlookReport::build(alloc, project, &[2, 4, 6]) else {
        return None;
    };
    let mut sink = MemSink::new(alloc, 2000, 2000, &[]).ok()?;
    Some(report.write(project, &mut sink).is_ok() & (sink.bytes() == OUTLOOK))
}

/// The number of the first report that is not written as it should be, or none.
fn first_wrong(alloc: Global, project: &Project) -> Option<usize> {
    if writes_times(alloc, project) != Some(true) {
        return Some(1);
    }
    if writes_summary(alloc, project) != Some(true) {
        return Some(2);
    }
    if writes_value(alloc, project) != Some(true) {
        return Some(3);
    }
    if writes_outlook(alloc, project) != Some(true) {
        return Some(4);
    }
    None
}

fn first_wrong_report(alloc: Global) -> Option<usize> {
    let Ok(cards) = read_cards(alloc, DECK) else {
        return Some(0);
    };
    let Ok(project) = project_of(alloc, cards) else {
        return Some(0);
    };
    let wrong = first_wrong(alloc, &project);
    drop(project);
    wrong
}

#[test]
fn reports_on_a_bare_sink(rt: HostRuntime) {
    expect_none(&rt, first_wrong_report(rt.alloc()));
}
