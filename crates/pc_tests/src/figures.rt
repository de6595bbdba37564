//! What the items of a small deck add up to: an activity that has begun in one package, and another package without
//! activities.
use crate::cases::expect_all;
use crate::projects::asked;
use pc_edges::MemSink;
use pc_load::{Table, write_load};
use pc_project::Project;
use pc_rollup::figures::{
    OutlineRow, Outlook, OutlookAmounts, Summary, SummaryAmounts, Worth, WorthAmounts,
};
use std::alloc::Global;

const DECK: &[u8] =
    b"PROJECT,P,S,T,2024-01-01,1,,\nASOF,2024-01-08\nWBS,1,,\nWBS,1.1,1,\nWBS,1.2,1,\nEVENT,S,\n\
EVENT,T,\nACT,A,S,T,1.1,3,4,5,4,2,10,7,\nACCT,X,1.1,10,\nACCT,Y,1.2,30,\nCHARGE,X,2024-01-03,6\n\
CHARGE,Y,2024-01-04,5\nTOGO,X,2024-01-05,9\nSTATUS,A,S,2024-01-02\nEND\n";

const SUMMARY: SummaryAmounts = SummaryAmounts {
    budget: 40,
    actual: 11,
    to_go: 34,
    latest: 45,
    overrun: 5,
};

/// Whether the second item is in the summary at its level, and the first item and the second level have these amounts.
fn is_summary(alloc: Global, project: &Project) -> bool {
    let entries = project.book().entries();
    let tree = project.tree();
    let Ok(summary) = Summary::build(alloc, tree, project.accounts(), entries) else {
        return false;
    };
    if tree.len() != 3 || summary.items() != 3 || summary.depth() != 2 {
        return false;
    }
    let amounts = [summary.of_item(0), summary.of_level(1)];
    (summary.row(1) == OutlineRow { item: 1, level: 2 }) & (amounts == [SUMMARY; 2])
}

const WORTH: WorthAmounts = WorthAmounts {
    budget: 40,
    actual: 11,
    value: 9,
    overrun: 2,
};

/// Whether the work of the first item is worth this.
fn is_worth(alloc: Global, project: &Project) -> Option<bool> {
    let entries = project.book().entries();
    let (tree, places, states) = (project.tree(), project.places(), project.states());
    let worth = Worth::build(alloc, tree, places, states, project.accounts(), entries).ok()?;
    Some(tree.len() == 3 && worth.of_item(0) == WORTH)
}

const OUTLOOK: OutlookAmounts = OutlookAmounts {
    budget: 40,
    outlook: 54,
    change: 14,
};

/// Whether the third item is in the outlook at its level, and the first one will cost this if the activity costs 24.
fn is_outlook(alloc: Global, project: &Project) -> Option<bool> {
    let entries = project.book().entries();
    let (tree, places) = (project.tree(), project.places());
    if tree.len() != 3 || places.len() != 1 {
        return None;
    }
    let outlook = Outlook::build(alloc, tree, places, &[24], project.accounts(), entries).ok()?;
    if outlook.items() != 3 {
        return None;
    }
    let is_third = outlook.row(2) == OutlineRow { item: 2, level: 2 };
    Some(is_third & (outlook.of_item(0) == OUTLOOK))
}

const LOAD: &[u8] =
    b"LOAD P 2\nPERIOD                0 2024-01-01\nPERIOD                1 2024-01-03\nITEMS\nRESOURCES\n";

/// Whether tables of a caller, without amounts in two periods of two days, are written to a bare sink.
fn is_load(alloc: Global, project: &Project) -> Option<bool> {
    let items = project.tree().len();
    let resources = project.resource_count();
    if items != 3 || resources != 0 {
        return None;
    }
    let by_item = Table::build(alloc, items, &[], 12, 2).ok()?;
    let by_resource = Table::build(alloc, resources, &[], 12, 2).ok()?;
    let mut sink = MemSink::new(alloc, 200, 200, &[]).ok()?;
    write_load(&mut sink, project, 2, &by_item, &by_resource).ok()?;
    Some(sink.bytes() == LOAD)
}

/// Whether a project has the summary, the worth, the outlook and the load of this deck's.
pub(crate) fn has_figures(alloc: Global, project: &Project) -> [bool; 4] {
    [
        is_summary(alloc, project),
        is_worth(alloc, project) == Some(true),
        is_outlook(alloc, project) == Some(true),
        is_load(alloc, project) == Some(true),
    ]
}

fn are_figures(alloc: Global) -> Option<[bool; 4]> {
    asked(alloc, DECK, b"", b"")?.figures
}

#[test]
fn figures_of_items(rt: HostRuntime) {
    expect_all(&rt, &are_figures(rt.alloc()).unwrap_or([false; 4]));
}
