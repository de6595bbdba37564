//! What a small project says that no text of a report needs: titles, the code of an account, and an activity.
ghost use Rattle.std.specs.Prelude.{◌≤◌, length};

use pc_deck::read_cards;
use pc_project::{Project, project_of};
use std::alloc::Global;

// Titles, and a resource without one.
const DECK: &[u8] =
    b"PROJECT,E1,S,T,2024-01-01,1,,\"Example, one\"\nRES,R,\nWBS,1,,Whole\nEVENT,S,Start\n\
EVENT,T,\"The \"\"end\"\"\"\nACT,A,S,T,1,3,4,5,4,2,10,3,Dig\nACCT,X1,1,10,Account\nEND\n";

/// The titles of the project, of its second event, its activity, its account and its resource, and the account's code.
const TITLES: [&[u8]; 6] = [
    b"Example, one",
    b"The \"end\"",
    b"Dig",
    b"Account",
    b"",
    b"X1",
];

/// Whether the project has these titles and this code.
fn has_titles(project: &Project) -> bool {
    let net = project.net();
    if net.events() != 2 || net.activities() != 1 {
        return false;
    }
    if project.accounts().len() != 1 || project.resource_count() != 1 {
        return false;
    }
    let code = project.account_code(0);
    let titles = [
        project.title().bytes(),
        project.event_title(1).bytes(),
        project.activity_title(0).bytes(),
        project.account_title(0).bytes(),
        project.resource_title(0).bytes(),
        code.bytes(),
    ];
    titles == TITLES
}

/// The numbers of the activity, in the order of its fields.
const ACTIVITY: [u64; 9] = [0, 1, 0, 24, 4, 4, 2, 10, 3];

/// Whether the first activity of the project has these numbers.
fn has_activity(project: &Project) -> bool {
    if project.net().activities() == 0 {
        return false;
    }
    let act = project.activity(0);
    let numbers = [
        act.from as u64,
        act.to as u64,
        act.item as u64,
        act.expected,
        act.variance,
        act.normal,
        act.crash,
        act.cost,
        act.slope,
    ];
    numbers == ACTIVITY
}

/// Whether the titles and the activity of the deck's project are as they must be; none where the deck is refused.
fn are_told(alloc: Global, deck: &[u8]) -> Option<bool>
    requires { length deck.now ≤ 1000 }
{
    let cards = read_cards(alloc, deck).ok()?;
    let project = project_of(alloc, cards).ok()?;
    let are_told = has_titles(&project) & has_activity(&project);
    // (dropped in one place, since a function that drops a project is long to prove)
    drop(project);
    Some(are_told)
}

#[test]
fn titles_and_an_activity_of_a_project(rt: HostRuntime) {
    assert!(rt; are_told(rt.alloc(), DECK) == Some(true));
}
