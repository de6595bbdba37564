//! Small decks are read, and their projects made. Contracts say what the getters return, and the texts of complete
//! decks show it.
ghost use Rattle.std.specs.Prelude.{◌≤◌, length};

use crate::projects::asked;
use std::alloc::Global;

// One card or two of each kind.
const EACH_KIND: &[u8] =
    b"PROJECT,E,S,T,2024-01-01,2,9,Example,2\nASOF,2024-01-08\nTERMS,4,6,2,10\nWBS,1,,Whole\n\
WBS,1.1,1,\nEVENT,S,\nEVENT,T,End\nACT,A,S,T,1.1,3,4,5,4,2,10,7,Dig\nPIECE,A,1,8\nACCT,X,1.1,25,\n\
CHARGE,X,2024-01-03,11\nTOGO,X,2024-01-05,12\nSTATUS,A,S,2024-01-02\nSTATUS,A,F,2024-01-04\nRES,R,\n\
RES,CREW,Crew\nLOAD,A,CREW,13\nEND\n";

// A deck of the first version, with even packages.
const FIRST_VERSION: &[u8] =
    b"PROJECT,P,S,T,2024-01-01,2,9,\nASOF,2024-01-08\nWBS,1,,Whole\nWBS,1.1,1,Frame\nEVENT,S,\n\
EVENT,T,\nACT,A,S,T,1.1,3,4,11,4,2,10,5,\nACCT,X,1.1,10,\nCHARGE,X,2024-01-02,5\n\
TOGO,X,2024-01-02,5\nSTATUS,A,S,2024-01-02\nEND\n";

// The same in one form.
const SECOND_VERSION: &[u8] =
    b"PROJECT,P,S,T,2024-01-01,2,9,,2\nASOF,2024-01-08\nWBS,1,,Whole\nWBS,1.1,1,Frame\nEVENT,S,\n\
EVENT,T,\nACT,A,S,T,1.1,3,4,11,4,2,10,5,\nACCT,X,1.1,10,\nCHARGE,X,2024-01-02,5\n\
TOGO,X,2024-01-02,5\nSTATUS,A,S,2024-01-02\nEND\n";

// Quotes, a TERMS card that says nothing, a number of units to be met, and no ASOF card; and what it is written as.
const TO_SETTLE: &[u8] =
    b"PROJECT,E1,S,T,2024-01-01,1,30,\"Example, one\"\nRES,R,\nTERMS,0,0,0,0\nWBS,1,,Whole\n\
EVENT,S,Start\nEVENT,T,\"The \"\"end\"\"\"\nACT,A,S,T,1,3,4,5,4,2,10,3,\"Dig\"\nLOAD,A,R,7\n\
STATUS,A,S,2024-01-02\nACCT,X1,1,10,Account\nEND,,\n";

const SETTLED: &[u8] =
    b"PROJECT,E1,S,T,2024-01-01,1,30,\"Example, one\",2\nASOF,2024-01-01\nWBS,1,,Whole\n\
EVENT,S,Start\nEVENT,T,\"The \"\"end\"\"\"\nACT,A,S,T,1,3,4,5,4,2,10,3,Dig\nACCT,X1,1,10,Account\n\
STATUS,A,S,2024-01-02\nRES,R,\nLOAD,A,R,7\nEND\n";

/// Whether the text of the deck is this one; none where the deck is refused.
fn is_written_as(alloc: Global, deck: &[u8], text: &[u8]) -> Option<bool>
    requires { length deck.now ≤ 1000 }
{
    asked(alloc, deck, text, text)?.text
}

/// Whether the text of the deck's project is this one; none where the deck is refused.
fn is_written_again_as(alloc: Global, deck: &[u8], text: &[u8]) -> Option<bool>
    requires { length deck.now ≤ 1000 }
{
    asked(alloc, deck, text, text)?.text_again
}

#[test]
fn writes_the_text_of_a_project(rt: HostRuntime) {
    assert!(rt; is_written_again_as(rt.alloc(), FIRST_VERSION, SECOND_VERSION) == Some(true));
}

#[test]
fn writes_the_text_of_a_deck(rt: HostRuntime) {
    let found = [
        is_written_as(rt.alloc(), TO_SETTLE, SETTLED),
        is_written_as(rt.alloc(), SETTLED, SETTLED),
        is_written_as(rt.alloc(), EACH_KIND, EACH_KIND),
    ];
    assert!(rt; found == [Some(true); 3]);
}

#[test]
fn refuses_a_deck_without_end(rt: HostRuntime) {
    let deck = b"PROJECT,E,S,T,2024-01-01,2,9,Example,2\n";
    assert!(rt; is_written_as(rt.alloc(), deck, deck).is_none());
}
