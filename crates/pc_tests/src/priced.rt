//! What the small network says of its prices, and what durations cost.
ghost use Rattle.std.specs.Prelude.{◌≡◌, ◌<◌, length};
ghost use Rattle.pc_crash.specs.inside.Steps.{IsBlankOf};

use crate::cases::expect_all;
use crate::small::{small_net, small_priced};
use pc_crash::{CrashNet, Knee, Link, Look, Steps, Term};
use pc_text::Code;
use std::alloc::Global;
use std::marker::Brand;
use std::sync::ledger::{Blank, Ledger};

const TERM: Term = Term {
    normal: 5,
    crash: 3,
    cost: 20,
    slope: 5,
};

/// Whether activity 1 has its term, and the network its shape and pieces.
fn is_shaped(priced: &CrashNet<'_>) -> bool
    requires { 1 < length priced.now.network.arcs }
{
    let shape = priced.net();
    (priced.term(1) == TERM)
        & (shape.events() == 3)
        & (shape.activities() == 3)
        & priced.has_pieces()
}

/// Whether the project, event 1 and activity 2 have these codes.
fn has_codes(priced: &CrashNet<'_>, codes: [Code; 3]) -> bool
    requires event { 1 < priced.now.network.events }
    requires activity { 2 < length priced.now.network.arcs }
{
    let [a, b, c] = codes;
    (priced.project() == a) & (priced.event_code(1) == b) & (priced.activity_code(2) == c)
}

const KNEES: &[Knee] = &[Knee { at: 4, rise: 3 }, Knee { at: 3, rise: 3 }];

/// Whether these are the knees of activity 0, and the call for the first knee returns it.
fn has_knees(priced: &CrashNet<'_>) -> bool
    requires { 0 < length priced.now.network.arcs }
{
    let knees = priced.knees(0);
    if knees.len() != 2 {
        return false;
    }
    (knees.as_slice() == KNEES) & (knees.knee(0) == 4) & (knees.rise(0) == 3)
}

/// Whether activity 0 has these gaps at two times of the three events.
fn has_gaps(priced: &CrashNet<'_>) -> bool
    requires events { priced.now.network.events ≡ 3 }
    requires activity { 0 < length priced.now.network.arcs }
{
    (priced.gap(&[0, 4, 9], 0) == 4) & (priced.gap(&[3, 1, 0], 0) == -2)
}

/// Whether durations are a schedule if the events are at 0, 4 and 9: these are for a length of 9, but not for 8; nor
/// are those in which one does not fit, or is below its crash duration.
fn has_schedules(priced: &CrashNet<'_>) -> [bool; 4]
    requires events { priced.now.network.events ≡ 3 }
    requires activities { length priced.now.network.arcs ≡ 3 }
{
    [
        priced.is_schedule(&[4, 5, 7], &[0, 4, 9], 9),
        !priced.is_schedule(&[4, 5, 7], &[0, 4, 9], 8),
        !priced.is_schedule(&[4, 5, 8], &[0, 4, 9], 9),
        !priced.is_schedule(&[3, 5, 4], &[0, 4, 9], 9),
    ]
}

/// Whether the shape, the codes, the names of two activities, the knees and the gaps of the small network are as they
/// must be, and what is a schedule of it.
fn are_told(alloc: Global) -> Option<[bool; 10]> {
    let (a, b, c) = (Code::read(b"A")?, Code::read(b"B")?, Code::read(b"C")?);
    let d = Code::read(b"D")?;
    let net = small_net(alloc)?;
    let priced = small_priced(alloc, &net)?;
    let [first, second, third, fourth] = has_schedules(&priced);
    Some([
        is_shaped(&priced),
        has_codes(&priced, [a, b, c]),
        priced.activity_named(&c) == Some(2),
        priced.activity_named(&d).is_none(),
        has_knees(&priced),
        has_gaps(&priced),
        first,
        second,
        third,
        fourth,
    ])
}

#[test]
fn prices_of_a_network(rt: HostRuntime) {
    expect_all(&rt, &are_told(rt.alloc()).unwrap_or([false; 10]));
}

/// Whether a look gives the ends and the terms of activity 1, and one knee.
fn is_told(look: &Look<'_>) -> bool {
    (look.from == 1)
        & (look.to == 2)
        & (look.normal == 5)
        & (look.crash == 3)
        & (look.slope == 5)
        & (look.knees.len() == 1)
}

/// Whether this is what a look at activity 1 gives.
fn is_looked_at<L: Ledger>(net: &CrashNet<'_>, blank: Blank) -> bool
    requires blank { IsBlankOf L.name L.parts blank.name blank.parts }
    requires activity { 1 < length net.now.network.arcs }
{
    let mut steps = Steps::<L>::new(blank);
    is_told(&net.look(1, &mut steps))
}

fn small_look(alloc: Global) -> Option<bool> {
    let net = small_net(alloc)?;
    let priced = small_priced(alloc, &net)?;
    Some(is_looked_at::<Brand>(&priced, Blank::new(1)))
}

#[test]
fn looks(rt: HostRuntime) {
    assert!(rt; small_look(rt.alloc()) == Some(true));
}

/// The activities of two links, each with the event at its other end.
fn pair(links: &[Link]) -> Option<[u32; 4]> {
    match links {
        [first, second] => Some([first.activity, first.other, second.activity, second.other]),
        _ => None,
    }
}

/// The links of the activities that begin at event 0, and of those that end at event 2.
fn small_links(alloc: Global) -> Option<[[u32; 4]; 2]> {
    let net = small_net(alloc)?;
    let priced = small_priced(alloc, &net)?;
    Some([pair(priced.out_links(0))?, pair(priced.in_links(2))?])
}

#[test]
fn links(rt: HostRuntime) {
    assert!(rt; small_links(rt.alloc()) == Some([[0, 1, 2, 2], [1, 1, 2, 0]]));
}

/// What the activities cost at their normal durations and at their crash durations, and activity 0 at 3 units.
fn costs(alloc: Global) -> Option<[u64; 3]> {
    let net = small_net(alloc)?;
    let priced = small_priced(alloc, &net)?;
    Some([
        priced.cost_of(&[4, 5, 7]),
        priced.cost_of(&[2, 3, 5]),
        priced.activity_cost(0, 3),
    ])
}

#[test]
fn costs_of_durations(rt: HostRuntime) {
    assert!(rt; costs(rt.alloc()) == Some([45, 68, 13]));
}
