//! The text of the benchmark's deck, and the random numbers from which it is generated.
ghost use Rattle.std.specs.Prelude.{◌≡◌, ◌≤◌, ◌++◌, IfOk, OnOk, string_bytes, ℕ, ◌+◌, ◌<◌, ◌-◌};
ghost use Rattle.pc_curve.specs.bench.Deck.{
  activities_text,
  activity_line,
  all_costs,
  bench_deck_text,
  end_text,
  events_text,
  item_line,
  project_line,
};
ghost use Rattle.pc_curve.specs.bench.Draws.{drawn};
ghost use Rattle.pc_curve.specs.bench.Recipe.{activity, begins_at, draws_to, ends_at, bench_last_event, own_draw};
ghost use Rattle.pc_curve.specs.declared.bench.deck.TheConstants.{MOST_ACTIVITIES};

use std::alloc::{AllocError, Global};
use std::marker::Model;

/// The greatest number of activities of a deck of the benchmark.
pub const MOST_ACTIVITIES: u64 = 4_000;

/// Returns the deck of the benchmark with `n` activities and half as many events plus one. The same `n` gives the same
/// deck. Linear in `n`.
///
/// The first activities form a row through all events, and the others skip up to three events. Durations and costs are
/// random.
///
/// # Errors
///
/// Returns `AllocError` if memory runs out.
pub fn bench_deck(alloc: Global, n: u64) -> Result<Vec<u8>, AllocError>
    requires least { 1 ≤ n }
    requires most { n ≤ MOST_ACTIVITIES }
    ensures { IfOk result (λ deck. deck.items ≡ bench_deck_text n) }
{
    let mut deck = String::new(alloc);
    let last = last_event(n);
    write_project(&mut deck, last)?;
    write_item(&mut deck)?;
    write_events(&mut deck, last)?;
    let costs = write_activities(&mut deck, n)?;
    write_end(&mut deck, costs)?;
    Ok(deck.into_bytes())
}

/// Writes the card of the project.
fn write_project(deck: &mut String, last: u64) -> Result<(), AllocError>
    ensures { OnOk result (string_bytes deck.new ≡ string_bytes deck.old ++ project_line last) }
{
    write!(deck, "PROJECT,BENCH,E0,E{last},2024-01-01,1,,Bench\n")
}

/// Writes the card of its item.
fn write_item(deck: &mut String) -> Result<(), AllocError>
    ensures { OnOk result (string_bytes deck.new ≡ string_bytes deck.old ++ item_line) }
{
    deck.push_str("WBS,1,,Bench\n")
}

/// Writes the cards of the events up to the last one.
fn write_events(deck: &mut String, last: u64) -> Result<(), AllocError>
    requires { last ≤ MOST_ACTIVITIES }
    ensures { OnOk result (string_bytes deck.new ≡ string_bytes deck.old ++ events_text last) }
{
    for e in 0..last + 1 {
        write!(deck, "EVENT,E{e},\n")?;
    }
    Ok(())
}

/// Writes the cards of the activities, and gives what they cost together.
fn write_activities(deck: &mut String, n: u64) -> Result<u64, AllocError>
    requires { n ≤ MOST_ACTIVITIES }
    ensures text { OnOk result (string_bytes deck.new ≡ string_bytes deck.old ++ activities_text n) }
    ensures costs { IfOk result (λ costs. costs ≡ all_costs n) }
{
    let mut draws = Draws::behind(n);
    let mut costs = 0;
    for k in 0..n {
        let activity = draw_activity(&mut draws, n, k + 1);
        write_activity(deck, k + 1, activity)?;
        costs += activity.cost;
    }
    Ok(costs)
}

/// Writes the card of an activity.
fn write_activity(deck: &mut String, i: u64, activity: BenchActivity) -> Result<(), AllocError>
    ensures { OnOk result (string_bytes deck.new ≡ string_bytes deck.old ++ activity_line i activity) }
{
    let BenchActivity {
        from,
        to,
        normal,
        crash,
        slope,
        cost,
    } = activity;
    write!(
        deck,
        "ACT,A{i},E{from},E{to},1,{normal},{normal},{normal},{normal},{crash},{cost},{slope},\n"
    )
}

/// Writes the card of the account and the last card.
fn write_end(deck: &mut String, costs: u64) -> Result<(), AllocError>
    ensures { OnOk result (string_bytes deck.new ≡ string_bytes deck.old ++ end_text costs) }
{
    write!(deck, "ACCT,X,1,{costs},\nEND\n")
}

/// Draws, each made from the one before.
#[derive(Drop)]
pub(in crate::bench) struct Draws {
    last: u64,
}

impl Model for Draws {
    ghost use Rattle.std.specs.Prelude.{ℕ, ◌<◌};

    ghost Value = { ℕ };

    ghost view = { λ draws. draws.last };

    ghost invariant = { λ draws. draws.last < 65_537 };
}

impl Draws {
    /// The draws after a number.
    pub(in crate::bench) fn behind(start: u64) -> Draws
        requires { start < 65_537 }
        ensures { result ≡ start }
    {
        Draws { last: start }
    }

    pub(in crate::bench) fn next(&mut self) -> u64
        ensures result { (start k : ℕ) → self.old ≡ drawn start k → result ≡ drawn start (k + 1) }
        ensures last { (start k : ℕ) → self.old ≡ drawn start k → self.new ≡ drawn start (k + 1) }
    {
        self.last = (75 * self.last + 74) % 65_537;
        self.last
    }
}

/// An activity of the benchmark's deck: between which events it leads, how long it lasts, in units, and what it costs.
#[derive(Clone, Copy)]
pub(in crate::bench) struct BenchActivity {
    pub(in crate::bench) from: u64,
    pub(in crate::bench) to: u64,
    pub(in crate::bench) normal: u64,
    pub(in crate::bench) crash: u64,
    pub(in crate::bench) slope: u64,
    pub(in crate::bench) cost: u64,
}

/// The number of the last event of a deck of `n` activities.
pub(in crate::bench) fn last_event(n: u64) -> u64
    requires { n ≤ MOST_ACTIVITIES }
    ensures { result ≡ bench_last_event n }
{
    (n + 1) / 2
}

/// Draws activity `i` of `n`, from 1, after those before it have made their draws.
pub(in crate::bench) fn draw_activity(draws: &mut Draws, n: u64, i: u64) -> BenchActivity
    requires most { n ≤ MOST_ACTIVITIES }
    requires first { 0 < i }
    requires last { i ≤ n }
    requires draws { draws.old ≡ drawn n (draws_to n (i - 1)) }
    ensures activity { result ≡ activity n i }
    ensures draws { draws.new ≡ drawn n (draws_to n i) }
{
    let (from, to) = draw_ends(draws, n, i);
    let normal = (to - from) * (1 + draws.next() % 20);
    let crash = draws.next() % (normal + 1);
    BenchActivity {
        from,
        to,
        normal,
        crash,
        slope: 1 + draws.next() % 9,
        cost: 10 + draws.next() % 90,
    }
}

/// Draws the events between which it leads.
fn draw_ends(draws: &mut Draws, n: u64, i: u64) -> (u64, u64)
    requires most { n ≤ MOST_ACTIVITIES }
    requires first { 0 < i }
    requires last { i ≤ n }
    requires draws { draws.old ≡ drawn n (draws_to n (i - 1)) }
    ensures begins { result.0 ≡ begins_at n i }
    ensures ends { result.1 ≡ ends_at n i }
    ensures draws { draws.new ≡ own_draw n i 0 }
    ensures order { result.0 < result.1 }
    ensures small { result.1 ≤ bench_last_event n }
{
    let last = last_event(n);
    if i <= last {
        return (i - 1, i);
    }
    let from = draws.next() % last;
    let to = last.min(from + 1 + draws.next() % 4);
    (from, to)
}
