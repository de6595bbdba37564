//! What the tests share: a small deck with its answers, and the result of a program on edges in memory with a call that
//! fails.

use pc_audit::check_run;
use pc_edges::{MemSink, MemSource, Source};
use pc_whatif::session_run;
use pert_cli::run;
use std::alloc::{AllocError, Global};
use std::process::Abort;

/// A deck of three activities with these last cards.
macro_rules! deck_of_three {
    ($last:literal) => {
        concat!(
            "PROJECT,E1,S,T,2024-01-01,1,,Example one\n\
WBS,1,,Whole\n\
WBS,1.1,1,\"Frame, north\"\n\
WBS,1.2,1,Roof\n\
EVENT,S,Start\n\
EVENT,M,Middle\n\
EVENT,T,End\n\
ACT,A,S,M,1.1,3,4,5,4,2,10,3,Dig\n\
ACT,B,M,T,1.2,4,5,12,5,3,20,5,Cover\n\
ACT,C,S,T,1.1,7,7,7,7,5,15,2,Frame\n\
ACCT,X1,1.1,25,Frame account\n\
ACCT,X2,1.2,20,Roof account\n",
            $last
        )
    };
}

/// A deck of three activities.
pub(crate) const WHOLE: &str = deck_of_three!("END\n");

/// The same in the middle of its work.
pub(crate) const AT_WORK: &str = deck_of_three!(
    "ASOF,2024-01-08\nCHARGE,X1,2024-01-03,10\nTOGO,X1,2024-01-08,30\nEND\n"
);

/// A deck of two tasks, the second after the first.
pub(crate) const TASKS: &str = "PROJECT,K1,S,T,2024-01-01,1,,Tasks\n\
WBS,1,,Whole\n\
WBS,1.1,1,Work\n\
TASK,A,1.1,4,4,4,4,2,10,3,\n\
TASK,B,1.1,5,5,5,5,3,20,5,\n\
AFTER,B,A\n\
ACCT,X,1.1,30,\n\
END\n";

/// The certificate of the deck's time-cost curve.
pub(crate) const CERTIFICATE: &str = "CERT 1 E1 3 3\n\
NORMAL\n\
STEP A\n\
STEP B\n\
CRASH\n\
STEP A\n\
STEP B\n\
SEGMENT 9 7 45 3\n\
EVENT S 0 0\n\
EVENT M 4 1\n\
EVENT T 9 1\n\
ACT A 4 3 0\n\
ACT B 5 3 0\n\
ACT C 7 0 0\n\
CLOSE\n\
SEGMENT 7 5 51 7\n\
EVENT S 0 0\n\
EVENT M 2 0\n\
EVENT T 7 1\n\
ACT A 2 3 2\n\
ACT B 5 5 0\n\
ACT C 7 2 0\n\
CLOSE\n\
END\n";

/// The top calls.
#[derive(Clone, Copy)]
pub(crate) enum Call {
    Run,
    CheckRun,
    SessionRun,
}

/// A top call, its words, and what it may read: a deck, and second a certificate or lines.
#[derive(Clone, Copy)]
pub(crate) struct Task<'a> {
    pub(crate) call: Call,
    pub(crate) words: &'a [&'a str],
    pub(crate) deck: &'a [u8],
    pub(crate) second: &'a [u8],
}

/// A run of these words on a deck.
pub(crate) fn run_of<'a>(words: &'a [&'a str], deck: &'a str) -> Task<'a> {
    Task {
        call: Call::Run,
        words,
        deck: deck.as_bytes(),
        second: b"",
    }
}

/// A check with these words of a certificate of a deck.
pub(crate) fn check_of<'a>(words: &'a [&'a str], deck: &'a str, cert: &'a [u8]) -> Task<'a> {
    Task {
        call: Call::CheckRun,
        words,
        deck: deck.as_bytes(),
        second: cert,
    }
}

/// A session with these words that answers lines on a deck.
pub(crate) fn session_of<'a>(words: &'a [&'a str], deck: &'a str, lines: &'a [u8]) -> Task<'a> {
    Task {
        call: Call::SessionRun,
        words,
        deck: deck.as_bytes(),
        second: lines,
    }
}

/// How many bytes a pull gives and a push takes at most, how many an output takes in all, and which call of those at an
/// edge fails; 0 for none.
#[derive(Clone, Copy)]
pub(crate) struct Edges {
    pub(crate) pulled: usize,
    pub(crate) pushed: usize,
    pub(crate) room: usize,
    pub(crate) failing_deck: u64,
    pub(crate) failing_second: u64,
    pub(crate) failing_push: u64,
}

/// Edges without a failing call, which give and take little at once.
pub(crate) const SMALL: Edges = Edges {
    pulled: 100,
    pushed: 7,
    room: 1000,
    failing_deck: 0,
    failing_second: 0,
    failing_push: 0,
};

/// Edges from which nothing can be read.
pub(crate) const UNREADABLE: Edges = Edges {
    failing_deck: 1,
    failing_second: 1,
    ..SMALL
};

/// The status of a call, and the output and the error output as it left them.
#[derive(Drop)]
pub(crate) struct Left {
    status: u8,
    out: MemSink,
    err: MemSink,
}

impl Left {
    /// Returns whether this and nothing else was left.
    pub(crate) fn is(&self, status: u8, out: &[u8], err: &[u8]) -> bool {
        (self.status == status) & (self.out.bytes() == out) & (self.err.bytes() == err)
    }

    /// Returns whether the other is the same.
    pub(crate) fn is_same(&self, other: &Left) -> bool {
        self.is(other.status, other.out.bytes(), other.err.bytes())
    }

    /// Returns whether status 2 and a line that begins so was left, on the error output alone.
    pub(crate) fn is_usage(&self, begin: &[u8]) -> bool {
        let err = self.err.bytes();
        self.is(2, b"", err) & err.starts_with(begin) & err.ends_with(b"\n")
    }

    /// Returns the bytes on the output.
    pub(crate) fn out(&self) -> &[u8] {
        self.out.bytes()
    }

    /// Returns whether the call ended with status 0.
    pub(crate) fn is_accepted(&self) -> bool {
        self.status == 0
    }
}

/// Returns what a task leaves that reads its deck from this source.
pub(crate) fn left_from<D: Source>(
    alloc: Global,
    task: &Task<'_>,
    deck: &mut D,
    edges: Edges,
) -> Result<Left, AllocError> {
    let words = owned(alloc, task.words)?;
    let (pulled, pushed) = (edges.pulled.max(1), edges.pushed.max(1));
    let mut second = MemSource::new(alloc, task.second, pulled, &[edges.failing_second])?;
    let mut out = MemSink::new(alloc, edges.room, pushed, &[edges.failing_push])?;
    let mut err = MemSink::new(alloc, edges.room, pushed, &[edges.failing_push])?;
    let status = status_of(
        alloc,
        task.call,
        &words,
        deck,
        &mut second,
        &mut out,
        &mut err,
    );
    Ok(Left { status, out, err })
}

/// Returns what a task leaves at these edges.
pub(crate) fn left_by(alloc: Global, task: &Task<'_>, edges: Edges) -> Result<Left, AllocError> {
    let mut deck = MemSource::new(alloc, task.deck, edges.pulled.max(1), &[edges.failing_deck])?;
    left_from(alloc, task, &mut deck, edges)
}

/// Returns whether a task leaves this and nothing else at these edges.
pub(crate) fn leaves(
    alloc: Global,
    task: &Task<'_>,
    edges: Edges,
    status: u8,
    out: &[u8],
    err: &[u8],
) -> Result<bool, AllocError> {
    Ok(left_by(alloc, task, edges)?.is(status, out, err))
}

/// The status of a call on its two inputs and its two outputs.
fn status_of<D: Source>(
    alloc: Global,
    call: Call,
    words: &[String],
    deck: &mut D,
    second: &mut MemSource,
    out: &mut MemSink,
    err: &mut MemSink,
) -> u8 {
    match call {
        Call::Run => run(alloc, words, deck, out, err),
        Call::CheckRun => check_run(alloc, words, deck, second, out, err),
        Call::SessionRun => session_run(alloc, words, deck, second, out, err),
    }
}

/// A copy of the words.
pub(crate) fn owned(alloc: Global, words: &[&str]) -> Result<Vec<String>, AllocError> {
    let mut owned = Vec::new(alloc);
    for word in words {
        owned.push(word.to_string(alloc)?)?;
    }
    Ok(owned)
}

/// An edge whose calls fail in turn.
#[derive(Clone, Copy)]
pub(crate) enum Edge {
    Deck,
    Second,
}

/// The small edges, with this pull failing.
fn failing_pull(edge: Edge, pull: u64) -> Edges {
    match edge {
        Edge::Deck => Edges {
            failing_deck: pull,
            ..SMALL
        },
        Edge::Second => Edges {
            failing_second: pull,
            ..SMALL
        },
    }
}

/// Lets each of `pulls` pulls fail in turn, and then the one after them, which the task does not make. Returns whether
/// each failure gives status 4 and nothing written, and the last run the result of the task without a failure.
pub(crate) fn stops_at_each_pull(
    alloc: Global,
    task: &Task<'_>,
    edge: Edge,
    pulls: u64,
) -> Result<bool, AllocError> {
    for pull in 1..=pulls {
        if !leaves(alloc, task, failing_pull(edge, pull), 4, b"", b"")? {
            return Ok(false);
        }
    }
    leaves_all(alloc, task, failing_pull(edge, pulls.saturating_add(1)))
}

/// The small edges, with this push or flush failing, on each output.
pub(crate) fn failing_push(call: u64) -> Edges {
    Edges {
        failing_push: call,
        ..SMALL
    }
}

/// What this many pushes take of a text.
fn front(text: &[u8], pushes: usize) -> &[u8] {
    let taken = pushes.saturating_mul(SMALL.pushed).min(text.len());
    &text[..taken]
}

/// Returns whether the task leaves status 5 and what the pushes before took of the text where the next call fails.
fn is_cut_after(
    alloc: Global,
    task: &Task<'_>,
    whole: &Left,
    pushes: usize,
) -> Result<bool, AllocError> {
    let edges = failing_push((pushes as u64).saturating_add(1));
    let (out, err) = (
        front(whole.out.bytes(), pushes),
        front(whole.err.bytes(), pushes),
    );
    leaves(alloc, task, edges, 5, out, err)
}

/// Lets each push and the flush of what a task writes fail in turn, and then the call after them, which it does not
/// make. Returns whether each failure gives status 5 and what the calls before took of the text, and the last run the
/// result of the task without a failure.
fn is_cut_at_each_push(alloc: Global, task: &Task<'_>, whole: &Left) -> Result<bool, AllocError> {
    let longest = whole.out.bytes().len().max(whole.err.bytes().len());
    let pushes = longest.div_ceil(SMALL.pushed);
    for before in 0..=pushes {
        if !is_cut_after(alloc, task, whole, before)? {
            return Ok(false);
        }
    }
    leaves_all(alloc, task, failing_push((pushes as u64).saturating_add(2)))
}

/// The same for what the task leaves at sound edges.
pub(crate) fn stops_at_each_push(alloc: Global, task: &Task<'_>) -> Result<bool, AllocError> {
    is_cut_at_each_push(alloc, task, &left_by(alloc, task, SMALL)?)
}

/// Returns whether the task leaves at these edges what it leaves at sound ones.
pub(crate) fn leaves_all(alloc: Global, task: &Task<'_>, edges: Edges) -> Result<bool, AllocError> {
    let whole = left_by(alloc, task, SMALL)?;
    Ok(left_by(alloc, task, edges)?.is_same(&whole))
}

/// Returns the first of these runs that leaves another thing at these edges than it must, or `None`. A run has its
/// words, a deck, the status, the output and the error output.
pub(crate) fn first_wrong_run(
    alloc: Global,
    edges: Edges,
    runs: &[(&[&str], &str, u8, &str, &str)],
) -> Result<Option<usize>, AllocError> {
    for (i, &(words, deck, status, out, err)) in runs.iter().enumerate() {
        let (out, err) = (out.as_bytes(), err.as_bytes());
        if !leaves(alloc, &run_of(words, deck), edges, status, out, err)? {
            return Ok(Some(i));
        }
    }
    Ok(None)
}

/// Fails the test with the number of the first wrong case, if there is one, or if memory runs out. The prover follows
/// each way out of an assertion, and what it prints: so the tests of tables ask here, where that is proved once.
pub(crate) fn expect_ok_none(rt: &impl Abort, wrong: Result<Option<usize>, AllocError>) {
    match wrong {
        Ok(None) => {}
        Ok(Some(i)) => panic!(rt; "case {i}"),
        Err(_) => panic!(rt; "out of memory"),
    }
}
