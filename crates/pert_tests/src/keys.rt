//! The result of a top call does not depend on the key of the hash by which names are looked up; without a key the deck
//! is not read.

use crate::edges::{RUNS, task_of};
use crate::sessions::LINES;
use crate::testing::{
    CERTIFICATE, Left, SMALL, Task, WHOLE, check_of, expect_ok_none, left_by, left_from, session_of,
};
use pc_edges::ReadSource;
use std::alloc::{AllocError, Global};

/// What a task leaves if its deck is read with this key.
fn left_with(alloc: Global, task: &Task<'_>, key: Option<u128>) -> Result<Left, AllocError> {
    left_from(
        alloc,
        task,
        &mut ReadSource::new(task.deck).with_key(key),
        SMALL,
    )
}

const KEYS: &[u128] = &[1, u128::MAX];

/// Whether a task leaves the same with each key as with the key of a source in memory.
fn is_same_with_each_key(alloc: Global, task: &Task<'_>) -> Result<bool, AllocError> {
    let fixed = left_by(alloc, task, SMALL)?;
    for &key in KEYS {
        if !left_with(alloc, task, Some(key))?.is_same(&fixed) {
            return Ok(false);
        }
    }
    Ok(true)
}

/// The first of the calls that depends on the key, or none.
fn first_by_key(alloc: Global) -> Result<Option<usize>, AllocError> {
    for (i, row) in RUNS.iter().enumerate() {
        let (task, _, _) = task_of(row);
        if !is_same_with_each_key(alloc, &task)? {
            return Ok(Some(i));
        }
    }
    Ok(None)
}

/// Whether a session is the same with each key.
fn is_session_the_same(alloc: Global) -> Result<bool, AllocError> {
    let lines = LINES.concat(alloc)?;
    is_same_with_each_key(alloc, &session_of(&["deck"], WHOLE, &lines))
}

#[test]
fn no_answer_depends_on_the_key(rt: HostRuntime) {
    expect_ok_none(&rt, first_by_key(rt.alloc()));
    assert!(rt; matches!(is_session_the_same(rt.alloc()), Ok(true)));
}

/// Whether a check without a key leaves a read fault.
fn is_unread_without_key(alloc: Global) -> Result<bool, AllocError> {
    let check = check_of(&["deck"], WHOLE, CERTIFICATE.as_bytes());
    Ok(left_with(alloc, &check, None)?.is(4, b"", b""))
}

#[test]
fn no_deck_is_read_without_a_key(rt: HostRuntime) {
    assert!(rt; matches!(is_unread_without_key(rt.alloc()), Ok(true)));
}
