//! Codes that are added and found, so many that the table grows.
use crate::cases::expect_all;
use pc_names::Names;
use pc_text::{Code, digits};
use std::alloc::{AllocError, Global};

/// The code for a number, which every number has.
fn code(number: u64) -> Option<Code> {
    Code::read(digits(number).bytes())
}

/// Whether a code is not yet among the names, is added, and is not added again.
fn is_added_once(names: &mut Names, code: &Code) -> Result<bool, AllocError> {
    Ok(names.place_of(code).is_none() & names.add(code)? & !names.add(code)?)
}

/// Whether each of this many codes is added once.
fn are_added(names: &mut Names, count: u64) -> Result<bool, AllocError> {
    for number in 0..count {
        let Some(code) = code(number) else {
            return Ok(false);
        };
        if !is_added_once(names, &code)? {
            return Ok(false);
        }
    }
    Ok(true)
}

/// Whether each of this many codes is found at its place.
fn are_found(names: &Names, count: usize) -> bool {
    for number in 0..count {
        let Some(code) = code(number as u64) else {
            return false;
        };
        if names.place_of(&code) != Some(number) {
            return false;
        }
    }
    true
}

/// Whether this many codes are added, found, listed, and found in the names of their list.
fn are_kept(alloc: Global, count: usize) -> Result<[bool; 4], AllocError> {
    let mut names = Names::new(alloc, 7);
    let is_added = are_added(&mut names, count as u64)?;
    let same = Names::build(alloc, names.as_slice())?;
    Ok([
        is_added,
        are_found(&names, count),
        names.as_slice().len() == count,
        are_found(&same, count),
    ])
}

#[test]
fn names(rt: HostRuntime) {
    expect_all(&rt, &are_kept(rt.alloc(), 200).unwrap_or([false; 4]));
}
