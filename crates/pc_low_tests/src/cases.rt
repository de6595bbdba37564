//! How a test reports which of its cases is wrong. The prover follows each way out of an assertion, and what it prints,
//! so the tests of tables use this function, where that is proved once.
use std::alloc::AllocError;
use std::process::Abort;

/// Fails the test with the number of the first wrong case, if there is one.
pub(crate) fn expect_none(rt: &impl Abort, wrong: Option<usize>) {
    if let Some(i) = wrong {
        panic!(rt; "case {i}");
    }
}

/// The same, and fails the test if memory runs out.
pub(crate) fn expect_ok_none(rt: &impl Abort, wrong: Result<Option<usize>, AllocError>) {
    match wrong {
        Ok(found) => expect_none(rt, found),
        Err(_) => panic!(rt; "out of memory"),
    }
}

/// The first of these that does not hold, or none.
pub(crate) fn first_false(cases: &[bool]) -> Option<usize> {
    for (i, &holds) in cases.iter().enumerate() {
        if !holds {
            return Some(i);
        }
    }
    None
}
