//! How a test reports which of its cases is wrong. The prover follows each way out of an assertion, and what it prints,
//! so the tests of tables use this function, where that is proved once.
use std::process::Abort;

/// Fails the test with the number of the first wrong case, if there is one.
pub(crate) fn expect_none(rt: &impl Abort, wrong: Option<usize>) {
    if let Some(i) = wrong {
        panic!(rt; "case {i}");
    }
}

/// The first of these that does not hold, or none.
fn first_false(cases: &[bool]) -> Option<usize> {
    for (i, &holds) in cases.iter().enumerate() {
        if !holds {
            return Some(i);
        }
    }
    None
}

/// Fails the test with the number of the first case that does not hold, if there is one.
pub(crate) fn expect_all(rt: &impl Abort, cases: &[bool]) {
    expect_none(rt, first_false(cases));
}
