//! Parts of an amount that is spread over time. Whole tables are seen in the texts of `pert_tests`.
use pc_load::{Spread, part};

/// Seven from 24 on over 36 sixths, and five at once at 42: two times, and what comes between them.
#[test]
fn parts_between_times(rt: HostRuntime) {
    let crew = Spread {
        begin: 24,
        length: 36,
        amount: 7,
    };
    let at_once = Spread {
        begin: 42,
        length: 0,
        amount: 5,
    };
    let parts = [
        part(&crew, 0, 24),
        part(&crew, 0, 42),
        part(&crew, 42, 84),
        part(&crew, 60, 90),
        part(&at_once, 0, 42),
        part(&at_once, 42, 84),
    ];
    assert!(rt; parts == [0, 3, 4, 0, 0, 5]);
}
