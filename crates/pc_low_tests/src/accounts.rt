//! A book and its packages on two accounts.
ghost use Rattle.std.specs.Prelude.{◌≡◌, ◌<◌, ◌≤◌, length, IfOk, IfSome};
ghost use Rattle.pc_accounts.specs.Amounts.{AreMoney};

use pc_accounts::{AcctRow, Book, BookError, MoneyRow, Uneven, WorkRow, reconcile};
use pc_days::{Day, read_day};
use pc_model::MAX_COST;
use pc_wbs::{ItemRow, Tree};
use std::alloc::{AllocError, Global};

const ACCOUNTS: &[AcctRow] = &[
    AcctRow {
        item: 1,
        budget: 25,
    },
    AcctRow {
        item: 2,
        budget: 20,
    },
];

/// Rows of the two accounts.
fn rows(alloc: Global, amounts: &[(u32, Day, u64)]) -> Result<Vec<MoneyRow>, AllocError>
    requires { length amounts.now ≤ 1000 }
    ensures few { IfOk result (λ rows. length rows.items ≤ length amounts.now) }
    ensures money { IfOk result (λ rows. AreMoney 2 rows.items) }
{
    let mut rows = Vec::new(alloc);
    for &(account, day, amount) in amounts {
        if account < 2 && amount <= MAX_COST {
            rows.push(MoneyRow {
                account,
                day,
                amount,
            })?;
        }
    }
    Ok(rows)
}

/// The book of the two accounts with these charges and amounts to go.
fn book_of(
    alloc: Global,
    charges: &[(u32, Day, u64)],
    togos: &[(u32, Day, u64)],
    as_of: Day,
) -> Result<Book, BookError>
    requires charges { length charges.now ≤ 1000 }
    requires togos { length togos.now ≤ 1000 }
    ensures { IfOk result (λ book. length book ≡ 2) }
{
    let charges = rows(alloc, charges)?;
    let togos = rows(alloc, togos)?;
    Book::build(alloc, ACCOUNTS, &charges, &togos, as_of)
}

/// What is booked on an account: what it has spent, what is to go, its latest estimate, and its value before and after
/// it is finished.
struct Figures {
    actual: u64,
    to_go: u64,
    latest: u64,
    begun: u64,
    finished: u64,
}

/// Whether these are the figures of an account.
fn has_figures(book: &Book, account: u32, figures: &Figures) -> bool
    requires { account < length book.now }
{
    (book.actual(account) == figures.actual)
        & (book.to_go(account) == figures.to_go)
        & (book.latest(account) == figures.latest)
        & (book.value(account, false) == figures.begun)
        & (book.value(account, true) == figures.finished)
}

// The value before it is finished is 250 / 40, rounded down.
const FIRST: Figures = Figures {
    actual: 10,
    to_go: 30,
    latest: 40,
    begun: 6,
    finished: 25,
};

const SECOND: Figures = Figures {
    actual: 0,
    to_go: 20,
    latest: 20,
    begun: 0,
    finished: 20,
};

fn is_booked(book: &Book) -> bool
    requires { length book.now ≡ 2 }
{
    (book.entries().len() == 2) & has_figures(book, 0, &FIRST) & has_figures(book, 1, &SECOND)
}

fn books_what_is_due(alloc: Global) -> Option<bool> {
    let (early, due) = (read_day(b"2024-01-03").ok()?, read_day(b"2024-01-08").ok()?);
    let late = read_day(b"2024-01-09").ok()?;
    let charges = [(0, early, 10), (0, late, 99)];
    let togos = [(0, due, 30), (0, early, 7), (0, late, 1)];
    let book = book_of(alloc, &charges, &togos, due).ok()?;
    Some(is_booked(&book))
}

#[test]
fn books_what_counts(rt: HostRuntime) {
    assert!(rt; books_what_is_due(rt.alloc()) == Some(true));
}

/// Whether this many of the largest charges add up.
fn is_summed(book: &Book) -> bool
    requires { length book.now ≡ 2 }
{
    (book.actual(1) == 1000 * MAX_COST) & (book.to_go(1) == 0) & (book.value(1, false) == 20)
}

fn sums_largest(alloc: Global) -> Option<bool> {
    let day = read_day(b"2024-01-03").ok()?;
    let charges = vec![in alloc; (1, day, MAX_COST); 1000].ok()?;
    let book = book_of(alloc, &charges, &[], day).ok()?;
    Some(is_summed(&book))
}

#[test]
fn sums_every_charge(rt: HostRuntime) {
    assert!(rt; sums_largest(rt.alloc()) == Some(true));
}

/// The places of the first amount to go that has the account and the day of an earlier one, and of that one.
fn second_to_go(alloc: Global) -> Option<[u32; 2]> {
    let (one, two) = (read_day(b"2024-01-08").ok()?, read_day(b"2024-01-09").ok()?);
    let togos = [
        (1, one, 5),
        (0, one, 5),
        (0, two, 5),
        (0, one, 6),
        (1, one, 7),
    ];
    match book_of(alloc, &[], &togos, one) {
        Err(BookError::SecondToGo { first, second }) => Some([first, second]),
        _ => None,
    }
}

#[test]
fn refuses_two_amounts_to_go_on_one_day(rt: HostRuntime) {
    assert!(rt; second_to_go(rt.alloc()) == Some([1, 3]));
}

/// A top item with two packages.
fn packages(alloc: Global) -> Result<Option<Tree>, AllocError>
    ensures { IfOk result (λ tree. IfSome tree (λ tree. length tree ≡ 3)) }
{
    let rows = [
        ItemRow { parent: None },
        ItemRow { parent: Some(0) },
        ItemRow { parent: Some(0) },
    ];
    Ok(Tree::build(alloc, &rows).ok())
}

const EVEN: &[WorkRow] = &[WorkRow { item: 1, cost: 10 }, WorkRow { item: 1, cost: 15 }];

const UNEVEN: &[WorkRow] = &[WorkRow { item: 2, cost: 19 }, WorkRow { item: 1, cost: 25 }];

/// Whether even work is accepted, and the item of uneven work is named with its sums.
fn is_reconciled(alloc: Global, tree: &Tree) -> bool
    requires { length tree.now ≡ 3 }
{
    let second = Uneven::Item {
        item: 2,
        budgets: 20,
        costs: 19,
    };
    (reconcile(alloc, tree, ACCOUNTS, EVEN) == Ok(()))
        & (reconcile(alloc, tree, ACCOUNTS, UNEVEN) == Err(second))
}

fn reconciles(alloc: Global) -> Option<bool> {
    let tree = packages(alloc).ok()??;
    Some(is_reconciled(alloc, &tree))
}

#[test]
fn reconciles_packages_with_work(rt: HostRuntime) {
    assert!(rt; reconciles(rt.alloc()) == Some(true));
}
