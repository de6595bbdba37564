//! The kinds of columns in the tables of the reports.

use pc_edges::page::Fill;

/// Codes, and the word of a row that has none.
pub(crate) const CODE: Fill = Fill::Left(16);

/// Levels of the work breakdown structure.
pub(crate) const LEVEL: Fill = Fill::Right(2);

/// Amounts of money.
pub(crate) const AMOUNT: Fill = Fill::Right(14);

/// Times and slacks, in sixths of a day.
pub(crate) const TIME: Fill = Fill::Right(12);

/// Variances, in thirty-sixths of a square day.
pub(crate) const VARIANCE: Fill = Fill::Right(16);

/// Dates and titles, which end a row.
pub(crate) const TEXT: Fill = Fill::Plain;
