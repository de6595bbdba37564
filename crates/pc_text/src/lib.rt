//! The words of a deck and of a report: codes, titles, numbers, and the line on which a row of a report is put
//! together.
#![tactic(auto)]

mod code;
mod fields;
mod line;
mod number;
mod title;

pub use code::{Code, Codes, is_code};
pub use fields::{alone, field, number_field, run_len};
pub use line::Line;
pub use number::{
    DECK_DIGITS, Decimal, Digits, Signed, Wide, digits, is_unpadded, read_number, signed, wide,
};
pub use title::{Title, is_title_shape};
