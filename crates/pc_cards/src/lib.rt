//! The cards of a deck of any sort: how a field is read, and what it must be; what a kind of cards is; where a card is,
//! and what is wrong with it; the cards of one kind, and how they are written; and the cards among the records of a
//! deck.
//!
//! Nothing here depends on which kinds a deck has, so decks of both sorts are read by the same parts: the differences
//! between the sorts are passed as arguments.
#![tactic(auto)]

pub mod card;
pub mod field;
pub mod form;
pub mod lists;
pub mod place;
pub mod reading;
pub mod rows;
pub mod sort;
