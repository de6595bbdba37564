//! The cards of a deck, or its first fault.
//!
//! A deck is a text of records, and each record that is not blank is a card: its first field is the card's kind. There
//! are two sorts of decks, which differ in the kinds that they have: [`read_cards`] reads a plan, and [`read_tasks`] a
//! deck of tasks. Codes are read but not looked up here: `pc_project` checks what refers to another card.
//!
//! What knows no kind by name is in `pc_cards`; this crate has the kinds, their table, and the reading of a complete
//! deck.
#![tactic(auto)]

mod cards;
mod draft;
mod kinds;
pub mod laws;
mod limits;
mod made;
mod read;
mod text;

pub use crate::cards::{Cards, CardsOf, DeckSort, Plans, TaskCards, TaskDecks};
pub use crate::kinds::{
    AcctCard, ActCard, AfterCard, AsOfCard, ItemCard, LoadCard, MoneyCard, PieceCard, ProjectCard,
    StatusCard, TaskCard, TermsCard, TitledCard, TitledCard as EventCard, TitledCard as ResCard,
};
pub use crate::limits::DECK_LIMIT;
pub use crate::made::PlanLists;
pub use crate::read::{read_cards, read_cards_by, read_tasks, read_tasks_by};
pub use pc_faults::{DeckError, Detail, Fault, Kind, StatusFault, Target, fault_line};
