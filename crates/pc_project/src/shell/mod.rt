//! From a source to a project or to why there is none, and what the programs and their top calls share: the words, how
//! a call ends, the line that refuses a deck, and the way from one word to the project of a deck.

mod reading;
mod sending;
mod status;
mod words;

pub use crate::shell::reading::{NoProject, load_deck, project_in};
pub use crate::shell::sending::{refuse, send};
pub use crate::shell::status::Status;
pub use crate::shell::words::{deck_file, project_named, words_of};
