//! What a small deck and its project return. A function that drops a project is long to prove, so all is asked in one
//! place.
ghost use Rattle.std.specs.Prelude.{◌≤◌, length};

use crate::figures::has_figures;
use pc_deck::read_cards;
use pc_project::{Project, deck_text_of, project_of};
use std::alloc::{AllocError, Global};

/// What a deck returns after it is read, and its project, if it makes one.
#[derive(Clone, Copy)]
pub(crate) struct DeckFacts {
    /// Whether the deck's text is the expected one.
    pub(crate) text: Option<bool>,
    /// Whether the text of the project's deck is the expected one.
    pub(crate) text_again: Option<bool>,
    /// Which of its figures are those of the deck of `figures`.
    pub(crate) figures: Option<[bool; 4]>,
}

/// Whether a text is the expected one; none if memory ran out.
fn is_same(text: Result<Vec<u8>, AllocError>, expected: &[u8]) -> Option<bool> {
    Some(text.ok()?.as_slice() == expected)
}

/// A project is dropped only here.
fn let_go(_project: Project) {}

/// What the deck and its project return, if these texts are expected of the deck and, again, of the project; none if
/// the deck is refused.
pub(crate) fn asked(alloc: Global, deck: &[u8], text: &[u8], again: &[u8]) -> Option<DeckFacts>
    requires { length deck.now ≤ 1000 }
{
    let cards = read_cards(alloc, deck).ok()?;
    let of_deck = is_same(cards.text(Vec::new(alloc)), text);
    let Ok(project) = project_of(alloc, cards) else {
        return Some(DeckFacts {
            text: of_deck,
            text_again: None,
            figures: None,
        });
    };
    let of_project = is_same(deck_text_of(alloc, &project), again);
    let figures = has_figures(alloc, &project);
    let_go(project);
    Some(DeckFacts {
        text: of_deck,
        text_again: of_project,
        figures: Some(figures),
    })
}
