//! The text of a project's deck in canonical form, for keeping, comparing and reading again.
ghost use Rattle.std.specs.Prelude.{IfOk};
ghost use Rattle.pc_project.specs.deck_text.Written.{IsDeckText};

use crate::Project;
use std::alloc::{AllocError, Global};

/// Returns the text of a project's deck in canonical form: see [`deck_text_in`].
///
/// # Errors
///
/// Returns `AllocError` if memory runs out.
pub fn deck_text_of(alloc: Global, project: &Project) -> Result<Vec<u8>, AllocError>
    ensures { IfOk result (λ text. IsDeckText project.now text.items) }
{
    deck_text_in(project, Vec::new(alloc))
}

/// Returns the deck of a project in canonical form.
///
/// The deck has version 2, the as-of day, a TERMS card if time costs anything, and then the cards kind by kind, each
/// kind in card order, with quotes only where they are needed. It is read as the same project, whose text is the same.
/// Linear in the cards. The text goes into the memory of `room`, for example the deck's own buffer, and takes more only
/// if that is too little.
///
/// # Errors
///
/// Returns `AllocError` if memory runs out.
pub fn deck_text_in(project: &Project, room: Vec<u8>) -> Result<Vec<u8>, AllocError>
    ensures { IfOk result (λ text. IsDeckText project.now text.items) }
{
    project.cards().text(room)
}
