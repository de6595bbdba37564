//! The deck of a project in canonical form, as `migrate` and `arrows` print it.
ghost use Rattle.std.specs.Prelude.{◌≡◌, IfOk};
ghost use Rattle.pc_project.specs.deck_text.Written.{IsDeckText};

use pc_edges::Sink;
use pc_edges::page::Page;
use pc_project::Project;
use pc_project::deck_text::deck_text_in;
use pc_reports::Report;
use std::alloc::AllocError;

/// The text of a project's deck.
#[derive(Drop)]
pub(crate) struct DeckText {
    text: Vec<u8>,
}

impl DeckText {
    /// Builds the text in the memory of `room`.
    pub(crate) fn build(project: &Project, room: Vec<u8>) -> Result<DeckText, AllocError>
        ensures { IfOk result (λ answer. IsDeckText project.now answer.text.items) }
    {
        Ok(DeckText {
            text: deck_text_in(project, room)?,
        })
    }
}

impl Report for DeckText {
    ghost IsFor = { λ answer project. IsDeckText project answer.text.items };

    ghost IsText = { λ answer project text. text ≡ answer.text.items };

    fn put_on<O: Sink>(self, page: &mut Page, sink: &mut O, _project: &Project) {
        page.put(sink, &self.text);
    }
}
