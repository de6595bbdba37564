//! Writing the text of a deck.
ghost use Rattle.std.specs.Prelude.{◌≡◌, ◌++◌, IfOk, OnOk};
ghost use Rattle.pc_deck.specs.Text.{deck_text, says_nothing, settled_terms};
ghost use Rattle.pc_deck.specs.inside.Text.{lead_text, lists_text};

use crate::cards::Cards;
use crate::kinds::{AsOfCard, ProjectCard, TermsCard};
use pc_cards::card::{Card, put_card, put_cards};
use pc_faults::Kind;
use pc_records::RowWriter;
use std::alloc::AllocError;

/// About as many bytes as the record of an activity has.
const LONG: usize = 96;

/// About as many bytes as the record of another card has.
const SHORT: usize = 48;

/// The version of decks that is written.
const WRITTEN_VERSION: u64 = 2;

impl Cards {
    /// Returns the text of the deck in canonical form: version 2, the day that the deck is of, and the cards kind by
    /// kind. Reuses the memory that it drops, and allocates more if that is too little.
    ///
    /// # Errors
    ///
    /// `AllocError` if there is not enough memory.
    pub fn text(&self, room: Vec<u8>) -> Result<Vec<u8>, AllocError>
        ensures { IfOk result (λ text. text.items ≡ deck_text self.now) }
    {
        let mut text = RowWriter::with_capacity(room, self.usual_length())?;
        self.put_lead(&mut text)?;
        self.put_lists(&mut text)?;
        text.put(&[Kind::End.word()])?;
        text.finish()
    }

    /// About as many bytes as the text has, so that its capacity seldom grows.
    fn usual_length(&self) -> usize {
        let plan = self.items().len().saturating_add(self.events().len());
        let money = self.charges().len().saturating_add(self.togos().len());
        let others = self.pieces().len().saturating_add(self.statuses().len());
        let short = plan.saturating_add(money).saturating_add(others);
        SHORT
            .saturating_mul(short)
            .saturating_add(LONG.saturating_mul(self.acts().len()))
    }

    /// Puts the PROJECT card, the ASOF card and the TERMS card.
    fn put_lead(&self, text: &mut RowWriter) -> Result<(), AllocError>
        ensures { OnOk result (text.new ≡ text.old ++ lead_text self.now) }
    {
        let project = self.project();
        let written = ProjectCard {
            version: WRITTEN_VERSION,
            ..*project
        };
        written.put(Kind::Project, text)?;
        let first = AsOfCard {
            row: 0,
            day: project.start_day,
        };
        let as_of = self.as_of().unwrap_or(first);
        as_of.put(Kind::AsOf, text)?;
        put_card(settled_terms(self.terms()), Kind::Terms, text)?;
        Ok(())
    }

    /// Puts the cards of the other kinds, one kind after the other.
    fn put_lists(&self, text: &mut RowWriter) -> Result<(), AllocError>
        ensures { OnOk result (text.new ≡ text.old ++ lists_text self.now) }
    {
        put_cards(self.items(), Kind::Wbs, text)?;
        put_cards(self.events(), Kind::Event, text)?;
        put_cards(self.acts(), Kind::Act, text)?;
        put_cards(self.pieces(), Kind::Piece, text)?;
        put_cards(self.accounts(), Kind::Acct, text)?;
        put_cards(self.charges(), Kind::Charge, text)?;
        put_cards(self.togos(), Kind::ToGo, text)?;
        put_cards(self.statuses(), Kind::Status, text)?;
        put_cards(self.resources(), Kind::Res, text)?;
        put_cards(self.loads(), Kind::Load, text)?;
        Ok(())
    }
}

/// The TERMS card, where it says something.
fn settled_terms(terms: Option<TermsCard>) -> Option<TermsCard>
    ensures { result ≡ settled_terms terms }
{
    let card = terms?;
    if says_nothing(&card) {
        None
    } else {
        Some(card)
    }
}

/// Whether the four numbers of a TERMS card are 0.
fn says_nothing(terms: &TermsCard) -> bool
    ensures { result ≡ says_nothing terms.now }
{
    terms.overhead == 0 && terms.target == 0 && terms.bonus == 0 && terms.penalty == 0
}
