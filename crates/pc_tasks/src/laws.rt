//! Laws of the deck that is generated from tasks: it has the schedules of the tasks, at the same costs.
//!
//! Each function here does nothing. Its contract is a law, proved once, and a caller has the law as a fact.

ghost use Rattle.std.specs.Prelude.{◌≡◌, ◌↔◌, ℕ, length};
ghost use Rattle.pc_model.specs.Cost.{IsLeastCost};
ghost use Rattle.pc_model.specs.Pieces.{knees_of};
ghost use Rattle.pc_model.specs.Schedule.{HasSchedule};
ghost use Rattle.pc_tasks.specs.network.Arrows.{arrow_terms, arrows};
ghost use Rattle.pc_tasks.specs.network.Cycles.{HasNoTaskCycle};
ghost use Rattle.pc_tasks.specs.network.Tasks.{HasTaskSchedule, IsLeastTaskCost};
ghost use Rattle.pc_project.specs.Figures.{IsProjectOfDeck};
ghost use Rattle.pc_project.specs.Project.{Project, network_of, pieces_in, terms_in};
ghost use Rattle.pc_project.specs.Refusal.{HasSoundPlan};
ghost use Rattle.pc_deck.specs.Deck.{Deck};
ghost use Rattle.pc_cards.specs.declared.sort.Sort.TheVariants.{Tasks};
ghost use Rattle.pc_deck.specs.Within.{IsWithin, IsWithinLimits};
ghost use Rattle.pc_tasks.specs.Drawn.{arrows_deck};
ghost use Rattle.pc_tasks.specs.Known.{CanBeDrawn};
ghost use Rattle.pc_tasks.specs.Refusal.{HasSoundTasks};
ghost use Rattle.pc_tasks.specs.Text.{KeepsTasks};
ghost use Rattle.pc_tasks.specs.Lists.{afters_in, task_pieces, task_terms};

use crate::network::{arrows_are_sound, arrows_keep_least_costs, arrows_keep_schedules};

/// States that the generated deck has the arrows of the tasks: their network, their durations and costs, and the pieces
/// of their costs.
pub fn drawn_deck_has_the_arrows()
    ensures network { (deck : Deck) → CanBeDrawn deck →
        network_of (arrows_deck deck) ≡ arrows (length (task_terms deck)) (afters_in deck) }
    ensures terms { (deck : Deck) → terms_in (arrows_deck deck) ≡ arrow_terms (task_terms deck) (afters_in deck) }
    ensures pieces { (deck : Deck) → CanBeDrawn deck → pieces_in (arrows_deck deck) ≡ task_pieces deck }
{}

/// States that the generated deck is within the limits of a plan.
pub fn drawn_deck_is_within_limits()
    ensures { (deck : Deck) → IsWithin Tasks deck → CanBeDrawn deck → IsWithinLimits (arrows_deck deck) }
{}

/// States that the deck generated from tasks without faults is a sound plan: none of its cards has a fault by itself,
/// its items are a tree, and its network is sound.
///
/// So it has none of the faults F13 to F27 and F41, and its project keeps the schedules of the tasks and their least
/// costs.
pub fn drawn_deck_is_sound()
    ensures sound { (deck : Deck) → IsWithin Tasks deck → HasSoundTasks deck → HasSoundPlan (arrows_deck deck) }
    ensures keeps { (deck : Deck) (project : Project) → IsWithin Tasks deck → HasSoundTasks deck →
        IsProjectOfDeck (arrows_deck deck) project → KeepsTasks deck project }
{
    arrows_are_sound();
    drawn_deck_keeps_least_costs();
}

/// States that if no tasks wait for each other in a circle, then for every length there is a schedule of the tasks
/// exactly if there is one of the generated deck, with the same least cost.
pub fn drawn_deck_keeps_least_costs()
    ensures schedules { (deck : Deck) (limit : ℕ) → CanBeDrawn deck → HasNoTaskCycle (afters_in deck) →
        (HasTaskSchedule (task_terms deck) (afters_in deck) limit
        ↔ HasSchedule (network_of (arrows_deck deck)) (terms_in (arrows_deck deck)) limit) }
    ensures costs { (deck : Deck) (limit cost : ℕ) → CanBeDrawn deck → HasNoTaskCycle (afters_in deck) →
        (IsLeastTaskCost (task_terms deck) (knees_of (task_terms deck) (task_pieces deck)) (afters_in deck) limit cost
        ↔ IsLeastCost (network_of (arrows_deck deck)) (terms_in (arrows_deck deck))
        (knees_of (terms_in (arrows_deck deck)) (pieces_in (arrows_deck deck))) limit cost) }
{
    arrows_keep_schedules();
    arrows_keep_least_costs();
}
