//! Tasks that come after one another, and the network of arrows that is generated from them.
//!
//! Nothing is lost by it: for every length there is a schedule of the tasks exactly if there is one of the arrows, at
//! the same costs.
ghost use Rattle.std.specs.Prelude.{◌≡◌, ◌<◌, ℕ, List, length, All};
ghost use Rattle.pc_model.specs.declared.PieceRow.{PieceRow};
ghost use Rattle.pc_model.specs.declared.Term.{Term};
ghost use Rattle.pc_model.specs.Network.{IsInRange, IsSound};
ghost use Rattle.pc_model.specs.Walk.{IsCycle};
ghost use Rattle.pc_model.specs.Schedule.{HasSchedule};
ghost use Rattle.pc_model.specs.Cost.{IsLeastCost};
ghost use Rattle.pc_model.specs.Pieces.{knees_of};
ghost use Rattle.pc_project.specs.declared.placed.AfterRow.{AfterRow};
ghost use Rattle.pc_tasks.specs.network.Tasks.{AreAmong, HasTaskSchedule, IsLeastTaskCost};
ghost use Rattle.pc_tasks.specs.network.Arrows.{arrows, arrow_terms, tasks_of, wide_arrows};
ghost use Rattle.pc_tasks.specs.network.Cycles.{HasNoTaskCycle, IsFirstTaskCycle, IsTaskCycle};
ghost use Rattle.pc_net.specs.Cycles.{IsFirstCycle};
ghost use Rattle.pc_net.specs.Firmness.{IsFirm};

/// States that the arrows of tasks that do not wait for each other in a circle are a sound network.
pub fn arrows_are_sound()
    ensures range { (n : ℕ) (afters : List AfterRow) → AreAmong n afters → IsInRange (arrows n afters) }
    ensures sound { (n : ℕ) (afters : List AfterRow) → AreAmong n afters → 0 < n →
        HasNoTaskCycle afters → IsSound (arrows n afters) }
{}

/// States that the wide arrows of tasks have no loose end, and a cycle exactly if the tasks have one: the first cycle
/// of the arrows passes the first cycle of the tasks.
pub fn wide_arrows_have_the_cycles()
    ensures range { (n : ℕ) (afters : List AfterRow) → AreAmong n afters → IsInRange (wide_arrows n afters) }
    ensures firm { (n : ℕ) (afters : List AfterRow) → AreAmong n afters → 0 < n → IsFirm (wide_arrows n afters) }
    ensures first { (n : ℕ) (afters : List AfterRow) (walk : List ℕ) → AreAmong n afters →
        IsFirstCycle (wide_arrows n afters).arcs walk → IsFirstTaskCycle afters (tasks_of n walk) }
    ensures drawn { (n : ℕ) (afters : List AfterRow) (tasks : List ℕ) → AreAmong n afters → IsTaskCycle afters tasks →
        (walk : List ℕ) × IsCycle (wide_arrows n afters).arcs walk × (tasks_of n walk ≡ tasks) }
{}

/// States that if no tasks wait for each other in a circle, then for every length there is a schedule of the tasks
/// exactly if there is one of their arrows.
pub fn arrows_keep_schedules()
    ensures drawn { (terms : List Term) (afters : List AfterRow) (limit : ℕ) → AreAmong (length terms) afters →
        HasTaskSchedule terms afters limit →
        HasSchedule (arrows (length terms) afters) (arrow_terms terms afters) limit }
    ensures read { (terms : List Term) (afters : List AfterRow) (limit : ℕ) → AreAmong (length terms) afters →
        HasNoTaskCycle afters →
        HasSchedule (arrows (length terms) afters) (arrow_terms terms afters) limit →
        HasTaskSchedule terms afters limit }
{}

/// States that the least cost of the tasks is then that of their arrows.
pub fn arrows_keep_least_costs()
    ensures drawn { (terms : List Term) (pieces : List PieceRow) (afters : List AfterRow) (limit cost : ℕ) →
        AreAmong (length terms) afters →
        All (λ piece. piece.activity < length terms) pieces → HasNoTaskCycle afters →
        IsLeastTaskCost terms (knees_of terms pieces) afters limit cost →
        IsLeastCost (arrows (length terms) afters) (arrow_terms terms afters)
        (knees_of (arrow_terms terms afters) pieces) limit cost }
    ensures read { (terms : List Term) (pieces : List PieceRow) (afters : List AfterRow) (limit cost : ℕ) →
        AreAmong (length terms) afters →
        All (λ piece. piece.activity < length terms) pieces → HasNoTaskCycle afters →
        IsLeastCost (arrows (length terms) afters) (arrow_terms terms afters)
        (knees_of (arrow_terms terms afters) pieces) limit cost →
        IsLeastTaskCost terms (knees_of terms pieces) afters limit cost }
{}
