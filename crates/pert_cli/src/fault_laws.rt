//! Laws of faults: functions that change nothing, whose contract is the law.
ghost use Rattle.std.specs.Prelude.{◌≡◌, ◌≢◌, ℕ, List};
ghost use Rattle.pc_cards.specs.declared.sort.Sort.{Sort as TheSort};
ghost use Rattle.pc_faults.specs.declared.fault.Fault.{Fault};
ghost use Rattle.pert_cli.specs.Verdicts.{IsFaultAs};

use pc_tasks::laws::drawn_deck_is_sound;

/// Shows that the bytes of a refused deck fix the record, the number and the detail of its fault.
///
/// The exceptions are the details of F27 and F38: each names one cycle through the first activity or task that is on
/// any cycle, and there may be several.
pub fn one_fault()
    ensures place { (sort : TheSort) (bytes : List ℕ) (fault other : Fault) → IsFaultAs sort bytes fault →
        IsFaultAs sort bytes other → (fault.row ≡ other.row) × (fault.number ≡ other.number) }
    ensures detail { (sort : TheSort) (bytes : List ℕ) (fault other : Fault) → IsFaultAs sort bytes fault →
        IsFaultAs sort bytes other → fault.number ≢ 27 → fault.number ≢ 38 → fault ≡ other }
{
    drawn_deck_is_sound();
}
