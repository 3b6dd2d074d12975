//! The slot of a method some positions on.
ghost use Rattle.std.specs.Prelude.{◌≡◌, ℕ, ◌+◌, ◌≤◌};
ghost use Rattle.lookup.specs.Chain.{Chain};
ghost use Rattle.lookup.specs.Method.{slot_of};
ghost use Rattle.lookup.specs.Question.{slot_as, slot_number};

use lookup::Slot;

/// The slot k positions after this one.
pub fn slot_after(slot: Slot, k: usize) -> Slot
    requires { slot_number slot + k ≤ 1049600 }
    ensures { ((above : Chain ℕ) (p : ℕ) → slot ≡ slot_as (slot_of above p) → result ≡ slot_as (slot_of above (p + k))) × (slot_number result ≤ slot_number slot + k) }
{
    match slot {
        Slot::Known(s) => Slot::Known(s + k),
        Slot::Undetermined(r) => Slot::Undetermined(r),
    }
}
