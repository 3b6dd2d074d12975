//! The slots of an entry's methods.
ghost use Rattle.std.specs.Prelude.{◌≡◌, List, ℕ, ◌≤◌, drop};
ghost use Rattle.std.proofs.Math.Option.{Option};
ghost use Rattle.number.specs.Limits.{file_limit};
ghost use Rattle.reader.specs.Values.{Entry};
ghost use Rattle.reader.specs.Layout.{LaidOut, Lies};
ghost use Rattle.lookup.specs.Chain.{of_parent, chain_of};
ghost use Rattle.lookup.specs.Method.{slot_of};
ghost use Rattle.lookup.specs.Question.{slot_as, slot_number};
ghost use Rattle.lines.specs.Cursor.{ParentAt};

use lookup::Slot;
use reader::Layout;

/// The slot of the first method of an entry whose parent has the index `up`, 0 for none: the methods of all its ancestors.
pub fn slot_base(file: &[u8], pool: &[u8], l: Layout, up: usize) -> Slot
    requires { Lies file.now l × ((pool.now ≡ drop l.pool file.now) × (up ≤ l.count)) }
    ensures { ((es : List (Entry ℕ)) → LaidOut file.now l es → (p : Option ℕ) → ParentAt l.count up p → result ≡ slot_as (slot_of (of_parent (chain_of es) p) 0)) × (slot_number result ≤ file_limit) }
{
    lookup::chains::slot_base(file, pool, l, up)
}
