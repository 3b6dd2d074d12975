//! The chains of an accepted file: an interface itself, then its parents upward.
ghost use Rattle.std.specs.Prelude.{◌≤◌};
ghost use Rattle.number.specs.Limits.{file_limit};
ghost use Rattle.reader.specs.Layout.{Lies};
ghost use Rattle.lookup.specs.Chain.{chain_above};
ghost use Rattle.lookup.specs.Method.{slot_of};
ghost use Rattle.lookup.specs.Question.{slot_as, slot_number};
ghost use Rattle.lookup.specs.Holding.{Answers, PoolOf};

use crate::Slot;
use reader::Layout;

/// The slot of the first method of an interface whose parent has the index i, 0 being none: the methods of all its ancestors.
pub fn slot_base(file: &[u8], pool: &[u8], l: Layout, i: usize) -> Slot
    requires { Lies file.now l × PoolOf file.now l pool.now × (i ≤ l.count) }
    ensures { Answers file.now l (λ es. slot_as (slot_of (chain_above es i) 0)) result × (slot_number result ≤ file_limit) }
{
    // A chain ends at the index 0, and `left` only bounds it: a `for` would have to test for the end twice.
    let mut left = l.count;
    let mut methods: usize = 0;
    let mut j = i;
    while j != 0 {
        if left == 0 {
            return Slot::Undetermined(j);
        }
        let q = reader::entry::descriptor_pointer(file, l, j - 1);
        if q == 0 {
            return Slot::Undetermined(j);
        }
        let at = q - 1;
        methods += reader::record::method_count(pool, at);
        j = reader::record::parent_index(pool, at);
        left -= 1;
    }
    Slot::Known(methods)
}
