//! Where the names, namespaces and descriptors of a view's rows lie. The files are s and t, and their layouts l and k.
ghost use Rattle.std.specs.Prelude.{◌≡◌, ℕ, ◌+◌, length, drop};
ghost use Rattle.number.specs.Limits.{row_limit};
ghost use Rattle.iids.specs.Cells.{cell};
ghost use Rattle.rows.specs.Files.{Pair, Given, HoldBoth};
ghost use Rattle.gather.specs.View.{Viewed, view_entries};
ghost use Rattle.gather.specs.Leading.{Leading};

use gather::{lead_bodies, lead_rows};
use number::ROW_LIMIT;
use reader::Layout;
use rows::{note_own, note_pointers};

/// Of the first c rows of `order`, of which `holders` tells whose descriptors they have.
pub fn lead_view(
    s: &[u8],
    l: Layout,
    t: &[u8],
    k: Layout,
    order: &[u16; ROW_LIMIT],
    holders: &[u16; ROW_LIMIT],
    c: usize,
    names: &mut [u32; ROW_LIMIT],
    spaces: &mut [u32; ROW_LIMIT],
    bodies: &mut [u32; ROW_LIMIT],
)
    requires { Given (HoldBoth s.now (drop l.pool s.now) l t.now (drop k.pool t.now) k) × (Viewed (l.count + k.count) order.now holders.now c × ((row_limit ≡ length order.now) × ((row_limit ≡ length holders.now) × ((row_limit ≡ length names.old) × ((row_limit ≡ length spaces.old) × (row_limit ≡ length bodies.old)))))) }
    ensures { ((x : Pair) (iid : ℕ → ℕ) → HoldBoth s.now (drop l.pool s.now) l t.now (drop k.pool t.now) k x → Leading (drop l.pool s.now) (drop k.pool t.now) l.count names.new spaces.new bodies.new (view_entries x iid (cell holders.now) order.now c) c) × ((row_limit ≡ length names.new) × ((row_limit ≡ length spaces.new) × (row_limit ≡ length bodies.new))) }
{
    let mut at_space = [0u32; ROW_LIMIT];
    let mut at_name = [0u32; ROW_LIMIT];
    let mut own = [0u32; ROW_LIMIT];
    let n = l.count;
    note_pointers(s, l, 0, &mut at_space, &mut at_name);
    note_pointers(t, k, n, &mut at_space, &mut at_name);
    note_own(s, l, 0, &mut own);
    note_own(t, k, n, &mut own);
    lead_rows(&at_name, n, order, c, names);
    lead_rows(&at_space, n, order, c, spaces);
    lead_bodies(&own, n, order, holders, c, bodies);
}
