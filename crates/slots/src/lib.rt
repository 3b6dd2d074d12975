//! The table of an interface, made line by line: from the highest interface known down to the asked one.
#![tactic(auto)]

mod levels;
mod line;
pub mod moving;

ghost use Rattle.std.specs.Prelude.{◌≡◌, false, List, ℕ, ◌≤◌, ◌<◌};
ghost use Rattle.reader.specs.Layout.{Lies};
ghost use Rattle.lookup.specs.Holding.{PoolOf};
ghost use Rattle.text.specs.Writing.{Room};
ghost use Rattle.printed.specs.Writing.{line_room};
ghost use Rattle.slots.specs.Cursor.{RowsLeft, no_rows, row_turns, Stepped, Begins};

use lookup::Slot;
use reader::Layout;

/// Where the table of the asked interface goes on: the owner's methods that are left, the place of the next in the pool and its slot; and how many
/// interfaces come after the owner, which are the first of the asked one's chain.
#[derive(Clone, Copy, Debug, PartialEq, Eq)]
pub struct TableAt {
    pub asked: usize,
    pub steps: usize,
    pub owner: usize,
    pub left: usize,
    pub at: usize,
    pub slot: Slot,
}

/// The place after what was written, and where the table goes on.
#[derive(Clone, Copy, Debug, PartialEq, Eq)]
pub struct Piece {
    pub at: usize,
    pub table: TableAt,
}

/// Whether nothing is left.
pub fn is_over(t: TableAt) -> bool
    ensures { result ≡ no_rows t }
{
    if t.left == 0 {
        return t.steps == 0;
    }
    false
}

// The interface that comes next, after the last method of an owner.
fn next_level(file: &[u8], pool: &[u8], l: Layout, t: TableAt) -> TableAt
    requires { ((text : List ℕ) × RowsLeft file.now l t text) × PoolOf file.now l pool.now × (t.left ≡ 0) × (1 ≤ t.steps) }
    ensures { ((text : List ℕ) → RowsLeft file.now l t text → RowsLeft file.now l result text) × (row_turns result < row_turns t) }
{
    let asked = t.asked;
    let steps = t.steps - 1;
    let owner = levels::ancestor(file, pool, l, asked, steps);
    let d = reader::entry::descriptor_pointer(file, l, owner - 1);
    let up = reader::record::parent_index(pool, d - 1);
    let left = reader::record::method_count(pool, d - 1);
    TableAt {
        asked,
        steps,
        owner,
        left,
        at: d + 3,
        slot: lookup::chains::slot_base(file, pool, l, up),
    }
}

// The line of the next method, of which one at least is left.
fn put_next(file: &[u8], pool: &[u8], l: Layout, t: TableAt, out: &mut [u8], at: usize) -> Piece
    requires { ((text : List ℕ) × RowsLeft file.now l t text) × PoolOf file.now l pool.now × (1 ≤ t.left) × Room out.old at line_room }
    ensures { Stepped file.now l t out.old at result out.new }
{
    let asked = t.asked;
    let steps = t.steps;
    let owner = t.owner;
    let left = t.left;
    let from = t.at;
    let slot = t.slot;
    let next = line::put_row(file, pool, l, owner, from, slot, out, at);
    let end = reader::record::method_end(pool, from);
    let after = moving::slot_after(slot, 1);
    Piece {
        at: next,
        table: TableAt {
            asked,
            steps,
            owner,
            left: left - 1,
            at: end,
            slot: after,
        },
    }
}

/// What comes next, at most one line of it, where something is left.
pub fn put_piece(
    file: &[u8],
    pool: &[u8],
    l: Layout,
    t: TableAt,
    out: &mut [u8],
    at: usize,
) -> Piece
    requires { ((text : List ℕ) × RowsLeft file.now l t text) × PoolOf file.now l pool.now × (no_rows t ≡ false) × Room out.old at line_room }
    ensures { Stepped file.now l t out.old at result out.new }
{
    if t.left == 0 {
        return Piece {
            at,
            table: next_level(file, pool, l, t),
        };
    }
    put_next(file, pool, l, t, out, at)
}

// The same, the pool being lent beside the file.
fn begin_at(file: &[u8], pool: &[u8], l: Layout, index: usize) -> TableAt
    requires { Lies file.now l × PoolOf file.now l pool.now × (1 ≤ index) × (index ≤ l.count) }
    ensures { Begins file.now l index result }
{
    TableAt {
        asked: index,
        steps: levels::depth(file, pool, l, index),
        owner: index,
        left: 0,
        at: 0,
        slot: lookup::chains::slot_base(file, pool, l, index),
    }
}

/// Where the table of the interface of an index starts, after its first line; with the total of its slots.
pub fn begin(file: &[u8], l: Layout, index: usize) -> TableAt
    requires { Lies file.now l × (1 ≤ index) × (index ≤ l.count) }
    ensures { Begins file.now l index result }
{
    let pool = l.pool;
    begin_at(file, &file[pool..], l, index)
}
