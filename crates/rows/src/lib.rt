//! Tables filled from files: the rows of a file's entries stand from `from` on.
#![tactic(auto)]

ghost use Rattle.std.specs.Prelude.{◌≡◌, List, ℕ, ◌+◌, ◌≤◌, ◌<◌, length};
ghost use Rattle.number.specs.Limits.{row_limit, last_row};
ghost use Rattle.key.specs.First.{Filled, Past};
ghost use Rattle.reader.specs.Values.{Entry, above_in};
ghost use Rattle.reader.specs.Layout.{LaidOut, Lies};
ghost use Rattle.rows.specs.Rows.{above_row};
ghost use Rattle.iids.specs.Cells.{AtMost};
ghost use Rattle.rows.specs.Notes.{Noted, NameOf, SpaceOf, OwnOf, HighOf, LowOf, up_row};

use iids::index;
use number::ROW_LIMIT;
use reader::Layout;

// The pool pointer of the name of entry i.
fn name_of(file: &[u8], l: Layout, i: usize) -> u32
    requires { Lies file.now l × (i < l.count) }
    ensures { NameOf file.now l i result }
{
    reader::entry::name_pointer(file, l, i) as u32
}

// The pool pointer of its namespace, 0 for the default.
fn space_of(file: &[u8], l: Layout, i: usize) -> u32
    requires { Lies file.now l × (i < l.count) }
    ensures { SpaceOf file.now l i result }
{
    reader::entry::space_pointer(file, l, i) as u32
}

// The pool pointer of its descriptor, 0 where it is unresolved.
fn own_of(file: &[u8], l: Layout, i: usize) -> u32
    requires { Lies file.now l × (i < l.count) }
    ensures { OwnOf file.now l i result }
{
    reader::entry::descriptor_pointer(file, l, i) as u32
}

/// The pool pointers of the keys of a file's entries.
pub fn note_pointers(
    file: &[u8],
    l: Layout,
    from: usize,
    spaces: &mut [u32; ROW_LIMIT],
    names: &mut [u32; ROW_LIMIT],
)
    requires { Lies file.now l × (from + l.count ≤ row_limit) × (row_limit ≡ length spaces.old) × (row_limit ≡ length names.old) }
    ensures { Noted (SpaceOf file.now l) spaces.old spaces.new from l.count × Noted (NameOf file.now l) names.old names.new from l.count }
{
    let count = l.count;
    for i in 0..count {
        spaces[from + i] = space_of(file, l, i);
        names[from + i] = name_of(file, l, i);
    }
}

/// The pool pointers of their descriptors.
pub fn note_own(file: &[u8], l: Layout, from: usize, own: &mut [u32; ROW_LIMIT])
    requires { Lies file.now l × (from + l.count ≤ row_limit) × (row_limit ≡ length own.old) }
    ensures { Noted (OwnOf file.now l) own.old own.new from l.count }
{
    let count = l.count;
    for i in 0..count {
        own[from + i] = own_of(file, l, i);
    }
}

// The high eight bytes of the IID of entry i.
fn high_of(file: &[u8], l: Layout, i: usize) -> u64
    requires { Lies file.now l × (i < l.count) }
    ensures { HighOf file.now l i result }
{
    let at = reader::entry::iid_place(file, l, i);
    number::u64_at(file, at)
}

// The low eight.
fn low_of(file: &[u8], l: Layout, i: usize) -> u64
    requires { Lies file.now l × (i < l.count) }
    ensures { LowOf file.now l i result }
{
    let at = reader::entry::iid_place(file, l, i);
    number::u64_at(file, at + 8)
}

/// Their IIDs.
pub fn note_iids(
    file: &[u8],
    l: Layout,
    from: usize,
    high: &mut [u64; ROW_LIMIT],
    low: &mut [u64; ROW_LIMIT],
)
    requires { Lies file.now l × (from + l.count ≤ row_limit) × (row_limit ≡ length high.old) × (row_limit ≡ length low.old) }
    ensures { Noted (HighOf file.now l) high.old high.new from l.count × Noted (LowOf file.now l) low.old low.new from l.count }
{
    let count = l.count;
    for i in 0..count {
        high[from + i] = high_of(file, l, i);
        low[from + i] = low_of(file, l, i);
    }
}

// The parent's index of entry i, 0 where it has none.
fn above_in(file: &[u8], l: Layout, i: usize) -> usize
    requires { Lies file.now l × (i < l.count) }
    ensures { (es : List (Entry ℕ)) → LaidOut file.now l es → result ≡ above_in es i }
{
    let q = reader::entry::descriptor_pointer(file, l, i);
    if q == 0 {
        return 0;
    }
    let pool = l.pool;
    reader::record::parent_index(&file[pool..], q - 1)
}

// The row above row i of two files by its own descriptor, and 1; 0 where there is none.
fn above_row(first: &[u8], l: Layout, second: &[u8], k: Layout, i: usize) -> usize
    requires { Lies first.now l × Lies second.now k × (i < l.count + k.count) }
    ensures { (es fs : List (Entry ℕ)) → LaidOut first.now l es → LaidOut second.now k fs → result ≡ above_row es fs i }
{
    let n = l.count;
    if i < n {
        return above_in(first, l, i);
    }
    let r = above_in(second, k, i - n);
    if r == 0 {
        return 0;
    }
    n + r
}

// The row above row i by the descriptor that it and its mate have, and 1: the first of its key.
fn up_of(
    first: &[u8],
    l: Layout,
    second: &[u8],
    k: Layout,
    firsts: &[u16; ROW_LIMIT],
    holders: &[u16; ROW_LIMIT],
    i: usize,
) -> u16
    requires { Lies first.now l × Lies second.now k × (i < l.count + k.count) × (row_limit ≡ length firsts.now) × (row_limit ≡ length holders.now) × AtMost firsts.now (l.count + k.count) last_row × AtMost holders.now (l.count + k.count) (l.count + k.count) }
    ensures { (es fs : List (Entry ℕ)) → LaidOut first.now l es → LaidOut second.now k fs → result ≡ up_row firsts.now holders.now es fs i }
{
    let h = index(holders[i]);
    if h == 0 {
        return 0;
    }
    let j = above_row(first, l, second, k, h - 1);
    if j == 0 {
        return 0;
    }
    firsts[j - 1] + 1
}

/// The same of every row.
pub fn note_up(
    first: &[u8],
    l: Layout,
    second: &[u8],
    k: Layout,
    firsts: &[u16; ROW_LIMIT],
    holders: &[u16; ROW_LIMIT],
    up: &mut [u16; ROW_LIMIT],
)
    requires { Lies first.now l × Lies second.now k × (row_limit ≡ length firsts.now) × (row_limit ≡ length holders.now) × (row_limit ≡ length up.old) × AtMost firsts.now (l.count + k.count) last_row × AtMost holders.now (l.count + k.count) (l.count + k.count) }
    ensures { ((es fs : List (Entry ℕ)) → LaidOut first.now l es → LaidOut second.now k fs → Filled up.new (l.count + k.count) (up_row firsts.now holders.now es fs)) × (row_limit ≡ length up.new) × Past (l.count + k.count) up.old up.new }
{
    let n = l.count;
    let m = k.count;
    for i in 0..n + m {
        up[i] = up_of(first, l, second, k, firsts, holders, i);
    }
}
