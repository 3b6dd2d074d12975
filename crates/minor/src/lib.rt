//! The minor that a view of two files needs.
#![tactic(auto)]

ghost use Rattle.std.specs.Prelude.{◌≡◌, ℕ, ◌+◌, ◌≤◌, ◌<◌, length};
ghost use Rattle.number.specs.Limits.{row_limit};
ghost use Rattle.reader.specs.Values.{descriptor_in};
ghost use Rattle.meaning.specs.Normal.Minor.{new_own, minor_of};
ghost use Rattle.iids.specs.Cells.{cell};
ghost use Rattle.rows.specs.Files.{Holds, HoldBoth, Given, Gives};
ghost use Rattle.gather.specs.View.{row_own, view_entries, Viewed};

use iids::index;
use newer::descriptor_newer;
use number::ROW_LIMIT;
use reader::{Layout, STRINGS_MINOR};

// Where a file has its minor.
const MINOR_AT: usize = 17;

// Whether the descriptor of entry i has one of the tags 23 to 25. In a file of an older minor there are none, so it is not walked.
fn held_newer(file: &[u8], pool: &[u8], l: Layout, i: usize) -> bool
    requires { Given (Holds file.now pool.now l) × (i < l.count) }
    ensures { Gives (Holds file.now pool.now l) (λ es. new_own (descriptor_in es i)) result }
{
    if file[MINOR_AT] < STRINGS_MINOR {
        return false;
    }
    let at = reader::entry::descriptor_pointer(file, l, i);
    if at == 0 {
        return false;
    }
    descriptor_newer(pool, at - 1)
}

// Whether that of the row that h tells, counted from 1, has one.
fn row_newer(a: &[u8], pool: &[u8], l: Layout, b: &[u8], pool2: &[u8], l2: Layout, h: usize) -> bool
    requires { Given (HoldBoth a.now pool.now l b.now pool2.now l2) × (h ≤ l.count + l2.count) }
    ensures { Gives (HoldBoth a.now pool.now l b.now pool2.now l2) (λ x. new_own (row_own x h)) result }
{
    if h == 0 {
        return false;
    }
    let i = h - 1;
    let n = l.count;
    if i < n {
        return held_newer(a, pool, l, i);
    }
    held_newer(b, pool2, l2, i - n)
}

/// The minor of the file of the first c rows of t, of which `holders` tells whose descriptors they have.
pub fn view_minor(
    a: &[u8],
    pool: &[u8],
    l: Layout,
    b: &[u8],
    pool2: &[u8],
    l2: Layout,
    t: &[u16; ROW_LIMIT],
    holders: &[u16; ROW_LIMIT],
    c: usize,
) -> u8
    requires { Given (HoldBoth a.now pool.now l b.now pool2.now l2) × Viewed (l.count + l2.count) t.now holders.now c × (row_limit ≡ length t.now) × (row_limit ≡ length holders.now) }
    ensures { (iid : ℕ → ℕ) → Gives (HoldBoth a.now pool.now l b.now pool2.now l2) (λ x. minor_of (view_entries x iid (cell holders.now) t.now c)) result }
{
    for q in 0..c {
        let r = index(t[q]);
        if row_newer(a, pool, l, b, pool2, l2, index(holders[r])) {
            return STRINGS_MINOR;
        }
    }
    1
}
