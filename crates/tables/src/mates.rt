//! Rows of the two files that have one key, and which of them has what g tells.
ghost use Rattle.std.specs.Prelude.{◌≡◌, ℕ, ◌+◌, ◌≤◌, ◌<◌, length};
ghost use Rattle.number.specs.Limits.{entry_limit, row_limit};
ghost use Rattle.key.specs.Key.{Key};
ghost use Rattle.key.specs.First.{first_same, Filled, Past};
ghost use Rattle.iids.specs.Joined.{holder};
ghost use Rattle.iids.specs.Cells.{cell, AtMost};
ghost use Rattle.tables.specs.Tables.{Mates, TwoFiles};
ghost use Rattle.tables.specs.Cells.{nothing, mate_noted};

use iids::index;
use number::{ENTRY_LIMIT, ROW_LIMIT};

// Row j of the second file into the table of mates, where the first file has its key.
fn note_mate(first: &[u16; ROW_LIMIT], n: usize, j: usize, mates: &mut [u16; ENTRY_LIMIT])
    requires { (n ≤ entry_limit) × (j < row_limit) × (row_limit ≡ length first.now) × (entry_limit ≡ length mates.old) }
    ensures { mates.new ≡ mate_noted n (cell first.now j) j mates.old }
{
    let k = index(first[j]);
    if k < n {
        mates[k] = (j + 1) as u16;
    }
}

/// The mates of the first file's rows, from the first row of each key.
pub fn note_mates(first: &[u16; ROW_LIMIT], n: usize, total: usize, mates: &mut [u16; ENTRY_LIMIT])
    requires { (n ≤ entry_limit) × (n ≤ total) × (total ≤ row_limit) × (row_limit ≡ length first.now) × (entry_limit ≡ length mates.old) × Filled mates.old n nothing }
    ensures { ((K : ℕ → Key) → Filled first.now total (first_same K) → TwoFiles K n total → Mates K n total (cell mates.new)) × (entry_limit ≡ length mates.new) × Past n mates.old mates.new }
{
    for j in n..total {
        note_mate(first, n, j, mates);
    }
}

// The row of i and its mate that has something, and 1; 0 where neither has.
fn holder_of(own: &[u32; ROW_LIMIT], mates: &[u16; ENTRY_LIMIT], n: usize, i: usize) -> u16
    requires { (n ≤ entry_limit) × (i < row_limit) × (row_limit ≡ length own.now) × (entry_limit ≡ length mates.now) × AtMost mates.now n row_limit }
    ensures { result ≡ holder (cell own.now) (cell mates.now) n i }
{
    if own[i] != 0 {
        return (i + 1) as u16;
    }
    if n <= i {
        return 0;
    }
    let k = mates[i];
    if k == 0 {
        return 0;
    }
    if own[index(k) - 1] != 0 {
        return k;
    }
    0
}

/// The same of every row.
pub fn note_holders(
    own: &[u32; ROW_LIMIT],
    mates: &[u16; ENTRY_LIMIT],
    n: usize,
    total: usize,
    holders: &mut [u16; ROW_LIMIT],
)
    requires { (n ≤ entry_limit) × (total ≤ row_limit) × (row_limit ≡ length own.now) × (entry_limit ≡ length mates.now) × AtMost mates.now n row_limit × (row_limit ≡ length holders.old) }
    ensures { Filled holders.new total (holder (cell own.now) (cell mates.now) n) × (row_limit ≡ length holders.new) × Past total holders.old holders.new }
{
    for i in 0..total {
        holders[i] = holder_of(own, mates, n, i);
    }
}
