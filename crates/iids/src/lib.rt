//! Numbers of sixteen bytes, by rows: IIDs. A table has the high eight bytes of each, another the low eight.
#![tactic(auto)]

ghost use Rattle.std.specs.Prelude.{◌≡◌, ℕ, ◌≤◌, ◌<◌, length, get_or};
ghost use Rattle.number.specs.Limits.{entry_limit, row_limit};
ghost use Rattle.number.specs.Choice.{◌=?◌, ◌≤?◌};
ghost use Rattle.number.specs.Scan.{scan, some};
ghost use Rattle.key.specs.First.{Filled, Past};
ghost use Rattle.iids.specs.Joined.{joined, two_numbers, shares_row, shared_number};
ghost use Rattle.iids.specs.Cells.{cell, AtMost, Across};
ghost use Rattle.iids.specs.Numbers.{Wide, wide, number_in, number_row};

use number::{ENTRY_LIMIT, ROW_LIMIT};

pub fn index(x: u16) -> usize
    ensures { result ≡ x }
{
    x as usize
}

// Whether the number of a and b is that of c and d.
#[tactic(auto, using(crate::proofs::NumberLaws::pairs))]
fn same_pair(a: u64, b: u64, c: u64, d: u64) -> bool
    ensures { result ≡ (wide a b =? wide c d) }
{
    a == c && b == d
}

// Whether it is at most that.
#[tactic(auto, using(crate::proofs::NumberLaws::pairs))]
fn pair_most(a: u64, b: u64, c: u64, d: u64) -> bool
    ensures { result ≡ (wide a b ≤? wide c d) }
{
    a < c || a == c && b <= d
}

// Whether row i has the number 0.
#[tactic(auto, using(crate::proofs::NumberLaws::pairs), unfolding(crate::specs::Numbers::number_in))]
fn zero_number(high: &[u64; ROW_LIMIT], low: &[u64; ROW_LIMIT], i: usize) -> bool
    requires { (i < row_limit) × (row_limit ≡ length high.now) × (row_limit ≡ length low.now) }
    ensures { result ≡ (number_in high.now low.now i =? 0) }
{
    high[i] == 0 && low[i] == 0
}

// Whether rows i and j have one number.
#[tactic(auto, unfolding(crate::specs::Numbers::number_in))]
fn same_number(high: &[u64; ROW_LIMIT], low: &[u64; ROW_LIMIT], i: usize, j: usize) -> bool
    requires { (i < row_limit) × (j < row_limit) × (row_limit ≡ length high.now) × (row_limit ≡ length low.now) }
    ensures { result ≡ (number_in high.now low.now i =? number_in high.now low.now j) }
{
    same_pair(high[i], low[i], high[j], low[j])
}

/// Whether the number of row i is at most that of row j.
#[tactic(auto, unfolding(crate::specs::Numbers::number_in))]
pub fn at_most(high: &[u64; ROW_LIMIT], low: &[u64; ROW_LIMIT], i: usize, j: usize) -> bool
    requires { (i < row_limit) × (j < row_limit) × (row_limit ≡ length high.now) × (row_limit ≡ length low.now) }
    ensures { result ≡ (number_in high.now low.now i ≤? number_in high.now low.now j) }
{
    pair_most(high[i], low[i], high[j], low[j])
}

// Whether row i and its mate have two nonzero numbers.
#[tactic(auto, using(number::proofs::Choice::tests), unfolding(crate::specs::Joined::two_numbers, crate::specs::Cells::cell))]
fn two_numbers(
    high: &[u64; ROW_LIMIT],
    low: &[u64; ROW_LIMIT],
    mates: &[u16; ENTRY_LIMIT],
    i: usize,
) -> bool
    requires { (i < entry_limit) × (row_limit ≡ length high.now) × (row_limit ≡ length low.now) × (entry_limit ≡ length mates.now) × (get_or mates.now i 0 ≤ row_limit) }
    ensures { result ≡ two_numbers (number_in high.now low.now) (cell mates.now) i }
{
    let k = index(mates[i]);
    k != 0
        && !zero_number(high, low, i)
        && !zero_number(high, low, k - 1)
        && !same_number(high, low, i, k - 1)
}

/// The lowest of the first n rows that has, with its mate, two nonzero numbers, or n.
pub fn first_two_numbers(
    high: &[u64; ROW_LIMIT],
    low: &[u64; ROW_LIMIT],
    mates: &[u16; ENTRY_LIMIT],
    n: usize,
    total: usize,
) -> usize
    requires { (n ≤ entry_limit) × (n ≤ total) × (total ≤ row_limit) × (row_limit ≡ length high.now) × (row_limit ≡ length low.now) × (entry_limit ≡ length mates.now) × AtMost mates.now n total }
    ensures { (g : ℕ → ℕ) → Wide high.now low.now total g → result ≡ scan (two_numbers g (cell mates.now)) n 0 }
{
    for i in 0..n {
        if two_numbers(high, low, mates, i) {
            return i;
        }
    }
    n
}

// The row that has the number which row i and its mate have together.
#[tactic(auto, using(number::proofs::Choice::tests), unfolding(crate::specs::Numbers::number_row, crate::specs::Cells::cell))]
fn number_row(
    high: &[u64; ROW_LIMIT],
    low: &[u64; ROW_LIMIT],
    mates: &[u16; ENTRY_LIMIT],
    i: usize,
) -> usize
    requires { (i < entry_limit) × (row_limit ≡ length high.now) × (row_limit ≡ length low.now) × (entry_limit ≡ length mates.now) }
    ensures { result ≡ number_row (number_in high.now low.now) (cell mates.now) i }
{
    let k = index(mates[i]);
    if k == 0 {
        return i;
    }
    if zero_number(high, low, i) {
        return k - 1;
    }
    i
}

/// To each row the number that it and its mate have together.
pub fn join_numbers(
    mates: &[u16; ENTRY_LIMIT],
    n: usize,
    total: usize,
    high: &mut [u64; ROW_LIMIT],
    low: &mut [u64; ROW_LIMIT],
)
    requires { (n ≤ entry_limit) × (n ≤ total) × (total ≤ row_limit) × (entry_limit ≡ length mates.now) × (row_limit ≡ length high.old) × (row_limit ≡ length low.old) × Across mates.now n total }
    ensures { ((g : ℕ → ℕ) → Wide high.old low.old total g → Wide high.new low.new total (joined g (cell mates.now) n)) × (row_limit ≡ length high.new) × (row_limit ≡ length low.new) × Past n high.old high.new × Past n low.old low.new }
{
    for i in 0..n {
        let r = number_row(high, low, mates, i);
        high[i] = high[r];
        low[i] = low[r];
    }
}

// Whether row r is the first of its key, another than i, and has the number of i.
#[tactic(auto, using(number::proofs::Choice::tests), unfolding(crate::specs::Joined::shares_row, crate::specs::Cells::cell))]
fn shares_row(
    first: &[u16; ROW_LIMIT],
    high: &[u64; ROW_LIMIT],
    low: &[u64; ROW_LIMIT],
    i: usize,
    r: usize,
) -> bool
    requires { (i < row_limit) × (r < row_limit) × (row_limit ≡ length first.now) × (row_limit ≡ length high.now) × (row_limit ≡ length low.now) }
    ensures { result ≡ shares_row (cell first.now) (number_in high.now low.now) i r }
{
    index(first[r]) == r && r != i && same_number(high, low, r, i)
}

// Whether one of the rows does so.
#[tactic(auto, using(number::proofs::Scans::misses))]
fn some_share(
    first: &[u16; ROW_LIMIT],
    high: &[u64; ROW_LIMIT],
    low: &[u64; ROW_LIMIT],
    total: usize,
    i: usize,
) -> bool
    requires { (i < row_limit) × (total ≤ row_limit) × (row_limit ≡ length first.now) × (row_limit ≡ length high.now) × (row_limit ≡ length low.now) }
    ensures { result ≡ some (shares_row (cell first.now) (number_in high.now low.now) i) total }
{
    for r in 0..total {
        if shares_row(first, high, low, i, r) {
            return true;
        }
    }
    false
}

// Whether another key has the nonzero number of row i.
#[tactic(auto, using(number::proofs::Choice::tests), unfolding(crate::specs::Joined::shared_number))]
fn shared_number(
    first: &[u16; ROW_LIMIT],
    high: &[u64; ROW_LIMIT],
    low: &[u64; ROW_LIMIT],
    total: usize,
    i: usize,
) -> bool
    requires { (i < row_limit) × (total ≤ row_limit) × (row_limit ≡ length first.now) × (row_limit ≡ length high.now) × (row_limit ≡ length low.now) }
    ensures { result ≡ shared_number (cell first.now) (number_in high.now low.now) total i }
{
    !zero_number(high, low, i) && some_share(first, high, low, total, i)
}

/// The lowest of the first n rows whose nonzero number another key has, or n.
pub fn first_shared(
    first: &[u16; ROW_LIMIT],
    high: &[u64; ROW_LIMIT],
    low: &[u64; ROW_LIMIT],
    n: usize,
    total: usize,
) -> usize
    requires { (n ≤ total) × (total ≤ row_limit) × (row_limit ≡ length first.now) × (row_limit ≡ length high.now) × (row_limit ≡ length low.now) }
    ensures { (f g : ℕ → ℕ) → Filled first.now total f → Wide high.now low.now total g → result ≡ scan (shared_number f g total) n 0 }
{
    for i in 0..n {
        if shared_number(first, high, low, total, i) {
            return i;
        }
    }
    n
}
