//! Chains of rows in a table of the row above each, counted from 1, with 0 for none. Each row is climbed from once: a height that is known is not counted again.
#![tactic(auto)]

ghost use Rattle.std.specs.Prelude.{◌≡◌, ◌+◌, ◌≤◌, ◌<◌, length};
ghost use Rattle.number.specs.Limits.{row_limit};
ghost use Rattle.number.specs.Scan.{scan};
ghost use Rattle.heights.specs.Climb.{goes_on, row_above, Height, Within, Noted, Climbed};

use number::ROW_LIMIT;

/// The height of row i, where k steps suffice.
fn climb(
    up: &[u16; ROW_LIMIT],
    heights: &[u16; ROW_LIMIT],
    total: usize,
    k: usize,
    i: usize,
) -> usize
    requires { (i < total) × (total ≤ row_limit) × (k ≤ row_limit + 1) × (row_limit ≡ length up.now) × (row_limit ≡ length heights.now) × Within up.now total × Noted up.now heights.now }
    ensures { Climbed (row_above up.now) k i result }
{
    let mut steps: usize = 0;
    let mut j = i + 1;
    // A chain of rows, whose length is what is looked for.
    while j != 0 {
        let h = usize::from(heights[j - 1]);
        if h != 0 {
            return steps + h;
        }
        if steps == k {
            return k + 1;
        }
        j = usize::from(up[j - 1]);
        steps += 1;
    }
    steps
}

/// The heights of row i and of those above it, where row i has height h.
fn note(up: &[u16; ROW_LIMIT], heights: &mut [u16; ROW_LIMIT], total: usize, i: usize, h: usize)
    requires { (i < total) × (total ≤ row_limit) × (h ≤ row_limit + 1) × (row_limit ≡ length up.now) × (row_limit ≡ length heights.old) × Within up.now total × Noted up.now heights.old × Height (row_above up.now) (i + 1) h }
    ensures { (row_limit ≡ length heights.new) × Noted up.now heights.new }
{
    let mut left = h;
    let mut j = i + 1;
    // Two numbers move at once, one along the chain.
    while left != 0 {
        if usize::from(heights[j - 1]) != 0 {
            return;
        }
        heights[j - 1] = left as u16;
        j = usize::from(up[j - 1]);
        left -= 1;
    }
}

/// The same as below, with room for the heights.
fn first_of(
    up: &[u16; ROW_LIMIT],
    heights: &mut [u16; ROW_LIMIT],
    n: usize,
    total: usize,
    k: usize,
) -> usize
    requires { (n ≤ total) × (total ≤ row_limit) × (k ≤ row_limit + 1) × (row_limit ≡ length up.now) × (row_limit ≡ length heights.old) × Within up.now total × Noted up.now heights.old }
    ensures { result ≡ scan (goes_on (row_above up.now) k) n 0 }
{
    for i in 0..n {
        let h = climb(up, heights, total, k, i);
        if k < h {
            return i;
        }
        note(up, heights, total, i, h);
    }
    n
}

/// The lowest of the first n rows whose chain does not end within k steps, or n.
pub fn first_unending(up: &[u16; ROW_LIMIT], n: usize, total: usize, k: usize) -> usize
    requires { (n ≤ total) × (total ≤ row_limit) × (k ≤ row_limit + 1) × (row_limit ≡ length up.now) × Within up.now total }
    ensures { result ≡ scan (goes_on (row_above up.now) k) n 0 }
{
    let mut heights = [0u16; ROW_LIMIT];
    first_of(up, &mut heights, n, total, k)
}
