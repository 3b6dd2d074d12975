//! 23: rows whose descriptor means another than that of their mate.
//! The files are s and t, their pools p and q, and their layouts l and k.
ghost use Rattle.std.specs.Prelude.{◌≡◌, true, false, ◌+◌, ◌≤◌, ◌<◌, length, get_or};
ghost use Rattle.number.specs.Limits.{entry_limit, row_limit};
ghost use Rattle.number.specs.Scan.{scan};
ghost use Rattle.iids.specs.Cells.{cell, AtMost};
ghost use Rattle.bridge.specs.Written.{two_meanings};
ghost use Rattle.rows.specs.Files.{Given, HoldBoth, Gives};
ghost use Rattle.stages.specs.Stages.{Known, Meets};
ghost use Rattle.stages.specs.Settled.{Pointed, Earlier, Settled};

use number::{ENTRY_LIMIT, ROW_LIMIT};
use reader::Layout;

fn index(x: u16) -> usize
    ensures { result ≡ x }
{
    x as usize
}

fn pointer(x: u32) -> usize
    ensures { result ≡ x }
{
    x as usize
}

// Whether row r has the descriptor pointer a, and its mate b.
fn has_pair(
    mates: &[u16; ENTRY_LIMIT],
    own: &[u32; ROW_LIMIT],
    r: usize,
    a: usize,
    b: usize,
) -> bool
    requires { (r < entry_limit) × (get_or mates.now r 0 ≤ row_limit) × (entry_limit ≡ length mates.now) × (row_limit ≡ length own.now) }
    ensures { result ≡ true → Pointed mates.now own.now a b r }
{
    if pointer(own[r]) != a {
        return false;
    }
    let j = index(mates[r]);
    if j == 0 {
        return false;
    }
    pointer(own[j - 1]) == b
}

// Whether one of the rows before i does.
fn pair_earlier(
    mates: &[u16; ENTRY_LIMIT],
    own: &[u32; ROW_LIMIT],
    i: usize,
    a: usize,
    b: usize,
) -> bool
    requires { (i ≤ entry_limit) × AtMost mates.now i row_limit × (entry_limit ≡ length mates.now) × (row_limit ≡ length own.now) }
    ensures { result ≡ true → Earlier mates.now own.now a b i }
{
    for r in 0..i {
        if has_pair(mates, own, r, a, b) {
            return true;
        }
    }
    false
}

// The same, where none of those rows points past `top`. It is sound whatever `top` is: a pointer above it is only not looked for.
fn stood_earlier(
    mates: &[u16; ENTRY_LIMIT],
    own: &[u32; ROW_LIMIT],
    i: usize,
    a: usize,
    b: usize,
    top: usize,
) -> bool
    requires { (i ≤ entry_limit) × AtMost mates.now i row_limit × (entry_limit ≡ length mates.now) × (row_limit ≡ length own.now) }
    ensures { result ≡ true → Earlier mates.now own.now a b i }
{
    if top < a {
        return false;
    }
    pair_earlier(mates, own, i, a, b)
}

// Whether row i of the first file and its mate have two different descriptors. Two that an earlier row and its mate have are not compared again.
fn two_descriptors(
    s: &[u8],
    p: &[u8],
    l: Layout,
    t: &[u8],
    q: &[u8],
    k: Layout,
    first: &[u16; ROW_LIMIT],
    mates: &[u16; ENTRY_LIMIT],
    own: &[u32; ROW_LIMIT],
    i: usize,
    top: usize,
) -> bool
    requires { Given (HoldBoth s.now p.now l t.now q.now k) × Known (HoldBoth s.now p.now l t.now q.now k) (Meets p.now q.now first.now mates.now own.now l.count (l.count + k.count)) × (row_limit ≡ length first.now) × (entry_limit ≡ length mates.now) × (row_limit ≡ length own.now) × (i < l.count) × Settled p.now q.now first.now mates.now own.now l.count i }
    ensures { Gives (HoldBoth s.now p.now l t.now q.now k) (λ x. two_meanings x.first x.second (cell mates.now) i) result × (result ≡ false → Settled p.now q.now first.now mates.now own.now l.count (i + 1)) }
{
    let j = index(mates[i]);
    if j == 0 {
        return false;
    }
    let a = pointer(own[i]);
    if a == 0 {
        return false;
    }
    let b = pointer(own[j - 1]);
    if b == 0 {
        return false;
    }
    if stood_earlier(mates, own, i, a, b, top) {
        return false;
    }
    let n = l.count;
    if same::match_descriptor(p, a - 1, q, b - 1, first, n) {
        return false;
    }
    true
}

// The higher of the two.
fn raised(top: usize, a: usize) -> usize {
    if top < a {
        return a;
    }
    top
}

/// The lowest row of the first file that has, with its mate, two different descriptors, or the number of its rows.
pub fn first_two_descriptors(
    s: &[u8],
    p: &[u8],
    l: Layout,
    t: &[u8],
    q: &[u8],
    k: Layout,
    first: &[u16; ROW_LIMIT],
    mates: &[u16; ENTRY_LIMIT],
    own: &[u32; ROW_LIMIT],
) -> usize
    requires { Given (HoldBoth s.now p.now l t.now q.now k) × Known (HoldBoth s.now p.now l t.now q.now k) (Meets p.now q.now first.now mates.now own.now l.count (l.count + k.count)) × (row_limit ≡ length first.now) × (entry_limit ≡ length mates.now) × (row_limit ≡ length own.now) }
    ensures { Gives (HoldBoth s.now p.now l t.now q.now k) (λ x. scan (two_meanings x.first x.second (cell mates.now)) l.count 0) result }
{
    let n = l.count;
    let mut top: usize = 0;
    for i in 0..n {
        if two_descriptors(s, p, l, t, q, k, first, mates, own, i, top) {
            return i;
        }
        top = raised(top, pointer(own[i]));
    }
    n
}
