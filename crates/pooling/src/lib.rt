//! Writes the pool of a normal form that stores each name once: the words of uses and the descriptors, by tables.
#![tactic(auto)]

ghost use Rattle.std.specs.Prelude.{◌≡◌, List, ℕ, ◌<◌, length};
ghost use Rattle.number.specs.Limits.{row_limit};
ghost use Rattle.reader.specs.Values.{Entry};
ghost use Rattle.iids.specs.Cells.{cell};
ghost use Rattle.meaning.specs.Stock.Uses.{own_body};
ghost use Rattle.writing.specs.Source.{renumber};
ghost use Rattle.writing.specs.Wrote.{Room, Wrote};
ghost use Rattle.pooling.specs.Tabled.{OwnLed, own_with, pointed_at, Tabled, TablesFit, PutPool};

use names::{USE_LIMIT, pointer};
use number::ROW_LIMIT;
use pieces::{put_body, put_uses};

// The descriptor that b leads to, whose first name is use u; nothing where b is 0.
fn put_own(
    pool: &[u8],
    other: &[u8],
    n: usize,
    b: usize,
    u: usize,
    places: &[u32; USE_LIMIT],
    place: &[u16; ROW_LIMIT],
    out: &mut [u8],
) -> usize
    requires { Room (OwnLed pool.now other.now n u b) own_body (length out.old) × (row_limit ≡ length place.now) }
    ensures { Wrote (OwnLed pool.now other.now n u b) (own_with (renumber place.now 0) (cell places.now) u) out.old result out.new }
{
    if b == 0 {
        return 0;
    }
    put_body(pool, other, n, b, u, places, place, out)
}

// The pointer to what lies at p and b leads to; 0 where b is 0.
fn pointed(b: usize, p: usize) -> u32
    requires { p < 4294967296 }
    ensures { result ≡ pointed_at b p }
{
    if b == 0 {
        return 0;
    }
    p as u32
}

/// The pool of c entries with m uses, and in `owns` the pointers to their descriptors.
pub fn put_pool(
    pool: &[u8],
    other: &[u8],
    n: usize,
    words: &[u32; USE_LIMIT],
    m: usize,
    places: &[u32; USE_LIMIT],
    before: &[u32; ROW_LIMIT],
    bodies: &[u32; ROW_LIMIT],
    c: usize,
    place: &[u16; ROW_LIMIT],
    owns: &mut [u32; ROW_LIMIT],
    out: &mut [u8],
) -> usize
    requires { TablesFit pool.now other.now n words.now places.now before.now bodies.now m c (length out.old) × ((row_limit ≡ length place.now) × (row_limit ≡ length owns.old)) }
    ensures { ((us : List (Entry ℕ)) → Tabled pool.now other.now n words.now places.now before.now bodies.now m c us → PutPool (renumber place.now 0) (cell places.now) us c out.old result out.new owns.new) × (row_limit ≡ length owns.new) }
{
    let mut w: usize = 0;
    let mut u: usize = 0;
    for q in 0..c {
        let e = pointer(before[q]);
        w += put_uses(pool, other, words, places, u, e, 1 + w, &mut out[w..]);
        let b = pointer(bodies[q]);
        owns[q] = pointed(b, 1 + w);
        w += put_own(pool, other, n, b, e, places, place, &mut out[w..]);
        u = e;
    }
    w + put_uses(pool, other, words, places, u, m, 1 + w, &mut out[w..])
}
