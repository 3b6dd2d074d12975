//! Where the words of uses are to lie: a table of first uses becomes, in its own place, a table of pool pointers.
#![tactic(auto)]

ghost use Rattle.std.specs.Prelude.{◌≡◌, ◌+◌, ◌*◌, ◌≤◌, ◌<◌, length, set};
ghost use Rattle.number.specs.Limits.{file_limit};
ghost use Rattle.key.specs.First.{first_same, Filled, Past};
ghost use Rattle.names.specs.Uses.{use_limit, word_of, spelling, Led, Spelt};
ghost use Rattle.meaning.specs.Normal.Size.{name_size};
ghost use Rattle.places.specs.Places.{stored_use, pointer_at, room_limit, InOrder, capped, use_place};
ghost use Rattle.places.specs.Laying.{Fresh, placed_use, Laid};

use names::{USE_LIMIT, pointer};
use number::{FILE_LIMIT, ROW_LIMIT};
use writing::word::name_size;

// The bytes of the word that w leads to, in one pool or the other, and of its zero byte.
fn led_size(pool: &[u8], other: &[u8], w: usize) -> usize
    requires { Led pool.now other.now w }
    ensures { (result ≡ name_size (word_of pool.now other.now w)) × (result ≤ file_limit) }
{
    if w <= FILE_LIMIT {
        return name_size(pool, w);
    }
    name_size(other, w - FILE_LIMIT)
}

fn wide(x: u32) -> usize
    ensures { (result ≡ x) × (result < 4294967296) }
{
    x as usize
}

fn cap(p: usize) -> u32
    ensures { result ≡ capped p }
{
    if p <= FILE_LIMIT {
        return p as u32;
    }
    FILE_LIMIT as u32 + 1
}

// Use u is laid: if it is the first of its word the word lies at p, else it has the place of the first, which is known.
// The answer is where the next word lies.
fn lay_use(
    pool: &[u8],
    other: &[u8],
    words: &[u32; USE_LIMIT],
    n: usize,
    u: usize,
    p: usize,
    places: &mut [u32; USE_LIMIT],
) -> usize
    requires { Spelt pool.now other.now words.now n × (Fresh (spelling pool.now other.now words.now) places.old u n × ((u < n) × (p ≤ room_limit + room_limit))) }
    ensures { (result ≡ p + stored_use pool.now other.now words.now u) × (places.new ≡ set places.old u (placed_use (spelling pool.now other.now words.now) places.old u p)) × (result ≤ p + file_limit) }
{
    let f = pointer(places[u]);
    if f == u {
        places[u] = cap(p);
        let w = words[u];
        return p + led_size(pool, other, pointer(w));
    }
    places[u] = places[f];
    p
}

// The uses from u up to e are laid, from p on, one after another.
fn lay_uses(
    pool: &[u8],
    other: &[u8],
    words: &[u32; USE_LIMIT],
    n: usize,
    u: usize,
    e: usize,
    p: usize,
    places: &mut [u32; USE_LIMIT],
) -> usize
    requires { Spelt pool.now other.now words.now n × (Fresh (spelling pool.now other.now words.now) places.old u n × ((u ≤ e) × ((e ≤ n) × ((p ≤ room_limit) × (use_limit ≡ length places.old))))) }
    ensures { Laid (spelling pool.now other.now words.now) (stored_use pool.now other.now words.now) places.old places.new u e p result × (result + u * file_limit ≤ p + e * file_limit) }
{
    let mut at = p;
    for k in u..e {
        at = lay_use(pool, other, words, n, k, at, places);
    }
    at
}

/// The places of n uses, from the table of their first uses; body i has sizes[i] bytes and stands right before use before[i].
/// The answer is the pool pointer past the last word and body.
pub fn lay_out(
    pool: &[u8],
    other: &[u8],
    words: &[u32; USE_LIMIT],
    n: usize,
    before: &[u32; ROW_LIMIT],
    sizes: &[u32; ROW_LIMIT],
    c: usize,
    places: &mut [u32; USE_LIMIT],
) -> usize
    requires { Spelt pool.now other.now words.now n × (InOrder before.now c n × (Filled places.old n (first_same (spelling pool.now other.now words.now)) × (use_limit ≡ length places.old))) }
    ensures { (result ≡ pointer_at pool.now other.now words.now before.now sizes.now c n) × Filled places.new n (use_place pool.now other.now words.now before.now sizes.now c) × (use_limit ≡ length places.new) × Past n places.old places.new }
{
    let mut p: usize = 1;
    let mut u: usize = 0;
    for i in 0..c {
        let e = pointer(before[i]);
        p = lay_uses(pool, other, words, n, u, e, p, places);
        p += wide(sizes[i]);
        u = e;
    }
    lay_uses(pool, other, words, n, u, n, p, places)
}
