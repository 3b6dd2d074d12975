//! Writes the pieces of a pool, words and descriptors, which lie in two other pools, by the table of the places of uses.
#![tactic(auto)]

ghost use Rattle.std.specs.Prelude.{◌≡◌, ◌-◌, ◌≤◌, ◌<◌, length, get_or};
ghost use Rattle.std.proofs.lemmas.List.Edits.{sets};
ghost use Rattle.number.specs.Limits.{file_limit, row_limit};
ghost use Rattle.iids.specs.Cells.{cell};
ghost use Rattle.names.specs.Uses.{use_limit, word_of, spelt, Led, Spelt};
ghost use Rattle.meaning.specs.Normal.Size.{name_size, descriptor_size};
ghost use Rattle.meaning.specs.Normal.Record.{name_bytes};
ghost use Rattle.meaning.specs.Stock.Uses.{kept_size};
ghost use Rattle.meaning.specs.Stock.Form.{descriptor_with, kept_bytes};
ghost use Rattle.writing.specs.Source.{renumber};
ghost use Rattle.writing.specs.Wrote.{Room, Wrote};
ghost use Rattle.pieces.specs.Bodies.{Body};
ghost use Rattle.pieces.specs.Uses.{reached, uses_with};

use interfaces::put_descriptor;
use names::{USE_LIMIT, pointer};
use number::{FILE_LIMIT, ROW_LIMIT};
use writing::word::put_name;

/// The descriptor that b leads to, whose first name is use u.
pub fn put_body(
    pool: &[u8],
    other: &[u8],
    n: usize,
    b: usize,
    u: usize,
    places: &[u32; USE_LIMIT],
    place: &[u16; ROW_LIMIT],
    out: &mut [u8],
) -> usize
    requires { Room (Body pool.now other.now n u b) descriptor_size (length out.old) × (row_limit ≡ length place.now) }
    ensures { Wrote (Body pool.now other.now n u b) (descriptor_with (renumber place.now 0) (cell places.now) u) out.old result out.new }
{
    if b <= FILE_LIMIT {
        return put_descriptor(pool, b - 1, u, places, place, 0, out);
    }
    put_descriptor(other, b - FILE_LIMIT - 1, u, places, place, n, out)
}

// The word that w leads to, and a zero byte.
fn put_led(pool: &[u8], other: &[u8], w: usize, out: &mut [u8]) -> usize
    requires { Led pool.now other.now w × (name_size (word_of pool.now other.now w) ≤ length out.old) }
    ensures { (result ≡ name_size (word_of pool.now other.now w)) × (out.new ≡ sets out.old 0 (name_bytes (word_of pool.now other.now w))) }
{
    if w <= FILE_LIMIT {
        return put_name(pool, w, out);
    }
    put_name(other, w - FILE_LIMIT, out)
}

// The word of use u, if its place is the pool pointer p.
fn put_use(
    pool: &[u8],
    other: &[u8],
    words: &[u32; USE_LIMIT],
    places: &[u32; USE_LIMIT],
    u: usize,
    p: usize,
    out: &mut [u8],
) -> usize
    requires { Led pool.now other.now (get_or words.now u 0) × ((u < use_limit) × (kept_size (reached (cell places.now) p) u (spelt pool.now other.now words.now u) ≤ length out.old)) }
    ensures { (result ≡ kept_size (reached (cell places.now) p) u (spelt pool.now other.now words.now u)) × (out.new ≡ sets out.old 0 (kept_bytes (reached (cell places.now) p) u (spelt pool.now other.now words.now u))) }
{
    let q = places[u];
    if pointer(q) != p {
        return 0;
    }
    let w = words[u];
    put_led(pool, other, pointer(w), out)
}

/// Of the uses from u up to e, the words of those whose place is the pool pointer reached, from p on.
pub fn put_uses(
    pool: &[u8],
    other: &[u8],
    words: &[u32; USE_LIMIT],
    places: &[u32; USE_LIMIT],
    u: usize,
    e: usize,
    p: usize,
    out: &mut [u8],
) -> usize
    requires { Spelt pool.now other.now words.now e × ((p ≤ file_limit) × (length (uses_with (cell places.now) (spelt pool.now other.now words.now) (e - u) u p) ≤ length out.old)) }
    ensures { (result ≡ length (uses_with (cell places.now) (spelt pool.now other.now words.now) (e - u) u p)) × (out.new ≡ sets out.old 0 (uses_with (cell places.now) (spelt pool.now other.now words.now) (e - u) u p)) }
{
    let mut w: usize = 0;
    for k in u..e {
        w += put_use(pool, other, words, places, k, p + w, &mut out[w..]);
    }
    w
}
