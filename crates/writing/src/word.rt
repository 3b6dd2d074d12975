//! Names in a pool.
ghost use Rattle.std.specs.Prelude.{◌≡◌, ◌-◌, ◌≤◌, ◌<◌, length};
ghost use Rattle.std.proofs.lemmas.List.Edits.{sets};
ghost use Rattle.number.specs.Limits.{file_limit};
ghost use Rattle.key.specs.Word.{Leads, word_end, word_at};
ghost use Rattle.meaning.specs.Normal.Size.{name_size};
ghost use Rattle.meaning.specs.Normal.Record.{name_bytes};

use crate::field::copy;

// Where the word at p ends: its zero byte.
fn word_end(pool: &[u8], p: usize) -> usize
    requires { (word_end pool.now p < length pool.now) × (length pool.now ≤ file_limit) }
    ensures { result ≡ word_end pool.now p }
{
    let mut i = p;
    // No count is known: the zero byte ends it.
    while pool[i] != 0 {
        i += 1;
    }
    i
}

/// The bytes of the name that the pool pointer q leads to, and of its zero byte.
pub fn name_size(pool: &[u8], q: usize) -> usize
    requires { Leads pool.now q × (length pool.now ≤ file_limit) }
    ensures { result ≡ name_size (word_at pool.now (q - 1)) }
{
    let start = q - 1;
    word_end(pool, start) - start + 1
}

/// That name and a zero byte.
pub fn put_name(pool: &[u8], q: usize, out: &mut [u8]) -> usize
    requires { Leads pool.now q × ((length pool.now ≤ file_limit) × (name_size (word_at pool.now (q - 1)) ≤ length out.old)) }
    ensures { (result ≡ name_size (word_at pool.now (q - 1))) × (out.new ≡ sets out.old 0 (name_bytes (word_at pool.now (q - 1)))) }
{
    let from = q - 1;
    let n = copy(pool, from, word_end(pool, from) - from, out);
    out[n] = 0;
    n + 1
}
