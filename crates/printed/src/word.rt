//! Words of a pool, written. Each writer answers the place after what it wrote.
ghost use Rattle.std.specs.Prelude.{◌++◌, ◌+◌, ◌-◌, length};
ghost use Rattle.key.specs.Word.{Leads, word_at};
ghost use Rattle.key.specs.Key.{space_at};
ghost use Rattle.key.specs.Pointer.{Spaced, Pointed};
ghost use Rattle.text.specs.Line.{space};
ghost use Rattle.printed.specs.Listing.{space_text};
ghost use Rattle.text.specs.Writing.{Wrote, Room};
ghost use Rattle.printed.specs.Writing.{Small};

/// The word that the pool pointer q leads to.
pub fn put_word(pool: &[u8], q: usize, out: &mut [u8], at: usize) -> usize
    requires { Leads pool.now q × (Small pool.now × Room out.old at (length (word_at pool.now (q - 1)))) }
    ensures { Wrote out.old at (word_at pool.now (q - 1)) result out.new }
{
    let from = q - 1;
    // A `while`: the zero byte ends the word, whose length is not known before.
    let mut i: usize = 0;
    while pool[from + i] != 0 {
        out[at + i] = pool[from + i];
        i += 1;
    }
    at + i
}

/// The same after a space.
pub fn put_name(pool: &[u8], q: usize, out: &mut [u8], at: usize) -> usize
    requires { Leads pool.now q × (Small pool.now × Room out.old at (1 + length (word_at pool.now (q - 1)))) }
    ensures { Wrote out.old at (space ++ word_at pool.now (q - 1)) result out.new }
{
    let next = text::put_bytes(out, at, b" ");
    put_word(pool, q, out, next)
}

// The namespace that v leads to, `-` for the default, which has no bytes.
fn put_space(pool: &[u8], v: usize, out: &mut [u8], at: usize) -> usize
    requires { Spaced pool.now v × (Small pool.now × Room out.old at (length (space_text (space_at pool.now v)))) }
    ensures { Wrote out.old at (space_text (space_at pool.now v)) result out.new }
{
    if v == 0 {
        return text::put_bytes(out, at, b"-");
    }
    if pool[v - 1] == 0 {
        return text::put_bytes(out, at, b"-");
    }
    put_word(pool, v, out, at)
}

/// The key of the pool pointers v and q, a space before each of its parts.
pub fn put_key(pool: &[u8], v: usize, q: usize, out: &mut [u8], at: usize) -> usize
    requires { Pointed pool.now v q × (Small pool.now × Room out.old at (2 + (length (space_text (space_at pool.now v)) + length (word_at pool.now (q - 1))))) }
    ensures { Wrote out.old at ((space ++ space_text (space_at pool.now v)) ++ (space ++ word_at pool.now (q - 1))) result out.new }
{
    let first = text::put_bytes(out, at, b" ");
    let next = put_space(pool, v, out, first);
    put_name(pool, q, out, next)
}
