// Parent chains.
ghost use Rattle.std.specs.Prelude.{◌≡◌, ◌<◌, length};
ghost use Rattle.number.specs.Limits.{row_limit};
ghost use Rattle.number.specs.Scan.{scan};
ghost use Rattle.key.specs.First.{Filled};
ghost use Rattle.typelib.specs.Across.{circles};
ghost use Rattle.typelib.specs.Directory.{Lies, Rooted, above_on};

use number::{ENTRY_WIDTH, ROW_LIMIT};

// The index above entry k of n, counted from 1; 0 above one without a parent.
fn above_entry(file: &[u8], pool: &[u8], n: usize, d: usize, k: usize) -> u16
    requires { Lies file.now n d × Rooted file.now pool.now n d × (k < n) }
    ensures { result ≡ above_on file.now pool.now d k }
{
    let q = number::u32_at(file, d + ENTRY_WIDTH * k + 24) as usize;
    if q == 0 {
        return 0;
    }
    number::u16_at(pool, q - 1)
}

// The same of all n, into a table.
fn note_parents(file: &[u8], pool: &[u8], n: usize, d: usize, up: &mut [u16; ROW_LIMIT])
    requires { Lies file.now n d × Rooted file.now pool.now n d × (row_limit ≡ length up.old) }
    ensures { Filled up.new n (above_on file.now pool.now d) × (row_limit ≡ length up.new) }
{
    for k in 0..n {
        up[k] = above_entry(file, pool, n, d, k);
    }
}

// The lowest of n entries whose chain doesn't end, or n.
pub fn first_circling(file: &[u8], pool: &[u8], n: usize, d: usize) -> usize
    requires { Lies file.now n d × Rooted file.now pool.now n d }
    ensures { result ≡ scan (circles (above_on file.now pool.now d) n) n 0 }
{
    let mut up = [0u16; ROW_LIMIT];
    note_parents(file, pool, n, d, &mut up);
    heights::first_unending(&up, n, n, n)
}
