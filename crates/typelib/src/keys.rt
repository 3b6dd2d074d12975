// Keys that stand twice.
ghost use Rattle.std.specs.Prelude.{◌≡◌, ◌+◌, ◌≤◌, ◌<◌, length};
ghost use Rattle.number.specs.Limits.{file_limit, entry_limit};
ghost use Rattle.number.specs.Scan.{scan};
ghost use Rattle.key.specs.First.{Filled};
ghost use Rattle.typelib.specs.Directory.{Lies, Named, name_pointer, space_pointer, key_on};
ghost use Rattle.typelib.specs.Across.{repeated};
ghost use Rattle.typelib.specs.Tables.{lower};

use number::{ENTRY_LIMIT, ENTRY_WIDTH};

// The pointers of n entries, into two tables.
fn note_pointers(
    file: &[u8],
    n: usize,
    d: usize,
    spaces: &mut [u32; ENTRY_LIMIT],
    names: &mut [u32; ENTRY_LIMIT],
)
    requires { Lies file.now n d × (entry_limit ≡ length spaces.old) × (entry_limit ≡ length names.old) }
    ensures { Filled spaces.new n (space_pointer file.now d) × Filled names.new n (name_pointer file.now d) × (entry_limit ≡ length spaces.new) × (entry_limit ≡ length names.new) }
{
    for k in 0..n {
        names[k] = number::u32_at(file, d + ENTRY_WIDTH * k + 16);
        spaces[k] = number::u32_at(file, d + ENTRY_WIDTH * k + 20);
    }
}

fn wide(x: u16) -> usize
    ensures { result ≡ x }
{
    x as usize
}

// The first of n places that holds a number below its own, or n.
fn first_lower(first: &[u16; ENTRY_LIMIT], n: usize) -> usize
    requires { (n ≤ entry_limit) × (entry_limit ≡ length first.now) }
    ensures { result ≡ scan (lower first.now) n 0 }
{
    for i in 0..n {
        if wide(first[i]) < i {
            return i;
        }
    }
    n
}

// The lowest of n entries whose key stood earlier, or n.
pub fn first_repeated(file: &[u8], pool: &[u8], n: usize, d: usize) -> usize
    requires { Lies file.now n d × Named file.now pool.now n d × (length pool.now ≤ file_limit) }
    ensures { result ≡ scan (repeated (key_on file.now pool.now d)) n 0 }
{
    let mut spaces = [0u32; ENTRY_LIMIT];
    let mut names = [0u32; ENTRY_LIMIT];
    let mut first = [0u16; ENTRY_LIMIT];
    note_pointers(file, n, d, &mut spaces, &mut names);
    sorting::first_same(pool, &spaces, &names, n, &mut first);
    first_lower(&first, n)
}
