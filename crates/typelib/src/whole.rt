// The check of a whole file.
ghost use Rattle.std.specs.Prelude.{◌≡◌};
ghost use Rattle.typelib.specs.Across.{read_across};
ghost use Rattle.typelib.specs.Directory.{Lies, Named, Rooted, key_on, above_on};
ghost use Rattle.typelib.specs.Typelib.{Fronted, pool_of, read_typelib, count_of, verdict_of};

use head::Header;
use number::ENTRY_WIDTH;
use reading::{Context, Refusal, Rule};

// The keys and the chains of n entries.
fn check_across(file: &[u8], pool: &[u8], n: usize, d: usize) -> Result<usize, Refusal>
    requires { Lies file.now n d × Named file.now pool.now n d × Rooted file.now pool.now n d }
    ensures { result ≡ count_of (read_across (key_on file.now pool.now d) (above_on file.now pool.now d) n d 0) }
{
    let i = crate::keys::first_repeated(file, pool, n, d);
    if i < n {
        return Err(Rule::KeyTwice.at(d + ENTRY_WIDTH * i));
    }
    let j = crate::chains::first_circling(file, pool, n, d);
    if j < n {
        return Err(Rule::ParentCycle.at(d + ENTRY_WIDTH * j));
    }
    Ok(n)
}

// What follows the front of a file with the header h, whose pool is lent beside it.
fn check_pool(file: &[u8], pool: &[u8], h: Header) -> Result<usize, Refusal>
    requires { Fronted file.now h × (pool.now ≡ pool_of h file.now) }
    ensures { result ≡ verdict_of (read_typelib file.now) }
{
    let n = h.count;
    let d = h.directory;
    let c = Context {
        base: h.pool,
        minor: h.minor as usize,
        count: n,
    };
    crate::own::check_descriptors(file, pool, c, n, d)?;
    check_across(file, pool, n, d)
}

// The same, the pool being the part of the file from its offset on.
fn check_behind(file: &[u8], h: Header) -> Result<usize, Refusal>
    requires { Fronted file.now h }
    ensures { result ≡ verdict_of (read_typelib file.now) }
{
    check_pool(file, &file[h.pool..], h)
}

// Whether a file follows document 01, or the first refusal in its order.
pub fn check_typelib(file: &[u8]) -> Result<usize, Refusal>
    ensures { result ≡ verdict_of (read_typelib file.now) }
{
    check_behind(file, crate::front::check_front(file)?)
}
