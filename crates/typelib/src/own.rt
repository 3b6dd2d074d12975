// The descriptors of the directory's entries. One that several entries share is read once.
ghost use Rattle.std.specs.Prelude.{◌≡◌, true, ◌+◌, ◌*◌, ◌≤◌, ◌<◌, length};
ghost use Rattle.number.specs.Limits.{file_limit, own_limit, entry_width};
ghost use Rattle.number.specs.Scan.{scan, some};
ghost use Rattle.reading.specs.Got.{step_of, many};
ghost use Rattle.method.specs.Tables.{Remembered};
ghost use Rattle.typelib.specs.Entry.{read_own};
ghost use Rattle.typelib.specs.Own.{Settled};
ghost use Rattle.typelib.specs.Directory.{Lies, points_to};

use method::BLOCK_COUNT;
use number::{ENTRY_WIDTH, OWN_LIMIT};
use reading::{Context, Refusal, Rule};

// What is left of n when m is taken from it.
fn rest(n: usize, m: usize) -> usize {
    n.saturating_sub(m)
}

// The verdict on an entry's descriptor, and how many bytes of the pool were read for it.
#[derive(Clone, Copy, Debug, PartialEq, Eq)]
struct Own {
    step: Result<usize, Refusal>,
    size: usize,
}

// That of the entry at p, with tables for its methods and of methods that were accepted.
fn check_with(
    file: &[u8],
    pool: &[u8],
    c: Context,
    p: usize,
    flags: &mut [u8; OWN_LIMIT],
    names: &mut [u32; OWN_LIMIT],
    seen: &mut [u32],
) -> Own
    requires { (p + entry_width ≤ length file.now) × (length file.now ≤ file_limit) × (c.base + length pool.now ≤ file_limit) × (own_limit ≡ length flags.old) × (own_limit ≡ length names.old) × Remembered c pool.now seen.old }
    ensures { (result.step ≡ step_of (read_own c file.now pool.now p)) × (own_limit ≡ length flags.new) × (own_limit ≡ length names.new) × Remembered c pool.now seen.new }
{
    let q = number::u32_at(file, p + 24) as usize;
    if q == 0 {
        return Own {
            step: Ok(p + ENTRY_WIDTH),
            size: 0,
        };
    }
    if pool.len() < q {
        return Own {
            step: Err(Rule::Outside.at(p + 24)),
            size: 0,
        };
    }
    let r = descriptor::read_with(pool, c, q - 1, flags, names, seen);
    let Ok(e) = r else {
        return Own { step: r, size: 0 };
    };
    Own {
        step: Ok(p + ENTRY_WIDTH),
        size: rest(e, q - 1),
    }
}

// The verdict alone, with tables of its own for the methods.
pub fn check_again(
    file: &[u8],
    pool: &[u8],
    c: Context,
    p: usize,
    seen: &mut [u32],
) -> Result<usize, Refusal>
    requires { (p + entry_width ≤ length file.now) × (length file.now ≤ file_limit) × (c.base + length pool.now ≤ file_limit) × Remembered c pool.now seen.old }
    ensures { (result ≡ step_of (read_own c file.now pool.now p)) × Remembered c pool.now seen.new }
{
    let mut flags = [0u8; OWN_LIMIT];
    let mut names = [0u32; OWN_LIMIT];
    check_with(file, pool, c, p, &mut flags, &mut names, seen).step
}

// Whether entry j has the descriptor pointer q.
fn points_to(file: &[u8], n: usize, d: usize, j: usize, q: u32) -> bool
    requires { Lies file.now n d × (j < n) }
    ensures { result ≡ points_to file.now d q j }
{
    number::u32_at(file, d + ENTRY_WIDTH * j + 24) == q
}

// The first of the first k entries that does, or k.
pub fn first_pointing(file: &[u8], n: usize, d: usize, k: usize, q: u32) -> usize
    requires { Lies file.now n d × (k ≤ n) }
    ensures { result ≡ scan (points_to file.now d q) k 0 }
{
    for j in 0..k {
        if points_to(file, n, d, j, q) {
            return j;
        }
    }
    k
}

// Whether one of the first k entries has the pointer q, none of which points past `top`. It is sound whatever `top` is: a pointer above it is only not looked for.
fn stood_earlier(file: &[u8], n: usize, d: usize, k: usize, q: u32, top: u32) -> bool
    requires { Lies file.now n d × (k ≤ n) }
    ensures { result ≡ true → some (points_to file.now d q) k ≡ true }
{
    if top < q {
        return false;
    }
    first_pointing(file, n, d, k, q) < k
}

// The verdict on the descriptor of entry k, where those before it were accepted.
fn check_once(
    file: &[u8],
    pool: &[u8],
    c: Context,
    d: usize,
    k: usize,
    top: u32,
    flags: &mut [u8; OWN_LIMIT],
    names: &mut [u32; OWN_LIMIT],
    seen: &mut [u32],
) -> Own
    requires { Lies file.now (1 + k) d × (c.base + length pool.now ≤ file_limit) × Settled c file.now pool.now d k × (own_limit ≡ length flags.old) × (own_limit ≡ length names.old) × Remembered c pool.now seen.old }
    ensures { (result.step ≡ step_of (read_own c file.now pool.now (d + entry_width * k))) × (own_limit ≡ length flags.new) × (own_limit ≡ length names.new) × Remembered c pool.now seen.new }
{
    let p = d + ENTRY_WIDTH * k;
    let q = number::u32_at(file, p + 24);
    if stood_earlier(file, 1 + k, d, k, q, top) {
        return Own {
            step: Ok(p + ENTRY_WIDTH),
            size: 0,
        };
    }
    check_with(file, pool, c, p, flags, names, seen)
}

// The higher of `top` and the pointer of entry k.
fn raised(file: &[u8], n: usize, d: usize, k: usize, top: u32) -> u32
    requires { Lies file.now n d × (k < n) }
    ensures { top ≤ result }
{
    top.max(number::u32_at(file, d + ENTRY_WIDTH * k + 24))
}

// The descriptors of n entries, which overlap: methods that were accepted are remembered.
fn check_shared(
    file: &[u8],
    pool: &[u8],
    c: Context,
    n: usize,
    d: usize,
    flags: &mut [u8; OWN_LIMIT],
    names: &mut [u32; OWN_LIMIT],
) -> Result<usize, Refusal>
    requires { Lies file.now n d × (c.base + length pool.now ≤ file_limit) × (own_limit ≡ length flags.old) × (own_limit ≡ length names.old) }
    ensures { result ≡ step_of (many (read_own c file.now pool.now) n d) }
{
    let mut seen = [0u32; BLOCK_COUNT];
    let mut top: u32 = 0;
    for k in 0..n {
        let own = check_once(file, pool, c, d, k, top, flags, names, &mut seen);
        own.step?;
        top = raised(file, n, d, k, top);
    }
    Ok(d + ENTRY_WIDTH * n)
}

// The descriptors of n entries, with tables that serve each in its turn. As soon as more bytes were read than the pool has, they overlap.
fn check_each(
    file: &[u8],
    pool: &[u8],
    c: Context,
    n: usize,
    d: usize,
    flags: &mut [u8; OWN_LIMIT],
    names: &mut [u32; OWN_LIMIT],
) -> Result<usize, Refusal>
    requires { Lies file.now n d × (c.base + length pool.now ≤ file_limit) × (own_limit ≡ length flags.old) × (own_limit ≡ length names.old) }
    ensures { result ≡ step_of (many (read_own c file.now pool.now) n d) }
{
    let mut none = [0u32; 0];
    let mut top: u32 = 0;
    let mut left = pool.len();
    for k in 0..n {
        if left == 0 {
            return check_shared(file, pool, c, n - k, d + ENTRY_WIDTH * k, flags, names);
        }
        let own = check_once(file, pool, c, d, k, top, flags, names, &mut none);
        own.step?;
        top = raised(file, n, d, k, top);
        left = rest(left, own.size);
    }
    Ok(d + ENTRY_WIDTH * n)
}

// The descriptors of n entries.
pub fn check_descriptors(
    file: &[u8],
    pool: &[u8],
    c: Context,
    n: usize,
    d: usize,
) -> Result<usize, Refusal>
    requires { Lies file.now n d × (c.base + length pool.now ≤ file_limit) }
    ensures { result ≡ step_of (many (read_own c file.now pool.now) n d) }
{
    if n == 0 {
        return Ok(d);
    }
    let mut flags = [0u8; OWN_LIMIT];
    let mut names = [0u32; OWN_LIMIT];
    check_each(file, pool, c, n, d, &mut flags, &mut names)
}
