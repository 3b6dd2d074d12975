// Reads parameters and methods. Positions are in the pool; places are in the file.
#![tactic(auto)]

ghost use Rattle.std.specs.Prelude.{true, false, ◌≡◌, ◌+◌, ◌*◌, ◌%◌, ◌/◌, ◌≤◌, ◌<◌, length, take, get_or, Ok};
ghost use Rattle.number.specs.Limits.{file_limit, own_limit};
ghost use Rattle.reading.specs.Got.{step_of, many, Accepted};
ghost use Rattle.method.specs.Parameter.{read_param};
ghost use Rattle.method.specs.Numbers.{wrong_result};
ghost use Rattle.method.specs.Method.{read_signature, read_method};
ghost use Rattle.method.specs.Walk.{rule_of};
ghost use Rattle.method.specs.Tables.{Held, Noted, Reached, Remembered, block_size};

use crate::params::Span;
use number::OWN_LIMIT;
use reading::{Context, Refusal, Rule};

pub mod params;
pub mod walk;

// The flags of a method.
pub const GETTER: u8 = 0x80;

pub const SETTER: u8 = 0x40;

const NOT_XPCOM: u8 = 0x20;

pub const CONSTRUCTOR: u8 = 0x10;

// The flags of a parameter.
const OUT: u8 = 0x40;

const RETVAL: u8 = 0x20;

const DIPPER: u8 = 0x08;

// The lowest flag that is not reserved, of both.
const LOWEST: u8 = 0x08;

// Methods that were accepted are remembered, one for each block of the pool.
const BLOCK_SIZE: usize = 128;

// The blocks of the longest pool.
pub const BLOCK_COUNT: usize = 8193;

// The fewest bytes of one that is remembered: most methods are shorter, and are as soon read.
const LONG: usize = 48;

// Whether a result breaks the result rule: f are the method's flags, g the result's, b its prefix.
#[tactic(auto, using(number::proofs::Choice::tests), unfolding(crate::specs::Numbers::wrong_result))]
fn wrong_result(f: u8, g: u8, b: u8) -> bool
    ensures { result ≡ wrong_result f g b }
{
    if f / NOT_XPCOM % 2 == 1 {
        return false;
    }
    if g / RETVAL % 2 == 1 {
        return false;
    }
    if b == types::VOID {
        return false;
    }
    b != types::UINT32
}

// The rules of a method's n arguments, read from `at` on, and its result, read from `mid` to `end`.
fn rule_signature(
    pool: &[u8],
    c: Context,
    first: usize,
    flags: u8,
    n: usize,
    at: usize,
    mid: usize,
    end: usize,
    table: &[u8; 256],
) -> Result<usize, Refusal>
    requires { Accepted (many (read_param false c pool.now) n at) × Accepted (read_param true c pool.now mid) × (c.base + length pool.now ≤ file_limit) × (first ≤ length pool.now) × (n ≤ 255) × (256 ≡ length table.now) × Held (many (read_param false c pool.now) n at) n table.now }
    ensures { result ≡ step_of (rule_of c first flags (take n table.now) (many (read_param false c pool.now) n at) (read_param true c pool.now mid) end) }
{
    if crate::walk::broken_arguments(pool, c, n, at, table) {
        return Err(Rule::Between.at(c.base + first));
    }
    let Some(_) = crate::walk::outer_numbers(pool, c, mid + 1, n, table) else {
        return Err(Rule::Between.at(c.base + first));
    };
    if wrong_result(flags, pool[mid], pool[mid + 1]) {
        return Err(Rule::Between.at(c.base + first));
    }
    Ok(end)
}

// The argument count at `at`, the arguments and the result.
fn read_signature(
    pool: &[u8],
    c: Context,
    first: usize,
    flags: u8,
    at: usize,
    table: &mut [u8; 256],
) -> Result<usize, Refusal>
    requires { (at ≤ length pool.now) × (c.base + length pool.now ≤ file_limit) × (first ≤ length pool.now) × (256 ≡ length table.old) }
    ensures reads { result ≡ step_of (read_signature c pool.now first flags at) }
    ensures long { 256 ≡ length table.new }
{
    if pool.len() <= at {
        return Err(Rule::Outside.at(c.base + at));
    }
    let n = pool[at] as usize;
    let Span { mid, end } = crate::params::read_parameters(pool, c, n, at + 1, table)?;
    rule_signature(pool, c, first, flags, n, at + 1, mid, end, table)
}

// A method; the table is lent for the prefixes of its arguments.
fn read_one(pool: &[u8], c: Context, at: usize, table: &mut [u8; 256]) -> Result<usize, Refusal>
    requires { (at ≤ length pool.now) × (c.base + length pool.now ≤ file_limit) × (256 ≡ length table.old) }
    ensures reads { result ≡ step_of (read_method c pool.now at) }
    ensures long { 256 ≡ length table.new }
{
    if pool.len() <= at {
        return Err(Rule::Outside.at(c.base + at));
    }
    let f = pool[at];
    if f % LOWEST != 0 {
        return Err(Rule::Reserved.at(c.base + at));
    }
    let e = name::read_name(pool, c, at + 1)?;
    read_signature(pool, c, at, f, e, table)
}

// n methods; the tables get their flags and name pointers.
pub fn read_methods(
    pool: &[u8],
    c: Context,
    n: usize,
    at: usize,
    flags: &mut [u8; OWN_LIMIT],
    names: &mut [u32; OWN_LIMIT],
) -> Result<usize, Refusal>
    requires { (at ≤ length pool.now) × (c.base + length pool.now ≤ file_limit) × (n ≤ own_limit) × (own_limit ≡ length flags.old) × (own_limit ≡ length names.old) }
    ensures { Noted c pool.now n at result flags.new names.new × Reached c pool.now n at flags.new names.new flags.old names.old }
{
    let mut table = [0u8; 256];
    let mut p = at;
    for k in 0..n {
        let e = read_one(pool, c, p, &mut table)?;
        flags[k] = pool[p];
        names[k] = number::u32_at(pool, p + 1);
        p = e;
    }
    Ok(p)
}

// One method. The loop above has the only call of `read_one`, which is inlined so.
pub fn read_method(pool: &[u8], c: Context, at: usize) -> Result<usize, Refusal>
    requires { (at ≤ length pool.now) × (c.base + length pool.now ≤ file_limit) }
    ensures { result ≡ step_of (read_method c pool.now at) }
{
    let mut flags = [0u8; OWN_LIMIT];
    let mut names = [0u32; OWN_LIMIT];
    read_methods(pool, c, 1, at, &mut flags, &mut names)
}

// What is remembered of block k, or 0.
fn of_block(seen: &[u32], k: usize) -> u32
    ensures { result ≡ get_or seen.now k 0 }
{
    if k < seen.len() {
        return seen[k];
    }
    0
}

// How long the method at `at` is, if what is remembered of its block, v, is of it; else 0.
fn known_length(v: u32, at: usize) -> usize
    ensures { (block_size * result ≤ 4294967295) × (0 < result → (v % block_size ≡ at % block_size) × (result ≡ v / block_size)) }
{
    let w = v as usize;
    if w % BLOCK_SIZE != at % BLOCK_SIZE {
        return 0;
    }
    w / BLOCK_SIZE
}

// Remembers the method from `at` to e, if it is long and its block has a place.
fn remember(pool: &[u8], c: Context, at: usize, e: usize, seen: &mut [u32])
    requires { (at ≤ file_limit) × (at < e) × (e ≤ file_limit) × (Ok e ≡ step_of (read_method c pool.now at)) × Remembered c pool.now seen.old }
    ensures { Remembered c pool.now seen.new }
{
    let k = at / BLOCK_SIZE;
    if seen.len() <= k {
        return;
    }
    if e - at < LONG {
        return;
    }
    seen[k] = (at % BLOCK_SIZE + BLOCK_SIZE * (e - at)) as u32;
}

// One method that descriptors may share: where it is remembered, it is not read again. The tables are lent for its flags and name.
fn read_again(
    pool: &[u8],
    c: Context,
    at: usize,
    flags: &mut [u8; OWN_LIMIT],
    names: &mut [u32; OWN_LIMIT],
    seen: &mut [u32],
) -> Result<usize, Refusal>
    requires { (at ≤ length pool.now) × (c.base + length pool.now ≤ file_limit) × (own_limit ≡ length flags.old) × (own_limit ≡ length names.old) × Remembered c pool.now seen.old }
    ensures { (result ≡ step_of (read_method c pool.now at)) × (own_limit ≡ length flags.new) × (own_limit ≡ length names.new) × Remembered c pool.now seen.new }
{
    let l = known_length(of_block(seen, at / BLOCK_SIZE), at);
    if 0 < l {
        return Ok(at + l);
    }
    let e = read_methods(pool, c, 1, at, flags, names)?;
    remember(pool, c, at, e, seen);
    Ok(e)
}

// n methods, as `read_methods` reads them, with a table of methods that were accepted.
fn read_shared(
    pool: &[u8],
    c: Context,
    n: usize,
    at: usize,
    flags: &mut [u8; OWN_LIMIT],
    names: &mut [u32; OWN_LIMIT],
    seen: &mut [u32],
) -> Result<usize, Refusal>
    requires { (at ≤ length pool.now) × (c.base + length pool.now ≤ file_limit) × (n ≤ own_limit) × (own_limit ≡ length flags.old) × (own_limit ≡ length names.old) × Remembered c pool.now seen.old }
    ensures { Noted c pool.now n at result flags.new names.new × Remembered c pool.now seen.new }
{
    let mut own_flags = [0u8; OWN_LIMIT];
    let mut own_names = [0u32; OWN_LIMIT];
    let mut p = at;
    for k in 0..n {
        let e = read_again(pool, c, p, &mut own_flags, &mut own_names, seen)?;
        flags[k] = pool[p];
        names[k] = number::u32_at(pool, p + 1);
        p = e;
    }
    Ok(p)
}

// The same where the table may have no place: then nothing is remembered, and no method pays for it.
pub fn read_methods_with(
    pool: &[u8],
    c: Context,
    n: usize,
    at: usize,
    flags: &mut [u8; OWN_LIMIT],
    names: &mut [u32; OWN_LIMIT],
    seen: &mut [u32],
) -> Result<usize, Refusal>
    requires { (at ≤ length pool.now) × (c.base + length pool.now ≤ file_limit) × (n ≤ own_limit) × (own_limit ≡ length flags.old) × (own_limit ≡ length names.old) × Remembered c pool.now seen.old }
    ensures { Noted c pool.now n at result flags.new names.new × Remembered c pool.now seen.new }
{
    if seen.len() == 0 {
        return read_methods(pool, c, n, at, flags, names);
    }
    read_shared(pool, c, n, at, flags, names, seen)
}
