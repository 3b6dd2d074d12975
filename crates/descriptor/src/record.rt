//! Interface descriptors.
ghost use Rattle.std.specs.Prelude.{◌≡◌, ◌+◌, ◌≤◌, length, IfOk};
ghost use Rattle.number.specs.Limits.{file_limit, own_limit};
ghost use Rattle.reading.specs.Got.{step_of};
ghost use Rattle.method.specs.Tables.{Remembered};
ghost use Rattle.descriptor.specs.Tables.{Led, Tabled, cell, word_in};
ghost use Rattle.descriptor.specs.Descriptor.{reserved_interface, read_parent, read_flags, read_descriptor};

use number::OWN_LIMIT;
use reading::{Context, Refusal, Rule};

/// The parent's index.
#[tactic(auto, using(reading::proofs::Steps::walks, number::proofs::Choice::tests), unfolding(crate::specs::Descriptor::read_parent, reading::specs::Got::next))]
fn read_parent(pool: &[u8], c: Context, at: usize) -> Result<usize, Refusal>
    requires { (at ≤ length pool.now) × (c.base + length pool.now ≤ file_limit) }
    ensures reads { result ≡ step_of (read_parent c pool.now at) }
    ensures within { IfOk result (λ e. e ≤ length pool.now) }
{
    if pool.len() < at + 2 {
        return Err(Rule::Outside.at(c.base + at));
    }
    if c.count < usize::from(number::u16_at(pool, at)) {
        return Err(Rule::Index.at(c.base + at));
    }
    Ok(at + 2)
}

/// The method count at `at` and that many methods, their flags and name pointers noted in tables.
fn read_all_methods(
    pool: &[u8],
    c: Context,
    at: usize,
    flags: &mut [u8; OWN_LIMIT],
    names: &mut [u32; OWN_LIMIT],
    seen: &mut [u32],
) -> Result<usize, Refusal>
    requires { (at ≤ length pool.now) × (c.base + length pool.now ≤ file_limit) × (own_limit ≡ length flags.old) × (own_limit ≡ length names.old) × Remembered c pool.now seen.old }
    ensures tabled { Tabled c pool.now at result flags.new names.new }
    ensures remembered { Remembered c pool.now seen.new }
{
    if pool.len() < at + 2 {
        return Err(Rule::Outside.at(c.base + at));
    }
    let n = usize::from(number::u16_at(pool, at));
    if OWN_LIMIT < n {
        return Err(Rule::TooMany.at(c.base + at));
    }
    method::read_methods_with(pool, c, n, at + 2, flags, names, seen)
}

/// The lower of the two flags.
const FUNCTION: u8 = 0x40;

/// Whether interface flags have a reserved bit.
#[tactic(auto, using(number::proofs::Choice::tests), unfolding(crate::specs::Descriptor::reserved_interface))]
fn reserved_interface(minor: usize, f: u8) -> bool
    ensures { result ≡ reserved_interface minor f }
{
    f % FUNCTION != 0 || minor == 0 && f / FUNCTION % 2 == 1
}

/// The flags at `at` of the descriptor at `first`, and the rules on its n methods.
#[tactic(auto, using(reading::proofs::Steps::walks), unfolding(crate::specs::Descriptor::read_flags, reading::specs::Got::next))]
fn read_flags(
    pool: &[u8],
    c: Context,
    first: usize,
    at: usize,
    n: usize,
    flags: &[u8; OWN_LIMIT],
    names: &[u32; OWN_LIMIT],
) -> Result<usize, Refusal>
    requires { (at ≤ length pool.now) × (first ≤ length pool.now) × (c.base + length pool.now ≤ file_limit) × (n ≤ own_limit) × (own_limit ≡ length flags.now) × (own_limit ≡ length names.now) × Led pool.now names.now n }
    ensures { result ≡ step_of (read_flags c pool.now first (cell flags.now) (word_in pool.now names.now) n at) }
{
    if pool.len() <= at {
        return Err(Rule::Outside.at(c.base + at));
    }
    if reserved_interface(c.minor, pool[at]) {
        return Err(Rule::Reserved.at(c.base + at));
    }
    if crate::pairs::many_constructors(flags, n) {
        return Err(Rule::Between.at(c.base + first));
    }
    if crate::pairs::stray_pairs(pool, flags, names, n) {
        return Err(Rule::Between.at(c.base + first));
    }
    Ok(at + 1)
}

/// A descriptor, with tables for its methods' flags and names, whatever stands in them, and one of methods that were accepted.
pub fn read_with(
    pool: &[u8],
    c: Context,
    at: usize,
    flags: &mut [u8; OWN_LIMIT],
    names: &mut [u32; OWN_LIMIT],
    seen: &mut [u32],
) -> Result<usize, Refusal>
    requires { (at ≤ length pool.now) × (c.base + length pool.now ≤ file_limit) × (own_limit ≡ length flags.old) × (own_limit ≡ length names.old) × Remembered c pool.now seen.old }
    ensures { (result ≡ step_of (read_descriptor c pool.now at)) × (own_limit ≡ length flags.new) × (own_limit ≡ length names.new) × Remembered c pool.now seen.new }
{
    let e = read_parent(pool, c, at)?;
    let mid = read_all_methods(pool, c, e, flags, names, seen)?;
    let end = crate::constant::read_all_constants(pool, c, mid)?;
    let n = usize::from(number::u16_at(pool, e));
    read_flags(pool, c, at, end, n, flags, names)
}

/// A descriptor.
pub fn read_descriptor(pool: &[u8], c: Context, at: usize) -> Result<usize, Refusal>
    requires { (at ≤ length pool.now) × (c.base + length pool.now ≤ file_limit) }
    ensures { result ≡ step_of (read_descriptor c pool.now at) }
{
    let mut flags = [0u8; OWN_LIMIT];
    let mut names = [0u32; OWN_LIMIT];
    let mut none = [0u32; 0];
    read_with(pool, c, at, &mut flags, &mut names, &mut none)
}
