//! Constants.
ghost use Rattle.std.specs.Prelude.{◌≡◌, ◌+◌, ◌≤◌, length, IfOk};
ghost use Rattle.number.specs.Limits.{file_limit};
ghost use Rattle.reading.specs.Got.{step_of, many};
ghost use Rattle.descriptor.specs.Constant.{value_size, read_constant};
ghost use Rattle.descriptor.specs.Descriptor.{read_counted};

use number::OWN_LIMIT;
use reading::{Context, Refusal, Rule};

/// The bytes of a value, by its type byte; 0 for a byte that is no type.
#[tactic(auto, using(number::proofs::Choice::tests), unfolding(crate::specs::Constant::value_size))]
fn value_size(kind: u8) -> usize
    ensures { result ≡ value_size kind }
{
    match kind {
        1 | 5 => 2,
        2 | 6 => 4,
        _ => 0,
    }
}

/// A constant.
#[tactic(auto, using(reading::proofs::Steps::walks, crate::proofs::ConstantLaws::constants), unfolding(crate::specs::Constant::read_constant, reading::specs::Got::next))]
pub fn read_constant(pool: &[u8], c: Context, at: usize) -> Result<usize, Refusal>
    requires { (at ≤ length pool.now) × (c.base + length pool.now ≤ file_limit) }
    ensures reads { result ≡ step_of (read_constant c pool.now at) }
    ensures within { IfOk result (λ e. e ≤ length pool.now) }
{
    let e = name::read_name(pool, c, at)?;
    if pool.len() <= e {
        return Err(Rule::Outside.at(c.base + e));
    }
    let size = value_size(pool[e]);
    if size == 0 {
        return Err(Rule::Between.at(c.base + e));
    }
    let d = e + 1;
    if pool.len() < d + size {
        return Err(Rule::Outside.at(c.base + d));
    }
    Ok(d + size)
}

/// n constants.
#[tactic(auto, using(reading::proofs::Loops::records))]
fn read_constants(pool: &[u8], c: Context, n: usize, at: usize) -> Result<usize, Refusal>
    requires { (at ≤ length pool.now) × (c.base + length pool.now ≤ file_limit) }
    ensures reads { result ≡ step_of (many (read_constant c pool.now) n at) }
    ensures within { IfOk result (λ e. e ≤ length pool.now) }
{
    let mut p = at;
    for _ in 0..n {
        p = read_constant(pool, c, p)?;
    }
    Ok(p)
}

/// Their count, and that many.
#[tactic(auto, using(reading::proofs::Steps::walks), unfolding(crate::specs::Descriptor::read_counted, reading::specs::Got::next))]
pub fn read_all_constants(pool: &[u8], c: Context, at: usize) -> Result<usize, Refusal>
    requires { (at ≤ length pool.now) × (c.base + length pool.now ≤ file_limit) }
    ensures reads { result ≡ step_of (read_counted (read_constant c pool.now) c pool.now at) }
    ensures within { IfOk result (λ e. e ≤ length pool.now) }
{
    if pool.len() < at + 2 {
        return Err(Rule::Outside.at(c.base + at));
    }
    let n = usize::from(number::u16_at(pool, at));
    if OWN_LIMIT < n {
        return Err(Rule::TooMany.at(c.base + at));
    }
    read_constants(pool, c, n, at + 2)
}
