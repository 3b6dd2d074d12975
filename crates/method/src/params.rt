// Parameters.
ghost use Rattle.std.specs.Prelude.{false, ◌≡◌, ◌+◌, ◌≤◌, length};
ghost use Rattle.number.specs.Limits.{file_limit};
ghost use Rattle.reading.specs.Got.{step_of, many};
ghost use Rattle.method.specs.Parameter.{reserved_param, wrong_param, read_param};
ghost use Rattle.method.specs.Tables.{Listed, Signs};

use crate::{DIPPER, LOWEST, OUT, RETVAL};
use reading::{Context, Refusal, Rule};

/// Where the result of a signature starts and where it ends.
#[derive(Clone, Copy, Debug, PartialEq, Eq)]
pub struct Span {
    pub mid: usize,
    pub end: usize,
}

// Whether parameter flags have a reserved bit.
#[tactic(auto, using(number::proofs::Choice::tests), unfolding(crate::specs::Parameter::reserved_param))]
fn reserved_param(minor: usize, f: u8) -> bool
    ensures { result ≡ reserved_param minor f }
{
    if f % LOWEST != 0 {
        return true;
    }
    if minor == 0 {
        return f / DIPPER % 2 == 1;
    }
    false
}

// Whether the flags of an argument, or of a result, break a rule.
#[tactic(auto, using(number::proofs::Choice::tests), unfolding(crate::specs::Parameter::wrong_param))]
fn wrong_param(res: bool, f: u8) -> bool
    ensures { result ≡ wrong_param res f }
{
    if res {
        return OUT <= f;
    }
    if f / RETVAL % 2 == 1 {
        return f / OUT % 2 == 0;
    }
    false
}

// An argument or, where `res` says so, a result.
pub fn read_param(pool: &[u8], c: Context, res: bool, at: usize) -> Result<usize, Refusal>
    requires { (at ≤ length pool.now) × (c.base + length pool.now ≤ file_limit) }
    ensures { result ≡ step_of (read_param res c pool.now at) }
{
    if pool.len() <= at {
        return Err(Rule::Outside.at(c.base + at));
    }
    let f = pool[at];
    if reserved_param(c.minor, f) {
        return Err(Rule::Reserved.at(c.base + at));
    }
    if wrong_param(res, f) {
        return Err(Rule::Between.at(c.base + at));
    }
    // answered anew: handed on, an answer is copied through memory
    let end = types::read_type(pool, c, 8, at + 1)?;
    Ok(end)
}

// The same, for one caller, in which it is inlined: what is refused is told by the function above.
fn read_row(pool: &[u8], c: Context, res: bool, at: usize) -> Result<usize, Refusal>
    requires { (at ≤ length pool.now) × (c.base + length pool.now ≤ file_limit) }
    ensures { result ≡ step_of (read_param res c pool.now at) }
{
    if pool.len() <= at {
        return read_param(pool, c, res, at);
    }
    let f = pool[at];
    if reserved_param(c.minor, f) {
        return read_param(pool, c, res, at);
    }
    if wrong_param(res, f) {
        return read_param(pool, c, res, at);
    }
    types::read_outer(pool, c, at + 1)
}

// n arguments; the table gets the prefixes of their types.
pub fn read_arguments(
    pool: &[u8],
    c: Context,
    n: usize,
    at: usize,
    table: &mut [u8; 256],
) -> Result<usize, Refusal>
    requires { (at ≤ length pool.now) × (c.base + length pool.now ≤ file_limit) × (n ≤ 255) × (256 ≡ length table.old) }
    ensures { Listed (many (read_param false c pool.now) n at) n result table.new }
{
    let mut p = at;
    for k in 0..n {
        let e = read_param(pool, c, false, p)?;
        table[k] = pool[p + 1];
        p = e;
    }
    Ok(p)
}

// n arguments and the result, read in one loop; the table gets the prefixes of the arguments' types.
pub fn read_parameters(
    pool: &[u8],
    c: Context,
    n: usize,
    at: usize,
    table: &mut [u8; 256],
) -> Result<Span, Refusal>
    requires { (at ≤ length pool.now) × (c.base + length pool.now ≤ file_limit) × (n ≤ 255) × (256 ≡ length table.old) }
    ensures { Signs c pool.now n at result table.new }
{
    let mut k: usize = 0;
    let mut p = at;
    // A `for` over the arguments would want a second call of `read_row` for the result, which is inlined in its one caller.
    loop {
        let last = k == n;
        let e = read_row(pool, c, last, p)?;
        if last {
            return Ok(Span { mid: p, end: e });
        }
        table[k] = pool[p + 1];
        p = e;
        k += 1;
    }
}
