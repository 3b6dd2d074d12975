// Which rule of 8 or of 16 was broken. Positions are in the pool; places are in the file.
#![tactic(auto)]

ghost use Rattle.std.specs.Prelude.{true, false, ◌≡◌, ◌+◌, ◌≤◌, length};
ghost use Rattle.number.specs.Limits.{file_limit, own_limit};
ghost use Rattle.method.specs.Parameter.{read_param};
ghost use Rattle.method.specs.Method.{read_method};
ghost use Rattle.broken.specs.Stop.{stop_of};
ghost use Rattle.broken.specs.Rule.{position_rule, stop_rule, signature_rule, method_rule, member_rule, table_rule, descriptor_rule, own_rule};

use number::OWN_LIMIT;
use reading::Context;

// Where the reading of records in turn stops: how many are read, and the position of the first that is refused, or behind the last.
#[derive(Clone, Copy, Debug, PartialEq, Eq)]
pub struct Stop {
    pub read: usize,
    pub at: usize,
}

// The rule of 8.
pub fn position_rule(file: &[u8], place: usize) -> u8
    ensures { result ≡ position_rule file.now place }
{
    if file.len() < 32 {
        return 0;
    }
    if place == 28 {
        return 3;
    }
    if number::u16_at(file, 18) == 0 {
        return 4;
    }
    if number::u32_at(file, 24) % 4 != 0 {
        return 1;
    }
    2
}

// Where the reading of n arguments stops.
fn argument_stop(pool: &[u8], c: Context, n: usize, at: usize) -> Stop
    requires { (at ≤ length pool.now) × (c.base + length pool.now ≤ file_limit) }
    ensures { result ≡ stop_of (read_param false c pool.now) n at }
{
    let mut p = at;
    for k in 0..n {
        let Ok(e) = method::params::read_param(pool, c, false, p) else {
            return Stop { read: k, at: p };
        };
        p = e;
    }
    Stop { read: n, at: p }
}

// Where the reading of n methods stops.
fn method_stop(pool: &[u8], c: Context, n: usize, at: usize) -> Stop
    requires { (at ≤ length pool.now) × (c.base + length pool.now ≤ file_limit) }
    ensures { result ≡ stop_of (read_method c pool.now) n at }
{
    let mut p = at;
    for k in 0..n {
        let Ok(e) = method::read_method(pool, c, p) else {
            return Stop { read: k, at: p };
        };
        p = e;
    }
    Stop { read: n, at: p }
}

// The rule of the parameter that the reading of n arguments stops at.
fn stop_rule(c: Context, n: usize, place: usize, t: Stop) -> u8
    requires { c.base + t.at ≤ file_limit }
    ensures { result ≡ stop_rule c n place t }
{
    let base = c.base;
    let at = t.at;
    let read = t.read;
    if place != base + at {
        return 1;
    }
    if read == n {
        return 3;
    }
    2
}

// The rule of a method of n arguments, which are read from `at` on.
fn signature_rule(pool: &[u8], c: Context, n: usize, at: usize) -> u8
    requires { (at ≤ length pool.now) × (c.base + length pool.now ≤ file_limit) × (n ≤ 255) }
    ensures { result ≡ signature_rule c pool.now n at }
{
    let mut table = [0u8; 256];
    let a = method::params::read_arguments(pool, c, n, at, &mut table);
    let Ok(mid) = a else {
        return 0;
    };
    let b = method::params::read_param(pool, c, true, mid);
    let Ok(end) = b else {
        return 0;
    };
    if method::walk::wrong_arguments(pool, c, n, at, &table) {
        return 4;
    }
    match method::walk::outer_numbers(pool, c, mid + 1, n, &table) {
        Some(e) => 5,
        None => 4,
    }
}

// The rule of the method at `at`.
fn method_rule(pool: &[u8], c: Context, at: usize, place: usize) -> u8
    requires { (at ≤ length pool.now) × (c.base + length pool.now ≤ file_limit) }
    ensures { result ≡ method_rule c pool.now at place }
{
    let base = c.base;
    if pool.len() < at + 6 {
        return 0;
    }
    let n = pool[at + 5] as usize;
    if place == base + at {
        return signature_rule(pool, c, n, at + 6);
    }
    stop_rule(c, n, place, argument_stop(pool, c, n, at + 6))
}

// The rule of what the reading of n methods stops at.
fn member_rule(pool: &[u8], c: Context, n: usize, place: usize, t: Stop) -> u8
    requires { (t.at ≤ length pool.now) × (c.base + length pool.now ≤ file_limit) }
    ensures { result ≡ member_rule c pool.now n place t }
{
    let read = t.read;
    let at = t.at;
    if read == n {
        return 8;
    }
    method_rule(pool, c, at, place)
}

// The rule of n methods that are read from `at` on.
fn table_rule(pool: &[u8], c: Context, n: usize, at: usize) -> u8
    requires { (at ≤ length pool.now) × (c.base + length pool.now ≤ file_limit) × (n ≤ own_limit) }
    ensures { result ≡ table_rule c pool.now n at }
{
    let mut flags = [0u8; OWN_LIMIT];
    let mut names = [0u32; OWN_LIMIT];
    let r = method::read_methods(pool, c, n, at, &mut flags, &mut names);
    let Ok(e) = r else {
        return 0;
    };
    if descriptor::many_constructors(&flags, n) {
        return 6;
    }
    7
}

// The rule of the descriptor at `at`.
fn descriptor_rule(pool: &[u8], c: Context, at: usize, place: usize) -> u8
    requires { (at ≤ 4294967295) × (c.base + length pool.now ≤ file_limit) }
    ensures { result ≡ descriptor_rule c pool.now at place }
{
    let base = c.base;
    if pool.len() < at + 4 {
        return 0;
    }
    let n = number::u16_at(pool, at + 2) as usize;
    if OWN_LIMIT < n {
        return 0;
    }
    if place == base + at {
        return table_rule(pool, c, n, at + 4);
    }
    member_rule(pool, c, n, place, method_stop(pool, c, n, at + 4))
}

// The rule of the descriptor that the pool pointer q leads to.
pub fn own_rule(pool: &[u8], c: Context, q: usize, place: usize) -> u8
    requires { (q ≤ 4294967295) × (c.base + length pool.now ≤ file_limit) }
    ensures { result ≡ own_rule c pool.now q place }
{
    if q == 0 {
        return 0;
    }
    descriptor_rule(pool, c, q - 1, place)
}
