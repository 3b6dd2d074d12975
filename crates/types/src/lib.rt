//! Reads a type. Positions are in the pool; places are in the file.
#![tactic(auto)]

ghost use Rattle.std.specs.Prelude.{true, ◌≡◌, ◌+◌, ◌≤◌, ◌<◌, length, get_or, IfOk, Ok};
ghost use Rattle.number.specs.Limits.{file_limit};
ghost use Rattle.reading.specs.Got.{step_of, byte};
ghost use Rattle.reading.specs.declared.Context.{Context};
ghost use Rattle.types.specs.Prefix.{pointer_bit, tag_of, array_tag};
ghost use Rattle.types.specs.Types.{class_of, is_reserved, needs_pointer, lacks_pointer, read_index, read_rest, read_array, read_type};

use reading::{Context, Refusal, Rule};

/// The bits of a prefix; its tag is what lies below the reference bit.
pub const POINTER: u8 = 0x80;

pub const REFERENCE: u8 = 0x20;

/// Tags that rules between fields name.
pub const UINT32: u8 = 6;

pub const VOID: u8 = 13;

pub const IID: u8 = 14;

/// The tag of an array.
pub const ARRAY: u8 = 20;

/// The first and the last of the three more strings.
pub const UTF8STRING: u8 = 23;

pub const FURTHER_ASTRING: u8 = 25;

/// The minor version that brought them.
pub const STRINGS_MINOR: u8 = 2;

/// What a tag stands for.
#[derive(Clone, Copy, Debug, PartialEq, Eq)]
pub enum Class {
    Reserved,
    Plain,
    Text,
    Interface,
    InterfaceIs,
    Array,
    Sized,
}

/// What a tag stands for under a minor version. The minor is tested inside its arms: guards would make a chain of tests
/// of one jump by the tag, for each type that a link compares.
#[tactic(auto, using(number::proofs::Choice::tests), unfolding(crate::specs::Types::class_of))]
pub fn tag_class(minor: usize, tag: u8) -> Class
    ensures { result ≡ class_of minor tag }
{
    match tag {
        0..=14 => Class::Plain,
        15 => {
            if minor == 0 {
                return Class::Reserved;
            }
            Class::Plain
        }
        16..=17 => Class::Text,
        18 => Class::Interface,
        19 => Class::InterfaceIs,
        ARRAY => Class::Array,
        21..=22 => Class::Sized,
        UTF8STRING..=FURTHER_ASTRING => {
            if minor < usize::from(STRINGS_MINOR) {
                return Class::Reserved;
            }
            Class::Text
        }
        _ => Class::Reserved,
    }
}

/// Whether a tag is reserved.
#[tactic(auto, using(number::proofs::Choice::tests), unfolding(crate::specs::Types::is_reserved))]
pub fn is_reserved(k: Class) -> bool
    ensures { result ≡ is_reserved k }
{
    match k {
        Class::Reserved => true,
        _ => false,
    }
}

/// Whether a tag needs the pointer bit.
#[tactic(auto, using(number::proofs::Choice::tests), unfolding(crate::specs::Types::needs_pointer))]
pub fn needs_pointer(k: Class) -> bool
    ensures { result ≡ needs_pointer k }
{
    match k {
        Class::Reserved | Class::Plain => false,
        _ => true,
    }
}

/// Whether a prefix lacks the pointer bit that its tag, or its unique or reference bit, needs.
#[tactic(auto, using(number::proofs::Choice::tests), unfolding(crate::specs::Types::lacks_pointer))]
pub fn lacks_pointer(k: Class, b: u8) -> bool
    ensures { result ≡ lacks_pointer k b }
{
    b < POINTER && (REFERENCE <= b || needs_pointer(k))
}

/// An index of the directory.
#[tactic(auto, using(reading::proofs::Steps::walks, number::proofs::Choice::tests), unfolding(crate::specs::Types::read_index, reading::specs::Got::next))]
pub fn read_index(pool: &[u8], c: Context, at: usize) -> Result<usize, Refusal>
    requires { (at ≤ length pool.now) × (c.base + length pool.now ≤ file_limit) }
    ensures { result ≡ step_of (read_index c pool.now at) }
{
    if pool.len() < at + 2 {
        return Err(Rule::Outside.at(c.base + at));
    }
    let i = usize::from(number::u16_at(pool, at));
    if i == 0 || c.count < i {
        return Err(Rule::Index.at(c.base + at));
    }
    Ok(at + 2)
}

/// An argument number.
#[tactic(auto, using(reading::proofs::Steps::walks, number::proofs::Choice::tests), unfolding(reading::specs::Got::byte, reading::specs::Got::next))]
fn read_number(pool: &[u8], c: Context, at: usize) -> Result<usize, Refusal>
    requires { (at ≤ length pool.now) × (c.base + length pool.now ≤ file_limit) }
    ensures reads { result ≡ step_of (byte c pool.now at) }
    ensures within { IfOk result (λ e. (e ≡ at + 1) × (e ≤ length pool.now)) }
{
    if pool.len() <= at {
        return Err(Rule::Outside.at(c.base + at));
    }
    Ok(at + 1)
}

/// What follows the prefix at `at`, which is of class k. No array is left here: an array is refused.
#[tactic(auto, using(reading::proofs::Steps::walks, crate::proofs::Laws::rest_is), unfolding(crate::specs::Types::read_rest, crate::specs::Types::read_array, reading::specs::Got::next))]
fn read_plain(pool: &[u8], c: Context, k: Class, at: usize) -> Result<usize, Refusal>
    requires { (at < length pool.now) × (c.base + length pool.now ≤ file_limit) }
    ensures { result ≡ step_of (read_rest (read_array 0 c pool.now) c pool.now k at (get_or pool.now at 0) (at + 1)) }
{
    let e = at + 1;
    match k {
        Class::Reserved => Err(Rule::Reserved.at(c.base + at)),
        Class::Plain | Class::Text => Ok(e),
        Class::Interface => read_index(pool, c, e),
        Class::InterfaceIs => read_number(pool, c, e),
        Class::Array => Err(Rule::TooMany.at(c.base + at)),
        Class::Sized => {
            let f = read_number(pool, c, e)?;
            read_number(pool, c, f)
        }
    }
}

/// A type, with `left` arrays allowed one inside another.
#[cycle(read_array_read_type)]
pub fn read_type(pool: &[u8], c: Context, left: usize, at: usize) -> Result<usize, Refusal>
    requires { (at ≤ length pool.now) × (c.base + length pool.now ≤ file_limit) × (left ≤ 8) }
    ensures { result ≡ step_of (read_type left c pool.now at) }
{
    if pool.len() <= at {
        return Err(Rule::Outside.at(c.base + at));
    }
    let b = pool[at];
    let k = tag_class(c.minor, b % REFERENCE);
    if is_reserved(k) {
        return Err(Rule::Reserved.at(c.base + at));
    }
    if lacks_pointer(k, b) {
        return Err(Rule::Between.at(c.base + at));
    }
    match k {
        Class::Array => read_array(pool, c, left, at),
        _ => read_plain(pool, c, k, at),
    }
}

/// What follows an array's prefix at `at`: two argument numbers, and the element's type.
#[cycle(read_array_read_type)]
fn read_array(pool: &[u8], c: Context, left: usize, at: usize) -> Result<usize, Refusal>
    requires { (at < length pool.now) × (c.base + length pool.now ≤ file_limit) × (left ≤ 8) }
    ensures { result ≡ step_of (read_array left c pool.now at (get_or pool.now at 0) (at + 1)) }
{
    if left == 0 {
        return Err(Rule::TooMany.at(c.base + at));
    }
    let e = read_number(pool, c, at + 1)?;
    let f = read_number(pool, c, e)?;
    // answered anew: handed on, an answer is copied through memory
    let end = read_type(pool, c, left - 1, f)?;
    Ok(end)
}

/// Whether an index of a directory of `count` entries stands at `at`.
#[tactic(auto, using(reading::proofs::Steps::walks, number::proofs::Choice::tests), unfolding(crate::specs::Types::read_index, reading::specs::Got::next))]
fn is_index(pool: &[u8], count: usize, at: usize) -> bool
    requires { at ≤ length pool.now × (length pool.now ≤ file_limit) }
    ensures { result ≡ true → (c : Context) → c.count ≡ count → Ok (at + 2) ≡ step_of (read_index c pool.now at) }
{
    if pool.len() < at + 2 {
        return false;
    }
    let i = usize::from(number::u16_at(pool, at));
    i != 0 && i <= count
}

/// Where a type that is no array ends, or 0: `read_type` tells why.
#[tactic(auto, using(reading::proofs::Steps::walks, number::proofs::Choice::tests), unfolding(reading::specs::Got::next))]
fn plain_end(pool: &[u8], minor: usize, count: usize, left: usize, at: usize) -> usize
    requires { (at < length pool.now) × (length pool.now ≤ file_limit) }
    ensures { (c : Context) → c.minor ≡ minor → c.count ≡ count → 0 < result → Ok result ≡ step_of (read_type left c pool.now at) }
{
    let b = pool[at];
    let k = tag_class(minor, b % REFERENCE);
    if lacks_pointer(k, b) {
        return 0;
    }
    match k {
        Class::Plain => at + 1,
        Class::Text => at + 1,
        Class::Interface => {
            if is_index(pool, count, at + 1) {
                return at + 3;
            }
            0
        }
        Class::InterfaceIs => {
            if pool.len() < at + 2 {
                return 0;
            }
            at + 2
        }
        Class::Sized => {
            if pool.len() < at + 3 {
                return 0;
            }
            at + 3
        }
        _ => 0,
    }
}

/// Where a type ends, with `left` arrays allowed one inside another, or 0: `read_type` tells why. Numbers are handed on
/// in registers, a context and a refusal are not; with an Option the check of a file of nested arrays takes a sixth longer.
#[cycle(array_end_type_end)]
fn type_end(pool: &[u8], minor: usize, count: usize, left: usize, at: usize) -> usize
    requires { (at ≤ length pool.now) × (length pool.now ≤ file_limit) × (left ≤ 8) }
    ensures { (c : Context) → c.minor ≡ minor → c.count ≡ count → 0 < result → Ok result ≡ step_of (read_type left c pool.now at) }
{
    if pool.len() <= at {
        return 0;
    }
    if pool[at] % REFERENCE == ARRAY {
        if POINTER <= pool[at] {
            return array_end(pool, minor, count, left, at);
        }
    }
    plain_end(pool, minor, count, left, at)
}

/// Where the array at `at` ends, or 0: past its two argument numbers its element is a type.
#[cycle(array_end_type_end)]
fn array_end(pool: &[u8], minor: usize, count: usize, left: usize, at: usize) -> usize
    requires { (at < length pool.now) × (length pool.now ≤ file_limit) × (left ≤ 8) × (tag_of (get_or pool.now at 0) ≡ array_tag) × (pointer_bit ≤ get_or pool.now at 0) }
    ensures { (c : Context) → c.minor ≡ minor → c.count ≡ count → 0 < result → Ok result ≡ step_of (read_type left c pool.now at) }
{
    if left == 0 {
        return 0;
    }
    if pool.len() < at + 3 {
        return 0;
    }
    type_end(pool, minor, count, left - 1, at + 3)
}

/// A type that may hold eight arrays one inside another. The common ones are told here, where no function calls itself.
pub fn read_outer(pool: &[u8], c: Context, at: usize) -> Result<usize, Refusal>
    requires { (at ≤ length pool.now) × (c.base + length pool.now ≤ file_limit) }
    ensures { result ≡ step_of (read_type 8 c pool.now at) }
{
    let minor = c.minor;
    let count = c.count;
    if pool.len() <= at {
        return read_type(pool, c, 8, at);
    }
    let b = pool[at];
    let k = tag_class(minor, b % REFERENCE);
    if lacks_pointer(k, b) {
        return read_type(pool, c, 8, at);
    }
    match k {
        Class::Plain => Ok(at + 1),
        Class::Text => Ok(at + 1),
        Class::Interface => read_index(pool, c, at + 1),
        _ => {
            let e = type_end(pool, minor, count, 8, at);
            if e == 0 {
                return read_type(pool, c, 8, at);
            }
            Ok(e)
        }
    }
}
