//! Constants of an accepted file, by name.
ghost use Rattle.std.specs.Prelude.{◌≤◌, length};
ghost use Rattle.number.specs.Limits.{file_limit};
ghost use Rattle.reader.specs.Values.{constants_of};
ghost use Rattle.reader.specs.Records.{ShowsConstant};
ghost use Rattle.reader.specs.Layout.{Lies, Stands, Tells, Rows};
ghost use Rattle.lookup.specs.Chain.{chain_of};
ghost use Rattle.lookup.specs.Constant.{value_of, is_called, first_of, own_as, constant_named};
ghost use Rattle.lookup.specs.Question.{sought_constant, constant_answer};
ghost use Rattle.lookup.specs.Holding.{Answers, PoolOf, NamedConstant, NamedDescriptor};

use crate::{Search, Value, malformed};
use reader::Layout;
use reading::Refusal;

// The value of the constant at `at`.
fn value_of(pool: &[u8], at: usize) -> Value
    requires { Stands (ShowsConstant pool.now at) × (length pool.now ≤ file_limit) }
    ensures { Tells (ShowsConstant pool.now at) value_of result }
{
    match reader::record::constant_type(pool, at) {
        1 => Value::I16(signed::to_i16(number::u16_at(pool, at + 5))),
        2 => Value::I32(signed::to_i32(number::u32_at(pool, at + 5))),
        5 => Value::U16(number::u16_at(pool, at + 5)),
        _ => Value::U32(number::u32_at(pool, at + 5)),
    }
}

// Whether the constant at `at` has that name.
fn is_called(pool: &[u8], at: usize, name: &[u8]) -> bool
    requires { Stands (NamedConstant pool.now at) × (length pool.now ≤ file_limit) }
    ensures { Tells (NamedConstant pool.now at) (is_called name.now) result }
{
    key::same_word(pool, reader::record::constant_name(pool, at), name)
}

// The value of the first of n constants from `at` on that has that name.
fn own_constant(pool: &[u8], at: usize, n: usize, name: &[u8]) -> Option<Value>
    requires { Stands (Rows (NamedConstant pool.now) n at) × (length pool.now ≤ file_limit) }
    ensures { Tells (Rows (NamedConstant pool.now) n at) (λ ks. own_as (first_of (is_called name.now) ks)) result }
{
    let mut p = at;
    for _ in 0..n {
        if is_called(pool, p, name) {
            return Some(value_of(pool, p));
        }
        p = reader::record::constant_end(pool, p);
    }
    None
}

// The same, of the descriptor at `at`.
fn held_by(pool: &[u8], at: usize, name: &[u8]) -> Option<Value>
    requires { Stands (NamedDescriptor pool.now at) × (length pool.now ≤ file_limit) }
    ensures { Tells (NamedDescriptor pool.now at) (λ d. own_as (first_of (is_called name.now) (constants_of d))) result }
{
    let n = reader::record::method_count(pool, at);
    let e = reader::record::methods_end(pool, n, at + 4);
    let m = number::u16_at(pool, e) as usize;
    own_constant(pool, e + 2, m, name)
}

// The constant of that name on the chain of the entry of an index.
fn find_constant(file: &[u8], pool: &[u8], l: Layout, index: usize, name: &[u8]) -> Search<Value>
    requires { Lies file.now l × PoolOf file.now l pool.now × (1 ≤ index) × (index ≤ l.count) }
    ensures { Answers file.now l (λ es. sought_constant (constant_named name.now (chain_of es index))) result }
{
    let mut j = index;
    for _ in 0..l.count {
        let q = reader::entry::descriptor_pointer(file, l, j - 1);
        if q == 0 {
            return Search::Undetermined(j);
        }
        let at = q - 1;
        if let Some(v) = held_by(pool, at, name) {
            return Search::Found(v);
        }
        let up = reader::record::parent_index(pool, at);
        if up == 0 {
            return Search::None;
        }
        j = up;
    }
    Search::Undetermined(j)
}

/// Constant by index and name.
pub fn by_name(file: &[u8], l: Layout, index: u64, name: &[u8]) -> Result<Search<Value>, Refusal>
    requires { Lies file.now l }
    ensures { Answers file.now l (λ es. constant_answer es index name.now) result }
{
    if crate::methods::bad_index(l.count, index) {
        return Err(malformed());
    }
    if !reader::is_identifier(name) {
        return Err(malformed());
    }
    Ok(find_constant(file, &file[l.pool..], l, index as usize, name))
}
