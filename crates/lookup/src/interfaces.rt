//! Interfaces of an accepted file, by IID and by key.
ghost use Rattle.std.specs.Prelude.{◌≡◌, ◌<◌, ◌≤◌, length, get_or};
ghost use Rattle.number.specs.Limits.{file_limit};
ghost use Rattle.key.specs.Word.{same_word};
ghost use Rattle.key.specs.Key.{space_at};
ghost use Rattle.key.specs.Pointer.{Spaced};
ghost use Rattle.reader.specs.Values.{no_entry};
ghost use Rattle.reader.specs.Layout.{Lies};
ghost use Rattle.lookup.specs.Question.{bad_iid, bad_space, has_key, interface_as, interface_where, iid_answer, looks_answer, key_answer};
ghost use Rattle.lookup.specs.Holding.{Answers, PoolOf};

use crate::malformed;
use halving::Looked;
use reader::Layout;
use reading::Refusal;

// Whether a question's IID is malformed.
fn bad_iid(iid: &[u8]) -> bool
    ensures { result ≡ bad_iid iid.now }
{
    if iid.len() != 16 {
        return true;
    }
    if number::u64_at(iid, 0) == 0 {
        return number::u64_at(iid, 8) == 0;
    }
    false
}

/// Interface by IID.
pub fn by_iid(file: &[u8], l: Layout, iid: &[u8]) -> Result<Option<usize>, Refusal>
    requires { Lies file.now l }
    ensures { Answers file.now l (λ es. iid_answer es iid.now) result }
{
    if bad_iid(iid) {
        return Err(malformed());
    }
    match halving::look(file, l, iid) {
        Looked::Found(i, _) => Ok(Some(i)),
        Looked::None(_) => Ok(None),
    }
}

/// The same, with the number of entries looked at.
pub fn by_iid_counted(file: &[u8], l: Layout, iid: &[u8]) -> Result<Looked, Refusal>
    requires { Lies file.now l }
    ensures { Answers file.now l (λ es. looks_answer es iid.now) result }
{
    if bad_iid(iid) {
        return Err(malformed());
    }
    Ok(halving::look(file, l, iid))
}

// Whether a question's namespace is malformed.
fn bad_space(space: &[u8]) -> bool
    ensures { result ≡ bad_space space.now }
{
    if space.len() == 0 {
        return false;
    }
    if reader::is_identifier(space) {
        return false;
    }
    true
}

// Whether the namespace that the pool pointer v leads to has the bytes of `space`.
fn same_space(pool: &[u8], v: usize, space: &[u8]) -> bool
    requires { Spaced pool.now v × (length pool.now ≤ file_limit) }
    ensures { result ≡ same_word (space_at pool.now v) space.now }
{
    if v == 0 {
        return space.len() == 0;
    }
    key::same_word(pool, v, space)
}

// Whether entry i has the key of `space` and `name`.
fn has_key(file: &[u8], pool: &[u8], l: Layout, i: usize, space: &[u8], name: &[u8]) -> bool
    requires { Lies file.now l × (i < l.count) × PoolOf file.now l pool.now }
    ensures { Answers file.now l (λ es. has_key space.now name.now (get_or es i no_entry)) result }
{
    let q = reader::entry::name_pointer(file, l, i);
    if key::same_word(pool, q, name) {
        return same_space(pool, reader::entry::space_pointer(file, l, i), space);
    }
    false
}

// The entry with that key.
fn find_key(
    file: &[u8],
    pool: &[u8],
    l: Layout,
    space: &[u8],
    name: &[u8],
) -> Result<Option<usize>, Refusal>
    requires { Lies file.now l × PoolOf file.now l pool.now }
    ensures { Answers file.now l (λ es. interface_as (interface_where (has_key space.now name.now) es)) result }
{
    for i in 0..l.count {
        if has_key(file, pool, l, i, space, name) {
            return Ok(Some(i + 1));
        }
    }
    Ok(None)
}

/// Interface by key.
pub fn by_key(file: &[u8], l: Layout, space: &[u8], name: &[u8]) -> Result<Option<usize>, Refusal>
    requires { Lies file.now l }
    ensures { Answers file.now l (λ es. key_answer es space.now name.now) result }
{
    if bad_space(space) {
        return Err(malformed());
    }
    if !reader::is_identifier(name) {
        return Err(malformed());
    }
    find_key(file, &file[l.pool..], l, space, name)
}
