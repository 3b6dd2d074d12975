//! Methods of an accepted file, by name and kind, and by slot.
ghost use Rattle.std.specs.Prelude.{◌≡◌, ◌+◌, ◌≤◌, ◌<◌, length};
ghost use Rattle.number.specs.Limits.{file_limit, own_limit};
ghost use Rattle.reader.specs.Layout.{Lies, Stands, Tells, Rows};
ghost use Rattle.lookup.specs.Chain.{chain_of, chain_above, found, first_position};
ghost use Rattle.lookup.specs.Method.{is_kind, is_named, total_of, steps_to, method_at, method_named, method_in_slot};
ghost use Rattle.lookup.specs.Question.{bad_index, slot_as, slot_number, moved_by, sought_method, method_answer, slotted_answer};
ghost use Rattle.lookup.specs.Holding.{Answers, PoolOf, NamedMethod};
ghost use Rattle.lookup.specs.declared.Slot.TheVariants.{Known};

use crate::{FoundMethod, Kind, Search, Slot, malformed};
use reader::Layout;
use reader::record::{GETTER, SETTER};
use reading::Refusal;

// Whether flags are those of a kind of method.
fn is_kind(flags: u8, kind: Kind) -> bool
    ensures { result ≡ is_kind kind flags }
{
    match kind {
        Kind::Getter => flags / GETTER % 2 == 1,
        Kind::Setter => flags / SETTER % 2 == 1,
        Kind::Plain => flags / SETTER % 4 == 0,
    }
}

// Whether the method at `at` has that name and kind.
fn is_named(pool: &[u8], at: usize, name: &[u8], kind: Kind) -> bool
    requires { Stands (NamedMethod pool.now at) × (length pool.now ≤ file_limit) }
    ensures { Tells (NamedMethod pool.now at) (is_named name.now kind) result }
{
    if is_kind(reader::record::method_flags(pool, at), kind) {
        return key::same_word(pool, reader::record::method_name(pool, at), name);
    }
    false
}

// The position of the first of n methods from `at` on that has that name and kind; n where there is none.
fn own_position(pool: &[u8], at: usize, n: usize, name: &[u8], kind: Kind) -> usize
    requires { Stands (Rows (NamedMethod pool.now) n at) × (length pool.now ≤ file_limit) }
    ensures { Tells (Rows (NamedMethod pool.now) n at) (first_position (is_named name.now kind) 0) result }
{
    let mut p = at;
    for k in 0..n {
        if is_named(pool, p, name, kind) {
            return k;
        }
        p = reader::record::method_end(pool, p);
    }
    n
}

// The slot of the method at a position, where that of the first is `base`.
fn slot_at(base: Slot, position: usize) -> Slot
    requires { slot_number base + position ≤ 2097152 }
    ensures { result ≡ moved_by position base }
{
    match base {
        Slot::Known(s) => Slot::Known(s + position),
        Slot::Undetermined(i) => Slot::Undetermined(i),
    }
}

// The method at `position` of the entry `owner`, whose parent has the index `up`; `distance` steps lead up to it from the entry of an index.
fn found_at(
    file: &[u8],
    pool: &[u8],
    l: Layout,
    index: usize,
    owner: usize,
    up: usize,
    position: usize,
    distance: usize,
) -> Search<FoundMethod>
    requires { Lies file.now l × PoolOf file.now l pool.now × (1 ≤ index) × (index ≤ l.count) × (up ≤ l.count) × (position ≤ own_limit) × Answers file.now l (λ es. steps_to (chain_of es index) (chain_above es up)) distance }
    ensures { Answers file.now l (λ es. sought_method (found (method_at (chain_of es index) owner (chain_above es up) position))) result }
{
    let base = crate::chains::slot_base(file, pool, l, up);
    let total = crate::chains::slot_base(file, pool, l, index);
    Search::Found(FoundMethod {
        owner,
        position,
        slot: slot_at(base, position),
        distance,
        total,
    })
}

// The method of that name and kind on the chain of the entry of an index.
fn find_named(
    file: &[u8],
    pool: &[u8],
    l: Layout,
    index: usize,
    name: &[u8],
    kind: Kind,
) -> Search<FoundMethod>
    requires { Lies file.now l × PoolOf file.now l pool.now × (1 ≤ index) × (index ≤ l.count) }
    ensures { Answers file.now l (λ es. sought_method (method_named name.now kind (chain_of es index))) result }
{
    let mut j = index;
    for distance in 0..l.count {
        let q = reader::entry::descriptor_pointer(file, l, j - 1);
        if q == 0 {
            return Search::Undetermined(j);
        }
        let at = q - 1;
        let n = reader::record::method_count(pool, at);
        let p = own_position(pool, at + 4, n, name, kind);
        let up = reader::record::parent_index(pool, at);
        if p < n {
            return found_at(file, pool, l, index, j, up, p, distance);
        }
        if up == 0 {
            return Search::None;
        }
        j = up;
    }
    Search::Undetermined(j)
}

// The method in the slot s, below the total, of a complete chain.
fn find_slot(
    file: &[u8],
    pool: &[u8],
    l: Layout,
    index: usize,
    total: usize,
    s: usize,
) -> Search<FoundMethod>
    requires { Lies file.now l × PoolOf file.now l pool.now × (1 ≤ index) × (index ≤ l.count) × Answers file.now l (λ es. slot_as (total_of (chain_of es index))) (Known total) × (s < total) }
    ensures { Answers file.now l (λ es. sought_method (method_in_slot s (chain_of es index))) result }
{
    let mut base = total;
    let mut j = index;
    for distance in 0..l.count {
        let q = reader::entry::descriptor_pointer(file, l, j - 1);
        let at = q - 1;
        let up = reader::record::parent_index(pool, at);
        base -= reader::record::method_count(pool, at);
        if base <= s {
            return Search::Found(FoundMethod {
                owner: j,
                position: s - base,
                slot: Slot::Known(s),
                distance,
                total: Slot::Known(total),
            });
        }
        j = up;
    }
    Search::None
}

/// Whether an index is malformed, of `count` entries.
#[tactic(auto, using(number::proofs::Choice::tests), unfolding(crate::specs::Question::bad_index))]
pub fn bad_index(count: usize, index: u64) -> bool
    ensures { result ≡ bad_index count index }
{
    index == 0 || (count as u64) < index
}

/// Method by index, name and kind.
pub fn by_name(
    file: &[u8],
    l: Layout,
    index: u64,
    name: &[u8],
    kind: Kind,
) -> Result<Search<FoundMethod>, Refusal>
    requires { Lies file.now l }
    ensures { Answers file.now l (λ es. method_answer es index name.now kind) result }
{
    if bad_index(l.count, index) {
        return Err(malformed());
    }
    if !reader::is_identifier(name) {
        return Err(malformed());
    }
    Ok(find_named(file, &file[l.pool..], l, index as usize, name, kind))
}

// Method by slot, on a chain whose slots are told by `base`.
fn in_slot(
    file: &[u8],
    pool: &[u8],
    l: Layout,
    index: usize,
    base: Slot,
    slot: u64,
) -> Search<FoundMethod>
    requires { Lies file.now l × PoolOf file.now l pool.now × (1 ≤ index) × (index ≤ l.count) × Answers file.now l (λ es. slot_as (total_of (chain_of es index))) base }
    ensures { Answers file.now l (λ es. sought_method (method_in_slot slot (chain_of es index))) result }
{
    match base {
        Slot::Known(total) => {
            if (total as u64) <= slot {
                return Search::None;
            }
            find_slot(file, pool, l, index, total, slot as usize)
        }
        Slot::Undetermined(i) => Search::Undetermined(i),
    }
}

// The same, the pool being lent beside the file.
fn slot_of(file: &[u8], pool: &[u8], l: Layout, index: usize, slot: u64) -> Search<FoundMethod>
    requires { Lies file.now l × PoolOf file.now l pool.now × (1 ≤ index) × (index ≤ l.count) }
    ensures { Answers file.now l (λ es. sought_method (method_in_slot slot (chain_of es index))) result }
{
    let base = crate::chains::slot_base(file, pool, l, index);
    in_slot(file, pool, l, index, base, slot)
}

/// Method by index and slot.
pub fn by_slot(
    file: &[u8],
    l: Layout,
    index: u64,
    slot: u64,
) -> Result<Search<FoundMethod>, Refusal>
    requires { Lies file.now l }
    ensures { Answers file.now l (λ es. slotted_answer es index slot) result }
{
    if bad_index(l.count, index) {
        return Err(malformed());
    }
    Ok(slot_of(file, &file[l.pool..], l, index as usize, slot))
}
