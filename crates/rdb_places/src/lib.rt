//! Where the elements of an entity's counted lists stand in an accepted types.rdb.
#![tactic(auto)]

ghost use Rattle.std.specs.Prelude.{◌≡◌, true, ◌+◌, ◌≤◌, length, get_or};
ghost use Rattle.number.specs.Limits.{file_limit};
ghost use Rattle.reading.specs.Got.{Accepted};
ghost use Rattle.rdb_text.specs.Field.{counted};
ghost use Rattle.rdb_interface.specs.Interface.{read_interface};
ghost use Rattle.rdb_file.specs.Kind.{is_annotated};
ghost use Rattle.rdb_path.specs.Reached.{Visited};
ghost use Rattle.rdb_ends.specs.Ends.{item_end};
ghost use Rattle.rdb_ends.specs.Here.{read_item};
ghost use Rattle.rdb_places.specs.Lists.{constant_count, entry_count};
ghost use Rattle.rdb_places.specs.Places.{place_in, optionals_at, attributes_at, methods_at, own_notes_at, member_place, base_place, optional_place, attribute_place, method_place, notes_place};

use rdb_ends::Item;
use rdb_file::{ENUM, GROUP, INTERFACE, MODULE};
use rdb_interface::SetCount;
use rdb_map::ENTRY_BYTES;

// Element i of the counted list at `at`.
fn item_place(
    file: &[u8],
    item: Item,
    m: SetCount,
    annotated: bool,
    at: usize,
    i: usize,
) -> Option<usize>
    requires { (length file.now ≤ file_limit) × Accepted (counted (read_item item m annotated file.now) file.now at) }
    ensures { result ≡ place_in (item_end item m annotated file.now) file.now at i }
{
    let n = rdb_ends::count_at(file, at);
    if i < n {
        return Some(rdb_ends::items_after(file, item, m, annotated, i, at + 4));
    }
    None
}

// Where the lists of an interface start, after its kind byte at o.
fn optionals_at(file: &[u8], m: SetCount, annotated: bool, o: usize) -> usize
    requires { (length file.now ≤ file_limit) × Accepted (read_interface m annotated file.now (o + 1)) }
    ensures { result ≡ optionals_at m annotated file.now o }
{
    rdb_ends::items_end(file, Item::Base, m, annotated, o + 1)
}

fn attributes_at(file: &[u8], m: SetCount, annotated: bool, o: usize) -> usize
    requires { (length file.now ≤ file_limit) × Accepted (read_interface m annotated file.now (o + 1)) }
    ensures { result ≡ attributes_at m annotated file.now o }
{
    let p = optionals_at(file, m, annotated, o);
    rdb_ends::items_end(file, Item::Base, m, annotated, p)
}

fn methods_at(file: &[u8], m: SetCount, annotated: bool, o: usize) -> usize
    requires { (length file.now ≤ file_limit) × Accepted (read_interface m annotated file.now (o + 1)) }
    ensures { result ≡ methods_at m annotated file.now o }
{
    let p = attributes_at(file, m, annotated, o);
    rdb_ends::items_end(file, Item::Attribute, m, annotated, p)
}

fn own_notes_at(file: &[u8], m: SetCount, annotated: bool, o: usize) -> usize
    requires { (length file.now ≤ file_limit) × Accepted (read_interface m annotated file.now (o + 1)) }
    ensures { result ≡ own_notes_at m annotated file.now o }
{
    let p = methods_at(file, m, annotated, o);
    rdb_ends::items_end(file, Item::Method, m, annotated, p)
}

/// Member i of the entity at o.
pub fn member_place(file: &[u8], m: SetCount, o: usize, i: usize) -> Option<usize>
    requires { (length file.now ≤ file_limit) × Visited m file.now o }
    ensures { result ≡ member_place m file.now o i }
{
    let k = file[o];
    if k % 32 != ENUM {
        return None;
    }
    let a = rdb_file::is_annotated(k);
    item_place(file, Item::Member, m, a, o + 1, i)
}

/// Mandatory base i.
pub fn base_place(file: &[u8], m: SetCount, o: usize, i: usize) -> Option<usize>
    requires { (length file.now ≤ file_limit) × Visited m file.now o }
    ensures { result ≡ base_place m file.now o i }
{
    let k = file[o];
    if k % 32 != INTERFACE {
        return None;
    }
    let a = rdb_file::is_annotated(k);
    item_place(file, Item::Base, m, a, o + 1, i)
}

/// Optional base i.
pub fn optional_place(file: &[u8], m: SetCount, o: usize, i: usize) -> Option<usize>
    requires { (length file.now ≤ file_limit) × Visited m file.now o }
    ensures { result ≡ optional_place m file.now o i }
{
    let k = file[o];
    if k % 32 != INTERFACE {
        return None;
    }
    let a = rdb_file::is_annotated(k);
    let p = optionals_at(file, m, a, o);
    item_place(file, Item::Base, m, a, p, i)
}

/// Attribute i.
pub fn attribute_place(file: &[u8], m: SetCount, o: usize, i: usize) -> Option<usize>
    requires { (length file.now ≤ file_limit) × Visited m file.now o }
    ensures { result ≡ attribute_place m file.now o i }
{
    let k = file[o];
    if k % 32 != INTERFACE {
        return None;
    }
    let a = rdb_file::is_annotated(k);
    let p = attributes_at(file, m, a, o);
    item_place(file, Item::Attribute, m, a, p, i)
}

/// Method i.
pub fn method_place(file: &[u8], m: SetCount, o: usize, i: usize) -> Option<usize>
    requires { (length file.now ≤ file_limit) × Visited m file.now o }
    ensures { result ≡ method_place m file.now o i }
{
    let k = file[o];
    if k % 32 != INTERFACE {
        return None;
    }
    let a = rdb_file::is_annotated(k);
    let p = methods_at(file, m, a, o);
    item_place(file, Item::Method, m, a, p, i)
}

// The counted annotations of the entity at o, which is annotated.
fn noted_place(file: &[u8], m: SetCount, o: usize) -> Option<usize>
    requires { (length file.now ≤ file_limit) × Visited m file.now o × (is_annotated (get_or file.now o 0) ≡ true) }
    ensures { result ≡ notes_place m file.now o }
{
    let k = file[o];
    if k % 32 == ENUM {
        return Some(rdb_ends::items_end(file, Item::Member, m, true, o + 1));
    }
    if k % 32 == INTERFACE {
        return Some(own_notes_at(file, m, true, o));
    }
    if k % 32 == GROUP {
        let n = rdb_ends::count_at(file, o + 1);
        return Some(o + 5 + ENTRY_BYTES * n);
    }
    None
}

/// Those of any entity.
pub fn notes_place(file: &[u8], m: SetCount, o: usize) -> Option<usize>
    requires { (length file.now ≤ file_limit) × Visited m file.now o }
    ensures { result ≡ notes_place m file.now o }
{
    if rdb_file::is_annotated(file[o]) {
        return noted_place(file, m, o);
    }
    None
}

/// The number of constants of the entity at o.
pub fn constant_count(file: &[u8], o: usize) -> usize
    requires { (m : SetCount) × Visited m file.now o }
    ensures { result ≡ constant_count file.now o }
{
    if file[o] % 32 != GROUP {
        return 0;
    }
    rdb_ends::count_at(file, o + 1)
}

/// The number of its entries.
pub fn entry_count(file: &[u8], o: usize) -> usize
    requires { (m : SetCount) × Visited m file.now o }
    ensures { result ≡ entry_count file.now o }
{
    if file[o] == MODULE {
        return rdb_ends::count_at(file, o + 1);
    }
    constant_count(file, o)
}
