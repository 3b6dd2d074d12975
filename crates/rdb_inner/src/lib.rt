//! The counted lists inside a part of an entity of a types.rdb, each element by its position from 0.
#![tactic(auto)]

ghost use Rattle.std.specs.Prelude.{◌≡◌, ◌≤◌, ◌<◌, length, get_or};
ghost use Rattle.number.specs.Limits.{file_limit};
ghost use Rattle.reading.specs.Got.{Accepted};
ghost use Rattle.rdb_text.specs.Field.{counted};
ghost use Rattle.rdb_record.specs.Notes.{read_notes};
ghost use Rattle.rdb_record.specs.Constant.{read_constant};
ghost use Rattle.rdb_interface.specs.Interface.{read_sets, read_parameter};
ghost use Rattle.rdb_file.specs.File.{read_file};
ghost use Rattle.rdb_file.specs.Kind.{is_annotated};
ghost use Rattle.rdb_path.specs.Path.{cut, entity_at};
ghost use Rattle.rdb_path.specs.Reached.{Visited};
ghost use Rattle.rdb_places.specs.Lists.{interface_bases, interface_optionals, interface_attributes, interface_methods, members_of, interface_list};
ghost use Rattle.rdb_parts.specs.Parts.{nth, member_note, base_note, attribute_get, attribute_set, attribute_note, method_parameter, method_exception, method_note, constant_note, entry_note, inner_at, part_found, ask_inner};
ghost use Rattle.rdb_inner.specs.Inside.{note_text, set_text, parameter_text};

use rdb_interface::SetCount;
use rdb_map::ENTRY_BYTES;
use rdb_parts::{Inner, PartAnswer};

// Annotation j of those at `at`, where there are any.
fn note_part(file: &[u8], annotated: bool, at: usize, j: usize) -> PartAnswer
    requires { (length file.now ≤ file_limit) × Accepted (read_notes annotated file.now at) }
    ensures { result ≡ note_text annotated file.now at j }
{
    if annotated {
        return rdb_parts::list_part(file, at, j);
    }
    PartAnswer::None
}

// Set exception j of those at `at`, of an attribute with that kind byte.
fn set_part(file: &[u8], m: SetCount, kind: u8, at: usize, j: usize) -> PartAnswer
    requires { (length file.now ≤ file_limit) × Accepted (read_sets m kind file.now at) }
    ensures { result ≡ set_text m kind file.now at j }
{
    if rdb_ends::has_sets(m, kind) {
        return rdb_parts::list_part(file, at, j);
    }
    PartAnswer::None
}

// Parameter j of those counted at `at`.
fn parameter_part(file: &[u8], at: usize, j: usize) -> PartAnswer
    requires { (length file.now ≤ file_limit) × Accepted (counted (read_parameter file.now) file.now at) }
    ensures { result ≡ parameter_text file.now at j }
{
    let n = rdb_ends::count_at(file, at);
    if j < n {
        let p = rdb_ends::parameters_after(file, j, at + 4);
        return rdb_parts::typed_at(file, p);
    }
    PartAnswer::None
}

// Annotation j of the constant at q.
fn constant_note(file: &[u8], q: usize, j: usize) -> PartAnswer
    requires { (length file.now ≤ file_limit) × Accepted (read_constant file.now q) }
    ensures { result ≡ constant_note file.now j q }
{
    let k = file[q];
    if k < 128 {
        return PartAnswer::None;
    }
    let size = rdb_record::value_size(k % 128);
    rdb_parts::list_part(file, q + 1 + size, j)
}

// Annotation j of constant i of the entity at o.
fn entry_note(file: &[u8], o: usize, i: usize, j: usize) -> PartAnswer
    requires { (length file.now ≤ file_limit) × ((m : SetCount) × Visited m file.now o) }
    ensures { result ≡ entry_note file.now i j o }
{
    let n = rdb_places::constant_count(file, o);
    if i < n {
        let q = rdb_ends::count_at(file, o + 5 + ENTRY_BYTES * i + 4);
        return constant_note(file, q, j);
    }
    PartAnswer::None
}

// Whether the entity at o is annotated.
fn annotated(file: &[u8], o: usize) -> bool
    requires { o < length file.now }
    ensures { result ≡ is_annotated (get_or file.now o 0) }
{
    rdb_file::is_annotated(file[o])
}

// Annotation j of member i.
fn member_note(file: &[u8], m: SetCount, o: usize, i: usize, j: usize) -> PartAnswer
    requires { (length file.now ≤ file_limit) × Visited m file.now o }
    ensures { result ≡ nth (member_note j) i (members_of file.now o) }
{
    match rdb_places::member_place(file, m, o, i) {
        Some(p) => {
            let a = annotated(file, o);
            let q = rdb_ends::member_notes(file, p);
            note_part(file, a, q, j)
        }
        None => PartAnswer::None,
    }
}

// Of mandatory base i.
fn base_note(file: &[u8], m: SetCount, o: usize, i: usize, j: usize) -> PartAnswer
    requires { (length file.now ≤ file_limit) × Visited m file.now o }
    ensures { result ≡ nth (base_note j) i (interface_list interface_bases m file.now o) }
{
    match rdb_places::base_place(file, m, o, i) {
        Some(p) => {
            let a = annotated(file, o);
            let q = rdb_ends::text_end(file, p);
            note_part(file, a, q, j)
        }
        None => PartAnswer::None,
    }
}

// Of optional base i.
fn optional_note(file: &[u8], m: SetCount, o: usize, i: usize, j: usize) -> PartAnswer
    requires { (length file.now ≤ file_limit) × Visited m file.now o }
    ensures { result ≡ nth (base_note j) i (interface_list interface_optionals m file.now o) }
{
    match rdb_places::optional_place(file, m, o, i) {
        Some(p) => {
            let a = annotated(file, o);
            let q = rdb_ends::text_end(file, p);
            note_part(file, a, q, j)
        }
        None => PartAnswer::None,
    }
}

// Get exception j of attribute i.
fn get_exception(file: &[u8], m: SetCount, o: usize, i: usize, j: usize) -> PartAnswer
    requires { (length file.now ≤ file_limit) × Visited m file.now o }
    ensures { result ≡ nth (attribute_get j) i (interface_list interface_attributes m file.now o) }
{
    match rdb_places::attribute_place(file, m, o, i) {
        Some(p) => {
            let q = rdb_ends::attribute_gets(file, p);
            rdb_parts::list_part(file, q, j)
        }
        None => PartAnswer::None,
    }
}

// Set exception j of attribute i.
fn set_exception(file: &[u8], m: SetCount, o: usize, i: usize, j: usize) -> PartAnswer
    requires { (length file.now ≤ file_limit) × Visited m file.now o }
    ensures { result ≡ nth (attribute_set j) i (interface_list interface_attributes m file.now o) }
{
    match rdb_places::attribute_place(file, m, o, i) {
        Some(p) => {
            let q = rdb_ends::attribute_sets(file, p);
            set_part(file, m, file[p], q, j)
        }
        None => PartAnswer::None,
    }
}

// Annotation j of attribute i.
fn attribute_note(file: &[u8], m: SetCount, o: usize, i: usize, j: usize) -> PartAnswer
    requires { (length file.now ≤ file_limit) × Visited m file.now o }
    ensures { result ≡ nth (attribute_note j) i (interface_list interface_attributes m file.now o) }
{
    match rdb_places::attribute_place(file, m, o, i) {
        Some(p) => {
            let a = annotated(file, o);
            let q = rdb_ends::attribute_notes(file, m, p);
            note_part(file, a, q, j)
        }
        None => PartAnswer::None,
    }
}

// Parameter j of method i.
fn parameter_of(file: &[u8], m: SetCount, o: usize, i: usize, j: usize) -> PartAnswer
    requires { (length file.now ≤ file_limit) × Visited m file.now o }
    ensures { result ≡ nth (method_parameter j) i (interface_list interface_methods m file.now o) }
{
    match rdb_places::method_place(file, m, o, i) {
        Some(p) => {
            let q = rdb_ends::method_parameters(file, p);
            parameter_part(file, q, j)
        }
        None => PartAnswer::None,
    }
}

// Exception j of method i.
fn exception_of(file: &[u8], m: SetCount, o: usize, i: usize, j: usize) -> PartAnswer
    requires { (length file.now ≤ file_limit) × Visited m file.now o }
    ensures { result ≡ nth (method_exception j) i (interface_list interface_methods m file.now o) }
{
    match rdb_places::method_place(file, m, o, i) {
        Some(p) => {
            let q = rdb_ends::method_exceptions(file, p);
            rdb_parts::list_part(file, q, j)
        }
        None => PartAnswer::None,
    }
}

// Annotation j of method i.
fn method_note(file: &[u8], m: SetCount, o: usize, i: usize, j: usize) -> PartAnswer
    requires { (length file.now ≤ file_limit) × Visited m file.now o }
    ensures { result ≡ nth (method_note j) i (interface_list interface_methods m file.now o) }
{
    match rdb_places::method_place(file, m, o, i) {
        Some(p) => {
            let a = annotated(file, o);
            let q = rdb_ends::method_notes(file, p);
            note_part(file, a, q, j)
        }
        None => PartAnswer::None,
    }
}

// Element j of a list inside part i of the entity at o.
fn inner_at(file: &[u8], m: SetCount, which: Inner, i: usize, j: usize, o: usize) -> PartAnswer
    requires { (length file.now ≤ file_limit) × Visited m file.now o }
    ensures { result ≡ inner_at m file.now which i j o }
{
    match which {
        Inner::EntryNote => entry_note(file, o, i, j),
        Inner::MemberNote => member_note(file, m, o, i, j),
        Inner::BaseNote => base_note(file, m, o, i, j),
        Inner::OptionalNote => optional_note(file, m, o, i, j),
        Inner::GetException => get_exception(file, m, o, i, j),
        Inner::SetException => set_exception(file, m, o, i, j),
        Inner::AttributeNote => attribute_note(file, m, o, i, j),
        Inner::Parameter => parameter_of(file, m, o, i, j),
        Inner::Exception => exception_of(file, m, o, i, j),
        Inner::MethodNote => method_note(file, m, o, i, j),
    }
}

// That of the entity that the path leads to, in a file that was accepted.
fn find_inner(file: &[u8], m: SetCount, path: &[u8], which: Inner, i: usize, j: usize) -> PartAnswer
    requires { (length file.now ≤ file_limit) × Accepted (read_file m file.now) }
    ensures { result ≡ part_found (inner_at m file.now which i j) (entity_at file.now (cut path.now)) }
{
    match rdb_path::entity_at(file, path) {
        Some(o) => inner_at(file, m, which, i, j, o),
        None => PartAnswer::None,
    }
}

/// Element j of a list inside part i of the entity that a dotted path leads to, both counted from 0; one that there is
/// not is none.
pub fn inner_by_path(
    file: &[u8],
    m: SetCount,
    path: &[u8],
    which: Inner,
    i: usize,
    j: usize,
) -> PartAnswer
    ensures { result ≡ ask_inner m (read_file m file.now) file.now path.now which i j }
{
    match rdb_file::check(file, m) {
        Ok(_) => find_inner(file, m, path, which, i, j),
        Err(why) => PartAnswer::Refused(why),
    }
}
