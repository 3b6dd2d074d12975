//! The counted parts of an entity of a types.rdb, each by its position from 0.
#![tactic(auto)]

ghost use Rattle.std.specs.Prelude.{◌≡◌, ◌≤◌, length};
ghost use Rattle.number.specs.Limits.{file_limit};
ghost use Rattle.reading.specs.Got.{Accepted};
ghost use Rattle.rdb_file.specs.File.{read_file};
ghost use Rattle.rdb_path.specs.Path.{cut, entity_at};
ghost use Rattle.rdb_path.specs.Reached.{Visited};
ghost use Rattle.rdb_ends.specs.Here.{ListHere};
ghost use Rattle.rdb_places.specs.Lists.{interface_bases, interface_optionals, interface_attributes, interface_methods, members_of, interface_list, notes_of};
ghost use Rattle.rdb_parts.specs.Parts.{nth, text_at, member_said, base_said, attribute_said, method_said, entry_part, part_at, part_found, ask_part};
ghost use Rattle.rdb_parts.specs.Said.{list_text, typed_at, TypedHere};

use rdb_interface::SetCount;
use rdb_map::ENTRY_BYTES;
use rdb_text::Text;
use reading::Refusal;

/// A counted list of an entity: the entries of a module or a constant group; the members of an enum; the mandatory
/// bases, optional bases, attributes and methods of an interface; the annotations of an enum, an interface or a
/// constant group.
#[derive(Clone, Copy, Debug, PartialEq, Eq)]
pub enum Part {
    Entry,
    Member,
    Base,
    Optional,
    Attribute,
    Method,
    Note,
}

/// A counted list of one of those parts: the annotations of a constant, a member, a base, an attribute or a method, an
/// attribute's exceptions, a method's parameters and exceptions.
#[derive(Clone, Copy, Debug, PartialEq, Eq)]
pub enum Inner {
    EntryNote,
    MemberNote,
    BaseNote,
    OptionalNote,
    GetException,
    SetException,
    AttributeNote,
    Parameter,
    Exception,
    MethodNote,
}

/// An entry of a map: its key without the NUL, the kind byte of its payload, and the payload's offset.
#[derive(Clone, Copy)]
pub struct EntryPart {
    pub key: Text,
    pub kind: u8,
    pub offset: usize,
}

/// A member of an enum, its value as stored.
#[derive(Clone, Copy)]
pub struct MemberPart {
    pub name: Text,
    pub value: u32,
}

/// An attribute with its kind byte, or a parameter with its direction byte.
#[derive(Clone, Copy)]
pub struct TypedPart {
    pub kind: u8,
    pub name: Text,
    pub of: Text,
}

/// A method, with its return type.
#[derive(Clone, Copy)]
pub struct MethodPart {
    pub name: Text,
    pub result: Text,
}

/// A base, an exception or an annotation is its text.
#[derive(Clone, Copy)]
pub enum PartAnswer {
    Text(Text),
    Entry(EntryPart),
    Member(MemberPart),
    Typed(TypedPart),
    Method(MethodPart),
    None,
    Refused(Refusal),
}

/// Text j of the counted list at `at`.
pub fn list_part(file: &[u8], at: usize, j: usize) -> PartAnswer
    requires { (length file.now ≤ file_limit) × ListHere file.now at }
    ensures { result ≡ list_text file.now at j }
{
    let n = rdb_ends::count_at(file, at);
    if j < n {
        let p = rdb_ends::texts_after(file, j, at + 4);
        return PartAnswer::Text(rdb_ends::text_at(file, p));
    }
    PartAnswer::None
}

/// A byte, a name and a type.
pub fn typed_at(file: &[u8], p: usize) -> PartAnswer
    requires { (length file.now ≤ file_limit) × TypedHere file.now p }
    ensures { result ≡ typed_at file.now p }
{
    let name = rdb_ends::text_at(file, p + 1);
    let q = rdb_ends::text_end(file, p + 1);
    let of = rdb_ends::text_at(file, q);
    PartAnswer::Typed(TypedPart {
        kind: file[p],
        name,
        of,
    })
}

// Entry i of the entity at o.
fn entry_part(file: &[u8], o: usize, i: usize) -> PartAnswer
    requires { (length file.now ≤ file_limit) × ((m : SetCount) × Visited m file.now o) }
    ensures { result ≡ entry_part file.now i o }
{
    let n = rdb_places::entry_count(file, o);
    if i < n {
        let e = o + 5 + ENTRY_BYTES * i;
        let q = rdb_ends::count_at(file, e);
        let offset = rdb_ends::count_at(file, e + 4);
        let end = rdb_map::word_end(file, q);
        return PartAnswer::Entry(EntryPart {
            key: Text {
                at: q,
                len: end - q,
            },
            kind: file[offset],
            offset,
        });
    }
    PartAnswer::None
}

// Member i.
fn member_part(file: &[u8], m: SetCount, o: usize, i: usize) -> PartAnswer
    requires { (length file.now ≤ file_limit) × Visited m file.now o }
    ensures { result ≡ nth member_said i (members_of file.now o) }
{
    match rdb_places::member_place(file, m, o, i) {
        Some(p) => {
            let name = rdb_ends::text_at(file, p);
            let q = rdb_ends::text_end(file, p);
            let value = number::le32_at(file, q);
            PartAnswer::Member(MemberPart { name, value })
        }
        None => PartAnswer::None,
    }
}

// Mandatory base i.
fn base_part(file: &[u8], m: SetCount, o: usize, i: usize) -> PartAnswer
    requires { (length file.now ≤ file_limit) × Visited m file.now o }
    ensures { result ≡ nth base_said i (interface_list interface_bases m file.now o) }
{
    match rdb_places::base_place(file, m, o, i) {
        Some(p) => PartAnswer::Text(rdb_ends::text_at(file, p)),
        None => PartAnswer::None,
    }
}

// Optional base i.
fn optional_part(file: &[u8], m: SetCount, o: usize, i: usize) -> PartAnswer
    requires { (length file.now ≤ file_limit) × Visited m file.now o }
    ensures { result ≡ nth base_said i (interface_list interface_optionals m file.now o) }
{
    match rdb_places::optional_place(file, m, o, i) {
        Some(p) => PartAnswer::Text(rdb_ends::text_at(file, p)),
        None => PartAnswer::None,
    }
}

// Attribute i.
fn attribute_part(file: &[u8], m: SetCount, o: usize, i: usize) -> PartAnswer
    requires { (length file.now ≤ file_limit) × Visited m file.now o }
    ensures { result ≡ nth attribute_said i (interface_list interface_attributes m file.now o) }
{
    match rdb_places::attribute_place(file, m, o, i) {
        Some(p) => typed_at(file, p),
        None => PartAnswer::None,
    }
}

// Method i.
fn method_part(file: &[u8], m: SetCount, o: usize, i: usize) -> PartAnswer
    requires { (length file.now ≤ file_limit) × Visited m file.now o }
    ensures { result ≡ nth method_said i (interface_list interface_methods m file.now o) }
{
    match rdb_places::method_place(file, m, o, i) {
        Some(p) => {
            let name = rdb_ends::text_at(file, p);
            let q = rdb_ends::text_end(file, p);
            let result = rdb_ends::text_at(file, q);
            PartAnswer::Method(MethodPart { name, result })
        }
        None => PartAnswer::None,
    }
}

// Annotation i.
fn own_note(file: &[u8], m: SetCount, o: usize, i: usize) -> PartAnswer
    requires { (length file.now ≤ file_limit) × Visited m file.now o }
    ensures { result ≡ text_at i (notes_of m file.now o) }
{
    match rdb_places::notes_place(file, m, o) {
        Some(p) => list_part(file, p, i),
        None => PartAnswer::None,
    }
}

// Part i of the entity at o.
fn part_at(file: &[u8], m: SetCount, which: Part, i: usize, o: usize) -> PartAnswer
    requires { (length file.now ≤ file_limit) × Visited m file.now o }
    ensures { result ≡ part_at m file.now which i o }
{
    match which {
        Part::Entry => entry_part(file, o, i),
        Part::Member => member_part(file, m, o, i),
        Part::Base => base_part(file, m, o, i),
        Part::Optional => optional_part(file, m, o, i),
        Part::Attribute => attribute_part(file, m, o, i),
        Part::Method => method_part(file, m, o, i),
        Part::Note => own_note(file, m, o, i),
    }
}

// That of the entity that the path leads to, in a file that was accepted.
fn find_part(file: &[u8], m: SetCount, path: &[u8], which: Part, i: usize) -> PartAnswer
    requires { (length file.now ≤ file_limit) × Accepted (read_file m file.now) }
    ensures { result ≡ part_found (part_at m file.now which i) (entity_at file.now (cut path.now)) }
{
    match rdb_path::entity_at(file, path) {
        Some(o) => part_at(file, m, which, i, o),
        None => PartAnswer::None,
    }
}

/// A part of the entity that a dotted path leads to, by its position from 0; one that there is not is none.
pub fn part_by_path(file: &[u8], m: SetCount, path: &[u8], which: Part, i: usize) -> PartAnswer
    ensures { result ≡ ask_part m (read_file m file.now) file.now path.now which i }
{
    match rdb_file::check(file, m) {
        Ok(_) => find_part(file, m, path, which, i),
        Err(why) => PartAnswer::Refused(why),
    }
}
