//! Where the parts of a record of an accepted types.rdb stand, and where they end. Texts are not looked at again.
#![tactic(auto)]

ghost use Rattle.std.specs.Prelude.{◌≡◌, ◌+◌, ◌≤◌, length};
ghost use Rattle.number.specs.Limits.{file_limit};
ghost use Rattle.number.specs.Number.{le};
ghost use Rattle.reading.specs.Got.{many, Accepted};
ghost use Rattle.rdb_text.specs.Field.{counted};
ghost use Rattle.rdb_record.specs.Notes.{read_notes};
ghost use Rattle.rdb_record.specs.Enum.{read_member};
ghost use Rattle.rdb_interface.specs.Interface.{has_sets, read_base, read_sets, read_attribute, read_parameter, read_method};
ghost use Rattle.rdb_ends.specs.Ends.{after, text_of, text_end, texts_end, notes_end, member_notes, member_end, base_end, attribute_gets, attribute_sets, sets_end, attribute_notes, attribute_end, parameter_end, method_parameters, method_exceptions, method_notes, method_end, item_end, items_end};
ghost use Rattle.rdb_ends.specs.Here.{TextHere, RunHere, ListHere, MemberHere, AttributeHere, MethodHere, read_item};

use rdb_interface::SetCount;
use rdb_text::Text;

/// What a counted list of an enum or an interface holds.
#[derive(Clone, Copy, Debug, PartialEq, Eq)]
pub enum Item {
    Member,
    Base,
    Attribute,
    Method,
}

/// A UInt32.
pub fn count_at(file: &[u8], at: usize) -> usize
    requires { at + 4 ≤ length file.now }
    ensures { result ≡ le 4 file.now at }
{
    number::le32_at(file, at) as usize
}

/// The bytes of the Idx-String at `at`.
pub fn text_at(file: &[u8], at: usize) -> Text
    requires { (length file.now ≤ file_limit) × TextHere file.now at }
    ensures { result ≡ text_of file.now at }
{
    let v = count_at(file, at);
    if v < 0x80000000 {
        return Text { at: at + 4, len: v };
    }
    let q = v - 0x80000000;
    let n = count_at(file, q);
    Text { at: q + 4, len: n }
}

/// Where it ends.
pub fn text_end(file: &[u8], at: usize) -> usize
    requires { (length file.now ≤ file_limit) × TextHere file.now at }
    ensures { result ≡ text_end file.now at }
{
    let v = count_at(file, at);
    if v < 0x80000000 {
        return at + 4 + v;
    }
    at + 4
}

/// Where n of them end.
pub fn texts_after(file: &[u8], n: usize, at: usize) -> usize
    requires { (length file.now ≤ file_limit) × RunHere file.now n at }
    ensures { result ≡ after (text_end file.now) n at }
{
    let mut p = at;
    for _ in 0..n {
        p = text_end(file, p);
    }
    p
}

/// Where a counted list of them ends.
pub fn texts_end(file: &[u8], at: usize) -> usize
    requires { (length file.now ≤ file_limit) × ListHere file.now at }
    ensures { result ≡ texts_end file.now at }
{
    let n = count_at(file, at);
    texts_after(file, n, at + 4)
}

// Where annotations end.
fn notes_end(file: &[u8], annotated: bool, at: usize) -> usize
    requires { (length file.now ≤ file_limit) × Accepted (read_notes annotated file.now at) }
    ensures { result ≡ notes_end annotated file.now at }
{
    if annotated {
        return texts_end(file, at);
    }
    at
}

/// Where the annotations of a member stand.
pub fn member_notes(file: &[u8], at: usize) -> usize
    requires { (length file.now ≤ file_limit) × MemberHere file.now at }
    ensures { result ≡ member_notes file.now at }
{
    text_end(file, at) + 4
}

fn member_end(file: &[u8], annotated: bool, at: usize) -> usize
    requires { (length file.now ≤ file_limit) × Accepted (read_member annotated file.now at) }
    ensures { result ≡ member_end annotated file.now at }
{
    let p = member_notes(file, at);
    notes_end(file, annotated, p)
}

fn base_end(file: &[u8], annotated: bool, at: usize) -> usize
    requires { (length file.now ≤ file_limit) × Accepted (read_base annotated file.now at) }
    ensures { result ≡ base_end annotated file.now at }
{
    let p = text_end(file, at);
    notes_end(file, annotated, p)
}

/// Where the get exceptions of an attribute stand.
pub fn attribute_gets(file: &[u8], at: usize) -> usize
    requires { (length file.now ≤ file_limit) × ((m : SetCount) × AttributeHere m file.now at) }
    ensures { result ≡ attribute_gets file.now at }
{
    let p = text_end(file, at + 1);
    text_end(file, p)
}

/// Its set exceptions.
pub fn attribute_sets(file: &[u8], at: usize) -> usize
    requires { (length file.now ≤ file_limit) × ((m : SetCount) × AttributeHere m file.now at) }
    ensures { result ≡ attribute_sets file.now at }
{
    let p = attribute_gets(file, at);
    texts_end(file, p)
}

/// Whether an attribute with that kind byte has a number of set exceptions.
pub fn has_sets(m: SetCount, kind: u8) -> bool
    ensures { result ≡ has_sets m kind }
{
    let SetCount::UnlessReadOnly = m else {
        return true;
    };
    if kind / 2 % 2 == 1 {
        return false;
    }
    true
}

// Where the set exceptions of an attribute with that kind byte end.
fn sets_end(file: &[u8], m: SetCount, kind: u8, at: usize) -> usize
    requires { (length file.now ≤ file_limit) × Accepted (read_sets m kind file.now at) }
    ensures { result ≡ sets_end m kind file.now at }
{
    if has_sets(m, kind) {
        return texts_end(file, at);
    }
    at
}

/// Its annotations.
pub fn attribute_notes(file: &[u8], m: SetCount, at: usize) -> usize
    requires { (length file.now ≤ file_limit) × AttributeHere m file.now at }
    ensures { result ≡ attribute_notes m file.now at }
{
    let p = attribute_sets(file, at);
    sets_end(file, m, file[at], p)
}

fn attribute_end(file: &[u8], m: SetCount, annotated: bool, at: usize) -> usize
    requires { (length file.now ≤ file_limit) × Accepted (read_attribute m annotated file.now at) }
    ensures { result ≡ attribute_end m annotated file.now at }
{
    let p = attribute_notes(file, m, at);
    notes_end(file, annotated, p)
}

fn parameter_end(file: &[u8], at: usize) -> usize
    requires { (length file.now ≤ file_limit) × Accepted (read_parameter file.now at) }
    ensures { result ≡ parameter_end file.now at }
{
    let p = text_end(file, at + 1);
    text_end(file, p)
}

/// Where n parameters end.
pub fn parameters_after(file: &[u8], n: usize, at: usize) -> usize
    requires { (length file.now ≤ file_limit) × Accepted (many (read_parameter file.now) n at) }
    ensures { result ≡ after (parameter_end file.now) n at }
{
    let mut p = at;
    for _ in 0..n {
        p = parameter_end(file, p);
    }
    p
}

/// Where the parameters of a method stand.
pub fn method_parameters(file: &[u8], at: usize) -> usize
    requires { (length file.now ≤ file_limit) × MethodHere file.now at }
    ensures { result ≡ method_parameters file.now at }
{
    let p = text_end(file, at);
    text_end(file, p)
}

/// Its exceptions.
pub fn method_exceptions(file: &[u8], at: usize) -> usize
    requires { (length file.now ≤ file_limit) × MethodHere file.now at }
    ensures { result ≡ method_exceptions file.now at }
{
    let p = method_parameters(file, at);
    let n = count_at(file, p);
    parameters_after(file, n, p + 4)
}

/// Its annotations.
pub fn method_notes(file: &[u8], at: usize) -> usize
    requires { (length file.now ≤ file_limit) × MethodHere file.now at }
    ensures { result ≡ method_notes file.now at }
{
    let p = method_exceptions(file, at);
    texts_end(file, p)
}

fn method_end(file: &[u8], annotated: bool, at: usize) -> usize
    requires { (length file.now ≤ file_limit) × Accepted (read_method annotated file.now at) }
    ensures { result ≡ method_end annotated file.now at }
{
    let p = method_notes(file, at);
    notes_end(file, annotated, p)
}

fn item_end(file: &[u8], item: Item, m: SetCount, annotated: bool, at: usize) -> usize
    requires { (length file.now ≤ file_limit) × Accepted (read_item item m annotated file.now at) }
    ensures { result ≡ item_end item m annotated file.now at }
{
    match item {
        Item::Member => member_end(file, annotated, at),
        Item::Base => base_end(file, annotated, at),
        Item::Attribute => attribute_end(file, m, annotated, at),
        Item::Method => method_end(file, annotated, at),
    }
}

/// Where n of them end.
pub fn items_after(
    file: &[u8],
    item: Item,
    m: SetCount,
    annotated: bool,
    n: usize,
    at: usize,
) -> usize
    requires { (length file.now ≤ file_limit) × Accepted (many (read_item item m annotated file.now) n at) }
    ensures { result ≡ after (item_end item m annotated file.now) n at }
{
    let mut p = at;
    for _ in 0..n {
        p = item_end(file, item, m, annotated, p);
    }
    p
}

/// Where a counted list of them ends.
pub fn items_end(file: &[u8], item: Item, m: SetCount, annotated: bool, at: usize) -> usize
    requires { (length file.now ≤ file_limit) × Accepted (counted (read_item item m annotated file.now) file.now at) }
    ensures { result ≡ items_end item m annotated file.now at }
{
    let n = count_at(file, at);
    items_after(file, item, m, annotated, n, at + 4)
}
