// The records of an accepted file's pool: their fields, and where each ends. Positions are in the pool.
ghost use Rattle.std.specs.Prelude.{◌≡◌, ◌+◌, ◌≤◌, length};
ghost use Rattle.number.specs.Limits.{file_limit};
ghost use Rattle.reader.specs.Values.{inner_tag, method_flags, method_name, argument_count, constant_name, constant_type, constant_value, parent_index, parent_of, methods_of};
ghost use Rattle.reader.specs.Records.{ShowsType, ShowsParam, ShowsMethod, ShowsConstant, ShowsDescriptor};
ghost use Rattle.reader.specs.Form.{form_of};
ghost use Rattle.reader.specs.Layout.{Stands, Ends, Tells, Names, Rows};

use crate::NEWEST;
use types::Class;

// What stands after a type's prefix: nothing; an index; an argument number; two of them and an element; two of them.
#[derive(Clone, Copy, Debug, PartialEq, Eq)]
pub enum Form {
    Simple,
    Interface,
    InterfaceIs,
    Array,
    Sized,
}

// That of the prefix b of a type in an accepted file.
pub fn form_of(b: u8) -> Form
    ensures { result ≡ form_of b }
{
    let k = types::tag_class(NEWEST as usize, b % types::REFERENCE);
    match k {
        Class::Reserved => Form::Simple,
        Class::Plain => Form::Simple,
        Class::Text => Form::Simple,
        Class::Interface => Form::Interface,
        Class::InterfaceIs => Form::InterfaceIs,
        Class::Array => Form::Array,
        Class::Sized => Form::Sized,
    }
}

// The flags by which questions tell methods apart.
pub const GETTER: u8 = method::GETTER;

pub const SETTER: u8 = method::SETTER;

// Where the type at `at` ends. An array is three bytes, and then its element.
pub fn type_end(pool: &[u8], at: usize) -> usize
    requires { Stands (ShowsType pool.now at) × (length pool.now ≤ file_limit) }
    ensures { Ends (ShowsType pool.now at) result }
{
    let mut p = at;
    loop {
        let f = form_of(pool[p]);
        match f {
            Form::Simple => return p + 1,
            Form::Interface => return p + 3,
            Form::InterfaceIs => return p + 2,
            Form::Array => p += 3,
            Form::Sized => return p + 3,
        }
    }
}

// The tag of the type at `at`, of an array that of its element.
pub fn inner_tag(pool: &[u8], at: usize) -> u8
    requires { Stands (ShowsType pool.now at) × (length pool.now ≤ file_limit) }
    ensures { Tells (ShowsType pool.now at) inner_tag result }
{
    let mut p = at;
    loop {
        let b = pool[p];
        let f = form_of(b);
        match f {
            Form::Simple => return b % types::REFERENCE,
            Form::Interface => return b % types::REFERENCE,
            Form::InterfaceIs => return b % types::REFERENCE,
            Form::Array => p += 3,
            Form::Sized => return b % types::REFERENCE,
        }
    }
}

// Where n parameters from `at` on end.
pub fn params_end(pool: &[u8], n: usize, at: usize) -> usize
    requires { Stands (Rows (ShowsParam pool.now) n at) × (length pool.now ≤ file_limit) }
    ensures { Ends (Rows (ShowsParam pool.now) n at) result }
{
    let mut p = at;
    for _ in 0..n {
        p = type_end(pool, p + 1);
    }
    p
}

// Where the method at `at` ends: flags, name pointer, argument count, arguments, result.
pub fn method_end(pool: &[u8], at: usize) -> usize
    requires { Stands (ShowsMethod pool.now at) × (length pool.now ≤ file_limit) }
    ensures { Ends (ShowsMethod pool.now at) result }
{
    let n = pool[at + 5] as usize;
    let mid = params_end(pool, n, at + 6);
    type_end(pool, mid + 1)
}

// The flags of the method at `at`.
pub fn method_flags(pool: &[u8], at: usize) -> u8
    requires { Stands (ShowsMethod pool.now at) }
    ensures { Tells (ShowsMethod pool.now at) method_flags result }
{
    pool[at]
}

// The pool pointer of its name.
pub fn method_name(pool: &[u8], at: usize) -> usize
    requires { Stands (ShowsMethod pool.now at) × (length pool.now ≤ file_limit) }
    ensures { Names (ShowsMethod pool.now at) method_name pool.now result }
{
    number::u32_at(pool, at + 1) as usize
}

// The number of its arguments.
pub fn argument_count(pool: &[u8], at: usize) -> usize
    requires { Stands (ShowsMethod pool.now at) × (length pool.now ≤ file_limit) }
    ensures { Tells (ShowsMethod pool.now at) argument_count result }
{
    pool[at + 5] as usize
}

// Where n methods from `at` on end.
pub fn methods_end(pool: &[u8], n: usize, at: usize) -> usize
    requires { Stands (Rows (ShowsMethod pool.now) n at) × (length pool.now ≤ file_limit) }
    ensures { Ends (Rows (ShowsMethod pool.now) n at) result }
{
    let mut p = at;
    for _ in 0..n {
        p = method_end(pool, p);
    }
    p
}

// The bytes of the value of the constant at `at`.
pub fn value_size(pool: &[u8], at: usize) -> usize
    requires { Stands (ShowsConstant pool.now at) }
    ensures { Ends (ShowsConstant pool.now at) (at + 5 + result) }
{
    if pool[at + 4] % 4 == 1 {
        return 2;
    }
    4
}

// Where the constant at `at` ends: name pointer, type byte, value.
pub fn constant_end(pool: &[u8], at: usize) -> usize
    requires { Stands (ShowsConstant pool.now at) × (length pool.now ≤ file_limit) }
    ensures { Ends (ShowsConstant pool.now at) result }
{
    at + 5 + value_size(pool, at)
}

// The pool pointer of its name.
pub fn constant_name(pool: &[u8], at: usize) -> usize
    requires { Stands (ShowsConstant pool.now at) × (length pool.now ≤ file_limit) }
    ensures { Names (ShowsConstant pool.now at) constant_name pool.now result }
{
    number::u32_at(pool, at) as usize
}

// Its type byte.
pub fn constant_type(pool: &[u8], at: usize) -> u8
    requires { Stands (ShowsConstant pool.now at) × (length pool.now ≤ file_limit) }
    ensures { Tells (ShowsConstant pool.now at) constant_type result }
{
    pool[at + 4]
}

// Its value as stored, two or four bytes.
pub fn constant_value(pool: &[u8], at: usize) -> u32
    requires { Stands (ShowsConstant pool.now at) × (length pool.now ≤ file_limit) }
    ensures { Tells (ShowsConstant pool.now at) constant_value result }
{
    if value_size(pool, at) == 2 {
        return number::u16_at(pool, at + 5) as u32;
    }
    number::u32_at(pool, at + 5)
}

// The parent's index of the descriptor at `at`, 0 for none.
pub fn parent_index(pool: &[u8], at: usize) -> usize
    requires { Stands (ShowsDescriptor pool.now at) }
    ensures { Tells (ShowsDescriptor pool.now at) (λ d. parent_index (parent_of d)) result }
{
    number::u16_at(pool, at) as usize
}

// The number of its methods, which stand from `at` + 4 on.
pub fn method_count(pool: &[u8], at: usize) -> usize
    requires { Stands (ShowsDescriptor pool.now at) × (length pool.now ≤ file_limit) }
    ensures { Tells (ShowsDescriptor pool.now at) (λ d. length (methods_of d)) result }
{
    number::u16_at(pool, at + 2) as usize
}
