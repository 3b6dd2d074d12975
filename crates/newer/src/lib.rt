//! Whether one of the tags 23 to 25, which minor 2 brought, stands in a descriptor of an accepted file. Positions are in its pool.
#![tactic(auto)]

ghost use Rattle.std.specs.Prelude.{◌≡◌, ◌≤◌, length};
ghost use Rattle.number.specs.Limits.{file_limit};
ghost use Rattle.reader.specs.Records.{ShowsType, ShowsParam, ShowsMethod, ShowsDescriptor};
ghost use Rattle.reader.specs.Layout.{Stands, Tells, Rows};
ghost use Rattle.meaning.specs.Facts.Conditions.{any_of};
ghost use Rattle.meaning.specs.Normal.Minor.{new_tag, new_type, new_param, new_method, new_descriptor};

use reader::{FURTHER_ASTRING, UTF8STRING};

// Whether a tag is one of them.
fn tag_newer(tag: u8) -> bool
    ensures { result ≡ new_tag tag }
{
    if tag < UTF8STRING {
        return false;
    }
    tag <= FURTHER_ASTRING
}

// In the type at `at`.
fn type_newer(pool: &[u8], at: usize) -> bool
    requires { Stands (ShowsType pool.now at) × (length pool.now ≤ file_limit) }
    ensures { Tells (ShowsType pool.now at) new_type result }
{
    tag_newer(reader::record::inner_tag(pool, at))
}

// In one of n parameters from `at` on.
fn params_newer(pool: &[u8], n: usize, at: usize) -> bool
    requires { Stands (Rows (ShowsParam pool.now) n at) × (length pool.now ≤ file_limit) }
    ensures { Tells (Rows (ShowsParam pool.now) n at) (any_of new_param) result }
{
    let mut p = at;
    for _ in 0..n {
        if type_newer(pool, p + 1) {
            return true;
        }
        p = reader::record::type_end(pool, p + 1);
    }
    false
}

// In the method at `at`: its result stands after its arguments, as one parameter more.
fn method_newer(pool: &[u8], at: usize) -> bool
    requires { Stands (ShowsMethod pool.now at) × (length pool.now ≤ file_limit) }
    ensures { Tells (ShowsMethod pool.now at) new_method result }
{
    let n = reader::record::argument_count(pool, at);
    params_newer(pool, n + 1, at + 6)
}

// In one of n methods from `at` on.
fn methods_newer(pool: &[u8], n: usize, at: usize) -> bool
    requires { Stands (Rows (ShowsMethod pool.now) n at) × (length pool.now ≤ file_limit) }
    ensures { Tells (Rows (ShowsMethod pool.now) n at) (any_of new_method) result }
{
    let mut p = at;
    for _ in 0..n {
        if method_newer(pool, p) {
            return true;
        }
        p = reader::record::method_end(pool, p);
    }
    false
}

/// In the descriptor at `at`.
pub fn descriptor_newer(pool: &[u8], at: usize) -> bool
    requires { Stands (ShowsDescriptor pool.now at) × (length pool.now ≤ file_limit) }
    ensures { Tells (ShowsDescriptor pool.now at) new_descriptor result }
{
    let n = reader::record::method_count(pool, at);
    methods_newer(pool, n, at + 4)
}
