// The argument numbers of types that have been read, against the table of the arguments' prefixes.
ghost use Rattle.std.specs.Prelude.{false, ◌≡◌, ◌+◌, ◌≤◌, length, take};
ghost use Rattle.number.specs.Scan.{some};
ghost use Rattle.number.specs.Limits.{file_limit};
ghost use Rattle.reading.specs.Got.{many, Accepted};
ghost use Rattle.types.specs.Types.{read_type};
ghost use Rattle.method.specs.Parameter.{read_param};
ghost use Rattle.method.specs.Numbers.{wrong_iid, wrong_size, wrong_sizes};
ghost use Rattle.method.specs.Walk.{fine_of, broken_of, numbered};
ghost use Rattle.method.specs.Tables.{Held};

use reading::Context;
use types::Class;

// The first tag that argument numbers may follow.
const NUMBERED: u8 = 19;

// Whether argument a is none, or not of tag 14 with pointer.
fn wrong_iid(table: &[u8; 256], count: usize, a: u8) -> bool
    requires { (count ≤ 256) × (256 ≡ length table.now) }
    ensures { result ≡ wrong_iid (take count table.now) a }
{
    let iid = a as usize;
    if count <= iid {
        return true;
    }
    if table[iid] % types::REFERENCE != types::IID {
        return true;
    }
    table[iid] < types::POINTER
}

// Whether argument a is none, or not of tag 6 without pointer.
fn wrong_size(table: &[u8; 256], count: usize, a: u8) -> bool
    requires { (count ≤ 256) × (256 ≡ length table.now) }
    ensures { result ≡ wrong_size (take count table.now) a }
{
    let size = a as usize;
    if count <= size {
        return true;
    }
    if table[size] % types::REFERENCE != types::UINT32 {
        return true;
    }
    types::POINTER <= table[size]
}

// Size and length.
fn wrong_sizes(table: &[u8; 256], count: usize, x: u8, y: u8) -> bool
    requires { (count ≤ 256) × (256 ≡ length table.now) }
    ensures { result ≡ wrong_sizes (take count table.now) x y }
{
    if wrong_size(table, count, x) {
        return true;
    }
    wrong_size(table, count, y)
}

// A type that was read at `at`. Arrays one inside another are passed in a loop; `left` only shows that it ends. What was accepted is never reserved, nor an array behind the loop.
pub fn outer_numbers(
    pool: &[u8],
    c: Context,
    at: usize,
    count: usize,
    table: &[u8; 256],
) -> Option<usize>
    requires { Accepted (read_type 8 c pool.now at) × (at ≤ length pool.now) × (length pool.now ≤ file_limit) × (count ≤ 256) × (256 ≡ length table.now) }
    ensures { result ≡ fine_of (take count table.now) (read_type 8 c pool.now at) }
{
    let mut left: usize = 8;
    let mut p = at;
    while pool[p] % types::REFERENCE == types::ARRAY {
        if wrong_sizes(table, count, pool[p + 1], pool[p + 2]) {
            return None;
        }
        p += 3;
        left -= 1;
    }
    let k = types::tag_class(c.minor, pool[p] % types::REFERENCE);
    match k {
        Class::Plain => Some(p + 1),
        Class::Text => Some(p + 1),
        Class::Interface => Some(p + 3),
        Class::InterfaceIs => {
            if wrong_iid(table, count, pool[p + 1]) {
                return None;
            }
            Some(p + 2)
        }
        Class::Sized => {
            if wrong_sizes(table, count, pool[p + 1], pool[p + 2]) {
                return None;
            }
            Some(p + 3)
        }
        Class::Reserved => None,
        Class::Array => None,
    }
}

// n arguments that were read from `at` on.
pub fn wrong_arguments(pool: &[u8], c: Context, n: usize, at: usize, table: &[u8; 256]) -> bool
    requires { Accepted (many (read_param false c pool.now) n at) × (length pool.now ≤ file_limit) × (n ≤ 256) × (256 ≡ length table.now) }
    ensures { result ≡ broken_of (take n table.now) (many (read_param false c pool.now) n at) }
{
    let mut p = at;
    for _ in 0..n {
        let Some(e) = outer_numbers(pool, c, p + 1, n, table) else {
            return true;
        };
        p = e;
    }
    false
}

// Whether a number may follow the prefix of one of n arguments.
fn some_numbered(n: usize, table: &[u8; 256]) -> bool
    requires { (n ≤ 256) × (256 ≡ length table.now) }
    ensures { result ≡ some (numbered table.now) n }
{
    for k in 0..n {
        if NUMBERED <= table[k] % types::REFERENCE {
            return true;
        }
    }
    false
}

// n arguments whose prefixes the table has: most methods have no numbers, and are not walked.
pub fn broken_arguments(pool: &[u8], c: Context, n: usize, at: usize, table: &[u8; 256]) -> bool
    requires { Accepted (many (read_param false c pool.now) n at) × (length pool.now ≤ file_limit) × (n ≤ 256) × (256 ≡ length table.now) × Held (many (read_param false c pool.now) n at) n table.now }
    ensures { result ≡ broken_of (take n table.now) (many (read_param false c pool.now) n at) }
{
    if some_numbered(n, table) {
        return wrong_arguments(pool, c, n, at, table);
    }
    false
}
