// Whether two descriptors mean the same, each in the pool of an accepted file (document 01, refusal 23). Two records of the same
// meaning have the same size, so both are walked at once. A number answered is where the record in `pool` ends, or 0 where the two
// differ. The table `first` holds for each row the first row of the same key; the rows of the second file come after the n of the first.
#![tactic(auto)]

ghost use Rattle.std.specs.Prelude.{◌≡◌, ◌+◌, ◌-◌, ◌≤◌, ◌<◌, length, get_or};
ghost use Rattle.number.specs.Limits.{file_limit, row_limit};
ghost use Rattle.number.specs.Choice.{when◌then◌else◌};
ghost use Rattle.number.specs.Number.{be};
ghost use Rattle.key.specs.Word.{Leads, word_at};
ghost use Rattle.reader.specs.Layout.{Rows};
ghost use Rattle.same.specs.Same.{same_descriptor};
ghost use Rattle.same.specs.Match.{row_of, Rowed, HasType, HasParam, HasSignature, HasMethod, HasConstant, HasDescriptor, HasTail, Ready, TypesMatch, ParamMatches, ParamsMatch, SignaturesMatch, MethodMatches, MethodsMatch, ConstantMatches, ConstantsMatch, Decides, Decided, Compares, SameTail, SameMembers, SameParents};

use number::ROW_LIMIT;
use reader::record::Form;
use std::cmp::Ordering;

// The references r of the first file and s of the second have the same key.
fn same_row(first: &[u16; ROW_LIMIT], n: usize, r: usize, s: usize) -> bool
    requires { Rowed 0 r × (Rowed n s × (row_limit ≡ length first.now)) }
    ensures { Decides (row_of first.now 0 r ≡ row_of first.now n s) result }
{
    first[r - 1] == first[n + s - 1]
}

// The references that stand at p and q have the same key.
fn same_reference(
    pool: &[u8],
    p: usize,
    other: &[u8],
    q: usize,
    first: &[u16; ROW_LIMIT],
    n: usize,
) -> bool
    requires { (p + 2 ≤ length pool.now) × ((q + 2 ≤ length other.now) × (Rowed 0 (be 2 pool.now p) × (Rowed n (be 2 other.now q) × (row_limit ≡ length first.now)))) }
    ensures { Decides (row_of first.now 0 (be 2 pool.now p) ≡ row_of first.now n (be 2 other.now q)) result }
{
    let r = number::u16_at(pool, p) as usize;
    let s = number::u16_at(other, q) as usize;
    same_row(first, n, r, s)
}

// The two bytes at p and at q.
fn same_pair(pool: &[u8], p: usize, other: &[u8], q: usize) -> bool
    requires { (p + 1 < length pool.now) × ((q + 1 < length other.now) × ((length pool.now ≤ file_limit) × (length other.now ≤ file_limit))) }
    ensures { Decides ((get_or pool.now p 0 ≡ get_or other.now q 0) × (get_or pool.now (p + 1) 0 ≡ get_or other.now (q + 1) 0)) result }
{
    if pool[p] != other[q] {
        return false;
    }
    pool[p + 1] == other[q + 1]
}

// The words that the pool pointers a and b lead to.
fn same_names(pool: &[u8], a: usize, other: &[u8], b: usize) -> bool
    requires { Leads pool.now a × (Leads other.now b × ((length pool.now ≤ file_limit) × (length other.now ≤ file_limit))) }
    ensures { Decides (word_at pool.now (a - 1) ≡ word_at other.now (b - 1)) result }
{
    let o = key::compare_words(pool, a - 1, other, b - 1);
    match o {
        Ordering::Less => false,
        Ordering::Equal => true,
        Ordering::Greater => false,
    }
}

// The end e where two records are the same.
fn end_where(same: bool, e: usize) -> usize
    ensures { result ≡ (when same then e else 0) }
{
    if same {
        return e;
    }
    0
}

// Types: prefixes, what stands after them, and the elements of arrays.
fn match_type(
    pool: &[u8],
    p: usize,
    other: &[u8],
    q: usize,
    first: &[u16; ROW_LIMIT],
    n: usize,
) -> usize
    requires { Ready pool.now other.now (HasType pool.now 0) (HasType other.now n) p q × (row_limit ≡ length first.now) }
    ensures { TypesMatch pool.now other.now first.now n p q result }
{
    let mut i = p;
    let mut j = q;
    loop {
        if pool[i] != other[j] {
            return 0;
        }
        let f = reader::record::form_of(pool[i]);
        match f {
            Form::Simple => return i + 1,
            Form::Interface => {
                let same = same_reference(pool, i + 1, other, j + 1, first, n);
                return end_where(same, i + 3);
            }
            Form::InterfaceIs => {
                let same = pool[i + 1] == other[j + 1];
                return end_where(same, i + 2);
            }
            Form::Array => {
                if same_pair(pool, i + 1, other, j + 1) {
                    i += 3;
                    j += 3;
                } else {
                    return 0;
                }
            }
            Form::Sized => {
                let same = same_pair(pool, i + 1, other, j + 1);
                return end_where(same, i + 3);
            }
        }
    }
}

// Parameters: flags, then the type.
fn match_param(
    pool: &[u8],
    p: usize,
    other: &[u8],
    q: usize,
    first: &[u16; ROW_LIMIT],
    n: usize,
) -> usize
    requires { Ready pool.now other.now (HasParam pool.now 0) (HasParam other.now n) p q × (row_limit ≡ length first.now) }
    ensures { ParamMatches pool.now other.now first.now n p q result }
{
    if pool[p] != other[q] {
        return 0;
    }
    match_type(pool, p + 1, other, q + 1, first, n)
}

// The c parameters from p on, and those from q on.
fn match_params(
    pool: &[u8],
    p: usize,
    other: &[u8],
    q: usize,
    c: usize,
    first: &[u16; ROW_LIMIT],
    n: usize,
) -> usize
    requires { Ready pool.now other.now (Rows (HasParam pool.now 0) c) (Rows (HasParam other.now n) c) p q × ((row_limit ≡ length first.now) × (1 ≤ p)) }
    ensures { ParamsMatch pool.now other.now first.now n c p q result }
{
    let mut k: usize = 0;
    let mut i = p;
    while k < c {
        let e = match_param(pool, i, other, q + (i - p), first, n);
        if e == 0 {
            return 0;
        }
        i = e;
        k += 1;
    }
    i
}

// The c arguments and the result.
fn match_signature(
    pool: &[u8],
    p: usize,
    other: &[u8],
    q: usize,
    c: usize,
    first: &[u16; ROW_LIMIT],
    n: usize,
) -> usize
    requires { Ready pool.now other.now (HasSignature pool.now 0 c) (HasSignature other.now n c) p q × ((row_limit ≡ length first.now) × (1 ≤ p)) }
    ensures { SignaturesMatch pool.now other.now first.now n c p q result }
{
    let mid = match_params(pool, p, other, q, c, first, n);
    if mid == 0 {
        return 0;
    }
    match_param(pool, mid, other, q + (mid - p), first, n)
}

// Methods: flags, number of arguments, name, then arguments and result.
fn match_method(
    pool: &[u8],
    p: usize,
    other: &[u8],
    q: usize,
    first: &[u16; ROW_LIMIT],
    n: usize,
) -> usize
    requires { Ready pool.now other.now (HasMethod pool.now 0) (HasMethod other.now n) p q × (row_limit ≡ length first.now) }
    ensures { MethodMatches pool.now other.now first.now n p q result }
{
    if reader::record::method_flags(pool, p) != reader::record::method_flags(other, q) {
        return 0;
    }
    let c = reader::record::argument_count(pool, p);
    if c != reader::record::argument_count(other, q) {
        return 0;
    }
    let a = reader::record::method_name(pool, p);
    let b = reader::record::method_name(other, q);
    if same_names(pool, a, other, b) {
        return match_signature(pool, p + 6, other, q + 6, c, first, n);
    }
    0
}

// The c methods from p on, and those from q on.
fn match_methods(
    pool: &[u8],
    p: usize,
    other: &[u8],
    q: usize,
    c: usize,
    first: &[u16; ROW_LIMIT],
    n: usize,
) -> usize
    requires { Ready pool.now other.now (Rows (HasMethod pool.now 0) c) (Rows (HasMethod other.now n) c) p q × ((row_limit ≡ length first.now) × (1 ≤ p)) }
    ensures { MethodsMatch pool.now other.now first.now n c p q result }
{
    let mut k: usize = 0;
    let mut i = p;
    while k < c {
        let e = match_method(pool, i, other, q + (i - p), first, n);
        if e == 0 {
            return 0;
        }
        i = e;
        k += 1;
    }
    i
}

// Constants: type, value, name.
fn match_constant(pool: &[u8], p: usize, other: &[u8], q: usize) -> usize
    requires { Ready pool.now other.now (HasConstant pool.now) (HasConstant other.now) p q }
    ensures { ConstantMatches pool.now other.now p q result }
{
    if reader::record::constant_type(pool, p) != reader::record::constant_type(other, q) {
        return 0;
    }
    if reader::record::constant_value(pool, p) != reader::record::constant_value(other, q) {
        return 0;
    }
    let a = reader::record::constant_name(pool, p);
    let b = reader::record::constant_name(other, q);
    if same_names(pool, a, other, b) {
        return reader::record::constant_end(pool, p);
    }
    0
}

// The c constants from p on, and those from q on.
fn match_constants(pool: &[u8], p: usize, other: &[u8], q: usize, c: usize) -> usize
    requires { Ready pool.now other.now (Rows (HasConstant pool.now) c) (Rows (HasConstant other.now) c) p q × (1 ≤ p) }
    ensures { ConstantsMatch pool.now other.now c p q result }
{
    let mut k: usize = 0;
    let mut i = p;
    while k < c {
        let e = match_constant(pool, i, other, q + (i - p));
        if e == 0 {
            return 0;
        }
        i = e;
        k += 1;
    }
    i
}

// Constants and flags of two descriptors, whose methods end before p and q.
fn same_tail(pool: &[u8], p: usize, other: &[u8], q: usize) -> bool
    requires { Ready pool.now other.now (HasTail pool.now) (HasTail other.now) p q }
    ensures { Decided (HasTail pool.now) (HasTail other.now) SameTail p q result }
{
    let c = number::u16_at(pool, p) as usize;
    let d = number::u16_at(other, q) as usize;
    if c != d {
        return false;
    }
    let e = match_constants(pool, p + 2, other, q + 2, c);
    if e == 0 {
        return false;
    }
    pool[e] == other[q + (e - p)]
}

// Methods, constants and flags of the descriptors at p and q.
fn same_members(
    pool: &[u8],
    p: usize,
    other: &[u8],
    q: usize,
    first: &[u16; ROW_LIMIT],
    n: usize,
) -> bool
    requires { Ready pool.now other.now (HasDescriptor pool.now 0) (HasDescriptor other.now n) p q × (row_limit ≡ length first.now) }
    ensures { Decided (HasDescriptor pool.now 0) (HasDescriptor other.now n) (SameMembers (row_of first.now 0) (row_of first.now n)) p q result }
{
    let c = reader::record::method_count(pool, p);
    if c != reader::record::method_count(other, q) {
        return false;
    }
    let mid = match_methods(pool, p + 4, other, q + 4, c, first, n);
    if mid == 0 {
        return false;
    }
    same_tail(pool, mid, other, q + (mid - p))
}

// Their parents: none of both, or the same key.
fn same_parents(
    pool: &[u8],
    p: usize,
    other: &[u8],
    q: usize,
    first: &[u16; ROW_LIMIT],
    n: usize,
) -> bool
    requires { Ready pool.now other.now (HasDescriptor pool.now 0) (HasDescriptor other.now n) p q × (row_limit ≡ length first.now) }
    ensures { Decided (HasDescriptor pool.now 0) (HasDescriptor other.now n) (SameParents (row_of first.now 0) (row_of first.now n)) p q result }
{
    let r = reader::record::parent_index(pool, p);
    let s = reader::record::parent_index(other, q);
    if r == 0 {
        return s == 0;
    }
    if s == 0 {
        return false;
    }
    same_row(first, n, r, s)
}

// The descriptors at p of the first file's pool and at q of the second's mean the same.
pub fn match_descriptor(
    pool: &[u8],
    p: usize,
    other: &[u8],
    q: usize,
    first: &[u16; ROW_LIMIT],
    n: usize,
) -> bool
    requires { Ready pool.now other.now (HasDescriptor pool.now 0) (HasDescriptor other.now n) p q × (row_limit ≡ length first.now) }
    ensures { Compares (HasDescriptor pool.now 0) (HasDescriptor other.now n) (same_descriptor (row_of first.now 0) (row_of first.now n)) p q result }
{
    if same_parents(pool, p, other, q, first, n) {
        return same_members(pool, p, other, q, first, n);
    }
    false
}
