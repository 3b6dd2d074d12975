//! Constructors and getter pairs, from tables of the methods' flags and of the groups of their names.
ghost use Rattle.std.specs.Prelude.{◌≡◌, true, ◌+◌, ◌-◌, ◌≤◌, ◌<◌, length, get_or};
ghost use Rattle.number.specs.Limits.{file_limit, own_limit};
ghost use Rattle.number.specs.Bits.{bit};
ghost use Rattle.number.specs.Choice.{when◌then◌else◌, ◌≤?◌, ◌=?◌};
ghost use Rattle.number.specs.Scan.{some, tally};
ghost use Rattle.key.specs.First.{Filled};
ghost use Rattle.key.specs.Word.{Leads, word_at, same_word};
ghost use Rattle.method.specs.Flags.{setter_bit, constructor_bit};
ghost use Rattle.descriptor.specs.Rules.{is_setter, many_constructors, stray_pairs};
ghost use Rattle.descriptor.specs.Tables.{Below, Led, Taken, Grouped, cell, word_in, is_accessor, group_in, one_more, getters_of, stray_of, stray_setter, pair_with, stray_with};

use number::OWN_LIMIT;
use std::cmp::Ordering;

/// 1 for the flags of a constructor, 0 for others.
#[tactic(auto, using(number::proofs::Choice::tests), unfolding(number::specs::Bits::bit))]
fn constructor_count(flags: u8) -> usize
    ensures { result ≡ (when bit constructor_bit flags =? 1 then 1 else 0) }
{
    if flags / method::CONSTRUCTOR % 2 == 1 {
        1
    } else {
        0
    }
}

/// Whether more than one of n methods is a constructor.
pub fn many_constructors(flags: &[u8; OWN_LIMIT], n: usize) -> bool
    requires { (n ≤ own_limit) × (own_limit ≡ length flags.now) }
    ensures { result ≡ many_constructors (cell flags.now) n }
{
    let mut k: usize = 0;
    for i in 0..n {
        k += constructor_count(flags[i]);
    }
    1 < k
}

/// What is known of a name's getters, with getter n beside what v says.
#[tactic(auto, using(number::proofs::Choice::tests), unfolding(crate::specs::Tables::one_more))]
fn one_more(v: u16, n: usize) -> u16
    requires { n < own_limit }
    ensures { result ≡ one_more v n }
{
    if v == 0 { (n + 1) as u16 } else { 2000 }
}

/// Method i into the table of getters by name.
fn note_getter(
    flags: &[u8; OWN_LIMIT],
    first: &[u16; OWN_LIMIT],
    i: usize,
    getters: &mut [u16; OWN_LIMIT],
)
    requires { (i < own_limit) × (own_limit ≡ length flags.now) × (own_limit ≡ length first.now) × (get_or first.now i 0 < own_limit) × Filled getters.old own_limit (getters_of (cell flags.now) (cell first.now) i) }
    ensures { Filled getters.new own_limit (getters_of (cell flags.now) (cell first.now) (i + 1)) }
{
    if flags[i] / method::GETTER % 2 == 1 {
        let k = first[i] as usize;
        getters[k] = one_more(getters[k], i);
    }
}

/// The table of getters by name, of n methods.
pub fn note_getters(
    flags: &[u8; OWN_LIMIT],
    first: &[u16; OWN_LIMIT],
    n: usize,
    getters: &mut [u16; OWN_LIMIT],
)
    requires { (n ≤ own_limit) × (own_limit ≡ length flags.now) × (own_limit ≡ length first.now) × Below first.now n × Filled getters.old own_limit (getters_of (cell flags.now) (cell first.now) 0) }
    ensures { Filled getters.new own_limit (getters_of (cell flags.now) (cell first.now) n) }
{
    for i in 0..n {
        note_getter(flags, first, i, getters);
    }
}

/// Whether setter j is not just behind its name's getter, v being what is known of these.
#[tactic(auto, using(number::proofs::Choice::tests), unfolding(crate::specs::Tables::stray_of))]
fn stray_of(v: u16, j: usize) -> bool
    ensures { result ≡ stray_of v j }
{
    v != 0 && usize::from(v) != j
}

/// Whether method j is a setter that is not just behind the getter of its name.
#[tactic(auto, using(number::proofs::Choice::tests), unfolding(crate::specs::Tables::stray_setter, crate::specs::Tables::cell, crate::specs::Rules::is_setter))]
fn is_stray(
    flags: &[u8; OWN_LIMIT],
    first: &[u16; OWN_LIMIT],
    getters: &[u16; OWN_LIMIT],
    j: usize,
) -> bool
    requires { (j < own_limit) × (own_limit ≡ length flags.now) × (own_limit ≡ length first.now) × (get_or first.now j 0 < own_limit) }
    ensures { result ≡ stray_setter (cell flags.now) (cell first.now) (cell getters.now) j }
{
    flags[j] / method::SETTER % 2 == 1 && stray_of(getters[usize::from(first[j])], j)
}

/// Whether one of n methods is such a setter.
pub fn stray_setter(
    flags: &[u8; OWN_LIMIT],
    first: &[u16; OWN_LIMIT],
    getters: &[u16; OWN_LIMIT],
    n: usize,
) -> bool
    requires { (n ≤ own_limit) × (own_limit ≡ length flags.now) × (own_limit ≡ length first.now) × Below first.now n }
    ensures { result ≡ some (stray_setter (cell flags.now) (cell first.now) (cell getters.now)) n }
{
    for j in 0..n {
        if is_stray(flags, first, getters, j) {
            return true;
        }
    }
    false
}

/// 1 for the flags of a getter or a setter, 0 for others.
#[tactic(auto, using(number::proofs::Choice::tests))]
fn accessor_count(flags: u8) -> usize
    ensures { result ≡ (when setter_bit ≤? flags then 1 else 0) }
{
    if method::SETTER <= flags { 1 } else { 0 }
}

/// The name pointers of the getters and setters among n methods, in their order, and how many. One that is not taken is overwritten by the next.
fn take_names(
    flags: &[u8; OWN_LIMIT],
    names: &[u32; OWN_LIMIT],
    n: usize,
    taken: &mut [u32; OWN_LIMIT],
) -> usize
    requires { (n ≤ own_limit) × (own_limit ≡ length flags.now) × (own_limit ≡ length names.now) × (own_limit ≡ length taken.old) }
    ensures { Taken (is_accessor (cell flags.now)) names.now taken.new n result }
{
    let mut r: usize = 0;
    for i in 0..n {
        taken[r] = names[i];
        r += accessor_count(flags[i]);
    }
    r
}

/// The group of method i, whose place among the getters and setters is r; 0 where it is neither.
#[tactic(auto, using(number::proofs::Choice::tests, number::proofs::Scans::tally_most), unfolding(crate::specs::Tables::group_in, crate::specs::Tables::is_accessor, crate::specs::Tables::cell))]
fn group_of(flags: &[u8; OWN_LIMIT], groups: &[u16; OWN_LIMIT], i: usize, r: usize) -> u16
    requires { (i < own_limit) × (own_limit ≡ length flags.now) × (own_limit ≡ length groups.now) × (r ≡ tally (is_accessor (cell flags.now)) i) }
    ensures { result ≡ group_in (is_accessor (cell flags.now)) groups.now i }
{
    if method::SETTER <= flags[i] {
        groups[r]
    } else {
        0
    }
}

/// The groups of n methods, from those of the getters and setters among them.
fn spread_groups(
    flags: &[u8; OWN_LIMIT],
    groups: &[u16; OWN_LIMIT],
    n: usize,
    first: &mut [u16; OWN_LIMIT],
)
    requires { (n ≤ own_limit) × (own_limit ≡ length flags.now) × (own_limit ≡ length groups.now) × (own_limit ≡ length first.old) }
    ensures { Filled first.new n (group_in (is_accessor (cell flags.now)) groups.now) × (own_limit ≡ length first.new) }
{
    let mut r: usize = 0;
    for i in 0..n {
        first[i] = group_of(flags, groups, i, r);
        r += accessor_count(flags[i]);
    }
}

/// The groups of n methods by name. Only getters and setters have one of their own: no others matter to a getter pair.
fn name_groups(
    pool: &[u8],
    flags: &[u8; OWN_LIMIT],
    names: &[u32; OWN_LIMIT],
    n: usize,
    first: &mut [u16; OWN_LIMIT],
)
    requires { (n ≤ own_limit) × (length pool.now ≤ file_limit) × (own_limit ≡ length flags.now) × (own_limit ≡ length names.now) × (own_limit ≡ length first.old) × Led pool.now names.now n }
    ensures { Grouped (is_accessor (cell flags.now)) (word_in pool.now names.now) (cell first.new) n × Below first.new n × (own_limit ≡ length first.new) }
{
    let spaces = [0u32; OWN_LIMIT];
    let mut taken = [0u32; OWN_LIMIT];
    let mut groups = [0u16; OWN_LIMIT];
    let m = take_names(flags, names, n, &mut taken);
    sorting::first_same(pool, &spaces, &taken, m, &mut groups);
    spread_groups(flags, &groups, n, first);
}

/// Whether a getter pair is broken, by the table of getters.
fn stray_by_table(pool: &[u8], flags: &[u8; OWN_LIMIT], names: &[u32; OWN_LIMIT], n: usize) -> bool
    requires { (n ≤ own_limit) × (length pool.now ≤ file_limit) × (own_limit ≡ length flags.now) × (own_limit ≡ length names.now) × Led pool.now names.now n }
    ensures { result ≡ stray_pairs (cell flags.now) (word_in pool.now names.now) n }
{
    let mut first = [0u16; OWN_LIMIT];
    let mut getters = [0u16; OWN_LIMIT];
    name_groups(pool, flags, names, n, &mut first);
    note_getters(flags, &first, n, &mut getters);
    stray_setter(flags, &first, &getters, n)
}

/// The words that the pool pointers a and b lead to are the same.
#[tactic(auto, unfolding(key::specs::Word::same_word, key::specs::Word::is_same))]
fn same_name(pool: &[u8], a: u32, b: u32) -> bool
    requires { Leads pool.now a × Leads pool.now b × (length pool.now ≤ file_limit) }
    ensures { result ≡ same_word (word_at pool.now (a - 1)) (word_at pool.now (b - 1)) }
{
    match key::compare_words(pool, a as usize - 1, pool, b as usize - 1) {
        Ordering::Equal => true,
        _ => false,
    }
}

/// Whether method i is a getter that setter j, of its name, is not just behind.
fn parts_from(
    pool: &[u8],
    flags: &[u8; OWN_LIMIT],
    names: &[u32; OWN_LIMIT],
    n: usize,
    i: usize,
    j: usize,
) -> bool
    requires { (n ≤ own_limit) × (length pool.now ≤ file_limit) × (own_limit ≡ length flags.now) × (own_limit ≡ length names.now) × Led pool.now names.now n × (i < n) × (j < n) × (is_setter (cell flags.now) j ≡ true) }
    ensures { result ≡ pair_with (cell flags.now) (word_in pool.now names.now) j i }
{
    if flags[i] / method::GETTER % 2 == 0 {
        return false;
    }
    if i + 1 == j {
        return false;
    }
    same_name(pool, names[i], names[j])
}

/// Whether one of n methods is such a getter.
fn parts_from_some(
    pool: &[u8],
    flags: &[u8; OWN_LIMIT],
    names: &[u32; OWN_LIMIT],
    n: usize,
    j: usize,
) -> bool
    requires { (n ≤ own_limit) × (length pool.now ≤ file_limit) × (own_limit ≡ length flags.now) × (own_limit ≡ length names.now) × Led pool.now names.now n × (j < n) × (is_setter (cell flags.now) j ≡ true) }
    ensures { result ≡ stray_with (cell flags.now) (word_in pool.now names.now) n j }
{
    for i in 0..n {
        if parts_from(pool, flags, names, n, i, j) {
            return true;
        }
    }
    false
}

/// Whether method j is a setter of a broken pair.
fn stray_with(
    pool: &[u8],
    flags: &[u8; OWN_LIMIT],
    names: &[u32; OWN_LIMIT],
    n: usize,
    j: usize,
) -> bool
    requires { (n ≤ own_limit) × (length pool.now ≤ file_limit) × (own_limit ≡ length flags.now) × (own_limit ≡ length names.now) × Led pool.now names.now n × (j < n) }
    ensures { result ≡ stray_with (cell flags.now) (word_in pool.now names.now) n j }
{
    if flags[j] / method::SETTER % 2 == 1 {
        return parts_from_some(pool, flags, names, n, j);
    }
    false
}

/// Whether a getter pair is broken, by comparing each setter's name with the getters'.
fn stray_by_each(pool: &[u8], flags: &[u8; OWN_LIMIT], names: &[u32; OWN_LIMIT], n: usize) -> bool
    requires { (n ≤ own_limit) × (length pool.now ≤ file_limit) × (own_limit ≡ length flags.now) × (own_limit ≡ length names.now) × Led pool.now names.now n }
    ensures { result ≡ stray_pairs (cell flags.now) (word_in pool.now names.now) n }
{
    for j in 0..n {
        if stray_with(pool, flags, names, n, j) {
            return true;
        }
    }
    false
}

/// How many of n methods are setters.
fn count_setters(flags: &[u8; OWN_LIMIT], n: usize) -> usize
    requires { (n ≤ own_limit) × (own_limit ≡ length flags.now) }
    ensures { result ≤ n }
{
    let mut k: usize = 0;
    for i in 0..n {
        k += (flags[i] / method::SETTER % 2) as usize;
    }
    k
}

/// Below so many comparisons names are compared one by one; with more, names alike would take longer than with the table.
const FEW: usize = 128;

/// Whether a getter pair is broken among n methods, whose flags and name pointers stand in tables.
pub fn stray_pairs(pool: &[u8], flags: &[u8; OWN_LIMIT], names: &[u32; OWN_LIMIT], n: usize) -> bool
    requires { (n ≤ own_limit) × (length pool.now ≤ file_limit) × (own_limit ≡ length flags.now) × (own_limit ≡ length names.now) × Led pool.now names.now n }
    ensures { result ≡ stray_pairs (cell flags.now) (word_in pool.now names.now) n }
{
    if count_setters(flags, n) * n < FEW {
        return stray_by_each(pool, flags, names, n);
    }
    stray_by_table(pool, flags, names, n)
}
