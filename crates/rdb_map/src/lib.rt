// Maps of a types.rdb: entries, each with the offset of its key and that of its payload.
#![tactic(auto)]

ghost use Rattle.std.specs.declared.cmp.Ordering.TheVariants.{Less};
ghost use Rattle.std.specs.Prelude.{◌≡◌, ◌+◌, ◌-◌, ◌*◌, ◌≤◌, ◌<◌, length, true};
ghost use Rattle.number.specs.Limits.{file_limit};
ghost use Rattle.number.specs.Number.{le};
ghost use Rattle.reading.specs.Got.{step_of, many};
ghost use Rattle.key.specs.Word.{word_end, word_at, compare_words};
ghost use Rattle.key.specs.Key.{compare_keys};
ghost use Rattle.sorting.specs.Table.{Sorted, Slot, held_at};
ghost use Rattle.rdb_stops.specs.Stops.{stop_count, name_end, Stopped};
ghost use Rattle.rdb_map.specs.Map.{visit_limit, entry_place, read_key, read_payload, read_entry, read_map};
ghost use Rattle.rdb_map.specs.Named.{Named, Rising, EntryChecked, RiseChecked};
ghost use Rattle.rdb_map.specs.Table.{name_key, name_in};

use reading::{Refusal, Rule};
use std::cmp::Ordering;

// Entries visited, each counted whenever its map is read.
pub const VISIT_LIMIT: usize = 65536;

// Bytes of an entry.
pub const ENTRY_BYTES: usize = 8;

fn pointer(x: u32) -> usize
    ensures { result ≡ x }
{
    x as usize
}

// The first zero byte from `at` on, or the end of the file, byte by byte.
pub fn word_end(file: &[u8], at: usize) -> usize
    requires { at ≤ length file.now }
    ensures { result ≡ word_end file.now at }
{
    for i in at..file.len() {
        if file[i] == 0 {
            return i;
        }
    }
    file.len()
}

// The name that the offset at `at` leads to.
fn read_key(file: &[u8], stops: &[u32], at: usize) -> Result<usize, Refusal>
    requires { (length file.now ≤ file_limit) × (at ≤ length file.now) × (stop_count ≤ length stops.now) × Stopped file.now stops.now 0 }
    ensures { result ≡ step_of (read_key file.now at) }
{
    let end = at + 4;
    if file.len() < end {
        return Err(Rule::TypesField.at(at));
    }
    let q = pointer(number::le32_at(file, at));
    if file.len() <= q {
        return Err(Rule::TypesField.at(at));
    }
    let stop = rdb_stops::name_end(file, stops, q);
    if file.len() <= stop {
        return Err(Rule::TypesField.at(at));
    }
    if file[stop] == 0 {
        return Ok(end);
    }
    if file.len() <= word_end(file, stop) {
        return Err(Rule::TypesField.at(at));
    }
    Err(Rule::TypesValue.at(at))
}

// The names at a and b, the shorter first.
fn compare_names(file: &[u8], stops: &[u32], a: usize, b: usize) -> Ordering
    requires { (length file.now ≤ file_limit) × (word_end file.now a < length file.now) × (word_end file.now b < length file.now) × (name_end file.now a ≡ word_end file.now a) × (name_end file.now b ≡ word_end file.now b) × (stop_count ≤ length stops.now) × Stopped file.now stops.now 0 }
    ensures { result ≡ compare_keys (name_key file.now a) (name_key file.now b) }
{
    let x = rdb_stops::name_end(file, stops, a) - a;
    let y = rdb_stops::name_end(file, stops, b) - b;
    if x < y {
        return Ordering::Less;
    }
    if y < x {
        return Ordering::Greater;
    }
    key::compare_words(file, a, file, b)
}

// Where the name of entry i of the map at `at` stands.
fn name_of(file: &[u8], at: usize, i: usize) -> usize
    requires { (length file.now ≤ file_limit) × (entry_place at i + 4 ≤ length file.now) }
    ensures { result ≡ le 4 file.now (entry_place at i) }
{
    pointer(number::le32_at(file, at + ENTRY_BYTES * i))
}

// The same of entries i and j of the map at `at`.
fn compare_entries(file: &[u8], stops: &[u32], at: usize, i: usize, j: usize) -> Ordering
    requires { (length file.now ≤ file_limit) × Named file.now at (j + 1) × (i < j) × (stop_count ≤ length stops.now) × Stopped file.now stops.now 0 }
    ensures { result ≡ compare_keys (name_in file.now at i) (name_in file.now at j) }
{
    compare_names(file, stops, name_of(file, at, i), name_of(file, at, j))
}

fn index(x: u16) -> usize
    ensures { result ≡ x }
{
    x as usize
}

// The place of entry k among the k before it, which t has in order, by halving.
fn slot_of(file: &[u8], stops: &[u32], at: usize, t: &[u16], k: usize) -> usize
    requires { (length file.now ≤ file_limit) × Named file.now at (k + 1) × (k < visit_limit) × (k ≤ length t.now) × Sorted (name_in file.now at) t.now k k × (stop_count ≤ length stops.now) × Stopped file.now stops.now 0 }
    ensures { Slot (name_in file.now at) t.now k k result }
{
    let mut lo: usize = 0;
    let mut hi = k;
    while lo < hi {
        let mid = lo + (hi - lo) / 2;
        let o = compare_entries(file, stops, at, index(t[mid]), k);
        match o {
            Ordering::Less => lo = mid + 1,
            Ordering::Equal => hi = mid,
            Ordering::Greater => hi = mid,
        }
    }
    lo
}

// Whether the entry at place p of t has the name of entry k.
fn held_at(file: &[u8], stops: &[u32], at: usize, t: &[u16], k: usize, p: usize) -> bool
    requires { (length file.now ≤ file_limit) × Named file.now at (k + 1) × (k < visit_limit) × (k ≤ length t.now) × Sorted (name_in file.now at) t.now k k × (stop_count ≤ length stops.now) × Stopped file.now stops.now 0 }
    ensures { result ≡ held_at (name_in file.now at) t.now k k p }
{
    if k <= p {
        return false;
    }
    let o = compare_entries(file, stops, at, index(t[p]), k);
    match o {
        Ordering::Less => false,
        Ordering::Equal => true,
        Ordering::Greater => false,
    }
}

// The offset of a payload, which starts below `hold`.
#[tactic(auto, using(reading::proofs::Steps::walks, rdb_text::proofs::FieldLaws::fields), unfolding(crate::specs::Map::read_payload))]
fn read_payload(file: &[u8], hold: usize, at: usize) -> Result<usize, Refusal>
    requires { (length file.now ≤ file_limit) × (at ≤ length file.now) }
    ensures { result ≡ step_of (read_payload file.now hold at) }
{
    let end = at + 4;
    if file.len() < end {
        return Err(Rule::TypesField.at(at));
    }
    let q = pointer(number::le32_at(file, at));
    if file.len() < q {
        return Err(Rule::TypesField.at(at));
    }
    if hold <= q {
        return Err(Rule::TypesPayload.at(at));
    }
    Ok(end)
}

// Bytes of a name that are compared with its neighbour's, at most.
const NEIGHBOUR_BYTES: usize = 64;

// Whether the name at a is seen to come before that at b by their first bytes.
fn comes_before(file: &[u8], a: usize, b: usize) -> bool
    requires { (length file.now ≤ file_limit) × (word_end file.now a < length file.now) × (word_end file.now b < length file.now) }
    ensures { result ≡ true → compare_words (word_at file.now a) (word_at file.now b) ≡ Less }
{
    let mut i = a;
    let mut j = b;
    while i < a + NEIGHBOUR_BYTES {
        if file[i] < file[j] {
            return true;
        }
        if file[j] < file[i] {
            return false;
        }
        if file[i] == 0 {
            return false;
        }
        i += 1;
        j += 1;
    }
    false
}

// Whether the names of the first k + 1 entries of the map at `at` are seen to rise, where those of the first k do.
fn rises(file: &[u8], at: usize, k: usize) -> bool
    requires { (length file.now ≤ file_limit) × Named file.now at (k + 1) × Rising file.now at k }
    ensures { result ≡ true → Rising file.now at (k + 1) }
{
    if k == 0 {
        return true;
    }
    comes_before(file, name_of(file, at, k - 1), name_of(file, at, k))
}

// Entry k of the map at `at`, where v entries were visited before this map, and the names of the k before it rise; nothing is
// said of it where its own name is not seen to rise.
fn check_rising(
    file: &[u8],
    stops: &[u32],
    at: usize,
    hold: usize,
    v: usize,
    k: usize,
) -> Result<Option<usize>, Refusal>
    requires { (length file.now ≤ file_limit) × (v ≤ visit_limit) × (entry_place at k ≤ length file.now) × Named file.now at k × Rising file.now at k × (stop_count ≤ length stops.now) × Stopped file.now stops.now 0 }
    ensures { RiseChecked file.now at hold v k result }
{
    let p = at + ENTRY_BYTES * k;
    if VISIT_LIMIT <= v + k {
        return Err(Rule::TypesEntries.at(p));
    }
    let payload = read_key(file, stops, p)?;
    if rises(file, at, k) {
        return Ok(Some(read_payload(file, hold, payload)?));
    }
    Ok(None)
}

// Entry k of the map at `at`, where v entries were visited before this map, and t has the k entries before it in order.
fn check_entry(
    file: &[u8],
    stops: &[u32],
    t: &mut [u16],
    at: usize,
    hold: usize,
    v: usize,
    k: usize,
) -> Result<usize, Refusal>
    requires { (length file.now ≤ file_limit) × (v ≤ visit_limit) × (entry_place at k ≤ length file.now) × (visit_limit ≤ length t.old) × Named file.now at k × Sorted (name_in file.now at) t.old k k × (stop_count ≤ length stops.now) × Stopped file.now stops.now 0 }
    ensures { EntryChecked file.now at hold v k result t.new }
{
    let p = at + ENTRY_BYTES * k;
    if VISIT_LIMIT <= v + k {
        return Err(Rule::TypesEntries.at(p));
    }
    let payload = read_key(file, stops, p)?;
    let slot = slot_of(file, stops, at, t, k);
    if held_at(file, stops, at, t, k, slot) {
        return Err(Rule::TypesKeyTwice.at(p));
    }
    sorting::insert_at(t, k, slot, k as u16);
    read_payload(file, hold, payload)
}

// The first k entries of the map at `at`, whose names rise, into the table t.
fn enter_all(file: &[u8], stops: &[u32], t: &mut [u16], at: usize, k: usize)
    requires { (length file.now ≤ file_limit) × (k ≤ visit_limit) × (visit_limit ≤ length t.old) × Named file.now at k × Rising file.now at k × (stop_count ≤ length stops.now) × Stopped file.now stops.now 0 }
    ensures { Sorted (name_in file.now at) t.new k k }
{
    for i in 0..k {
        let slot = slot_of(file, stops, at, t, i);
        sorting::insert_at(t, i, slot, i as u16);
    }
}

// The entries from `from` on of the n of the map at `at`, by the table t; the names of those before rise.
fn check_rest(
    file: &[u8],
    stops: &[u32],
    t: &mut [u16],
    hold: usize,
    v: usize,
    n: usize,
    at: usize,
    from: usize,
) -> Result<usize, Refusal>
    requires { (length file.now ≤ file_limit) × (v ≤ visit_limit) × (from ≤ visit_limit) × (from ≤ n) × (entry_place at from ≤ length file.now) × (visit_limit ≤ length t.old) × Named file.now at from × Rising file.now at from × (stop_count ≤ length stops.now) × Stopped file.now stops.now 0 }
    ensures { result ≡ step_of (many (read_entry file.now at hold v) (n - from) (entry_place at from)) }
{
    enter_all(file, stops, t, at, from);
    for k in from..n {
        check_entry(file, stops, t, at, hold, v, k)?;
    }
    Ok(at + ENTRY_BYTES * n)
}

// The n entries of the map at `at`, which is held by what stands at `hold`. What t holds before does not matter, and afterwards it may hold anything.
pub fn check_map(
    file: &[u8],
    stops: &[u32],
    t: &mut [u16],
    hold: usize,
    v: usize,
    n: usize,
    at: usize,
) -> Result<usize, Refusal>
    requires { (length file.now ≤ file_limit) × (v ≤ visit_limit) × (at ≤ length file.now) × (visit_limit ≤ length t.old) × (stop_count ≤ length stops.now) × Stopped file.now stops.now 0 }
    ensures { result ≡ step_of (read_map file.now hold v n at) }
{
    for k in 0..n {
        let Some(_) = check_rising(file, stops, at, hold, v, k)? else {
            return check_rest(file, stops, t, hold, v, n, at, k);
        };
    }
    Ok(at + ENTRY_BYTES * n)
}
