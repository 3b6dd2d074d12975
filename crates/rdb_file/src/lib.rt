// A whole types.rdb: everything reachable, depth first.
#![tactic(auto)]

ghost use Rattle.std.specs.Prelude.{◌≡◌, List, ℕ, ◌+◌, ◌≤◌, ◌<◌, length, get_or};
ghost use Rattle.number.specs.Limits.{file_limit};
ghost use Rattle.number.specs.Number.{le};
ghost use Rattle.number.specs.Scan.{some};
ghost use Rattle.reading.specs.Got.{step_of, Accepted};
ghost use Rattle.rdb_map.specs.Map.{Entry, visit_limit, read_map};
ghost use Rattle.rdb_stops.specs.Stops.{stop_count, Stopped};
ghost use Rattle.rdb_file.specs.Entered.{Entered, Stands};
ghost use Rattle.rdb_record.specs.Constant.{read_constant};
ghost use Rattle.rdb_file.specs.Seen.{seen_cells, count_again, Settled, Trusted, Keeps, Visited};
ghost use Rattle.rdb_file.specs.Kind.{module_kind, is_annotated, may_flag, is_reserved};
ghost use Rattle.rdb_file.specs.Visit.{count_place, map_place, each, alone, visit_constant, visit_group, visit_module, visit_record, visit_entity};
ghost use Rattle.rdb_file.specs.File.{off_magic, read_root, read_file, verdict_of};

use number::FILE_LIMIT;
use rdb_interface::SetCount;
use rdb_map::{ENTRY_BYTES, VISIT_LIMIT};
use rdb_memory::{MARK_CELLS, OTHER_MARKS};
use rdb_stops::STOP_COUNT;
use reading::{Refusal, Rule};

pub fn is_annotated(k: u8) -> bool
    ensures { result ≡ is_annotated k }
{
    k / 64 % 2 == 1
}

// Kinds of entities: the kind byte's bits below 0x20, and all of it for a module.
pub const MODULE: u8 = 0;

pub const ENUM: u8 = 1;

const STRUCT: u8 = 2;

const EXCEPTION: u8 = 4;

pub const INTERFACE: u8 = 5;

pub const GROUP: u8 = 7;

const SERVICE: u8 = 8;

const LAST_KIND: u8 = 11;

// From the kind byte of a module or a constant group to its number of entries, and to its map.
pub const COUNT_PLACE: usize = 1;

pub const MAP_PLACE: usize = 5;

// What was read well: texts, then two marks for each offset, of an entity and of a constant.
const SEEN_CELLS: usize = OTHER_MARKS / 32 + MARK_CELLS;

// The modules that may be entered one in another.
const MODULE_LIMIT: usize = 16;

// Whether the flag 0x20 may be set for that kind.
fn may_flag(k: u8) -> bool
    ensures { result ≡ may_flag k }
{
    if k % 32 == STRUCT {
        return true;
    }
    if k % 32 == EXCEPTION {
        return true;
    }
    k % 32 == SERVICE
}

// Whether a kind byte is none of document 001's.
fn is_reserved(k: u8) -> bool
    ensures { result ≡ is_reserved k }
{
    if k == MODULE {
        return false;
    }
    if k % 32 == MODULE {
        return true;
    }
    if LAST_KIND < k % 32 {
        return true;
    }
    if k / 32 % 2 == 1 {
        if may_flag(k) {
            return false;
        }
        return true;
    }
    false
}

fn pointer(x: u32) -> usize
    ensures { result ≡ x }
{
    x as usize
}

// The map at `at` with n entries, which was read well before, after v entries.
fn count_again(v: usize, n: usize, at: usize) -> Result<usize, Refusal>
    requires { (v ≤ visit_limit) × (n ≤ 0xffffffff) × (at ≤ file_limit) }
    ensures { result ≡ count_again v n at }
{
    if VISIT_LIMIT < v + n {
        return Err(Rule::TypesEntries.at(at + ENTRY_BYTES * (VISIT_LIMIT - v)));
    }
    Ok(at + ENTRY_BYTES * n)
}

// The map of the module at o, unless it was read well before.
fn enter_map(
    file: &[u8],
    stops: &[u32],
    t: &mut [u16],
    seen: &mut [u32],
    o: usize,
    v: usize,
    n: usize,
) -> Result<usize, Refusal>
    requires { (length file.now ≤ file_limit) × (v ≤ visit_limit) × (visit_limit ≤ length t.old) × (seen_cells ≤ length seen.old) × (map_place o ≤ length file.now) × (get_or file.now o 0 ≡ module_kind) × (n ≡ le 4 file.now (count_place o)) × (n ≤ 0xffffffff) × Trusted file.now seen.old × (stop_count ≤ length stops.now) × Stopped file.now stops.now 0 }
    ensures { (result ≡ step_of (read_map file.now o v n (map_place o))) × Keeps file.now seen.old seen.new }
{
    let at = o + MAP_PLACE;
    if rdb_seen::is_marked(seen, OTHER_MARKS + 2 * o) {
        return count_again(v, n, at);
    }
    let end = rdb_map::check_map(file, stops, t, o, v, n, at)?;
    rdb_seen::mark(seen, OTHER_MARKS + 2 * o);
    Ok(end)
}

// The constant at o, unless it was read well before.
fn visit_constant(file: &[u8], seen: &mut [u32], o: usize, v: usize) -> Result<usize, Refusal>
    requires { (length file.now ≤ file_limit) × (seen_cells ≤ length seen.old) × (o ≤ length file.now) × Trusted file.now seen.old }
    ensures { (result ≡ step_of (alone (read_constant file.now o) v)) × Keeps file.now seen.old seen.new }
{
    if rdb_seen::is_marked(seen, OTHER_MARKS + 2 * o + 1) {
        return Ok(v);
    }
    rdb_record::read_constant(file, seen, o)?;
    rdb_seen::mark(seen, OTHER_MARKS + 2 * o + 1);
    Ok(v)
}

// The constants of the n entries of the map at `at`.
fn visit_constants(
    file: &[u8],
    seen: &mut [u32],
    n: usize,
    at: usize,
    v: usize,
) -> Result<usize, Refusal>
    requires { (length file.now ≤ file_limit) × (seen_cells ≤ length seen.old) × Stands file.now at n × Trusted file.now seen.old }
    ensures { ((es : List Entry) → Entered file.now at n es → result ≡ step_of (each (visit_constant file.now) es v)) × Keeps file.now seen.old seen.new }
{
    for i in 0..n {
        let o = pointer(number::le32_at(file, at + ENTRY_BYTES * i + 4));
        visit_constant(file, seen, o, v)?;
    }
    Ok(v)
}

// What the n entries of the map at `at` lead to, where `left` more modules may be entered.
#[cycle(visit_all_visit_entity_visit_module)]
fn visit_all(
    file: &[u8],
    stops: &[u32],
    t: &mut [u16],
    seen: &mut [u32],
    m: SetCount,
    left: usize,
    n: usize,
    at: usize,
    v: usize,
) -> Result<usize, Refusal>
    requires { (length file.now ≤ file_limit) × (v ≤ visit_limit) × (visit_limit ≤ length t.old) × (seen_cells ≤ length seen.old) × Stands file.now at n × Settled m file.now seen.old × (stop_count ≤ length stops.now) × Stopped file.now stops.now 0 }
    ensures { ((es : List Entry) → Entered file.now at n es → result ≡ step_of (each (visit_entity m left file.now) es v)) × Settled m file.now seen.new }
{
    let mut w = v;
    for i in 0..n {
        let p = at + ENTRY_BYTES * i;
        let o = pointer(number::le32_at(file, p + 4));
        w = visit_entity(file, stops, t, seen, m, left, p, o, w)?;
    }
    Ok(w)
}

// A module at o: its entries, then what they lead to.
#[cycle(visit_all_visit_entity_visit_module)]
fn visit_module(
    file: &[u8],
    stops: &[u32],
    t: &mut [u16],
    seen: &mut [u32],
    m: SetCount,
    left: usize,
    o: usize,
    v: usize,
) -> Result<usize, Refusal>
    requires { (length file.now ≤ file_limit) × (v ≤ visit_limit) × (visit_limit ≤ length t.old) × (seen_cells ≤ length seen.old) × (o ≤ length file.now) × (get_or file.now o 0 ≡ module_kind) × Settled m file.now seen.old × (stop_count ≤ length stops.now) × Stopped file.now stops.now 0 }
    ensures { (result ≡ step_of (visit_module (visit_entity m left file.now) file.now o v)) × Settled m file.now seen.new }
{
    let field = o + COUNT_PLACE;
    let at = o + MAP_PLACE;
    if file.len() < at {
        return Err(Rule::TypesField.at(field));
    }
    let n = pointer(number::le32_at(file, field));
    enter_map(file, stops, t, seen, o, v, n)?;
    visit_all(file, stops, t, seen, m, left, n, at, v + n)
}

// What the entry at `place` leads to, at o.
#[cycle(visit_all_visit_entity_visit_module)]
fn visit_entity(
    file: &[u8],
    stops: &[u32],
    t: &mut [u16],
    seen: &mut [u32],
    m: SetCount,
    left: usize,
    place: usize,
    o: usize,
    v: usize,
) -> Result<usize, Refusal>
    requires { (length file.now ≤ file_limit) × (v ≤ visit_limit) × (visit_limit ≤ length t.old) × (seen_cells ≤ length seen.old) × (o ≤ length file.now) × Settled m file.now seen.old × (stop_count ≤ length stops.now) × Stopped file.now stops.now 0 }
    ensures { (result ≡ step_of (visit_entity m left file.now place o v)) × Settled m file.now seen.new }
{
    if file.len() <= o {
        return Err(Rule::TypesField.at(o));
    }
    let k = file[o];
    if k == MODULE {
        if left == 0 {
            return Err(Rule::TypesNesting.at(place));
        }
        return visit_module(file, stops, t, seen, m, left - 1, o, v);
    }
    if is_reserved(k) {
        return Err(Rule::TypesValue.at(o));
    }
    visit_known(file, stops, t, seen, m, k, o, v)
}

// A constant group at o: its entries and annotations, then its constants.
fn visit_group(
    file: &[u8],
    stops: &[u32],
    t: &mut [u16],
    seen: &mut [u32],
    k: u8,
    o: usize,
    v: usize,
) -> Result<usize, Refusal>
    requires { (length file.now ≤ file_limit) × (v ≤ visit_limit) × (visit_limit ≤ length t.old) × (seen_cells ≤ length seen.old) × (o ≤ length file.now) × Trusted file.now seen.old × (stop_count ≤ length stops.now) × Stopped file.now stops.now 0 }
    ensures { (result ≡ step_of (visit_group file.now k o v)) × Keeps file.now seen.old seen.new }
{
    let field = o + COUNT_PLACE;
    let at = o + MAP_PLACE;
    if file.len() < at {
        return Err(Rule::TypesField.at(field));
    }
    let n = pointer(number::le32_at(file, field));
    let notes = rdb_map::check_map(file, stops, t, o, v, n, at)?;
    rdb_record::read_notes(file, seen, is_annotated(k), notes)?;
    visit_constants(file, seen, n, at, v + n)
}

// What is neither a module nor reserved, at o with the kind byte k.
fn visit_record(
    file: &[u8],
    stops: &[u32],
    t: &mut [u16],
    seen: &mut [u32],
    m: SetCount,
    k: u8,
    o: usize,
    v: usize,
) -> Result<usize, Refusal>
    requires { (length file.now ≤ file_limit) × (v ≤ visit_limit) × (visit_limit ≤ length t.old) × (seen_cells ≤ length seen.old) × (o + 1 ≤ length file.now) × Trusted file.now seen.old × (stop_count ≤ length stops.now) × Stopped file.now stops.now 0 }
    ensures { (result ≡ step_of (visit_record m file.now k o v)) × Keeps file.now seen.old seen.new }
{
    let from = o + 1;
    if k % 32 == ENUM {
        rdb_record::read_enum(file, seen, is_annotated(k), from)?;
        return Ok(v);
    }
    if k % 32 == INTERFACE {
        rdb_interface::read_interface(file, seen, m, is_annotated(k), from)?;
        return Ok(v);
    }
    if k % 32 == GROUP {
        return visit_group(file, stops, t, seen, k, o, v);
    }
    Ok(v)
}

// One that was read well before: a constant group's entries count again.
fn visit_again(file: &[u8], k: u8, o: usize, v: usize) -> Result<usize, Refusal>
    requires { (length file.now ≤ file_limit) × (v ≤ visit_limit) × (o ≤ length file.now) × Visited file.now k o }
    ensures { (m : SetCount) (u : ℕ) → Accepted (visit_record m file.now k o u) → result ≡ step_of (visit_record m file.now k o v) }
{
    if k % 32 != GROUP {
        return Ok(v);
    }
    let n = pointer(number::le32_at(file, o + COUNT_PLACE));
    count_again(v, n, o + MAP_PLACE)?;
    Ok(v + n)
}

// The same, read now or before.
fn visit_known(
    file: &[u8],
    stops: &[u32],
    t: &mut [u16],
    seen: &mut [u32],
    m: SetCount,
    k: u8,
    o: usize,
    v: usize,
) -> Result<usize, Refusal>
    requires { (length file.now ≤ file_limit) × (v ≤ visit_limit) × (visit_limit ≤ length t.old) × (seen_cells ≤ length seen.old) × (o + 1 ≤ length file.now) × (k ≡ get_or file.now o 0) × (module_kind < k) × Settled m file.now seen.old × (stop_count ≤ length stops.now) × Stopped file.now stops.now 0 }
    ensures { (result ≡ step_of (visit_record m file.now k o v)) × Settled m file.now seen.new }
{
    if rdb_seen::is_marked(seen, OTHER_MARKS + 2 * o) {
        return visit_again(file, k, o, v);
    }
    let w = visit_record(file, stops, t, seen, m, k, o, v)?;
    rdb_seen::mark(seen, OTHER_MARKS + 2 * o);
    Ok(w)
}

const MAGIC: [u8; 7] = [85, 78, 79, 73, 68, 76, 255];

// Whether the first seven bytes are not the magic.
fn off_magic(file: &[u8]) -> bool
    requires { 16 ≤ length file.now }
    ensures { result ≡ some (off_magic file.now) 7 }
{
    for i in 0..7 {
        if file[i] != MAGIC[i] {
            return true;
        }
    }
    false
}

// The root map, and what its entries lead to.
fn check_root(
    file: &[u8],
    stops: &[u32],
    t: &mut [u16],
    seen: &mut [u32],
    m: SetCount,
) -> Result<usize, Refusal>
    requires { (16 ≤ length file.now) × (length file.now ≤ file_limit) × (visit_limit ≤ length t.old) × (seen_cells ≤ length seen.old) × Settled m file.now seen.old × (stop_count ≤ length stops.now) × Stopped file.now stops.now 0 }
    ensures { result ≡ step_of (read_root m file.now) }
{
    let at = pointer(number::le32_at(file, 8));
    if file.len() < at {
        return Err(Rule::TypesField.at(8));
    }
    let n = pointer(number::le32_at(file, 12));
    rdb_map::check_map(file, stops, t, at, 0, n, at)?;
    visit_all(file, stops, t, seen, m, MODULE_LIMIT, n, at, n)
}

fn read_file(file: &[u8], m: SetCount) -> Result<usize, Refusal>
    ensures { result ≡ step_of (read_file m file.now) }
{
    if FILE_LIMIT < file.len() {
        return Err(Rule::Long.at(FILE_LIMIT));
    }
    if file.len() < 16 {
        return Err(Rule::TypesHeader.at(0));
    }
    if off_magic(file) {
        return Err(Rule::TypesHeader.at(0));
    }
    if file[7] != 0 {
        return Err(Rule::TypesHeader.at(7));
    }
    let mut t = [0u16; VISIT_LIMIT];
    let mut seen = [0u32; SEEN_CELLS];
    let mut stops = [0u32; STOP_COUNT];
    rdb_stops::fill_stops(file, &mut stops);
    check_root(file, &stops, &mut t, &mut seen, m)
}

// Whether a file follows document 001, read as `m` says: accepted with how many entries were visited, or the first refusal.
pub fn check(file: &[u8], m: SetCount) -> Result<usize, Refusal>
    ensures { result ≡ verdict_of (read_file m file.now) }
{
    read_file(file, m)
}
