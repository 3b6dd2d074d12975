// Where a dotted path leads in a types.rdb that was accepted.
#![tactic(auto)]

ghost use Rattle.std.specs.Prelude.{◌≡◌, ◌+◌, ◌-◌, ◌*◌, ◌≤◌, ◌<◌, length};
ghost use Rattle.number.specs.Limits.{file_limit};
ghost use Rattle.number.specs.Number.{le};
ghost use Rattle.number.specs.Scan.{scan};
ghost use Rattle.key.specs.Word.{word_end};
ghost use Rattle.rdb_map.specs.Map.{entry_bytes, entry_place};
ghost use Rattle.rdb_interface.specs.declared.SetCount.{SetCount};
ghost use Rattle.rdb_path.specs.Path.{dot_at, cut, is_called, payload_of, entity_at, constant_in, constant_at};
ghost use Rattle.rdb_path.specs.Reached.{Keyed, Visited, Checked, LastWord};
ghost use Rattle.rdb_path.specs.Place.{place_of};

use rdb_file::{COUNT_PLACE, GROUP, MAP_PLACE, MODULE};
use rdb_map::ENTRY_BYTES;

fn pointer(x: u32) -> usize
    ensures { result ≡ x }
{
    x as usize
}

// The first dot from `from` on, or the end of the path.
fn dot_from(path: &[u8], from: usize) -> usize
    requires { from ≤ length path.now }
    ensures { result ≡ scan (dot_at path.now) (length path.now - from) from }
{
    for i in from..path.len() {
        if path[i] == 0x2e {
            return i;
        }
    }
    path.len()
}

// Where the last word of the path starts.
fn last_word(path: &[u8]) -> usize
    ensures { LastWord path.now result }
{
    let mut i = path.len();
    while 0 < i {
        if path[i - 1] == 0x2e {
            return i;
        }
        i -= 1;
    }
    i
}

// Whether entry i of the map at `at` is called so. Where no zero byte stands at the word's length, its bytes aren't looked at.
fn is_called(file: &[u8], at: usize, i: usize, word: &[u8]) -> bool
    requires { (length file.now ≤ file_limit) × (entry_place at i + entry_bytes ≤ length file.now) × (word_end file.now (le 4 file.now (entry_place at i)) < length file.now) }
    ensures { result ≡ is_called file.now at word.now i }
{
    let q = pointer(number::le32_at(file, at + ENTRY_BYTES * i));
    if file.len() - q <= word.len() {
        return false;
    }
    if file[q + word.len()] != 0 {
        return false;
    }
    key::same_word(file, q + 1, word)
}

// The first of the n entries of the map at `at` that is called so, or n.
fn find_entry(file: &[u8], at: usize, n: usize, word: &[u8]) -> usize
    requires { (length file.now ≤ file_limit) × Keyed file.now at n }
    ensures { result ≡ scan (is_called file.now at word.now) n 0 }
{
    for i in 0..n {
        if is_called(file, at, i, word) {
            return i;
        }
    }
    n
}

// Its payload.
fn payload_of(file: &[u8], at: usize, n: usize, word: &[u8]) -> Option<usize>
    requires { (length file.now ≤ file_limit) × Keyed file.now at n }
    ensures { result ≡ place_of (payload_of file.now at n word.now) }
{
    let i = find_entry(file, at, n, word);
    if i < n {
        return Some(pointer(number::le32_at(file, at + ENTRY_BYTES * i + 4)));
    }
    None
}

// The entity that the path leads to.
pub fn entity_at(file: &[u8], path: &[u8]) -> Option<usize>
    requires { Checked file.now }
    ensures { result ≡ place_of (entity_at file.now (cut path.now)) }
{
    let mut at = pointer(number::le32_at(file, 8));
    let mut n = pointer(number::le32_at(file, 12));
    let mut from: usize = 0;
    let mut to = dot_from(path, 0);
    while to < path.len() {
        let found = payload_of(file, at, n, &path[from..to]);
        let Some(o) = found else {
            return found;
        };
        if file[o] != MODULE {
            return None;
        }
        at = o + MAP_PLACE;
        n = pointer(number::le32_at(file, o + COUNT_PLACE));
        from = to + 1;
        to = dot_from(path, from);
    }
    payload_of(file, at, n, &path[from..])
}

// The constant of that name, if the entity at o is a constant group.
fn constant_in(file: &[u8], o: usize, word: &[u8]) -> Option<usize>
    requires { (length file.now ≤ file_limit) × ((m : SetCount) × Visited m file.now o) }
    ensures { result ≡ place_of (constant_in file.now word.now o) }
{
    if file[o] % 32 != GROUP {
        return None;
    }
    let n = pointer(number::le32_at(file, o + COUNT_PLACE));
    payload_of(file, o + MAP_PLACE, n, word)
}

// The constant that the path leads to.
pub fn constant_at(file: &[u8], path: &[u8]) -> Option<usize>
    requires { Checked file.now }
    ensures { result ≡ place_of (constant_at file.now (cut path.now)) }
{
    let from = last_word(path);
    if from == 0 {
        return None;
    }
    let group = entity_at(file, &path[..from - 1]);
    let Some(o) = group else {
        return group;
    };
    constant_in(file, o, &path[from..])
}
