// Whether the bytes between two places of a file are US-ASCII, or UTF-8, in a bounded number of steps: for each block of 64 bytes the
// first byte from its start on that is not US-ASCII, and the first that is of no character.
#![tactic(auto)]

ghost use Rattle.std.specs.Prelude.{◌≡◌, ◌+◌, ◌-◌, ◌/◌, ◌≤◌, length};
ghost use Rattle.number.specs.Limits.{file_limit};
ghost use Rattle.number.specs.Part.{part};
ghost use Rattle.utf8.specs.Utf8.{char_size};
ghost use Rattle.rdb_stops.specs.Stops.{block, stop_count, first_from, Stops};
ghost use Rattle.rdb_runs.specs.Bytes.{is_ascii, is_utf8};
ghost use Rattle.rdb_runs.specs.Runs.{is_wide, is_inside, is_ill, good_bytes, run_count, Runs};

use rdb_stops::{BLOCK, STOP_COUNT};

// Numbers of both tables.
pub const RUN_COUNT: usize = STOP_COUNT + STOP_COUNT;

// ---- US-ASCII

// The first byte from `from` on below `to` that is not US-ASCII, or `to`.
fn wide_below(file: &[u8], from: usize, to: usize) -> usize
    requires { (from ≤ to) × (to ≤ length file.now) }
    ensures { result ≡ first_from (is_wide file.now) to from }
{
    let mut i = from;
    while i < to {
        if 0x80 <= file[i] {
            return i;
        }
        i += 1;
    }
    i
}

// The first from `at` on, or the end of the file, where t has those of the blocks after that of `at`.
fn wide_from(file: &[u8], t: &[u32], at: usize) -> usize
    requires { (length file.now ≤ file_limit) × (at ≤ length file.now) × (run_count ≤ length t.now) × Stops (is_wide file.now) (length file.now) t.now 0 (at / block + 1) }
    ensures { result ≡ first_from (is_wide file.now) (length file.now) at }
{
    let b = at / BLOCK + 1;
    let to = BLOCK * b;
    if file.len() <= to {
        return wide_below(file, at, file.len());
    }
    let i = wide_below(file, at, to);
    if i < to {
        return i;
    }
    t[b] as usize
}

// ---- UTF-8

// The size of the character of the file at `i`, or 0.
fn size_at(file: &[u8], i: usize) -> usize
    requires { i ≤ length file.now }
    ensures { result ≡ char_size file.now i }
{
    utf8::char_size(file, i, file.len())
}

// The least place at which a character starts that may have the byte at `i`.
fn first_before(i: usize) -> usize
    ensures { result ≡ i - 3 }
{
    if i < 3 {
        return 0;
    }
    i - 3
}

// Whether a character starts before `i` and ends after it.
fn inside(file: &[u8], i: usize) -> bool
    requires { i ≤ length file.now }
    ensures { result ≡ is_inside file.now i }
{
    let mut j = first_before(i);
    while j < i {
        if i - j < size_at(file, j) {
            return true;
        }
        j += 1;
    }
    false
}

// How many bytes from `i` on are known to be of a character; 0 where that byte is of none.
fn good_bytes(file: &[u8], i: usize) -> usize
    requires { i ≤ length file.now }
    ensures { result ≡ good_bytes file.now i }
{
    let size = size_at(file, i);
    if 0 < size {
        return size;
    }
    if inside(file, i) {
        return 1;
    }
    0
}

// The first byte from `from` on below `to` that is of no character, or `to`.
fn ill_below(file: &[u8], from: usize, to: usize) -> usize
    requires { (from ≤ to) × (to ≤ length file.now) }
    ensures { result ≡ first_from (is_ill file.now) to from }
{
    let mut i = from;
    while i < to {
        let n = good_bytes(file, i);
        if n == 0 {
            return i;
        }
        i += n;
    }
    to
}

// The first from `at` on, or the end of the file, where t has those of the blocks after that of `at`.
fn ill_from(file: &[u8], t: &[u32], at: usize) -> usize
    requires { (length file.now ≤ file_limit) × (at ≤ length file.now) × (run_count ≤ length t.now) × Stops (is_ill file.now) (length file.now) t.now stop_count (at / block + 1) }
    ensures { result ≡ first_from (is_ill file.now) (length file.now) at }
{
    let b = at / BLOCK + 1;
    let to = BLOCK * b;
    if file.len() <= to {
        return ill_below(file, at, file.len());
    }
    let i = ill_below(file, at, to);
    if i < to {
        return i;
    }
    t[STOP_COUNT + b] as usize
}

// ---- the tables

// Both tables of a file. A byte of US-ASCII is a character, so the first byte that is of none is looked for where US-ASCII ends.
pub fn fill(file: &[u8], t: &mut [u32])
    requires { (length file.now ≤ file_limit) × (run_count ≤ length t.old) }
    ensures { Runs file.now t.new 0 }
{
    let mut b = file.len() / BLOCK + 1;
    while 0 < b {
        b -= 1;
        let w = wide_from(file, t, BLOCK * b);
        let i = ill_from(file, t, w);
        t[b] = w as u32;
        t[STOP_COUNT + b] = i as u32;
    }
}

// Whether the bytes from `from` up to `to` are US-ASCII.
pub fn is_ascii(file: &[u8], t: &[u32], from: usize, to: usize) -> bool
    requires { (length file.now ≤ file_limit) × (from ≤ to) × (to ≤ length file.now) × (run_count ≤ length t.now) × Runs file.now t.now 0 }
    ensures { result ≡ is_ascii (part file.now from to) }
{
    to <= wide_from(file, t, from)
}

// Whether they are UTF-8: no character lies across their start or their end, and each byte is of one.
pub fn is_utf8(file: &[u8], t: &[u32], from: usize, to: usize) -> bool
    requires { (length file.now ≤ file_limit) × (from ≤ to) × (to ≤ length file.now) × (run_count ≤ length t.now) × Runs file.now t.now 0 }
    ensures { result ≡ is_utf8 (part file.now from to) }
{
    if from == to {
        return true;
    }
    if inside(file, from) {
        return false;
    }
    if inside(file, to) {
        return false;
    }
    to <= ill_from(file, t, from)
}
