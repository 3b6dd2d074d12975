//! What is known of the rows of a union before anything is written: the words of their uses of names, where their descriptors
//! lie, and what these take. A pointer leads into the pool of the first file or, with FILE_LIMIT more, into that of the second.
#![tactic(auto)]

ghost use Rattle.std.specs.Prelude.{◌≡◌, List, ℕ, ◌+◌, ◌-◌, ◌≤◌, ◌<◌, length};
ghost use Rattle.std.proofs.Math.Option.{Option};
ghost use Rattle.number.specs.Limits.{file_limit, own_limit, row_limit};
ghost use Rattle.key.specs.Key.{Key};
ghost use Rattle.key.specs.First.{Filled};
ghost use Rattle.key.specs.Pointer.{no_bytes};
ghost use Rattle.reader.specs.Values.{method_name, constant_name, Descriptor, Entry};
ghost use Rattle.reader.specs.Records.{ShowsMethod, ShowsConstant, ShowsDescriptor};
ghost use Rattle.reader.specs.Layout.{Stands, Rows};
ghost use Rattle.names.specs.Uses.{use_limit};
ghost use Rattle.meaning.specs.Stock.Uses.{names_of, key_words};
ghost use Rattle.rows.specs.Files.{Given};
ghost use Rattle.writing.specs.Source.{Known};
ghost use Rattle.writing.specs.Wrote.{Room};
ghost use Rattle.gather.specs.Words.{Named, NamedDescriptor, Means, PutWords, PutNames, PutDescriptor};
ghost use Rattle.gather.specs.Leading.{SpaceLed, KeyLed, OwnLed, OwnStands, PutOwn, Leading, LedEntries, Answered, led_to, led_row, led_held, led_body, PointersIn, HeldIn, HoldersIn};

use iids::index;
use names::{USE_LIMIT, pointer};
use number::{ENTRY_WIDTH, FILE_LIMIT, ROW_LIMIT};

/// After a descriptor: the use that is next, and the bytes of the descriptor without its names.
#[derive(Clone, Copy, Debug, PartialEq, Eq)]
pub struct Passed {
    pub next: usize,
    pub size: usize,
}

// ---- descriptors

// The names of n methods from `at` on, as the uses from u on. The answer is where the methods end.
fn note_methods(
    pool: &[u8],
    n: usize,
    at: usize,
    base: usize,
    words: &mut [u32; USE_LIMIT],
    u: usize,
) -> usize
    requires { Stands (Rows (Known (ShowsMethod pool.now) (Named method_name)) n at) × ((length pool.now ≤ file_limit) × ((base ≤ file_limit) × ((u + n ≤ use_limit) × (use_limit ≡ length words.old)))) }
    ensures { PutNames (Known (ShowsMethod pool.now) (Named method_name)) method_name n at pool.now base words.old words.new u result }
{
    let mut p = at;
    for k in 0..n {
        words[u + k] = (base + reader::record::method_name(pool, p)) as u32;
        p = reader::record::method_end(pool, p);
    }
    p
}

// The same of constants.
fn note_constants(
    pool: &[u8],
    n: usize,
    at: usize,
    base: usize,
    words: &mut [u32; USE_LIMIT],
    u: usize,
) -> usize
    requires { Stands (Rows (Known (ShowsConstant pool.now) (Named constant_name)) n at) × ((length pool.now ≤ file_limit) × ((base ≤ file_limit) × ((u + n ≤ use_limit) × (use_limit ≡ length words.old)))) }
    ensures { PutNames (Known (ShowsConstant pool.now) (Named constant_name)) constant_name n at pool.now base words.old words.new u result }
{
    let mut p = at;
    for k in 0..n {
        words[u + k] = (base + reader::record::constant_name(pool, p)) as u32;
        p = reader::record::constant_end(pool, p);
    }
    p
}

// The names of the descriptor at `at`: those of its methods, then those of its constants.
fn note_descriptor(
    pool: &[u8],
    at: usize,
    base: usize,
    words: &mut [u32; USE_LIMIT],
    u: usize,
) -> Passed
    requires { Room (Known (ShowsDescriptor pool.now) NamedDescriptor at) (λ d. length (names_of d)) (use_limit - u) × ((length pool.now ≤ file_limit) × ((base ≤ file_limit) × ((u ≤ use_limit) × (use_limit ≡ length words.old)))) }
    ensures { PutDescriptor (Known (ShowsDescriptor pool.now) NamedDescriptor at) pool.now base words.old words.new u result }
{
    let n = number::u16_at(pool, at + 2) as usize;
    let p = note_methods(pool, n, at + 4, base, words, u);
    let m = number::u16_at(pool, p) as usize;
    let e = note_constants(pool, m, p + 2, base, words, u + n);
    Passed {
        next: u + n + m,
        size: e + 1 - at,
    }
}

// ---- rows

// The namespace that v leads to has no bytes, as the default has none.
fn is_default(pool: &[u8], other: &[u8], v: usize) -> bool
    requires { Given (SpaceLed pool.now other.now v) }
    ensures { (x : List ℕ) → SpaceLed pool.now other.now v x → result ≡ no_bytes x }
{
    if v == 0 {
        return true;
    }
    if v <= FILE_LIMIT {
        return pool[v - 1] == 0;
    }
    other[v - FILE_LIMIT - 1] == 0
}

// The key whose name w leads to and v its namespace, as the uses from u on. The answer is the use that is next.
fn note_key(
    pool: &[u8],
    other: &[u8],
    w: u32,
    v: u32,
    words: &mut [u32; USE_LIMIT],
    u: usize,
) -> usize
    requires { Given (KeyLed pool.now other.now w v) × ((u + 2 ≤ use_limit) × (use_limit ≡ length words.old)) }
    ensures { (k : Key) → KeyLed pool.now other.now w v k → (result ≡ u + length (key_words k)) × PutWords (Means pool.now other.now) words.old words.new u (key_words k) }
{
    words[u] = w;
    if is_default(pool, other, pointer(v)) {
        return u + 1;
    }
    words[u + 1] = v;
    u + 2
}

// The names of the descriptor that b leads to; 0 is none.
fn note_body(pool: &[u8], other: &[u8], b: usize, words: &mut [u32; USE_LIMIT], u: usize) -> Passed
    requires { OwnStands pool.now other.now b × ((length pool.now ≤ file_limit) × ((length other.now ≤ file_limit) × ((u + (own_limit + own_limit) ≤ use_limit) × (use_limit ≡ length words.old)))) }
    ensures { (n : ℕ) (d : Option (Descriptor ℕ)) → OwnLed pool.now other.now n b d → PutOwn pool.now other.now words.old words.new u result d }
{
    if b == 0 {
        return Passed { next: u, size: 0 };
    }
    if b <= FILE_LIMIT {
        return note_descriptor(pool, b - 1, 0, words, u);
    }
    note_descriptor(other, b - FILE_LIMIT - 1, FILE_LIMIT, words, u)
}

/// Of c rows, whose names, namespaces and descriptors three tables lead to: the words of their uses, how many of these stand
/// before each descriptor, and what each takes; the first use of each row takes the place of its name.
/// It stops where a file of the rows would be too long even without names.
pub fn note_rows(
    pool: &[u8],
    other: &[u8],
    names: &mut [u32; ROW_LIMIT],
    spaces: &[u32; ROW_LIMIT],
    bodies: &[u32; ROW_LIMIT],
    c: usize,
    words: &mut [u32; USE_LIMIT],
    before: &mut [u32; ROW_LIMIT],
    sizes: &mut [u32; ROW_LIMIT],
) -> Option<usize>
    requires { LedEntries pool.now other.now names.old spaces.now bodies.now c × ((row_limit ≡ length names.old) × ((use_limit ≡ length words.old) × ((row_limit ≡ length before.old) × (row_limit ≡ length sizes.old)))) }
    ensures { ((n : ℕ) (us : List (Entry ℕ)) → Leading pool.now other.now n names.old spaces.now bodies.now us c → Answered us pool.now other.now words.new names.new before.new sizes.new c result) × (row_limit ≡ length sizes.new) }
{
    let mut total = 36 + ENTRY_WIDTH * c;
    let mut u: usize = 0;
    for q in 0..c {
        let e = note_key(pool, other, names[q], spaces[q], words, u);
        names[q] = u as u32;
        let b = bodies[q];
        let x = note_body(pool, other, pointer(b), words, e);
        before[q] = e as u32;
        sizes[q] = x.size as u32;
        u = x.next;
        total += x.size;
        if FILE_LIMIT < total {
            return None;
        }
    }
    Some(u)
}

// ---- tables of rows that lead

// The pool pointer p of row r as one into either pool; the first file has n rows.
fn lead(n: usize, r: usize, p: u32) -> u32
    requires { p ≤ file_limit }
    ensures { result ≡ led_to n r p }
{
    if p == 0 {
        return 0;
    }
    if r < n {
        return p;
    }
    FILE_LIMIT as u32 + p
}

/// Of the first c rows of t, what `pointers` tells of each.
pub fn lead_rows(
    pointers: &[u32; ROW_LIMIT],
    n: usize,
    t: &[u16; ROW_LIMIT],
    c: usize,
    led: &mut [u32; ROW_LIMIT],
)
    requires { PointersIn pointers.now t.now c × ((row_limit ≡ length pointers.now) × ((row_limit ≡ length t.now) × (row_limit ≡ length led.old))) }
    ensures { Filled led.new c (led_row n pointers.now t.now) × (row_limit ≡ length led.new) }
{
    for q in 0..c {
        let r = index(t[q]);
        led[q] = lead(n, r, pointers[r]);
    }
}

// What `own` tells of the row that h tells, counted from 1.
fn lead_held(own: &[u32; ROW_LIMIT], n: usize, h: usize) -> u32
    requires { HeldIn own.now h × (row_limit ≡ length own.now) }
    ensures { result ≡ led_held n own.now h }
{
    if h == 0 {
        return 0;
    }
    lead(n, h - 1, own[h - 1])
}

/// Of the first c rows of t, what `own` tells of the rows that `holders` tells for them, counted from 1.
pub fn lead_bodies(
    own: &[u32; ROW_LIMIT],
    n: usize,
    t: &[u16; ROW_LIMIT],
    holders: &[u16; ROW_LIMIT],
    c: usize,
    led: &mut [u32; ROW_LIMIT],
)
    requires { HoldersIn own.now t.now holders.now c × ((row_limit ≡ length own.now) × ((row_limit ≡ length t.now) × ((row_limit ≡ length holders.now) × (row_limit ≡ length led.old)))) }
    ensures { Filled led.new c (led_body n own.now t.now holders.now) × (row_limit ≡ length led.new) }
{
    for q in 0..c {
        let r = index(t[q]);
        let h = index(holders[r]);
        led[q] = lead_held(own, n, h);
    }
}
