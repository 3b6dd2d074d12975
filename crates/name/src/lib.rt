//! Identifiers, and the pool pointers that lead to them.
#![tactic(auto)]

ghost use Rattle.std.specs.Prelude.{◌≡◌, true, ◌+◌, ◌-◌, ◌≤◌, ◌<◌, length};
ghost use Rattle.number.specs.Limits.{file_limit};
ghost use Rattle.number.specs.Part.{part};
ghost use Rattle.reading.specs.Got.{step_of};
ghost use Rattle.name.specs.Name.{Plain, letter_size, letters_end, is_dash, is_identifier, read_identifier, follow, follow_space, read_name};

use number::NAME_LIMIT;
use reading::{Context, Refusal, Rule};

/// The size of the letter at `p`, or 0 where none stands.
#[tactic(auto, using(crate::proofs::Letters::sizes))]
fn letter_size(s: &[u8], p: usize) -> usize
    requires { p < length s.now }
    ensures { result ≡ letter_size s.now p }
{
    match s[p] {
        0..=32 | 127 => 0,
        33..=126 => 1,
        _ => utf8::char_size(s, p, s.len()),
    }
}

/// Whether the sixteen bytes from `at` on are letters of one byte. A loop without a branch becomes one test of sixteen bytes.
#[tactic(auto, using(crate::proofs::Letters::plains))]
fn sixteen_plain(s: &[u8], at: usize) -> bool
    requires { at + 16 ≤ length s.now }
    ensures { result ≡ true → Plain s.now at 16 }
{
    let mut all = true;
    for k in 0..16 {
        all &= (32 < s[at + k]) & (s[at + k] < 127);
    }
    all
}

/// How far letters of one byte are found by sixteens.
#[tactic(auto, using(crate::proofs::Letters::goings))]
fn plain_to(s: &[u8]) -> usize
    ensures { (result ≤ length s.now) × (letters_end (length s.now) s.now 0 ≡ letters_end (length s.now - result) s.now result) }
{
    let mut i = 0;
    // Steps of sixteen as far as a test holds: no range says where they end.
    while 16 <= s.len() - i && sixteen_plain(s, i) {
        i += 16;
    }
    i
}

/// Where the letters end.
#[tactic(auto, using(crate::proofs::Letters::goings))]
fn letters_end(s: &[u8]) -> usize
    ensures within { result ≤ length s.now }
    ensures ends { result ≡ letters_end (length s.now) s.now 0 }
{
    let mut i = plain_to(s);
    // A letter has one to four bytes, so no range counts them.
    while i < s.len() {
        let size = letter_size(s, i);
        if size == 0 {
            return i;
        }
        i += size;
    }
    i
}

/// Whether the word is a lone `-`.
#[tactic(auto, using(number::proofs::Choice::tests), unfolding(crate::specs::Name::is_dash))]
fn is_dash(word: &[u8]) -> bool
    ensures { result ≡ is_dash word.now }
{
    word.len() == 1 && word[0] == b'-'
}

/// Whether the word is an identifier.
#[tactic(auto, using(number::proofs::Choice::tests), unfolding(crate::specs::Name::is_identifier))]
fn is_name(word: &[u8]) -> bool
    ensures { result ≡ is_identifier word.now }
{
    !word.is_empty()
        && word.len() <= NAME_LIMIT
        && !is_dash(word)
        && letters_end(word) == word.len()
}

/// Whether the bytes from `at` up to `end` are an identifier.
#[tactic(auto, using(crate::proofs::Words::part_lent))]
pub fn is_identifier(s: &[u8], at: usize, end: usize) -> bool
    requires { (at ≤ end) × (end ≤ length s.now) }
    ensures { result ≡ is_identifier (part s.now at end) }
{
    is_name(&s[at..end])
}

/// The identifier at `at`; its pointer field is at `place`. 255 bytes and the zero byte are the most that it takes. As a
/// zero byte is no letter, its letters and its end are found at once.
pub fn read_identifier(pool: &[u8], place: usize, at: usize) -> Result<usize, Refusal>
    requires { at ≤ length pool.now }
    ensures { result ≡ step_of (read_identifier pool.now place at) }
{
    let word = &pool[at..pool.len().min(at + NAME_LIMIT + 1)];
    let size = letters_end(word);
    if size == 0 || size == word.len() || word[size] != 0 || is_dash(&word[..size]) {
        return Err(Rule::Name.at(place));
    }
    Ok(at + size + 1)
}

/// The identifier that the pool pointer `q` leads to; the pointer field is at `place`.
#[tactic(auto, using(reading::proofs::Steps::walks), unfolding(crate::specs::Name::follow))]
pub fn follow_name(pool: &[u8], place: usize, q: usize) -> Result<usize, Refusal>
    ensures { result ≡ step_of (follow pool.now place q) }
{
    if q == 0 {
        return Err(Rule::Name.at(place));
    }
    if pool.len() < q {
        return Err(Rule::Outside.at(place));
    }
    read_identifier(pool, place, q - 1)
}

/// The same of a namespace, which may be absent.
#[tactic(auto, using(reading::proofs::Steps::walks), unfolding(crate::specs::Name::follow_space))]
pub fn follow_space(pool: &[u8], place: usize, q: usize) -> Result<usize, Refusal>
    ensures { result ≡ step_of (follow_space pool.now place q) }
{
    if q == 0 {
        return Ok(0);
    }
    follow_name(pool, place, q)
}

/// The name pointer at `at`, and the identifier that it leads to.
#[tactic(auto, using(reading::proofs::Steps::walks), unfolding(crate::specs::Name::read_name, reading::specs::Got::next))]
pub fn read_name(pool: &[u8], c: Context, at: usize) -> Result<usize, Refusal>
    requires { (at ≤ length pool.now) × (c.base + length pool.now ≤ file_limit) }
    ensures { result ≡ step_of (read_name c pool.now at) }
{
    let end = at + 4;
    if pool.len() < end {
        return Err(Rule::Outside.at(c.base + at));
    }
    let q = number::u32_at(pool, at) as usize;
    follow_name(pool, c.base + at, q)?;
    Ok(end)
}
