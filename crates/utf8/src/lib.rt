//! Characters in UTF-8.
#![tactic(auto)]

ghost use Rattle.std.specs.Prelude.{◌≡◌, ◌+◌, ◌<◌, ◌≤◌, length, get_or, take};
ghost use Rattle.utf8.specs.Utf8.{off_second, off_tail, size_after, size_of, char_size};

/// How many bytes the first byte calls for; 0 where no character starts so.
#[tactic(auto, using(number::proofs::Choice::tests), unfolding(crate::specs::Utf8::size_after))]
fn size_after(a: u8) -> usize
    ensures { result ≡ size_after a }
{
    match a {
        0x00..=0x7f => 1,
        0xc2..=0xdf => 2,
        0xe0..=0xef => 3,
        0xf0..=0xf4 => 4,
        _ => 0,
    }
}

/// Whether `b` may not follow the first byte `a`.
#[tactic(auto, using(number::proofs::Choice::tests), unfolding(crate::specs::Utf8::off_second, crate::specs::Utf8::outside, crate::specs::Utf8::lowest, crate::specs::Utf8::highest))]
fn off_second(a: u8, b: u8) -> bool
    ensures { result ≡ off_second a b }
{
    let (lowest, highest) = match a {
        0xe0 => (0xa0, 0xbf),
        0xed => (0x80, 0x9f),
        0xf0 => (0x90, 0xbf),
        0xf4 => (0x80, 0x8f),
        _ => (0x80, 0xbf),
    };
    b < lowest || highest < b
}

/// Whether `b` is no tail.
#[tactic(auto, using(number::proofs::Choice::tests), unfolding(crate::specs::Utf8::off_tail, crate::specs::Utf8::outside))]
fn off_tail(b: u8) -> bool
    ensures { result ≡ off_tail b }
{
    !(0x80..=0xbf).contains(&b)
}

/// The byte at `p`, or 0 past the end.
fn byte_or_zero(s: &[u8], p: usize) -> u8
    ensures { result ≡ get_or s.now p 0 }
{
    if p < s.len() { s[p] } else { 0 }
}

/// The size of the character at `p` whose first byte calls for `n` bytes, or 0.
#[tactic(auto, using(number::proofs::Choice::tests), unfolding(crate::specs::Utf8::size_of))]
fn size_of(n: usize, s: &[u8], p: usize) -> usize
    requires { p < length s.now }
    ensures { result ≡ size_of n s.now p }
{
    if n <= 1 {
        return n;
    }
    if off_second(s[p], byte_or_zero(s, p + 1)) {
        return 0;
    }
    if n == 2 {
        return 2;
    }
    if off_tail(byte_or_zero(s, p + 2)) {
        return 0;
    }
    if n == 3 {
        return 3;
    }
    if off_tail(byte_or_zero(s, p + 3)) {
        return 0;
    }
    4
}

/// The size of the character at `p` that lies wholly before `stop`, or 0 where none stands.
#[inline(always)]
#[tactic(auto, using(number::proofs::Choice::tests), unfolding(crate::specs::Utf8::char_size, crate::specs::Utf8::size_of, crate::specs::Utf8::size_after))]
pub fn char_size(s: &[u8], p: usize, stop: usize) -> usize
    requires { (p ≤ stop) × (stop ≤ length s.now) }
    ensures { result ≡ char_size (take stop s.now) p }
{
    let s = &s[..stop];
    if s.len() <= p {
        return 0;
    }
    match s[p] {
        0x00..=0x7f => 1,
        a => size_of(size_after(a), s, p),
    }
}
