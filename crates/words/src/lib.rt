//! The words that a command line gives, read.
#![tactic(auto)]

ghost use Rattle.std.specs.Prelude.{◌≡◌, true, ◌+◌, ◌-◌, ◌*◌, ◌≤◌, ◌<◌, length};
ghost use Rattle.decimal.specs.Digits.{value_of};
ghost use Rattle.key.specs.Word.{same_word};
ghost use Rattle.words.specs.All.{all};
ghost use Rattle.words.specs.Words.{words_of, Spans, Ends};
ghost use Rattle.words.specs.Numbers.{is_decimal, within64, number_of};
ghost use Rattle.words.specs.Digits.{is_hex, digit_value, bytes_of, hex_of, filled_with};

/// Where a word stands in its line.
#[derive(Clone, Copy, Debug, PartialEq, Eq)]
pub struct Span {
    pub from: usize,
    pub end: usize,
}

/// Why a word is no number.
#[derive(Clone, Copy, Debug, PartialEq, Eq)]
pub enum NumberError {
    NotDecimal,
    TooLarge,
}

/// Why a word is not the hex digits of an IID.
#[derive(Clone, Copy, Debug, PartialEq, Eq)]
pub enum HexError {
    OtherLength,
    NotHex,
}

// Where the word that starts at `from` ends: at the next separator, or at the line's end.
#[tactic(auto, using(crate::proofs::WordLaws::within))]
fn word_end(line: &[u8], separator: u8, from: usize) -> usize
    requires { from ≤ length line.now }
    ensures { Ends line.now separator from result }
{
    for i in from..line.len() {
        if line[i] == separator {
            return i;
        }
    }
    line.len()
}

/// How many words the line has.
pub fn word_count(line: &[u8], separator: u8) -> usize
    ensures { result ≡ length (words_of separator line.now) }
{
    // A `while`: it goes from word to word, and not by one.
    let mut n: usize = 1;
    let mut end = word_end(line, separator, 0);
    while end < line.len() {
        end = word_end(line, separator, end + 1);
        n += 1;
    }
    n
}

/// The k-th word, from 0; an empty word at the line's end where there are fewer.
#[tactic(auto, using(crate::proofs::WordLaws::sought))]
pub fn word(line: &[u8], separator: u8, k: usize) -> Span
    ensures { Spans line.now separator k result }
{
    let mut from: usize = 0;
    let mut end = word_end(line, separator, 0);
    for _ in 0..k {
        if end == line.len() {
            return Span { from: end, end };
        }
        from = end + 1;
        end = word_end(line, separator, from);
    }
    Span { from, end }
}

#[tactic(auto, using(number::proofs::Choice::tests), unfolding(crate::specs::Numbers::is_decimal))]
fn is_decimal(b: u8) -> bool
    ensures { result ≡ is_decimal b }
{
    48 <= b && b < 58
}

#[tactic(auto, using(crate::proofs::AllLaws::passed))]
fn all_decimal(word: &[u8]) -> bool
    ensures { result ≡ all is_decimal word.now }
{
    for i in 0..word.len() {
        if !is_decimal(word[i]) {
            return false;
        }
    }
    true
}

// The number v with one digit more.
#[tactic(auto, using(crate::proofs::NumberLaws::exceeds, crate::proofs::NumberLaws::fits))]
fn with_digit(v: u64, digit: u8) -> Result<u64, NumberError>
    requires { (48 ≤ digit) × (digit < 58) }
    ensures { result ≡ within64 (v * 10 + (digit - 48)) }
{
    let d = (digit - 48) as u64;
    if (18446744073709551615 - d) / 10 < v {
        return Err(NumberError::TooLarge);
    }
    Ok(v * 10 + d)
}

// The number that the digits of a word spell.
fn value(word: &[u8]) -> Result<u64, NumberError>
    requires { all is_decimal word.now ≡ true }
    ensures { result ≡ within64 (value_of word.now) }
{
    let mut v: u64 = 0;
    for i in 0..word.len() {
        v = with_digit(v, word[i])?;
    }
    Ok(v)
}

/// The number that the word spells.
#[tactic(auto, using(number::proofs::Choice::tests), unfolding(crate::specs::Numbers::number_of))]
pub fn number_of(word: &[u8]) -> Result<u64, NumberError>
    ensures { result ≡ number_of word.now }
{
    if word.len() == 0 || !all_decimal(word) {
        return Err(NumberError::NotDecimal);
    }
    value(word)
}

#[tactic(auto, using(number::proofs::Choice::tests), unfolding(crate::specs::Digits::is_hex))]
fn is_hex(b: u8) -> bool
    ensures { result ≡ is_hex b }
{
    matches!(b, 48..=57 | 65..=70 | 97..=102)
}

#[tactic(auto, using(crate::proofs::AllLaws::passed))]
fn all_hex(word: &[u8]) -> bool
    ensures { result ≡ all is_hex word.now }
{
    for i in 0..word.len() {
        if !is_hex(word[i]) {
            return false;
        }
    }
    true
}

#[tactic(auto, using(number::proofs::Choice::tests, crate::proofs::HexLaws::least, crate::proofs::HexLaws::lower), unfolding(crate::specs::Digits::digit_value))]
fn digit_value(b: u8) -> u8
    requires { is_hex b ≡ true }
    ensures { (result ≡ digit_value b) × (result < 16) }
{
    if b < 58 {
        return b - 48;
    }
    if b < 71 {
        return b - 55;
    }
    b - 87
}

// The sixteen bytes of 32 digits.
#[tactic(auto, using(crate::proofs::AllLaws::all_each, crate::proofs::HexLaws::stored))]
fn put_iid(word: &[u8], out: &mut [u8])
    requires { (length word.now ≡ 32) × ((all is_hex word.now ≡ true) × (16 ≡ length out.old)) }
    ensures { out.new ≡ bytes_of word.now }
{
    for i in 0..16 {
        out[i] = digit_value(word[2 * i]) * 16 + digit_value(word[2 * i + 1]);
    }
}

/// The sixteen bytes that the word spells into `out`, which stays as it was where the word is not whole.
#[tactic(auto, using(number::proofs::Choice::tests), unfolding(crate::specs::Digits::hex_of, crate::specs::Digits::filled_with))]
pub fn iid_bytes(word: &[u8], out: &mut [u8; 16]) -> Result<(), HexError>
    ensures { (result ≡ hex_of word.now) × (out.new ≡ filled_with (hex_of word.now) (bytes_of word.now) out.old) }
{
    if word.len() % 2 == 1 || !all_hex(word) {
        return Err(HexError::NotHex);
    }
    if word.len() != 32 {
        return Err(HexError::OtherLength);
    }
    put_iid(word, out);
    Ok(())
}

/// The bytes are the same.
#[tactic(auto, using(crate::proofs::SameLaws::same_bytes))]
pub fn is_same(a: &[u8], b: &[u8]) -> bool
    ensures { result ≡ same_word a.now b.now }
{
    a == b
}
