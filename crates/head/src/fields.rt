//! The fields of the header: refusals 1 to 8, with 29 and 30 for 6.
ghost use Rattle.std.specs.Prelude.{◌≡◌, ◌≤◌, length};
ghost use Rattle.head.specs.Header.{magic_end, misplaced_pool, misplaced_directory, read_positions, read_fields, read_header, head_of};

use super::{Header, NEWEST};
use number::{ENTRY_LIMIT, ENTRY_WIDTH, FILE_LIMIT};
use reading::{Refusal, Rule};

const MAGIC: [u8; 16] = *b"XPCOM\nTypeLib\r\n\x1a";

/// The first byte that differs from the magic, or 16.
fn magic_end(file: &[u8]) -> usize
    requires { 32 ≤ length file.now }
    ensures { result ≡ magic_end file.now }
{
    for i in 0..16 {
        if file[i] != MAGIC[i] {
            return i;
        }
    }
    16
}

/// Whether the pool offset is wrong in a file of `len` bytes.
#[tactic(auto, using(number::proofs::Choice::tests), unfolding(crate::specs::Header::misplaced_pool))]
fn misplaced_pool(pool: usize, len: usize) -> bool
    ensures { result ≡ misplaced_pool pool len }
{
    pool < 33 || len < pool
}

/// Whether the directory offset is wrong for n entries.
#[tactic(auto, using(number::proofs::Choice::tests), unfolding(crate::specs::Header::misplaced_directory))]
fn misplaced_directory(n: usize, directory: usize, pool: usize) -> bool
    requires { (n ≤ 65535) × (directory ≤ 4294967295) }
    ensures { result ≡ misplaced_directory n directory pool }
{
    if n == 0 {
        return directory != 0;
    }
    directory % 4 != 0 || directory < 33 || pool < directory + ENTRY_WIDTH * n
}

/// Refusal 8.
#[tactic(auto, using(crate::proofs::HeadSteps::walks), unfolding(crate::specs::Header::read_positions))]
fn read_positions(file: &[u8]) -> Result<Header, Refusal>
    requires { 32 ≤ length file.now }
    ensures { result ≡ head_of (read_positions file.now) }
{
    let count = usize::from(number::u16_at(file, 18));
    let directory = number::u32_at(file, 24) as usize;
    let pool = number::u32_at(file, 28) as usize;
    if misplaced_pool(pool, file.len()) {
        return Err(Rule::Positions.at(28));
    }
    if misplaced_directory(count, directory, pool) {
        return Err(Rule::Positions.at(24));
    }
    Ok(Header {
        minor: file[17],
        count,
        directory,
        pool,
    })
}

/// Refusals 4 to 8.
#[tactic(auto, using(crate::proofs::HeadSteps::walks), unfolding(crate::specs::Header::read_fields, crate::specs::Header::unknown_minor, crate::specs::Header::length_fault))]
fn read_fields(file: &[u8]) -> Result<Header, Refusal>
    requires { 32 ≤ length file.now }
    ensures { result ≡ head_of (read_fields file.now) }
{
    if file[16] != 1 {
        return Err(Rule::Major.at(16));
    }
    if NEWEST < file[17] {
        return Err(Rule::Minor.at(17));
    }
    let said = number::u32_at(file, 20) as usize;
    if file.len() < said {
        return Err(Rule::Cut.at(20));
    }
    if said < file.len() {
        return Err(Rule::Added.at(20));
    }
    if ENTRY_LIMIT < usize::from(number::u16_at(file, 18)) {
        return Err(Rule::Entries.at(18));
    }
    read_positions(file)
}

/// The header of a file: refusals 1 to 8, in number order.
#[tactic(auto, using(crate::proofs::HeadSteps::walks), unfolding(crate::specs::Header::read_header))]
pub fn read_header(file: &[u8]) -> Result<Header, Refusal>
    ensures { result ≡ head_of (read_header file.now) }
{
    let len = file.len();
    if len < 32 {
        return Err(Rule::Short.at(len));
    }
    if FILE_LIMIT < len {
        return Err(Rule::Long.at(FILE_LIMIT));
    }
    let end = magic_end(file);
    if end < 16 {
        return Err(Rule::Magic.at(end));
    }
    read_fields(file)
}
