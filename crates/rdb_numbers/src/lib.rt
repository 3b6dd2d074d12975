//! Answers about a types.rdb as numbers, for C and Rust: by the number of a reading, written at the front of a list
//! that has room for any answer.
#![tactic(auto)]

ghost use Rattle.std.specs.Prelude.{◌≡◌, ◌+◌, ◌^◌, ◌≤◌, ◌<◌, length};
ghost use Rattle.std.proofs.lemmas.List.Edits.{sets};
ghost use Rattle.number.specs.Number.{le};
ghost use Rattle.reading.specs.Got.{Accepted};
ghost use Rattle.numbers.specs.Call.{room};
ghost use Rattle.rdb_record.specs.Constant.{value_size, read_constant};
ghost use Rattle.rdb_file.specs.File.{read_file};
ghost use Rattle.rdb_path.specs.Path.{cut, constant_at};
ghost use Rattle.rdb_path.specs.Reached.{Checked};
ghost use Rattle.rdb.specs.Questions.{constant_said, constant_found, ask_constant};
ghost use Rattle.rdb_numbers.specs.Numbers.{check_by, entity_by, constant_by, entity_numbers, constant_numbers};

use rdb::Entity;
use rdb_interface::SetCount;
use reading::{Refusal, Rule};

/// The check by the number of the reading: 0 as document 001 says, 1 as office suites write; with another number it is
/// malformed.
pub fn check_by(file: &[u8], reading: u64) -> Result<usize, Refusal>
    ensures { result ≡ check_by reading file.now }
{
    match reading {
        0 => rdb::check(file, SetCount::Always),
        1 => rdb::check(file, SetCount::UnlessReadOnly),
        _ => Err(Rule::Question.at(0)),
    }
}

fn entity_by(file: &[u8], reading: u64, path: &[u8]) -> Result<Option<Entity>, Refusal>
    ensures { result ≡ entity_by reading file.now path.now }
{
    match reading {
        0 => rdb::entity_by_path(file, SetCount::Always, path),
        1 => rdb::entity_by_path(file, SetCount::UnlessReadOnly, path),
        _ => Err(Rule::Question.at(0)),
    }
}

fn put_told(a: Result<Option<Entity>, Refusal>, answer: &mut [u64])
    requires { room ≤ length answer.old }
    ensures { answer.new ≡ sets answer.old 0 (entity_numbers a) }
{
    match a {
        Ok(Some(x)) => {
            let kind = x.kind as u64;
            let offset = x.offset as u64;
            answer[0] = 0;
            answer[1] = kind;
            answer[2] = offset;
        }
        Ok(None) => {
            answer[0] = 1;
        }
        Err(why) => numbers::put_refusal(why, answer),
    }
}

/// An entity by its path.
pub fn put_entity(file: &[u8], reading: u64, path: &[u8], answer: &mut [u64])
    requires { room ≤ length answer.old }
    ensures { answer.new ≡ sets answer.old 0 (entity_numbers (entity_by reading file.now path.now)) }
{
    put_told(entity_by(file, reading, path), answer)
}

fn wide(b: u8) -> u64
    ensures { (result ≡ b) × (result < 256) }
{
    b as u64
}

// The number stored at `at`, for a constant of that kind.
fn stored_at(file: &[u8], kind: u8, at: usize) -> u64
    requires { at + value_size kind ≤ length file.now }
    ensures { (result ≡ le (value_size kind) file.now at) × (result < 256 ^ value_size kind) }
{
    if kind < 2 {
        return wide(file[at]);
    }
    if kind < 4 {
        return number::le16_at(file, at) as u64;
    }
    if kind < 6 {
        return number::le32_at(file, at) as u64;
    }
    if kind < 8 {
        return number::le64_at(file, at);
    }
    if kind == 8 {
        return number::le32_at(file, at) as u64;
    }
    number::le64_at(file, at)
}

// The constant at o.
fn put_stored(file: &[u8], o: usize, answer: &mut [u64])
    requires { (room ≤ length answer.old) × Accepted (read_constant file.now o) }
    ensures { answer.new ≡ sets answer.old 0 (constant_numbers (constant_said (read_constant file.now o))) }
{
    let kind = file[o] % 128;
    let bits = stored_at(file, kind, o + 1);
    answer[0] = 0;
    answer[1] = kind as u64;
    answer[2] = bits;
}

// The constant that the path leads to, in a file that was accepted.
fn put_found(file: &[u8], path: &[u8], answer: &mut [u64])
    requires { (room ≤ length answer.old) × Checked file.now }
    ensures { answer.new ≡ sets answer.old 0 (constant_numbers (constant_found file.now (constant_at file.now (cut path.now)))) }
{
    match rdb_path::constant_at(file, path) {
        Some(o) => put_stored(file, o, answer),
        None => {
            answer[0] = 1;
        }
    }
}

// In any file.
fn put_asked(file: &[u8], m: SetCount, path: &[u8], answer: &mut [u64])
    requires { room ≤ length answer.old }
    ensures { answer.new ≡ sets answer.old 0 (constant_numbers (ask_constant (read_file m file.now) file.now path.now)) }
{
    match rdb_file::check(file, m) {
        Ok(_) => put_found(file, path, answer),
        Err(why) => numbers::put_refusal(why, answer),
    }
}

/// A constant by its path.
pub fn put_constant(file: &[u8], reading: u64, path: &[u8], answer: &mut [u64])
    requires { room ≤ length answer.old }
    ensures { answer.new ≡ sets answer.old 0 (constant_numbers (constant_by reading file.now path.now)) }
{
    match reading {
        0 => put_asked(file, SetCount::Always, path, answer),
        1 => put_asked(file, SetCount::UnlessReadOnly, path, answer),
        _ => numbers::put_refusal(Rule::Question.at(0), answer),
    }
}
