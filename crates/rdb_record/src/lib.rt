// Records of a types.rdb: annotations, enums, constants.
#![tactic(auto)]

ghost use Rattle.std.specs.Prelude.{◌≡◌, ◌+◌, ◌≤◌, length, IfOk};
ghost use Rattle.number.specs.Limits.{file_limit};
ghost use Rattle.number.specs.Number.{le};
ghost use Rattle.reading.specs.Got.{many};
ghost use Rattle.rdb_memory.specs.Memory.{Remembers, Judged};
ghost use Rattle.rdb_text.specs.Field.{counted};
ghost use Rattle.rdb_record.specs.Notes.{read_notes};
ghost use Rattle.rdb_record.specs.Enum.{read_member, read_enum};
ghost use Rattle.rdb_record.specs.Constant.{value_size, no_boolean, read_stored, read_constant};

use rdb_text::Class;
use reading::{Refusal, Rule};

// Annotations, where there are any.
#[tactic(auto, using(reading::proofs::Steps::walks, rdb_text::proofs::FieldLaws::fields, rdb_memory::proofs::JudgeLaws::judges), unfolding(crate::specs::Notes::read_notes))]
pub fn read_notes(
    file: &[u8],
    memory: &mut [u32],
    annotated: bool,
    at: usize,
) -> Result<usize, Refusal>
    requires { (length file.now ≤ file_limit) × (at ≤ length file.now) × Remembers file.now memory.old }
    ensures reads { Judged file.now memory.old memory.new result (read_notes annotated file.now at) }
    ensures within { IfOk result (λ e. e ≤ length file.now) }
{
    if annotated {
        return rdb_memory::read_texts(file, memory, Class::Utf8, at);
    }
    Ok(at)
}

// A member of an enum.
#[tactic(auto, using(reading::proofs::Steps::walks, rdb_text::proofs::FieldLaws::fields, rdb_memory::proofs::JudgeLaws::judges), unfolding(crate::specs::Enum::read_member))]
fn read_member(
    file: &[u8],
    memory: &mut [u32],
    annotated: bool,
    at: usize,
) -> Result<usize, Refusal>
    requires { (length file.now ≤ file_limit) × (at ≤ length file.now) × Remembers file.now memory.old }
    ensures reads { Judged file.now memory.old memory.new result (read_member annotated file.now at) }
    ensures within { IfOk result (λ e. e ≤ length file.now) }
{
    let value = rdb_memory::read_text(file, memory, Class::Ascii, at)?;
    let end = value + 4;
    if file.len() < end {
        return Err(Rule::TypesField.at(value));
    }
    read_notes(file, memory, annotated, end)
}

// n of them.
#[tactic(auto, using(reading::proofs::Loops::records, rdb_memory::proofs::JudgeLaws::judges))]
fn read_members(
    file: &[u8],
    memory: &mut [u32],
    annotated: bool,
    n: usize,
    at: usize,
) -> Result<usize, Refusal>
    requires { (length file.now ≤ file_limit) × (at ≤ length file.now) × Remembers file.now memory.old }
    ensures reads { Judged file.now memory.old memory.new result (many (read_member annotated file.now) n at) }
    ensures within { IfOk result (λ e. e ≤ length file.now) }
{
    let mut p = at;
    for _ in 0..n {
        p = read_member(file, memory, annotated, p)?;
    }
    Ok(p)
}

// Their number, and that many.
#[tactic(auto, using(reading::proofs::Steps::walks, rdb_text::proofs::FieldLaws::fields, rdb_memory::proofs::JudgeLaws::judges))]
fn all_members(
    file: &[u8],
    memory: &mut [u32],
    annotated: bool,
    at: usize,
) -> Result<usize, Refusal>
    requires { (length file.now ≤ file_limit) × (at ≤ length file.now) × Remembers file.now memory.old }
    ensures reads { Judged file.now memory.old memory.new result (counted (read_member annotated file.now) file.now at) }
    ensures within { IfOk result (λ e. e ≤ length file.now) }
{
    let from = at + 4;
    if file.len() < from {
        return Err(Rule::TypesField.at(at));
    }
    let n = number::le32_at(file, at) as usize;
    read_members(file, memory, annotated, n, from)
}

// An enum, after its kind byte.
#[tactic(auto, using(reading::proofs::Steps::walks, rdb_text::proofs::FieldLaws::fields, rdb_memory::proofs::JudgeLaws::judges), unfolding(crate::specs::Enum::read_enum))]
pub fn read_enum(
    file: &[u8],
    memory: &mut [u32],
    annotated: bool,
    at: usize,
) -> Result<usize, Refusal>
    requires { (length file.now ≤ file_limit) × (at ≤ length file.now) × Remembers file.now memory.old }
    ensures reads { Judged file.now memory.old memory.new result (read_enum annotated file.now at) }
    ensures within { IfOk result (λ e. e ≤ length file.now) }
{
    let notes = all_members(file, memory, annotated, at)?;
    read_notes(file, memory, annotated, notes)
}

// The bytes of a constant's value, by its kind.
#[tactic(auto, using(number::proofs::Choice::tests), unfolding(crate::specs::Constant::value_size))]
pub fn value_size(kind: u8) -> usize
    ensures { result ≡ value_size kind }
{
    if kind < 2 {
        return 1;
    }
    if kind < 4 {
        return 2;
    }
    if kind < 6 {
        return 4;
    }
    if kind < 8 {
        return 8;
    }
    if kind == 8 {
        return 4;
    }
    8
}

// Whether the value at `at` is that of a BOOLEAN, and neither 0 nor 1.
#[tactic(auto, using(number::proofs::Choice::tests), unfolding(crate::specs::Constant::no_boolean))]
fn no_boolean(file: &[u8], kind: u8, at: usize) -> bool
    requires { at + value_size kind ≤ length file.now }
    ensures { result ≡ no_boolean kind (le (value_size kind) file.now at) }
{
    if kind == 0 {
        return 1 < file[at];
    }
    false
}

// What follows the kind byte of a constant: its value and its annotations.
#[tactic(auto, using(reading::proofs::Steps::walks, rdb_text::proofs::FieldLaws::fields, rdb_memory::proofs::JudgeLaws::judges), unfolding(crate::specs::Constant::read_stored))]
fn read_stored(file: &[u8], memory: &mut [u32], byte: u8, at: usize) -> Result<usize, Refusal>
    requires { (length file.now ≤ file_limit) × (at ≤ length file.now) × Remembers file.now memory.old }
    ensures reads { Judged file.now memory.old memory.new result (read_stored byte file.now at) }
    ensures within { IfOk result (λ e. e ≤ length file.now) }
{
    let kind = byte % 128;
    let end = at + value_size(kind);
    if file.len() < end {
        return Err(Rule::TypesField.at(at));
    }
    if no_boolean(file, kind, at) {
        return Err(Rule::TypesValue.at(at));
    }
    read_notes(file, memory, 128 <= byte, end)
}

// A constant.
#[tactic(auto, using(reading::proofs::Steps::walks, rdb_text::proofs::FieldLaws::fields, rdb_memory::proofs::JudgeLaws::judges), unfolding(crate::specs::Constant::read_constant))]
pub fn read_constant(file: &[u8], memory: &mut [u32], at: usize) -> Result<usize, Refusal>
    requires { (length file.now ≤ file_limit) × (at ≤ length file.now) × Remembers file.now memory.old }
    ensures reads { Judged file.now memory.old memory.new result (read_constant file.now at) }
    ensures within { IfOk result (λ e. e ≤ length file.now) }
{
    if file.len() <= at {
        return Err(Rule::TypesField.at(at));
    }
    let byte = file[at];
    if 9 < byte % 128 {
        return Err(Rule::TypesValue.at(at));
    }
    let from = at + 1;
    read_stored(file, memory, byte, from)
}
