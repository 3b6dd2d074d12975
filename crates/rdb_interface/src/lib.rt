// Interfaces of a types.rdb.
#![tactic(auto)]

ghost use Rattle.std.specs.Prelude.{◌+◌, ◌≤◌, length, IfOk};
ghost use Rattle.number.specs.Limits.{file_limit};
ghost use Rattle.reading.specs.Got.{many};
ghost use Rattle.rdb_memory.specs.Memory.{Remembers, Judged};
ghost use Rattle.rdb_text.specs.Field.{counted};
ghost use Rattle.rdb_interface.specs.Interface.{read_base, read_sets, read_attribute, read_parameter, read_method, read_interface};

use rdb_text::Class;
use reading::{Refusal, Rule};

// Whether an attribute that is read-only has a number of set exceptions: always, as document 001 says, or not, as LibreOffice writes its files.
#[derive(Clone, Copy)]
pub enum SetCount {
    Always,
    UnlessReadOnly,
}

// A base.
#[tactic(auto, using(reading::proofs::Steps::walks, rdb_text::proofs::FieldLaws::fields, rdb_memory::proofs::JudgeLaws::judges), unfolding(crate::specs::Interface::read_base))]
fn read_base(file: &[u8], memory: &mut [u32], annotated: bool, at: usize) -> Result<usize, Refusal>
    requires { (length file.now ≤ file_limit) × (at ≤ length file.now) × Remembers file.now memory.old }
    ensures reads { Judged file.now memory.old memory.new result (read_base annotated file.now at) }
    ensures within { IfOk result (λ e. e ≤ length file.now) }
{
    let notes = rdb_memory::read_text(file, memory, Class::Ascii, at)?;
    rdb_record::read_notes(file, memory, annotated, notes)
}

// n of them.
#[tactic(auto, using(reading::proofs::Loops::records, rdb_memory::proofs::JudgeLaws::judges))]
fn read_bases(
    file: &[u8],
    memory: &mut [u32],
    annotated: bool,
    n: usize,
    at: usize,
) -> Result<usize, Refusal>
    requires { (length file.now ≤ file_limit) × (at ≤ length file.now) × Remembers file.now memory.old }
    ensures reads { Judged file.now memory.old memory.new result (many (read_base annotated file.now) n at) }
    ensures within { IfOk result (λ e. e ≤ length file.now) }
{
    let mut p = at;
    for _ in 0..n {
        p = read_base(file, memory, annotated, p)?;
    }
    Ok(p)
}

// Their number, and that many.
#[tactic(auto, using(reading::proofs::Steps::walks, rdb_text::proofs::FieldLaws::fields, rdb_memory::proofs::JudgeLaws::judges))]
fn all_bases(file: &[u8], memory: &mut [u32], annotated: bool, at: usize) -> Result<usize, Refusal>
    requires { (length file.now ≤ file_limit) × (at ≤ length file.now) × Remembers file.now memory.old }
    ensures reads { Judged file.now memory.old memory.new result (counted (read_base annotated file.now) file.now at) }
    ensures within { IfOk result (λ e. e ≤ length file.now) }
{
    let from = at + 4;
    if file.len() < from {
        return Err(Rule::TypesField.at(at));
    }
    let n = number::le32_at(file, at) as usize;
    read_bases(file, memory, annotated, n, from)
}

// The set exceptions of an attribute with that kind byte.
fn read_sets(
    file: &[u8],
    memory: &mut [u32],
    m: SetCount,
    kind: u8,
    at: usize,
) -> Result<usize, Refusal>
    requires { (length file.now ≤ file_limit) × (at ≤ length file.now) × Remembers file.now memory.old }
    ensures reads { Judged file.now memory.old memory.new result (read_sets m kind file.now at) }
    ensures within { IfOk result (λ e. e ≤ length file.now) }
{
    let SetCount::UnlessReadOnly = m else {
        return rdb_memory::read_texts(file, memory, Class::Ascii, at);
    };
    if kind / 2 % 2 == 1 {
        return Ok(at);
    }
    rdb_memory::read_texts(file, memory, Class::Ascii, at)
}

// An attribute.
#[tactic(auto, using(reading::proofs::Steps::walks, rdb_text::proofs::FieldLaws::fields, rdb_memory::proofs::JudgeLaws::judges), unfolding(crate::specs::Interface::read_attribute))]
fn read_attribute(
    file: &[u8],
    memory: &mut [u32],
    m: SetCount,
    annotated: bool,
    at: usize,
) -> Result<usize, Refusal>
    requires { (length file.now ≤ file_limit) × (at ≤ length file.now) × Remembers file.now memory.old }
    ensures reads { Judged file.now memory.old memory.new result (read_attribute m annotated file.now at) }
    ensures within { IfOk result (λ e. e ≤ length file.now) }
{
    if file.len() <= at {
        return Err(Rule::TypesField.at(at));
    }
    let kind = file[at];
    if 3 < kind {
        return Err(Rule::TypesValue.at(at));
    }
    let ty = rdb_memory::read_text(file, memory, Class::Ascii, at + 1)?;
    let gets = rdb_memory::read_text(file, memory, Class::Ascii, ty)?;
    let sets = rdb_memory::read_texts(file, memory, Class::Ascii, gets)?;
    let notes = read_sets(file, memory, m, kind, sets)?;
    rdb_record::read_notes(file, memory, annotated, notes)
}

// n of them.
#[tactic(auto, using(reading::proofs::Loops::records, rdb_memory::proofs::JudgeLaws::judges))]
fn read_attributes(
    file: &[u8],
    memory: &mut [u32],
    m: SetCount,
    annotated: bool,
    n: usize,
    at: usize,
) -> Result<usize, Refusal>
    requires { (length file.now ≤ file_limit) × (at ≤ length file.now) × Remembers file.now memory.old }
    ensures reads { Judged file.now memory.old memory.new result (many (read_attribute m annotated file.now) n at) }
    ensures within { IfOk result (λ e. e ≤ length file.now) }
{
    let mut p = at;
    for _ in 0..n {
        p = read_attribute(file, memory, m, annotated, p)?;
    }
    Ok(p)
}

// Their number, and that many.
#[tactic(auto, using(reading::proofs::Steps::walks, rdb_text::proofs::FieldLaws::fields, rdb_memory::proofs::JudgeLaws::judges))]
fn all_attributes(
    file: &[u8],
    memory: &mut [u32],
    m: SetCount,
    annotated: bool,
    at: usize,
) -> Result<usize, Refusal>
    requires { (length file.now ≤ file_limit) × (at ≤ length file.now) × Remembers file.now memory.old }
    ensures reads { Judged file.now memory.old memory.new result (counted (read_attribute m annotated file.now) file.now at) }
    ensures within { IfOk result (λ e. e ≤ length file.now) }
{
    let from = at + 4;
    if file.len() < from {
        return Err(Rule::TypesField.at(at));
    }
    let n = number::le32_at(file, at) as usize;
    read_attributes(file, memory, m, annotated, n, from)
}

// A parameter.
#[tactic(auto, using(reading::proofs::Steps::walks, rdb_text::proofs::FieldLaws::fields, rdb_memory::proofs::JudgeLaws::judges), unfolding(crate::specs::Interface::read_parameter))]
fn read_parameter(file: &[u8], memory: &mut [u32], at: usize) -> Result<usize, Refusal>
    requires { (length file.now ≤ file_limit) × (at ≤ length file.now) × Remembers file.now memory.old }
    ensures reads { Judged file.now memory.old memory.new result (read_parameter file.now at) }
    ensures within { IfOk result (λ e. e ≤ length file.now) }
{
    if file.len() <= at {
        return Err(Rule::TypesField.at(at));
    }
    let kind = file[at];
    if 2 < kind {
        return Err(Rule::TypesValue.at(at));
    }
    let ty = rdb_memory::read_text(file, memory, Class::Ascii, at + 1)?;
    rdb_memory::read_text(file, memory, Class::Ascii, ty)
}

// n of them.
#[tactic(auto, using(reading::proofs::Loops::records, rdb_memory::proofs::JudgeLaws::judges))]
fn read_parameters(file: &[u8], memory: &mut [u32], n: usize, at: usize) -> Result<usize, Refusal>
    requires { (length file.now ≤ file_limit) × (at ≤ length file.now) × Remembers file.now memory.old }
    ensures reads { Judged file.now memory.old memory.new result (many (read_parameter file.now) n at) }
    ensures within { IfOk result (λ e. e ≤ length file.now) }
{
    let mut p = at;
    for _ in 0..n {
        p = read_parameter(file, memory, p)?;
    }
    Ok(p)
}

// Their number, and that many.
#[tactic(auto, using(reading::proofs::Steps::walks, rdb_text::proofs::FieldLaws::fields, rdb_memory::proofs::JudgeLaws::judges))]
fn all_parameters(file: &[u8], memory: &mut [u32], at: usize) -> Result<usize, Refusal>
    requires { (length file.now ≤ file_limit) × (at ≤ length file.now) × Remembers file.now memory.old }
    ensures reads { Judged file.now memory.old memory.new result (counted (read_parameter file.now) file.now at) }
    ensures within { IfOk result (λ e. e ≤ length file.now) }
{
    let from = at + 4;
    if file.len() < from {
        return Err(Rule::TypesField.at(at));
    }
    let n = number::le32_at(file, at) as usize;
    read_parameters(file, memory, n, from)
}

// A method.
#[tactic(auto, using(reading::proofs::Steps::walks, rdb_text::proofs::FieldLaws::fields, rdb_memory::proofs::JudgeLaws::judges), unfolding(crate::specs::Interface::read_method))]
fn read_method(
    file: &[u8],
    memory: &mut [u32],
    annotated: bool,
    at: usize,
) -> Result<usize, Refusal>
    requires { (length file.now ≤ file_limit) × (at ≤ length file.now) × Remembers file.now memory.old }
    ensures reads { Judged file.now memory.old memory.new result (read_method annotated file.now at) }
    ensures within { IfOk result (λ e. e ≤ length file.now) }
{
    let returned = rdb_memory::read_text(file, memory, Class::Ascii, at)?;
    let parameters = rdb_memory::read_text(file, memory, Class::Ascii, returned)?;
    let exceptions = all_parameters(file, memory, parameters)?;
    let notes = rdb_memory::read_texts(file, memory, Class::Ascii, exceptions)?;
    rdb_record::read_notes(file, memory, annotated, notes)
}

// n of them.
#[tactic(auto, using(reading::proofs::Loops::records, rdb_memory::proofs::JudgeLaws::judges))]
fn read_methods(
    file: &[u8],
    memory: &mut [u32],
    annotated: bool,
    n: usize,
    at: usize,
) -> Result<usize, Refusal>
    requires { (length file.now ≤ file_limit) × (at ≤ length file.now) × Remembers file.now memory.old }
    ensures reads { Judged file.now memory.old memory.new result (many (read_method annotated file.now) n at) }
    ensures within { IfOk result (λ e. e ≤ length file.now) }
{
    let mut p = at;
    for _ in 0..n {
        p = read_method(file, memory, annotated, p)?;
    }
    Ok(p)
}

// Their number, and that many.
#[tactic(auto, using(reading::proofs::Steps::walks, rdb_text::proofs::FieldLaws::fields, rdb_memory::proofs::JudgeLaws::judges))]
fn all_methods(
    file: &[u8],
    memory: &mut [u32],
    annotated: bool,
    at: usize,
) -> Result<usize, Refusal>
    requires { (length file.now ≤ file_limit) × (at ≤ length file.now) × Remembers file.now memory.old }
    ensures reads { Judged file.now memory.old memory.new result (counted (read_method annotated file.now) file.now at) }
    ensures within { IfOk result (λ e. e ≤ length file.now) }
{
    let from = at + 4;
    if file.len() < from {
        return Err(Rule::TypesField.at(at));
    }
    let n = number::le32_at(file, at) as usize;
    read_methods(file, memory, annotated, n, from)
}

// An interface, after its kind byte.
#[tactic(auto, using(reading::proofs::Steps::walks, rdb_text::proofs::FieldLaws::fields, rdb_memory::proofs::JudgeLaws::judges), unfolding(crate::specs::Interface::read_interface))]
pub fn read_interface(
    file: &[u8],
    memory: &mut [u32],
    m: SetCount,
    annotated: bool,
    at: usize,
) -> Result<usize, Refusal>
    requires { (length file.now ≤ file_limit) × (at ≤ length file.now) × Remembers file.now memory.old }
    ensures reads { Judged file.now memory.old memory.new result (read_interface m annotated file.now at) }
    ensures within { IfOk result (λ e. e ≤ length file.now) }
{
    let optional = all_bases(file, memory, annotated, at)?;
    let attributes = all_bases(file, memory, annotated, optional)?;
    let methods = all_attributes(file, memory, m, annotated, attributes)?;
    let notes = all_methods(file, memory, annotated, methods)?;
    rdb_record::read_notes(file, memory, annotated, notes)
}
