// Texts of a types.rdb, Len-Strings, Idx-Strings and counted lists of them, each read once: a memory that is lent along says which were read well.
#![tactic(auto)]

ghost use Rattle.std.specs.Prelude.{◌≡◌, true, ◌+◌, ◌≤◌, ◌<◌, length, Ok, IfOk};
ghost use Rattle.number.specs.Limits.{file_limit};
ghost use Rattle.number.specs.Part.{part};
ghost use Rattle.reading.specs.Got.{step_of, many};
ghost use Rattle.rdb_runs.specs.Runs.{run_count, Runs};
ghost use Rattle.rdb_text.specs.Bytes.{suits};
ghost use Rattle.rdb_text.specs.Text.{read_len, read_text, read_texts};
ghost use Rattle.rdb_memory.specs.Memory.{text_mark, Good, Filled, Remembers, Learnt, Judged};

use number::FILE_LIMIT;
use rdb_runs::RUN_COUNT;
use rdb_text::Class;
use reading::{Refusal, Rule};

// The memory: the tables of runs, then the number of bytes that were judged one by one, then marks.
const SPENT: usize = RUN_COUNT;

const FIRST_MARK: usize = 32 * (SPENT + 1);

// Cells of two marks for each offset and for the file's end.
pub const MARK_CELLS: usize = 65537;

// Marks from here on are the caller's.
pub const OTHER_MARKS: usize = FIRST_MARK + 32 * MARK_CELLS;

// Once as many bytes were judged, the tables of runs are filled and judge.
const JUDGE_LIMIT: usize = 4 * FILE_LIMIT;

// The mark of a Len-String.
fn text_mark(class: Class, at: usize) -> usize
    requires { at ≤ file_limit }
    ensures { result ≡ text_mark class at }
{
    match class {
        Class::Ascii => FIRST_MARK + 2 * at,
        Class::Utf8 => FIRST_MARK + 2 * at + 1,
    }
}

// Whether the Len-String at `at` was read well before.
fn is_known(file: &[u8], memory: &[u32], class: Class, at: usize) -> bool
    requires { (length file.now ≤ file_limit) × Remembers file.now memory.now }
    ensures { result ≡ true → Good class file.now at }
{
    if file.len() < at {
        return false;
    }
    rdb_seen::is_marked(memory, text_mark(class, at))
}

// The tables of runs.
fn fill_runs(file: &[u8], memory: &mut [u32])
    requires { (length file.now ≤ file_limit) × (run_count ≤ length memory.old) }
    ensures { Filled file.now memory.old memory.new }
{
    rdb_runs::fill(file, &mut memory[..RUN_COUNT]);
}

// So many bytes were judged one by one; the tables are filled where that is enough.
fn spend(file: &[u8], memory: &mut [u32], all: usize)
    requires { (length file.now ≤ file_limit) × Remembers file.now memory.old }
    ensures { Learnt file.now memory.old memory.new }
{
    if all < JUDGE_LIMIT {
        memory[SPENT] = all as u32;
        return;
    }
    fill_runs(file, memory);
    memory[SPENT] = JUDGE_LIMIT as u32;
}

// Whether the bytes from `from` up to `to` are what a text of that class has, by the tables.
fn judge_run(file: &[u8], memory: &[u32], class: Class, from: usize, to: usize) -> bool
    requires { (length file.now ≤ file_limit) × (from ≤ to) × (to ≤ length file.now) × (run_count ≤ length memory.now) × Runs file.now memory.now 0 }
    ensures { result ≡ suits class (part file.now from to) }
{
    match class {
        Class::Ascii => rdb_runs::is_ascii(file, memory, from, to),
        Class::Utf8 => rdb_runs::is_utf8(file, memory, from, to),
    }
}

// The same: one by one, until that was done for many.
fn judge(file: &[u8], memory: &mut [u32], class: Class, from: usize, to: usize) -> bool
    requires { (length file.now ≤ file_limit) × (from ≤ to) × (to ≤ length file.now) × Remembers file.now memory.old }
    ensures { (result ≡ suits class (part file.now from to)) × Learnt file.now memory.old memory.new }
{
    let spent = memory[SPENT] as usize;
    if JUDGE_LIMIT <= spent {
        return judge_run(file, memory, class, from, to);
    }
    spend(file, memory, spent + (to - from));
    rdb_text::suits_class(file, class, from, to)
}

// The Len-String at `at`, named by the field at `place`.
#[tactic(auto, using(reading::proofs::Steps::walks, rdb_text::proofs::FieldLaws::fields, crate::proofs::JudgeLaws::judges), unfolding(rdb_text::specs::Text::read_len))]
fn read_len(
    file: &[u8],
    memory: &mut [u32],
    class: Class,
    place: usize,
    at: usize,
) -> Result<usize, Refusal>
    requires { (length file.now ≤ file_limit) × (at ≤ 0xffffffff) × Remembers file.now memory.old }
    ensures reads { Judged file.now memory.old memory.new result (read_len class file.now place at) }
    ensures within { IfOk result (λ e. (at + 4 ≤ e) × (e ≤ length file.now)) }
{
    let from = at + 4;
    if file.len() < from {
        return Err(Rule::TypesField.at(place));
    }
    let n = number::le32_at(file, at) as usize;
    if 0x80000000 <= n {
        return Err(Rule::TypesField.at(place));
    }
    let end = from + n;
    if file.len() < end {
        return Err(Rule::TypesField.at(place));
    }
    if judge(file, memory, class, from, end) {
        return Ok(end);
    }
    Err(Rule::TypesValue.at(place))
}

// The same, remembered where it is read well.
fn learn_len(
    file: &[u8],
    memory: &mut [u32],
    class: Class,
    place: usize,
    at: usize,
) -> Result<usize, Refusal>
    requires { (length file.now ≤ file_limit) × (at ≤ 0xffffffff) × Remembers file.now memory.old }
    ensures reads { Judged file.now memory.old memory.new result (read_len class file.now place at) }
    ensures within { IfOk result (λ e. (at + 4 ≤ e) × (e ≤ length file.now)) }
{
    let end = read_len(file, memory, class, place, at)?;
    rdb_seen::mark(memory, text_mark(class, at));
    Ok(end)
}

// The Idx-String at `at`, remembered where it is read well.
#[tactic(auto, using(reading::proofs::Steps::walks, rdb_text::proofs::FieldLaws::fields, crate::proofs::JudgeLaws::judges), unfolding(rdb_text::specs::Text::read_text))]
fn learn_text(file: &[u8], memory: &mut [u32], class: Class, at: usize) -> Result<usize, Refusal>
    requires { (length file.now ≤ file_limit) × (at ≤ length file.now) × Remembers file.now memory.old }
    ensures reads { Judged file.now memory.old memory.new result (read_text class file.now at) }
    ensures within { IfOk result (λ e. (at + 4 ≤ e) × (e ≤ length file.now)) }
{
    let end = at + 4;
    if file.len() < end {
        return Err(Rule::TypesField.at(at));
    }
    let v = number::le32_at(file, at) as usize;
    if v < 0x80000000 {
        return learn_len(file, memory, class, at, at);
    }
    learn_len(file, memory, class, at, v - 0x80000000)?;
    Ok(end)
}

// Where the Idx-String at `at` ends, if its text was read well before, or 0.
fn known_end(file: &[u8], memory: &[u32], class: Class, at: usize) -> usize
    requires { (length file.now ≤ file_limit) × (at ≤ length file.now) × Remembers file.now memory.now }
    ensures { 0 < result → Ok result ≡ step_of (read_text class file.now at) }
{
    let end = at + 4;
    if file.len() < end {
        return 0;
    }
    let v = number::le32_at(file, at) as usize;
    if v < 0x80000000 {
        if is_known(file, memory, class, at) {
            return end + v;
        }
        return 0;
    }
    if is_known(file, memory, class, v - 0x80000000) {
        return end;
    }
    0
}

// The Idx-String at `at`. One that is known costs a look at its field and one at its mark.
pub fn read_text(file: &[u8], memory: &mut [u32], class: Class, at: usize) -> Result<usize, Refusal>
    requires { (length file.now ≤ file_limit) × (at ≤ length file.now) × Remembers file.now memory.old }
    ensures reads { Judged file.now memory.old memory.new result (read_text class file.now at) }
    ensures within { IfOk result (λ e. (at + 4 ≤ e) × (e ≤ length file.now)) }
{
    let e = known_end(file, memory, class, at);
    if 0 < e {
        return Ok(e);
    }
    learn_text(file, memory, class, at)
}

// n Idx-Strings.
#[tactic(auto, using(reading::proofs::Loops::records, crate::proofs::JudgeLaws::judges))]
fn read_run(
    file: &[u8],
    memory: &mut [u32],
    class: Class,
    n: usize,
    at: usize,
) -> Result<usize, Refusal>
    requires { (length file.now ≤ file_limit) × (at ≤ length file.now) × Remembers file.now memory.old }
    ensures reads { Judged file.now memory.old memory.new result (many (read_text class file.now) n at) }
    ensures within { IfOk result (λ e. e ≤ length file.now) }
{
    let mut p = at;
    for _ in 0..n {
        p = read_text(file, memory, class, p)?;
    }
    Ok(p)
}

// Their number, and that many.
#[tactic(auto, using(reading::proofs::Steps::walks, rdb_text::proofs::FieldLaws::fields, crate::proofs::JudgeLaws::judges), unfolding(rdb_text::specs::Text::read_texts))]
pub fn read_texts(
    file: &[u8],
    memory: &mut [u32],
    class: Class,
    at: usize,
) -> Result<usize, Refusal>
    requires { (length file.now ≤ file_limit) × (at ≤ length file.now) × Remembers file.now memory.old }
    ensures reads { Judged file.now memory.old memory.new result (read_texts class file.now at) }
    ensures within { IfOk result (λ e. e ≤ length file.now) }
{
    let from = at + 4;
    if file.len() < from {
        return Err(Rule::TypesField.at(at));
    }
    let n = number::le32_at(file, at) as usize;
    read_run(file, memory, class, n, from)
}
