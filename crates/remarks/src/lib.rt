//! Lines on standard error: why a file, a question or a link was refused. Each goes out in one write.
#![tactic(auto)]

ghost use Rattle.std.specs.Prelude.{◌≡◌, ◌+◌, ◌≤◌, length};
ghost use Rattle.number.specs.Choice.{when◌then◌else◌};
ghost use Rattle.reader.specs.Rules.{is_identifier};
ghost use Rattle.failures.specs.Room.{word_limit};
ghost use Rattle.remarks.specs.Words.{faulty_word};

use failures::ROOM;
use faults::Fault;
use rdb_interface::SetCount;
use reading::Refusal;
use verbs::Question;

// By the name of a malformed question: 3 where it is at fault, else the other word.
fn name_or(name: &[u8], other: u8) -> u8
    ensures { result ≡ (when is_identifier name.now then other else 3) }
{
    if reader::is_identifier(name) {
        return other;
    }
    3
}

fn faulty_word(question: Question, name: &[u8]) -> u8
    ensures { result ≡ faulty_word question name.now }
{
    match question {
        Question::Check => 0,
        Question::Iid => 1,
        Question::Looks => 1,
        Question::Key => name_or(name, 2),
        Question::Method => name_or(name, 4),
        Question::Slot => 4,
        Question::Constant => name_or(name, 4),
    }
}

// Why something of a file was refused, with room for the key of the interface that it is of.
fn refused_by(
    name: &[u8],
    file: &[u8],
    why: Refusal,
    fault: Fault,
    key: &mut [u8; 512],
    text: &mut [u8; ROOM],
)
    requires { length name.now ≤ word_limit }
{
    let n = faults::key_of(file, fault.entry, key);
    let all: &[u8] = key;
    let end = reasons::refused(name, why, fault.rule, &all[..n], text);
    streams::remark(text, end);
}

fn refused_inside(name: &[u8], file: &[u8], why: Refusal, text: &mut [u8; ROOM])
    requires { length name.now ≤ word_limit }
{
    let mut key = [0u8; 512];
    refused_by(name, file, why, faults::fault_of(file, why), &mut key, text);
}

/// Why the descriptor of entry i, from 1, is not in what was salvaged of a file.
pub fn changed(name: &[u8], file: &[u8], i: usize, why: Refusal, text: &mut [u8; ROOM])
    requires { length name.now ≤ word_limit }
{
    let mut key = [0u8; 512];
    refused_by(
        name,
        file,
        why,
        faults::fault_at(file, i, why),
        &mut key,
        text,
    );
}

// Why a file was refused that was cut or added to.
fn refused_length(name: &[u8], file: &[u8], why: Refusal, text: &mut [u8; ROOM])
    requires { length name.now ≤ word_limit }
{
    let end = reasons::wrong_length(name, file, why, text);
    streams::remark(text, end);
}

// Why a file was refused whose pool or directory is out of place: libxpt may have written it.
fn refused_place(name: &[u8], file: &[u8], why: Refusal, text: &mut [u8; ROOM])
    requires { length name.now ≤ word_limit }
{
    if genuine::is_genuine(file) {
        let end = reasons::refused(name, why, 5, b"", text);
        streams::remark(text, end);
        return;
    }
    refused_inside(name, file, why, text)
}

pub fn refused(name: &[u8], file: &[u8], why: Refusal, text: &mut [u8; ROOM])
    requires { length name.now ≤ word_limit }
{
    let no = why.no;
    match no {
        8 => refused_place(name, file, why, text),
        29..=30 => refused_length(name, file, why, text),
        _ => refused_inside(name, file, why, text),
    }
}

// Where a types.rdb is refused as document 001 reads it, whether `office` accepts it.
fn other_reading(name: &[u8], file: &[u8], text: &mut [u8; ROOM]) {
    if let Ok(_) = rdb_file::check(file, SetCount::UnlessReadOnly) {
        streams::error(
            name,
            b"error office suites write it so: `xpt office` accepts it, reading no set exceptions for read-only attributes\n",
            text,
        );
    }
}

/// Why a types.rdb was refused, read as m says.
pub fn types_refused(name: &[u8], file: &[u8], m: SetCount, why: Refusal, text: &mut [u8; ROOM])
    requires { length name.now ≤ word_limit }
{
    let end = reasons::refused(name, why, 0, b"", text);
    streams::remark(text, end);
    if let SetCount::Always = m {
        other_reading(name, file, text);
    }
}

/// Why a file was not adopted. Its directory does not fit where libxpt counts it, which is not what the check asks of it.
pub fn unadopted(name: &[u8], file: &[u8], why: Refusal, text: &mut [u8; ROOM])
    requires { length name.now ≤ word_limit }
{
    if why.no == 8 && why.place == 24 {
        let end = reasons::refused(name, why, 2, b"", text);
        streams::remark(text, end);
        return;
    }
    refused(name, file, why, text)
}

/// Why a question about a file was refused, where the file is accepted; its own words come after the file's.
pub fn asked(name: &[u8], question: Question, word: &[u8], text: &mut [u8; ROOM])
    requires { length name.now ≤ word_limit }
{
    let end = reasons::asked(name, faulty_word(question, word), text);
    streams::remark(text, end);
}

// Why a link was refused; the place of 21 to 24 counts interfaces of the first file.
fn united_by(
    first: &[u8],
    second: &[u8],
    file: &[u8],
    why: Refusal,
    key: &mut [u8; 512],
    text: &mut [u8; ROOM],
)
    requires { length first.now + length second.now ≤ word_limit }
{
    let n = faults::key_of(file, why.place, key);
    let all: &[u8] = key;
    let end = reasons::united(first, second, why, &all[..n], text);
    streams::remark(text, end);
}

pub fn united(first: &[u8], second: &[u8], file: &[u8], why: Refusal, text: &mut [u8; ROOM])
    requires { length first.now + length second.now ≤ word_limit }
{
    let mut key = [0u8; 512];
    united_by(first, second, file, why, &mut key, text);
}
