//! Why a line was refused, in words on standard error: its words, one of its files, or the union of them.
#![tactic(auto)]

ghost use Rattle.std.specs.Prelude.{◌≤◌, length};
ghost use Rattle.number.specs.Limits.{pile_limit};
ghost use Rattle.failures.specs.Room.{word_limit};
ghost use Rattle.kept.specs.Table.{Tidy};

use failures::ROOM;
use kept::{Kept, STORE_ROOM};
use link::Which;
use pile::PileRefusal;
use reading::Refusal;
use tasks::Task;
use verbs::{Question, Verb};

fn is_adopting(line: &[u8], separator: u8) -> bool {
    if let Task::Run(verb) = tasks::task_of(line, separator) {
        if let Verb::Adopt = verb {
            return true;
        }
    }
    false
}

// The k-th file of the line, which has these bytes.
fn say_bytes(line: &[u8], separator: u8, k: usize, why: Refusal, file: &[u8], text: &mut [u8; ROOM])
    requires { (k ≤ pile_limit) × (length line.now ≤ word_limit) }
{
    let name = tasks::argument(line, separator, k);
    let a = name.from;
    let b = name.end;
    if is_adopting(line, separator) {
        remarks::unadopted(&line[a..b], file, why, text);
        return;
    }
    if let Task::Types(m, _) = tasks::task_of(line, separator) {
        remarks::types_refused(&line[a..b], file, m, why, text);
        return;
    }
    remarks::refused(&line[a..b], file, why, text);
}

// The k-th file of the line.
fn say_file(
    line: &[u8],
    separator: u8,
    k: usize,
    why: Refusal,
    kept: Kept,
    rows: &[usize; 256],
    store: &[u8; STORE_ROOM],
    text: &mut [u8; ROOM],
)
    requires { (k ≤ pile_limit) × ((length line.now ≤ word_limit) × Tidy rows.now kept) }
{
    let file = named::file_at(line, separator, k, kept, rows, store);
    let from = file.from;
    let end = file.end;
    let all: &[u8] = store;
    say_bytes(line, separator, k, why, &all[from..end], text)
}

// The union of its two files, whose names are parts of one line.
fn say_union(
    line: &[u8],
    separator: u8,
    why: Refusal,
    kept: Kept,
    rows: &[usize; 256],
    store: &[u8; STORE_ROOM],
    text: &mut [u8; ROOM],
)
    requires { (length line.now ≤ word_limit) × Tidy rows.now kept }
{
    let first = tasks::argument(line, separator, 1);
    let second = tasks::argument(line, separator, 2);
    let file = named::file_at(line, separator, 1, kept, rows, store);
    let a = first.from;
    let b = first.end;
    let c = second.from;
    let d = second.end;
    let e = file.from;
    let f = file.end;
    if (b - a) + (d - c) <= line.len() {
        let all: &[u8] = store;
        remarks::united(&line[a..b], &line[c..d], &all[e..f], why, text);
    }
}

// A question; the word after the next is a name where the question has one.
fn say_question(line: &[u8], separator: u8, question: Question, text: &mut [u8; ROOM])
    requires { length line.now ≤ word_limit }
{
    let name = words::word(line, separator, 1);
    let word = words::word(line, separator, 3);
    let a = name.from;
    let b = name.end;
    let c = word.from;
    let d = word.end;
    remarks::asked(&line[a..b], question, &line[c..d], text);
}

// Its words: only a question is malformed, and a table, which has the words of `key`.
fn say_words(line: &[u8], separator: u8, text: &mut [u8; ROOM])
    requires { length line.now ≤ word_limit }
{
    if let Task::Run(verb) = tasks::task_of(line, separator) {
        match verb {
            Verb::Ask(question) => say_question(line, separator, question, text),
            Verb::Table => say_question(line, separator, Question::Key, text),
            _ => {}
        }
    }
}

/// A question, or its file, which has these bytes.
pub fn say_asked(line: &[u8], separator: u8, why: Refusal, file: &[u8], text: &mut [u8; ROOM])
    requires { length line.now ≤ word_limit }
{
    if why.no == 20 {
        return say_words(line, separator, text);
    }
    say_bytes(line, separator, 1, why, file, text)
}

/// The line, or of its files the one that is meant.
pub fn say(
    line: &[u8],
    separator: u8,
    whose: Which,
    why: Refusal,
    kept: Kept,
    rows: &[usize; 256],
    store: &[u8; STORE_ROOM],
    text: &mut [u8; ROOM],
)
    requires { (length line.now ≤ word_limit) × Tidy rows.now kept }
{
    if why.no == 20 {
        return say_words(line, separator, text);
    }
    match whose {
        Which::First => say_file(line, separator, 1, why, kept, rows, store, text),
        Which::Second => say_file(line, separator, 2, why, kept, rows, store, text),
        Which::Union => say_union(line, separator, why, kept, rows, store, text),
    }
}

// What the links of a pile before its k-th file left, in words.
fn put_before(k: usize, words: &mut [u8; 32]) -> usize
    requires { (3 ≤ k) × (k ≤ pile_limit) }
    ensures { result ≤ 32 }
{
    let n = text::put_labelled(words, 0, b"what step ", (k - 2) as u64);
    text::put_bytes(words, n, b" left")
}

// The link of these with the k-th file. The place counts interfaces of what they left, which no file has.
fn say_left(
    line: &[u8],
    separator: u8,
    k: usize,
    why: Refusal,
    words: &mut [u8; 32],
    text: &mut [u8; ROOM],
)
    requires { ((3 ≤ k) × (k ≤ pile_limit)) × (length line.now ≤ word_limit) }
{
    let n = put_before(k, words);
    let name = tasks::argument(line, separator, k);
    let from = name.from;
    let end = name.end;
    if end - from <= paths::LIMIT {
        let all: &[u8] = words;
        remarks::united(&all[0..n], &line[from..end], b"", why, text);
    }
}

fn say_before(line: &[u8], separator: u8, k: usize, why: Refusal, text: &mut [u8; ROOM])
    requires { ((3 ≤ k) × (k ≤ pile_limit)) × (length line.now ≤ word_limit) }
{
    let mut words = [0u8; 32];
    say_left(line, separator, k, why, &mut words, text)
}

// The link of a pile with the k-th file.
fn say_link(
    line: &[u8],
    separator: u8,
    k: usize,
    why: Refusal,
    kept: Kept,
    rows: &[usize; 256],
    store: &[u8; STORE_ROOM],
    text: &mut [u8; ROOM],
)
    requires { (k ≤ pile_limit) × ((length line.now ≤ word_limit) × Tidy rows.now kept) }
{
    if k < 3 {
        return say_union(line, separator, why, kept, rows, store, text);
    }
    say_before(line, separator, k, why, text)
}

/// A pile: the file that was refused, or the link of those before with the next.
pub fn say_step(
    line: &[u8],
    separator: u8,
    x: PileRefusal,
    kept: Kept,
    rows: &[usize; 256],
    store: &[u8; STORE_ROOM],
    text: &mut [u8; ROOM],
)
    requires { (length line.now ≤ word_limit) × Tidy rows.now kept }
{
    let link = x.why;
    let step = x.step;
    let which = link.which;
    let why = link.why;
    if 255 < step {
        return;
    }
    match which {
        Which::First => say_file(line, separator, 1, why, kept, rows, store, text),
        Which::Second => say_file(line, separator, step + 1, why, kept, rows, store, text),
        Which::Union => say_link(line, separator, step + 1, why, kept, rows, store, text),
    }
}
