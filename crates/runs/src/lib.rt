//! The command of a line, from its bytes to standard output, standard error and files. Its words are parted by a separator, which is a space in a batch
//! and a zero byte between arguments.
#![tactic(auto)]

ghost use Rattle.std.specs.Prelude.{List, ℕ, ◌≤◌, length};
ghost use Rattle.number.specs.Limits.{file_limit};
ghost use Rattle.failures.specs.Room.{word_limit};
ghost use Rattle.words.specs.Words.{words_of};
ghost use Rattle.tasks.specs.Tasks.{in_batch, argument, task_of, files_of};
ghost use Rattle.said.specs.Saying.{answer_room};
ghost use Rattle.kept.specs.Table.{Tidy};
ghost use Rattle.kept.specs.Files.{kept_file};
ghost use Rattle.streamed.specs.Stream.{LeftOf};
ghost use Rattle.held.specs.Held.{Held, WhereHad};
ghost use Rattle.named.specs.Settled.{Settled};
ghost use Rattle.made.specs.Made.{SavedIn};
ghost use Rattle.commands.specs.Answer.{answer_of, Replies};

use commands::Reply;
use failures::ROOM;
use held::Wanting;
use kept::{Kept, STORE_ROOM};
use link::Which;
use number::FILE_LIMIT;
use said::{ANSWER_ROOM, Said, Why};
use saving::Saved;
use streamed::Stream;
use tasks::Task;
use told::{Ran, Told};

/// The answer to the line, from the files that are kept under the names in it.
pub fn answer_kept(
    line: &[u8],
    separator: u8,
    kept: Kept,
    rows: &[usize; 256],
    store: &[u8; STORE_ROOM],
    out: &mut [u8; FILE_LIMIT],
    work: &mut [u8; FILE_LIMIT],
    text: &mut [u8; ANSWER_ROOM],
) -> Reply
    requires { Tidy rows.now kept × Held (files_of (task_of separator line.now)) (words_of separator line.now) kept rows.now store.now }
    ensures { SavedIn file_limit result.save × Replies (in_batch separator) (answer_of separator line.now (kept_file (argument 1 (words_of separator line.now)) kept rows.now store.now) (kept_file (argument 2 (words_of separator line.now)) kept rows.now store.now) out.old) (kept_file (argument 1 (words_of separator line.now)) kept rows.now store.now) text.old result out.new text.new }
{
    let first = named::file_at(line, separator, 1, kept, rows, store);
    let second = named::file_at(line, separator, 2, kept, rows, store);
    let a = first.from;
    let b = first.end;
    let c = second.from;
    let d = second.end;
    let all: &[u8] = store;
    commands::answer(line, separator, &all[a..b], &all[c..d], out, work, text)
}

// What is left of the answer from the first file.
fn put_rest(
    line: &[u8],
    separator: u8,
    rest: Stream,
    kept: Kept,
    rows: &[usize; 256],
    store: &[u8; STORE_ROOM],
) -> bool
    requires { Tidy rows.now kept × ((text : List ℕ) × LeftOf (in_batch separator) (kept_file (argument 1 (words_of separator line.now)) kept rows.now store.now) rest text) }
{
    let file = named::file_at(line, separator, 1, kept, rows, store);
    let from = file.from;
    let end = file.end;
    let all: &[u8] = store;
    told::answer::put_rest(&all[from..end], rest, tasks::in_batch(separator))
}

// On standard error: nothing, the mistake, or why something was refused.
fn say_why(
    line: &[u8],
    separator: u8,
    said: Said,
    whose: Which,
    head: &[u8; ANSWER_ROOM],
    kept: Kept,
    rows: &[usize; 256],
    store: &[u8; STORE_ROOM],
    text: &mut [u8; ROOM],
) -> Told
    requires { ((length line.now ≤ word_limit) × (said.length ≤ answer_room)) × Tidy rows.now kept }
{
    let n = said.length;
    let reason = said.why;
    match reason {
        Why::Answered => Told::Answer,
        Why::Mistaken => told::say_mistake(line, separator, head, n, text),
        Why::Refused(refusal) => {
            refusals::say(line, separator, whose, refusal, kept, rows, store, text);
            Told::Answer
        }
    }
}

// An answer that writes no file.
fn say_reply(
    line: &[u8],
    separator: u8,
    reply: Reply,
    head: &[u8; ANSWER_ROOM],
    kept: Kept,
    rows: &[usize; 256],
    store: &[u8; STORE_ROOM],
    text: &mut [u8; ROOM],
) -> Told
    requires { ((length line.now ≤ word_limit) × (reply.said.length ≤ answer_room)) × (Tidy rows.now kept × ((rest : List ℕ) × LeftOf (in_batch separator) (kept_file (argument 1 (words_of separator line.now)) kept rows.now store.now) reply.rest rest)) }
{
    let said = reply.said;
    let rest = reply.rest;
    let whose = reply.whose;
    let n = said.length;
    if !told::answer::put(head, n) {
        return Told::Closed;
    }
    if !put_rest(line, separator, rest, kept, rows, store) {
        return Told::Closed;
    }
    say_why(line, separator, said, whose, head, kept, rows, store, text)
}

// On standard error what was changed in what was salvaged, once its file was written.
fn say_changes(
    line: &[u8],
    separator: u8,
    saved: Saved,
    kept: Kept,
    rows: &[usize; 256],
    store: &[u8; STORE_ROOM],
    out: &mut [u8; FILE_LIMIT],
    work: &mut [u8; FILE_LIMIT],
    text: &mut [u8; ROOM],
)
    requires { (length line.now ≤ word_limit) × Tidy rows.now kept }
{
    if saved.is_ok() {
        changes::say(line, separator, kept, rows, store, out, work, text);
    }
}

// All files that the line names are in the store.
fn reply_with(
    rt: &HostRuntime,
    line: &[u8],
    separator: u8,
    kept: Kept,
    rows: &[usize; 256],
    store: &[u8; STORE_ROOM],
    out: &mut [u8; FILE_LIMIT],
    work: &mut [u8; FILE_LIMIT],
    head: &mut [u8; ANSWER_ROOM],
    text: &mut [u8; ROOM],
) -> Told
    requires { (length line.now ≤ word_limit) × (Tidy rows.now kept × Held (files_of (task_of separator line.now)) (words_of separator line.now) kept rows.now store.now) }
{
    let reply = answer_kept(line, separator, kept, rows, store, out, work, head);
    let save = reply.save;
    let length = reply.said.length;
    match save {
        None => say_reply(line, separator, reply, head, kept, rows, store, text),
        Some(n) => {
            let saved = told::save_output(rt, line, separator, n, out);
            let told = told::say_saved(line, separator, saved, length, head, text);
            say_changes(line, separator, saved, kept, rows, store, out, work, text);
            told
        }
    }
}

fn reply(
    rt: &HostRuntime,
    line: &[u8],
    separator: u8,
    kept: Kept,
    rows: &[usize; 256],
    store: &[u8; STORE_ROOM],
    out: &mut [u8; FILE_LIMIT],
    work: &mut [u8; FILE_LIMIT],
    text: &mut [u8; ROOM],
) -> Told
    requires { (length line.now ≤ word_limit) × (Tidy rows.now kept × Held (files_of (task_of separator line.now)) (words_of separator line.now) kept rows.now store.now) }
{
    let mut head = [0u8; ANSWER_ROOM];
    reply_with(
        rt, line, separator, kept, rows, store, out, work, &mut head, text,
    )
}

// The answer, or the line for a file that is wanting.
fn answer(
    rt: &HostRuntime,
    line: &[u8],
    separator: u8,
    wanting: Wanting,
    kept: Kept,
    rows: &[usize; 256],
    store: &[u8; STORE_ROOM],
    out: &mut [u8; FILE_LIMIT],
    work: &mut [u8; FILE_LIMIT],
    text: &mut [u8; ROOM],
) -> Told
    requires { (length line.now ≤ word_limit) × (Tidy rows.now kept × WhereHad (Held (files_of (task_of separator line.now)) (words_of separator line.now) kept rows.now store.now) wanting) }
{
    match wanting {
        Wanting::Nothing => reply(rt, line, separator, kept, rows, store, out, work, text),
        Wanting::Input => told::say_input(text),
        Wanting::First(error) => told::say_unread(line, separator, 1, error, text),
        Wanting::Second(error) => told::say_unread(line, separator, 2, error, text),
    }
}

// A command that reads one file, or two.
fn run_few(
    rt: &HostRuntime,
    line: &[u8],
    separator: u8,
    kept: Kept,
    rows: &mut [usize; 256],
    store: &mut [u8; STORE_ROOM],
    out: &mut [u8; FILE_LIMIT],
    work: &mut [u8; FILE_LIMIT],
    text: &mut [u8; ROOM],
) -> Ran
    requires { (length line.now ≤ word_limit) × Tidy rows.old kept }
    ensures { Settled separator line.now result.kept rows.new store.new }
{
    let roomy = kept::with_room(kept, 2, rows);
    let fetched = held::fetch_all(rt, line, separator, roomy, rows, store);
    let kept = fetched.kept;
    let wanting = fetched.wanting;
    let told = answer(
        rt, line, separator, wanting, kept, rows, store, out, work, text,
    );
    named::settle(line, separator, kept, rows, store);
    Ran { kept, told }
}

/// The command of a line.
pub fn run(
    rt: &HostRuntime,
    line: &[u8],
    separator: u8,
    kept: Kept,
    rows: &mut [usize; 256],
    store: &mut [u8; STORE_ROOM],
    out: &mut [u8; FILE_LIMIT],
    work: &mut [u8; FILE_LIMIT],
    text: &mut [u8; ROOM],
) -> Ran
    requires { (length line.now ≤ word_limit) × Tidy rows.old kept }
    ensures { Settled separator line.now result.kept rows.new store.new }
{
    let task = tasks::task_of(line, separator);
    if let Task::Pile(n) = task {
        return pile_runs::run(rt, line, separator, n, kept, rows, store, out, work, text);
    }
    run_few(rt, line, separator, kept, rows, store, out, work, text)
}
