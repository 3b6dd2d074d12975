//! A question about one file, asked by the arguments, whose words are parted by zero bytes. It needs none of a session's buffers: to clear them takes longer than
//! to answer from a short file, which has a small one.
#![tactic(auto)]

ghost use Rattle.std.specs.Prelude.{◌≡◌, true, List, ℕ, ◌≤◌, length};
ghost use Rattle.failures.specs.Room.{word_limit};
ghost use Rattle.tasks.specs.Tasks.{task_of};
ghost use Rattle.said.specs.Saying.{answer_room, Says};
ghost use Rattle.commands.specs.Answer.{answer_of};
ghost use Rattle.number.specs.Limits.{file_most};
ghost use Rattle.input.specs.File.{number_of, StandsBehind, Unread, FirstBytes};
ghost use Rattle.told.specs.Tells.{Tells, is_open};
ghost use Rattle.asks.specs.Asked.{short_room, Asks, is_asked, is_here, name_in, Replied, Took};

use failures::ROOM;
use input::{Begun, Source};
use number::FILE_MOST;
use said::{ANSWER_ROOM, Said, Why};
use tasks::Task;
use told::Told;
use verbs::{Question, Verb};

// A file with fewer bytes is short, as nearly every typelib is.
const SHORT: usize = 65536;

/// The line that answers it from the file's bytes: that of a session.
pub fn answer(line: &[u8], question: Question, file: &[u8], head: &mut [u8; ANSWER_ROOM]) -> Said
    requires { Asks question line.now }
    ensures { (second out : List ℕ) → Says (answer_of 0 line.now file.now second out).saying head.old result head.new }
{
    questions::ask(question, line, 0, file, head)
}

// On standard error nothing, the mistake, or why something was refused.
fn say_why(
    line: &[u8],
    said: Said,
    file: &[u8],
    head: &[u8; ANSWER_ROOM],
    text: &mut [u8; ROOM],
) -> Told
    requires { (length line.now ≤ word_limit) × (said.length ≤ answer_room) }
    ensures { is_open result ≡ true }
{
    let n = said.length;
    let reason = said.why;
    match reason {
        Why::Answered => Told::Answer,
        Why::Mistaken => told::say_mistake(line, 0, head, n, text),
        Why::Refused(refusal) => {
            refusals::say_asked(line, 0, refusal, file, text);
            Told::Answer
        }
    }
}

// The answer from the file that the line names.
fn say_answer(
    line: &[u8],
    question: Question,
    file: &[u8],
    head: &mut [u8; ANSWER_ROOM],
    text: &mut [u8; ROOM],
) -> Told
    requires { (length line.now ≤ word_limit) × (Asks question line.now × FirstBytes (name_in line.now) file_most file.now) }
    ensures { Tells (Replied line.now) result }
{
    let said = answer(line, question, file, head);
    if !told::answer::put(head, said.length) {
        return Told::Closed;
    }
    say_why(line, said, file, head, text)
}

// The file cannot be read.
fn say_unread(line: &[u8], error: i32, text: &mut [u8; ROOM]) -> Told
    requires { (length line.now ≤ word_limit) × Unread (name_in line.now) error }
    ensures { Tells (Replied line.now) result }
{
    told::say_unread(line, 0, 1, error, text)
}

fn answer_long(
    source: &Source,
    line: &[u8],
    question: Question,
    front: &[u8],
    long: &mut [u8; FILE_MOST],
    head: &mut [u8; ANSWER_ROOM],
    text: &mut [u8; ROOM],
) -> Told
    requires { (length line.now ≤ word_limit) × (Asks question line.now × (StandsBehind (name_in line.now) (number_of source.now) front.now × (length front.now ≤ short_room))) }
    ensures { Tells (Replied line.now) result }
{
    match input::go_on(source, front, long) {
        Err(error) => say_unread(line, error, text),
        Ok(end) => {
            let all: &[u8] = long;
            say_answer(line, question, &all[..end], head, text)
        }
    }
}

// A file that may be long, whose first bytes were read. The hint keeps its buffer out of the frame of its callers; `tests/xpt` tells if it does not.
#[inline(never)]
fn ask_long(
    source: &Source,
    line: &[u8],
    question: Question,
    front: &[u8],
    text: &mut [u8; ROOM],
) -> Told
    requires { (length line.now ≤ word_limit) × (Asks question line.now × (StandsBehind (name_in line.now) (number_of source.now) front.now × (length front.now ≤ short_room))) }
    ensures { Tells (Replied line.now) result }
{
    let mut long = [0u8; FILE_MOST];
    let mut head = [0u8; ANSWER_ROOM];
    answer_long(source, line, question, front, &mut long, &mut head, text)
}

// A file that is not standard input.
fn answer_short(
    rt: &HostRuntime,
    path: &[u8],
    line: &[u8],
    question: Question,
    short: &mut [u8; SHORT],
    head: &mut [u8; ANSWER_ROOM],
    text: &mut [u8; ROOM],
) -> Told
    requires { (length line.now ≤ word_limit) × (Asks question line.now × (path.now ≡ name_in line.now)) }
    ensures { Tells (Replied line.now) result }
{
    match input::begin(rt, path, short) {
        Err(error) => say_unread(line, error, text),
        Ok(Begun::Full(source)) => {
            let told = ask_long(&source, line, question, short, text);
            input::close(source);
            told
        }
        Ok(Begun::Whole(n)) => {
            let all: &[u8] = short;
            say_answer(line, question, &all[..n], head, text)
        }
    }
}

// A file that is not standard input, in a buffer of its own, which is kept out of the caller's frame too.
#[inline(never)]
fn ask_short(
    rt: &HostRuntime,
    path: &[u8],
    line: &[u8],
    question: Question,
    text: &mut [u8; ROOM],
) -> Told
    requires { (length line.now ≤ word_limit) × (Asks question line.now × (path.now ≡ name_in line.now)) }
    ensures { Tells (Replied line.now) result }
{
    let mut short = [0u8; SHORT];
    let mut head = [0u8; ANSWER_ROOM];
    answer_short(rt, path, line, question, &mut short, &mut head, text)
}

// The file of the name in the line. Standard input starts in the long buffer.
fn ask_named(
    rt: &HostRuntime,
    path: &[u8],
    line: &[u8],
    question: Question,
    text: &mut [u8; ROOM],
) -> Told
    requires { (length line.now ≤ word_limit) × (Asks question line.now × (path.now ≡ name_in line.now)) }
    ensures { Tells (Replied line.now) result }
{
    if input::is_input(path) {
        return ask_long(&input::standard_input(rt), line, question, b"", text);
    }
    ask_short(rt, path, line, question, text)
}

fn ask_file(rt: &HostRuntime, line: &[u8], question: Question, text: &mut [u8; ROOM]) -> Told
    requires { (length line.now ≤ word_limit) × Asks question line.now }
    ensures { Tells (Replied line.now) result }
{
    let name = tasks::argument(line, 0, 1);
    let from = name.from;
    let end = name.end;
    ask_named(rt, &line[from..end], line, question, text)
}

/// The question of the line, where it is one.
pub fn run(rt: &HostRuntime, line: &[u8], text: &mut [u8; ROOM]) -> Option<Told>
    requires { length line.now ≤ word_limit }
    ensures { (is_here result ≡ is_asked (task_of 0 line.now)) × Took line.now result }
{
    match tasks::task_of(line, 0) {
        Task::Run(verb) => match verb {
            Verb::Ask(question) => Some(ask_file(rt, line, question, text)),
            _ => None,
        },
        _ => None,
    }
}
