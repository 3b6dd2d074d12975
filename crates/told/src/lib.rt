//! What standard output gets of a command, each line in one write, and what is said of it on standard error.
#![tactic(auto)]

pub mod answer;

ghost use Rattle.std.specs.Prelude.{◌≡◌, true, List, ℕ, ◌≤◌, length};
ghost use Rattle.number.specs.Limits.{file_limit, pile_limit};
ghost use Rattle.words.specs.Words.{words_of};
ghost use Rattle.tasks.specs.Tasks.{argument};
ghost use Rattle.failures.specs.Room.{room, word_limit};
ghost use Rattle.failures.specs.Lines.{line_too_long_text, input_in_batch_text, unread_text};
ghost use Rattle.said.specs.Saying.{answer_room};
ghost use Rattle.streams.specs.Printed.{Printed, Prints};
ghost use Rattle.told.specs.Tells.{Tells, is_open};

use failures::ROOM;
use kept::Kept;
use number::FILE_LIMIT;
use said::ANSWER_ROOM;
use saving::{Saved, Unsaved};
use store::Loaded;

/// What standard output got: an answer, a line for a mistake in the words, or nothing any more.
#[derive(Drop)]
pub enum Told {
    Answer,
    Mistake,
    Closed,
}

/// What is kept after a command, and what standard output got.
#[derive(Drop)]
pub struct Ran {
    pub kept: Kept,
    pub told: Told,
}

fn answered(is_open: bool) -> Told
    ensures { (bytes : List ℕ) → Prints bytes is_open → Tells (Printed bytes) result }
{
    if is_open {
        return Told::Answer;
    }
    Told::Closed
}

/// Standard input has the commands.
pub fn say_input(text: &mut [u8; ROOM]) -> Told
    ensures { Tells (Printed input_in_batch_text) result }
{
    let n = failures::input_in_batch(text);
    answered(streams::put_error(text, n))
}

/// The k-th file could not be read.
pub fn say_unread(line: &[u8], separator: u8, k: usize, error: i32, text: &mut [u8; ROOM]) -> Told
    requires { (k ≤ pile_limit) × (length line.now ≤ word_limit) }
    ensures { Tells (Printed (unread_text (argument k (words_of separator line.now)) error)) result }
{
    let name = tasks::argument(line, separator, k);
    let from = name.from;
    let end = name.end;
    let n = failures::unread(&line[from..end], error, text);
    answered(streams::put_error(text, n))
}

/// Why the k-th file is wanting.
pub fn say_wanting(
    line: &[u8],
    separator: u8,
    k: usize,
    file: Loaded,
    text: &mut [u8; ROOM],
) -> Told
    requires { (k ≤ pile_limit) × (length line.now ≤ word_limit) }
{
    match file {
        Loaded::Kept => Told::Answer,
        Loaded::InBatch => say_input(text),
        Loaded::Failed(error) => say_unread(line, separator, k, error, text),
    }
}

/// What a mistake says, which stands at the front of `head`, on standard error too: of the line, or of a question about a file.
pub fn say_mistake(
    line: &[u8],
    separator: u8,
    head: &[u8; ANSWER_ROOM],
    n: usize,
    text: &mut [u8; ROOM],
) -> Told
    requires { n ≤ answer_room }
    ensures { is_open result ≡ true }
{
    let all: &[u8] = head;
    if tasks::files_of(tasks::task_of(line, separator)) == 0 {
        streams::error(&line[0..0], &all[..n], text);
        return Told::Mistake;
    }
    let name = tasks::argument(line, separator, 1);
    let from = name.from;
    let end = name.end;
    streams::error(&line[from..end], &all[..n], text);
    Told::Answer
}

/// The first n bytes of the output to the file that the line names.
pub fn save_output(
    rt: &HostRuntime,
    line: &[u8],
    separator: u8,
    n: usize,
    out: &[u8; FILE_LIMIT],
) -> Saved
    requires { n ≤ file_limit }
{
    let name = tasks::output(line, separator);
    let from = name.from;
    let end = name.end;
    let is_forced = tasks::is_forced(line, separator);
    let all: &[u8] = out;
    saving::save(rt, &line[from..end], &all[..n], is_forced)
}

// The line for a file that was not written.
fn put_unsaved(why: Unsaved, name: &[u8], text: &mut [u8; ROOM]) -> usize
    requires { length name.now ≤ word_limit }
    ensures { result ≤ room }
{
    match why {
        Unsaved::Taken => failures::taken(name, text),
        Unsaved::NoFile => failures::no_file(name, text),
        Unsaved::Failed(error) => failures::unwritten(name, error, text),
    }
}

fn say_unsaved(line: &[u8], separator: u8, why: Unsaved, text: &mut [u8; ROOM]) -> Told
    requires { length line.now ≤ word_limit }
{
    let name = tasks::output(line, separator);
    let from = name.from;
    let end = name.end;
    let n = put_unsaved(why, &line[from..end], text);
    answered(streams::put_error(text, n))
}

/// The line at the front of `head`, once its file was written.
pub fn say_saved(
    line: &[u8],
    separator: u8,
    saved: Saved,
    n: usize,
    head: &[u8; ANSWER_ROOM],
    text: &mut [u8; ROOM],
) -> Told
    requires { (length line.now ≤ word_limit) × (n ≤ answer_room) }
{
    match saved {
        Ok(()) => answered(answer::put(head, n)),
        Err(why) => say_unsaved(line, separator, why, text),
    }
}

/// The line of a batch that was too long.
pub fn say_too_long(text: &mut [u8; ROOM]) -> Told
    ensures { Tells (Printed line_too_long_text) result }
{
    let n = failures::line_too_long(text);
    answered(streams::put_error(text, n))
}
