//! What the arguments ask for: a command, a batch of them, or what is told without a file.
#![tactic(auto)]

ghost use Rattle.std.specs.Prelude.{◌≤◌};
ghost use Rattle.feed.specs.Lines.{input_room};
ghost use Rattle.failures.specs.Room.{room};

use failures::ROOM;
use feed::INPUT_ROOM;
use feed::arguments::Gathered;

// The first n bytes on standard output.
fn put(text: &[u8; ROOM], n: usize)
    requires { n ≤ room }
{
    let all: &[u8] = text;
    streams::write(&all[..n]);
}

/// Whether there is a command to run or a batch of them, and the length of the command's words.
#[derive(Drop)]
pub struct Work {
    pub is_asked: bool,
    pub length: usize,
    pub in_batch: bool,
}

// Nothing is to be run.
fn nothing() -> Work
    ensures { result.length ≤ input_room }
{
    Work {
        is_asked: false,
        length: 0,
        in_batch: false,
    }
}

// The first n bytes on standard output, and nothing to run.
fn show(text: &[u8; ROOM], n: usize) -> Work
    requires { n ≤ room }
    ensures { result.length ≤ input_room }
{
    put(text, n);
    nothing()
}

// The help of the command whose name is the first k bytes.
fn put_help_of(input: &[u8; INPUT_ROOM], k: usize, text: &mut [u8; ROOM]) -> usize
    requires { k ≤ input_room }
    ensures { result ≤ room }
{
    let all: &[u8] = input;
    if rdb_tasks::is_types(&all[..k]) {
        return manual::types_help(text);
    }
    manual::help_of(verbs::verb_of(&all[..k]), text)
}

/// What the arguments ask for; what needs no file is answered here.
pub fn find_work(rt: &HostRuntime, input: &mut [u8; INPUT_ROOM], text: &mut [u8; ROOM]) -> Work
    ensures { result.length ≤ input_room }
{
    match feed::arguments::gather(rt, input) {
        Gathered::Nothing => {
            let n = failures::no_command(text);
            streams::put_error(text, n);
            streams::hint(text);
            nothing()
        }
        Gathered::TooLong => {
            let n = failures::arguments_too_long(text);
            streams::put_error(text, n);
            nothing()
        }
        Gathered::Help => {
            let n = manual::help(text);
            show(text, n)
        }
        Gathered::Version => {
            let n = manual::version(text);
            show(text, n)
        }
        Gathered::HelpOf(k) => {
            let n = put_help_of(input, k, text);
            show(text, n)
        }
        Gathered::Batch => Work {
            is_asked: true,
            length: 0,
            in_batch: true,
        },
        Gathered::Words(n) => Work {
            is_asked: true,
            length: n,
            in_batch: false,
        },
    }
}
