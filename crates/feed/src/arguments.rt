//! The program's arguments, as one line.
ghost use Rattle.std.specs.Prelude.{◌≡◌, ◌≤◌, length, take};
ghost use Rattle.feed.specs.Lines.{input_room};
ghost use Rattle.feed.specs.Arguments.{is_help_flag, is_help, first_asks, asks_help, Extends, CommandIn, AskedIn, GatheredIn};

use crate::INPUT_ROOM;
use std::env::FillError;
use std::rt::Env;

/// No argument; more than the line has room for; `help`; `--version`; `batch` alone; a command with `-h` or `--help`
/// alone, by the length of its name; or the length of the words of another command. An enum of its own: each is told in
/// its own words, and none passed on.
#[derive(Clone, Copy, Debug, PartialEq, Eq)]
pub enum Gathered {
    Nothing,
    TooLong,
    Help,
    Version,
    Batch,
    HelpOf(usize),
    Words(usize),
}

// What the first word asks for.
#[derive(Clone, Copy, Debug, PartialEq, Eq)]
enum First {
    Help,
    Version,
    Batch,
    Command,
}

// Argument i into the line, from `from` on.
fn gather_at(rt: &HostRuntime, i: usize, from: usize, line: &mut [u8]) -> Option<usize>
    requires { from ≤ length line.old }
    ensures { Extends (length line.old) line.old from result line.new }
{
    match rt.arg(i, &mut line[from..]) {
        Err(_) => None,
        Ok(got) => Some(from + got),
    }
}

// Argument i after a zero byte, behind the line that ends at `end`.
fn gather_one(rt: &HostRuntime, i: usize, end: usize, line: &mut [u8]) -> Option<usize>
    ensures { Extends (length line.old) line.old end result line.new }
{
    if line.len() <= end {
        return None;
    }
    line[end] = 0;
    gather_at(rt, i, end + 1, line)
}

// The arguments from the second on, behind the first.
fn gather_more(
    rt: &HostRuntime,
    count: usize,
    first: usize,
    line: &mut [u8; INPUT_ROOM],
) -> Option<usize>
    requires { first ≤ input_room }
    ensures { Extends input_room line.old first result line.new }
{
    let mut end = first;
    for i in 2..count {
        end = gather_one(rt, i, end, line)?;
    }
    Some(end)
}

// Whether the word is `-h` or `--help`.
#[tactic(auto, using(number::proofs::Choice::tests), unfolding(crate::specs::Arguments::is_help_flag))]
fn is_help_flag(word: &[u8]) -> bool
    ensures { result ≡ is_help_flag word.now }
{
    words::is_same(word, b"--help") || words::is_same(word, b"-h")
}

// Whether the first word asks for help.
#[tactic(auto, using(number::proofs::Choice::tests), unfolding(crate::specs::Arguments::is_help))]
fn is_help(word: &[u8]) -> bool
    ensures { result ≡ is_help word.now }
{
    words::is_same(word, b"help") || is_help_flag(word)
}

// What the first word and the number of arguments ask for.
#[tactic(auto, using(number::proofs::Choice::tests), unfolding(crate::specs::Arguments::first_asks))]
fn first_asks(count: usize, word: &[u8]) -> First
    ensures { result ≡ first_asks count word.now }
{
    if is_help(word) {
        return First::Help;
    }
    if words::is_same(word, b"--version") {
        return First::Version;
    }
    if count != 2 {
        return First::Command;
    }
    if words::is_same(word, b"batch") {
        return First::Batch;
    }
    First::Command
}

// Whether the only word behind the first, which is `first` bytes long, asks for help; the line ends at `end`.
#[tactic(auto, using(number::proofs::Choice::tests), unfolding(crate::specs::Arguments::asks_help))]
fn asks_help(count: usize, first: usize, end: usize, line: &[u8]) -> bool
    requires { end ≤ length line.now }
    ensures { result ≡ asks_help count first end line.now }
{
    if count != 3 {
        return false;
    }
    if end <= first {
        return false;
    }
    is_help_flag(&line[first + 1..end])
}

// The words of a command.
fn gather_command(
    rt: &HostRuntime,
    count: usize,
    first: usize,
    line: &mut [u8; INPUT_ROOM],
) -> Gathered
    requires { first ≤ input_room }
    ensures { CommandIn count first line.new result × (take first line.new ≡ take first line.old) }
{
    match gather_more(rt, count, first, line) {
        Some(end) => {
            if asks_help(count, first, end, line) {
                return Gathered::HelpOf(first);
            }
            Gathered::Words(end)
        }
        None => Gathered::TooLong,
    }
}

// What the first word, of this length, and those behind it ask for.
fn gather_words(
    rt: &HostRuntime,
    count: usize,
    first: usize,
    line: &mut [u8; INPUT_ROOM],
) -> Gathered
    requires { first ≤ input_room }
    ensures { AskedIn count first line.new result }
{
    let all: &[u8] = line;
    match first_asks(count, &all[..first]) {
        First::Help => Gathered::Help,
        First::Version => Gathered::Version,
        First::Batch => Gathered::Batch,
        First::Command => gather_command(rt, count, first, line),
    }
}

// How many arguments there are, the program's own name among them.
fn arg_count(rt: &HostRuntime) -> usize {
    let mut none = [0u8; 0];
    for i in 0..usize::MAX {
        if let Err(FillError::NotPresent) = rt.arg(i, &mut none) {
            return i;
        }
    }
    usize::MAX
}

/// The arguments into `line`, a zero byte between two.
pub fn gather(rt: &HostRuntime, line: &mut [u8; INPUT_ROOM]) -> Gathered
    ensures { GatheredIn line.new result }
{
    let count = arg_count(rt);
    if count < 2 {
        return Gathered::Nothing;
    }
    let Ok(first) = rt.arg(1, line) else {
        return Gathered::TooLong;
    };
    gather_words(rt, count, first, line)
}
