//! What the program is fed: its arguments, and standard input line by line. Only `read_more` and `arguments::gather`
//! call the system.
#![tactic(auto)]

pub mod arguments;

ghost use Rattle.std.specs.Prelude.{◌≡◌, true, false, ◌-◌, ◌≤◌, ◌<◌, length};
ghost use Rattle.feed.specs.Input.{FirstNewline, MovedDown, ReadBehind, Fed, Searched, Starts, Skips, Comes, Adds, feed_from};
ghost use Rattle.feed.specs.Lines.{input_room};

use std::io::Read;

/// Bytes of the buffer: those of the longest line, and its newline.
pub const INPUT_ROOM: usize = 65536;

/// The input that is in the buffer: from `from` to `end`, with no newline before `seen`. The rest of a line that was
/// too long is passed over.
#[derive(Clone, Copy, Debug, PartialEq, Eq)]
pub struct Feed {
    from: usize,
    seen: usize,
    end: usize,
    is_passing: bool,
    is_over: bool,
}

/// A line in the buffer, without its newline, and the feed after it.
#[derive(Clone, Copy, Debug, PartialEq, Eq)]
pub struct Taken {
    pub from: usize,
    pub end: usize,
    pub feed: Feed,
}

/// A line; that one was too long; more is to be read; or all lines were handed on. An enum of its own: each is a turn of
/// the session, and none an error to pass on.
#[derive(Clone, Copy, Debug, PartialEq, Eq)]
pub enum Coming {
    Line(Taken),
    TooLong(Feed),
    More(Feed),
    Over,
}

/// The feed after a read, and whether the read failed: the input is over then, too. A flag: the feed is there either
/// way.
#[derive(Clone, Copy, Debug, PartialEq, Eq)]
pub struct Came {
    pub feed: Feed,
    pub is_failed: bool,
}

/// Nothing was read.
pub fn start() -> Feed
    ensures { Starts result }
{
    Feed {
        from: 0,
        seen: 0,
        end: 0,
        is_passing: false,
        is_over: false,
    }
}

// The place of the first newline, or `end`.
fn newline_from(input: &[u8], from: usize, end: usize) -> usize
    requires { (from ≤ end) × (end ≤ length input.now) }
    ensures { FirstNewline input.now from end result }
{
    for i in from..end {
        if input[i] == b'\n' {
            return i;
        }
    }
    end
}

// The feed from `at` on, where nothing was looked at yet.
fn feed_from(feed: Feed, at: usize, is_passing: bool) -> Feed
    ensures { result ≡ feed_from feed at is_passing }
{
    Feed {
        from: at,
        seen: at,
        end: feed.end,
        is_passing,
        is_over: feed.is_over,
    }
}

// Without what is in the buffer of a line that is passed over.
fn skip(feed: Feed, input: &[u8]) -> Feed
    requires { Fed input.now feed × (feed.end ≤ length input.now) }
    ensures { Skips input.now feed result }
{
    if !feed.is_passing {
        return feed;
    }
    let stop = newline_from(input, feed.seen, feed.end);
    if stop < feed.end {
        return feed_from(feed, stop + 1, false);
    }
    feed_from(feed, stop, true)
}

// What is left where the input is over: a last line, or nothing.
fn last_line(feed: Feed, input: &[u8]) -> Coming
    requires { Searched input.now feed × ((feed.end - feed.from < input_room) × (feed.is_over ≡ true)) }
    ensures { Comes input.now feed result }
{
    if feed.from == feed.end {
        return Coming::Over;
    }
    Coming::Line(Taken {
        from: feed.from,
        end: feed.end,
        feed: feed_from(feed, feed.end, false),
    })
}

// No newline is in the buffer. A line that fills it is too long.
fn without_newline(feed: Feed, input: &[u8]) -> Coming
    requires { Searched input.now feed }
    ensures { Comes input.now feed result }
{
    if INPUT_ROOM <= feed.end - feed.from {
        return Coming::TooLong(feed_from(feed, feed.end, true));
    }
    if feed.is_over {
        return last_line(feed, input);
    }
    Coming::More(Feed {
        from: feed.from,
        seen: feed.end,
        end: feed.end,
        is_passing: false,
        is_over: false,
    })
}

// The line up to the first newline, where no line is passed over.
fn next_line(feed: Feed, input: &[u8]) -> Coming
    requires { Fed input.now feed × ((feed.end ≤ length input.now) × (feed.is_passing ≡ false)) }
    ensures { Comes input.now feed result }
{
    let stop = newline_from(input, feed.seen, feed.end);
    if stop < feed.end {
        return Coming::Line(Taken {
            from: feed.from,
            end: stop,
            feed: feed_from(feed, stop + 1, false),
        });
    }
    without_newline(feed, input)
}

/// What comes next. Each byte is looked at once: a search starts where the last one ended.
pub fn next(feed: Feed, input: &[u8; INPUT_ROOM]) -> Coming
    requires { Fed input.now feed }
    ensures { Comes input.now feed result }
{
    let all: &[u8] = input;
    let left = skip(feed, all);
    if !left.is_passing {
        return next_line(left, all);
    }
    if left.is_over {
        return Coming::Over;
    }
    Coming::More(left)
}

// What stands from `from` to `end` is moved to the front; the answer is its length. A byte is moved once: what stands at the front stays.
fn move_down(from: usize, end: usize, input: &mut [u8]) -> usize
    requires { (from ≤ end) × (end ≤ length input.old) }
    ensures { MovedDown input.old from end result input.new }
{
    if from == 0 {
        return end;
    }
    for i in 0..end - from {
        input[i] = input[from + i];
    }
    end - from
}

// Standard input into the buffer from `at` on: how many bytes came. There is room for one byte, so that none means the
// end. A failure is said on standard error.
fn read_at(rt: &HostRuntime, at: usize, input: &mut [u8]) -> Option<usize>
    requires { at < length input.old }
    ensures { ReadBehind input.old at result input.new }
{
    let part = &mut input[at..];
    match rt.stdin().read(part) {
        Err(_) => {
            io::write_all(2, b"xpt: standard input cannot be read any further\n");
            None
        }
        Ok(count) => Some(count),
    }
}

/// More input behind what is unread, which does not fill the buffer.
pub fn read_more(rt: &HostRuntime, feed: Feed, input: &mut [u8; INPUT_ROOM]) -> Came
    requires { Fed input.old feed × ((feed.end - feed.from < input_room) × (feed.is_over ≡ false)) }
    ensures { Adds input.old feed result input.new }
{
    let kept = move_down(feed.from, feed.end, input);
    let arrived = read_at(rt, kept, input);
    let count = arrived.unwrap_or(0);
    Came {
        feed: Feed {
            from: 0,
            seen: feed.seen - feed.from,
            end: kept + count,
            is_passing: feed.is_passing,
            is_over: count == 0,
        },
        is_failed: arrived.is_none(),
    }
}
