//! An answer on standard output: the line that it begins with, and what is left of it.
ghost use Rattle.std.specs.Prelude.{List, ℕ, ◌≤◌};
ghost use Rattle.said.specs.Saying.{answer_room};
ghost use Rattle.streamed.specs.Stream.{LeftOf};
ghost use Rattle.streams.specs.Printed.{Front, Prints};

use said::ANSWER_ROOM;
use streamed::Stream;

/// The line at the front of the buffer.
pub fn put(head: &[u8; ANSWER_ROOM], n: usize) -> bool
    requires { n ≤ answer_room }
    ensures { (line : List ℕ) → Front line n head.now → Prints line result }
{
    let bytes: &[u8] = head;
    streams::write(&bytes[..n])
}

// What is left of an answer, buffer by buffer; whether all of it could be written.
fn put_each(file: &[u8], first: Stream, in_batch: bool, out: &mut [u8; 65536]) -> bool
    requires { (text : List ℕ) × LeftOf in_batch file.now first text }
    ensures { (text : List ℕ) → LeftOf in_batch file.now first text → Prints text result }
{
    let mut rest = first;
    loop {
        if streamed::is_over(rest) {
            return true;
        }
        let more = streamed::go_on(file, rest, in_batch, out);
        let n = more.length;
        let all: &[u8] = out;
        if !streams::write(&all[..n]) {
            return false;
        }
        rest = more.rest;
    }
}

pub fn put_rest(file: &[u8], rest: Stream, in_batch: bool) -> bool
    requires { (text : List ℕ) × LeftOf in_batch file.now rest text }
    ensures { (text : List ℕ) → LeftOf in_batch file.now rest text → Prints text result }
{
    let mut out = io::large_buffer();
    put_each(file, rest, in_batch, &mut out)
}
