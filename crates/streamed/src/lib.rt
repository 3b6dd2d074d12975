//! An answer that may be longer than a buffer: what it begins with, and what is left of it, buffer by buffer.
#![tactic(auto)]

ghost use Rattle.std.specs.Prelude.{◌≡◌, List, ℕ};
ghost use Rattle.streamed.specs.declared.Stream.TheVariants.{Lines, Part, Paths};
ghost use Rattle.streamed.specs.Stream.{no_rest, is_over, spoken, listing, telling, paths, after_part, after_paths, LeftOf, Turned};

use lines::Cursor;
use listed::Rest;
use rdb_parts::PartAnswer;
use reader::Layout;
use said::{Said, Why};

/// The line about a part of a types.rdb, from byte `place` of it on.
#[derive(Clone, Copy)]
pub struct Telling {
    pub answer: PartAnswer,
    pub place: usize,
}

/// What is left: of a listing or a table of a typelib, of the line about a part of a types.rdb, or of all its paths.
#[derive(Clone, Copy)]
pub enum Stream {
    Lines(Rest),
    Part(Telling),
    Paths(rdb_lines::Cursor),
}

/// What was put at the front of the text and why, and what is left after it.
#[derive(Drop)]
pub struct Begun {
    pub said: Said,
    pub rest: Stream,
}

/// How many bytes of the buffer were filled, and what is left after them.
#[derive(Drop)]
pub struct Turn {
    pub length: usize,
    pub rest: Stream,
}

/// Nothing is left.
pub fn no_rest() -> Stream
    ensures { result ≡ no_rest }
{
    Stream::Lines(listed::no_rest())
}

/// Whether nothing is left.
pub fn is_over(x: Stream) -> bool
    ensures { result ≡ is_over x }
{
    match x {
        Stream::Lines(rest) => listed::is_over(rest),
        Stream::Part(_) => false,
        Stream::Paths(_) => false,
    }
}

/// A line that is all of the answer.
pub fn said(said: Said) -> Begun
    ensures { result ≡ spoken said }
{
    Begun {
        said,
        rest: no_rest(),
    }
}

/// What a listing or a table begins with.
pub fn listing(begun: listed::Opened) -> Begun
    ensures { result ≡ listing begun }
{
    let said = begun.said;
    let rest = begun.rest;
    Begun {
        said,
        rest: Stream::Lines(rest),
    }
}

/// The line about a part, which is all left.
pub fn tell(answer: PartAnswer) -> Begun
    ensures { result ≡ telling answer }
{
    Begun {
        said: Said {
            length: 0,
            why: rdb_told::why_of(answer),
        },
        rest: Stream::Part(Telling { answer, place: 0 }),
    }
}

/// The paths of a types.rdb, which are all left.
pub fn paths() -> Begun
    ensures { result ≡ paths }
{
    Begun {
        said: Said {
            length: 0,
            why: Why::Answered,
        },
        rest: Stream::Paths(rdb_lines::Cursor { line: 0, place: 0 }),
    }
}

// What is left of that line at `place`, where the buffer before did not hold its end.
fn after_part(answer: PartAnswer, place: usize, ends: bool) -> Stream
    ensures { result ≡ after_part answer place «ends» }
{
    if ends {
        return no_rest();
    }
    Stream::Part(Telling { answer, place })
}

// What is left of paths, and behind the last of them.
fn after_paths(rest: Option<rdb_lines::Cursor>, in_batch: bool) -> Stream
    ensures { result ≡ after_paths in_batch rest }
{
    match rest {
        Some(c) => Stream::Paths(c),
        None => Stream::Lines(listed::rest_of(
            Layout {
                count: 0,
                directory: 0,
                pool: 0,
            },
            Cursor::Done,
            in_batch,
        )),
    }
}

// The next bytes of a listing or a table.
fn go_on_lines(file: &[u8], rest: Rest, in_batch: bool, out: &mut [u8; 65536]) -> Turn
    requires { (text : List ℕ) × LeftOf in_batch file.now (Lines rest) text }
    ensures { Turned in_batch file.now (Lines rest) out.old result out.new }
{
    let more = listed::go_on(file, rest, in_batch, out);
    let length = more.length;
    let rest = more.rest;
    Turn {
        length,
        rest: Stream::Lines(rest),
    }
}

// Those of the line about a part.
fn go_on_part(file: &[u8], x: Telling, in_batch: bool, out: &mut [u8; 65536]) -> Turn
    requires { (text : List ℕ) × LeftOf in_batch file.now (Part x) text }
    ensures { Turned in_batch file.now (Part x) out.old result out.new }
{
    let answer = x.answer;
    let place = x.place;
    let filled = rdb_told::fill(file, answer, place, out);
    Turn {
        length: filled.length,
        rest: after_part(answer, filled.place, filled.ends),
    }
}

// Those of paths.
fn go_on_paths(file: &[u8], c: rdb_lines::Cursor, in_batch: bool, out: &mut [u8; 65536]) -> Turn
    requires { (text : List ℕ) × LeftOf in_batch file.now (Paths c) text }
    ensures { Turned in_batch file.now (Paths c) out.old result out.new }
{
    let filled = rdb_lines::fill(file, c, out);
    let length = filled.length;
    let rest = filled.rest;
    listed::tab(out, length, in_batch);
    Turn {
        length,
        rest: after_paths(rest, in_batch),
    }
}

/// The next bytes of the answer.
pub fn go_on(file: &[u8], x: Stream, in_batch: bool, out: &mut [u8; 65536]) -> Turn
    requires { (text : List ℕ) × LeftOf in_batch file.now x text }
    ensures { Turned in_batch file.now x out.old result out.new }
{
    match x {
        Stream::Lines(rest) => go_on_lines(file, rest, in_batch, out),
        Stream::Part(telling) => go_on_part(file, telling, in_batch, out),
        Stream::Paths(c) => go_on_paths(file, c, in_batch, out),
    }
}
