//! Files by name, read into a lent buffer until they end or the buffer is full. The name `-` is standard input's. A
//! failed call is told.
#![tactic(auto)]

ghost use Rattle.std.specs.Prelude.{◌≡◌, true, List, [], ℕ, ◌≤◌, ◌<◌, length, take, IfOk};
ghost use Rattle.input.specs.Came.{CameIn};
ghost use Rattle.input.specs.File.{is_input, number_of, StandsBehind, Opens, Goes, Comes, ReadIn, Begins};

use std::fs;
use std::fs::File;
use std::io::{Read, Stdin};

/// Standard input, or a file that is open and is closed where it is dropped.
#[derive(Drop)]
pub enum Source {
    Input(Stdin),
    File(File),
}

/// The whole file was read, of so many bytes, and is closed again; or the buffer is full, and the file is open yet.
#[derive(Drop)]
pub enum Begun {
    Whole(usize),
    Full(Source),
}

/// Whether the name is standard input's.
pub fn is_input(name: &[u8]) -> bool
    ensures { result ≡ is_input name.now }
{
    words::is_same(name, b"-")
}

/// Standard input, of which nothing was read.
pub fn standard_input(rt: &HostRuntime) -> Source
    ensures { (name : List ℕ) → is_input name ≡ true → StandsBehind name (number_of result) [] }
{
    Source::Input(rt.stdin())
}

fn open(rt: &HostRuntime, name: &[u8]) -> Result<Source, i32>
    ensures { Opens name.now result }
{
    if is_input(name) {
        return Ok(standard_input(rt));
    }
    match fs::open(rt, paths::text_of(name)?) {
        Err(error) => Err(paths::errno(error.raw_os_error())),
        Ok(file) => Ok(Source::File(file)),
    }
}

/// Standard input stays open.
pub fn close(source: Source) {
    drop(source);
}

// One call of `read`.
fn read_once(source: &Source, part: &mut [u8]) -> std::io::Result<usize>
    ensures { IfOk result (λ n. n ≤ length part.new) }
{
    match source {
        Source::Input(stdin) => {
            let mut stdin = *stdin;
            Read::read(&mut stdin, part)
        }
        Source::File(file) => {
            let mut file = file;
            Read::read(&mut file, part)
        }
    }
}

// Some bytes from `from` on, where there is room: where they end, which is `from` at the file's end.
fn read_some(source: &Source, from: usize, buf: &mut [u8]) -> Result<usize, i32>
    requires { from < length buf.old }
    ensures within { CameIn from (length buf.new) result }
    ensures bytes { (name : List ℕ) → StandsBehind name (number_of source.now) (take from buf.old) → Goes name (number_of source.now) from result buf.new }
{
    let part = &mut buf[from..];
    match read_once(source, part) {
        Err(error) => Err(paths::errno(error.raw_os_error())),
        Ok(got) => Ok(from + got),
    }
}

// All bytes from `from` on, as many as the buffer has room for.
fn read_all(source: &Source, from: usize, buf: &mut [u8]) -> Result<usize, i32>
    requires { from ≤ length buf.old }
    ensures within { CameIn from (length buf.new) result }
    ensures bytes { (name : List ℕ) → StandsBehind name (number_of source.now) (take from buf.old) → Comes name (number_of source.now) result buf.new }
{
    let mut end = from;
    // No count: a call may give fewer bytes than there is room for.
    while end < buf.len() {
        let next = read_some(source, end, buf)?;
        if next == end {
            break;
        }
        end = next;
    }
    Ok(end)
}

fn begin_at(source: Source, name: &[u8], buf: &mut [u8]) -> Result<Begun, i32>
    requires { StandsBehind name.now (number_of source) [] }
    ensures { Begins name.now result buf.new }
{
    let n = read_all(&source, 0, buf)?;
    if n == buf.len() {
        return Ok(Begun::Full(source));
    }
    close(source);
    Ok(Begun::Whole(n))
}

/// The file of this name, from its first byte on; or errno's number.
pub fn begin(rt: &HostRuntime, name: &[u8], buf: &mut [u8]) -> Result<Begun, i32>
    ensures { Begins name.now result buf.new }
{
    begin_at(open(rt, name)?, name, buf)
}

/// An open file whose first bytes were read elsewhere: those, and the others behind them.
pub fn go_on(source: &Source, front: &[u8], buf: &mut [u8]) -> Result<usize, i32>
    requires { length front.now ≤ length buf.old }
    ensures { (name : List ℕ) → StandsBehind name (number_of source.now) front.now → ReadIn name result buf.new }
{
    let n = text::put_bytes(buf, 0, front);
    read_all(source, n, buf)
}

/// Standard input, from where it stands.
pub fn read_input(rt: &HostRuntime, buf: &mut [u8]) -> Result<usize, i32>
    ensures { (name : List ℕ) → is_input name ≡ true → ReadIn name result buf.new }
{
    go_on(&standard_input(rt), b"", buf)
}

/// Standard input failed; it is said on standard output, in place of an answer.
pub fn say_failed() -> bool {
    io::write_all(1, b"error standard input cannot be read\n")
}
