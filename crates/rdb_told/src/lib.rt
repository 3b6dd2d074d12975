//! The line that tells a part of an entity of a types.rdb, buffer by buffer: its texts may be longer than a buffer.
#![tactic(auto)]

ghost use Rattle.std.specs.Prelude.{◌≡◌, ◌++◌, ◌+◌, ◌≤◌, length};
ghost use Rattle.number.specs.Limits.{file_limit};
ghost use Rattle.decimal.specs.Digits.{digits_of};
ghost use Rattle.rdb_parts.specs.declared.PartAnswer.TheVariants as answer;
ghost use Rattle.said.specs.Texts.{refused_line};
ghost use Rattle.window.specs.Window.{text_limit, Passed};
ghost use Rattle.rdb_told.specs.Told.{bytes_word, text_words, part_text, part_why, Small};
ghost use Rattle.rdb_told.specs.Fills.{Fills, least};

use rdb_parts::{EntryPart, MemberPart, MethodPart, PartAnswer, TypedPart};
use rdb_text::Text;
use reading::Refusal;
use said::Why;

/// How many bytes of the buffer were filled, the place in the line after them, and whether they are its last.
#[derive(Clone, Copy, Debug, PartialEq, Eq)]
pub struct Filled {
    pub length: usize,
    pub place: usize,
    pub ends: bool,
}

/// Whether the line tells a part, or why there is none to tell.
pub fn why_of(a: PartAnswer) -> Why
    ensures { result ≡ part_why a }
{
    match a {
        PartAnswer::Text(_) => Why::Answered,
        PartAnswer::Entry(_) => Why::Answered,
        PartAnswer::Member(_) => Why::Answered,
        PartAnswer::Typed(_) => Why::Answered,
        PartAnswer::Method(_) => Why::Answered,
        PartAnswer::None => Why::Answered,
        PartAnswer::Refused(why) => Why::Refused(why),
    }
}

fn least(a: usize, b: usize) -> usize
    ensures { result ≡ least a b }
{
    if a < b {
        return a;
    }
    b
}

// A label, and n in decimal after it.
fn put_number(out: &mut [u8], from: usize, place: usize, label: &[u8], n: u64) -> usize
    requires { (length label.now ≤ 20) × (place + 40 ≤ text_limit) }
    ensures { Passed from place (label.now ++ digits_of n) out.old result out.new × (result ≤ place + 40) }
{
    window::put_labelled(out, from, place, label, n)
}

// Bytes as a word of the line, after a space.
fn put_word(out: &mut [u8], from: usize, place: usize, bytes: &[u8]) -> usize
    requires { (length bytes.now ≤ file_limit) × (place + 4194305 ≤ text_limit) }
    ensures { Passed from place (bytes_word bytes.now) out.old result out.new }
{
    if bytes.len() == 0 {
        return place;
    }
    let at = window::put_bytes(out, from, place, b" ");
    window::put_shown(out, from, at, bytes)
}

// A text after a label.
fn put_text(out: &mut [u8], from: usize, place: usize, label: &[u8], file: &[u8], t: Text) -> usize
    requires { (length label.now ≤ 20) × ((length file.now ≤ file_limit) × (place + 8388608 ≤ text_limit)) }
    ensures { Passed from place (label.now ++ text_words file.now t) out.old result out.new × (result ≤ place + 8388608) }
{
    let at = t.at;
    let len = t.len;
    let space = put_number(out, from, place, label, at as u64);
    let next = put_number(out, from, space, b" ", len as u64);
    let n = file.len();
    let a = least(at, n);
    let b = a + least(len, n - a);
    put_word(out, from, next, &file[a..b])
}

fn put_alone(out: &mut [u8], from: usize, file: &[u8], t: Text) -> usize
    requires { length file.now ≤ file_limit }
    ensures { Passed from 0 (part_text file.now (answer.Text t)) out.old result out.new }
{
    let end = put_text(out, from, 0, b"found ", file, t);
    window::put_bytes(out, from, end, b"\n")
}

fn put_entry(out: &mut [u8], from: usize, file: &[u8], x: EntryPart) -> usize
    requires { length file.now ≤ file_limit }
    ensures { Passed from 0 (part_text file.now (answer.Entry x)) out.old result out.new }
{
    let key = x.key;
    let offset = put_number(out, from, 0, b"found ", x.kind as u64);
    let name = put_number(out, from, offset, b" ", x.offset as u64);
    let end = put_text(out, from, name, b" ", file, key);
    window::put_bytes(out, from, end, b"\n")
}

fn put_member(out: &mut [u8], from: usize, file: &[u8], x: MemberPart) -> usize
    requires { length file.now ≤ file_limit }
    ensures { Passed from 0 (part_text file.now (answer.Member x)) out.old result out.new }
{
    let name = x.name;
    let next = put_number(out, from, 0, b"found ", x.value as u64);
    let end = put_text(out, from, next, b" ", file, name);
    window::put_bytes(out, from, end, b"\n")
}

fn put_typed(out: &mut [u8], from: usize, file: &[u8], x: TypedPart) -> usize
    requires { length file.now ≤ file_limit }
    ensures { Passed from 0 (part_text file.now (answer.Typed x)) out.old result out.new }
{
    let name = x.name;
    let of = x.of;
    let first = put_number(out, from, 0, b"found ", x.kind as u64);
    let second = put_text(out, from, first, b" ", file, name);
    let end = put_text(out, from, second, b" ", file, of);
    window::put_bytes(out, from, end, b"\n")
}

fn put_method(out: &mut [u8], from: usize, file: &[u8], x: MethodPart) -> usize
    requires { length file.now ≤ file_limit }
    ensures { Passed from 0 (part_text file.now (answer.Method x)) out.old result out.new }
{
    let name = x.name;
    let result = x.result;
    let next = put_text(out, from, 0, b"found ", file, name);
    let end = put_text(out, from, next, b" ", file, result);
    window::put_bytes(out, from, end, b"\n")
}

fn put_refused(out: &mut [u8], from: usize, why: Refusal) -> usize
    ensures { Passed from 0 (refused_line why) out.old result out.new }
{
    let place = put_number(out, from, 0, b"refused ", why.no as u64);
    let end = put_number(out, from, place, b" ", why.place as u64);
    window::put_bytes(out, from, end, b"\n")
}

// The whole line is passed; the buffer shows it from byte `from` on.
fn put_part(out: &mut [u8], from: usize, file: &[u8], a: PartAnswer) -> usize
    requires { Small file.now a }
    ensures { Passed from 0 (part_text file.now a) out.old result out.new }
{
    match a {
        PartAnswer::Text(t) => put_alone(out, from, file, t),
        PartAnswer::Entry(x) => put_entry(out, from, file, x),
        PartAnswer::Member(x) => put_member(out, from, file, x),
        PartAnswer::Typed(x) => put_typed(out, from, file, x),
        PartAnswer::Method(x) => put_method(out, from, file, x),
        PartAnswer::None => window::put_bytes(out, from, 0, b"none\n"),
        PartAnswer::Refused(why) => put_refused(out, from, why),
    }
}

/// The bytes of the line from `place` on.
pub fn fill(file: &[u8], a: PartAnswer, place: usize, out: &mut [u8; 65536]) -> Filled
    requires { Small file.now a }
    ensures { Fills (part_text file.now a) place out.old result out.new }
{
    let end = put_part(out, place, file, a);
    if end <= place {
        return Filled {
            length: 0,
            place,
            ends: true,
        };
    }
    let left = end - place;
    if left <= 65536 {
        return Filled {
            length: left,
            place: end,
            ends: true,
        };
    }
    Filled {
        length: 65536,
        place: place + 65536,
        ends: false,
    }
}
