//! The reason of a refusal in plain words: one line for standard error, made whole at the front of a lent buffer.
#![tactic(auto)]

mod length;

ghost use Rattle.std.specs.Prelude.{[], ◌++◌, ◌+◌, ◌≤◌, length};
ghost use Rattle.text.specs.Writing.{Wrote};
ghost use Rattle.failures.specs.Room.{room, word_limit, Made};
ghost use Rattle.ascii.specs.Ascii.{ascii};
ghost use Rattle.decimal.specs.Digits.{digits_of};
ghost use Rattle.text.specs.Line.{newline};
ghost use Rattle.reasons.specs.Refusals.{key_limit, place_text, key_text, where_text, why_text, refused_text, asked_text, united_text};
ghost use Rattle.reasons.specs.Lengths.{said_length, length_text, wrong_length_text};

use failures::ROOM;
use reading::{Refusal, Rule};

// An index in the first of two files, from `at` on.
fn put_index(place: u64, text: &mut [u8; ROOM], at: usize) -> usize
    requires { at + 64 ≤ room }
    ensures { Wrote text.old at ((ascii " at interface " ++ digits_of place) ++ ascii " of the first") result text.new × (result ≤ at + 64) }
{
    let end = text::put_labelled(text, at, b" at interface ", place);
    text::put_bytes(text, end, b" of the first")
}

// What the place counts, from `at` on.
// A number, no enum: the clause promises `place_text` of every number.
fn put_place(no: u8, place: u64, text: &mut [u8; ROOM], at: usize) -> usize
    requires { at + 64 ≤ room }
    ensures { Wrote text.old at (place_text no place) result text.new × (result ≤ at + 64) }
{
    match no {
        20 => at,
        27 => text::put_labelled(text, at, b" at the needed length ", place),
        0..=19 => text::put_labelled(text, at, b" at byte ", place),
        21..=24 => put_index(place, text, at),
        25..=28 => at,
        _ => text::put_labelled(text, at, b" at byte ", place),
    }
}

// The key of an interface, from `at` on.
fn put_key(before: &[u8], key: &[u8], text: &mut [u8; ROOM], at: usize) -> usize
    requires { (length before.now ≤ 8) × ((length key.now ≤ key_limit) × (at + 520 ≤ room)) }
    ensures { Wrote text.old at (key_text before.now key.now) result text.new × (result ≤ at + 520) }
{
    if key.len() == 0 {
        return at;
    }
    let end = text::put_bytes(text, at, before);
    failures::put_shown(text, end, key)
}

// Number, place and key, from `at` on.
fn put_where(why: Refusal, before: &[u8], key: &[u8], text: &mut [u8; ROOM], at: usize) -> usize
    requires { (length before.now ≤ 8) × ((length key.now ≤ key_limit) × (at ≤ 65600)) }
    ensures { Wrote text.old at (where_text why before.now key.now) result text.new × (result ≤ at + 600) }
{
    let no = why.no;
    let place = why.place as u64;
    let placed = text::put_labelled(text, at, b": refused ", no as u64);
    let keyed = put_place(no, place, text, placed);
    put_key(before, key, text, keyed)
}

// Number and place, and how the file's length differs, from `at` on to the line's end.
fn put_wrong(why: Refusal, file: &[u8], text: &mut [u8; ROOM], at: usize) -> usize
    requires { at ≤ 65600 }
    ensures { Wrote text.old at (((where_text why [] [] ++ ascii ": ") ++ length_text file.now (said_length file.now)) ++ newline) result text.new × (result ≤ room) }
{
    let said = length::said_length(file);
    let colon = put_where(why, b"", b"", text, at);
    let rest = text::put_bytes(text, colon, b": ");
    let end = length::put_length(file, said, text, rest);
    text::put_bytes(text, end, b"\n")
}

// Those and the rule, from `at` on to the line's end.
// A number, no enum: the clause promises `why_text` of every number.
fn put_why(
    why: Refusal,
    rule: u8,
    before: &[u8],
    key: &[u8],
    text: &mut [u8; ROOM],
    at: usize,
) -> usize
    requires { (length before.now ≤ 8) × ((length key.now ≤ key_limit) × (at ≤ 65600)) }
    ensures { Wrote text.old at (why_text why rule before.now key.now) result text.new × (result ≤ room) }
{
    let colon = put_where(why, before, key, text, at);
    let rest = text::put_bytes(text, colon, b": ");
    let end = sentences::put_sentence(why.no, rule, text, rest);
    text::put_bytes(text, end, b"\n")
}

/// The refusal of one file: its rule for 8 and 16 (0 for none), and the key of the interface it is of (none where it is empty).
// A number, no enum: the clause promises `refused_text` of every number.
pub fn refused(name: &[u8], why: Refusal, rule: u8, key: &[u8], text: &mut [u8; ROOM]) -> usize
    requires { (length name.now ≤ word_limit) × (length key.now ≤ key_limit) }
    ensures { Made (refused_text name.now why rule key.now) text.old result text.new }
{
    let at = failures::put_named(b"xpt: ", name, text);
    put_why(why, rule, b", in ", key, text, at)
}

/// The refusal of a file whose length is not the one in its header, 29 or 30.
pub fn wrong_length(name: &[u8], file: &[u8], why: Refusal, text: &mut [u8; ROOM]) -> usize
    requires { length name.now ≤ word_limit }
    ensures { Made (wrong_length_text name.now why file.now) text.old result text.new }
{
    let at = failures::put_named(b"xpt: ", name, text);
    put_wrong(why, file, text, at)
}

/// The refusal of a question, 20: by the word that is at fault, 0 for none.
// A number, no enum: the clause promises `asked_text` of every number.
pub fn asked(name: &[u8], word: u8, text: &mut [u8; ROOM]) -> usize
    requires { length name.now ≤ word_limit }
    ensures { Made (asked_text name.now word) text.old result text.new }
{
    refused(name, Rule::Question.at(0), word, b"", text)
}

/// The refusal of the union of two files, and the key of the interface of the first that it is of.
pub fn united(first: &[u8], second: &[u8], why: Refusal, key: &[u8], text: &mut [u8; ROOM]) -> usize
    requires { (length first.now + length second.now ≤ word_limit) × (length key.now ≤ key_limit) }
    ensures { Made (united_text first.now second.now why key.now) text.old result text.new }
{
    let with = failures::put_named(b"xpt: ", first, text);
    let other = text::put_bytes(text, with, b" with ");
    let at = failures::put_shown(text, other, second);
    put_why(why, 0, b", ", key, text, at)
}
