//! What a line asks about a types.rdb, by its second word, with `part` its fifth too, and the number of its words.
#![tactic(auto)]

ghost use Rattle.std.specs.Prelude.{◌≡◌, ◌+◌, ◌≤◌};
ghost use Rattle.text.specs.Writing.{Wrote};
ghost use Rattle.said.specs.Saying.{Says, mistaken};
ghost use Rattle.rdb_tasks.specs.Asked.{is_types, reading_of, list_of, note_of, which_of, asked_of, has_words, command_name, asked_words, usage_text};

use rdb_interface::SetCount;
use rdb_parts::{Inner, Part};
use said::{ANSWER_ROOM, Said, Why};

/// `Part` and `Inner` ask for a part of an entity, and `Which` for one that there is not.
#[derive(Clone, Copy, Debug, PartialEq, Eq)]
pub enum Asked {
    Check,
    List,
    Entity,
    Constant,
    Part(Part),
    Inner(Inner),
    Which,
    Unknown,
}

/// Whether the first word is one of a command about a types.rdb.
pub fn is_types(word: &[u8]) -> bool
    ensures { result ≡ is_types word.now }
{
    if words::is_same(word, b"rdb") {
        return true;
    }
    words::is_same(word, b"office")
}

/// How it has the file read.
pub fn reading_of(word: &[u8]) -> SetCount
    ensures { result ≡ reading_of word.now }
{
    if words::is_same(word, b"office") {
        return SetCount::UnlessReadOnly;
    }
    SetCount::Always
}

// A list of a part that is no annotations.
fn list_of(word: &[u8]) -> Asked
    ensures { result ≡ list_of word.now }
{
    if words::is_same(word, b"get-exception") {
        return Asked::Inner(Inner::GetException);
    }
    if words::is_same(word, b"set-exception") {
        return Asked::Inner(Inner::SetException);
    }
    if words::is_same(word, b"parameter") {
        return Asked::Inner(Inner::Parameter);
    }
    if words::is_same(word, b"exception") {
        return Asked::Inner(Inner::Exception);
    }
    Asked::Which
}

// The annotations of a part, or that.
fn note_of(word: &[u8]) -> Asked
    ensures { result ≡ note_of word.now }
{
    if words::is_same(word, b"entry-note") {
        return Asked::Inner(Inner::EntryNote);
    }
    if words::is_same(word, b"member-note") {
        return Asked::Inner(Inner::MemberNote);
    }
    if words::is_same(word, b"base-note") {
        return Asked::Inner(Inner::BaseNote);
    }
    if words::is_same(word, b"optional-note") {
        return Asked::Inner(Inner::OptionalNote);
    }
    if words::is_same(word, b"attribute-note") {
        return Asked::Inner(Inner::AttributeNote);
    }
    if words::is_same(word, b"method-note") {
        return Asked::Inner(Inner::MethodNote);
    }
    list_of(word)
}

// A list of the entity itself, or that.
fn which_of(word: &[u8]) -> Asked
    ensures { result ≡ which_of word.now }
{
    if words::is_same(word, b"entry") {
        return Asked::Part(Part::Entry);
    }
    if words::is_same(word, b"member") {
        return Asked::Part(Part::Member);
    }
    if words::is_same(word, b"base") {
        return Asked::Part(Part::Base);
    }
    if words::is_same(word, b"optional") {
        return Asked::Part(Part::Optional);
    }
    if words::is_same(word, b"attribute") {
        return Asked::Part(Part::Attribute);
    }
    if words::is_same(word, b"method") {
        return Asked::Part(Part::Method);
    }
    if words::is_same(word, b"note") {
        return Asked::Part(Part::Note);
    }
    note_of(word)
}

/// What the second word asks for, and with `part` the fifth.
pub fn asked_of(word: &[u8], which: &[u8]) -> Asked
    ensures { result ≡ asked_of word.now which.now }
{
    if words::is_same(word, b"check") {
        return Asked::Check;
    }
    if words::is_same(word, b"list") {
        return Asked::List;
    }
    if words::is_same(word, b"entity") {
        return Asked::Entity;
    }
    if words::is_same(word, b"const") {
        return Asked::Constant;
    }
    if words::is_same(word, b"part") {
        return which_of(which);
    }
    Asked::Unknown
}

/// Whether it has that many words.
pub fn has_words(asked: Asked, n: usize) -> bool
    ensures { result ≡ has_words asked n }
{
    match asked {
        Asked::Check => n == 3,
        Asked::List => n == 3,
        Asked::Entity => n == 4,
        Asked::Constant => n == 4,
        Asked::Part(_) => n == 6,
        Asked::Inner(_) => n == 7,
        Asked::Which => false,
        Asked::Unknown => false,
    }
}

// The command that reads a file so.
fn put_name(m: SetCount, text: &mut [u8; ANSWER_ROOM], at: usize) -> usize
    requires { at ≤ 64 }
    ensures { Wrote text.old at (command_name m) result text.new × (result ≤ at + 8) }
{
    match m {
        SetCount::Always => text::put_bytes(text, at, b"rdb"),
        SetCount::UnlessReadOnly => text::put_bytes(text, at, b"office"),
    }
}

// The words that follow it.
fn put_words(asked: Asked, text: &mut [u8; ANSWER_ROOM], at: usize) -> usize
    requires { at ≤ 128 }
    ensures { Wrote text.old at (asked_words asked) result text.new × (result ≤ at + 256) }
{
    match asked {
        Asked::Check => text::put_bytes(text, at, b" check FILE"),
        Asked::List => text::put_bytes(text, at, b" list FILE"),
        Asked::Entity => text::put_bytes(text, at, b" entity FILE PATH"),
        Asked::Constant => text::put_bytes(text, at, b" const FILE PATH"),
        Asked::Part(_) => text::put_bytes(
            text,
            at,
            b" part FILE PATH entry|member|base|optional|attribute|method|note I",
        ),
        Asked::Inner(_) => text::put_bytes(
            text,
            at,
            b" part FILE PATH entry-note|member-note|base-note|optional-note|get-exception|set-exception|attribute-note|parameter|exception|method-note I J",
        ),
        Asked::Which => text::put_bytes(
            text,
            at,
            b" part FILE PATH entry|member|base|optional|attribute|method|note I, or entry-note|member-note|base-note|optional-note|get-exception|set-exception|attribute-note|parameter|exception|method-note I J",
        ),
        Asked::Unknown => text::put_bytes(text, at, b" check|list|entity|const|part FILE .."),
    }
}

/// The words that a command takes.
pub fn usage(m: SetCount, asked: Asked, text: &mut [u8; ANSWER_ROOM]) -> Said
    ensures { Says (mistaken (usage_text m asked)) text.old result text.new }
{
    let name = text::put_bytes(text, 0, b"error the words are: ");
    let words = put_name(m, text, name);
    let end = put_words(asked, text, words);
    let length = text::put_bytes(text, end, b"\n");
    Said {
        length,
        why: Why::Mistaken,
    }
}
