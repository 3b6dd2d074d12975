//! The help, whole and of one command, and the version, each made at the front of a lent buffer.
#![tactic(auto)]

ghost use Rattle.std.specs.Prelude.{◌+◌, ◌≤◌};
ghost use Rattle.text.specs.Writing.{Wrote};
ghost use Rattle.failures.specs.Room.{room, Made};
ghost use Rattle.manual.specs.Manual.{answer_text, purpose_text, entry_text, asking_text, member_text, types_text, output_text, note_text, help_text, help_of, version_text};

use failures::ROOM;
use verbs::{Question, Verb};

// What a question is answered with, from `at` on.
fn put_answer(question: Question, text: &mut [u8; ROOM], at: usize) -> usize
    requires { at + 128 ≤ room }
    ensures { Wrote text.old at (answer_text question) result text.new × (result ≤ at + 128) }
{
    match question {
        Question::Check => text::put_bytes(
            text,
            at,
            b"accepted and the number of interfaces, or refused with a number and a place",
        ),
        Question::Iid => text::put_bytes(
            text,
            at,
            b"found and the index of the interface with this IID, or none",
        ),
        Question::Looks => text::put_bytes(
            text,
            at,
            b"found and the index of the interface with this IID, or none, and how many entries were looked at",
        ),
        Question::Key => text::put_bytes(
            text,
            at,
            b"found and the index of the interface of this name, or none; - is the default namespace",
        ),
        Question::Method => text::put_bytes(
            text,
            at,
            b"found, the index of the interface that has the method, its position there, slot, distance and total",
        ),
        Question::Slot => text::put_bytes(
            text,
            at,
            b"the method in this slot, told in the same way",
        ),
        Question::Constant => text::put_bytes(
            text,
            at,
            b"found, the type of the constant and its value",
        ),
    }
}

// What a command is for, from `at` on.
fn put_purpose(verb: Verb, text: &mut [u8; ROOM], at: usize) -> usize
    requires { at + 128 ≤ room }
    ensures { Wrote text.old at (purpose_text verb) result text.new × (result ≤ at + 128) }
{
    match verb {
        Verb::Ask(question) => put_answer(question, text, at),
        Verb::List => text::put_bytes(text, at, b"every interface with its methods and constants"),
        Verb::Table => text::put_bytes(
            text,
            at,
            b"every slot of the interface of this name in order, inherited ones first; ? for a slot that is not known",
        ),
        Verb::Normal => text::put_bytes(text, at, b"writes the normal form of FILE to OUT"),
        Verb::Adopt => text::put_bytes(
            text,
            at,
            b"writes a FILE of libxpt, its directory counted from 1, to OUT in the published layout",
        ),
        Verb::Link => text::put_bytes(
            text,
            at,
            b"writes the union of two files or more, up to 256, to OUT",
        ),
        Verb::Salvage => text::put_bytes(
            text,
            at,
            b"writes a damaged FILE without its broken descriptors to OUT, and tells index in FILE, refusal and place of each",
        ),
        Verb::Unknown => at,
    }
}

// The two lines of a command, from `at` on.
fn put_entry(verb: Verb, text: &mut [u8; ROOM], at: usize) -> usize
    requires { at + 256 ≤ room }
    ensures { Wrote text.old at (entry_text verb) result text.new × (result ≤ at + 256) }
{
    let words = text::put_bytes(text, at, b"xpt ");
    let end = failures::put_words(verb, text, words);
    let purpose = text::put_bytes(text, end, b"\n    ");
    let last = put_purpose(verb, text, purpose);
    text::put_bytes(text, last, b"\n")
}

fn put_asking(text: &mut [u8; ROOM], at: usize) -> usize
    requires { at + 1536 ≤ room }
    ensures { Wrote text.old at asking_text result text.new × (result ≤ at + 1536) }
{
    let list = put_entry(Verb::Ask(Question::Check), text, at);
    let table = put_entry(Verb::List, text, list);
    let iid = put_entry(Verb::Table, text, table);
    let looks = put_entry(Verb::Ask(Question::Iid), text, iid);
    let key = put_entry(Verb::Ask(Question::Looks), text, looks);
    put_entry(Verb::Ask(Question::Key), text, key)
}

fn put_members(text: &mut [u8; ROOM], at: usize) -> usize
    requires { at + 1024 ≤ room }
    ensures { Wrote text.old at member_text result text.new × (result ≤ at + 1024) }
{
    let slot = put_entry(Verb::Ask(Question::Method), text, at);
    let constant = put_entry(Verb::Ask(Question::Slot), text, slot);
    put_entry(Verb::Ask(Question::Constant), text, constant)
}

fn put_types(text: &mut [u8; ROOM], at: usize) -> usize
    requires { at + 2048 ≤ room }
    ensures { Wrote text.old at types_text result text.new × (result ≤ at + 2048) }
{
    let list = text::put_bytes(
        text,
        at,
        b"xpt rdb check FILE\n    accepted and the number of entries visited, or refused with a number and a place; FILE is a types.rdb\n",
    );
    let entity = text::put_bytes(
        text,
        list,
        b"xpt rdb list FILE\n    every path, with E, the kind byte and the offset of an entity, or C, the type and the value of a constant\n",
    );
    let constant = text::put_bytes(
        text,
        entity,
        b"xpt rdb entity FILE PATH\n    found, the kind byte and the offset of what the dotted path leads to, or none\n",
    );
    let part = text::put_bytes(
        text,
        constant,
        b"xpt rdb const FILE PATH\n    found, the type of the constant and its value, the bits of a float or double in hexadecimal, or none\n",
    );
    let office = text::put_bytes(
        text,
        part,
        b"xpt rdb part FILE PATH WHICH I [J]\n    found and part I of what the path leads to, or none: WHICH is entry, member, base, optional, attribute, method or note\n    with J what that part has at J: entry-note, member-note, base-note, optional-note, get-exception, set-exception, attribute-note, parameter, exception or method-note\n",
    );
    text::put_bytes(
        text,
        office,
        b"xpt office check|list|entity|const|part ..\n    the same where read-only attributes have no set exceptions, as office suites write them\n",
    )
}

fn put_outputs(text: &mut [u8; ROOM], at: usize) -> usize
    requires { at + 1536 ≤ room }
    ensures { Wrote text.old at output_text result text.new × (result ≤ at + 1536) }
{
    let adopt = put_entry(Verb::Normal, text, at);
    let link = put_entry(Verb::Adopt, text, adopt);
    let salvage = put_entry(Verb::Link, text, link);
    let batch = put_entry(Verb::Salvage, text, salvage);
    let options = text::put_bytes(
        text,
        batch,
        b"xpt batch\n    takes one command a line from standard input, without the word xpt\n",
    );
    text::put_bytes(
        text,
        options,
        b"xpt COMMAND --help, xpt --version\n    one command of these; the version and the kit that proved it\n\n",
    )
}

fn put_notes(text: &mut [u8; ROOM], at: usize) -> usize
    requires { at + 1024 ≤ room }
    ensures { Wrote text.old at note_text result text.new × (result ≤ at + 1024) }
{
    let hex = text::put_bytes(
        text,
        at,
        b"FILE, A, B and so on are typelibs, but for rdb and office; - is standard input. An OUT that is there already is written over with -f only.\n",
    );
    let index = text::put_bytes(
        text,
        hex,
        b"HEX is an IID: 32 hexadecimal digits, or in groups of 8-4-4-4-12, with braces around them or without.\n",
    );
    let stream = text::put_bytes(
        text,
        index,
        b"INDEX counts interfaces from 1, as `xpt list` shows them; SLOT counts from 0.\n",
    );
    text::put_bytes(
        text,
        stream,
        b"The answer stands on standard output; the reason of a refusal or an error stands on standard error.\n",
    )
}

pub fn help(text: &mut [u8; ROOM]) -> usize
    ensures { Made help_text text.old result text.new }
{
    let asking = text::put_bytes(
        text,
        0,
        b"xpt checks, lists, asks, adopts, normalises, links and salvages XPCOM typelibs. Each answer is one line on standard output, but for a listing, a table and what was salvaged.\n\n",
    );
    let members = put_asking(text, asking);
    let types = put_members(text, members);
    let outputs = put_types(text, types);
    let notes = put_outputs(text, outputs);
    put_notes(text, notes)
}

// The help of a known command.
fn one(verb: Verb, text: &mut [u8; ROOM]) -> usize
    ensures { Made (entry_text verb) text.old result text.new }
{
    put_entry(verb, text, 0)
}

/// The help of a command; the whole help where it is unknown.
pub fn help_of(verb: Verb, text: &mut [u8; ROOM]) -> usize
    ensures { Made (help_of verb) text.old result text.new }
{
    match verb {
        Verb::Unknown => help(text),
        _ => one(verb, text),
    }
}

/// The help of the commands about a types.rdb.
pub fn types_help(text: &mut [u8; ROOM]) -> usize
    ensures { Made types_text text.old result text.new }
{
    put_types(text, 0)
}

/// The program's version, and the kit that it is proved and built with.
pub fn version(text: &mut [u8; ROOM]) -> usize
    ensures { Made version_text text.old result text.new }
{
    failures::say(b"xpt 2.0 (rattle-kit-13f logic dac8208d650f15bf)\n", text)
}
