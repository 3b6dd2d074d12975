//! The table of an interface as an answer: its first line, where it has one, and what is left after it.
#![tactic(auto)]

ghost use Rattle.std.specs.Prelude.{List, ℕ, ◌≤◌, Ok, Some};
ghost use Rattle.reader.specs.Values.{Entry};
ghost use Rattle.reader.specs.Reader.{decode};
ghost use Rattle.reader.specs.Layout.{LaidOut, Lies};
ghost use Rattle.lookup.specs.Question.{key_answer};
ghost use Rattle.listed.specs.Rest.{Opens};
ghost use Rattle.tabled.specs.Text.{keyed_saying, decoded_saying, table_saying};

use lines::Cursor;
use listed::Opened;
use lookup::Slot;
use reader::Layout;
use said::{ANSWER_ROOM, Said, Why};

// The table of the interface of an index.
fn of_index(
    file: &[u8],
    l: Layout,
    index: usize,
    in_batch: bool,
    text: &mut [u8; ANSWER_ROOM],
) -> Opened
    requires { Lies file.now l × (1 ≤ index) × (index ≤ l.count) }
    ensures { (es : List (Entry ℕ)) → LaidOut file.now l es → Opens in_batch (keyed_saying in_batch es (Ok (Some index))) file.now text.old result text.new }
{
    let table = slots::begin(file, l, index);
    let total = table.slot;
    let rest = listed::rest_of(l, Cursor::AtTable(table), in_batch);
    match total {
        Slot::Known(_) => Opened {
            said: Said {
                length: 0,
                why: Why::Answered,
            },
            rest,
        },
        Slot::Undetermined(ancestor) => {
            let said = said::numbered(b"undetermined ", ancestor as u64, text);
            listed::tab(text, said.length, in_batch);
            Opened { said, rest }
        }
    }
}

// The table of the interface of a key.
fn of_key(
    file: &[u8],
    l: Layout,
    space: &[u8],
    name: &[u8],
    in_batch: bool,
    text: &mut [u8; ANSWER_ROOM],
) -> Opened
    requires { Lies file.now l }
    ensures { (es : List (Entry ℕ)) → LaidOut file.now l es → Opens in_batch (keyed_saying in_batch es (key_answer es space.now name.now)) file.now text.old result text.new }
{
    match lookup::interfaces::by_key(file, l, space, name) {
        Ok(Some(index)) => of_index(file, l, index, in_batch, text),
        Ok(None) => Opened {
            said: sayings::interface(Ok(None), text),
            rest: listed::no_rest(),
        },
        Err(why) => Opened {
            said: sayings::interface(Err(why), text),
            rest: listed::no_rest(),
        },
    }
}

// The same, the file being checked first; an empty namespace asks for the default.
fn of_file(
    file: &[u8],
    space: &[u8],
    name: &[u8],
    in_batch: bool,
    text: &mut [u8; ANSWER_ROOM],
) -> Opened
    ensures { Opens in_batch (decoded_saying in_batch (decode file.now) space.now name.now) file.now text.old result text.new }
{
    match reader::check(file) {
        Ok(_) => { of_key(file, reader::layout_of(file), space, name, in_batch, text) }
        Err(why) => Opened {
            said: sayings::interface(Err(why), text),
            rest: listed::no_rest(),
        },
    }
}

/// The table of the interface that two words name; `-` is the default namespace, and so is an empty word.
pub fn open(
    file: &[u8],
    space: &[u8],
    name: &[u8],
    in_batch: bool,
    text: &mut [u8; ANSWER_ROOM],
) -> Opened
    ensures { Opens in_batch (table_saying in_batch file.now space.now name.now) file.now text.old result text.new }
{
    if words::is_same(space, b"-") {
        return of_file(file, &space[0..0], name, in_batch, text);
    }
    of_file(file, space, name, in_batch, text)
}
