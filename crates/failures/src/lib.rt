//! Lines for people, each made whole at the front of a lent buffer: those that begin with `error`, and those for standard error that go with them.
#![tactic(auto)]

mod reason;

ghost use Rattle.std.specs.Prelude.{◌≡◌, ◌++◌, ◌+◌, ◌≤◌, length};
ghost use Rattle.text.specs.Writing.{Wrote};
ghost use Rattle.failures.specs.Room.{room, word_limit, Made};
ghost use Rattle.failures.specs.Shown.{shown_byte, shown_word};
ghost use Rattle.failures.specs.Lines.{question_words, verb_words, line_too_long_text, arguments_too_long_text, no_command_text, input_in_batch_text, failed_text, unread_text, unwritten_text, taken_text, no_file_text, without_error, naming, name_before, aside_text, hint_text, output_gone_text};

use verbs::{Question, Verb};

/// Bytes of the buffer that a line is made in.
pub const ROOM: usize = 66560;

// ---- mistakes in the words

/// A line that is at hand.
pub fn say(line: &[u8], text: &mut [u8; ROOM]) -> usize
    requires { length line.now ≤ 1024 }
    ensures { Made line.now text.old result text.new }
{
    text::put_bytes(text, 0, line)
}

#[tactic(auto, unfolding(crate::specs::Lines::line_too_long_text))]
pub fn line_too_long(text: &mut [u8; ROOM]) -> usize
    ensures { Made line_too_long_text text.old result text.new }
{
    say(b"error the line has more than 65,535 bytes\n", text)
}

#[tactic(auto, unfolding(crate::specs::Lines::arguments_too_long_text))]
pub fn arguments_too_long(text: &mut [u8; ROOM]) -> usize
    ensures { Made arguments_too_long_text text.old result text.new }
{
    say(b"error the arguments have more than 65,536 bytes\n", text)
}

#[tactic(auto, unfolding(crate::specs::Lines::no_command_text))]
pub fn no_command(text: &mut [u8; ROOM]) -> usize
    ensures { Made no_command_text text.old result text.new }
{
    say(b"error no command\n", text)
}

#[tactic(auto, unfolding(crate::specs::Lines::input_in_batch_text))]
pub fn input_in_batch(text: &mut [u8; ROOM]) -> usize
    ensures { Made input_in_batch_text text.old result text.new }
{
    say(
        b"error - is standard input, which has the commands here\n",
        text,
    )
}

// The words of a command that is answered from one file, from `at` on.
#[tactic(auto, using(crate::proofs::MadeLaws::writing, number::proofs::Choice::tests), unfolding(crate::specs::Lines::question_words))]
fn put_question(question: Question, text: &mut [u8; ROOM], at: usize) -> usize
    requires { at + 64 ≤ room }
    ensures { Wrote text.old at (question_words question) result text.new × (result ≤ at + 64) }
{
    match question {
        Question::Check => text::put_bytes(text, at, b"check FILE"),
        Question::Iid => text::put_bytes(text, at, b"iid FILE HEX"),
        Question::Looks => text::put_bytes(text, at, b"looks FILE HEX"),
        Question::Key => text::put_bytes(text, at, b"key FILE NAMESPACE NAME"),
        Question::Method => text::put_bytes(
            text,
            at,
            b"method FILE INDEX NAME getter|setter|plain",
        ),
        Question::Slot => text::put_bytes(text, at, b"slot FILE INDEX SLOT"),
        Question::Constant => text::put_bytes(text, at, b"const FILE INDEX NAME"),
    }
}

/// The words of a command, from `at` on.
#[tactic(auto, using(crate::proofs::MadeLaws::writing, number::proofs::Choice::tests), unfolding(crate::specs::Lines::verb_words))]
pub fn put_words(verb: Verb, text: &mut [u8; ROOM], at: usize) -> usize
    requires { at + 64 ≤ room }
    ensures { Wrote text.old at (verb_words verb) result text.new × (result ≤ at + 64) }
{
    match verb {
        Verb::Ask(question) => put_question(question, text, at),
        Verb::List => text::put_bytes(text, at, b"list FILE"),
        Verb::Table => text::put_bytes(text, at, b"table FILE NAMESPACE NAME"),
        Verb::Normal => text::put_bytes(text, at, b"normal [-f] FILE OUT"),
        Verb::Adopt => text::put_bytes(text, at, b"adopt [-f] FILE OUT"),
        Verb::Link => text::put_bytes(text, at, b"link [-f] A B .. OUT"),
        Verb::Salvage => text::put_bytes(text, at, b"salvage [-f] FILE OUT"),
        Verb::Unknown => at,
    }
}

// ---- files that cannot be read or written

// A byte as it is shown.
#[tactic(auto, using(crate::proofs::MadeLaws::writing, number::proofs::Choice::tests), unfolding(crate::specs::Shown::shown_byte))]
fn shown(b: u8) -> u8
    ensures { result ≡ shown_byte b }
{
    if b < 32 {
        return 63; // ?
    }
    if b == 127 {
        return 63;
    }
    b
}

/// A word as it is shown, from `at` on.
pub fn put_shown(out: &mut [u8], at: usize, word: &[u8]) -> usize
    requires { at + length word.now ≤ length out.old }
    ensures { Wrote out.old at (shown_word word.now) result out.new × (result ≡ at + length word.now) }
{
    for (i, &b) in word.iter().enumerate() {
        out[at + i] = shown(b);
    }
    at + word.len()
}

/// A label and a name, at the front.
pub fn put_named(label: &[u8], name: &[u8], text: &mut [u8; ROOM]) -> usize
    requires { (length label.now ≤ 64) × (length name.now ≤ word_limit) }
    ensures { Wrote text.old 0 (label.now ++ shown_word name.now) result text.new × (result ≡ length label.now + length name.now) }
{
    let at = text::put_bytes(text, 0, label);
    put_shown(text, at, name)
}

// A name with words before and after it.
fn around(label: &[u8], name: &[u8], rest: &[u8], text: &mut [u8; ROOM]) -> usize
    requires { (length label.now ≤ 64) × ((length name.now ≤ word_limit) × (length rest.now ≤ 128)) }
    ensures { Made ((label.now ++ shown_word name.now) ++ rest.now) text.old result text.new }
{
    let at = put_named(label, name, text);
    text::put_bytes(text, at, rest)
}

// A failed call, by errno's number.
fn failed(label: &[u8], name: &[u8], n: u64, text: &mut [u8; ROOM]) -> usize
    requires { (length label.now ≤ 64) × (length name.now ≤ word_limit) }
    ensures { Made (failed_text label.now name.now n) text.old result text.new }
{
    let colon = put_named(label, name, text);
    let at = text::put_bytes(text, colon, b": ");
    let end = reason::put_reason(n, text, at);
    text::put_bytes(text, end, b"\n")
}

pub fn unread(name: &[u8], error: i32, text: &mut [u8; ROOM]) -> usize
    requires { length name.now ≤ word_limit }
    ensures { Made (unread_text name.now error) text.old result text.new }
{
    let n = signed::unsigned(error);
    failed(b"error cannot read ", name, n, text)
}

pub fn unwritten(name: &[u8], error: i32, text: &mut [u8; ROOM]) -> usize
    requires { length name.now ≤ word_limit }
    ensures { Made (unwritten_text name.now error) text.old result text.new }
{
    let n = signed::unsigned(error);
    failed(b"error cannot write ", name, n, text)
}

/// An output that is there already.
pub fn taken(name: &[u8], text: &mut [u8; ROOM]) -> usize
    requires { length name.now ≤ word_limit }
    ensures { Made (taken_text name.now) text.old result text.new }
{
    around(
        b"error ",
        name,
        b" is there already; with -f before the files it is written over\n",
        text,
    )
}

/// An output that is a folder, a device or the like.
pub fn no_file(name: &[u8], text: &mut [u8; ROOM]) -> usize
    requires { length name.now ≤ word_limit }
    ensures { Made (no_file_text name.now) text.old result text.new }
{
    around(
        b"error cannot write ",
        name,
        b": it is no ordinary file\n",
        text,
    )
}

// ---- standard error

// A name and a colon, from `at` on.
fn put_naming(name: &[u8], text: &mut [u8; ROOM], at: usize) -> usize
    requires { at + (length name.now + 2) ≤ room }
    ensures { Wrote text.old at (naming name.now) result text.new × (result ≡ at + (length name.now + 2)) }
{
    let end = put_shown(text, at, name);
    text::put_bytes(text, end, b": ")
}

// The name before a line, from `at` on.
fn put_before(name: &[u8], line: &[u8], text: &mut [u8; ROOM], at: usize) -> usize
    requires { (at ≤ 5) × (length line.now ≤ room) }
    ensures { Wrote text.old at (name_before name.now line.now) result text.new × ((result ≤ 65600) × (result + length line.now ≤ room + 5)) }
{
    if name.len() == 0 {
        return at;
    }
    if 65536 < name.len() {
        return at;
    }
    if 65536 < name.len() + line.len() {
        return at;
    }
    put_naming(name, text, at)
}

// A line without its `error `, from `at` on.
#[tactic(auto, using(crate::proofs::MadeLaws::writing, number::proofs::Choice::tests), unfolding(crate::specs::Lines::without_error))]
fn put_rest(line: &[u8], text: &mut [u8; ROOM], at: usize) -> usize
    requires { (at ≤ 65600) × (at + length line.now ≤ room + 5) }
    ensures { Wrote text.old at (without_error line.now) result text.new × (result ≤ room) }
{
    if line.len() < 6 {
        return text::put_bytes(text, at, line);
    }
    text::put_bytes(text, at, &line[6..])
}

/// What stands on standard error beside an `error` line about a file.
pub fn aside(name: &[u8], line: &[u8], text: &mut [u8; ROOM]) -> usize
    requires { length line.now ≤ room }
    ensures { Made (aside_text name.now line.now) text.old result text.new }
{
    let at = text::put_bytes(text, 0, b"xpt: ");
    let rest = put_before(name, line, text, at);
    put_rest(line, text, rest)
}

/// After a mistake in the words of a single command.
#[tactic(auto, unfolding(crate::specs::Lines::hint_text))]
pub fn hint(text: &mut [u8; ROOM]) -> usize
    ensures { Made hint_text text.old result text.new }
{
    say(
        b"xpt: `xpt help` shows the commands and their words\n",
        text,
    )
}

#[tactic(auto, unfolding(crate::specs::Lines::output_gone_text))]
pub fn output_gone(text: &mut [u8; ROOM]) -> usize
    ensures { Made output_gone_text text.old result text.new }
{
    say(
        b"xpt: standard output cannot be written; the rest is left out\n",
        text,
    )
}
