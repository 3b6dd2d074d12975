//! The answer to a line, from its bytes and those of the files that it names to the bytes of the text and of the output.
#![tactic(auto)]

ghost use Rattle.std.specs.Prelude.{◌≡◌, List, ℕ};
ghost use Rattle.words.specs.Words.{words_of};
ghost use Rattle.verbs.specs.declared.Verb.TheVariants as verb;
ghost use Rattle.tasks.specs.Tasks.{in_batch};
ghost use Rattle.commands.specs.Answer.{silence, one_line, opened_reply, made_reply, verb_answer, answer_of, Replies};

use link::Which;
use made::Made;
use number::FILE_LIMIT;
use said::{ANSWER_ROOM, Said, Why};
use streamed::{Begun, Stream};
use tasks::{Mistake, Task};
use verbs::Verb;

/// What was put at the front of the text and why, what is left of the answer after it, of which file a refusal is, and what is to be saved.
#[derive(Drop)]
pub struct Reply {
    pub said: Said,
    pub rest: Stream,
    pub whose: Which,
    pub save: Option<usize>,
}

// Nothing is said.
fn silent() -> Said
    ensures { result ≡ silence }
{
    Said {
        length: 0,
        why: Why::Answered,
    }
}

// An answer of one line from the first file.
fn answered(said: Said) -> Reply
    ensures { result ≡ one_line said }
{
    Reply {
        said,
        rest: streamed::no_rest(),
        whose: Which::First,
        save: None,
    }
}

// What an answer from the first file begins with.
fn opened(begun: Begun) -> Reply
    ensures { result ≡ opened_reply begun }
{
    let said = begun.said;
    let rest = begun.rest;
    Reply {
        said,
        rest,
        whose: Which::First,
        save: None,
    }
}

// What was made, with nothing left of its answer.
fn written(made: Made) -> Reply
    ensures { result ≡ made_reply made }
{
    let said = made.said;
    let whose = made.whose;
    let save = made.save;
    Reply {
        said,
        rest: streamed::no_rest(),
        whose,
        save,
    }
}

// The command `list`.
fn list(file: &[u8], in_batch: bool, text: &mut [u8; ANSWER_ROOM]) -> Reply
    ensures { (ws : List (List ℕ)) (second out : List ℕ) → Replies in_batch (verb_answer in_batch verb.List ws file.now second out) file.now text.old result out text.new }
{
    opened(streamed::listing(listed::open(file, in_batch, text)))
}

// The command `table`.
fn table(
    line: &[u8],
    separator: u8,
    file: &[u8],
    in_batch: bool,
    text: &mut [u8; ANSWER_ROOM],
) -> Reply
    ensures { (second out : List ℕ) → Replies in_batch (verb_answer in_batch verb.Table (words_of separator line.now) file.now second out) file.now text.old result out text.new }
{
    let space = words::word(line, separator, 2);
    let name = words::word(line, separator, 3);
    let a = space.from;
    let b = space.end;
    let c = name.from;
    let d = name.end;
    opened(streamed::listing(tabled::open(file, &line[a..b], &line[c..d], in_batch, text)))
}

// The command of a line with as many words as it takes.
fn run(
    verb: Verb,
    line: &[u8],
    separator: u8,
    first: &[u8],
    second: &[u8],
    out: &mut [u8],
    work: &mut [u8; FILE_LIMIT],
    text: &mut [u8; ANSWER_ROOM],
) -> Reply
    ensures { Replies (in_batch separator) (verb_answer (in_batch separator) verb (words_of separator line.now) first.now second.now out.old) first.now text.old result out.new text.new }
{
    match verb {
        Verb::Ask(question) => answered(questions::ask(question, line, separator, first, text)),
        Verb::List => list(first, tasks::in_batch(separator), text),
        Verb::Table => table(line, separator, first, tasks::in_batch(separator), text),
        Verb::Normal => written(made::normal(first, out, text)),
        Verb::Adopt => written(made::adopt(first, out, text)),
        Verb::Link => written(made::link(first, second, out, text)),
        Verb::Salvage => written(made::salvage(first, tasks::in_batch(separator), out, work, text)),
        Verb::Unknown => answered(tasks::tell(Mistake::Words(Verb::Unknown), text)),
    }
}

/// The answer to a line about the bytes of the file or files that it names, with room for a copy of one; a command that reads one file does not look at the second, and a pile is answered elsewhere (crate `piling`).
pub fn answer(
    line: &[u8],
    separator: u8,
    first: &[u8],
    second: &[u8],
    out: &mut [u8],
    work: &mut [u8; FILE_LIMIT],
    text: &mut [u8; ANSWER_ROOM],
) -> Reply
    ensures { Replies (in_batch separator) (answer_of separator line.now first.now second.now out.old) first.now text.old result out.new text.new }
{
    match tasks::task_of(line, separator) {
        Task::Mistaken(what) => answered(tasks::tell(what, text)),
        Task::Run(verb) => run(verb, line, separator, first, second, out, work, text),
        Task::Pile(_) => answered(silent()),
        Task::Types(m, asked) => opened(rdb_questions::open(
            m,
            asked,
            line,
            separator,
            first,
            tasks::in_batch(separator),
            text,
        )),
    }
}
