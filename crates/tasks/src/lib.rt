//! What a line asks for: a command with its words, or a mistake. Words are parted by a separator, which is a space in a batch and a zero byte between
//! arguments.
#![tactic(auto)]

ghost use Rattle.std.specs.Prelude.{◌≡◌, ◌+◌, ◌≤◌};
ghost use Rattle.words.specs.Words.{words_of, word_in, Spans};
ghost use Rattle.verbs.specs.Verbs.{verb_of};
ghost use Rattle.verbs.specs.declared.Verb.TheVariants.{Ask};
ghost use Rattle.said.specs.Saying.{Says, mistaken};
ghost use Rattle.rdb_tasks.specs.Asked.{is_types};
ghost use Rattle.tasks.specs.Tasks.{in_batch, writes_file, is_forced, shift, pile_task, other_task, verb_task, asked_in, types_task, words_task, line_task, task_of, files_read, files_of, is_writing};
ghost use Rattle.tasks.specs.Mistakes.{usage_text, mistake_text};

use number::PILE_LIMIT;
use rdb_interface::SetCount;
use rdb_tasks::Asked;
use said::{ANSWER_ROOM, Said};
use verbs::{Question, Verb};
use words::Span;

/// What is wrong with a line; `Words` has the command whose words are not as many as it takes, or none that there is, and `TypesWords` a question about a
/// types.rdb.
#[derive(Clone, Copy)]
pub enum Mistake {
    Blank,
    CarriageReturn,
    Spaces,
    Words(Verb),
    Files,
    TypesWords(SetCount, Asked),
}

/// A command, a link of so many files, where they are more than two, or a question about a types.rdb, with how that is read.
#[derive(Clone, Copy)]
pub enum Task {
    Mistaken(Mistake),
    Run(Verb),
    Pile(usize),
    Types(SetCount, Asked),
}

/// Whether the separator is that of a batch.
pub fn in_batch(separator: u8) -> bool
    ensures { result ≡ in_batch separator }
{
    separator == b' '
}

fn writes_file(verb: Verb) -> bool
    ensures { result ≡ writes_file verb }
{
    match verb {
        Verb::Normal => true,
        Verb::Adopt => true,
        Verb::Link => true,
        Verb::Salvage => true,
        _ => false,
    }
}

// The command of the first word.
fn verb_in(line: &[u8], separator: u8) -> Verb
    ensures { result ≡ verb_of (word_in 0 (words_of separator line.now)) }
{
    let first = words::word(line, separator, 0);
    verbs::verb_of(&line[first.from..first.end])
}

// Whether the line asks about a types.rdb.
fn asks_types(line: &[u8], separator: u8) -> bool
    ensures { result ≡ is_types (word_in 0 (words_of separator line.now)) }
{
    let first = words::word(line, separator, 0);
    rdb_tasks::is_types(&line[first.from..first.end])
}

/// Whether `-f` stands before the files of a command that writes one.
pub fn is_forced(line: &[u8], separator: u8) -> bool
    ensures { result ≡ is_forced (words_of separator line.now) }
{
    if writes_file(verb_in(line, separator)) {
        let second = words::word(line, separator, 1);
        return words::is_same(&line[second.from..second.end], b"-f");
    }
    false
}

// How many words more stand before the first file.
fn shift(line: &[u8], separator: u8) -> usize
    ensures { (result ≡ shift (words_of separator line.now)) × (result ≤ 1) }
{
    if asks_types(line, separator) {
        return 1;
    }
    if is_forced(line, separator) {
        return 1;
    }
    0
}

/// The k-th word of the command, from 1; those before the first file are not counted.
pub fn argument(line: &[u8], separator: u8, k: usize) -> Span
    requires { k ≤ 257 }
    ensures { Spans line.now separator (k + shift (words_of separator line.now)) result }
{
    words::word(line, separator, k + shift(line, separator))
}

// A link of n words, which are not those of two files; `more` of them stand before the first file.
fn pile_task(n: usize, more: usize) -> Task
    requires { more ≤ 1 }
    ensures { result ≡ pile_task n more }
{
    if n < 5 + more {
        return Task::Mistaken(Mistake::Words(Verb::Link));
    }
    let files = n - (2 + more);
    if PILE_LIMIT < files {
        return Task::Mistaken(Mistake::Files);
    }
    Task::Pile(files)
}

// A command with another number of words than it takes.
fn other_task(verb: Verb, n: usize, more: usize) -> Task
    requires { more ≤ 1 }
    ensures { result ≡ other_task verb n more }
{
    match verb {
        Verb::Link => pile_task(n, more),
        _ => Task::Mistaken(Mistake::Words(verb)),
    }
}

fn verb_task(line: &[u8], separator: u8) -> Task
    ensures { result ≡ verb_task (words_of separator line.now) }
{
    let verb = verb_in(line, separator);
    let count = words::word_count(line, separator);
    let more = shift(line, separator);
    if count == verbs::words_of(verb) + more {
        return Task::Run(verb);
    }
    other_task(verb, count, more)
}

// What it asks.
fn asked_in(line: &[u8], separator: u8) -> Asked
    ensures { result ≡ asked_in (words_of separator line.now) }
{
    let second = words::word(line, separator, 1);
    let which = words::word(line, separator, 4);
    rdb_tasks::asked_of(&line[second.from..second.end], &line[which.from..which.end])
}

// A question about a types.rdb.
fn types_task(line: &[u8], separator: u8) -> Task
    ensures { result ≡ types_task (words_of separator line.now) }
{
    let first = words::word(line, separator, 0);
    let m = rdb_tasks::reading_of(&line[first.from..first.end]);
    let asked = asked_in(line, separator);
    if rdb_tasks::has_words(asked, words::word_count(line, separator)) {
        return Task::Types(m, asked);
    }
    Task::Mistaken(Mistake::TypesWords(m, asked))
}

fn words_task(line: &[u8], separator: u8) -> Task
    ensures { result ≡ words_task (words_of separator line.now) }
{
    if asks_types(line, separator) {
        return types_task(line, separator);
    }
    verb_task(line, separator)
}

fn line_task(line: &[u8]) -> Task
    ensures { result ≡ line_task line.now }
{
    let n = line.len();
    if n == 0 {
        return Task::Mistaken(Mistake::Blank);
    }
    if line[n - 1] == b'\r' {
        return Task::Mistaken(Mistake::CarriageReturn);
    }
    if verbs::has_empty_word(line, b' ') {
        return Task::Mistaken(Mistake::Spaces);
    }
    words_task(line, b' ')
}

/// What the line asks for.
pub fn task_of(line: &[u8], separator: u8) -> Task
    ensures { result ≡ task_of separator line.now }
{
    if in_batch(separator) {
        return line_task(line);
    }
    words_task(line, separator)
}

fn files_read(verb: Verb) -> usize
    ensures { result ≡ files_read verb }
{
    match verb {
        Verb::Link => 2,
        Verb::Unknown => 0,
        _ => 1,
    }
}

/// How many files it reads.
pub fn files_of(task: Task) -> usize
    ensures { result ≡ files_of task }
{
    match task {
        Task::Mistaken(_) => 0,
        Task::Run(verb) => files_read(verb),
        Task::Pile(n) => n,
        Task::Types(_, _) => 1,
    }
}

/// Whether it writes a file.
pub fn is_writing(task: Task) -> bool
    ensures { result ≡ is_writing task }
{
    match task {
        Task::Mistaken(_) => false,
        Task::Run(verb) => writes_file(verb),
        Task::Pile(_) => true,
        Task::Types(_, _) => false,
    }
}

/// The name of the file that the line writes, which comes after those that it reads.
pub fn output(line: &[u8], separator: u8) -> Span
    ensures { Spans line.now separator ((files_of (task_of separator line.now) + 1) + shift (words_of separator line.now)) result }
{
    let n = files_of(task_of(line, separator));
    argument(line, separator, n + 1)
}

// The words of a question.
fn question_usage(question: Question, text: &mut [u8; ANSWER_ROOM]) -> Said
    ensures { Says (mistaken (usage_text (Ask question))) text.old result text.new }
{
    match question {
        Question::Check => said::mistake(b"error the words are: check FILE\n", text),
        Question::Iid => said::mistake(b"error the words are: iid FILE HEX\n", text),
        Question::Looks => said::mistake(b"error the words are: looks FILE HEX\n", text),
        Question::Key => said::mistake(b"error the words are: key FILE NAMESPACE NAME\n", text),
        Question::Method => said::mistake(
            b"error the words are: method FILE INDEX NAME getter|setter|plain\n",
            text,
        ),
        Question::Slot => said::mistake(b"error the words are: slot FILE INDEX SLOT\n", text),
        Question::Constant => said::mistake(b"error the words are: const FILE INDEX NAME\n", text),
    }
}

// The words that a command takes.
fn usage(verb: Verb, text: &mut [u8; ANSWER_ROOM]) -> Said
    ensures { Says (mistaken (usage_text verb)) text.old result text.new }
{
    match verb {
        Verb::Ask(question) => question_usage(question, text),
        Verb::List => said::mistake(b"error the words are: list FILE\n", text),
        Verb::Table => said::mistake(b"error the words are: table FILE NAMESPACE NAME\n", text),
        Verb::Normal => said::mistake(b"error the words are: normal [-f] FILE OUT\n", text),
        Verb::Adopt => said::mistake(b"error the words are: adopt [-f] FILE OUT\n", text),
        Verb::Link => said::mistake(b"error the words are: link [-f] A B .. OUT\n", text),
        Verb::Salvage => said::mistake(b"error the words are: salvage [-f] FILE OUT\n", text),
        Verb::Unknown => said::mistake(
            b"error unknown command; the commands are: check list table iid looks key method slot const normal adopt link salvage rdb office\n",
            text,
        ),
    }
}

/// The line that tells a mistake.
pub fn tell(what: Mistake, text: &mut [u8; ANSWER_ROOM]) -> Said
    ensures { Says (mistaken (mistake_text what)) text.old result text.new }
{
    match what {
        Mistake::Blank => said::mistake(b"error the line is blank\n", text),
        Mistake::CarriageReturn => said::mistake(
            b"error the line ends in a carriage return; a newline alone ends a line\n",
            text,
        ),
        Mistake::Spaces => said::mistake(
            b"error words are parted by single spaces, with none at the ends of a line\n",
            text,
        ),
        Mistake::Words(verb) => usage(verb, text),
        Mistake::Files => said::mistake(b"error a link takes at most 256 files\n", text),
        Mistake::TypesWords(m, asked) => rdb_tasks::usage(m, asked, text),
    }
}
