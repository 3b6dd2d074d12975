//! The commands of the program `xpt` by name, how many words each has, and lines with an empty word.
#![tactic(auto)]

ghost use Rattle.std.specs.Prelude.{◌≡◌};
ghost use Rattle.words.specs.Words.{words_of};
ghost use Rattle.verbs.specs.Verbs.{member_of, question_of, verb_of, words_in};
ghost use Rattle.verbs.specs.Empty.{has_empty};
ghost use Rattle.verbs.specs.declared.Verb.TheVariants.{Ask};

/// A command that is answered from one file.
#[derive(Clone, Copy, Debug, PartialEq, Eq)]
pub enum Question {
    Check,
    Iid,
    Looks,
    Key,
    Method,
    Slot,
    Constant,
}

/// What the first word of a command asks for.
#[derive(Clone, Copy, Debug, PartialEq, Eq)]
pub enum Verb {
    Ask(Question),
    List,
    Table,
    Normal,
    Adopt,
    Link,
    Salvage,
    Unknown,
}

// `method`, `slot` and `const`.
#[tactic(auto, using(number::proofs::Choice::tests), unfolding(crate::specs::Verbs::member_of))]
fn member_of(word: &[u8]) -> Verb
    ensures { result ≡ member_of word.now }
{
    if words::is_same(word, b"method") {
        return Verb::Ask(Question::Method);
    }
    if words::is_same(word, b"slot") {
        return Verb::Ask(Question::Slot);
    }
    if words::is_same(word, b"const") {
        return Verb::Ask(Question::Constant);
    }
    Verb::Unknown
}

// Those and `check`, `iid`, `looks`, `key`.
#[tactic(auto, using(number::proofs::Choice::tests), unfolding(crate::specs::Verbs::question_of))]
fn question_of(word: &[u8]) -> Verb
    ensures { result ≡ question_of word.now }
{
    if words::is_same(word, b"check") {
        return Verb::Ask(Question::Check);
    }
    if words::is_same(word, b"iid") {
        return Verb::Ask(Question::Iid);
    }
    if words::is_same(word, b"looks") {
        return Verb::Ask(Question::Looks);
    }
    if words::is_same(word, b"key") {
        return Verb::Ask(Question::Key);
    }
    member_of(word)
}

/// The command of a first word.
#[tactic(auto, using(number::proofs::Choice::tests), unfolding(crate::specs::Verbs::verb_of))]
pub fn verb_of(word: &[u8]) -> Verb
    ensures { result ≡ verb_of word.now }
{
    if words::is_same(word, b"list") {
        return Verb::List;
    }
    if words::is_same(word, b"table") {
        return Verb::Table;
    }
    if words::is_same(word, b"normal") {
        return Verb::Normal;
    }
    if words::is_same(word, b"adopt") {
        return Verb::Adopt;
    }
    if words::is_same(word, b"link") {
        return Verb::Link;
    }
    if words::is_same(word, b"salvage") {
        return Verb::Salvage;
    }
    question_of(word)
}

#[tactic(auto, unfolding(crate::specs::Verbs::words_in))]
fn words_asked(question: Question) -> usize
    ensures { result ≡ words_in (Ask question) }
{
    match question {
        Question::Check => 2,
        Question::Iid => 3,
        Question::Looks => 3,
        Question::Key => 4,
        Question::Method => 5,
        Question::Slot => 4,
        Question::Constant => 4,
    }
}

/// How many words the command has, its own among them; 0 for an unknown one.
#[tactic(auto, unfolding(crate::specs::Verbs::words_in))]
pub fn words_of(verb: Verb) -> usize
    ensures { result ≡ words_in verb }
{
    match verb {
        Verb::Ask(question) => words_asked(question),
        Verb::List => 2,
        Verb::Table => 4,
        Verb::Normal => 3,
        Verb::Adopt => 3,
        Verb::Link => 4,
        Verb::Salvage => 3,
        Verb::Unknown => 0,
    }
}

/// Whether a word of the line is empty: a separator at an end, or two in a row; the empty line has one empty word.
#[tactic(auto, using(crate::proofs::EmptyLaws::seeking))]
pub fn has_empty_word(line: &[u8], separator: u8) -> bool
    ensures { result ≡ has_empty (words_of separator line.now) }
{
    let mut is_empty = true;
    for &byte in line {
        let is_end = byte == separator;
        if is_end && is_empty {
            return true;
        }
        is_empty = is_end;
    }
    is_empty // the last word, which no separator ends
}
