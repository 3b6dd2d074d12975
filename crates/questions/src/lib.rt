//! The line that answers a command about a file, from the words of its line.
#![tactic(auto)]

ghost use Rattle.words.specs.Words.{words_of};
ghost use Rattle.said.specs.Saying.{Says};
ghost use Rattle.questions.specs.Lines.{asked_saying};
ghost use Rattle.verbs.specs.declared.Question.TheVariants.{Iid, Looks, Key, Method, Slot, Constant};

use said::{ANSWER_ROOM, Said};
use verbs::Question;

fn ask_iid(line: &[u8], separator: u8, file: &[u8], text: &mut [u8; ANSWER_ROOM]) -> Said
    ensures { Says (asked_saying Iid file.now (words_of separator line.now)) text.old result text.new }
{
    let hex = words::word(line, separator, 2);
    let from = hex.from;
    let end = hex.end;
    answers::iid(file, &line[from..end], text)
}

fn ask_looks(line: &[u8], separator: u8, file: &[u8], text: &mut [u8; ANSWER_ROOM]) -> Said
    ensures { Says (asked_saying Looks file.now (words_of separator line.now)) text.old result text.new }
{
    let hex = words::word(line, separator, 2);
    let from = hex.from;
    let end = hex.end;
    answers::looks(file, &line[from..end], text)
}

fn ask_key(line: &[u8], separator: u8, file: &[u8], text: &mut [u8; ANSWER_ROOM]) -> Said
    ensures { Says (asked_saying Key file.now (words_of separator line.now)) text.old result text.new }
{
    let space = words::word(line, separator, 2);
    let name = words::word(line, separator, 3);
    let a = space.from;
    let b = space.end;
    let c = name.from;
    let d = name.end;
    answers::key(file, &line[a..b], &line[c..d], text)
}

fn ask_method(line: &[u8], separator: u8, file: &[u8], text: &mut [u8; ANSWER_ROOM]) -> Said
    ensures { Says (asked_saying Method file.now (words_of separator line.now)) text.old result text.new }
{
    let index = words::word(line, separator, 2);
    let name = words::word(line, separator, 3);
    let kind = words::word(line, separator, 4);
    let a = index.from;
    let b = index.end;
    let c = name.from;
    let d = name.end;
    let e = kind.from;
    let f = kind.end;
    answers::method(file, &line[a..b], &line[c..d], &line[e..f], text)
}

fn ask_slot(line: &[u8], separator: u8, file: &[u8], text: &mut [u8; ANSWER_ROOM]) -> Said
    ensures { Says (asked_saying Slot file.now (words_of separator line.now)) text.old result text.new }
{
    let index = words::word(line, separator, 2);
    let slot = words::word(line, separator, 3);
    let a = index.from;
    let b = index.end;
    let c = slot.from;
    let d = slot.end;
    answers::slot(file, &line[a..b], &line[c..d], text)
}

fn ask_constant(line: &[u8], separator: u8, file: &[u8], text: &mut [u8; ANSWER_ROOM]) -> Said
    ensures { Says (asked_saying Constant file.now (words_of separator line.now)) text.old result text.new }
{
    let index = words::word(line, separator, 2);
    let name = words::word(line, separator, 3);
    let a = index.from;
    let b = index.end;
    let c = name.from;
    let d = name.end;
    answers::constant(file, &line[a..b], &line[c..d], text)
}

/// The line that answers the words about the file, whose name is the second word.
pub fn ask(
    question: Question,
    line: &[u8],
    separator: u8,
    file: &[u8],
    text: &mut [u8; ANSWER_ROOM],
) -> Said
    ensures { Says (asked_saying question file.now (words_of separator line.now)) text.old result text.new }
{
    match question {
        Question::Check => answers::check(file, text),
        Question::Iid => ask_iid(line, separator, file, text),
        Question::Looks => ask_looks(line, separator, file, text),
        Question::Key => ask_key(line, separator, file, text),
        Question::Method => ask_method(line, separator, file, text),
        Question::Slot => ask_slot(line, separator, file, text),
        Question::Constant => ask_constant(line, separator, file, text),
    }
}
