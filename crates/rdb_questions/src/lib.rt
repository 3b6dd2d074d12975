//! The answer to a command about a types.rdb, from the words of its line.
#![tactic(auto)]

ghost use Rattle.std.specs.Prelude.{Bool};
ghost use Rattle.words.specs.Words.{words_of, word_in};
ghost use Rattle.said.specs.Saying.{Says};
ghost use Rattle.rdb_said.specs.Sayings.{entity_saying, constant_saying};
ghost use Rattle.streamed.specs.Stream.{Opens};
ghost use Rattle.rdb_questions.specs.Lines.{paths_saying, part_saying, second_saying, inner_saying, types_saying};

use rdb_interface::SetCount;
use rdb_parts::{Inner, Part};
use rdb_tasks::Asked;
use said::{ANSWER_ROOM, Said};
use streamed::Begun;
use words::NumberError;

fn ask_list(m: SetCount, file: &[u8], text: &mut [u8; ANSWER_ROOM]) -> Begun
    ensures { (b : Bool) → Opens b (paths_saying b m file.now) file.now text.old result text.new }
{
    match rdb_file::check(file, m) {
        Ok(_) => streamed::paths(),
        Err(why) => streamed::said(said::refused(why, text)),
    }
}

fn ask_entity(
    m: SetCount,
    line: &[u8],
    separator: u8,
    file: &[u8],
    text: &mut [u8; ANSWER_ROOM],
) -> Said
    ensures { Says (entity_saying m file.now (word_in 3 (words_of separator line.now))) text.old result text.new }
{
    let path = words::word(line, separator, 3);
    let from = path.from;
    let end = path.end;
    rdb_said::entity(file, m, &line[from..end], text)
}

fn ask_constant(
    m: SetCount,
    line: &[u8],
    separator: u8,
    file: &[u8],
    text: &mut [u8; ANSWER_ROOM],
) -> Said
    ensures { Says (constant_saying m file.now (word_in 3 (words_of separator line.now))) text.old result text.new }
{
    let path = words::word(line, separator, 3);
    let from = path.from;
    let end = path.end;
    rdb_said::constant(file, m, &line[from..end], text)
}

// The part at a position that a word spells.
fn part_at(
    file: &[u8],
    m: SetCount,
    path: &[u8],
    which: Part,
    position: &[u8],
    text: &mut [u8; ANSWER_ROOM],
) -> Begun
    ensures { (b : Bool) → Opens b (part_saying m file.now path.now which position.now) file.now text.old result text.new }
{
    match words::number_of(position) {
        Ok(i) => { streamed::tell(rdb_parts::part_by_path(file, m, path, which, i as usize)) }
        Err(NumberError::NotDecimal) => {
            streamed::said(said::mistake(b"error the position is not decimal\n", text))
        }
        Err(NumberError::TooLarge) => streamed::said(said::mistake(
            b"error the position does not fit 64 bits\n",
            text,
        )),
    }
}

// What a list inside part i has at a position that a word spells.
fn inner_at(
    file: &[u8],
    m: SetCount,
    path: &[u8],
    which: Inner,
    i: usize,
    position: &[u8],
    text: &mut [u8; ANSWER_ROOM],
) -> Begun
    ensures { (b : Bool) → Opens b (second_saying m file.now path.now which i position.now) file.now text.old result text.new }
{
    match words::number_of(position) {
        Ok(j) => streamed::tell(rdb_inner::inner_by_path(file, m, path, which, i, j as usize)),
        Err(NumberError::NotDecimal) => streamed::said(said::mistake(
            b"error the second position is not decimal\n",
            text,
        )),
        Err(NumberError::TooLarge) => streamed::said(said::mistake(
            b"error the second position does not fit 64 bits\n",
            text,
        )),
    }
}

// The same, where a word spells i too.
fn inner_of(
    file: &[u8],
    m: SetCount,
    path: &[u8],
    which: Inner,
    first: &[u8],
    second: &[u8],
    text: &mut [u8; ANSWER_ROOM],
) -> Begun
    ensures { (b : Bool) → Opens b (inner_saying m file.now path.now which first.now second.now) file.now text.old result text.new }
{
    match words::number_of(first) {
        Ok(i) => inner_at(file, m, path, which, i as usize, second, text),
        Err(NumberError::NotDecimal) => {
            streamed::said(said::mistake(b"error the position is not decimal\n", text))
        }
        Err(NumberError::TooLarge) => streamed::said(said::mistake(
            b"error the position does not fit 64 bits\n",
            text,
        )),
    }
}

fn ask_part(
    m: SetCount,
    which: Part,
    line: &[u8],
    separator: u8,
    file: &[u8],
    text: &mut [u8; ANSWER_ROOM],
) -> Begun
    ensures { (b : Bool) → Opens b (part_saying m file.now (word_in 3 (words_of separator line.now)) which (word_in 5 (words_of separator line.now))) file.now text.old result text.new }
{
    let path = words::word(line, separator, 3);
    let position = words::word(line, separator, 5);
    let p = path.from;
    let q = path.end;
    let a = position.from;
    let b = position.end;
    part_at(file, m, &line[p..q], which, &line[a..b], text)
}

fn ask_inner(
    m: SetCount,
    which: Inner,
    line: &[u8],
    separator: u8,
    file: &[u8],
    text: &mut [u8; ANSWER_ROOM],
) -> Begun
    ensures { (b : Bool) → Opens b (inner_saying m file.now (word_in 3 (words_of separator line.now)) which (word_in 5 (words_of separator line.now)) (word_in 6 (words_of separator line.now))) file.now text.old result text.new }
{
    let path = words::word(line, separator, 3);
    let first = words::word(line, separator, 5);
    let second = words::word(line, separator, 6);
    let p = path.from;
    let q = path.end;
    let a = first.from;
    let b = first.end;
    let c = second.from;
    let d = second.end;
    inner_of(file, m, &line[p..q], which, &line[a..b], &line[c..d], text)
}

/// What the answer to the words about the file begins with; its name is the third word.
pub fn open(
    m: SetCount,
    asked: Asked,
    line: &[u8],
    separator: u8,
    file: &[u8],
    in_batch: bool,
    text: &mut [u8; ANSWER_ROOM],
) -> Begun
    ensures { Opens in_batch (types_saying in_batch m asked file.now (words_of separator line.now)) file.now text.old result text.new }
{
    match asked {
        Asked::Check => streamed::said(rdb_said::check(file, m, text)),
        Asked::List => ask_list(m, file, text),
        Asked::Entity => streamed::said(ask_entity(m, line, separator, file, text)),
        Asked::Constant => streamed::said(ask_constant(m, line, separator, file, text)),
        Asked::Part(which) => ask_part(m, which, line, separator, file, text),
        Asked::Inner(which) => ask_inner(m, which, line, separator, file, text),
        Asked::Which => streamed::said(rdb_tasks::usage(m, Asked::Which, text)),
        Asked::Unknown => streamed::said(rdb_tasks::usage(m, Asked::Unknown, text)),
    }
}
