//! The lines that answer questions about a types.rdb: its check, an entity by its path, a constant.
#![tactic(auto)]

ghost use Rattle.std.specs.Prelude.{◌≤◌, length, Ok, Some};
ghost use Rattle.number.specs.Limits.{file_limit};
ghost use Rattle.reading.specs.Got.{Accepted};
ghost use Rattle.rdb_record.specs.Constant.{read_constant};
ghost use Rattle.rdb_path.specs.Path.{cut, constant_at};
ghost use Rattle.rdb_path.specs.Reached.{Checked};
ghost use Rattle.rdb.specs.Questions.{constant_said, constant_found};
ghost use Rattle.said.specs.Saying.{Says};
ghost use Rattle.rdb_said.specs.Sayings.{say_entity, say_constant, check_saying, entity_saying, constant_saying};

use rdb::Entity;
use rdb_interface::SetCount;
use said::{ANSWER_ROOM, Said, Why};

/// The check of a file.
pub fn check(file: &[u8], m: SetCount, line: &mut [u8; ANSWER_ROOM]) -> Said
    ensures { Says (check_saying m file.now) line.old result line.new }
{
    match rdb_file::check(file, m) {
        Ok(n) => said::numbered(b"accepted ", n as u64, line),
        Err(why) => said::refused(why, line),
    }
}

// An entity that was found: its kind byte and its offset.
fn found_entity(x: Entity, line: &mut [u8; ANSWER_ROOM]) -> Said
    ensures { Says (say_entity (Ok (Some x))) line.old result line.new }
{
    let kind = x.kind as u64;
    let offset = x.offset as u64;
    let space = text::put_labelled(line, 0, b"found ", kind);
    let end = text::put_labelled(line, space, b" ", offset);
    let length = text::put_bytes(line, end, b"\n");
    Said {
        length,
        why: Why::Answered,
    }
}

/// The entity that a dotted path leads to.
pub fn entity(file: &[u8], m: SetCount, path: &[u8], line: &mut [u8; ANSWER_ROOM]) -> Said
    ensures { Says (entity_saying m file.now path.now) line.old result line.new }
{
    match rdb::entity_by_path(file, m, path) {
        Ok(Some(x)) => found_entity(x, line),
        Ok(None) => sayings::interface(Ok(None), line),
        Err(why) => said::refused(why, line),
    }
}

// The value of the constant whose kind byte is at o.
fn value(file: &[u8], o: usize, line: &mut [u8; ANSWER_ROOM]) -> Said
    requires { (length file.now ≤ file_limit) × Accepted (read_constant file.now o) }
    ensures { Says (say_constant (constant_said (read_constant file.now o))) line.old result line.new }
{
    let at = text::put_bytes(line, 0, b"found ");
    let end = rdb_shown::put_value(line, at, file, o);
    let length = text::put_bytes(line, end, b"\n");
    Said {
        length,
        why: Why::Answered,
    }
}

// Of a file that was accepted.
fn found_constant(file: &[u8], path: &[u8], line: &mut [u8; ANSWER_ROOM]) -> Said
    requires { Checked file.now }
    ensures { Says (say_constant (constant_found file.now (constant_at file.now (cut path.now)))) line.old result line.new }
{
    match rdb_path::constant_at(file, path) {
        Some(o) => value(file, o, line),
        None => sayings::interface(Ok(None), line),
    }
}

/// The constant that a dotted path leads to.
pub fn constant(file: &[u8], m: SetCount, path: &[u8], line: &mut [u8; ANSWER_ROOM]) -> Said
    ensures { Says (constant_saying m file.now path.now) line.old result line.new }
{
    match rdb_file::check(file, m) {
        Ok(_) => found_constant(file, path, line),
        Err(why) => said::refused(why, line),
    }
}
