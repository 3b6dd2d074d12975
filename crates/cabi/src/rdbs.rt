//! A types.rdb for callers in C and Rust: its check, an entity and a constant by path, each by the number of the reading.
ghost use Rattle.numbers.specs.Call.{Called};
ghost use Rattle.numbers.specs.Numbers.{verdict_numbers};
ghost use Rattle.rdb_numbers.specs.Numbers.{check_by, entity_by, constant_by, entity_numbers, constant_numbers};

use crate::{ANSWERED, TOO_SHORT};

/// The check: the refusal's number and its place, or 0 and the number of entries visited for an accepted file.
#[unsafe(no_mangle)]
pub extern "C" fn saniotka_rdb_check(file: &[u8], reading: u64, answer: &mut [u64]) -> i32
    ensures { Called (verdict_numbers (check_by reading file.now)) answer.old result answer.new }
{
    if answer.len() < numbers::ROOM {
        return TOO_SHORT;
    }
    numbers::put_verdict(rdb_numbers::check_by(file, reading), answer);
    ANSWERED
}

/// An entity by its dotted path. Found: its kind byte and offset.
#[unsafe(no_mangle)]
pub extern "C" fn saniotka_rdb_entity(
    file: &[u8],
    reading: u64,
    path: &[u8],
    answer: &mut [u64],
) -> i32
    ensures { Called (entity_numbers (entity_by reading file.now path.now)) answer.old result answer.new }
{
    if answer.len() < numbers::ROOM {
        return TOO_SHORT;
    }
    rdb_numbers::put_entity(file, reading, path, answer);
    ANSWERED
}

/// A constant by its dotted path. Found: its kind, 0 to 9, and the bits of its value, as stored.
#[unsafe(no_mangle)]
pub extern "C" fn saniotka_rdb_constant(
    file: &[u8],
    reading: u64,
    path: &[u8],
    answer: &mut [u64],
) -> i32
    ensures { Called (constant_numbers (constant_by reading file.now path.now)) answer.old result answer.new }
{
    if answer.len() < numbers::ROOM {
        return TOO_SHORT;
    }
    rdb_numbers::put_constant(file, reading, path, answer);
    ANSWERED
}
