//! The line that answers each command about a file, at the front of a buffer.
#![tactic(auto)]

ghost use Rattle.said.specs.Saying.{Says};
ghost use Rattle.sayings.specs.Sayings.{say_method};
ghost use Rattle.answers.specs.Commands.{check_saying, digits_saying, iid_saying, counted_saying, looks_saying, key_saying, method_saying, slot_saying, constant_saying, with_slot, with_kind};
ghost use Rattle.reader.specs.Reader.{decode};
ghost use Rattle.lookup.specs.Question.{ask_method, ask_slot};
ghost use Rattle.words.specs.Numbers.{number_of};

use lookup::Kind;
use said::{ANSWER_ROOM, Said};
use words::{HexError, NumberError};

/// The check of a file.
pub fn check(file: &[u8], line: &mut [u8; ANSWER_ROOM]) -> Said
    ensures { Says (check_saying file.now) line.old result line.new }
{
    match reader::check(file) {
        Ok(n) => said::numbered(b"accepted ", n as u64, line),
        Err(why) => said::refused(why, line),
    }
}

// Interface by an IID's digits. Those of another length are asked as no bytes, which is malformed too.
fn of_digits(file: &[u8], hex: &[u8], line: &mut [u8; ANSWER_ROOM]) -> Said
    ensures { Says (digits_saying file.now hex.now) line.old result line.new }
{
    let mut bytes = [0u8; 16];
    match words::iid_bytes(hex, &mut bytes) {
        Ok(()) => sayings::interface(lookup::interface_by_iid(file, &bytes), line),
        Err(HexError::OtherLength) => sayings::interface(
            lookup::interface_by_iid(file, &hex[0..0]),
            line,
        ),
        Err(HexError::NotHex) => said::mistake(
            b"error the IID is not hexadecimal digits in pairs\n",
            line,
        ),
    }
}

/// Interface by IID: its digits, or these with hyphens, bare or in braces.
pub fn iid(file: &[u8], hex: &[u8], line: &mut [u8; ANSWER_ROOM]) -> Said
    ensures { Says (iid_saying file.now hex.now) line.old result line.new }
{
    let mut digits = [0u8; 32];
    if guids::plain(hex, &mut digits) {
        return of_digits(file, &digits, line);
    }
    of_digits(file, hex, line)
}

// The same, with the number of entries looked at.
fn counted(file: &[u8], hex: &[u8], line: &mut [u8; ANSWER_ROOM]) -> Said
    ensures { Says (counted_saying file.now hex.now) line.old result line.new }
{
    let mut bytes = [0u8; 16];
    match words::iid_bytes(hex, &mut bytes) {
        Ok(()) => sayings::counted(lookup::interface_by_iid_counted(file, &bytes), line),
        Err(HexError::OtherLength) => sayings::counted(
            lookup::interface_by_iid_counted(file, &hex[0..0]),
            line,
        ),
        Err(HexError::NotHex) => said::mistake(
            b"error the IID is not hexadecimal digits in pairs\n",
            line,
        ),
    }
}

pub fn looks(file: &[u8], hex: &[u8], line: &mut [u8; ANSWER_ROOM]) -> Said
    ensures { Says (looks_saying file.now hex.now) line.old result line.new }
{
    let mut digits = [0u8; 32];
    if guids::plain(hex, &mut digits) {
        return counted(file, &digits, line);
    }
    counted(file, hex, line)
}

/// Interface by key; `-` is the default namespace, and so is an empty word.
pub fn key(file: &[u8], space: &[u8], name: &[u8], line: &mut [u8; ANSWER_ROOM]) -> Said
    ensures { Says (key_saying file.now space.now name.now) line.old result line.new }
{
    if words::is_same(space, b"-") {
        return sayings::interface(lookup::interface_by_key(file, &space[0..0], name), line);
    }
    sayings::interface(lookup::interface_by_key(file, space, name), line)
}

// Method by index, name and kind, where the index is read.
fn of_kind(file: &[u8], index: u64, name: &[u8], kind: &[u8], line: &mut [u8; ANSWER_ROOM]) -> Said
    ensures { Says (with_kind kind.now (λ k. say_method (ask_method (decode file.now) index name.now k))) line.old result line.new }
{
    if words::is_same(kind, b"getter") {
        return sayings::method(
            lookup::method_by_name(file, index, name, Kind::Getter),
            line,
        );
    }
    if words::is_same(kind, b"setter") {
        return sayings::method(
            lookup::method_by_name(file, index, name, Kind::Setter),
            line,
        );
    }
    if words::is_same(kind, b"plain") {
        return sayings::method(lookup::method_by_name(file, index, name, Kind::Plain), line);
    }
    said::mistake(b"error the kind is not getter, setter or plain\n", line)
}

/// Method by index, name and kind: `getter`, `setter` or `plain`.
pub fn method(
    file: &[u8],
    index: &[u8],
    name: &[u8],
    kind: &[u8],
    line: &mut [u8; ANSWER_ROOM],
) -> Said
    ensures { Says (method_saying file.now index.now name.now kind.now) line.old result line.new }
{
    match words::number_of(index) {
        Ok(i) => of_kind(file, i, name, kind, line),
        Err(NumberError::NotDecimal) => said::index_not_decimal(line),
        Err(NumberError::TooLarge) => said::index_too_large(line),
    }
}

// Method by index and slot, where the index is read.
fn in_slot(file: &[u8], index: u64, slot: &[u8], line: &mut [u8; ANSWER_ROOM]) -> Said
    ensures { Says (with_slot (number_of slot.now) (λ k. say_method (ask_slot (decode file.now) index k))) line.old result line.new }
{
    match words::number_of(slot) {
        Ok(k) => sayings::method(lookup::method_by_slot(file, index, k), line),
        Err(NumberError::NotDecimal) => said::mistake(b"error the slot is not decimal\n", line),
        Err(NumberError::TooLarge) => said::mistake(b"error the slot does not fit 64 bits\n", line),
    }
}

/// Method by index and slot.
pub fn slot(file: &[u8], index: &[u8], slot: &[u8], line: &mut [u8; ANSWER_ROOM]) -> Said
    ensures { Says (slot_saying file.now index.now slot.now) line.old result line.new }
{
    match words::number_of(index) {
        Ok(i) => in_slot(file, i, slot, line),
        Err(NumberError::NotDecimal) => said::index_not_decimal(line),
        Err(NumberError::TooLarge) => said::index_too_large(line),
    }
}

/// Constant by index and name.
pub fn constant(file: &[u8], index: &[u8], name: &[u8], line: &mut [u8; ANSWER_ROOM]) -> Said
    ensures { Says (constant_saying file.now index.now name.now) line.old result line.new }
{
    match words::number_of(index) {
        Ok(i) => sayings::constant(lookup::constant_by_name(file, i, name), line),
        Err(NumberError::NotDecimal) => said::index_not_decimal(line),
        Err(NumberError::TooLarge) => said::index_too_large(line),
    }
}
