//! The check and the questions for callers in C and Rust: numbers and slices only. include/saniotka.h describes each call.
//! A call returns 0, and its answer stands in the first places of `answer`; where that has too little room for any answer the call
//! returns 1 and writes nothing. The first number of an answer: 0 found, 1 none, 2 undetermined with the index, 3 refused with
//! number and place.
#![tactic(auto)]

ghost use Rattle.reader.specs.Reader.{decode, check_of};
ghost use Rattle.lookup.specs.Question.{ask_iid, ask_looks, ask_key, ask_slot, ask_constant};
ghost use Rattle.numbers.specs.Call.{Called};
ghost use Rattle.numbers.specs.Numbers.{verdict_numbers, interface_numbers, counted_numbers, method_numbers, constant_numbers};
ghost use Rattle.cabi.specs.Kind.{ask_kind};

mod kinds;
mod links;
mod piles;
mod rdbs;
mod salvages;

pub use links::{saniotka_adopt, saniotka_link, saniotka_normal};
pub use piles::{saniotka_pile_add, saniotka_pile_end};
pub use rdbs::{saniotka_rdb_check, saniotka_rdb_constant, saniotka_rdb_entity};
pub use salvages::saniotka_salvage;

/// What a call returns.
pub const ANSWERED: i32 = 0;

pub const TOO_SHORT: i32 = 1;

/// The check: the refusal's number and its place, or 0 and the number of interfaces for an accepted file.
#[unsafe(no_mangle)]
pub extern "C" fn saniotka_check(file: &[u8], answer: &mut [u64]) -> i32
    ensures { Called (verdict_numbers (check_of file.now)) answer.old result answer.new }
{
    if answer.len() < numbers::ROOM {
        return TOO_SHORT;
    }
    numbers::put_verdict(reader::check(file), answer);
    ANSWERED
}

/// Interface by IID. Found: its index.
#[unsafe(no_mangle)]
pub extern "C" fn saniotka_iid(file: &[u8], iid: &[u8], answer: &mut [u64]) -> i32
    ensures { Called (interface_numbers (ask_iid (decode file.now) iid.now)) answer.old result answer.new }
{
    if answer.len() < numbers::ROOM {
        return TOO_SHORT;
    }
    numbers::put_interface(lookup::interface_by_iid(file, iid), answer);
    ANSWERED
}

/// The same, with the number of entries looked at. Found: its index and that number; none: that number.
#[unsafe(no_mangle)]
pub extern "C" fn saniotka_looks(file: &[u8], iid: &[u8], answer: &mut [u64]) -> i32
    ensures { Called (counted_numbers (ask_looks (decode file.now) iid.now)) answer.old result answer.new }
{
    if answer.len() < numbers::ROOM {
        return TOO_SHORT;
    }
    numbers::put_counted(lookup::interface_by_iid_counted(file, iid), answer);
    ANSWERED
}

/// Interface by key; an empty namespace asks for the default. Found: its index.
#[unsafe(no_mangle)]
pub extern "C" fn saniotka_key(file: &[u8], space: &[u8], name: &[u8], answer: &mut [u64]) -> i32
    ensures { Called (interface_numbers (ask_key (decode file.now) space.now name.now)) answer.old result answer.new }
{
    if answer.len() < numbers::ROOM {
        return TOO_SHORT;
    }
    numbers::put_interface(lookup::interface_by_key(file, space, name), answer);
    ANSWERED
}

/// Method by index, name and kind: 0 getter, 1 setter, 2 plain; a question with another kind is malformed.
/// Found: owner, position, the slot, the steps up to the owner, and the total of slots. Slot and total: 0 and the number, or 1 and the unresolved ancestor's index.
#[unsafe(no_mangle)]
pub extern "C" fn saniotka_method(
    file: &[u8],
    index: u64,
    name: &[u8],
    kind: u64,
    answer: &mut [u64],
) -> i32
    ensures { Called (method_numbers (ask_kind (decode file.now) index name.now kind)) answer.old result answer.new }
{
    if answer.len() < numbers::ROOM {
        return TOO_SHORT;
    }
    numbers::put_method(kinds::method_of_kind(file, index, name, kind), answer);
    ANSWERED
}

/// Method by index and slot. Found: as above.
#[unsafe(no_mangle)]
pub extern "C" fn saniotka_slot(file: &[u8], index: u64, slot: u64, answer: &mut [u64]) -> i32
    ensures { Called (method_numbers (ask_slot (decode file.now) index slot)) answer.old result answer.new }
{
    if answer.len() < numbers::ROOM {
        return TOO_SHORT;
    }
    numbers::put_method(lookup::method_by_slot(file, index, slot), answer);
    ANSWERED
}

/// Constant by index and name. Found: its type byte and the bits of its value, as stored.
#[unsafe(no_mangle)]
pub extern "C" fn saniotka_constant(file: &[u8], index: u64, name: &[u8], answer: &mut [u64]) -> i32
    ensures { Called (constant_numbers (ask_constant (decode file.now) index name.now)) answer.old result answer.new }
{
    if answer.len() < numbers::ROOM {
        return TOO_SHORT;
    }
    numbers::put_constant(lookup::constant_by_name(file, index, name), answer);
    ANSWERED
}
