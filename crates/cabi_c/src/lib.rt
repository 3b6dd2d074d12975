//! The library for callers in C and Rust: each function is that of the crate `cabi` under the same name, with its contract. include/saniotka.h describes each call.
#![tactic(auto)]

ghost use Rattle.reader.specs.Reader.{decode, check_of};
ghost use Rattle.lookup.specs.Question.{ask_iid, ask_looks, ask_key, ask_slot, ask_constant};
ghost use Rattle.numbers.specs.Call.{Called};
ghost use Rattle.numbers.specs.Numbers.{verdict_numbers, interface_numbers, counted_numbers, method_numbers, constant_numbers};
ghost use Rattle.cabi.specs.Kind.{ask_kind};

mod links;
mod piles;
mod rdbs;
mod salvages;

/// The check: the refusal's number and its place, or 0 and the number of interfaces for an accepted file.
#[unsafe(no_mangle)]
pub extern "C" fn saniotka_check(file: &[u8], answer: &mut [u64]) -> i32
    ensures { Called (verdict_numbers (check_of file.now)) answer.old result answer.new }
{
    cabi::saniotka_check(file, answer)
}

/// Interface by IID. Found: its index.
#[unsafe(no_mangle)]
pub extern "C" fn saniotka_iid(file: &[u8], iid: &[u8], answer: &mut [u64]) -> i32
    ensures { Called (interface_numbers (ask_iid (decode file.now) iid.now)) answer.old result answer.new }
{
    cabi::saniotka_iid(file, iid, answer)
}

/// The same, with the number of entries looked at. Found: its index and that number; none: that number.
#[unsafe(no_mangle)]
pub extern "C" fn saniotka_looks(file: &[u8], iid: &[u8], answer: &mut [u64]) -> i32
    ensures { Called (counted_numbers (ask_looks (decode file.now) iid.now)) answer.old result answer.new }
{
    cabi::saniotka_looks(file, iid, answer)
}

/// Interface by key; an empty namespace asks for the default. Found: its index.
#[unsafe(no_mangle)]
pub extern "C" fn saniotka_key(file: &[u8], space: &[u8], name: &[u8], answer: &mut [u64]) -> i32
    ensures { Called (interface_numbers (ask_key (decode file.now) space.now name.now)) answer.old result answer.new }
{
    cabi::saniotka_key(file, space, name, answer)
}

/// Method by index, name and kind: 0 getter, 1 setter, 2 plain; a question with another kind is malformed.
/// Found: owner, position, the slot, the steps up to the owner, and the total of slots. Slot and total: 0 and the number, or 1 and the unresolved ancestor's index.
#[unsafe(no_mangle)]
pub extern "C" fn saniotka_method(
    file: &[u8],
    index: u64,
    name: &[u8],
    kind: u64,
    answer: &mut [u64],
) -> i32
    ensures { Called (method_numbers (ask_kind (decode file.now) index name.now kind)) answer.old result answer.new }
{
    cabi::saniotka_method(file, index, name, kind, answer)
}

/// Method by index and slot. Found: as above.
#[unsafe(no_mangle)]
pub extern "C" fn saniotka_slot(file: &[u8], index: u64, slot: u64, answer: &mut [u64]) -> i32
    ensures { Called (method_numbers (ask_slot (decode file.now) index slot)) answer.old result answer.new }
{
    cabi::saniotka_slot(file, index, slot, answer)
}

/// Constant by index and name. Found: its type byte and the bits of its value, as stored.
#[unsafe(no_mangle)]
pub extern "C" fn saniotka_constant(file: &[u8], index: u64, name: &[u8], answer: &mut [u64]) -> i32
    ensures { Called (constant_numbers (ask_constant (decode file.now) index name.now)) answer.old result answer.new }
{
    cabi::saniotka_constant(file, index, name, answer)
}
