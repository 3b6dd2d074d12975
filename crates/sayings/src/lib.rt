//! The line that tells a lookup's answer, its newline included, at the front of a buffer.
#![tactic(auto)]

ghost use Rattle.std.specs.Prelude.{◌≡◌, ◌++◌, ℕ, ◌+◌, ◌^◌, ◌≤◌, ◌<◌, length, Ok};
ghost use Rattle.text.specs.Line.{newline};
ghost use Rattle.lookup.specs.Constant.{signed};
ghost use Rattle.halving.specs.declared.Looked.TheVariants as halved;
ghost use Rattle.lookup.specs.declared.Search.TheVariants as search;
ghost use Rattle.text.specs.Signed.{signed_text};
ghost use Rattle.text.specs.Writing.{Wrote};
ghost use Rattle.said.specs.declared.Why.TheVariants.{Answered};
ghost use Rattle.sayings.specs.Texts.{slot_part, total_part, found_text};
ghost use Rattle.said.specs.Saying.{Says, saying};
ghost use Rattle.sayings.specs.Sayings.{say_interface, say_counted, say_method, say_constant};

use halving::Looked;
use lookup::{FoundMethod, Search, Slot, Value};
use reading::Refusal;
use said::{ANSWER_ROOM, Said, Why};

/// What an interface's index, or none, is said as.
#[tactic(auto, unfolding(crate::specs::Sayings::say_interface, crate::specs::Sayings::interface_why, crate::specs::Texts::interface_text))]
pub fn interface(a: Result<Option<usize>, Refusal>, line: &mut [u8; ANSWER_ROOM]) -> Said
    ensures { Says (say_interface a) line.old result line.new }
{
    match a {
        Ok(Some(i)) => said::numbered(b"found ", i as u64, line),
        Ok(None) => said::none(line),
        Err(why) => said::refused(why, line),
    }
}

// The index of an interface, and the number of entries looked at.
fn looked(i: u64, k: u64, line: &mut [u8; ANSWER_ROOM]) -> Said
    ensures { Says (say_counted (Ok (halved.Found i k))) line.old result line.new }
{
    let at = text::put_labelled(line, 0, b"found ", i);
    let end = text::put_labelled(line, at, b" looked ", k);
    let length = text::put_bytes(line, end, b"\n");
    Said {
        length,
        why: Why::Answered,
    }
}

/// That, or none.
#[tactic(auto, unfolding(crate::specs::Sayings::say_counted, crate::specs::Sayings::counted_why, crate::specs::Texts::counted_text))]
pub fn counted(a: Result<Looked, Refusal>, line: &mut [u8; ANSWER_ROOM]) -> Said
    ensures { Says (say_counted a) line.old result line.new }
{
    match a {
        Ok(Looked::Found(i, k)) => looked(i as u64, k as u64, line),
        Ok(Looked::None(k)) => said::numbered(b"none looked ", k as u64, line),
        Err(why) => said::refused(why, line),
    }
}

// A slot from `at` on: its number, or the unresolved ancestor.
fn put_slot(slot: Slot, line: &mut [u8; ANSWER_ROOM], at: usize) -> usize
    requires { at ≤ 64 }
    ensures { Wrote line.old at (slot_part slot) result line.new × (result ≤ at + 28) }
{
    match slot {
        Slot::Known(n) => text::put_labelled(line, at, b" slot ", n as u64),
        Slot::Undetermined(r) => text::put_labelled(line, at, b" slot ? ", r as u64),
    }
}

// A total of slots from `at` on, `?` for an unknown one.
fn put_total(total: Slot, line: &mut [u8; ANSWER_ROOM], at: usize) -> usize
    requires { at ≤ 128 }
    ensures { Wrote line.old at (total_part total) result line.new × (result ≤ at + 27) }
{
    match total {
        Slot::Known(n) => text::put_labelled(line, at, b" total ", n as u64),
        Slot::Undetermined(_) => text::put_bytes(line, at, b" total ?"),
    }
}

// A method that was found.
fn found(m: FoundMethod, line: &mut [u8; ANSWER_ROOM]) -> Said
    ensures { Says (saying (found_text m) Answered) line.old result line.new }
{
    let owner = m.owner as u64;
    let position = m.position as u64;
    let distance = m.distance as u64;
    let slot = m.slot;
    let total = m.total;
    let space = text::put_labelled(line, 0, b"found ", owner);
    let at = text::put_labelled(line, space, b" ", position);
    let far = put_slot(slot, line, at);
    let many = text::put_labelled(line, far, b" distance ", distance);
    let end = put_total(total, line, many);
    let length = text::put_bytes(line, end, b"\n");
    Said {
        length,
        why: Why::Answered,
    }
}

#[tactic(auto, unfolding(crate::specs::Sayings::say_method, crate::specs::Sayings::method_why, crate::specs::Texts::method_text))]
pub fn method(a: Result<Search<FoundMethod>, Refusal>, line: &mut [u8; ANSWER_ROOM]) -> Said
    ensures { Says (say_method a) line.old result line.new }
{
    match a {
        Ok(Search::Found(m)) => found(m, line),
        Ok(Search::None) => said::none(line),
        Ok(Search::Undetermined(i)) => said::numbered(b"undetermined ", i as u64, line),
        Err(why) => said::refused(why, line),
    }
}

// An answer that is a label and a number in two's complement, where `half` is 2^k and the number has k + 1 bits.
fn complement(label: &[u8], half: u64, v: u64, line: &mut [u8; ANSWER_ROOM]) -> Said
    requires { (length label.now ≤ 64) × ((v < half + half) × (half < 4294967296)) }
    ensures { (k : ℕ) → half ≡ 2 ^ k → Says (saying ((label.now ++ signed_text (signed k v)) ++ newline) Answered) line.old result line.new }
{
    let at = text::put_bytes(line, 0, label);
    let end = printed::value::put_signed(line, at, half, v);
    let length = text::put_bytes(line, end, b"\n");
    Said {
        length,
        why: Why::Answered,
    }
}

// A constant's value, with its kind.
fn value(v: Value, line: &mut [u8; ANSWER_ROOM]) -> Said
    ensures { Says (say_constant (Ok (search.Found v))) line.old result line.new }
{
    match v {
        Value::I16(x) => complement(b"found i16 ", 32768, signed::bits_16(x), line),
        Value::I32(x) => complement(b"found i32 ", 2147483648, signed::bits_32(x), line),
        Value::U16(n) => said::numbered(b"found u16 ", n as u64, line),
        Value::U32(n) => said::numbered(b"found u32 ", n as u64, line),
    }
}

#[tactic(auto, unfolding(crate::specs::Sayings::say_constant, crate::specs::Sayings::constant_why, crate::specs::Texts::constant_text))]
pub fn constant(a: Result<Search<Value>, Refusal>, line: &mut [u8; ANSWER_ROOM]) -> Said
    ensures { Says (say_constant a) line.old result line.new }
{
    match a {
        Ok(Search::Found(v)) => value(v, line),
        Ok(Search::None) => said::none(line),
        Ok(Search::Undetermined(i)) => said::numbered(b"undetermined ", i as u64, line),
        Err(why) => said::refused(why, line),
    }
}
