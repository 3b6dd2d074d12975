//! Answers as numbers, written at the front of a list of the caller's that has room for any answer, for C and Rust.
//! The first number of an answer to a question: 0 found, 1 none, 2 undetermined with the index, 3 refused with number and place.
#![tactic(auto)]

ghost use Rattle.std.specs.Prelude.{◌≡◌, [], ◌∷◌, ◌+◌, ◌≤◌, length};
ghost use Rattle.std.proofs.lemmas.List.Edits.{sets};
ghost use Rattle.numbers.specs.Call.{room};
ghost use Rattle.numbers.specs.Numbers.{verdict_numbers, refusal_numbers, slot_numbers, found_numbers, value_numbers, interface_numbers, counted_numbers, method_numbers, constant_numbers};

use halving::Looked;
use lookup::{FoundMethod, Search, Slot, Value};
use reading::Refusal;

/// How many numbers the longest answer has.
pub const ROOM: usize = 8;

/// The refusal's number and its place, or 0 and the number of interfaces for an accepted file.
pub fn put_verdict(v: Result<usize, Refusal>, answer: &mut [u64])
    requires { room ≤ length answer.old }
    ensures { answer.new ≡ sets answer.old 0 (verdict_numbers v) }
{
    match v {
        Ok(n) => {
            answer[0] = 0;
            answer[1] = n as u64;
        }
        Err(why) => {
            let no = why.no as u64;
            let place = why.place as u64;
            answer[0] = no;
            answer[1] = place;
        }
    }
}

pub fn put_refusal(why: Refusal, answer: &mut [u64])
    requires { room ≤ length answer.old }
    ensures { answer.new ≡ sets answer.old 0 (refusal_numbers why) }
{
    let no = why.no as u64;
    let place = why.place as u64;
    answer[0] = 3;
    answer[1] = no;
    answer[2] = place;
}

// A slot or a total of slots, from `at` on.
fn put_slot(slot: Slot, answer: &mut [u64], at: usize)
    requires { at + 2 ≤ length answer.old }
    ensures { answer.new ≡ sets answer.old at (slot_numbers slot) }
{
    match slot {
        Slot::Known(s) => {
            answer[at] = 0;
            answer[at + 1] = s as u64;
        }
        Slot::Undetermined(r) => {
            answer[at] = 1;
            answer[at + 1] = r as u64;
        }
    }
}

fn put_found(m: FoundMethod, answer: &mut [u64])
    requires { room ≤ length answer.old }
    ensures { answer.new ≡ sets answer.old 0 (found_numbers m) }
{
    let owner = m.owner as u64;
    let position = m.position as u64;
    let distance = m.distance as u64;
    let slot = m.slot;
    let total = m.total;
    answer[0] = 0;
    answer[1] = owner;
    answer[2] = position;
    put_slot(slot, answer, 3);
    answer[5] = distance;
    put_slot(total, answer, 6);
}

fn put_pair(kind: u64, bits: u64, answer: &mut [u64])
    requires { room ≤ length answer.old }
    ensures { answer.new ≡ sets answer.old 0 (0 ∷ kind ∷ bits ∷ []) }
{
    answer[0] = 0;
    answer[1] = kind;
    answer[2] = bits;
}

fn put_value(value: Value, answer: &mut [u64])
    requires { room ≤ length answer.old }
    ensures { answer.new ≡ sets answer.old 0 (value_numbers value) }
{
    match value {
        Value::I16(x) => put_pair(1, signed::bits_16(x), answer),
        Value::I32(x) => put_pair(2, signed::bits_32(x), answer),
        Value::U16(n) => put_pair(5, n as u64, answer),
        Value::U32(n) => put_pair(6, n as u64, answer),
    }
}

#[tactic(auto, unfolding(crate::specs::Numbers::interface_numbers))]
pub fn put_interface(a: Result<Option<usize>, Refusal>, answer: &mut [u64])
    requires { room ≤ length answer.old }
    ensures { answer.new ≡ sets answer.old 0 (interface_numbers a) }
{
    match a {
        Ok(Some(i)) => {
            answer[0] = 0;
            answer[1] = i as u64;
        }
        Ok(None) => {
            answer[0] = 1;
        }
        Err(why) => put_refusal(why, answer),
    }
}

#[tactic(auto, unfolding(crate::specs::Numbers::counted_numbers))]
pub fn put_counted(a: Result<Looked, Refusal>, answer: &mut [u64])
    requires { room ≤ length answer.old }
    ensures { answer.new ≡ sets answer.old 0 (counted_numbers a) }
{
    match a {
        Ok(Looked::Found(i, k)) => {
            answer[0] = 0;
            answer[1] = i as u64;
            answer[2] = k as u64;
        }
        Ok(Looked::None(k)) => {
            answer[0] = 1;
            answer[1] = k as u64;
        }
        Err(why) => put_refusal(why, answer),
    }
}

#[tactic(auto, unfolding(crate::specs::Numbers::method_numbers))]
pub fn put_method(a: Result<Search<FoundMethod>, Refusal>, answer: &mut [u64])
    requires { room ≤ length answer.old }
    ensures { answer.new ≡ sets answer.old 0 (method_numbers a) }
{
    match a {
        Ok(Search::Found(m)) => put_found(m, answer),
        Ok(Search::None) => {
            answer[0] = 1;
        }
        Ok(Search::Undetermined(r)) => {
            answer[0] = 2;
            answer[1] = r as u64;
        }
        Err(why) => put_refusal(why, answer),
    }
}

#[tactic(auto, unfolding(crate::specs::Numbers::constant_numbers))]
pub fn put_constant(a: Result<Search<Value>, Refusal>, answer: &mut [u64])
    requires { room ≤ length answer.old }
    ensures { answer.new ≡ sets answer.old 0 (constant_numbers a) }
{
    match a {
        Ok(Search::Found(value)) => put_value(value, answer),
        Ok(Search::None) => {
            answer[0] = 1;
        }
        Ok(Search::Undetermined(r)) => {
            answer[0] = 2;
            answer[1] = r as u64;
        }
        Err(why) => put_refusal(why, answer),
    }
}
