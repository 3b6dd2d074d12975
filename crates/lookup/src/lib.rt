//! Questions about a typelib. Each checks the file first; the answers on an accepted file are in the modules.
#![tactic(auto)]

ghost use Rattle.std.specs.Prelude.{◌≡◌};
ghost use Rattle.reader.specs.Reader.{decode};
ghost use Rattle.lookup.specs.Question.{malformed, ask_iid, ask_looks, ask_key, ask_method, ask_slot, ask_constant};

use halving::Looked;
use reading::{Refusal, Rule};

pub mod chains;
pub mod constants;
pub mod interfaces;
pub mod methods;

/// The kind of method that is asked for.
#[derive(Clone, Copy, Debug, PartialEq, Eq)]
pub enum Kind {
    Getter,
    Setter,
    Plain,
}

/// A slot, or a total of slots: known with its number, or undetermined with the unresolved ancestor's index.
#[derive(Clone, Copy, Debug, PartialEq, Eq)]
pub enum Slot {
    Known(usize),
    Undetermined(usize),
}

/// A method that was found: the index of its owner, its position there from 0, its slot,
/// the steps from the asked interface up to its owner, and the asked interface's total of slots.
#[derive(Clone, Copy, Debug, PartialEq, Eq)]
pub struct FoundMethod {
    pub owner: usize,
    pub position: usize,
    pub slot: Slot,
    pub distance: usize,
    pub total: Slot,
}

/// A constant's value.
#[derive(Clone, Copy, Debug, PartialEq, Eq)]
pub enum Value {
    I16(i16),
    I32(i32),
    U16(u16),
    U32(u32),
}

/// What a search up a chain gives: what was found; none; or undetermined, with the unresolved entry's index.
#[derive(Clone, Copy, Debug, PartialEq, Eq)]
pub enum Search<T> {
    Found(T),
    None,
    Undetermined(usize),
}

// A question that is malformed.
#[tactic(auto, unfolding(crate::specs::Question::malformed, crate::specs::Question::refusal))]
fn malformed() -> Refusal
    ensures { result ≡ malformed }
{
    Rule::Question.at(0)
}

/// Interface by IID: 16 bytes.
pub fn interface_by_iid(file: &[u8], iid: &[u8]) -> Result<Option<usize>, Refusal>
    ensures { result ≡ ask_iid (decode file.now) iid.now }
{
    reader::check(file)?;
    crate::interfaces::by_iid(file, reader::layout_of(file), iid)
}

/// The same, with the number of entries looked at.
pub fn interface_by_iid_counted(file: &[u8], iid: &[u8]) -> Result<Looked, Refusal>
    ensures { result ≡ ask_looks (decode file.now) iid.now }
{
    reader::check(file)?;
    crate::interfaces::by_iid_counted(file, reader::layout_of(file), iid)
}

/// Interface by key; an empty namespace asks for the default.
pub fn interface_by_key(file: &[u8], space: &[u8], name: &[u8]) -> Result<Option<usize>, Refusal>
    ensures { result ≡ ask_key (decode file.now) space.now name.now }
{
    reader::check(file)?;
    crate::interfaces::by_key(file, reader::layout_of(file), space, name)
}

/// Method by the index of an interface, name and kind.
pub fn method_by_name(
    file: &[u8],
    index: u64,
    name: &[u8],
    kind: Kind,
) -> Result<Search<FoundMethod>, Refusal>
    ensures { result ≡ ask_method (decode file.now) index name.now kind }
{
    reader::check(file)?;
    crate::methods::by_name(file, reader::layout_of(file), index, name, kind)
}

/// Method by the index of an interface and slot.
pub fn method_by_slot(file: &[u8], index: u64, slot: u64) -> Result<Search<FoundMethod>, Refusal>
    ensures { result ≡ ask_slot (decode file.now) index slot }
{
    reader::check(file)?;
    crate::methods::by_slot(file, reader::layout_of(file), index, slot)
}

/// Constant by the index of an interface and name.
pub fn constant_by_name(file: &[u8], index: u64, name: &[u8]) -> Result<Search<Value>, Refusal>
    ensures { result ≡ ask_constant (decode file.now) index name.now }
{
    reader::check(file)?;
    crate::constants::by_name(file, reader::layout_of(file), index, name)
}
