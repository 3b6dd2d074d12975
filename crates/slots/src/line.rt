//! The line of a method, written whole.
ghost use Rattle.std.specs.Prelude.{List, ◌++◌, ℕ, ◌+◌, ◌-◌, ◌≤◌};
ghost use Rattle.text.specs.Line.{space};
ghost use Rattle.reader.specs.Values.{Entry, keys_in};
ghost use Rattle.reader.specs.Layout.{LaidOut, Lies, Stands};
ghost use Rattle.lookup.specs.Holding.{PoolOf, NamedMethod};
ghost use Rattle.text.specs.Writing.{Wrote, Room};
ghost use Rattle.printed.specs.Writing.{line_room, WroteOf, Small};
ghost use Rattle.printed.specs.Listing.{slot_text};
ghost use Rattle.slots.specs.Table.{kind_text, owner_text, call_text};

use lookup::Slot;
use reader::Layout;
use reader::record::{GETTER, SETTER};

// The namespace and the name of the owner of index i, counted from 1.
fn put_owner(file: &[u8], pool: &[u8], l: Layout, i: usize, out: &mut [u8], at: usize) -> usize
    requires { Lies file.now l × PoolOf file.now l pool.now × (1 ≤ i) × (i ≤ l.count) × Room out.old at 512 }
    ensures { ((es : List (Entry ℕ)) → LaidOut file.now l es → Wrote out.old at (owner_text (keys_in es (i - 1))) result out.new) × (result ≤ at + 512) }
{
    let v = reader::entry::space_pointer(file, l, i - 1);
    let q = reader::entry::name_pointer(file, l, i - 1);
    printed::word::put_key(pool, v, q, out, at)
}

// The kind of a method with these flags.
fn put_kind(flags: u8, out: &mut [u8], at: usize) -> usize
    requires { Room out.old at 7 }
    ensures { Wrote out.old at (space ++ kind_text flags) result out.new × (result ≤ at + 7) }
{
    if flags / GETTER % 2 == 1 {
        return text::put_bytes(out, at, b" getter");
    }
    if flags / SETTER % 2 == 1 {
        return text::put_bytes(out, at, b" setter");
    }
    text::put_bytes(out, at, b" plain")
}

// The kind, the name and the number of arguments of the method at `from`.
fn put_call(pool: &[u8], from: usize, out: &mut [u8], at: usize) -> usize
    requires { Stands (NamedMethod pool.now from) × Small pool.now × Room out.old at 320 }
    ensures { WroteOf (NamedMethod pool.now from) call_text out.old at result out.new × (result ≤ at + 320) }
{
    let flags = reader::record::method_flags(pool, from);
    let q = reader::record::method_name(pool, from);
    let count = reader::record::argument_count(pool, from);
    let name = put_kind(flags, out, at);
    let arguments = printed::word::put_name(pool, q, out, name);
    let end = text::put_labelled(out, arguments, b" ", count as u64);
    text::put_bytes(out, end, b"\n")
}

/// The line of the method at `from`, which has this slot and this owner.
pub fn put_row(
    file: &[u8],
    pool: &[u8],
    l: Layout,
    owner: usize,
    from: usize,
    slot: Slot,
    out: &mut [u8],
    at: usize,
) -> usize
    requires { Lies file.now l × PoolOf file.now l pool.now × (1 ≤ owner) × (owner ≤ l.count) × Stands (NamedMethod pool.now from) × Room out.old at line_room }
    ensures { ((es : List (Entry ℕ)) → LaidOut file.now l es → WroteOf (NamedMethod pool.now from) (λ m. (slot_text slot ++ owner_text (keys_in es (owner - 1))) ++ call_text m) out.old at result out.new) × (result ≤ at + line_room) }
{
    let key = printed::line::put_slot(slot, out, at);
    let call = put_owner(file, pool, l, owner, out, key);
    put_call(pool, from, out, call)
}
