//! The lines of the listing, each written whole.
ghost use Rattle.std.specs.Prelude.{◌≡◌, List, ◌++◌, ℕ, ◌+◌, ◌≤◌, ◌<◌, length, get_or, drop};
ghost use Rattle.std.proofs.Math.Option.{Option};
ghost use Rattle.number.specs.Number.{be};
ghost use Rattle.decimal.specs.Digits.{digits_of};
ghost use Rattle.text.specs.Line.{space, newline};
ghost use Rattle.text.specs.Hex.{hex_of};
ghost use Rattle.reader.specs.Values.{Entry, Descriptor, no_entry};
ghost use Rattle.reader.specs.Records.{ShowsOwn};
ghost use Rattle.reader.specs.Layout.{LaidOut, Lies, Stands};
ghost use Rattle.printed.specs.Listing.{entry_word, parent_text, slot_text, entry_line, method_line, constant_line};
ghost use Rattle.text.specs.Writing.{Wrote, Room};
ghost use Rattle.printed.specs.Writing.{line_room, WroteOf, Small, NamedMethod, NamedConstant};

use lookup::Slot;
use reader::Layout;

// The index i, and the IID at `place` of the file.
fn put_front(file: &[u8], place: usize, i: usize, out: &mut [u8], at: usize) -> usize
    requires { (place + 16 ≤ length file.now) × Room out.old at 64 }
    ensures { Wrote out.old at ((entry_word ++ digits_of i) ++ (space ++ hex_of 32 (be 16 file.now place))) result out.new }
{
    let next = text::put_labelled(out, at, b"I ", i as u64);
    let iid = text::put_bytes(out, next, b" ");
    text::put_hex(out, iid, file, place, 16)
}

// The end of an entry's line, whose descriptor pointer is d.
fn put_parent(pool: &[u8], d: usize, out: &mut [u8], at: usize) -> usize
    requires { ((own : Option (Descriptor ℕ)) × ShowsOwn pool.now d own) × Room out.old at 64 }
    ensures { ((own : Option (Descriptor ℕ)) → ShowsOwn pool.now d own → Wrote out.old at ((space ++ parent_text own) ++ newline) result out.new) × (result ≤ at + 64) }
{
    if d == 0 {
        return text::put_bytes(out, at, b" unresolved\n");
    }
    let up = reader::record::parent_index(pool, d - 1);
    let next = text::put_labelled(out, at, b" parent ", up as u64);
    text::put_bytes(out, next, b"\n")
}

/// The line of entry i, counted from 0.
pub fn put_entry(file: &[u8], pool: &[u8], l: Layout, i: usize, out: &mut [u8], at: usize) -> usize
    requires { Lies file.now l × ((i < l.count) × ((pool.now ≡ drop l.pool file.now) × Room out.old at line_room)) }
    ensures { ((es : List (Entry ℕ)) → LaidOut file.now l es → Wrote out.old at (entry_line (i + 1) (get_or es i no_entry)) result out.new) × (result ≤ at + line_room) }
{
    let place = reader::entry::iid_place(file, l, i);
    let v = reader::entry::space_pointer(file, l, i);
    let q = reader::entry::name_pointer(file, l, i);
    let d = reader::entry::descriptor_pointer(file, l, i);
    let key = put_front(file, place, i + 1, out, at);
    let parent = crate::word::put_key(pool, v, q, out, key);
    put_parent(pool, d, out, parent)
}

/// A slot or a total of slots, `?` for an unknown one.
pub fn put_slot(slot: Slot, out: &mut [u8], at: usize) -> usize
    requires { Room out.old at 20 }
    ensures { Wrote out.old at (slot_text slot) result out.new × (result ≤ at + 20) }
{
    match slot {
        Slot::Known(s) => decimal::put_decimal(out, at, s as u64),
        Slot::Undetermined(_) => text::put_bytes(out, at, b"?"),
    }
}

// The end of a method's line.
fn put_total(total: Slot, out: &mut [u8], at: usize) -> usize
    requires { Room out.old at 22 }
    ensures { Wrote out.old at ((space ++ slot_text total) ++ newline) result out.new × (result ≤ at + 22) }
{
    let first = text::put_bytes(out, at, b" ");
    let end = put_slot(total, out, first);
    text::put_bytes(out, end, b"\n")
}

/// The line of the method at `from`, which has this slot, of an interface with this total.
pub fn put_method(
    pool: &[u8],
    from: usize,
    slot: Slot,
    total: Slot,
    out: &mut [u8],
    at: usize,
) -> usize
    requires { Stands (NamedMethod pool.now from) × (Small pool.now × Room out.old at line_room) }
    ensures { WroteOf (NamedMethod pool.now from) (method_line slot total) out.old at result out.new × (result ≤ at + line_room) }
{
    let q = reader::record::method_name(pool, from);
    let count = reader::record::argument_count(pool, from);
    let first = text::put_bytes(out, at, b"M ");
    let name = put_slot(slot, out, first);
    let arguments = crate::word::put_name(pool, q, out, name);
    let end = text::put_labelled(out, arguments, b" ", count as u64);
    put_total(total, out, end)
}

/// The line of the constant at `from`.
pub fn put_constant(pool: &[u8], from: usize, out: &mut [u8], at: usize) -> usize
    requires { Stands (NamedConstant pool.now from) × (Small pool.now × Room out.old at line_room) }
    ensures { WroteOf (NamedConstant pool.now from) constant_line out.old at result out.new × (result ≤ at + line_room) }
{
    let q = reader::record::constant_name(pool, from);
    let first = text::put_bytes(out, at, b"C ");
    let space = crate::word::put_word(pool, q, out, first);
    let value = text::put_bytes(out, space, b" ");
    let end = crate::value::put_value(pool, from, out, value);
    text::put_bytes(out, end, b"\n")
}
