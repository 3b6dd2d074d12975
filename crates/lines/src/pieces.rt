//! One piece of a listing or of a table: at most one line.
ghost use Rattle.std.specs.Prelude.{◌≡◌, List, ◌++◌, ℕ, ◌+◌, ◌<◌, drop};
ghost use Rattle.reader.specs.Values.{Entry, descriptor_in};
ghost use Rattle.reader.specs.Layout.{LaidOut, Lies};
ghost use Rattle.lines.specs.declared.Cursor.TheVariants.{AtEntry, AtMethods, AtConstants, AtTable};
ghost use Rattle.printed.specs.Listing.{own_lines, entry_lines};
ghost use Rattle.text.specs.Writing.{Room};
ghost use Rattle.printed.specs.Writing.{line_room};
ghost use Rattle.lines.specs.Cursor.{Left, Begun, Moved, turns};

use crate::{ConstantsAt, Cursor, MethodsAt, Piece};
use reader::Layout;
use slots::TableAt;

// What follows the line of entry i.
fn below(file: &[u8], pool: &[u8], l: Layout, i: usize) -> Cursor
    requires { Lies file.now l × ((pool.now ≡ drop l.pool file.now) × (i < l.count)) }
    ensures { ((es : List (Entry ℕ)) → LaidOut file.now l es → Left file.now l result (own_lines es (i + 1) (descriptor_in es i) ++ entry_lines es (i + 1 + 1) (drop (i + 1) es))) × (turns l.count result < turns l.count (AtEntry i)) }
{
    let d = reader::entry::descriptor_pointer(file, l, i);
    if d == 0 {
        return Cursor::AtEntry(i + 1);
    }
    let up = reader::record::parent_index(pool, d - 1);
    let left = reader::record::method_count(pool, d - 1);
    let slot = crate::base::slot_base(file, pool, l, up);
    let total = slots::moving::slot_after(slot, left);
    Cursor::AtMethods(MethodsAt {
        entry: i,
        left,
        at: d + 3,
        slot,
        total,
    })
}

// The line of entry i, if there is one.
fn entry_piece(file: &[u8], pool: &[u8], l: Layout, i: usize, out: &mut [u8], at: usize) -> Piece
    requires { Begun file.now l (AtEntry i) × ((pool.now ≡ drop l.pool file.now) × Room out.old at line_room) }
    ensures { Moved file.now l (AtEntry i) out.old at result out.new }
{
    if i == l.count {
        return Piece {
            at,
            cursor: Cursor::Done,
        };
    }
    let next = printed::line::put_entry(file, pool, l, i, out, at);
    Piece {
        at: next,
        cursor: below(file, pool, l, i),
    }
}

// The line of the next method, if one is left.
fn method_piece(
    file: &[u8],
    pool: &[u8],
    l: Layout,
    m: MethodsAt,
    out: &mut [u8],
    at: usize,
) -> Piece
    requires { Begun file.now l (AtMethods m) × ((pool.now ≡ drop l.pool file.now) × Room out.old at line_room) }
    ensures { Moved file.now l (AtMethods m) out.old at result out.new }
{
    let entry = m.entry;
    let left = m.left;
    let from = m.at;
    let slot = m.slot;
    let total = m.total;
    if left == 0 {
        let count = number::u16_at(pool, from) as usize;
        return Piece {
            at,
            cursor: Cursor::AtConstants(ConstantsAt {
                entry,
                left: count,
                at: from + 2,
            }),
        };
    }
    let next = printed::line::put_method(pool, from, slot, total, out, at);
    let end = reader::record::method_end(pool, from);
    let after = slots::moving::slot_after(slot, 1);
    Piece {
        at: next,
        cursor: Cursor::AtMethods(MethodsAt {
            entry,
            left: left - 1,
            at: end,
            slot: after,
            total,
        }),
    }
}

// The line of the next constant, if one is left.
fn constant_piece(
    file: &[u8],
    pool: &[u8],
    l: Layout,
    k: ConstantsAt,
    out: &mut [u8],
    at: usize,
) -> Piece
    requires { Begun file.now l (AtConstants k) × ((pool.now ≡ drop l.pool file.now) × Room out.old at line_room) }
    ensures { Moved file.now l (AtConstants k) out.old at result out.new }
{
    let entry = k.entry;
    let left = k.left;
    let from = k.at;
    if left == 0 {
        return Piece {
            at,
            cursor: Cursor::AtEntry(entry + 1),
        };
    }
    let next = printed::line::put_constant(pool, from, out, at);
    let end = reader::record::constant_end(pool, from);
    Piece {
        at: next,
        cursor: Cursor::AtConstants(ConstantsAt {
            entry,
            left: left - 1,
            at: end,
        }),
    }
}

// The next line of a table, if one is left.
fn table_piece(file: &[u8], pool: &[u8], l: Layout, t: TableAt, out: &mut [u8], at: usize) -> Piece
    requires { Begun file.now l (AtTable t) × ((pool.now ≡ drop l.pool file.now) × Room out.old at line_room) }
    ensures { Moved file.now l (AtTable t) out.old at result out.new }
{
    if slots::is_over(t) {
        return Piece {
            at,
            cursor: Cursor::Done,
        };
    }
    let next = slots::put_piece(file, pool, l, t, out, at);
    let end = next.at;
    let table = next.table;
    Piece {
        at: end,
        cursor: Cursor::AtTable(table),
    }
}

/// What is to be printed next, at most one line of it.
pub fn put_piece(file: &[u8], pool: &[u8], l: Layout, c: Cursor, out: &mut [u8], at: usize) -> Piece
    requires { Begun file.now l c × ((pool.now ≡ drop l.pool file.now) × Room out.old at line_room) }
    ensures { Moved file.now l c out.old at result out.new }
{
    match c {
        Cursor::Done => Piece {
            at,
            cursor: Cursor::Done,
        },
        Cursor::AtEntry(i) => entry_piece(file, pool, l, i, out, at),
        Cursor::AtMethods(m) => method_piece(file, pool, l, m, out, at),
        Cursor::AtConstants(k) => constant_piece(file, pool, l, k, out, at),
        Cursor::AtTable(t) => table_piece(file, pool, l, t, out, at),
    }
}
