//! The listing of a typelib and the table of an interface, made piece by piece into a lent buffer: they can be far longer than the file.
#![tactic(auto)]

mod base;
mod pieces;
pub mod tabs;

ghost use Rattle.std.specs.Prelude.{◌≡◌, ◌≤◌, length, drop};
ghost use Rattle.printed.specs.Writing.{line_room};
ghost use Rattle.reader.specs.Reader.{decode};
ghost use Rattle.printed.specs.Listing.{listing_of, printed_of};
ghost use Rattle.lines.specs.Cursor.{Begun, is_done, Filling, only_line, Starting};

use lookup::Slot;
use printed::LINE_ROOM;
use reader::Layout;
use slots::TableAt;

/// Where the methods of an entry, counted from 0, go on: how many are left, the place of the next in the pool, and its slot; with the entry's total of slots.
#[derive(Clone, Copy, Debug, PartialEq, Eq)]
pub struct MethodsAt {
    pub entry: usize,
    pub left: usize,
    pub at: usize,
    pub slot: Slot,
    pub total: Slot,
}

/// Where its constants go on.
#[derive(Clone, Copy, Debug, PartialEq, Eq)]
pub struct ConstantsAt {
    pub entry: usize,
    pub left: usize,
    pub at: usize,
}

/// What is to be printed next: nothing, the entry of this number, counted from 0, what stands under one, or the rest of a table.
#[derive(Clone, Copy, Debug, PartialEq, Eq)]
pub enum Cursor {
    Done,
    AtEntry(usize),
    AtMethods(MethodsAt),
    AtConstants(ConstantsAt),
    AtTable(TableAt),
}

/// The place after what was written, and what is to be printed next.
#[derive(Clone, Copy, Debug, PartialEq, Eq)]
pub struct Piece {
    pub at: usize,
    pub cursor: Cursor,
}

/// How many bytes of the buffer were filled, and what is to be printed next.
#[derive(Clone, Copy, Debug, PartialEq, Eq)]
pub struct Filled {
    pub length: usize,
    pub cursor: Cursor,
}

/// The length of the first line, the layout of the file, and what is to be printed next.
#[derive(Drop)]
pub struct Started {
    pub length: usize,
    pub layout: Layout,
    pub cursor: Cursor,
}

/// Whether all was printed.
pub fn is_done(c: Cursor) -> bool
    ensures { result ≡ is_done c }
{
    match c {
        Cursor::Done => true,
        Cursor::AtEntry(_) => false,
        Cursor::AtMethods(_) => false,
        Cursor::AtConstants(_) => false,
        Cursor::AtTable(_) => false,
    }
}

// Pieces while there is room for one.
fn fill_from(file: &[u8], pool: &[u8], l: Layout, first: Cursor, out: &mut [u8]) -> Filled
    requires { Begun file.now l first × ((pool.now ≡ drop l.pool file.now) × (line_room ≤ length out.old)) }
    ensures { Filling file.now l first out.old result out.new }
{
    let mut c = first;
    let mut at: usize = 0;
    while LINE_ROOM <= out.len() - at {
        if is_done(c) {
            return Filled {
                length: at,
                cursor: c,
            };
        }
        let p = pieces::put_piece(file, pool, l, c, out, at);
        at = p.at;
        c = p.cursor;
    }
    Filled {
        length: at,
        cursor: c,
    }
}

/// The next lines, as many as are sure to fit.
pub fn fill(file: &[u8], l: Layout, c: Cursor, out: &mut [u8]) -> Filled
    requires { Begun file.now l c × (line_room ≤ length out.old) }
    ensures { Filling file.now l c out.old result out.new }
{
    let at = l.pool;
    let pool = &file[at..];
    fill_from(file, pool, l, c, out)
}

// A first line of so many bytes with nothing after it.
fn only_line(length: usize) -> Started
    ensures { result ≡ only_line length }
{
    let none = Layout {
        count: 0,
        directory: 0,
        pool: 0,
    };
    Started {
        length,
        layout: none,
        cursor: Cursor::Done,
    }
}

/// The first line of the listing of a file of any length, and where the rest starts; nothing is left of a file that was refused.
pub fn start(file: &[u8], line: &mut [u8; 64]) -> Started
    ensures { Starting file.now (listing_of (decode file.now)) line.old result line.new }
{
    let v = reader::check(file);
    let length = text::put_verdict(v, line);
    match v {
        Ok(_) => Started {
            length,
            layout: reader::layout_of(file),
            cursor: Cursor::AtEntry(0),
        },
        Err(_) => only_line(length),
    }
}

/// The same for the program, which lists no more than 65,536 bytes.
pub fn begin(file: &[u8], line: &mut [u8; 64]) -> Started
    ensures { Starting file.now (printed_of file.now) line.old result line.new }
{
    if 65536 < file.len() {
        let length = text::put_bytes(line, 0, b"input too long\n");
        return only_line(length);
    }
    start(file, line)
}
