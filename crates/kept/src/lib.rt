//! Files that were read, kept for the rest of a batch. In the store a file's name stands before its bytes. A row of the
//! table has four numbers: where the name starts, where it ends and the bytes start, where they end, and its state.
//! Where another file might not fit, all rows are given up; three of the largest files fit.
#![tactic(auto)]

ghost use Rattle.std.specs.Prelude.{◌≡◌, ◌+◌, ◌*◌, ◌-◌, ◌≤◌, ◌<◌, length, get_or};
ghost use Rattle.number.specs.Part.{part};
ghost use Rattle.kept.specs.Table.{Tidy};
ghost use Rattle.kept.specs.Names.{name_in, is_kept, row_of, row_set, row_added, one_more};
ghost use Rattle.kept.specs.Room.{store_bytes, Roomy, with_room};
ghost use Rattle.kept.specs.Files.{kept_file};
ghost use Rattle.kept.specs.Written.{same_ending, may_lead, forgotten, Forgot};

use number::FILE_MOST;
use words::Span;

// The most that one file takes: the longest name, and as many bytes as are read.
const FILE_ROOM: usize = paths::LIMIT + FILE_MOST;

/// The bytes of the store.
pub const STORE_ROOM: usize = 3 * FILE_ROOM;

/// The rows in use, and the bytes of the store that they take.
#[derive(Clone, Copy, Debug, PartialEq, Eq)]
pub struct Kept {
    pub rows: usize,
    pub used: usize,
}

// The states of a row: a file as it is named, a symbolic link, a file that is no longer found. Numbers: the table holds
// them, and `add` promises a row of any state.
pub const PLAIN: usize = 0;

pub const LINK: usize = 1;

pub const FORGOTTEN: usize = 2;

// The name of row k.
fn name_in<'a>(k: usize, kept: Kept, rows: &[usize; 256], store: &'a [u8; STORE_ROOM]) -> &'a [u8]
    requires { Tidy rows.now kept × (k < kept.rows) }
    ensures { result.now ≡ name_in rows.now store.now k }
{
    &store[rows[4 * k]..rows[4 * k + 1]]
}

// Row k has this name and is not forgotten.
#[tactic(auto, using(number::proofs::Choice::tests), unfolding(crate::specs::Names::is_kept, crate::specs::Names::state_in))]
fn is_row(name: &[u8], k: usize, kept: Kept, rows: &[usize; 256], store: &[u8; STORE_ROOM]) -> bool
    requires { Tidy rows.now kept × (k < kept.rows) }
    ensures { result ≡ is_kept name.now rows.now store.now k }
{
    if rows[4 * k + 3] == FORGOTTEN {
        return false;
    }
    words::is_same(name_in(k, kept, rows, store), name)
}

/// The first row of this name that is not forgotten; the number of rows where there is none.
#[tactic(auto, using(number::proofs::Scans::misses), unfolding(crate::specs::Names::row_of))]
pub fn row_of(name: &[u8], kept: Kept, rows: &[usize; 256], store: &[u8; STORE_ROOM]) -> usize
    requires { Tidy rows.now kept }
    ensures { (result ≤ kept.rows) × (result ≡ row_of name.now rows.now store.now kept.rows) }
{
    for k in 0..kept.rows {
        if is_row(name, k, kept, rows, store) {
            return k;
        }
    }
    kept.rows
}

/// Where the bytes of row k stand in the store.
pub fn bytes_of(k: usize, kept: Kept, rows: &[usize; 256]) -> Span
    requires { Tidy rows.now kept × (k < kept.rows) }
    ensures { (result.from ≤ result.end) × ((result.end ≤ store_bytes) × ((result.from ≡ get_or rows.now (4 * k + 1) 0) × (result.end ≡ get_or rows.now (4 * k + 2) 0))) }
{
    Span {
        from: rows[4 * k + 1],
        end: rows[4 * k + 2],
    }
}

/// Where the bytes stand that are kept under this name: at the front, and none, where no file is.
#[tactic(auto, using(crate::proofs::FileLaws::row_file, crate::proofs::FileLaws::no_file))]
pub fn file_of(name: &[u8], kept: Kept, rows: &[usize; 256], store: &[u8; STORE_ROOM]) -> Span
    requires { Tidy rows.now kept }
    ensures { (result.from ≤ result.end) × ((result.end ≤ store_bytes) × (part store.now result.from result.end ≡ kept_file name.now kept rows.now store.now)) }
{
    let k = row_of(name, kept, rows, store);
    if k < kept.rows {
        return bytes_of(k, kept, rows);
    }
    Span { from: 0, end: 0 }
}

/// What is kept once there is room for n files more.
#[tactic(auto, using(number::proofs::Choice::tests, crate::proofs::RowLaws::emptied), unfolding(crate::specs::Room::with_room))]
pub fn with_room(kept: Kept, n: usize, rows: &[usize; 256]) -> Kept
    requires { Tidy rows.now kept × ((0 < n) × (n ≤ 2)) }
    ensures { Tidy rows.now result × (Roomy n result × (result ≡ with_room kept n)) }
{
    if 64 < kept.rows + n {
        return Kept { rows: 0, used: 0 };
    }
    if STORE_ROOM - kept.used < n * FILE_ROOM {
        return Kept { rows: 0, used: 0 };
    }
    kept
}

// Row k, of a file with its name from `from` on.
#[tactic(auto, unfolding(crate::specs::Names::row_set))]
fn put_row(k: usize, from: usize, file: Span, state: usize, rows: &mut [usize])
    requires { (k < 64) × (256 ≡ length rows.old) }
    ensures { rows.new ≡ row_set rows.old (4 * k) from file.from file.end state }
{
    rows[4 * k] = from;
    rows[4 * k + 1] = file.from;
    rows[4 * k + 2] = file.end;
    rows[4 * k + 3] = state;
}

/// A row more, of a file whose name starts where the used part of the store ends.
pub fn add(state: usize, file: Span, kept: Kept, rows: &mut [usize; 256]) -> Kept
    requires { Tidy rows.old kept × ((kept.rows < 64) × ((kept.used ≤ file.from) × ((file.from ≤ file.end) × (file.end ≤ store_bytes)))) }
    ensures { Tidy rows.new result × ((result ≡ one_more file kept) × (rows.new ≡ row_added state file kept rows.old)) }
{
    let more = Kept {
        rows: kept.rows + 1,
        used: file.end,
    };
    put_row(kept.rows, kept.used, file, state, rows);
    more
}

// The last parts of two paths are the same.
#[tactic(auto, using(crate::proofs::WrittenLaws::endings))]
fn same_ending(path: &[u8], name: &[u8]) -> bool
    ensures { result ≡ same_ending path.now name.now }
{
    let last = paths::last_part(path);
    let own = paths::last_part(name);
    words::is_same(&path[last..], &name[own..])
}

// Row k may lead to the file that was written at `path`: it is a symbolic link, or ends in the same part.
#[tactic(auto, using(number::proofs::Choice::tests), unfolding(crate::specs::Written::may_lead, crate::specs::Names::state_in))]
fn may_lead(
    path: &[u8],
    k: usize,
    kept: Kept,
    rows: &[usize; 256],
    store: &[u8; STORE_ROOM],
) -> bool
    requires { Tidy rows.now kept × (k < kept.rows) }
    ensures { result ≡ may_lead path.now rows.now store.now k }
{
    if rows[4 * k + 3] == LINK {
        return true;
    }
    same_ending(path, name_in(k, kept, rows, store))
}

/// All rows that may lead to the file that was written at `path` are forgotten.
#[tactic(auto, using(crate::proofs::WrittenLaws::forgets))]
pub fn forget(path: &[u8], kept: Kept, rows: &mut [usize; 256], store: &[u8; STORE_ROOM])
    requires { Tidy rows.old kept }
    ensures tidy { Tidy rows.new kept × (rows.new ≡ forgotten path.now rows.old store.now kept.rows) }
    ensures forgot { Forgot path.now kept rows.old store.now rows.new }
{
    for k in 0..kept.rows {
        if may_lead(path, k, kept, rows, store) {
            rows[4 * k + 3] = FORGOTTEN;
        }
    }
}
