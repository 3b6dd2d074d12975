//! An IID in the sorted directory of an accepted file, found by halving.
#![tactic(auto)]

ghost use Rattle.std.specs.Prelude.{◌≡◌, List, ℕ, ◌+◌, ◌≤◌, length};
ghost use Rattle.number.specs.Number.{be};
ghost use Rattle.reader.specs.Values.{Entry};
ghost use Rattle.reader.specs.Layout.{LaidOut, Lies};
ghost use Rattle.halving.specs.Halving.{compare_numbers, iid_looked};

use reader::Layout;
use std::cmp::Ordering;

/// The index of the entry with that IID, if there is one, and how many entries were looked at.
#[derive(Clone, Copy, Debug, PartialEq, Eq)]
pub enum Looked {
    Found(usize, usize),
    None(usize),
}

// The sixteen bytes at p against those at the front of `iid`.
fn compare_iid(file: &[u8], p: usize, iid: &[u8]) -> Ordering
    requires { (p + 16 ≤ length file.now) × (16 ≤ length iid.now) }
    ensures { result ≡ compare_numbers (be 16 file.now p) (be 16 iid.now 0) }
{
    let a = number::u64_at(file, p);
    let b = number::u64_at(file, p + 8);
    let c = number::u64_at(iid, 0);
    let d = number::u64_at(iid, 8);
    if a < c {
        return Ordering::Less;
    }
    if c < a {
        return Ordering::Greater;
    }
    if b < d {
        return Ordering::Less;
    }
    if d < b {
        return Ordering::Greater;
    }
    Ordering::Equal
}

/// The entry with the IID at the front of `iid`. Of the entries, counted from 1, those from `low` to `high` are left.
pub fn look(file: &[u8], l: Layout, iid: &[u8]) -> Looked
    requires { Lies file.now l × (16 ≤ length iid.now) }
    ensures { (es : List (Entry ℕ)) → LaidOut file.now l es → result ≡ iid_looked es (be 16 iid.now 0) }
{
    let mut low: usize = 1;
    let mut high = l.count;
    let mut looks: usize = 0;
    while low <= high {
        let middle = (low + high) / 2;
        looks += 1;
        match compare_iid(file, reader::entry::iid_place(file, l, middle - 1), iid) {
            Ordering::Less => low = middle + 1,
            Ordering::Equal => return Looked::Found(middle, looks),
            Ordering::Greater => high = middle - 1,
        }
    }
    Looked::None(looks)
}
