//! Writes the directory of a normal form that stores each name once, by tables.
#![tactic(auto)]

ghost use Rattle.std.specs.Prelude.{◌≡◌, List, ℕ, ◌+◌, ◌≤◌, length};
ghost use Rattle.std.proofs.lemmas.List.Edits.{sets};
ghost use Rattle.number.specs.Limits.{entry_width};
ghost use Rattle.reader.specs.Values.{Entry};
ghost use Rattle.iids.specs.Cells.{cell};
ghost use Rattle.iids.specs.Numbers.{wide};
ghost use Rattle.names.specs.Uses.{use_limit};
ghost use Rattle.meaning.specs.Stock.Uses.{words_of, at_first};
ghost use Rattle.meaning.specs.Stock.Form.{directory_with};
ghost use Rattle.filing.specs.Listed.{space_of, row_of, Listed, ListFits};

use iids::index;
use names::{USE_LIMIT, pointer};
use number::{ENTRY_WIDTH, ROW_LIMIT};
use writing::field::{put_u32, put_u64};

// The pointer to the namespace of a key that has the uses from u up to e.
fn space_place(places: &[u32; USE_LIMIT], u: usize, e: usize) -> u32
    requires { u + 2 ≤ use_limit }
    ensures { result ≡ space_of (cell places.now) u e }
{
    if e == u + 1 {
        return 0;
    }
    places[u + 1]
}

fn put_entry(high: u64, low: u64, name: u32, space: u32, own: u32, out: &mut [u8])
    requires { entry_width ≤ length out.old }
    ensures { out.new ≡ sets out.old 0 (row_of (wide high low) name space own) }
{
    put_u64(out, 0, high);
    put_u64(out, 8, low);
    put_u32(out, 16, name);
    put_u32(out, 20, space);
    put_u32(out, 24, own);
}

/// The directory of c entries, whose IIDs stand where t tells.
pub fn put_directory(
    high: &[u64; ROW_LIMIT],
    low: &[u64; ROW_LIMIT],
    t: &[u16; ROW_LIMIT],
    starts: &[u32; ROW_LIMIT],
    before: &[u32; ROW_LIMIT],
    owns: &[u32; ROW_LIMIT],
    places: &[u32; USE_LIMIT],
    c: usize,
    out: &mut [u8],
)
    requires { ListFits high.now low.now t.now starts.now before.now owns.now c (length out.old) }
    ensures { (us : List (Entry ℕ)) → Listed high.now low.now t.now starts.now before.now owns.now c us → out.new ≡ sets out.old 0 (directory_with (cell places.now) (at_first (words_of us)) 0 1 us) }
{
    for q in 0..c {
        let r = index(t[q]);
        let u = pointer(starts[q]);
        let space = space_place(places, u, pointer(before[q]));
        put_entry(
            high[r],
            low[r],
            places[u],
            space,
            owns[q],
            &mut out[ENTRY_WIDTH * q..],
        );
    }
}
