//! Writes descriptors, whose names lie where a table of places says, and tells their sizes without writing.
#![tactic(auto)]

ghost use Rattle.std.specs.Prelude.{◌≡◌, ◌⊎◌, ◌≤◌, length};
ghost use Rattle.number.specs.Limits.{file_limit, row_limit};
ghost use Rattle.iids.specs.Cells.{cell};
ghost use Rattle.reader.specs.Records.{ShowsDescriptor};
ghost use Rattle.reader.specs.Layout.{Stands, Tells};
ghost use Rattle.meaning.specs.Normal.Size.{descriptor_size};
ghost use Rattle.meaning.specs.Stock.Form.{descriptor_with};
ghost use Rattle.writing.specs.Source.{Known, InTable, renumber};
ghost use Rattle.interfaces.specs.Source.{DescriptorFit, renumber_parent, ShowsTail, TailAt, TailFit, tail_size, tail_with};
ghost use Rattle.writing.specs.Wrote.{Room, Wrote};

use names::USE_LIMIT;
use number::ROW_LIMIT;
use writing::constant::{constants_end, put_constants};
use writing::field::{copy, put_u16};
use writing::method_record::put_methods;

// What a parent's index r becomes; 0 is none.
fn parent_number(place: &[u16; ROW_LIMIT], shift: usize, r: usize) -> u16
    requires { ((r ≡ 0) ⊎ InTable shift r) × (row_limit ≡ length place.now) }
    ensures { result ≡ renumber_parent place.now shift r }
{
    if r == 0 {
        return 0;
    }
    place[shift + r - 1]
}

// From the constant count at `at` on: the count, the constants, the flags. The name of the first constant is use u.
fn put_tail(pool: &[u8], at: usize, u: usize, places: &[u32; USE_LIMIT], out: &mut [u8]) -> usize
    requires { Room (Known (ShowsTail pool.now) (TailFit u) at) tail_size (length out.old) × (length pool.now ≤ file_limit) }
    ensures { Wrote (Known (ShowsTail pool.now) (TailFit u) at) (tail_with (cell places.now) u) out.old result out.new }
{
    let n = number::u16_at(pool, at);
    put_u16(out, 0, n);
    let w = 2 + put_constants(pool, n as usize, at + 2, u, places, &mut out[2..]);
    w + copy(pool, at + w, 1, &mut out[w..])
}

/// The descriptor at `at`, whose first name is use u: parent, method count, methods, constant count, constants, flags.
pub fn put_descriptor(
    pool: &[u8],
    at: usize,
    u: usize,
    places: &[u32; USE_LIMIT],
    place: &[u16; ROW_LIMIT],
    shift: usize,
    out: &mut [u8],
) -> usize
    requires { Room (Known (ShowsDescriptor pool.now) (DescriptorFit shift u) at) descriptor_size (length out.old) × ((length pool.now ≤ file_limit) × (row_limit ≡ length place.now)) }
    ensures { Wrote (Known (ShowsDescriptor pool.now) (DescriptorFit shift u) at) (descriptor_with (renumber place.now shift) (cell places.now) u) out.old result out.new }
{
    let up = parent_number(place, shift, reader::record::parent_index(pool, at));
    put_u16(out, 0, up);
    let n = number::u16_at(pool, at + 2);
    put_u16(out, 2, n);
    let m = n as usize;
    let w = 4 + put_methods(pool, m, at + 4, u, places, place, shift, &mut out[4..]);
    w + put_tail(pool, at + w, u + m, places, &mut out[w..])
}

// Where the constant count of the descriptor at `at` stands.
fn tail_at(pool: &[u8], at: usize) -> usize
    requires { Stands (ShowsDescriptor pool.now at) × (length pool.now ≤ file_limit) }
    ensures { TailAt pool.now at result }
{
    reader::record::methods_end(pool, reader::record::method_count(pool, at), at + 4)
}

/// The bytes of the descriptor at `at`.
pub fn descriptor_size(pool: &[u8], at: usize) -> usize
    requires { Stands (ShowsDescriptor pool.now at) × (length pool.now ≤ file_limit) }
    ensures { Tells (ShowsDescriptor pool.now at) descriptor_size result }
{
    let p = tail_at(pool, at);
    let n = number::u16_at(pool, p) as usize;
    constants_end(pool, n, p + 2) + 1 - at
}
