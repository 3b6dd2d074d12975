//! Constants.
ghost use Rattle.std.specs.Prelude.{◌+◌, ◌≤◌, length};
ghost use Rattle.number.specs.Limits.{file_limit};
ghost use Rattle.iids.specs.Cells.{cell};
ghost use Rattle.names.specs.Uses.{use_limit};
ghost use Rattle.reader.specs.Records.{ShowsConstant};
ghost use Rattle.reader.specs.Layout.{Stands, Ends, Rows};
ghost use Rattle.meaning.specs.Normal.Size.{sum, constant_size};
ghost use Rattle.meaning.specs.Normal.Record.{constant_bytes};
ghost use Rattle.meaning.specs.Stock.Form.{constants_with};
ghost use Rattle.writing.specs.Wrote.{Room, Wrote};

use crate::field::{copy, put_u32};
use names::USE_LIMIT;

/// The constant at `at`, whose name is to lie at the pool pointer q: name pointer; type byte and value as they are.
pub fn put_constant(pool: &[u8], at: usize, q: u32, out: &mut [u8]) -> usize
    requires { Room (ShowsConstant pool.now at) constant_size (length out.old) × (length pool.now ≤ file_limit) }
    ensures { Wrote (ShowsConstant pool.now at) (constant_bytes q) out.old result out.new }
{
    put_u32(out, 0, q);
    4 + copy(
        pool,
        at + 4,
        1 + reader::record::value_size(pool, at),
        &mut out[4..],
    )
}

/// n constants from `at` on; the name of the first is use u.
pub fn put_constants(
    pool: &[u8],
    n: usize,
    at: usize,
    u: usize,
    places: &[u32; USE_LIMIT],
    out: &mut [u8],
) -> usize
    requires { Room (Rows (ShowsConstant pool.now) n at) (sum constant_size) (length out.old) × ((u + n ≤ use_limit) × (length pool.now ≤ file_limit)) }
    ensures { Wrote (Rows (ShowsConstant pool.now) n at) (constants_with (cell places.now) u) out.old result out.new }
{
    let mut w: usize = 0;
    for k in 0..n {
        let q = places[u + k];
        w += put_constant(pool, at + w, q, &mut out[w..]);
    }
    w
}

/// Where n constants from `at` on end.
pub fn constants_end(pool: &[u8], n: usize, at: usize) -> usize
    requires { Stands (Rows (ShowsConstant pool.now) n at) × (length pool.now ≤ file_limit) }
    ensures { Ends (Rows (ShowsConstant pool.now) n at) result }
{
    let mut p = at;
    for _ in 0..n {
        p = reader::record::constant_end(pool, p);
    }
    p
}
