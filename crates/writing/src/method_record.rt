//! Methods.
ghost use Rattle.std.specs.Prelude.{◌≡◌, ◌+◌, ◌≤◌, length};
ghost use Rattle.number.specs.Limits.{file_limit, row_limit};
ghost use Rattle.iids.specs.Cells.{cell};
ghost use Rattle.names.specs.Uses.{use_limit};
ghost use Rattle.reader.specs.Records.{ShowsMethod};
ghost use Rattle.reader.specs.Layout.{Rows};
ghost use Rattle.meaning.specs.Normal.Size.{sum, method_size};
ghost use Rattle.meaning.specs.Normal.Record.{method_bytes};
ghost use Rattle.meaning.specs.Stock.Form.{methods_with};
ghost use Rattle.writing.specs.Source.{Known, MethodFit, renumber};
ghost use Rattle.writing.specs.Wrote.{Room, Wrote};

use crate::field::{copy, put_u32};
use crate::param::{put_param, put_params};
use names::USE_LIMIT;
use number::ROW_LIMIT;

/// The method at `at`, whose name is to lie at the pool pointer q: flags, name pointer, argument count, arguments, result.
pub fn put_method(
    pool: &[u8],
    at: usize,
    q: u32,
    place: &[u16; ROW_LIMIT],
    shift: usize,
    out: &mut [u8],
) -> usize
    requires { Room (Known (ShowsMethod pool.now) (MethodFit shift) at) method_size (length out.old) × ((length pool.now ≤ file_limit) × (row_limit ≡ length place.now)) }
    ensures { Wrote (Known (ShowsMethod pool.now) (MethodFit shift) at) (method_bytes (renumber place.now shift) q) out.old result out.new }
{
    copy(pool, at, 1, out);
    put_u32(out, 1, q);
    copy(pool, at + 5, 1, &mut out[5..]);
    let n = reader::record::argument_count(pool, at);
    let w = 6 + put_params(pool, n, at + 6, place, shift, &mut out[6..]);
    w + put_param(pool, at + w, place, shift, &mut out[w..])
}

/// n methods from `at` on; the name of the first is use u.
pub fn put_methods(
    pool: &[u8],
    n: usize,
    at: usize,
    u: usize,
    places: &[u32; USE_LIMIT],
    place: &[u16; ROW_LIMIT],
    shift: usize,
    out: &mut [u8],
) -> usize
    requires { Room (Rows (Known (ShowsMethod pool.now) (MethodFit shift)) n at) (sum method_size) (length out.old) × ((u + n ≤ use_limit) × ((length pool.now ≤ file_limit) × (row_limit ≡ length place.now))) }
    ensures { Wrote (Rows (Known (ShowsMethod pool.now) (MethodFit shift)) n at) (methods_with (renumber place.now shift) (cell places.now) u) out.old result out.new }
{
    let mut w: usize = 0;
    for k in 0..n {
        let q = places[u + k];
        w += put_method(pool, at + w, q, place, shift, &mut out[w..]);
    }
    w
}
