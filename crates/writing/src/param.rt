//! Types and parameters.
ghost use Rattle.std.specs.Prelude.{◌≡◌, ◌∷◌, ◌+◌, ◌≤◌, length, get_or};
ghost use Rattle.std.proofs.lemmas.List.Edits.{sets};
ghost use Rattle.number.specs.Limits.{file_limit, row_limit};
ghost use Rattle.number.specs.Number.{be};
ghost use Rattle.reader.specs.Records.{ShowsType, ShowsParam};
ghost use Rattle.reader.specs.Layout.{Rows};
ghost use Rattle.meaning.specs.Refs.{TypeRefs, ParamRefs};
ghost use Rattle.meaning.specs.Normal.BigEndian.{bytes_of};
ghost use Rattle.meaning.specs.Normal.Size.{sum, type_size, param_size};
ghost use Rattle.meaning.specs.Normal.Record.{run, type_bytes, param_bytes};
ghost use Rattle.writing.specs.Source.{Known, renumber, InTable};
ghost use Rattle.writing.specs.Wrote.{Room, Wrote};

use crate::field::{copy, put_u16};
use number::ROW_LIMIT;
use reader::record::Form;

// A prefix, and the index that the two bytes after it become.
fn put_interface(
    pool: &[u8],
    at: usize,
    place: &[u16; ROW_LIMIT],
    shift: usize,
    out: &mut [u8],
) -> usize
    requires { (at + 3 ≤ length pool.now) × (InTable shift (be 2 pool.now (at + 1)) × ((3 ≤ length out.old) × (row_limit ≡ length place.now))) }
    ensures { (result ≡ 3) × (out.new ≡ sets out.old 0 (get_or pool.now at 0 ∷ bytes_of 2 (renumber place.now shift (be 2 pool.now (at + 1))))) }
{
    out[0] = pool[at];
    let r = number::u16_at(pool, at + 1);
    let index = place[shift + r as usize - 1];
    put_u16(out, 1, index);
    3
}

/// The type at `at`. An array is three bytes, and then its element.
pub fn put_type(
    pool: &[u8],
    at: usize,
    place: &[u16; ROW_LIMIT],
    shift: usize,
    out: &mut [u8],
) -> usize
    requires { Room (Known (ShowsType pool.now) (TypeRefs (InTable shift)) at) type_size (length out.old) × ((length pool.now ≤ file_limit) × (row_limit ≡ length place.now)) }
    ensures { Wrote (Known (ShowsType pool.now) (TypeRefs (InTable shift)) at) (type_bytes (renumber place.now shift)) out.old result out.new }
{
    let f = reader::record::form_of(pool[at]);
    match f {
        Form::Simple => copy(pool, at, 1, out),
        Form::Interface => put_interface(pool, at, place, shift, out),
        Form::InterfaceIs => copy(pool, at, 2, out),
        Form::Array => {
            let n = copy(pool, at, 3, out);
            n + put_type(pool, at + 3, place, shift, &mut out[n..])
        }
        Form::Sized => copy(pool, at, 3, out),
    }
}

/// The parameter at `at`: flags, type.
pub fn put_param(
    pool: &[u8],
    at: usize,
    place: &[u16; ROW_LIMIT],
    shift: usize,
    out: &mut [u8],
) -> usize
    requires { Room (Known (ShowsParam pool.now) (ParamRefs (InTable shift)) at) param_size (length out.old) × ((length pool.now ≤ file_limit) × (row_limit ≡ length place.now)) }
    ensures { Wrote (Known (ShowsParam pool.now) (ParamRefs (InTable shift)) at) (param_bytes (renumber place.now shift)) out.old result out.new }
{
    let n = copy(pool, at, 1, out);
    n + put_type(pool, at + 1, place, shift, &mut out[n..])
}

/// n parameters from `at` on. They have as many bytes in the pool as here.
pub fn put_params(
    pool: &[u8],
    n: usize,
    at: usize,
    place: &[u16; ROW_LIMIT],
    shift: usize,
    out: &mut [u8],
) -> usize
    requires { Room (Rows (Known (ShowsParam pool.now) (ParamRefs (InTable shift))) n at) (sum param_size) (length out.old) × ((length pool.now ≤ file_limit) × (row_limit ≡ length place.now)) }
    ensures { Wrote (Rows (Known (ShowsParam pool.now) (ParamRefs (InTable shift))) n at) (run (param_bytes (renumber place.now shift))) out.old result out.new }
{
    let mut w: usize = 0;
    for _ in 0..n {
        w += put_param(pool, at + w, place, shift, &mut out[w..]);
    }
    w
}
