//! Typelibs as libxpt writes them, moved into the published layout.
#![tactic(auto)]

ghost use Rattle.std.specs.Prelude.{◌≡◌, ◌+◌, ◌≤◌, ◌<◌, length, replicate};
ghost use Rattle.std.proofs.lemmas.List.Edits.{sets};
ghost use Rattle.number.specs.Limits.{file_limit};
ghost use Rattle.number.specs.Number.{be};
ghost use Rattle.reader.specs.Records.{Bytes};
ghost use Rattle.joining.specs.Outcome.{refusal, in_room, after, normalised_as};
ghost use Rattle.genuine.specs.Headed.{Headed};
ghost use Rattle.adopt.specs.Adopt.{head_bytes, moved_bytes, fitted, moved_of, adopt_answer, adopt_buffer};

use number::{ENTRY_WIDTH, FILE_LIMIT};
use reading::{Refusal, Rule};

// n zero bytes from `at` on.
fn put_zeros(out: &mut [u8], at: usize, n: usize)
    requires { at + n ≤ length out.old }
    ensures { out.new ≡ sets out.old at (replicate n 0) }
{
    for i in 0..n {
        out[at + i] = 0;
    }
}

// The header of a file that has z more bytes before its pool, and this directory offset.
fn put_head(file: &[u8], z: usize, directory: usize, out: &mut [u8])
    requires { (32 ≤ length file.now) × (length file.now + z ≤ file_limit) × (be 4 file.now 28 ≤ length file.now) × (directory ≤ file_limit) × (32 ≤ length out.old) }
    ensures { out.new ≡ sets out.old 0 (head_bytes file.now z directory) }
{
    let pool = number::u32_at(file, 28) as usize;
    text::put_bytes(out, 0, &file[0..20]);
    writing::field::put_u32(out, 20, (file.len() + z) as u32);
    writing::field::put_u32(out, 24, directory as u32);
    writing::field::put_u32(out, 28, (pool + z) as u32);
}

// The file with that header, and z zero bytes put in at `cut`.
fn put_moved(file: &[u8], cut: usize, z: usize, directory: usize, out: &mut [u8])
    requires { (32 ≤ cut) × (cut ≤ length file.now) × (length file.now + z ≤ file_limit) × (be 4 file.now 28 ≤ length file.now) × (directory ≤ file_limit) × (length file.now + z ≤ length out.old) }
    ensures { out.new ≡ sets out.old 0 (moved_bytes file.now cut z directory) }
{
    put_head(file, z, directory, out);
    text::put_bytes(out, 32, &file[32..cut]);
    put_zeros(out, cut, z);
    text::put_bytes(out, cut + z, &file[cut..]);
}

// 26, 27, or that file.
fn put_fitted(
    file: &[u8],
    cut: usize,
    z: usize,
    directory: usize,
    out: &mut [u8],
) -> Result<usize, Refusal>
    requires { (32 ≤ cut) × (cut ≤ length file.now) × (length file.now ≤ file_limit) × (z ≤ 3) × (be 4 file.now 28 ≤ length file.now) × (directory ≤ file_limit) }
    ensures { (result ≡ normalised_as (in_room refusal (length out.old) (fitted (moved_bytes file.now cut z directory)))) × (out.new ≡ after (in_room refusal (length out.old) (fitted (moved_bytes file.now cut z directory))) out.old) }
{
    let size = file.len() + z;
    if FILE_LIMIT < size {
        return Err(Rule::OutputLimit.at(0));
    }
    if out.len() < size {
        return Err(Rule::Room.at(size));
    }
    put_moved(file, cut, z, directory, out);
    Ok(size)
}

// A file whose header has no fault but that of its directory.
fn adopt_headed(file: &[u8], out: &mut [u8]) -> Result<usize, Refusal>
    requires { Headed file.now }
    ensures { (result ≡ normalised_as (in_room refusal (length out.old) (moved_of file.now))) × (out.new ≡ after (in_room refusal (length out.old) (moved_of file.now)) out.old) }
{
    let n = number::u16_at(file, 18) as usize;
    let field = number::u32_at(file, 24) as usize;
    let pool = number::u32_at(file, 28) as usize;
    if n == 0 {
        return put_fitted(file, 32, 0, 0, out);
    }
    if field <= 33 {
        return Err(Rule::Positions.at(24));
    }
    let start = field - 1;
    if pool < start + ENTRY_WIDTH * n {
        return Err(Rule::Positions.at(24));
    }
    let z = (4 - start % 4) % 4;
    put_fitted(file, start, z, start + z, out)
}

/// A file in the published layout into `out`, where its directory offset counts from 1.
pub fn adopt(file: &[u8], out: &mut [u8]) -> Result<usize, Refusal>
    ensures { (result ≡ adopt_answer file.now out.old) × (out.new ≡ adopt_buffer file.now out.old) × Bytes file.now }
{
    match head::read_header(file) {
        Ok(_) => adopt_headed(file, out),
        Err(why) => {
            if why.no != 8 {
                return Err(why);
            }
            if why.place != 24 {
                return Err(why);
            }
            adopt_headed(file, out)
        }
    }
}
