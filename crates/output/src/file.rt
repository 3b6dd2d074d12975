//! The bytes of a file.
ghost use Rattle.std.specs.Prelude.{◌≡◌, List, ℕ, length};
ghost use Rattle.number.specs.Limits.{row_limit};
ghost use Rattle.reader.specs.Values.{Entry};
ghost use Rattle.rows.specs.Files.{Given};
ghost use Rattle.output.specs.Stores.{Ready, Stores};

use crate::Unstored;
use crate::measure::measure;
use filing::put_directory;
use front::put_front;
use names::USE_LIMIT;
use number::{ENTRY_WIDTH, FILE_LIMIT, ROW_LIMIT};
use pooling::put_pool;

/// The file of c rows, whose names, namespaces and descriptors three tables lead to, into `out`; nothing is written where it does not fit.
/// The first file has n rows; high and low tell the IIDs of the rows that `order` tells, and `place` the index of every row.
pub fn put_file(
    pool: &[u8],
    other: &[u8],
    n: usize,
    names: &mut [u32; ROW_LIMIT],
    spaces: &[u32; ROW_LIMIT],
    bodies: &[u32; ROW_LIMIT],
    c: usize,
    high: &[u64; ROW_LIMIT],
    low: &[u64; ROW_LIMIT],
    order: &[u16; ROW_LIMIT],
    place: &[u16; ROW_LIMIT],
    minor: u8,
    out: &mut [u8],
) -> Result<usize, Unstored>
    requires { Given (Ready pool.now other.now n names.old spaces.now bodies.now high.now low.now order.now minor c) × ((row_limit ≡ length names.old) × (row_limit ≡ length place.now)) }
    ensures { (us : List (Entry ℕ)) → Ready pool.now other.now n names.old spaces.now bodies.now high.now low.now order.now minor c us → Stores place.now us out.old out.new result }
{
    let mut words = [0u32; USE_LIMIT];
    let mut places = [0u32; USE_LIMIT];
    let mut before = [0u32; ROW_LIMIT];
    let mut owns = [0u32; ROW_LIMIT];
    let m = measure(
        pool,
        other,
        names,
        spaces,
        bodies,
        c,
        &mut words,
        &mut before,
        &mut owns,
        &mut places,
    );
    let size = m.size;
    if FILE_LIMIT < size {
        return Err(Unstored::Long);
    }
    if out.len() < size {
        return Err(Unstored::Short(size));
    }
    let uses = m.uses;
    let at = 36 + ENTRY_WIDTH * c;
    put_pool(
        pool,
        other,
        n,
        &words,
        uses,
        &places,
        &before,
        bodies,
        c,
        place,
        &mut owns,
        &mut out[at..],
    );
    put_directory(
        high,
        low,
        order,
        names,
        &before,
        &owns,
        &places,
        c,
        &mut out[36..],
    );
    put_front(minor, c, size, out);
    Ok(size)
}
