// What follows the front of a file.
ghost use Rattle.std.specs.Prelude.{◌≡◌, false, ◌≤◌, length};
ghost use Rattle.number.specs.Limits.{file_limit, entry_limit};
ghost use Rattle.number.specs.Scan.{scan};
ghost use Rattle.typelib.specs.Across.{repeated};
ghost use Rattle.typelib.specs.Directory.{key_on};
ghost use Rattle.typelib.specs.Typelib.{Fronted, pool_of, context_of};
ghost use Rattle.mend.specs.Tables.{Judged, number_in};
ghost use Rattle.salvage.specs.Salvage.{Salvages, too_short};
ghost use Rattle.salvage.specs.Tables.{clear_by};

use crate::Remains;
use head::Header;
use number::{ENTRY_LIMIT, ENTRY_WIDTH};
use reading::{Context, Refusal, Rule};

// What is reported of each entry, into tables, and the file with those descriptor pointers cleared, into a copy.
fn mend_copy(
    file: &[u8],
    pool: &[u8],
    h: Header,
    copy: &mut [u8],
    own: &mut [usize; ENTRY_LIMIT],
    at: &mut [usize; ENTRY_LIMIT],
    ups: &mut [usize; ENTRY_LIMIT],
)
    requires { Fronted file.now h × (pool.now ≡ pool_of h file.now) × (length copy.old ≡ length file.now) × (entry_limit ≡ length own.old) × (entry_limit ≡ length at.old) × (entry_limit ≡ length ups.old) }
    ensures { Judged (context_of h) file.now (pool_of h file.now) h.directory h.count own.new at.new ups.new × (copy.new ≡ clear_by (number_in own.new ups.new h.count) h.directory h.count file.now) × (entry_limit ≡ length own.new) × (entry_limit ≡ length at.new) × (entry_limit ≡ length ups.new) }
{
    let n = h.count;
    let d = h.directory;
    let minor = h.minor as usize;
    let c = Context {
        base: h.pool,
        minor,
        count: n,
    };
    mend::judge(file, pool, c, n, d, own, at, ups);
    text::put_bytes(copy, 0, file);
    crate::work::clear_reported(copy, n, d, own, ups);
}

// What is left, where keys are unique and the lists are long enough.
fn salvage_left(
    file: &[u8],
    pool: &[u8],
    h: Header,
    copy: &mut [u8],
    indexes: &mut [u64],
    numbers: &mut [u64],
    places: &mut [u64],
    out: &mut [u8],
) -> Result<Remains, Refusal>
    requires { Fronted file.now h × (pool.now ≡ pool_of h file.now) × (length copy.old ≡ length file.now) × (h.count ≤ scan (repeated (key_on file.now pool.now h.directory)) h.count 0) × (too_short (length indexes.old) (length numbers.old) (length places.old) ≡ false) }
    ensures { Salvages file.now (record { indexes = indexes.old; numbers = numbers.old; places = places.old; out = out.old }) result (record { indexes = indexes.new; numbers = numbers.new; places = places.new; out = out.new }) }
{
    let mut own = [0usize; ENTRY_LIMIT];
    let mut at = [0usize; ENTRY_LIMIT];
    let mut ups = [0usize; ENTRY_LIMIT];
    mend_copy(file, pool, h, copy, &mut own, &mut at, &mut ups);
    match link::normalise_accepted(copy, out) {
        Ok(length) => {
            let n = h.count;
            let d = h.directory;
            let changed = crate::reports::put_reports(
                &own, &at, &ups, n, d, indexes, numbers, places,
            );
            Ok(Remains { length, changed })
        }
        Err(why) => Err(why),
    }
}

// Whether one of the lists is under 1,024.
fn too_short(indexes: usize, numbers: usize, places: usize) -> bool
    ensures { result ≡ too_short indexes numbers places }
{
    if indexes < ENTRY_LIMIT {
        return true;
    }
    if numbers < ENTRY_LIMIT {
        return true;
    }
    places < ENTRY_LIMIT
}

// 18 and 38, then what is left.
fn salvage_behind(
    file: &[u8],
    pool: &[u8],
    h: Header,
    copy: &mut [u8],
    indexes: &mut [u64],
    numbers: &mut [u64],
    places: &mut [u64],
    out: &mut [u8],
) -> Result<Remains, Refusal>
    requires { Fronted file.now h × (pool.now ≡ pool_of h file.now) × (length copy.old ≡ length file.now) }
    ensures { Salvages file.now (record { indexes = indexes.old; numbers = numbers.old; places = places.old; out = out.old }) result (record { indexes = indexes.new; numbers = numbers.new; places = places.new; out = out.new }) }
{
    let n = h.count;
    let d = h.directory;
    let i = typelib::first_repeated(file, pool, n, d);
    if i < n {
        return Err(Rule::KeyTwice.at(d + ENTRY_WIDTH * i));
    }
    if too_short(indexes.len(), numbers.len(), places.len()) {
        return Err(Rule::Reports.at(ENTRY_LIMIT));
    }
    salvage_left(file, pool, h, copy, indexes, numbers, places, out)
}

// All of it, the pool being the part of the file from its offset on, and the copy as long as the file.
pub fn salvage_front(
    file: &[u8],
    h: Header,
    work: &mut [u8],
    indexes: &mut [u64],
    numbers: &mut [u64],
    places: &mut [u64],
    out: &mut [u8],
) -> Result<Remains, Refusal>
    requires { Fronted file.now h × (file_limit ≤ length work.old) }
    ensures { Salvages file.now (record { indexes = indexes.old; numbers = numbers.old; places = places.old; out = out.old }) result (record { indexes = indexes.new; numbers = numbers.new; places = places.new; out = out.new }) }
{
    let pool = h.pool;
    let len = file.len();
    salvage_behind(
        file,
        &file[pool..],
        h,
        &mut work[..len],
        indexes,
        numbers,
        places,
        out,
    )
}
