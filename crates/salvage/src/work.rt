// A copy of the file whose reported descriptor pointers are cleared.
ghost use Rattle.std.specs.Prelude.{◌≡◌, ◌+◌, ◌*◌, ◌≤◌, ◌<◌, length};
ghost use Rattle.number.specs.Limits.{file_limit, entry_limit, entry_width};
ghost use Rattle.mend.specs.Cleared.{clear};
ghost use Rattle.mend.specs.Tables.{Parents, number_in};
ghost use Rattle.salvage.specs.Tables.{clear_at, clear_by};

use number::{ENTRY_LIMIT, ENTRY_WIDTH};

// The descriptor pointer of entry k of a directory at d.
fn clear_one(copy: &mut [u8], d: usize, k: usize)
    requires { (d + entry_width * k + entry_width ≤ length copy.old) × (length copy.old ≤ file_limit) }
    ensures { copy.new ≡ clear d (k + 1) copy.old }
{
    let p = d + ENTRY_WIDTH * k + 24;
    copy[p] = 0;
    copy[p + 1] = 0;
    copy[p + 2] = 0;
    copy[p + 3] = 0;
}

// The same, where something is reported of it.
fn clear_at(
    copy: &mut [u8],
    n: usize,
    d: usize,
    k: usize,
    own: &[usize; ENTRY_LIMIT],
    ups: &[usize; ENTRY_LIMIT],
)
    requires { (k < n) × (n ≤ entry_limit) × (d + entry_width * n ≤ length copy.old) × (length copy.old ≤ file_limit) × (entry_limit ≡ length own.now) × (entry_limit ≡ length ups.now) × Parents ups.now n }
    ensures { copy.new ≡ clear_at (number_in own.now ups.now n) d k copy.old }
{
    if mend::number_at(own, ups, n, k) == 0 {
        return;
    }
    clear_one(copy, d, k);
}

// Those of n entries.
pub fn clear_reported(
    copy: &mut [u8],
    n: usize,
    d: usize,
    own: &[usize; ENTRY_LIMIT],
    ups: &[usize; ENTRY_LIMIT],
)
    requires { (n ≤ entry_limit) × (d + entry_width * n ≤ length copy.old) × (length copy.old ≤ file_limit) × (entry_limit ≡ length own.now) × (entry_limit ≡ length ups.now) × Parents ups.now n }
    ensures { copy.new ≡ clear_by (number_in own.now ups.now n) d n copy.old }
{
    let mut k: usize = 0;
    while k < n {
        clear_at(copy, n, d, k, own, ups);
        k += 1;
    }
}
