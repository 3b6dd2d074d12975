// Parent cycles among the descriptors that are not refused, and what is reported of each entry.
ghost use Rattle.std.specs.Prelude.{◌≡◌, ◌+◌, ◌*◌, ◌≤◌, ◌<◌, length};
ghost use Rattle.number.specs.Limits.{file_limit, entry_limit};
ghost use Rattle.rules.specs.Rules.{rise};
ghost use Rattle.mend.specs.Cycle.{returns};
ghost use Rattle.mend.specs.Tables.{Parents, up_in, number_in, place_in};

use number::{ENTRY_LIMIT, ENTRY_WIDTH};

// One step up from an index, counted from 1.
fn step_up(ups: &[usize; ENTRY_LIMIT], i: usize) -> usize
    requires { (i ≤ entry_limit) × (entry_limit ≡ length ups.now) }
    ensures { result ≡ rise (up_in ups.now) i }
{
    if i == 0 {
        return 0;
    }
    ups[i - 1]
}

// Whether steps up from entry k of n lead back to it.
fn comes_back(ups: &[usize; ENTRY_LIMIT], n: usize, k: usize) -> bool
    requires { (k < n) × (n ≤ entry_limit) × (entry_limit ≡ length ups.now) × Parents ups.now n }
    ensures { result ≡ returns (up_in ups.now) n k }
{
    let mut i = k + 1;
    let mut t: usize = 0;
    while t < n {
        i = step_up(ups, i);
        if i == k + 1 {
            return true;
        }
        t += 1;
    }
    false
}

// The number that is reported of entry k of n, and 1 more; 0 for none.
pub fn number_at(
    numbers: &[usize; ENTRY_LIMIT],
    ups: &[usize; ENTRY_LIMIT],
    n: usize,
    k: usize,
) -> usize
    requires { (k < n) × (n ≤ entry_limit) × (entry_limit ≡ length numbers.now) × (entry_limit ≡ length ups.now) × Parents ups.now n }
    ensures { result ≡ number_in numbers.now ups.now n k }
{
    let own = numbers[k];
    if own != 0 {
        return own;
    }
    if comes_back(ups, n, k) {
        return 20;
    }
    0
}

// Its place.
pub fn place_at(
    numbers: &[usize; ENTRY_LIMIT],
    places: &[usize; ENTRY_LIMIT],
    d: usize,
    k: usize,
) -> usize
    requires { (k < entry_limit) × (d ≤ file_limit) × (entry_limit ≡ length numbers.now) × (entry_limit ≡ length places.now) }
    ensures { result ≡ place_in numbers.now places.now d k }
{
    if numbers[k] != 0 {
        return places[k];
    }
    d + ENTRY_WIDTH * k
}
