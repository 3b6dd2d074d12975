// The descriptors, each by itself. A refused one that several entries share is read once too.
ghost use Rattle.std.specs.Prelude.{◌≡◌, ◌+◌, ◌*◌, ◌≤◌, ◌<◌, length};
ghost use Rattle.number.specs.Limits.{file_limit, entry_limit, entry_width};
ghost use Rattle.reading.specs.Got.{Accepted};
ghost use Rattle.method.specs.Tables.{Remembered};
ghost use Rattle.typelib.specs.Entry.{read_own};
ghost use Rattle.typelib.specs.Directory.{Lies};
ghost use Rattle.mend.specs.Tables.{own_mark, own_up, Judged};

use crate::Mark;
use method::BLOCK_COUNT;
use number::{ENTRY_LIMIT, ENTRY_WIDTH};
use reading::Context;

// The index above entry k of n, whose descriptor is accepted.
fn parent_of(file: &[u8], pool: &[u8], c: Context, n: usize, d: usize, k: usize) -> usize
    requires { Lies file.now n d × (k < n) × Accepted (read_own c file.now pool.now (d + entry_width * k)) }
    ensures { result ≡ own_up c file.now pool.now d k }
{
    let q = number::u32_at(file, d + ENTRY_WIDTH * k + 24) as usize;
    if q == 0 {
        return 0;
    }
    number::u16_at(pool, q - 1) as usize
}

// What is known of the descriptor of entry k, with a table of methods that were accepted.
fn own_mark(file: &[u8], pool: &[u8], c: Context, d: usize, k: usize, seen: &mut [u32]) -> Mark
    requires { Lies file.now (1 + k) d × (c.base + length pool.now ≤ file_limit) × Remembered c pool.now seen.old }
    ensures { (result ≡ own_mark c file.now pool.now d k) × Remembered c pool.now seen.new }
{
    match typelib::check_again(file, pool, c, d + ENTRY_WIDTH * k, seen) {
        Ok(e) => Mark {
            number: 0,
            place: 0,
            up: parent_of(file, pool, c, 1 + k, d, k),
        },
        Err(why) => Mark {
            number: why.no as usize + 1,
            place: why.place,
            up: 0,
        },
    }
}

// The same, where what is known of those before it stands in the tables: a pointer that leads in decides all of it.
fn shared_mark(
    file: &[u8],
    pool: &[u8],
    c: Context,
    d: usize,
    k: usize,
    numbers: &[usize; ENTRY_LIMIT],
    places: &[usize; ENTRY_LIMIT],
    ups: &[usize; ENTRY_LIMIT],
    seen: &mut [u32],
) -> Mark
    requires { Lies file.now (1 + k) d × (c.base + length pool.now ≤ file_limit) × Judged c file.now pool.now d k numbers.now places.now ups.now × Remembered c pool.now seen.old }
    ensures { (result ≡ own_mark c file.now pool.now d k) × Remembered c pool.now seen.new }
{
    let q = number::u32_at(file, d + ENTRY_WIDTH * k + 24);
    if pool.len() < q as usize {
        return own_mark(file, pool, c, d, k, seen);
    }
    let j = typelib::first_pointing(file, 1 + k, d, k, q);
    if j < k {
        return Mark {
            number: numbers[j],
            place: places[j],
            up: ups[j],
        };
    }
    own_mark(file, pool, c, d, k, seen)
}

// The same of n descriptors, into three tables.
fn judge_with(
    file: &[u8],
    pool: &[u8],
    c: Context,
    n: usize,
    d: usize,
    numbers: &mut [usize; ENTRY_LIMIT],
    places: &mut [usize; ENTRY_LIMIT],
    ups: &mut [usize; ENTRY_LIMIT],
    seen: &mut [u32],
)
    requires { Lies file.now n d × (c.base + length pool.now ≤ file_limit) × (entry_limit ≡ length numbers.old) × (entry_limit ≡ length places.old) × (entry_limit ≡ length ups.old) × Remembered c pool.now seen.old }
    ensures { Judged c file.now pool.now d n numbers.new places.new ups.new × (entry_limit ≡ length numbers.new) × (entry_limit ≡ length places.new) × (entry_limit ≡ length ups.new) }
{
    let mut k: usize = 0;
    while k < n {
        let m = shared_mark(file, pool, c, d, k, numbers, places, ups, seen);
        numbers[k] = m.number;
        places[k] = m.place;
        ups[k] = m.up;
        k += 1;
    }
}

// How far the descriptor at pointer q reaches at least: a method has eight bytes or more.
fn reach(pool: &[u8], q: u32) -> usize {
    let at = q as usize;
    if pool.len() < at + 3 {
        return at;
    }
    at + 8 * (number::u16_at(pool, at + 1) as usize)
}

// Whether a descriptor stands before the end of an earlier one, or before its start. It decides only how they are read.
fn may_overlap(file: &[u8], pool: &[u8], n: usize, d: usize) -> bool
    requires { Lies file.now n d }
{
    let mut k: usize = 0;
    let mut top: usize = 0;
    while k < n {
        let q = number::u32_at(file, d + ENTRY_WIDTH * k + 24);
        if q != 0 {
            if q as usize <= top {
                return true;
            }
            top = reach(pool, q);
        }
        k += 1;
    }
    false
}

// What is known of n descriptors, into three tables.
pub fn judge(
    file: &[u8],
    pool: &[u8],
    c: Context,
    n: usize,
    d: usize,
    numbers: &mut [usize; ENTRY_LIMIT],
    places: &mut [usize; ENTRY_LIMIT],
    ups: &mut [usize; ENTRY_LIMIT],
)
    requires { Lies file.now n d × (c.base + length pool.now ≤ file_limit) × (entry_limit ≡ length numbers.old) × (entry_limit ≡ length places.old) × (entry_limit ≡ length ups.old) }
    ensures { Judged c file.now pool.now d n numbers.new places.new ups.new × (entry_limit ≡ length numbers.new) × (entry_limit ≡ length places.new) × (entry_limit ≡ length ups.new) }
{
    if may_overlap(file, pool, n, d) {
        let mut seen = [0u32; BLOCK_COUNT];
        judge_with(file, pool, c, n, d, numbers, places, ups, &mut seen);
        return;
    }
    let mut none = [0u32; 0];
    judge_with(file, pool, c, n, d, numbers, places, ups, &mut none);
}
