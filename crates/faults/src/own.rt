// The first entry whose descriptor is refused. A descriptor that several entries share is read once.
ghost use Rattle.std.specs.Prelude.{◌≡◌, ◌+◌, ◌*◌, ◌≤◌, ◌<◌, length};
ghost use Rattle.number.specs.Limits.{file_limit, entry_width};
ghost use Rattle.number.specs.Scan.{some};
ghost use Rattle.typelib.specs.Entry.{read_own};
ghost use Rattle.typelib.specs.Own.{Settled};
ghost use Rattle.typelib.specs.Directory.{Lies, points_to};
ghost use Rattle.broken.specs.Stop.{is_bad};
ghost use Rattle.faults.specs.Fault.{refused_own, first_refused};

use number::ENTRY_WIDTH;
use reading::Context;

// Whether the descriptor of the entry at p is refused.
fn bad_own(file: &[u8], pool: &[u8], c: Context, p: usize) -> bool
    requires { (p + entry_width ≤ length file.now) × (length file.now ≤ file_limit) × (c.base + length pool.now ≤ file_limit) }
    ensures { result ≡ is_bad (read_own c file.now pool.now p) }
{
    let q = number::u32_at(file, p + 24) as usize;
    if q == 0 {
        return false;
    }
    if pool.len() < q {
        return true;
    }
    let r = descriptor::read_descriptor(pool, c, q - 1);
    let Ok(e) = r else {
        return true;
    };
    false
}

// Whether one of the first k entries has the descriptor pointer q.
fn stood_earlier(file: &[u8], n: usize, d: usize, k: usize, q: u32) -> bool
    requires { Lies file.now n d × (k ≤ n) }
    ensures { result ≡ some (points_to file.now d q) k }
{
    let mut j: usize = 0;
    while j < k {
        if number::u32_at(file, d + ENTRY_WIDTH * j + 24) == q {
            return true;
        }
        j += 1;
    }
    false
}

// Whether the descriptor of entry k is refused, where those before it are not.
fn refused_own(file: &[u8], pool: &[u8], c: Context, n: usize, d: usize, k: usize) -> bool
    requires { Lies file.now n d × (k < n) × (c.base + length pool.now ≤ file_limit) × Settled c file.now pool.now d k }
    ensures { result ≡ refused_own c file.now pool.now d k }
{
    let p = d + ENTRY_WIDTH * k;
    if stood_earlier(file, n, d, k, number::u32_at(file, p + 24)) {
        return false;
    }
    bad_own(file, pool, c, p)
}

// The first of n entries whose descriptor is refused, or n.
pub fn first_refused(file: &[u8], pool: &[u8], c: Context, n: usize, d: usize) -> usize
    requires { Lies file.now n d × (c.base + length pool.now ≤ file_limit) }
    ensures { result ≡ first_refused c file.now pool.now n d }
{
    let mut k: usize = 0;
    while k < n {
        if refused_own(file, pool, c, n, d, k) {
            return k;
        }
        k += 1;
    }
    k
}
