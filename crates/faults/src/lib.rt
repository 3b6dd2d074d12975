// Of a refusal: which interface it is of, with its key, and which rule was broken.
#![tactic(auto)]

ghost use Rattle.std.specs.Prelude.{◌≡◌, ◌+◌, ◌*◌, ◌≤◌, ◌<◌, length};
ghost use Rattle.number.specs.Limits.{file_limit};
ghost use Rattle.head.specs.Says.{HeaderAt};
ghost use Rattle.typelib.specs.Directory.{Lies};
ghost use Rattle.typelib.specs.Typelib.{pool_of, context_of};
ghost use Rattle.faults.specs.Fault.{first_refused, own_fault, entry_at, fault_with, fault_of, fault_at};

use head::Header;
use number::ENTRY_WIDTH;
use reading::{Context, Refusal};

mod keys;
mod own;

pub use keys::key_of;

// The index, from 1, of the interface that a refusal is of, and the rule that was broken; 0 for none.
#[derive(Drop)]
pub struct Fault {
    pub entry: usize,
    pub rule: u8,
}

// The entry of the directory at d whose bytes hold the place.
fn entry_at(d: usize, place: usize) -> usize
    ensures { result ≡ entry_at d place }
{
    if place < d {
        return 0;
    }
    (place - d) / ENTRY_WIDTH + 1
}

// The fault of a refusal in the descriptor of entry k of n.
fn own_fault(
    file: &[u8],
    pool: &[u8],
    c: Context,
    n: usize,
    d: usize,
    why: Refusal,
    k: usize,
) -> Fault
    requires { Lies file.now n d × (c.base + length pool.now ≤ file_limit) }
    ensures { result ≡ own_fault c file.now pool.now n d why k }
{
    if n <= k {
        return Fault { entry: 0, rule: 0 };
    }
    let no = why.no;
    let place = why.place;
    if no != 16 {
        return Fault {
            entry: k + 1,
            rule: 0,
        };
    }
    let q = number::u32_at(file, d + ENTRY_WIDTH * k + 24) as usize;
    Fault {
        entry: k + 1,
        rule: broken::own_rule(pool, c, q, place),
    }
}

// The same of the first entry whose descriptor is refused.
fn fault_behind(file: &[u8], pool: &[u8], c: Context, n: usize, d: usize, why: Refusal) -> Fault
    requires { Lies file.now n d × (c.base + length pool.now ≤ file_limit) }
    ensures { result ≡ own_fault c file.now pool.now n d why (first_refused c file.now pool.now n d) }
{
    let k = crate::own::first_refused(file, pool, c, n, d);
    own_fault(file, pool, c, n, d, why, k)
}

// The fault of a refusal in a file with the header h.
fn fault_with(file: &[u8], h: Header, why: Refusal) -> Fault
    requires { HeaderAt file.now h }
    ensures { result ≡ fault_with h file.now why }
{
    let n = h.count;
    let d = h.directory;
    let pool = h.pool;
    let minor = h.minor as usize;
    let place = why.place;
    if place < d + ENTRY_WIDTH * n {
        return Fault {
            entry: entry_at(d, place),
            rule: 0,
        };
    }
    let c = Context {
        base: pool,
        minor,
        count: n,
    };
    fault_behind(file, &file[pool..], c, n, d, why)
}

// The fault of the refusal that the check of a file gave.
pub fn fault_of(file: &[u8], why: Refusal) -> Fault
    ensures { result ≡ fault_of file.now why }
{
    let no = why.no;
    let place = why.place;
    if no == 8 {
        return Fault {
            entry: 0,
            rule: broken::position_rule(file, place),
        };
    }
    if no < 10 {
        return Fault { entry: 0, rule: 0 };
    }
    if 19 < no {
        return Fault { entry: 0, rule: 0 };
    }
    match head::read_header(file) {
        Ok(h) => fault_with(file, h, why),
        Err(x) => Fault { entry: 0, rule: 0 },
    }
}

// The fault of a refusal in the descriptor of entry k, from 0, of a file with the header h.
fn own_with(file: &[u8], h: Header, why: Refusal, k: usize) -> Fault
    requires { HeaderAt file.now h }
    ensures { result ≡ own_fault (context_of h) file.now (pool_of h file.now) h.count h.directory why k }
{
    let n = h.count;
    let d = h.directory;
    let pool = h.pool;
    let minor = h.minor as usize;
    let c = Context {
        base: pool,
        minor,
        count: n,
    };
    own_fault(file, &file[pool..], c, n, d, why, k)
}

// The fault of a refusal that is told of entry i, from 1.
pub fn fault_at(file: &[u8], i: usize, why: Refusal) -> Fault
    ensures { result ≡ fault_at file.now i why }
{
    if i == 0 {
        return Fault { entry: 0, rule: 0 };
    }
    match head::read_header(file) {
        Ok(h) => own_with(file, h, why, i - 1),
        Err(x) => Fault { entry: 0, rule: 0 },
    }
}
