// The key of an interface, written for people.
ghost use Rattle.std.specs.Prelude.{◌≡◌, ◌++◌, ◌+◌, ◌-◌, ◌≤◌, length};
ghost use Rattle.std.proofs.lemmas.List.Edits.{sets};
ghost use Rattle.number.specs.Limits.{file_limit};
ghost use Rattle.number.specs.Part.{part};
ghost use Rattle.ascii.specs.Ascii.{ascii};
ghost use Rattle.head.specs.Says.{HeaderAt};
ghost use Rattle.faults.specs.Key.{Written, pointed_key, key_as, read_key, text_of};

use head::Header;
use number::ENTRY_WIDTH;

// The bytes of the pool from one position up to another, from `at` on.
fn put_part(pool: &[u8], from: usize, to: usize, out: &mut [u8], at: usize) -> usize
    requires { (from ≤ to) × (to ≤ length pool.now) × (at + (to - from) ≤ length out.old) }
    ensures { (result ≡ at + (to - from)) × (out.new ≡ sets out.old at (part pool.now from to)) }
{
    text::put_bytes(out, at, &pool[from..to])
}

// Those of a namespace, a dot, and those of a name.
fn put_spaced(pool: &[u8], v: usize, f: usize, q: usize, e: usize, out: &mut [u8]) -> usize
    requires { (v ≤ f) × (f ≤ length pool.now) × (q ≤ e) × (e ≤ length pool.now) × ((f - v) + 1 + (e - q) ≤ length out.old) }
    ensures { (result ≡ (f - v) + 1 + (e - q)) × (out.new ≡ sets out.old 0 ((part pool.now v f ++ ascii ".") ++ part pool.now q e)) }
{
    let dot = put_part(pool, v, f, out, 0);
    let next = text::put_bytes(out, dot, b".");
    put_part(pool, q, e, out, next)
}

// The key of the entry at p, whose pool pointers are q and v.
fn put_key(pool: &[u8], p: usize, q: usize, v: usize, out: &mut [u8; 512]) -> usize
    requires { (p ≤ file_limit) × (length pool.now ≤ file_limit) }
    ensures { Written out.old (text_of (pointed_key pool.now p q v)) result out.new }
{
    let name = name::follow_name(pool, p + 16, q);
    let Ok(e) = name else {
        return 0;
    };
    let space = name::follow_space(pool, p + 20, v);
    let Ok(f) = space else {
        return 0;
    };
    if v == 0 {
        return put_part(pool, q - 1, e - 1, out, 0);
    }
    put_spaced(pool, v - 1, f - 1, q - 1, e - 1, out)
}

// The key of entry i, from 1, of a file with the header h.
fn key_as(file: &[u8], h: Header, i: usize, out: &mut [u8; 512]) -> usize
    requires { HeaderAt file.now h }
    ensures { Written out.old (text_of (key_as h file.now i)) result out.new }
{
    let n = h.count;
    let d = h.directory;
    let pool = h.pool;
    if i == 0 {
        return 0;
    }
    if n < i {
        return 0;
    }
    let p = d + ENTRY_WIDTH * (i - 1);
    let q = number::u32_at(file, p + 16) as usize;
    let v = number::u32_at(file, p + 20) as usize;
    put_key(&file[pool..], p, q, v, out)
}

// The key of interface i, from 1: its text at the front of `out`, and its length, 0 where it cannot be read.
pub fn key_of(file: &[u8], i: usize, out: &mut [u8; 512]) -> usize
    ensures { Written out.old (text_of (read_key file.now i)) result out.new }
{
    match head::read_header(file) {
        Ok(h) => key_as(file, h, i, out),
        Err(why) => 0,
    }
}
