// Where names end: for each block of 64 bytes the first byte from its start on that no name has.
#![tactic(auto)]

ghost use Rattle.std.specs.Prelude.{◌≡◌, ◌+◌, ◌-◌, ◌/◌, ◌≤◌, length};
ghost use Rattle.number.specs.Limits.{file_limit};
ghost use Rattle.number.specs.Scan.{scan};
ghost use Rattle.rdb_stops.specs.Stops.{block, stop_count, no_name, ends_name, name_end, Stopped};

// Bytes of a block.
pub const BLOCK: usize = 64;

// Blocks of a file, and one for its end.
pub const STOP_COUNT: usize = 16385;

fn pointer(x: u32) -> usize
    ensures { result ≡ x }
{
    x as usize
}

// Whether no name has that byte.
fn no_name(b: u8) -> bool
    ensures { result ≡ no_name b }
{
    if b == 0 {
        return true;
    }
    0x80 <= b
}

// The first such byte from `from` on below `to`, or `to`.
fn stop_below(file: &[u8], from: usize, to: usize) -> usize
    requires { (from ≤ to) × (to ≤ length file.now) }
    ensures { result ≡ scan (ends_name file.now) (to - from) from }
{
    let mut i = from;
    while i < to {
        if no_name(file[i]) {
            return i;
        }
        i += 1;
    }
    i
}

// The first such byte from `at` on, or the end of the file, where t has those of the blocks after that of `at`.
pub fn name_end(file: &[u8], t: &[u32], at: usize) -> usize
    requires { (length file.now ≤ file_limit) × (at ≤ length file.now) × (stop_count ≤ length t.now) × Stopped file.now t.now (at / block + 1) }
    ensures { result ≡ name_end file.now at }
{
    let b = at / BLOCK + 1;
    let to = BLOCK * b;
    if file.len() <= to {
        return stop_below(file, at, file.len());
    }
    let i = stop_below(file, at, to);
    if i < to {
        return i;
    }
    pointer(t[b])
}

// The table of a file.
pub fn fill_stops(file: &[u8], t: &mut [u32])
    requires { (length file.now ≤ file_limit) × (stop_count ≤ length t.old) }
    ensures { Stopped file.now t.new 0 }
{
    let mut b = file.len() / BLOCK + 1;
    while 0 < b {
        b -= 1;
        t[b] = name_end(file, t, BLOCK * b) as u32;
    }
}
