// The directory.
#![tactic(auto)]

ghost use Rattle.std.specs.Prelude.{◌⊎◌, IfOk, ◌≡◌, ◌+◌, ◌*◌, ◌≤◌, length, drop};
ghost use Rattle.number.specs.Limits.{file_limit, entry_width};
ghost use Rattle.number.specs.Choice.{◌=?◌};
ghost use Rattle.number.specs.Number.{be};
ghost use Rattle.reading.specs.Got.{step_of};
ghost use Rattle.directory.specs.Directory.{falls, out_of_order, lacks_iid, read_row, read_directory};

use number::ENTRY_WIDTH;
use reading::{Refusal, Rule};

// Whether the IID at `at` is zero.
pub fn zero_iid(file: &[u8], at: usize) -> bool
    requires { at + 16 ≤ length file.now }
    ensures { result ≡ (be 16 file.now at =? 0) }
{
    if number::u64_at(file, at) == 0 {
        return number::u64_at(file, at + 8) == 0;
    }
    false
}

// Whether the IID at `p` must not be followed by the one at `q`.
pub fn iid_falls(file: &[u8], p: usize, q: usize) -> bool
    requires { (p + 16 ≤ length file.now) × (q + 16 ≤ length file.now) }
    ensures { result ≡ falls (be 16 file.now p) (be 16 file.now q) }
{
    if zero_iid(file, p) {
        return false;
    }
    let a = number::u64_at(file, p);
    let a_low = number::u64_at(file, p + 8);
    let b = number::u64_at(file, q);
    let b_low = number::u64_at(file, q + 8);
    if a < b {
        return false;
    }
    if b < a {
        return true;
    }
    if a_low < b_low {
        return false;
    }
    true
}

// Whether the entry at p of the directory at d is out of order.
#[tactic(auto, using(number::proofs::Choice::tests), unfolding(crate::specs::Directory::out_of_order))]
fn out_of_order(file: &[u8], d: usize, p: usize) -> bool
    requires start { (p ≡ d) ⊎ (d + entry_width ≤ p) }
    requires within { p + entry_width ≤ length file.now }
    ensures { result ≡ out_of_order file.now d p }
{
    if p == d {
        return false;
    }
    iid_falls(file, p - ENTRY_WIDTH, p)
}

// Whether the entry at p has a descriptor and a zero IID.
fn lacks_iid(file: &[u8], p: usize) -> bool
    requires { p + entry_width ≤ length file.now }
    ensures { result ≡ lacks_iid (be 16 file.now p) (be 4 file.now (p + 24)) }
{
    if number::u32_at(file, p + 24) == 0 {
        return false;
    }
    zero_iid(file, p)
}

// The entry at p of the directory at d.
#[tactic(auto, using(reading::proofs::Steps::walks), unfolding(crate::specs::Directory::read_row, reading::specs::Got::next))]
fn check_row(file: &[u8], pool: &[u8], d: usize, p: usize) -> Result<usize, Refusal>
    requires start { (p ≡ d) ⊎ (d + entry_width ≤ p) }
    requires within { p + entry_width ≤ length file.now }
    ensures reads { result ≡ step_of (read_row file.now pool.now d p) }
    ensures width { IfOk result (λ e. e ≡ p + entry_width) }
{
    if out_of_order(file, d, p) {
        return Err(Rule::IidOrder.at(p));
    }
    name::follow_name(pool, p + 16, number::u32_at(file, p + 16) as usize)?;
    name::follow_space(pool, p + 20, number::u32_at(file, p + 20) as usize)?;
    if lacks_iid(file, p) {
        return Err(Rule::Iid.at(p + 24));
    }
    Ok(p + ENTRY_WIDTH)
}

// The n entries from d on.
#[tactic(auto, using(reading::proofs::Loops::records), unfolding(crate::specs::Directory::read_directory))]
fn check_rows(file: &[u8], pool: &[u8], n: usize, d: usize) -> Result<usize, Refusal>
    requires { (d + entry_width * n ≤ length file.now) × (length file.now ≤ file_limit) }
    ensures { result ≡ step_of (read_directory file.now pool.now n d) }
{
    let mut p = d;
    for _ in 0..n {
        p = check_row(file, pool, d, p)?;
    }
    Ok(p)
}

// The same, with the pool as the part of the file from its offset on.
pub fn check_directory(
    file: &[u8],
    n: usize,
    directory: usize,
    pool: usize,
) -> Result<usize, Refusal>
    requires { (directory + entry_width * n ≤ pool) × (pool ≤ length file.now) × (length file.now ≤ file_limit) }
    ensures { result ≡ step_of (read_directory file.now (drop pool file.now) n directory) }
{
    check_rows(file, &file[pool..], n, directory)
}
