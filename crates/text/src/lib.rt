//! The text that the programs print. Each writer answers the place after what it wrote.
#![tactic(auto)]

ghost use Rattle.std.specs.Prelude.{◌≡◌, ◌++◌, ◌+◌, ◌*◌, ◌≤◌, ◌<◌, length, Err, Ok};
ghost use Rattle.std.proofs.lemmas.List.Edits.{sets};
ghost use Rattle.number.specs.Number.{be};
ghost use Rattle.decimal.specs.Digits.{digits_of};
ghost use Rattle.text.specs.Line.{line_of};
ghost use Rattle.text.specs.Hex.{hex_digit, hex_of};

use reading::Refusal;

/// The bytes of s from `at` on. A loop: `copy_from_slice` becomes a call of memmove, a name that callers of the library
/// for C would have to bring.
pub fn put_bytes(out: &mut [u8], at: usize, s: &[u8]) -> usize
    requires { at + length s.now ≤ length out.old }
    ensures { (result ≡ at + length s.now) × (out.new ≡ sets out.old at s.now) }
{
    for i in 0..s.len() {
        out[at + i] = s[i];
    }
    at + s.len()
}

/// A label from `at` on, and n in decimal after it.
pub fn put_labelled(out: &mut [u8], at: usize, label: &[u8], n: u64) -> usize
    requires { at + (length label.now + length (digits_of n)) ≤ length out.old }
    ensures { (result ≡ at + (length label.now + length (digits_of n))) × (out.new ≡ sets out.old at (label.now ++ digits_of n)) }
{
    let next = put_bytes(out, at, label);
    decimal::put_decimal(out, next, n)
}

// A digit of base 16.
fn hex_digit(d: u8) -> u8
    requires { d < 16 }
    ensures { result ≡ hex_digit d }
{
    if d < 10 {
        return 48 + d;
    }
    87 + d
}

/// The number of the k bytes at `from` of s, from `at` on in base 16: two digits for a byte.
pub fn put_hex(out: &mut [u8], at: usize, s: &[u8], from: usize, k: usize) -> usize
    requires { (from + k ≤ length s.now) × (at + 2 * k ≤ length out.old) }
    ensures { (result ≡ at + 2 * k) × (out.new ≡ sets out.old at (hex_of (2 * k) (be k s.now from))) }
{
    for i in 0..k {
        let b = s[from + i];
        out[at + 2 * i] = hex_digit(b / 16);
        out[at + 2 * i + 1] = hex_digit(b % 16);
    }
    at + 2 * k
}

// The line of an accepted file of n interfaces.
fn put_accepted(out: &mut [u8], n: usize) -> usize
    requires { 64 ≤ length out.old }
    ensures { (result ≡ length (line_of (Ok n))) × (out.new ≡ sets out.old 0 (line_of (Ok n))) }
{
    let next = put_labelled(out, 0, b"accepted ", n as u64);
    put_bytes(out, next, b"\n")
}

// The line of a refusal.
fn put_refused(out: &mut [u8], why: Refusal) -> usize
    requires { 64 ≤ length out.old }
    ensures { (result ≡ length (line_of (Err why))) × (out.new ≡ sets out.old 0 (line_of (Err why))) }
{
    let space = put_labelled(out, 0, b"refused ", why.no as u64);
    let end = put_labelled(out, space, b" ", why.place as u64);
    put_bytes(out, end, b"\n")
}

/// The line of a verdict.
pub fn put_verdict(v: Result<usize, Refusal>, out: &mut [u8; 64]) -> usize
    ensures { (result ≡ length (line_of v)) × ((result ≤ 64) × (out.new ≡ sets out.old 0 (line_of v))) }
{
    match v {
        Ok(n) => put_accepted(out, n),
        Err(why) => put_refused(out, why),
    }
}
