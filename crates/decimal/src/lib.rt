//! Writes a number in decimal, leading digit first, no leading zeros.
#![tactic(auto)]

ghost use Rattle.std.specs.Prelude.{◌≡◌, ◌+◌, ◌≤◌, length};
ghost use Rattle.std.proofs.lemmas.List.Edits.{sets};
ghost use Rattle.decimal.specs.Digits.{digits_of};

/// The digits of n from `at` on; the answer is the place after them.
pub fn put_decimal(out: &mut [u8], at: usize, n: u64) -> usize
    requires { at + length (digits_of n) ≤ length out.old }
    ensures { (result ≡ at + length (digits_of n)) × (out.new ≡ sets out.old at (digits_of n)) }
{
    if n < 10 {
        out[at] = (48 + n) as u8;
        return at + 1;
    }
    let last = put_decimal(out, at, n / 10);
    out[last] = (48 + n % 10) as u8;
    last + 1
}
