//! Values of constants, written.
ghost use Rattle.std.specs.Prelude.{◌≡◌, ℕ, ◌+◌, ◌^◌, ◌≤◌, ◌<◌};
ghost use Rattle.reader.specs.Layout.{Stands};
ghost use Rattle.reader.specs.Records.{ShowsConstant};
ghost use Rattle.lookup.specs.Constant.{signed, value_of};
ghost use Rattle.text.specs.Signed.{signed_text};
ghost use Rattle.printed.specs.Listing.{value_text};
ghost use Rattle.text.specs.Writing.{Wrote, Room};
ghost use Rattle.printed.specs.Writing.{WroteOf, Small};

/// A number in two's complement, where `half` is 2^k and the number has k + 1 bits.
pub fn put_signed(out: &mut [u8], at: usize, half: u64, v: u64) -> usize
    requires { (v < half + half) × ((half < 4294967296) × Room out.old at 21) }
    ensures { ((k : ℕ) → half ≡ 2 ^ k → Wrote out.old at (signed_text (signed k v)) result out.new) × (result ≤ at + 21) }
{
    if v < half {
        return decimal::put_decimal(out, at, v);
    }
    text::put_labelled(out, at, b"-", half + half - v)
}

/// The value of the constant at `from`.
pub fn put_value(pool: &[u8], from: usize, out: &mut [u8], at: usize) -> usize
    requires { Stands (ShowsConstant pool.now from) × (Small pool.now × Room out.old at 21) }
    ensures { WroteOf (ShowsConstant pool.now from) (λ x. value_text (value_of x)) out.old at result out.new × (result ≤ at + 21) }
{
    let v = reader::record::constant_value(pool, from) as u64;
    match reader::record::constant_type(pool, from) {
        1 => put_signed(out, at, 32768, v),
        2 => put_signed(out, at, 2147483648, v),
        _ => decimal::put_decimal(out, at, v),
    }
}
