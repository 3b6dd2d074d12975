//! The value of a constant of a types.rdb as it is printed, from its stored bytes. Each writer answers the place after
//! what it wrote.
#![tactic(auto)]

ghost use Rattle.std.specs.Prelude.{◌≡◌, ◌++◌, ℕ, ◌+◌, ◌*◌, ◌%◌, ◌^◌, ◌≤◌, ◌<◌, length, get_or};
ghost use Rattle.number.specs.Limits.{file_limit};
ghost use Rattle.std.proofs.lemmas.List.Edits.{sets};
ghost use Rattle.number.specs.Number.{le};
ghost use Rattle.text.specs.Hex.{hex_of};
ghost use Rattle.signed.specs.Bits.{signed};
ghost use Rattle.text.specs.Signed.{signed_text};
ghost use Rattle.text.specs.Writing.{Wrote, Room};
ghost use Rattle.rdb_record.specs.Constant.{value_size};
ghost use Rattle.rdb_value.specs.Value.{value_of};
ghost use Rattle.rdb_list.specs.Listed.{value_in};
ghost use Rattle.rdb_shown.specs.Texts.{float_text, double_text, value_text};

// A label, and a number in two's complement, where `half` is 2^k and the number has k + 1 bits.
fn put_signed(out: &mut [u8], at: usize, label: &[u8], half: u64, v: u64) -> usize
    requires { (v < half + half) × ((length label.now ≤ 8) × Room out.old at 36) }
    ensures { ((k : ℕ) → half ≡ 2 ^ k → Wrote out.old at (label.now ++ signed_text (signed k v)) result out.new) × (result ≤ at + 36) }
{
    let next = text::put_bytes(out, at, label);
    if v < half {
        return decimal::put_decimal(out, next, v);
    }
    text::put_labelled(out, next, b"-", half - (v - half))
}

// The number of the k bytes at `from`, the last of them the highest, in base 16: two digits for a byte.
fn put_bits(out: &mut [u8], at: usize, file: &[u8], from: usize, k: usize) -> usize
    requires { (from + k ≤ length file.now) × (at + 2 * k ≤ length out.old) }
    ensures { (result ≡ at + 2 * k) × (out.new ≡ sets out.old at (hex_of (2 * k) (le k file.now from))) }
{
    let mut next = at;
    for i in 0..k {
        next = text::put_hex(out, next, file, from + (k - 1 - i), 1);
    }
    next
}

// Of a constant that is stored in one byte.
fn put_one(out: &mut [u8], at: usize, kind: u8, x: u8) -> usize
    requires { (kind < 2) × Room out.old at 36 }
    ensures { Wrote out.old at (value_text (value_of kind x)) result out.new × (result ≤ at + 36) }
{
    if kind == 1 {
        return put_signed(out, at, b"byte ", 128, x as u64);
    }
    if x == 1 {
        return text::put_bytes(out, at, b"boolean true");
    }
    text::put_bytes(out, at, b"boolean false")
}

// In two.
fn put_two(out: &mut [u8], at: usize, kind: u8, x: u16) -> usize
    requires { (2 ≤ kind) × (kind < 4) × Room out.old at 36 }
    ensures { Wrote out.old at (value_text (value_of kind x)) result out.new × (result ≤ at + 36) }
{
    if kind == 2 {
        return put_signed(out, at, b"short ", 32768, x as u64);
    }
    text::put_labelled(out, at, b"unsigned-short ", x as u64)
}

// In four, but a FLOAT.
fn put_four(out: &mut [u8], at: usize, kind: u8, x: u32) -> usize
    requires { (4 ≤ kind) × (kind < 6) × Room out.old at 36 }
    ensures { Wrote out.old at (value_text (value_of kind x)) result out.new × (result ≤ at + 36) }
{
    if kind == 4 {
        return put_signed(out, at, b"long ", 2147483648, x as u64);
    }
    text::put_labelled(out, at, b"unsigned-long ", x as u64)
}

// In eight, but a DOUBLE.
fn put_eight(out: &mut [u8], at: usize, kind: u8, x: u64) -> usize
    requires { (6 ≤ kind) × (kind < 8) × Room out.old at 36 }
    ensures { Wrote out.old at (value_text (value_of kind x)) result out.new × (result ≤ at + 36) }
{
    if kind == 6 {
        return put_signed(out, at, b"hyper ", 9223372036854775808, x);
    }
    text::put_labelled(out, at, b"unsigned-hyper ", x)
}

// A FLOAT, whose bytes stand at `from`.
fn put_float(out: &mut [u8], at: usize, file: &[u8], from: usize) -> usize
    requires { (from + 4 ≤ length file.now) × Room out.old at 36 }
    ensures { Wrote out.old at (float_text (le 4 file.now from)) result out.new × (result ≤ at + 36) }
{
    let next = text::put_bytes(out, at, b"float ");
    put_bits(out, next, file, from, 4)
}

// A DOUBLE.
fn put_double(out: &mut [u8], at: usize, file: &[u8], from: usize) -> usize
    requires { (from + 8 ≤ length file.now) × Room out.old at 36 }
    ensures { Wrote out.old at (double_text (le 8 file.now from)) result out.new × (result ≤ at + 36) }
{
    let next = text::put_bytes(out, at, b"double ");
    put_bits(out, next, file, from, 8)
}

// The value of a constant of that kind whose bytes stand at `from`.
fn put_stored(out: &mut [u8], at: usize, file: &[u8], kind: u8, from: usize) -> usize
    requires { (from + value_size kind ≤ length file.now) × Room out.old at 36 }
    ensures { Wrote out.old at (value_text (value_of kind (le (value_size kind) file.now from))) result out.new × (result ≤ at + 36) }
{
    if kind < 2 {
        return put_one(out, at, kind, file[from]);
    }
    if kind < 4 {
        return put_two(out, at, kind, number::le16_at(file, from));
    }
    if kind < 6 {
        return put_four(out, at, kind, number::le32_at(file, from));
    }
    if kind < 8 {
        return put_eight(out, at, kind, number::le64_at(file, from));
    }
    if kind == 8 {
        return put_float(out, at, file, from);
    }
    put_double(out, at, file, from)
}

/// The value of the constant whose kind byte is at o.
pub fn put_value(out: &mut [u8], at: usize, file: &[u8], o: usize) -> usize
    requires { (o + 1 + value_size (get_or file.now o 0 % 128) ≤ length file.now) × (length file.now ≤ file_limit) × Room out.old at 36 }
    ensures { Wrote out.old at (value_text (value_in file.now o)) result out.new × (result ≤ at + 36) }
{
    put_stored(out, at, file, file[o] % 128, o + 1)
}
