//! Numbers and bytes.
ghost use Rattle.std.specs.Prelude.{◌≡◌, ◌+◌, ◌≤◌, length};
ghost use Rattle.std.proofs.lemmas.List.Edits.{sets};
ghost use Rattle.number.specs.Part.{part};
ghost use Rattle.meaning.specs.Normal.BigEndian.{bytes_of};

/// The two bytes of v from `at` on.
pub fn put_u16(out: &mut [u8], at: usize, v: u16)
    requires { at + 2 ≤ length out.old }
    ensures { out.new ≡ sets out.old at (bytes_of 2 v) }
{
    out[at] = (v / 256) as u8;
    out[at + 1] = (v % 256) as u8;
}

/// The four bytes of v.
pub fn put_u32(out: &mut [u8], at: usize, v: u32)
    requires { at + 4 ≤ length out.old }
    ensures { out.new ≡ sets out.old at (bytes_of 4 v) }
{
    put_u16(out, at, (v / 65536) as u16);
    put_u16(out, at + 2, (v % 65536) as u16);
}

/// The eight bytes of v.
pub fn put_u64(out: &mut [u8], at: usize, v: u64)
    requires { at + 8 ≤ length out.old }
    ensures { out.new ≡ sets out.old at (bytes_of 8 v) }
{
    put_u32(out, at, (v / 4294967296) as u32);
    put_u32(out, at + 4, (v % 4294967296) as u32);
}

/// The n bytes of s at `from`, to the front of the part lent.
pub fn copy(s: &[u8], from: usize, n: usize, out: &mut [u8]) -> usize
    requires { (from + n ≤ length s.now) × (n ≤ length out.old) }
    ensures { (result ≡ n) × (out.new ≡ sets out.old 0 (part s.now from (from + n))) }
{
    let to = from + n;
    text::put_bytes(out, 0, &s[from..to])
}
