//! What stands before the directory.
#![tactic(auto)]

ghost use Rattle.std.specs.Prelude.{◌≡◌, ◌≤◌, length};
ghost use Rattle.std.proofs.lemmas.List.Edits.{sets};
ghost use Rattle.number.specs.Limits.{file_limit, entry_limit};
ghost use Rattle.front.specs.Front.{directory_at, front_bytes};

use number::ENTRY_WIDTH;

// The directory's offset, 0 where it has no entry.
fn directory_at(c: usize) -> u32
    ensures { result ≡ directory_at c }
{
    if c == 0 {
        return 0;
    }
    36
}

/// Header and annotation of a file of this minor, c entries and `len` bytes.
pub fn put_front(minor: u8, c: usize, len: usize, out: &mut [u8])
    requires { (c ≤ entry_limit) × ((len ≤ file_limit) × (36 ≤ length out.old)) }
    ensures { out.new ≡ sets out.old 0 (front_bytes minor c len) }
{
    text::put_bytes(out, 0, b"XPCOM\nTypeLib\r\n\x1a\x01");
    out[17] = minor;
    writing::field::put_u16(out, 18, c as u16);
    writing::field::put_u32(out, 20, len as u32);
    writing::field::put_u32(out, 24, directory_at(c));
    writing::field::put_u32(out, 28, (36 + ENTRY_WIDTH * c) as u32);
    text::put_bytes(out, 32, b"\x80\x00\x00\x00");
}
