//! A part of a long text into a lent buffer. The text is passed from its first byte on; what lies in the buffer's part
//! of it is stored. Each function answers the place after what it passed.
#![tactic(auto)]

ghost use Rattle.std.specs.Prelude.{◌+◌, ◌≤◌, ◌<◌, ◌≡◌, ◌++◌, length, get_or};
ghost use Rattle.decimal.specs.Digits.{digits_of};
ghost use Rattle.window.specs.Window.{text_limit, byte_in, Passed};
ghost use Rattle.window.specs.Shown.{is_plain, escaped, byte_shown, bytes_shown};

// Byte `place` of the text, where the buffer shows it from byte `from` on.
fn put_byte(out: &mut [u8], from: usize, place: usize, b: u8)
    ensures { out.new ≡ byte_in from place b out.old }
{
    if from <= place {
        let i = place - from;
        if i < out.len() {
            out[i] = b;
        }
    }
}

/// Bytes from byte `place` on.
pub fn put_bytes(out: &mut [u8], from: usize, place: usize, bytes: &[u8]) -> usize
    requires { place + length bytes.now ≤ text_limit }
    ensures { Passed from place bytes.now out.old result out.new }
{
    for i in 0..bytes.len() {
        put_byte(out, from, place + i, bytes[i]);
    }
    place + bytes.len()
}

// A label, and n in decimal after it, through a line of their own.
fn put_line(
    out: &mut [u8],
    from: usize,
    place: usize,
    label: &[u8],
    n: u64,
    line: &mut [u8; 40],
) -> usize
    requires { (length label.now ≤ 20) × (place + 40 ≤ text_limit) }
    ensures { Passed from place (label.now ++ digits_of n) out.old result out.new }
{
    let k = text::put_labelled(line, 0, label, n);
    let all: &[u8] = line;
    put_bytes(out, from, place, &all[..k])
}

/// A label, and n in decimal after it.
pub fn put_labelled(out: &mut [u8], from: usize, place: usize, label: &[u8], n: u64) -> usize
    requires { (length label.now ≤ 20) × (place + 40 ≤ text_limit) }
    ensures { Passed from place (label.now ++ digits_of n) out.old result out.new }
{
    let mut line = [0u8; 40];
    put_line(out, from, place, label, n, &mut line)
}

fn is_plain(b: u8) -> bool
    ensures { result ≡ is_plain b }
{
    if b < 0x21 {
        return false;
    }
    if 0x7e < b {
        return false;
    }
    b != 0x5c
}

// Byte i as `\x` and two digits.
fn put_escaped(out: &mut [u8], from: usize, place: usize, bytes: &[u8], i: usize) -> usize
    requires { (i < length bytes.now) × (place + 4 ≤ text_limit) }
    ensures { Passed from place (escaped (get_or bytes.now i 0)) out.old result out.new }
{
    let mut four = [0u8; 4];
    text::put_bytes(&mut four, 0, b"\\x");
    text::put_hex(&mut four, 2, bytes, i, 1);
    put_bytes(out, from, place, &four)
}

/// Byte i as it is printed.
pub fn put_shown_byte(out: &mut [u8], from: usize, place: usize, bytes: &[u8], i: usize) -> usize
    requires { (i < length bytes.now) × (place + length (byte_shown (get_or bytes.now i 0)) ≤ text_limit) }
    ensures { Passed from place (byte_shown (get_or bytes.now i 0)) out.old result out.new }
{
    let b = bytes[i];
    if is_plain(b) {
        put_byte(out, from, place, b);
        return place + 1;
    }
    put_escaped(out, from, place, bytes, i)
}

/// Bytes as they are printed.
pub fn put_shown(out: &mut [u8], from: usize, place: usize, bytes: &[u8]) -> usize
    requires { place + length (bytes_shown bytes.now) ≤ text_limit }
    ensures { Passed from place (bytes_shown bytes.now) out.old result out.new }
{
    let mut at = place;
    for i in 0..bytes.len() {
        at = put_shown_byte(out, from, at, bytes, i);
    }
    at
}
