// Texts of a types.rdb: which bytes they have. Len-Strings, Idx-Strings and counted lists of them are read by rdb_memory.
#![tactic(auto)]

ghost use Rattle.std.specs.Prelude.{◌≡◌, ◌≤◌, length};
ghost use Rattle.number.specs.Part.{part};
ghost use Rattle.rdb_runs.specs.Bytes.{is_ascii, is_utf8};
ghost use Rattle.rdb_text.specs.Bytes.{suits};

// US-ASCII for UNOIDL related names, UTF-8 for annotations.
#[derive(Clone, Copy)]
pub enum Class {
    Ascii,
    Utf8,
}

// Where a text's bytes lie: their offset in the file, and how many they are.
#[derive(Clone, Copy)]
pub struct Text {
    pub at: usize,
    pub len: usize,
}

// Whether the bytes from `from` up to `to` are US-ASCII.
pub fn ascii_only(file: &[u8], from: usize, to: usize) -> bool
    requires { (from ≤ to) × (to ≤ length file.now) }
    ensures { result ≡ is_ascii (part file.now from to) }
{
    let mut i = from;
    while i < to {
        if 0x80 <= file[i] {
            return false;
        }
        i += 1;
    }
    true
}

// Whether they are UTF-8.
fn utf8_only(file: &[u8], from: usize, to: usize) -> bool
    requires { (from ≤ to) × (to ≤ length file.now) }
    ensures { result ≡ is_utf8 (part file.now from to) }
{
    let mut i = from;
    while i < to {
        let size = utf8::char_size(file, i, to);
        if size == 0 {
            return false;
        }
        i += size;
    }
    true
}

// Whether they are what a text of that class has.
pub fn suits_class(file: &[u8], class: Class, from: usize, to: usize) -> bool
    requires { (from ≤ to) × (to ≤ length file.now) }
    ensures { result ≡ suits class (part file.now from to) }
{
    match class {
        Class::Ascii => ascii_only(file, from, to),
        Class::Utf8 => utf8_only(file, from, to),
    }
}
