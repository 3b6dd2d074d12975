// The reader's face: the check of a file, and what the crates above may know of one.
#![tactic(auto)]

ghost use Rattle.std.specs.Prelude.{◌≡◌, ℕ};
ghost use Rattle.reading.specs.Got.{got, Accepted};
ghost use Rattle.reader.specs.Rules.{is_identifier};
ghost use Rattle.reader.specs.Values.{Typelib, entries_in};
ghost use Rattle.reader.specs.Records.{Bytes};
ghost use Rattle.reader.specs.Reader.{decode, check_of};
ghost use Rattle.reader.specs.Layout.{LaidOut};

pub use reading::Refusal;

pub mod entry;
pub mod record;

// The newest minor version.
pub const NEWEST: u8 = head::NEWEST;

// The first and the last of the tags 23 to 25, and the minor version that brought them.
pub const UTF8STRING: u8 = types::UTF8STRING;

pub const FURTHER_ASTRING: u8 = types::FURTHER_ASTRING;

pub const STRINGS_MINOR: u8 = types::STRINGS_MINOR;

// Where the parts of an accepted file stand: its number of interfaces, and the offsets of directory and pool.
#[derive(Clone, Copy, Debug, PartialEq, Eq)]
pub struct Layout {
    pub count: usize,
    pub directory: usize,
    pub pool: usize,
}

// Whether a file follows document 01: accepted with its number of interfaces, or the first refusal in the document's order.
pub fn check(file: &[u8]) -> Result<usize, Refusal>
    ensures value { result ≡ check_of file.now }
    ensures bytes { Bytes file.now }
{
    typelib::check_typelib(file)
}

// The layout of an accepted file.
pub fn layout_of(file: &[u8]) -> Layout
    requires { Accepted (decode file.now) }
    ensures { (t : Typelib) (e : ℕ) → decode file.now ≡ got t e → LaidOut file.now result (entries_in t) }
{
    Layout {
        count: number::u16_at(file, 18) as usize,
        directory: number::u32_at(file, 24) as usize,
        pool: number::u32_at(file, 28) as usize,
    }
}

// Whether the bytes of a question are an identifier.
pub fn is_identifier(word: &[u8]) -> bool
    ensures { result ≡ is_identifier word.now }
{
    name::is_identifier(word, 0, word.len())
}
