// The directory entries of an accepted file, counted from 0.
ghost use Rattle.std.specs.Prelude.{◌≡◌, List, ℕ, ◌+◌, ◌*◌, ◌<◌, drop};
ghost use Rattle.number.specs.Limits.{entry_width};
ghost use Rattle.key.specs.Key.{key_space, key_name};
ghost use Rattle.reader.specs.Values.{Entry, keys_in, descriptor_in};
ghost use Rattle.reader.specs.Records.{ShowsOwn};
ghost use Rattle.reader.specs.Layout.{LaidOut, Lies, Spells, SpellsSpace};

use crate::Layout;
use number::ENTRY_WIDTH;

// Where the IID of entry i stands in the file: 16 bytes.
pub fn iid_place(file: &[u8], l: Layout, i: usize) -> usize
    requires { Lies file.now l × (i < l.count) }
    ensures { result ≡ l.directory + entry_width * i }
{
    let directory = l.directory;
    directory + ENTRY_WIDTH * i
}

// The pool pointer of the name of entry i.
pub fn name_pointer(file: &[u8], l: Layout, i: usize) -> usize
    requires { Lies file.now l × (i < l.count) }
    ensures { (es : List (Entry ℕ)) → LaidOut file.now l es → Spells (drop l.pool file.now) result (key_name (keys_in es i)) }
{
    let directory = l.directory;
    number::u32_at(file, directory + ENTRY_WIDTH * i + 16) as usize
}

// The pool pointer of its namespace; 0 for the default.
pub fn space_pointer(file: &[u8], l: Layout, i: usize) -> usize
    requires { Lies file.now l × (i < l.count) }
    ensures { (es : List (Entry ℕ)) → LaidOut file.now l es → SpellsSpace (drop l.pool file.now) result (key_space (keys_in es i)) }
{
    let directory = l.directory;
    number::u32_at(file, directory + ENTRY_WIDTH * i + 20) as usize
}

// The pool pointer of its descriptor; 0 where it is unresolved.
pub fn descriptor_pointer(file: &[u8], l: Layout, i: usize) -> usize
    requires { Lies file.now l × (i < l.count) }
    ensures { (es : List (Entry ℕ)) → LaidOut file.now l es → ShowsOwn (drop l.pool file.now) result (descriptor_in es i) }
{
    let directory = l.directory;
    number::u32_at(file, directory + ENTRY_WIDTH * i + 24) as usize
}
