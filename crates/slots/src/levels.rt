//! The interfaces of a chain.
ghost use Rattle.std.specs.Prelude.{List, ℕ, ◌≤◌, ◌<◌, length};
ghost use Rattle.reader.specs.Values.{Entry};
ghost use Rattle.reader.specs.Layout.{LaidOut, Lies};
ghost use Rattle.lookup.specs.Chain.{levels, chain_of};
ghost use Rattle.lookup.specs.Holding.{Answers, PoolOf};
ghost use Rattle.slots.specs.Cursor.{Reached};

use reader::Layout;

/// The interface to which so many steps lead up from that of an index, where the chain has more.
pub fn ancestor(file: &[u8], pool: &[u8], l: Layout, index: usize, steps: usize) -> usize
    requires { PoolOf file.now l pool.now × (1 ≤ index) × (index ≤ l.count) × ((es : List (Entry ℕ)) × LaidOut file.now l es × (steps < length (levels (chain_of es index)))) }
    ensures { Reached file.now l index steps result }
{
    let mut j = index;
    for _ in 0..steps {
        let q = reader::entry::descriptor_pointer(file, l, j - 1);
        j = reader::record::parent_index(pool, q - 1);
    }
    j
}

/// How many interfaces the chain has that are resolved.
pub fn depth(file: &[u8], pool: &[u8], l: Layout, index: usize) -> usize
    requires { Lies file.now l × PoolOf file.now l pool.now × (1 ≤ index) × (index ≤ l.count) }
    ensures { Answers file.now l (λ es. length (levels (chain_of es index))) result }
{
    let mut j = index;
    for n in 0..l.count {
        let q = reader::entry::descriptor_pointer(file, l, j - 1);
        if q == 0 {
            return n;
        }
        j = reader::record::parent_index(pool, q - 1);
        if j == 0 {
            return n + 1;
        }
    }
    l.count
}
