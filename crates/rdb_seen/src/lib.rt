// Marks: a table of bits, one for each number, that are set one by one, 32 in a cell.
#![tactic(auto)]

ghost use Rattle.std.specs.Prelude.{◌≡◌, ◌*◌, ◌<◌, length};
ghost use Rattle.rdb_seen.specs.Marks.{marked, Marking};

// Whether number i is marked.
pub fn is_marked(t: &[u32], i: usize) -> bool
    requires { i < 32 * length t.now }
    ensures { result ≡ marked t.now i }
{
    (t[i / 32] >> (i % 32)) % 2 == 1
}

// Mark number i, and no other.
pub fn mark(t: &mut [u32], i: usize)
    requires { i < 32 * length t.old }
    ensures { Marking t.old i t.new }
{
    t[i / 32] |= 1 << (i % 32);
}
