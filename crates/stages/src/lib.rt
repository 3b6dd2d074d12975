//! What the first stages of a link tell of two files' rows: tables filled from the files, and 23.
//! The files are s and t, their pools p and q, and their layouts l and k.
#![tactic(auto)]

ghost use Rattle.std.specs.Prelude.{◌≡◌, ◌+◌, length};
ghost use Rattle.number.specs.Limits.{row_limit};
ghost use Rattle.key.specs.First.{Past};
ghost use Rattle.rows.specs.Files.{Given, HoldBoth};
ghost use Rattle.stages.specs.Stages.{Known, Keyed, Iids, Owns};

use number::ROW_LIMIT;
use reader::Layout;

pub mod descriptors;

/// The rows of two files by their keys: those whose key stood nowhere earlier, and how many; and for each the first of its key.
pub fn sort_files(
    s: &[u8],
    p: &[u8],
    l: Layout,
    t: &[u8],
    q: &[u8],
    k: Layout,
    keys: &mut [u16; ROW_LIMIT],
    first: &mut [u16; ROW_LIMIT],
) -> usize
    requires { Given (HoldBoth s.now p.now l t.now q.now k) × (row_limit ≡ length keys.old) × (row_limit ≡ length first.old) }
    ensures { Known (HoldBoth s.now p.now l t.now q.now k) (Keyed keys.new first.new result (l.count + k.count)) × (row_limit ≡ length keys.new) × (row_limit ≡ length first.new) × Past result keys.old keys.new × Past (l.count + k.count) first.old first.new }
{
    let mut spaces = [0u32; ROW_LIMIT];
    let mut names = [0u32; ROW_LIMIT];
    let n = l.count;
    let total = n + k.count;
    rows::note_pointers(s, l, 0, &mut spaces, &mut names);
    rows::note_pointers(t, k, n, &mut spaces, &mut names);
    sorting::sort_keys(p, q, n, &spaces, &names, total, keys, first)
}

/// The IIDs of their rows.
pub fn note_numbers(
    s: &[u8],
    p: &[u8],
    l: Layout,
    t: &[u8],
    q: &[u8],
    k: Layout,
    high: &mut [u64; ROW_LIMIT],
    low: &mut [u64; ROW_LIMIT],
)
    requires { Given (HoldBoth s.now p.now l t.now q.now k) × (row_limit ≡ length high.old) × (row_limit ≡ length low.old) }
    ensures { Known (HoldBoth s.now p.now l t.now q.now k) (Iids high.new low.new (l.count + k.count)) × (row_limit ≡ length high.new) × (row_limit ≡ length low.new) × Past (l.count + k.count) high.old high.new × Past (l.count + k.count) low.old low.new }
{
    let n = l.count;
    rows::note_iids(s, l, 0, high, low);
    rows::note_iids(t, k, n, high, low);
}

/// The pool pointers of their descriptors.
pub fn note_descriptors(
    s: &[u8],
    p: &[u8],
    l: Layout,
    t: &[u8],
    q: &[u8],
    k: Layout,
    own: &mut [u32; ROW_LIMIT],
)
    requires { Given (HoldBoth s.now p.now l t.now q.now k) × (row_limit ≡ length own.old) }
    ensures { Known (HoldBoth s.now p.now l t.now q.now k) (Owns p.now q.now own.new l.count (l.count + k.count)) × (row_limit ≡ length own.new) × Past (l.count + k.count) own.old own.new }
{
    let n = l.count;
    rows::note_own(s, l, 0, own);
    rows::note_own(t, k, n, own);
}
