//! The stages of a link: each owns a table or two, lends them to the next, and gives the refusals that they show.
//! The files are s and t, their pools p and q, and their layouts l and k.
ghost use Rattle.std.specs.Prelude.{◌≡◌, ◌+◌, length, drop, Err};
ghost use Rattle.number.specs.Limits.{entry_limit, row_limit};
ghost use Rattle.rows.specs.Files.{Given, HoldBoth};
ghost use Rattle.stages.specs.Stages.{Known, Keyed, Mated, Iids, Numbered, Resolved, Ended, Arranged};
ghost use Rattle.joining.specs.Joins.{Joins};

use minor::view_minor;
use number::{ENTRY_LIMIT, ROW_LIMIT};
use output::Unstored;
use output::file::put_file;
use output::leads::lead_view;
use reader::Layout;
use reading::{Refusal, Rule};
use stages::descriptors::first_two_descriptors;

// 25 to 27, or the normal form of the union.
fn write_union(
    s: &[u8],
    p: &[u8],
    l: Layout,
    t: &[u8],
    q: &[u8],
    k: Layout,
    order: &[u16; ROW_LIMIT],
    holders: &[u16; ROW_LIMIT],
    high: &[u64; ROW_LIMIT],
    low: &[u64; ROW_LIMIT],
    place: &[u16; ROW_LIMIT],
    c: usize,
    out: &mut [u8],
) -> Result<usize, Refusal>
    requires { Given (HoldBoth s.now p.now l t.now q.now k) × Known (HoldBoth s.now p.now l t.now q.now k) (Arranged order.now holders.now high.now low.now place.now c l.count (l.count + k.count)) × (row_limit ≡ length order.now) × (row_limit ≡ length holders.now) × (row_limit ≡ length high.now) × (row_limit ≡ length low.now) × (row_limit ≡ length place.now) }
    ensures { Joins (HoldBoth s.now p.now l t.now q.now k) out.old result out.new }
{
    if ENTRY_LIMIT < c {
        return Err(Rule::UnionEntries.at(0));
    }
    let mut names = [0u32; ROW_LIMIT];
    let mut spaces = [0u32; ROW_LIMIT];
    let mut bodies = [0u32; ROW_LIMIT];
    lead_view(
        s,
        l,
        t,
        k,
        order,
        holders,
        c,
        &mut names,
        &mut spaces,
        &mut bodies,
    );
    let minor = view_minor(s, p, l, t, q, k, order, holders, c);
    let n = l.count;
    match put_file(
        p, q, n, &mut names, &spaces, &bodies, c, high, low, order, place, minor, out,
    ) {
        Ok(size) => Ok(size),
        Err(Unstored::Long) => Err(Rule::OutputLimit.at(0)),
        Err(Unstored::Short(size)) => Err(Rule::Room.at(size)),
    }
}

// The rows of the union in its order.
fn join_order(
    s: &[u8],
    p: &[u8],
    l: Layout,
    t: &[u8],
    q: &[u8],
    k: Layout,
    keys: &[u16; ROW_LIMIT],
    first: &[u16; ROW_LIMIT],
    c: usize,
    high: &[u64; ROW_LIMIT],
    low: &[u64; ROW_LIMIT],
    holders: &[u16; ROW_LIMIT],
    out: &mut [u8],
) -> Result<usize, Refusal>
    requires { Given (HoldBoth s.now p.now l t.now q.now k) × Known (HoldBoth s.now p.now l t.now q.now k) (Ended keys.now first.now high.now low.now holders.now c l.count (l.count + k.count)) × (row_limit ≡ length keys.now) × (row_limit ≡ length first.now) × (row_limit ≡ length high.now) × (row_limit ≡ length low.now) × (row_limit ≡ length holders.now) }
    ensures { Joins (HoldBoth s.now p.now l t.now q.now k) out.old result out.new }
{
    let mut order = [0u16; ROW_LIMIT];
    let mut place = [0u16; ROW_LIMIT];
    let total = l.count + k.count;
    tables::order::order_rows(keys, c, high, low, &mut order);
    tables::order::place_rows(&order, c, first, total, &mut place);
    write_union(s, p, l, t, q, k, &order, holders, high, low, &place, c, out)
}

// 24: chains of rows.
fn join_chains(
    s: &[u8],
    p: &[u8],
    l: Layout,
    t: &[u8],
    q: &[u8],
    k: Layout,
    keys: &[u16; ROW_LIMIT],
    first: &[u16; ROW_LIMIT],
    c: usize,
    high: &[u64; ROW_LIMIT],
    low: &[u64; ROW_LIMIT],
    holders: &[u16; ROW_LIMIT],
    out: &mut [u8],
) -> Result<usize, Refusal>
    requires { Given (HoldBoth s.now p.now l t.now q.now k) × Known (HoldBoth s.now p.now l t.now q.now k) (Resolved keys.now first.now high.now low.now holders.now c l.count (l.count + k.count)) × (row_limit ≡ length keys.now) × (row_limit ≡ length first.now) × (row_limit ≡ length high.now) × (row_limit ≡ length low.now) × (row_limit ≡ length holders.now) }
    ensures { Joins (HoldBoth s.now p.now l t.now q.now k) out.old result out.new }
{
    let mut up = [0u16; ROW_LIMIT];
    let n = l.count;
    let total = n + k.count;
    rows::note_up(s, l, t, k, first, holders, &mut up);
    let i = tables::chains::first_endless(&up, n, total);
    if i < n {
        return Err(Rule::UnionCycle.at(i + 1));
    }
    join_order(s, p, l, t, q, k, keys, first, c, high, low, holders, out)
}

// 23: the descriptors of rows.
fn join_descriptors(
    s: &[u8],
    p: &[u8],
    l: Layout,
    t: &[u8],
    q: &[u8],
    k: Layout,
    keys: &[u16; ROW_LIMIT],
    first: &[u16; ROW_LIMIT],
    c: usize,
    mates: &[u16; ENTRY_LIMIT],
    high: &[u64; ROW_LIMIT],
    low: &[u64; ROW_LIMIT],
    out: &mut [u8],
) -> Result<usize, Refusal>
    requires { Given (HoldBoth s.now p.now l t.now q.now k) × Known (HoldBoth s.now p.now l t.now q.now k) (Numbered keys.now first.now mates.now high.now low.now c l.count (l.count + k.count)) × (row_limit ≡ length keys.now) × (row_limit ≡ length first.now) × (entry_limit ≡ length mates.now) × (row_limit ≡ length high.now) × (row_limit ≡ length low.now) }
    ensures { Joins (HoldBoth s.now p.now l t.now q.now k) out.old result out.new }
{
    let mut own = [0u32; ROW_LIMIT];
    let mut holders = [0u16; ROW_LIMIT];
    let n = l.count;
    let total = n + k.count;
    stages::note_descriptors(s, p, l, t, q, k, &mut own);
    let i = first_two_descriptors(s, p, l, t, q, k, first, mates, &own);
    if i < n {
        return Err(Rule::TwoDescriptors.at(i + 1));
    }
    tables::mates::note_holders(&own, mates, n, total, &mut holders);
    join_chains(s, p, l, t, q, k, keys, first, c, high, low, &holders, out)
}

// 21 and 22: the IIDs of rows, and those that they and their mates have together.
fn join_numbers(
    s: &[u8],
    p: &[u8],
    l: Layout,
    t: &[u8],
    q: &[u8],
    k: Layout,
    keys: &[u16; ROW_LIMIT],
    first: &[u16; ROW_LIMIT],
    c: usize,
    mates: &[u16; ENTRY_LIMIT],
    high: &mut [u64; ROW_LIMIT],
    low: &mut [u64; ROW_LIMIT],
    out: &mut [u8],
) -> Result<usize, Refusal>
    requires { Given (HoldBoth s.now p.now l t.now q.now k) × Known (HoldBoth s.now p.now l t.now q.now k) (Mated keys.now first.now mates.now c l.count (l.count + k.count)) × Known (HoldBoth s.now p.now l t.now q.now k) (Iids high.old low.old (l.count + k.count)) × (row_limit ≡ length keys.now) × (row_limit ≡ length first.now) × (entry_limit ≡ length mates.now) × (row_limit ≡ length high.old) × (row_limit ≡ length low.old) }
    ensures { Joins (HoldBoth s.now p.now l t.now q.now k) out.old result out.new }
{
    let n = l.count;
    let total = n + k.count;
    let i = iids::first_two_numbers(high, low, mates, n, total);
    if i < n {
        return Err(Rule::TwoIids.at(i + 1));
    }
    iids::join_numbers(mates, n, total, high, low);
    let j = iids::first_shared(first, high, low, n, total);
    if j < n {
        return Err(Rule::TwoKeys.at(j + 1));
    }
    join_descriptors(s, p, l, t, q, k, keys, first, c, mates, high, low, out)
}

// The IIDs of the rows.
fn join_iids(
    s: &[u8],
    p: &[u8],
    l: Layout,
    t: &[u8],
    q: &[u8],
    k: Layout,
    keys: &[u16; ROW_LIMIT],
    first: &[u16; ROW_LIMIT],
    c: usize,
    mates: &[u16; ENTRY_LIMIT],
    out: &mut [u8],
) -> Result<usize, Refusal>
    requires { Given (HoldBoth s.now p.now l t.now q.now k) × Known (HoldBoth s.now p.now l t.now q.now k) (Mated keys.now first.now mates.now c l.count (l.count + k.count)) × (row_limit ≡ length keys.now) × (row_limit ≡ length first.now) × (entry_limit ≡ length mates.now) }
    ensures { Joins (HoldBoth s.now p.now l t.now q.now k) out.old result out.new }
{
    let mut high = [0u64; ROW_LIMIT];
    let mut low = [0u64; ROW_LIMIT];
    stages::note_numbers(s, p, l, t, q, k, &mut high, &mut low);
    join_numbers(
        s, p, l, t, q, k, keys, first, c, mates, &mut high, &mut low, out,
    )
}

// The mates of the first file's rows.
fn join_mates(
    s: &[u8],
    p: &[u8],
    l: Layout,
    t: &[u8],
    q: &[u8],
    k: Layout,
    keys: &[u16; ROW_LIMIT],
    first: &[u16; ROW_LIMIT],
    c: usize,
    out: &mut [u8],
) -> Result<usize, Refusal>
    requires { Given (HoldBoth s.now p.now l t.now q.now k) × Known (HoldBoth s.now p.now l t.now q.now k) (Keyed keys.now first.now c (l.count + k.count)) × (row_limit ≡ length keys.now) × (row_limit ≡ length first.now) }
    ensures { Joins (HoldBoth s.now p.now l t.now q.now k) out.old result out.new }
{
    let mut mates = [0u16; ENTRY_LIMIT];
    let n = l.count;
    let total = n + k.count;
    tables::mates::note_mates(first, n, total, &mut mates);
    join_iids(s, p, l, t, q, k, keys, first, c, &mates, out)
}

// The keys of the rows.
fn join_keys(
    s: &[u8],
    p: &[u8],
    l: Layout,
    t: &[u8],
    q: &[u8],
    k: Layout,
    out: &mut [u8],
) -> Result<usize, Refusal>
    requires { Given (HoldBoth s.now p.now l t.now q.now k) }
    ensures { Joins (HoldBoth s.now p.now l t.now q.now k) out.old result out.new }
{
    let mut keys = [0u16; ROW_LIMIT];
    let mut first = [0u16; ROW_LIMIT];
    let c = stages::sort_files(s, p, l, t, q, k, &mut keys, &mut first);
    join_mates(s, p, l, t, q, k, &keys, &first, c, out)
}

/// The normal form of the union of two files of these layouts.
pub fn join_files(
    s: &[u8],
    l: Layout,
    t: &[u8],
    k: Layout,
    out: &mut [u8],
) -> Result<usize, Refusal>
    requires { Given (HoldBoth s.now (drop l.pool s.now) l t.now (drop k.pool t.now) k) }
    ensures { Joins (HoldBoth s.now (drop l.pool s.now) l t.now (drop k.pool t.now) k) out.old result out.new }
{
    let p = l.pool;
    let q = k.pool;
    join_keys(s, &s[p..], l, t, &t[q..], k, out)
}
