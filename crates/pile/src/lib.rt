//! A pile of files, linked one by one. A caller holds one file at a time, and lends the same two buffers to each call.
#![tactic(auto)]

ghost use Rattle.std.specs.Prelude.{◌≡◌, ◌<◌, length, take};
ghost use Rattle.number.specs.Limits.{pile_limit};
ghost use Rattle.reading.specs.Got.{Accepted};
ghost use Rattle.reader.specs.Records.{Bytes};
ghost use Rattle.reader.specs.Reader.{decode};
ghost use Rattle.joining.specs.Outcome.{after};
ghost use Rattle.link.specs.Outcome.{linked_as, link_answer, link_buffer};
ghost use Rattle.pile.specs.Pile.{no_files, whole_in, more_answer, more_buffer, link_count, grown_as, turn, added, ended};

use link::{LinkRefusal, Which};
use number::PILE_LIMIT;
use reading::{Refusal, Rule};

/// How many files there are in a pile, and the length of what they left. It stands at the front of the first buffer after
/// an odd number of files, else of the second.
#[derive(Clone, Copy, Debug, PartialEq, Eq)]
pub struct Pile {
    pub files: usize,
    pub length: usize,
}

/// A refusal, and the link that it came from, counted from 1.
#[derive(Clone, Copy, Debug, PartialEq, Eq)]
pub struct PileRefusal {
    pub why: LinkRefusal,
    pub step: usize,
}

/// The pile with one more file; a refusal; or 256 files are there already.
#[derive(Clone, Copy, Debug, PartialEq, Eq)]
pub enum Added {
    Grown(Pile),
    Refused(PileRefusal),
    Full,
}

/// A pile of no files.
pub fn begin() -> Pile
    ensures { result ≡ no_files }
{
    Pile {
        files: 0,
        length: 0,
    }
}

// An accepted file as it is into `out`.
fn keep_accepted(file: &[u8], out: &mut [u8]) -> Result<usize, LinkRefusal>
    requires { Accepted (decode file.now) }
    ensures { (result ≡ linked_as (whole_in (length out.old) file.now)) × (out.new ≡ after (whole_in (length out.old) file.now) out.old) }
{
    let n = file.len();
    if out.len() < n {
        return Err(LinkRefusal {
            which: Which::Union,
            why: Rule::Room.at(n),
        });
    }
    Ok(text::put_bytes(out, 0, file))
}

// The first file.
fn keep(file: &[u8], out: &mut [u8]) -> Result<usize, LinkRefusal>
    ensures { (result ≡ linked_as (whole_in (length out.old) file.now)) × (out.new ≡ after (whole_in (length out.old) file.now) out.old) }
{
    match reader::check(file) {
        Ok(_) => keep_accepted(file, out),
        Err(why) => Err(LinkRefusal {
            which: Which::First,
            why,
        }),
    }
}

// The first n bytes of `held`, or all, linked with a file.
fn link_front(held: &[u8], n: usize, file: &[u8], out: &mut [u8]) -> Result<usize, LinkRefusal>
    ensures { (result ≡ link_answer (take n held.now) file.now out.old) × (out.new ≡ link_buffer (take n held.now) file.now out.old) }
{
    if held.len() < n {
        return link::link(held, file, out);
    }
    link::link(&held[..n], file, out)
}

// One more file into `out`.
fn put_more(pile: Pile, held: &[u8], file: &[u8], out: &mut [u8]) -> Result<usize, LinkRefusal>
    ensures { (result ≡ more_answer pile held.now file.now out.old) × (out.new ≡ more_buffer pile held.now file.now out.old) }
{
    let k = pile.files;
    let n = pile.length;
    if k == 0 {
        return keep(file, out);
    }
    link_front(held, n, file, out)
}

// The link that the next file belongs to.
fn next_step(pile: Pile) -> usize
    ensures { result ≡ link_count pile }
{
    let k = pile.files;
    if k == 0 {
        return 1;
    }
    k
}

// The pile after a link.
fn grow(pile: Pile, linked: Result<usize, LinkRefusal>) -> Added
    requires { pile.files < pile_limit }
    ensures { result ≡ grown_as pile linked }
{
    let step = next_step(pile);
    match linked {
        Ok(n) => Added::Grown(Pile {
            files: pile.files + 1,
            length: n,
        }),
        Err(why) => Added::Refused(PileRefusal { why, step }),
    }
}

/// One more file.
pub fn add(pile: Pile, file: &[u8], one: &mut [u8], other: &mut [u8]) -> Added
    ensures { (turn result one.new other.new ≡ added pile file.now one.old other.old) × Bytes file.now }
{
    let k = pile.files;
    if PILE_LIMIT <= k {
        return Added::Full;
    }
    if k % 2 == 0 {
        let linked = put_more(pile, other, file, one);
        return grow(pile, linked);
    }
    let linked = put_more(pile, one, file, other);
    grow(pile, linked)
}

/// After the last file.
pub fn finish(pile: Pile, one: &mut [u8], other: &mut [u8]) -> Added
    ensures { turn result one.new other.new ≡ ended pile one.old other.old }
{
    let k = pile.files;
    if 1 < k {
        return Added::Grown(pile);
    }
    add(
        pile,
        b"XPCOM\nTypeLib\r\n\x1a\x01\x01\x00\x00\x00\x00\x00\x24\x00\x00\x00\x00\x00\x00\x00\x24\x80\x00\x00\x00",
        one,
        other,
    )
}
