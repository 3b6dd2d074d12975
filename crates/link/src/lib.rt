//! Normalising a typelib, and linking two.
#![tactic(auto)]

ghost use Rattle.std.specs.Prelude.{◌≡◌};
ghost use Rattle.reading.specs.Got.{Accepted};
ghost use Rattle.reader.specs.Records.{Bytes};
ghost use Rattle.reader.specs.Reader.{decode};
ghost use Rattle.link.specs.Outcome.{normalise_answer, normalise_buffer, link_answer, link_buffer};

use reader::Layout;
use reading::Refusal;

/// What was refused: the first file, the second file, or their union.
#[derive(Clone, Copy, Debug, PartialEq, Eq)]
pub enum Which {
    First,
    Second,
    Union,
}

/// A refusal, and of what.
#[derive(Clone, Copy, Debug, PartialEq, Eq)]
pub struct LinkRefusal {
    pub which: Which,
    pub why: Refusal,
}

/// The same of an accepted file: it is linked with one that has no entries.
pub fn normalise_accepted(file: &[u8], out: &mut [u8]) -> Result<usize, Refusal>
    requires { Accepted (decode file.now) }
    ensures { (result ≡ normalise_answer file.now out.old) × (out.new ≡ normalise_buffer file.now out.old) }
{
    let l = reader::layout_of(file);
    let none = Layout {
        count: 0,
        directory: 0,
        pool: 0,
    };
    joining::union::join_files(file, l, &file[0..0], none, out)
}

/// The normal form of a file into `out`.
pub fn normalise(file: &[u8], out: &mut [u8]) -> Result<usize, Refusal>
    ensures { (result ≡ normalise_answer file.now out.old) × (out.new ≡ normalise_buffer file.now out.old) × Bytes file.now }
{
    match reader::check(file) {
        Ok(n) => normalise_accepted(file, out),
        Err(why) => Err(why),
    }
}

// Both files are accepted.
fn link_accepted(first: &[u8], second: &[u8], out: &mut [u8]) -> Result<usize, LinkRefusal>
    requires { Accepted (decode first.now) × Accepted (decode second.now) }
    ensures { (result ≡ link_answer first.now second.now out.old) × (out.new ≡ link_buffer first.now second.now out.old) }
{
    let l = reader::layout_of(first);
    let l2 = reader::layout_of(second);
    match joining::union::join_files(first, l, second, l2, out) {
        Ok(n) => Ok(n),
        Err(why) => Err(LinkRefusal {
            which: Which::Union,
            why,
        }),
    }
}

// The first file is accepted.
fn link_second(first: &[u8], second: &[u8], out: &mut [u8]) -> Result<usize, LinkRefusal>
    requires { Accepted (decode first.now) }
    ensures { (result ≡ link_answer first.now second.now out.old) × (out.new ≡ link_buffer first.now second.now out.old) }
{
    match reader::check(second) {
        Ok(_) => link_accepted(first, second, out),
        Err(why) => Err(LinkRefusal {
            which: Which::Second,
            why,
        }),
    }
}

/// The normal form of the union of two files into `out`.
pub fn link(first: &[u8], second: &[u8], out: &mut [u8]) -> Result<usize, LinkRefusal>
    ensures { (result ≡ link_answer first.now second.now out.old) × (out.new ≡ link_buffer first.now second.now out.old) × Bytes first.now × Bytes second.now }
{
    match reader::check(first) {
        Ok(_) => link_second(first, second, out),
        Err(why) => Err(LinkRefusal {
            which: Which::First,
            why,
        }),
    }
}
