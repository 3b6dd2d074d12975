//! The annotations: refusal 9, at an annotation's first byte.
ghost use Rattle.std.specs.Prelude.{◌≡◌, ◌<◌, ◌≤◌, length, IfOk};
ghost use Rattle.number.specs.Limits.{file_limit};
ghost use Rattle.reading.specs.Got.{step_of, many};
ghost use Rattle.head.specs.Annotation.{read_char, read_text, read_body, read_annotation, read_annotations, annotation_limit};

use super::Header;
use reading::{Refusal, Rule};

/// `n` characters of a text of the annotation at `place`. Inlined, as `read_text` is: the room of an answer that a call
/// fills is cleared for each annotation, also for those without texts.
#[inline(always)]
#[tactic(auto, using(crate::proofs::TextLaws::chars))]
fn read_chars(
    file: &[u8],
    place: usize,
    limit: usize,
    from: usize,
    n: usize,
) -> Result<usize, Refusal>
    requires { (from ≤ limit) × (limit ≤ length file.now) }
    ensures reads { result ≡ step_of (many (read_char place limit file.now) n from) }
    ensures within { IfOk result (λ e. (from ≤ e) × (e ≤ limit)) }
{
    let mut at = from;
    for _ in 0..n {
        let size = utf8::char_size(file, at, limit);
        if size == 0 {
            return Err(Rule::Annotation.at(place));
        }
        at += size;
    }
    Ok(at)
}

/// A text of the annotation at `place`.
#[inline(always)]
#[tactic(auto, using(reading::proofs::Steps::walks, crate::proofs::TextLaws::text_step), unfolding(crate::specs::Annotation::read_text))]
fn read_text(file: &[u8], place: usize, limit: usize, at: usize) -> Result<usize, Refusal>
    requires { (at ≤ limit) × (limit ≤ length file.now) × (length file.now ≤ file_limit) }
    ensures reads { result ≡ step_of (read_text place limit file.now at) }
    ensures within { IfOk result (λ e. (at < e) × (e ≤ limit)) }
{
    let from = at + 2;
    if limit < from {
        return Err(Rule::Annotation.at(place));
    }
    let n = usize::from(number::u16_at(file, at));
    read_chars(file, place, limit, from, n)
}

/// What follows the first byte of the annotation at `place`.
#[tactic(auto, using(reading::proofs::Steps::walks), unfolding(crate::specs::Annotation::read_body, reading::specs::Got::next))]
fn read_body(file: &[u8], place: usize, limit: usize, tag: u8, at: usize) -> Result<usize, Refusal>
    requires { (at ≤ limit) × (limit ≤ length file.now) × (length file.now ≤ file_limit) }
    ensures reads { result ≡ step_of (read_body place limit file.now tag at) }
    ensures within { IfOk result (λ e. (at ≤ e) × (e ≤ limit)) }
{
    match tag {
        0 => Ok(at),
        1 => {
            let end = read_text(file, place, limit, at)?;
            read_text(file, place, limit, end)
        }
        _ => Err(Rule::Annotation.at(place)),
    }
}

/// One annotation.
#[tactic(auto, using(reading::proofs::Steps::walks), unfolding(crate::specs::Annotation::read_annotation))]
fn read_annotation(file: &[u8], limit: usize, at: usize) -> Result<usize, Refusal>
    requires { (at ≤ limit) × (limit ≤ length file.now) × (length file.now ≤ file_limit) }
    ensures reads { result ≡ step_of (read_annotation limit file.now at) }
    ensures within { IfOk result (λ e. (at < e) × (e ≤ limit)) }
{
    if limit <= at {
        return Err(Rule::Annotation.at(at));
    }
    read_body(file, at, limit, file[at] % 128, at + 1)
}

/// The annotations, which end at or before `limit`.
#[tactic(auto, using(crate::proofs::NoteLaws::notes))]
pub fn read_annotations(file: &[u8], limit: usize) -> Result<usize, Refusal>
    requires { (32 ≤ limit) × (limit ≤ length file.now) × (length file.now ≤ file_limit) }
    ensures { result ≡ step_of (read_annotations limit file.now) }
{
    let mut at = 32;
    // The last one is marked so: nothing says before how many there are.
    loop {
        let end = read_annotation(file, limit, at)?;
        if 128 <= file[at] {
            return Ok(end);
        }
        at = end;
    }
}

/// Where the annotations must have ended.
#[tactic(auto, using(number::proofs::Choice::tests), unfolding(crate::specs::Annotation::annotation_limit))]
pub fn annotation_limit(h: Header) -> usize
    ensures { result ≡ annotation_limit h }
{
    if h.count == 0 { h.pool } else { h.directory }
}
