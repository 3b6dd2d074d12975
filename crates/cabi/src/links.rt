//! Normalising, adopting and linking for callers in C and Rust. Where `answer` has too little room, `out` is not written either.
ghost use Rattle.std.specs.Prelude.{◌≡◌};
ghost use Rattle.adopt.specs.Adopt.{adopt_answer, adopt_buffer};
ghost use Rattle.link.specs.Outcome.{normalise_answer, normalise_buffer, link_answer, link_buffer};
ghost use Rattle.numbers.specs.Call.{Called, where_room};
ghost use Rattle.outcomes.specs.Numbers.{normal_numbers, link_numbers};

use crate::{ANSWERED, TOO_SHORT};

/// The normal form of a file into `out`. Written: 0 and its length; refused: 3, number and place.
#[unsafe(no_mangle)]
pub extern "C" fn saniotka_normal(file: &[u8], out: &mut [u8], answer: &mut [u64]) -> i32
    ensures { Called (normal_numbers (normalise_answer file.now out.old)) answer.old result answer.new × (out.new ≡ where_room answer.old out.old (normalise_buffer file.now out.old)) }
{
    if answer.len() < numbers::ROOM {
        return TOO_SHORT;
    }
    let a = link::normalise(file, out);
    outcomes::put_normalised(a, answer);
    ANSWERED
}

/// A file whose directory offset counts from 1, in the published layout, into `out`. Written: 0 and its length; refused: 3, number and place.
#[unsafe(no_mangle)]
pub extern "C" fn saniotka_adopt(file: &[u8], out: &mut [u8], answer: &mut [u64]) -> i32
    ensures { Called (normal_numbers (adopt_answer file.now out.old)) answer.old result answer.new × (out.new ≡ where_room answer.old out.old (adopt_buffer file.now out.old)) }
{
    if answer.len() < numbers::ROOM {
        return TOO_SHORT;
    }
    let a = adopt::adopt(file, out);
    outcomes::put_normalised(a, answer);
    ANSWERED
}

/// The normal form of the union of two files into `out`. Refused: 3, which (1 or 2 for a file's own refusal, else 0), number and place.
#[unsafe(no_mangle)]
pub extern "C" fn saniotka_link(
    first: &[u8],
    second: &[u8],
    out: &mut [u8],
    answer: &mut [u64],
) -> i32
    ensures { Called (link_numbers (link_answer first.now second.now out.old)) answer.old result answer.new × (out.new ≡ where_room answer.old out.old (link_buffer first.now second.now out.old)) }
{
    if answer.len() < numbers::ROOM {
        return TOO_SHORT;
    }
    let a = link::link(first, second, out);
    outcomes::put_linked(a, answer);
    ANSWERED
}
