//! Salvaging for callers in C and Rust. Where `answer` has too little room, neither `out` nor a list is written either.
ghost use Rattle.std.specs.Prelude.{◌≡◌, ◌≤◌, length};
ghost use Rattle.std.proofs.lemmas.List.Edits.{sets};
ghost use Rattle.numbers.specs.Call.{room};
ghost use Rattle.cabi.specs.Salvages.{salvaged_numbers, SalvageCalled};

use crate::{ANSWERED, TOO_SHORT};
use reading::Refusal;
use salvage::Remains;

// Written: 0, the length and how many entries were changed; refused: 3, number and place.
fn put_salvaged(a: Result<Remains, Refusal>, answer: &mut [u64])
    requires { room ≤ length answer.old }
    ensures { answer.new ≡ sets answer.old 0 (salvaged_numbers a) }
{
    match a {
        Ok(left) => {
            let n = left.length as u64;
            let changed = left.changed as u64;
            answer[0] = 0;
            answer[1] = n;
            answer[2] = changed;
        }
        Err(why) => numbers::put_refusal(why, answer),
    }
}

/// What is left of a damaged file into `out`, and of each entry that was changed index, number and place into the three lists. Written: 0, the length and how many entries were changed; refused: 3, number and place.
#[unsafe(no_mangle)]
pub extern "C" fn saniotka_salvage(
    file: &[u8],
    indexes: &mut [u64],
    numbers: &mut [u64],
    places: &mut [u64],
    out: &mut [u8],
    answer: &mut [u64],
) -> i32
    ensures { SalvageCalled file.now answer.old (record { indexes = indexes.old; numbers = numbers.old; places = places.old; out = out.old }) result answer.new (record { indexes = indexes.new; numbers = numbers.new; places = places.new; out = out.new }) }
{
    if answer.len() < numbers::ROOM {
        return TOO_SHORT;
    }
    let a = salvage::salvage(file, indexes, numbers, places, out);
    put_salvaged(a, answer);
    ANSWERED
}
