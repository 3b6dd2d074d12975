//! A pile of files for callers in C and Rust, who keep its two numbers between the calls. Where `answer` has too little room, no buffer is written either.
ghost use Rattle.std.specs.Prelude.{◌≡◌, ◌≤◌, length};
ghost use Rattle.std.proofs.lemmas.List.Edits.{sets};
ghost use Rattle.numbers.specs.Call.{room, Called, where_room};
ghost use Rattle.pile.specs.Pile.{answer_in, first_in, second_in, added, ended};
ghost use Rattle.cabi.specs.Piles.{pile_refusal_numbers, pile_numbers};

use crate::{ANSWERED, TOO_SHORT};
use pile::{Added, Pile, PileRefusal};

fn put_pile_refusal(x: PileRefusal, answer: &mut [u64])
    requires { room ≤ length answer.old }
    ensures { answer.new ≡ sets answer.old 0 (pile_refusal_numbers x) }
{
    let why = x.why;
    let step = x.step as u64;
    outcomes::put_linked(Err(why), answer);
    answer[4] = step;
}

fn put_added(a: Added, answer: &mut [u64])
    requires { room ≤ length answer.old }
    ensures { answer.new ≡ sets answer.old 0 (pile_numbers a) }
{
    match a {
        Added::Grown(pile) => {
            let files = pile.files as u64;
            let length = pile.length as u64;
            answer[0] = 0;
            answer[1] = files;
            answer[2] = length;
        }
        Added::Refused(x) => put_pile_refusal(x, answer),
        Added::Full => {
            answer[0] = 1;
        }
    }
}

/// One more file. Grown: 0, the number of files and the length of what they left; refused: 3, which, number, place and the link; 1 where 256 files are there.
#[unsafe(no_mangle)]
pub extern "C" fn saniotka_pile_add(
    files: u64,
    length: u64,
    file: &[u8],
    one: &mut [u8],
    other: &mut [u8],
    answer: &mut [u64],
) -> i32
    ensures { Called (pile_numbers (answer_in (added (record { files = files; length = length }) file.now one.old other.old))) answer.old result answer.new × (one.new ≡ where_room answer.old one.old (first_in (added (record { files = files; length = length }) file.now one.old other.old))) × (other.new ≡ where_room answer.old other.old (second_in (added (record { files = files; length = length }) file.now one.old other.old))) }
{
    if answer.len() < numbers::ROOM {
        return TOO_SHORT;
    }
    let pile = Pile {
        files: files as usize,
        length: length as usize,
    };
    let a = pile::add(pile, file, one, other);
    put_added(a, answer);
    ANSWERED
}

/// After the last file. Answered as above.
#[unsafe(no_mangle)]
pub extern "C" fn saniotka_pile_end(
    files: u64,
    length: u64,
    one: &mut [u8],
    other: &mut [u8],
    answer: &mut [u64],
) -> i32
    ensures { Called (pile_numbers (answer_in (ended (record { files = files; length = length }) one.old other.old))) answer.old result answer.new × (one.new ≡ where_room answer.old one.old (first_in (ended (record { files = files; length = length }) one.old other.old))) × (other.new ≡ where_room answer.old other.old (second_in (ended (record { files = files; length = length }) one.old other.old))) }
{
    if answer.len() < numbers::ROOM {
        return TOO_SHORT;
    }
    let pile = Pile {
        files: files as usize,
        length: length as usize,
    };
    let a = pile::finish(pile, one, other);
    put_added(a, answer);
    ANSWERED
}
