//! A pile of files for callers in C and Rust, who keep its two numbers between the calls. Where `answer` has too little room, no buffer is written either.
ghost use Rattle.std.specs.Prelude.{◌≡◌, length};
ghost use Rattle.numbers.specs.Call.{Called, where_room};
ghost use Rattle.pile.specs.Pile.{answer_in, first_in, second_in, added, ended};
ghost use Rattle.cabi.specs.Piles.{pile_numbers};

/// One more file. Grown: 0, the number of files and the length of what they left; refused: 3, which, number, place and the link; 1 where 256 files are there.
#[unsafe(no_mangle)]
pub extern "C" fn saniotka_pile_add(
    files: u64,
    length: u64,
    file: &[u8],
    one: &mut [u8],
    other: &mut [u8],
    answer: &mut [u64],
) -> i32
    ensures { Called (pile_numbers (answer_in (added (record { files = files; length = length }) file.now one.old other.old))) answer.old result answer.new × (one.new ≡ where_room answer.old one.old (first_in (added (record { files = files; length = length }) file.now one.old other.old))) × (other.new ≡ where_room answer.old other.old (second_in (added (record { files = files; length = length }) file.now one.old other.old))) }
{
    cabi::saniotka_pile_add(files, length, file, one, other, answer)
}

/// After the last file. Answered as above.
#[unsafe(no_mangle)]
pub extern "C" fn saniotka_pile_end(
    files: u64,
    length: u64,
    one: &mut [u8],
    other: &mut [u8],
    answer: &mut [u64],
) -> i32
    ensures { Called (pile_numbers (answer_in (ended (record { files = files; length = length }) one.old other.old))) answer.old result answer.new × (one.new ≡ where_room answer.old one.old (first_in (ended (record { files = files; length = length }) one.old other.old))) × (other.new ≡ where_room answer.old other.old (second_in (ended (record { files = files; length = length }) one.old other.old))) }
{
    cabi::saniotka_pile_end(files, length, one, other, answer)
}
