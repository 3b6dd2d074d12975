//! Salvaging for callers in C and Rust. Where `answer` has too little room, neither `out` nor a list is written either.
ghost use Rattle.cabi.specs.Salvages.{SalvageCalled};

/// What is left of a damaged file into `out`, and of each entry that was changed index, number and place into the three lists. Written: 0, the length and how many entries were changed; refused: 3, number and place.
#[unsafe(no_mangle)]
pub extern "C" fn saniotka_salvage(
    file: &[u8],
    indexes: &mut [u64],
    numbers: &mut [u64],
    places: &mut [u64],
    out: &mut [u8],
    answer: &mut [u64],
) -> i32
    ensures { SalvageCalled file.now answer.old (record { indexes = indexes.old; numbers = numbers.old; places = places.old; out = out.old }) result answer.new (record { indexes = indexes.new; numbers = numbers.new; places = places.new; out = out.new }) }
{
    cabi::saniotka_salvage(file, indexes, numbers, places, out, answer)
}
