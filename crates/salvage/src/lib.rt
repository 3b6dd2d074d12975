// Salvage: the normal form of what is left of a damaged file, and a report of what is not.
#![tactic(auto)]

ghost use Rattle.std.specs.Prelude.{◌≤◌, length};
ghost use Rattle.number.specs.Limits.{file_limit};
ghost use Rattle.salvage.specs.Salvage.{Salvages};

use number::FILE_LIMIT;
use reading::Refusal;

mod behind;
mod reports;
mod work;

// The length of what was written, and how many entries were changed.
#[derive(Drop)]
pub struct Remains {
    pub length: usize,
    pub changed: usize,
}

// With room for a copy of any file.
fn salvage_in(
    file: &[u8],
    work: &mut [u8],
    indexes: &mut [u64],
    numbers: &mut [u64],
    places: &mut [u64],
    out: &mut [u8],
) -> Result<Remains, Refusal>
    requires { file_limit ≤ length work.old }
    ensures { Salvages file.now (record { indexes = indexes.old; numbers = numbers.old; places = places.old; out = out.old }) result (record { indexes = indexes.new; numbers = numbers.new; places = places.new; out = out.new }) }
{
    match typelib::check_front(file) {
        Ok(h) => { crate::behind::salvage_front(file, h, work, indexes, numbers, places, out) }
        Err(why) => Err(why),
    }
}

// The same, the room being the caller's.
pub fn salvage_with(
    file: &[u8],
    work: &mut [u8; FILE_LIMIT],
    indexes: &mut [u64],
    numbers: &mut [u64],
    places: &mut [u64],
    out: &mut [u8],
) -> Result<Remains, Refusal>
    ensures { Salvages file.now (record { indexes = indexes.old; numbers = numbers.old; places = places.old; out = out.old }) result (record { indexes = indexes.new; numbers = numbers.new; places = places.new; out = out.new }) }
{
    salvage_in(file, work, indexes, numbers, places, out)
}

// The normal form of what is left of a file into `out`, and into the three lists, of at least 1,024 numbers each, the index, number and place of what is reported.
pub fn salvage(
    file: &[u8],
    indexes: &mut [u64],
    numbers: &mut [u64],
    places: &mut [u64],
    out: &mut [u8],
) -> Result<Remains, Refusal>
    ensures { Salvages file.now (record { indexes = indexes.old; numbers = numbers.old; places = places.old; out = out.old }) result (record { indexes = indexes.new; numbers = numbers.new; places = places.new; out = out.new }) }
{
    let mut work = [0u8; FILE_LIMIT];
    salvage_with(file, &mut work, indexes, numbers, places, out)
}
