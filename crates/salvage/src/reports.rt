// The reports, into the caller's lists.
ghost use Rattle.std.specs.Prelude.{◌≡◌, ◌+◌, ◌-◌, ◌≤◌, ◌<◌, length};
ghost use Rattle.std.proofs.lemmas.List.Edits.{sets};
ghost use Rattle.number.specs.Limits.{file_limit, entry_limit};
ghost use Rattle.mend.specs.Tables.{Parents, number_in, place_in};
ghost use Rattle.salvage.specs.Tables.{one_by, list_by, index_at, reported_at};

use number::ENTRY_LIMIT;

// Index, number and place of entry k at place c, where something is reported of it: `number` is 1 more, or 0. The next place.
fn put_report(
    k: usize,
    number: usize,
    place: usize,
    c: usize,
    indexes: &mut [u64],
    numbers: &mut [u64],
    places: &mut [u64],
) -> usize
    requires { (k < entry_limit) × (c ≤ k) × (entry_limit ≤ length indexes.old) × (entry_limit ≤ length numbers.old) × (entry_limit ≤ length places.old) }
    ensures { (result ≡ c + length (one_by number (k + 1))) × (indexes.new ≡ sets indexes.old c (one_by number (k + 1))) × (numbers.new ≡ sets numbers.old c (one_by number (number - 1))) × (places.new ≡ sets places.old c (one_by number place)) }
{
    if number == 0 {
        return c;
    }
    indexes[c] = (k + 1) as u64;
    numbers[c] = (number - 1) as u64;
    places[c] = place as u64;
    c + 1
}

// Those of n entries, and how many there are.
pub fn put_reports(
    own: &[usize; ENTRY_LIMIT],
    at: &[usize; ENTRY_LIMIT],
    ups: &[usize; ENTRY_LIMIT],
    n: usize,
    d: usize,
    indexes: &mut [u64],
    numbers: &mut [u64],
    places: &mut [u64],
) -> usize
    requires { (n ≤ entry_limit) × (d ≤ file_limit) × (entry_limit ≡ length own.now) × (entry_limit ≡ length at.now) × (entry_limit ≡ length ups.now) × Parents ups.now n × (entry_limit ≤ length indexes.old) × (entry_limit ≤ length numbers.old) × (entry_limit ≤ length places.old) }
    ensures { (result ≡ length (list_by (number_in own.now ups.now n) index_at n)) × (indexes.new ≡ sets indexes.old 0 (list_by (number_in own.now ups.now n) index_at n)) × (numbers.new ≡ sets numbers.old 0 (list_by (number_in own.now ups.now n) (reported_at (number_in own.now ups.now n)) n)) × (places.new ≡ sets places.old 0 (list_by (number_in own.now ups.now n) (place_in own.now at.now d) n)) }
{
    let mut k: usize = 0;
    let mut c: usize = 0;
    while k < n {
        let number = mend::number_at(own, ups, n, k);
        let place = mend::place_at(own, at, d, k);
        c = put_report(k, number, place, c, indexes, numbers, places);
        k += 1;
    }
    c
}
