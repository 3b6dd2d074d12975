//! The length of a file, before anything is written.
ghost use Rattle.std.specs.Prelude.{◌≡◌, List, ℕ, length};
ghost use Rattle.number.specs.Limits.{row_limit};
ghost use Rattle.reader.specs.Values.{Entry};
ghost use Rattle.names.specs.Uses.{use_limit};
ghost use Rattle.gather.specs.Leading.{Leading, LedEntries};
ghost use Rattle.output.specs.Measures.{Measures};

use crate::Measured;
use gather::note_rows;
use names::{USE_LIMIT, first_uses};
use number::{ENTRY_WIDTH, FILE_LIMIT, ROW_LIMIT};
use places::lay_out;

// What stands for lengths over the limit that are not counted to their end.
const TOO_LONG: usize = FILE_LIMIT + 1;

/// Of c rows, whose names, namespaces and descriptors three tables lead to: the tables of `note_rows`, the places of their uses, and how long their file is.
pub fn measure(
    pool: &[u8],
    other: &[u8],
    names: &mut [u32; ROW_LIMIT],
    spaces: &[u32; ROW_LIMIT],
    bodies: &[u32; ROW_LIMIT],
    c: usize,
    words: &mut [u32; USE_LIMIT],
    before: &mut [u32; ROW_LIMIT],
    sizes: &mut [u32; ROW_LIMIT],
    places: &mut [u32; USE_LIMIT],
) -> Measured
    requires { LedEntries pool.now other.now names.old spaces.now bodies.now c × ((row_limit ≡ length names.old) × ((use_limit ≡ length words.old) × ((row_limit ≡ length before.old) × ((row_limit ≡ length sizes.old) × (use_limit ≡ length places.old))))) }
    ensures { ((n : ℕ) (us : List (Entry ℕ)) → Leading pool.now other.now n names.old spaces.now bodies.now us c → Measures us pool.now other.now words.new names.new before.new sizes.new places.new c result) × (row_limit ≡ length sizes.new) }
{
    match note_rows(pool, other, names, spaces, bodies, c, words, before, sizes) {
        None => Measured {
            uses: 0,
            size: TOO_LONG,
        },
        Some(m) => {
            first_uses(pool, other, words, m, places);
            let end = lay_out(pool, other, words, m, before, sizes, c, places);
            if FILE_LIMIT < end {
                return Measured {
                    uses: m,
                    size: TOO_LONG,
                };
            }
            Measured {
                uses: m,
                size: 35 + ENTRY_WIDTH * c + end,
            }
        }
    }
}
