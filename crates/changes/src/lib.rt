//! What was changed in what was salvaged, in words on standard error, by the report of a second salvage of the same file.
#![tactic(auto)]

ghost use Rattle.std.specs.Prelude.{◌≤◌, length};
ghost use Rattle.number.specs.Limits.{entry_limit};
ghost use Rattle.failures.specs.Room.{word_limit};
ghost use Rattle.kept.specs.Table.{Tidy};

use failures::ROOM;
use kept::{Kept, STORE_ROOM};
use number::{ENTRY_LIMIT, FILE_LIMIT};
use reading::Refusal;
use tasks::Task;
use verbs::Verb;

fn is_salvaging(line: &[u8], separator: u8) -> bool {
    if let Task::Run(verb) = tasks::task_of(line, separator) {
        if let Verb::Salvage = verb {
            return true;
        }
    }
    false
}

// The first n reports of these lists, one after the other.
fn say_listed(
    name: &[u8],
    file: &[u8],
    indexes: &[u64; ENTRY_LIMIT],
    numbers: &[u64; ENTRY_LIMIT],
    places: &[u64; ENTRY_LIMIT],
    n: usize,
    text: &mut [u8; ROOM],
)
    requires { (length name.now ≤ word_limit) × (n ≤ entry_limit) }
{
    let mut k: usize = 0;
    while k < n {
        let why = Refusal {
            no: (numbers[k] % 256) as u8,
            place: places[k] as usize,
        };
        remarks::changed(name, file, indexes[k] as usize, why, text);
        k += 1;
    }
}

fn say_reports(
    name: &[u8],
    file: &[u8],
    out: &mut [u8; FILE_LIMIT],
    work: &mut [u8; FILE_LIMIT],
    text: &mut [u8; ROOM],
)
    requires { length name.now ≤ word_limit }
{
    let mut indexes = [0u64; ENTRY_LIMIT];
    let mut numbers = [0u64; ENTRY_LIMIT];
    let mut places = [0u64; ENTRY_LIMIT];
    let salvaged = salvage::salvage_with(file, work, &mut indexes, &mut numbers, &mut places, out);
    if let Ok(left) = salvaged {
        let n = left.changed;
        if n <= ENTRY_LIMIT {
            say_listed(name, file, &indexes, &numbers, &places, n, text);
        }
    }
}

/// What was changed in what was salvaged of the line's file, which leaves the same bytes in `out` again.
pub fn say(
    line: &[u8],
    separator: u8,
    kept: Kept,
    rows: &[usize; 256],
    store: &[u8; STORE_ROOM],
    out: &mut [u8; FILE_LIMIT],
    work: &mut [u8; FILE_LIMIT],
    text: &mut [u8; ROOM],
)
    requires { (length line.now ≤ word_limit) × Tidy rows.now kept }
{
    if is_salvaging(line, separator) {
        let name = tasks::argument(line, separator, 1);
        let file = named::file_at(line, separator, 1, kept, rows, store);
        let a = name.from;
        let b = name.end;
        let c = file.from;
        let d = file.end;
        let all: &[u8] = store;
        say_reports(&line[a..b], &all[c..d], out, work, text);
    }
}
