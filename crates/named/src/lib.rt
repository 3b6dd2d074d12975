// The files that the words of a line name, in the store.
#![tactic(auto)]

ghost use Rattle.std.specs.Prelude.{◌≤◌};
ghost use Rattle.number.specs.Limits.{pile_limit};
ghost use Rattle.words.specs.Words.{words_of};
ghost use Rattle.tasks.specs.Tasks.{in_batch, argument};
ghost use Rattle.kept.specs.Table.{Tidy};
ghost use Rattle.kept.specs.Room.{Roomy};
ghost use Rattle.store.specs.Loading.{is_barred, Loads};
ghost use Rattle.named.specs.Places.{Lies};
ghost use Rattle.named.specs.Settled.{Settled};

use kept::{Kept, STORE_ROOM};
use store::Asked;
use words::Span;

// The file of the k-th word into the store.
pub fn fetch(
    rt: &HostRuntime,
    line: &[u8],
    separator: u8,
    k: usize,
    kept: Kept,
    rows: &mut [usize; 256],
    store: &mut [u8; STORE_ROOM],
) -> Asked
    requires { (k ≤ pile_limit) × (Tidy rows.old kept × Roomy 1 kept) }
    ensures { Loads (is_barred (in_batch separator) (argument k (words_of separator line.now))) (argument k (words_of separator line.now)) kept rows.old store.old result rows.new store.new }
{
    let name = tasks::argument(line, separator, k);
    let from = name.from;
    let end = name.end;
    store::load(
        rt,
        &line[from..end],
        tasks::in_batch(separator),
        kept,
        rows,
        store,
    )
}

// The place in the store of the file of the k-th word, or of no bytes.
pub fn file_at(
    line: &[u8],
    separator: u8,
    k: usize,
    kept: Kept,
    rows: &[usize; 256],
    store: &[u8; STORE_ROOM],
) -> Span
    requires { (k ≤ pile_limit) × Tidy rows.now kept }
    ensures { Lies (argument k (words_of separator line.now)) kept rows.now store.now result }
{
    let word = tasks::argument(line, separator, k);
    let from = word.from;
    let end = word.end;
    kept::file_of(&line[from..end], kept, rows, store)
}

// What may be the file that the line wrote is read anew.
pub fn settle(
    line: &[u8],
    separator: u8,
    kept: Kept,
    rows: &mut [usize; 256],
    store: &[u8; STORE_ROOM],
)
    requires { Tidy rows.old kept }
    ensures { Settled separator line.now kept rows.new store.now }
{
    if tasks::is_writing(tasks::task_of(line, separator)) {
        let name = tasks::output(line, separator);
        let from = name.from;
        let end = name.end;
        kept::forget(&line[from..end], kept, rows, store);
    }
}
