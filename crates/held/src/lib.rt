// The files that a line names, loaded into the store.
#![tactic(auto)]

ghost use Rattle.std.specs.Prelude.{◌≡◌, true, ℕ};
ghost use Rattle.words.specs.Words.{words_of};
ghost use Rattle.tasks.specs.Tasks.{argument, task_of, files_of};
ghost use Rattle.kept.specs.Table.{Tidy};
ghost use Rattle.kept.specs.Files.{is_found};
ghost use Rattle.kept.specs.Room.{Roomy};
ghost use Rattle.store.specs.declared.Loaded.TheVariants as loaded;
ghost use Rattle.held.specs.Held.{WhereHad, FetchesAll};

use kept::{Kept, STORE_ROOM};
use store::Loaded;

// Whether a file is wanting: none, standard input, which has the commands of a batch, or the first or second, by errno's number.
#[derive(Drop)]
pub enum Wanting {
    Nothing,
    Input,
    First(i32),
    Second(i32),
}

// What is kept now, and what is wanting.
#[derive(Drop)]
pub struct Fetched {
    pub kept: Kept,
    pub wanting: Wanting,
}

fn first_wanting(file: Loaded) -> Wanting
    ensures { WhereHad (file ≡ loaded.Kept) result }
{
    match file {
        Loaded::Kept => Wanting::Nothing,
        Loaded::InBatch => Wanting::Input,
        Loaded::Failed(error) => Wanting::First(error),
    }
}

fn second_wanting(file: Loaded) -> Wanting
    ensures { WhereHad (file ≡ loaded.Kept) result }
{
    match file {
        Loaded::Kept => Wanting::Nothing,
        Loaded::InBatch => Wanting::Input,
        Loaded::Failed(error) => Wanting::Second(error),
    }
}

// The second file, where the first is kept.
fn fetch_second(
    rt: &HostRuntime,
    line: &[u8],
    separator: u8,
    kept: Kept,
    rows: &mut [usize; 256],
    store: &mut [u8; STORE_ROOM],
) -> Fetched
    requires { (Tidy rows.old kept × Roomy 1 kept) × (is_found (argument 1 (words_of separator line.now)) kept rows.old store.old ≡ true) }
    ensures { (n : ℕ) → FetchesAll n (words_of separator line.now) result rows.new store.new }
{
    let asked = named::fetch(rt, line, separator, 2, kept, rows, store);
    let kept = asked.kept;
    let file = asked.file;
    Fetched {
        kept,
        wanting: second_wanting(file),
    }
}

// The second file, unless the first is wanting.
fn fetch_next(
    rt: &HostRuntime,
    line: &[u8],
    separator: u8,
    wanting: Wanting,
    kept: Kept,
    rows: &mut [usize; 256],
    store: &mut [u8; STORE_ROOM],
) -> Fetched
    requires { (Tidy rows.old kept × Roomy 1 kept) × WhereHad (is_found (argument 1 (words_of separator line.now)) kept rows.old store.old ≡ true) wanting }
    ensures { (n : ℕ) → FetchesAll n (words_of separator line.now) result rows.new store.new }
{
    match wanting {
        Wanting::Nothing => fetch_second(rt, line, separator, kept, rows, store),
        Wanting::Input => Fetched {
            kept,
            wanting: Wanting::Input,
        },
        Wanting::First(error) => Fetched {
            kept,
            wanting: Wanting::First(error),
        },
        Wanting::Second(error) => Fetched {
            kept,
            wanting: Wanting::Second(error),
        },
    }
}

// The files that the line names into the store, up to the first that is wanting.
pub fn fetch_all(
    rt: &HostRuntime,
    line: &[u8],
    separator: u8,
    kept: Kept,
    rows: &mut [usize; 256],
    store: &mut [u8; STORE_ROOM],
) -> Fetched
    requires { Tidy rows.old kept × Roomy 2 kept }
    ensures { FetchesAll (files_of (task_of separator line.now)) (words_of separator line.now) result rows.new store.new }
{
    let n = tasks::files_of(tasks::task_of(line, separator));
    if n == 0 {
        return Fetched {
            kept,
            wanting: Wanting::Nothing,
        };
    }
    let asked = named::fetch(rt, line, separator, 1, kept, rows, store);
    let kept = asked.kept;
    let file = asked.file;
    let wanting = first_wanting(file);
    if n == 1 {
        return Fetched { kept, wanting };
    }
    fetch_next(rt, line, separator, wanting, kept, rows, store)
}
