//! Files by name, read where they are not kept from an earlier command of the batch (crate `kept`).
#![tactic(auto)]

ghost use Rattle.std.specs.Prelude.{◌≡◌, false, ◌+◌, ◌≤◌, ◌<◌, length};
ghost use Rattle.paths.specs.Path.{path_limit};
ghost use Rattle.number.specs.Limits.{file_most};
ghost use Rattle.kept.specs.Names.{forgotten_state};
ghost use Rattle.kept.specs.Table.{Tidy};
ghost use Rattle.kept.specs.Room.{Roomy};
ghost use Rattle.kept.specs.Files.{is_found};
ghost use Rattle.store.specs.Loading.{is_barred, ReadBehind, Loads};

use input::Begun;
use kept::{Kept, STORE_ROOM};
use number::FILE_MOST;
use std::rt::Files;
use words::Span;

/// A file is kept under its name; standard input is the batch's own; or errno's number.
#[derive(Clone, Copy, Debug, PartialEq, Eq)]
pub enum Loaded {
    Kept,
    InBatch,
    Failed(i32),
}

/// What was asked for, and what is kept now.
#[derive(Clone, Copy, Debug, PartialEq, Eq)]
pub struct Asked {
    pub kept: Kept,
    pub file: Loaded,
}

// The file's bytes into the store from `from` on.
fn read_from(rt: &HostRuntime, name: &[u8], from: usize, store: &mut [u8]) -> Result<usize, i32>
    requires { from + file_most ≤ length store.old }
    ensures { ReadBehind name.now store.old from result store.new }
{
    let most = from + FILE_MOST;
    match input::begin(rt, name, &mut store[from..most])? {
        Begun::Full(source) => {
            input::close(source);
            Ok(most)
        }
        Begun::Whole(n) => Ok(from + n),
    }
}

// The state of a row.
fn state_of(rt: &HostRuntime, name: &[u8]) -> usize
    ensures { result < forgotten_state }
{
    if input::is_input(name) {
        return kept::PLAIN;
    }
    let Ok(text) = paths::text_of(name) else {
        return kept::PLAIN;
    };
    match rt.symlink_metadata(text) {
        Ok(told) if told.is_symlink() => kept::LINK,
        _ => kept::PLAIN,
    }
}

// The file, which is not kept, behind what is, with its name before it.
fn read_in(
    rt: &HostRuntime,
    name: &[u8],
    kept: Kept,
    rows: &mut [usize; 256],
    store: &mut [u8; STORE_ROOM],
) -> Asked
    requires { Tidy rows.old kept × (Roomy 1 kept × ((is_found name.now kept rows.old store.old ≡ false) × (length name.now ≤ path_limit))) }
    ensures { Loads false name.now kept rows.old store.old result rows.new store.new }
{
    let from = text::put_bytes(store, kept.used, name);
    match read_from(rt, name, from, store) {
        Err(error) => Asked {
            kept,
            file: Loaded::Failed(error),
        },
        Ok(end) => Asked {
            kept: kept::add(state_of(rt, name), Span { from, end }, kept, rows),
            file: Loaded::Kept,
        },
    }
}

// Standard input, where its lines are the batch's.
#[tactic(auto, using(number::proofs::Choice::tests), unfolding(crate::specs::Loading::is_barred))]
fn is_barred(in_batch: bool, name: &[u8]) -> bool
    ensures { result ≡ is_barred in_batch name.now }
{
    in_batch && input::is_input(name)
}

/// The file of this name. There is room for it: see `kept::with_room`.
pub fn load(
    rt: &HostRuntime,
    name: &[u8],
    in_batch: bool,
    kept: Kept,
    rows: &mut [usize; 256],
    store: &mut [u8; STORE_ROOM],
) -> Asked
    requires { Tidy rows.old kept × Roomy 1 kept }
    ensures { Loads (is_barred in_batch name.now) name.now kept rows.old store.old result rows.new store.new }
{
    if is_barred(in_batch, name) {
        return Asked {
            kept,
            file: Loaded::InBatch,
        };
    }
    if kept::row_of(name, kept, rows, store) < kept.rows {
        return Asked {
            kept,
            file: Loaded::Kept,
        };
    }
    if paths::LIMIT < name.len() {
        return Asked {
            kept,
            file: Loaded::Failed(paths::ENAMETOOLONG),
        };
    }
    read_in(rt, name, kept, rows, store)
}
