//! Why a call of the system failed, in words, from `at` on: by the number that it gave, over the whole table.
ghost use Rattle.std.specs.Prelude.{◌+◌, ◌≤◌};
ghost use Rattle.text.specs.Writing.{Wrote};
ghost use Rattle.failures.specs.Room.{room};
ghost use Rattle.failures.specs.Reasons.{reason_text, path_text, full_text, rare_text};

use crate::ROOM;

fn put_rare(n: u64, text: &mut [u8; ROOM], at: usize) -> usize
    requires { at + 64 ≤ room }
    ensures { Wrote text.old at (rare_text n) result text.new × (result ≤ at + 64) }
{
    match n {
        36 => text::put_bytes(text, at, b"the name is too long"),
        39 => text::put_bytes(text, at, b"the folder is not empty"),
        40 => text::put_bytes(text, at, b"symbolic links lead in a circle"),
        75 => text::put_bytes(text, at, b"the file is too large to be opened"),
        116 => text::put_bytes(text, at, b"the file is gone from its server"),
        122 => text::put_bytes(text, at, b"the disk quota is used up"),
        _ => text::put_labelled(text, at, b"the system gives error ", n),
    }
}

#[tactic(auto, using(crate::proofs::MadeLaws::writing, number::proofs::Choice::tests), unfolding(crate::specs::Reasons::full_text))]
fn put_full(n: u64, text: &mut [u8; ROOM], at: usize) -> usize
    requires { at + 64 ≤ room }
    ensures { Wrote text.old at (full_text n) result text.new × (result ≤ at + 64) }
{
    match n {
        22 => text::put_bytes(text, at, b"the system does not take this request"),
        23 => text::put_bytes(text, at, b"the system has too many files open"),
        24 => text::put_bytes(text, at, b"the program has too many files open"),
        26 => text::put_bytes(text, at, b"it is a program that runs"),
        27 => text::put_bytes(text, at, b"the file would be too large"),
        28 => text::put_bytes(text, at, b"no space is left"),
        30 => text::put_bytes(text, at, b"the file system is read-only"),
        _ => put_rare(n, text, at),
    }
}

#[tactic(auto, using(crate::proofs::MadeLaws::writing, number::proofs::Choice::tests), unfolding(crate::specs::Reasons::path_text))]
fn put_path(n: u64, text: &mut [u8; ROOM], at: usize) -> usize
    requires { at + 64 ≤ room }
    ensures { Wrote text.old at (path_text n) result text.new × (result ≤ at + 64) }
{
    match n {
        12 => text::put_bytes(text, at, b"memory is used up"),
        13 => text::put_bytes(text, at, b"permission denied"),
        16 => text::put_bytes(text, at, b"it is in use"),
        17 => text::put_bytes(text, at, b"it is there already"),
        18 => text::put_bytes(text, at, b"it lies in another file system"),
        20 => text::put_bytes(text, at, b"a part of the path is not a folder"),
        21 => text::put_bytes(text, at, b"it is a folder"),
        _ => put_full(n, text, at),
    }
}

#[tactic(auto, using(crate::proofs::MadeLaws::writing, number::proofs::Choice::tests), unfolding(crate::specs::Reasons::reason_text))]
pub fn put_reason(n: u64, text: &mut [u8; ROOM], at: usize) -> usize
    requires { at + 64 ≤ room }
    ensures { Wrote text.old at (reason_text n) result text.new × (result ≤ at + 64) }
{
    match n {
        1 => text::put_bytes(text, at, b"the system does not permit it"),
        2 => text::put_bytes(text, at, b"there is no such file or folder"),
        4 => text::put_bytes(text, at, b"a signal broke in"),
        5 => text::put_bytes(text, at, b"the disk or device failed"),
        6 => text::put_bytes(text, at, b"there is no such device"),
        9 => text::put_bytes(text, at, b"it is not open for this"),
        11 => text::put_bytes(text, at, b"it is not ready"),
        _ => put_path(n, text, at),
    }
}
