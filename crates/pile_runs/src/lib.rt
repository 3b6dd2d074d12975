// A link of many files, from the bytes of its line to standard output, standard error and a file.
#![tactic(auto)]

ghost use Rattle.std.specs.Prelude.{◌≤◌, length};
ghost use Rattle.number.specs.Limits.{file_limit, pile_limit};
ghost use Rattle.failures.specs.Room.{word_limit};
ghost use Rattle.said.specs.Saying.{answer_room};
ghost use Rattle.kept.specs.Table.{Tidy};
ghost use Rattle.named.specs.Settled.{Settled};
ghost use Rattle.piling.specs.Answers.{SavesIn};

use failures::ROOM;
use kept::{Kept, STORE_ROOM};
use number::FILE_LIMIT;
use pile::{Added, PileRefusal};
use piling::{Replied, Saves, Went};
use said::ANSWER_ROOM;
use saving::Saved;
use told::{Ran, Told};

// What a pile saves to the file that the line names.
fn save_pile(
    rt: &HostRuntime,
    line: &[u8],
    separator: u8,
    saves: Saves,
    out: &[u8; FILE_LIMIT],
    work: &[u8; FILE_LIMIT],
) -> Saved
    requires { SavesIn file_limit saves }
{
    match saves {
        Saves::Nothing => Ok(()),
        Saves::First(n) => told::save_output(rt, line, separator, n, out),
        Saves::Second(n) => told::save_output(rt, line, separator, n, work),
    }
}

// The line at the front of `head`, and on standard error why a pile was refused.
fn say_refused(
    line: &[u8],
    separator: u8,
    x: PileRefusal,
    n: usize,
    head: &[u8; ANSWER_ROOM],
    kept: Kept,
    rows: &[usize; 256],
    store: &[u8; STORE_ROOM],
    text: &mut [u8; ROOM],
) -> Told
    requires { ((length line.now ≤ word_limit) × (n ≤ answer_room)) × Tidy rows.now kept }
{
    if !told::answer::put(head, n) {
        return Told::Closed;
    }
    refusals::say_step(line, separator, x, kept, rows, store, text);
    Told::Answer
}

// What came of a pile: its file is written and its line said, or the line for a file that is wanting.
fn reply_pile(
    rt: &HostRuntime,
    line: &[u8],
    separator: u8,
    replied: Replied,
    rows: &[usize; 256],
    store: &[u8; STORE_ROOM],
    out: &[u8; FILE_LIMIT],
    work: &[u8; FILE_LIMIT],
    head: &[u8; ANSWER_ROOM],
    text: &mut [u8; ROOM],
) -> Told
    requires { ((length line.now ≤ word_limit) × (replied.count ≤ pile_limit)) × ((replied.said.length ≤ answer_room) × (SavesIn file_limit replied.saves × Tidy rows.now replied.kept)) }
{
    let kept = replied.kept;
    let k = replied.count;
    let went = replied.went;
    let said = replied.said;
    let saves = replied.saves;
    let n = said.length;
    match went {
        Went::Added(added) => match added {
            Added::Grown(_) => {
                let saved = save_pile(rt, line, separator, saves, out, work);
                told::say_saved(line, separator, saved, n, head, text)
            }
            Added::Refused(x) => say_refused(line, separator, x, n, head, kept, rows, store, text),
            Added::Full => told::say_mistake(line, separator, head, n, text),
        },
        Went::Wanting(file) => told::say_wanting(line, separator, k, file, text),
    }
}

// A link of n files.
pub fn run(
    rt: &HostRuntime,
    line: &[u8],
    separator: u8,
    n: usize,
    kept: Kept,
    rows: &mut [usize; 256],
    store: &mut [u8; STORE_ROOM],
    out: &mut [u8; FILE_LIMIT],
    work: &mut [u8; FILE_LIMIT],
    text: &mut [u8; ROOM],
) -> Ran
    requires { (n ≤ pile_limit) × ((length line.now ≤ word_limit) × Tidy rows.old kept) }
    ensures { Settled separator line.now result.kept rows.new store.new }
{
    let mut head = [0u8; ANSWER_ROOM];
    let replied = piling::answer(
        rt, line, separator, n, kept, rows, store, out, work, &mut head,
    );
    let kept = replied.kept;
    let told = reply_pile(
        rt, line, separator, replied, rows, store, out, work, &head, text,
    );
    named::settle(line, separator, kept, rows, store);
    Ran { kept, told }
}
