// A link of many files, which are fetched and added one by one, and its answer.
#![tactic(auto)]

ghost use Rattle.std.specs.Prelude.{◌≡◌, ◌≤◌};
ghost use Rattle.number.specs.Limits.{pile_limit};
ghost use Rattle.words.specs.Words.{words_of};
ghost use Rattle.tasks.specs.Tasks.{in_batch, argument};
ghost use Rattle.kept.specs.Table.{Tidy};
ghost use Rattle.pile.specs.Pile.{turn, added};
ghost use Rattle.piling.specs.Fetching.{store_of, file_in, Asks, WentOn, Short, ShortEnd, Links};
ghost use Rattle.piling.specs.Answers.{place_of, saves_of, Answers};

use kept::{Kept, STORE_ROOM};
use number::FILE_LIMIT;
use pile::{Added, Pile};
use said::{ANSWER_ROOM, Said, Why};
use store::{Asked, Loaded};

// What came of a file: it was added or refused, or why it is wanting.
#[derive(Drop)]
pub enum Went {
    Added(Added),
    Wanting(Loaded),
}

// What is kept now, and what came of the file.
#[derive(Drop)]
struct Next {
    kept: Kept,
    went: Went,
}

// What is kept now, the number of the last file that was asked for, and what came of it; after the last file of all what came of the pile.
#[derive(Drop)]
struct Gathered {
    kept: Kept,
    count: usize,
    went: Went,
}

// What is saved: nothing, or the first bytes of one of the two buffers.
#[derive(Drop)]
pub enum Saves {
    Nothing,
    First(usize),
    Second(usize),
}

// What is kept now, the number of the last file that was asked for, and what came of it; the line that was said and what is saved, neither of them where a file is wanting.
#[derive(Drop)]
pub struct Replied {
    pub kept: Kept,
    pub count: usize,
    pub went: Went,
    pub said: Said,
    pub saves: Saves,
}

// The file of the k-th word into the store, where room is made for it.
fn fetch(
    rt: &HostRuntime,
    line: &[u8],
    separator: u8,
    k: usize,
    kept: Kept,
    rows: &mut [usize; 256],
    store: &mut [u8; STORE_ROOM],
) -> Asked
    requires { (k ≤ pile_limit) × Tidy rows.old kept }
    ensures { Asks (in_batch separator) (argument k (words_of separator line.now)) (store_of kept rows.old store.old) result.file (store_of result.kept rows.new store.new) }
{
    let roomy = kept::with_room(kept, 1, rows);
    named::fetch(rt, line, separator, k, roomy, rows, store)
}

// The file of the k-th word, which is in the store, into the pile.
fn add_kept(
    line: &[u8],
    separator: u8,
    k: usize,
    pile: Pile,
    kept: Kept,
    rows: &[usize; 256],
    store: &[u8; STORE_ROOM],
    one: &mut [u8; FILE_LIMIT],
    other: &mut [u8; FILE_LIMIT],
) -> Added
    requires { (k ≤ pile_limit) × Tidy rows.now kept }
    ensures { (turn result one.new other.new ≡ added pile (file_in (store_of kept rows.now store.now) (argument k (words_of separator line.now))) one.old other.old) × Short result }
{
    let file = named::file_at(line, separator, k, kept, rows, store);
    let from = file.from;
    let end = file.end;
    let all: &[u8] = store;
    pile::add(pile, &all[from..end], one, other)
}

// The file of the k-th word, fetched and added.
fn add_next(
    rt: &HostRuntime,
    line: &[u8],
    separator: u8,
    k: usize,
    pile: Pile,
    kept: Kept,
    rows: &mut [usize; 256],
    store: &mut [u8; STORE_ROOM],
    one: &mut [u8; FILE_LIMIT],
    other: &mut [u8; FILE_LIMIT],
) -> Next
    requires { (k ≤ pile_limit) × Tidy rows.old kept }
    ensures { Tidy rows.new result.kept × (ShortEnd result.went × WentOn (in_batch separator) (argument k (words_of separator line.now)) pile (store_of kept rows.old store.old) one.old other.old result.went (store_of result.kept rows.new store.new) one.new other.new) }
{
    let asked = fetch(rt, line, separator, k, kept, rows, store);
    let kept = asked.kept;
    let file = asked.file;
    let Loaded::Kept = file else {
        return Next {
            kept,
            went: Went::Wanting(file),
        };
    };
    let added = add_kept(line, separator, k, pile, kept, rows, store, one, other);
    Next {
        kept,
        went: Went::Added(added),
    }
}

// The first n files of the line, linked in their order; up to the first that is not to be had or refused.
fn link_all(
    rt: &HostRuntime,
    line: &[u8],
    separator: u8,
    n: usize,
    first: Kept,
    rows: &mut [usize; 256],
    store: &mut [u8; STORE_ROOM],
    one: &mut [u8; FILE_LIMIT],
    other: &mut [u8; FILE_LIMIT],
) -> Gathered
    requires { (n ≤ pile_limit) × Tidy rows.old first }
    ensures { Links (in_batch separator) (words_of separator line.now) n (store_of first rows.old store.old) one.old other.old result rows.new store.new one.new other.new }
{
    let mut kept = first;
    let mut pile = pile::begin();
    let mut k: usize = 0;
    while k < n {
        k += 1;
        let next = add_next(rt, line, separator, k, pile, kept, rows, store, one, other);
        kept = next.kept;
        let went = next.went;
        let Went::Added(added) = went else {
            return Gathered {
                kept,
                count: k,
                went,
            };
        };
        let Added::Grown(grown) = added else {
            return Gathered {
                kept,
                count: k,
                went,
            };
        };
        pile = grown;
    }
    Gathered {
        kept,
        count: k,
        went: Went::Added(pile::finish(pile, one, other)),
    }
}

// Where what a pile left stands.
fn place_of(pile: Pile) -> Saves
    ensures { result ≡ place_of pile }
{
    let k = pile.files;
    let n = pile.length;
    if k % 2 == 0 {
        return Saves::Second(n);
    }
    Saves::First(n)
}

fn saves_of(added: Added) -> Saves
    ensures { result ≡ saves_of added }
{
    match added {
        Added::Grown(pile) => place_of(pile),
        Added::Refused(_) => Saves::Nothing,
        Added::Full => Saves::Nothing,
    }
}

// The first n files of the line, linked in their order, and the line that is answered.
pub fn answer(
    rt: &HostRuntime,
    line: &[u8],
    separator: u8,
    n: usize,
    first: Kept,
    rows: &mut [usize; 256],
    store: &mut [u8; STORE_ROOM],
    one: &mut [u8; FILE_LIMIT],
    other: &mut [u8; FILE_LIMIT],
    text: &mut [u8; ANSWER_ROOM],
) -> Replied
    requires { (n ≤ pile_limit) × Tidy rows.old first }
    ensures { Answers (in_batch separator) (words_of separator line.now) n (store_of first rows.old store.old) one.old other.old text.old result rows.new store.new one.new other.new text.new }
{
    let linked = link_all(rt, line, separator, n, first, rows, store, one, other);
    let kept = linked.kept;
    let count = linked.count;
    let went = linked.went;
    match went {
        Went::Added(added) => Replied {
            kept,
            count,
            went,
            said: piled::say(added, text),
            saves: saves_of(added),
        },
        Went::Wanting(_) => Replied {
            kept,
            count,
            went,
            said: Said {
                length: 0,
                why: Why::Answered,
            },
            saves: Saves::Nothing,
        },
    }
}
