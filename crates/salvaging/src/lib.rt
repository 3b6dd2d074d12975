//! What salvaging a file is answered with: the text, and what is written.
#![tactic(auto)]

ghost use Rattle.std.specs.Prelude.{◌≡◌, ◌++◌, ◌+◌, ◌*◌, ◌≤◌, ◌<◌, length, take, drop};
ghost use Rattle.std.proofs.lemmas.List.Edits.{sets};
ghost use Rattle.number.specs.Limits.{entry_limit};
ghost use Rattle.text.specs.Writing.{Wrote};
ghost use Rattle.said.specs.declared.Why.TheVariants.{Answered};
ghost use Rattle.said.specs.Saying.{answer_room, Says, saying};
ghost use Rattle.listed.specs.Text.{shown, closing};
ghost use Rattle.salvaging.specs.Text.{numbers_line, changed_line, in_one_line};
ghost use Rattle.salvaging.specs.Lists.{list_lines, list_text};
ghost use Rattle.salvaging.specs.Tells.{Tells};

use number::{ENTRY_LIMIT, FILE_LIMIT};
use reading::Refusal;
use said::{ANSWER_ROOM, Said, Why};

/// What was said, and what was written.
#[derive(Drop)]
pub struct Told {
    pub said: Said,
    pub done: Result<usize, Refusal>,
}

// The line of one report, from `at` on.
fn put_line(index: u64, number: u64, place: u64, text: &mut [u8; ANSWER_ROOM], at: usize) -> usize
    requires { at + 63 ≤ answer_room }
    ensures { Wrote text.old at (numbers_line index number place) result text.new × (result ≤ at + 63) }
{
    let a = text::put_labelled(text, at, b"", index);
    let b = text::put_labelled(text, a, b" ", number);
    let c = text::put_labelled(text, b, b" ", place);
    text::put_bytes(text, c, b"\n")
}

// The lines of the first n reports in the lists, from `at` on.
fn put_lines(
    indexes: &[u64; ENTRY_LIMIT],
    numbers: &[u64; ENTRY_LIMIT],
    places: &[u64; ENTRY_LIMIT],
    n: usize,
    text: &mut [u8; ANSWER_ROOM],
    at: usize,
) -> usize
    requires { (n ≤ entry_limit) × (at ≤ 64) }
    ensures { Wrote text.old at (list_lines indexes.now numbers.now places.now n) result text.new × (result ≤ at + 63 * n) }
{
    let mut k: usize = 0;
    let mut end = at;
    while k < n {
        end = put_line(indexes[k], numbers[k], places[k], text, end);
        k += 1;
    }
    end
}

// The first line, at the front of the text.
fn put_changed(n: usize, changed: usize, text: &mut [u8; ANSWER_ROOM]) -> usize
    ensures { Wrote text.old 0 (changed_line n changed) result text.new × ((result ≤ 64) × (answer_room ≡ length text.old)) }
{
    let a = text::put_labelled(text, 0, b"written ", n as u64);
    let b = text::put_labelled(text, a, b" changed ", changed as u64);
    text::put_bytes(text, b, b"\n")
}

// Whether the lines stand within one.
fn in_one_line(in_batch: bool, changed: usize) -> bool
    ensures { result ≡ in_one_line in_batch changed }
{
    if changed == 0 {
        return false;
    }
    in_batch
}

// The first n bytes of the text within one line, and the newline that ends it, where it is to be one.
fn close(text: &mut [u8; ANSWER_ROOM], n: usize, is_one: bool) -> usize
    requires { n < answer_room }
    ensures { (result ≡ n + length (closing is_one)) × (text.new ≡ sets (shown is_one (take n text.old) ++ drop n text.old) n (closing is_one)) }
{
    listed::tab(text, n, is_one);
    if is_one {
        return text::put_bytes(text, n, b"\n");
    }
    n
}

// What was written, and the first reports in the lists.
fn written(
    n: usize,
    changed: usize,
    indexes: &[u64; ENTRY_LIMIT],
    numbers: &[u64; ENTRY_LIMIT],
    places: &[u64; ENTRY_LIMIT],
    in_batch: bool,
    text: &mut [u8; ANSWER_ROOM],
) -> Said
    requires { changed ≤ entry_limit }
    ensures { Says (saying (list_text in_batch n indexes.now numbers.now places.now changed) Answered) text.old result text.new }
{
    let at = put_changed(n, changed, text);
    let end = put_lines(indexes, numbers, places, changed, text, at);
    let length = close(text, end, in_one_line(in_batch, changed));
    Said {
        length,
        why: Why::Answered,
    }
}

// With lists for the reports.
fn salvage_listed(
    file: &[u8],
    in_batch: bool,
    indexes: &mut [u64; ENTRY_LIMIT],
    numbers: &mut [u64; ENTRY_LIMIT],
    places: &mut [u64; ENTRY_LIMIT],
    work: &mut [u8; FILE_LIMIT],
    out: &mut [u8],
    text: &mut [u8; ANSWER_ROOM],
) -> Told
    ensures { Tells in_batch file.now out.old text.old result out.new text.new }
{
    match salvage::salvage_with(file, work, indexes, numbers, places, out) {
        Ok(left) => {
            let n = left.length;
            let changed = left.changed;
            Told {
                said: written(n, changed, indexes, numbers, places, in_batch, text),
                done: Ok(n),
            }
        }
        Err(why) => Told {
            said: said::refused(why, text),
            done: Err(why),
        },
    }
}

/// What is left of a file into `out`, and what is said of it into `text`; `work` has room for a copy.
pub fn salvage(
    file: &[u8],
    in_batch: bool,
    work: &mut [u8; FILE_LIMIT],
    out: &mut [u8],
    text: &mut [u8; ANSWER_ROOM],
) -> Told
    ensures { Tells in_batch file.now out.old text.old result out.new text.new }
{
    let mut indexes = [0u64; ENTRY_LIMIT];
    let mut numbers = [0u64; ENTRY_LIMIT];
    let mut places = [0u64; ENTRY_LIMIT];
    salvage_listed(
        file,
        in_batch,
        &mut indexes,
        &mut numbers,
        &mut places,
        work,
        out,
        text,
    )
}
