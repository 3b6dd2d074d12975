//! The commands that write a file: the line that is said, every byte of the output, and what of it is to be saved.
#![tactic(auto)]

ghost use Rattle.std.specs.Prelude.{◌≡◌};
ghost use Rattle.made.specs.Made.{normalised_save, linked_save, linked_whose, normal_made, adopt_made, link_made, salvage_made, Makes};

use link::{LinkRefusal, Which};
use number::FILE_LIMIT;
use reading::Refusal;
use said::{ANSWER_ROOM, Said};

/// What was put at the front of the text and why, of which file a refusal is, and what is to be saved.
#[derive(Drop)]
pub struct Made {
    pub said: Said,
    pub whose: Which,
    pub save: Option<usize>,
}

fn normalised_save(done: Result<usize, Refusal>) -> Option<usize>
    ensures { result ≡ normalised_save done }
{
    match done {
        Ok(n) => Some(n),
        Err(_) => None,
    }
}

fn linked_save(done: Result<usize, LinkRefusal>) -> Option<usize>
    ensures { result ≡ linked_save done }
{
    match done {
        Ok(n) => Some(n),
        Err(_) => None,
    }
}

fn linked_whose(done: Result<usize, LinkRefusal>) -> Which
    ensures { result ≡ linked_whose done }
{
    match done {
        Ok(_) => Which::Union,
        Err(refusal) => refusal.which,
    }
}

/// The command `normal`.
pub fn normal(first: &[u8], out: &mut [u8], text: &mut [u8; ANSWER_ROOM]) -> Made
    ensures { Makes (normal_made first.now out.old) text.old result out.new text.new }
{
    let done = link::normalise(first, out);
    Made {
        said: outcomes::normalised(done, text),
        whose: Which::First,
        save: normalised_save(done),
    }
}

/// The command `adopt`: what the check says of what was written is told with it.
pub fn adopt(first: &[u8], out: &mut [u8], text: &mut [u8; ANSWER_ROOM]) -> Made
    ensures { Makes (adopt_made first.now out.old) text.old result out.new text.new }
{
    match adopt::adopt(first, out) {
        Ok(n) => {
            let verdict = reader::check(&out[0..n]);
            Made {
                said: outcomes::adopted(n, verdict, text),
                whose: Which::First,
                save: Some(n),
            }
        }
        Err(why) => Made {
            said: said::refused(why, text),
            whose: Which::First,
            save: None,
        },
    }
}

/// The command `link`.
pub fn link(first: &[u8], second: &[u8], out: &mut [u8], text: &mut [u8; ANSWER_ROOM]) -> Made
    ensures { Makes (link_made first.now second.now out.old) text.old result out.new text.new }
{
    let done = link::link(first, second, out);
    Made {
        said: outcomes::linked(done, text),
        whose: linked_whose(done),
        save: linked_save(done),
    }
}

/// The command `salvage`; `work` has room for a copy of the file.
pub fn salvage(
    first: &[u8],
    in_batch: bool,
    out: &mut [u8],
    work: &mut [u8; FILE_LIMIT],
    text: &mut [u8; ANSWER_ROOM],
) -> Made
    ensures { Makes (salvage_made in_batch first.now out.old) text.old result out.new text.new }
{
    let told = salvaging::salvage(first, in_batch, work, out, text);
    let said = told.said;
    let done = told.done;
    Made {
        said,
        whose: Which::First,
        save: normalised_save(done),
    }
}
