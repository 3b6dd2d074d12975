//! What normalising, adopting and linking answer, as one line at the front of a buffer and as numbers.
#![tactic(auto)]

ghost use Rattle.std.specs.Prelude.{◌≡◌, ◌++◌, ◌≤◌, length, Err};
ghost use Rattle.std.proofs.lemmas.List.Edits.{sets};
ghost use Rattle.said.specs.declared.Why.TheVariants.{Answered};
ghost use Rattle.said.specs.Saying.{answer_room, Says, saying};
ghost use Rattle.text.specs.Line.{space, line_of};
ghost use Rattle.text.specs.Writing.{Wrote};
ghost use Rattle.numbers.specs.Call.{room};
ghost use Rattle.outcomes.specs.Numbers.{normal_numbers, link_refusal_numbers, link_numbers};
ghost use Rattle.outcomes.specs.Lines.{which_number, adopted_text, say_normalised, say_linked};

use link::{LinkRefusal, Which};
use reading::Refusal;
use said::{ANSWER_ROOM, Said, Why};

/// 1 for the first file, 2 for the second, 0 for the link itself.
pub fn which_number(which: Which) -> u64
    ensures { (result ≡ which_number which) × (result ≤ 2) }
{
    match which {
        Which::First => 1,
        Which::Second => 2,
        Which::Union => 0,
    }
}

// A link's refusal.
fn link_refused(x: LinkRefusal, line: &mut [u8; ANSWER_ROOM]) -> Said
    ensures { Says (say_linked (Err x)) line.old result line.new }
{
    let which = x.which;
    let why = x.why;
    let at = text::put_labelled(line, 0, b"refused ", which_number(which));
    let length = said::put_refusal(b" ", why, line, at);
    Said {
        length,
        why: Why::Refused(why),
    }
}

// A space and the line of a verdict, from `at` on.
fn put_checked(v: Result<usize, Refusal>, line: &mut [u8; ANSWER_ROOM], at: usize) -> usize
    requires { at ≤ 32 }
    ensures { Wrote line.old at (space ++ line_of v) result line.new × (result ≤ answer_room) }
{
    match v {
        Ok(n) => {
            let end = text::put_labelled(line, at, b" accepted ", n as u64);
            text::put_bytes(line, end, b"\n")
        }
        Err(why) => said::put_refusal(b" refused ", why, line, at),
    }
}

/// What normalising a file answered.
pub fn normalised(n: Result<usize, Refusal>, line: &mut [u8; ANSWER_ROOM]) -> Said
    ensures { Says (say_normalised n) line.old result line.new }
{
    match n {
        Ok(length) => said::numbered(b"written ", length as u64, line),
        Err(why) => said::refused(why, line),
    }
}

/// What was written for a file that was adopted, and what the check says of it.
pub fn adopted(n: usize, v: Result<usize, Refusal>, line: &mut [u8; ANSWER_ROOM]) -> Said
    ensures { Says (saying (adopted_text n v) Answered) line.old result line.new }
{
    let at = text::put_labelled(line, 0, b"written ", n as u64);
    let length = put_checked(v, line, at);
    Said {
        length,
        why: Why::Answered,
    }
}

/// What linking two files answered.
pub fn linked(l: Result<usize, LinkRefusal>, line: &mut [u8; ANSWER_ROOM]) -> Said
    ensures { Says (say_linked l) line.old result line.new }
{
    match l {
        Ok(length) => said::numbered(b"written ", length as u64, line),
        Err(x) => link_refused(x, line),
    }
}

/// Written: 0 and the length; refused: 3, number and place.
pub fn put_normalised(a: Result<usize, Refusal>, answer: &mut [u64])
    requires { room ≤ length answer.old }
    ensures { answer.new ≡ sets answer.old 0 (normal_numbers a) }
{
    match a {
        Ok(n) => {
            answer[0] = 0;
            answer[1] = n as u64;
        }
        Err(why) => numbers::put_refusal(why, answer),
    }
}

fn put_link_refusal(x: LinkRefusal, answer: &mut [u64])
    requires { room ≤ length answer.old }
    ensures { answer.new ≡ sets answer.old 0 (link_refusal_numbers x) }
{
    let w = x.which;
    let why = x.why;
    let which = which_number(w);
    let no = why.no as u64;
    let place = why.place as u64;
    answer[0] = 3;
    answer[1] = which;
    answer[2] = no;
    answer[3] = place;
}

/// The same, with which file was refused before the number: 1 or 2, 0 for the link itself.
pub fn put_linked(a: Result<usize, LinkRefusal>, answer: &mut [u64])
    requires { room ≤ length answer.old }
    ensures { answer.new ≡ sets answer.old 0 (link_numbers a) }
{
    match a {
        Ok(n) => {
            answer[0] = 0;
            answer[1] = n as u64;
        }
        Err(x) => put_link_refusal(x, answer),
    }
}
