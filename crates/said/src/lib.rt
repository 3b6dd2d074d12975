//! A line that is said, its newline included, at the front of a buffer: its room, its length and why; a mistake, a number, none, a refusal.
#![tactic(auto)]

ghost use Rattle.std.specs.Prelude.{◌+◌, ◌≤◌, length};
ghost use Rattle.text.specs.Writing.{Wrote};
ghost use Rattle.said.specs.declared.Why.TheVariants.{Answered, Refused};
ghost use Rattle.said.specs.Texts.{numbered, placed, none_line, refused_line, the_index, not_decimal_mistake, too_large_mistake};
ghost use Rattle.said.specs.Saying.{answer_room, Says, saying, mistaken};

use reading::Refusal;

/// Room for every answer that is made whole: all but listings, tables, and the parts and paths of a types.rdb. A line, and up to 1,024 of three numbers.
pub const ANSWER_ROOM: usize = 65536;

/// Whether a command was answered, was refused, or had a mistake in its words.
#[derive(Clone, Copy, Debug, PartialEq, Eq)]
pub enum Why {
    Answered,
    Refused(Refusal),
    Mistaken,
}

/// What was made at the front of the line's buffer: its length, newline included, and why.
#[derive(Clone, Copy, Debug, PartialEq, Eq)]
pub struct Said {
    pub length: usize,
    pub why: Why,
}

/// A mistake in the words.
pub fn mistake(text: &[u8], line: &mut [u8; ANSWER_ROOM]) -> Said
    requires { length text.now ≤ answer_room }
    ensures { Says (mistaken text.now) line.old result line.new }
{
    let length = text::put_bytes(line, 0, text);
    Said {
        length,
        why: Why::Mistaken,
    }
}

/// The index is not decimal.
pub fn index_not_decimal(line: &mut [u8; ANSWER_ROOM]) -> Said
    ensures { Says (mistaken (not_decimal_mistake the_index)) line.old result line.new }
{
    mistake(b"error the index is not decimal\n", line)
}

/// The index does not fit 64 bits.
pub fn index_too_large(line: &mut [u8; ANSWER_ROOM]) -> Said
    ensures { Says (mistaken (too_large_mistake the_index)) line.old result line.new }
{
    mistake(b"error the index does not fit 64 bits\n", line)
}

/// An answer that is a label and a number.
pub fn numbered(label: &[u8], n: u64, line: &mut [u8; ANSWER_ROOM]) -> Said
    requires { length label.now ≤ 64 }
    ensures { Says (saying (numbered label.now n) Answered) line.old result line.new }
{
    let end = text::put_labelled(line, 0, label, n);
    let length = text::put_bytes(line, end, b"\n");
    Said {
        length,
        why: Why::Answered,
    }
}

/// The answer `none`.
pub fn none(line: &mut [u8; ANSWER_ROOM]) -> Said
    ensures { Says (saying none_line Answered) line.old result line.new }
{
    let length = text::put_bytes(line, 0, b"none\n");
    Said {
        length,
        why: Why::Answered,
    }
}

/// A label, a refusal's number and place, and a newline, from `at` on.
pub fn put_refusal(label: &[u8], why: Refusal, line: &mut [u8; ANSWER_ROOM], at: usize) -> usize
    requires { at + length label.now ≤ 64 }
    ensures { Wrote line.old at (placed label.now why) result line.new × (result ≤ answer_room) }
{
    let no = why.no as u64;
    let place = why.place as u64;
    let space = text::put_labelled(line, at, label, no);
    let end = text::put_labelled(line, space, b" ", place);
    text::put_bytes(line, end, b"\n")
}

/// A refusal.
pub fn refused(why: Refusal, line: &mut [u8; ANSWER_ROOM]) -> Said
    ensures { Says (saying (refused_line why) (Refused why)) line.old result line.new }
{
    let length = put_refusal(b"refused ", why, line, 0);
    Said {
        length,
        why: Why::Refused(why),
    }
}
