//! The rule that a refusal is of, in plain words, written from a place of a lent buffer on.
#![tactic(auto)]

ghost use Rattle.std.specs.Prelude.{◌+◌, ◌≤◌};
ghost use Rattle.text.specs.Writing.{Wrote};
ghost use Rattle.failures.specs.Room.{room};
ghost use Rattle.sentences.specs.Sentences.{position_text, between_text, word_text, header_text, directory_text, own_text, link_text, types_text, sentence_text};

use failures::ROOM;

// 8, by the rule.
// A number, no enum: the clause promises `position_text` of every number.
fn put_position(rule: u8, text: &mut [u8; ROOM], at: usize) -> usize
    requires { at + 192 ≤ room }
    ensures { Wrote text.old at (position_text rule) result text.new × (result ≤ at + 192) }
{
    match rule {
        1 => text::put_bytes(text, at, b"the directory's offset is not a multiple of 4"),
        2 => text::put_bytes(
            text,
            at,
            b"the directory does not fit between the first annotation and the pool",
        ),
        3 => text::put_bytes(
            text,
            at,
            b"the pool's offset is below 33 or past the file's end",
        ),
        4 => text::put_bytes(
            text,
            at,
            b"there are no interfaces, but the directory's offset is not 0",
        ),
        5 => text::put_bytes(
            text,
            at,
            b"libxpt wrote it so: its directory offset counts from 1; `xpt adopt FILE OUT` writes it in the published layout",
        ),
        _ => text::put_bytes(
            text,
            at,
            b"the offset of the pool or the directory does not fit the file",
        ),
    }
}

// 16, by the rule.
// A number, no enum: the clause promises `between_text` of every number.
fn put_between(rule: u8, text: &mut [u8; ROOM], at: usize) -> usize
    requires { at + 192 ≤ room }
    ensures { Wrote text.old at (between_text rule) result text.new × (result ≤ at + 192) }
{
    match rule {
        1 => text::put_bytes(
            text,
            at,
            b"a type has unique or reference, or a tag from 16 to 25 (23 is utf8string, 24 cstring, 25 the further astring), without the pointer bit",
        ),
        2 => text::put_bytes(text, at, b"an argument has retval without out"),
        3 => text::put_bytes(text, at, b"a result has in or out"),
        4 => text::put_bytes(
            text,
            at,
            b"an argument number does not name an argument of its kind: a pointer to nsIID for interface-is, a uint32 for a size or a length",
        ),
        5 => text::put_bytes(
            text,
            at,
            b"a result without retval is not void or uint32, or has the pointer bit, and the method is not marked not-XPCOM",
        ),
        6 => text::put_bytes(text, at, b"an interface has more than one constructor"),
        7 => text::put_bytes(
            text,
            at,
            b"a setter does not follow right after the getter of its name",
        ),
        8 => text::put_bytes(text, at, b"the type of a constant is not 1, 2, 5 or 6"),
        _ => text::put_bytes(
            text,
            at,
            b"a rule between fields is broken, or a constant's type is unknown",
        ),
    }
}

// 20, by the word that is at fault.
// A number, no enum: the clause promises `word_text` of every number.
fn put_word(rule: u8, text: &mut [u8; ROOM], at: usize) -> usize
    requires { at + 192 ≤ room }
    ensures { Wrote text.old at (word_text rule) result text.new × (result ≤ at + 192) }
{
    match rule {
        1 => text::put_bytes(
            text,
            at,
            b"an IID has 32 hexadecimal digits and is not zero",
        ),
        2 => text::put_bytes(
            text,
            at,
            b"the namespace is no identifier (1 to 255 bytes of UTF-8, no space or control byte, not - alone)",
        ),
        3 => text::put_bytes(
            text,
            at,
            b"the name is no identifier (1 to 255 bytes of UTF-8, no space or control byte, not - alone)",
        ),
        4 => text::put_bytes(
            text,
            at,
            b"an index runs from 1 to the number of interfaces",
        ),
        _ => text::put_bytes(
            text,
            at,
            b"the question is malformed: an IID has 32 digits and is not zero, a name is an identifier, an index runs from 1 to the number of interfaces",
        ),
    }
}

// 1 to 5, 7 and 8: the header.
// Numbers, no enums: the clause promises `header_text` of every number.
fn put_header(no: u8, rule: u8, text: &mut [u8; ROOM], at: usize) -> usize
    requires { at + 192 ≤ room }
    ensures { Wrote text.old at (header_text no rule) result text.new × (result ≤ at + 192) }
{
    match no {
        1 => text::put_bytes(
            text,
            at,
            b"the file has fewer bytes than the 32 of a header",
        ),
        2 => text::put_bytes(text, at, b"the file has more than 1,048,576 bytes"),
        3 => text::put_bytes(
            text,
            at,
            b"the file does not begin with the magic of a typelib",
        ),
        4 => text::put_bytes(text, at, b"the major version is not 1"),
        5 => text::put_bytes(text, at, b"the minor version is not 0, 1 or 2"),
        7 => text::put_bytes(text, at, b"there are more than 1,024 interfaces"),
        _ => put_position(rule, text, at),
    }
}

// 9 to 14: annotations, the directory, pointers and reserved bits.
// A number, no enum: the clause promises `directory_text` of every number.
fn put_directory(no: u8, text: &mut [u8; ROOM], at: usize) -> usize
    requires { at + 192 ≤ room }
    ensures { Wrote text.old at (directory_text no) result text.new × (result ≤ at + 192) }
{
    match no {
        9 => text::put_bytes(
            text,
            at,
            b"an annotation has an unknown tag, or a text that is not UTF-8 or does not fit, or none is marked last",
        ),
        10 => text::put_bytes(
            text,
            at,
            b"the IIDs fall, or one that is not zero stands twice",
        ),
        11 => text::put_bytes(
            text,
            at,
            b"a name is absent, or has no zero byte after it, or is no identifier (1 to 255 bytes of UTF-8, no space or control byte, not - alone)",
        ),
        12 => text::put_bytes(text, at, b"an interface has a descriptor but no IID"),
        13 => text::put_bytes(
            text,
            at,
            b"a pointer leads out of the pool, or a field does not fit in it",
        ),
        _ => text::put_bytes(
            text,
            at,
            b"a reserved bit is set, or a type's tag is reserved (with minor 0 also function, dipper and astring; with 0 and 1 also 23 utf8string, 24 cstring and 25 the further astring)",
        ),
    }
}

// 15 to 20: descriptors, rules across entries, questions.
// Numbers, no enums: the clause promises `own_text` of every number.
fn put_own(no: u8, rule: u8, text: &mut [u8; ROOM], at: usize) -> usize
    requires { at + 192 ≤ room }
    ensures { Wrote text.old at (own_text no rule) result text.new × (result ≤ at + 192) }
{
    match no {
        15 => text::put_bytes(text, at, b"an index names no interface of the directory"),
        16 => put_between(rule, text, at),
        17 => text::put_bytes(
            text,
            at,
            b"there are more than 1,024 methods or constants, or more than eight arrays one inside another",
        ),
        18 => text::put_bytes(text, at, b"two interfaces have one namespace and name"),
        19 => text::put_bytes(text, at, b"the parents of this interface run in a circle"),
        _ => put_word(rule, text, at),
    }
}

// 21 to 27: links and outputs.
// A number, no enum: the clause promises `link_text` of every number.
fn put_link(no: u8, text: &mut [u8; ROOM], at: usize) -> usize
    requires { at + 192 ≤ room }
    ensures { Wrote text.old at (link_text no) result text.new × (result ≤ at + 192) }
{
    match no {
        21 => text::put_bytes(text, at, b"one namespace and name has two different IIDs"),
        22 => text::put_bytes(text, at, b"one IID has two different namespaces or names"),
        23 => text::put_bytes(text, at, b"one interface has two different descriptors"),
        24 => text::put_bytes(
            text,
            at,
            b"in the union the parents of this interface run in a circle",
        ),
        25 => text::put_bytes(text, at, b"the union has more than 1,024 interfaces"),
        26 => text::put_bytes(text, at, b"the output would have more than 1,048,576 bytes"),
        _ => text::put_bytes(
            text,
            at,
            b"the output has room for fewer bytes than are needed",
        ),
    }
}

// 31 to 37: a types.rdb.
// A number, no enum: the clause promises `types_text` of every number.
fn put_types(no: u8, text: &mut [u8; ROOM], at: usize) -> usize
    requires { at + 192 ≤ room }
    ensures { Wrote text.old at (types_text no) result text.new × (result ≤ at + 192) }
{
    match no {
        31 => text::put_bytes(
            text,
            at,
            b"the file does not begin as a types.rdb does: UNOIDL, byte 255, version 0, and the offset and count of its root map",
        ),
        32 => text::put_bytes(
            text,
            at,
            b"an offset leads past the end of the file, or a field, a name or a text does not fit, or the length of a text that is pointed to has its top bit set",
        ),
        33 => text::put_bytes(
            text,
            at,
            b"what an entry leads to does not stand below the record or root map that holds the entry",
        ),
        34 => text::put_bytes(
            text,
            at,
            b"a kind or a value is reserved, or a name is not US-ASCII, or an annotation not UTF-8",
        ),
        35 => text::put_bytes(text, at, b"a key stands twice in one map"),
        36 => text::put_bytes(text, at, b"more than 16 modules stand one inside another"),
        _ => text::put_bytes(
            text,
            at,
            b"more than 65,536 entries are visited, each counted whenever its map is read",
        ),
    }
}

// Numbers, no enums: the clause promises `sentence_text` of every number.
pub fn put_sentence(no: u8, rule: u8, text: &mut [u8; ROOM], at: usize) -> usize
    requires { at + 192 ≤ room }
    ensures { Wrote text.old at (sentence_text no rule) result text.new × (result ≤ at + 192) }
{
    match no {
        0..=8 => put_header(no, rule, text, at),
        9..=14 => put_directory(no, text, at),
        15..=20 => put_own(no, rule, text, at),
        21..=30 => put_link(no, text, at),
        _ => put_types(no, text, at),
    }
}
