//! How a file's length differs from the one in its header, in plain words, from `at` on.
ghost use Rattle.std.specs.Prelude.{◌≡◌, ◌++◌, ◌+◌, ◌≤◌, ◌<◌, length};
ghost use Rattle.ascii.specs.Ascii.{ascii};
ghost use Rattle.decimal.specs.Digits.{digits_of};
ghost use Rattle.text.specs.Writing.{Wrote};
ghost use Rattle.failures.specs.Room.{room};
ghost use Rattle.reasons.specs.Lengths.{cut_text, without_text, padded_text, said_length, length_text};

use failures::ROOM;
use reading::Refusal;

/// The length that the header gives.
pub fn said_length(file: &[u8]) -> usize
    ensures { result ≡ said_length file.now }
{
    if file.len() < 24 {
        return 0;
    }
    number::u32_at(file, 20) as usize
}

// 29: n bytes are missing.
fn put_cut(n: u64, text: &mut [u8; ROOM], at: usize) -> usize
    requires { at + 192 ≤ room }
    ensures { Wrote text.old at (cut_text n) result text.new × (result ≤ at + 192) }
{
    let end = text::put_labelled(text, at, b"the file ends ", n);
    text::put_bytes(
        text,
        end,
        b" bytes before the length in its header: it was cut on its way",
    )
}

// The refusal of the bytes before those that follow.
fn put_refused(why: Refusal, text: &mut [u8; ROOM], at: usize) -> usize
    requires { at + 80 ≤ room }
    ensures { Wrote text.old at ((ascii "; without them it is refused " ++ digits_of why.no) ++ (ascii " at " ++ digits_of why.place)) result text.new × (result ≤ at + 80) }
{
    let no = why.no;
    let place = why.place;
    let end = text::put_labelled(text, at, b"; without them it is refused ", no as u64);
    text::put_labelled(text, end, b" at ", place as u64)
}

// The verdict on them.
fn put_without(v: Result<usize, Refusal>, text: &mut [u8; ROOM], at: usize) -> usize
    requires { at + 80 ≤ room }
    ensures { Wrote text.old at (without_text v) result text.new × (result ≤ at + 80) }
{
    match v {
        Ok(n) => text::put_bytes(text, at, b"; without them the file is accepted"),
        Err(why) => put_refused(why, text, at),
    }
}

// 30: n bytes follow.
fn put_padded(n: u64, v: Result<usize, Refusal>, text: &mut [u8; ROOM], at: usize) -> usize
    requires { at + 192 ≤ room }
    ensures { Wrote text.old at (padded_text n v) result text.new × (result ≤ at + 192) }
{
    let end = text::put_labelled(text, at, b"", n);
    let rest = text::put_bytes(
        text,
        end,
        b" bytes follow the end that the header gives: something was added, often by mail",
    );
    put_without(v, text, rest)
}

/// The two together, with the verdict on the first `said` bytes of a file that has more.
pub fn put_length(file: &[u8], said: usize, text: &mut [u8; ROOM], at: usize) -> usize
    requires { at + 192 ≤ room }
    ensures { Wrote text.old at (length_text file.now said) result text.new × (result ≤ at + 192) }
{
    let given = file.len();
    if given < said {
        return put_cut((said - given) as u64, text, at);
    }
    let v = reader::check(&file[..said]);
    put_padded((given - said) as u64, v, text, at)
}
