// Standard output and standard error, each line in one write.
#![tactic(auto)]

ghost use Rattle.std.specs.Prelude.{List, ℕ, ◌≤◌, length};
ghost use Rattle.failures.specs.Room.{room};
ghost use Rattle.streams.specs.Printed.{Front, Prints};

use failures::ROOM;

// Whether all of these could be written.
pub fn write(bytes: &[u8]) -> bool
    ensures { Prints bytes.now result }
{
    io::write_all(1, bytes)
}

// An `error` line on standard output, and what it says on standard error, where `xpt: ` takes the place of `error `.
pub fn put_error(text: &mut [u8; ROOM], n: usize) -> bool
    requires { n ≤ room }
    ensures { (line : List ℕ) → Front line n text.old → Prints line result }
{
    let line: &[u8] = text;
    let is_open = write(&line[..n]);
    if 1 < n {
        text::put_bytes(text, 1, b"xpt: ");
        let line: &[u8] = text;
        io::write_all(2, &line[1..n]);
    }
    is_open
}

// The first n bytes on standard error.
pub fn remark(text: &[u8; ROOM], n: usize)
    requires { n ≤ room }
{
    let all: &[u8] = text;
    io::write_all(2, &all[..n]);
}

// What the line on standard output says, which begins with `error `, on standard error alone: of the file of this name, or of none.
pub fn error(name: &[u8], line: &[u8], text: &mut [u8; ROOM])
    requires { length line.now ≤ room }
{
    let end = failures::aside(name, line, text);
    remark(text, end);
}

// On standard error, where a mistake in the words of a single command is told: what to do.
pub fn hint(text: &mut [u8; ROOM]) {
    let end = failures::hint(text);
    remark(text, end);
}

// On standard error: standard output does not take what is left.
pub fn output_gone(text: &mut [u8; ROOM]) {
    let end = failures::output_gone(text);
    remark(text, end);
}
