// Checks the typelib on standard input, and prints the verdict.
#![tactic(auto)]

ghost use Rattle.std.specs.Prelude.{◌≡◌, ◌≤◌, length};
ghost use Rattle.std.proofs.lemmas.List.Edits.{sets};
ghost use Rattle.reader.specs.Reader.{check_of};
ghost use Rattle.ascii.specs.Ascii.{ascii};
ghost use Rattle.text.specs.Line.{line_of};
ghost use Rattle.number.specs.Limits.{file_most};
ghost use Rattle.input.specs.File.{FirstBytes};

use number::FILE_MOST;

// The line of the file's verdict, made at the front of `line`; the answer is its length.
fn answer(file: &[u8], line: &mut [u8; 64]) -> usize
    ensures { (result ≡ length (line_of (check_of file.now))) × ((result ≤ 64) × (line.new ≡ sets line.old 0 (line_of (check_of file.now)))) }
{
    text::put_verdict(reader::check(file), line)
}

// Prints the line of the verdict on what standard input gave, which is made in `line`.
fn report(file: &[u8], line: &mut [u8; 64])
    requires { FirstBytes (ascii "-") file_most file.now }
{
    let n = answer(file, line);
    let all: &[u8] = line;
    io::write_all(1, &all[..n]);
}

// A failed read is no end of the input: nothing is judged then.
fn run(rt: &HostRuntime, buf: &mut [u8; FILE_MOST]) {
    match input::read_input(rt, buf) {
        Ok(n) => {
            let all: &[u8] = buf;
            let mut line = [0u8; 64];
            report(&all[..n], &mut line);
        }
        Err(_) => {
            input::say_failed();
        }
    }
}

fn main(rt: HostRuntime) {
    let mut buf = [0u8; FILE_MOST];
    run(&rt, &mut buf);
}
