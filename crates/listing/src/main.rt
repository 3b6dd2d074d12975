// Lists the typelib on standard input.
#![tactic(auto)]

ghost use Rattle.std.specs.Prelude.{◌≡◌, List, ℕ, length};
ghost use Rattle.ascii.specs.Ascii.{ascii};
ghost use Rattle.input.specs.File.{FirstBytes};
ghost use Rattle.printed.specs.Listing.{printed_of};
ghost use Rattle.lines.specs.Cursor.{Printing};

use lines::Cursor;
use reader::Layout;

// Prints what is left at a cursor, a buffer at a time; it ends early where nothing can be written any more.
fn list(file: &[u8], l: Layout, first: Cursor, out: &mut [u8; 65536])
    requires { ((done : List ℕ) × Printing file.now (printed_of file.now) l first done) × (65536 ≡ length out.old) }
{
    let mut c = first;
    loop {
        if lines::is_done(c) {
            return;
        }
        let filled = lines::fill(file, l, c, out);
        let n = filled.length;
        let all: &[u8] = out;
        if !io::write_all(1, &all[..n]) {
            return;
        }
        c = filled.cursor;
    }
}

// Prints the first line, which is made in `line`, then the rest.
fn report(file: &[u8], line: &mut [u8; 64], out: &mut [u8; 65536])
    requires { FirstBytes (ascii "-") 65537 file.now × ((64 ≡ length line.old) × (65536 ≡ length out.old)) }
{
    let begun = lines::begin(file, line);
    let n = begun.length;
    let l = begun.layout;
    let c = begun.cursor;
    let all: &[u8] = line;
    io::write_all(1, &all[..n]);
    list(file, l, c, out);
}

// Room for one byte more than is listed, so that a longer input is told from one of 65,536 bytes.
// A failed read is no end of the input: nothing is listed then.
fn run(rt: &HostRuntime, buf: &mut [u8; 65537]) {
    match input::read_input(rt, buf) {
        Ok(n) => {
            let all: &[u8] = buf;
            let mut line = [0u8; 64];
            let mut out = [0u8; 65536];
            report(&all[..n], &mut line, &mut out);
        }
        Err(_) => {
            input::say_failed();
        }
    }
}

fn main(rt: HostRuntime) {
    let mut buf = [0u8; 65537];
    run(&rt, &mut buf);
}
