//! A listing or a table as an answer, buffer by buffer: from before its first line to after its closing newline. In a batch it stands within one line.
#![tactic(auto)]

ghost use Rattle.std.specs.Prelude.{◌≡◌, List, ◌++◌, ℕ, ◌≤◌, length, take, drop};
ghost use Rattle.listed.specs.declared.Next.TheVariants.{At};
ghost use Rattle.listed.specs.Text.{shown, list_saying};
ghost use Rattle.listed.specs.Rest.{Going, LeftIn, is_over, rest_of, no_rest, Opens, Filled};

use lines::Cursor;
use reader::Layout;
use said::{ANSWER_ROOM, Said};

/// What comes next: nothing, the newline that ends the one line of a batch, or what is left at a cursor.
#[derive(Clone, Copy)]
pub enum Next {
    Over,
    Closing,
    At(Cursor),
}

/// What is left of a listing or of a table.
#[derive(Clone, Copy)]
pub struct Rest {
    pub layout: Layout,
    pub next: Next,
}

/// The first line, and what is left after it.
#[derive(Drop)]
pub struct Opened {
    pub said: Said,
    pub rest: Rest,
}

/// How many bytes of the buffer were filled, and what is left after them.
#[derive(Drop)]
pub struct More {
    pub length: usize,
    pub rest: Rest,
}

/// Nothing is left.
pub fn no_rest() -> Rest
    ensures { result ≡ no_rest }
{
    Rest {
        layout: Layout {
            count: 0,
            directory: 0,
            pool: 0,
        },
        next: Next::Over,
    }
}

/// Whether nothing is left.
pub fn is_over(rest: Rest) -> bool
    ensures { result ≡ is_over rest }
{
    let next = rest.next;
    match next {
        Next::Over => true,
        Next::Closing => false,
        Next::At(_) => false,
    }
}

/// In a batch the newlines among the first bytes are tabs.
pub fn tab(buffer: &mut [u8], n: usize, in_batch: bool)
    requires { n ≤ length buffer.old }
    ensures { buffer.new ≡ shown in_batch (take n buffer.old) ++ drop n buffer.old }
{
    if in_batch {
        lines::tabs::tab_newlines(&mut buffer[..n]);
    }
}

/// What is left at a cursor, and behind its last line.
pub fn rest_of(layout: Layout, c: Cursor, in_batch: bool) -> Rest
    ensures { result ≡ rest_of layout in_batch c }
{
    if lines::is_done(c) {
        if in_batch {
            return Rest {
                layout,
                next: Next::Closing,
            };
        }
        return Rest {
            layout,
            next: Next::Over,
        };
    }
    Rest {
        layout,
        next: Next::At(c),
    }
}

/// The first line of the listing: the verdict.
pub fn open(file: &[u8], in_batch: bool, text: &mut [u8; ANSWER_ROOM]) -> Opened
    ensures { Opens in_batch (list_saying in_batch file.now) file.now text.old result text.new }
{
    match reader::check(file) {
        Err(why) => Opened {
            said: said::refused(why, text),
            rest: no_rest(),
        },
        Ok(n) => {
            let said = said::numbered(b"accepted ", n as u64, text);
            tab(text, said.length, in_batch);
            let rest = rest_of(reader::layout_of(file), Cursor::AtEntry(0), in_batch);
            Opened { said, rest }
        }
    }
}

// The lines at a cursor, as many as are sure to fit.
fn fill(file: &[u8], l: Layout, c: Cursor, in_batch: bool, out: &mut [u8; 65536]) -> More
    requires { (text : List ℕ) × Going in_batch file.now l c text }
    ensures { Filled in_batch file.now (record { layout = l; next = At c }) out.old result out.new }
{
    let filled = lines::fill(file, l, c, out);
    let length = filled.length;
    let cursor = filled.cursor;
    tab(out, length, in_batch);
    More {
        length,
        rest: rest_of(l, cursor, in_batch),
    }
}

/// The next bytes of the answer.
pub fn go_on(file: &[u8], rest: Rest, in_batch: bool, out: &mut [u8; 65536]) -> More
    requires { (text : List ℕ) × LeftIn in_batch file.now rest text }
    ensures { Filled in_batch file.now rest out.old result out.new }
{
    let l = rest.layout;
    let next = rest.next;
    match next {
        Next::Over => More {
            length: 0,
            rest: no_rest(),
        },
        Next::Closing => More {
            length: text::put_bytes(out, 0, b"\n"),
            rest: no_rest(),
        },
        Next::At(c) => fill(file, l, c, in_batch, out),
    }
}
