//! Runs of commands, with their buffers: one command, or the lines of a batch.
ghost use Rattle.std.specs.Prelude.{◌≡◌, true, false, ◌≤◌, length, take};
ghost use Rattle.tasks.specs.Tasks.{task_of};
ghost use Rattle.asks.specs.Asked.{is_asked, TookIf};
ghost use Rattle.feed.specs.Lines.{input_room};
ghost use Rattle.feed.specs.Input.{Fed};
ghost use Rattle.kept.specs.Table.{Tidy};

use failures::ROOM;
use feed::{Coming, Feed, INPUT_ROOM, Taken};
use kept::{Kept, STORE_ROOM};
use number::FILE_LIMIT;
use told::Told;

// What goes from one turn of a batch to the next.
#[derive(Drop)]
struct Turn {
    feed: Feed,
    kept: Kept,
    is_going: bool,
}

// The feed after a session, and whether lines may be left, as its turns ran out.
#[derive(Drop)]
struct Rest {
    feed: Feed,
    is_going: bool,
}

// Whether standard output still takes lines; it is said on standard error where it does not.
fn is_open(told: Told, text: &mut [u8; ROOM]) -> bool {
    match told {
        Told::Answer => true,
        Told::Mistake => true,
        Told::Closed => {
            streams::output_gone(text);
            false
        }
    }
}

// A line of a batch, answered.
fn take_line(
    rt: &HostRuntime,
    taken: Taken,
    kept: Kept,
    input: &[u8; INPUT_ROOM],
    rows: &mut [usize; 256],
    store: &mut [u8; STORE_ROOM],
    out: &mut [u8; FILE_LIMIT],
    work: &mut [u8; FILE_LIMIT],
    text: &mut [u8; ROOM],
) -> Turn
    requires { ((taken.from ≤ taken.end) × (taken.end ≤ input_room)) × (Fed input.now taken.feed × Tidy rows.old kept) }
    ensures { Fed input.now result.feed × Tidy rows.new result.kept }
{
    let from = taken.from;
    let end = taken.end;
    let feed = taken.feed;
    let all: &[u8] = input;
    let ran = runs::run(
        rt,
        &all[from..end],
        b' ',
        kept,
        rows,
        store,
        out,
        work,
        text,
    );
    let kept = ran.kept;
    let told = ran.told;
    Turn {
        feed,
        kept,
        is_going: is_open(told, text),
    }
}

// One item of the input, answered with one line, or more input.
fn go_on(
    rt: &HostRuntime,
    feed: Feed,
    kept: Kept,
    input: &mut [u8; INPUT_ROOM],
    rows: &mut [usize; 256],
    store: &mut [u8; STORE_ROOM],
    out: &mut [u8; FILE_LIMIT],
    work: &mut [u8; FILE_LIMIT],
    text: &mut [u8; ROOM],
) -> Turn
    requires { Fed input.old feed × Tidy rows.old kept }
    ensures { Fed input.new result.feed × Tidy rows.new result.kept }
{
    match feed::next(feed, input) {
        Coming::Line(taken) => take_line(rt, taken, kept, input, rows, store, out, work, text),
        Coming::TooLong(after) => {
            let told = told::say_too_long(text);
            Turn {
                feed: after,
                kept,
                is_going: is_open(told, text),
            }
        }
        Coming::More(after) => {
            let came = feed::read_more(rt, after, input);
            let more = came.feed;
            Turn {
                feed: more,
                kept,
                is_going: true,
            }
        }
        Coming::Over => Turn {
            feed,
            kept,
            is_going: false,
        },
    }
}

// The lines of standard input from a feed on. A loop that is proved has to end, and nothing says that the input does: the turns are counted down from a number that no run uses up.
fn run_all(
    rt: &HostRuntime,
    from: Feed,
    input: &mut [u8; INPUT_ROOM],
    rows: &mut [usize; 256],
    store: &mut [u8; STORE_ROOM],
    out: &mut [u8; FILE_LIMIT],
    work: &mut [u8; FILE_LIMIT],
    text: &mut [u8; ROOM],
) -> Rest
    requires { Fed input.old from × (256 ≡ length rows.old) }
    ensures { Fed input.new result.feed }
{
    let mut feed = from;
    let mut kept = Kept { rows: 0, used: 0 };
    let mut turns = u64::MAX;
    while 0 < turns {
        turns -= 1;
        let after = go_on(rt, feed, kept, input, rows, store, out, work, text);
        feed = after.feed;
        kept = after.kept;
        if !after.is_going {
            return Rest {
                feed,
                is_going: false,
            };
        }
    }
    Rest {
        feed,
        is_going: true,
    }
}

// What is said on standard error after the only command.
fn finish(told: Told, text: &mut [u8; ROOM]) {
    match told {
        Told::Answer => {}
        Told::Mistake => streams::hint(text),
        Told::Closed => streams::output_gone(text),
    }
}

// One command that is no question, whose words are the first n bytes, parted by zero bytes.
fn run_one(
    rt: &HostRuntime,
    input: &[u8; INPUT_ROOM],
    n: usize,
    rows: &mut [usize; 256],
    store: &mut [u8; STORE_ROOM],
    out: &mut [u8; FILE_LIMIT],
    work: &mut [u8; FILE_LIMIT],
    text: &mut [u8; ROOM],
)
    requires { (n ≤ input_room) × ((256 ≡ length rows.old) × (is_asked (task_of 0 (take n input.now)) ≡ false)) }
{
    let all: &[u8] = input;
    let ran = runs::run(
        rt,
        &all[..n],
        0,
        Kept { rows: 0, used: 0 },
        rows,
        store,
        out,
        work,
        text,
    );
    let told = ran.told;
    finish(told, text)
}

// A session, with its buffers: the lines from a feed on, or the command whose words are the first n bytes.
fn hold(
    rt: &HostRuntime,
    feed: Feed,
    input: &mut [u8; INPUT_ROOM],
    n: usize,
    in_batch: bool,
    text: &mut [u8; ROOM],
) -> Rest
    requires { Fed input.old feed × ((n ≤ input_room) × (in_batch ≡ false → is_asked (task_of 0 (take n input.old)) ≡ false)) }
    ensures { Fed input.new result.feed × (in_batch ≡ false → result.is_going ≡ false) }
{
    let mut rows = [0usize; 256];
    let mut store = [0u8; STORE_ROOM];
    let mut out = [0u8; FILE_LIMIT];
    let mut work = [0u8; FILE_LIMIT];
    if in_batch {
        return run_all(
            rt, feed, input, &mut rows, &mut store, &mut out, &mut work, text,
        );
    }
    run_one(
        rt, input, n, &mut rows, &mut store, &mut out, &mut work, text,
    );
    Rest {
        feed,
        is_going: false,
    }
}

// The commands on standard input, one a line, or the one whose words are the first n bytes. What a session has no turns for is another's. The compiler puts a function that is called once into its caller, however large it is: the second call of `hold` keeps the buffers out of the frame of `main`, and questions, help and mistakes in the arguments run without them.
fn serve_all(
    rt: &HostRuntime,
    input: &mut [u8; INPUT_ROOM],
    n: usize,
    in_batch: bool,
    text: &mut [u8; ROOM],
)
    requires { (n ≤ input_room) × (in_batch ≡ false → is_asked (task_of 0 (take n input.old)) ≡ false) }
{
    let rest = hold(rt, feed::start(), input, n, in_batch, text);
    if !rest.is_going {
        return;
    }
    let feed = rest.feed;
    hold(rt, feed, input, n, in_batch, text);
}

// The question whose words are the first n bytes; whether they are one.
fn ask_one(rt: &HostRuntime, input: &[u8; INPUT_ROOM], n: usize, text: &mut [u8; ROOM]) -> bool
    requires { n ≤ input_room }
    ensures { (result ≡ is_asked (task_of 0 (take n input.now))) × TookIf (take n input.now) result }
{
    let all: &[u8] = input;
    match asks::run(rt, &all[..n], text) {
        Some(told) => {
            finish(told, text);
            true
        }
        None => false,
    }
}

// A question by arguments; whether the first n bytes are one.
fn is_answered(
    rt: &HostRuntime,
    input: &[u8; INPUT_ROOM],
    n: usize,
    in_batch: bool,
    text: &mut [u8; ROOM],
) -> bool
    requires { n ≤ input_room }
    ensures { in_batch ≡ false → (result ≡ is_asked (task_of 0 (take n input.now))) × TookIf (take n input.now) result }
{
    if in_batch {
        return false;
    }
    ask_one(rt, input, n, text)
}

/// A batch, or a command: a question needs no session. There is one call of `serve_all`, with no number known to the compiler, which would make two of `hold`.
pub fn serve(
    rt: &HostRuntime,
    input: &mut [u8; INPUT_ROOM],
    n: usize,
    in_batch: bool,
    text: &mut [u8; ROOM],
)
    requires { n ≤ input_room }
    ensures { in_batch ≡ false → is_asked (task_of 0 (take n input.old)) ≡ true → TookIf (take n input.old) true }
{
    if is_answered(rt, input, n, in_batch, text) {
        return;
    }
    serve_all(rt, input, n, in_batch, text)
}
