//! The listing of a types.rdb that was accepted, buffer by buffer: its text can be far longer than the file. For each
//! buffer the entries are visited again: lines that stand before the buffer's are counted, and none is spelt after its
//! end.
#![tactic(auto)]

ghost use Rattle.std.specs.Prelude.{◌≡◌, [], ◌∷◌, ◌+◌, ◌≤◌, ◌<◌};
ghost use Rattle.rdb_map.specs.Map.{visit_limit};
ghost use Rattle.rdb_interface.specs.declared.SetCount.{SetCount};
ghost use Rattle.rdb_file.specs.Visit.{visit_constant};
ghost use Rattle.rdb_path.specs.Reached.{Holds, Visited, Reached};
ghost use Rattle.rdb_list.specs.Listed.{constant_lines, entity_lines, group_lines, held_lines};
ghost use Rattle.rdb_line.specs.Spelt.{line_room, words_at, line_of, Stored};
ghost use Rattle.rdb_lines.specs.Walk.{buffer_bytes, Walked, Fit, Ready};
ghost use Rattle.rdb_lines.specs.Rest.{next_cursor, Begun, Fills};

use rdb_file::{COUNT_PLACE, GROUP, MAP_PLACE, MODULE};
use rdb_line::{PATH_LIMIT, Target};
use rdb_map::ENTRY_BYTES;

const BUFFER: usize = 65536;

const MODULE_LIMIT: usize = 16;

/// Where a buffer begins: at a byte of the text from the line of this number on, counted from 0.
#[derive(Clone, Copy, Debug, PartialEq, Eq)]
pub struct Cursor {
    pub line: usize,
    pub place: usize,
}

/// How many bytes of the buffer were filled, and what is left after them.
#[derive(Clone, Copy, Debug, PartialEq, Eq)]
pub struct Filled {
    pub length: usize,
    pub rest: Option<Cursor>,
}

/// How far the lines were passed: how many are to be left out first; of the others how many were passed, and their
/// bytes; where the last of them begins.
#[derive(Clone, Copy, Debug, PartialEq, Eq)]
pub struct Pass {
    pub skip: usize,
    pub lines: usize,
    pub place: usize,
    pub mark: usize,
}

fn pointer(x: u32) -> usize
    ensures { result ≡ x }
{
    x as usize
}

// One line, where the buffer isn't full.
fn pass_line(
    file: &[u8],
    places: [usize; PATH_LIMIT],
    depth: usize,
    x: Target,
    from: usize,
    p: Pass,
    out: &mut [u8],
) -> Pass
    requires { Ready file.now places depth from p × Stored file.now x × (p.place < from + buffer_bytes) }
    ensures { Walked from (line_of file.now (words_at file.now places depth) x ∷ []) p out.old result out.new × Fit from result }
{
    let skip = p.skip;
    let lines = p.lines;
    let place = p.place;
    let mark = p.mark;
    if 0 < skip {
        return Pass {
            skip: skip - 1,
            lines,
            place,
            mark,
        };
    }
    let end = rdb_line::put_line(out, from, place, file, places, depth, x);
    Pass {
        skip: 0,
        lines: lines + 1,
        place: end,
        mark: place,
    }
}

// The constants of the n entries of the map at `at`.
fn pass_constants(
    file: &[u8],
    places: [usize; PATH_LIMIT],
    depth: usize,
    at: usize,
    n: usize,
    from: usize,
    p: Pass,
    out: &mut [u8],
) -> Pass
    requires { Ready file.now places depth from p × (depth ≤ 17) × Holds (visit_constant file.now) file.now at n }
    ensures { Walked from (constant_lines file.now (words_at file.now places depth) at n 0) p out.old result out.new × Fit from result }
{
    let mut q = p;
    for i in 0..n {
        if from + BUFFER <= q.place {
            return q;
        }
        let e = at + ENTRY_BYTES * i;
        let o = pointer(number::le32_at(file, e + 4));
        let path = rdb_line::longer(places, depth, e);
        q = pass_line(file, path, depth + 1, Target::Constant(o), from, q, out);
    }
    q
}

// The constants that the entity at o holds, where it is a group.
fn pass_group(
    file: &[u8],
    places: [usize; PATH_LIMIT],
    depth: usize,
    o: usize,
    from: usize,
    p: Pass,
    out: &mut [u8],
) -> Pass
    requires { Ready file.now places depth from p × (depth ≤ 17) × ((m : SetCount) × Visited m file.now o) }
    ensures { Walked from (group_lines file.now (words_at file.now places depth) o) p out.old result out.new × Fit from result }
{
    if file[o] % 32 != GROUP {
        return p;
    }
    let n = pointer(number::le32_at(file, o + COUNT_PLACE));
    pass_constants(file, places, depth, o + MAP_PLACE, n, from, p, out)
}

// What the entity at o holds, where `left` more modules may be entered.
#[cycle(pass_all_pass_held)]
fn pass_held(
    file: &[u8],
    places: [usize; PATH_LIMIT],
    depth: usize,
    left: usize,
    o: usize,
    from: usize,
    p: Pass,
    out: &mut [u8],
) -> Pass
    requires { Ready file.now places depth from p × (depth + left ≤ 17) × ((m : SetCount) × Visited m file.now o) }
    ensures { Walked from (held_lines left file.now (words_at file.now places depth) o) p out.old result out.new × Fit from result }
{
    if left == 0 {
        return pass_group(file, places, depth, o, from, p, out);
    }
    if file[o] != MODULE {
        return pass_group(file, places, depth, o, from, p, out);
    }
    let n = pointer(number::le32_at(file, o + COUNT_PLACE));
    pass_all(
        file,
        places,
        depth,
        left - 1,
        o + MAP_PLACE,
        n,
        from,
        p,
        out,
    )
}

// The entities of the n entries of the map at `at`, each with what it holds.
#[cycle(pass_all_pass_held)]
fn pass_all(
    file: &[u8],
    places: [usize; PATH_LIMIT],
    depth: usize,
    left: usize,
    at: usize,
    n: usize,
    from: usize,
    p: Pass,
    out: &mut [u8],
) -> Pass
    requires { Ready file.now places depth from p × (depth + left ≤ 16) × ((m : SetCount) × Reached m file.now at n) }
    ensures { Walked from (entity_lines (held_lines left file.now) file.now (words_at file.now places depth) at n 0) p out.old result out.new × Fit from result }
{
    let mut q = p;
    for i in 0..n {
        if from + BUFFER <= q.place {
            return q;
        }
        let e = at + ENTRY_BYTES * i;
        let o = pointer(number::le32_at(file, e + 4));
        let path = rdb_line::longer(places, depth, e);
        let line = pass_line(file, path, depth + 1, Target::Entity(o), from, q, out);
        q = pass_held(file, path, depth + 1, left, o, from, line, out);
    }
    q
}

// Where the next buffer begins: in the last line that was passed.
fn next_cursor(c: Cursor, p: Pass) -> Cursor
    requires { (1 ≤ p.lines) × (c.line + p.lines ≤ visit_limit) × (p.mark ≤ c.place + buffer_bytes) × (c.place ≤ line_room) }
    ensures { result ≡ next_cursor c p }
{
    Cursor {
        line: c.line + (p.lines - 1),
        place: c.place + BUFFER - p.mark,
    }
}

/// The next bytes of the listing, as many as the buffer has.
pub fn fill(file: &[u8], c: Cursor, out: &mut [u8; BUFFER]) -> Filled
    requires { Begun file.now c }
    ensures { Fills file.now c out.old result out.new }
{
    let line = c.line;
    let from = c.place;
    let at = pointer(number::le32_at(file, 8));
    let n = pointer(number::le32_at(file, 12));
    let start = Pass {
        skip: line,
        lines: 0,
        place: 0,
        mark: 0,
    };
    let p = pass_all(
        file,
        [0; PATH_LIMIT],
        0,
        MODULE_LIMIT,
        at,
        n,
        from,
        start,
        out,
    );
    let place = p.place;
    if from + BUFFER <= place {
        return Filled {
            length: BUFFER,
            rest: Some(next_cursor(c, p)),
        };
    }
    if place < from {
        return Filled {
            length: 0,
            rest: None,
        };
    }
    Filled {
        length: place - from,
        rest: None,
    }
}
