//! The line of a path of a types.rdb, passed through a buffer: what the path leads to, and the path.
#![tactic(auto)]

ghost use Rattle.std.specs.Prelude.{◌≡◌, ◌++◌, ◌+◌, ◌≤◌, ◌<◌, length, set};
ghost use Rattle.number.specs.Limits.{file_limit};
ghost use Rattle.number.specs.Number.{le};
ghost use Rattle.key.specs.Word.{word_end, word_at};
ghost use Rattle.ascii.specs.Ascii.{ascii};
ghost use Rattle.rdb_map.specs.Map.{entry_bytes, key_at};
ghost use Rattle.rdb_list.specs.Listed.{value_in};
ghost use Rattle.rdb_shown.specs.Texts.{value_text};
ghost use Rattle.window.specs.Window.{Passed};
ghost use Rattle.window.specs.Shown.{bytes_shown};
ghost use Rattle.rdb_line.specs.Text.{step_text, path_text, path_end, line_text};
ghost use Rattle.rdb_line.specs.Spelt.{word_room, line_room, place_limit, words_at, Spelt, Stored, line_of};
ghost use Rattle.rdb_line.specs.declared.Target.TheVariants.{Entity, Constant};

/// No path has more words: below sixteen modules, one in another, a constant of a group.
pub const PATH_LIMIT: usize = 18;

/// What a path leads to, by its offset.
#[derive(Clone, Copy, Debug, PartialEq, Eq)]
pub enum Target {
    Entity(usize),
    Constant(usize),
}

fn pointer(x: u32) -> usize
    ensures { result ≡ x }
{
    x as usize
}

/// The path that goes on from the first words of another with the entry at p.
pub fn longer(places: [usize; PATH_LIMIT], depth: usize, p: usize) -> [usize; PATH_LIMIT]
    requires { depth < 18 }
    ensures { result ≡ set places depth p }
{
    let mut path = places;
    path[depth] = p;
    path
}

// The word at q.
fn put_word(out: &mut [u8], from: usize, place: usize, file: &[u8], q: usize) -> usize
    requires { (length file.now ≤ file_limit) × (word_end file.now q < length file.now) × (place ≤ place_limit + place_limit) }
    ensures { Passed from place (bytes_shown (word_at file.now q)) out.old result out.new × (result + 1 ≤ place + word_room) }
{
    let mut i = q;
    let mut at = place;
    // A `while`: the end of the word shows as it is passed, and a range would want a pass over it first.
    while file[i] != 0 {
        at = window::put_shown_byte(out, from, at, file, i);
        i += 1;
    }
    at
}

// Word i of a path, the key of the entry at p: a dot stands before each but the first.
fn put_step(out: &mut [u8], from: usize, place: usize, file: &[u8], p: usize, i: usize) -> usize
    requires { (length file.now ≤ file_limit) × (p + entry_bytes ≤ length file.now) × (word_end file.now (le 4 file.now p) < length file.now) × (place < place_limit + place_limit) }
    ensures { Passed from place (step_text i (key_at file.now p)) out.old result out.new × (result ≤ place + word_room) }
{
    let q = pointer(number::le32_at(file, p));
    if i == 0 {
        return put_word(out, from, place, file, q);
    }
    let next = window::put_bytes(out, from, place, b".");
    put_word(out, from, next, file, q)
}

// The path of the first `depth` entries.
fn put_path(
    out: &mut [u8],
    from: usize,
    place: usize,
    file: &[u8],
    places: [usize; PATH_LIMIT],
    depth: usize,
) -> usize
    requires { (length file.now ≤ file_limit) × Spelt file.now places depth × (place ≤ place_limit + 110) }
    ensures { Passed from place (path_text (words_at file.now places depth)) out.old result out.new × (result + 110 ≤ place + line_room) }
{
    let mut i: usize = 0;
    let mut at = place;
    while i < depth {
        at = put_step(out, from, at, file, places[i], i);
        i += 1;
    }
    at
}

// The end of a line: a space, the path, a newline.
fn put_end(
    out: &mut [u8],
    from: usize,
    place: usize,
    file: &[u8],
    places: [usize; PATH_LIMIT],
    depth: usize,
) -> usize
    requires { (length file.now ≤ file_limit) × Spelt file.now places depth × (place ≤ place_limit + 100) }
    ensures { Passed from place (path_end (words_at file.now places depth)) out.old result out.new × (result + 100 ≤ place + line_room) }
{
    let path = window::put_bytes(out, from, place, b" ");
    let end = put_path(out, from, path, file, places, depth);
    window::put_bytes(out, from, end, b"\n")
}

// The line of the entity at o.
fn put_entity(
    out: &mut [u8],
    from: usize,
    place: usize,
    file: &[u8],
    places: [usize; PATH_LIMIT],
    depth: usize,
    o: usize,
) -> usize
    requires { (length file.now ≤ file_limit) × Spelt file.now places depth × Stored file.now (Entity o) × (place ≤ place_limit) }
    ensures { Passed from place (line_text (line_of file.now (words_at file.now places depth) (Entity o))) out.old result out.new × (result ≤ place + line_room) }
{
    let kind = file[o] as u64;
    let offset = window::put_labelled(out, from, place, b"E ", kind);
    let path = window::put_labelled(out, from, offset, b" ", o as u64);
    put_end(out, from, path, file, places, depth)
}

// The type and the value of the constant at o, through a line of their own.
fn put_value(
    out: &mut [u8],
    from: usize,
    place: usize,
    file: &[u8],
    o: usize,
    line: &mut [u8; 40],
) -> usize
    requires { (length file.now ≤ file_limit) × Stored file.now (Constant o) × (place ≤ place_limit) }
    ensures { Passed from place (ascii "C " ++ value_text (value_in file.now o)) out.old result out.new × (result ≤ place + 40) }
{
    let at = text::put_bytes(line, 0, b"C ");
    let end = rdb_shown::put_value(line, at, file, o);
    let all: &[u8] = line;
    window::put_bytes(out, from, place, &all[..end])
}

// The line of the constant at o.
fn put_constant(
    out: &mut [u8],
    from: usize,
    place: usize,
    file: &[u8],
    places: [usize; PATH_LIMIT],
    depth: usize,
    o: usize,
) -> usize
    requires { (length file.now ≤ file_limit) × Spelt file.now places depth × Stored file.now (Constant o) × (place ≤ place_limit) }
    ensures { Passed from place (line_text (line_of file.now (words_at file.now places depth) (Constant o))) out.old result out.new × (result ≤ place + line_room) }
{
    let mut line = [0u8; 40];
    let path = put_value(out, from, place, file, o, &mut line);
    put_end(out, from, path, file, places, depth)
}

/// The line of what the path of the first `depth` entries leads to.
pub fn put_line(
    out: &mut [u8],
    from: usize,
    place: usize,
    file: &[u8],
    places: [usize; PATH_LIMIT],
    depth: usize,
    x: Target,
) -> usize
    requires { (length file.now ≤ file_limit) × Spelt file.now places depth × Stored file.now x × (place ≤ place_limit) }
    ensures { Passed from place (line_text (line_of file.now (words_at file.now places depth) x)) out.old result out.new × (result ≤ place + line_room) }
{
    match x {
        Target::Entity(o) => put_entity(out, from, place, file, places, depth, o),
        Target::Constant(o) => put_constant(out, from, place, file, places, depth, o),
    }
}
