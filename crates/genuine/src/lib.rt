// Whether libxpt wrote a file that the check refuses with 8 at 24.
#![tactic(auto)]

ghost use Rattle.std.specs.Prelude.{◌≡◌, ◌+◌, ◌*◌, ◌≤◌, ◌<◌, length, drop};
ghost use Rattle.number.specs.Limits.{file_limit, entry_width};
ghost use Rattle.head.specs.Annotation.{read_annotations};
ghost use Rattle.directory.specs.Directory.{read_directory};
ghost use Rattle.genuine.specs.Headed.{Headed};
ghost use Rattle.genuine.specs.Genuine.{passes, lists_genuine, is_genuine};

use number::ENTRY_WIDTH;

// Whether the annotations, which end at or before `limit`, are accepted.
fn passes_annotations(file: &[u8], limit: usize) -> bool
    requires { (32 ≤ limit) × (limit ≤ length file.now) × (length file.now ≤ file_limit) }
    ensures { result ≡ passes (read_annotations limit file.now) }
{
    match head::read_annotations(file, limit) {
        Ok(_) => true,
        Err(_) => false,
    }
}

// Whether the n entries of the directory are.
fn passes_directory(file: &[u8], n: usize, start: usize, pool: usize) -> bool
    requires { (start + entry_width * n ≤ pool) × (pool ≤ length file.now) × (length file.now ≤ file_limit) }
    ensures { result ≡ passes (read_directory file.now (drop pool file.now) n start) }
{
    match directory::check_directory(file, n, start, pool) {
        Ok(_) => true,
        Err(_) => false,
    }
}

// Whether a file whose header has no fault but that of its directory passes so read.
fn lists_genuine(file: &[u8]) -> bool
    requires { Headed file.now }
    ensures { result ≡ lists_genuine file.now }
{
    let n = number::u16_at(file, 18) as usize;
    let field = number::u32_at(file, 24) as usize;
    let pool = number::u32_at(file, 28) as usize;
    if n == 0 {
        return passes_annotations(file, pool);
    }
    if field <= 33 {
        return false;
    }
    let start = field - 1;
    if pool < start + ENTRY_WIDTH * n {
        return false;
    }
    if passes_annotations(file, start) {
        return passes_directory(file, n, start, pool);
    }
    false
}

// Whether the check refuses the file with 8 at 24, and its front passes with the directory counted from 1.
pub fn is_genuine(file: &[u8]) -> bool
    ensures { result ≡ is_genuine file.now }
{
    match head::read_header(file) {
        Ok(h) => false,
        Err(why) => {
            if why.no != 8 {
                return false;
            }
            if why.place != 24 {
                return false;
            }
            lists_genuine(file)
        }
    }
}
