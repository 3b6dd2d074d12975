//! Paths for the calls of the system, which read a path up to a zero byte and which std takes as text, and where the
//! last part of a path starts.
#![tactic(auto)]

ghost use Rattle.std.specs.Prelude.{◌≡◌, ◌≤◌, length, IfOk, IfErr, Ok};
ghost use Rattle.paths.specs.Path.{has_zero, judged, Unhanded, errno_of, Ended, ended_of, last_part};

/// The longest path: the system reads 4,096 bytes, of which the last is a zero.
pub const LIMIT: usize = 4095;

// Numbers of errno. They stay numbers: the system has more of them than are named here.
pub const ENOENT: i32 = 2;

pub const EIO: i32 = 5;

pub const EEXIST: i32 = 17;

pub const EINVAL: i32 = 22;

pub const ENAMETOOLONG: i32 = 36;

pub const EILSEQ: i32 = 84;

// Whether a byte of it is 0.
fn has_zero(path: &[u8]) -> bool
    ensures { result ≡ has_zero path.now }
{
    path.contains(&0)
}

/// Whether the system can be asked about it.
#[tactic(auto, using(number::proofs::Choice::tests), unfolding(crate::specs::Path::judged))]
pub fn judge(path: &[u8]) -> Result<(), i32>
    ensures { result ≡ judged path.now }
{
    if path.is_empty() {
        return Err(ENOENT);
    }
    if LIMIT < path.len() {
        return Err(ENAMETOOLONG);
    }
    if has_zero(path) {
        return Err(EINVAL);
    }
    Ok(())
}

/// The path as std's calls take it, which take UTF-8 alone; or errno's number.
pub fn text_of(path: &[u8]) -> Result<&str, i32>
    ensures bytes { IfOk result (λ t. t.now ≡ path.now) }
    ensures whole { IfOk result (λ t. judged path.now ≡ Ok tt) }
    ensures reason { IfErr result (λ e. Unhanded (judged path.now) path.now e) }
{
    judge(path)?;
    str::from_utf8(path).or(Err(EILSEQ))
}

/// The number of errno that an error of std's has: `error.raw_os_error()`.
pub fn errno(number: Option<i32>) -> i32
    ensures { result ≡ errno_of number }
{
    number.unwrap_or(EIO)
}

/// Its bytes, at most 4,095 of them, and zeros behind.
pub fn ended(path: &[u8]) -> [u8; 4096]
    ensures { Ended result × (result ≡ ended_of path.now) }
{
    let mut all = [0; 4096];
    let n = path.len().min(LIMIT);
    text::put_bytes(&mut all, 0, &path[..n]);
    all
}

/// Where the last part of a path starts: after its last `/`.
#[tactic(auto, using(number::proofs::Choice::tests), unfolding(crate::specs::Path::last_within, crate::specs::Path::last_part))]
pub fn last_part(path: &[u8]) -> usize
    ensures { (result ≤ length path.now) × (result ≡ last_part path.now) }
{
    let mut from = 0;
    for i in 0..path.len() {
        if path[i] == b'/' {
            from = i + 1;
        }
    }
    from
}
