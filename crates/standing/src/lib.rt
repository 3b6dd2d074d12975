//! What stands at a path, as the system tells it, and what is then done with an output there. The system's answers
//! come in as values.
#![tactic(auto)]

ghost use Rattle.std.specs.Prelude.{◌≡◌};
ghost use Rattle.standing.specs.Standing.{is_file, is_link, is_shut, failed_by, of_file, of_link, standing, if_forced, decision};

/// What lstat or stat tells: the mode, or that there is nothing; or errno's number.
pub type Seen = Result<Option<u32>, u32>;

/// Nothing; a file that may be replaced, itself or through a link, with its permission bits; a link that leads to
/// nothing; or what is no ordinary file.
#[derive(Clone, Copy, Debug, PartialEq, Eq)]
pub enum Stands {
    Nothing,
    File(u32),
    LooseLink,
    NoFile,
}

/// An output that is a new file, and only as long as its name is free; one that takes the place of what stands there,
/// with the usual permissions or with those of the file before.
#[derive(Clone, Copy, Debug, PartialEq, Eq)]
pub enum Decision {
    New,
    Instead,
    Alike(u32),
}

/// Why there is no output: a file is there, and is not to be replaced; what is there is no file; or errno's number.
#[derive(Clone, Copy, Debug, PartialEq, Eq)]
pub enum Barred {
    Taken,
    NoFile,
    Failed(u32),
}

/// What a failed lstat or stat tells.
#[tactic(auto, using(number::proofs::Choice::tests), unfolding(crate::specs::Standing::failed_by))]
pub fn failed_by(error: u32) -> Seen
    ensures { result ≡ failed_by error }
{
    if error == 2 {
        return Ok(None);
    }
    Err(error)
}

#[tactic(auto, using(number::proofs::Choice::tests), unfolding(crate::specs::Standing::is_file))]
fn is_file(mode: u32) -> bool
    ensures { result ≡ is_file mode }
{
    mode / 4096 % 16 == 8
}

#[tactic(auto, using(number::proofs::Choice::tests), unfolding(crate::specs::Standing::is_link))]
fn is_link(mode: u32) -> bool
    ensures { result ≡ is_link mode }
{
    mode / 4096 % 16 == 10
}

#[tactic(auto, using(number::proofs::Choice::tests), unfolding(crate::specs::Standing::is_shut))]
fn is_shut(mode: u32) -> bool
    ensures { result ≡ is_shut mode }
{
    mode / 128 % 2 + mode / 16 % 2 + mode / 2 % 2 == 0
}

// An ordinary file with this mode.
#[tactic(auto, using(number::proofs::Choice::tests), unfolding(crate::specs::Standing::of_file))]
fn of_file(mode: u32, leave: Result<(), u32>) -> Result<Stands, u32>
    ensures { result ≡ of_file mode leave }
{
    leave?;
    if is_shut(mode) {
        return Err(13);
    }
    Ok(Stands::File(mode % 512))
}

// A symbolic link, by what stands where it leads.
#[tactic(auto, using(number::proofs::Choice::tests), unfolding(crate::specs::Standing::of_link))]
fn of_link(led: Seen, leave: Result<(), u32>) -> Result<Stands, u32>
    ensures { result ≡ of_link led leave }
{
    let Some(mode) = led? else {
        return Ok(Stands::LooseLink);
    };
    if is_file(mode) {
        return of_file(mode, leave);
    }
    Ok(Stands::NoFile)
}

/// What stands there, or why it cannot be replaced or told, by errno's number: `own` is of the name itself, `led` of
/// what it leads to.
#[tactic(auto, using(number::proofs::Choice::tests), unfolding(crate::specs::Standing::standing))]
pub fn standing_of(own: Seen, led: Seen, leave: Result<(), u32>) -> Result<Stands, u32>
    ensures { result ≡ standing own led leave }
{
    let Some(mode) = own? else {
        return Ok(Stands::Nothing);
    };
    if is_file(mode) {
        return of_file(mode, leave);
    }
    if is_link(mode) {
        return of_link(led, leave);
    }
    Ok(Stands::NoFile)
}

// One of two decisions, by whether an output is forced.
#[tactic(auto, using(number::proofs::Choice::tests), unfolding(crate::specs::Standing::if_forced))]
fn if_forced(
    is_forced: bool,
    one: Decision,
    other: Result<Decision, Barred>,
) -> Result<Decision, Barred>
    ensures { result ≡ if_forced is_forced (Ok one) other }
{
    if is_forced {
        return Ok(one);
    }
    other
}

/// What is done with an output.
#[tactic(auto, using(number::proofs::Choice::tests), unfolding(crate::specs::Standing::decision))]
pub fn decide(there: Result<Stands, u32>, is_forced: bool) -> Result<Decision, Barred>
    ensures { result ≡ decision there is_forced }
{
    match there {
        Ok(Stands::Nothing) => if_forced(is_forced, Decision::Instead, Ok(Decision::New)),
        Ok(Stands::File(mode)) => if_forced(is_forced, Decision::Alike(mode), Err(Barred::Taken)),
        Ok(Stands::LooseLink) => if_forced(is_forced, Decision::Instead, Err(Barred::Taken)),
        Ok(Stands::NoFile) => Err(Barred::NoFile),
        Err(error) => Err(Barred::Failed(error)),
    }
}
