//! Methods asked for by the number of their kind.
ghost use Rattle.std.specs.Prelude.{◌≡◌, ◌<◌};
ghost use Rattle.reader.specs.Reader.{decode};
ghost use Rattle.cabi.specs.Kind.{ask_kind};

use lookup::{FoundMethod, Kind, Search};
use reading::{Refusal, Rule};

/// 0 getter, 1 setter, 2 plain; a question with another kind is malformed.
pub fn method_of_kind(
    file: &[u8],
    index: u64,
    name: &[u8],
    kind: u64,
) -> Result<Search<FoundMethod>, Refusal>
    ensures { result ≡ ask_kind (decode file.now) index name.now kind }
{
    match kind {
        0 => lookup::method_by_name(file, index, name, Kind::Getter),
        1 => lookup::method_by_name(file, index, name, Kind::Setter),
        2 => lookup::method_by_name(file, index, name, Kind::Plain),
        _ => of_no_kind(file, index, name, kind),
    }
}

fn of_no_kind(
    file: &[u8],
    index: u64,
    name: &[u8],
    kind: u64,
) -> Result<Search<FoundMethod>, Refusal>
    requires { 2 < kind }
    ensures { result ≡ ask_kind (decode file.now) index name.now kind }
{
    reader::check(file)?;
    Err(Rule::Question.at(0))
}
