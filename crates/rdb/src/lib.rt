// The face of the reader of types.rdb files: the check, an entity by its dotted path, a constant.
#![tactic(auto)]

ghost use Rattle.std.specs.Prelude.{◌≡◌, ◌≤◌, length};
ghost use Rattle.number.specs.Limits.{file_limit};
ghost use Rattle.reading.specs.Got.{Accepted};
ghost use Rattle.rdb_record.specs.Constant.{read_constant};
ghost use Rattle.rdb_file.specs.File.{read_file, verdict_of};
ghost use Rattle.rdb_path.specs.Path.{cut, entity_at, constant_at};
ghost use Rattle.rdb_path.specs.Reached.{Checked};
ghost use Rattle.rdb.specs.Questions.{constant_said, entity_found, constant_found, ask_entity, ask_constant};

use rdb_interface::SetCount;
use rdb_value::Value;
use reading::Refusal;

// An entity that was found: its kind byte, flags and all, and the offset of that byte.
#[derive(Drop)]
pub struct Entity {
    pub kind: u8,
    pub offset: usize,
}

// Whether a file follows document 001, read as `m` says: accepted with how many entries were visited, or the first refusal.
pub fn check(file: &[u8], m: SetCount) -> Result<usize, Refusal>
    ensures { result ≡ verdict_of (read_file m file.now) }
{
    rdb_file::check(file, m)
}

fn find_entity(file: &[u8], path: &[u8]) -> Result<Option<Entity>, Refusal>
    requires { Checked file.now }
    ensures { result ≡ entity_found file.now (entity_at file.now (cut path.now)) }
{
    match rdb_path::entity_at(file, path) {
        Some(offset) => Ok(Some(Entity {
            kind: file[offset],
            offset,
        })),
        None => Ok(None),
    }
}

// The entity that a dotted path leads to.
pub fn entity_by_path(file: &[u8], m: SetCount, path: &[u8]) -> Result<Option<Entity>, Refusal>
    ensures { result ≡ ask_entity (read_file m file.now) file.now path.now }
{
    rdb_file::check(file, m)?;
    find_entity(file, path)
}

// The value of the constant whose kind byte is at o.
fn value_of(file: &[u8], o: usize) -> Result<Option<Value>, Refusal>
    requires { (length file.now ≤ file_limit) × Accepted (read_constant file.now o) }
    ensures { result ≡ constant_said (read_constant file.now o) }
{
    Ok(Some(rdb_value::value_at(file, file[o] % 128, o + 1)))
}

fn find_constant(file: &[u8], path: &[u8]) -> Result<Option<Value>, Refusal>
    requires { Checked file.now }
    ensures { result ≡ constant_found file.now (constant_at file.now (cut path.now)) }
{
    match rdb_path::constant_at(file, path) {
        Some(o) => value_of(file, o),
        None => Ok(None),
    }
}

// The constant that a dotted path leads to.
pub fn constant_by_path(file: &[u8], m: SetCount, path: &[u8]) -> Result<Option<Value>, Refusal>
    ensures { result ≡ ask_constant (read_file m file.now) file.now path.now }
{
    rdb_file::check(file, m)?;
    find_constant(file, path)
}
