// What stands before the descriptors: header, annotations, directory.
ghost use Rattle.std.specs.Prelude.{◌≡◌};
ghost use Rattle.head.specs.Says.{HeaderAt};
ghost use Rattle.directory.specs.Directory.{read_directory};
ghost use Rattle.typelib.specs.Typelib.{pool_of, read_listed, read_front, keep_head, front_of};

use head::Header;
use reading::Refusal;

// The directory of a file with the header h.
fn check_rows(file: &[u8], h: Header) -> Result<Header, Refusal>
    requires { HeaderAt file.now h }
    ensures { result ≡ keep_head h (read_directory file.now (pool_of h file.now) h.count h.directory) }
{
    directory::check_directory(file, h.count, h.directory, h.pool)?;
    Ok(h)
}

// Its annotations and directory.
fn check_listed(file: &[u8], h: Header) -> Result<Header, Refusal>
    requires { HeaderAt file.now h }
    ensures { result ≡ keep_head h (read_listed h file.now) }
{
    head::read_annotations(file, head::annotation_limit(h))?;
    check_rows(file, h)
}

// The header of a file, where all that stands before its descriptors is accepted.
pub fn check_front(file: &[u8]) -> Result<Header, Refusal>
    ensures { result ≡ front_of (read_front file.now) }
{
    check_listed(file, head::read_header(file)?)
}
