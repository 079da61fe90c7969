ghost use Rattle.std.specs.Prelude.{◌≡◌, [], Some, IfOk, IfSome};
ghost use Rattle.std.specs.IoError.{error_kind};
ghost use Rattle.io_edge.specs.Fetch.{IsWithin, IsFetchedOf, HasAll};
ghost use Rattle.io_edge.specs.Folder as folder_spec;

use crate::errors::EdgeErr;
use crate::files::Fetched;
use std::alloc::Global;
use std::fs::{File, OpenFile};
use std::io::{ErrorKind, Read};
use std::rt;
use wa_base::Bytes;

// Whether a path leads out of the folder that it begins in.
pub(crate) fn leads_out(path: &str) -> bool
    ensures { result ≡ folder_spec.leads_out path.now }
{
    path.starts_with('/') || has_parent(path)
}

// Whether a part of the path is `..`, which names the folder above.
fn has_parent(path: &str) -> bool
    ensures { result ≡ folder_spec.has_parent path.now }
{
    path.split('/').any(|part| part == "..")
}

// Whether an error of opening a file says that there is none.
fn finds_none(kind: ErrorKind) -> bool
    ensures { result ≡ folder_spec.finds_none kind }
{
    matches!(
        kind,
        ErrorKind::NotFound | ErrorKind::NotADirectory | ErrorKind::InvalidInput
    )
}

// Reads the file that the system has at `path`.
pub(crate) fn fetch_file<R: rt::Files>(
    alloc: Global,
    system: &R,
    path: &str,
    limit: u64,
) -> Result<Fetched, EdgeErr>
    ensures within { IfOk result (λ fetched. IsWithin limit fetched) }
{
    match File::open(system, path) {
        Ok(file) => fetch_open(alloc, file, limit),
        Err(e) if finds_none(e.kind()) => Ok(Fetched::Missing),
        Err(_) => Err(EdgeErr::Failed),
    }
}

// Reads an open file, unless its length says that it is too long. A folder can be opened too.
fn fetch_open<F: Read + OpenFile + Drop>(
    alloc: Global,
    file: F,
    limit: u64,
) -> Result<Fetched, EdgeErr>
    ensures within { IfOk result (λ fetched. IsWithin limit fetched) }
    ensures found { IfSome (F.remaining file) (λ left. IfOk result (λ fetched. HasAll left fetched)) }
{
    let Ok(metadata) = file.metadata() else {
        return Err(EdgeErr::Failed);
    };
    if metadata.is_dir() {
        return Err(EdgeErr::Failed);
    }
    let length = metadata.len();
    if length > limit {
        return Ok(Fetched::TooLong(length));
    }
    let room = Vec::with_capacity(alloc, length as usize)?;
    read_within(file, room, limit)
}

// Reads into an empty list, to the end or one byte past the limit: a file may have more bytes than its
// length said.
fn read_within<R: Read + Drop>(
    reader: R,
    mut bytes: Vec<u8>,
    limit: u64,
) -> Result<Fetched, EdgeErr>
    requires { bytes.items ≡ [] }
    ensures within { IfOk result (λ fetched. IsWithin limit fetched) }
    ensures found { IfSome (R.remaining reader) (λ left. IfOk result (λ fetched. IsFetchedOf (Some left) fetched)) }
{
    let mut bounded = reader.take(limit.saturating_add(1));
    match bounded.read_to_end(&mut bytes) {
        Ok(_) => {}
        Err(e) if e.kind() == ErrorKind::OutOfMemory => return Err(EdgeErr::NoMemory),
        Err(_) => return Err(EdgeErr::Failed),
    }
    let count = bytes.len() as u64;
    if count > limit {
        return Ok(Fetched::TooLong(count));
    }
    Ok(Fetched::Bytes(Bytes::from(bytes)))
}
