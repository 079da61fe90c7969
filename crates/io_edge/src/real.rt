ghost use Rattle.std.specs.Prelude.{◌≡◌, ◌≤◌, ◌<◌, None, Ok, false, length, take, is_err, IsErr, IsErrOf, IsTrue, IfErr, IfOk, IfSome};
ghost use Rattle.std.specs.Io.KnownBytes.{Appends, ReadConsumes};
ghost use Rattle.io_edge.specs.Faults.{Rose, is_fault};
ghost use Rattle.io_edge.specs.Fetch.{IsWithin};
ghost use Rattle.io_edge.specs.Folder.{leads_out};
ghost use Rattle.io_edge.specs.Plan.{count_faults};

use crate::errors::{EdgeErr, Failed};
use crate::files::{Fetched, Files};
use crate::folder::{fetch_file, leads_out};
use crate::sink::Sink;
use crate::source::Source;
use std::alloc::Global;
use std::fs::{File, OpenOptions};
use std::io::{Read, Write};
use std::marker::Model;
use std::rt;

/// A reader of the system. As a `Source` it tells nothing of the bytes. Contracts see it as the reader
/// and the number of the system's errors so far, which stops at `u64::MAX`.
#[derive(Drop)]
pub struct ReadSource<R> {
    reader: R,
    faults: u64,
}

impl<R> Model for ReadSource<R> {
    ghost use Rattle.io_edge.specs.Counted.{Counted};

    ghost Value = { Counted R };

    ghost view = { λ s. record { inner = s.reader; faults = s.faults } };
}

impl<R: Read> ReadSource<R> {
    /// A source that reads from `reader`.
    pub fn new(reader: R) -> ReadSource<R>
        ensures { result ≡ record { inner = reader; faults = 0 } }
    {
        ReadSource { reader, faults: 0 }
    }
}

impl<R: Read> Source for ReadSource<R> {
    ghost left = { λ _. None };

    ghost faults = { λ s. s.faults };

    fn read(&mut self, buf: &mut [u8]) -> Result<usize, Failed>
        ensures within { IfOk result (λ n. n ≤ length buf.new) }
        ensures bytes { ReadConsumes (R.remaining self.old.inner) (R.remaining self.new.inner) result buf.new }
        ensures later { self.old.faults ≤ self.new.faults }
        ensures cause { IsErr result → Rose self.old.faults self.new.faults }
        ensures counted { self.new.faults ≡ count_faults self.old.faults (is_err result) }
    {
        match self.reader.read(buf) {
            Ok(count) => Ok(count),
            Err(_) => {
                self.faults = self.faults.saturating_add(1);
                Err(Failed)
            }
        }
    }
}

/// A writer of the system. Each write is flushed, so that an error comes at the write that it belongs to
/// and not later. As a `Sink` it tells nothing of the bytes. Contracts see it as the writer and the number
/// of faults so far, which stops at `u64::MAX`: an error of the system is one, and so is a write that
/// takes no byte where there are some.
#[derive(Drop)]
pub struct WriteSink<W> {
    writer: W,
    faults: u64,
}

impl<W> Model for WriteSink<W> {
    ghost use Rattle.io_edge.specs.Counted.{Counted};

    ghost Value = { Counted W };

    ghost view = { λ s. record { inner = s.writer; faults = s.faults } };
}

impl<W: Write> WriteSink<W> {
    /// A sink that writes to `writer`.
    pub fn new(writer: W) -> WriteSink<W>
        ensures { result ≡ record { inner = writer; faults = 0 } }
    {
        WriteSink { writer, faults: 0 }
    }
}

impl<W: Write> Sink for WriteSink<W> {
    ghost written = { λ _. None };

    ghost faults = { λ s. s.faults };

    /// Where the flush fails, some of the piece may be written all the same.
    fn write(&mut self, piece: &[u8]) -> Result<usize, EdgeErr>
        ensures within { IfOk result (λ n. n ≤ length piece.now) }
        ensures some { IfOk result (λ n. 0 < length piece.now → 0 < n) }
        ensures bytes { IfOk result (λ n. Appends (W.contents self.old.inner) (W.contents self.new.inner) (take n piece.now)) }
        ensures later { self.old.faults ≤ self.new.faults }
        ensures cause { IsErrOf result EdgeErr.Failed → Rose self.old.faults self.new.faults }
        ensures failed { IfErr result (λ e. e ≡ EdgeErr.Failed) }
        ensures counted { self.new.faults ≡ count_faults self.old.faults (is_err result) }
    {
        if let Some(count) = write_through(&mut self.writer, piece) {
            return Ok(count);
        }
        self.faults = self.faults.saturating_add(1);
        Err(EdgeErr::Failed)
    }
}

/// The files of a folder of the system. It tells nothing of what the files hold. The file that `create`
/// made last stays open, so that what is appended to its path goes into that file, whatever the path
/// names by then. Contracts see it as the numbers of faults so far, at reads and at writes. Each error of
/// the system is a fault, but for that of a `fetch` where the system finds no file. A write that takes no
/// byte where there are some is a fault too.
#[derive(Drop)]
pub struct DirFiles<R: rt::Files> {
    system: R,
    created: Option<Created<R::File>>,
    read_faults: u64,
    write_faults: u64,
}

/// The bytes of the longest path that the system takes, and one more.
const PATH_ROOM: usize = 4096;

// A file that was created, and stays open. Its path is kept without memory that could be refused.
#[derive(Drop)]
struct Created<F> {
    path: [u8; PATH_ROOM],
    length: usize,
    file: F,
}

impl<F: Drop> Created<F> {
    // The file that was created at a path, where there is room for that.
    fn at(path: &str, file: F) -> Option<Created<F>> {
        let length = path.len();
        let mut kept = [0; PATH_ROOM];
        if length > PATH_ROOM {
            return None;
        }
        kept[..length].copy_from_slice(path.as_bytes());
        Some(Created {
            path: kept,
            length,
            file,
        })
    }

    // Whether this is the path at which the file was created.
    fn is_at(&self, path: &str) -> bool {
        self.path.get(..self.length) == Some(path.as_bytes())
    }
}

impl<R: rt::Files> Model for DirFiles<R> {
    ghost use Rattle.io_edge.specs.Folder.{FolderFaults};

    ghost Value = { FolderFaults };

    ghost view = { λ s. record { reads = s.read_faults; writes = s.write_faults } };
}

impl<R: rt::Files> DirFiles<R> {
    /// The files that `system` has. A path that is not absolute begins in the folder that the program
    /// runs in.
    pub fn new(system: R) -> DirFiles<R>
        ensures { result ≡ record { reads = 0; writes = 0 } }
    {
        DirFiles {
            system,
            created: None,
            read_faults: 0,
            write_faults: 0,
        }
    }
}

impl<R: rt::Files> Files for DirFiles<R> {
    ghost tells = { λ _. false };

    ghost paths = { λ _ _. None };

    ghost read_faults = { λ faults. faults.reads };

    ghost write_faults = { λ faults. faults.writes };

    /// Reads from the folder that the program runs in, and from nowhere beside it: a path that is absolute,
    /// or has a part `..`, is missing. A link in the folder is followed. The length is looked at before the
    /// first read, and at most one byte past the limit is read. A folder at `path` is a fault.
    fn fetch(&mut self, alloc: Global, path: &str, limit: u64) -> Result<Fetched, EdgeErr>
        ensures within { IfOk result (λ fetched. IsWithin limit fetched) }
        ensures outside { IsTrue (leads_out path.now) → result ≡ Ok Fetched.Missing }
        ensures later { self.old.reads ≤ self.new.reads }
        ensures cause { IsErrOf result EdgeErr.Failed → Rose self.old.reads self.new.reads }
        ensures counted { self.new.reads ≡ count_faults self.old.reads (is_fault result) }
        ensures writes { self.new.writes ≡ self.old.writes }
    {
        if leads_out(path) {
            return Ok(Fetched::Missing);
        }
        match fetch_file(alloc, &self.system, path, limit) {
            Ok(fetched) => Ok(fetched),
            Err(EdgeErr::Failed) => {
                self.read_faults = self.read_faults.saturating_add(1);
                Err(EdgeErr::Failed)
            }
            Err(EdgeErr::NoMemory) => Err(EdgeErr::NoMemory),
        }
    }

    /// Keeps the file open, and lets go of the one before.
    fn create(&mut self, path: &str) -> Result<(), EdgeErr>
        ensures later { self.old.writes ≤ self.new.writes }
        ensures cause { IsErrOf result EdgeErr.Failed → Rose self.old.writes self.new.writes }
        ensures failed { IfErr result (λ e. e ≡ EdgeErr.Failed) }
        ensures counted { self.new.writes ≡ count_faults self.old.writes (is_err result) }
        ensures reads { self.new.reads ≡ self.old.reads }
    {
        if let Ok(file) = File::create(&self.system, path) {
            self.created = Created::at(path, file);
            return Ok(());
        }
        self.write_faults = self.write_faults.saturating_add(1);
        Err(EdgeErr::Failed)
    }

    fn append(&mut self, path: &str, piece: &[u8]) -> Result<usize, EdgeErr>
        ensures within { IfOk result (λ n. n ≤ length piece.now) }
        ensures some { IfOk result (λ n. 0 < length piece.now → 0 < n) }
        ensures later { self.old.writes ≤ self.new.writes }
        ensures cause { IsErrOf result EdgeErr.Failed → Rose self.old.writes self.new.writes }
        ensures failed { IfErr result (λ e. e ≡ EdgeErr.Failed) }
        ensures counted { self.new.writes ≡ count_faults self.old.writes (is_err result) }
        ensures reads { self.new.reads ≡ self.old.reads }
    {
        let written = match &mut self.created {
            Some(created) if created.is_at(path) => write_through(&mut created.file, piece),
            _ => append_through(&self.system, path, piece),
        };
        if let Some(count) = written {
            return Ok(count);
        }
        self.write_faults = self.write_faults.saturating_add(1);
        Err(EdgeErr::Failed)
    }
}

// Writes some bytes of the piece at the end of the file at `path`, which is made where there is none.
fn append_through<R: rt::Files>(system: &R, path: &str, piece: &[u8]) -> Option<usize>
    ensures within { IfSome result (λ n. n ≤ length piece.now) }
    ensures some { IfSome result (λ n. 0 < length piece.now → 0 < n) }
{
    let mut file = OpenOptions::new()
        .create(true)
        .append(true)
        .open(system, path)
        .ok()?;
    write_through(&mut file, piece)
}

// Writes some bytes of the piece and flushes them, and gives their number. `None` where the system
// fails, and where it takes none of a piece that is not empty.
fn write_through<W: Write>(writer: &mut W, piece: &[u8]) -> Option<usize>
    ensures within { IfSome result (λ n. n ≤ length piece.now) }
    ensures some { IfSome result (λ n. 0 < length piece.now → 0 < n) }
    ensures bytes { IfSome result (λ n. Appends (W.contents writer.old) (W.contents writer.new) (take n piece.now)) }
{
    let count = writer.write(piece).ok()?;
    writer.flush().ok()?;
    if count == 0 && !piece.is_empty() {
        return None;
    }
    Some(count)
}
