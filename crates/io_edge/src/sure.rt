ghost use Rattle.std.specs.Prelude.{◌≡◌, ◌≤◌, ◌<◌, ◌++◌, ℕ, List, Some, [], true, length, min, take, drop, IsOk, IfOk, IfErr, OnOk, OnErr, IsTrue, false, is_some, option_map};
ghost use Rattle.std.specs.Io.KnownBytes.{ReadConsumes, WriteAppends};
ghost use Rattle.std.specs.FinMap as finite;
ghost use Rattle.io_edge.specs.Fetch.{IsWithin, IsFetchedOf, fetched_of};
ghost use Rattle.io_edge.specs.FileMap.{paths_of};
ghost use Rattle.io_edge.specs.Paths.{Sets, bytes_at};

use crate::errors::{EdgeErr, Failed};
use crate::files::{Fetched, Files};
use crate::sink::Sink;
use crate::source::Source;
use std::alloc::{AllocError, Global};
use std::collections::BTreeMap;
use std::marker::Model;
use wa_base::{Bytes, NoMemory};

/// A source in memory. No read fails, and each gives all that is left and has room. Contracts see it
/// as the bytes that are left.
#[derive(Drop)]
pub struct SureSource {
    bytes: Bytes,
    at: usize,
}

impl Model for SureSource {
    ghost Value = { List ℕ };

    ghost view = { λ s. drop s.at s.bytes };

    ghost invariant = { λ s. s.at ≤ length s.bytes };
}

impl SureSource {
    /// A source of these bytes.
    pub fn new(bytes: Bytes) -> SureSource
        ensures { result ≡ bytes }
    {
        SureSource { bytes, at: 0 }
    }

    // Moves as many bytes as there are into the front of `buf`, and gives their number.
    pub(crate) fn take_into(&mut self, buf: &mut [u8]) -> usize
        ensures count { result ≡ min (length buf.old) (length self.old) }
        ensures bytes { take result buf.new ≡ take result self.old }
        ensures left { self.new ≡ drop result self.old }
    {
        let rest = &self.bytes.as_slice()[self.at..];
        let count = buf.len().min(rest.len());
        buf[..count].copy_from_slice(&rest[..count]);
        self.at += count;
        count
    }
}

impl Source for SureSource {
    ghost left = { λ s. Some s };

    ghost faults = { λ _. 0 };

    fn read(&mut self, buf: &mut [u8]) -> Result<usize, Failed>
        ensures within { IfOk result (λ n. n ≤ length buf.new) }
        ensures bytes { ReadConsumes (Some self.old) (Some self.new) result buf.new }
        ensures sure { IsOk result }
        ensures count { IfOk result (λ n. n ≡ min (length buf.old) (length self.old)) }
    {
        Ok(self.take_into(buf))
    }
}

/// A sink in memory. Each write takes the whole piece, and only want of memory stops one. Contracts see
/// it as the bytes that were written.
#[derive(Drop)]
pub struct SureSink {
    bytes: Vec<u8>,
}

impl Model for SureSink {
    ghost Value = { List ℕ };

    ghost view = { λ s. s.bytes.items };
}

impl SureSink {
    /// A sink that nothing was written to.
    pub fn new(alloc: Global) -> SureSink
        ensures { result ≡ [] }
    {
        SureSink {
            bytes: Vec::new(alloc),
        }
    }

    /// The bytes that were written.
    pub fn written(&self) -> &[u8]
        ensures { result.now ≡ self.now }
    {
        self.bytes.as_slice()
    }
}

impl Sink for SureSink {
    ghost written = { λ s. Some s };

    ghost faults = { λ _. 0 };

    fn write(&mut self, piece: &[u8]) -> Result<usize, EdgeErr>
        ensures within { IfOk result (λ n. n ≤ length piece.now) }
        ensures some { IfOk result (λ n. 0 < length piece.now → 0 < n) }
        ensures bytes { WriteAppends (Some self.old) (Some self.new) result piece.now }
        ensures sure { IfErr result (λ e. e ≡ EdgeErr.NoMemory) }
        ensures count { IfOk result (λ n. n ≡ length piece.now) }
    {
        self.bytes.extend_from_slice(piece)?;
        Ok(piece.len())
    }
}

/// Files in memory. No call fails but for want of memory, and an append takes the whole piece.
/// Contracts see them as the map from paths to what their files hold.
#[derive(Drop)]
pub struct SureFiles {
    alloc: Global,
    entries: BTreeMap<String, Vec<u8>>,
}

impl Model for SureFiles {
    ghost use Rattle.io_edge.specs.FileMap.{FileMap, file_map_code, file_map};

    ghost Value = { FileMap };

    ghost coded = { file_map_code };

    ghost view = { λ s. file_map s.entries };
}

impl SureFiles {
    /// A store with no file.
    pub fn new(alloc: Global) -> SureFiles
        ensures { result ≡ finite.empty }
    {
        SureFiles {
            alloc,
            entries: BTreeMap::new(alloc),
        }
    }

    /// Makes the file at `path` hold these bytes, in place of what it held. After `NoMemory` nothing
    /// changed.
    pub fn put(&mut self, path: &str, bytes: Bytes) -> Result<(), NoMemory>
        ensures ok { OnOk result (Sets (paths_of self.old) (paths_of self.new) path.now bytes) }
        ensures err { OnErr result (self.new ≡ self.old) }
    {
        self.set(path, Vec::from(bytes))?;
        Ok(())
    }

    /// What the file at `path` holds, `None` where there is no file.
    pub fn get(&self, path: &str) -> Option<&[u8]>
        ensures { option_map (λ b. b.now) result ≡ paths_of self.now path.now }
    {
        match self.entries.get(path) {
            Some(contents) => Some(contents.as_slice()),
            None => None,
        }
    }

    // Makes the file at `path` hold these bytes.
    fn set(&mut self, path: &str, contents: Vec<u8>) -> Result<(), AllocError>
        ensures ok { OnOk result (Sets (paths_of self.old) (paths_of self.new) path.now contents.items) }
        ensures err { OnErr result (self.new ≡ self.old) }
    {
        let key = String::from_str(self.alloc, path)?;
        self.entries.insert(key, contents)?;
        Ok(())
    }

    // Adds the piece to the end of the file at `path`, and says whether there is one.
    fn extend(&mut self, path: &str, piece: &[u8]) -> Result<bool, AllocError>
        ensures found { IfOk result (λ found. found ≡ is_some (paths_of self.old path.now)) }
        ensures added { IfOk result (λ found. IsTrue found
            → Sets (paths_of self.old) (paths_of self.new) path.now (bytes_at (paths_of self.old) path.now ++ piece.now)) }
        ensures missing { IfOk result (λ found. found ≡ false → self.new ≡ self.old) }
        ensures err { OnErr result (self.new ≡ self.old) }
    {
        let Some(contents) = self.entries.get_mut(path) else {
            return Ok(false);
        };
        contents.extend_from_slice(piece)?;
        Ok(true)
    }
}

impl Files for SureFiles {
    ghost tells = { λ _. true };

    ghost paths = { paths_of };

    ghost read_faults = { λ _. 0 };

    ghost write_faults = { λ _. 0 };

    fn fetch(&mut self, alloc: Global, path: &str, limit: u64) -> Result<Fetched, EdgeErr>
        ensures same { self.new ≡ self.old }
        ensures within { IfOk result (λ fetched. IsWithin limit fetched) }
        ensures found { IfOk result (λ fetched. IsFetchedOf (paths_of self.old path.now) fetched) }
        ensures whole { IfOk result (λ fetched. fetched ≡ fetched_of limit (paths_of self.old path.now)) }
        ensures sure { IfErr result (λ e. e ≡ EdgeErr.NoMemory) }
    {
        let Some(contents) = self.get(path) else {
            return Ok(Fetched::Missing);
        };
        let count = contents.len() as u64;
        if count > limit {
            return Ok(Fetched::TooLong(count));
        }
        Ok(Fetched::Bytes(Bytes::from(contents.to_vec(alloc)?)))
    }

    fn create(&mut self, path: &str) -> Result<(), EdgeErr>
        ensures made { OnOk result (Sets (paths_of self.old) (paths_of self.new) path.now []) }
        ensures err { OnErr result (self.new ≡ self.old) }
        ensures sure { IfErr result (λ e. e ≡ EdgeErr.NoMemory) }
    {
        self.set(path, Vec::new(self.alloc))?;
        Ok(())
    }

    fn append(&mut self, path: &str, piece: &[u8]) -> Result<usize, EdgeErr>
        ensures added { OnOk result (Sets (paths_of self.old) (paths_of self.new) path.now (bytes_at (paths_of self.old) path.now ++ piece.now)) }
        ensures count { IfOk result (λ n. n ≡ length piece.now) }
        ensures err { OnErr result (self.new ≡ self.old) }
        ensures sure { IfErr result (λ e. e ≡ EdgeErr.NoMemory) }
    {
        if !self.extend(path, piece)? {
            self.set(path, piece.to_vec(self.alloc)?)?;
        }
        Ok(piece.len())
    }
}
