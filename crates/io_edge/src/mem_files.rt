ghost use Rattle.std.specs.Prelude.{◌≡◌, ◌≤◌, ◌<◌, ◌↔◌, ◌++◌, [], true, false, length, take, min, option_map, IsErrOf, IfOk, OnOk, OnErr, IsTrue};
ghost use Rattle.io_edge.specs.Faults.{Rose};
ghost use Rattle.io_edge.specs.Fetch.{IsWithin, IsFetchedOf, fetched_of};
ghost use Rattle.io_edge.specs.FileMap.{paths_of};
ghost use Rattle.io_edge.specs.MemStore.{failed_writes, no_files};
ghost use Rattle.io_edge.specs.Paths.{Sets, AppendsPart, bytes_at};
ghost use Rattle.io_edge.specs.Plan.{with_failing, fails_next, after_call};

use crate::errors::EdgeErr;
use crate::files::{Fetched, Files};
use crate::memory::CallPlan;
use crate::sure::SureFiles;
use std::alloc::Global;
use std::marker::Model;
use wa_base::{Bytes, NoMemory};

/// Files in memory whose calls of `fetch`, of `create` and of `append` fail where they were told to. A
/// `fetch` or a `create` that fails changes no file. An `append` takes a few bytes, and one that fails
/// leaves a few. Contracts see the map from paths to what their files hold, the plans of the calls of
/// `fetch`, of `create` and of `append`, each with its own count, the greatest count of bytes per `append`,
/// and how many a failing one leaves.
#[derive(Drop)]
pub struct MemFiles {
    files: SureFiles,
    fetches: CallPlan,
    creates: CallPlan,
    appends: CallPlan,
    most: u64,
    kept: u64,
}

impl Model for MemFiles {
    ghost use Rattle.std.specs.Prelude.{◌≤◌};
    ghost use Rattle.io_edge.specs.MemStore.{MemStore, mem_store_code};

    ghost Value = { MemStore };

    ghost coded = { mem_store_code };

    ghost view = { λ s. record { files = s.files; fetches = s.fetches; creates = s.creates; appends = s.appends; most = s.most; kept = s.kept } };

    ghost invariant = { λ s. 1 ≤ s.most };
}

impl MemFiles {
    /// A store with no file. No call is to fail, and an `append` takes the whole piece.
    pub fn new(alloc: Global) -> MemFiles
        ensures { result ≡ no_files }
    {
        MemFiles {
            files: SureFiles::new(alloc),
            fetches: CallPlan::new(alloc),
            creates: CallPlan::new(alloc),
            appends: CallPlan::new(alloc),
            most: u64::MAX,
            kept: 0,
        }
    }

    /// Makes the file at `path` hold these bytes, in place of what it held. This counts as no call.
    /// After `NoMemory` nothing changed.
    pub fn put(&mut self, path: &str, bytes: Bytes) -> Result<(), NoMemory>
        ensures ok { OnOk result (Sets (paths_of self.old.files) (paths_of self.new.files) path.now bytes) }
        ensures fetches { self.new.fetches ≡ self.old.fetches }
        ensures creates { self.new.creates ≡ self.old.creates }
        ensures appends { self.new.appends ≡ self.old.appends }
        ensures most { self.new.most ≡ self.old.most }
        ensures kept { self.new.kept ≡ self.old.kept }
        ensures err { OnErr result (self.new ≡ self.old) }
    {
        self.files.put(path, bytes)
    }

    /// What the file at `path` holds, `None` where there is no file.
    pub fn get(&self, path: &str) -> Option<&[u8]>
        ensures { option_map (λ b. b.now) result ≡ paths_of self.now.files path.now }
    {
        self.files.get(path)
    }

    /// Makes the `fetch` with this number, counted from 1, fail. After `NoMemory` nothing changed.
    pub fn fail_fetch(&mut self, call: u64) -> Result<(), NoMemory>
        ensures ok { OnOk result (self.new ≡ record self.old { fetches = with_failing self.old.fetches call }) }
        ensures err { OnErr result (self.new ≡ self.old) }
    {
        self.fetches.fail(call)
    }

    /// Makes the `create` with this number, counted from 1, fail. After `NoMemory` nothing changed.
    pub fn fail_create(&mut self, call: u64) -> Result<(), NoMemory>
        ensures ok { OnOk result (self.new ≡ record self.old { creates = with_failing self.old.creates call }) }
        ensures err { OnErr result (self.new ≡ self.old) }
    {
        self.creates.fail(call)
    }

    /// Makes the `append` with this number, counted from 1, fail. After `NoMemory` nothing changed.
    pub fn fail_append(&mut self, call: u64) -> Result<(), NoMemory>
        ensures ok { OnOk result (self.new ≡ record self.old { appends = with_failing self.old.appends call }) }
        ensures err { OnErr result (self.new ≡ self.old) }
    {
        self.appends.fail(call)
    }

    /// From now on an `append` takes at most `most` bytes, and one that fails leaves the first `kept`
    /// bytes of its piece, or the whole piece where it is shorter.
    pub fn set_append(&mut self, most: u64, kept: u64)
        requires { 1 ≤ most }
        ensures { self.new ≡ record self.old { most = most; kept = kept } }
    {
        self.most = most;
        self.kept = kept;
    }
}

impl Files for MemFiles {
    ghost tells = { λ _. true };

    ghost paths = { λ s. paths_of s.files };

    ghost read_faults = { λ s. s.fetches.faults };

    ghost write_faults = { failed_writes };

    fn fetch(&mut self, alloc: Global, path: &str, limit: u64) -> Result<Fetched, EdgeErr>
        ensures files { self.new.files ≡ self.old.files }
        ensures within { IfOk result (λ fetched. IsWithin limit fetched) }
        ensures found { IfOk result (λ fetched. IsFetchedOf (paths_of self.old.files path.now) fetched) }
        ensures whole { IfOk result (λ fetched. fetched ≡ fetched_of limit (paths_of self.old.files path.now)) }
        ensures later { self.old.fetches.faults ≤ self.new.fetches.faults }
        ensures cause { IsErrOf result EdgeErr.Failed → Rose self.old.fetches.faults self.new.fetches.faults }
        ensures failed { IsErrOf result EdgeErr.Failed ↔ IsTrue (fails_next self.old.fetches) }
        ensures counted { self.new.fetches ≡ after_call self.old.fetches }
        ensures creates { self.new.creates ≡ self.old.creates }
        ensures appends { self.new.appends ≡ self.old.appends }
        ensures most { self.new.most ≡ self.old.most }
        ensures kept { self.new.kept ≡ self.old.kept }
    {
        if self.fetches.next_fails() {
            return Err(EdgeErr::Failed);
        }
        self.files.fetch(alloc, path, limit)
    }

    fn create(&mut self, path: &str) -> Result<(), EdgeErr>
        ensures made { OnOk result (Sets (paths_of self.old.files) (paths_of self.new.files) path.now []) }
        ensures err { OnErr result (self.new.files ≡ self.old.files) }
        ensures later { failed_writes self.old ≤ failed_writes self.new }
        ensures cause { IsErrOf result EdgeErr.Failed → Rose (failed_writes self.old) (failed_writes self.new) }
        ensures failed { IsErrOf result EdgeErr.Failed ↔ IsTrue (fails_next self.old.creates) }
        ensures counted { self.new.creates ≡ after_call self.old.creates }
        ensures fetches { self.new.fetches ≡ self.old.fetches }
        ensures appends { self.new.appends ≡ self.old.appends }
        ensures most { self.new.most ≡ self.old.most }
        ensures kept { self.new.kept ≡ self.old.kept }
    {
        if self.creates.next_fails() {
            return Err(EdgeErr::Failed);
        }
        self.files.create(path)
    }

    /// Where memory for the bytes that a failing call leaves is refused, it answers `NoMemory`, and the
    /// files stay as they were.
    fn append(&mut self, path: &str, piece: &[u8]) -> Result<usize, EdgeErr>
        ensures added { IfOk result (λ n. Sets (paths_of self.old.files) (paths_of self.new.files) path.now
            (bytes_at (paths_of self.old.files) path.now ++ take n piece.now)) }
        ensures some { IfOk result (λ n. 0 < length piece.now → 0 < n) }
        ensures count { IfOk result (λ n. n ≡ min (length piece.now) self.old.most) }
        ensures left { IsErrOf result EdgeErr.Failed → 0 < length (take self.old.kept piece.now)
            → Sets (paths_of self.old.files) (paths_of self.new.files) path.now
            (bytes_at (paths_of self.old.files) path.now ++ take self.old.kept piece.now) }
        ensures none_left { IsErrOf result EdgeErr.Failed → take self.old.kept piece.now ≡ [] → self.new.files ≡ self.old.files }
        ensures err { OnErr result (AppendsPart (paths_of self.old.files) (paths_of self.new.files) path.now piece.now) }
        ensures memory { IsErrOf result EdgeErr.NoMemory → self.new.files ≡ self.old.files }
        ensures later { failed_writes self.old ≤ failed_writes self.new }
        ensures cause { IsErrOf result EdgeErr.Failed → Rose (failed_writes self.old) (failed_writes self.new) }
        ensures failed { IsErrOf result EdgeErr.Failed → IsTrue (fails_next self.old.appends) }
        ensures done { OnOk result (fails_next self.old.appends ≡ false) }
        ensures at_once { take self.old.kept piece.now ≡ [] → IsTrue (fails_next self.old.appends) → IsErrOf result EdgeErr.Failed }
        ensures counted { self.new.appends ≡ after_call self.old.appends }
        ensures fetches { self.new.fetches ≡ self.old.fetches }
        ensures creates { self.new.creates ≡ self.old.creates }
        ensures most { self.new.most ≡ self.old.most }
        ensures kept { self.new.kept ≡ self.old.kept }
    {
        if self.appends.next_fails() {
            let left = piece.len().min(self.kept as usize);
            if left > 0 {
                self.files.append(path, &piece[..left])?;
            }
            return Err(EdgeErr::Failed);
        }
        let count = piece.len().min(self.most as usize);
        self.files.append(path, &piece[..count])
    }
}
