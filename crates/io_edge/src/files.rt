ghost use Rattle.std.specs.Prelude.{◌≡◌, ◌≤◌, ◌<◌, ◌++◌, ℕ, List, [], Bool, IsTrue, length, take, IfOk, OnOk, OnErr, IsErrOf};
ghost use Rattle.io_edge.specs.Faults.{Rose};
ghost use Rattle.io_edge.specs.Fetch.{IsWithin, IsFetchedOf};
ghost use Rattle.io_edge.specs.Paths.{Paths, Sets, SamePaths, AppendsPart, bytes_at};

use crate::errors::EdgeErr;
use std::alloc::Global;
use wa_base::Bytes;

/// What a store has at a path, within a limit.
#[derive(Drop)]
pub enum Fetched {
    /// All bytes of the file.
    Bytes(Bytes),
    /// There is no file.
    Missing,
    /// The file is longer than the limit. It has at least so many bytes, and they are more than the limit.
    TooLong(u64),
}

/// A store of files by their paths.
pub trait Files {
    /// Whether the store tells what its files hold.
    ghost tells: { Self → Bool };

    /// What each path holds, where the store tells it.
    ghost paths: { Self → Paths };

    /// How many reads of files failed so far.
    ghost read_faults: { Self → ℕ };

    /// How many writes failed so far.
    ghost write_faults: { Self → ℕ };

    /// Reads the file at `path` to its end, where it has at most `limit` bytes. No file changes.
    fn fetch(&mut self, alloc: Global, path: &str, limit: u64) -> Result<Fetched, EdgeErr>
        ensures tells { tells self.new ≡ tells self.old }
        ensures same { IsTrue (tells self.old) → SamePaths (paths self.old) (paths self.new) }
        ensures within { IfOk result (λ fetched. IsWithin limit fetched) }
        ensures found { IfOk result (λ fetched. IsTrue (tells self.old) → IsFetchedOf (paths self.old path.now) fetched) }
        ensures later { read_faults self.old ≤ read_faults self.new }
        ensures cause { IsErrOf result EdgeErr.Failed → Rose (read_faults self.old) (read_faults self.new) }
        ensures writes { write_faults self.new ≡ write_faults self.old };

    /// Makes the file at `path` an empty one, whether or not there was one.
    fn create(&mut self, path: &str) -> Result<(), EdgeErr>
        ensures tells { tells self.new ≡ tells self.old }
        ensures made { OnOk result (IsTrue (tells self.old) → Sets (paths self.old) (paths self.new) path.now []) }
        ensures err { OnErr result (IsTrue (tells self.old) → SamePaths (paths self.old) (paths self.new)) }
        ensures reads { read_faults self.new ≡ read_faults self.old }
        ensures later { write_faults self.old ≤ write_faults self.new }
        ensures cause { IsErrOf result EdgeErr.Failed → Rose (write_faults self.old) (write_faults self.new) };

    /// Adds some bytes from the front of `piece` to the end of the file at `path`, at least one where
    /// there is one, and gives their number. A path that is missing counts as an empty file. After an
    /// error the file may hold a front part of the piece more than before.
    fn append(&mut self, path: &str, piece: &[u8]) -> Result<usize, EdgeErr>
        ensures tells { tells self.new ≡ tells self.old }
        ensures within { IfOk result (λ n. n ≤ length piece.now) }
        ensures some { IfOk result (λ n. 0 < length piece.now → 0 < n) }
        ensures added { IfOk result (λ n. IsTrue (tells self.old)
            → Sets (paths self.old) (paths self.new) path.now (bytes_at (paths self.old) path.now ++ take n piece.now)) }
        ensures err { OnErr result (IsTrue (tells self.old) → AppendsPart (paths self.old) (paths self.new) path.now piece.now) }
        ensures reads { read_faults self.new ≡ read_faults self.old }
        ensures later { write_faults self.old ≤ write_faults self.new }
        ensures cause { IsErrOf result EdgeErr.Failed → Rose (write_faults self.old) (write_faults self.new) };
}
