ghost use Rattle.std.specs.Prelude.{◌≡◌, ◌<◌, ◌≤◌, ◌^◌, ℕ, List, IsTrue, length, IfOk, OnOk, OnErr, IsErrOf};
ghost use Rattle.std.specs.Io.KnownBytes.{Appends, IsAtEnd};
ghost use Rattle.io_edge.specs.Faults.{Rose};
ghost use Rattle.io_edge.specs.Paths.{AppendsWhole, AppendsPart};
ghost use Rattle.io_edge.specs.Told.{IsToldAs, AppendsProperFront};

use crate::errors::{EdgeErr, ReadErr};
use crate::files::Files;
use crate::sink::Sink;
use crate::source::Source;
use std::alloc::Global;
use wa_base::Bytes;

const PIECE: usize = 65_536;

/// Reads a source to its end, in turns that take at least one byte each but for the one that finds
/// the end. `TooLong` comes as soon as more than `limit` bytes were read.
pub fn read_all<S: Source>(alloc: Global, source: &mut S, limit: usize) -> Result<Bytes, ReadErr>
    requires { limit < 2 ^ 62 }
    ensures all { IfOk result (λ bytes. IsToldAs (S.left source.old) bytes × (length bytes ≤ limit)) }
    ensures at_end { OnOk result (IsAtEnd (S.left source.new)) }
    ensures too_long { IsErrOf result ReadErr.TooLong → (bytes : List ℕ) × IsToldAs (S.left source.old) bytes × (limit < length bytes) }
    ensures later { S.faults source.old ≤ S.faults source.new }
    ensures cause { IsErrOf result ReadErr.Failed → Rose (S.faults source.old) (S.faults source.new) }
{
    let mut bytes = Vec::new(alloc);
    let mut piece = [0u8; PIECE];
    for _ in 0..limit + 1 {
        let n = match source.read(&mut piece) {
            Ok(n) => n,
            Err(_) => return Err(ReadErr::Failed),
        };
        if n == 0 {
            return Ok(Bytes::from(bytes));
        }
        if bytes.extend_from_slice(&piece[..n]).is_err() {
            return Err(ReadErr::NoMemory);
        }
        if bytes.len() > limit {
            return Err(ReadErr::TooLong);
        }
    }
    Err(ReadErr::TooLong)
}

/// Writes a whole text, in as many writes as the sink needs.
pub fn write_all<T: Sink>(sink: &mut T, text: &[u8]) -> Result<(), EdgeErr>
    ensures all { OnOk result (Appends (T.written sink.old) (T.written sink.new) text.now) }
    ensures part { OnErr result (AppendsProperFront (T.written sink.old) (T.written sink.new) text.now) }
    ensures later { T.faults sink.old ≤ T.faults sink.new }
    ensures cause { IsErrOf result EdgeErr.Failed → Rose (T.faults sink.old) (T.faults sink.new) }
{
    let mut at = 0;
    while at < text.len() {
        at += sink.write(&text[at..])?;
    }
    Ok(())
}

/// Adds all bytes to the end of a file, in as many appends as the store needs, none where there is no
/// byte. A path that is missing counts as an empty file.
pub fn append_all<F: Files>(files: &mut F, path: &str, bytes: &[u8]) -> Result<(), EdgeErr>
    ensures tells { F.tells files.new ≡ F.tells files.old }
    ensures all { OnOk result (IsTrue (F.tells files.old) → AppendsWhole (F.paths files.old) (F.paths files.new) path.now bytes.now) }
    ensures part { OnErr result (IsTrue (F.tells files.old) → AppendsPart (F.paths files.old) (F.paths files.new) path.now bytes.now) }
    ensures reads { F.read_faults files.new ≡ F.read_faults files.old }
    ensures later { F.write_faults files.old ≤ F.write_faults files.new }
    ensures cause { IsErrOf result EdgeErr.Failed → Rose (F.write_faults files.old) (F.write_faults files.new) }
{
    let mut at = 0;
    while at < bytes.len() {
        at += files.append(path, &bytes[at..])?;
    }
    Ok(())
}
