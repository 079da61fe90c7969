//! Reads WAV files from the standard input, each after its length in four bytes, the lowest first, and
//! writes a line for each: the rate, the channels, the frames and a digest of the samples, or the fault
//! with its place. Status 0, or 1 where reading or writing failed or memory ran out.
#![tactic(auto)]

ghost use Rattle.std.specs.Prelude.{◌≡◌, ◌+◌, ◌<◌, ◌++◌, length, drop, IfSome};

use byteorder::{ByteOrder, LittleEndian};
use io_edge::{EdgeErr, ReadSource, Sink, Source, WriteSink, read_all, write_all};
use std::alloc::{AllocError, Global};
use std::process::ExitCode;
use wav_io::decode;

const LEN_BYTES: usize = 4;

/// The most bytes that are read.
const LIMIT: usize = 1_073_741_824;

/// What the digest is multiplied by before a sample is added, modulo 2^64.
const FACTOR: u64 = 6_364_136_223_846_793_005;

fn main(rt: HostRuntime) -> ExitCode {
    let mut source = ReadSource::new(rt.stdin());
    let mut sink = WriteSink::new(rt.stdout());
    match dump(rt.alloc(), &mut source, &mut sink) {
        Ok(()) => ExitCode::SUCCESS,
        Err(_) => ExitCode::FAILURE,
    }
}

fn dump<S: Source, T: Sink>(alloc: Global, source: &mut S, sink: &mut T) -> Result<(), EdgeErr> {
    let Ok(files) = read_all(alloc, source, LIMIT) else {
        return Err(EdgeErr::Failed);
    };
    let mut rest = files.as_slice();
    'files: while let Some((file, more)) = next_file(rest) {
        let line = line_of(alloc, file)?;
        write_all(sink, line.as_bytes())?;
        rest = more;
    }
    Ok(())
}

// The first file, and what comes after it. A file that is cut ends with the bytes.
fn next_file(rest: &[u8]) -> Option<(&[u8], &[u8])>
    ensures parts { IfSome result (λ parts. parts.0.now ++ parts.1.now ≡ drop 4 rest.now) }
    ensures fewer { IfSome result (λ parts. length parts.1.now < length rest.now) }
{
    if rest.len() < LEN_BYTES {
        return None;
    }
    let (len, rest) = rest.split_at(LEN_BYTES);
    let len = LittleEndian::read_u32(len) as usize;
    Some(rest.split_at(len.min(rest.len())))
}

fn line_of(alloc: Global, file: &[u8]) -> Result<String, AllocError> {
    match decode(alloc, file) {
        Ok(wav) => {
            let digest = digest_of(wav.samples.as_slice());
            let (rate, channels, frames) = (wav.rate, wav.channels, wav.frames);
            format!(in alloc; "{rate} {channels} {frames} {digest}\n")
        }
        Err(fault) => format!(in alloc; "{fault:?}\n"),
    }
}

fn digest_of(samples: &[i32]) -> u64 {
    samples.iter().fold(0, |digest: u64, sample| {
        digest
            .wrapping_mul(FACTOR)
            .wrapping_add(u64::from(sample.cast_unsigned()))
    })
}
