use io_edge::{MemFiles, MemSink, MemSource};
use replay_top::{Status, run};
use std::alloc::{AllocError, Global};
use wa_base::{Bytes, NoMemory};

/// The numbers of the calls that fail; 0 is no call.
#[derive(Clone, Copy, Debug)]
pub struct Failing {
    pub read: u64,
    pub write: u64,
    pub fetch: u64,
    pub append: u64,
}

/// No call fails.
pub const NONE: Failing = Failing {
    read: 0,
    write: 0,
    fetch: 0,
    append: 0,
};

/// What a run left.
#[derive(Drop)]
pub struct Left {
    pub status: Status,
    pub text: Vec<u8>,
    pub file: Option<Vec<u8>>,
}

// The asset in the folder, of one channel, 48,000 frames a second and 16 bits: the frames 0.5 and -0.5.
const TWO_FRAMES: [u8; 48] = [
    0x52, 0x49, 0x46, 0x46, 0x28, 0x00, 0x00, 0x00, 0x57, 0x41, 0x56, 0x45, 0x66, 0x6d, 0x74, 0x20,
    0x10, 0x00, 0x00, 0x00, 0x01, 0x00, 0x01, 0x00, 0x80, 0xbb, 0x00, 0x00, 0x00, 0x77, 0x01, 0x00,
    0x02, 0x00, 0x10, 0x00, 0x64, 0x61, 0x74, 0x61, 0x04, 0x00, 0x00, 0x00, 0x00, 0x40, 0x00, 0xc0,
];

// What a run reads and writes: all of it in memory.
#[derive(Drop)]
struct Edge {
    source: MemSource,
    files: MemFiles,
    sink: MemSink,
}

// The source gives seven bytes a read, and the sink takes four a write.
fn edge_of(alloc: Global, script: &[u8]) -> Result<Edge, NoMemory> {
    let script = Bytes::from(script.to_vec(alloc)?);
    Ok(Edge {
        source: MemSource::new(alloc, script, 7),
        files: MemFiles::new(alloc),
        sink: MemSink::new(alloc, 4),
    })
}

fn prepare(alloc: Global, edge: &mut Edge, failing: Failing) -> Result<(), NoMemory> {
    edge.source.fail(failing.read)?;
    edge.files.fail_fetch(failing.fetch)?;
    edge.files.fail_append(failing.append)?;
    edge.sink.fail(failing.write)?;
    edge.files.put("two.wav", Bytes::from(TWO_FRAMES.as_slice().to_vec(alloc)?))
}

fn words_of(alloc: Global) -> Result<Vec<String>, AllocError> {
    let mut words = Vec::new(alloc);
    words.push(String::from_str(alloc, "out.wav")?)?;
    Ok(words)
}

fn out_of(alloc: Global, files: &MemFiles) -> Result<Option<Vec<u8>>, AllocError> {
    match files.get("out.wav") {
        Some(bytes) => Ok(Some(bytes.to_vec(alloc)?)),
        None => Ok(None),
    }
}

fn left_by(alloc: Global, edge: &mut Edge, failing: Failing) -> Result<Left, NoMemory> {
    prepare(alloc, edge, failing)?;
    let words = words_of(alloc)?;
    let status = run(
        alloc,
        words.as_slice(),
        &mut edge.source,
        &mut edge.files,
        &mut edge.sink,
    );
    Ok(Left {
        status,
        text: edge.sink.written().to_vec(alloc)?,
        file: out_of(alloc, &edge.files)?,
    })
}

/// What a run of this script and these faults left, where the asset two.wav stands in the folder.
pub fn replay(alloc: Global, script: &str, failing: Failing) -> Result<Left, NoMemory> {
    let mut edge = edge_of(alloc, script.as_bytes())?;
    let left = left_by(alloc, &mut edge, failing);
    drop(edge);
    left
}
