use crate::on_disk::files_here;
use io_edge::{
    EdgeErr, Failed, Files, MemFiles, MemSink, MemSource, ReadSource, Sink, Source, SureFiles,
    SureSink, SureSource, WriteSink, append_all, read_all,
};
use std::alloc::Global;
use std::test::Fail;
use wa_base::{Bytes, NoMemory};

// A function pays for each of its ends at which what it owns is let go. So a test makes a store, lends it,
// and gives it to `drop` before any error goes up.

pub(crate) fn bytes_of(alloc: Global, text: &[u8]) -> Result<Bytes, NoMemory> {
    Ok(Bytes::from(text.to_vec(alloc)?))
}

fn pass<S: Source, T: Sink>(source: &mut S, sink: &mut T) -> Result<usize, EdgeErr> {
    let mut buf = [0u8; 16];
    let count = source.read(&mut buf).map_err(|_| EdgeErr::Failed)?;
    sink.write(&buf[..count])
}

fn fails_at_its_second_read(source: &mut MemSource) -> Result<bool, NoMemory> {
    source.fail(2)?;
    let mut buf = [0u8; 16];
    Ok(
        source.read(&mut buf) == Ok(4)
            && source.read(&mut buf) == Err(Failed)
            && source.read(&mut buf) == Ok(2)
            && buf[..2] == b"pt"[..]
            && source.read(&mut buf) == Ok(0),
    )
}

#[test]
fn a_source_fails_at_its_second_read_only(rt: HostRuntime) -> Result<(), Fail> {
    let mut source = MemSource::new(rt.alloc(), bytes_of(rt.alloc(), b"script")?, 4);
    let fails = fails_at_its_second_read(&mut source);
    drop(source);
    assert!(rt; fails?);
    Ok(())
}

// Whether a source of six bytes, which come in two reads, is read to its end and then let be: the fourth
// read would fail.
fn is_read_to_its_end(alloc: Global, source: &mut MemSource) -> Result<bool, NoMemory> {
    source.fail(4)?;
    Ok(match read_all(alloc, source, 6) {
        Ok(bytes) => bytes.as_slice() == b"script".as_slice(),
        Err(_) => false,
    })
}

#[test]
fn a_source_is_not_read_behind_its_end(rt: HostRuntime) -> Result<(), Fail> {
    let mut source = MemSource::new(rt.alloc(), bytes_of(rt.alloc(), b"script")?, 4);
    let is_read = is_read_to_its_end(rt.alloc(), &mut source);
    drop(source);
    assert!(rt; is_read?);
    Ok(())
}

fn keeps_what_came_before(sink: &mut MemSink) -> Result<bool, NoMemory> {
    sink.fail(3)?;
    let text = b"RIFFWAVEdata".as_slice();
    Ok(
        sink.write(text) == Ok(4)
            && sink.write(&text[4..]) == Ok(4)
            && sink.write(&text[8..]) == Err(EdgeErr::Failed)
            && sink.written() == b"RIFFWAVE".as_slice(),
    )
}

#[test]
fn a_sink_keeps_what_came_before_the_fault(rt: HostRuntime) -> Result<(), Fail> {
    let mut sink = MemSink::new(rt.alloc(), 4);
    let kept = keeps_what_came_before(&mut sink);
    drop(sink);
    assert!(rt; kept?);
    Ok(())
}

// Whether the file at this path holds these bytes.
fn holds(files: &MemFiles, path: &str, want: &[u8]) -> bool {
    match files.get(path) {
        Some(bytes) => bytes == want,
        None => false,
    }
}

// Whether an append to the file at this path ends so.
pub(crate) fn appends(
    files: &mut MemFiles,
    path: &str,
    piece: &[u8],
    want: Result<usize, EdgeErr>,
) -> bool {
    files.append(path, piece) == want
}

fn keep_what_came_before(files: &mut MemFiles) -> Result<bool, NoMemory> {
    files.fail_append(2)?;
    Ok(
        files.create("out.wav") == Ok(())
            && appends(files, "out.wav", b"RIFF", Ok(4))
            && appends(files, "out.wav", b"more", Err(EdgeErr::Failed))
            && holds(files, "out.wav", b"RIFF")
            && files.get("other.wav").is_none(),
    )
}

#[test]
fn files_keep_what_came_before_the_fault(rt: HostRuntime) -> Result<(), Fail> {
    let mut files = MemFiles::new(rt.alloc());
    let kept = keep_what_came_before(&mut files);
    drop(files);
    assert!(rt; kept?);
    Ok(())
}

fn leave_a_part(files: &mut MemFiles) -> Result<bool, NoMemory> {
    files.set_append(4, 3);
    files.fail_append(2)?;
    files.fail_append(4)?;
    Ok(
        appends(files, "a", b"RIFFWAVE", Ok(4))
            && appends(files, "a", b"WAVE", Err(EdgeErr::Failed))
            && appends(files, "a", b"E", Ok(1))
            && appends(files, "b", b"d", Err(EdgeErr::Failed))
            && append_all(files, "b", b"ata data") == Ok(())
            && holds(files, "a", b"RIFFWAVE")
            && holds(files, "b", b"data data"),
    )
}

#[test]
fn appends_are_bounded_and_leave_a_part(rt: HostRuntime) -> Result<(), Fail> {
    let mut files = MemFiles::new(rt.alloc());
    let left = leave_a_part(&mut files);
    drop(files);
    assert!(rt; left?);
    Ok(())
}

fn store<F: Files>(files: &mut F, path: &str, piece: &[u8]) -> Result<usize, EdgeErr> {
    files.create(path)?;
    files.append(path, piece)
}

fn passes_through_memory(alloc: Global) -> Result<bool, NoMemory> {
    let mut source = SureSource::new(bytes_of(alloc, b"script")?);
    let mut sink = SureSink::new(alloc);
    Ok(pass(&mut source, &mut sink) == Ok(6) && sink.written() == b"script".as_slice())
}

fn passes_through_adapters(alloc: Global) -> bool {
    let mut text = Vec::new(alloc);
    let mut reader = ReadSource::new(b"script".as_slice());
    pass(&mut reader, &mut WriteSink::new(&mut text)) == Ok(6)
        && text.as_slice() == b"script".as_slice()
}

fn stores_anew(alloc: Global, files: &mut SureFiles) -> Result<bool, NoMemory> {
    files.put("a", bytes_of(alloc, b"old")?)?;
    let count = store(files, "a", b"new");
    Ok(
        count == Ok(3)
            && match files.get("a") {
                Some(bytes) => bytes == b"new".as_slice(),
                None => false,
            },
    )
}

#[test]
fn each_kind_passes_bytes_on(rt: HostRuntime) -> Result<(), Fail> {
    let mut files = SureFiles::new(rt.alloc());
    let stored = stores_anew(rt.alloc(), &mut files);
    drop(files);
    assert!(rt; stored?);
    assert!(rt; passes_through_memory(rt.alloc())?);
    assert!(rt; passes_through_adapters(rt.alloc()));
    assert!(rt; store(&mut files_here(&rt), "/", b"new") == Err(EdgeErr::Failed));
    Ok(())
}
