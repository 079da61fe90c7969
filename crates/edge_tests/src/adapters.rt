use crate::on_disk::{empty_folder, files_here, holds, take_away};
use io_edge::{Files, ReadSource, Sink, WriteSink, append_all, read_all, write_all};
use std::io::BufWriter;
use std::test::Fail;
use std::{fs, io};

const OLD: &[u8] = b"what was there before, which is longer than what is written";

fn makes_anew<F: Files>(
    rt: &HostRuntime,
    files: &mut F,
    path: &str,
    other: &str,
) -> io::Result<bool> {
    fs::write(rt, path, OLD)?;
    fs::write(rt, other, OLD)?;
    Ok(
        files.create(path) == Ok(())
            && holds(rt, path, b"")?
            && files.append(path, b"RIFF\0\xff") == Ok(6)
            && append_all(files, path, b"WAVEfmt ") == Ok(())
            && holds(rt, path, b"RIFF\0\xffWAVEfmt ")?
            && holds(rt, other, OLD)?,
    )
}

#[test]
fn a_file_is_made_anew_and_grows(rt: HostRuntime) -> Result<(), Fail> {
    let paths = ["made_anew/out.wav", "made_anew/other.wav"];
    empty_folder(&rt, "made_anew")?;
    assert!(rt; makes_anew(&rt, &mut files_here(&rt), paths[0], paths[1])?);
    take_away(&rt, paths, "made_anew")?;
    Ok(())
}

fn makes_first<F: Files>(
    rt: &HostRuntime,
    files: &mut F,
    created: &str,
    appended: &str,
) -> io::Result<bool> {
    Ok(
        files.create(created) == Ok(())
            && files.append(appended, b"data") == Ok(4)
            && holds(rt, created, b"")?
            && holds(rt, appended, b"data")?,
    )
}

#[test]
fn a_file_that_is_missing_is_made(rt: HostRuntime) -> Result<(), Fail> {
    let paths = ["made_first/a.wav", "made_first/b.wav"];
    empty_folder(&rt, "made_first")?;
    assert!(rt; makes_first(&rt, &mut files_here(&rt), paths[0], paths[1])?);
    take_away(&rt, paths, "made_first")?;
    Ok(())
}

// Whether the file at this path, which holds `OLD`, is read whole.
fn reads_whole(rt: &HostRuntime, path: &str) -> io::Result<bool> {
    let mut source = ReadSource::new(fs::File::open(rt, path)?);
    Ok(match read_all(rt.alloc(), &mut source, OLD.len()) {
        Ok(bytes) => bytes.as_slice() == OLD,
        Err(_) => false,
    })
}

// Whether what a sink takes stands in the file at this path while the sink is open.
fn writes_whole<T: Sink>(rt: &HostRuntime, sink: &mut T, path: &str) -> io::Result<bool> {
    Ok(
        write_all(sink, b"1 ok\n") == Ok(())
            && write_all(sink, b"\xff\0end") == Ok(())
            && holds(rt, path, b"1 ok\n\xff\0end")?,
    )
}

fn passes_on(rt: &HostRuntime, from: &str, to: &str) -> io::Result<bool> {
    fs::write(rt, from, OLD)?;
    let read = reads_whole(rt, from)?;
    let mut sink = WriteSink::new(fs::File::create(rt, to)?);
    let written = writes_whole(rt, &mut sink, to);
    drop(sink);
    Ok(written? && read && holds(rt, from, OLD)?)
}

#[test]
fn a_file_is_read_whole_and_written_whole(rt: HostRuntime) -> Result<(), Fail> {
    let paths = ["passed_on/in.json", "passed_on/out.txt"];
    empty_folder(&rt, "passed_on")?;
    assert!(rt; passes_on(&rt, paths[0], paths[1])?);
    take_away(&rt, paths, "passed_on")?;
    Ok(())
}

// Whether what a sink takes stands in the file at this path, although its writer keeps bytes back until
// it is flushed.
fn passes_through_a_buffer(rt: &HostRuntime, path: &str) -> io::Result<bool> {
    let file = fs::File::create(rt, path)?;
    let mut sink = WriteSink::new(BufWriter::new(rt.alloc(), file)?);
    let written = writes_whole(rt, &mut sink, path);
    drop(sink);
    written
}

#[test]
fn a_sink_flushes_each_write(rt: HostRuntime) -> Result<(), Fail> {
    let path = "flushed.txt";
    assert!(rt; passes_through_a_buffer(&rt, path)?);
    fs::remove_file(&rt, path)?;
    Ok(())
}
