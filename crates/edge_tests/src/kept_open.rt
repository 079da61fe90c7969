use crate::on_disk::{files_here, holds};
use io_edge::{Files, append_all};
use std::fs;
use std::test::Fail;

// The file that was created is written to its end, although it has another path by then, and none is
// made where it was.
#[test]
fn a_file_that_was_moved_is_written_to_its_end(rt: HostRuntime) -> Result<(), Fail> {
    let (path, moved) = ("kept_open.wav", "kept_open_moved.wav");
    let mut files = files_here(&rt);
    assert!(rt; files.create(path) == Ok(()));
    assert!(rt; append_all(&mut files, path, b"RIFF") == Ok(()));
    fs::rename(&rt, path, moved)?;
    assert!(rt; append_all(&mut files, path, b"WAVE") == Ok(()));
    assert!(rt; holds(&rt, moved, b"RIFFWAVE")?);
    assert!(rt; fs::metadata(&rt, path).is_err());
    fs::remove_file(&rt, moved)?;
    Ok(())
}

// Another path than that of the file that was created last has a file of its own.
#[test]
fn another_path_is_another_file(rt: HostRuntime) -> Result<(), Fail> {
    let (first, last) = ("kept_first.wav", "kept_last.wav");
    let mut files = files_here(&rt);
    assert!(rt; files.create(first) == Ok(()));
    assert!(rt; files.create(last) == Ok(()));
    assert!(rt; append_all(&mut files, first, b"RIFF") == Ok(()));
    assert!(rt; append_all(&mut files, last, b"WAVE") == Ok(()));
    assert!(rt; holds(&rt, first, b"RIFF")?);
    assert!(rt; holds(&rt, last, b"WAVE")?);
    fs::remove_file(&rt, first)?;
    fs::remove_file(&rt, last)?;
    Ok(())
}
