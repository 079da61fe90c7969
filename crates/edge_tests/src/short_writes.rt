use crate::fake_system::fake_files;
use crate::on_disk::holds;
use io_edge::{EdgeErr, Files, append_all};
use std::fs;
use std::test::Fail;

// Whether appends give the number of the bytes that the system took, and a fault where it took none.
fn counts_what_was_taken<F: Files>(files: &mut F, full: &mut F, path: &str) -> bool {
    files.create(path) == Ok(())
        && files.append(path, b"RIFF") == Ok(3)
        && append_all(files, path, b"FWAVEfmt ") == Ok(())
        && full.append(path, b"data") == Err(EdgeErr::Failed)
}

#[test]
fn an_append_counts_what_was_taken(rt: HostRuntime) -> Result<(), Fail> {
    let path = "short_writes.wav";
    let mut files = fake_files(&rt, 3, None);
    let mut full = fake_files(&rt, 0, None);
    assert!(rt; counts_what_was_taken(&mut files, &mut full, path));
    assert!(rt; holds(&rt, path, b"RIFFWAVEfmt ")?);
    fs::remove_file(&rt, path)?;
    Ok(())
}
