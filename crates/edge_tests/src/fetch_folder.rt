use crate::fake_system::fake_files;
use crate::fetched::{failed, gives, is_missing, is_too_long};
use crate::on_disk::{empty_folder, files_here, holds, take_away};
use io_edge::{DirFiles, EdgeErr, Fetched, Files};
use std::test::Fail;
use std::{fs, io};

const HELD: &[u8] = b"RIFF\0\xffWAVEfmt ";

const LENGTH: u64 = 14;

const OTHER: &[u8] = b"another file, which stays as it is";

// A folder with two files and an empty folder.
fn begin(rt: &HostRuntime, folder: &str, path: &str, other: &str, inner: &str) -> io::Result<()> {
    empty_folder(rt, folder)?;
    fs::write(rt, path, HELD)?;
    fs::write(rt, other, OTHER)?;
    fs::create_dir(rt, inner)
}

// Takes all of it away, which fails where anything was added, and says whether the files are as they were.
fn end(rt: &HostRuntime, folder: &str, path: &str, other: &str, inner: &str) -> io::Result<bool> {
    let same = holds(rt, path, HELD)? && holds(rt, other, OTHER)?;
    fs::remove_dir(rt, inner)?;
    take_away(rt, [path, other], folder)?;
    Ok(same)
}

// Fetches from the folder that the tests run in. What the runtime has is tied to `DirFiles` here once, and
// not in each test.
fn fetch(
    rt: &HostRuntime,
    files: &mut DirFiles<&HostRuntime>,
    path: &str,
    limit: u64,
) -> Result<Fetched, EdgeErr> {
    files.fetch(rt.alloc(), path, limit)
}

fn reads_within_the_limit(rt: &HostRuntime, path: &str) -> bool {
    let mut files = files_here(rt);
    gives(fetch(rt, &mut files, path, LENGTH + 1), HELD)
        && gives(fetch(rt, &mut files, path, LENGTH), HELD)
        && is_too_long(fetch(rt, &mut files, path, LENGTH - 1), LENGTH)
        && is_too_long(fetch(rt, &mut files, path, 0), LENGTH)
        && gives(fetch(rt, &mut files, path, u64::MAX), HELD)
}

#[test]
fn a_file_is_fetched_up_to_the_limit(rt: HostRuntime) -> Result<(), Fail> {
    let (folder, path) = ("fetched_whole", "fetched_whole/a.wav");
    let (other, inner) = ("fetched_whole/b.wav", "fetched_whole/inner");
    begin(&rt, folder, path, other, inner)?;
    assert!(rt; reads_within_the_limit(&rt, path));
    assert!(rt; end(&rt, folder, path, other, inner)?);
    Ok(())
}

fn misses(rt: &HostRuntime, path: &str) -> bool {
    is_missing(fetch(rt, &mut files_here(rt), path, LENGTH))
}

// The first six lead out of the folder, and at the last four there is no file.
fn keeps_to_its_folder(rt: &HostRuntime) -> bool {
    misses(rt, "fetched_inside/../fetched_inside/a.wav")
        && misses(rt, "fetched_inside/inner/../a.wav")
        && misses(rt, "..")
        && misses(rt, "/etc/passwd")
        && misses(rt, "/")
        && misses(rt, "fetched_inside/..")
        && misses(rt, "fetched_inside/c.wav")
        && misses(rt, "fetched_inside/a.wav/b.wav")
        && misses(rt, "fetched_inside/a.wav\0")
        && misses(rt, "")
}

fn fetches_what_begins_with_dots(rt: &HostRuntime, other: &str) -> bool {
    let mut files = files_here(rt);
    gives(
        fetch(rt, &mut files, "./fetched_inside//a.wav", LENGTH),
        HELD,
    ) && failed(fetch(rt, &mut files, "fetched_inside/inner", LENGTH))
        && failed(fetch(rt, &mut files, "fetched_inside/inner", u64::MAX))
        && failed(fetch(rt, &mut files, ".", 0))
        && gives(fetch(rt, &mut files, other, 100), OTHER)
}

#[test]
fn a_fetch_keeps_to_its_folder(rt: HostRuntime) -> Result<(), Fail> {
    let (folder, path) = ("fetched_inside", "fetched_inside/a.wav");
    let (other, inner) = ("fetched_inside/..b.wav", "fetched_inside/inner");
    begin(&rt, folder, path, other, inner)?;
    assert!(rt; keeps_to_its_folder(&rt));
    assert!(rt; fetches_what_begins_with_dots(&rt, other));
    assert!(rt; end(&rt, folder, path, other, inner)?);
    Ok(())
}

// Fetches a file of the folder through a `Fake`.
fn fetch_fake(
    rt: &HostRuntime,
    most: usize,
    length: Option<u64>,
    path: &str,
    limit: u64,
) -> Result<Fetched, EdgeErr> {
    fake_files(rt, most, length).fetch(rt.alloc(), path, limit)
}

// Reads in small pieces, a read that fails, and a length that is not the file's.
fn stands_by_what_is_read(rt: &HostRuntime, path: &str) -> bool {
    gives(fetch_fake(rt, 3, None, path, LENGTH), HELD)
        && failed(fetch_fake(rt, 0, None, path, LENGTH))
        && is_too_long(fetch_fake(rt, 0, Some(100), path, 99), 100)
        && failed(fetch_fake(rt, 0, Some(100), path, 100))
        && gives(fetch_fake(rt, 5, Some(100), path, 100), HELD)
        && gives(fetch_fake(rt, 5, Some(0), path, LENGTH), HELD)
        && is_too_long(fetch_fake(rt, 5, Some(0), path, 12), 13)
}

#[test]
fn a_fetch_stands_by_what_is_read(rt: HostRuntime) -> Result<(), Fail> {
    let (folder, path) = ("fetched_faults", "fetched_faults/a.wav");
    let (other, inner) = ("fetched_faults/b.wav", "fetched_faults/inner");
    begin(&rt, folder, path, other, inner)?;
    assert!(rt; stands_by_what_is_read(&rt, path));
    assert!(rt; end(&rt, folder, path, other, inner)?);
    Ok(())
}
