use io_edge::DirFiles;
use std::{fs, io};

// The files of the folder that the tests run in.
pub(crate) fn files_here(rt: &HostRuntime) -> DirFiles<&HostRuntime> {
    DirFiles::new(rt)
}

// Whether the file at this path holds these bytes and no others.
pub(crate) fn holds(rt: &HostRuntime, path: &str, want: &[u8]) -> io::Result<bool> {
    Ok(fs::read(rt, path)?.as_slice() == want)
}

// An empty folder.
pub(crate) fn empty_folder(rt: &HostRuntime, folder: &str) -> io::Result<()> {
    let _ = fs::remove_dir_all(rt, folder);
    fs::create_dir(rt, folder)
}

// Takes two files away and then their folder, which fails where there is another file in it.
pub(crate) fn take_away(rt: &HostRuntime, paths: [&str; 2], folder: &str) -> io::Result<()> {
    fs::remove_file(rt, paths[0])?;
    fs::remove_file(rt, paths[1])?;
    fs::remove_dir(rt, folder)
}
