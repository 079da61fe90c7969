use io_edge::DirFiles;
use std::alloc::{Allocator, Global};
use std::fs::{Metadata, OpenFile, OpenOptions, Permissions};
use std::io::{ErrorKind, PipeReader, PipeWriter, Read, Seek, SeekFrom, Write};
use std::os::fd::BorrowedFd;
use std::os::unix::net::SocketAddr;
use std::path::PathBuf;
use std::{io, rt};

// The files of another runtime, where a read or a write moves at most so many bytes. Where that is none, a
// write takes nothing and a read fails. An open file may be given another length than it has.
#[derive(Drop)]
pub(crate) struct Fake<R> {
    system: R,
    most: usize,
    length: Option<u64>,
}

// The files of the folder that the tests run in, as such a system has them.
pub(crate) fn fake_files(
    rt: &HostRuntime,
    most: usize,
    length: Option<u64>,
) -> DirFiles<Fake<&HostRuntime>> {
    DirFiles::new(Fake {
        system: rt,
        most,
        length,
    })
}

#[derive(Drop)]
pub(crate) struct FakeFile<F> {
    file: F,
    most: usize,
    length: Option<u64>,
}

impl<F: Read> Read for FakeFile<F> {
    fn read(&mut self, buf: &mut [u8]) -> io::Result<usize> {
        if self.most == 0 {
            return Err(io::Error::from(ErrorKind::Other));
        }
        let room = buf.len().min(self.most);
        self.file.read(&mut buf[..room])
    }
}

impl<F: Write> Write for FakeFile<F> {
    fn write(&mut self, buf: &[u8]) -> io::Result<usize> {
        self.file.write(&buf[..buf.len().min(self.most)])
    }

    fn flush(&mut self) -> io::Result<()> {
        self.file.flush()
    }
}

impl<F: Seek> Seek for FakeFile<F> {
    fn seek(&mut self, pos: SeekFrom) -> io::Result<u64> {
        self.file.seek(pos)
    }
}

impl<F: OpenFile> OpenFile for FakeFile<F> {
    fn metadata(&self) -> io::Result<Metadata> {
        match self.length {
            Some(length) => Ok(Metadata::of_file(length)),
            None => self.file.metadata(),
        }
    }

    fn set_len(&self, size: u64) -> io::Result<()> {
        self.file.set_len(size)
    }

    fn sync_all(&self) -> io::Result<()> {
        self.file.sync_all()
    }

    fn sync_data(&self) -> io::Result<()> {
        self.file.sync_data()
    }
}

impl<R: AllocGlobal> Alloc for Fake<R> {
    type A = Global;

    fn alloc(&self) -> Global {
        self.system.alloc()
    }
}

impl<R: rt::Files> rt::Files for Fake<R> {
    type File = FakeFile<R::File>;

    type Dir = R::Dir;

    fn open_file(&self, how: &OpenOptions, path: &str) -> io::Result<FakeFile<R::File>> {
        Ok(FakeFile {
            file: self.system.open_file(how, path)?,
            most: self.most,
            length: self.length,
        })
    }

    fn open_dir(&self, path: &str) -> io::Result<R::Dir> {
        self.system.open_dir(path)
    }

    fn metadata(&self, path: &str) -> io::Result<Metadata> {
        self.system.metadata(path)
    }

    fn symlink_metadata(&self, path: &str) -> io::Result<Metadata> {
        self.system.symlink_metadata(path)
    }

    fn copy(&self, from: &str, to: &str) -> io::Result<u64> {
        self.system.copy(from, to)
    }

    fn rename(&self, from: &str, to: &str) -> io::Result<()> {
        self.system.rename(from, to)
    }

    fn remove_file(&self, path: &str) -> io::Result<()> {
        self.system.remove_file(path)
    }

    fn create_dir(&self, path: &str) -> io::Result<()> {
        self.system.create_dir(path)
    }

    fn remove_dir(&self, path: &str) -> io::Result<()> {
        self.system.remove_dir(path)
    }

    fn remove_dir_all<B: Allocator>(&self, alloc: B, path: &str) -> io::Result<()> {
        self.system.remove_dir_all(alloc, path)
    }

    fn canonicalize<B: Allocator>(&self, alloc: B, path: &str) -> io::Result<PathBuf<B>> {
        self.system.canonicalize(alloc, path)
    }

    fn read_link<B: Allocator>(&self, alloc: B, path: &str) -> io::Result<PathBuf<B>> {
        self.system.read_link(alloc, path)
    }

    fn hard_link(&self, original: &str, link: &str) -> io::Result<()> {
        self.system.hard_link(original, link)
    }

    fn set_permissions(&self, path: &str, perm: Permissions) -> io::Result<()> {
        self.system.set_permissions(path, perm)
    }

    fn symlink(&self, original: &str, link: &str) -> io::Result<()> {
        self.system.symlink(original, link)
    }

    fn pipe(&self) -> io::Result<(PipeReader, PipeWriter)> {
        self.system.pipe()
    }

    fn chown(&self, path: &str, uid: Option<u32>, gid: Option<u32>) -> io::Result<()> {
        self.system.chown(path, uid, gid)
    }

    fn lchown(&self, path: &str, uid: Option<u32>, gid: Option<u32>) -> io::Result<()> {
        self.system.lchown(path, uid, gid)
    }

    fn create_dir_with_mode(&self, path: &str, mode: u32) -> io::Result<()> {
        self.system.create_dir_with_mode(path, mode)
    }

    fn bind_unix(&self, socket: BorrowedFd<'_>, addr: &SocketAddr) -> io::Result<()> {
        self.system.bind_unix(socket, addr)
    }
}
