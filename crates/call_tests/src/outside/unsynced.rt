// A save whose bytes don't reach the disk.
use super::saves::save;
use std::alloc::{Allocator, Global};
use std::fs::{self, Metadata, OpenFile, OpenOptions, Permissions};
use std::io::{self, ErrorKind, Read, Seek, SeekFrom, Write};
use std::path::PathBuf;
use std::rt::Files;
use std::test::Fail;
use tree_outside::{Failed, RealShelf};

// The files of a runtime, where every sync fails.
#[derive(Drop)]
struct Unsynced<R: Files + Drop>(R);

#[derive(Drop)]
struct UnsyncedFile<F: Drop>(F);

impl<F: Read + Drop> Read for UnsyncedFile<F> {
    fn read(&mut self, buf: &mut [u8]) -> io::Result<usize> {
        self.0.read(buf)
    }
}

impl<F: Write + Drop> Write for UnsyncedFile<F> {
    fn write(&mut self, buf: &[u8]) -> io::Result<usize> {
        self.0.write(buf)
    }

    fn flush(&mut self) -> io::Result<()> {
        self.0.flush()
    }
}

impl<F: Seek + Drop> Seek for UnsyncedFile<F> {
    fn seek(&mut self, to: SeekFrom) -> io::Result<u64> {
        self.0.seek(to)
    }
}

impl<F: OpenFile + Drop> OpenFile for UnsyncedFile<F> {
    fn metadata(&self) -> io::Result<Metadata> {
        self.0.metadata()
    }

    fn set_len(&self, size: u64) -> io::Result<()> {
        self.0.set_len(size)
    }

    fn sync_all(&self) -> io::Result<()> {
        Err(io::Error::from(ErrorKind::Other))
    }

    fn sync_data(&self) -> io::Result<()> {
        Err(io::Error::from(ErrorKind::Other))
    }

    fn set_permissions(&self, perm: Permissions) -> io::Result<()> {
        self.0.set_permissions(perm)
    }
}

impl<R: Files + Drop> Files for Unsynced<R> {
    type File = UnsyncedFile<R::File>;

    type Dir = R::Dir;

    fn open_file(&self, how: &OpenOptions, path: &str) -> io::Result<UnsyncedFile<R::File>> {
        Ok(UnsyncedFile(self.0.open_file(how, path)?))
    }

    fn open_dir(&self, path: &str) -> io::Result<R::Dir> {
        self.0.open_dir(path)
    }

    fn metadata(&self, path: &str) -> io::Result<Metadata> {
        self.0.metadata(path)
    }

    fn symlink_metadata(&self, path: &str) -> io::Result<Metadata> {
        self.0.symlink_metadata(path)
    }

    fn copy(&self, from: &str, to: &str) -> io::Result<u64> {
        self.0.copy(from, to)
    }

    fn rename(&self, from: &str, to: &str) -> io::Result<()> {
        self.0.rename(from, to)
    }

    fn remove_file(&self, path: &str) -> io::Result<()> {
        self.0.remove_file(path)
    }

    fn create_dir(&self, path: &str) -> io::Result<()> {
        self.0.create_dir(path)
    }

    fn remove_dir(&self, path: &str) -> io::Result<()> {
        self.0.remove_dir(path)
    }

    fn remove_dir_all<B: Allocator>(&self, alloc: B, path: &str) -> io::Result<()> {
        self.0.remove_dir_all(alloc, path)
    }

    fn read_link<B: Allocator>(&self, alloc: B, path: &str) -> io::Result<PathBuf<B>> {
        self.0.read_link(alloc, path)
    }
}

fn is_refused<R: Files + Drop>(alloc: Global, rt: R) -> bool {
    let unsynced = Unsynced(rt);
    let mut shelf = RealShelf::new(alloc, &unsynced);
    save(&mut shelf, "synced", b"new") == Err(Failed)
}

// Whether the old file is there, and no pending one.
fn is_left<R: Files + Alloc + Clone>(rt: &R) -> io::Result<bool> {
    let held = fs::read_to_string(rt, "synced")?;
    Ok(held.as_str() == "old" && !fs::exists(rt, "synced.part")?)
}

#[test]
fn a_save_that_is_not_synced_leaves_the_old_file(rt: HostRuntime) -> Result<(), Fail> {
    fs::write(&rt, "synced", "old")?;
    assert!(rt; is_refused(rt.alloc(), &rt));
    assert!(rt; is_left(&rt)?);
    fs::remove_file(&rt, "synced")?;
    Ok(())
}
