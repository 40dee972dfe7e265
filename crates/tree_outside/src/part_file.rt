// The pending file of a shelf over the system's files.
use crate::target::Target;
use std::alloc::{AllocError, Global};
use std::fs::{self, OpenFile, OpenOptions, Permissions};
use std::io::{self, BufWriter, Write};
use std::os::unix::fs::{OpenOptionsExt, PermissionsExt};
use std::path::{Path, PathBuf};
use std::rt::Files;

/// How many bytes are gathered before they are written.
const GATHERED: usize = 1 << 16;

/// What the system's mask is applied to where a file is new.
const ACCESS_OF_NEW: u32 = 0o666;

/// A file that is written beside its target, under the target's name with `.part` added, until it takes its place.
#[derive(Drop)]
pub struct PartFile<R: Files> {
    writer: BufWriter<R::File>,
    path: String,
    target: PathBuf,
}

impl<R: Files> PartFile<R> {
    /// Makes the file, empty, for what a save of this name is to replace or to make. An error comes where the name leads to
    /// what is no regular file, where the system refuses a call, and for want of memory; then nothing new is left.
    pub fn create(alloc: Global, rt: &R, name: &str) -> io::Result<PartFile<R>> {
        let Target {
            path: target,
            access,
        } = Target::of(alloc, rt, name)?;
        let path = part_name(alloc, target.as_str())?;
        // What lies there is removed and not written to, since it may be a link or a pipe.
        let _ = fs::remove_file(rt, path.as_str());
        let file = create_new(rt, path.as_str(), access)?;
        match gathering(alloc, file, access) {
            Ok(writer) => Ok(PartFile {
                writer,
                path,
                target,
            }),
            Err(error) => {
                let _ = fs::remove_file(rt, path.as_str());
                Err(error)
            }
        }
    }

    /// Adds bytes to the file.
    pub fn append(&mut self, bytes: &[u8]) -> io::Result<()> {
        self.writer.write_all(bytes)
    }

    /// Puts the file in its target's place. Where that fails, the target stays, and this file is removed where it can be.
    pub fn put(mut self, rt: &R) -> io::Result<()> {
        let done = self.replace_target(rt);
        if done.is_err() {
            self.give_up(rt);
        }
        done
    }

    /// Removes the file where it can be; if it stays, the next save of the name removes it.
    pub fn give_up(self, rt: &R) {
        let _ = fs::remove_file(rt, self.path.as_str());
    }

    // The bytes are on the disk before the name leads to them, so that a power cut leaves the old file or the new one.
    fn replace_target(&mut self, rt: &R) -> io::Result<()> {
        self.writer.flush()?;
        self.writer.get_ref().sync_all()?;
        fs::rename(rt, self.path.as_str(), self.target.as_str())?;
        sync_folder(rt, &self.target);
        Ok(())
    }
}

// From then on a power cut leaves the new file. Its bytes have the name already, so a folder that can't be opened or synced
// is no fault.
fn sync_folder<R: Files>(rt: &R, target: &PathBuf) {
    let folder = match target.parent() {
        Some(folder) if !folder.as_os_str().is_empty() => folder,
        _ => Path::new("."),
    };
    if let Ok(opened) = fs::open(rt, folder) {
        let _ = opened.sync_all();
    }
}

fn part_name(alloc: Global, target: &str) -> Result<String, AllocError> {
    let mut name = String::from_str(alloc, target)?;
    name.push_str(".part")?;
    Ok(name)
}

// From the first moment nobody may do more with the file than with the one that it is to replace.
fn create_new<R: Files>(rt: &R, path: &str, access: Option<u32>) -> io::Result<R::File> {
    let mut options = OpenOptions::new();
    options
        .write(true)
        .create_new(true)
        .mode(access.unwrap_or(ACCESS_OF_NEW));
    options.open(rt, path)
}

// Gives the file what the system's mask took away, and takes the buffer for it.
fn gathering<F: Write + OpenFile + Drop>(
    alloc: Global,
    file: F,
    access: Option<u32>,
) -> io::Result<BufWriter<F>> {
    if let Some(access) = access {
        file.set_permissions(Permissions::from_mode(access))?;
    }
    BufWriter::with_capacity(alloc, GATHERED, file)
}
