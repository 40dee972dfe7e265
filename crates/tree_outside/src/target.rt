// What a name leads to among the system's files.
use std::alloc::Global;
use std::fs;
use std::io::{self, ErrorKind};
use std::os::unix::fs::PermissionsExt;
use std::path::PathBuf;
use std::rt::Files;

/// The system follows no more links from one name.
const MOST_LINKS: usize = 40;

/// Who may read, write and run a file. The bits beside these speak of the file's owner and group, and a file that takes
/// its place may have others.
const ACCESS: u32 = 0o777;

/// The file that a save of a name is to replace or to make.
#[derive(Drop)]
pub struct Target {
    /// Where it is, or would be: no link.
    pub path: PathBuf,
    /// Who may read, write and run it, where it is there.
    pub access: Option<u32>,
}

impl Target {
    /// Follows the links from a name to the last one's file. An error comes where the name leads to what is no regular file,
    /// where its links go in a circle, and where the system does not let them be followed.
    pub fn of<R: Files>(alloc: Global, rt: &R, name: &str) -> io::Result<Target> {
        let access = access_of(rt, name)?;
        // What the system says of a path that is no link: where something is there, and where nothing is.
        let no_link = match access {
            Some(_) => ErrorKind::InvalidInput,
            None => ErrorKind::NotFound,
        };
        let mut path = PathBuf::from_str(alloc, name)?;
        for _ in 0..=MOST_LINKS {
            match rt.read_link(alloc, path.as_str()) {
                Ok(text) => {
                    path.pop();
                    path.push(text)?;
                }
                Err(error) if error.kind() == no_link => return Ok(Target { path, access }),
                Err(error) => return Err(error),
            }
        }
        Err(io::Error::from(ErrorKind::FilesystemLoop))
    }
}

// Who may read, write and run the regular file to which the name leads, or none where there is no file.
fn access_of<R: Files>(rt: &R, name: &str) -> io::Result<Option<u32>> {
    match fs::metadata(rt, name) {
        Ok(found) if found.is_file() => Ok(Some(found.permissions().mode() & ACCESS)),
        Ok(_) => Err(io::Error::from(ErrorKind::InvalidInput)),
        Err(error) if error.kind() == ErrorKind::NotFound => Ok(None),
        Err(error) => Err(error),
    }
}
