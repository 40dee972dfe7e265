// What a save does to what is there: links, who may read and write, what is no file, and a pending file that comes to nothing.
use std::fs::{self, Permissions};
use std::io;
use std::os::unix::fs::{PermissionsExt, symlink};
use std::rt::Files;
use std::test::Fail;
use tree_outside::{Failed, RealShelf, Shelf};

// What is done with real files, and what is seen of them then. The first text is a name.
#[derive(Clone, Copy)]
enum Step {
    MakeFolder(&'static str),
    MakeFile(&'static str, &'static str),
    // A link, and what it says.
    MakeLink(&'static str, &'static str),
    SetMode(&'static str, u32),
    // The file of this name is begun, and gets no bytes.
    Begin(&'static str),
    // What was begun is sealed, or that fails.
    Seal(bool),
    // A file is saved whole with its name as its bytes, or that fails.
    Save(&'static str, bool),
    IsLink(&'static str),
    // It is no link, and holds this text.
    IsFile(&'static str, &'static str),
    HasMode(&'static str, u32),
    HasNames(&'static str, u64),
}

use Step::{
    Begin, HasMode, HasNames, IsFile, IsLink, MakeFile, MakeFolder, MakeLink, Save, Seal, SetMode,
};

static STEPS: [Step; 75] = [
    // The first of these saves makes the file, the others replace it.
    MakeFolder("saves/links"),
    MakeLink("saves/links/two", "one"),
    MakeLink("saves/links/one", "file"),
    MakeLink("saves/links/up", "../links/one"),
    MakeLink("saves/links/folder", "."),
    Save("saves/links/two", true),
    IsFile("saves/links/file", "saves/links/two"),
    Save("saves/links/one", true),
    IsFile("saves/links/file", "saves/links/one"),
    Save("saves/links/up", true),
    IsFile("saves/links/file", "saves/links/up"),
    Save("saves/links/folder/one", true),
    IsFile("saves/links/file", "saves/links/folder/one"),
    IsLink("saves/links/two"),
    IsLink("saves/links/one"),
    IsLink("saves/links/up"),
    IsLink("saves/links/folder"),
    HasNames("saves/links", 5),
    // What leads to no file is left as it is.
    MakeFolder("saves/refused"),
    MakeFolder("saves/refused/folder"),
    MakeFolder("saves/refused/blocked.part"),
    MakeLink("saves/refused/to_folder", "folder"),
    MakeLink("saves/refused/circle", "circle"),
    Save("saves/refused/folder", false),
    Save("saves/refused/to_folder", false),
    Save("saves/refused/circle", false),
    Save("saves/refused/missing/a", false),
    Save("saves/refused/blocked", false),
    HasNames("saves/refused", 4),
    // A link in the place of the pending file isn't written through.
    MakeFolder("saves/beside"),
    MakeFile("saves/beside/precious", "old"),
    MakeLink("saves/beside/a.part", "precious"),
    Save("saves/beside/a", true),
    IsFile("saves/beside/precious", "old"),
    IsFile("saves/beside/a", "saves/beside/a"),
    HasNames("saves/beside", 2),
    // A pending file is gone where another one is begun, and where it can't be renamed.
    MakeFolder("saves/given_up"),
    Begin("saves/given_up/early"),
    Begin("saves/given_up/late"),
    IsFile("saves/given_up/late.part", ""),
    HasNames("saves/given_up", 1),
    MakeFolder("saves/given_up/late"),
    Seal(false),
    HasNames("saves/given_up", 1),
    // The pending file and the one that takes the place of a file have its mode, but for who runs it as whom.
    MakeFile("saves/guarded", "old"),
    SetMode("saves/guarded", 0o600),
    Begin("saves/guarded"),
    HasMode("saves/guarded", 0o600),
    HasMode("saves/guarded.part", 0o600),
    Seal(true),
    HasMode("saves/guarded", 0o600),
    SetMode("saves/guarded", 0o640),
    Begin("saves/guarded"),
    HasMode("saves/guarded", 0o640),
    HasMode("saves/guarded.part", 0o640),
    Seal(true),
    HasMode("saves/guarded", 0o640),
    SetMode("saves/guarded", 0o444),
    Begin("saves/guarded"),
    HasMode("saves/guarded", 0o444),
    HasMode("saves/guarded.part", 0o444),
    Seal(true),
    HasMode("saves/guarded", 0o444),
    SetMode("saves/guarded", 0o777),
    Begin("saves/guarded"),
    HasMode("saves/guarded", 0o777),
    HasMode("saves/guarded.part", 0o777),
    Seal(true),
    HasMode("saves/guarded", 0o777),
    SetMode("saves/guarded", 0o4755),
    Begin("saves/guarded"),
    HasMode("saves/guarded", 0o4755),
    HasMode("saves/guarded.part", 0o755),
    Seal(true),
    HasMode("saves/guarded", 0o755),
];

// Saves a name, with these bytes.
pub fn save<F: Shelf>(shelf: &mut F, name: &str, bytes: &[u8]) -> Result<(), Failed> {
    shelf.create(name)?;
    shelf.append(bytes)?;
    shelf.seal()
}

// How many names a folder has.
fn names_in<R: Files + Alloc + Clone>(rt: &R, folder: &str) -> io::Result<u64> {
    let mut count = 0u64;
    for entry in fs::read_dir(rt, folder)? {
        let _ = entry?;
        count = count.saturating_add(1);
    }
    Ok(count)
}

fn mode_of<R: Files>(rt: &R, name: &str) -> io::Result<u32> {
    Ok(fs::metadata(rt, name)?.permissions().mode() & 0o7777)
}

fn is_link<R: Files>(rt: &R, name: &str) -> io::Result<bool> {
    Ok(fs::symlink_metadata(rt, name)?.is_symlink())
}

// Whether it is a file, and holds this text.
fn holds<R: Files + Alloc + Clone>(rt: &R, name: &str, text: &str) -> io::Result<bool> {
    let is_file = fs::symlink_metadata(rt, name)?.is_file();
    let held = fs::read_to_string(rt, name)?;
    Ok(is_file && held.as_str() == text)
}

// Does a step, and answers whether all is as it says.
fn is_so<R: Files + Alloc + Clone>(rt: &R, shelf: &mut RealShelf<'_, R>, step: Step) -> bool {
    match step {
        MakeFolder(name) => fs::create_dir(rt, name).is_ok(),
        MakeFile(name, text) => fs::write(rt, name, text).is_ok(),
        MakeLink(name, says) => symlink(rt, says, name).is_ok(),
        SetMode(name, mode) => set_mode(rt, name, mode),
        Begin(name) => shelf.create(name).is_ok(),
        Seal(done) => shelf.seal().is_ok() == done,
        Save(name, done) => save(shelf, name, name.as_bytes()).is_ok() == done,
        IsLink(name) => matches!(is_link(rt, name), Ok(true)),
        IsFile(name, text) => matches!(holds(rt, name, text), Ok(true)),
        HasMode(name, mode) => mode_of(rt, name).ok() == Some(mode),
        HasNames(folder, count) => names_in(rt, folder).ok() == Some(count),
    }
}

fn set_mode<R: Files>(rt: &R, name: &str, mode: u32) -> bool {
    fs::set_permissions(rt, name, Permissions::from_mode(mode)).is_ok()
}

#[test]
fn a_save_leaves_the_rest_as_it_is(rt: HostRuntime) -> Result<(), Fail> {
    fs::create_dir(&rt, "saves")?;
    let mut shelf = RealShelf::new(rt.alloc(), &rt);
    for (row, &step) in STEPS.iter().enumerate() {
        assert!(rt; is_so(&rt, &mut shelf, step), "step {row}");
    }
    fs::remove_dir_all(&rt, "saves")?;
    Ok(())
}
