// Whole scripts: how they end, what they print, and what they leave in the files. Most are in the program's own stored run.
ghost use Rattle.std.specs.Prelude.{◌≡◌, ◌<◌};

use long_files::LongFiles;
use read_steps::Steps;
use std::alloc::Global;
use std::fs;
use std::marker::Brand;
use std::process::Abort;
use std::sync::ledger::{Blank, Ledger};
use std::test::Fail;
use store_core::Session;
use store_shell::{Status, serve};
use tree_outside::{MemorySink, RealSource, Shelf, Source};

mod limits;
mod long_files;
pub(crate) mod memory;
mod refused_calls;
mod rows;
mod statuses;
mod words;

fn serve_in<S: Source, F: Shelf, L: Ledger>(
    alloc: Global,
    words: &[String],
    session: &mut Session,
    source: &mut S,
    sink: &mut MemorySink,
    shelf: &mut F,
    blank: Blank,
) -> Status
    requires name { blank.name ≡ L.name }
    requires parts { blank.parts ≡ L.parts }
    requires some { 0 < blank.parts }
{
    let mut steps: Steps<L> = Steps::new(blank);
    serve(alloc, words, session, source, sink, shelf, &mut steps)
}

// Serves a script by these words.
fn served_by<S: Source, F: Shelf>(
    alloc: Global,
    words: &[String],
    session: &mut Session,
    source: &mut S,
    sink: &mut MemorySink,
    shelf: &mut F,
) -> Status {
    serve_in::<S, F, Brand>(alloc, words, session, source, sink, shelf, Blank::new(1))
}

// Serves a script without words.
fn served<S: Source, F: Shelf>(
    alloc: Global,
    session: &mut Session,
    source: &mut S,
    sink: &mut MemorySink,
    shelf: &mut F,
) -> Status {
    served_by(alloc, &[], session, source, sink, shelf)
}

// Serves a script from an empty session, and asserts how it ends and what it prints.
fn assert_serves<S: Source, F: Shelf>(
    rt: &impl Abort,
    alloc: Global,
    source: &mut S,
    shelf: &mut F,
    status: Status,
    printed: &str,
) {
    let mut sink = MemorySink::new(alloc, Vec::new(alloc));
    let ended = served(alloc, &mut Session::new(), source, &mut sink, shelf);
    assert!(*rt;
        ended == status && sink.bytes() == printed.as_bytes(),
        "{printed}"
    );
}

#[test]
fn a_folder_is_no_script(rt: HostRuntime) -> Result<(), Fail> {
    let mut source = RealSource::new(fs::open(&rt, ".")?);
    let mut shelf = LongFiles { left: 0 };
    let status = Status::ReadFault;
    assert_serves(&rt, rt.alloc(), &mut source, &mut shelf, status, "");
    Ok(())
}
