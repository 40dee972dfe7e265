// Scripts over objects in memory, as rows of tables.
ghost use Rattle.std.specs.Prelude.{◌≤◌};

use super::served_by;
use std::alloc::{AllocError, Global};
use std::collections::BTreeMap;
use std::process::Abort;
use store_core::Session;
use store_shell::Status;
use tree_outside::{MemoryShelf, MemorySink, MemorySource};

// Which call fails, of the source, the sink or the shelf; each counts its own from 0.
#[derive(Clone, Copy, Debug)]
pub(crate) enum Fault {
    Never,
    Read(u64),
    Write(u64),
    Shelf(u64),
}

impl Fault {
    // The call of the source that fails, that of the sink, and that of the shelf.
    fn calls(self) -> (Option<u64>, Option<u64>, Option<u64>) {
        match self {
            Fault::Never => (None, None, None),
            Fault::Read(call) => (Some(call), None, None),
            Fault::Write(call) => (None, Some(call), None),
            Fault::Shelf(call) => (None, None, Some(call)),
        }
    }
}

// A script, and what comes of it. The shelf holds the document as the file `a`, and `old` as `c`.
#[derive(Clone, Copy)]
pub(crate) struct Row<'a> {
    pub document: &'a [u8],
    pub script: &'a str,
    // By so many bytes script and files are read, in a run for each.
    pub pieces: &'a [usize],
    // What fails, in a run for each.
    pub faults: &'a [Fault],
    pub status: Status,
    pub printed: &'a str,
    // What `c` holds then.
    pub saved: &'a [u8],
}

// A script that is done to its end, and saves nothing.
pub(crate) const DONE: Row<'static> = Row {
    document: b"<a><b/><b/></a>",
    script: "",
    pieces: &[1, 2, 3, 7, 1000],
    faults: &[Fault::Never],
    status: Status::Done,
    printed: "",
    saved: b"old",
};

// Asserts that a row's script ends, prints and saves as the row says.
pub(crate) fn assert_row(
    rt: &impl Abort,
    alloc: Global,
    row: &Row<'_>,
    shows: &str,
) -> Result<(), AllocError> {
    for &piece in row.pieces {
        for &fault in row.faults {
            let is_right = is_right(alloc, row, piece.max(1), fault)?;
            assert!(*rt; is_right, "{shows} in pieces of {piece}, {fault:?}");
        }
    }
    Ok(())
}

fn is_right(alloc: Global, row: &Row<'_>, piece: usize, fault: Fault) -> Result<bool, AllocError>
    requires { 1 ≤ piece }
{
    let mut objects = objects_of(alloc, row, piece, fault)?;
    let status = objects.serve(alloc, &mut Session::new());
    Ok(
        status == row.status
            && objects.sink.bytes() == row.printed.as_bytes()
            && objects.shelf.file("c") == Some(row.saved),
    )
}

#[derive(Drop)]
pub(super) struct Objects {
    pub source: MemorySource,
    pub sink: MemorySink,
    pub shelf: MemoryShelf,
}

impl Objects {
    // Serves the script of the source, without words.
    pub(super) fn serve(&mut self, alloc: Global, session: &mut Session) -> Status {
        self.serve_by(alloc, &[], session)
    }

    // Serves it by these words.
    pub(super) fn serve_by(
        &mut self,
        alloc: Global,
        words: &[String],
        session: &mut Session,
    ) -> Status {
        served_by(
            alloc,
            words,
            session,
            &mut self.source,
            &mut self.sink,
            &mut self.shelf,
        )
    }

    // What was printed.
    pub(super) fn printed(&self) -> &[u8] {
        self.sink.bytes()
    }
}

pub(super) fn objects_of(
    alloc: Global,
    row: &Row<'_>,
    piece: usize,
    fault: Fault,
) -> Result<Objects, AllocError>
    requires { 1 ≤ piece }
{
    let (read, write, call) = fault.calls();
    let script = row.script.as_bytes().to_vec(alloc)?;
    Ok(Objects {
        source: MemorySource::new(script, piece, list_of(alloc, read)?),
        sink: MemorySink::new(alloc, list_of(alloc, write)?),
        shelf: shelf_of(alloc, row.document, piece, list_of(alloc, call)?)?,
    })
}

// The list of one call, or of none.
fn list_of(alloc: Global, call: Option<u64>) -> Result<Vec<u64>, AllocError> {
    let mut calls = Vec::new(alloc);
    if let Some(number) = call {
        calls.push(number)?;
    }
    Ok(calls)
}

// A shelf with this document as the file `a`, and `old` as `c`.
fn shelf_of(
    alloc: Global,
    document: &[u8],
    piece: usize,
    fails: Vec<u64>,
) -> Result<MemoryShelf, AllocError>
    requires { 1 ≤ piece }
{
    let mut files = BTreeMap::new(alloc);
    for (name, bytes) in [("a", document), ("c", b"old")] {
        files.insert(String::from_str(alloc, name)?, bytes.to_vec(alloc)?)?;
    }
    Ok(MemoryShelf::new(alloc, files, piece, fails))
}
