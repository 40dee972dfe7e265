// Scripts, lines and files that are just within their limits and just beyond them.
use super::long_files::{EndlessLines, LongFiles};
use super::{assert_serves, served};
use std::alloc::{AllocError, Global};
use std::test::Fail;
use store_core::Session;
use store_shell::Status;
use tree_outside::{MemorySink, MemorySource};

// A script with so many `x` at its end, over files of so many bytes.
struct Long {
    front: &'static str,
    more: usize,
    file: usize,
    printed: &'static str,
}

static ROWS: [Long; 4] = [
    Long {
        front: "",
        more: 1_048_576,
        file: 0,
        printed: "! bad-command\n",
    },
    Long {
        front: "",
        more: 1_048_577,
        file: 0,
        printed: "! long-line\n",
    },
    Long {
        front: "load a\nsave c\n",
        more: 0,
        file: 1_073_741_823,
        printed: "! bad-xml 0\n! no-document\n",
    },
    Long {
        front: "load a\nsave c\n",
        more: 0,
        file: 1_073_741_824,
        printed: "! long-file\n! no-document\n",
    },
];

fn source_of(alloc: Global, row: &Long) -> Result<MemorySource, AllocError> {
    let mut script = row.front.as_bytes().to_vec(alloc)?;
    script.resize(row.front.len().saturating_add(row.more), b'x')?;
    Ok(MemorySource::new(script, 4096, Vec::new(alloc)))
}

#[test]
fn lines_and_files_have_limits(rt: HostRuntime) -> Result<(), Fail> {
    let alloc = rt.alloc();
    for row in &ROWS {
        let mut source = source_of(alloc, row)?;
        let mut shelf = LongFiles { left: row.file };
        assert_serves(
            &rt,
            alloc,
            &mut source,
            &mut shelf,
            Status::Done,
            row.printed,
        );
    }
    Ok(())
}

// Each of its lines prints 14 bytes.
#[test]
fn a_script_has_at_most_1073741824_bytes(rt: HostRuntime) {
    let alloc = rt.alloc();
    let mut source = EndlessLines { out: 0 };
    let mut sink = MemorySink::new(alloc, Vec::new(alloc));
    let mut shelf = LongFiles { left: 0 };
    let mut session = Session::new();
    let status = served(alloc, &mut session, &mut source, &mut sink, &mut shelf);
    assert!(rt; status == Status::LongScript && sink.bytes().len() == 3_670_016);
}
