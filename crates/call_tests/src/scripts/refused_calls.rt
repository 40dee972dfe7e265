// Each call of the shelf, of the source and of the sink fails, in a run of its own.
use super::memory::{DONE, Fault, Objects, Row, objects_of};
use std::alloc::{AllocError, Global};
use std::test::Fail;
use store_core::Session;
use store_shell::Status;
use tree_outside::MemorySource;

const SAVED: &[u8] = b"<a><b/><b/></a>\n";

// By so many bytes script and files are read.
const PIECE: usize = 7;

const LOADED: Row<'static> = Row {
    script: "load a\n",
    ..DONE
};

const STORED: Row<'static> = Row {
    script: "load a\nsave c\n",
    ..DONE
};

const WHOLE: Row<'static> = Row {
    script: "load a\nquery //b\ncount //b\nsave c\nquit\nfly\n",
    ..DONE
};

// The lines that are done, and what they print.
static LINES: [(&str, &str); 5] = [
    ("load a\n", "ok nodes 4\n"),
    ("query //b\n", "2 element b\n3 element b\nok selected 2\n"),
    ("count //b\n", "ok selected 2\n"),
    ("save c\n", "ok bytes 16\n"),
    ("quit\n", ""),
];

const SAVING: Row<'static> = Row {
    script: "load a\nquery //b\ncount //b\nsave c\n",
    ..DONE
};

const SAVING_AGAIN: &str = "load z\ncount //b\nsave c\n";

// A script that has ended.
#[derive(Drop)]
struct Ended {
    status: Status,
    objects: Objects,
}

impl Ended {
    fn is(&self, status: Status, printed: &str, saved: &[u8]) -> bool {
        self.status == status
            && self.objects.printed() == printed.as_bytes()
            && self.objects.shelf.file("c") == Some(saved)
    }

    // Whether the shelf counts as many faults as lines tell of one.
    fn tells_its_faults(&self) -> bool {
        let lines = self.objects.printed().split(|&byte| byte == b'\n');
        let told = lines.filter(|line| line.ends_with(b"-fault")).count();
        self.objects.shelf.faults() == told as u64
    }
}

fn run(alloc: Global, row: &Row<'_>, fault: Fault) -> Result<Ended, AllocError> {
    let mut objects = objects_of(alloc, row, PIECE, fault)?;
    let status = objects.serve(alloc, &mut Session::new());
    Ok(Ended { status, objects })
}

// What is printed of the lines that end within so many bytes of the script.
fn printed_within(alloc: Global, bytes: u64) -> Result<String, AllocError> {
    let mut printed = String::new(alloc);
    let mut end = 0u64;
    for &(line, text) in &LINES {
        end = end.saturating_add(line.len() as u64);
        if end <= bytes {
            printed.push_str(text)?;
        }
    }
    Ok(printed)
}

#[test]
fn each_call_of_the_shelf_is_refused(rt: HostRuntime) -> Result<(), Fail> {
    let alloc = rt.alloc();
    let loading = run(alloc, &LOADED, Fault::Never)?.objects.shelf.calls();
    let whole = run(alloc, &STORED, Fault::Never)?;
    assert!(rt; whole.is(Status::Done, "ok nodes 4\nok bytes 16\n", SAVED));
    assert!(rt; whole.tells_its_faults());
    let calls = whole.objects.shelf.calls();
    assert!(rt; 0 < loading && loading < calls);
    for call in 0..calls {
        let done = run(alloc, &STORED, Fault::Shelf(call))?;
        let printed = if call < loading {
            "! read-fault\n! no-document\n"
        } else {
            "ok nodes 4\n! write-fault\n"
        };
        assert!(rt; done.is(Status::Done, printed, b"old"), "call {call}");
        assert!(rt; done.tells_its_faults(), "call {call}");
    }
    Ok(())
}

#[test]
fn each_read_of_the_source_is_refused(rt: HostRuntime) -> Result<(), Fail> {
    let alloc = rt.alloc();
    let whole = run(alloc, &WHOLE, Fault::Never)?.objects;
    let reads = whole.source.calls();
    assert!(rt; whole.source.faults() == 0 && 0 < reads);
    for read in 0..reads {
        let done = run(alloc, &WHOLE, Fault::Read(read))?;
        let printed = printed_within(alloc, read.saturating_mul(PIECE as u64))?;
        assert!(rt;
            done.status == Status::ReadFault && done.objects.printed() == printed.as_bytes(),
            "read {read}"
        );
        assert!(rt; done.objects.source.faults() == 1, "read {read}");
    }
    Ok(())
}

#[test]
fn each_write_of_the_sink_is_refused(rt: HostRuntime) -> Result<(), Fail> {
    let alloc = rt.alloc();
    let printed = printed_within(alloc, u64::MAX)?;
    let whole = run(alloc, &WHOLE, Fault::Never)?;
    assert!(rt; whole.is(Status::Done, printed.as_str(), SAVED));
    let writes = whole.objects.sink.calls();
    assert!(rt; whole.objects.sink.faults() == 0 && 0 < writes);
    for write in 0..writes {
        let done = run(alloc, &WHOLE, Fault::Write(write))?;
        assert!(rt;
            done.status == Status::WriteFault
                && printed.as_bytes().starts_with(done.objects.printed()),
            "write {write}"
        );
        assert!(rt; done.objects.sink.faults() == 1, "write {write}");
    }
    Ok(())
}

// The last call of a save seals the file, and the one before it appends the last bytes.
#[test]
fn a_save_that_failed_is_done_again(rt: HostRuntime) -> Result<(), Fail> {
    let alloc = rt.alloc();
    let calls = run(alloc, &SAVING, Fault::Never)?.objects.shelf.calls();
    let append = Fault::Shelf(calls.saturating_sub(2));
    let mut objects = objects_of(alloc, &SAVING, PIECE, append)?;
    let script = SAVING_AGAIN.as_bytes().to_vec(alloc)?;
    let mut session = Session::new();
    let status = objects.serve(alloc, &mut session);
    let refused =
        "ok nodes 4\n2 element b\n3 element b\nok selected 2\nok selected 2\n! write-fault\n";
    assert!(rt; status == Status::Done && objects.printed() == refused.as_bytes());
    assert!(rt; objects.shelf.file("c") == Some(b"old".as_slice()));
    objects.source = MemorySource::new(script, PIECE, Vec::new(alloc));
    let status = objects.serve(alloc, &mut session);
    let again = "! no-file\nok selected 2\nok bytes 16\n";
    assert!(rt; status == Status::Done && objects.printed().ends_with(again.as_bytes()));
    assert!(rt; objects.shelf.file("c") == Some(SAVED));
    Ok(())
}
