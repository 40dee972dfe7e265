// Scripts that are served by words.
use super::memory::{DONE, Fault, Objects, Row, objects_of};
use crate::words::words_of;
use std::alloc::Global;
use std::test::Fail;
use store_core::Session;
use store_shell::Status;

const COUNTED: Row<'static> = Row {
    script: "generate 300\ncount //record[tag]\n",
    ..DONE
};

// How a script of these objects ends by some words, in a session of its own.
fn served(alloc: Global, objects: &mut Objects, words: &[&str]) -> Result<Status, Fail> {
    let words = words_of(alloc, words)?;
    let mut session = Session::new();
    Ok(objects.serve_by(alloc, &words, &mut session))
}

#[test]
fn bad_words_read_nothing(rt: HostRuntime) -> Result<(), Fail> {
    let alloc = rt.alloc();
    let mut objects = objects_of(alloc, &COUNTED, 7, Fault::Never)?;
    let bad = served(alloc, &mut objects, &["--rank", "9"])?;
    assert_eq!(rt; bad, Status::Words);
    assert!(rt; objects.printed().is_empty());
    let good = served(alloc, &mut objects, &["--rank=1", "--repair", "0", "--"])?;
    assert_eq!(rt; good, Status::Done);
    let printed = "ok nodes 1902\nok selected 100\n";
    assert!(rt; objects.printed() == printed.as_bytes());
    Ok(())
}
