// Grammar files byte by byte, and sinks that fail.
use super::grammar::{Row, START, TWICE, rules_of};
use grammar_file::{WriteError, write};
use plain_tree::{Kind, Names};
use slt_grammar::Label::{Bottom, Symbol};
use slt_grammar::check;
use std::alloc::{AllocError, Global};
use std::test::Fail;
use text_list::{TextList, TextTable};
use tree_outside::MemorySink;

// A file of the document's pair and the elements `a` and `b`.
struct File {
    rules: &'static [Row],
    // So many `x` are the one text; where there are none, there is no text.
    text: usize,
    // The sink's writes of these numbers fail.
    fails: &'static [u64],
    // What stands before the text, and how many bytes there are in all.
    front: &'static [u8],
    len: usize,
}

// The rule of `<a/>`.
const LEAF: Row = (0, &[Symbol(0), Symbol(1), Bottom, Bottom, Bottom]);

// Its text is longer than what goes to the sink at once.
const LONG: File = File {
    rules: &[LEAF],
    text: 5000,
    fails: &[],
    front: b"TGF2\x03\x00\x00\x01\x01a\x01\x01b\x01\x00\x02\x00\x02\x01\x00\x00\x00\x01\x88\x27",
    len: 5027,
};

static FILES: [File; 5] = [
    File {
        rules: &[TWICE, START],
        text: 0,
        fails: &[],
        front: b"TGF2\x03\x00\x00\x01\x01a\x01\x01b\
            \x02\x01\x02\x02\x00\x02\x02\x00\x01\
            \x00\x02\x00\x02\x01\x03\x00\x03\x00\x03\x00\x00\x00\x00\x00\x00",
        len: 38,
    },
    File {
        text: 300,
        front: b"TGF2\x03\x00\x00\x01\x01a\x01\x01b\x01\x00\x02\x00\x02\x01\x00\x00\x00\x01\xAC\x02",
        len: 327,
        ..LONG
    },
    LONG,
    File {
        fails: &[0],
        ..LONG
    },
    File {
        fails: &[1],
        ..LONG
    },
];

fn names_of_elements(alloc: Global) -> Result<Names, AllocError> {
    let mut names = Names::new(alloc);
    names.intern(alloc, Kind::Document, b"")?;
    names.intern(alloc, Kind::Element, b"a")?;
    names.intern(alloc, Kind::Element, b"b")?;
    Ok(names)
}

fn text_of(alloc: Global, len: usize) -> Result<TextList, AllocError> {
    let mut table = TextTable::new(alloc);
    if len > 0 {
        let bytes = vec![in alloc; b'x'; len]?;
        table.push(bytes.as_slice())?;
    }
    Ok(TextList::new(table))
}

fn written(alloc: Global, file: &File) -> Result<(MemorySink, bool), Fail> {
    let names = names_of_elements(alloc)?;
    let texts = text_of(alloc, file.text)?;
    let grammar = check(alloc, rules_of(alloc, file.rules)?)?;
    let mut sink = MemorySink::new(alloc, file.fails.to_vec(alloc)?);
    let answer = write(&grammar, &names, &texts, &mut sink);
    let wanted = if file.fails.is_empty() {
        Ok(file.len as u128)
    } else {
        Err(WriteError::Failed)
    };
    Ok((sink, answer == wanted))
}

// Whether these are a file's bytes, or a front of them.
fn is_front(file: &File, got: &[u8]) -> bool {
    let own = file.front.len().min(got.len());
    let (front, behind) = got.split_at(own);
    // Behind the text stand the count of places and its place.
    let (text, places) = behind.split_at(file.text.min(behind.len()));
    file.front.starts_with(front)
        && text.iter().all(|byte| *byte == b'x')
        && b"\x01\x00".starts_with(places)
}

#[test]
fn files_have_these_bytes(rt: HostRuntime) -> Result<(), Fail> {
    for (row, file) in FILES.iter().enumerate() {
        let (sink, is_answered) = written(rt.alloc(), file)?;
        let got = sink.bytes();
        let is_whole = got.len() == file.len || !file.fails.is_empty();
        assert!(rt; is_answered && is_whole && is_front(file, got), "row {row}");
    }
    Ok(())
}
