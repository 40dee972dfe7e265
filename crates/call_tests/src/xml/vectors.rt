// Files, and what comes of each where a script loads and saves it.
use super::{attributes, characters, doctype, markup, names, prolog, references, worked};
use crate::scripts::memory::{DONE, Row, assert_row};
use std::alloc::{AllocError, Global};
use std::test::Fail;

// What comes of a file.
#[derive(Clone, Copy)]
pub(super) enum Outcome {
    // It is a document of so many nodes, and these bytes are saved.
    Loaded(u64, &'static [u8]),
    // It is none, and this is the place where it is bad.
    Bad(u64),
}

// What is shown, by a constraint's name, a production with its number or a section of XML 1.0 (fifth edition); the file; what
// comes of it.
pub(super) type Vector = (&'static str, &'static [u8], Outcome);

const TABLES: usize = 8;

fn table(at: usize) -> &'static [Vector] {
    match at {
        0 => &worked::VECTORS,
        1 => &prolog::VECTORS,
        2 => &doctype::VECTORS,
        3 => &markup::VECTORS,
        4 => &attributes::VECTORS,
        5 => &names::VECTORS,
        6 => &characters::VECTORS,
        _ => &references::VECTORS,
    }
}

#[test]
fn files_are_documents_or_bad(rt: HostRuntime) -> Result<(), Fail> {
    let alloc = rt.alloc();
    for at in 0..TABLES {
        for &(shows, file, outcome) in table(at) {
            let printed = printed_of(alloc, outcome)?;
            let row = row_of(file, outcome, &printed);
            assert_row(&rt, alloc, &row, shows)?;
        }
    }
    Ok(())
}

fn printed_of(alloc: Global, outcome: Outcome) -> Result<String, AllocError> {
    match outcome {
        Outcome::Loaded(nodes, saved) => {
            format!(in alloc; "ok nodes {nodes}\nok bytes {}\n", saved.len())
        }
        Outcome::Bad(at) => format!(in alloc; "! bad-xml {at}\n! no-document\n"),
    }
}

fn row_of<'a>(file: &'static [u8], outcome: Outcome, printed: &'a str) -> Row<'a> {
    let saved: &'static [u8] = match outcome {
        Outcome::Loaded(_, saved) => saved,
        Outcome::Bad(_) => DONE.saved,
    };
    Row {
        document: file,
        script: "load a\nsave c\n",
        printed,
        saved,
        ..DONE
    }
}
