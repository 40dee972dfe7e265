//! The program: the shell over the real source, sink and shelf.
#![tactic(auto)]

ghost use Rattle.std.specs.Prelude.{◌≡◌, ◌<◌};

use read_steps::Steps;
use std::io::{BufWriter, ErrorKind};
use std::marker::Brand;
use std::process::ExitCode;
use std::rt::Env;
use std::sync::ledger::{Blank, Ledger};
use std::{env, io};
use store_core::Session;
use store_shell::{Status, serve};
use tree_outside::{RealShelf, RealSink, RealSource};

/// The words behind the program's name. A word that isn't UTF-8 is a bad one; anything else that goes wrong is for want of
/// memory.
fn words_of(rt: &HostRuntime) -> Result<Vec<String>, Status> {
    let all = env::args(rt).map_err(|error| match error.kind() {
        ErrorKind::InvalidData => Status::Words,
        _ => Status::Memory,
    })?;
    let mut words = Vec::new(rt.alloc());
    for word in all.skip(1) {
        words.push(word).map_err(|_| Status::Memory)?;
    }
    Ok(words)
}

/// Serves the script on standard input, with a counter of the ledger `L`.
fn run<L: Ledger>(rt: &HostRuntime, blank: Blank) -> Status
    requires name { blank.name ≡ L.name }
    requires parts { blank.parts ≡ L.parts }
    requires some { 0 < blank.parts }
{
    let words = match words_of(rt) {
        Ok(words) => words,
        Err(status) => return status,
    };
    let alloc = rt.alloc();
    let Ok(output) = BufWriter::new(alloc, io::writer(rt)) else {
        return Status::Memory;
    };
    let mut session = Session::new();
    let mut source = RealSource::new(rt.reader());
    let mut sink = RealSink::new(output);
    let mut shelf = RealShelf::new(alloc, rt);
    let mut steps: Steps<L> = Steps::new(blank);
    serve(
        alloc,
        &words,
        &mut session,
        &mut source,
        &mut sink,
        &mut shelf,
        &mut steps,
    )
}

fn main(rt: HostRuntime) -> ExitCode {
    let status = run::<Brand>(&rt, Blank::new(1));
    if status != Status::Done {
        let _ = eprintln!(rt; "treestore: {status}");
    }
    ExitCode::from(status.exit_status())
}
