// A session under test.
ghost use Rattle.std.specs.Prelude.{◌≡◌, ◌<◌};
ghost use Rattle.store_core.specs.Acts.{AsksFewRecords};
ghost use Rattle.store_core.specs.CommandOf.{act_of};

use crate::kept::is_kept;
use read_steps::Steps;
use std::alloc::{AllocError, Global};
use std::collections::BTreeMap;
use std::marker::{Brand, Model};
use std::sync::ledger::{Blank, Ledger};
use std::test::Fail;
use store_core::{Command, Loaded, Session, Settings, Store};
use tree_outside::{MemoryShelf, MemorySink};

// What a session holds: how many rules, nodes of rules, names, texts and nodes of the document, and how many edits there were since it
// was settled.
#[derive(Clone, Copy, Debug, PartialEq, Eq)]
pub(crate) struct Holding {
    pub rules: usize,
    pub size: u64,
    pub names: usize,
    pub texts: u64,
    pub nodes: u64,
    pub edits: u64,
}

// A session over files in memory, and after how many edits it settles its grammar.
#[derive(Drop)]
pub(crate) struct Subject {
    session: Session,
    shelf: MemoryShelf,
    repair: u64,
}

// Contracts see of it after how many edits it settles.
impl Model for Subject {
    ghost use Rattle.std.specs.Prelude.{ℕ};

    ghost Value = { ℕ };

    ghost view = { λ s. s.repair };
}

impl Subject {
    // An empty session, whose files are this document, as `a`.
    pub(crate) fn new(alloc: Global, document: &[u8], repair: u64) -> Result<Subject, AllocError> {
        let mut files = BTreeMap::new(alloc);
        files.insert(String::from_str(alloc, "a")?, document.to_vec(alloc)?)?;
        Ok(Subject {
            session: Session::new(),
            shelf: MemoryShelf::new(alloc, files, 1000, Vec::new(alloc)),
            repair,
        })
    }

    // A session that has loaded this document.
    pub(crate) fn loaded(alloc: Global, document: &[u8], repair: u64) -> Result<Subject, Fail> {
        let mut subject = Subject::new(alloc, document, repair)?;
        subject.print(alloc, Command::Load { name: "a" })?;
        Ok(subject)
    }

    // Settles after so many edits from now on.
    pub(crate) fn settle_after(&mut self, repair: u64) {
        self.repair = repair;
    }

    // Does a command, and answers what it prints.
    pub(crate) fn print(&mut self, alloc: Global, command: Command<'_>) -> Result<MemorySink, Fail>
        requires records { AsksFewRecords (act_of command) }
    {
        self.print_in::<Brand>(alloc, command, Blank::new(1))
    }

    fn print_in<L: Ledger>(
        &mut self,
        alloc: Global,
        command: Command<'_>,
        blank: Blank,
    ) -> Result<MemorySink, Fail>
        requires records { AsksFewRecords (act_of command) }
        requires name { blank.name ≡ L.name }
        requires parts { blank.parts ≡ L.parts }
        requires some { 0 < blank.parts }
    {
        let settings = Settings {
            rank: 4,
            repair: self.repair,
        };
        let mut sink = MemorySink::new(alloc, Vec::new(alloc));
        let mut steps: Steps<L> = Steps::new(blank);
        self.session.command(
            alloc,
            command,
            settings,
            &mut sink,
            &mut self.shelf,
            &mut steps,
        )?;
        Ok(sink)
    }

    // What a file holds.
    pub(crate) fn file(&self, name: &str) -> Option<&[u8]> {
        self.shelf.file(name)
    }

    // What the session holds. Each field of what is loaded is named, so that one more doesn't compile: whoever adds it asks whether
    // edits keep it.
    pub(crate) fn holding(&self) -> Option<Holding> {
        let Session { loaded } = &self.session;
        let Loaded { store, edits } = loaded.as_ref()?;
        let Store {
            grammar,
            names,
            texts,
            counts,
            index: _,
            marks: _,
        } = store;
        Some(Holding {
            rules: grammar.rules(),
            size: grammar.size(),
            names: names.len(),
            texts: texts.len(),
            nodes: counts.total(),
            edits: *edits,
        })
    }

    // Whether the session's counts and index are those of its grammar.
    pub(crate) fn is_kept(&self, alloc: Global) -> Result<bool, Fail> {
        is_kept(alloc, &self.session)
    }
}
