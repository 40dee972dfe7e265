// Random edits of all kinds on small documents, each beside its plain list of nodes. After each edit the session's index and counts are compared
// with those that are made anew of its grammar.
ghost use Rattle.store_core.specs.Acts.{AsksFewRecords};
ghost use Rattle.store_core.specs.CommandOf.{act_of};

use crate::subject::Subject;
use chance::Chance;
use plain_list::{Change, Edit, Node, apply};
use spelling::spelled;
use std::alloc::{AllocError, Global};
use std::test::Fail;
use store_core::Command;

mod chance;
mod fragments;
mod plain_list;
mod spelling;

// The command that asks for an edit.
fn command_of(edit: Edit) -> Command<'static>
    ensures { AsksFewRecords (act_of result) }
{
    let number = edit.number as u64;
    match edit.change {
        Change::Name(name) => Command::Rename { number, name },
        Change::Value(value) => Command::Value { number, value },
        Change::Deletion => Command::Delete { number },
        Change::Insertion(fragment) => Command::Insert {
            number,
            fragment: fragment.bytes,
        },
        Change::Addition(fragment) => Command::Append {
            number,
            fragment: fragment.bytes,
        },
        Change::Setting(name, value) => Command::Attr {
            number,
            name,
            value,
        },
        Change::Copy => Command::Copy { number },
    }
}

// A document, in a session and as a list of its nodes.
#[derive(Drop)]
struct Twice {
    subject: Subject,
    nodes: Vec<Node>,
}

impl Twice {
    // The list, and a session that has loaded its document.
    fn new(alloc: Global, nodes: Vec<Node>, repair: u64) -> Result<Twice, Fail> {
        let document = spelled(alloc, &nodes)?;
        let subject = Subject::loaded(alloc, &document, repair)?;
        Ok(Twice { subject, nodes })
    }

    // Makes an edit of both, and answers whether the session is right then.
    fn edit(&mut self, alloc: Global, edit: Edit) -> Result<bool, Fail> {
        Ok(self.is_told(alloc, edit)? && self.is_saved(alloc)? && self.subject.is_kept(alloc)?)
    }

    // Makes an edit of both, and answers whether the session's line is the list's.
    fn is_told(&mut self, alloc: Global, edit: Edit) -> Result<bool, Fail> {
        let line = self.subject.print(alloc, command_of(edit))?;
        let wanted = apply(alloc, &mut self.nodes, edit)?;
        Ok(line.bytes() == wanted.as_bytes())
    }

    // Whether the session saves what the list spells.
    fn is_saved(&mut self, alloc: Global) -> Result<bool, Fail> {
        self.subject.print(alloc, Command::Save { name: "c" })?;
        let wanted = spelled(alloc, &self.nodes)?;
        Ok(self.subject.file("c") == Some(wanted.as_slice()))
    }

    // Makes edits until one goes wrong, which it answers.
    fn wrong_edit(&mut self, alloc: Global, chance: &mut Chance) -> Result<Option<Edit>, Fail> {
        for _ in 0..20 {
            let edit = chance.edit(self.nodes.len());
            if !self.edit(alloc, edit)? {
                return Ok(Some(edit));
            }
        }
        Ok(None)
    }
}

// Half of the documents are settled after each edit, a quarter after three, a quarter never.
static REPAIRS: [u64; 4] = [1, 3, 1, 0];

// The first edit that goes wrong of a document with this number.
fn first_wrong(alloc: Global, number: u64) -> Result<Option<Edit>, Fail> {
    let mut chance = Chance::new(number);
    let nodes = chance.document(alloc)?;
    let mut twice = Twice::new(alloc, nodes, REPAIRS[(number % 4) as usize])?;
    twice.wrong_edit(alloc, &mut chance)
}

#[test]
fn random_edits_are_those_of_plain_lists(rt: HostRuntime) -> Result<(), Fail> {
    for number in 0..50 {
        let wrong = first_wrong(rt.alloc(), number)?;
        assert!(rt; wrong.is_none(), "document {number}: {wrong:?}");
    }
    Ok(())
}
