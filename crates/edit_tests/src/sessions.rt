// What a session holds of its document, and how many edits it counts.
use crate::subject::{Holding, Subject};
use std::alloc::{AllocError, Global};
use std::test::Fail;
use store_core::Command;

const SIX: &[u8] = b"<a><b/><b/><b/><b/><b/><b/></a>";

// Six elements of one name become calls of a rule.
const HELD: Holding = Holding {
    rules: 2,
    size: 12,
    names: 3,
    texts: 0,
    nodes: 8,
    edits: 0,
};

// What a session holds of a document.
fn held_of(alloc: Global, document: &[u8]) -> Result<Option<Holding>, Fail> {
    let subject = Subject::loaded(alloc, document, 1)?;
    Ok(subject.holding())
}

// What it holds before it loads one.
fn held_before(alloc: Global) -> Result<Option<Holding>, Fail> {
    let subject = Subject::new(alloc, SIX, 1)?;
    Ok(subject.holding())
}

#[test]
fn a_session_holds_its_document(rt: HostRuntime) -> Result<(), Fail> {
    let before = held_before(rt.alloc())?;
    assert!(rt; before.is_none());
    let held = held_of(rt.alloc(), SIX)?;
    assert!(rt; held == Some(HELD));
    Ok(())
}

// A node gets another value, where the session settles after so many edits; then there were so many edits since it settled.
struct Counted {
    number: u64,
    repair: u64,
    edits: u64,
}

// Node 2 is an attribute and node 3 a text.
static EDITS: [Counted; 5] = [
    Counted {
        number: 2,
        repair: 1,
        edits: 0,
    },
    Counted {
        number: 3,
        repair: 1,
        edits: 0,
    },
    Counted {
        number: 2,
        repair: 0,
        edits: 1,
    },
    Counted {
        number: 3,
        repair: 0,
        edits: 2,
    },
    Counted {
        number: 3,
        repair: 3,
        edits: 0,
    },
];

impl Counted {
    // Makes the edit, and answers whether the session counts as many edits then.
    fn is_counted(&self, alloc: Global, subject: &mut Subject) -> Result<bool, Fail> {
        subject.settle_after(self.repair);
        let edit = Command::Value {
            number: self.number,
            value: b"z",
        };
        subject.print(alloc, edit)?;
        Ok(
            subject
                .holding()
                .is_some_and(|holding| holding.edits == self.edits),
        )
    }
}

// Whether each edit is counted.
fn are_all_counted(alloc: Global, subject: &mut Subject) -> Result<bool, Fail> {
    for edit in &EDITS {
        if !edit.is_counted(alloc, subject)? {
            return Ok(false);
        }
    }
    Ok(true)
}

// Whether a session counts its edits.
fn are_counted(alloc: Global) -> Result<bool, Fail> {
    let mut subject = Subject::loaded(alloc, b"<a b=\"x\">y</a>", 1)?;
    are_all_counted(alloc, &mut subject)
}

#[test]
fn a_session_counts_its_edits(rt: HostRuntime) -> Result<(), Fail> {
    let counted = are_counted(rt.alloc())?;
    assert!(rt; counted);
    Ok(())
}

// One record in four elements of different names, so that its rule is called four times and nothing else repeats.
const RECORDS: &[u8] =
    b"<r><p><a><b/><c/></a></p><q><a><b/><c/></a></q><s><a><b/><c/></a></s><t><a><b/><c/></a></t></r>";

// How many rules and nodes of rules a session has of them.
fn weight_of(subject: &Subject) -> Option<(usize, u64)> {
    let held = subject.holding()?;
    Some((held.rules, held.size))
}

// The same before a record gets another name, and once it has its name again.
fn weights_renamed_and_back(alloc: Global, number: u64) -> Result<[Option<(usize, u64)>; 2], Fail> {
    let mut subject = Subject::loaded(alloc, RECORDS, 1)?;
    let before = weight_of(&subject);
    for name in [b"z", b"a"] {
        subject.print(alloc, Command::Rename { number, name })?;
    }
    Ok([before, weight_of(&subject)])
}

// The record is written out for the other name, and behind it called again.
#[test]
fn a_name_that_is_given_back_leaves_the_grammar_as_it_was(rt: HostRuntime) -> Result<(), Fail> {
    for record in 0..4_u64 {
        let [before, behind] = weights_renamed_and_back(rt.alloc(), 4 * record + 3)?;
        assert!(rt;
            before.is_some() && before == behind,
            "record {record}: {before:?} {behind:?}"
        );
    }
    Ok(())
}

// An `r` with 2^40 elements, in 42 rules of 88 nodes: rule 0 is `a(bottom, y1)`, and each further one but the start calls the one before it
// twice.
fn doubled_40_times(alloc: Global) -> Result<Vec<u8>, AllocError> {
    let mut file = b"TGF1\x03\x00\x00\x01\x01r\x01\x01a\x2a\x01\x02\x02\x00\x01".to_vec(alloc)?;
    for rule in 0..40 {
        file.extend_from_slice(&[1, 3, rule, 3, rule, 1])?;
    }
    file.extend_from_slice(b"\x00\x02\x00\x02\x01\x03\x28\x00\x00\x00\x00")?;
    Ok(file)
}

// Whether the line of saving its grammar tells what a session holds, and how many bytes the file has.
fn is_saved(alloc: Global, subject: &mut Subject, held: &Holding) -> Result<bool, Fail> {
    let line = subject.print(alloc, Command::SaveGrammar { name: "c" })?;
    let bytes = subject.file("c").map_or(0, |file| file.len());
    let Holding { rules, size, .. } = *held;
    let wanted = format!(in alloc; "ok rules {rules} size {size} bytes {bytes}\n")?;
    Ok(line.bytes() == wanted.as_bytes())
}

// Whether it holds the same once it has loaded that file.
fn is_loaded(alloc: Global, subject: &mut Subject, held: &Holding) -> Result<bool, Fail> {
    subject.print(alloc, Command::LoadGrammar { name: "c" })?;
    Ok(subject.holding() == Some(Holding { edits: 0, ..*held }))
}

// What it holds, if the file of its grammar holds the same.
fn held_and_saved(alloc: Global, subject: &mut Subject) -> Result<Option<Holding>, Fail> {
    let Some(held) = subject.holding() else {
        return Ok(None);
    };
    let same = is_saved(alloc, subject, &held)? && is_loaded(alloc, subject, &held)?;
    Ok(same.then_some(held))
}

// What a session holds once it has loaded its file and deleted one of the elements.
fn held_with_one_less(alloc: Global, subject: &mut Subject) -> Result<Option<Holding>, Fail> {
    subject.print(alloc, Command::LoadGrammar { name: "a" })?;
    subject.print(alloc, Command::Delete { number: 500 })?;
    held_and_saved(alloc, subject)
}

// What a session that never settles holds of this grammar's document, one element of which was deleted.
fn held_unsettled(alloc: Global, file: &[u8]) -> Result<Option<Holding>, Fail> {
    let mut subject = Subject::new(alloc, file, 0)?;
    held_with_one_less(alloc, &mut subject)
}

#[test]
fn an_edit_at_most_doubles_a_grammar(rt: HostRuntime) -> Result<(), Fail> {
    let file = doubled_40_times(rt.alloc())?;
    let held = held_unsettled(rt.alloc(), file.as_slice())?;
    assert!(rt;
        held.is_some_and(|held| held.nodes == 1_099_511_627_777
            && held.edits == 1
            && held.size <= 176),
        "{held:?}"
    );
    Ok(())
}
