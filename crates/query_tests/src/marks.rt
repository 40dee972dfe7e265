// Runs over shared rules of which some texts are marked.
ghost use Rattle.slt_grammar.specs.Grammars.{IsSwept};
ghost use Rattle.slt_grammar.specs.Keyed.{rules_of as rules_in};
ghost use Rattle.std.specs.Prelude.{◌≡◌, ◌<◌, IsSome};

use crate::marked_texts::MarkedTexts;
use plain_tree::{Kind, Names};
use read_steps::Steps;
use rule_runs::Hit;
use segment_counts::Counts;
use slt_grammar::Label::{Bottom, Call, Param, Symbol};
use slt_grammar::{Body, Grammar, Label, RuleList, check};
use std::alloc::{AllocError, Global};
use std::marker::Brand;
use std::sync::ledger::{Blank, Ledger};
use std::test::Fail;
use value_runs::ValueRun;
use value_tests::Marks;

// The marks of three texts, and the numbers and symbols of the nodes that are hit.
struct Row {
    marks: [u32; 3],
    hits: &'static [(u64, usize)],
}

static ROWS: [Row; 4] = [
    Row {
        marks: [0, 0, 0],
        hits: &[],
    },
    Row {
        marks: [1, 0, 1],
        hits: &[(2, 2), (3, 3), (6, 2), (7, 3)],
    },
    Row {
        marks: [2, 1, 2],
        hits: &[(4, 2), (5, 3)],
    },
    Row {
        marks: [1, 1, 1],
        hits: &[(2, 2), (3, 3), (4, 2), (5, 3), (6, 2), (7, 3)],
    },
];

// Rule 0 is b(text(bottom, bottom), y1).
const SHARED: [Label; 5] = [Symbol(2), Symbol(3), Bottom, Bottom, Param];

// The document <a><b>..</b><b>..</b><b>..</b></a>.
const START: [Label; 8] = [
    Symbol(0),
    Symbol(1),
    Call(0),
    Call(0),
    Call(0),
    Bottom,
    Bottom,
    Bottom,
];

fn push_rule(
    alloc: Global,
    list: &mut RuleList,
    rank: usize,
    labels: &[Label],
) -> Result<(), AllocError> {
    let mut body = Body::new(alloc);
    for label in labels {
        body.push(*label)?;
    }
    list.push(rank, body)
}

fn names(alloc: Global) -> Result<Names, AllocError> {
    let mut names = Names::new(alloc);
    names.intern(alloc, Kind::Document, b"")?;
    names.intern(alloc, Kind::Element, b"a")?;
    names.intern(alloc, Kind::Element, b"b")?;
    names.intern(alloc, Kind::Text, b"")?;
    Ok(names)
}

// The hits that a run lists, where the texts have these marks.
fn find<L: Ledger>(
    alloc: Global,
    grammar: &Grammar,
    marks: [u32; 3],
    blank: Blank,
) -> Result<Vec<Hit>, Fail>
    requires swept { IsSwept (rules_in grammar.now.rules) }
    requires name { blank.name ≡ L.name }
    requires parts { blank.parts ≡ L.parts }
    requires some { 0 < blank.parts }
{
    let names = names(alloc)?;
    let counts = Counts::new(alloc, grammar, &names)?;
    let marks = Marks::of(alloc, Vec::from_array(alloc, marks)?)?;
    let mut steps: Steps<L> = Steps::new(blank);
    let run = ValueRun::new(
        alloc,
        grammar,
        &counts,
        &names,
        &marks,
        &MarkedTexts,
        true,
        &mut steps,
    )?;
    let hits = list_hits(alloc, &run)?;
    Ok(hits)
}

// All answers, and none behind the last of them.
fn list_hits(alloc: Global, run: &ValueRun) -> Result<Vec<Hit>, AllocError>
    requires { IsSome run.now.hits }
{
    let mut hits = Vec::new(alloc);
    let mut answers = run.answers(alloc)?;
    for _hit in 0..run.count().saturating_add(1) {
        if let Some(hit) = answers.next_hit()? {
            hits.push(hit)?;
        }
    }
    Ok(hits)
}

fn are_told(found: &[Hit], wanted: &[(u64, usize)]) -> bool {
    found
        .iter()
        .map(|hit| (hit.number, hit.symbol))
        .eq(wanted.iter().copied())
}

#[test]
fn marked_texts_are_told_apart(rt: HostRuntime) -> Result<(), Fail> {
    let alloc = rt.alloc();
    let mut list = RuleList::new(alloc);
    push_rule(alloc, &mut list, 1, &SHARED)?;
    push_rule(alloc, &mut list, 0, &START)?;
    let grammar = check(alloc, list)?;
    for (at, row) in ROWS.iter().enumerate() {
        let found = find::<Brand>(alloc, &grammar, row.marks, Blank::new(1))?;
        assert!(rt; are_told(found.as_slice(), row.hits), "row {at}");
    }
    Ok(())
}
