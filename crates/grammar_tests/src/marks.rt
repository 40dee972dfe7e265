// Descents that begin at the marks of those before, over a start of a thousand elements.
ghost use Rattle.std.specs.Prelude.{◌≡◌, ◌<◌};
ghost use Rattle.preorder_address.specs.Marks.{AreMarks};
ghost use Rattle.segment_counts.specs.Counting.{AreCounts};
ghost use Rattle.slt_grammar.specs.Keyed.{rules_of};

use super::counts::small_names;
use plain_tree::Names;
use preorder_address::{Marks, find_marked};
use read_steps::Steps;
use segment_counts::Counts;
use slt_grammar::Label::{Bottom, Symbol};
use slt_grammar::{Body, Grammar, RuleList, check};
use std::alloc::{AllocError, Global};
use std::marker::Brand;
use std::sync::ledger::{Blank, Ledger};
use std::test::Fail;

// <a><b/>..</a> with a thousand elements in the root.
fn flat_rules(alloc: Global) -> Result<RuleList, AllocError> {
    let mut body = Body::new(alloc);
    body.push(Symbol(0))?;
    body.push(Symbol(1))?;
    for _kid in 0..1000 {
        body.push(Symbol(2))?;
        body.push(Bottom)?;
    }
    for _end in 0..3 {
        body.push(Bottom)?;
    }
    let mut rules = RuleList::new(alloc);
    rules.push(0, body)?;
    Ok(rules)
}

// The place of the node with this number.
fn place_at<L: Ledger>(
    alloc: Global,
    grammar: &Grammar,
    counts: &Counts,
    names: &Names,
    number: u64,
    marks: &mut Marks,
    steps: &mut Steps<L>,
) -> Result<Option<u64>, AllocError>
    requires counts { AreCounts names.now (rules_of grammar.now.rules) counts.now }
    requires marks { AreMarks names.now grammar.now.rules marks.old }
    ensures { AreMarks names.now grammar.now.rules marks.new }
{
    match find_marked(alloc, grammar, counts, names, number, marks, steps)? {
        Some(spot) => Ok(Some(spot.place())),
        None => Ok(None),
    }
}

// The places of some nodes, of the last one first.
fn places<L: Ledger>(
    alloc: Global,
    grammar: &Grammar,
    counts: &Counts,
    names: &Names,
    blank: Blank,
) -> Result<[Option<u64>; 5], AllocError>
    requires counts { AreCounts names.now (rules_of grammar.now.rules) counts.now }
    requires name { blank.name ≡ L.name }
    requires parts { blank.parts ≡ L.parts }
    requires some { 0 < blank.parts }
{
    let mut steps: Steps<L> = Steps::new(blank);
    let mut marks = Marks::new(alloc);
    let last = place_at(alloc, grammar, counts, names, 1001, &mut marks, &mut steps)?;
    let middle = place_at(alloc, grammar, counts, names, 500, &mut marks, &mut steps)?;
    let root = place_at(alloc, grammar, counts, names, 0, &mut marks, &mut steps)?;
    let none = place_at(alloc, grammar, counts, names, 1002, &mut marks, &mut steps)?;
    marks.clear();
    let anew = place_at(alloc, grammar, counts, names, 700, &mut marks, &mut steps)?;
    Ok([last, middle, root, none, anew])
}

#[test]
fn marks_lead_to_the_same_nodes(rt: HostRuntime) -> Result<(), Fail> {
    let names = small_names(rt.alloc())?;
    let grammar = check(rt.alloc(), flat_rules(rt.alloc())?)?;
    let counts = Counts::new(rt.alloc(), &grammar, &names)?;
    let places = places::<Brand>(rt.alloc(), &grammar, &counts, &names, Blank::new(1))?;
    assert!(rt; places == [Some(2000), Some(998), Some(0), None, Some(1398)]);
    Ok(())
}
