// How many nodes are open at once, of small grammars and of some whose values no memory holds.
ghost use Rattle.std.specs.Prelude.{◌≡◌, ◌<◌};
ghost use Rattle.preorder_address.specs.Numberings.{AreCountsOf};
ghost use Rattle.slt_grammar.specs.Keyed.{rules_of as rules_in};

use super::grammar::{PAIR, THRICE, doubled};
use Label::{Bottom, Call, Param, Symbol};
use plain_tree::Names;
use read_steps::Steps;
use segment_counts::Counts;
use slt_grammar::{Grammar, Label, check};
use std::alloc::{AllocError, Global};
use std::marker::Brand;
use std::sync::ledger::{Blank, Ledger};
use std::test::Fail;
use value_cursor::most_open;

// Rules that are doubled: what rule 0 is, how many rules double, the start, and how many nodes are open at most.
struct Row {
    unit: &'static [Label],
    times: usize,
    start: &'static [Label],
    most: usize,
}

// a(bottom, y1), one of siblings.
const SIBLING: &[Label] = &[Symbol(1), Bottom, Param];

// a(y1, bottom), which holds the next.
const HOLDER: &[Label] = &[Symbol(1), Param, Bottom];

// a(y1, a(a, bottom)), so that most nodes are open behind the parameter.
const BEHIND: &[Label] = &[
    Symbol(1),
    Param,
    Symbol(1),
    Symbol(1),
    Bottom,
    Bottom,
    Bottom,
];

static ROWS: [Row; 6] = [
    Row {
        unit: PAIR,
        times: 0,
        start: THRICE,
        most: 3,
    },
    Row {
        unit: SIBLING,
        times: 0,
        start: &[Symbol(0), Call(0), Call(0), Call(0), Bottom, Bottom],
        most: 2,
    },
    Row {
        unit: BEHIND,
        times: 0,
        start: &[Symbol(0), Call(0), Bottom, Bottom],
        most: 3,
    },
    // 2^40 siblings, as many levels, and 2^62 levels
    Row {
        unit: SIBLING,
        times: 40,
        start: &[Symbol(0), Symbol(1), Call(40), Bottom, Bottom, Bottom],
        most: 3,
    },
    Row {
        unit: HOLDER,
        times: 40,
        start: &[Symbol(0), Call(40), Bottom, Bottom],
        most: 1_099_511_627_777,
    },
    Row {
        unit: HOLDER,
        times: 62,
        start: &[Symbol(0), Call(62), Bottom, Bottom],
        most: 4_611_686_018_427_387_905,
    },
];

// The answer, read with a counter of its own.
fn open_in<L: Ledger>(
    alloc: Global,
    grammar: &Grammar,
    counts: &Counts,
    blank: Blank,
) -> Result<usize, AllocError>
    requires counts { AreCountsOf (rules_in grammar.now.rules) counts.now }
    requires name { blank.name ≡ L.name }
    requires parts { blank.parts ≡ L.parts }
    requires some { 0 < blank.parts }
{
    let mut steps: Steps<L> = Steps::new(blank);
    most_open(alloc, grammar, counts, &mut steps)
}

fn most_of(alloc: Global, row: &Row) -> Result<usize, Fail> {
    let grammar = check(alloc, doubled(alloc, row.unit, row.times, row.start)?)?;
    let counts = Counts::new(alloc, &grammar, &Names::new(alloc))?;
    Ok(open_in::<Brand>(alloc, &grammar, &counts, Blank::new(1))?)
}

#[test]
fn open_nodes_are_bounded(rt: HostRuntime) -> Result<(), Fail> {
    for (at, row) in ROWS.iter().enumerate() {
        let most = most_of(rt.alloc(), row)?;
        assert!(rt; most == row.most, "row {at}: {most}");
    }
    Ok(())
}
