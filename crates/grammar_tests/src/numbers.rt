// What is told of the nodes of small documents by their numbers, over grammars of two or three rules.
ghost use Rattle.std.specs.Prelude.{◌≡◌, ◌<◌};
ghost use Rattle.segment_counts.specs.Counting.{AreCounts};
ghost use Rattle.slt_grammar.specs.Keyed.{rules_of};

use super::counts::small_names;
use super::grammar::{Row, START, TWICE, rules_of};
use plain_tree::{Kind, Names};
use preorder_address::{extent, kind_of, next_sibling, parent_of, text_rank};
use read_steps::Steps;
use segment_counts::Counts;
use slt_grammar::Label::{Bottom, Call, Param, Symbol};
use slt_grammar::{Grammar, check};
use std::alloc::{AllocError, Global};
use std::marker::Brand;
use std::sync::ledger::{Blank, Ledger};
use std::test::Fail;

// <a x=".." y=".."><b/>..</a>, where rule 0 is x(bottom, y(bottom, y1)).
pub(super) const ATTRIBUTES: &[Row] = &[
    (1, &[Symbol(4), Bottom, Symbol(5), Bottom, Param]),
    (
        0,
        &[
            Symbol(0),
            Symbol(1),
            Call(0),
            Symbol(2),
            Bottom,
            Symbol(3),
            Bottom,
            Bottom,
            Bottom,
            Bottom,
        ],
    ),
];

// <a><b><b/></b><b><b/>..</b></a>, where rule 0 is b(y1, b(y2, bottom)) and rule 1 calls it with y1 and b(bottom, y2).
const NESTED: &[Row] = &[
    (2, &[Symbol(2), Param, Symbol(2), Param, Bottom]),
    (2, &[Call(0), Param, Symbol(2), Bottom, Param]),
    (
        0,
        &[
            Symbol(0),
            Symbol(1),
            Call(1),
            Symbol(2),
            Bottom,
            Bottom,
            Symbol(3),
            Bottom,
            Bottom,
            Bottom,
            Bottom,
        ],
    ),
];

// A node's kind, how many nodes are below it, how many texts belong to those before it, its next sibling, and its parent.
type Told = (Kind, u64, u64, Option<u64>, Option<u64>);

const ATTRIBUTES_TOLD: &[Told] = &[
    (Kind::Document, 5, 0, None, None),
    (Kind::Element, 4, 0, None, Some(0)),
    (Kind::Attribute, 0, 0, Some(3), Some(1)),
    (Kind::Attribute, 0, 1, Some(4), Some(1)),
    (Kind::Element, 0, 2, Some(5), Some(1)),
    (Kind::Text, 0, 2, None, Some(1)),
];

const ELEMENTS_TOLD: &[Told] = &[
    (Kind::Document, 7, 0, None, None),
    (Kind::Element, 6, 0, None, Some(0)),
    (Kind::Element, 0, 0, Some(3), Some(1)),
    (Kind::Element, 0, 0, Some(4), Some(1)),
    (Kind::Element, 0, 0, Some(5), Some(1)),
    (Kind::Element, 0, 0, Some(6), Some(1)),
    (Kind::Element, 0, 0, Some(7), Some(1)),
    (Kind::Element, 0, 0, None, Some(1)),
];

const NESTED_TOLD: &[Told] = &[
    (Kind::Document, 6, 0, None, None),
    (Kind::Element, 5, 0, None, Some(0)),
    (Kind::Element, 1, 0, Some(4), Some(1)),
    (Kind::Element, 0, 0, None, Some(2)),
    (Kind::Element, 2, 0, None, Some(1)),
    (Kind::Element, 0, 0, Some(6), Some(4)),
    (Kind::Text, 0, 0, None, Some(4)),
];

// The names of the grammars above: those of small grammars, and two attributes.
pub(super) fn names(alloc: Global) -> Result<Names, AllocError> {
    let mut names = small_names(alloc)?;
    names.intern(alloc, Kind::Attribute, b"x")?;
    names.intern(alloc, Kind::Attribute, b"y")?;
    Ok(names)
}

// What each call tells of a number, read with a counter of its own.
fn tell<L: Ledger>(
    grammar: &Grammar,
    counts: &Counts,
    names: &Names,
    number: u64,
    blank: Blank,
) -> Option<Told>
    requires counts { AreCounts names.now (rules_of grammar.now.rules) counts.now }
    requires name { blank.name ≡ L.name }
    requires parts { blank.parts ≡ L.parts }
    requires some { 0 < blank.parts }
{
    let mut steps: Steps<L> = Steps::new(blank);
    Some((
        kind_of(grammar, counts, names, number, &mut steps)?,
        extent(grammar, counts, number, &mut steps)?,
        text_rank(grammar, counts, names, number, &mut steps)?,
        next_sibling(grammar, counts, number, &mut steps)?,
        parent_of(grammar, counts, number, &mut steps).ok()??,
    ))
}

// Whether all is told so, and nothing of the number behind the last.
fn are_told(alloc: Global, names: &Names, rules: &[Row], wanted: &[Told]) -> Result<bool, Fail> {
    let grammar = check(alloc, rules_of(alloc, rules)?)?;
    let counts = Counts::new(alloc, &grammar, names)?;
    for number in 0..wanted.len() + 1 {
        let told = tell::<Brand>(&grammar, &counts, names, number as u64, Blank::new(1));
        if told != wanted.get(number).copied() {
            return Ok(false);
        }
    }
    Ok(true)
}

static TABLES: [(&[Row], &[Told]); 3] = [
    (ATTRIBUTES, ATTRIBUTES_TOLD),
    (&[TWICE, START], ELEMENTS_TOLD),
    (NESTED, NESTED_TOLD),
];

#[test]
fn numbers_tell_of_their_nodes(rt: HostRuntime) -> Result<(), Fail> {
    let names = names(rt.alloc())?;
    for (row, &(rules, wanted)) in TABLES.iter().enumerate() {
        let is_right = are_told(rt.alloc(), &names, rules, wanted)?;
        assert!(rt; is_right, "row {row}");
    }
    Ok(())
}
