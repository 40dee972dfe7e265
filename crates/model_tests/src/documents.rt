// Documents as grammars, and their wrong elements.
ghost use Rattle.slt_grammar.specs.Grammars.{IsSwept};
ghost use Rattle.slt_grammar.specs.Keyed.{rules_of as rules_in};
ghost use Rattle.std.specs.Prelude.{◌≡◌, ◌<◌};

use content_models::{Checker, read_schema};
use plain_tree::{Kind, Names};
use read_steps::Steps;
use rule_runs::{Answers, fall, rise};
use segment_counts::Counts;
use slt_grammar::Label::{self, Bottom, Call, Param, Symbol};
use slt_grammar::{Body, Grammar, RuleList, check};
use std::alloc::{AllocError, Global};
use std::marker::Brand;
use std::sync::ledger::{Blank, Ledger};
use std::test::Fail;

const DOCUMENT: usize = 0;

const A: usize = 1;

const B: usize = 2;

const C: usize = 3;

const R: usize = 4;

fn table(alloc: Global) -> Result<Names, AllocError> {
    let mut names = Names::new(alloc);
    names.intern(alloc, Kind::Document, b"")?;
    for name in [b"a", b"b", b"c", b"r"] {
        names.intern(alloc, Kind::Element, name)?;
    }
    Ok(names)
}

// How many elements are wrong, and the number of the first.
fn wrong<L: Ledger>(
    alloc: Global,
    grammar: &Grammar,
    checker: &Checker,
    blank: Blank,
) -> Result<(u64, Option<u64>), Fail>
    requires swept { IsSwept (rules_in grammar.now.rules) }
    requires name { blank.name ≡ L.name }
    requires parts { blank.parts ≡ L.parts }
    requires some { 0 < blank.parts }
{
    // The counts tell that the value has few nodes.
    let _counts = Counts::new(alloc, grammar, &Names::new(alloc))?;
    let mut steps: Steps<L> = Steps::new(blank);
    let risen = rise(alloc, grammar, checker, true, &mut steps)?;
    let fallen = fall(alloc, grammar, checker, &risen, None, true, &mut steps)?;
    let first = Answers::new(alloc, &fallen)?.next()?;
    Ok((fallen.count(), first))
}

fn start(alloc: Global, labels: &[Label]) -> Result<RuleList, AllocError> {
    let mut list = RuleList::new(alloc);
    add_rule(alloc, &mut list, 0, labels)?;
    Ok(list)
}

fn add_rule(
    alloc: Global,
    list: &mut RuleList,
    rank: usize,
    labels: &[Label],
) -> Result<(), AllocError> {
    let mut body = Body::new(alloc);
    for label in labels {
        body.push(*label)?;
    }
    list.push(rank, body)
}

// An element `r` of 2^40 elements `a`.
fn many(alloc: Global) -> Result<RuleList, AllocError> {
    let mut list = RuleList::new(alloc);
    add_rule(alloc, &mut list, 1, &[Symbol(A), Bottom, Param])?;
    for rule in 0..40 {
        add_rule(alloc, &mut list, 1, &[Call(rule), Call(rule), Param])?;
    }
    let document = [
        Symbol(DOCUMENT),
        Symbol(R),
        Call(40),
        Bottom,
        Bottom,
        Bottom,
    ];
    add_rule(alloc, &mut list, 0, &document)?;
    Ok(list)
}

// The same for rules and the bytes of a schema.
fn wrong_in<L: Ledger>(
    alloc: Global,
    rules: RuleList,
    schema: &[u8],
    blank: Blank,
) -> Result<(u64, Option<u64>), Fail>
    requires name { blank.name ≡ L.name }
    requires parts { blank.parts ≡ L.parts }
    requires some { 0 < blank.parts }
{
    let names = table(alloc)?;
    let checker = read_schema(alloc, schema)?.compile(alloc, &names)?;
    let grammar = check(alloc, rules)?;
    wrong::<L>(alloc, &grammar, &checker, blank)
}

// The labels of a document under a schema, how many elements are wrong, and the number of the first.
struct Row {
    labels: &'static [Label],
    schema: &'static [u8],
    wrong: (u64, Option<u64>),
}

static ROWS: [Row; 3] = [
    // <a><b/><c/><b/></a>
    Row {
        labels: &[
            Symbol(DOCUMENT),
            Symbol(A),
            Symbol(B),
            Bottom,
            Symbol(C),
            Bottom,
            Symbol(B),
            Bottom,
            Bottom,
            Bottom,
            Bottom,
        ],
        schema: b"a = (b, c?)+",
        wrong: (0, None),
    },
    // <a><b/><c/><c/></a>
    Row {
        labels: &[
            Symbol(DOCUMENT),
            Symbol(A),
            Symbol(B),
            Bottom,
            Symbol(C),
            Bottom,
            Symbol(C),
            Bottom,
            Bottom,
            Bottom,
            Bottom,
        ],
        schema: b"a = (b, c?)+",
        wrong: (1, Some(1)),
    },
    // <r><a><b/></a><a/></r>
    Row {
        labels: &[
            Symbol(DOCUMENT),
            Symbol(R),
            Symbol(A),
            Symbol(B),
            Bottom,
            Bottom,
            Symbol(A),
            Bottom,
            Bottom,
            Bottom,
            Bottom,
        ],
        schema: b"r = a*\na = b",
        wrong: (1, Some(4)),
    },
];

#[test]
fn wrong_elements_are_found(rt: HostRuntime) -> Result<(), Fail> {
    for (at, row) in ROWS.iter().enumerate() {
        let rules = start(rt.alloc(), row.labels)?;
        let found = wrong_in::<Brand>(rt.alloc(), rules, row.schema, Blank::new(1))?;
        assert!(rt; found == row.wrong, "row {at}");
    }
    Ok(())
}

// Schemas for the row of 2^40 elements, with what is wrong.
static SCHEMAS: [(&[u8], (u64, Option<u64>)); 3] = [
    (b"r = (a, a)*", (0, None)),
    (b"r = (a, a, a)*", (1, Some(1))),
    (b"a = b", (1 << 40, Some(2))),
];

#[test]
fn as_many_elements_as_can_be_are_checked(rt: HostRuntime) -> Result<(), Fail> {
    for (at, &(schema, wrong)) in SCHEMAS.iter().enumerate() {
        let found = wrong_in::<Brand>(rt.alloc(), many(rt.alloc())?, schema, Blank::new(1))?;
        assert!(rt; found == wrong, "row {at}");
    }
    Ok(())
}
