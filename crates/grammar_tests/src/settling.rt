// Grammars in which digrams are replaced, that are pruned and settled.
use super::grammar::{Row, START, TWICE, rules_of};
use digram_index::build;
use local_repair::settle;
use pair_replace::replace;
use rule_pruning::{prune, saving};
use slt_grammar::Label::{self, Bottom, Call, Param, Symbol};
use slt_grammar::{Digram, Grammar, check};
use std::alloc::Global;
use std::test::Fail;

const DOCUMENT: Label = Symbol(0);

const A: Label = Symbol(1);

const B: Label = Symbol(2);

const P: Label = Symbol(3);

const Q: Label = Symbol(4);

// document(a(b(bottom, b(bottom, .. bottom)), bottom), bottom) with six b.
const SIX: Row = (
    0,
    &[
        DOCUMENT, A, B, Bottom, B, Bottom, B, Bottom, B, Bottom, B, Bottom, B, Bottom, Bottom,
        Bottom, Bottom,
    ],
);

// a(bottom, bottom), which the start calls once.
const ONCE: &[Row] = &[(0, &[A, Bottom, Bottom]), (0, &[DOCUMENT, Call(0), Bottom])];

// Rule 0 saves nothing. Where its body stands in rule 1, rule 1 saves a node, and did not before.
const LARGER: &[Row] = &[
    (1, &[A, Bottom, Param]),
    (0, &[Call(0), Bottom]),
    (0, &[DOCUMENT, Call(0), Call(1), Call(1)]),
];

// Two of rule 0's three calls stand in its own arguments.
const NESTED: &[Row] = &[
    (2, &[A, Param, Param]),
    (0, &[B, Bottom, Bottom]),
    (
        0,
        &[
            DOCUMENT,
            Call(0),
            Call(0),
            Call(1),
            Call(1),
            Call(0),
            Call(1),
            Bottom,
            Bottom,
        ],
    ),
];

// Rule 0 is a parameter alone: its arguments come in the places of its calls, one of which stands in the argument of another.
const BARE: &[Row] = &[
    (1, &[Param]),
    (
        0,
        &[
            DOCUMENT,
            Call(0),
            Call(0),
            A,
            Bottom,
            Bottom,
            Call(0),
            Bottom,
        ],
    ),
];

// Two rules that have p(q(bottom, bottom), bottom) in common, which stands nowhere else, are called three times each. Two rules more are called
// once.
const COMMON: &[Row] = &[
    (0, &[A, P, Q, Bottom, Bottom, Bottom, Bottom]),
    (0, &[B, P, Q, Bottom, Bottom, Bottom, Bottom]),
    (0, &[Symbol(5), Call(1), Bottom]),
    (0, &[Symbol(6), Call(1), Call(2)]),
    (
        0,
        &[
            Symbol(7),
            Call(0),
            Symbol(8),
            Call(0),
            Symbol(9),
            Call(0),
            Symbol(10),
            Call(1),
            Call(3),
        ],
    ),
];

// How often b has bottom as its first child in the six, and how many occurrences the first replacement folds there, in a grammar of so many
// nodes then.
fn replaced(alloc: Global) -> Result<Option<(u64, u64, u64)>, Fail> {
    let mut grammar = check(alloc, rules_of(alloc, &[SIX])?)?;
    let mut index = build(alloc, &grammar)?;
    let count = index.count(Digram {
        upper: B,
        place: 1,
        lower: Bottom,
    });
    let Some(digram) = index.top(&grammar, 8) else {
        return Ok(None);
    };
    let done = replace(alloc, &mut grammar, &mut index, digram)?;
    Ok(Some((count, done.count, grammar.size())))
}

#[test]
fn six_leaves_are_replaced(rt: HostRuntime) -> Result<(), Fail> {
    let done = replaced(rt.alloc())?;
    assert!(rt; done == Some((6, 6, 13)));
    Ok(())
}

// What the first rule saves, and nothing where it is the start.
fn first_saving(grammar: &Grammar) -> Option<i128> {
    if grammar.rules() > 1 {
        Some(saving(grammar, 0))
    } else {
        None
    }
}

// What the first rule saves, and how many rules and nodes the pruned grammar has.
fn pruned(alloc: Global, rules: &[Row]) -> Result<(Option<i128>, usize, u64), Fail> {
    let mut grammar = check(alloc, rules_of(alloc, rules)?)?;
    let saves = first_saving(&grammar);
    let mut index = build(alloc, &grammar)?;
    prune(alloc, &mut grammar, &mut index)?;
    Ok((saves, grammar.rules(), grammar.size()))
}

static PRUNED: [(&[Row], i128, usize, u64); 5] = [
    (&[TWICE, START], 5, 2, 12),
    (ONCE, -1, 1, 5),
    (LARGER, 0, 2, 8),
    (NESTED, -1, 2, 12),
    (BARE, -3, 1, 5),
];

#[test]
fn rules_that_save_nothing_go(rt: HostRuntime) -> Result<(), Fail> {
    for (row, &(rules, saves, left, size)) in PRUNED.iter().enumerate() {
        let done = pruned(rt.alloc(), rules)?;
        assert!(rt; done == (Some(saves), left, size), "row {row}");
    }
    Ok(())
}

// How many rules and nodes the settled grammar has.
fn settled(alloc: Global, rules: &[Row]) -> Result<(usize, u64), Fail> {
    let mut grammar = check(alloc, rules_of(alloc, rules)?)?;
    settle(alloc, &mut grammar, 4)?;
    Ok((grammar.rules(), grammar.size()))
}

static SETTLED: [(&[Row], usize, u64); 3] = [
    (&[TWICE, START], 2, 12),
    // The six leaves of b go, and of the chain of six calls that is left every other one of five pairs. Settling inlines the first rule.
    (&[SIX], 2, 12),
    // Without the two rules that are called once there are 7 + 7 + 13 nodes in three rules, where five rules had 29: the grammar is
    // settled, and four more rules of two nodes make it no heavier than it was. The four digrams of the common part stand twice each, so it
    // becomes a rule of 5 nodes, which both rules call: 5 + 3 + 3 + 13 nodes in four rules.
    (COMMON, 4, 24),
];

#[test]
fn grammars_are_settled(rt: HostRuntime) -> Result<(), Fail> {
    for (row, &(rules, left, size)) in SETTLED.iter().enumerate() {
        let done = settled(rt.alloc(), rules)?;
        assert!(rt; done == (left, size), "row {row}");
    }
    Ok(())
}
