// Rules as tables, rules that are no grammar, and the labels that a grammar tells.
use GrammarError::{Linear, Order, Rank, Unused};
use Label::{Bottom, Call, Param, Symbol};
use read_steps::Steps;
use slt_grammar::{Body, Grammar, GrammarError, Label, RuleList, check};
use std::alloc::{AllocError, Global};
use std::sync::ledger::Ledger;
use std::test::Fail;

// A rank and the labels of a body.
pub(super) type Row = (usize, &'static [Label]);

// b(bottom, b(bottom, y1)).
pub(super) const PAIR: &[Label] = &[Symbol(2), Bottom, Symbol(2), Bottom, Param];

pub(super) const TWICE: Row = (1, PAIR);

// document(a(c(c(c(bottom))), bottom), bottom), where c is rule 0.
pub(super) const THRICE: &[Label] = &[
    Symbol(0),
    Symbol(1),
    Call(0),
    Call(0),
    Call(0),
    Bottom,
    Bottom,
    Bottom,
];

pub(super) const START: Row = (0, THRICE);

fn body_of(alloc: Global, labels: &[Label]) -> Result<Body, AllocError> {
    let mut body = Body::new(alloc);
    for label in labels {
        body.push(*label)?;
    }
    Ok(body)
}

pub(super) fn rules_of(alloc: Global, rows: &[Row]) -> Result<RuleList, AllocError> {
    let mut rules = RuleList::new(alloc);
    for &(rank, labels) in rows {
        rules.push(rank, body_of(alloc, labels)?)?;
    }
    Ok(rules)
}

// Rule 0 has this body, and each further one of `times` calls the one before within itself, so that rule k is rule 0 2^k times over. The
// start has these labels.
pub(super) fn doubled(
    alloc: Global,
    unit: &'static [Label],
    times: usize,
    start: &'static [Label],
) -> Result<RuleList, AllocError> {
    let mut rules = rules_of(alloc, &[(1, unit)])?;
    for rule in 0..times {
        rules.push(1, body_of(alloc, &[Call(rule), Call(rule), Param])?)?;
    }
    rules.push(0, body_of(alloc, start)?)?;
    Ok(rules)
}

static FAULTS: [(&[Row], GrammarError); 14] = [
    (&[], Rank { rule: 0 }),
    (&[(2, PAIR), START], Linear { rule: 0 }),
    (
        &[TWICE, (0, &[Symbol(0), Call(1), Bottom, Bottom])],
        Order { rule: 1 },
    ),
    // A rule that calls itself.
    (
        &[(1, &[Call(0), Param]), (0, &[Call(0), Bottom])],
        Order { rule: 0 },
    ),
    // No label, one too few, two terms.
    (&[(0, &[])], Rank { rule: 0 }),
    (&[(0, &[Symbol(0), Bottom])], Rank { rule: 0 }),
    (&[(0, &[Bottom, Bottom])], Rank { rule: 0 }),
    (&[TWICE, (0, &[Call(0), Bottom, Bottom])], Rank { rule: 1 }),
    // A rank above 8, a start that has one.
    (&[(9, &[Bottom]), START], Rank { rule: 0 }),
    (&[TWICE], Rank { rule: 0 }),
    // A parameter too many, and one too few.
    (&[(0, &[Symbol(0), Param, Bottom])], Linear { rule: 0 }),
    (&[(1, &[Bottom]), START], Linear { rule: 0 }),
    // The first of two that are not called; other faults come before.
    (&[TWICE, (0, &[Bottom]), TWICE, START], Unused { rule: 1 }),
    (&[(0, &[Bottom]), (0, &[Call(1)])], Order { rule: 1 }),
];

#[test]
fn the_first_fault_is_named(rt: HostRuntime) -> Result<(), Fail> {
    for (row, &(rules, fault)) in FAULTS.iter().enumerate() {
        let answer = check(rt.alloc(), rules_of(rt.alloc(), rules)?);
        assert!(rt; answer.err() == Some(fault), "row {row}");
    }
    Ok(())
}

// The labels of all bodies, one after another.
pub(super) fn labels_of<L: Ledger>(
    alloc: Global,
    grammar: &Grammar,
    steps: &mut Steps<L>,
) -> Result<Vec<Label>, AllocError> {
    let mut labels = Vec::new(alloc);
    for rule in 0..grammar.rules() {
        let mut walk = grammar.walk(rule);
        while let Some(label) = walk.next(steps) {
            labels.push(label)?;
        }
    }
    Ok(labels)
}
