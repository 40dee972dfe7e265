// A digram that occurs across the border of two rules.
ghost use Rattle.std.specs.Prelude.{◌≡◌, ◌<◌, IfOk};
ghost use Rattle.slt_grammar.specs.Grammars.{IsSwept};
ghost use Rattle.slt_grammar.specs.Keyed.{rules_of as rules_in};
ghost use Rattle.slt_grammar.specs.declared.digram.Digram.{Digram};
ghost use Rattle.border_repair.specs.Counted.{counted};
ghost use Rattle.border_repair.specs.Digrams.{occurrences};

use super::grammar::{Row, labels_of, rules_of};
use border_repair::{Weights, across};
use plain_tree::Names;
use read_steps::Steps;
use segment_counts::Counts;
use slt_grammar::Label::{self, Bottom, Call, Param, Symbol};
use slt_grammar::{Digram, Grammar, check};
use std::alloc::Global;
use std::marker::Brand;
use std::sync::ledger::{Blank, Ledger};
use std::test::Fail;

const DOCUMENT: Label = Symbol(0);

const A: Label = Symbol(1);

const B: Label = Symbol(2);

// document(a(b(bottom, bottom), bottom), bottom), where rule 0 is b(y1, bottom): the first child of b stands in the start.
const APART: &[Row] = &[
    (1, &[B, Param, Bottom]),
    (0, &[DOCUMENT, A, Call(0), Bottom, Bottom, Bottom]),
];

// Then rule 0 is b(bottom, y1), rule 1 is the other bottom, and the start calls both.
const TOGETHER: &[Label] = &[
    B,
    Bottom,
    Param,
    Bottom,
    DOCUMENT,
    A,
    Call(0),
    Call(1),
    Bottom,
    Bottom,
];

// How often digrams occur in a small grammar's value.
fn weights_of(alloc: Global, grammar: &Grammar) -> Result<Weights, Fail>
    requires swept { IsSwept (rules_in grammar.now.rules) }
    ensures { IfOk result (λ w. (d : Digram) → counted w d ≡ occurrences d (rules_in grammar.now.rules)) }
{
    // The counts tell that the value has few nodes.
    let _counts = Counts::new(alloc, grammar, &Names::new(alloc))?;
    let weights = Weights::new(alloc, grammar)?;
    Ok(weights)
}

// How often b has bottom as its first child, and the labels of all rules once these are a rule.
fn replaced<L: Ledger>(alloc: Global, blank: Blank) -> Result<(u64, Vec<Label>), Fail>
    requires name { blank.name ≡ L.name }
    requires parts { blank.parts ≡ L.parts }
    requires some { 0 < blank.parts }
{
    let mut steps: Steps<L> = Steps::new(blank);
    let mut grammar = check(alloc, rules_of(alloc, APART)?)?;
    let digram = Digram {
        upper: B,
        place: 1,
        lower: Bottom,
    };
    let weight = weights_of(alloc, &grammar)?.get(digram);
    if weight > 0 {
        across(alloc, &mut grammar, digram)?;
    }
    Ok((weight, labels_of(alloc, &grammar, &mut steps)?))
}

#[test]
fn a_digram_of_two_rules_is_replaced(rt: HostRuntime) -> Result<(), Fail> {
    let (weight, labels) = replaced::<Brand>(rt.alloc(), Blank::new(1))?;
    assert!(rt; weight == 1);
    assert!(rt; labels.as_slice() == TOGETHER);
    Ok(())
}
