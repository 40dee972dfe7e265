// A call that is inlined and made again.
ghost use Rattle.std.specs.Prelude.{◌≡◌, ◌<◌, IfSome, length, true};
ghost use Rattle.slt_grammar.specs.KeyedEdits.{StandsAsCall, StandsAsSymbol};
ghost use Rattle.slt_grammar.specs.Wrapping.{IsInStart};

use super::grammar::{Row, labels_of, rules_of};
use Label::{Bottom, Call, Param, Symbol};
use read_steps::Steps;
use slt_grammar::{Grammar, Key, Label, check};
use std::alloc::{AllocError, Global};
use std::marker::Brand;
use std::sync::ledger::{Blank, Ledger};
use std::test::Fail;

// c(d(bottom, y1), y2).
const FORK: Row = (2, &[Symbol(2), Symbol(3), Bottom, Param, Param]);

// a(c(d(bottom, bottom), e(bottom, bottom)), bottom), where c and d are rule 0.
const CALLED: &[Label] = &[
    Symbol(1),
    Call(0),
    Bottom,
    Symbol(4),
    Bottom,
    Bottom,
    Bottom,
];

// What becomes of the start where a symbol is changed between the two, and of the rule before it.
static ROWS: [(Option<usize>, &[Label]); 2] = [
    (
        None,
        &[
            Symbol(2),
            Symbol(3),
            Bottom,
            Param,
            Param,
            Symbol(1),
            Call(0),
            Bottom,
            Symbol(4),
            Bottom,
            Bottom,
            Bottom,
        ],
    ),
    // The node below the first one is another: the term doesn't begin with the body any more.
    (
        Some(9),
        &[
            Symbol(2),
            Symbol(3),
            Bottom,
            Param,
            Param,
            Symbol(1),
            Symbol(2),
            Symbol(9),
            Bottom,
            Bottom,
            Symbol(4),
            Bottom,
            Bottom,
            Bottom,
        ],
    ),
];

// The start's second node.
fn second<L: Ledger>(grammar: &Grammar, steps: &mut Steps<L>) -> Option<Key>
    ensures { IfSome result (λ key. IsInStart grammar.now.rules key) }
{
    let start = grammar.rules() - 1;
    grammar.next_in_preorder(grammar.root(start), steps)
}

// The node behind one, where it is a symbol.
fn symbol_behind<L: Ledger>(grammar: &Grammar, key: Key, steps: &mut Steps<L>) -> Option<Key>
    requires { IsInStart grammar.now.rules key }
    ensures { IfSome result (λ next. StandsAsSymbol grammar.now.rules next) }
{
    let next = grammar.next_in_preorder(key, steps)?;
    match grammar.label(next, steps) {
        Label::Symbol(_) => Some(next),
        _ => None,
    }
}

// Whether a node is a call.
fn is_call<L: Ledger>(grammar: &Grammar, key: Key, steps: &mut Steps<L>) -> bool
    requires { IsInStart grammar.now.rules key }
    ensures { result ≡ true → StandsAsCall grammar.now.rules key }
{
    match grammar.label(key, steps) {
        Label::Call(_) => true,
        _ => false,
    }
}

// Makes a call of rule 0 of a term of the start that begins with its body.
fn call_again<L: Ledger>(
    grammar: &mut Grammar,
    at: Key,
    steps: &mut Steps<L>,
) -> Result<(), AllocError>
    requires there { IsInStart grammar.old.rules at }
    requires two { 1 < length grammar.old.rules }
{
    grammar.reserve(9, 0)?;
    if let Some(arguments) = grammar.match_at(at, 0, steps) {
        grammar.call_at(at, 0, arguments.as_slice());
    }
    Ok(())
}

// Inlines the start's second node, changes the symbol below it, and makes the call again.
fn edited<L: Ledger>(alloc: Global, symbol: Option<usize>, blank: Blank) -> Result<Vec<Label>, Fail>
    requires name { blank.name ≡ L.name }
    requires parts { blank.parts ≡ L.parts }
    requires some { 0 < blank.parts }
{
    let mut steps: Steps<L> = Steps::new(blank);
    let mut grammar = check(alloc, rules_of(alloc, &[FORK, (0, CALLED)])?)?;
    make(&mut grammar, symbol, &mut steps)?;
    Ok(labels_of(alloc, &grammar, &mut steps)?)
}

fn make<L: Ledger>(
    grammar: &mut Grammar,
    symbol: Option<usize>,
    steps: &mut Steps<L>,
) -> Result<(), AllocError> {
    let Some(call) = second(grammar, steps) else {
        return Ok(());
    };
    if !is_call(grammar, call, steps) {
        return Ok(());
    }
    grammar.inline(call, call)?;
    let Some(at) = second(grammar, steps) else {
        return Ok(());
    };
    if let Some(symbol) = symbol {
        if let Some(below) = symbol_behind(grammar, at, steps) {
            grammar.relabel(below, symbol);
        }
    }
    let Some(at) = second(grammar, steps) else {
        return Ok(());
    };
    if grammar.rules() > 1 {
        call_again(grammar, at, steps)?;
    }
    Ok(())
}

#[test]
fn a_call_is_made_again_of_what_it_stood_for(rt: HostRuntime) -> Result<(), Fail> {
    for (row, &(symbol, wanted)) in ROWS.iter().enumerate() {
        let labels = edited::<Brand>(rt.alloc(), symbol, Blank::new(1))?;
        assert!(rt; labels.as_slice() == wanted, "row {row}");
    }
    Ok(())
}
