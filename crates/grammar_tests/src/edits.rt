// Grammars that are edited by the calls that take no part in settling: their rules afterwards, written by hand.
ghost use Rattle.std.specs.Prelude.{◌≡◌, ◌<◌, ◌∷◌, [], IfOk, IfSome};
ghost use Rattle.rule_arena.specs.declared.label.Label.TheVariants.{Bottom, Param, Symbol};
ghost use Rattle.slt_grammar.specs.KeyedEdits.{StandsInStart};

use super::grammar::{START, TWICE, labels_of, rules_of};
use Label::{Bottom, Call, Param, Symbol};
use read_steps::Steps;
use slt_grammar::{Body, Grammar, Key, Label, check};
use std::alloc::{AllocError, Global};
use std::marker::Brand;
use std::sync::ledger::{Blank, Ledger};
use std::test::Fail;

// What is done to the second symbol of the start.
#[derive(Clone, Copy)]
enum Edit {
    Relabel,
    Lift,
    Wrap,
    Share,
}

// The bodies of all rules then, one after another.
static ROWS: [(Edit, &[Label]); 4] = [
    (
        Edit::Relabel,
        &[
            Symbol(2),
            Bottom,
            Symbol(2),
            Bottom,
            Param,
            Symbol(0),
            Symbol(9),
            Call(0),
            Call(0),
            Call(0),
            Bottom,
            Bottom,
            Bottom,
        ],
    ),
    (
        Edit::Lift,
        &[
            Symbol(2),
            Bottom,
            Symbol(2),
            Bottom,
            Param,
            Symbol(0),
            Bottom,
            Bottom,
        ],
    ),
    (
        Edit::Wrap,
        &[
            Symbol(2),
            Bottom,
            Symbol(2),
            Bottom,
            Param,
            Symbol(0),
            Symbol(9),
            Symbol(1),
            Call(0),
            Call(0),
            Call(0),
            Bottom,
            Bottom,
            Bottom,
            Bottom,
        ],
    ),
    (
        Edit::Share,
        &[
            Symbol(2),
            Bottom,
            Symbol(2),
            Bottom,
            Param,
            Symbol(1),
            Call(0),
            Call(0),
            Call(0),
            Bottom,
            Bottom,
            Symbol(0),
            Call(1),
            Bottom,
        ],
    ),
];

// The key of the start's second node, where it is a symbol.
fn second_symbol<L: Ledger>(grammar: &Grammar, steps: &mut Steps<L>) -> Option<Key>
    ensures { IfSome result (λ k. StandsInStart grammar.now.rules k) }
{
    let rule = grammar.rules() - 1;
    let key = grammar.next_in_preorder(grammar.root(rule), steps)?;
    match grammar.label(key, steps) {
        Label::Symbol(_) => Some(key),
        _ => None,
    }
}

// A symbol over a parameter and a bottom.
fn wrapper(alloc: Global) -> Result<Body, AllocError>
    ensures { IfOk result (λ body. body ≡ Symbol 9 ∷ Param ∷ Bottom ∷ []) }
{
    let mut body = Body::new(alloc);
    body.push(Symbol(9))?;
    body.push(Param)?;
    body.push(Bottom)?;
    Ok(body)
}

fn make<L: Ledger>(
    alloc: Global,
    grammar: &mut Grammar,
    edit: Edit,
    steps: &mut Steps<L>,
) -> Result<(), AllocError> {
    let Some(key) = second_symbol(grammar, steps) else {
        return Ok(());
    };
    match edit {
        Edit::Relabel => grammar.relabel(key, 9),
        Edit::Lift => grammar.lift(key),
        Edit::Wrap => wrap(alloc, grammar, key)?,
        Edit::Share => {
            grammar.share(key)?;
        }
    }
    Ok(())
}

fn wrap(alloc: Global, grammar: &mut Grammar, key: Key) -> Result<(), AllocError>
    requires { StandsInStart grammar.old.rules key }
{
    let body = wrapper(alloc)?;
    grammar.wrap(key, &body)
}

// The labels of the rules after an edit, read with a counter of their own.
fn edited<L: Ledger>(alloc: Global, done: Edit, blank: Blank) -> Result<Vec<Label>, Fail>
    requires name { blank.name ≡ L.name }
    requires parts { blank.parts ≡ L.parts }
    requires some { 0 < blank.parts }
{
    let mut steps: Steps<L> = Steps::new(blank);
    let mut grammar = check(alloc, rules_of(alloc, &[TWICE, START])?)?;
    make(alloc, &mut grammar, done, &mut steps)?;
    Ok(labels_of(alloc, &grammar, &mut steps)?)
}

#[test]
fn edits_leave_these_rules(rt: HostRuntime) -> Result<(), Fail> {
    for (row, &(done, wanted)) in ROWS.iter().enumerate() {
        let labels = edited::<Brand>(rt.alloc(), done, Blank::new(1))?;
        assert!(rt; labels.as_slice() == wanted, "row {row}");
    }
    Ok(())
}
