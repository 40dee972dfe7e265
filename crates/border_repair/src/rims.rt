// What each rule's value shows to those who call it.
ghost use Rattle.std.specs.Prelude.{◌≡◌, ◌+◌, ◌<◌, ◌≤◌, ◌++◌, ◌∷◌, [], ℕ, None, Some, length, reverse, OnOk, OnErr, IfOk, IfSome};
ghost use Rattle.slt_grammar.specs.Bodies.{params};
ghost use Rattle.slt_grammar.specs.Grammars.{body_at, IsGrammar};
ghost use Rattle.slt_grammar.specs.Keyed.{rules_of};
ghost use Rattle.border_repair.specs.Rims.{rim_at, AreRimsOf};
ghost use Rattle.border_repair.specs.Weighing.{below, under, root_from, borders_from, rim_of};

use arrayvec::ArrayVec;
use read_steps::Steps;
use slt_grammar::{Grammar, Label};
use std::alloc::{AllocError, Global};
use std::marker::{Brand, Model};
use std::sync::ledger::{Blank, Ledger};

/// The symbol above a node and the place under it from 1 on, and none above a rule's root.
pub(crate) type Above = Option<(usize, usize)>;

/// What is known of a rule's value: the label of its root, where that is no parameter, and what is above each parameter.
#[derive(Drop)]
pub(crate) struct Rim {
    root: Option<Label>,
    borders: ArrayVec<Above, 8>,
}

impl Model for Rim {
    ghost use Rattle.border_repair.specs.Weighing.{Rim as RimValue};

    ghost Value = { RimValue };

    ghost view = { λ r. record { root = r.root; borders = r.borders.items } };
}

impl Rim {
    // The label of the root, where it is no parameter.
    pub(crate) fn root(&self) -> Option<Label>
        ensures { result ≡ self.now.root }
    {
        self.root
    }

    // What is above each parameter.
    pub(crate) fn borders(&self) -> &[Above]
        ensures { result.now ≡ self.now.borders }
    {
        self.borders.as_slice()
    }
}

// The rims of a grammar's rules, in order.
pub(crate) fn rims_of(alloc: Global, grammar: &Grammar) -> Result<Vec<Rim>, AllocError>
    ensures { IfOk result (λ rims. AreRimsOf (rules_of grammar.now.rules) rims.items) }
{
    let mut rims = Vec::with_capacity(alloc, grammar.rules())?;
    let mut coming = Vec::new(alloc);
    add_rims::<Brand>(grammar, &mut rims, &mut coming, Blank::new(1))?;
    Ok(rims)
}

// Adds the rims of all rules, each over those before it.
fn add_rims<L: Ledger>(
    grammar: &Grammar,
    rims: &mut Vec<Rim>,
    coming: &mut Vec<Above>,
    blank: Blank,
) -> Result<(), AllocError>
    requires name { blank.name ≡ L.name }
    requires parts { blank.parts ≡ L.parts }
    requires some { 0 < blank.parts }
    requires none { rims.old.items ≡ [] }
    requires grammar { IsGrammar (rules_of grammar.now.rules) }
    ensures { OnOk result (AreRimsOf (rules_of grammar.now.rules) rims.new.items) }
{
    let mut steps: Steps<L> = Steps::new(blank);
    for rule in 0..grammar.rules() {
        let rim = make_rim(grammar, rims.as_slice(), rule, coming, &mut steps)?;
        rims.push(rim)?;
    }
    Ok(())
}

// The rim of a rule over those of the rules before it.
fn make_rim<L: Ledger>(
    grammar: &Grammar,
    rims: &[Rim],
    rule: usize,
    coming: &mut Vec<Above>,
    steps: &mut Steps<L>,
) -> Result<Rim, AllocError>
    requires there { rule < length grammar.now.rules }
    requires few { params (body_at (rules_of grammar.now.rules) rule) ≤ 8 }
    ensures { IfOk result (λ r. r ≡ rim_of (rim_at rims.now) (body_at (rules_of grammar.now.rules) rule)) }
{
    let root = root_label(grammar, rims, rule, steps);
    let mut borders = ArrayVec::new();
    add_borders(grammar, rims, rule, coming, &mut borders, steps)?;
    Ok(Rim { root, borders })
}

// The label of the root of a rule's value, where it is no parameter.
fn root_label<L: Ledger>(
    grammar: &Grammar,
    rims: &[Rim],
    rule: usize,
    steps: &mut Steps<L>,
) -> Option<Label>
    requires { rule < length grammar.now.rules }
    ensures { result ≡ root_from (rim_at rims.now) (body_at (rules_of grammar.now.rules) rule) }
{
    let mut walk = grammar.walk(rule);
    'labels: while let Some(label) = walk.next(steps) {
        match label {
            Label::Param => return None,
            Label::Call(called) => {
                // A rule without a root is its parameter, so the root is that of the argument.
                let root = rims.get(called).and_then(|rim| rim.root());
                if root.is_some() {
                    return root;
                }
            }
            own => return Some(own),
        }
    }
    None
}

// Adds what is above each parameter of a rule's value.
fn add_borders<L: Ledger>(
    grammar: &Grammar,
    rims: &[Rim],
    rule: usize,
    coming: &mut Vec<Above>,
    borders: &mut ArrayVec<Above, 8>,
    steps: &mut Steps<L>,
) -> Result<(), AllocError>
    requires there { rule < length grammar.now.rules }
    requires none { borders.old.items ≡ [] }
    requires few { params (body_at (rules_of grammar.now.rules) rule) ≤ 8 }
    ensures { OnOk result (borders.new.items ≡ borders_from (rim_at rims.now) (None ∷ []) (body_at (rules_of grammar.now.rules) rule)) }
{
    let mut walk = grammar.walk(rule);
    coming.clear();
    coming.push(None)?;
    'labels: while let Some(above) = coming.pop() {
        let Some(label) = walk.next(steps) else {
            return Ok(());
        };
        if let Label::Param = label {
            borders.push(above);
        } else {
            open_kids(rims, above, label, coming)?;
        }
    }
    Ok(())
}

// Puts what is above a node's children on what is above the terms that come behind it.
pub(crate) fn open_kids(
    rims: &[Rim],
    above: Above,
    label: Label,
    coming: &mut Vec<Above>,
) -> Result<(), AllocError>
    ensures { OnOk result (reverse coming.new.items ≡ below (rim_at rims.now) above label ++ reverse coming.old.items) }
{
    match label {
        Label::Symbol(symbol) => {
            coming.push(Some((symbol, 2)))?;
            coming.push(Some((symbol, 1)))?;
            Ok(())
        }
        Label::Call(called) => match rims.get(called) {
            Some(rim) => open_borders(rim.borders(), above, coming),
            None => Ok(()),
        },
        _ => Ok(()),
    }
}

// Puts what is above the arguments of a call there, the first argument's last.
fn open_borders(borders: &[Above], above: Above, coming: &mut Vec<Above>) -> Result<(), AllocError>
    ensures { OnOk result (reverse coming.new.items ≡ under above borders.now ++ reverse coming.old.items) }
{
    let mut left = borders.len();
    'borders: while left > 0 {
        left -= 1;
        coming.push(borders[left].or(above))?;
    }
    Ok(())
}
