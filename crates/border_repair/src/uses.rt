// How often rules are used, and what arises in them.
ghost use Rattle.std.specs.Prelude.{◌≡◌, ◌+◌, ◌*◌, ◌-◌, ◌<◌, ◌≤◌, ◌^◌, ◌∷◌, [], ℕ, None, length, min, slice_index, OnOk};
ghost use Rattle.slt_grammar.specs.Bodies.{calls_in};
ghost use Rattle.slt_grammar.specs.Grammars.{body_at};
ghost use Rattle.slt_grammar.specs.Keyed.{rules_of};
ghost use Rattle.slt_grammar.specs.declared.digram.Digram.{Digram};
ghost use Rattle.border_repair.specs.Counted.{counted, counted_edge};
ghost use Rattle.border_repair.specs.Digrams.{is};
ghost use Rattle.border_repair.specs.Rims.{rim_at};
ghost use Rattle.border_repair.specs.Weighing.{arisen, hung, shown_root};

use crate::edge::Edge;
use crate::rims::{Above, Rim, open_kids};
use indexmap::IndexMap;
use read_steps::Steps;
use slt_grammar::{Grammar, Label};
use std::alloc::AllocError;
use std::marker::Brand;
use std::sync::ledger::{Blank, Ledger};

// Counts the uses of the rules that a rule calls, where it is used so often. A count that would pass the greatest word stays there.
pub(crate) fn add_uses<L: Ledger>(
    grammar: &Grammar,
    rule: usize,
    times: u64,
    uses: &mut [u64],
    steps: &mut Steps<L>,
)
    requires there { rule < length grammar.now.rules }
    ensures { (q : ℕ) → q < length uses.old → slice_index uses.new q ≡ min (slice_index uses.old q + times * calls_in q (body_at (rules_of grammar.now.rules) rule)) (2 ^ 64 - 1) }
{
    let mut walk = grammar.walk(rule);
    'labels: while let Some(label) = walk.next(steps) {
        if let Label::Call(called) = label {
            if called < uses.len() {
                uses[called] = uses[called].saturating_add(times);
            }
        }
    }
}

// Adds the edges that arise in a rule, where it is used so often.
pub(crate) fn add_edges<L: Ledger>(
    grammar: &Grammar,
    rims: &[Rim],
    rule: usize,
    times: u64,
    counts: &mut IndexMap<Edge, u64>,
    coming: &mut Vec<Above>,
    steps: &mut Steps<L>,
) -> Result<(), AllocError>
    requires there { rule < length grammar.now.rules }
    requires few { (d : Digram) → counted counts.old.entries d + times * arisen (rim_at rims.now) (is d) (None ∷ []) (body_at (rules_of grammar.now.rules) rule) < 2 ^ 64 }
    ensures { OnOk result ((d : Digram) → counted counts.new.entries d ≡ counted counts.old.entries d + times * arisen (rim_at rims.now) (is d) (None ∷ []) (body_at (rules_of grammar.now.rules) rule)) }
{
    let mut walk = grammar.walk(rule);
    coming.clear();
    coming.push(None)?;
    'labels: while let Some(above) = coming.pop() {
        let Some(label) = walk.next(steps) else {
            return Ok(());
        };
        add_hung(counts, above, root_of(rims, label), times)?;
        open_kids(rims, above, label, coming)?;
    }
    Ok(())
}

// The label of the root of what a node stands for, where that is no parameter.
fn root_of(rims: &[Rim], label: Label) -> Option<Label>
    ensures { result ≡ shown_root (rim_at rims.now) label }
{
    match label {
        Label::Param => None,
        Label::Call(called) => rims.get(called).and_then(|rim| rim.root()),
        own => Some(own),
    }
}

// Counts the edge to a root so often, where both ends are known.
fn add_hung(
    counts: &mut IndexMap<Edge, u64>,
    above: Above,
    root: Option<Label>,
    times: u64,
) -> Result<(), AllocError>
    requires { (d : Digram) → counted counts.old.entries d + times * hung (is d) above root < 2 ^ 64 }
    ensures { OnOk result ((d : Digram) → counted counts.new.entries d ≡ counted counts.old.entries d + times * hung (is d) above root) }
{
    let Some((upper, place)) = above else {
        return Ok(());
    };
    match root {
        Some(lower) => add(
            counts,
            Edge {
                upper,
                place,
                lower,
            },
            times,
        ),
        None => Ok(()),
    }
}

// Counts an edge so often.
fn add(counts: &mut IndexMap<Edge, u64>, edge: Edge, times: u64) -> Result<(), AllocError>
    requires { counted_edge counts.old.entries edge + times < 2 ^ 64 }
    ensures { OnOk result ((d : Digram) → counted counts.new.entries d ≡ counted counts.old.entries d + times * is d edge.upper edge.place edge.lower) }
{
    let before = counts.get(&edge).copied().unwrap_or(0);
    counts.insert(edge, before + times)?;
    Ok(())
}
