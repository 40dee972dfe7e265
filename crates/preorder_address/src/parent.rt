// The parent of a node, by the way to it.
ghost use Rattle.std.specs.Prelude.{◌≡◌, ◌↔◌, ℕ, ◌<◌, ◌≤◌, ◌+◌, ◌-◌, ◌*◌, ◌^◌, [], ◌∷◌, List, Option, None, Some, IsSome, IfSome, IsOk, IfOk, true, false, length, get_or, slice_get, option_map};
ghost use Rattle.plain_tree.specs.declared.kind.Kind.{Kind};
ghost use Rattle.plain_tree.specs.Tree.{Trees};
ghost use Rattle.rule_arena.specs.Terms.{Node, parent_in};
ghost use Rattle.slt_grammar.specs.Bodies.{CallsBelow, arity, params};
ghost use Rattle.slt_grammar.specs.Algebras.{ranks_of};
ghost use Rattle.slt_grammar.specs.Coding.{Codes};
ghost use Rattle.slt_grammar.specs.Grammars.{IsGrammar, value, whole};
ghost use Rattle.slt_grammar.specs.Keyed.{IsKeyed, key_at, nodes_at, rules_of};
ghost use Rattle.slt_grammar.specs.Segments.{node_tour, preorder};
ghost use Rattle.slt_grammar.specs.declared.rules.Rule.{Rule};
ghost use Rattle.segment_counts.specs.Counting.{told};
ghost use Rattle.segment_counts.specs.Weights.{node_weight};
ghost use Rattle.segment_counts.specs.declared.counts.Measure.TheVariants.{Nodes};
ghost use Rattle.rule_arena.specs.declared.label.Label.{Label};
ghost use Rattle.rule_arena.specs.declared.label.Label.TheVariants.{Call, Param};
ghost use Rattle.preorder_address.specs.Descents.{nodes_up_to};
ghost use Rattle.preorder_address.specs.Numberings.{AreCountsOf};
ghost use Rattle.preorder_address.specs.Parents.{EntryTells, TellsParent, first_terms, kid_sizes, until};
ghost use Rattle.preorder_address.specs.Sites.{labels_before, laden};
ghost use Rattle.preorder_address.specs.TreeNumbers.{IsLastAbove, parent_at};
ghost use Rattle.preorder_address.specs.declared.parent.Edge.{Edge};

use crate::descent::locate;
use crate::site::{MOST_KIDS, kid_weights, params_of, pass_to};
use crate::weigher::Weigher;
use read_steps::Steps;
use segment_counts::{Counts, Measure};
use slt_grammar::{Grammar, Key, Label, TourWalk};
use std::alloc::AllocError;
use std::sync::ledger::Ledger;

// How many nodes stand before a rule's value, and how many its arguments have.
#[derive(Clone, Copy, Drop)]
struct Frame {
    before: u64,
    args: [u64; MOST_KIDS],
}

// A node of a body, and which of its kids lies on a way.
#[derive(Clone, Copy, Drop)]
struct Edge {
    key: Key,
    label: Label,
    kid: usize,
}

// An edge over which a way goes on to a first child, and where its rule's value stands.
#[derive(Clone, Copy, Drop)]
struct Entry {
    rule: usize,
    edge: Edge,
    frame: Frame,
}

/// The number of the parent of the node with this number. The outer None comes exactly where the number isn't below the total, the inner
/// one where the node has no parent. It takes no memory, so no error comes. At most 24 steps for each node of the bodies.
pub fn parent_of<L: Ledger>(
    grammar: &Grammar,
    counts: &Counts,
    number: u64,
    steps: &mut Steps<L>,
) -> Result<Option<Option<u64>>, AllocError>
    requires counts { AreCountsOf (rules_of grammar.now.rules) counts.now }
    ensures fine { IsOk result }
    ensures parent { (names : List (Kind × List ℕ)) (ts : Trees) → Codes names ts (value (rules_of grammar.now.rules)) → IfOk result (λ told. told ≡ parent_at ts number) }
    ensures above { (names : List (Kind × List ℕ)) (ts : Trees) → Codes names ts (value (rules_of grammar.now.rules)) → IfOk result (λ told. IfSome told (IsLastAbove ts number)) }
    ensures some { IfOk result (λ parent. IsSome parent ↔ number < told Nodes counts.now.rows (counts.now.rules - 1) 0) }
    ensures steps { steps.new ≤ steps.old + 24 * whole (rules_of grammar.now.rules) }
{
    Ok(find_parent(grammar, counts, number, steps))
}

// Level by level it keeps the last first child on the way, and at the end looks for the node above that child.
fn find_parent<L: Ledger>(
    grammar: &Grammar,
    counts: &Counts,
    number: u64,
    steps: &mut Steps<L>,
) -> Option<Option<u64>>
    requires counts { AreCountsOf (rules_of grammar.now.rules) counts.now }
    ensures parent { (names : List (Kind × List ℕ)) (ts : Trees) → Codes names ts (value (rules_of grammar.now.rules)) → result ≡ parent_at ts number }
    ensures some { IsSome result ↔ number < told Nodes counts.now.rows (counts.now.rules - 1) 0 }
    ensures steps { steps.new ≤ steps.old + 24 * whole (rules_of grammar.now.rules) }
{
    // The call tells what is true of every grammar.
    let _limit = grammar.limit();
    let mut descent = locate(counts, number)?;
    let mut frame = Frame {
        before: 0,
        args: [0; MOST_KIDS],
    };
    let mut entry = None;
    while let Some(level) = descent.next(grammar, counts, steps) {
        let edge = first_child_above(grammar, counts, level.key, steps);
        entry = later_entry(entry, level.rule, edge, frame);
        frame = frame_at(grammar, counts, &frame, level.rule, level.key, steps);
    }
    match entry {
        Some(entry) => Some(Some(number_of(grammar, counts, entry, steps))),
        None => Some(None),
    }
}

// The last entry on a way that goes on in a rule.
fn later_entry(entry: Option<Entry>, rule: usize, edge: Option<Edge>, frame: Frame) -> Option<Entry>
    ensures here { (e : Edge) → edge ≡ Some e → result ≡ Some (record { rule = rule; edge = e; frame = frame }) }
    ensures before { edge ≡ None → result ≡ entry }
{
    match edge {
        Some(edge) => Some(Entry { rule, edge, frame }),
        None => entry,
    }
}

// The number of the last node below whose first child a way leads.
fn number_of<L: Ledger>(
    grammar: &Grammar,
    counts: &Counts,
    entry: Entry,
    steps: &mut Steps<L>,
) -> u64
    requires keyed { IsKeyed grammar.now }
    requires counts { AreCountsOf (rules_of grammar.now.rules) counts.now }
    requires tells { (limit : ℕ) × (up : Option ℕ) × (limit < 2 ^ 64) × EntryTells grammar.now.rules limit entry up }
    ensures number { (limit : ℕ) (up : Option ℕ) → EntryTells grammar.now.rules limit entry up → up ≡ Some result }
    ensures steps { steps.new ≤ steps.old + 12 * nodes_up_to grammar.now.rules entry.rule }
{
    let mut at = entry;
    loop {
        let frame = frame_at(grammar, counts, &at.frame, at.rule, at.edge.key, steps);
        let Label::Call(rule) = at.edge.label else {
            return frame.before;
        };
        let param = param_at(grammar, rule, at.edge.kid, steps);
        let Some(edge) = first_child_above(grammar, counts, param, steps) else {
            unreachable!()
        };
        at = Entry { rule, edge, frame };
    }
}

// How many nodes stand before a node of a rule's body, and how many its kids have.
fn frame_at<L: Ledger>(
    grammar: &Grammar,
    counts: &Counts,
    frame: &Frame,
    rule: usize,
    key: Key,
    steps: &mut Steps<L>,
) -> Frame
    requires keyed { IsKeyed grammar.now }
    requires counts { AreCountsOf (rules_of grammar.now.rules) counts.now }
    requires there { (p : ℕ) × (x : Node) × (slice_get (nodes_at grammar.now.rules rule) p ≡ Some x) × (x.key ≡ key) × (x.label ≡ Param → ⊥) }
    requires small { frame.now.before + laden node_weight frame.now.args (preorder (rules_of grammar.now.rules) rule) < 2 ^ 64 }
    ensures before { (p : ℕ) → key_at grammar.now.rules rule p ≡ Some key → result.before ≡ frame.now.before + laden node_weight frame.now.args (labels_before grammar.now.rules rule p) }
    ensures args { (p : ℕ) (x : Node) → slice_get (nodes_at grammar.now.rules rule) p ≡ Some x → x.key ≡ key → (j : ℕ) → get_or result.args j 0
        ≡ get_or (kid_sizes grammar.now.rules frame.now.args rule p x) j 0 }
    ensures steps { steps.new ≤ steps.old + 6 * length (nodes_at grammar.now.rules rule) }
{
    let args = frame.args;
    let passed = pass_to(grammar, counts, &Weigher::Nodes, rule, key, &args, steps);
    Frame {
        before: frame.before + passed.weight,
        args: kid_weights(
            grammar,
            counts,
            &Weigher::Nodes,
            key,
            passed.params,
            &args,
            steps,
        ),
    }
}

// The last edge above a node of a body over which the way to it goes on to a first child.
fn first_child_above<L: Ledger>(
    grammar: &Grammar,
    counts: &Counts,
    key: Key,
    steps: &mut Steps<L>,
) -> Option<Edge>
    requires keyed { IsKeyed grammar.now }
    requires counts { AreCountsOf (rules_of grammar.now.rules) counts.now }
    requires there { (r : ℕ) × (p : ℕ) × (key_at grammar.now.rules r p ≡ Some key) }
    ensures tells { (r p : ℕ) → key_at grammar.now.rules r p ≡ Some key → TellsParent grammar.now.rules r p result }
    ensures steps { (r p : ℕ) → key_at grammar.now.rules r p ≡ Some key → steps.new ≤ steps.old + 2 * length (nodes_at grammar.now.rules r) }
{
    let mut at = key;
    while let Some(edge) = edge_above(grammar, at, steps) {
        if enters(counts, edge.label, edge.kid) {
            return Some(edge);
        }
        at = edge.key;
    }
    None
}

// The edge from a node's parent in its body.
fn edge_above<L: Ledger>(grammar: &Grammar, key: Key, steps: &mut Steps<L>) -> Option<Edge>
    requires keyed { IsKeyed grammar.now }
    requires there { (r : ℕ) × (p : ℕ) × (key_at grammar.now.rules r p ≡ Some key) }
    ensures parent { (r p : ℕ) → key_at grammar.now.rules r p ≡ Some key → parent_in (nodes_at grammar.now.rules r) p ≡ option_map (λ e. (e.key, e.kid + 1)) result }
    ensures node { IfSome result (λ e. (r q : ℕ) → key_at grammar.now.rules r q ≡ Some e.key → (x : Node) × (slice_get (nodes_at grammar.now.rules r) q ≡ Some x) × (x.key ≡ e.key) × (x.label ≡ e.label)) }
    ensures steps { steps.new ≤ steps.old + 2 }
    ensures more { steps.old < steps.new }
{
    let (up, place) = grammar.site(key, steps).parent?;
    let label = grammar.site(up, steps).label;
    Some(Edge {
        key: up,
        label,
        kid: place - 1,
    })
}

// Whether the way to a kid goes over a first child.
fn enters(counts: &Counts, label: Label, kid: usize) -> bool
    requires counts { (G : List Rule) × IsGrammar G × AreCountsOf G counts.now × CallsBelow (length G) (label ∷ []) × (kid < arity (ranks_of G) label) }
    ensures yes { result ≡ true → (G : List Rule) → IsGrammar G → AreCountsOf G counts.now → CallsBelow (length G) (label ∷ []) → kid < arity (ranks_of G) label → 0 < first_terms G label kid }
    ensures no { result ≡ false → (G : List Rule) → IsGrammar G → AreCountsOf G counts.now → CallsBelow (length G) (label ∷ []) → kid < arity (ranks_of G) label → first_terms G label kid ≡ 0 }
{
    match label {
        Label::Symbol(_) => kid == 0,
        Label::Call(rule) => 0 < first_children(counts, rule, kid),
        _ => false,
    }
}

// Over how many first children the way to a parameter of a rule's value goes. Each leaves its siblings open, and what stands before the
// parameter closes all others: a symbol opens one more, a bottom or a parameter closes one.
fn first_children(counts: &Counts, rule: usize, param: usize) -> u64
    requires counts { (G : List Rule) × IsGrammar G × AreCountsOf G counts.now × (rule < length G) × (param < arity (ranks_of G) (Call rule)) }
    ensures { (G : List Rule) → IsGrammar G → AreCountsOf G counts.now → rule < length G → param < arity (ranks_of G) (Call rule) → result ≡ first_terms G (Call rule) param }
{
    let nodes = counts.before(Measure::Nodes, rule, param + 1);
    let all = counts.before(Measure::All, rule, param + 1);
    nodes - (all - nodes) - param as u64
}

// The node of a rule's body that is this parameter, counted from 0.
fn param_at<L: Ledger>(grammar: &Grammar, rule: usize, number: usize, steps: &mut Steps<L>) -> Key
    requires keyed { IsKeyed grammar.now }
    requires rule { rule < length grammar.now.rules }
    requires number { number < params (preorder (rules_of grammar.now.rules) rule) }
    ensures there { (p : ℕ) × (key_at grammar.now.rules rule p ≡ Some result) × (labels_before grammar.now.rules rule p ≡ until (preorder (rules_of grammar.now.rules) rule) number) }
    ensures steps { steps.new ≤ steps.old + 2 * length (node_tour grammar.now.rules rule) }
{
    let mut walk = TourWalk::new(grammar, rule);
    let mut passed = 0;
    loop {
        let site = grammar.site(walk.key, steps);
        if is_param(site.label, passed, number) {
            return walk.key;
        }
        passed += params_of(site.label);
        if !walk.advance(grammar, &site, steps) {
            unreachable!()
        }
    }
}

// Whether a node is this parameter, where so many parameters stand before it.
fn is_param(label: Label, passed: usize, number: usize) -> bool
    ensures yes { result ≡ true → (label ≡ Param) × (passed ≡ number) }
    ensures no { result ≡ false → label ≡ Param → passed ≡ number → ⊥ }
{
    matches!(label, Label::Param) && passed == number
}
