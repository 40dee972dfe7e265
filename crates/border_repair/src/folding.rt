// Bodies in which all pairs of a digram become calls.
ghost use Rattle.std.specs.Prelude.{◌≡◌, ◌≢◌, ◌+◌, ◌<◌, ◌≤◌, ◌++◌, ◌∷◌, [], ℕ, suc, List, Some, None, set, length, reverse, drop, OnOk, IfOk, IfSome, IfNone, slice_get};
ghost use Rattle.rule_arena.specs.declared.label.Label.{Label};
ghost use Rattle.slt_grammar.specs.Algebras.{ranks_of};
ghost use Rattle.slt_grammar.specs.Bodies.{arity, real_nodes, IsTerm};
ghost use Rattle.slt_grammar.specs.Grammars.{body_at, rank_at, size};
ghost use Rattle.border_repair.specs.Digrams.{IsSymbol};
ghost use Rattle.border_repair.specs.Folding.{AreFolded, CanFold, Folds, HasPairRank, IsFolding, IsFromTop, live};
ghost use Rattle.border_repair.specs.declared.folding.Root.{Root};

use crate::cutting::arity_of;
use crate::replacing::copied;
use slt_grammar::{Body, Digram, Label, Rule, RuleList};
use std::alloc::{AllocError, Global};

// The root of a term: where it stands among the labels, and its label.
#[derive(Clone, Copy, Drop)]
struct Root {
    at: usize,
    label: Label,
}

// The rules with each pair of the digram as a call of the first rule, which is its body.
pub(crate) fn fold_all(
    alloc: Global,
    rules: &[Rule],
    digram: Digram,
) -> Result<RuleList, AllocError>
    requires some { 0 < length rules.now }
    requires pair { HasPairRank (ranks_of rules.now) digram }
    requires place { digram.place ≤ arity (ranks_of rules.now) digram.upper }
    requires upper { IsSymbol digram.upper }
    ensures folded { IfOk result (AreFolded digram rules.now) }
    ensures size { IfOk result (λ folded. size folded ≤ size rules.now) }
{
    let mut folded = RuleList::new(alloc);
    let mut labels = Vec::new(alloc);
    let mut roots = Vec::new(alloc);
    'rules: for rule in 0..rules.len() {
        let body = fold_rule(alloc, rules, rule, digram, &mut labels, &mut roots)?;
        folded.push(rank_of(rules, rule), body)?;
    }
    Ok(folded)
}

// The body of a rule, folded but for the first one's.
fn fold_rule(
    alloc: Global,
    rules: &[Rule],
    rule: usize,
    digram: Digram,
    labels: &mut Vec<Option<Label>>,
    roots: &mut Vec<Root>,
) -> Result<Body, AllocError>
    requires there { rule < length rules.now }
    requires pair { HasPairRank (ranks_of rules.now) digram }
    requires place { digram.place ≤ arity (ranks_of rules.now) digram.upper }
    requires upper { IsSymbol digram.upper }
    ensures first { IfOk result (λ body. rule ≡ 0 → body ≡ body_at rules.now rule) }
    ensures others { IfOk result (λ body. 0 < rule → IsTerm (ranks_of rules.now) (body_at rules.now rule) → Folds (ranks_of rules.now) 0 digram (body_at rules.now rule) (body ∷ [])) }
    ensures size { IfOk result (λ body. real_nodes body ≤ real_nodes (body_at rules.now rule)) }
{
    let body = body_of(rules, rule);
    if rule == 0 {
        let same = copied(alloc, body)?;
        return Ok(same);
    }
    let folded = fold(alloc, rules, body, digram, labels, roots)?;
    Ok(folded)
}

// A rule's rank.
fn rank_of(rules: &[Rule], rule: usize) -> usize
    requires { rule < length rules.now }
    ensures { result ≡ rank_at rules.now rule }
{
    rules[rule].rank
}

// A rule's labels.
fn body_of(rules: &[Rule], rule: usize) -> &[Label]
    requires { rule < length rules.now }
    ensures { result.now ≡ body_at rules.now rule }
{
    rules[rule].body.as_slice()
}

// A body with each pair of the digram as a call of the first rule. The labels are written from the end on, and a lower one is taken out
// again once its upper one comes.
fn fold(
    alloc: Global,
    rules: &[Rule],
    body: &[Label],
    digram: Digram,
    labels: &mut Vec<Option<Label>>,
    roots: &mut Vec<Root>,
) -> Result<Body, AllocError>
    requires pair { HasPairRank (ranks_of rules.now) digram }
    requires place { digram.place ≤ arity (ranks_of rules.now) digram.upper }
    requires upper { IsSymbol digram.upper }
    ensures folded { IfOk result (λ folded. IsTerm (ranks_of rules.now) body.now → Folds (ranks_of rules.now) 0 digram body.now (folded ∷ [])) }
    ensures size { IfOk result (λ folded. real_nodes folded ≤ real_nodes body.now) }
{
    labels.clear();
    roots.clear();
    let mut left = body.len();
    'labels: while left > 0 {
        left -= 1;
        fold_label(rules, body[left], digram, labels, roots)?;
    }
    let folded = written(alloc, labels.as_slice())?;
    Ok(folded)
}

// Folds the node before those that were folded.
fn fold_label(
    rules: &[Rule],
    label: Label,
    digram: Digram,
    labels: &mut Vec<Option<Label>>,
    roots: &mut Vec<Root>,
) -> Result<(), AllocError>
    requires pair { HasPairRank (ranks_of rules.now) digram }
    requires place { digram.place ≤ arity (ranks_of rules.now) digram.upper }
    requires upper { IsSymbol digram.upper }
    ensures folding { OnOk result ((w : CanFold (ranks_of rules.now) digram (reverse roots.old.items) (reverse labels.old.items) label)
        → IsFolding (ranks_of rules.now) digram (reverse roots.new.items) (reverse labels.new.items) (label ∷ w.labels_behind)) }
    ensures size { OnOk result (real_nodes (live (reverse labels.new.items)) ≤ real_nodes (live (reverse labels.old.items)) + real_nodes (label ∷ [])) }
{
    let kids = arity_of(rules, label);
    if let Some(at) = pair_at(roots.as_slice(), label, digram) {
        take_out(labels, at);
        add_root(Label::Call(0), kids, labels, roots)?;
        return Ok(());
    }
    add_root(label, kids, labels, roots)?;
    Ok(())
}

// Writes a node, whose root comes in the place of its children's.
fn add_root(
    label: Label,
    kids: usize,
    labels: &mut Vec<Option<Label>>,
    roots: &mut Vec<Root>,
) -> Result<(), AllocError>
    ensures labels { OnOk result (reverse labels.new.items ≡ Some label ∷ reverse labels.old.items) }
    ensures roots { OnOk result (reverse roots.new.items ≡ record { at = length labels.old.items; label = label } ∷ drop kids (reverse roots.old.items)) }
{
    let at = labels.len();
    roots.truncate(roots.len().saturating_sub(kids));
    roots.push(Root { at, label })?;
    labels.push(Some(label))?;
    Ok(())
}

// Takes a label out.
fn take_out(labels: &mut Vec<Option<Label>>, at: usize)
    ensures taken { at < length labels.old.items → labels.new.items ≡ set labels.old.items at None }
    ensures size { real_nodes (live (reverse labels.new.items)) ≤ real_nodes (live (reverse labels.old.items)) }
{
    if at < labels.len() {
        labels[at] = None;
    }
}

// Where the lower node of a pair stands, whose upper one comes next.
fn pair_at(roots: &[Root], label: Label, digram: Digram) -> Option<usize>
    ensures some { IfSome result (λ at. (label ≡ digram.upper) × ((y : Root) × IsFromTop roots.now digram.place y × (y.label ≡ digram.lower) × (y.at ≡ at))) }
    ensures none { IfNone result (label ≡ digram.upper → (y : Root) → IsFromTop roots.now digram.place y → y.label ≢ digram.lower) }
{
    if label != digram.upper {
        return None;
    }
    let Some(root) = root_from_top(roots, digram.place) else {
        return None;
    };
    if root.label != digram.lower {
        return None;
    }
    Some(root.at)
}

// The root at a place from 1 on, the last one first.
fn root_from_top(roots: &[Root], place: usize) -> Option<Root>
    ensures some { IfSome result (IsFromTop roots.now place) }
    ensures one { (y : Root) → IsFromTop roots.now place y → result ≡ Some y }
{
    match roots.len().checked_sub(place) {
        Some(at) => root_at(roots, at),
        None => None,
    }
}

fn root_at(roots: &[Root], at: usize) -> Option<Root>
    ensures { result ≡ slice_get roots.now at }
{
    roots.get(at).copied()
}

// The body of what was written, from its end.
fn written(alloc: Global, labels: &[Option<Label>]) -> Result<Body, AllocError>
    ensures { IfOk result (λ body. body ≡ live (reverse labels.now)) }
{
    let mut body = Body::new(alloc);
    let mut left = labels.len();
    'labels: while left > 0 {
        left -= 1;
        if let Some(label) = labels[left] {
            body.push(label)?;
        }
    }
    Ok(body)
}
