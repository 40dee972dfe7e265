// Terms of the start that begin with the body of a rule that is there become calls of it.
ghost use Rattle.std.specs.Prelude.{◌≡◌, ◌≢◌, ◌+◌, ◌<◌, ◌≤◌, IfSome, Some, None, length};
ghost use Rattle.rule_arena.specs.declared.key.Key.{Key};
ghost use Rattle.slt_grammar.specs.Calling.{BeginsWith};
ghost use Rattle.slt_grammar.specs.Keyed.{rules_of};
ghost use Rattle.slt_grammar.specs.KeyedEdits.{Stands};
ghost use Rattle.slt_grammar.specs.Ranks.{greatest_rank};
ghost use Rattle.digram_index.specs.Linked.{IsIndexOf, cell};
ghost use Rattle.digram_index.specs.Marking.{KeepsMarked, MarksStart};
ghost use Rattle.local_repair.specs.Settling.{IsNoLarger};
ghost use Rattle.local_repair.specs.Reusing.{BeginsWithin};

use digram_index::{Digram, Index, call_linked, rule_with, site, stands_in_start};
use read_steps::Steps;
use slt_grammar::{Grammar, Key, Kids};
use std::alloc::AllocError;
use std::marker::Brand;
use std::sync::ledger::{Blank, Ledger};

// So many nodes are looked at at most, of those that were linked last and those that a new call links.
const NODES: usize = 4096;

// So many occurrences of a digram are looked at: of a settled grammar no more than two share no node, but those of one label under itself may
// be many.
const LOOKS: usize = 8;

/// Makes calls of rules that are there of terms of the start that begin with their bodies, and of which a node was linked since the
/// last settling: an edit exposes copies of bodies in the start. The value stays, and the grammar isn't larger. It fails where memory is
/// refused, and the grammar is as told then too.
pub(crate) fn reuse_rules(grammar: &mut Grammar, index: &mut Index) -> Result<(), AllocError>
    requires index { IsIndexOf grammar.old index.old }
    requires marked { MarksStart grammar.old.rules index.old }
    ensures kept { IsNoLarger (rules_of grammar.old.rules) (rules_of grammar.new.rules) }
    ensures ranks { greatest_rank (rules_of grammar.new.rules) ≡ greatest_rank (rules_of grammar.old.rules) }
    ensures index { IsIndexOf grammar.new index.new }
    ensures marks { KeepsMarked grammar.old.rules index.old grammar.new.rules index.new }
{
    for _ in 0..NODES {
        let Some(lower) = index.take_touched() else {
            return Ok(());
        };
        if index.is_linked(lower) {
            reuse_at(grammar, index, lower)?;
        }
    }
    Ok(())
}

// The same of the term at the upper node of one occurrence.
fn reuse_at(grammar: &mut Grammar, index: &mut Index, lower: Key) -> Result<(), AllocError>
    requires index { IsIndexOf grammar.old index.old }
    requires linked { cell index.old lower.number ≢ None }
    requires marked { MarksStart grammar.old.rules index.old }
    ensures kept { IsNoLarger (rules_of grammar.old.rules) (rules_of grammar.new.rules) }
    ensures ranks { greatest_rank (rules_of grammar.new.rules) ≡ greatest_rank (rules_of grammar.old.rules) }
    ensures index { IsIndexOf grammar.new index.new }
    ensures marks { KeepsMarked grammar.old.rules index.old grammar.new.rules index.new }
{
    let _limit = grammar.limit();
    let Some(upper) = inner_upper(grammar, lower) else {
        return Ok(());
    };
    let Some(found) = find_rule(grammar, index, lower, upper) else {
        return Ok(());
    };
    if !stands_in_start(grammar, index, upper) {
        return Ok(());
    }
    grammar.reserve(9, 0)?;
    index.reserve(grammar, 9, 0)?;
    call_linked(grammar, index, upper, found.rule, &found.arguments);
    Ok(())
}

// The upper node of an occurrence, where it isn't the root of a body.
fn inner_upper(grammar: &Grammar, lower: Key) -> Option<Key>
    requires { Stands grammar.now.rules lower }
    ensures { IfSome result (λ upper. Stands grammar.now.rules upper) }
{
    // The call tells that bodies are terms.
    let _limit = grammar.limit();
    let (upper, _) = site(grammar, lower).parent?;
    site(grammar, upper).parent?;
    Some(upper)
}

// A rule, and the nodes that stand for its parameters.
#[derive(Drop)]
struct Found {
    rule: usize,
    arguments: Kids,
}

// A rule with whose body the term at the upper node of an occurrence begins, if the node stands behind the rule.
fn find_rule(grammar: &Grammar, index: &Index, lower: Key, upper: Key) -> Option<Found>
    requires index { IsIndexOf grammar.now index.now }
    requires lower { Stands grammar.now.rules lower }
    requires upper { Stands grammar.now.rules upper }
    ensures { IfSome result (λ found. BeginsWithin grammar.now.rules upper found.rule found.arguments) }
{
    let _limit = grammar.limit();
    let mut alike = index.first(grammar, digram_of(grammar, lower, upper));
    for _ in 0..LOOKS {
        let other = alike?;
        alike = index.next_alike(other);
        if let Some(found) = match_rule(grammar, upper, other) {
            return Some(found);
        }
    }
    None
}

// The digram of two nodes.
fn digram_of(grammar: &Grammar, lower: Key, upper: Key) -> Digram
    requires lower { Stands grammar.now.rules lower }
    requires upper { Stands grammar.now.rules upper }
{
    let below = site(grammar, lower);
    let place = match below.parent {
        Some((_, place)) => place,
        None => 0,
    };
    Digram {
        upper: site(grammar, upper).label,
        place,
        lower: below.label,
    }
}

// The rule whose body's root is the parent of this node, where the term begins with it.
fn match_rule(grammar: &Grammar, at: Key, node: Key) -> Option<Found>
    requires at { Stands grammar.now.rules at }
    requires node { Stands grammar.now.rules node }
    ensures { IfSome result (λ found. BeginsWithin grammar.now.rules at found.rule found.arguments) }
{
    let _limit = grammar.limit();
    let (root, _) = site(grammar, node).parent?;
    if root == grammar.root(grammar.rules() - 1) || site(grammar, root).parent.is_some() {
        return None;
    }
    let rule = rule_with(grammar, root)?;
    let arguments = arguments_at::<Brand>(grammar, at, rule, Blank::new(1))?;
    Some(Found { rule, arguments })
}

// The nodes that stand for the parameters of a rule, where the term at a node begins with its body.
fn arguments_at<L: Ledger>(grammar: &Grammar, at: Key, rule: usize, blank: Blank) -> Option<Kids>
    requires there { Stands grammar.now.rules at }
    requires rule { rule < length grammar.now.rules }
    requires name { blank.name ≡ L.name }
    requires parts { blank.parts ≡ L.parts }
    requires some { 0 < blank.parts }
    ensures { IfSome result (λ arguments. (S : Stands grammar.now.rules at) → rule < S.rule → BeginsWith grammar.now.rules at rule arguments) }
{
    let mut steps: Steps<L> = Steps::new(blank);
    grammar.match_at(at, rule, &mut steps)
}
