// The rule for a digram.
ghost use Rattle.std.specs.Prelude.{◌≡◌, ◌+◌, ◌-◌, ◌<◌, ◌≤◌, ◌++◌, ℕ, [], ◌∷◌, List, IfOk, OnOk, OnErr, length};
ghost use Rattle.slt_grammar.specs.Algebras.{ranks_of};
ghost use Rattle.slt_grammar.specs.Bodies.{arity, calls_in, CallsBelow};
ghost use Rattle.slt_grammar.specs.Digrams.{digram_rank};
ghost use Rattle.slt_grammar.specs.Editing.{shifted};
ghost use Rattle.slt_grammar.specs.Grammars.{calls_of, size, value, value_at};
ghost use Rattle.slt_grammar.specs.Keyed.{rules_of};
ghost use Rattle.slt_grammar.specs.KeyedEdits.{digram_body, parameters};
ghost use Rattle.digram_index.specs.Keeping.{IsIndexBut};
ghost use Rattle.digram_index.specs.Linked.{IsIndexOf, cell, cell_count, shifted_cell};
ghost use Rattle.digram_index.specs.Marking.{HasNumberMore, KeepsMarked, MarksFewer, MarksNoMore};
ghost use Rattle.digram_index.specs.Settled.{HasApart, HasTwoDisjoint};
ghost use Rattle.pair_replace.specs.Chains.{HasApartLinked};
ghost use Rattle.pair_replace.specs.NewRules.{IsAdded, IsNewRule, IsRuleOf, IsSmall};

use digram_index::{Index, arity_of, item};
use slt_grammar::{Body, Digram, Grammar, Key, Label};
use std::alloc::{AllocError, Global};

// A rule whose body is a digram over parameters: its place, and the lower one of the two nodes.
#[derive(Clone, Copy, Drop)]
pub(crate) struct NewRule {
    pub(crate) place: usize,
    pub(crate) lower: Key,
}

// Puts a rule for a digram among the rules, at the first place that its labels allow, and makes room in the index for so many more
// occurrences. The node of its own occurrence is not linked. Where memory is refused, nothing changes.
pub(crate) fn add_new_rule(
    alloc: Global,
    grammar: &mut Grammar,
    index: &mut Index,
    digram: Digram,
    links: usize,
) -> Result<NewRule, AllocError>
    requires index { IsIndexOf grammar.old index.old }
    requires two { HasTwoDisjoint (rules_of grammar.old.rules) digram }
    requires rank { digram_rank (rules_of grammar.old.rules) digram ≤ 8 }
    ensures index { IfOk result (λ new. IsIndexBut grammar.new index.new (λ k. k ≡ new.lower.number)) }
    ensures new { IfOk result (λ new. IsNewRule grammar.new.rules digram new.place new.lower) }
    ensures made { IfOk result (λ new. IsRuleOf (rules_of grammar.old.rules) (rules_of grammar.new.rules) digram new.place) }
    ensures apart { OnOk result ((least : ℕ) → HasApart grammar.old.rules digram least → HasApartLinked index.new digram least) }
    ensures room { OnOk result (links ≤ index.new.spare_links) }
    ensures cells { OnOk result (grammar.new.limit ≤ length index.new.cells) }
    ensures place { IfOk result (λ new. new.place < length grammar.old.rules) }
    ensures value { value (rules_of grammar.new.rules) ≡ value (rules_of grammar.old.rules) }
    ensures values { IfOk result (λ new. (q : ℕ) → q < length grammar.old.rules → value_at (rules_of grammar.new.rules) (shifted new.place q) ≡ value_at (rules_of grammar.old.rules) q) }
    ensures calls { IfOk result (λ new. (q : ℕ) → calls_of (rules_of grammar.new.rules) (shifted new.place q)
        ≡ calls_of (rules_of grammar.old.rules) q + calls_in q (digram.upper ∷ digram.lower ∷ [])) }
    ensures counted { OnOk result (cell_count digram index.new.cells ≡ cell_count digram index.old.cells) }
    ensures rules { OnOk result (length grammar.new.rules ≡ length grammar.old.rules + 1) }
    ensures size { OnOk result (size (rules_of grammar.new.rules) ≡ size (rules_of grammar.old.rules) + 2) }
    ensures refused { OnErr result (grammar.new.rules ≡ grammar.old.rules) }
    ensures refused_index { OnErr result (IsIndexOf grammar.new index.new) }
    ensures marks { KeepsMarked grammar.old.rules index.old grammar.new.rules index.new }
{
    // The calls tell that a key stands once, before and after.
    let _limit = grammar.limit();
    let place = put_rule(alloc, grammar, digram)?;
    let _grown = grammar.limit();
    match make_place(grammar, index, place, links) {
        Ok(()) => {
            let root = item(grammar, grammar.root(place));
            let lower = root.kids.get(digram.place - 1).unwrap();
            Ok(NewRule { place, lower })
        }
        Err(refused) => {
            grammar.drop_rule(place);
            Err(refused)
        }
    }
}

// Puts a rule for a digram among the rules: its place. Where memory is refused, nothing changes.
fn put_rule(alloc: Global, grammar: &mut Grammar, digram: Digram) -> Result<usize, AllocError>
    requires two { HasTwoDisjoint (rules_of grammar.old.rules) digram }
    requires rank { digram_rank (rules_of grammar.old.rules) digram ≤ 8 }
    ensures added { IfOk result (λ place. IsAdded grammar.old.rules grammar.new.rules digram place) }
    ensures first { IfOk result (λ place. (r : ℕ) → CallsBelow r (digram.upper ∷ digram.lower ∷ []) → place ≤ r) }
    ensures value { value (rules_of grammar.new.rules) ≡ value (rules_of grammar.old.rules) }
    ensures size { OnOk result (size (rules_of grammar.new.rules) ≡ size (rules_of grammar.old.rules) + 2) }
    ensures refused { OnErr result (grammar.new.rules ≡ grammar.old.rules) }
{
    // The calls tell that a key stands once, before and after, and that places can be counted.
    let _limit = grammar.limit();
    let _rules = grammar.rules();
    let body = body_of(alloc, grammar, digram)?;
    let place = place_for(digram);
    let rank = body.len() - 2;
    grammar.add_rule(place, rank, &body)?;
    let _grown = grammar.limit();
    Ok(place)
}

// Makes a place for a rule in the index, and room for so many more occurrences. Where memory is refused, the index stays.
fn make_place(
    grammar: &Grammar,
    index: &mut Index,
    place: usize,
    links: usize,
) -> Result<(), AllocError>
    requires { place ≤ index.old.rules }
    ensures rules { OnOk result (index.new.rules ≡ index.old.rules + 1) }
    ensures shifted { OnOk result ((k : ℕ) → cell index.new k ≡ shifted_cell place (cell index.old k)) }
    ensures room { OnOk result (links ≤ index.new.spare_links) }
    ensures cells { OnOk result (grammar.now.limit ≤ length index.new.cells) }
    ensures refused { OnErr result ((index.new.rules ≡ index.old.rules) × ((k : ℕ) → cell index.new k ≡ cell index.old k)) }
    ensures marks { MarksNoMore index.old index.new }
    ensures numbers { OnOk result (HasNumberMore place index.old index.new) }
    ensures refused_marks { OnErr result (MarksFewer index.old index.new) }
{
    index.reserve(grammar, links, 0)?;
    index.insert_rule(place)
}

// The first place behind the rules that a digram's labels call.
fn place_for(digram: Digram) -> usize
    requires upper { IsSmall digram.upper }
    requires lower { IsSmall digram.lower }
    ensures below { CallsBelow result (digram.upper ∷ digram.lower ∷ []) }
    ensures least { (r : ℕ) → CallsBelow r (digram.upper ∷ digram.lower ∷ []) → result ≤ r }
{
    let upper = place_behind(digram.upper);
    let lower = place_behind(digram.lower);
    if upper < lower { lower } else { upper }
}

// The first place behind the rule that a label calls.
fn place_behind(label: Label) -> usize
    requires { IsSmall label }
    ensures below { CallsBelow result (label ∷ []) }
    ensures least { (r : ℕ) → CallsBelow r (label ∷ []) → result ≤ r }
{
    match label {
        Label::Call(rule) => rule + 1,
        _ => 0,
    }
}

// A digram over parameters.
fn body_of(alloc: Global, grammar: &Grammar, digram: Digram) -> Result<Body, AllocError>
    requires first { 1 ≤ digram.place }
    requires last { digram.place ≤ arity (ranks_of (rules_of grammar.now.rules)) digram.upper }
    ensures { IfOk result (λ body. body ≡ digram_body (ranks_of (rules_of grammar.now.rules)) digram.upper (digram.place - 1) digram.lower) }
{
    let upper = arity_of(grammar, digram.upper);
    let lower = arity_of(grammar, digram.lower);
    let mut body = Body::new(alloc);
    body.push(digram.upper)?;
    push_parameters(&mut body, digram.place - 1)?;
    body.push(digram.lower)?;
    push_parameters(&mut body, lower + (upper - digram.place))?;
    Ok(body)
}

// Adds so many parameters.
fn push_parameters(body: &mut Body, count: usize) -> Result<(), AllocError>
    ensures { OnOk result (body.new ≡ body.old ++ parameters count) }
{
    for done in 0..count {
        let _done = done;
        body.push(Label::Param)?;
    }
    Ok(())
}
