// A digram that is replaced wherever it occurs in a value, across the borders of rules too.
ghost use Rattle.std.specs.Prelude.{◌≡◌, ◌≢◌, ◌⊎◌, ◌+◌, ◌-◌, ◌*◌, ◌<◌, ◌≤◌, ◌++◌, ◌∷◌, [], ℕ, List, length, max, OnOk, OnErr, IfOk};
ghost use Rattle.rule_arena.specs.declared.label.Label.{Label};
ghost use Rattle.slt_grammar.specs.Algebras.{ranks_of};
ghost use Rattle.slt_grammar.specs.Bodies.{arity, calls_in, real_nodes};
ghost use Rattle.slt_grammar.specs.Grammars.{body_at, rank_at, size, value, IsGrammar, IsSwept};
ghost use Rattle.slt_grammar.specs.Keyed.{rules_of};
ghost use Rattle.slt_grammar.specs.KeyedEdits.{digram_body};
ghost use Rattle.slt_grammar.specs.Ranks.{greatest_rank};
ghost use Rattle.slt_grammar.specs.declared.rules.Rule.{Rule};
ghost use Rattle.border_repair.specs.Cuts.{AreCalm};
ghost use Rattle.border_repair.specs.Digrams.{IsEnd, IsSymbol, occurrences, rank_of};
ghost use Rattle.border_repair.specs.Expanding.{AreClean, IsExposed, IsExposing, outside_at};
ghost use Rattle.border_repair.specs.Sizes.{AreSmall};
ghost use Rattle.border_repair.specs.ValueBut.{pairs_in, value_but};

use crate::cutting::Cutter;
use crate::expanding::expand;
use crate::folding::fold_all;
use read_steps::Steps;
use slt_grammar::{Body, Digram, Grammar, Label, RuleList, check};
use std::alloc::{AllocError, Global};
use std::marker::Brand;
use std::sync::ledger::{Blank, Ledger};

/// Replaces a digram everywhere in a swept grammar's value, across the borders of rules too, and answers the rule whose calls stand for it.
///
/// The digram's upper label is a symbol, the lower one another symbol or bottom, and it occurs in the value. The rule is the first one. With
/// all other calls replaced no occurrence is left, and its calls are as many as the occurrences were. No call is unfolded: nodes become 32
/// times as many at most, and two more. No rule has a rank that is greater than the digram's and than all there were. It fails where memory
/// is refused, where there would be more than 2^32 nodes, and where a rule isn't called; then the grammar is as it was.
pub fn across(alloc: Global, grammar: &mut Grammar, digram: Digram) -> Result<usize, AllocError>
    requires upper { IsSymbol digram.upper }
    requires lower { IsEnd digram.lower }
    requires there { 0 < occurrences digram (rules_of grammar.old.rules) }
    requires apart { digram.upper ≢ digram.lower }
    ensures value { OnOk result (value (rules_of grammar.new.rules) ≡ value (rules_of grammar.old.rules)) }
    ensures rule { IfOk result (λ x. body_at (rules_of grammar.new.rules) x ≡ digram_body (ranks_of (rules_of grammar.new.rules)) digram.upper (digram.place - 1) digram.lower) }
    ensures swept { OnOk result (IsSwept (rules_of grammar.new.rules)) }
    ensures first { IfOk result (λ x. x ≡ 0) }
    ensures left { IfOk result (λ x. pairs_in digram (ranks_of (rules_of grammar.new.rules)) (value_but (rules_of grammar.new.rules)) ≡ 0) }
    ensures calls { IfOk result (λ x. calls_in x (value_but (rules_of grammar.new.rules)) ≡ occurrences digram (rules_of grammar.old.rules)) }
    ensures size { OnOk result (size (rules_of grammar.new.rules) ≤ 32 * size (rules_of grammar.old.rules) + 2) }
    ensures ranks { OnOk result (greatest_rank (rules_of grammar.new.rules) ≤ max (rank_of digram) (greatest_rank (rules_of grammar.old.rules))) }
    ensures refused { OnErr result (grammar.new ≡ grammar.old) }
{
    let made = replaced(alloc, grammar, digram)?;
    *grammar = made;
    Ok(0)
}

// A grammar for the same value, whose first rule is the digram's.
fn replaced(alloc: Global, grammar: &Grammar, digram: Digram) -> Result<Grammar, AllocError>
    requires upper { IsSymbol digram.upper }
    requires lower { IsEnd digram.lower }
    requires there { 0 < occurrences digram (rules_of grammar.now.rules) }
    requires apart { digram.upper ≢ digram.lower }
    ensures value { IfOk result (λ made. value (rules_of made.rules) ≡ value (rules_of grammar.now.rules)) }
    ensures rule { IfOk result (λ made. body_at (rules_of made.rules) 0 ≡ digram_body (ranks_of (rules_of made.rules)) digram.upper (digram.place - 1) digram.lower) }
    ensures swept { IfOk result (λ made. IsSwept (rules_of made.rules)) }
    ensures left { IfOk result (λ made. pairs_in digram (ranks_of (rules_of made.rules)) (value_but (rules_of made.rules)) ≡ 0) }
    ensures calls { IfOk result (λ made. calls_in 0 (value_but (rules_of made.rules)) ≡ occurrences digram (rules_of grammar.now.rules)) }
    ensures size { IfOk result (λ made. size (rules_of made.rules) ≤ 28 * size (rules_of grammar.now.rules) + 2) }
    ensures ranks { IfOk result (λ made. greatest_rank (rules_of made.rules) ≤ max (rank_of digram) (greatest_rank (rules_of grammar.now.rules))) }
{
    // The call tells that the rules are a grammar.
    let _rules = grammar.rules();
    let exposed = expose(alloc, grammar, digram)?;
    let folded = fold_all(alloc, exposed.as_slice(), digram)?;
    match check(alloc, folded) {
        Ok(made) => Ok(made),
        Err(_) => Err(AllocError),
    }
}

// Rules for the same value in which each occurrence of the digram stands in one body. The first one is the digram's, and isn't called.
fn expose(alloc: Global, grammar: &Grammar, digram: Digram) -> Result<RuleList, AllocError>
    requires apart { digram.upper ≢ digram.lower }
    requires upper { IsSymbol digram.upper }
    requires lower { IsEnd digram.lower }
    requires place { (digram.place ≡ 1) ⊎ (digram.place ≡ 2) }
    ensures exposed { IfOk result (λ rules. (outside : ℕ → List Label) × IsExposed (rules_of grammar.now.rules) rules outside) }
    ensures body { IfOk result (λ rules. body_at rules 0 ≡ digram_body [] digram.upper (digram.place - 1) digram.lower) }
    ensures rank { IfOk result (λ rules. rank_at rules 0 ≡ rank_of digram) }
    ensures calm { IfOk result (AreCalm digram) }
    ensures size { IfOk result (λ rules. size rules ≤ 28 * size (rules_of grammar.now.rules) + 2) }
    ensures ranks { IfOk result (λ rules. greatest_rank rules ≤ max (rank_of digram) (greatest_rank (rules_of grammar.now.rules))) }
{
    let mut rules = RuleList::new(alloc);
    let body = pair(alloc, digram)?;
    rules.push(pair_rank(digram), body)?;
    let mut outsides = Vec::with_capacity(alloc, grammar.rules())?;
    let mut labels = Vec::new(alloc);
    add_exposed::<Brand>(
        alloc,
        grammar,
        digram,
        &mut rules,
        &mut outsides,
        &mut labels,
        Blank::new(1),
    )?;
    Ok(rules)
}

// Adds the parts of all rules and the start.
fn add_exposed<L: Ledger>(
    alloc: Global,
    grammar: &Grammar,
    digram: Digram,
    rules: &mut RuleList,
    outsides: &mut Vec<Body>,
    labels: &mut Vec<Label>,
    blank: Blank,
) -> Result<(), AllocError>
    requires name { blank.name ≡ L.name }
    requires parts { blank.parts ≡ L.parts }
    requires some { 0 < blank.parts }
    requires apart { digram.upper ≢ digram.lower }
    requires upper { IsEnd digram.upper }
    requires lower { IsEnd digram.lower }
    requires none { outsides.old.items ≡ [] }
    requires first { 0 < length rules.old }
    requires calm { AreCalm digram rules.old }
    requires place { digram.place ≤ arity [] digram.upper }
    ensures exposed { OnOk result ((outside : ℕ → List Label) × IsExposed (rules_of grammar.now.rules) rules.new outside) }
    ensures grown { OnOk result ((more : List Rule) × (rules.new ≡ rules.old ++ more)) }
    ensures calm { OnOk result (AreCalm digram rules.new) }
    ensures size { OnOk result (size rules.new ≤ size rules.old + 28 * size (rules_of grammar.now.rules)) }
    ensures ranks { OnOk result (greatest_rank rules.new ≤ max (max 1 (greatest_rank rules.old)) (greatest_rank (rules_of grammar.now.rules))) }
{
    let mut steps: Steps<L> = Steps::new(blank);
    let mut cutter = Cutter::new(alloc);
    let start = grammar.rules() - 1;
    'rules: for rule in 0..start {
        add_outside(
            alloc,
            grammar,
            digram,
            rule,
            rules,
            outsides,
            labels,
            &mut cutter,
            &mut steps,
        )?;
    }
    expand(grammar, outsides.as_slice(), start, labels, &mut steps)?;
    rules.push(0, copied(alloc, labels.as_slice())?)?;
    Ok(())
}

// Adds the parts of a rule, and what is outside of them.
fn add_outside<L: Ledger>(
    alloc: Global,
    grammar: &Grammar,
    digram: Digram,
    rule: usize,
    rules: &mut RuleList,
    outsides: &mut Vec<Body>,
    labels: &mut Vec<Label>,
    cutter: &mut Cutter,
    steps: &mut Steps<L>,
) -> Result<(), AllocError>
    requires there { rule < length grammar.now.rules }
    requires grammar { IsGrammar (rules_of grammar.now.rules) }
    requires apart { digram.upper ≢ digram.lower }
    requires upper { IsEnd digram.upper }
    requires lower { IsEnd digram.lower }
    requires exposing { IsExposing (rules_of grammar.now.rules) rule rules.old outsides.old.items }
    requires place { digram.place ≤ arity [] digram.upper }
    requires small { AreSmall outsides.old.items }
    requires clean { AreClean digram rule rules.old outsides.old.items }
    ensures exposing { OnOk result (IsExposing (rules_of grammar.now.rules) (rule + 1) rules.new outsides.new.items) }
    ensures grown { OnOk result ((more : List Rule) × (rules.new ≡ rules.old ++ more)) }
    ensures small { OnOk result (AreSmall outsides.new.items) }
    ensures clean { OnOk result (AreClean digram (rule + 1) rules.new outsides.new.items) }
    ensures size { OnOk result (size rules.new ≤ size rules.old + 28 * real_nodes (body_at (rules_of grammar.now.rules) rule)) }
    ensures ranks { OnOk result (greatest_rank rules.new ≤ max (max 1 (greatest_rank rules.old)) (greatest_rank (rules_of grammar.now.rules))) }
{
    expand(grammar, outsides.as_slice(), rule, labels, steps)?;
    let outside = cutter.cut(alloc, labels.as_slice(), digram, rules)?;
    outsides.push(outside)?;
    Ok(())
}

// A body of these labels.
pub(crate) fn copied(alloc: Global, labels: &[Label]) -> Result<Body, AllocError>
    ensures { IfOk result (λ b. b ≡ labels.now) }
{
    let mut body = Body::new(alloc);
    'labels: for label in labels {
        body.push(*label)?;
    }
    Ok(body)
}

// How many parameters a digram's rule has.
fn pair_rank(digram: Digram) -> usize
    requires upper { IsSymbol digram.upper }
    requires lower { IsEnd digram.lower }
    ensures { result ≡ rank_of digram }
{
    match digram.lower {
        Label::Symbol(_) => 3,
        _ => 1,
    }
}

// A digram over parameters.
fn pair(alloc: Global, digram: Digram) -> Result<Body, AllocError>
    requires upper { IsSymbol digram.upper }
    requires lower { IsEnd digram.lower }
    requires place { (digram.place ≡ 1) ⊎ (digram.place ≡ 2) }
    ensures { IfOk result (λ body. body ≡ digram_body [] digram.upper (digram.place - 1) digram.lower) }
{
    let Digram {
        upper,
        place,
        lower,
    } = digram;
    let param = Label::Param;
    let has_kids = lower != Label::Bottom;
    match (place == 1, has_kids) {
        (true, true) => copied(alloc, &[upper, lower, param, param, param]),
        (true, false) => copied(alloc, &[upper, lower, param]),
        (false, true) => copied(alloc, &[upper, param, lower, param, param]),
        (false, false) => copied(alloc, &[upper, param, lower]),
    }
}
