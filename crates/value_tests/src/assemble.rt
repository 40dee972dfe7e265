// The grammar of the rules that were made of spots.
ghost use Rattle.std.specs.List.{AllZip};
ghost use Rattle.std.specs.Prelude.{◌≡◌, ◌++◌, [], ◌∷◌, Some, length, slice_get, IfOk, OnOk};
ghost use Rattle.slt_grammar.specs.Keyed.{rules_of};
ghost use Rattle.slt_grammar.specs.Grammars.{value};
ghost use Rattle.slt_grammar.specs.declared.rules.Rule.{Rule};
ghost use Rattle.value_tests.specs.Assembled.{start_spot};
ghost use Rattle.value_tests.specs.Isolated.{IsIsolated};
ghost use Rattle.value_tests.specs.MarkedValues.{marked_value};
ghost use Rattle.value_tests.specs.Renumbered.{IsRenumbered};
ghost use Rattle.value_tests.specs.Sources.{rules_in, IsMadeFor, AreMadeFor, IsRuleIn, AreRulesIn};

use crate::apart::{are_called_once, are_rising};
use crate::source::Source;
use crate::spots::Spots;
use slt_grammar::{Body, Grammar, Label, RuleList, check};
use std::alloc::{AllocError, Global};

// A body that was made for the spot of a number.
#[derive(Drop)]
pub(crate) struct Made {
    pub(crate) spot: usize,
    pub(crate) body: Vec<Label>,
}

// The grammar of all bodies that were made. It has the value of the old one, with symbols of their own for nodes whose texts have marks.
pub(crate) fn assemble(
    alloc: Global,
    source: &Source,
    spots: &Spots,
    made: Vec<Made>,
) -> Result<Grammar, AllocError>
    requires start { slice_get spots.now 0 ≡ Some (start_spot (rules_in source.now)) }
    requires made { AreMadeFor source.now spots.now made.items }
    ensures value { IfOk result (λ g. value (rules_of g.rules) ≡ marked_value source.now.names.now source.now.marks.now (rules_in source.now)) }
    ensures isolated { IfOk result (λ g. IsIsolated source.now.names.now source.now.marks.now (rules_in source.now) (rules_of g.rules)) }
{
    // The call tells that the rules are a grammar.
    let _rules = source.grammar.rules();
    let origins = origins_of(alloc, made.as_slice())?;
    let numbers = numbers_of(alloc, origins.as_slice(), spots.len())?;
    let count = origins.as_slice().len();
    if count == 0 || origins[count - 1] != 0 {
        return Err(AllocError);
    }
    let list = list_rules(
        alloc,
        source,
        spots,
        made,
        origins.as_slice(),
        numbers.as_slice(),
    )?;
    if list.as_slice().len() != count {
        return Err(AllocError);
    }
    let Ok(new) = check(alloc, list) else {
        return Err(AllocError);
    };
    if !are_rising(spots, origins.as_slice(), source.grammar) {
        return Err(AllocError);
    }
    if !are_called_once(spots, origins.as_slice(), &new) {
        return Err(AllocError);
    }
    Ok(new)
}

// The spots of the rules that are made, by the rules' numbers: the last that was made comes first.
fn origins_of(alloc: Global, made: &[Made]) -> Result<Vec<usize>, AllocError> {
    let mut origins = Vec::with_capacity(alloc, made.len())?;
    let mut left = made.len();
    'made: while left > 0 {
        left -= 1;
        origins.push(made[left].spot)?;
    }
    Ok(origins)
}

// The numbers of the rules that are made of spots, by the spots' numbers.
fn numbers_of(alloc: Global, origins: &[usize], spots: usize) -> Result<Vec<usize>, AllocError> {
    let mut numbers = vec![in alloc; 0; spots]?;
    'origins: for number in 0..origins.len() {
        let id = origins[number];
        if id < numbers.len() {
            numbers[id] = number;
        }
    }
    Ok(numbers)
}

// The rules of bodies that were made, those of the last one first.
fn list_rules(
    alloc: Global,
    source: &Source,
    spots: &Spots,
    mut made: Vec<Made>,
    origins: &[usize],
    numbers: &[usize],
) -> Result<RuleList, AllocError>
    requires { AreMadeFor source.now spots.now made.items }
    ensures { IfOk result (AreRulesIn source.now spots.now origins.now) }
{
    let mut list = RuleList::new(alloc);
    'made: while let Some(next) = made.pop() {
        put_rule(alloc, source, spots, &next, origins, numbers, &mut list)?;
    }
    Ok(list)
}

// Puts the rule of a body that was made behind the others.
fn put_rule(
    alloc: Global,
    source: &Source,
    spots: &Spots,
    made: &Made,
    origins: &[usize],
    numbers: &[usize],
    list: &mut RuleList,
) -> Result<(), AllocError>
    requires { IsMadeFor source.now spots.now made.now.spot made.now.body.items }
    ensures { OnOk result ((R : Rule) × (list.new ≡ list.old ++ R ∷ []) × IsRuleIn source.now spots.now origins.now (length list.old) R) }
{
    let number = list.as_slice().len();
    if number >= origins.len() || origins[number] != made.spot {
        return Err(AllocError);
    }
    let Some(spot) = spots.get(made.spot) else {
        return Err(AllocError);
    };
    if spot.rule >= source.grammar.rules() {
        return Err(AllocError);
    }
    let body = renumber(alloc, made.body.as_slice(), origins, numbers)?;
    list.push(source.grammar.rank(spot.rule), body)?;
    Ok(())
}

// A body whose calls of spots are calls of the rules that are made of them.
fn renumber(
    alloc: Global,
    labels: &[Label],
    origins: &[usize],
    numbers: &[usize],
) -> Result<Body, AllocError>
    ensures { IfOk result (λ body. AllZip (IsRenumbered origins.now) labels.now body) }
{
    let mut body = Body::new(alloc);
    'labels: for label in labels {
        let new = renumber_label(*label, origins, numbers)?;
        body.push(new)?;
    }
    Ok(body)
}

// The same for one label.
fn renumber_label(label: Label, origins: &[usize], numbers: &[usize]) -> Result<Label, AllocError>
    ensures { IfOk result (IsRenumbered origins.now label) }
{
    let Label::Call(id) = label else {
        return Ok(label);
    };
    if id >= numbers.len() {
        return Err(AllocError);
    }
    let number = numbers[id];
    if number >= origins.len() || origins[number] != id {
        return Err(AllocError);
    }
    Ok(Label::Call(number))
}
