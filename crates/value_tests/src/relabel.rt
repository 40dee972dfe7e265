// Bodies with other symbols where texts have marks.
ghost use Rattle.std.specs.Prelude.{◌≡◌, ◌<◌, [], ◌∷◌, Some, length, reverse, IfOk, OnOk};
ghost use Rattle.slt_grammar.specs.Bodies.{CallsBelow};
ghost use Rattle.slt_grammar.specs.Grammars.{body_at};
ghost use Rattle.value_tests.specs.Sources.{rules_in, texts_at, symbol_count, mark_in, notes_in, HasCounts, CallTurnsIn, LabelTurnsIn, BodyTurnsIn};
ghost use Rattle.value_tests.specs.Steps.{Extends};
ghost use Rattle.value_tests.specs.TextPlaces.{marked};

use crate::calls::enter_call;
use crate::sizes::texts_of;
use crate::source::Source;
use crate::spots::{Instance, Spots};
use crate::stack::{pop_many, product, sum};
use slt_grammar::Label;
use std::alloc::{AllocError, Global};

// What a rule's body becomes whose first text has this place, and whose parameters have these sizes. Its labels go back from where the
// first is on top.
pub(crate) fn relabel_body(
    alloc: Global,
    source: &Source,
    rule: usize,
    labels: &mut Vec<Label>,
    ahead: &mut Vec<Label>,
    sizes: &[u64],
    place: u64,
    notes: &mut Vec<u64>,
    kids: &mut Vec<u64>,
    opened: &mut Vec<u64>,
    spots: &mut Spots,
) -> Result<Vec<Label>, AllocError>
    requires counts { HasCounts source.now }
    requires there { rule < length source.now.grammar.now.rules }
    requires ahead { reverse ahead.old.items ≡ body_at (rules_in source.now) rule }
    requires labels { labels.old.items ≡ [] }
    requires notes { reverse notes.old.items ≡ notes_in source.now sizes.now rule }
    ensures labels { OnOk result (labels.new.items ≡ body_at (rules_in source.now) rule) }
    ensures spots { OnOk result (Extends spots.old spots.new) }
    ensures body { IfOk result (λ body. BodyTurnsIn source.now rule sizes.now place spots.new body.items) }
{
    // The call tells that the rules are a grammar.
    let _rules = source.grammar.rules();
    opened.clear();
    opened.push(place)?;
    let mut body = Vec::new(alloc);
    'labels: while let Some(label) = ahead.pop() {
        let Some(here) = opened.pop() else {
            return Err(AllocError);
        };
        let new = relabel_label(alloc, source, label, here, notes, kids, opened, spots)?;
        body.push(new)?;
        labels.push(label)?;
    }
    Ok(body)
}

// What a label becomes whose term begins at this place. What is noted of it is taken off, and the places of its children come on top.
fn relabel_label(
    alloc: Global,
    source: &Source,
    label: Label,
    place: u64,
    notes: &mut Vec<u64>,
    kids: &mut Vec<u64>,
    opened: &mut Vec<u64>,
    spots: &mut Spots,
) -> Result<Label, AllocError>
    requires counts { HasCounts source.now }
    requires earlier { CallsBelow (length source.now.grammar.now.rules) (label ∷ []) }
    ensures spots { OnOk result (Extends spots.old spots.new) }
    ensures becomes { IfOk result (λ m. LabelTurnsIn source.now label place (reverse notes.old.items) spots.new m (reverse notes.new.items) (reverse opened.old.items) (reverse opened.new.items)) }
{
    match label {
        Label::Bottom | Label::Param => Ok(label),
        Label::Symbol(symbol) => {
            let Some(first) = notes.pop() else {
                return Err(AllocError);
            };
            let texts = texts_of(source.names, symbol);
            let below = sum(texts, first)?;
            opened.push(sum(place, below)?)?;
            opened.push(sum(place, texts)?)?;
            let new = new_symbol(source, symbol, place)?;
            Ok(Label::Symbol(new))
        }
        Label::Call(rule) => {
            let id = relabel_call(alloc, source, rule, place, notes, kids, opened, spots)?;
            Ok(Label::Call(id))
        }
    }
}

// The symbol of a node whose text, if it has one, stands at this place.
fn new_symbol(source: &Source, symbol: usize, place: u64) -> Result<usize, AllocError>
    ensures { IfOk result (λ new. new ≡ marked (texts_at source.now) (symbol_count source.now) (mark_in source.now) symbol (Some place)) }
{
    let mark = product(texts_of(source.names, symbol), source.marks.at(place))?;
    let more = product(source.names.len() as u64, mark)?;
    Ok(sum(symbol as u64, more)? as usize)
}

// What a call of a rule becomes: a call of the spot of this number. The sizes of its arguments, which are topmost, are taken off, and the
// places at which they begin come on top.
fn relabel_call(
    alloc: Global,
    source: &Source,
    rule: usize,
    place: u64,
    notes: &mut Vec<u64>,
    kids: &mut Vec<u64>,
    opened: &mut Vec<u64>,
    spots: &mut Spots,
) -> Result<usize, AllocError>
    requires counts { HasCounts source.now }
    requires there { rule < length source.now.grammar.now.rules }
    ensures spots { OnOk result (Extends spots.old spots.new) }
    ensures becomes { IfOk result (λ id. CallTurnsIn source.now rule place (reverse notes.old.items) spots.new id (reverse notes.new.items) (reverse opened.old.items) (reverse opened.new.items)) }
{
    // The call tells that the rules are a grammar.
    let _rules = source.grammar.rules();
    let rank = source.grammar.rank(rule);
    if notes.len() < rank {
        return Err(AllocError);
    }
    pop_many(notes, rank, kids)?;
    if enter_call(
        source.counts,
        source.marks,
        rule,
        kids.as_slice(),
        place,
        opened,
    )? {
        let id = spots.plain(alloc, source.grammar, rule)?;
        return Ok(id);
    }
    let mut sizes = Vec::new(alloc);
    sizes.extend_from_slice(kids.as_slice())?;
    let id = spots.add(Instance {
        rule,
        sizes,
        place: Some(place),
    })?;
    Ok(id)
}
