// Bodies whose calls give way to the outsides of the called rules.
ghost use Rattle.std.specs.Prelude.{◌≡◌, ◌<◌, ◌++◌, ◌∷◌, [], ℕ, get_or, length, OnOk};
ghost use Rattle.slt_grammar.specs.Algebras.{ranks_of};
ghost use Rattle.slt_grammar.specs.Bodies.{params};
ghost use Rattle.slt_grammar.specs.Grammars.{body_at};
ghost use Rattle.slt_grammar.specs.Keyed.{rules_of};
ghost use Rattle.slt_grammar.specs.Segments.{segment};
ghost use Rattle.border_repair.specs.Expanding.{Expands, expanded_part, outside_at};

use read_steps::Steps;
use slt_grammar::{Body, Grammar, Label, TourWalk};
use std::alloc::AllocError;
use std::sync::ledger::Ledger;

// Writes a rule's body with each call replaced by the outside of its rule over the call's arguments. The parameters cut an outside into
// segments, and each comes where the walk stops at the call.
pub(crate) fn expand<L: Ledger>(
    grammar: &Grammar,
    outsides: &[Body],
    rule: usize,
    labels: &mut Vec<Label>,
    steps: &mut Steps<L>,
) -> Result<(), AllocError>
    requires there { rule < length grammar.now.rules }
    requires ranks { (q : ℕ) → q < rule → params (outside_at outsides.now q) ≡ get_or (ranks_of (rules_of grammar.now.rules)) q 0 }
    ensures { OnOk result (Expands (ranks_of (rules_of grammar.now.rules)) (outside_at outsides.now) (body_at (rules_of grammar.now.rules) rule) (labels.new.items ∷ [])) }
{
    // The call tells what is true of every grammar.
    let _limit = grammar.limit();
    let mut walk = TourWalk::new(grammar, rule);
    labels.clear();
    'stops: loop {
        let site = grammar.site(walk.key, steps);
        add_part(outsides, site.label, walk.part, labels)?;
        if !walk.advance(grammar, &site, steps) {
            return Ok(());
        }
    }
}

// Adds what a part of a node becomes.
fn add_part(
    outsides: &[Body],
    label: Label,
    part: usize,
    labels: &mut Vec<Label>,
) -> Result<(), AllocError>
    ensures { OnOk result (labels.new.items ≡ labels.old.items ++ expanded_part (outside_at outsides.now) label part) }
{
    match label {
        Label::Call(called) => match outsides.get(called) {
            Some(outside) => add_segment(outside.as_slice(), part, labels),
            None => Ok(()),
        },
        own => {
            if part > 0 {
                return Ok(());
            }
            labels.push(own)?;
            Ok(())
        }
    }
}

// Adds the labels between two parameters.
fn add_segment(outside: &[Label], part: usize, labels: &mut Vec<Label>) -> Result<(), AllocError>
    ensures { OnOk result (labels.new.items ≡ labels.old.items ++ segment part outside.now) }
{
    let mut before = part;
    'labels: for label in outside {
        if let Label::Param = *label {
            if before == 0 {
                return Ok(());
            }
            before -= 1;
        } else if before == 0 {
            labels.push(*label)?;
        }
    }
    Ok(())
}
