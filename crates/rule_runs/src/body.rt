// The labels of a rule's body as a list.
ghost use Rattle.std.specs.Prelude.{◌≡◌, ◌+◌, ◌++◌, ◌*◌, ◌<◌, ◌≤◌, length, OnOk};
ghost use Rattle.slt_grammar.specs.Grammars.{body_at};
ghost use Rattle.slt_grammar.specs.Keyed.{rules_of};

use read_steps::Steps;
use slt_grammar::{Grammar, Label};
use std::alloc::{AllocError, Global};
use std::sync::ledger::Ledger;

// Reads a body to the end of a list, with at most two steps for each of its nodes.
pub(crate) fn append_body<L: Ledger>(
    grammar: &Grammar,
    rule: usize,
    labels: &mut Vec<Label>,
    steps: &mut Steps<L>,
) -> Result<(), AllocError>
    requires { rule < length grammar.now.rules }
    ensures labels { OnOk result (labels.new.items ≡ labels.old.items ++ body_at (rules_of grammar.now.rules) rule) }
    ensures steps { steps.new ≤ steps.old + 2 * length (body_at (rules_of grammar.now.rules) rule) }
    ensures counted { steps.old ≤ steps.new }
{
    let mut next = Some(grammar.root(rule));
    'nodes: while let Some(key) = next {
        labels.push(grammar.label(key, steps))?;
        next = grammar.next_in_preorder(key, steps);
    }
    Ok(())
}
