// A walk over the labels of one rule's body.
ghost use Rattle.std.specs.Prelude.{◌≡◌, ◌+◌, ◌<◌, ◌≤◌, length};
ghost use Rattle.slt_grammar.specs.Grammars.{body_at};
ghost use Rattle.slt_grammar.specs.Keyed.{rules_of};
ghost use Rattle.slt_grammar.specs.BodyWalks.{IsNextLabel};

use crate::grammar::Grammar;
use read_steps::Steps;
use rule_arena::{Key, Label};
use std::marker::Model;
use std::sync::ledger::Ledger;

/// A walk in preorder; contracts see the labels that are left. It takes no memory.
#[derive(Drop)]
pub struct BodyWalk<'a> {
    grammar: &'a Grammar,
    rule: usize,
    // the node whose label comes next, and its place in the body
    next: Option<Key>,
    place: usize,
}

impl<'a> Model for BodyWalk<'a> {
    ghost use Rattle.std.specs.Prelude.{List};
    ghost use Rattle.rule_arena.specs.declared.label.Label.{Label};

    ghost Value = { List Label };

    ghost use Rattle.slt_grammar.specs.BodyWalks.{labels_from};
    ghost use Rattle.slt_grammar.specs.Keyed.{key_at};
    ghost use Rattle.std.specs.Prelude.{◌≡◌};

    ghost view = { λ w. labels_from w.grammar.now.rules w.rule w.place };

    ghost invariant = { λ w. key_at w.grammar.now.rules w.rule w.place ≡ w.next };
}

impl<'a> BodyWalk<'a> {
    pub(crate) fn new(grammar: &'a Grammar, rule: usize) -> BodyWalk<'a>
        requires { rule < length grammar.now.rules }
        ensures { result ≡ body_at (rules_of grammar.now.rules) rule }
    {
        BodyWalk {
            grammar,
            rule,
            next: Some(grammar.root(rule)),
            place: 0,
        }
    }

    /// The next label, or None where none is left. At most two steps.
    pub fn next<L: Ledger>(&mut self, steps: &mut Steps<L>) -> Option<Label>
        ensures label { IsNextLabel self.old result self.new }
        ensures step { steps.new ≤ steps.old + 2 }
        ensures more { steps.old ≤ steps.new }
    {
        let key = self.next?;
        // The call tells that a body's places are few.
        let _limit = self.grammar.limit();
        let label = self.grammar.label(key, steps);
        self.next = self.grammar.next_in_preorder(key, steps);
        self.place += 1;
        Some(label)
    }
}
