// Whether a term begins with a rule's body.
ghost use Rattle.std.specs.Prelude.{◌≡◌, ◌+◌, ◌*◌, ◌<◌, ◌≤◌, [], ℕ, List, IfNone, IfSome, IsFalse, IsTrue, length};
ghost use Rattle.rule_arena.specs.Preorder.{subterm};
ghost use Rattle.rule_arena.specs.Terms.{kids_of};
ghost use Rattle.rule_arena.specs.declared.key.Key.{Key};
ghost use Rattle.slt_grammar.specs.Calling.{BeginsWith, IsBodyOver};
ghost use Rattle.slt_grammar.specs.Keyed.{nodes_at};
ghost use Rattle.slt_grammar.specs.KeyedEdits.{Stands};

use crate::grammar::Grammar;
use read_steps::Steps;
use rule_arena::{Key, Kids, Label};
use std::sync::ledger::Ledger;

impl Grammar {
    /// The nodes that stand for a rule's parameters, in order, where the term at a node begins with the rule's body, and None where it
    /// doesn't or the body is a parameter alone. `call_at` takes them where the rule is earlier than that of the node. At most four
    /// steps for each node of the body, and one. It takes no memory.
    pub fn match_at<L: Ledger>(&self, at: Key, rule: usize, steps: &mut Steps<L>) -> Option<Kids>
        requires there { Stands self.now.rules at }
        requires rule { rule < length self.now.rules }
        ensures some { IfSome result (λ arguments. (S : Stands self.now.rules at) → rule < S.rule → BeginsWith self.now.rules at rule arguments) }
        ensures none { IfNone result ((arguments : List Key) → BeginsWith self.now.rules at rule arguments → ⊥) }
        ensures steps { steps.new ≤ steps.old + (1 + 4 * length (nodes_at self.now.rules rule)) }
    {
        if self.label(self.root(rule), steps) == Label::Param {
            return None;
        }
        let mut arguments = Kids::new();
        if self.match_body(at, rule, &mut arguments, steps) {
            Some(arguments)
        } else {
            None
        }
    }

    // Whether the term at a node is a rule's body over some terms, whose roots are put into a list. Behind the body's last node nothing is
    // passed by: to leave a term that ends long lists takes a climb over all of them.
    fn match_body<L: Ledger>(
        &self,
        at: Key,
        rule: usize,
        found: &mut Kids,
        steps: &mut Steps<L>,
    ) -> bool
        requires there { Stands self.now.rules at }
        requires rule { rule < length self.now.rules }
        requires empty { found.old ≡ [] }
        ensures yes { IsTrue result → (S : Stands self.now.rules at)
            → IsBodyOver (nodes_at self.now.rules rule) (subterm kids_of (nodes_at self.now.rules S.rule) S.place) found.new }
        ensures no { IsFalse result → (S : Stands self.now.rules at) (arguments : List Key)
            → IsBodyOver (nodes_at self.now.rules rule) (subterm kids_of (nodes_at self.now.rules S.rule) S.place) arguments → ⊥ }
        ensures steps { steps.new ≤ steps.old + 4 * length (nodes_at self.now.rules rule) }
    {
        // The call tells that bodies are terms, and that a key stands once.
        let _limit = self.limit();
        let mut next = Some(self.root(rule));
        let mut here = at;
        while let Some(node) = next {
            let label = self.label(node, steps);
            next = self.next_in_preorder(node, steps);
            if label == Label::Param {
                found.push(here);
                if next.is_some() {
                    here = self.next_past_term(here, steps).unwrap_or(here);
                }
                continue;
            }
            if self.label(here, steps) != label {
                return false;
            }
            if next.is_some() {
                here = self.next_in_preorder(here, steps).unwrap_or(here);
            }
        }
        true
    }
}
