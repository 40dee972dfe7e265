// Rows that are put in, taken out or changed as one rule comes, goes or changes.
ghost use Rattle.std.specs.Prelude.{◌≡◌, ◌<◌, ◌≤◌, ◌+◌, ◌-◌, ◌*◌, ◌^◌, ℕ, List, [], ◌∷◌, ◌++◌, length, set};
ghost use Rattle.std.specs.List.{insert, remove};
ghost use Rattle.plain_tree.specs.declared.kind.Kind.{Kind};
ghost use Rattle.slt_grammar.specs.Grammars.{value, value_at};
ghost use Rattle.slt_grammar.specs.declared.rules.Rule.{Rule};
ghost use Rattle.slt_grammar.specs.RuleValues.{HasRuleMore, HaveOtherValues};
ghost use Rattle.segment_counts.specs.Changes.{HasMore, IsWeighed, leaf_weights, lowered, raised, start_weights};
ghost use Rattle.segment_counts.specs.Counting.{AreCounts, no_row};

use crate::counts::{Counts, Weights};

impl Counts {
    /// Takes out the row of a rule that went. The room stays.
    pub fn remove_rule(&mut self, rule: usize)
        requires { rule < self.old.rules }
        ensures rows { self.new.rows ≡ remove self.old.rows rule ++ no_row ∷ [] }
        ensures room { length self.new.rows ≡ length self.old.rows }
        ensures rules { self.new.rules + 1 ≡ self.old.rules }
        ensures counts { (names : List (Kind × List ℕ)) (G H : List Rule) → AreCounts names H self.old → HasRuleMore rule G H → AreCounts names G self.new }
    {
        self.set_row(rule, &[]);
        self.close_row(rule);
    }

    /// Puts in the row of a rule without parameters that was put in at a place, by how many nodes its value has and how many of them
    /// have a text. It takes no memory.
    pub fn insert_leaf(&mut self, rule: usize, nodes: u64, texts: u64)
        requires rule { rule ≤ self.old.rules }
        requires room { self.old.rules < length self.old.rows }
        requires few { nodes < 2 ^ 63 }
        ensures rows { self.new.rows ++ no_row ∷ [] ≡ insert self.old.rows rule (leaf_weights nodes texts ∷ []) }
        ensures room { length self.new.rows ≡ length self.old.rows }
        ensures rules { self.new.rules ≡ self.old.rules + 1 }
        ensures counts { (names : List (Kind × List ℕ)) (G H : List Rule) → AreCounts names G self.old → HasRuleMore rule G H → IsWeighed names (value_at H rule) nodes texts → AreCounts names H self.new }
    {
        let row = [Weights {
            nodes,
            texts,
            all: 2 * nodes + 1,
        }];
        self.open_row(rule);
        self.set_row(rule, &row);
    }

    /// Takes in that the last rule's value has more nodes, and so many more texts. It takes no memory.
    pub fn raise_start(&mut self, nodes: u64, texts: u64)
        requires some { 0 < self.old.rules }
        requires all { (start_weights self.old).all + 2 * nodes < 2 ^ 64 }
        requires nodes { (start_weights self.old).nodes + nodes < 2 ^ 64 }
        requires texts { (start_weights self.old).texts + texts < 2 ^ 64 }
        ensures rows { self.new.rows ≡ set self.old.rows (self.old.rules - 1) (raised (start_weights self.old) nodes texts ∷ []) }
        ensures rules { self.new.rules ≡ self.old.rules }
        ensures counts { (names : List (Kind × List ℕ)) (G H : List Rule) → AreCounts names G self.old → HaveOtherValues (length G - 1) G H → HasMore names (value G) (value H) nodes texts → AreCounts names H self.new }
    {
        let start = self.rules() - 1;
        let weights = self.at(start, 0);
        let row = [Weights {
            nodes: weights.nodes + nodes,
            texts: weights.texts + texts,
            all: weights.all + 2 * nodes,
        }];
        self.set_row(start, &row);
    }

    /// Takes in that it has fewer.
    pub fn lower_start(&mut self, nodes: u64, texts: u64)
        requires some { 0 < self.old.rules }
        requires nodes { nodes ≤ (start_weights self.old).nodes }
        requires all { 2 * nodes ≤ (start_weights self.old).all }
        requires texts { texts ≤ (start_weights self.old).texts }
        ensures rows { self.new.rows ≡ set self.old.rows (self.old.rules - 1) (lowered (start_weights self.old) nodes texts ∷ []) }
        ensures rules { self.new.rules ≡ self.old.rules }
        ensures counts { (names : List (Kind × List ℕ)) (G H : List Rule) → AreCounts names G self.old → HaveOtherValues (length G - 1) G H → HasMore names (value H) (value G) nodes texts → AreCounts names H self.new }
    {
        let start = self.rules() - 1;
        let weights = self.at(start, 0);
        let row = [Weights {
            nodes: weights.nodes - nodes,
            texts: weights.texts - texts,
            all: weights.all - 2 * nodes,
        }];
        self.set_row(start, &row);
    }
}
