// Ways into a grammar, level by level.
ghost use Rattle.std.specs.Prelude.{◌≡◌, ◌≤◌, ◌+◌, ℕ, List};
ghost use Rattle.slt_grammar.specs.Keyed.{KeyedRule};
ghost use Rattle.slt_grammar.specs.Ways.{HaveSameRules, IsNextLevel};
ghost use Rattle.slt_grammar.specs.declared.level.Level.{Level};

use crate::grammar::Grammar;
use crate::level::Level;
use read_steps::Steps;
use std::sync::ledger::Ledger;

/// Levels that are given one after another, from the start rule down to a node of the value. The rules that have none of the levels
/// to come may change between the calls.
pub trait Way: Drop {
    // The way can go on over these rules.
    ghost ready: { Self → List KeyedRule → Type 0 };

    // The levels to come.
    ghost levels: { Self → List KeyedRule → List Level };

    // The most steps that the calls still take.
    ghost most: { Self → List KeyedRule → ℕ };

    /// The next level, and None where all were given.
    fn next<L: Ledger>(&mut self, grammar: &Grammar, steps: &mut Steps<L>) -> Option<Level>
        requires { ready self.old grammar.now.rules }
        ensures ready { ready self.new grammar.now.rules }
        ensures levels { IsNextLevel (levels self.old grammar.now.rules) result (levels self.new grammar.now.rules) }
        ensures steps { steps.new + most self.new grammar.now.rules ≤ steps.old + most self.old grammar.now.rules };

    ghost ready_stays: { (way : Self) (G H : List KeyedRule) → ready way G → HaveSameRules (levels way G) G H → ready way H };

    ghost levels_stay: { (way : Self) (G H : List KeyedRule) → ready way G → HaveSameRules (levels way G) G H → levels way H ≡ levels way G };

    ghost most_stays: { (way : Self) (G H : List KeyedRule) → ready way G → HaveSameRules (levels way G) G H → most way H ≡ most way G };
}
