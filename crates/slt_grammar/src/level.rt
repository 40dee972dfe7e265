// One level of a descent into a grammar.
use rule_arena::Key;

/// A rule with one node of its body. Levels that follow one another lead from the start rule to a node of the value: each node but
/// the last one is a call of the next level's rule.
#[derive(Clone, Copy, Drop)]
pub struct Level {
    pub rule: usize,
    pub key: Key,
}
