// Digrams.

use rule_arena::Label;

/// Two labels, one at a place under the other.
#[derive(Clone, Copy, PartialEq, Eq, Drop)]
pub struct Digram {
    /// The label of the upper node.
    pub upper: Label,
    /// The lower node is this child of the upper one, from 1 on.
    pub place: usize,
    /// The label of the lower node.
    pub lower: Label,
}
