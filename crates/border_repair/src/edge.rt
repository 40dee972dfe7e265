// Edges between symbols, and from symbols to bottoms.
ghost use Rattle.std.specs.Prelude.{◌≡◌, Some, None, IfSome, IfNone};
ghost use Rattle.std.specs.Hash as fed;
ghost use Rattle.std.specs.Cmp.Rules.{hashing};
ghost use Rattle.std.proofs.Common.{rules};
ghost use Rattle.border_repair.specs.Edge.{edge_code, label_code};

use rule_arena::Label;
use std::hash::{Hash, Hasher};

/// A symbol, a place under it from 1 on, and the label there.
#[derive(Clone, Copy, PartialEq, Eq, Drop)]
pub(crate) struct Edge {
    pub(crate) upper: usize,
    pub(crate) place: usize,
    pub(crate) lower: Label,
}

impl Edge {
    // A number for hashing: the two places under one symbol differ in it, and so do most labels.
    fn code(self) -> u128
        ensures { result ≡ edge_code self }
    {
        self.upper as u128 * (1 << 64) + label_code(self.lower) as u128
    }
}

// A number for hashing.
fn label_code(label: Label) -> u64
    ensures { result ≡ label_code label }
{
    match label {
        Label::Bottom => 1 << 62,
        Label::Param => 1 << 61,
        Label::Symbol(symbol) => symbol as u64,
        Label::Call(rule) => u64::MAX - rule as u64,
    }
}

impl Hash for Edge {
    ghost hash_input = { λ x. fed.u128 (edge_code x) };

    ghost respects_eq = { Prim.search (hashing, rules) };

    fn hash<H: Hasher>(&self, state: &mut H) {
        state.write_u128(self.code());
    }
}
