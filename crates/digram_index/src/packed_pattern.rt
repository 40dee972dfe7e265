// How a pattern is kept in twenty-four bytes.
ghost use Rattle.std.specs.Prelude.{◌≡◌};
ghost use Rattle.std.proofs.Common.{ap};
ghost use Rattle.std.specs.Hash as fed;
ghost use Rattle.digram_index.specs.Patterns.{pattern_code};
ghost use Rattle.digram_index.specs.PackedPatterns.{mark_from, IsNarrow};

use crate::patterns::{Mark, Pattern};
use indexmap::Equivalent;
use std::hash::{Hash, Hasher};
use std::marker::Model;

// Which label a mark is.
#[derive(Clone, Copy, Drop)]
enum MarkKind {
    Bottom,
    Symbol,
    Call,
    Param,
}

/// A pattern by numbers. Those of a bottom and of a parameter mean nothing.
#[derive(Drop)]
pub struct PackedPattern {
    upper: usize,
    lower: usize,
    upper_kind: MarkKind,
    lower_kind: MarkKind,
    place: u8,
    rank: u8,
}

impl Model for PackedPattern {
    ghost use Rattle.digram_index.specs.declared.patterns.Pattern.{Pattern};
    ghost use Rattle.digram_index.specs.PackedPatterns.{mark_from};

    ghost Value = { Pattern };

    ghost view = { λ p. record {
      upper = mark_from p.upper_kind p.upper;
      place = p.place;
      lower = mark_from p.lower_kind p.lower;
      rank = p.rank;
    } };
}

impl PackedPattern {
    /// The numbers of a pattern whose place and rank are below 256.
    pub fn new(pattern: Pattern) -> PackedPattern
        requires { IsNarrow pattern }
        ensures { result ≡ pattern }
    {
        let (upper_kind, upper) = split(pattern.upper);
        let (lower_kind, lower) = split(pattern.lower);
        PackedPattern {
            upper,
            lower,
            upper_kind,
            lower_kind,
            place: pattern.place as u8,
            rank: pattern.rank as u8,
        }
    }

    /// The pattern of the numbers.
    pub fn pattern(&self) -> Pattern
        ensures { result ≡ self.now }
    {
        Pattern {
            upper: mark(self.upper_kind, self.upper),
            place: self.place as usize,
            lower: mark(self.lower_kind, self.lower),
            rank: self.rank as usize,
        }
    }
}

impl PartialEq for PackedPattern {
    ghost use Rattle.digram_index.specs.SamePatterns.{is_same, is_same_equiv};
    ghost use Rattle.std.specs.Cmp.{partial_equiv_from_equiv};

    ghost eq = { is_same };

    ghost laws = { partial_equiv_from_equiv is_same_equiv };

    fn eq(&self, other: &PackedPattern) -> bool {
        self.pattern() == other.pattern()
    }
}

impl Eq for PackedPattern {
    ghost use Rattle.digram_index.specs.SamePatterns.{is_same_equiv};

    ghost laws = { is_same_equiv };
}

impl Hash for PackedPattern {
    ghost use Rattle.digram_index.specs.SamePatterns.{same_pattern};

    ghost hash_input = { λ p. fed.u128 (pattern_code p) };

    ghost respects_eq = { λ p q e. ap (λ x. fed.u128 (pattern_code x)) (same_pattern p q e) };

    fn hash<H: Hasher>(&self, state: &mut H) {
        self.pattern().hash(state);
    }
}

impl Equivalent<PackedPattern> for &Pattern {
    ghost use Rattle.digram_index.specs.SamePatterns.{is_same, is_same_equiv, same_pattern};

    ghost equivalent = { λ q. is_same q.now };

    ghost respects_hash = { λ q p e. ap (λ x. fed.u128 (pattern_code x)) (same_pattern q.now p e) };

    ghost respects_eq = { λ q. is_same_equiv.congr q.now };

    fn equivalent(&self, packed: &PackedPattern) -> bool {
        **self == packed.pattern()
    }
}

// A mark's kind and number.
fn split(mark: Mark) -> (MarkKind, usize)
    ensures { mark_from result.0 result.1 ≡ mark }
{
    match mark {
        Mark::Bottom => (MarkKind::Bottom, 0),
        Mark::Symbol(symbol) => (MarkKind::Symbol, symbol),
        Mark::Call(rule) => (MarkKind::Call, rule),
        Mark::Param => (MarkKind::Param, 0),
    }
}

fn mark(kind: MarkKind, number: usize) -> Mark
    ensures { result ≡ mark_from kind number }
{
    match kind {
        MarkKind::Bottom => Mark::Bottom,
        MarkKind::Symbol => Mark::Symbol(number),
        MarkKind::Call => Mark::Call(number),
        MarkKind::Param => Mark::Param,
    }
}
