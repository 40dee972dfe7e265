// The postfix code of a query, which is kept as long as the query is within the limits.
ghost use Rattle.std.specs.Prelude.{◌≡◌, ◌<◌, ◌≤◌, ◌+◌, OnOk};
ghost use Rattle.xpath_parser.specs.declared.postfix.Counts.{Counts};

use crate::query::Axis;
use crate::token::{Asked, Operand, Span};
use std::alloc::{AllocError, Global};

/// How many steps may stand outside filters, and how many parts inside.
const LIMIT: usize = 64;

/// Whether a path stands outside filters or inside.
#[derive(Clone, Copy, Debug, PartialEq, Eq)]
pub(crate) enum Side {
    Outer,
    Inner,
}

/// One operation of the postfix code.
#[derive(Clone, Copy, Debug, PartialEq, Eq)]
pub(crate) enum Op {
    /// A step with no filters is added to the path.
    Step(Side, Axis, Asked),
    /// The last truth filters the path's last step.
    Filter,
    /// The paths of a filter begin.
    Begin,
    /// The path has ended, and another begins.
    Bar(Side),
    /// The paths of a filter have ended.
    Exists,
    Truth(bool),
    /// A truth: whether some node has a value, which stands at this place.
    Compare(Operand, Span),
    Not,
    And,
    Or,
}

/// The steps outside filters, and the parts inside.
#[derive(Clone, Copy, Debug, PartialEq, Eq)]
pub(crate) struct Counts {
    pub outer: usize,
    pub inner: usize,
}

impl Counts {
    ghost use Rattle.xpath_parser.specs.Noting.{counted, is_past};

    fn with_outer(self) -> Counts
        requires { self.outer ≤ 64 }
        ensures { result ≡ record { outer = self.outer + 1; inner = self.inner } }
    {
        Counts {
            outer: self.outer + 1,
            inner: self.inner,
        }
    }

    fn with_inner(self) -> Counts
        requires { self.inner ≤ 64 }
        ensures { result ≡ record { outer = self.outer; inner = self.inner + 1 } }
    {
        Counts {
            outer: self.outer,
            inner: self.inner + 1,
        }
    }

    /// The counts with one more operation.
    fn with(self, op: Op) -> Counts
        requires outer { self.outer ≤ 64 }
        requires inner { self.inner ≤ 64 }
        ensures { result ≡ counted op self }
    {
        match op {
            Op::Step(Side::Outer, _, _) => self.with_outer(),
            Op::Step(Side::Inner, _, _) => self.with_inner(),
            Op::Filter => self,
            Op::Begin => self,
            Op::Bar(Side::Outer) => self,
            Op::Bar(Side::Inner) => self.with_inner(),
            Op::Exists => self,
            Op::Truth(_) => self.with_inner(),
            Op::Compare(_, _) => self.with_inner(),
            Op::Not => self.with_inner(),
            Op::And => self.with_inner(),
            Op::Or => self.with_inner(),
        }
    }

    fn is_past(self) -> bool
        ensures { result ≡ is_past self }
    {
        self.outer > LIMIT || self.inner > LIMIT
    }
}

/// The code that was written. Once it is past the limits no more of it is kept.
#[derive(Drop)]
pub(crate) struct Postfix {
    pub ops: Vec<Op>,
    pub counts: Counts,
    pub past: bool,
    ghost few_outer: { counts.outer ≤ 64 },
    ghost few_inner: { counts.inner ≤ 64 },
}

impl Postfix {
    ghost use Rattle.xpath_parser.specs.Noting.{none_noted, noted, noted_of};

    /// No code.
    pub(crate) fn new(alloc: Global) -> Postfix
        ensures { noted_of result ≡ none_noted }
    {
        Postfix {
            ops: Vec::new(alloc),
            counts: Counts { outer: 0, inner: 0 },
            past: false,
        }
    }

    /// Adds an operation at the end, or nothing once the limits are passed.
    #[tactic(auto, unfolding(crate::specs::Noting::noted))]
    pub(crate) fn write(&mut self, op: Op) -> Result<(), AllocError>
        ensures { OnOk result (noted_of self.new ≡ noted op (noted_of self.old)) }
    {
        if self.past {
            return Ok(());
        }
        let counts = self.counts.with(op);
        if counts.is_past() {
            self.past = true;
            return Ok(());
        }
        self.ops.push(op)?;
        self.counts = counts;
        Ok(())
    }
}
