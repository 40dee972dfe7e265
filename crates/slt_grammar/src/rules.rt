// Bodies and lists of rules that were not checked.
ghost use Rattle.std.specs.Prelude.{◌≡◌, [], ◌∷◌, ◌++◌, length, slice_get, OnOk, OnErr};

use rule_arena::Label;
use std::alloc::{AllocError, Global};
use std::marker::Model;

/// The labels of a rule's body in preorder.
#[derive(Drop)]
pub struct Body {
    labels: Vec<Label>,
}

impl Model for Body {
    ghost use Rattle.std.specs.Prelude.{List};
    ghost use Rattle.rule_arena.specs.declared.label.Label.{Label};

    ghost Value = { List Label };

    ghost view = { λ b. b.labels.items };
}

impl Body {
    /// A body without labels. It takes no memory.
    pub fn new(alloc: Global) -> Body
        ensures { result ≡ [] }
    {
        Body {
            labels: Vec::new(alloc),
        }
    }

    pub fn push(&mut self, label: Label) -> Result<(), AllocError>
        ensures ok { OnOk result (self.new ≡ self.old ++ label ∷ []) }
        ensures err { OnErr result (self.new ≡ self.old) }
    {
        Ok(self.labels.push(label)?)
    }

    pub fn get(&self, at: usize) -> Option<Label>
        ensures { result ≡ slice_get self.now at }
    {
        self.labels.get(at).copied()
    }

    pub fn len(&self) -> usize
        ensures { result ≡ length self.now }
    {
        self.labels.len()
    }

    pub fn as_slice(&self) -> &[Label]
        ensures { result.now ≡ self.now }
    {
        self.labels.as_slice()
    }
}

/// A rule that was not checked: how many parameters it says that it has, and its body.
#[derive(Drop)]
pub struct Rule {
    pub rank: usize,
    pub body: Body,
}

// The most labels of a list.
const MOST: usize = (1 << 63) - 1;

/// Rules in order; the last one is the start.
#[derive(Drop)]
pub struct RuleList {
    pub(crate) rules: Vec<Rule>,
    // Room for a count of each rule's calls, so that `check` needs no memory to find a rule that is not called.
    pub(crate) calls: Vec<u64>,
    // How many labels all bodies have.
    pub(crate) labels: usize,
}

impl Model for RuleList {
    ghost use Rattle.std.specs.Prelude.{List};
    ghost use Rattle.slt_grammar.specs.declared.rules.Rule.{Rule};

    ghost Value = { List Rule };

    ghost view = { λ r. r.rules.items };

    ghost use Rattle.slt_grammar.specs.Listing.{IsListed};

    ghost invariant = { λ r. IsListed r.rules.items r.calls.items r.labels };
}

impl RuleList {
    /// A list without rules. It takes no memory.
    pub fn new(alloc: Global) -> RuleList
        ensures { result ≡ [] }
    {
        RuleList {
            rules: Vec::new(alloc),
            calls: Vec::new(alloc),
            labels: 0,
        }
    }

    /// It fails where memory is refused, and where the bodies would have 2^63 labels.
    pub fn push(&mut self, rank: usize, body: Body) -> Result<(), AllocError>
        ensures ok { OnOk result (self.new ≡ self.old ++ record { rank = rank; body = body } ∷ []) }
        ensures err { OnErr result (self.new ≡ self.old) }
    {
        let labels = body.len();
        if labels > MOST - self.labels {
            return Err(AllocError);
        }
        self.calls.push(0)?;
        self.rules.push(Rule { rank, body })?;
        self.labels += labels;
        Ok(())
    }

    pub fn as_slice(&self) -> &[Rule]
        ensures { result.now ≡ self.now }
    {
        self.rules.as_slice()
    }
}
