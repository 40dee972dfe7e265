// A second grammar of the same rules.
ghost use Rattle.std.specs.Prelude.{◌≡◌, ◌<◌, length, IfOk};
ghost use Rattle.slt_grammar.specs.Grammars.{body_at};
ghost use Rattle.slt_grammar.specs.Keyed.{rules_of};

use crate::grammar::Grammar;
use crate::rules::{Body, RuleList};
use read_steps::Steps;
use std::alloc::{AllocError, Global};
use std::marker::Brand;
use std::sync::ledger::{Blank, Ledger};

impl Grammar {
    /// A grammar with the same list of rules, whose nodes have keys of its own. It fails where memory is refused.
    ///
    /// Meanwhile it holds the labels of all bodies beside the two grammars.
    pub fn copy(&self) -> Result<Grammar, AllocError>
        ensures { IfOk result (λ g. rules_of g.rules ≡ rules_of self.now.rules) }
    {
        let alloc = *self.ranks.allocator();
        let RuleList { rules, labels, .. } = list_rules(alloc, self)?;
        // The call tells that the rules are a grammar, and that their nodes are few.
        let _limit = self.limit();
        Grammar::build(alloc, rules.as_slice(), labels, self.calls.as_slice())
    }
}

// The rules of a grammar without its keys.
fn list_rules(alloc: Global, grammar: &Grammar) -> Result<RuleList, AllocError>
    ensures { IfOk result (λ l. l ≡ rules_of grammar.now.rules) }
{
    let mut list = RuleList::new(alloc);
    for rule in 0..grammar.rules() {
        let body = list_body::<Brand>(alloc, grammar, rule, Blank::new(1))?;
        list.push(grammar.rank(rule), body)?;
    }
    Ok(list)
}

// The labels of a rule, read with a counter of their own.
fn list_body<L: Ledger>(
    alloc: Global,
    grammar: &Grammar,
    rule: usize,
    blank: Blank,
) -> Result<Body, AllocError>
    requires name { blank.name ≡ L.name }
    requires parts { blank.parts ≡ L.parts }
    requires some { 0 < blank.parts }
    requires there { rule < length grammar.now.rules }
    ensures { IfOk result (λ b. b ≡ body_at (rules_of grammar.now.rules) rule) }
{
    let mut steps: Steps<L> = Steps::new(blank);
    let mut body = Body::new(alloc);
    let mut labels = grammar.walk(rule);
    while let Some(label) = labels.next(&mut steps) {
        body.push(label)?;
    }
    Ok(body)
}
