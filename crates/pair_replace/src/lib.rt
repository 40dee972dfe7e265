//! A digram that becomes a rule.
//!
//! `replace` puts a rule with the digram as its body among the rules and folds occurrences into calls of it, as many as share no
//! node, while an index is kept. `new_rule` makes the rule, `occurrences` finds what is folded next, `folding` folds one occurrence,
//! and `near` has the nodes whose occurrences a fold changes: these alone are unlinked before it and linked behind it.
#![tactic(auto)]

mod folding;
mod near;
mod new_rule;
mod occurrences;
mod replacing;

pub use replacing::{Replaced, replace};
