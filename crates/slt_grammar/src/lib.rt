//! Straight-line linear tree grammars with ranked parameters.
//!
//! A grammar is a list of rules, each with a rank and a body; the last rule is the start. `Body` and `RuleList` hold what
//! was not checked yet, `check` makes a `Grammar` of it, whose bodies lie in an arena; a `BodyWalk` goes over the labels of
//! one. `bodies` scans a body, `counting` counts nodes and calls, `building` puts bodies into the arena. `laws` says what holds
//! of what grammars mean; contracts see rules whose nodes carry their keys (`specs/Keyed.antt`), and `proofs/KeyedLemmas.antt`
//! has their laws for the crates above. A `Digram` is two labels, one under the other; `specs/Digrams.antt` says where it occurs,
//! and which grammars are settled. `automata` has the traits of automata that run over what a grammar means, upward and downward.
//!
//! A grammar is changed by the calls of `editing` (one body), `call_at`, `wrap`, `share`, `add_rule` and `rule_edits`, and copied by that
//! of `listing`. `match_at` finds where `call_at` may make a call. `order` keeps identities of rules, which nodes hold in place of the
//! rules' places. What these calls do in the arena is in `fold`, `lift` and `inline`, by `reading`, `detaching`, `replacing`, `copying`,
//! and by `collecting` and `shaping`, which make ready what is copied.
#![tactic(auto)]

mod add_rule;
mod automata;
mod bodies;
mod body_walk;
mod building;
mod call_at;
mod checking;
mod collecting;
mod copying;
mod counting;
mod detaching;
mod digram;
mod editing;
mod fold;
mod grammar;
mod inline;
mod laws;
mod level;
mod lift;
mod listing;
mod match_at;
mod order;
mod reading;
mod replacing;
mod rule_edits;
mod rules;
mod shape;
mod shaping;
mod share;
mod tour_walk;
mod way;
mod wrap;

pub use automata::{Falling, Fell, Rising, RunState};
pub use body_walk::BodyWalk;
pub use checking::{GrammarError, check};
pub use digram::Digram;
pub use grammar::Grammar;
pub use inline::Inlined;
pub use laws::{
    adding_keeps_meanings, inlining_keeps_meanings, shared_run_is_expanded_run, stands_for_one,
    substitutions_compose, tours_spell_values, values_are_linear,
};
pub use level::Level;
pub use rule_arena::{Item, Key, Kids, Label, Site};
pub use rules::{Body, Rule, RuleList};
pub use tour_walk::TourWalk;
pub use way::Way;
