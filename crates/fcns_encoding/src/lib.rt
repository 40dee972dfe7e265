//! Documents as terms of symbols.
//!
//! A list of nodes is coded by its first child and its next sibling: bottom for the empty list, else the symbol of the first
//! node over the code of its kids and the code of the nodes behind it. A symbol is the place of a pair of kind and name in
//! the table of names; what the nodes have as values are the texts, in document order. `encode` makes a `Coded` of a node,
//! and `encode_list` and `encode_slice` one of a list of nodes, with a parameter where the code of others is to follow. `laws` says that a grammar
//! whose one rule has the code as its body stands for the document.
//!
//! A `Folder` takes a document as the calls of a `Builder`, without its tree, and keeps each different subterm of the code once:
//! `subterms` has the table, `part` and `kids` the stack of what waits until its element is closed, `symbols` the names in the
//! order of their first nodes. `finish` makes a `Folded`: `marks` finds the subterms that get a rule, which are those that are used
//! twice or more, and `shared_rules` writes the rules, and everything else where it is used. The grammar stands for the document, is
//! swept, and is at most three times as large as the code has different subterms. For `finish_with` a `Sharing` says how many uses
//! make a rule, and how many where it is large, `leaf_rules` adds rules for symbols that are leaves, and `pair_rules` for symbols whose
//! first child is mostly one call; its grammar stands for the document and is swept too.
#![tactic(auto)]

mod coding;
mod folder;
mod kids;
mod laws;
mod leaf_rules;
mod marks;
mod pair_rules;
mod part;
mod shared_rules;
mod sharing;
mod subterms;
mod symbols;

pub use coding::{Coded, encode, encode_list, encode_slice};
pub use folder::{Folded, Folder};
pub use laws::{
    code_goes_before, codes_are_kept, encoded_stands_for_its_document, list_names_are_lawful,
    names_are_lawful, names_stay_distinct, one_rule_means_its_term,
    one_rule_stands_for_its_document,
};
pub use sharing::Sharing;
