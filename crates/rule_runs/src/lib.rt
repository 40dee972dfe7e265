//! Runs of automata over shared rules: one run answers for all that the grammar stands for.
//!
//! A run upward reads each rule once for each list of argument states that it meets, however often the value has it. So does a run
//! downward, and goes through what it read once for each down state. `rise` runs upward, `fall` downward over what that found, and
//! `Answers` tells the nodes that are hit, by their numbers and symbols, one after another, where `fall` was told to list them and not
//! only to count them.
//!
//! `body` reads a rule's body. Upward: `rising` runs over the bodies of `frame`, with states on a `stack`, and notes them in `memo`.
//! Where an automaton has one state, `one_state` notes all pairs without reading.
//! Downward: `falling` runs over the bodies of `descent`, which `kept` has as their `notes`, with what is open in `layers`, and keeps in
//! `spots` what each was found to be, as stretches of nodes (`told`). At a down state from which nothing is hit, `spent` tells that by
//! counts. `listing` tells a list that is made of earlier lists, for `answers`, and `alike`
//! those of a list at once whose symbols are alike.
//! What `memo`, `kept` and `spots` keep of each pair or spot stands in lists that all share, at a `span`; a `place` has 32 bits, and a
//! `note_list` has the states of symbols apart from the notes. `memo`, and the `table` under `spots`, have an `index`, which finds most of its
//! keys by a number and without a hash.
//!
//! `specs/Reached.antt` says which pairs and triples a run meets. Counts tell that a value is small enough for `fall`, by the lemma
//! `nodes-weigh` of `proofs/Sizes.antt`; a hit's symbol tells its node's kind and name, by `document-symbol` of `proofs/Symbols.antt`.
#![tactic(auto)]

mod alike;
mod answers;
mod body;
mod calls;
mod descent;
mod falling;
mod frame;
mod index;
mod kept;
mod layers;
mod listing;
mod memo;
mod note_list;
mod notes;
mod one_state;
mod place;
mod rising;
mod span;
mod spent;
mod spots;
mod stack;
mod table;
mod told;

pub use alike::AlikeHits;
pub use answers::Answers;
pub use falling::{FallTable, fall};
pub use index::Numbered;
pub use kept::{Reading, read};
pub use listing::Hit;
pub use note_list::{NoteSlice, Seen};
pub use notes::Note;
pub use one_state::rise_in_one_state;
pub use rising::{RiseTable, rise};
pub use spent::Spent;
pub use spots::Spot;
pub use table::Table;
