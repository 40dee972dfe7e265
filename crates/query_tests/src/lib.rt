//! Tests of queries, and of runs over shared rules, with marked texts or without. The automata that run (`automaton`, `marked_texts`) are no
//! tests themselves, since definitions speak of their states.
//! Which nodes queries select of documents is in the program's own stored run.
#![tactic(auto)]

pub mod automaton;
pub mod marked_texts;
#[cfg(test)]
mod marks;
#[cfg(test)]
mod queries;
#[cfg(test)]
mod runs;
