//! Tests of the public calls of the crates that hold a grammar, change it, count and find its nodes, and write it: worked rows over small
//! grammars, one whose values no memory holds, and each call that takes memory and that the program doesn't use once with enough of it.
//! They stand apart from the other test crates so that all are proved side by side.
#![tactic(auto)]

#[cfg(test)]
mod arena;
#[cfg(test)]
mod borders;
#[cfg(test)]
mod calls_again;
#[cfg(test)]
mod counts;
#[cfg(test)]
mod descents;
#[cfg(test)]
mod edits;
#[cfg(test)]
mod grammar;
#[cfg(test)]
mod grammar_bytes;
#[cfg(test)]
mod marked;
#[cfg(test)]
mod marks;
#[cfg(test)]
mod numbers;
#[cfg(test)]
mod rises;
#[cfg(test)]
mod settling;
