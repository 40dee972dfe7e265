//! Tests of public calls, a module for each subject; those of the session and of the shell are whole scripts, given to `serve`, of what
//! the program's own stored run can't show. They stand here since a crate with tests of its own is proved twice. No test says what a
//! clause says: they have rows and bytes from outside, faults in mid-stream, deep trees, real files, and each call that takes memory and
//! that the program doesn't use once with enough of it.
#![tactic(auto)]

#[cfg(test)]
mod code;
#[cfg(test)]
mod folding;
#[cfg(test)]
mod names;
#[cfg(test)]
mod outside;
#[cfg(test)]
mod scripts;
#[cfg(test)]
mod texts;
#[cfg(test)]
mod tree;
#[cfg(test)]
mod words;
#[cfg(test)]
mod xml;
