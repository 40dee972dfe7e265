//! Tests of schemas and of their checker: which bytes are schemas (`schemas`), which lists of names models match
//! (`chains`), random ones beside regular expressions (`random`), and which elements of documents are wrong (`documents`).
#![tactic(auto)]

#[cfg(test)]
mod chains;
#[cfg(test)]
mod documents;
#[cfg(test)]
mod random;
#[cfg(test)]
mod schemas;
