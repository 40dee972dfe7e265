//! Tests of sessions: what a session shows of its document, that it counts its edits, and a thousand random edits, each beside a plain
//! list of nodes. They stand in a crate of their own, so that they are proved beside the other tests. `subject` hides the session from the
//! functions that go over many edits: what a clause says of a session is long, and none of them needs it.
#![tactic(auto)]

#[cfg(test)]
mod kept;
#[cfg(test)]
mod random_edits;
#[cfg(test)]
mod sessions;
#[cfg(test)]
mod subject;
