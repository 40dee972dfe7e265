//! One node of the value made a node of the start's body: the calls of one chain are inlined, each once.
//!
//! A `Way` gives the chain. `isolation` goes along it in a grammar, `linked` in a grammar whose digram index is kept. `measuring` tells for
//! how many nodes there has to be room, for callers that have a second way to the same node.
#![tactic(auto)]

mod isolation;
mod linked;
mod measuring;

pub use isolation::{isolate, isolate_within};
pub use linked::isolate_linked;
pub use measuring::{nodes_along, nodes_elsewhere};
