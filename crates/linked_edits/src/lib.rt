//! Steps of an edit in the start's body that keep the digram index by single links.
//!
//! Each call changes the grammar as the call of its name does, and the index with it: the occurrences near the change are taken away
//! before, and linked again behind it. There is room for what is linked, so none takes memory. `relabelling` gives a node another symbol,
//! `lifting` puts a node's second child in its place, `sharing` makes a term a rule of its own, and `wrapping` puts a body around a node.
//! `runs` unlinks and links nodes that stand one behind another.
#![tactic(auto)]

mod lifting;
mod relabelling;
mod runs;
mod sharing;
mod wrapping;

pub use lifting::lift_linked;
pub use relabelling::relabel_linked;
pub use sharing::share_linked;
pub use wrapping::wrap_linked;
