//! From the number of a node to the chain of rules and keys that leads to it, without unfolding anything.
//!
//! `locate` begins a `Descent`, which gives one `Level` after another: a rule and a node of its body. Each node but the last is a
//! call of the next rule, and the last one is the node with the number. A level costs a walk along one body, with the counts of the
//! rules that it calls. `laws` says that the levels lead there.
//!
//! The other modules go along such levels. `site` adds up what stands before a node and what the code of its kids weighs, by what a
//! `weigher` counts; `nodes` tells a node's kind, extent and text rank, `kids` the places in its list of kids and its next sibling,
//! `parent` its parent. `spot` tells of a node what one descent finds out,
//! which begins at one of the `marks` that descents leave along a long start, and `shifting` moves these with an edit; `place_start` begins a descent to a place or a node there.
//! `way` makes a descent a `Way`, whose rules may change between its calls, and `started` one that was begun at a mark.
#![tactic(auto)]

mod descent;
mod kids;
mod laws;
mod marks;
mod nodes;
mod numbering;
mod parent;
mod place_start;
mod shifting;
mod site;
mod spot;
mod spot_extent;
mod spot_way;
mod started;
mod way;
mod weigher;

pub use descent::{Descent, RuleStop, locate, locate_place};
pub use kids::{after_attributes, end_of_kids, next_sibling};
pub use laws::descents_arrive;
pub use marks::{Mark, Marks};
pub use nodes::{extent, kind_of, text_rank};
pub use numbering::Numbering;
pub use parent::parent_of;
pub use place_start::{PlaceStart, begin_node, begin_place};
pub use shifting::Shift;
pub use spot::{Spot, find, find_marked};
pub use spot_way::SpotWay;
pub use started::StartedDescent;
pub use way::CountedDescent;
