//! Edits of a document that a grammar, names and texts stand for.
//!
//! A `Store` is such a document with its counts and its index, and `Applies` (specs/Stores) is what an edit makes of one. `apply` makes the
//! edits: `renaming`, `valuing`, `attribute_setting`, `deleting` with `deleting_between` where two texts meet, `appending` with
//! `appending_joined` where two do, `inserting`, and `copying` with `copying_text` for texts and `copying_code` for what is below a node, which
//! becomes a rule. `isolating` makes a node one of the start's body, and changes the value there; `taking_out` takes nodes out once the memory
//! is there; `moving_marks` moves the marks with a change; `sweeping` drops the rules that nobody calls any more. The laws tie an edit of the tree to one change of its code and to one splice
//! of its texts.
//!
//! Where nodes stand is told by spots, one descent each (`node_spots`): their places tell under what they stand (`spot_places`), whether a text
//! stands before one (`meeting`), and which texts meet where it goes (`meeting_text`); `node_extent` tells how many nodes and texts one has.
//!
//! What comes into a document comes at a place of its code, which is counted with the bottoms: `place_spots` finds one, with the levels that lead
//! there, `code_places` isolates it and puts a body around it, and `growing` does so for a whole store, texts and counts with it. `kid_attributes`
//! finds an element's attribute, and an attribute's element; `fragment_growing`, `fragment_nodes` and `fragment_kinds` tell of a fragment where it comes, how many nodes it
//! has and where it may stand.
//!
//! What comes before a node comes where the node stands: `fragment_spots` tells whether it may, `fragment_code` makes its code, `finding_seams`
//! finds the texts that meet by it, `joining` what the code comes to then, and `joining_three` makes one text of three.
#![tactic(auto)]

mod appending;
mod appending_joined;
mod applying;
mod attribute_setting;
mod code_places;
mod copying;
mod copying_code;
mod copying_text;
mod deleting;
mod deleting_between;
mod finding_seams;
mod fragment_code;
mod fragment_growing;
mod fragment_kinds;
mod fragment_nodes;
mod fragment_spots;
mod growing;
mod inserting;
mod isolating;
mod joining;
mod joining_three;
mod kid_attributes;
mod meeting;
mod meeting_text;
mod moving_marks;
mod node_extent;
mod node_spots;
mod place_spots;
mod renaming;
mod room;
mod spare_node;
mod spot_places;
mod store;
mod sweeping;
mod taking_out;
mod valuing;

pub use applying::apply;
pub use isolating::{lift_node, relabel_node, wrap_node};
pub use store::{EditError, Store};
pub use sweeping::sweep_uncalled;
