//! What the layers below the session promise, each public promise once more over its call: a function of one call with the clauses
//! of the call's contract. A wrong answer of the call, or a weaker contract below, is refused here in seconds, where the layer's own
//! proof takes minutes.
#![tactic(auto)]

mod arenas;
mod borders;
mod counts;
mod cursors;
mod documents;
mod edits;
mod folding;
mod grammar_files;
mod grammars;
mod indexes;
mod isolating;
mod marked_texts;
mod marks;
mod nodes;
mod outside;
mod places;
mod queries;
mod runs;
mod schemas;
mod settling;
mod texts;
mod tokens;

pub use arenas::{arena_add_told, dissolve_told, next_past_term_told};
pub use borders::{across_told, top_weight_told};
pub use counts::{nodes_told, raise_start_told, texts_told};
pub use cursors::{cursor_told, go_to_told, most_open_told};
pub use documents::{finish_told, read_document_told};
pub use edits::{
    apply_told, delete_all_told, relabel_node_told, rename_all_told, sweep_uncalled_told,
};
pub use folding::{encode_slice_told, folder_finish_told};
pub use grammar_files::{read_file_told, write_told};
pub use grammars::{add_rule_told, check_told, inline_told, match_at_told, relabel_told};
pub use indexes::{build_told, call_of_told, inline_linked_told, top_told};
pub use isolating::isolate_linked_told;
pub use marked_texts::isolate_marked_told;
pub use marks::{find_marked_told, shift_told};
pub use nodes::{lawful_told, run_told, writer_leaf_told};
pub use outside::{shelf_append_told, shelf_seal_told};
pub use places::{locate_place_told, next_sibling_told, parent_told};
pub use queries::{compile_told, parse_told};
pub use runs::{answers_told, fall_told, find_told};
pub use schemas::read_schema_told;
pub use settling::{prune_told, replace_told, settle_deeply_told, settle_edited_told, settle_told};
pub use texts::{
    dictionary_place_told, listed_told, marks_told, texts_duplicate_told, texts_insert_told,
    texts_remove_told,
};
pub use tokens::{feed_told, is_name_told, is_whole_told, read_token_told};
