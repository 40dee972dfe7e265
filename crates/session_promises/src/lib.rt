//! What the session and the shell promise, each public promise once more over its call: a function of one call with the clauses of the
//! call's contract, said of one command. A wrong answer, or a weaker contract below, is refused here, and the two crates' own proofs
//! need no second run.
#![tactic(auto)]

mod answers;
mod edits;
mod files;
mod making;
mod scripts;

pub use answers::{count_reads_told, descendants_told, query_told, show_all_told, show_told};
pub use edits::{
    attr_told, delete_all_told, delete_told, insert_told, rename_all_told, rename_told,
};
pub use files::{load_grammar_told, load_told, save_grammar_told, save_told};
pub use making::{generate_told, repair_wide_told};
pub use scripts::{document_told, serve_told};
