// What a session holds of a document.
use digram_index::Index;
use segment_counts::Counts;
use tree_updates::Store;

/// A document that is loaded.
pub struct Loaded {
    pub store: Store,
    /// How many edits were accepted since the grammar was settled.
    pub edits: u64,
}

impl Drop for Loaded {
    fn drop(self) {
        let Loaded {
            store: _store,
            edits: _edits,
        } = self;
    }
}

/// What is told of a grammar beside its rules.
#[derive(Drop)]
pub(crate) struct Tables {
    pub counts: Counts,
    pub index: Index,
}
