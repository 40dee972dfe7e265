// Making a document from a number.
ghost use Rattle.std.specs.Prelude.{◌≡◌, ◌≤◌, IfOk};
ghost use Rattle.plain_tree.specs.Tree.{node_count};
ghost use Rattle.record_generator.specs.Records.{generated};
ghost use Rattle.store_core.specs.Folding.{IsFoldOf};
ghost use Rattle.store_core.specs.Machine.{Encodes};
ghost use Rattle.store_core.specs.StoreOf.{IsCounted, parts_of};
ghost use Rattle.store_core.specs.Worlds.{AreLawfulParts};

use crate::loading::{ReadDocument, store_of};
use crate::reading::SHARING;
use fcns_encoding::{Folded, Folder};
use record_generator::generate;
use std::alloc::{AllocError, Global};

/// Makes the document with so many records, under a grammar that is settled for this rank, from 1 to 8.
pub(crate) fn generate_document(
    alloc: Global,
    records: u64,
    rank: usize,
) -> Result<ReadDocument, AllocError>
    requires few { records ≤ 200000 }
    requires rank { (1 ≤ rank) × (rank ≤ 8) }
    ensures encoded { IfOk result (λ made. Encodes rank (generated records) (parts_of made.store)) }
    ensures count { IfOk result (λ made. made.count ≡ node_count (generated records)) }
    ensures held { IfOk result (λ made. AreLawfulParts (parts_of made.store)) }
    ensures counted { IfOk result (λ made. IsCounted made.store) }
{
    let folded = fold_records(alloc, records)?;
    let store = store_of(alloc, folded, rank)?;
    let count = store.counts.total();
    Ok(ReadDocument { store, count })
}

// The document, folded while its calls are made.
fn fold_records(alloc: Global, records: u64) -> Result<Folded, AllocError>
    requires { records ≤ 200000 }
    ensures { IfOk result (IsFoldOf (generated records)) }
{
    let mut folder = Folder::new(alloc);
    generate(&mut folder, records)?;
    folder.finish_with(SHARING)
}
