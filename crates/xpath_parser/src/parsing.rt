// The query that bytes spell.
ghost use Rattle.std.specs.Prelude.{◌≡◌, IfOk};
ghost use Rattle.xpath_parser.specs.Spelled.{Spells};
ghost use Rattle.xpath_parser.specs.Trees.{Paths};
ghost use Rattle.xpath_parser.specs.Limits.{IsLarge};
ghost use Rattle.xpath_parser.specs.Shown.{paths_of};
ghost use Rattle.xpath_parser.specs.Meant.{meant_paths};

use crate::building::build;
use crate::error::QueryError;
use crate::literals::literals_told;
use crate::parsed::Query;
use crate::reading::postfix_of;
use std::alloc::Global;

/// The query that the bytes spell, with its abbreviations written out.
///
/// It is `Bad` exactly where the bytes are not in the grammar, and `Large` exactly where they are and pass its limits: at most 64
/// steps outside filters, and at most 64 parts inside, which are steps, comparisons, `or`, `and`, `|`, `not`, `true()` and `false()`. It is
/// `Memory` for want of memory alone.
pub fn parse(alloc: Global, bytes: &[u8]) -> Result<Query, QueryError>
    ensures spelled { IfOk result (λ query. (ps : Paths) × Spells bytes.now ps × (paths_of query.paths ≡ meant_paths bytes.now ps)) }
    ensures small { IfOk result (λ query. (ps : Paths) → Spells bytes.now ps → IsLarge ps → ⊥) }
    ensures bad { result ≡ Err QueryError.Bad → (ps : Paths) → Spells bytes.now ps → ⊥ }
    ensures large { result ≡ Err QueryError.Large → ((ps : Paths) × Spells bytes.now ps) × ((ps : Paths) → Spells bytes.now ps → IsLarge ps) }
{
    match postfix_of(alloc, bytes) {
        Ok(ops) => match build(alloc, bytes, &ops) {
            Ok(paths) => match literals_told(alloc, bytes, &ops) {
                Ok(literals) => Ok(Query::new(paths, literals)),
                Err(_) => Err(QueryError::Memory),
            },
            Err(_) => Err(QueryError::Memory),
        },
        Err(error) => Err(error),
    }
}
