// What the bytes of schemas spell, as content_models promises it.
ghost use Rattle.std.specs.Prelude.{◌≡◌, List, IfOk};
ghost use Rattle.content_models.specs.Lines.{Given};
ghost use Rattle.content_models.specs.Rules.{rules_of};
ghost use Rattle.content_models.specs.Schemas.{IsLarge, SpellsSchema, rules};

use content_models::{Schema, SchemaError, read_schema};
use std::alloc::Global;

/// The schema that bytes spell; Bad exactly where they spell none, Large where it passes the limits.
pub fn read_schema_told(alloc: Global, bytes: &[u8]) -> Result<Schema, SchemaError>
    ensures spelled { IfOk result (λ schema. (gs : List Given) × SpellsSchema bytes.now gs × (rules_of schema ≡ rules gs)) }
    ensures small { IfOk result (λ schema. (gs : List Given) → SpellsSchema bytes.now gs → IsLarge gs → ⊥) }
    ensures bad { result ≡ Err SchemaError.Bad → (gs : List Given) → SpellsSchema bytes.now gs → ⊥ }
    ensures large { result ≡ Err SchemaError.Large → ((gs : List Given) × SpellsSchema bytes.now gs) × ((gs : List Given) → SpellsSchema bytes.now gs → IsLarge gs) }
{
    read_schema(alloc, bytes)
}
