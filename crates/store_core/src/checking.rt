// Checking the document against a schema.
ghost use Rattle.std.specs.Prelude.{◌≡◌, ◌≤◌, IfOk, IfErr, IsSome, Some};
ghost use Rattle.tree_outside.specs.Outside.{Stays};
ghost use Rattle.content_models.specs.Rules.{rules_of as models_of};
ghost use Rattle.store_core.specs.Acts as act;
ghost use Rattle.store_core.specs.Errors.{IsNoSchema};
ghost use Rattle.store_core.specs.Machine.{Checks};
ghost use Rattle.store_core.specs.Refusals.{Cause};
ghost use Rattle.store_core.specs.Schemas.{FindsWrong, SpellsModels, verdict};
ghost use Rattle.store_core.specs.StoreOf.{parts_of};
ghost use Rattle.store_core.specs.Texts.{answer_line};
ghost use Rattle.store_core.specs.Worlds.{State, AreLawfulParts, IsIdle, parts_in, told_files, world};
ghost use Rattle.rule_runs.specs.Hits.{numbers};
ghost use Rattle.rule_runs.specs.Answering.{listed_hits};

use crate::answer::{Answer, Refusal};
use crate::file_reading::read_file;
use content_models::{Schema, read_schema};
use read_steps::Steps;
use rule_runs::{Answers, FallTable, fall, rise};
use std::alloc::{AllocError, Global};
use std::sync::ledger::Ledger;
use tree_outside::Shelf;
use tree_updates::Store;

/// What is said of the store's document under the schema in the file with this name. It is refused where the file is not read, with
/// `BadSchema` where its bytes spell no schema, with `LargeSchema` where they spell one that passes the limits, and with `Memory` for
/// want of that.
///
/// Each rule is read once for each list of states in which runs meet it, whatever is answered.
pub(crate) fn check_document<F: Shelf, L: Ledger>(
    alloc: Global,
    name: &str,
    store: &Store,
    shelf: &mut F,
    steps: &mut Steps<L>,
) -> Result<Answer, Refusal>
    requires held { AreLawfulParts (parts_of store.now) }
    ensures later { F.faults shelf.old ≤ F.faults shelf.new }
    ensures files { Stays (told_files (F.told shelf.old)) (told_files (F.told shelf.new)) }
    ensures idle { IsIdle (F.told shelf.old) → IsIdle (F.told shelf.new) }
    ensures checks { IfOk result (λ answer. (state : State) → parts_in state ≡ Some (parts_of store.now)
        → Checks name.now (world state (F.told shelf.old) (F.faults shelf.old)) (answer_line answer) (world state (F.told shelf.new) (F.faults shelf.new))) }
    ensures refused { IfErr result (λ refusal. (state : State) → IsSome state
        → Cause refusal (act.Check name.now) (world state (F.told shelf.old) (F.faults shelf.old)) (world state (F.told shelf.new) (F.faults shelf.new))) }
{
    let bytes = read_file(alloc, name, shelf)?;
    let schema = schema_of(alloc, &bytes)?;
    let found = wrong_elements(alloc, &schema, store, steps)?;
    let answer = verdict(alloc, &found)?;
    Ok(answer)
}

// The schema that the bytes spell.
fn schema_of(alloc: Global, bytes: &[u8]) -> Result<Schema, Refusal>
    ensures spelled { IfOk result (λ schema. SpellsModels bytes.now (models_of schema)) }
    ensures refused { IfErr result (λ refusal. IsNoSchema refusal bytes.now) }
{
    let schema = read_schema(alloc, bytes)?;
    Ok(schema)
}

// The wrong elements of the store's document.
fn wrong_elements<L: Ledger>(
    alloc: Global,
    schema: &Schema,
    store: &Store,
    steps: &mut Steps<L>,
) -> Result<FallTable, AllocError>
    requires held { AreLawfulParts (parts_of store.now) }
    ensures { IfOk result (FindsWrong (models_of schema.now) (parts_of store.now)) }
{
    let checker = schema.compile(alloc, &store.names)?;
    let risen = rise(alloc, &store.grammar, &checker, true, steps)?;
    fall(alloc, &store.grammar, &checker, &risen, None, true, steps)
}

// What is said of the elements that were found.
fn verdict(alloc: Global, found: &FallTable) -> Result<Answer, AllocError>
    requires { IsSome found.now.hits }
    ensures { IfOk result (λ answer. answer ≡ verdict (numbers (listed_hits found.now.hits))) }
{
    let count = found.count();
    let mut answers = Answers::new(alloc, found)?;
    match answers.next()? {
        Some(first) => Ok(Answer::Invalid { count, first }),
        None => Ok(Answer::Valid),
    }
}
