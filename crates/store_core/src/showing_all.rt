// Printing the nodes that a query selects, each with all below it.
ghost use Rattle.std.specs.Prelude.{◌≡◌, ◌++◌, ◌≤◌, true, [], Some, MatchResult, IfOk, IsSome, if◌then◌else◌};
ghost use Rattle.std.specs.List.{flat_map};
ghost use Rattle.plain_tree.specs.Tree.{Tree};
ghost use Rattle.rule_runs.specs.Answering.{listed_hits};
ghost use Rattle.rule_runs.specs.Hits.{numbers};
ghost use Rattle.tree_outside.specs.Outside.{GetsFront, HasCause, Writes};
ghost use Rattle.tree_outside.specs.Shelf.{Keeps};
ghost use Rattle.store_core.specs.Printed.{Gathers, Passes};
ghost use Rattle.store_core.specs.StoreOf.{IsCounted, parts_of};
ghost use Rattle.store_core.specs.Texts.{shown_bytes};
ghost use Rattle.store_core.specs.Walking.{IsReady, IsSearching, walk_text};
ghost use Rattle.store_core.specs.Worlds.{AreLawfulParts, PartsStandFor};

use crate::gathered::Gathered;
use crate::walking::NodeWalk;
use crate::writing::write_node;
use read_steps::Steps;
use std::alloc::{AllocError, Global};
use std::sync::ledger::Ledger;
use tree_outside::{Failed, Sink};
use tree_updates::Store;
use value_cursor::Finder;
use value_runs::ValueRun;

/// Prints each node that is hit as it is shown alone. All memory for printing is taken before the first; where there is none to go
/// on from one to the next, some first ones are printed.
pub(crate) fn print_nodes<K: Sink, L: Ledger>(
    alloc: Global,
    found: &ValueRun,
    store: &Store,
    sink: &mut K,
    steps: &mut Steps<L>,
) -> Result<Result<(), AllocError>, Failed>
    requires held { AreLawfulParts (parts_of store.now) }
    requires counted { IsCounted store.now }
    requires listed { IsSome found.now.hits }
    ensures prints { (t : Tree) → PartsStandFor (parts_of store.now) t → MatchResult result
        (λ done. Gathers (K.got sink.old) (K.got sink.new) (shown_bytes t) (numbers (listed_hits found.now.hits)) done [])
        (λ _. GetsFront (K.got sink.old) (K.got sink.new) (flat_map (shown_bytes t) (numbers (listed_hits found.now.hits)))) }
    ensures kept { Keeps (K.kept sink.old) (K.kept sink.new) }
    ensures cause { HasCause (K.faults sink.old) (K.faults sink.new) result }
{
    let mut search = match NodeSearch::new(alloc, store, steps) {
        Ok(search) => search,
        Err(error) => return Ok(Err(error)),
    };
    let mut held = Gathered::new();
    let done = gather_nodes(alloc, found, store, &mut search, &mut held, sink, steps)?;
    held.write_to(sink)?;
    Ok(done)
}

// Gathers what shows the nodes that are hit.
fn gather_nodes<K: Sink, L: Ledger>(
    alloc: Global,
    found: &ValueRun,
    store: &Store,
    search: &mut NodeSearch,
    held: &mut Gathered,
    sink: &mut K,
    steps: &mut Steps<L>,
) -> Result<Result<(), AllocError>, Failed>
    requires counted { IsCounted store.now }
    requires search { IsSearching store.now search.old }
    requires listed { IsSome found.now.hits }
    requires fresh { held.old.bytes.items ≡ [] }
    ensures gathers { (t : Tree) → PartsStandFor (parts_of store.now) t → MatchResult result
        (λ done. Gathers (K.got sink.old) (K.got sink.new) (shown_bytes t) (numbers (listed_hits found.now.hits)) done held.new.bytes.items)
        (λ _. GetsFront (K.got sink.old) (K.got sink.new) (flat_map (shown_bytes t) (numbers (listed_hits found.now.hits)))) }
    ensures kept { Keeps (K.kept sink.old) (K.kept sink.new) }
    ensures cause { HasCause (K.faults sink.old) (K.faults sink.new) result }
{
    let mut answers = match found.answers(alloc) {
        Ok(answers) => answers,
        Err(error) => return Ok(Err(error)),
    };
    'hits: loop {
        match answers.next_hit() {
            Ok(Some(hit)) => search.put(store, hit.number, held, sink, steps)?,
            Ok(None) => return Ok(Ok(())),
            Err(error) => return Ok(Err(error)),
        }
    }
}

// A search that goes from node to node, and a walk over the node where it stands. They hold all the memory that their printing takes.
#[derive(Drop)]
pub(crate) struct NodeSearch {
    pub(crate) finder: Finder,
    pub(crate) walk: NodeWalk,
}

impl NodeSearch {
    // A search in the store's document. It is refused only for want of memory.
    fn new<L: Ledger>(
        alloc: Global,
        store: &Store,
        steps: &mut Steps<L>,
    ) -> Result<NodeSearch, AllocError>
        requires held { AreLawfulParts (parts_of store.now) }
        requires counted { IsCounted store.now }
        ensures { IfOk result (IsSearching store.now) }
    {
        let finder = Finder::new(alloc, &store.grammar)?;
        let walk = NodeWalk::anywhere(alloc, store, steps)?;
        Ok(NodeSearch { finder, walk })
    }

    // Begins a walk over the node with this number, and answers false where there is none.
    fn begin<L: Ledger>(&mut self, store: &Store, number: u64, steps: &mut Steps<L>) -> bool
        requires counted { IsCounted store.now }
        requires search { IsSearching store.now self.old }
        ensures search { IsSearching store.now self.new }
        ensures ready { result ≡ true → IsReady store.now self.new.walk }
        ensures shows { (t : Tree) → PartsStandFor (parts_of store.now) t → shown_bytes t number ≡ (if result then walk_text store.now self.new.walk else []) }
    {
        let there = self
            .finder
            .go_to(&store.grammar, &store.counts, &store.names, number, steps);
        if there {
            self.walk.cursor.begin(&self.finder);
            self.walk.place.outer.clear();
            self.walk.place.used = self.finder.texts();
        }
        there
    }

    // Holds what shows the node behind what is held, of which it makes room by a write. Where there is never room for that, it is
    // written.
    fn put<K: Sink, L: Ledger>(
        &mut self,
        store: &Store,
        number: u64,
        held: &mut Gathered,
        sink: &mut K,
        steps: &mut Steps<L>,
    ) -> Result<(), Failed>
        requires counted { IsCounted store.now }
        requires search { IsSearching store.now self.old }
        ensures search { IsSearching store.now self.new }
        ensures passes { (t : Tree) → PartsStandFor (parts_of store.now) t
            → Passes (K.got sink.old) (K.got sink.new) (held.old.bytes.items ++ shown_bytes t number) result held.new.bytes.items }
        ensures kept { Keeps (K.kept sink.old) (K.kept sink.new) }
        ensures cause { HasCause (K.faults sink.old) (K.faults sink.new) result }
    {
        if self.hold(store, number, held, steps) {
            return Ok(());
        }
        held.write_to(sink)?;
        if self.hold(store, number, held, steps) {
            return Ok(());
        }
        self.write(store, number, sink, steps)
    }

    // Holds what shows the node behind what is held. It answers false where there is no room for that, and then holds no more.
    fn hold<L: Ledger>(
        &mut self,
        store: &Store,
        number: u64,
        held: &mut Gathered,
        steps: &mut Steps<L>,
    ) -> bool
        requires counted { IsCounted store.now }
        requires search { IsSearching store.now self.old }
        ensures search { IsSearching store.now self.new }
        ensures holds { (t : Tree) → PartsStandFor (parts_of store.now) t
            → held.new.bytes.items ≡ held.old.bytes.items ++ (if result then shown_bytes t number else []) }
    {
        if !self.begin(store, number, steps) {
            return true;
        }
        let before = held.bytes.len();
        let done = write_node(store, &mut self.walk, held, steps);
        if done.is_err() {
            held.bytes.truncate(before);
        }
        done.is_ok()
    }

    // Writes what shows the node.
    fn write<K: Sink, L: Ledger>(
        &mut self,
        store: &Store,
        number: u64,
        sink: &mut K,
        steps: &mut Steps<L>,
    ) -> Result<(), Failed>
        requires counted { IsCounted store.now }
        requires search { IsSearching store.now self.old }
        ensures search { IsSearching store.now self.new }
        ensures written { (t : Tree) → PartsStandFor (parts_of store.now) t → Writes (K.got sink.old) (K.got sink.new) result (shown_bytes t number) }
        ensures kept { Keeps (K.kept sink.old) (K.kept sink.new) }
        ensures cause { HasCause (K.faults sink.old) (K.faults sink.new) result }
    {
        if self.begin(store, number, steps) {
            write_node(store, &mut self.walk, sink, steps)?;
        }
        Ok(())
    }
}
