// What is printed of the document, as the session promises it.
ghost use Rattle.std.specs.Prelude.{◌≤◌, List, ℕ, codes};
ghost use Rattle.tree_outside.specs.Outside.{Writes};
ghost use Rattle.store_core.specs.Acts.{Show, Query, ShowAll, Count};
ghost use Rattle.store_core.specs.Machine.{Step};
ghost use Rattle.store_core.specs.Reads.{AsksFew};
ghost use Rattle.store_core.specs.Worlds.{world};

use read_steps::Steps;
use std::alloc::Global;
use std::sync::ledger::Ledger;
use store_core::{Command, Session, Settings, SinkFailed};
use tree_outside::{Shelf, Sink};

/// The node with this number is printed.
pub fn show_told<K: Sink, F: Shelf, L: Ledger>(
    session: &mut Session,
    alloc: Global,
    number: u64,
    settings: Settings,
    sink: &mut K,
    shelf: &mut F,
    steps: &mut Steps<L>,
) -> Result<(), SinkFailed>
    requires { (1 ≤ settings.rank) × (settings.rank ≤ 8) }
    ensures { (out : List ℕ)
        × Step settings (Show number)
        (world session.old (F.told shelf.old) (F.faults shelf.old)) out
        (world session.new (F.told shelf.new) (F.faults shelf.new))
        × Writes (K.got sink.old) (K.got sink.new) result out }
{
    session.command(
        alloc,
        Command::Show { number },
        settings,
        sink,
        shelf,
        steps,
    )
}

/// The nodes that the query selects are listed and counted.
pub fn query_told<K: Sink, F: Shelf, L: Ledger>(
    session: &mut Session,
    alloc: Global,
    text: &[u8],
    settings: Settings,
    sink: &mut K,
    shelf: &mut F,
    steps: &mut Steps<L>,
) -> Result<(), SinkFailed>
    requires { (1 ≤ settings.rank) × (settings.rank ≤ 8) }
    ensures { (out : List ℕ)
        × Step settings (Query text.now)
        (world session.old (F.told shelf.old) (F.faults shelf.old)) out
        (world session.new (F.told shelf.new) (F.faults shelf.new))
        × Writes (K.got sink.old) (K.got sink.new) result out }
{
    session.command(alloc, Command::Query { text }, settings, sink, shelf, steps)
}

/// The query for all elements lists elements alone.
pub fn descendants_told<K: Sink, F: Shelf, L: Ledger>(
    session: &mut Session,
    alloc: Global,
    settings: Settings,
    sink: &mut K,
    shelf: &mut F,
    steps: &mut Steps<L>,
) -> Result<(), SinkFailed>
    requires { (1 ≤ settings.rank) × (settings.rank ≤ 8) }
    ensures { (out : List ℕ)
        × Step settings (Query (codes "//*"))
        (world session.old (F.told shelf.old) (F.faults shelf.old)) out
        (world session.new (F.told shelf.new) (F.faults shelf.new))
        × Writes (K.got sink.old) (K.got sink.new) result out }
{
    session.command(
        alloc,
        Command::Query { text: b"//*" },
        settings,
        sink,
        shelf,
        steps,
    )
}

/// The nodes that the query selects are printed, each with all below it, and counted.
pub fn show_all_told<K: Sink, F: Shelf, L: Ledger>(
    session: &mut Session,
    alloc: Global,
    text: &[u8],
    settings: Settings,
    sink: &mut K,
    shelf: &mut F,
    steps: &mut Steps<L>,
) -> Result<(), SinkFailed>
    requires { (1 ≤ settings.rank) × (settings.rank ≤ 8) }
    ensures { (out : List ℕ)
        × Step settings (ShowAll text.now)
        (world session.old (F.told shelf.old) (F.faults shelf.old)) out
        (world session.new (F.told shelf.new) (F.faults shelf.new))
        × Writes (K.got sink.old) (K.got sink.new) result out }
{
    session.command(
        alloc,
        Command::ShowAll { text },
        settings,
        sink,
        shelf,
        steps,
    )
}

/// A count takes few reads of grammar nodes, whatever the document's size.
pub fn count_reads_told<K: Sink, F: Shelf, L: Ledger>(
    session: &mut Session,
    alloc: Global,
    text: &[u8],
    settings: Settings,
    sink: &mut K,
    shelf: &mut F,
    steps: &mut Steps<L>,
) -> Result<(), SinkFailed>
    requires { (1 ≤ settings.rank) × (settings.rank ≤ 8) }
    ensures { AsksFew (Count text.now) session.old steps.old steps.new }
{
    session.command(alloc, Command::Count { text }, settings, sink, shelf, steps)
}
