// A document that is made, and a grammar that is repaired, as the session promises it.
ghost use Rattle.std.specs.Prelude.{◌≤◌, List, ℕ};
ghost use Rattle.tree_outside.specs.Outside.{Writes};
ghost use Rattle.store_core.specs.Acts.{RepairWide, Generate};
ghost use Rattle.store_core.specs.Machine.{Step};
ghost use Rattle.store_core.specs.Worlds.{world};

use read_steps::Steps;
use std::alloc::Global;
use std::sync::ledger::Ledger;
use store_core::{Command, Session, Settings, SinkFailed};
use tree_outside::{Shelf, Sink};

/// The heaviest digram of the whole document becomes a rule, and its weight is told.
pub fn repair_wide_told<K: Sink, F: Shelf, L: Ledger>(
    session: &mut Session,
    alloc: Global,
    settings: Settings,
    sink: &mut K,
    shelf: &mut F,
    steps: &mut Steps<L>,
) -> Result<(), SinkFailed>
    requires { (1 ≤ settings.rank) × (settings.rank ≤ 8) }
    ensures { (out : List ℕ)
        × Step settings RepairWide
        (world session.old (F.told shelf.old) (F.faults shelf.old)) out
        (world session.new (F.told shelf.new) (F.faults shelf.new))
        × Writes (K.got sink.old) (K.got sink.new) result out }
{
    session.command(alloc, Command::RepairWide, settings, sink, shelf, steps)
}

/// The document becomes that of so many records.
pub fn generate_told<K: Sink, F: Shelf, L: Ledger>(
    session: &mut Session,
    alloc: Global,
    records: u64,
    settings: Settings,
    sink: &mut K,
    shelf: &mut F,
    steps: &mut Steps<L>,
) -> Result<(), SinkFailed>
    requires rank { (1 ≤ settings.rank) × (settings.rank ≤ 8) }
    requires records { (1 ≤ records) × (records ≤ 200000) }
    ensures { (out : List ℕ)
        × Step settings (Generate records)
        (world session.old (F.told shelf.old) (F.faults shelf.old)) out
        (world session.new (F.told shelf.new) (F.faults shelf.new))
        × Writes (K.got sink.old) (K.got sink.new) result out }
{
    session.command(
        alloc,
        Command::Generate { records },
        settings,
        sink,
        shelf,
        steps,
    )
}
