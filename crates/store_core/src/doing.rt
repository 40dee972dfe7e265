// What a session does for each command.
ghost use Rattle.std.specs.Prelude.{◌≤◌, [], ℕ, Option};
ghost use Rattle.tree_outside.specs.Files.{Told};
ghost use Rattle.tree_outside.specs.Outside.{HasCause};
ghost use Rattle.tree_outside.specs.Shelf.{Keeps};
ghost use Rattle.store_words.specs.declared.words.Settings.{Settings};

use crate::answer::{Answer, Refusal};
use crate::bulk_editing::edit_selected;
use crate::checking::check_document;
use crate::command::Command;
use crate::editing::edit_document;
use crate::generating::generate_document;
use crate::grammar_loading::load_grammar;
use crate::listing::print_hits;
use crate::loaded::Loaded;
use crate::loading::load_document;
use crate::repairing::repair_document;
use crate::repairing_wide::repair_document_wide;
use crate::saving::{save_document, save_grammar};
use crate::selecting::select;
use crate::session::Session;
use crate::showing::walk_to;
use crate::showing_all::print_nodes;
use crate::writing::write_node;
use read_steps::Steps;
use std::alloc::{AllocError, Global};
use std::sync::ledger::Ledger;
use store_words::Settings;
use tree_outside::{Failed, Shelf, Sink};

impl Session {
    ghost use Rattle.store_core.specs.Acts as act;
    ghost use Rattle.store_core.specs.CommandOf.{act_of};
    ghost use Rattle.store_core.specs.Machine.{Comes, Prints};
    ghost use Rattle.store_core.specs.Reads.{AsksFew, AsksFewEdits};
    ghost use Rattle.store_core.specs.Worlds.{IsIdle, IsLawfulState, world};
    ghost use Rattle.store_core.specs.BulkEditing.{IsBulkEdit};
    ghost use Rattle.store_core.specs.Editing.{IsEdit};

    pub(crate) fn load<F: Shelf>(
        &mut self,
        alloc: Global,
        name: &str,
        settings: Settings,
        shelf: &mut F,
    ) -> Result<Answer, Refusal>
        requires rank { (1 ≤ settings.rank) × (settings.rank ≤ 8) }
        ensures lawful { IsLawfulState self.old × IsLawfulState self.new }
        ensures later { F.faults shelf.old ≤ F.faults shelf.new }
        ensures idle { IsIdle (F.told shelf.old) → IsIdle (F.told shelf.new) }
        ensures comes { Comes settings (act.Load name.now) (world self.old (F.told shelf.old) (F.faults shelf.old)) [] result (world self.new (F.told shelf.new) (F.faults shelf.new)) }
    {
        // A look at the field tells that what was held is lawful, also where the loading is refused.
        let _ = &self.loaded;
        let loaded = load_document(alloc, name, settings.rank, shelf)?;
        self.loaded = Some(Loaded {
            store: loaded.store,
            edits: 0,
        });
        Ok(Answer::Nodes(loaded.count))
    }

    pub(crate) fn load_grammar<F: Shelf>(
        &mut self,
        alloc: Global,
        name: &str,
        shelf: &mut F,
    ) -> Result<Answer, Refusal>
        ensures lawful { IsLawfulState self.old × IsLawfulState self.new }
        ensures later { F.faults shelf.old ≤ F.faults shelf.new }
        ensures idle { IsIdle (F.told shelf.old) → IsIdle (F.told shelf.new) }
        ensures comes { (settings : Settings) → Comes settings (act.LoadGrammar name.now) (world self.old (F.told shelf.old) (F.faults shelf.old)) [] result (world self.new (F.told shelf.new) (F.faults shelf.new)) }
    {
        let _ = &self.loaded;
        let loaded = load_grammar(alloc, name, shelf)?;
        self.loaded = Some(Loaded {
            store: loaded.store,
            edits: 0,
        });
        Ok(Answer::Nodes(loaded.count))
    }

    pub(crate) fn generate(
        &mut self,
        alloc: Global,
        records: u64,
        settings: Settings,
    ) -> Result<Answer, Refusal>
        requires few { records ≤ 200000 }
        requires rank { (1 ≤ settings.rank) × (settings.rank ≤ 8) }
        ensures lawful { IsLawfulState self.old × IsLawfulState self.new }
        ensures comes { (told : Option Told) (count : ℕ) → Comes settings (act.Generate records) (world self.old told count) [] result (world self.new told count) }
    {
        let _ = &self.loaded;
        let made = generate_document(alloc, records, settings.rank)?;
        self.loaded = Some(Loaded {
            store: made.store,
            edits: 0,
        });
        Ok(Answer::Nodes(made.count))
    }

    pub(crate) fn save<F: Shelf, L: Ledger>(
        &self,
        alloc: Global,
        name: &str,
        shelf: &mut F,
        steps: &mut Steps<L>,
    ) -> Result<Answer, Refusal>
        ensures lawful { IsLawfulState self.now }
        ensures later { F.faults shelf.old ≤ F.faults shelf.new }
        ensures idle { IsIdle (F.told shelf.old) → IsIdle (F.told shelf.new) }
        ensures comes { (settings : Settings) → Comes settings (act.Save name.now) (world self.now (F.told shelf.old) (F.faults shelf.old)) [] result (world self.now (F.told shelf.new) (F.faults shelf.new)) }
    {
        match &self.loaded {
            None => Err(Refusal::NoDocument),
            Some(loaded) => {
                let count = save_document(alloc, name, &loaded.store, shelf, steps)?;
                Ok(Answer::Bytes(count))
            }
        }
    }

    pub(crate) fn save_grammar<F: Shelf>(
        &self,
        name: &str,
        shelf: &mut F,
    ) -> Result<Answer, Refusal>
        ensures lawful { IsLawfulState self.now }
        ensures later { F.faults shelf.old ≤ F.faults shelf.new }
        ensures idle { IsIdle (F.told shelf.old) → IsIdle (F.told shelf.new) }
        ensures comes { (settings : Settings) → Comes settings (act.SaveGrammar name.now) (world self.now (F.told shelf.old) (F.faults shelf.old)) [] result (world self.now (F.told shelf.new) (F.faults shelf.new)) }
    {
        match &self.loaded {
            None => Err(Refusal::NoDocument),
            Some(loaded) => save_grammar(name, &loaded.store, shelf),
        }
    }

    // Checks the document against the schema in the file with this name.
    pub(crate) fn check<F: Shelf, L: Ledger>(
        &self,
        alloc: Global,
        name: &str,
        shelf: &mut F,
        steps: &mut Steps<L>,
    ) -> Result<Answer, Refusal>
        ensures lawful { IsLawfulState self.now }
        ensures later { F.faults shelf.old ≤ F.faults shelf.new }
        ensures idle { IsIdle (F.told shelf.old) → IsIdle (F.told shelf.new) }
        ensures comes { (settings : Settings) → Comes settings (act.Check name.now) (world self.now (F.told shelf.old) (F.faults shelf.old)) [] result (world self.now (F.told shelf.new) (F.faults shelf.new)) }
    {
        match &self.loaded {
            None => Err(Refusal::NoDocument),
            Some(loaded) => check_document(alloc, name, &loaded.store, shelf, steps),
        }
    }

    // Makes the edit that the command asks for.
    pub(crate) fn edit<L: Ledger>(
        &mut self,
        alloc: Global,
        command: Command<'_>,
        settings: Settings,
        steps: &mut Steps<L>,
    ) -> Result<Answer, Refusal>
        requires rank { settings.rank ≤ 8 }
        requires edit { IsEdit (act_of command) }
        ensures lawful { IsLawfulState self.old × IsLawfulState self.new }
        ensures comes { (told : Option Told) (count : ℕ) → Comes settings (act_of command.entry) (world self.old told count) [] result (world self.new told count) }
    {
        match &mut self.loaded {
            None => Err(Refusal::NoDocument),
            Some(loaded) => edit_document(alloc, loaded, command, settings, steps),
        }
    }

    // Makes the edit that the command asks for of all nodes that its query selects.
    pub(crate) fn edit_all<L: Ledger>(
        &mut self,
        alloc: Global,
        command: Command<'_>,
        settings: Settings,
        steps: &mut Steps<L>,
    ) -> Result<Answer, Refusal>
        requires rank { settings.rank ≤ 8 }
        requires edit { IsBulkEdit (act_of command) }
        ensures lawful { IsLawfulState self.old × IsLawfulState self.new }
        ensures comes { (told : Option Told) (count : ℕ) → Comes settings (act_of command.entry) (world self.old told count) [] result (world self.new told count) }
        ensures reads { AsksFewEdits (act_of command.entry) self.old steps.old steps.new }
    {
        match &mut self.loaded {
            None => Err(Refusal::NoDocument),
            Some(loaded) => edit_selected(alloc, loaded, command, settings, steps),
        }
    }

    pub(crate) fn repair(&mut self, alloc: Global, settings: Settings) -> Result<Answer, Refusal>
        requires rank { settings.rank ≤ 8 }
        ensures lawful { IsLawfulState self.old × IsLawfulState self.new }
        ensures comes { (told : Option Told) (count : ℕ) → Comes settings act.Repair (world self.old told count) [] result (world self.new told count) }
    {
        match &mut self.loaded {
            None => Err(Refusal::NoDocument),
            Some(loaded) => Ok(repair_document(alloc, loaded, settings.rank)?),
        }
    }

    pub(crate) fn repair_wide(
        &mut self,
        alloc: Global,
        settings: Settings,
    ) -> Result<Answer, Refusal>
        requires rank { settings.rank ≤ 8 }
        ensures lawful { IsLawfulState self.old × IsLawfulState self.new }
        ensures comes { (told : Option Told) (count : ℕ) → Comes settings act.RepairWide (world self.old told count) [] result (world self.new told count) }
    {
        match &mut self.loaded {
            None => Err(Refusal::NoDocument),
            Some(loaded) => Ok(repair_document_wide(alloc, loaded, settings.rank)?),
        }
    }

    // Prints the node with this number. Where there is no memory for that, nothing is printed.
    pub(crate) fn show<K: Sink, L: Ledger>(
        &self,
        alloc: Global,
        number: u64,
        sink: &mut K,
        steps: &mut Steps<L>,
    ) -> Result<Result<Answer, Refusal>, Failed>
        ensures lawful { IsLawfulState self.now }
        ensures prints { (settings : Settings) (told : Option Told) (count : ℕ) → Prints settings (act.Show number) (world self.now told count) (K.got sink.old) (K.got sink.new) result (world self.now told count) }
        ensures kept { Keeps (K.kept sink.old) (K.kept sink.new) }
        ensures cause { HasCause (K.faults sink.old) (K.faults sink.new) result }
    {
        let Some(loaded) = &self.loaded else {
            return Ok(Err(Refusal::NoDocument));
        };
        let mut walk = match walk_to(alloc, &loaded.store, number, steps) {
            Ok(walk) => walk,
            Err(refusal) => return Ok(Err(refusal)),
        };
        write_node(&loaded.store, &mut walk, sink, steps)?;
        Ok(Ok(Answer::Shown))
    }

    // Prints the nodes that the query selects. Where there is no memory for all, some first ones are printed.
    pub(crate) fn query<K: Sink, L: Ledger>(
        &self,
        alloc: Global,
        text: &[u8],
        sink: &mut K,
        steps: &mut Steps<L>,
    ) -> Result<Result<Answer, Refusal>, Failed>
        ensures lawful { IsLawfulState self.now }
        ensures prints { (settings : Settings) (told : Option Told) (count : ℕ) → Prints settings (act.Query text.now) (world self.now told count) (K.got sink.old) (K.got sink.new) result (world self.now told count) }
        ensures kept { Keeps (K.kept sink.old) (K.kept sink.new) }
        ensures cause { HasCause (K.faults sink.old) (K.faults sink.new) result }
        ensures reads { AsksFew (act.Query text.now) self.now steps.old steps.new }
    {
        let Some(loaded) = &self.loaded else {
            return Ok(Err(Refusal::NoDocument));
        };
        let found = match select(alloc, text, &loaded.store, true, steps) {
            Ok(found) => found,
            Err(refusal) => return Ok(Err(refusal)),
        };
        match print_hits(alloc, &found, &loaded.store.names, sink)? {
            Ok(()) => Ok(Ok(Answer::Selected(found.count()))),
            Err(AllocError) => Ok(Err(Refusal::Memory)),
        }
    }

    // Prints the nodes that the query selects, each with all below it. Where there is no memory for all, some first ones are printed.
    pub(crate) fn show_all<K: Sink, L: Ledger>(
        &self,
        alloc: Global,
        text: &[u8],
        sink: &mut K,
        steps: &mut Steps<L>,
    ) -> Result<Result<Answer, Refusal>, Failed>
        ensures lawful { IsLawfulState self.now }
        ensures prints { (settings : Settings) (told : Option Told) (count : ℕ) → Prints settings (act.ShowAll text.now) (world self.now told count) (K.got sink.old) (K.got sink.new) result (world self.now told count) }
        ensures kept { Keeps (K.kept sink.old) (K.kept sink.new) }
        ensures cause { HasCause (K.faults sink.old) (K.faults sink.new) result }
    {
        let Some(loaded) = &self.loaded else {
            return Ok(Err(Refusal::NoDocument));
        };
        let found = match select(alloc, text, &loaded.store, true, steps) {
            Ok(found) => found,
            Err(refusal) => return Ok(Err(refusal)),
        };
        match print_nodes(alloc, &found, &loaded.store, sink, steps)? {
            Ok(()) => Ok(Ok(Answer::ShownAll(found.count()))),
            Err(AllocError) => Ok(Err(Refusal::Memory)),
        }
    }

    // Counts the nodes that the query selects.
    pub(crate) fn count<L: Ledger>(
        &self,
        alloc: Global,
        text: &[u8],
        steps: &mut Steps<L>,
    ) -> Result<Answer, Refusal>
        ensures lawful { IsLawfulState self.now }
        ensures comes { (settings : Settings) (told : Option Told) (count : ℕ) → Comes settings (act.Count text.now) (world self.now told count) [] result (world self.now told count) }
        ensures reads { AsksFew (act.Count text.now) self.now steps.old steps.new }
    {
        let Some(loaded) = &self.loaded else {
            return Err(Refusal::NoDocument);
        };
        let counted = select(alloc, text, &loaded.store, false, steps)?;
        Ok(Answer::Selected(counted.count()))
    }
}
