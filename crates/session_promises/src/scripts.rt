// Scripts and how they end, as store_shell promises it.
ghost use Rattle.std.specs.Prelude.{◌≡◌, ◌⊎◌, ◌≤◌, ℕ, IfSome, map};
ghost use Rattle.std.specs.Option.{option_map};
ghost use Rattle.std.specs.String.{string_bytes};
ghost use Rattle.tree_outside.specs.Outside.{Rose, Takes};
ghost use Rattle.tree_outside.specs.Shelf.{Keeps};
ghost use Rattle.store_words.specs.Words.{IsWords};
ghost use Rattle.store_words.specs.declared.words.Settings.{Settings};
ghost use Rattle.store_core.specs.StoreOf.{IsCounted, parts_of};
ghost use Rattle.store_core.specs.Worlds.{IsLawfulState, parts_in, world};
ghost use Rattle.store_shell.specs.Serving.{Script, Serves, AreSettings, IsRefused};

use read_steps::Steps;
use std::alloc::Global;
use std::sync::ledger::Ledger;
use store_core::{Session, Store};
use store_shell::{Status, serve};
use tree_outside::{Shelf, Sink, Source};

/// A script is read and its lines are done in turn. Faults and bad words are told exactly where there were some.
pub fn serve_told<S: Source, K: Sink, F: Shelf, L: Ledger>(
    alloc: Global,
    words: &[String],
    session: &mut Session,
    source: &mut S,
    sink: &mut K,
    shelf: &mut F,
    steps: &mut Steps<L>,
) -> Status
    ensures serves { (settings : Settings) × AreSettings (map string_bytes words.now) result settings
        × (script : Script) × Takes (S.left source.old) (S.left source.new) script.bytes
        × Serves settings script (S.left source.old) result
        (world session.old (F.told shelf.old) (F.faults shelf.old)) (world session.new (F.told shelf.new) (F.faults shelf.new))
        (K.got sink.old) (K.got sink.new) }
    ensures untouched { IsRefused result → (source.new ≡ source.old) × (sink.new ≡ sink.old) × (shelf.new ≡ shelf.old) }
    ensures later { (S.faults source.old ≤ S.faults source.new) × (K.faults sink.old ≤ K.faults sink.new) × (F.faults shelf.old ≤ F.faults shelf.new) }
    ensures kept { Keeps (K.kept sink.old) (K.kept sink.new) }
    ensures words { result ≡ Status.Words → (rank repair : ℕ) → IsWords (map string_bytes words.now) rank repair → ⊥ }
    ensures refused { ((rank repair : ℕ) → IsWords (map string_bytes words.now) rank repair → ⊥) → (result ≡ Status.Words) ⊎ (result ≡ Status.Memory) }
    ensures read_fault { result ≡ Status.ReadFault → Rose (S.faults source.old) (S.faults source.new) }
    ensures write_fault { result ≡ Status.WriteFault → Rose (K.faults sink.old) (K.faults sink.new) }
{
    let status = serve(alloc, words, session, source, sink, shelf, steps);
    status
}

/// What is held can be seen, and nothing where nothing is held.
pub fn document_told(session: &Session) -> Option<&Store>
    ensures sees { option_map (λ s. parts_of s.now) result ≡ parts_in session.now }
    ensures held { IsLawfulState session.now }
    ensures counted { IfSome result (λ s. IsCounted s.now) }
{
    let seen = session.document();
    seen
}
