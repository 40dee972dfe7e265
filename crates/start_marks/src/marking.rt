// Marks that outlive a change of the grammar, by what its index keeps marked.
ghost use Rattle.std.specs.List.{Contains, filter};
ghost use Rattle.std.specs.Prelude.{◌≡◌, ℕ, List, IsTrue};
ghost use Rattle.plain_tree.specs.declared.kind.Kind.{Kind};
ghost use Rattle.slt_grammar.specs.Keyed.{KeyedRule};
ghost use Rattle.digram_index.specs.Linked.{Linked, is_marked};
ghost use Rattle.digram_index.specs.Marking.{KeepsMarked, MarksStart};
ghost use Rattle.preorder_address.specs.Marks.{AreMarks};
ghost use Rattle.preorder_address.specs.declared.marks.Mark.{Mark};

use digram_index::Index;
use preorder_address::{Mark, Marks};

/// Marks the nodes of marks in the index, as far as they are linked and there is memory, and no others.
pub fn mark_nodes(marks: &Marks, index: &mut Index)
    ensures index { index.new ≡ record index.old { marked = index.new.marked } }
    ensures only { (k : ℕ) → IsTrue (is_marked index.new k) → (mark : Mark) × Contains marks.now mark × (mark.key.number ≡ k) }
    ensures stand { (names : List (Kind × List ℕ)) (G : List KeyedRule) → AreMarks names G marks.now → MarksStart G index.new }
{
    index.unmark_all();
    for mark in marks.as_slice() {
        let _ = index.mark(mark.key());
    }
}

/// Keeps the marks whose nodes the index has marked still. A change of the grammar that kept what is marked leaves them marks of its start.
pub fn keep_marked(marks: &mut Marks, index: &Index)
    ensures kept { marks.new ≡ filter (λ mark. is_marked index.now mark.key.number) marks.old }
    ensures stay { (names : List (Kind × List ℕ)) (G H : List KeyedRule) (before : Linked) → AreMarks names G marks.old
        → KeepsMarked G before H index.now → AreMarks names H marks.new }
{
    marks.retain(|mark: &Mark| index.is_marked(mark.key()));
}
