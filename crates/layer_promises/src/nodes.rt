// Calls of a tree, and the bytes that they write, as xml_nodes promises it.
ghost use Rattle.std.specs.Prelude.{◌≡◌, [], ℕ, OnOk, Some, Err, true, length, OnErr, ◌↔◌, IsTrue};
ghost use Rattle.std.specs.Str.{chars};
ghost use Rattle.tree_outside.specs.ByteCounts.{counted};
ghost use Rattle.tree_outside.specs.Outside.{HasCause, Writes};
ghost use Rattle.tree_outside.specs.Shelf.{Keeps, Loses};
ghost use Rattle.plain_tree.specs.Lawful.{IsLawful};
ghost use Rattle.plain_tree.specs.Numbers.{has_value};
ghost use Rattle.xml_tokenizer.specs.Runs.{IsRun, characters};
ghost use Rattle.xml_nodes.specs.Machine.{steps};
ghost use Rattle.xml_nodes.specs.Pen.{Leaf, call_text, pen_after};
ghost use Rattle.xml_nodes.specs.StateOf.{state_of};
ghost use Rattle.xml_nodes.specs.Taking.{RefusesRun};
ghost use Rattle.xml_nodes.specs.WriterOf.{pen_of, sink_of, sink_name, count_of};

use plain_tree::Kind;
use tree_outside::{Failed, Sink};
use xml_nodes::{Machine, Writer, lawful};
use xml_tokenizer::RunRefused;

/// A run of characters goes into the text that is open, or is refused at its first character that may not stand there.
pub fn run_told(machine: &mut Machine, text: &[u8]) -> Result<(), RunRefused>
    requires { IsRun text.now }
    ensures ok { OnOk result (steps (state_of machine.old) (characters (chars text.now)) ≡ Some (state_of machine.new, [])) }
    ensures refused { (at : ℕ) → result ≡ Err (RunRefused.Here at) → RefusesRun (state_of machine.old) text.now at }
{
    machine.run(text)
}

/// The sink gets the text of an attribute, a text, a comment or an instruction.
pub fn writer_leaf_told<'a, K: Sink>(
    writer: &mut Writer<'a, K>,
    kind: Kind,
    name: &[u8],
    value: &[u8],
) -> Result<(), Failed>
    requires { has_value kind ≡ true }
    ensures written { Writes (K.got (sink_of writer.old)) (K.got (sink_of writer.new)) result (call_text (pen_of writer.old) (Leaf kind name.now value.now)) }
    ensures pen { OnOk result (pen_of writer.new ≡ pen_after (pen_of writer.old) (Leaf kind name.now value.now)) }
    ensures count { OnOk result (count_of writer.new ≡ counted (count_of writer.old) (length (call_text (pen_of writer.old) (Leaf kind name.now value.now)))) }
    ensures failed_pen { OnErr result (pen_of writer.new ≡ pen_of writer.old) }
    ensures failed_count { OnErr result (count_of writer.new ≡ count_of writer.old) }
    ensures kept { Keeps (K.kept (sink_of writer.old)) (K.kept (sink_of writer.new)) }
    ensures lost { Loses (K.kept (sink_of writer.old)) (K.got (sink_of writer.old)) (K.got (sink_of writer.new)) result }
    ensures cause { HasCause (K.faults (sink_of writer.old)) (K.faults (sink_of writer.new)) result }
    ensures same_reference { sink_name writer.new ≡ sink_name writer.old }
{
    writer.leaf(kind, name, value)
}

/// Whether a node of this kind may have this name and this value.
pub fn lawful_told(kind: Kind, name: &[u8], value: &[u8]) -> bool
    ensures { IsTrue result ↔ IsLawful kind name.now value.now }
{
    lawful(kind, name, value)
}
