// What gets the calls of a document.
ghost use Rattle.std.specs.Prelude.{◌≡◌, ◌<◌, ◌+◌, ◌-◌, [], ◌∷◌, ◌++◌, true, false, Bool, List, ℕ, OnOk, OnErr};
ghost use Rattle.plain_tree.specs.declared.kind.Kind.TheVariants.{Element};
ghost use Rattle.plain_tree.specs.Numbers.{has_value};
ghost use Rattle.xml_nodes.specs.Machine.{Event, Opened, Leaf, Closed};

use plain_tree::Kind;
use std::alloc::AllocError;

/// What gets the calls of a document, in order: an element is opened, gets the calls of its kids, its attributes first, and is
/// closed; every other node below the document is a leaf. A call is refused only for want of memory, and then no further call
/// may be made.
pub trait Builder {
    /// The calls that it got.
    ghost log: { Self → List Event };
    /// Whether none of them was refused.
    ghost sound: { Self → Bool };
    /// How many elements are open.
    ghost depth: { Self → ℕ };

    /// Begins an element.
    fn open(&mut self, kind: Kind, name: &[u8]) -> Result<(), AllocError>
        requires element { kind ≡ Element }
        requires sound { sound self.old ≡ true }
        ensures log { OnOk result (log self.new ≡ log self.old ++ Opened name.now ∷ []) }
        ensures depth { OnOk result (depth self.new ≡ depth self.old + 1) }
        ensures sound { OnOk result (sound self.new ≡ true) }
        ensures refused { OnErr result (sound self.new ≡ false) };

    /// Takes an attribute, a text, a comment or an instruction.
    fn leaf(&mut self, kind: Kind, name: &[u8], value: &[u8]) -> Result<(), AllocError>
        requires leaf { has_value kind ≡ true }
        requires sound { sound self.old ≡ true }
        ensures log { OnOk result (log self.new ≡ log self.old ++ Leaf kind name.now value.now ∷ []) }
        ensures depth { OnOk result (depth self.new ≡ depth self.old) }
        ensures sound { OnOk result (sound self.new ≡ true) }
        ensures refused { OnErr result (sound self.new ≡ false) };

    /// Ends the element that was opened last.
    fn close(&mut self) -> Result<(), AllocError>
        requires open { 0 < depth self.old }
        requires sound { sound self.old ≡ true }
        ensures log { OnOk result (log self.new ≡ log self.old ++ Closed ∷ []) }
        ensures depth { OnOk result (depth self.new ≡ depth self.old - 1) }
        ensures sound { OnOk result (sound self.new ≡ true) }
        ensures refused { OnErr result (sound self.new ≡ false) };
}
