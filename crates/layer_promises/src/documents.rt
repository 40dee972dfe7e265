// What bytes spell, as xml_profile promises it.
ghost use Rattle.std.specs.Prelude.{◌≡◌, ℕ, IfOk, Err, [], List, OnOk, Some};
ghost use Rattle.plain_tree.specs.NodeTree.{tree_of};
ghost use Rattle.plain_tree.specs.Tree.{Tree};
ghost use Rattle.xml_nodes.specs.Machine.{Event, events};
ghost use Rattle.xml_nodes.specs.Spelling.{Spells};
ghost use Rattle.xml_profile.specs.Reading.{IsBad, IsFed, depth_of};

use plain_tree::Node;
use std::alloc::Global;
use xml_profile::{Reader, XmlError, read_document};

/// The document that bytes spell; Bad tells the place at which they go wrong.
pub fn read_document_told(alloc: Global, bytes: &[u8]) -> Result<Node, XmlError>
    ensures spelled { IfOk result (λ n. Spells bytes.now (tree_of n)) }
    ensures bad { (at : ℕ) → result ≡ Err (XmlError.Bad at) → IsBad bytes.now at }
{
    read_document(alloc, bytes)
}

/// What was fed spells a document; Bad tells the place at which it goes wrong.
pub fn finish_told(reader: Reader) -> Result<(), XmlError>
    ensures document { OnOk result ((calls : List Event) (fed : List ℕ) → IsFed reader calls fed → (t : Tree) × Spells fed t × (calls ≡ events t [])) }
    ensures depth { OnOk result ((calls : List Event) (fed : List ℕ) → IsFed reader calls fed → depth_of reader ≡ 0) }
    ensures bad { (at : ℕ) → result ≡ Err (XmlError.Bad at) → (calls : List Event) (fed : List ℕ) → IsFed reader calls fed → IsBad fed at }
    ensures again { (e : XmlError) → reader.failed ≡ Some e → result ≡ Err e }
    ensures memory { result ≡ Err XmlError.Memory → reader.failed ≡ Some XmlError.Memory }
{
    reader.finish()
}
