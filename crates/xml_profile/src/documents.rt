// Documents and fragments from bytes that are all there.
ghost use Rattle.std.specs.Prelude.{◌≡◌, ℕ, IfOk, Err};
ghost use Rattle.plain_tree.specs.NodeTree.{tree_of};
ghost use Rattle.plain_tree.specs.Tree.{trees};
ghost use Rattle.xml_nodes.specs.Spelling.{Spells, SpellsList};
ghost use Rattle.xml_profile.specs.Reading.{IsBad, IsBadList};

use crate::error::XmlError;
use crate::reader::Reader;
use crate::tree_builder::TreeBuilder;
use plain_tree::{Kind, Node, Nodes};
use std::alloc::Global;
use xml_nodes::Builder;

/// The document that the bytes spell. `Bad` comes exactly where they spell none, and tells the place.
pub fn read_document(alloc: Global, bytes: &[u8]) -> Result<Node, XmlError>
    ensures spelled { IfOk result (λ n. Spells bytes.now (tree_of n)) }
    ensures bad { (at : ℕ) → result ≡ Err (XmlError.Bad at) → IsBad bytes.now at }
{
    let mut builder = TreeBuilder::new(alloc);
    let mut reader = Reader::new(alloc)?;
    reader.feed(alloc, bytes, &mut builder)?;
    reader.finish()?;
    Ok(builder.document()?)
}

/// The nodes that the bytes spell as a fragment: a content that gives at least one node, as it may stand in an element.
/// `Bad` comes exactly where they spell none, and tells the place.
pub fn read_fragment(alloc: Global, bytes: &[u8]) -> Result<Nodes, XmlError>
    ensures spelled { IfOk result (λ nodes. SpellsList bytes.now (trees nodes)) }
    ensures bad { (at : ℕ) → result ≡ Err (XmlError.Bad at) → IsBadList bytes.now at }
{
    let mut builder = TreeBuilder::new(alloc);
    builder.open(Kind::Element, &[])?;
    let mut reader = Reader::of_content(alloc)?;
    reader.read_on(alloc, bytes, &mut builder)?;
    let start = reader.start();
    let ended = reader.end_content(&mut builder)?;
    let nodes = builder.content();
    if ended && !nodes.is_empty() {
        Ok(nodes)
    } else {
        Err(XmlError::Bad { at: start })
    }
}
