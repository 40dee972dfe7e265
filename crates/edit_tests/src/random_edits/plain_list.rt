// Documents as plain lists of their nodes, and what an edit makes of one.
use super::fragments::Fragment;
use plain_tree::Kind::{self, Attribute, Comment, Element, Instruction, Text};
use std::alloc::{AllocError, Global};

// A node of a list in document order, and how many elements it stands in. Elements have no value, texts and comments no name.
#[derive(Drop)]
pub(super) struct Node {
    pub kind: Kind,
    pub depth: usize,
    pub name: &'static [u8],
    pub value: Vec<u8>,
}

impl Node {
    // The node once more.
    pub(super) fn twin(&self, alloc: Global) -> Result<Node, AllocError> {
        Ok(Node {
            value: self.value.to_vec(alloc)?,
            ..*self
        })
    }

    fn is_root(&self) -> bool {
        self.kind == Element && self.depth == 0
    }
}

// What becomes of a node.
#[derive(Clone, Copy, Debug)]
pub(super) enum Change {
    Name(&'static [u8]),
    Value(&'static [u8]),
    Deletion,
    // The fragment comes before the node.
    Insertion(&'static Fragment),
    // The fragment comes behind its last kid.
    Addition(&'static Fragment),
    // The attribute with this name gets this value.
    Setting(&'static [u8], &'static [u8]),
    // A twin comes before it, with all below it.
    Copy,
}

// What is no Name, and what spells no value.
pub(super) const NO_NAME: &[u8] = b"1a";

pub(super) const NO_VALUE: &[u8] = b"<";

impl Change {
    // What is wrong with the name, the value or the fragment that it gives, in whatever document.
    fn fault(self) -> Option<&'static str> {
        match self {
            Change::Name(name) if name == NO_NAME => Some("! bad-name\n"),
            Change::Setting(name, _) if name == NO_NAME => Some("! bad-name\n"),
            Change::Value(value) if value == NO_VALUE => Some("! bad-value\n"),
            Change::Setting(_, value) if value == NO_VALUE => Some("! bad-value\n"),
            Change::Insertion(fragment) if fragment.is_none() => Some("! bad-fragment\n"),
            Change::Addition(fragment) if fragment.is_none() => Some("! bad-fragment\n"),
            _ => None,
        }
    }
}

// A change of the node with a number. Number 0 is the document, which isn't in the list, and the nodes of the list count from 1 on.
#[derive(Clone, Copy, Debug)]
pub(super) struct Edit {
    pub number: usize,
    pub change: Change,
}

// Makes an edit where it is allowed, and answers the line that says what it came to.
pub(super) fn apply(
    alloc: Global,
    nodes: &mut Vec<Node>,
    edit: Edit,
) -> Result<String, AllocError> {
    if nodes.len() < edit.number {
        return String::from_str(alloc, "! no-node\n");
    }
    if let Some(line) = edit.change.fault() {
        return String::from_str(alloc, line);
    }
    let is_made = match edit.number.checked_sub(1) {
        None => make_of_document(alloc, nodes, edit.change)?,
        Some(at) => make(alloc, nodes, at, edit.change)?,
    };
    if !is_made {
        return String::from_str(alloc, "! not-allowed\n");
    }
    let count = nodes.len().saturating_add(1);
    format!(in alloc; "ok nodes {count}\n")
}

// Makes a change of the document where it is allowed, and answers whether it is.
fn make_of_document(
    alloc: Global,
    nodes: &mut Vec<Node>,
    change: Change,
) -> Result<bool, AllocError> {
    match change {
        Change::Addition(fragment) if fragment.is_aside() => {
            let others = fragment.nodes(alloc, 0)?;
            push_all(nodes, others)?;
            Ok(true)
        }
        _ => Ok(false),
    }
}

// Makes a change of a node where it is allowed, and answers whether it is.
fn make(
    alloc: Global,
    nodes: &mut Vec<Node>,
    at: usize,
    change: Change,
) -> Result<bool, AllocError> {
    match change {
        Change::Name(name) => Ok(rename(nodes, at, name)),
        Change::Value(value) => set_value(alloc, nodes, at, value),
        Change::Deletion => delete(alloc, nodes, at),
        Change::Insertion(fragment) => insert(alloc, nodes, at, fragment),
        Change::Addition(fragment) => append(alloc, nodes, at, fragment),
        Change::Setting(name, value) => set_attribute(alloc, nodes, at, name, value),
        Change::Copy => copy(alloc, nodes, at),
    }
}

fn rename(nodes: &mut [Node], at: usize, name: &'static [u8]) -> bool {
    let is_taken = has_attribute_beside(nodes, at, name);
    let Some(node) = nodes.get_mut(at) else {
        return false;
    };
    let is_allowed = match node.kind {
        Element | Instruction => true,
        Attribute => !is_taken,
        _ => false,
    };
    if is_allowed {
        node.name = name;
    }
    is_allowed
}

// Whether of the attributes that stand next to a place, one behind another, one has this name.
pub(super) fn has_attribute_beside(nodes: &[Node], at: usize, name: &[u8]) -> bool {
    let Some((before, behind)) = nodes.split_at_checked(at) else {
        return false;
    };
    let has_before = before
        .iter()
        .rev()
        .take_while(|node| node.kind == Attribute)
        .any(|node| node.name == name);
    let has_behind = behind
        .iter()
        .skip(1)
        .take_while(|node| node.kind == Attribute)
        .any(|node| node.name == name);
    has_before || has_behind
}

fn set_value(
    alloc: Global,
    nodes: &mut [Node],
    at: usize,
    value: &[u8],
) -> Result<bool, AllocError> {
    let Some(node) = nodes.get_mut(at) else {
        return Ok(false);
    };
    let is_allowed = match node.kind {
        Attribute | Instruction => true,
        Text => !value.is_empty(),
        Comment => !value.ends_with(b"-"),
        _ => false,
    };
    if is_allowed {
        node.value = value.to_vec(alloc)?;
    }
    Ok(is_allowed)
}

// All but the root may go.
fn delete(alloc: Global, nodes: &mut Vec<Node>, at: usize) -> Result<bool, AllocError> {
    match nodes.get(at) {
        Some(node) if !node.is_root() => {}
        _ => return Ok(false),
    }
    let end = end_of(nodes, at);
    put(nodes, at, end, Vec::new(alloc))?;
    Ok(true)
}

// Nothing comes before an attribute, and beside the root neither elements nor texts.
fn insert(
    alloc: Global,
    nodes: &mut Vec<Node>,
    at: usize,
    fragment: &Fragment,
) -> Result<bool, AllocError> {
    let depth = match nodes.get(at) {
        Some(node) if node.kind != Attribute => node.depth,
        _ => return Ok(false),
    };
    if depth == 0 && !fragment.is_aside() {
        return Ok(false);
    }
    put(nodes, at, at, fragment.nodes(alloc, depth)?)?;
    Ok(true)
}

fn append(
    alloc: Global,
    nodes: &mut Vec<Node>,
    at: usize,
    fragment: &Fragment,
) -> Result<bool, AllocError> {
    let depth = match nodes.get(at) {
        Some(node) if node.kind == Element => node.depth.saturating_add(1),
        _ => return Ok(false),
    };
    let end = end_of(nodes, at);
    put(nodes, end, end, fragment.nodes(alloc, depth)?)?;
    Ok(true)
}

// The attribute of the element with this name gets the value; where there is none, it comes behind the others.
fn set_attribute(
    alloc: Global,
    nodes: &mut Vec<Node>,
    at: usize,
    name: &'static [u8],
    value: &[u8],
) -> Result<bool, AllocError> {
    let depth = match nodes.get(at) {
        Some(node) if node.kind == Element => node.depth.saturating_add(1),
        _ => return Ok(false),
    };
    let first = at.saturating_add(1);
    let mut attributes = nodes
        .iter_mut()
        .skip(first)
        .take_while(|node| node.kind == Attribute);
    if let Some(attribute) = attributes.find(|node| node.name == name) {
        attribute.value = value.to_vec(alloc)?;
        return Ok(true);
    }
    let others = nodes
        .iter()
        .skip(first)
        .take_while(|node| node.kind == Attribute)
        .count();
    let end = first.saturating_add(others);
    let attribute = Node {
        kind: Attribute,
        depth,
        name,
        value: value.to_vec(alloc)?,
    };
    put(nodes, end, end, vec![in alloc; attribute]?)?;
    Ok(true)
}

// All but attributes and the root may be copied.
fn copy(alloc: Global, nodes: &mut Vec<Node>, at: usize) -> Result<bool, AllocError> {
    match nodes.get(at) {
        Some(node) if node.kind != Attribute && !node.is_root() => {}
        _ => return Ok(false),
    }
    let end = end_of(nodes, at);
    let twins = twins_of(alloc, nodes, at, end)?;
    put(nodes, at, at, twins)?;
    Ok(true)
}

// The nodes from one place on to another, once more.
pub(super) fn twins_of(
    alloc: Global,
    nodes: &[Node],
    at: usize,
    end: usize,
) -> Result<Vec<Node>, AllocError> {
    let mut twins = Vec::new(alloc);
    for node in nodes.iter().take(end).skip(at) {
        twins.push(node.twin(alloc)?)?;
    }
    Ok(twins)
}

// The place behind a node and what is deeper behind it.
pub(super) fn end_of(nodes: &[Node], at: usize) -> usize {
    let next = at.saturating_add(1);
    let Some(node) = nodes.get(at) else {
        return next;
    };
    let below = nodes
        .iter()
        .skip(next)
        .take_while(|other| node.depth < other.depth)
        .count();
    next.saturating_add(below)
}

// Puts others in the place of the nodes from one place on to another.
fn put(nodes: &mut Vec<Node>, at: usize, end: usize, others: Vec<Node>) -> Result<(), AllocError> {
    let end = end.min(nodes.len());
    let behind = nodes.split_off(end)?;
    nodes.truncate(at);
    push_all(nodes, others)?;
    push_all(nodes, behind)
}

fn push_all(nodes: &mut Vec<Node>, others: Vec<Node>) -> Result<(), AllocError> {
    for node in others {
        push_joined(nodes, node)?;
    }
    Ok(())
}

// Adds a node. A text whose sibling just before is a text becomes one with that.
fn push_joined(nodes: &mut Vec<Node>, node: Node) -> Result<(), AllocError> {
    if let Some(last) = nodes.last_mut() {
        if last.kind == Text && node.kind == Text && last.depth == node.depth {
            return last.value.extend_from_slice(&node.value);
        }
    }
    Ok(nodes.push(node)?)
}
