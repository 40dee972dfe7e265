// Documents and edits by numbers of a generator. The same seed gives the same ones.
use super::fragments::{FRAGMENTS, Fragment};
use super::plain_list::{
    Change, Edit, NO_NAME, NO_VALUE, Node, end_of, has_attribute_beside, twins_of,
};
use plain_tree::Kind::{self, Attribute, Comment, Element, Instruction, Text};
use std::alloc::{AllocError, Global};

// Few, so that much repeats.
static NAMES: [&[u8]; 3] = [b"a", b"b", b"c"];

static VALUES: [&[u8]; 3] = [b"x", b"y", b"long"];

static EDIT_NAMES: [&[u8]; 8] = [b"a", b"b", b"c", b"d", b"a", b"b", b"c", NO_NAME];

static EDIT_VALUES: [&[u8]; 8] = [b"x", b"y", b"z", b"", b"-", b"x", b"y", NO_VALUE];

// A generator whose state isn't 0.
#[derive(Drop)]
pub(super) struct Chance {
    state: u64,
}

impl Chance {
    pub(super) fn new(seed: u64) -> Chance {
        Chance {
            state: seed.wrapping_mul(0x9E37_79B9_7F4A_7C15) | 1,
        }
    }

    // A number below a limit, and 0 below 0.
    fn below(&mut self, limit: usize) -> usize {
        self.state ^= self.state << 13;
        self.state ^= self.state >> 7;
        self.state ^= self.state << 17;
        (self.state >> 32) as usize % limit.max(1)
    }

    fn pick(&mut self, words: &'static [&'static [u8]]) -> &'static [u8] {
        words.get(self.below(words.len())).copied().unwrap_or(b"")
    }

    fn fragment(&mut self) -> &'static Fragment {
        let [first, ..] = &FRAGMENTS;
        FRAGMENTS.get(self.below(FRAGMENTS.len())).unwrap_or(first)
    }

    // A document of 20 to 60 nodes, half of them with a comment before the root.
    pub(super) fn document(&mut self, alloc: Global) -> Result<Vec<Node>, AllocError> {
        let count = self.below(41).saturating_add(20);
        let mut nodes = Vec::new(alloc);
        if self.below(2) == 0 {
            nodes.push(node_of(alloc, Comment, 0, b"", b"c")?)?;
        }
        nodes.push(node_of(alloc, Element, 0, b"a", b"")?)?;
        for _ in 1..count {
            let room = count.saturating_sub(nodes.len());
            if self.below(2) == 0 || !self.repeat(alloc, &mut nodes, room)? {
                self.add(alloc, &mut nodes, room)?;
            }
        }
        Ok(nodes)
    }

    // Adds an element of the list once more, with what is below it, but no more than so many nodes. Answers whether it did.
    fn repeat(
        &mut self,
        alloc: Global,
        nodes: &mut Vec<Node>,
        most: usize,
    ) -> Result<bool, AllocError> {
        let at = self.below(nodes.len());
        let deepest = deepest_next(nodes);
        match nodes.get(at) {
            Some(node) if node.kind == Element && 0 < node.depth && node.depth <= deepest => {}
            _ => return Ok(false),
        }
        let end = end_of(nodes, at).min(at.saturating_add(most));
        let twins = twins_of(alloc, nodes, at, end)?;
        nodes.extend(twins)?;
        Ok(true)
    }

    // Adds a node that may stand behind the last one, where there is room for one.
    fn add(&mut self, alloc: Global, nodes: &mut Vec<Node>, room: usize) -> Result<(), AllocError> {
        if room == 0 {
            return Ok(());
        }
        let node = self.node(alloc, nodes)?;
        Ok(nodes.push(node)?)
    }

    // Texts don't become neighbours, and the attributes of an element have different names.
    fn node(&mut self, alloc: Global, nodes: &[Node]) -> Result<Node, AllocError> {
        let deepest = deepest_next(nodes);
        let depth = self.below(deepest).saturating_add(1);
        let name = self.pick(&NAMES);
        let value = self.pick(&VALUES);
        match self.below(8) {
            0 | 1 if may_be_attribute(nodes, name) => {
                node_of(alloc, Attribute, deepest, name, value)
            }
            2..=4 if may_be_text(nodes, depth) => node_of(alloc, Text, depth, b"", value),
            5 => node_of(alloc, Comment, depth, b"", value),
            6 => node_of(alloc, Instruction, depth, name, value),
            _ => node_of(alloc, Element, depth, name, b""),
        }
    }

    // An edit of a document with so many nodes, sometimes with a number that is too great.
    pub(super) fn edit(&mut self, nodes: usize) -> Edit {
        let number = self.below(nodes.saturating_add(3));
        let change = match self.below(7) {
            0 => Change::Name(self.pick(&EDIT_NAMES)),
            1 => Change::Value(self.pick(&EDIT_VALUES)),
            2 => Change::Insertion(self.fragment()),
            3 => Change::Addition(self.fragment()),
            4 => Change::Setting(self.pick(&EDIT_NAMES), self.pick(&EDIT_VALUES)),
            5 => Change::Copy,
            _ => Change::Deletion,
        };
        Edit { number, change }
    }
}

fn node_of(
    alloc: Global,
    kind: Kind,
    depth: usize,
    name: &'static [u8],
    value: &[u8],
) -> Result<Node, AllocError> {
    Ok(Node {
        kind,
        depth,
        name,
        value: value.to_vec(alloc)?,
    })
}

// The greatest depth that the node behind the last one may have.
fn deepest_next(nodes: &[Node]) -> usize {
    match nodes.last() {
        None => 0,
        Some(last) if last.kind == Element => last.depth.saturating_add(1),
        Some(last) => last.depth,
    }
}

fn may_be_attribute(nodes: &[Node], name: &[u8]) -> bool {
    nodes
        .last()
        .is_some_and(|last| last.kind == Element || last.kind == Attribute)
        && !has_attribute_beside(nodes, nodes.len(), name)
}

fn may_be_text(nodes: &[Node], depth: usize) -> bool {
    nodes
        .last()
        .is_some_and(|last| last.kind != Text || last.depth != depth)
}
