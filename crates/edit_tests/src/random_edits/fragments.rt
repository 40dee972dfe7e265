// What random edits insert and append.
use super::plain_list::Node;
use plain_tree::Kind::{self, Attribute, Comment, Element, Instruction, Text};
use std::alloc::{AllocError, Global};

// Bytes, and the nodes that they spell: the kind of each, how many elements of the fragment it stands in, its name and its value.
#[derive(Debug)]
pub(super) struct Fragment {
    pub bytes: &'static [u8],
    nodes: &'static [(Kind, usize, &'static [u8], &'static [u8])],
}

// At both ends there are texts, elements, and what may stand beside the root.
pub(super) static FRAGMENTS: [Fragment; 9] = [
    Fragment {
        bytes: b"t",
        nodes: &[(Text, 0, b"", b"t")],
    },
    Fragment {
        bytes: b"<b/>",
        nodes: &[(Element, 0, b"b", b"")],
    },
    Fragment {
        bytes: b"<!--c-->",
        nodes: &[(Comment, 0, b"", b"c")],
    },
    Fragment {
        bytes: b"<?p v?><!--c-->",
        nodes: &[(Instruction, 0, b"p", b"v"), (Comment, 0, b"", b"c")],
    },
    Fragment {
        bytes: b"x<b k=\"v\">y</b>z",
        nodes: &[
            (Text, 0, b"", b"x"),
            (Element, 0, b"b", b""),
            (Attribute, 1, b"k", b"v"),
            (Text, 1, b"", b"y"),
            (Text, 0, b"", b"z"),
        ],
    },
    Fragment {
        bytes: b"<a><b/><b/></a>y",
        nodes: &[
            (Element, 0, b"a", b""),
            (Element, 1, b"b", b""),
            (Element, 1, b"b", b""),
            (Text, 0, b"", b"y"),
        ],
    },
    Fragment {
        bytes: b"y<c><?p?></c>",
        nodes: &[
            (Text, 0, b"", b"y"),
            (Element, 0, b"c", b""),
            (Instruction, 1, b"p", b""),
        ],
    },
    Fragment {
        bytes: b"</b>",
        nodes: &[],
    },
    Fragment {
        bytes: b"<![CDATA[]]>",
        nodes: &[],
    },
];

impl Fragment {
    // Whether the bytes spell no list of at least one node.
    pub(super) fn is_none(&self) -> bool {
        self.nodes.is_empty()
    }

    // Whether there are comments and instructions alone.
    pub(super) fn is_aside(&self) -> bool {
        self.nodes
            .iter()
            .all(|&(kind, _, _, _)| kind == Comment || kind == Instruction)
    }

    // The nodes, where they stand in so many elements.
    pub(super) fn nodes(&self, alloc: Global, depth: usize) -> Result<Vec<Node>, AllocError> {
        let mut nodes = Vec::new(alloc);
        for &(kind, deeper, name, value) in self.nodes {
            nodes.push(Node {
                kind,
                depth: depth.saturating_add(deeper),
                name,
                value: value.to_vec(alloc)?,
            })?;
        }
        Ok(nodes)
    }
}
