// How a list of nodes is saved.
use super::plain_list::Node;
use plain_tree::Kind::{Attribute, Comment, Element, Instruction};
use std::alloc::{AllocError, Global};

// The saved bytes of a document.
pub(super) fn spelled(alloc: Global, nodes: &[Node]) -> Result<Vec<u8>, AllocError> {
    let mut pen = Pen {
        bytes: Vec::new(alloc),
        open: Vec::new(alloc),
        in_tag: false,
    };
    for node in nodes {
        pen.write_node(node)?;
    }
    pen.close_to(0)?;
    Ok(pen.bytes)
}

// What was written, the names of the elements that are open, and whether the last start tag is.
#[derive(Drop)]
struct Pen {
    bytes: Vec<u8>,
    open: Vec<&'static [u8]>,
    in_tag: bool,
}

impl Pen {
    fn write_node(&mut self, node: &Node) -> Result<(), AllocError> {
        self.close_to(node.depth)?;
        if node.kind == Attribute {
            self.write(b" ", node.name, b"=\"")?;
            return self.write(b"", &node.value, b"\"");
        }
        if self.in_tag {
            self.write(b"", b">", b"")?;
        }
        self.in_tag = node.kind == Element;
        match node.kind {
            Element => {
                self.open.push(node.name)?;
                self.write(b"<", node.name, b"")
            }
            Comment => {
                self.write(b"<!--", &node.value, b"-->")?;
                self.end_line()
            }
            Instruction => {
                let space: &[u8] = if node.value.is_empty() { b"" } else { b" " };
                self.write(b"<?", node.name, space)?;
                self.write(b"", &node.value, b"?>")?;
                self.end_line()
            }
            _ => self.write(b"", &node.value, b""),
        }
    }

    // Closes elements until so many are open.
    fn close_to(&mut self, depth: usize) -> Result<(), AllocError> {
        for _ in depth..self.open.len() {
            let Some(name) = self.open.pop() else {
                break;
            };
            if self.in_tag {
                self.write(b"", b"/>", b"")?;
            } else {
                self.write(b"</", name, b">")?;
            }
            self.in_tag = false;
            self.end_line()?;
        }
        Ok(())
    }

    // Behind a kid of the document a line ends.
    fn end_line(&mut self) -> Result<(), AllocError> {
        if self.open.is_empty() {
            self.write(b"", b"\n", b"")?;
        }
        Ok(())
    }

    fn write(&mut self, front: &[u8], text: &[u8], back: &[u8]) -> Result<(), AllocError> {
        self.bytes.extend_from_slice(front)?;
        self.bytes.extend_from_slice(text)?;
        self.bytes.extend_from_slice(back)
    }
}
