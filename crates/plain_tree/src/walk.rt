// A walk over a tree in document order, with a stack of its own.
ghost use Rattle.std.specs.Prelude.{◌≡◌, [], IfOk, OnErr};
ghost use Rattle.plain_tree.specs.NodeTree.{tree_of};
ghost use Rattle.plain_tree.specs.Walks.{IsInside, left_at, left_in};

use crate::Node;
use std::alloc::{AllocError, Global};
use std::marker::Model;

/// What a walk meets: a node before its kids, or a node after them.
#[derive(Clone, Copy)]
pub enum Visit<'a> {
    Open(&'a Node),
    Close(&'a Node),
}

// A node that is open, and those of its kids that were not yet opened.
#[derive(Clone, Copy)]
struct Frame<'a> {
    node: &'a Node,
    rest: &'a [Node],
}

// Where a walk stands.
#[derive(Clone, Copy)]
enum Place<'a> {
    Before(&'a Node),
    Inside(Frame<'a>),
    Done,
}

/// A walk; contracts see the list of the visits that are left.
#[derive(Drop)]
pub struct Walk<'a> {
    place: Place<'a>,
    // the nodes that are open around the place, the innermost last
    outer: Vec<Frame<'a>>,
}

impl<'a> Model for Walk<'a> {
    ghost use Rattle.std.specs.Prelude.{List, []};
    ghost use Rattle.plain_tree.specs.Visits.{TreeVisit, visit_code};
    ghost use Rattle.std.specs.Coded.{coded_list};

    ghost Value = { List TreeVisit };

    ghost coded = { coded_list visit_code };

    ghost use Rattle.plain_tree.specs.Walks.{left_at, left_in};

    ghost view = { λ w. left_at w.place (left_in w.outer.items []) };
}

impl<'a> Walk<'a> {
    ghost use Rattle.plain_tree.specs.Visits.{visits};
    ghost use Rattle.plain_tree.specs.Seen.{IsNext};

    /// A walk over a node and all below it. It takes no memory.
    pub fn new(alloc: Global, root: &'a Node) -> Walk<'a>
        ensures { result ≡ visits (tree_of root.now) }
    {
        Walk {
            place: Place::Before(root),
            outer: Vec::new(alloc),
        }
    }

    /// The next visit, or None where none is left. It is refused only for want of memory.
    pub fn next(&mut self) -> Result<Option<Visit<'a>>, AllocError>
        ensures ok { IfOk result (λ visit. IsNext self.old visit self.new) }
        ensures err { OnErr result (self.new ≡ self.old) }
    {
        match self.place {
            Place::Before(root) => {
                self.place = inside(root);
                Ok(Some(Visit::Open(root)))
            }
            Place::Inside(frame) => match frame.rest.split_first() {
                Some((kid, rest)) => {
                    let node = frame.node;
                    self.outer.push(Frame { node, rest })?;
                    self.place = inside(kid);
                    Ok(Some(Visit::Open(kid)))
                }
                None => {
                    self.place = outward(&mut self.outer);
                    Ok(Some(Visit::Close(frame.node)))
                }
            },
            Place::Done => Ok(None),
        }
    }
}

// The place just inside a node.
fn inside(node: &Node) -> Place<'_>
    ensures { IsInside result node.now }
{
    Place::Inside(Frame {
        node,
        rest: node.kids.as_slice(),
    })
}

// The place just outside the innermost node, which is closed.
fn outward<'a>(outer: &mut Vec<Frame<'a>>) -> Place<'a>
    ensures { left_at result (left_in outer.new.items []) ≡ left_in outer.old.items [] }
{
    match outer.pop() {
        Some(frame) => Place::Inside(frame),
        None => Place::Done,
    }
}
