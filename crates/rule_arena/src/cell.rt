// What the arena keeps of a node, in 24 bytes.
ghost use Rattle.std.specs.Prelude.{◌≡◌, ◌≤◌, None};
ghost use Rattle.rule_arena.specs.Linked.{label_of, IsPlaced};

use crate::key::Key;
use crate::label::Label;
use std::marker::Model;

// Which label it is.
#[derive(Clone, Copy, Drop)]
pub(crate) enum LabelKind {
    Bottom,
    Symbol,
    Call,
    Param,
}

// A node: `place` is 0 for a root, and `up` then means nothing. Its children are `count` nodes: `first`, and then each one's `next`.
// So `first` means nothing where there is no child, and `next` nothing for a root and a last child.
#[derive(Drop)]
pub(crate) struct RawCell {
    number: usize,
    up: Key,
    first: Key,
    next: Key,
    place: u8,
    count: u8,
    kind: LabelKind,
}

impl Model for RawCell {
    ghost use Rattle.std.specs.Prelude.{◌≤◌};
    ghost use Rattle.rule_arena.specs.Linked.{Raw, label_of, parent_of};

    ghost Value = { Raw };

    ghost view = { λ c. record {
      label = label_of c.kind c.number;
      parent = parent_of c.place c.up;
      first = c.first;
      count = c.count;
      next = c.next;
    } };

    ghost invariant = { λ c. c.count ≤ 8 };
}

impl RawCell {
    // A root with no children.
    pub(crate) fn new(label: Label) -> RawCell
        ensures label { result.label ≡ label }
        ensures root { result.parent ≡ None }
        ensures empty { result.count ≡ 0 }
    {
        let (kind, number) = split(label);
        RawCell {
            number,
            up: Key::of(0),
            first: Key::of(0),
            next: Key::of(0),
            place: 0,
            count: 0,
            kind,
        }
    }

    pub(crate) fn label(&self) -> Label
        ensures { result ≡ self.now.label }
    {
        match self.kind {
            LabelKind::Bottom => Label::Bottom,
            LabelKind::Symbol => Label::Symbol(self.number),
            LabelKind::Call => Label::Call(self.number),
            LabelKind::Param => Label::Param,
        }
    }

    pub(crate) fn parent(&self) -> Option<(Key, usize)>
        ensures value { result ≡ self.now.parent }
        ensures placed { IsPlaced result }
    {
        if self.place == 0 {
            None
        } else {
            Some((self.up, self.place as usize))
        }
    }

    // The first child, where there is one.
    pub(crate) fn first(&self) -> Key
        ensures { result ≡ self.now.first }
    {
        self.first
    }

    // How many children there are.
    pub(crate) fn count(&self) -> usize
        ensures value { result ≡ self.now.count }
        ensures few { result ≤ 8 }
    {
        self.count as usize
    }

    // The next child of the parent, where there is one.
    pub(crate) fn next(&self) -> Key
        ensures { result ≡ self.now.next }
    {
        self.next
    }

    pub(crate) fn set_label(&mut self, label: Label)
        ensures { self.new ≡ record self.old { label = label } }
    {
        let (kind, number) = split(label);
        self.kind = kind;
        self.number = number;
    }

    pub(crate) fn set_parent(&mut self, parent: Option<(Key, usize)>)
        requires { IsPlaced parent }
        ensures { self.new ≡ record self.old { parent = parent } }
    {
        match parent {
            None => self.place = 0,
            Some((up, place)) => {
                self.up = up;
                self.place = place as u8;
            }
        }
    }

    pub(crate) fn set_first(&mut self, first: Key)
        ensures { self.new ≡ record self.old { first = first } }
    {
        self.first = first;
    }

    pub(crate) fn set_next(&mut self, next: Key)
        ensures { self.new ≡ record self.old { next = next } }
    {
        self.next = next;
    }

    pub(crate) fn set_kids(&mut self, first: Key, count: usize)
        requires { count ≤ 8 }
        ensures { self.new ≡ record self.old { first = first; count = count } }
    {
        self.first = first;
        self.count = count as u8;
    }

    // It is a root with no children from now on.
    pub(crate) fn strip(&mut self)
        ensures { self.new ≡ record self.old { parent = None; count = 0 } }
    {
        self.count = 0;
        self.place = 0;
    }
}

// A label's kind and number.
fn split(label: Label) -> (LabelKind, usize)
    ensures { label_of result.0 result.1 ≡ label }
{
    match label {
        Label::Bottom => (LabelKind::Bottom, 0),
        Label::Symbol(number) => (LabelKind::Symbol, number),
        Label::Call(number) => (LabelKind::Call, number),
        Label::Param => (LabelKind::Param, 0),
    }
}
