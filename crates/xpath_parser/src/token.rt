// What a query's tokens are.
use crate::query::Axis;

/// The place of a name or of a literal in the query's bytes.
#[derive(Clone, Copy, Debug, PartialEq, Eq)]
pub(crate) struct Span {
    pub from: usize,
    pub to: usize,
}

/// What a step asks of a node, its name by the place.
#[derive(Clone, Copy, Debug, PartialEq, Eq)]
pub(crate) enum Asked {
    Star,
    Name(Span),
    AnyNode,
    TextNode,
    CommentNode,
    InstructionNode,
}

/// Which nodes a comparison compares: the texts among the children, or the attributes with a name, by its place.
#[derive(Clone, Copy, Debug, PartialEq, Eq)]
pub(crate) enum Operand {
    Texts,
    Attributes(Span),
}

/// A token. A name with `::` is one, and so is a name with `(`, and for a test or a truth with `)`. A comparison is one, with its
/// literal, whose place is told. `and` and `or` are signs where an operand has just ended, and names elsewhere.
#[derive(Clone, Copy, Debug, PartialEq, Eq)]
pub(crate) enum Token {
    Along(Axis),
    Asks(Asked),
    Word(Span),
    AndWord(Span),
    OrWord(Span),
    Truth(bool),
    Compares(Operand, Span),
    Dot,
    Slash,
    Slashes,
    Bar,
    OpenFilter,
    CloseFilter,
    Open,
    NotOpen,
    Close,
}
